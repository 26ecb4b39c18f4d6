//! The commands of the program.
ghost use Rattle.std.specs.Prelude.{◌≡◌};
ghost use Rattle.dnscheck.specs.Commands.{command_of, demo_count};

use dns_text::number_below;

/// What the program is to do.
#[derive(Clone, Copy, Debug, PartialEq, Eq)]
pub enum Command {
    /// Check the script that is read.
    Check,
    /// Check a script of so many answers that the program makes.
    Demo(u16),
}

/// How many answers a demo has, by a word.
fn demo_count(word: &[u8]) -> Option<u16>
    ensures { result ≡ demo_count word.now }
{
    let count = number_below(1001, word)?;
    if count == 0 { None } else { Some(count as u16) }
}

/// The command that the words behind the program's name are, if they are one.
#[tactic(auto, unfolding(crate::specs::Commands::command_of))]
pub(crate) fn command_of(words: &[String]) -> Option<Command>
    ensures { result ≡ command_of words.now }
{
    match words {
        [word] => {
            if word.as_bytes() == b"check".as_slice() {
                Some(Command::Check)
            } else {
                None
            }
        }
        [word, number] => {
            if word.as_bytes() == b"demo".as_slice() {
                let count = demo_count(number.as_bytes())?;
                Some(Command::Demo(count))
            } else {
                None
            }
        }
        _ => None,
    }
}
