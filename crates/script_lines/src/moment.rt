//! The moment at which signatures are checked.

ghost use Rattle.dns_wire.specs.Reading.{GivesUnless};
ghost use Rattle.script_lines.specs.Lines.{moment_word};

use dns_script::{LineError, Reason, number_word};

/// The moment of a text of one word.
pub fn moment_word(text: &[u8]) -> Result<u32, LineError>
    ensures { GivesUnless LineError.OutOfMemory (λ moment. moment) result (moment_word text.now) }
{
    let moment = number_word(1 << 32, Reason::Moment, text)?;
    Ok(moment as u32)
}
