//! Reading a script: the lines, one by one, up to the first faulty one.

ghost use Rattle.std.specs.Prelude.{◌≡◌};
ghost use Rattle.std.specs.Str.{IsAscii};
ghost use Rattle.dns_wire.specs.Reading.{GivesUnless};
ghost use Rattle.dns_script.specs.LineErrors.{Adds};
ghost use Rattle.dns_script.specs.Scripts.{ScriptKind, add_line, script_of};

use crate::error::{LineError, ScriptError};
use crate::reason::Reason;
use dns_text::{is_skipped, is_text, split_line, split_word, without_return};
use std::alloc::Global;

/// What the lines of a script say so far.
pub trait Lines {
    ghost use Rattle.dns_script.specs.Scripts.{ScriptKind};

    /// What they say together, once nothing is missing.
    type Script;

    /// What each line adds, and when nothing is missing.
    ghost kind: { ScriptKind Self Self.Script };

    /// Before the first line.
    fn new(alloc: Global) -> Self
        ensures { result ≡ kind.nothing_said };

    /// Adds what one more line says, by its first word and the text after it, or says why the line is faulty.
    fn add(&mut self, alloc: Global, word: &[u8], text: &[u8]) -> Result<(), LineError>
        requires { IsAscii text.now }
        ensures { Adds result self.new (kind.add self.old word.now text.now) };

    /// The whole script, or `None` where something is missing.
    fn finish(self) -> Option<Self::Script>
        ensures { result ≡ kind.whole self };
}

// Adds what one more line says, or says why that is faulty.
fn add_line<L: Lines>(said: &mut L, alloc: Global, line: &[u8]) -> Result<(), LineError>
    ensures { Adds result said.new (add_line L.kind said.old line.now) }
{
    if is_skipped(line) {
        return Ok(());
    }
    if !is_text(line) {
        return Err(LineError::Fault(Reason::Text));
    }
    let Some((word, text)) = split_word(line) else {
        return Err(LineError::Fault(Reason::Word));
    };
    said.add(alloc, word, text)
}

/// The script that octets are.
pub fn read_script<L: Lines + Drop>(alloc: Global, octets: &[u8]) -> Result<L::Script, ScriptError>
    ensures { GivesUnless ScriptError.OutOfMemory (λ script. script) result (script_of L.kind octets.now) }
{
    let mut said = L::new(alloc);
    let mut rest = octets;
    let mut number = 1u64;
    'lines: while !rest.is_empty() {
        let (line, after) = split_line(rest);
        if let Err(error) = add_line(&mut said, alloc, without_return(line)) {
            return Err(error.numbered(number));
        }
        rest = after;
        number += 1;
    }
    match said.finish() {
        Some(script) => Ok(script),
        None => Err(ScriptError::Fault {
            line: number,
            reason: Reason::End,
        }),
    }
}
