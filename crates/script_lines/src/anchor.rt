//! The trusted entries of a script.

ghost use Rattle.std.specs.Prelude.{map};
ghost use Rattle.std.specs.Str.{IsAscii};
ghost use Rattle.dns_wire.specs.Reading.{GivesUnless};
ghost use Rattle.sec_anchor.specs.Entries.{entry_data};
ghost use Rattle.script_lines.specs.Lines.{anchor_text};

use dns_script::{LineError, Reason};
use sec_anchor::{Entry, ParseError, Parser};
use std::alloc::Global;
use std::str;

/// The entries of an anchor text.
pub fn anchor_entries(alloc: Global, text: &[u8]) -> Result<Vec<Entry>, LineError>
    requires { IsAscii text.now }
    ensures { GivesUnless LineError.OutOfMemory (λ entries. map entry_data entries.items) result (anchor_text text.now) }
{
    let Ok(text) = str::from_utf8(text) else {
        return Err(LineError::Fault(Reason::Anchor));
    };
    match Parser::new(text).parse(alloc) {
        Ok(entries) => Ok(entries),
        Err(ParseError::OutOfMemory) => Err(LineError::OutOfMemory),
        Err(_) => Err(LineError::Fault(Reason::Anchor)),
    }
}
