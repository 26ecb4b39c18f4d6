//! Lines of one word after the first.

ghost use Rattle.dns_wire.specs.Reading.{GivesUnless};
ghost use Rattle.dns_script.specs.OneWord.{number_word, octets_word};

use crate::error::LineError;
use crate::reason::Reason;
use dns_text::{decode_hex, number_below, one_word};
use std::alloc::Global;

/// The number below `end` that a text of one word writes; else the line is faulty for this reason.
pub fn number_word(end: u64, reason: Reason, text: &[u8]) -> Result<u64, LineError>
    ensures { GivesUnless LineError.OutOfMemory (λ number. number) result (number_word end reason text.now) }
{
    let word = one_word(text).ok_or(LineError::Fault(reason))?;
    number_below(end, word).ok_or(LineError::Fault(reason))
}

/// The octets that a text of one word writes in hexadecimal; else the line is faulty for this reason.
pub fn octets_word(alloc: Global, reason: Reason, text: &[u8]) -> Result<Vec<u8>, LineError>
    ensures { GivesUnless LineError.OutOfMemory (λ octets. octets.items) result (octets_word reason text.now) }
{
    let word = one_word(text).ok_or(LineError::Fault(reason))?;
    decode_hex(alloc, word)?.ok_or(LineError::Fault(reason))
}
