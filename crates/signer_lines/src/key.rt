//! Who signs.

ghost use Rattle.std.specs.Prelude.{◌≡◌};
ghost use Rattle.std.specs.Option.{option_map};
ghost use Rattle.dns_text.specs.Words.{words};
ghost use Rattle.dns_wire.specs.Reading.{GivesUnless};
ghost use Rattle.sec_sigdata.specs.TsigAlgorithms.{algorithm_with};
ghost use Rattle.signer_lines.specs.Keys.{hash_named, key_words};

use dns_names::Name;
use dns_script::{LineError, Reason};
use dns_text::{decode_hex, four_words, number_below};
use sec_sigdata::TsigAlgorithm;
use sec_tsig::TSigner;
use std::alloc::Global;

/// The algorithm that a word names (RFC 8945 6).
fn algorithm_named(word: &[u8]) -> Option<TsigAlgorithm>
    ensures { result ≡ option_map algorithm_with (hash_named word.now) }
{
    if word == b"hmac-sha256".as_slice() {
        Some(TsigAlgorithm::HmacSha256)
    } else if word == b"hmac-sha384".as_slice() {
        Some(TsigAlgorithm::HmacSha384)
    } else if word == b"hmac-sha512".as_slice() {
        Some(TsigAlgorithm::HmacSha512)
    } else {
        None
    }
}

/// Who signs, of the words `ALGORITHM NAME FUDGE HEX`: the name of the key, its octets, and how many seconds times may
/// differ.
///
/// # Errors
///
/// `Fault(Key)` where a line has other words, or `OutOfMemory`.
pub fn key_words(alloc: Global, text: &[u8]) -> Result<TSigner, LineError>
    ensures { GivesUnless LineError.OutOfMemory (λ signer. signer) result (key_words (words text.now)) }
{
    let fault = LineError::Fault(Reason::Key);
    let (algorithm, name, fudge, key) = four_words(text).ok_or(fault)?;
    let algorithm = algorithm_named(algorithm).ok_or(fault)?;
    let name = Name::from_ascii_octets(name).ok().ok_or(fault)?;
    let fudge = number_below(1 << 16, fudge).ok_or(fault)?;
    let key = decode_hex(alloc, key)?.ok_or(fault)?;
    match TSigner::new(key, algorithm, name, fudge as u16) {
        Ok(signer) => Ok(signer),
        Err(_) => Err(fault),
    }
}
