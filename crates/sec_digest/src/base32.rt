//! The text of hashed names: base32 as DNSSEC writes it.

ghost use Rattle.std.specs.Prelude.{◌≡◌, ◌≤◌, ◌<◌, length, take, slice_index, Some, IfOk};
ghost use Rattle.std.specs.String.{string_bytes};
ghost use Rattle.sec_digest.specs.Base32.{base32, digit_of, hash_label};
ghost use Rattle.sec_digest.specs.Base32 as specs;

use dns_names::Label;
use dns_wire::OutOfMemory;
use std::alloc::Global;
use std::fmt;

// The digits of base32 with the extended hex alphabet (RFC 4648, table 4), in lower case.
const DIGITS: [u8; 32] = *b"0123456789abcdefghijklmnopqrstuv";

/// Octets that print as base32 with the extended hex alphabet, in lower case and without padding (RFC 4648, section 7;
/// RFC 5155, section 3.3): a digit for each five bits from the left, the last filled with zero bits.
#[derive(Clone, Copy)]
pub struct Base32Text<'a>(pub &'a [u8]);

impl fmt::Display for Base32Text<'_> {
    ghost output = { λ text. Some (base32 text.0.now) };

    #[tactic(auto, using(crate::proofs::DigitSteps::digit_steps))]
    fn fmt<W: fmt::Write>(&self, f: &mut fmt::Formatter<W>) -> fmt::Result {
        let octets = self.0;
        for i in 0..digit_count(octets) {
            let digit = digit_at(octets, i);
            write!(f, "{}", char::from(digit))?;
        }
        Ok(())
    }
}

/// The octets in base32, as `Base32Text` prints them.
///
/// # Errors
///
/// Out of memory.
pub fn base32_dnssec(alloc: Global, octets: &[u8]) -> Result<String, OutOfMemory>
    ensures { IfOk result (λ text. string_bytes text ≡ base32 octets.now) }
{
    let text = format!(in alloc; "{}", Base32Text(octets))?;
    Ok(text)
}

/// The label of a hashed name, which is its hash in base32 (RFC 5155, section 3). `None` where that is no label: for a
/// hash of no octet, and of more than 39.
pub fn base32_label(hash: &[u8]) -> Option<Label>
    ensures { result ≡ hash_label hash.now }
{
    if hash.is_empty() || hash.len() > 39 {
        return None;
    }
    let digits = label_digits(hash);
    Label::from_bytes(&digits[..digit_count(hash)]).ok()
}

// The digits of a hash of at most 39 octets, and zero octets behind them.
#[tactic(auto, using(crate::proofs::DigitSteps::has_none, crate::proofs::DigitSteps::has_all))]
fn label_digits(hash: &[u8]) -> [u8; 63]
    requires { length hash.now ≤ 39 }
    ensures digits { take (specs.digit_count (length hash.now)) result ≡ base32 hash.now }
    ensures len { length result ≡ 63 }
{
    let mut digits = no_digits();
    for i in 0..digit_count(hash) {
        digits[i] = digit_at(hash, i);
    }
    digits
}

// Room for the digits of a label.
fn no_digits() -> [u8; 63]
    ensures { length result ≡ 63 }
{
    [0; 63]
}

// How many digits there are.
fn digit_count(octets: &[u8]) -> usize
    ensures { result ≡ specs.digit_count (length octets.now) }
{
    octets.len() / 5 * 8 + (octets.len() % 5 * 8 + 4) / 5
}

// The digit of the five bits from bit 5 * i on.
fn digit_at(octets: &[u8], i: usize) -> u8
    requires { i < specs.digit_count (length octets.now) }
    ensures value { result ≡ specs.digit_at octets.now i }
    ensures ascii { result < 128 }
{
    let start = i / 8 * 5 + i % 8 * 5 / 8;
    let skip = i % 8 * 5 % 8;
    let next = octet_or_zero(octets, start + 1);
    let pair = u16::from_be_bytes([octets[start], next]);
    digit(usize::from(pair >> (11 - skip) & 31))
}

// The digit of a number below 32.
fn digit(value: usize) -> u8
    requires { value < 32 }
    ensures value { result ≡ digit_of value }
    ensures ascii { result < 128 }
{
    DIGITS[value]
}

// The octet at i, and 0 behind the last.
fn octet_or_zero(octets: &[u8], i: usize) -> u8
    ensures { result ≡ slice_index octets.now i }
{
    octets.get(i).copied().unwrap_or(0)
}
