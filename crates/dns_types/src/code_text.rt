//! Types and classes read from text.
ghost use Rattle.std.specs.Prelude.{◌≡◌, map};
ghost use Rattle.dns_types.specs.Codes.{type_of, class_of, number_named, number_behind, same_text};

use crate::codes::{CLASSES, DNSClass, RecordType, TYPES};
use dns_text::number_below;

impl RecordType {
    /// The type that a text names: by its mnemonic, or by `TYPE` and its number in decimal digits (RFC 3597 5), in any
    /// case of letters. Leading zeros are allowed. `None` where the text names none, as with a number above 65,535.
    pub fn parse(text: &str) -> Option<RecordType>
        ensures { result ≡ type_of text.now }
    {
        RecordType::parse_octets(text.as_bytes())
    }

    /// As [`RecordType::parse`], of octets.
    pub fn parse_octets(text: &[u8]) -> Option<RecordType>
        ensures { result ≡ type_of text.now }
    {
        let number = number_named(&TYPES, text).or(number_behind("TYPE", text))?;
        Some(RecordType::from(number))
    }
}

impl DNSClass {
    /// The class that a text names: by its mnemonic, or by `CLASS` and its number in decimal digits (RFC 3597 5), in
    /// any case of letters. Leading zeros are allowed. `None` where the text names none, as with a number above 65,535.
    pub fn parse(text: &str) -> Option<DNSClass>
        ensures { result ≡ class_of text.now }
    {
        DNSClass::parse_octets(text.as_bytes())
    }

    /// As [`DNSClass::parse`], of octets.
    pub fn parse_octets(text: &[u8]) -> Option<DNSClass>
        ensures { result ≡ class_of text.now }
    {
        let number = number_named(&CLASSES, text).or(number_behind("CLASS", text))?;
        Some(DNSClass::from(number))
    }
}

/// The number whose mnemonic the text is, in any case.
fn number_named(codes: &[(u16, &'static str)], text: &[u8]) -> Option<u16>
    ensures { result ≡ number_named (map (λ entry. (entry.0, entry.1.now)) codes.now) text.now }
{
    'codes: for (number, mnemonic) in codes {
        if is_same_text(mnemonic.as_bytes(), text) {
            return Some(*number);
        }
    }
    None
}

/// Whether two texts are equal, the case of letters aside.
fn is_same_text(x: &[u8], y: &[u8]) -> bool
    ensures { result ≡ same_text x.now y.now }
{
    x.eq_ignore_ascii_case(y)
}

/// The number up to 65,535 that the digits behind a word write; the word may be in any case.
fn number_behind(word: &str, text: &[u8]) -> Option<u16>
    ensures { result ≡ number_behind word.now text.now }
{
    let (front, digits) = text.split_at_checked(word.len())?;
    if !front.eq_ignore_ascii_case(word.as_bytes()) {
        return None;
    }
    match number_below(1 << 16, digits) {
        Some(number) => Some(number as u16),
        None => None,
    }
}
