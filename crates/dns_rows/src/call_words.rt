//! The words of a call, each as what it writes.
ghost use Rattle.std.specs.Prelude.{◌≡◌, ◌<◌, ◌^◌, IfOk};
ghost use Rattle.dns_text.specs.Words.{words};
ghost use Rattle.dns_wire.specs.Reading.{Gives, GivesUnless};
ghost use Rattle.dns_rows.specs.declared.refusal.Refusal.TheVariants.{OutOfMemory as no_memory};
ghost use Rattle.dns_rows.specs.CallWords.{first_four, name_in, class_in, type_in, number_in, octets_in};
ghost use Rattle.dns_rows.specs.CallWords.{data_octets_in, text_in};

use crate::refusal::Refusal;
use dns_names::Name;
use dns_text::{decode_hex, number_below, split_word};
use dns_types::{DNSClass, RecordType};
use std::alloc::Global;
use std::str;

/// The first four words of a line, and what stands after them.
pub fn first_four(line: &[u8]) -> Result<(&[u8], &[u8], &[u8], &[u8], &[u8]), Refusal>
    ensures { Gives (λ found. (found.0.now, found.1.now, found.2.now, found.3.now, words found.4.now)) result
        (first_four (words line.now)) }
{
    let (first, rest) = split_word(line).ok_or(Refusal::NoCall)?;
    let (second, rest) = split_word(rest).ok_or(Refusal::NoCall)?;
    let (third, rest) = split_word(rest).ok_or(Refusal::NoCall)?;
    let (fourth, rest) = split_word(rest).ok_or(Refusal::NoCall)?;
    Ok((first, second, third, fourth, rest))
}

/// The name that a word writes.
pub fn name_in(word: &[u8]) -> Result<Name, Refusal>
    ensures { result ≡ name_in word.now }
{
    Ok(Name::from_ascii_octets(word)?)
}

/// The class that a word names.
pub fn class_in(word: &[u8]) -> Result<DNSClass, Refusal>
    ensures { result ≡ class_in word.now }
{
    DNSClass::parse_octets(word).ok_or(Refusal::NoCall)
}

/// The type that a word names.
pub fn type_in(word: &[u8]) -> Result<RecordType, Refusal>
    ensures { result ≡ type_in word.now }
{
    RecordType::parse_octets(word).ok_or(Refusal::NoCall)
}

/// The number below an end that a word writes.
pub fn number_in(end: u64, word: &[u8]) -> Result<u64, Refusal>
    ensures exact { result ≡ number_in end word.now }
    ensures below { IfOk result (λ number. number < end) }
{
    number_below(end, word).ok_or(Refusal::NoCall)
}

/// The number of one octet that a word writes.
pub fn octet_in(word: &[u8]) -> Result<u8, Refusal>
    ensures { result ≡ number_in (2 ^ 8) word.now }
{
    match number_below(1 << 8, word) {
        Some(number) => Ok(number as u8),
        None => Err(Refusal::NoCall),
    }
}

/// The number of two octets that a word writes.
pub fn two_octets_in(word: &[u8]) -> Result<u16, Refusal>
    ensures { result ≡ number_in (2 ^ 16) word.now }
{
    match number_below(1 << 16, word) {
        Some(number) => Ok(number as u16),
        None => Err(Refusal::NoCall),
    }
}

/// The octets that a word writes in hexadecimal.
pub fn octets_in(alloc: Global, word: &[u8]) -> Result<Vec<u8>, Refusal>
    ensures { GivesUnless no_memory (λ octets. octets.items) result (octets_in word.now) }
{
    decode_hex(alloc, word)?.ok_or(Refusal::NoCall)
}

/// Octets that the data of a record can have, in hexadecimal, and how many they are.
pub fn data_octets_in(alloc: Global, word: &[u8]) -> Result<(Vec<u8>, u16), Refusal>
    ensures { GivesUnless no_memory (λ found. (found.0.items, found.1)) result (data_octets_in word.now) }
{
    let octets = octets_in(alloc, word)?;
    match u16::try_from(octets.len()) {
        Ok(length) => Ok((octets, length)),
        Err(_) => Err(Refusal::NoCall),
    }
}

/// Octets as the text that they are.
pub fn text_in(octets: &[u8]) -> Result<&str, Refusal>
    ensures { Gives (λ text. text.now) result (text_in octets.now) }
{
    match str::from_utf8(octets) {
        Ok(text) => Ok(text),
        Err(_) => Err(Refusal::NoCall),
    }
}
