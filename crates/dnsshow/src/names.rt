//! The calls on names.
ghost use Rattle.std.specs.Prelude.{◌≡◌, ◌↔◌, IsTrue};
ghost use Rattle.std.specs.String.{string_bytes};
ghost use Rattle.dns_text.specs.Words.{words};
ghost use Rattle.dns_wire.specs.Reading.{GivesUnless};
ghost use Rattle.dns_names.specs.Names.{Under};
ghost use Rattle.dns_rows.specs.declared.refusal.Refusal.TheVariants.{OutOfMemory as no_memory};
ghost use Rattle.dnsshow.specs.NameCalls.{name_answer, read_name_answer, ordering_text, order_answer, is_within};
ghost use Rattle.dnsshow.specs.NameCalls.{within_answer, trim_answer, name_calls};

use crate::types;
use dns_names::Name;
use dns_rows::call_texts::yes_or_no;
use dns_rows::call_words::{name_in, number_in, octets_in, two_octets_in};
use dns_rows::{HexWord, Refusal};
use dns_text::{one_word, three_words, two_words};
use dns_wire::BinDecoder;
use std::alloc::Global;
use std::cmp::Ordering;

/// `name TEXT`: the wire form of the name, and its text.
fn name(alloc: Global, rest: &[u8]) -> Result<String, Refusal>
    ensures { GivesUnless no_memory (λ text. string_bytes text) result (name_answer (words rest.now)) }
{
    let word = one_word(rest).ok_or(Refusal::NoCall)?;
    let name = name_in(word)?;
    Ok(format!(in alloc; "{} {name}", HexWord(name.as_wire()))?)
}

/// `read-name PLACE END HEX`: the name at a place, and the place after it.
fn read_name(alloc: Global, rest: &[u8]) -> Result<String, Refusal>
    ensures { GivesUnless no_memory (λ text. string_bytes text) result (read_name_answer (words rest.now)) }
{
    let (place, end, octets) = three_words(rest).ok_or(Refusal::NoCall)?;
    let octets = octets_in(alloc, octets)?;
    let end = number_in(octets.len() as u64 + 1, end)?;
    let place = number_in(end + 1, place)?;
    let mut decoder = BinDecoder::new(&octets);
    decoder.set_index(place as usize);
    let name = Name::read_within(&mut decoder, end as usize)?;
    Ok(format!(in alloc; "{name} {}", decoder.index())?)
}

fn ordering_text(ordering: Ordering) -> &'static str
    ensures { result.now ≡ ordering_text ordering }
{
    match ordering {
        Ordering::Less => "less",
        Ordering::Equal => "equal",
        Ordering::Greater => "greater",
    }
}

/// `order NAME NAME`: how the first stands to the second in the canonical order.
fn order(alloc: Global, rest: &[u8]) -> Result<String, Refusal>
    ensures { GivesUnless no_memory (λ text. string_bytes text) result (order_answer (words rest.now)) }
{
    let (first, second) = two_words(rest).ok_or(Refusal::NoCall)?;
    let first = name_in(first)?;
    let second = name_in(second)?;
    Ok(String::from_str(alloc, ordering_text(first.cmp(&second)))?)
}

/// Whether a name is in a zone.
#[tactic(auto, using(dns_names::proofs::AboveBelow::zone_decides))]
fn is_within(zone: &Name, name: &Name) -> bool
    ensures value { result ≡ is_within zone.now name.now }
    ensures under { IsTrue result ↔ Under name.now zone.now }
{
    zone.zone_of(name)
}

/// `within ZONE NAME`: whether the name is in the zone.
fn within(alloc: Global, rest: &[u8]) -> Result<String, Refusal>
    ensures { GivesUnless no_memory (λ text. string_bytes text) result (within_answer (words rest.now)) }
{
    let (zone, name) = two_words(rest).ok_or(Refusal::NoCall)?;
    let zone = name_in(zone)?;
    let name = name_in(name)?;
    Ok(String::from_str(alloc, yes_or_no(is_within(&zone, &name)))?)
}

/// `trim NAME N`: the last labels of a name, so many.
fn trim(alloc: Global, rest: &[u8]) -> Result<String, Refusal>
    ensures { GivesUnless no_memory (λ text. string_bytes text) result (trim_answer (words rest.now)) }
{
    let (name, count) = two_words(rest).ok_or(Refusal::NoCall)?;
    let name = name_in(name)?;
    let count = two_octets_in(count)?;
    Ok(name.trim_to(usize::from(count)).to_string(alloc)?)
}

/// What the call of this word answers.
pub(crate) fn answer(alloc: Global, word: &[u8], rest: &[u8]) -> Result<String, Refusal>
    ensures { GivesUnless no_memory (λ text. string_bytes text) result (name_calls word.now (words rest.now)) }
{
    if word == b"name".as_slice() {
        name(alloc, rest)
    } else if word == b"read-name".as_slice() {
        read_name(alloc, rest)
    } else if word == b"order".as_slice() {
        order(alloc, rest)
    } else if word == b"within".as_slice() {
        within(alloc, rest)
    } else if word == b"trim".as_slice() {
        trim(alloc, rest)
    } else {
        types::answer(alloc, word, rest)
    }
}
