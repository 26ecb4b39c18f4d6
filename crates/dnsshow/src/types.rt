//! The calls on types, classes and sets of types.
ghost use Rattle.std.specs.Prelude.{◌≡◌, map, length, IfOk};
ghost use Rattle.std.specs.String.{string_bytes};
ghost use Rattle.dns_text.specs.Words.{words};
ghost use Rattle.dns_wire.specs.Reading.{GivesUnless};
ghost use Rattle.dns_types.specs.Codes.{type_text};
ghost use Rattle.dns_types.specs.TypeSets.{types, types_at};
ghost use Rattle.dns_rows.specs.declared.refusal.Refusal.TheVariants.{OutOfMemory as no_memory};
ghost use Rattle.dns_rows.specs.Refusals.{decode_refusal, with_refusal};
ghost use Rattle.dnsshow.specs.TypeCalls.{type_answer, class_answer, types_named, types_answer, bitmap_answer};
ghost use Rattle.dnsshow.specs.TypeCalls.{type_calls};

use crate::codes;
use dns_rows::call_texts::separated;
use dns_rows::call_words::{octets_in, type_in};
use dns_rows::{HexWord, Refusal};
use dns_text::{one_word, split_word};
use dns_types::{DNSClass, RecordType, RecordTypeSet};
use dns_wire::{BinDecoder, OutOfMemory};
use std::alloc::Global;

/// `type WORD`: the number of the type, and its text.
fn type_named(alloc: Global, rest: &[u8]) -> Result<String, Refusal>
    ensures { GivesUnless no_memory (λ text. string_bytes text) result (type_answer (words rest.now)) }
{
    let word = one_word(rest).ok_or(Refusal::NoCall)?;
    match RecordType::parse_octets(word) {
        Some(rtype) => Ok(format!(in alloc; "{} {rtype}", u16::from(rtype))?),
        None => Ok(String::from_str(alloc, "none")?),
    }
}

/// `class WORD`: the number of the class, and its text.
fn class_named(alloc: Global, rest: &[u8]) -> Result<String, Refusal>
    ensures { GivesUnless no_memory (λ text. string_bytes text) result (class_answer (words rest.now)) }
{
    let word = one_word(rest).ok_or(Refusal::NoCall)?;
    match DNSClass::parse_octets(word) {
        Some(class) => Ok(format!(in alloc; "{} {class}", u16::from(class))?),
        None => Ok(String::from_str(alloc, "none")?),
    }
}

/// The types that the words of a line name.
#[tactic(auto, using(crate::proofs::Gathered::types_begin, crate::proofs::Gathered::types_more, crate::proofs::Gathered::types_end, crate::proofs::Gathered::types_refused))]
fn types_named(alloc: Global, line: &[u8]) -> Result<Vec<RecordType>, Refusal>
    ensures { GivesUnless no_memory (λ types. types.items) result (types_named (words line.now)) }
{
    let mut types = Vec::new(alloc);
    let mut rest = line;
    'words: while let Some((word, after)) = split_word(rest) {
        types.push(type_in(word)?)?;
        rest = after;
    }
    Ok(types)
}

/// `types WORD..`: the bitmap of these types.
fn bitmap_of_types(alloc: Global, rest: &[u8]) -> Result<String, Refusal>
    ensures { GivesUnless no_memory (λ text. string_bytes text) result (types_answer (words rest.now)) }
{
    let types = types_named(alloc, rest)?;
    let set = RecordTypeSet::new(alloc, &types)?;
    Ok(HexWord(set.as_octets()).to_string(alloc)?)
}

/// The texts of the types of a set.
fn type_texts(alloc: Global, set: &RecordTypeSet) -> Result<Vec<String>, OutOfMemory>
    ensures { IfOk result (λ texts. map string_bytes texts.items ≡ map type_text (types set.now)) }
{
    let mut texts = Vec::new(alloc);
    'types: for rtype in set.iter() {
        texts.push(rtype.to_string(alloc)?)?;
    }
    Ok(texts)
}

/// The set of types of a bitmap.
fn set_of_bitmap(alloc: Global, octets: &[u8]) -> Result<RecordTypeSet, Refusal>
    ensures { GivesUnless no_memory (λ set. (set, length octets.now)) result
        (with_refusal decode_refusal (types_at octets.now 0 (length octets.now))) }
{
    let end = octets.len();
    let mut decoder = BinDecoder::new(octets);
    Ok(RecordTypeSet::read_within(alloc, &mut decoder, end)?)
}

/// `bitmap HEX`: the types of a bitmap.
fn types_of_bitmap(alloc: Global, rest: &[u8]) -> Result<String, Refusal>
    ensures { GivesUnless no_memory (λ text. string_bytes text) result (bitmap_answer (words rest.now)) }
{
    let word = one_word(rest).ok_or(Refusal::NoCall)?;
    let octets = octets_in(alloc, word)?;
    let set = set_of_bitmap(alloc, &octets)?;
    let texts = type_texts(alloc, &set)?;
    Ok(separated(alloc, " ", &texts)?)
}

/// What the call of this word answers.
pub(crate) fn answer(alloc: Global, word: &[u8], rest: &[u8]) -> Result<String, Refusal>
    ensures { GivesUnless no_memory (λ text. string_bytes text) result (type_calls word.now (words rest.now)) }
{
    if word == b"type".as_slice() {
        type_named(alloc, rest)
    } else if word == b"class".as_slice() {
        class_named(alloc, rest)
    } else if word == b"types".as_slice() {
        bitmap_of_types(alloc, rest)
    } else if word == b"bitmap".as_slice() {
        types_of_bitmap(alloc, rest)
    } else {
        codes::answer(alloc, word, rest)
    }
}
