//! The calls on anchor texts.
ghost use Rattle.std.specs.Prelude.{◌≡◌, IfOk, map};
ghost use Rattle.std.specs.String.{string_bytes};
ghost use Rattle.dns_text.specs.Words.{words};
ghost use Rattle.dns_wire.specs.Reading.{GivesUnless};
ghost use Rattle.sec_anchor.specs.Entries.{entry_data};
ghost use Rattle.dns_rows.specs.declared.refusal.Refusal.TheVariants.{OutOfMemory as no_memory};
ghost use Rattle.dnsshow.specs.AnchorCalls.{entry_text, entries_answer, anchor_answer, anchors_answer, anchor_calls};

use crate::data;
use crate::joined_words::joined;
use dns_rows::Refusal;
use dns_rows::call_texts::separated;
use dns_rows::call_words::{octets_in, text_in};
use dns_text::one_word;
use dns_wire::OutOfMemory;
use sec_anchor::{Entry, Parser};
use std::alloc::Global;

/// An entry as a line of a zone file has it, and `-` where it has no TTL.
fn entry_text(alloc: Global, entry: &Entry) -> Result<String, OutOfMemory>
    ensures { IfOk result (λ text. string_bytes text ≡ entry_text (entry_data entry.now)) }
{
    let Entry::DNSKEY(record) = entry;
    let (name, class, key) = (record.name(), record.dns_class(), record.data());
    match record.ttl() {
        Some(ttl) => Ok(format!(in alloc; "{name} {ttl} {class} DNSKEY {key}")?),
        None => Ok(format!(in alloc; "{name} - {class} DNSKEY {key}")?),
    }
}

/// The texts of entries.
fn entry_texts(alloc: Global, entries: &[Entry]) -> Result<Vec<String>, OutOfMemory>
    ensures { IfOk result (λ texts. map string_bytes texts.items ≡ map entry_text (map entry_data entries.now)) }
{
    let mut texts = Vec::new(alloc);
    'entries: for entry in entries {
        texts.push(entry_text(alloc, entry)?)?;
    }
    Ok(texts)
}

/// The entries of a text.
fn entries(alloc: Global, octets: &[u8]) -> Result<String, Refusal>
    ensures { GivesUnless no_memory (λ text. string_bytes text) result (entries_answer octets.now) }
{
    let text = text_in(octets)?;
    let entries = Parser::new(text).parse(alloc)?;
    let texts = entry_texts(alloc, &entries)?;
    Ok(separated(alloc, " | ", &texts)?)
}

/// `anchor TEXT`: the entries of one line.
fn anchor(alloc: Global, rest: &[u8]) -> Result<String, Refusal>
    ensures { GivesUnless no_memory (λ text. string_bytes text) result (anchor_answer (words rest.now)) }
{
    let text = joined(alloc, rest)?;
    entries(alloc, &text)
}

/// `anchors HEX`: the entries of a text.
fn anchors(alloc: Global, rest: &[u8]) -> Result<String, Refusal>
    ensures { GivesUnless no_memory (λ text. string_bytes text) result (anchors_answer (words rest.now)) }
{
    let word = one_word(rest).ok_or(Refusal::NoCall)?;
    let octets = octets_in(alloc, word)?;
    entries(alloc, &octets)
}

/// What the call of this word answers.
pub(crate) fn answer(alloc: Global, word: &[u8], rest: &[u8]) -> Result<String, Refusal>
    ensures { GivesUnless no_memory (λ text. string_bytes text) result (anchor_calls word.now (words rest.now)) }
{
    if word == b"anchor".as_slice() {
        anchor(alloc, rest)
    } else if word == b"anchors".as_slice() {
        anchors(alloc, rest)
    } else {
        data::answer(alloc, word, rest)
    }
}
