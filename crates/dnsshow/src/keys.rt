//! The calls on the records of keys.
ghost use Rattle.std.specs.String.{string_bytes};
ghost use Rattle.dns_text.specs.Words.{words};
ghost use Rattle.dns_wire.specs.Reading.{GivesUnless};
ghost use Rattle.dns_rows.specs.declared.refusal.Refusal.TheVariants.{OutOfMemory as no_memory};
ghost use Rattle.dnsshow.specs.KeyCalls.{dnskey_answer, ds_answer, tag_answer, digest_answer, ds_of_answer};
ghost use Rattle.dnsshow.specs.KeyCalls.{covers_answer, key_calls};

use crate::joined_words::joined;
use crate::message;
use dns_rows::call_texts::{written, yes_or_no};
use dns_rows::call_words::{name_in, octet_in, text_in};
use dns_rows::key_words::{ds_in, key_in};
use dns_rows::{HexWord, Refusal};
use dns_text::{one_word, three_words};
use sec_codes::PublicKey;
use sec_digest::DigestType;
use sec_keydata::{DNSKEY, DS};
use std::alloc::Global;

/// `dnskey WORD..`: the octets of the data that the words of a zone file write.
fn dnskey(alloc: Global, rest: &[u8]) -> Result<String, Refusal>
    ensures { GivesUnless no_memory (λ text. string_bytes text) result (dnskey_answer (words rest.now)) }
{
    let text = joined(alloc, rest)?;
    let key = DNSKEY::from_tokens(alloc, text_in(&text)?)?;
    let octets = written(alloc, &key)?;
    Ok(HexWord(&octets).to_string(alloc)?)
}

/// `ds WORD..`: the octets of the data that the words of a zone file write.
fn ds(alloc: Global, rest: &[u8]) -> Result<String, Refusal>
    ensures { GivesUnless no_memory (λ text. string_bytes text) result (ds_answer (words rest.now)) }
{
    let text = joined(alloc, rest)?;
    let ds = DS::from_tokens(alloc, text_in(&text)?)?;
    let octets = written(alloc, &ds)?;
    Ok(HexWord(&octets).to_string(alloc)?)
}

/// `tag HEX`: the tag of a key.
fn tag(alloc: Global, rest: &[u8]) -> Result<String, Refusal>
    ensures { GivesUnless no_memory (λ text. string_bytes text) result (tag_answer (words rest.now)) }
{
    let word = one_word(rest).ok_or(Refusal::NoCall)?;
    let key = key_in(alloc, word)?;
    let tag = key.calculate_key_tag()?;
    Ok(tag.to_string(alloc)?)
}

/// `digest NAME HEX NUMBER`: the digest of a key at its owner, by the digest type of this number.
fn digest(alloc: Global, rest: &[u8]) -> Result<String, Refusal>
    ensures { GivesUnless no_memory (λ text. string_bytes text) result (digest_answer (words rest.now)) }
{
    let (name, key, number) = three_words(rest).ok_or(Refusal::NoCall)?;
    let name = name_in(name)?;
    let number = octet_in(number)?;
    let key = key_in(alloc, key)?;
    let digest = key.to_digest(&name, DigestType::from(number))?;
    Ok(HexWord(digest.as_slice()).to_string(alloc)?)
}

/// `ds-of NAME HEX NUMBER`: the text of the data of the DS record of a key at its owner.
fn ds_of(alloc: Global, rest: &[u8]) -> Result<String, Refusal>
    ensures { GivesUnless no_memory (λ text. string_bytes text) result (ds_of_answer (words rest.now)) }
{
    let (name, key, number) = three_words(rest).ok_or(Refusal::NoCall)?;
    let name = name_in(name)?;
    let number = octet_in(number)?;
    let key = key_in(alloc, key)?;
    let tag = key.calculate_key_tag()?;
    let digest_type = DigestType::from(number);
    let digest = key.to_digest(&name, digest_type)?;
    let octets = Vec::from_slice(alloc, digest.as_slice())?;
    let ds = DS::new(tag, key.public_key().algorithm(), digest_type, octets);
    Ok(ds.to_string(alloc)?)
}

/// `covers NAME DS KEY`: whether a DS covers a key at its owner.
fn covers(alloc: Global, rest: &[u8]) -> Result<String, Refusal>
    ensures { GivesUnless no_memory (λ text. string_bytes text) result (covers_answer (words rest.now)) }
{
    let (name, ds, key) = three_words(rest).ok_or(Refusal::NoCall)?;
    let name = name_in(name)?;
    let ds = ds_in(alloc, ds)?;
    let key = key_in(alloc, key)?;
    let covers = ds.covers(&name, &key)?;
    Ok(String::from_str(alloc, yes_or_no(covers))?)
}

/// What the call of this word answers.
pub(crate) fn answer(alloc: Global, word: &[u8], rest: &[u8]) -> Result<String, Refusal>
    ensures { GivesUnless no_memory (λ text. string_bytes text) result (key_calls word.now (words rest.now)) }
{
    if word == b"dnskey".as_slice() {
        dnskey(alloc, rest)
    } else if word == b"ds".as_slice() {
        ds(alloc, rest)
    } else if word == b"tag".as_slice() {
        tag(alloc, rest)
    } else if word == b"digest".as_slice() {
        digest(alloc, rest)
    } else if word == b"ds-of".as_slice() {
        ds_of(alloc, rest)
    } else if word == b"covers".as_slice() {
        covers(alloc, rest)
    } else {
        message::answer(alloc, word, rest)
    }
}
