//! The calls on record data.
ghost use Rattle.std.specs.Prelude.{◌≤◌, length, IfOk};
ghost use Rattle.std.specs.String.{string_bytes};
ghost use Rattle.dns_text.specs.Words.{words};
ghost use Rattle.dns_wire.specs.Reading.{GivesUnless};
ghost use Rattle.dns_rdata.specs.RData.{rdata_type, rdata_values, RDataIsByNumber};
ghost use Rattle.dns_rows.specs.declared.refusal.Refusal.TheVariants.{OutOfMemory as no_memory};
ghost use Rattle.dnsshow.specs.DataCalls.{data_at, typed_data, rdata_answer, check_answer, canonical_answer};
ghost use Rattle.dnsshow.specs.DataCalls.{plain_answer, at_answer, data_calls};

use crate::keys;
use dns_rdata::RData;
use dns_rows::call_texts::written;
use dns_rows::call_words::{data_octets_in, number_in, octets_in, two_octets_in, type_in};
use dns_rows::{HexWord, Refusal};
use dns_text::{four_words, two_words};
use dns_types::RecordType;
use dns_wire::BinDecoder;
use std::alloc::Global;

/// The data of a record of this type that stand in octets.
#[tactic(auto, unfolding(dns_grammar::specs::RecordData::rdata_at))]
fn data_at(
    alloc: Global,
    rtype: RecordType,
    octets: &[u8],
    place: usize,
    len: u16,
) -> Result<RData, Refusal>
    requires { place ≤ length octets.now }
    ensures exact { GivesUnless no_memory (λ rdata. (rdata_type rdata, rdata_values rdata)) result
        (data_at rtype octets.now place len) }
    ensures by_number { IfOk result RDataIsByNumber }
{
    let mut decoder = BinDecoder::new(octets);
    decoder.set_index(place);
    Ok(RData::read(alloc, &mut decoder, rtype, len)?)
}

/// `TYPE HEX`: the data that are all the octets.
fn typed_data(alloc: Global, rest: &[u8]) -> Result<RData, Refusal>
    ensures exact { GivesUnless no_memory (λ rdata. (rdata_type rdata, rdata_values rdata)) result
        (typed_data (words rest.now)) }
    ensures by_number { IfOk result RDataIsByNumber }
{
    let (rtype, octets) = two_words(rest).ok_or(Refusal::NoCall)?;
    let rtype = type_in(rtype)?;
    let (octets, length) = data_octets_in(alloc, octets)?;
    data_at(alloc, rtype, &octets, 0, length)
}

/// `rdata TYPE HEX`: the text of the data.
#[tactic(auto, using(dns_rdata::proofs::DataText::text_of_data))]
fn rdata(alloc: Global, rest: &[u8]) -> Result<String, Refusal>
    ensures { GivesUnless no_memory (λ text. string_bytes text) result (rdata_answer (words rest.now)) }
{
    let rdata = typed_data(alloc, rest)?;
    Ok(rdata.to_string(alloc)?)
}

/// `check TYPE HEX`: `ok` for data that are let through.
fn check(alloc: Global, rest: &[u8]) -> Result<String, Refusal>
    ensures { GivesUnless no_memory (λ text. string_bytes text) result (check_answer (words rest.now)) }
{
    let (rtype, octets) = two_words(rest).ok_or(Refusal::NoCall)?;
    let rtype = type_in(rtype)?;
    let (octets, length) = data_octets_in(alloc, octets)?;
    RData::check(&mut BinDecoder::new(&octets), rtype, length)?;
    Ok(String::from_str(alloc, "ok")?)
}

/// `canonical TYPE HEX`: the canonical octets of the data.
#[tactic(auto, using(dns_rdata::proofs::TableLaws::canon_of_type))]
fn canonical(alloc: Global, rest: &[u8]) -> Result<String, Refusal>
    ensures { GivesUnless no_memory (λ text. string_bytes text) result (canonical_answer (words rest.now)) }
{
    let rdata = typed_data(alloc, rest)?;
    let octets = rdata.canonical_octets(alloc)?;
    Ok(HexWord(&octets).to_string(alloc)?)
}

/// `plain TYPE HEX`: the octets of the data, as they are written.
#[tactic(auto, using(dns_rdata::proofs::TableLaws::plain_of_type))]
fn plain(alloc: Global, rest: &[u8]) -> Result<String, Refusal>
    ensures { GivesUnless no_memory (λ text. string_bytes text) result (plain_answer (words rest.now)) }
{
    let rdata = typed_data(alloc, rest)?;
    let octets = written(alloc, &rdata)?;
    Ok(HexWord(&octets).to_string(alloc)?)
}

/// `at TYPE PLACE LENGTH HEX`: the text of data that stand in a longer string.
#[tactic(auto, using(dns_rdata::proofs::DataText::text_of_data))]
fn at(alloc: Global, rest: &[u8]) -> Result<String, Refusal>
    ensures { GivesUnless no_memory (λ text. string_bytes text) result (at_answer (words rest.now)) }
{
    let (rtype, place, length, octets) = four_words(rest).ok_or(Refusal::NoCall)?;
    let rtype = type_in(rtype)?;
    let octets = octets_in(alloc, octets)?;
    let place = number_in(octets.len() as u64 + 1, place)?;
    let length = two_octets_in(length)?;
    let rdata = data_at(alloc, rtype, &octets, place as usize, length)?;
    Ok(rdata.to_string(alloc)?)
}

/// What the call of this word answers.
pub(crate) fn answer(alloc: Global, word: &[u8], rest: &[u8]) -> Result<String, Refusal>
    ensures { GivesUnless no_memory (λ text. string_bytes text) result (data_calls word.now (words rest.now)) }
{
    if word == b"rdata".as_slice() {
        rdata(alloc, rest)
    } else if word == b"check".as_slice() {
        check(alloc, rest)
    } else if word == b"canonical".as_slice() {
        canonical(alloc, rest)
    } else if word == b"plain".as_slice() {
        plain(alloc, rest)
    } else if word == b"at".as_slice() {
        at(alloc, rest)
    } else {
        keys::answer(alloc, word, rest)
    }
}
