//! The calls on a signature and a key, and on what a signature says of its records.
ghost use Rattle.std.specs.Prelude.{◌≡◌, IfOk, map};
ghost use Rattle.std.specs.List.{AllByRecursion};
ghost use Rattle.std.specs.Option.{option_map, ForSome};
ghost use Rattle.std.specs.String.{string_bytes};
ghost use Rattle.dns_text.specs.Words.{words};
ghost use Rattle.dns_wire.specs.Reading.{GivesUnless};
ghost use Rattle.dns_message.specs.OwnedMessages.{IsReadRecord};
ghost use Rattle.dns_message.specs.Parts.{record_view};
ghost use Rattle.sec_sign.specs.Pairs.{lent_key, set_named};
ghost use Rattle.dns_rows.specs.declared.refusal.Refusal.TheVariants.{OutOfMemory as no_memory};
ghost use Rattle.dnsrows.specs.Pairs.{verdict_word, first_rrsig, pair_text, kept_for, pair_answer};
ghost use Rattle.dnsrows.specs.Pairs.{owner_answer, keep_answer, pair_calls};

use crate::messages::{message_in, signature_of};
use crate::signing;
use dns_message::Record;
use dns_rdata::RData;
use dns_rows::Refusal;
use dns_rows::call_words::{class_in, first_four, name_in, number_in, type_in};
use dns_rows::key_words::key_in;
use dns_text::{four_words, two_words};
use dns_types::RecordType;
use dns_wire::OutOfMemory;
use sec_sign::{
    AuthenticatedTtl, KeyedHash, PairVerdict, RrsetName, ZoneKey, authenticates, determine_name,
};
use std::alloc::Global;

fn verdict_word(verdict: PairVerdict) -> &'static str
    ensures { result.now ≡ verdict_word verdict }
{
    match verdict {
        PairVerdict::NotMet => "NotMet",
        PairVerdict::NotAccepted => "NotAccepted",
        PairVerdict::Authentic => "Authentic",
    }
}

/// The first record of type RRSIG.
fn first_rrsig(records: &[Record<RData>]) -> Option<&Record<RData>>
    requires { AllByRecursion IsReadRecord records.now }
    ensures found { option_map (λ rr. record_view rr.now) result ≡ first_rrsig (map record_view records.now) }
    ensures as_read { ForSome result (λ rr. IsReadRecord rr.now) }
{
    'records: for rr in records {
        if rr.record_type() == RecordType::RRSIG {
            return Some(rr);
        }
    }
    None
}

/// The verdict at a moment on a key and the first record of type RRSIG, for a set of these records.
#[tactic(auto, using(crate::proofs::PairSteps::pair_by_values))]
fn pair_text(
    alloc: Global,
    moment: u32,
    set: &RrsetName<'_>,
    key: &ZoneKey<'_>,
    answers: &[Record<RData>],
) -> Result<String, OutOfMemory>
    requires { AllByRecursion IsReadRecord answers.now }
    ensures { IfOk result (λ text. string_bytes text
        ≡ pair_text moment (set_named set.now) (lent_key key.now) (map record_view answers.now)) }
{
    let Some(rrsig) = first_rrsig(answers) else {
        return Ok(String::from_str(alloc, "none")?);
    };
    let verdict = authenticates(alloc, &KeyedHash, moment, set, rrsig, key, answers)?;
    Ok(String::from_str(alloc, verdict_word(verdict))?)
}

/// For how long the first of these records may be kept by the first signature among them.
fn kept_for(time: u32, records: &[Record<RData>]) -> Option<u32>
    requires { AllByRecursion IsReadRecord records.now }
    ensures { result ≡ kept_for time (map record_view records.now) }
{
    let first = records.first()?;
    let rrsig = signature_of(first_rrsig(records)?)?;
    Some(rrsig.authenticated_ttl(first, time))
}

/// `pair MOMENT NAME CLASS TYPE KEYOWNER KEYCLASS KEY HEX`: the verdict at a moment on a key and the first record of type
/// RRSIG among the answers of a message, for a set of the answers.
fn pair(alloc: Global, rest: &[u8]) -> Result<String, Refusal>
    ensures { GivesUnless no_memory (λ text. string_bytes text) result (pair_answer (words rest.now)) }
{
    let (moment, name, dns_class, rtype, rest) = first_four(rest)?;
    let (key_owner, key_class, key, message) = four_words(rest).ok_or(Refusal::NoCall)?;
    let moment = number_in(1 << 32, moment)? as u32;
    let name = name_in(name)?;
    let dns_class = class_in(dns_class)?;
    let rtype = type_in(rtype)?;
    let key_owner = name_in(key_owner)?;
    let key_class = class_in(key_class)?;
    let key = key_in(alloc, key)?;
    let message = message_in(alloc, message)?;
    let set = RrsetName {
        name: &name,
        dns_class,
        rtype,
    };
    let key = ZoneKey {
        owner: &key_owner,
        dns_class: key_class,
        dnskey: &key,
    };
    Ok(pair_text(alloc, moment, &set, &key, message.answers.as_slice())?)
}

/// `owner NAME LABELS`: the owner as a signature with so many labels covers it.
fn owner(alloc: Global, rest: &[u8]) -> Result<String, Refusal>
    ensures { GivesUnless no_memory (λ text. string_bytes text) result (owner_answer (words rest.now)) }
{
    let (name, labels) = two_words(rest).ok_or(Refusal::NoCall)?;
    let name = name_in(name)?;
    let labels = number_in(1 << 8, labels)? as u8;
    let owner = determine_name(&name, labels)?;
    Ok(owner.to_string(alloc)?)
}

/// `keep TIME HEX`: for how many seconds the first answer of a message may be kept from a time on, by the first signature
/// among the answers.
fn keep(alloc: Global, rest: &[u8]) -> Result<String, Refusal>
    ensures { GivesUnless no_memory (λ text. string_bytes text) result (keep_answer (words rest.now)) }
{
    let (time, message) = two_words(rest).ok_or(Refusal::NoCall)?;
    let time = number_in(1 << 32, time)? as u32;
    let message = message_in(alloc, message)?;
    match kept_for(time, message.answers.as_slice()) {
        Some(seconds) => Ok(seconds.to_string(alloc)?),
        None => Ok(String::from_str(alloc, "none")?),
    }
}

/// What the call of this word answers.
pub(crate) fn answer(alloc: Global, word: &[u8], rest: &[u8]) -> Result<String, Refusal>
    ensures { GivesUnless no_memory (λ text. string_bytes text) result (pair_calls word.now (words rest.now)) }
{
    if word == b"pair".as_slice() {
        pair(alloc, rest)
    } else if word == b"owner".as_slice() {
        owner(alloc, rest)
    } else if word == b"keep".as_slice() {
        keep(alloc, rest)
    } else {
        signing::answer(alloc, word, rest)
    }
}
