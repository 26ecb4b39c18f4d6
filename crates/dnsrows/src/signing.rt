//! The call that signs a record set, by keyed hashes.
ghost use Rattle.std.specs.Prelude.{◌≡◌, ◌++◌, ◌∷◌, [], IfOk, OnOk, filter, map};
ghost use Rattle.std.specs.List.{AllByRecursion};
ghost use Rattle.std.specs.String.{string_bytes};
ghost use Rattle.dns_text.specs.Words.{words};
ghost use Rattle.dns_wire.specs.Reading.{GivesUnless};
ghost use Rattle.dns_message.specs.OwnedMessages.{IsReadRecord};
ghost use Rattle.dns_message.specs.Parts.{record_view};
ghost use Rattle.sec_keydata.specs.DnsKeys.{dnskey_data};
ghost use Rattle.sec_sigdata.specs.Signatures.{rrsig_data};
ghost use Rattle.dns_rows.specs.declared.refusal.Refusal.TheVariants.{OutOfMemory as no_memory};
ghost use Rattle.dnsrows.specs.Signing.{is_same, hash_signer, signed_set, signed_text, sign_answer, signing_calls};

use crate::messages::message_in;
use crate::transactions;
use dns_message::{Record, RecordSet};
use dns_names::Name;
use dns_rdata::RData;
use dns_rows::Refusal;
use dns_rows::call_words::{first_four, name_in, number_in, octets_in};
use dns_text::three_words;
use dns_types::{DNSClass, RecordType};
use dns_wire::OutOfMemory;
use sec_codes::{Algorithm, PublicKey, PublicKeyBuf};
use sec_keydata::DNSKEY;
use sec_sigdata::RRSIG;
use sec_sign::{DnssecSigner, KeyedHashKey, SignRrset, SigningKey};
use std::alloc::Global;

/// Puts a record to the set where it has the set's owner and type.
fn push_same(set: &mut RecordSet, rr: Record<RData>) -> Result<(), OutOfMemory>
    ensures { OnOk result (set.new
        ≡ record set.old { records = set.old.records ++ filter (is_same set.old.name set.old.rtype) (rr ∷ []) }) }
{
    if rr.record_type() == set.record_type() && rr.name == *set.name() {
        set.push(rr)?;
    }
    Ok(())
}

/// The set of those of these records that have an owner and a type.
fn set_among(
    alloc: Global,
    name: Name,
    rtype: RecordType,
    ttl: u32,
    records: Vec<Record<RData>>,
) -> Result<RecordSet, OutOfMemory>
    ensures { IfOk result (λ set. set
        ≡ record { name = name; rtype = rtype; ttl = ttl; records = filter (is_same name rtype) records.items }) }
{
    let mut set = RecordSet::with_ttl(alloc, name, rtype, ttl);
    'records: for rr in records {
        push_same(&mut set, rr)?;
    }
    Ok(set)
}

/// The signature of a set in a class by keyed hashes, whose key has the octets of its DNSKEY.
fn sign_set(
    alloc: Global,
    dnskey: DNSKEY,
    signer_name: Name,
    duration: u64,
    set: &RecordSet,
    dns_class: DNSClass,
    inception: i64,
) -> Result<RRSIG, Refusal>
    ensures { GivesUnless no_memory rrsig_data result
        (signed_set (hash_signer (dnskey_data dnskey) signer_name duration) set.now dns_class inception) }
{
    let public_key = dnskey.public_key();
    let key = KeyedHashKey::new(alloc, public_key.algorithm(), public_key.public_bytes())?;
    let key: Box<dyn SigningKey> = Box::new(alloc, key)?;
    let signer = DnssecSigner::new(dnskey, key, signer_name, duration);
    Ok(RRSIG::from_rrset(alloc, set, dns_class, inception, &signer)?)
}

/// The text of the signature of the set of the first of these records, and `none` where there is none.
fn signed_text(
    alloc: Global,
    dnskey: DNSKEY,
    signer_name: Name,
    duration: u64,
    inception: i64,
    records: Vec<Record<RData>>,
) -> Result<String, Refusal>
    requires { AllByRecursion IsReadRecord records.items }
    ensures { GivesUnless no_memory (λ text. string_bytes text) result
        (signed_text (hash_signer (dnskey_data dnskey) signer_name duration) inception
        (map record_view records.items)) }
{
    let Some(first) = records.first() else {
        return Ok(String::from_str(alloc, "none")?);
    };
    let dns_class = first.dns_class;
    let set = set_among(alloc, first.name, first.record_type(), first.ttl, records)?;
    let rrsig = sign_set(
        alloc,
        dnskey,
        signer_name,
        duration,
        &set,
        dns_class,
        inception,
    )?;
    Ok(rrsig.to_string(alloc)?)
}

/// `sign ALGORITHM KEY FLAGS SIGNER DURATION INCEPTION HEX`: the RRSIG of the set of the first answer of a message.
fn sign(alloc: Global, rest: &[u8]) -> Result<String, Refusal>
    ensures { GivesUnless no_memory (λ text. string_bytes text) result (sign_answer (words rest.now)) }
{
    let (algorithm, key, flags, signer_name, rest) = first_four(rest)?;
    let (duration, inception, message) = three_words(rest).ok_or(Refusal::NoCall)?;
    let algorithm = Algorithm::from_u8(number_in(1 << 8, algorithm)? as u8);
    let key = PublicKeyBuf::new(octets_in(alloc, key)?, algorithm);
    let dnskey = DNSKEY::with_flags(number_in(1 << 16, flags)? as u16, key);
    let signer_name = name_in(signer_name)?;
    let duration = number_in(u64::MAX, duration)?;
    let inception = number_in(1 << 63, inception)? as i64;
    let message = message_in(alloc, message)?;
    signed_text(
        alloc,
        dnskey,
        signer_name,
        duration,
        inception,
        message.answers,
    )
}

/// What the call of this word answers.
pub(crate) fn answer(alloc: Global, word: &[u8], rest: &[u8]) -> Result<String, Refusal>
    ensures { GivesUnless no_memory (λ text. string_bytes text) result (signing_calls word.now (words rest.now)) }
{
    if word == b"sign".as_slice() {
        sign(alloc, rest)
    } else {
        transactions::answer(alloc, word, rest)
    }
}
