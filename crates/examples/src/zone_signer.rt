//! A signer: it signs a record set, and a verifier accepts what it signed.

use crate::own_scheme::OwnScheme;
use anyhow::Result;
use dns_message::{Record, RecordSet};
use dns_names::Name;
use dns_rdata::RData;
use dns_text::LowerHex;
use dns_types::{DNSClass, RecordType};
use sec_codes::Algorithm;
use sec_keydata::DNSKEY;
use sec_sigdata::RRSIG;
use sec_sign::{DnssecSigner, KeyedHashKey, SignRrset, SigningKey, Verifier};
use std::alloc::Global;

/// The public key of the zone, as a zone file has it.
const KEY: &str = "256 3 15 AQEBAQEBAQEBAQEBAQEBAQEBAQEBAQEBAQEBAQEBAQE=";

/// The addresses of `example.`.
fn addresses(alloc: Global) -> Result<RecordSet> {
    let name = Name::from_ascii("example.")?;
    let mut set = RecordSet::with_ttl(alloc, name, RecordType::A, 3600);
    set.push(Record::from_rdata(name, 3600, RData::A([192, 0, 2, 2])))?;
    set.push(Record::from_rdata(name, 3600, RData::A([192, 0, 2, 1])))?;
    Ok(set)
}

/// Whether the key accepts the signature of the set.
fn is_right(alloc: Global, key: &DNSKEY, set: &RecordSet, rrsig: &RRSIG) -> bool {
    let records = set.records_without_rrsigs();
    key.verify_rrsig(alloc, &OwnScheme, set.name(), DNSClass::IN, rrsig, records)
        .is_ok()
}

pub(crate) fn run(rt: &impl Print, alloc: Global) -> Result<()> {
    // a key of one's own implements `SigningKey`; this one is for trials
    let key = KeyedHashKey::new(alloc, Algorithm::ED25519, &[1; 32])?;
    let key: Box<dyn SigningKey> = Box::new(alloc, key)?;
    let dnskey = DNSKEY::from_tokens(alloc, KEY)?;
    // for `example.`, with signatures that are valid for 1,000 seconds
    let signer = DnssecSigner::new(dnskey, key, Name::from_ascii("example.")?, 1000);
    let set = addresses(alloc)?;
    let rrsig = RRSIG::from_rrset(alloc, &set, DNSClass::IN, 1000, &signer)?;
    let tag = rrsig.input().key_tag;
    let signature = LowerHex(rrsig.sig());
    println!(rt; "signer: key {tag} signs {signature}")?;
    let right = is_right(alloc, signer.dnskey(), &set, &rrsig);
    println!(rt; "signer: right {right}")?;
    Ok(())
}
