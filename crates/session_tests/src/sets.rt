//! Sets whose data are made once, and records that are no signatures.
use crate::fixtures::{HEADER, KEY, SIGNATURE, addresses, dnskey_of, rrsig_of};
use dns_message::Record;
use dns_names::Name;
use dns_rdata::{DNSSECRData, RData};
use dns_types::{DNSClass, RecordType};
use dns_wire::EmitError;
use sec_sign::{
    CanonicalSet, KeyedHash, PairVerdict, RrsetName, ZoneKey, authenticates, authenticates_set,
};
use std::alloc::Global;
use std::test::Fail;

/// What is found of a signature by the key for a set of `example.`.
fn found(
    alloc: Global,
    moment: u32,
    signature: &str,
    set: &Result<CanonicalSet, EmitError>,
) -> Result<PairVerdict, Fail> {
    let name = Name::from_ascii("example.")?;
    let rdata = RData::DNSSEC(DNSSECRData::RRSIG(rrsig_of(alloc, HEADER, signature)?));
    let rrsig = Record::from_rdata(name, 0, rdata);
    let addresses = RrsetName {
        name: &name,
        dns_class: DNSClass::IN,
        rtype: RecordType::A,
    };
    let dnskey = dnskey_of(alloc, KEY)?;
    let key = ZoneKey {
        owner: &name,
        dns_class: DNSClass::IN,
        dnskey: &dnskey,
    };
    Ok(authenticates_set(alloc, &KeyedHash, moment, &addresses, &rrsig, &key, set)?)
}

/// Moments, signatures, and what is found for the addresses.
const FOUND: [(u32, &str, PairVerdict); 3] = [
    (2000, SIGNATURE, PairVerdict::Authentic),
    (2001, SIGNATURE, PairVerdict::NotMet),
    (1000, "00", PairVerdict::NotAccepted),
];

#[test]
fn one_set_serves_many_signatures(rt: HostRuntime) -> Result<(), Fail> {
    let alloc = rt.alloc();
    let name = Name::from_ascii("example.")?;
    let records = addresses(alloc)?;
    let set = CanonicalSet::or_cause(alloc, &name, DNSClass::IN, RecordType::A, &records)?;
    for (moment, signature, want) in FOUND {
        assert_eq!(rt; found(alloc, moment, signature, &set)?, want);
    }
    Ok(())
}

#[test]
fn nothing_is_accepted_for_a_set_without_data(rt: HostRuntime) -> Result<(), Fail> {
    let set = Err(EmitError::DataTooLong);
    let verdict = found(rt.alloc(), 1500, SIGNATURE, &set)?;
    assert_eq!(rt; verdict, PairVerdict::NotAccepted);
    Ok(())
}

#[test]
fn an_address_is_no_signature(rt: HostRuntime) -> Result<(), Fail> {
    let name = Name::from_ascii("example.")?;
    let address = Record::from_rdata(name, 3600, RData::A([192, 0, 2, 1]));
    let set = RrsetName {
        name: &name,
        dns_class: DNSClass::IN,
        rtype: RecordType::A,
    };
    let dnskey = dnskey_of(rt.alloc(), KEY)?;
    let key = ZoneKey {
        owner: &name,
        dns_class: DNSClass::IN,
        dnskey: &dnskey,
    };
    let records = addresses(rt.alloc())?;
    let verdict = authenticates(rt.alloc(), &KeyedHash, 1500, &set, &address, &key, &records)?;
    assert_eq!(rt; verdict, PairVerdict::NotMet);
    Ok(())
}
