//! Proofs of records, one by one and together.
use dns_message::{DnssecIter, DnssecSummary, Record};
use dns_names::Name;
use dns_rdata::RData;
use dns_types::RecordType;
use dns_wire::BinDecoder;
use sec_codes::Proof;
use std::alloc::Global;
use std::test::Fail;

/// A record of an address with this proof.
fn address(proof: Proof) -> Record<RData> {
    let mut rr = Record::from_rdata(Name::root(), 0, RData::A([192, 0, 2, 1]));
    rr.proof = proof;
    rr
}

/// An RRSIG record with this proof.
fn signature(alloc: Global, proof: Proof) -> Result<Record<RData>, Fail> {
    let octets =
        b"\x00\x01\x0f\x01\x00\x00\x0e\x10\x00\x00\x07\xd0\x00\x00\x03\xe8\x14\x1f\x00\x01";
    let rdata = RData::read(alloc, &mut BinDecoder::new(octets), RecordType::RRSIG, 20)?;
    let mut rr = Record::from_rdata(Name::root(), 0, rdata);
    rr.proof = proof;
    Ok(rr)
}

#[test]
fn the_worst_proof_is_the_word(rt: HostRuntime) -> Result<(), Fail> {
    use Proof::{Bogus, Indeterminate, Insecure, Secure};
    let summary = DnssecSummary::from_records(&[]);
    assert_eq!(rt; summary, DnssecSummary::Insecure);
    let summary = DnssecSummary::from_records(&[address(Secure), address(Indeterminate)]);
    assert_eq!(rt; summary, DnssecSummary::Insecure);
    let summary = DnssecSummary::from_records(&[address(Indeterminate), address(Bogus)]);
    assert_eq!(rt; summary, DnssecSummary::Bogus);
    let summary = DnssecSummary::from_records(&[address(Secure), address(Secure)]);
    assert_eq!(rt; summary, DnssecSummary::Secure);
    let summary = DnssecSummary::from_records(&[address(Secure), address(Insecure)]);
    assert_eq!(rt; summary, DnssecSummary::Insecure);
    Ok(())
}

#[test]
fn signatures_are_put_aside(rt: HostRuntime) -> Result<(), Fail> {
    let bogus = signature(rt.alloc(), Proof::Bogus)?;
    let summary = DnssecSummary::from_records(&[address(Proof::Secure), bogus]);
    assert_eq!(rt; summary, DnssecSummary::Secure);
    let alone = [signature(rt.alloc(), Proof::Secure)?];
    assert_eq!(rt;
        DnssecSummary::from_records(&alone),
        DnssecSummary::Insecure
    );
    Ok(())
}

#[test]
fn each_record_comes_with_its_proof(rt: HostRuntime) -> Result<(), Fail> {
    let records = [address(Proof::Secure), address(Proof::Bogus)];
    let mut iter = DnssecIter::new(&records);
    let first = iter.next().ok_or("first")?;
    assert_eq!(rt; first.proof(), Proof::Secure);
    let (proof, second) = iter.next().ok_or("second")?.into_parts();
    assert_eq!(rt; proof, Proof::Bogus);
    assert_eq!(rt; second.proof, Proof::Bogus);
    assert!(rt; iter.next().is_none());
    Ok(())
}
