//! Calls that are made again where they were refused memory. A test whose values can't be made says nothing.

use dns_message::{Record, RecordSet};
use dns_names::Name;
use dns_rdata::RData;
use dns_text::decode_hex;
use dns_types::{DNSClass, RecordType};
use sec_anchor::{ParseError, Parser, TrustAnchors};
use sec_check::{CheckError, Checker};
use sec_codes::{Algorithm, PublicKeyBuf};
use sec_keydata::DNSKEY;
use sec_sigdata::{RRSIG, TsigAlgorithm};
use sec_sign::{DnssecSigner, KeyedHash, KeyedHashKey, SignError, SignRrset, SigningKey};
use sec_tsig::{TSigVerifier, TSigner, VerifyError};
use std::alloc::Global;
use std::test::Fail;

/// A question for the addresses of `example.`.
const REQUEST: &str = "123401000001000000000000076578616d706c650000010001";

/// An answer of one address to it and its signature by the key of the zone, signed first at time 1000 by the key `k.` of
/// twenty octets 0b.
const ANSWER: &str =
    "123481800001000200000001076578616d706c650000010001076578616d706c65000001000100000e100004c0000201076578616d706c6500002e000100000e10003b00010f0100000e10000007d0000003e8141f076578616d706c65006de1f5b96afcadb828060e69f0b47b513d76aa8e262421bf0d71912aa19aa4ca016b0000fa00ff00000000003d0b686d61632d736861323536000000000003e8012c00203cf3b60227e652e8dc5f622947d57dd1f0ff363073c2a625ee9f25e632a3a5a7123400000000";

/// A key of `example.`: 32 octets 01, as one of Ed25519.
const ANCHOR: &str = "example. IN DNSKEY 256 3 15 AQEBAQEBAQEBAQEBAQEBAQEBAQEBAQEBAQEBAQEBAQE=";

/// The octets of a text in hexadecimal.
fn octets_of(alloc: Global, text: &str) -> Option<Vec<u8>> {
    decode_hex(alloc, text.as_bytes()).ok()?
}

/// The key of the answer.
fn signer(alloc: Global) -> Option<TSigner> {
    let key = Vec::from_slice(alloc, &[0x0b; 20]).ok()?;
    let name = Name::from_ascii("k.").ok()?;
    TSigner::new(key, TsigAlgorithm::HmacSha256, name, 300).ok()
}

/// What checks the answers to the request.
fn verifier(alloc: Global) -> Option<TSigVerifier> {
    let request = octets_of(alloc, REQUEST)?;
    if request.len() < 12 {
        return None;
    }
    let (_, verifier) = signer(alloc)?.sign_octets(&request, 1000).ok()?;
    Some(verifier)
}

/// The same, with the key of the zone as a trusted entry.
fn checker(alloc: Global) -> Option<Checker> {
    let verifier = verifier(alloc)?;
    let entries = Parser::new(ANCHOR).parse(alloc).ok()?;
    Some(Checker::new(alloc, verifier, entries))
}

/// Whether the answer is accepted at once, or behind a want of memory.
fn is_reported(checker: &mut Checker, answer: &[u8]) -> bool {
    match checker.answer(&KeyedHash, 1500, answer) {
        Ok(_) => true,
        Err(CheckError::OutOfMemory) => checker.answer(&KeyedHash, 1500, answer).is_ok(),
        Err(_) => false,
    }
}

#[test]
fn a_checker_answers_again(rt: HostRuntime) -> Result<(), Fail> {
    let Some(mut checker) = checker(rt.alloc()) else {
        return Ok(());
    };
    let Some(answer) = octets_of(rt.alloc(), ANSWER) else {
        return Ok(());
    };
    assert!(rt; is_reported(&mut checker, &answer));
    Ok(())
}

/// Whether the answer is accepted at once, or behind a want of memory.
fn is_verified(verifier: &mut TSigVerifier, answer: &[u8]) -> bool {
    match verifier.verify(answer) {
        Ok(_) => true,
        Err(VerifyError::OutOfMemory) => verifier.verify(answer).is_ok(),
        Err(_) => false,
    }
}

#[test]
fn a_verifier_verifies_again(rt: HostRuntime) -> Result<(), Fail> {
    let Some(mut verifier) = verifier(rt.alloc()) else {
        return Ok(());
    };
    let Some(answer) = octets_of(rt.alloc(), ANSWER) else {
        return Ok(());
    };
    assert!(rt; is_verified(&mut verifier, &answer));
    Ok(())
}

/// Whether the anchors are read at once, or behind a want of memory.
fn are_read(alloc: Global) -> bool {
    match TrustAnchors::parse(alloc, ANCHOR) {
        Ok(_) => true,
        Err(ParseError::OutOfMemory) => TrustAnchors::parse(alloc, ANCHOR).is_ok(),
        Err(_) => false,
    }
}

#[test]
fn anchors_are_read_again(rt: HostRuntime) -> Result<(), Fail> {
    assert!(rt; are_read(rt.alloc()));
    Ok(())
}

/// An address of `example.` as a set.
fn set_of_address(alloc: Global) -> Option<RecordSet> {
    let name = Name::from_ascii("example.").ok()?;
    let mut set = RecordSet::with_ttl(alloc, name, RecordType::A, 3600);
    let address = Record::from_rdata(name, 3600, RData::A([192, 0, 2, 1]));
    set.push(address).ok()?;
    Some(set)
}

/// The key of the zone.
fn zone_key(alloc: Global) -> Option<DNSKEY> {
    let octets = Vec::from_slice(alloc, &[1; 32]).ok()?;
    let key = PublicKeyBuf::new(octets, Algorithm::ED25519);
    Some(DNSKEY::with_flags(256, key))
}

/// Whether the set is signed at once, or behind a want of memory.
fn is_signed(alloc: Global, set: &RecordSet, signer: &DnssecSigner) -> bool {
    match RRSIG::from_rrset(alloc, set, DNSClass::IN, 1000, signer) {
        Ok(_) => true,
        Err(SignError::OutOfMemory) => RRSIG::from_rrset(
            alloc,
            set,
            DNSClass::IN,
            1000,
            signer,
        ).is_ok(),
        Err(_) => false,
    }
}

#[test]
fn a_set_is_signed_again(rt: HostRuntime) -> Result<(), Fail> {
    let alloc = rt.alloc();
    let (Some(set), Some(dnskey)) = (set_of_address(alloc), zone_key(alloc)) else {
        return Ok(());
    };
    let Ok(made) = KeyedHashKey::new(alloc, Algorithm::ED25519, &[1; 32]) else {
        return Ok(());
    };
    let Ok(boxed) = Box::new(alloc, made) else {
        return Ok(());
    };
    let key: Box<dyn SigningKey> = boxed;
    let signer = DnssecSigner::new(dnskey, key, Name::from_ascii("example.")?, 1000);
    assert!(rt; is_signed(alloc, &set, &signer));
    Ok(())
}
