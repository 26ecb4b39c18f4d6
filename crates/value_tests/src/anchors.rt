//! Trust anchors: keys put in, found, and copied.
use dns_names::{LowerName, Name};
use dns_wire::NameError;
use sec_anchor::{ParseError, TrustAnchors};
use sec_codes::{Algorithm, KeyError, PublicKeyBuf};
use std::alloc::{AllocError, Global};
use std::test::Fail;

/// A key of Ed25519 of 32 octets 1 at the root, twice, and one at another name.
const TEXT: &str = ". IN DNSKEY 257 3 15 AQEBAQEBAQEBAQEBAQEBAQEBAQEBAQEBAQEBAQEBAQE=
. IN DNSKEY 257 3 15 AQEBAQEBAQEBAQEBAQEBAQEBAQEBAQEBAQEBAQEBAQE=
A. IN DNSKEY 257 3 15 AQEBAQEBAQEBAQEBAQEBAQEBAQEBAQEBAQEBAQEBAQE=";

/// A key of Ed25519 of 32 octets.
fn key(alloc: Global, octet: u8) -> Result<PublicKeyBuf, AllocError> {
    let octets = Vec::from_slice(alloc, &[octet; 32])?;
    Ok(PublicKeyBuf::new(octets, Algorithm::ED25519))
}

/// A name in lower case.
fn name(text: &str) -> Result<LowerName, NameError> {
    Ok(LowerName::new(&Name::from_ascii(text)?))
}

#[test]
fn anchors_of_a_text_have_its_keys_and_are_copied(rt: HostRuntime) -> Result<(), Fail> {
    let alloc = rt.alloc();
    let mut all = TrustAnchors::parse(alloc, TEXT)?;
    let ones = key(alloc, 1)?;
    assert_eq!(rt; all.get(1), Some(&ones));
    assert_eq!(rt; all.insert(&ones), Ok(false));
    let copy = all.try_clone()?;
    assert_eq!(rt; copy.len(), 2);
    assert!(rt; copy.contains(&ones));
    assert!(rt; copy.contains_with_name(&ones, &name("a.")?));
    assert!(rt; !copy.contains_with_name(&ones, &name("b.")?));
    Ok(())
}

#[test]
fn keys_are_put_in_once(rt: HostRuntime) -> Result<(), Fail> {
    let alloc = rt.alloc();
    let mut all = TrustAnchors::empty(alloc);
    let ones = key(alloc, 1)?;
    assert_eq!(rt; all.insert(&ones), Ok(true));
    assert_eq!(rt; all.insert_with_name(&ones, name("a.")?), Ok(true));
    assert_eq!(rt; all.insert_with_name(&ones, name("A.")?), Ok(false));
    assert_eq!(rt; all.insert_with_name(&key(alloc, 2)?, name(".")?), Ok(true));
    assert_eq!(rt; all.len(), 2);
    Ok(())
}

#[test]
fn keys_that_do_not_decode_are_refused(rt: HostRuntime) -> Result<(), Fail> {
    let (expected, found) = (32, 1);
    let short = ParseError::Key(KeyError::WrongLength { expected, found });
    // the second key, of an algorithm without a form, is no cause
    let text = ". IN DNSKEY 257 3 15 AA==\na IN DNSKEY 257 3 253 AA==";
    let refused = TrustAnchors::parse(rt.alloc(), text);
    assert!(rt; refused.err() == Some(short));
    Ok(())
}
