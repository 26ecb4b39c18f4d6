//! Keys of each form under a scheme of the test's own, values with a proof, and record data of keys made by hand.
use dns_names::Name;
use dns_wire::OutOfMemory;
use sec_codes::{
    Algorithm, EcKey, Ed25519, KeyError, KeyKind, Proof, Proven, PublicKey, PublicKeyBuf, Rsa,
    SignatureScheme, decode_public_key,
};
use sec_digest::DigestType;
use sec_keydata::{CDNSKEY, DNSKEY, DS};
use std::alloc::{AllocError, Global};
use std::test::Fail;

/// A scheme that accepts one message, by any key, with the signature `ok`.
struct OneMessage;

impl SignatureScheme for OneMessage {
    ghost use Rattle.std.specs.Prelude.{codes, ◌&&◌};
    ghost use Rattle.std.specs.Str.{bytes_eq};

    ghost accepts = { λ scheme algorithm key message signature.
        bytes_eq message (codes "hello") && bytes_eq signature (codes "ok") };

    fn verify(
        &self,
        _algorithm: Algorithm,
        _key: &[u8],
        message: &[u8],
        signature: &[u8],
    ) -> Result<bool, OutOfMemory> {
        Ok(message == b"hello".as_slice() && signature == b"ok".as_slice())
    }
}

/// What a key answers for the message that is accepted, and for another.
fn answers<K: PublicKey>(key: &K) -> (Result<(), KeyError>, Result<(), KeyError>) {
    (
        key.verify(&OneMessage, b"hello", b"ok"),
        key.verify(&OneMessage, b"hallo", b"ok"),
    )
}

/// What a key of a form answers for both.
fn answers_of(kind: KeyKind) -> (Result<(), KeyError>, Result<(), KeyError>) {
    (Ok(()), Err(KeyError::Crypto(kind)))
}

/// A key of Ed25519 of 32 octets 1.
fn ed25519(alloc: Global) -> Result<PublicKeyBuf, AllocError> {
    let octets = Vec::from_slice(alloc, &[1; 32])?;
    Ok(PublicKeyBuf::new(octets, Algorithm::ED25519))
}

#[test]
fn keys_of_each_form_verify(rt: HostRuntime) -> Result<(), Fail> {
    let key = Rsa::from_public_bytes(b"\x01\x03\x0f", Algorithm::RSASHA256)?;
    assert_eq!(rt; answers(&key), answers_of(KeyKind::Rsa));
    let key = Ed25519::from_public_bytes(&[1; 32])?;
    assert_eq!(rt; answers(&key), answers_of(KeyKind::Ed));
    let key = EcKey::from_public_bytes(&[1; 64], Algorithm::ECDSAP256SHA256)?;
    assert_eq!(rt; answers(&key), answers_of(KeyKind::Ec));
    let key = decode_public_key(b"\x01\x03\x0f", Algorithm::RSASHA1NSEC3SHA1)?;
    assert_eq!(rt; answers(&key), answers_of(KeyKind::Rsa));
    Ok(())
}

#[test]
fn kept_keys_verify(rt: HostRuntime) -> Result<(), Fail> {
    let key = ed25519(rt.alloc())?;
    assert!(rt; key.try_clone()? == key);
    assert_eq!(rt; answers(&key), answers_of(KeyKind::Ed));
    let (expected, found) = (32, 1);
    let refused = Err(KeyError::WrongLength { expected, found });
    let short = PublicKeyBuf::new([1].to_vec(rt.alloc())?, Algorithm::ED25519);
    assert_eq!(rt; answers(&short), (refused, refused));
    Ok(())
}

#[test]
fn proven_values_are_given_under_their_flags(rt: HostRuntime) -> Result<(), Fail> {
    let proven = Proven::new(Proof::Bogus, 42).map(|n| n + 1);
    let Err(whole) = proven.require(Proof::Secure | Proof::Insecure) else {
        return Err(Fail::from("given"));
    };
    let lent = whole.require_as_ref(Proof::Secure.into()).copied();
    assert_eq!(rt; lent, Err(Proof::Bogus));
    let Ok(value) = whole.require(Proof::Bogus | Proof::Indeterminate) else {
        return Err(Fail::from("not given"));
    };
    assert_eq!(rt; value, 43);
    let some = Proven::new(Proof::Secure, Some(7)).transpose();
    assert!(rt; some == Some(Proven::new(Proof::Secure, 7)));
    Ok(())
}

#[test]
fn record_data_are_made_of_keys(rt: HostRuntime) -> Result<(), Fail> {
    let alloc = rt.alloc();
    let public_key = ed25519(alloc)?;
    let key = DNSKEY::from_key(alloc, &public_key)?;
    assert_eq!(rt; key.flags(), 257);
    let name = Name::from_ascii("example.")?;
    let ds = DS::from_key(alloc, &public_key, &name, DigestType::SHA256)?;
    assert_eq!(rt; ds.covers(&name, &key), Ok(true));
    let octets = Vec::from_slice(alloc, &[1; 32])?;
    let child = CDNSKEY::new(true, true, false, Some(Algorithm::ED25519), octets);
    assert_eq!(rt; child.public_key()?, Some(public_key));
    Ok(())
}
