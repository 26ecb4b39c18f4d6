//! A signer with a key of keyed hashes.
use crate::fixtures::{HEADER, KEY, SIGNATURE, addresses, dnskey_of, octets_of, signed};
use dns_message::RecordSet;
use dns_names::Name;
use dns_types::RecordType;
use sec_codes::Algorithm;
use sec_sigdata::SigInput;
use sec_sign::{DnssecSigner, KeyedHashKey, SigInputOf, SigningKey};
use std::alloc::Global;
use std::test::Fail;

/// The signer of `example.` with the key.
fn signer(alloc: Global) -> Result<DnssecSigner, Fail> {
    let made = KeyedHashKey::new(alloc, Algorithm::ED25519, &[1; 32])?;
    let key: Box<dyn SigningKey> = Box::new(alloc, made)?;
    let zone = Name::from_ascii("example.")?;
    Ok(DnssecSigner::new(dnskey_of(alloc, KEY)?, key, zone, 1000))
}

/// The expiration and the inception that an RRSIG of addresses has for these times.
fn times_of(
    alloc: Global,
    signer: &DnssecSigner,
    expiration: i64,
    inception: i64,
) -> Result<(u32, u32), Fail> {
    let name = Name::from_ascii("EXAMPLE.")?;
    let set = RecordSet::with_ttl(alloc, name, RecordType::A, 3600);
    let input = SigInput::from_rrset(&set, expiration, inception, signer)?;
    Ok((input.sig_expiration.0, input.sig_inception.0))
}

/// Times of 64 bits, and those of 32 bits that an RRSIG has of them.
const TIMES: [(i64, i64, (u32, u32)); 3] = [
    (2000, 1000, (2000, 1000)),
    (0x1_0000_0001, -1, (1, 0xffff_ffff)),
    (i64::MAX, i64::MIN, (0xffff_ffff, 0)),
];

#[test]
fn times_wrap(rt: HostRuntime) -> Result<(), Fail> {
    let signer = signer(rt.alloc())?;
    for (expiration, inception, want) in TIMES {
        let times = times_of(rt.alloc(), &signer, expiration, inception)?;
        assert_eq!(rt; times, want);
    }
    Ok(())
}

#[test]
fn octets_are_signed(rt: HostRuntime) -> Result<(), Fail> {
    let tbs = signed(rt.alloc(), HEADER, &addresses(rt.alloc())?)??;
    let signature = signer(rt.alloc())?.sign(&tbs)?;
    assert_eq!(rt; signature, octets_of(rt.alloc(), SIGNATURE)?);
    Ok(())
}
