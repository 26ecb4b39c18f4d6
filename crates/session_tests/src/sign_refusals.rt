//! Why a set is not signed, in the order of the causes.
use dns_message::{Record, RecordSet};
use dns_names::Name;
use dns_rdata::{NULL, RData};
use dns_types::{DNSClass, RecordType};
use dns_wire::{EmitError, Octets};
use sec_codes::{Algorithm, PublicKeyBuf};
use sec_keydata::DNSKEY;
use sec_sigdata::{DnsSecError, DnsSecResult, RRSIG};
use sec_sign::{DnssecSigner, SignError, SignRrset, SigningKey, TBS};
use std::alloc::Global;
use std::test::Fail;

/// A key that refuses to sign.
#[derive(Drop)]
struct RefusingKey {
    algorithm: Algorithm,
}

impl SigningKey for RefusingKey {
    ghost use Rattle.std.specs.Prelude.{[]};

    ghost signs = { λ _ _ _. ⊥ };

    ghost refuses = { λ _ _. Unit {0} };

    ghost algorithm_of_key = { λ key. key.algorithm };

    ghost public_key = { λ key. record { octets = []; algorithm = key.algorithm } };

    fn sign(&self, _tbs: &TBS) -> DnsSecResult<Vec<u8>> {
        Err(DnsSecError::HmacInvalid)
    }

    fn to_public_key(&self) -> DnsSecResult<PublicKeyBuf> {
        Err(DnsSecError::OutOfMemory)
    }

    fn algorithm(&self) -> Algorithm {
        self.algorithm
    }
}

/// The DNSKEY of so many octets of key.
fn dnskey_with(alloc: Global, length: usize) -> Result<DNSKEY, Fail> {
    let public_key = PublicKeyBuf::new(vec![in alloc; 1; length]?, Algorithm::ED25519);
    Ok(DNSKEY::with_flags(256, public_key))
}

/// A set of one NULL record with so many octets of data.
fn set_of(alloc: Global, length: usize) -> Result<RecordSet, Fail> {
    let null = NULL::with(Octets::from_vec(vec![in alloc; 0; length]?));
    let mut set = RecordSet::with_ttl(alloc, Name::root(), RecordType::NULL, 0);
    set.push(Record::from_rdata(Name::root(), 0, RData::NULL(null)))?;
    Ok(set)
}

/// Why a signer doesn't sign data of so many octets from a time on.
fn cause(
    alloc: Global,
    signer: &DnssecSigner,
    inception: i64,
    length: usize,
) -> Result<Option<SignError>, Fail> {
    let set = set_of(alloc, length)?;
    Ok(RRSIG::from_rrset(alloc, &set, DNSClass::IN, inception, signer).err())
}

/// Why a key that refuses, whose DNSKEY has so many octets of key, doesn't sign data of so many from a time on.
fn refused(
    alloc: Global,
    inception: i64,
    key_length: usize,
    data_length: usize,
) -> Result<Option<SignError>, Fail> {
    let refusing = RefusingKey {
        algorithm: Algorithm::ED25519,
    };
    let key: Box<dyn SigningKey> = Box::new(alloc, refusing)?;
    let signer = DnssecSigner::new(dnskey_with(alloc, key_length)?, key, Name::root(), 1);
    cause(alloc, &signer, inception, data_length)
}

#[test]
fn late_expirations_are_refused_first(rt: HostRuntime) -> Result<(), Fail> {
    let cause = refused(rt.alloc(), i64::MAX, 65_532, 65_536)?;
    assert_eq!(rt; cause, Some(SignError::TimeOutOfRange));
    Ok(())
}

#[test]
fn long_keys_are_refused_next(rt: HostRuntime) -> Result<(), Fail> {
    let cause = refused(rt.alloc(), i64::MAX - 1, 65_532, 65_536)?;
    assert_eq!(rt; cause, Some(SignError::KeyTooLong));
    Ok(())
}

#[test]
fn long_data_are_refused_next(rt: HostRuntime) -> Result<(), Fail> {
    let cause = refused(rt.alloc(), i64::MAX - 1, 65_531, 65_536)?;
    assert_eq!(rt; cause, Some(SignError::Emit(EmitError::DataTooLong)));
    Ok(())
}

#[test]
fn keys_refuse_last(rt: HostRuntime) -> Result<(), Fail> {
    let cause = refused(rt.alloc(), i64::MAX - 1, 65_531, 65_535)?;
    assert_eq!(rt; cause, Some(SignError::Signing(DnsSecError::HmacInvalid)));
    Ok(())
}
