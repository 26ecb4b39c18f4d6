//! Limits of lengths: sets of all types, data of 65,535 octets, and what is too long to be written.
use crate::records::written;
use dns_names::Name;
use dns_rdata::{NULL, RData, TXT};
use dns_types::{RecordType, RecordTypeSet};
use dns_wire::{BinDecoder, EmitError, Octets};
use sec_codes::{Algorithm, PublicKeyBuf};
use sec_digest::{DigestType, Nsec3HashAlgorithm};
use sec_keydata::{DNSKEY, KeyDataError};
use sec_sigdata::NSEC3PARAM;
use std::alloc::{AllocError, Global};
use std::test::Fail;

#[test]
fn a_set_holds_all_types(rt: HostRuntime) -> Result<(), Fail> {
    let mut types = Vec::new(rt.alloc());
    for number in 0..=u16::MAX {
        types.push(RecordType::from(number))?;
    }
    types.reverse();
    let set = RecordTypeSet::new(rt.alloc(), types.as_slice())?;
    assert_eq!(rt; set.as_octets().len(), 8704);
    assert!(rt; set.iter().map(u16::from).eq(0..=u16::MAX));
    let mut decoder = BinDecoder::new(set.as_octets());
    let read = RecordTypeSet::read_within(rt.alloc(), &mut decoder, 8704)?;
    assert!(rt; read == set);
    Ok(())
}

/// A key of a zone, with so many octets.
fn long_key(alloc: Global, len: usize) -> Result<DNSKEY, AllocError> {
    let octets = vec![in alloc; 0xffu8; len]?;
    Ok(DNSKEY::with_flags(256, PublicKeyBuf::new(octets, Algorithm::RSASHA256)))
}

#[test]
fn longest_keys_have_tags(rt: HostRuntime) -> Result<(), Fail> {
    let alloc = rt.alloc();
    assert_eq!(rt; long_key(alloc, 65_531)?.calculate_key_tag(), Ok(776));
    let longer = long_key(alloc, 65_532)?;
    assert_eq!(rt; longer.calculate_key_tag(), Err(KeyDataError::DataTooLong));
    let refused = longer.to_digest(&Name::root(), DigestType::Unknown(3));
    assert!(rt; matches!(refused, Err(KeyDataError::DataTooLong)));
    Ok(())
}

/// How many canonical octets data of so many octets have.
fn canonical_len(alloc: Global, len: usize) -> Result<usize, EmitError> {
    let null = NULL::with(Octets::from_vec(vec![in alloc; 7; len]?));
    Ok(RData::NULL(null).canonical_octets(alloc)?.len())
}

#[test]
fn canonical_octets_end_at_65535(rt: HostRuntime) {
    assert_eq!(rt; canonical_len(rt.alloc(), 65_535), Ok(65_535));
    assert_eq!(rt;
        canonical_len(rt.alloc(), 65_536),
        Err(EmitError::DataTooLong)
    );
}

/// How many octets are written of a string of so many.
fn string_len(alloc: Global, len: usize) -> Result<usize, EmitError> {
    let mut strings = Vec::new(alloc);
    strings.push(Octets::from_vec(vec![in alloc; 0; len]?))?;
    Ok(written(alloc, &RData::TXT(TXT { strings }))?.len())
}

/// How many octets are written of a salt of so many.
fn salt_len(alloc: Global, len: usize) -> Result<usize, EmitError> {
    let salt = vec![in alloc; 7; len]?;
    let param = NSEC3PARAM::new(Nsec3HashAlgorithm::SHA1, true, 65_535, salt);
    Ok(written(alloc, &param)?.len())
}

#[test]
fn strings_and_salts_have_at_most_255_octets(rt: HostRuntime) {
    let alloc = rt.alloc();
    assert_eq!(rt; string_len(alloc, 255), Ok(256));
    assert_eq!(rt; string_len(alloc, 256), Err(EmitError::StringTooLong));
    assert_eq!(rt; salt_len(alloc, 255), Ok(260));
    assert_eq!(rt; salt_len(alloc, 256), Err(EmitError::SaltTooLong));
}
