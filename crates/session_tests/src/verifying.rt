//! Why there is nothing to sign, and why a signature is not accepted, in the order of the causes.
use crate::fixtures::{
    HEADER, KEY, SHORT_KEY, SIGNATURE, addresses, dnskey_of, octets_of, rrsig_of, signed,
};
use dns_message::Record;
use dns_names::Name;
use dns_rdata::{DNSSECRData, RData};
use dns_types::{DNSClass, RecordType};
use dns_wire::EmitError;
use sec_codes::{Algorithm, KeyError, KeyKind, PublicKey};
use sec_digest::Nsec3HashAlgorithm;
use sec_keydata::{KEY as KeyRecord, KeyTrust, KeyUsage, Protocol, UpdateScope};
use sec_sigdata::NSEC3;
use sec_sign::{KeyedHash, TbsError, Verifier, VerifyRrsigError};
use std::alloc::Global;
use std::test::Fail;

/// The fields of RRSIGs with labels 2 of addresses, and with labels 1 and 2 of NSEC3 records.
const TWO_LABELS: &str = "00010f0200000e10000007d0000003e8141f076578616d706c6500";

const HASHED: &str = "00320f0100000e10000007d0000003e8141f076578616d706c6500";

const HASHED_TWO_LABELS: &str = "00320f0200000e10000007d0000003e8141f076578616d706c6500";

/// The refusal of two labels.
const NO_LABELS: TbsError = TbsError::LabelsExceedOwner {
    labels: 2,
    owner: 1,
};

/// An NSEC3 record of `example.` whose salt and hash have so many octets.
fn hashed(alloc: Global, salt: usize, hash: usize) -> Result<Record<RData>, Fail> {
    let salt = vec![in alloc; 0; salt]?;
    let hash = vec![in alloc; 0; hash]?;
    let types = [RecordType::A];
    let nsec3 = NSEC3::new(
        alloc,
        Nsec3HashAlgorithm::SHA1,
        false,
        0,
        salt,
        hash,
        &types,
    )?;
    let rdata = RData::DNSSEC(DNSSECRData::NSEC3(nsec3));
    Ok(Record::from_rdata(Name::from_ascii("example.")?, 0, rdata))
}

/// Two NSEC3 records of `example.` whose salts and hashes have so many octets.
fn both_hashed(
    alloc: Global,
    first: (usize, usize),
    second: (usize, usize),
) -> Result<Vec<Record<RData>>, Fail> {
    let first = hashed(alloc, first.0, first.1)?;
    let second = hashed(alloc, second.0, second.1)?;
    Ok(Vec::from_array(alloc, [first, second])?)
}

/// Why the fields and two such records sign nothing.
fn cause(
    alloc: Global,
    header: &str,
    first: (usize, usize),
    second: (usize, usize),
) -> Result<Option<TbsError>, Fail> {
    let records = both_hashed(alloc, first, second)?;
    Ok(signed(alloc, header, &records)?.err())
}

/// Fields, lengths of salts and hashes, which have at most 255 octets, and why there is nothing to sign.
const CAUSES: [(&str, (usize, usize), (usize, usize), Option<TbsError>); 5] = [
    (HASHED, (255, 255), (0, 255), None),
    (
        HASHED,
        (256, 0),
        (0, 256),
        Some(TbsError::Emit(EmitError::SaltTooLong)),
    ),
    (
        HASHED,
        (0, 256),
        (256, 0),
        Some(TbsError::Emit(EmitError::HashTooLong)),
    ),
    (
        HASHED,
        (0, 0),
        (0, 256),
        Some(TbsError::Emit(EmitError::HashTooLong)),
    ),
    (HASHED_TWO_LABELS, (256, 0), (0, 256), Some(NO_LABELS)),
];

#[test]
fn labels_and_then_the_first_record_are_refused(rt: HostRuntime) -> Result<(), Fail> {
    for (header, first, second, want) in CAUSES {
        assert_eq!(rt; cause(rt.alloc(), header, first, second)?, want);
    }
    Ok(())
}

/// Whether a key accepts a signature for the records of `example.`, or why not.
fn checked<V: Verifier>(
    alloc: Global,
    key: &V,
    header: &str,
    signature: &str,
    records: &[Record<RData>],
) -> Result<Result<(), VerifyRrsigError>, Fail> {
    let name = Name::from_ascii("example.")?;
    let rrsig = rrsig_of(alloc, header, signature)?;
    Ok(key.verify_rrsig(alloc, &KeyedHash, &name, DNSClass::IN, &rrsig, records))
}

/// Keys, fields, signatures, and what is answered for the addresses: the labels first, then the key's form.
const CHECKED: [(&str, &str, &str, Result<(), VerifyRrsigError>); 4] = [
    (KEY, HEADER, SIGNATURE, Ok(())),
    (
        KEY,
        HEADER,
        "00",
        Err(VerifyRrsigError::Key(KeyError::Crypto(KeyKind::Ed))),
    ),
    (
        SHORT_KEY,
        HEADER,
        "00",
        Err(VerifyRrsigError::Key(KeyError::WrongLength {
            expected: 32,
            found: 1,
        })),
    ),
    (
        SHORT_KEY,
        TWO_LABELS,
        "00",
        Err(VerifyRrsigError::Tbs(NO_LABELS)),
    ),
];

/// Whether the key of a text accepts a signature for the addresses, or why not.
fn checked_by(
    alloc: Global,
    key: &str,
    header: &str,
    signature: &str,
) -> Result<Result<(), VerifyRrsigError>, Fail> {
    let key = dnskey_of(alloc, key)?;
    checked(alloc, &key, header, signature, &addresses(alloc)?)
}

#[test]
fn sets_and_then_keys_and_then_signatures_are_refused(rt: HostRuntime) -> Result<(), Fail> {
    for (key, header, signature, want) in CHECKED {
        assert_eq!(rt; checked_by(rt.alloc(), key, header, signature)?, want);
    }
    Ok(())
}

#[test]
fn records_that_are_not_written_are_not_accepted(rt: HostRuntime) -> Result<(), Fail> {
    let key = dnskey_of(rt.alloc(), SHORT_KEY)?;
    let records = both_hashed(rt.alloc(), (0, 0), (256, 0))?;
    let want = VerifyRrsigError::Tbs(TbsError::Emit(EmitError::SaltTooLong));
    let answer = checked(rt.alloc(), &key, HASHED, "00", &records)?;
    assert_eq!(rt; answer, Err(want));
    Ok(())
}

/// The same key as a KEY record.
fn key_record(alloc: Global) -> Result<KeyRecord, Fail> {
    Ok(KeyRecord::new(
        KeyTrust::AuthOrPrivate,
        KeyUsage::Zone,
        UpdateScope::default(),
        Protocol::DNSSEC,
        Algorithm::ED25519,
        vec![in alloc; 1; 32]?,
    ))
}

#[test]
fn key_records_check_signatures(rt: HostRuntime) -> Result<(), Fail> {
    let key = key_record(rt.alloc())?;
    let records = addresses(rt.alloc())?;
    let answer = checked(rt.alloc(), &key, HEADER, SIGNATURE, &records)?;
    assert_eq!(rt; answer, Ok(()));
    Ok(())
}

/// What the key of a text answers on a signature of what the addresses sign, and what the octets of the key answer.
fn answers(
    alloc: Global,
    key: &str,
    signature: &str,
) -> Result<(Result<(), KeyError>, Result<(), KeyError>), Fail> {
    let key = dnskey_of(alloc, key)?;
    let tbs = signed(alloc, HEADER, &addresses(alloc)?)??;
    let signature = octets_of(alloc, signature)?;
    Ok((
        key.verify(&KeyedHash, tbs.as_slice(), &signature),
        key.public_key()
            .verify(&KeyedHash, tbs.as_slice(), &signature),
    ))
}

/// Keys, signatures, and what is answered.
const ANSWERS: [(&str, &str, Result<(), KeyError>); 3] = [
    (KEY, SIGNATURE, Ok(())),
    (KEY, "00", Err(KeyError::Crypto(KeyKind::Ed))),
    (
        SHORT_KEY,
        SIGNATURE,
        Err(KeyError::WrongLength {
            expected: 32,
            found: 1,
        }),
    ),
];

#[test]
fn keys_check_signatures_of_messages(rt: HostRuntime) -> Result<(), Fail> {
    for (key, signature, want) in ANSWERS {
        assert_eq!(rt; answers(rt.alloc(), key, signature)?, (want, want));
    }
    Ok(())
}
