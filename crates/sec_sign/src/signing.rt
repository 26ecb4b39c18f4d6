//! Signatures of record sets as they are made (RFC 4034 3.1).
ghost use Rattle.std.specs.Prelude.{◌≡◌};
ghost use Rattle.sec_sign.specs.Signers.{signer_data, signing_key};
ghost use Rattle.sec_sign.specs.Signing.{serial_time, expiration_of, header_of, to_sign, IsSigned};

use crate::canonical_set::CanonicalSet;
use crate::sign_error::SignError;
use crate::signer::DnssecSigner;
use crate::tbs::TBS;
use dns_message::RecordSet;
use dns_types::DNSClass;
use dns_wire::SerialNumber;
use sec_sigdata::{RRSIG, SigInput};
use std::alloc::Global;

/// How many seconds there are before the times of an RRSIG come again.
const WRAP: i64 = 0x1_0000_0000;

/// A time as an RRSIG has it.
fn serial_time(time: i64) -> SerialNumber
    ensures { result ≡ serial_time time }
{
    SerialNumber(time.rem_euclid(WRAP).unsigned_abs() as u32)
}

/// The last second of a signature.
fn expiration_of(inception: i64, duration: u64) -> Result<i64, SignError>
    ensures { result ≡ expiration_of inception duration }
{
    match inception.checked_add_unsigned(duration) {
        Some(time) => Ok(time),
        None => Err(SignError::TimeOutOfRange),
    }
}

/// The fields of an RRSIG before the signature, as a signer sets them.
pub trait SigInputOf {
    /// The fields of the RRSIG of a set, from its name, type and TTL, the signer's key and name, and the times in
    /// seconds from the start of 1970 on.
    ///
    /// # Errors
    ///
    /// `KeyTooLong` exactly where the signer's DNSKEY has more than 65,531 octets of key.
    fn from_rrset(
        rr_set: &RecordSet,
        expiration: i64,
        inception: i64,
        signer: &DnssecSigner,
    ) -> Result<SigInput, SignError>
        ensures { result ≡ header_of (algorithm_of_key (signing_key signer.now)) (signer_data signer.now) rr_set.now
            expiration inception };
}

impl SigInputOf for SigInput {
    fn from_rrset(
        rr_set: &RecordSet,
        expiration: i64,
        inception: i64,
        signer: &DnssecSigner,
    ) -> Result<SigInput, SignError> {
        let key_tag = match signer.calculate_key_tag() {
            Ok(tag) => tag,
            Err(_) => return Err(SignError::KeyTooLong),
        };
        Ok(SigInput {
            type_covered: rr_set.record_type(),
            algorithm: signer.key().algorithm(),
            num_labels: rr_set.name().num_labels(),
            original_ttl: rr_set.ttl(),
            sig_expiration: serial_time(expiration),
            sig_inception: serial_time(inception),
            key_tag,
            signer_name: *signer.signer_name(),
        })
    }
}

/// The RRSIG of a record set, as a signer makes it.
pub trait SignRrset {
    /// The RRSIG of a set in a class, valid from the inception on, in seconds from the start of 1970, for as long as
    /// the signer says.
    ///
    /// # Errors
    ///
    /// `TimeOutOfRange` exactly where the last second passes 9,223,372,036,854,775,807. Else `KeyTooLong` exactly where
    /// the signer's DNSKEY has more than 65,531 octets of key. Else `Emit` with the cause of the first record of the
    /// class that can't be written. Else `Signing` only where the signer's key refuses the octets. Or `OutOfMemory`.
    fn from_rrset(
        alloc: Global,
        rr_set: &RecordSet,
        zone_class: DNSClass,
        inception: i64,
        signer: &DnssecSigner,
    ) -> Result<RRSIG, SignError>
        ensures { IsSigned (signs (signing_key signer.now)) (refuses (signing_key signer.now))
            (to_sign (algorithm_of_key (signing_key signer.now)) (signer_data signer.now) rr_set.now zone_class inception)
            result };
}

impl SignRrset for RRSIG {
    fn from_rrset(
        alloc: Global,
        rr_set: &RecordSet,
        zone_class: DNSClass,
        inception: i64,
        signer: &DnssecSigner,
    ) -> Result<RRSIG, SignError> {
        let expiration = expiration_of(inception, signer.sig_duration())?;
        let input = SigInput::from_rrset(rr_set, expiration, inception, signer)?;
        let name = rr_set.name();
        let records = rr_set.records_without_rrsigs();
        let set = CanonicalSet::new(alloc, name, zone_class, input.type_covered, records)?;
        let tbs = TBS::under_owner(alloc, name, zone_class, &input, &set)?;
        match signer.sign(&tbs) {
            Ok(signature) => Ok(RRSIG::from_sig(input, signature)),
            Err(cause) => Err(cause),
        }
    }
}
