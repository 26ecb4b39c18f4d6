//! Whether a key made a signature of a record set (RFC 4035 5.3.1).
ghost use Rattle.std.specs.Prelude.{◌≡◌, IfOk, List, MatchOption, Result, ℕ};
ghost use Rattle.std.specs.Option.{option_copied};
ghost use Rattle.dns_wire.specs.declared.error.EmitError.{EmitError};
ghost use Rattle.sec_codes.specs.KeptKeys.{kept_key};
ghost use Rattle.sec_keydata.specs.DnsKeys.{dnskey_data};
ghost use Rattle.sec_sigdata.specs.Signatures.{rrsig_data};
ghost use Rattle.sec_sign.specs.Pairs.{serial_le, is_within_times, is_under, covers_set, names_key, may_sign, meets};
ghost use Rattle.sec_sign.specs.Pairs.{is_authentic, lent_key, met_verdict, pair_verdict, rrsig_of, set_named, set_verdict};
ghost use Rattle.sec_sign.specs.Verifying.{Relation};

use crate::canonical_set::CanonicalSet;
use crate::pair_parts::{RrsetName, ZoneKey};
use crate::tbs::TBS;
use crate::tbs_error::TbsError;
use dns_message::Record;
use dns_names::Name;
use dns_rdata::{DNSSECRData, RData};
use dns_types::DNSClass;
use dns_wire::{EmitError, OutOfMemory};
use sec_codes::{PublicKey, PublicKeyBuf, SignatureScheme};
use sec_sigdata::{RRSIG, SigInput};
use std::alloc::Global;

/// What is found of an RRSIG and a key for a record set.
#[derive(Clone, Copy, Debug, PartialEq, Eq)]
pub enum PairVerdict {
    /// They don't meet the set: the record is no RRSIG of it, or not one by the key, or not of this time.
    NotMet,
    /// They meet the set, and the signature isn't right.
    NotAccepted,
    /// They meet the set, and the signature is right.
    Authentic,
}

/// Whether a serial number is not after another.
fn serial_le(from: u32, to: u32) -> bool
    ensures { result ≡ serial_le from to }
{
    to.wrapping_sub(from) < 0x8000_0000
}

/// Whether a moment is within the times of a signature.
fn is_within_times(input: &SigInput, moment: u32) -> bool
    ensures { result ≡ is_within_times input.now moment }
{
    serial_le(input.sig_inception.0, moment) && serial_le(moment, input.sig_expiration.0)
}

/// Whether an RRSIG with this owner, this class and these fields is one of the set.
fn covers_set(set: &RrsetName<'_>, owner: &Name, dns_class: DNSClass, input: &SigInput) -> bool
    ensures { result ≡ covers_set (set_named set.now) owner.now dns_class input.now }
{
    input.type_covered == set.rtype
        && dns_class == set.dns_class
        && input.num_labels == set.name.num_labels()
        && *owner == *set.name
}

/// Whether an RRSIG of this class and with these fields names the key.
fn names_key(key: &ZoneKey<'_>, dns_class: DNSClass, input: &SigInput) -> bool
    ensures { result ≡ names_key (lent_key key.now) dns_class input.now }
{
    dns_class == key.dns_class
        && u8::from(input.algorithm) == u8::from(key.dnskey.public_key().algorithm())
        && input.signer_name == *key.owner
        && key.dnskey.has_tag(input.key_tag)
}

/// Whether a name is another or below it.
fn is_under(name: &Name, zone: &Name) -> bool
    ensures { result ≡ is_under name.now zone.now }
{
    zone.zone_of(name)
}

/// Whether a key may sign a set with this name.
fn may_sign(key: &ZoneKey<'_>, name: &Name) -> bool
    ensures { result ≡ may_sign key.now.owner.now (dnskey_data key.now.dnskey.now) name.now }
{
    key.dnskey.zone_key() && is_under(name, key.owner) && key.dnskey.is_well_formed()
}

/// Whether an RRSIG with this owner, this class and these fields and a key meet a set at a moment.
fn meets(
    moment: u32,
    set: &RrsetName<'_>,
    owner: &Name,
    dns_class: DNSClass,
    input: &SigInput,
    key: &ZoneKey<'_>,
) -> bool
    ensures { result ≡ meets moment (set_named set.now) owner.now dns_class input.now (lent_key key.now) }
{
    covers_set(set, owner, dns_class, input)
        && is_within_times(input, moment)
        && names_key(key, dns_class, input)
        && may_sign(key, set.name)
}

/// The RRSIG that data are.
fn rrsig_of(rdata: &RData) -> Option<&RRSIG>
    ensures { option_copied result ≡ rrsig_of rdata.now }
{
    match rdata {
        RData::DNSSEC(DNSSECRData::RRSIG(rrsig)) => Some(rrsig),
        _ => None,
    }
}

/// The RRSIG by which a record and a key meet a set at a moment, so that only its signature is still to be checked.
#[tactic(auto, using(crate::proofs::PairVerdicts::no_signature, crate::proofs::PairVerdicts::not_met, crate::proofs::PairVerdicts::met))]
fn met_by<'a>(
    moment: u32,
    set: &RrsetName<'_>,
    rr: &'a Record<RData>,
    key: &ZoneKey<'_>,
) -> Option<&'a RRSIG>
    ensures { MatchOption result
        ((accepts : Relation) (strings : Result (List (List ℕ)) EmitError)
        → PairVerdict.NotMet ≡ set_verdict accepts moment (set_named set.now) rr.now (lent_key key.now) strings)
        (λ rrsig. (accepts : Relation) (strings : Result (List (List ℕ)) EmitError)
        → met_verdict (is_authentic accepts (set_named set.now) (rrsig_data rrsig.now) (dnskey_data key.now.dnskey.now).public_key strings)
        ≡ set_verdict accepts moment (set_named set.now) rr.now (lent_key key.now) strings) }
{
    let rrsig = rrsig_of(&rr.rdata)?;
    if meets(moment, set, &rr.name, rr.dns_class, rrsig.input(), key) {
        Some(rrsig)
    } else {
        None
    }
}

/// Whether the key made the signature of the set with these data.
fn is_authentic<S: SignatureScheme>(
    alloc: Global,
    scheme: &S,
    set: &RrsetName<'_>,
    rrsig: &RRSIG,
    key: &PublicKeyBuf,
    strings: &Result<CanonicalSet, EmitError>,
) -> Result<bool, OutOfMemory>
    ensures { IfOk result (λ is_right. is_right ≡ is_authentic (S.accepts scheme.now) (set_named set.now)
        (rrsig_data rrsig.now) (kept_key key.now) strings.now) }
{
    let Ok(found) = strings else {
        return Ok(false);
    };
    match TBS::of_set(alloc, set.name, set.dns_class, rrsig.input(), found) {
        Ok(tbs) => scheme.verify(
            key.algorithm(),
            key.public_bytes(),
            tbs.as_slice(),
            rrsig.sig(),
        ),
        Err(TbsError::OutOfMemory) => Err(OutOfMemory),
        Err(_) => Ok(false),
    }
}

/// What is found of an RRSIG and a key that meet the set with these data.
fn met_verdict<S: SignatureScheme>(
    alloc: Global,
    scheme: &S,
    set: &RrsetName<'_>,
    rrsig: &RRSIG,
    key: &PublicKeyBuf,
    strings: &Result<CanonicalSet, EmitError>,
) -> Result<PairVerdict, OutOfMemory>
    ensures { IfOk result (λ verdict. verdict ≡ met_verdict (is_authentic (S.accepts scheme.now) (set_named set.now)
        (rrsig_data rrsig.now) (kept_key key.now) strings.now)) }
{
    match is_authentic(alloc, scheme, set, rrsig, key, strings) {
        Ok(true) => Ok(PairVerdict::Authentic),
        Ok(false) => Ok(PairVerdict::NotAccepted),
        Err(OutOfMemory) => Err(OutOfMemory),
    }
}

/// What is found of a record and a key at a moment, a time in seconds from the start of 1970, for the record set of this
/// name, which is among `records`. That the record is in the same part of a message as the set is the caller's to
/// see.
///
/// It is `NotMet` exactly where `rr` is no RRSIG with data, or one of these fails: it has the set's owner, class and
/// type, and as many labels as the owner; the moment is within its times; its signer, class, algorithm and key tag are
/// those of the key; the key is one of a zone that the set's owner is in; and the key is of a supported algorithm, has
/// the form of its keys and fits a record (RFC 4035 5.3.1). Else it is `Authentic` exactly where the set has octets to
/// be signed and the scheme accepts the signature of them by the key, and `NotAccepted` where not.
///
/// # Errors
///
/// Out of memory.
pub fn authenticates<S: SignatureScheme>(
    alloc: Global,
    scheme: &S,
    moment: u32,
    set: &RrsetName<'_>,
    rr: &Record<RData>,
    key: &ZoneKey<'_>,
    records: &[Record<RData>],
) -> Result<PairVerdict, OutOfMemory>
    ensures { IfOk result (λ verdict. verdict
        ≡ pair_verdict (S.accepts scheme.now) moment (set_named set.now) rr.now (lent_key key.now) records.now) }
{
    let Some(rrsig) = met_by(moment, set, rr, key) else {
        return Ok(PairVerdict::NotMet);
    };
    let strings = CanonicalSet::or_cause(alloc, set.name, set.dns_class, set.rtype, records)?;
    met_verdict(alloc, scheme, set, rrsig, key.dnskey.public_key(), &strings)
}

/// The same as `authenticates`, for a set whose data are at hand, or the cause why there are none: so they are made
/// once for all signatures and keys that are tried on the set.
///
/// # Errors
///
/// Out of memory.
pub fn authenticates_set<S: SignatureScheme>(
    alloc: Global,
    scheme: &S,
    moment: u32,
    set: &RrsetName<'_>,
    rr: &Record<RData>,
    key: &ZoneKey<'_>,
    strings: &Result<CanonicalSet, EmitError>,
) -> Result<PairVerdict, OutOfMemory>
    ensures { IfOk result (λ verdict. verdict
        ≡ set_verdict (S.accepts scheme.now) moment (set_named set.now) rr.now (lent_key key.now) strings.now) }
{
    let Some(rrsig) = met_by(moment, set, rr, key) else {
        return Ok(PairVerdict::NotMet);
    };
    met_verdict(alloc, scheme, set, rrsig, key.dnskey.public_key(), strings)
}
