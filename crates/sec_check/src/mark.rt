//! How far a record set is proved authentic (RFC 4035 5.3).
ghost use Rattle.std.specs.Prelude.{◌≡◌, map, IfOk};
ghost use Rattle.sec_sign.specs.Pairs.{signature_record};
ghost use Rattle.sec_sign.specs.Sets.{set_data};
ghost use Rattle.sec_check.specs.Marks.{mark_by, strongest_pair};
ghost use Rattle.sec_check.specs.SectionRecords.{name_of};

use crate::rrset_key::RrsetKey;
use crate::trusted_keys::{TrustedKeys, stronger};
use dns_message::Record;
use dns_rdata::RData;
use dns_types::{DNSClass, RecordType};
use dns_wire::{EmitError, OutOfMemory};
use sec_codes::{Proof, SignatureScheme};
use sec_sign::{CanonicalSet, PairVerdict};
use std::alloc::Global;

/// The mark of a set by the strongest verdict on its pairs.
fn mark_by(verdict: PairVerdict) -> Proof
    ensures { result ≡ mark_by verdict }
{
    match verdict {
        PairVerdict::Authentic => Proof::Secure,
        PairVerdict::NotAccepted => Proof::Bogus,
        PairVerdict::NotMet => Proof::Indeterminate,
    }
}

/// The strongest verdict on one of the signatures and one of the entries, for a set with these data. Pairs are tried
/// until one is authentic.
#[tactic(auto, using(crate::proofs::Strongest::strongest_before, crate::proofs::Strongest::authentic_is_strongest, crate::proofs::Strongest::nothing_left))]
fn try_signatures<S: SignatureScheme>(
    alloc: Global,
    scheme: &S,
    moment: u32,
    keys: &TrustedKeys<'_>,
    set: &RrsetKey,
    octets: &Result<CanonicalSet, EmitError>,
    signatures: &[Record<RData>],
) -> Result<PairVerdict, OutOfMemory>
    ensures { IfOk result (λ verdict. verdict
        ≡ strongest_pair record { accepts = S.accepts scheme.now; moment = moment; entries = keys.now }
        (name_of set.now) octets.now (map signature_record signatures.now)) }
{
    let dns_class = DNSClass::from(set.dns_class);
    let rtype = RecordType::from(set.rtype);
    let mut found = PairVerdict::NotMet;
    for rr in signatures {
        let verdict = keys.verdict_on(
            alloc, scheme, moment, &set.owner, dns_class, rtype, rr, octets,
        )?;
        if verdict == PairVerdict::Authentic {
            return Ok(verdict);
        }
        found = stronger(found, verdict);
    }
    Ok(found)
}

/// The mark of a set that has these records and signatures.
pub(crate) fn mark<S: SignatureScheme>(
    alloc: Global,
    scheme: &S,
    moment: u32,
    keys: &TrustedKeys<'_>,
    set: &RrsetKey,
    records: &[Record<RData>],
    signatures: &[Record<RData>],
) -> Result<Proof, OutOfMemory>
    ensures { IfOk result (λ proof. proof
        ≡ mark_by (strongest_pair record { accepts = S.accepts scheme.now; moment = moment; entries = keys.now }
        (name_of set.now) (set_data (name_of set.now) records.now)
        (map signature_record signatures.now))) }
{
    if signatures.is_empty() {
        return Ok(Proof::Indeterminate);
    }
    let dns_class = DNSClass::from(set.dns_class);
    let rtype = RecordType::from(set.rtype);
    let octets = CanonicalSet::or_cause(alloc, &set.owner, dns_class, rtype, records)?;
    let verdict = try_signatures(alloc, scheme, moment, keys, set, &octets, signatures)?;
    Ok(mark_by(verdict))
}
