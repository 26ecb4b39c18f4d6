//! Trusted entries, found by what a signature names of its key.
ghost use Rattle.std.specs.Prelude.{◌≡◌, IfOk, map, slice_get};
ghost use Rattle.sec_anchor.specs.Entries.{entry_data};
ghost use Rattle.sec_sign.specs.Pairs.{record_verdict, signature_record};
ghost use Rattle.sec_check.specs.Indexes.{strongest_at, verdict_at};
ghost use Rattle.sec_check.specs.Marks.{stronger, strongest, zone_key};

use crate::key_lookup::KeyLookup;
use crate::multimap::Multimap;
use dns_message::Record;
use dns_names::Name;
use dns_rdata::RData;
use dns_types::{DNSClass, RecordType};
use dns_wire::{EmitError, OutOfMemory};
use sec_anchor::Entry;
use sec_codes::SignatureScheme;
use sec_sign::{CanonicalSet, PairVerdict, RrsetName, ZoneKey, authenticates_set};
use std::alloc::Global;
use std::marker::Model;

/// The stronger of two verdicts.
pub(crate) fn stronger(first: PairVerdict, second: PairVerdict) -> PairVerdict
    ensures { result ≡ stronger first second }
{
    match (first, second) {
        (PairVerdict::Authentic, _) | (_, PairVerdict::Authentic) => PairVerdict::Authentic,
        (PairVerdict::NotMet, PairVerdict::NotMet) => PairVerdict::NotMet,
        _ => PairVerdict::NotAccepted,
    }
}

/// The verdict on a record and the entry at a position, if there is one.
#[tactic(auto, using(crate::proofs::KeyPositions::at_position))]
fn verdict_at<S: SignatureScheme>(
    alloc: Global,
    scheme: &S,
    moment: u32,
    name: &Name,
    dns_class: DNSClass,
    rtype: RecordType,
    rr: &Record<RData>,
    set: &Result<CanonicalSet, EmitError>,
    entries: &[Entry],
    position: usize,
) -> Result<PairVerdict, OutOfMemory>
    ensures { IfOk result (λ verdict. verdict
        ≡ verdict_at (λ entry. record_verdict (S.accepts scheme.now) moment
        record { name = name.now; dns_class = dns_class; rtype = rtype } (zone_key entry) set.now
        (signature_record rr.now)) (slice_get (map entry_data entries.now) position)) }
{
    let Some(Entry::DNSKEY(record)) = entries.get(position) else {
        return Ok(PairVerdict::NotMet);
    };
    let named = RrsetName {
        name,
        dns_class,
        rtype,
    };
    let key = ZoneKey {
        owner: record.name(),
        dns_class: record.dns_class(),
        dnskey: record.data(),
    };
    authenticates_set(alloc, scheme, moment, &named, rr, &key, set)
}

/// The strongest verdict on a record and the entries at these positions.
#[tactic(auto, using(crate::proofs::KeyPositions::strongest_more))]
fn strongest_at<S: SignatureScheme>(
    alloc: Global,
    scheme: &S,
    moment: u32,
    name: &Name,
    dns_class: DNSClass,
    rtype: RecordType,
    rr: &Record<RData>,
    set: &Result<CanonicalSet, EmitError>,
    entries: &[Entry],
    positions: &[usize],
) -> Result<PairVerdict, OutOfMemory>
    ensures { IfOk result (λ verdict. verdict
        ≡ strongest_at (λ entry. record_verdict (S.accepts scheme.now) moment
        record { name = name.now; dns_class = dns_class; rtype = rtype } (zone_key entry) set.now
        (signature_record rr.now)) (map entry_data entries.now) positions.now) }
{
    let mut found = PairVerdict::NotMet;
    for position in positions {
        let verdict = verdict_at(
            alloc, scheme, moment, name, dns_class, rtype, rr, set, entries, *position,
        )?;
        found = stronger(found, verdict);
        if let PairVerdict::Authentic = found {
            return Ok(found);
        }
    }
    Ok(found)
}

/// Trusted entries, and an index of them by what a signature names of its key. A contract sees the list of the entries.
#[derive(Drop)]
pub(crate) struct TrustedKeys<'a> {
    entries: &'a [Entry],
    by_name: &'a Multimap<KeyLookup, usize>,
}

impl<'a> Model for TrustedKeys<'a> {
    ghost use Rattle.std.specs.Prelude.{List, map};
    ghost use Rattle.sec_anchor.specs.Entries.{EntryData, entry_data};
    ghost use Rattle.sec_check.specs.Indexes.{IsIndex};

    ghost Value = { List EntryData };

    ghost view = { λ t. map entry_data t.entries.now };

    ghost invariant = { λ t. IsIndex t.by_name.now.by_key (map entry_data t.entries.now) };
}

impl<'a> TrustedKeys<'a> {
    ghost use Rattle.sec_check.specs.Indexes.{IsIndex};

    /// These entries, with their index.
    pub(crate) fn new(
        entries: &'a [Entry],
        by_name: &'a Multimap<KeyLookup, usize>,
    ) -> TrustedKeys<'a>
        requires { IsIndex by_name.now.by_key (map entry_data entries.now) }
        ensures { result ≡ map entry_data entries.now }
    {
        TrustedKeys { entries, by_name }
    }

    /// The strongest verdict on a record and any of the entries, for the set with this name, class and type and with
    /// these data. The entries are found by the index.
    pub(crate) fn verdict_on<S: SignatureScheme>(
        &self,
        alloc: Global,
        scheme: &S,
        moment: u32,
        name: &Name,
        dns_class: DNSClass,
        rtype: RecordType,
        rr: &Record<RData>,
        set: &Result<CanonicalSet, EmitError>,
    ) -> Result<PairVerdict, OutOfMemory>
        ensures { IfOk result (λ verdict. verdict
            ≡ strongest (map (λ entry. record_verdict (S.accepts scheme.now) moment
            record { name = name.now; dns_class = dns_class; rtype = rtype } (zone_key entry) set.now
            (signature_record rr.now)) self.now)) }
    {
        let Some(key_lookup) = KeyLookup::in_rrsig(rr) else {
            return Ok(PairVerdict::NotMet);
        };
        strongest_at(
            alloc,
            scheme,
            moment,
            name,
            dns_class,
            rtype,
            rr,
            set,
            self.entries,
            self.by_name.get(&key_lookup),
        )
    }
}
