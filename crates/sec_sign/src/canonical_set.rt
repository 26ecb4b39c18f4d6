//! The data of a record set in canonical form and in ascending order (RFC 4034 6.3).
ghost use Rattle.std.specs.Prelude.{◌≡◌, ◌<◌, [], length, map, Err, IfOk, OnErr, OnOk};
ghost use Rattle.std.specs.BTreeSet.{insert_key};
ghost use Rattle.std.specs.List.{All};
ghost use Rattle.dns_wire.specs.declared.error.EmitError.{EmitError};
ghost use Rattle.dns_wire.specs.declared.error.EmitError.TheVariants.{OutOfMemory as no_memory};
ghost use Rattle.dns_wire.specs.Reading.{GivesUnless};
ghost use Rattle.dns_wire.specs.Sinks.{Takes};
ghost use Rattle.sec_sign.specs.Ascending.{octets_cmp};
ghost use Rattle.sec_sign.specs.Sets.{canonical, same_set, set_data, set_of_record};
ghost use Rattle.sec_sign.specs.Signed.{records_octets};
ghost use Rattle.sec_sign.specs.SignedSets.{head_of};

use crate::signed_set::{CanonicalData, SignedHead, put_signed_record};
use dns_message::Record;
use dns_names::Name;
use dns_rdata::RData;
use dns_types::{DNSClass, RecordType};
use dns_wire::{EmitError, OctetSink, OutOfMemory};
use std::alloc::Global;
use std::collections::BTreeSet;
use std::marker::Model;

/// Whether a record is of the set with this name, class and type.
fn is_of(rr: &Record<RData>, name: &Name, dns_class: DNSClass, rtype: RecordType) -> bool
    ensures { result ≡ same_set (set_of_record rr.now) record { name = name.now; dns_class = dns_class; rtype = rtype } }
{
    rr.record_type() == rtype && rr.dns_class == dns_class && rr.name == *name
}

/// The data of a record in canonical form, which fit a record.
#[tactic(auto, unfolding(crate::specs::Sets::canonical))]
fn canonical_octets(rdata: &RData, alloc: Global) -> Result<Vec<u8>, EmitError>
    ensures exact { GivesUnless no_memory (λ octets. octets.items) result (canonical rdata.now) }
    ensures short { IfOk result (λ octets. length octets.items < 65536) }
{
    rdata.canonical_octets(alloc)
}

/// Puts the data of a record in their place, unless they are there already.
fn put(so_far: &mut BTreeSet<Vec<u8>>, octets: Vec<u8>) -> Result<(), EmitError>
    requires each { All (λ c. length c.items < 65536) so_far.old.keys }
    requires short { length octets.items < 65536 }
    ensures put { OnOk result
        (map (λ c. c.items) so_far.new.keys ≡ insert_key octets_cmp (map (λ c. c.items) so_far.old.keys) octets.items) }
    ensures each { All (λ c. length c.items < 65536) so_far.new.keys }
    ensures memory { OnErr result (result ≡ Err no_memory) }
{
    so_far.insert(octets)?;
    Ok(())
}

/// The data of the records of a set in canonical form, in ascending order and each once.
#[tactic(auto, unfolding(crate::specs::Ascending::ascending))]
fn collect(
    alloc: Global,
    name: &Name,
    dns_class: DNSClass,
    rtype: RecordType,
    records: &[Record<RData>],
) -> Result<BTreeSet<Vec<u8>>, EmitError>
    ensures exact { GivesUnless no_memory (λ found. map (λ c. c.items) found.keys) result
        (set_data record { name = name.now; dns_class = dns_class; rtype = rtype } records.now) }
    ensures short { IfOk result (λ found. All (λ c. length c.items < 65536) found.keys) }
{
    let mut found = BTreeSet::new(alloc);
    for record in records {
        if is_of(record, name, dns_class, rtype) {
            let octets = canonical_octets(&record.rdata, alloc)?;
            put(&mut found, octets)?;
        }
    }
    Ok(found)
}

/// The data of a record set in canonical form, in ascending order and each once (RFC 4034 6.3). They serve every
/// signature of the set. A contract sees the list of them.
#[derive(Drop)]
pub struct CanonicalSet {
    pub(crate) octets: BTreeSet<Vec<u8>>,
}

impl Model for CanonicalSet {
    ghost use Rattle.std.specs.Prelude.{ℕ, ◌<◌, List, length, map};
    ghost use Rattle.std.specs.List.{All};

    ghost Value = { List (List ℕ) };

    ghost view = { λ s. map (λ c. c.items) s.octets.keys };

    ghost invariant = { λ s. All (λ c. length c.items < 65536) s.octets.keys };
}

impl CanonicalSet {
    /// The data of the set with this name, class and type among the records.
    ///
    /// # Errors
    ///
    /// The cause of the first record of the set that can't be written. Or `OutOfMemory`.
    pub fn new(
        alloc: Global,
        name: &Name,
        dns_class: DNSClass,
        rtype: RecordType,
        records: &[Record<RData>],
    ) -> Result<CanonicalSet, EmitError>
        ensures { GivesUnless EmitError.OutOfMemory (λ set. set) result
            (set_data record { name = name.now; dns_class = dns_class; rtype = rtype } records.now) }
    {
        match collect(alloc, name, dns_class, rtype, records) {
            Ok(octets) => Ok(CanonicalSet { octets }),
            Err(cause) => Err(cause),
        }
    }

    /// The data of the set with this name, class and type among the records, or the cause why there are none: that of
    /// the first record of the set that can't be written.
    ///
    /// # Errors
    ///
    /// Out of memory.
    pub fn or_cause(
        alloc: Global,
        name: &Name,
        dns_class: DNSClass,
        rtype: RecordType,
        records: &[Record<RData>],
    ) -> Result<Result<CanonicalSet, EmitError>, OutOfMemory>
        ensures { IfOk result (λ set. set
            ≡ set_data record { name = name.now; dns_class = dns_class; rtype = rtype } records.now) }
    {
        match CanonicalSet::new(alloc, name, dns_class, rtype, records) {
            Ok(set) => Ok(Ok(set)),
            Err(EmitError::OutOfMemory) => Err(OutOfMemory),
            Err(cause) => Ok(Err(cause)),
        }
    }
}

/// Puts a record with this head for each of these data, in their order.
fn put_each<S: OctetSink>(strings: &BTreeSet<Vec<u8>>, head: &SignedHead<'_>, sink: &mut S)
    requires { All (λ c. length c.items < 65536) strings.now.keys }
    ensures { Takes S.has_taken sink.old sink.new
        (records_octets (head_of head.now) (map (λ c. c.items) strings.now.keys)) }
{
    for string in strings {
        put_signed_record(head, string, sink);
    }
}

impl CanonicalData for CanonicalSet {
    ghost strings = { λ set. set };

    fn put_records<S: OctetSink>(&self, head: &SignedHead<'_>, sink: &mut S) {
        put_each(&self.octets, head, sink);
    }
}
