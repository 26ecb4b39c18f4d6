//! Sets of records (RFC 2181 5).
ghost use Rattle.std.specs.Prelude.{◌≡◌, ◌++◌, ◌∷◌, [], MatchResult, OnErr, OnOk};
ghost use Rattle.dns_names.specs.Names.{Same};
ghost use Rattle.dns_rdata.specs.RData.{rdata_type};

use crate::record::Record;
use dns_names::Name;
use dns_rdata::RData;
use dns_types::RecordType;
use dns_wire::OutOfMemory;
use std::alloc::Global;
use std::marker::Model;

/// A set of records with the same owner and type. A contract sees its name, its type, its TTL and its records.
#[derive(Debug, Drop)]
pub struct RecordSet {
    name: Name,
    rtype: RecordType,
    ttl: u32,
    records: Vec<Record<RData>>,
}

impl Model for RecordSet {
    ghost use Rattle.dns_message.specs.RecordSets.{Rrset};

    ghost Value = { Rrset };

    ghost view = { λ s. record { name = s.name; rtype = s.rtype; ttl = s.ttl; records = s.records.items } };
}

impl RecordSet {
    /// A set of no records.
    pub fn with_ttl(alloc: Global, name: Name, rtype: RecordType, ttl: u32) -> RecordSet
        ensures { result ≡ record { name = name; rtype = rtype; ttl = ttl; records = [] } }
    {
        RecordSet {
            name,
            rtype,
            ttl,
            records: Vec::new(alloc),
        }
    }

    /// Puts a record to the set, which has the set's owner and type.
    ///
    /// # Errors
    ///
    /// Out of memory. The set then stays as it was.
    pub fn push(&mut self, rr: Record<RData>) -> Result<(), OutOfMemory>
        requires name { Same rr.name self.old.name }
        requires rtype { rdata_type rr.rdata ≡ self.old.rtype }
        ensures pushed { OnOk result (self.new ≡ record self.old { records = self.old.records ++ rr ∷ [] }) }
        ensures refused { OnErr result (self.new ≡ self.old) }
    {
        self.records.push(rr)?;
        Ok(())
    }

    /// The owner.
    pub fn name(&self) -> &Name
        ensures { result.now ≡ self.now.name }
    {
        &self.name
    }

    /// The type of the records.
    pub fn record_type(&self) -> RecordType
        ensures { result ≡ self.now.rtype }
    {
        self.rtype
    }

    /// How many seconds the records may be kept.
    pub fn ttl(&self) -> u32
        ensures { result ≡ self.now.ttl }
    {
        self.ttl
    }

    /// The records. Signatures are none of them.
    pub fn records_without_rrsigs(&self) -> &[Record<RData>]
        ensures { result.now ≡ self.now.records }
    {
        self.records.as_slice()
    }
}
