//! The records of a section by the sets that they are of, and its signatures by the sets that they cover.
ghost use Rattle.std.specs.Prelude.{◌≡◌, ◌++◌, ◌∷◌, [], List, IfOk};
ghost use Rattle.dns_rdata.specs.declared.rdata.RData.{RData as rdata};
ghost use Rattle.dns_message.specs.declared.record.Record.{Record as resource_record};
ghost use Rattle.sec_check.specs.Sections.{Holds};

use crate::multimap::Multimap;
use crate::rrset_key::{RrsetKey, forms_rrset};
use crate::set_list::SetList;
use dns_message::Record;
use dns_rdata::RData;
use dns_wire::OutOfMemory;
use std::alloc::Global;

/// The record sets of a section in order of first record, the records of each, and the signatures that cover each.
#[derive(Drop)]
pub(crate) struct SectionRecords {
    pub(crate) sets: SetList,
    pub(crate) records: Multimap<RrsetKey, Record<RData>>,
    pub(crate) signatures: Multimap<RrsetKey, Record<RData>>,
}

impl SectionRecords {
    fn new(alloc: Global) -> SectionRecords
        ensures { Holds result [] }
    {
        SectionRecords {
            sets: SetList::new(alloc),
            records: Multimap::new(alloc),
            signatures: Multimap::new(alloc),
        }
    }

    /// Takes one more record. Signatures that cover nothing, and OPT, are dropped.
    fn add(self, alloc: Global, rr: Record<RData>) -> Result<SectionRecords, OutOfMemory>
        ensures { IfOk result (λ after. (so_far : List (resource_record rdata)) → Holds self so_far
            → Holds after (so_far ++ rr ∷ [])) }
    {
        let SectionRecords {
            sets,
            mut records,
            mut signatures,
        } = self;
        if let Some(covered) = RrsetKey::covered_by(&rr) {
            signatures.put(alloc, covered, rr)?;
            return Ok(SectionRecords {
                sets,
                records,
                signatures,
            });
        }
        if !forms_rrset(rr.record_type()) {
            return Ok(SectionRecords {
                sets,
                records,
                signatures,
            });
        }
        let key = RrsetKey::of(&rr);
        let sets = sets.insert(&key)?;
        records.put(alloc, key, rr)?;
        Ok(SectionRecords {
            sets,
            records,
            signatures,
        })
    }

    /// The records of a section.
    pub(crate) fn of(
        alloc: Global,
        records: Vec<Record<RData>>,
    ) -> Result<SectionRecords, OutOfMemory>
        ensures { IfOk result (λ found. Holds found records.items) }
    {
        let mut found = SectionRecords::new(alloc);
        for rr in records {
            found = found.add(alloc, rr)?;
        }
        Ok(found)
    }
}
