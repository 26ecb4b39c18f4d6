//! A list of record sets, each once.

use crate::rrset_key::RrsetKey;
use dns_wire::OutOfMemory;
use std::alloc::Global;
use std::collections::BTreeSet;
use std::marker::Model;

/// Record sets in the order in which they were first met. A contract sees the list alone.
#[derive(Drop)]
pub(crate) struct SetList {
    sets: Vec<RrsetKey>,
    seen: BTreeSet<RrsetKey>,
}

impl Model for SetList {
    ghost use Rattle.std.specs.Prelude.{List, map};
    ghost use Rattle.sec_sign.specs.Sets.{SetName};
    ghost use Rattle.sec_check.specs.SectionRecords.{Knows, name_of};

    ghost Value = { List SetName };

    ghost view = { λ s. map name_of s.sets.items };

    ghost invariant = { λ s. Knows (map name_of s.sets.items) s.seen };
}

impl SetList {
    ghost use Rattle.std.specs.Prelude.{◌≡◌, [], map, IfOk};
    ghost use Rattle.sec_sign.specs.Sets.{same_set};
    ghost use Rattle.sec_check.specs.RecordSets.{with_new};
    ghost use Rattle.sec_check.specs.SectionRecords.{name_of};

    pub(crate) fn new(alloc: Global) -> SetList
        ensures { result ≡ [] }
    {
        SetList {
            sets: Vec::new(alloc),
            seen: BTreeSet::new(alloc),
        }
    }

    /// Puts a set at the end, unless it is there.
    pub(crate) fn insert(mut self, set: &RrsetKey) -> Result<SetList, OutOfMemory>
        ensures { IfOk result (λ sets. sets ≡ with_new same_set self (name_of set.now)) }
    {
        if !self.seen.insert(*set)? {
            return Ok(self);
        }
        self.sets.push(*set)?;
        Ok(self)
    }

    /// The sets.
    pub(crate) fn keys(&self) -> &[RrsetKey]
        ensures { map name_of result.now ≡ self.now }
    {
        self.sets.as_slice()
    }
}
