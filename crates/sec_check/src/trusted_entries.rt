//! Trusted entries, which are indexed when the first accepted answer asks for their keys.
ghost use Rattle.std.specs.Prelude.{◌≡◌, true, IfOk, OnOk, map};
ghost use Rattle.sec_anchor.specs.Entries.{entry_data};
ghost use Rattle.sec_check.specs.Indexes.{IsIndex};

use crate::key_lookup::KeyLookup;
use crate::multimap::Multimap;
use crate::trusted_keys::TrustedKeys;
use dns_wire::OutOfMemory;
use sec_anchor::Entry;
use std::alloc::Global;
use std::marker::Model;

/// The positions of the entries by the names of their keys.
fn index_of(alloc: Global, entries: &[Entry]) -> Result<Multimap<KeyLookup, usize>, OutOfMemory>
    ensures { IfOk result (λ index. IsIndex index.by_key (map entry_data entries.now)) }
{
    let mut index = Multimap::new(alloc);
    for (position, entry) in entries.iter().enumerate() {
        if let Some(name) = KeyLookup::of_entry(entry) {
            index.put(alloc, name, position)?;
        }
    }
    Ok(index)
}

/// Trusted entries, and their index once it was made. A contract sees the list of the entries, and whether there is an
/// index.
#[derive(Drop)]
pub(crate) struct TrustedEntries {
    entries: Vec<Entry>,
    by_name: Option<Multimap<KeyLookup, usize>>,
}

impl Model for TrustedEntries {
    ghost use Rattle.std.specs.Prelude.{MatchOption, is_some, map};
    ghost use Rattle.sec_anchor.specs.Entries.{entry_data};
    ghost use Rattle.sec_check.specs.Indexes.{IsIndex, TrustedData};

    ghost Value = { TrustedData };

    ghost view = { λ t. record { entries = map entry_data t.entries.items; is_indexed = is_some t.by_name } };

    ghost invariant = { λ t. MatchOption t.by_name (Unit {0})
        (λ by_name. IsIndex by_name.by_key (map entry_data t.entries.items)) };
}

impl TrustedEntries {
    /// The entries, without an index.
    pub(crate) fn new(entries: Vec<Entry>) -> TrustedEntries
        ensures { result.entries ≡ map entry_data entries.items }
    {
        TrustedEntries {
            entries,
            by_name: None,
        }
    }

    /// Makes the index, if there is none.
    ///
    /// # Errors
    ///
    /// Out of memory.
    pub(crate) fn index(&mut self, alloc: Global) -> Result<(), OutOfMemory>
        ensures entries { self.new.entries ≡ self.old.entries }
        ensures indexed { OnOk result (self.new.is_indexed ≡ true) }
    {
        if self.by_name.is_none() {
            self.by_name = Some(index_of(alloc, &self.entries)?);
        }
        Ok(())
    }

    /// The keys, by the index that was made.
    pub(crate) fn keys(&self) -> TrustedKeys<'_>
        requires { self.now.is_indexed ≡ true }
        ensures { result ≡ self.now.entries }
    {
        match &self.by_name {
            Some(by_name) => TrustedKeys::new(&self.entries, by_name),
            None => unreachable!(),
        }
    }
}
