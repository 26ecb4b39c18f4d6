//! A map with several values under a key.
ghost use Rattle.std.specs.Prelude.{◌≡◌, [], ◌∷◌, ◌++◌, OnOk, if◌then◌else◌};
ghost use Rattle.std.specs.Ordering.{is_eq};
ghost use Rattle.sec_check.specs.Indexes.{values_at};

use dns_wire::OutOfMemory;
use std::alloc::Global;
use std::collections::BTreeMap;

/// A map with several values under a key, in the order in which they were put.
#[derive(Drop)]
pub(crate) struct Multimap<K: Ord, V> {
    by_key: BTreeMap<K, Vec<V>>,
}

impl<K: Ord + Drop, V: Drop> Multimap<K, V> {
    /// A map of nothing.
    pub(crate) fn new(alloc: Global) -> Multimap<K, V>
        ensures { (q : K) → values_at K.cmp result.by_key q ≡ [] }
    {
        Multimap {
            by_key: BTreeMap::new(alloc),
        }
    }

    /// Puts a value behind those under the key.
    ///
    /// # Errors
    ///
    /// Out of memory. The value is then dropped.
    pub(crate) fn put(&mut self, alloc: Global, key: K, value: V) -> Result<(), OutOfMemory>
        ensures { OnOk result ((q : K) → values_at K.cmp self.new.by_key q
            ≡ (if is_eq (K.cmp key q) then values_at K.cmp self.old.by_key q ++ value ∷ []
            else values_at K.cmp self.old.by_key q)) }
    {
        let values = self.by_key.entry(key)?.or_insert(Vec::new(alloc));
        values.push(value)?;
        Ok(())
    }

    /// The values under the key, in the order in which they were put.
    pub(crate) fn get(&self, key: &K) -> &[V]
        ensures { result.now ≡ values_at K.cmp self.now.by_key key.now }
    {
        match self.by_key.get(key) {
            Some(values) => values,
            None => &[],
        }
    }
}
