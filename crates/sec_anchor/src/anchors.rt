//! Trust anchors: keys at the root, and keys at other names.
ghost use Rattle.std.specs.Prelude.{◌≡◌, ◌≢◌, ◌↔◌, [], map, length, slice_get, IsTrue, IfOk};
ghost use Rattle.std.specs.Option.{option_map};
ghost use Rattle.dns_wire.specs.Reading.{GivesUnless};
ghost use Rattle.dns_names.specs.Names.{same};
ghost use Rattle.sec_codes.specs.KeptKeys.{kept_key};
ghost use Rattle.sec_anchor.specs.Entries.{entry_data};
ghost use Rattle.sec_anchor.specs.Anchors.{anchors, held, anchors_of, no_anchors, add_key, add_entry, add_entries};
ghost use Rattle.sec_anchor.specs.Anchors.{IsAmong, IsNamed, IsTrusted, Inserts, Pushes, Adds};

use crate::entry::Entry;
use crate::parse_error::ParseError;
use crate::parser::Parser;
use dns_names::LowerName;
use dns_wire::OutOfMemory;
use sec_codes::{Algorithm, PublicKey, PublicKeyBuf, decode_public_key};
use std::alloc::Global;

/// The keys that are trusted from the start: a list for the root, and one for other names. A contract sees both lists,
/// by `anchors`.
#[derive(Debug, Drop)]
pub struct TrustAnchors {
    root_keys: Vec<PublicKeyBuf>,
    named_keys: Vec<(LowerName, PublicKeyBuf)>,
}

impl TrustAnchors {
    /// No keys.
    pub fn empty(alloc: Global) -> TrustAnchors
        ensures { anchors result ≡ no_anchors }
    {
        TrustAnchors {
            root_keys: Vec::new(alloc),
            named_keys: Vec::new(alloc),
        }
    }

    /// Whether the key is one of the root's.
    pub fn contains<P: PublicKey>(&self, key: &P) -> bool
        ensures { IsTrue result ↔ IsTrusted (anchors self.now) [] (P.key key.now) }
    {
        is_among(&self.root_keys, key.public_bytes(), key.algorithm())
    }

    /// Whether the key is one of the name's.
    pub fn contains_with_name<P: PublicKey>(&self, key: &P, name: &LowerName) -> bool
        ensures { IsTrue result ↔ IsTrusted (anchors self.now) name.now (P.key key.now) }
    {
        if name.is_root() {
            self.contains(key)
        } else {
            is_named(&self.named_keys, name, key.public_bytes(), key.algorithm())
        }
    }

    /// Puts a key behind the root's others, unless it is there; answers whether it was put.
    ///
    /// # Errors
    ///
    /// Out of memory; nothing has changed then.
    pub fn insert<P: PublicKey>(&mut self, key: &P) -> Result<bool, OutOfMemory>
        ensures { Inserts result (anchors self.old) (anchors self.new) [] (P.key key.now) }
    {
        if self.contains(key) {
            return Ok(false);
        }
        self.push_root(key.public_bytes(), key.algorithm())
    }

    /// Puts a key behind the others of its name's list, unless it is there at that name; answers whether it was put.
    /// The root has its own list.
    ///
    /// # Errors
    ///
    /// Out of memory; nothing has changed then.
    pub fn insert_with_name<P: PublicKey>(
        &mut self,
        key: &P,
        name: LowerName,
    ) -> Result<bool, OutOfMemory>
        ensures { Inserts result (anchors self.old) (anchors self.new) name (P.key key.now) }
    {
        if self.contains_with_name(key, &name) {
            return Ok(false);
        }
        self.push(name, key.public_bytes(), key.algorithm())
    }

    /// Puts a key behind the others of its name's list.
    fn push(
        &mut self,
        name: LowerName,
        octets: &[u8],
        algorithm: Algorithm,
    ) -> Result<bool, OutOfMemory>
        ensures { Pushes result (anchors self.old) (anchors self.new) name
            (record { octets = octets.now; algorithm = algorithm }) }
    {
        if name.is_root() {
            return self.push_root(octets, algorithm);
        }
        self.push_named(name, octets, algorithm)
    }

    /// Puts a key behind the root's others.
    fn push_root(&mut self, octets: &[u8], algorithm: Algorithm) -> Result<bool, OutOfMemory>
        ensures { Pushes result (anchors self.old) (anchors self.new) []
            (record { octets = octets.now; algorithm = algorithm }) }
    {
        match kept_copy(*self.root_keys.allocator(), octets, algorithm) {
            Ok(kept) => match self.root_keys.push(kept) {
                Ok(()) => Ok(true),
                Err(_) => Err(OutOfMemory),
            },
            Err(e) => Err(e),
        }
    }

    /// Puts a key behind those of other names than the root.
    fn push_named(
        &mut self,
        name: LowerName,
        octets: &[u8],
        algorithm: Algorithm,
    ) -> Result<bool, OutOfMemory>
        requires { name ≢ [] }
        ensures { Pushes result (anchors self.old) (anchors self.new) name
            (record { octets = octets.now; algorithm = algorithm }) }
    {
        match kept_copy(*self.named_keys.allocator(), octets, algorithm) {
            Ok(kept) => match self.named_keys.push((name, kept)) {
                Ok(()) => Ok(true),
                Err(_) => Err(OutOfMemory),
            },
            Err(e) => Err(e),
        }
    }

    /// Puts the key of an entry behind the others of its owner's list.
    fn add_entry(&mut self, entry: &Entry) -> Result<(), ParseError>
        ensures { Adds result (add_entry (anchors self.old) (entry_data entry.now)) (anchors self.new) }
    {
        let Entry::DNSKEY(record) = entry;
        let key = record.data().public_key();
        match decode_public_key(key.public_bytes(), key.algorithm()) {
            Ok(_) => {}
            Err(e) => return Err(ParseError::Key(e)),
        }
        let owner = LowerName::new(record.name());
        match self.push(owner, key.public_bytes(), key.algorithm()) {
            Ok(_) => Ok(()),
            Err(_) => Err(ParseError::OutOfMemory),
        }
    }

    /// The keys of the entries of a text, each in the list of its owner, in order. Duplicates are kept; flags, class
    /// and TTL are dropped.
    ///
    /// # Errors
    ///
    /// As `Parser::parse`; else `Key` where an entry's key lacks the form of its algorithm's keys, or the algorithm is
    /// not supported, for the first such entry. `OutOfMemory` may come in place of any answer.
    pub fn parse(alloc: Global, text: &str) -> Result<TrustAnchors, ParseError>
        ensures { GivesUnless ParseError.OutOfMemory anchors result (anchors_of text.now) }
    {
        match Parser::new(text).parse(alloc) {
            Ok(entries) => add_all(TrustAnchors::empty(alloc), &entries),
            Err(e) => Err(e),
        }
    }

    /// A copy.
    ///
    /// # Errors
    ///
    /// Out of memory.
    pub fn try_clone(&self) -> Result<TrustAnchors, OutOfMemory>
        ensures { IfOk result (λ copy. anchors copy ≡ anchors self.now) }
    {
        let alloc = *self.root_keys.allocator();
        let root_keys = copied_keys(alloc, &self.root_keys)?;
        let named_keys = copied_entries(alloc, &self.named_keys)?;
        Ok(TrustAnchors {
            root_keys,
            named_keys,
        })
    }

    /// The key of this place in the root's list, counted from 0.
    pub fn get(&self, idx: usize) -> Option<&PublicKeyBuf>
        ensures { option_map (λ key. kept_key key.now) result ≡ slice_get (anchors self.now).root idx }
    {
        self.root_keys.get(idx)
    }

    /// How many keys the root has.
    pub fn len(&self) -> usize
        ensures { result ≡ length (anchors self.now).root }
    {
        self.root_keys.len()
    }

    /// Whether the root has no key.
    pub fn is_empty(&self) -> bool
        ensures { IsTrue result ↔ ((anchors self.now).root ≡ []) }
    {
        self.root_keys.is_empty()
    }
}

/// Whether a key that is held is of these octets and this algorithm.
fn is_same_key(kept: &PublicKeyBuf, octets: &[u8], algorithm: Algorithm) -> bool
    ensures { IsTrue result ↔ (kept_key kept.now ≡ record { octets = octets.now; algorithm = algorithm }) }
{
    kept.public_bytes() == octets && kept.algorithm() == algorithm
}

/// Whether a key is one of these.
fn is_among(keys: &[PublicKeyBuf], octets: &[u8], algorithm: Algorithm) -> bool
    ensures { IsTrue result
        ↔ IsAmong (record { octets = octets.now; algorithm = algorithm }) (map kept_key keys.now) }
{
    for kept in keys {
        if is_same_key(kept, octets, algorithm) {
            return true;
        }
    }
    false
}

/// Whether a key that is held at a name is of this name, these octets and this algorithm.
fn is_same_entry(
    entry: &(LowerName, PublicKeyBuf),
    name: &LowerName,
    octets: &[u8],
    algorithm: Algorithm,
) -> bool
    ensures { IsTrue result ↔ (IsTrue (same entry.now.0 name.now)
        × (kept_key entry.now.1 ≡ record { octets = octets.now; algorithm = algorithm })) }
{
    entry.0 == *name && is_same_key(&entry.1, octets, algorithm)
}

/// Whether a key is one of these at the same name.
fn is_named(
    keys: &[(LowerName, PublicKeyBuf)],
    name: &LowerName,
    octets: &[u8],
    algorithm: Algorithm,
) -> bool
    ensures { IsTrue result ↔ IsNamed name.now (record { octets = octets.now; algorithm = algorithm })
        (map held keys.now) }
{
    for entry in keys {
        if is_same_entry(entry, name, octets, algorithm) {
            return true;
        }
    }
    false
}

/// A key of these octets and this algorithm.
fn kept_copy(
    alloc: Global,
    octets: &[u8],
    algorithm: Algorithm,
) -> Result<PublicKeyBuf, OutOfMemory>
    ensures { IfOk result (λ kept. kept_key kept ≡ record { octets = octets.now; algorithm = algorithm }) }
{
    Ok(PublicKeyBuf::new(Vec::from_slice(alloc, octets)?, algorithm))
}

/// Trust anchors with the keys of entries behind those that are there.
fn add_all(mut all: TrustAnchors, entries: &[Entry]) -> Result<TrustAnchors, ParseError>
    ensures { GivesUnless ParseError.OutOfMemory anchors result
        (add_entries (anchors all) (map entry_data entries.now)) }
{
    for entry in entries {
        all.add_entry(entry)?;
    }
    Ok(all)
}

/// Copies of keys.
fn copied_keys(alloc: Global, keys: &[PublicKeyBuf]) -> Result<Vec<PublicKeyBuf>, OutOfMemory>
    ensures { IfOk result (λ copies. map kept_key copies.items ≡ map kept_key keys.now) }
{
    let mut copies = Vec::new(alloc);
    for key in keys {
        copies.push(key.try_clone()?)?;
    }
    Ok(copies)
}

/// Copies of keys with their names.
fn copied_entries(
    alloc: Global,
    keys: &[(LowerName, PublicKeyBuf)],
) -> Result<Vec<(LowerName, PublicKeyBuf)>, OutOfMemory>
    ensures { IfOk result (λ copies. map held copies.items
        ≡ map held keys.now) }
{
    let mut copies = Vec::new(alloc);
    for entry in keys {
        copies.push((entry.0, entry.1.try_clone()?))?;
    }
    Ok(copies)
}
