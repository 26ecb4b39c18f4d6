//! Sets of record types (RFC 4034 4.1.2, RFC 5155 3.2.1).
ghost use Rattle.std.specs.Prelude.{◌≡◌, ◌↔◌, ◌⊎◌, ℕ, ◌+◌, ◌^◌, ◌<◌, ◌≤◌, IsTrue, IfOk, OnOk, IsOkAnd, Contains};
ghost use Rattle.std.specs.Prelude.{List, length, nat_eq};
ghost use Rattle.std.specs.Cmp.{partial_equiv_from_equiv};
ghost use Rattle.std.specs.Cmp.Lexicographic.{pointwise, nat_list_eq_equiv};
ghost use Rattle.std.specs.Cmp.Rules.{hashing};
ghost use Rattle.std.specs.Iterator.{YieldsFirst, item_count};
ghost use Rattle.std.proofs.Common.{rules};
ghost use Rattle.std.specs.Hash as fed;
ghost use Rattle.dns_wire.specs.Reading.{octets, place, ReadsUnless};
ghost use Rattle.dns_types.specs.TypeSets.{is_bitmap, has_type, HasType, types, TypesAt, types_at, type_set_at};
ghost use Rattle.dns_types.specs.TypeSets.{is_one_of, form_of};

use crate::codes::RecordType;
use crate::type_blocks::{TypeBlock, has_type, is_ascending, is_bitmap};
use crate::type_form::{ascending_octets, octets_of_types};
use dns_wire::{
    BinDecoder, BinEncodable, DecodeError, EmitError, Form, OctetSink, Octets, OutOfMemory,
    Putting, RecordDataDecodable,
};
use std::alloc::Global;
use std::hash::{Hash, Hasher};
use std::marker::Model;

/// A set of record types, in the octets that it writes (RFC 4034 4.1.2). A set that was read writes what was received,
/// octet by octet.
///
/// A contract sees these octets, which are a bitmap. Equality and hash go by them, so that two sets with the same types
/// can differ.
#[derive(Debug, Drop)]
pub struct RecordTypeSet {
    octets: Octets,
    // the same set with ascending windows, where those of the octets do not ascend
    ascending: Option<Octets>,
}

impl Model for RecordTypeSet {
    ghost use Rattle.std.specs.Prelude.{List, ℕ};
    ghost use Rattle.dns_types.specs.TypeWalks.{HoldsTypes};

    ghost Value = { List ℕ };

    ghost view = { λ s. s.octets };

    ghost invariant = { λ s. HoldsTypes s.octets s.ascending };
}

impl RecordTypeSet {
    /// The set of these types, in any order and with repeats. It writes the windows that have a type, ascending, each
    /// up to its last octet that has one.
    ///
    /// # Errors
    ///
    /// Out of memory.
    pub fn new(alloc: Global, types: &[RecordType]) -> Result<RecordTypeSet, OutOfMemory>
        ensures value { IfOk result (λ set. set ≡ form_of (is_one_of types.now)) }
        ensures members { IfOk result (λ set. (t : ℕ) → t < 2 ^ 16 → HasType set t ↔ Contains types.now t) }
        ensures bitmap { IfOk result (λ set. IsTrue (is_bitmap set)) }
    {
        let octets = octets_of_types(alloc, types)?;
        Ok(RecordTypeSet {
            octets: Octets::from_vec(octets),
            ascending: None,
        })
    }

    /// Reads the set whose octets go from the decoder's place to `end`.
    ///
    /// # Errors
    ///
    /// `BitmapMalformed` for octets that are no bitmap, or out of memory. The decoder then stays in place.
    pub fn read_within(
        alloc: Global,
        decoder: &mut BinDecoder<'_>,
        end: usize,
    ) -> Result<RecordTypeSet, DecodeError>
        requires ahead { place decoder.old ≤ end }
        requires inside { end ≤ length (octets decoder.old) }
        ensures found { IfOk result (λ set. TypesAt (octets decoder.old) (place decoder.old) end set
            (place decoder.new)) }
        ensures only { (set : List ℕ) (q : ℕ) → TypesAt (octets decoder.old) (place decoder.old) end set q
            → (result ≡ Err DecodeError.OutOfMemory) ⊎ IsOkAnd result (λ x. x ≡ set) }
        ensures exact { ReadsUnless (λ set. set) result decoder.old decoder.new
            (types_at (octets decoder.old) (place decoder.old) end) }
        ensures bitmap { IfOk result (λ set. IsTrue (is_bitmap set)) }
        ensures inside { place decoder.new ≤ end }
    {
        RecordTypeSet::read_up_to(alloc, decoder, end)
    }

    /// Reads the set whose octets go up to `end`, as the reading function gives it.
    fn read_up_to(
        alloc: Global,
        decoder: &mut BinDecoder<'_>,
        end: usize,
    ) -> Result<RecordTypeSet, DecodeError>
        requires ahead { place decoder.old ≤ end }
        requires inside { end ≤ length (octets decoder.old) }
        ensures exact { ReadsUnless (λ set. set) result decoder.old decoder.new
            (types_at (octets decoder.old) (place decoder.old) end) }
        ensures bitmap { IfOk result (λ set. IsTrue (is_bitmap set)) }
        ensures inside { place decoder.new ≤ end }
    {
        let mut reader = *decoder;
        let octets = reader.read_rest_within(end);
        if !is_bitmap(octets) {
            return Err(DecodeError::BitmapMalformed);
        }
        let set = RecordTypeSet::of_bitmap(alloc, octets)?;
        *decoder = reader;
        Ok(set)
    }

    /// Reads the set of `length` octets, as the reading function gives it.
    fn read_sized(
        alloc: Global,
        decoder: &mut BinDecoder<'_>,
        length: u16,
    ) -> Result<RecordTypeSet, DecodeError>
        ensures { ReadsUnless (λ set. set) result decoder.old decoder.new
            (type_set_at (octets decoder.old) (place decoder.old) length) }
    {
        if decoder.len() < usize::from(length) {
            return Err(DecodeError::InsufficientBytes);
        }
        let end = decoder.index() + usize::from(length);
        RecordTypeSet::read_up_to(alloc, decoder, end)
    }

    /// The set of a bitmap.
    fn of_bitmap(alloc: Global, octets: &[u8]) -> Result<RecordTypeSet, OutOfMemory>
        requires { IsTrue (is_bitmap octets.now) }
        ensures { IfOk result (λ set. set ≡ octets.now) }
    {
        let ascending = if is_ascending(octets) {
            None
        } else {
            Some(Octets::from_vec(ascending_octets(alloc, octets)?))
        };
        Ok(RecordTypeSet {
            octets: Octets::from_slice(alloc, octets)?,
            ascending,
        })
    }

    /// The octets that the set writes.
    pub fn as_octets(&self) -> &[u8]
        ensures value { result.now ≡ self.now }
        ensures bitmap { IsTrue (is_bitmap self.now) }
    {
        self.octets.as_slice()
    }

    /// Whether the type is in the set.
    pub fn contains(&self, rtype: RecordType) -> bool
        ensures value { result ≡ has_type self.now rtype }
        ensures member { IsTrue result ↔ HasType self.now rtype }
        ensures bitmap { IsTrue (is_bitmap self.now) }
    {
        has_type(self.octets.as_slice(), u16::from(rtype))
    }

    /// The types of the set, ascending and each once.
    pub fn iter(&self) -> RecordTypeIter<'_>
        ensures value { result ≡ types self.now }
        ensures bitmap { IsTrue (is_bitmap self.now) }
    {
        let octets = match &self.ascending {
            Some(ascending) => ascending,
            None => &self.octets,
        };
        RecordTypeIter {
            rest: octets.as_slice(),
            lowest: 0,
        }
    }

    /// A copy of the set.
    ///
    /// # Errors
    ///
    /// Out of memory.
    pub fn try_clone(&self) -> Result<RecordTypeSet, OutOfMemory>
        ensures value { IfOk result (λ set. set ≡ self.now) }
        ensures bitmap { IsTrue (is_bitmap self.now) }
    {
        let ascending = match &self.ascending {
            Some(ascending) => Some(ascending.try_clone()?),
            None => None,
        };
        Ok(RecordTypeSet {
            octets: self.octets.try_clone()?,
            ascending,
        })
    }
}

impl<'r> RecordDataDecodable<'r> for RecordTypeSet {
    ghost use Rattle.dns_types.specs.TypeReaders.{ReadsTypes};

    ghost is_read = { ReadsTypes };

    /// Reads the set whose octets are the data.
    ///
    /// # Errors
    ///
    /// `InsufficientBytes` where fewer octets are left, then `BitmapMalformed` for octets that are no bitmap, or out
    /// of memory. The decoder then stays in place.
    #[tactic(auto, using(crate::proofs::TypeReaderLaws::reads_types))]
    fn read_data(
        alloc: Global,
        decoder: &mut BinDecoder<'r>,
        length: u16,
    ) -> Result<RecordTypeSet, DecodeError> {
        RecordTypeSet::read_sized(alloc, decoder, length)
    }
}

impl Putting for RecordTypeSet {
    ghost use Rattle.std.specs.Prelude.{Ok};

    ghost written = { λ canonical_form name_encoding set. Ok set };

    fn put<S: OctetSink>(&self, form: Form, sink: &mut S) -> Result<(), EmitError> {
        sink.take(self.octets.as_slice());
        Ok(())
    }
}

impl BinEncodable for RecordTypeSet {}

impl PartialEq for RecordTypeSet {
    ghost eq = { pointwise nat_eq };

    ghost laws = { partial_equiv_from_equiv nat_list_eq_equiv };

    fn eq(&self, other: &RecordTypeSet) -> bool {
        self.octets == other.octets
    }
}

impl Eq for RecordTypeSet {
    ghost laws = { nat_list_eq_equiv };
}

impl Hash for RecordTypeSet {
    ghost hash_input = { fed.slice fed.u8 };

    ghost respects_eq = { Prim.search (hashing, rules) };

    fn hash<H: Hasher>(&self, state: &mut H) {
        self.octets.hash(state);
    }
}

/// The types of a set that are left, ascending. A contract sees their list.
#[derive(Debug, Drop)]
pub struct RecordTypeIter<'a> {
    rest: &'a [u8],
    lowest: usize,
}

impl<'a> Model for RecordTypeIter<'a> {
    ghost use Rattle.std.specs.Prelude.{List, ℕ};
    ghost use Rattle.dns_types.specs.TypeWalks.{types_from, IsTypeWalk};

    ghost Value = { List ℕ };

    ghost view = { λ s. types_from s.rest.now s.lowest };

    ghost invariant = { λ s. IsTypeWalk s.rest.now s.lowest };
}

impl<'a> Iterator for RecordTypeIter<'a> {
    type Item = RecordType;

    ghost next_gives = { YieldsFirst (λ s. s) };

    ghost remaining = { item_count (λ s. s) };

    fn next(&mut self) -> Option<RecordType> {
        while let Some(block) = TypeBlock::first(self.rest) {
            if let Some(rtype) = block.type_from(self.lowest) {
                self.lowest = usize::from(rtype) + 1;
                return Some(RecordType::from(rtype));
            }
            self.rest = block.rest();
        }
        None
    }
}
