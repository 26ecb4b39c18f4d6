//! The one form in which a set of types is written (RFC 4034 4.1.2).
ghost use Rattle.std.specs.Prelude.{◌≡◌, ℕ, ◌+◌, ◌≤◌, ◌<◌, ◌++◌, ◌||◌, [], IfOk, OnOk, bit_or, length, nat_eq};
ghost use Rattle.std.specs.Prelude.{slice_index};
ghost use Rattle.dns_types.specs.TypeSets.{has_type_bit, block_has, has_type, is_one_of, trimmed, block_unless_empty};
ghost use Rattle.dns_types.specs.TypeSets.{form_of};

use crate::codes::RecordType;
use crate::type_blocks::TypeBlock;
use dns_wire::OutOfMemory;
use std::alloc::Global;
use std::marker::Model;

/// The octets of the set of these types.
///
/// # Errors
///
/// Out of memory.
pub(crate) fn octets_of_types(alloc: Global, types: &[RecordType]) -> Result<Vec<u8>, OutOfMemory>
    ensures { IfOk result (λ octets. octets.items ≡ form_of (is_one_of types.now)) }
{
    let mut bits = TypeBits::new(alloc);
    for rtype in types {
        bits.insert(*rtype)?;
    }
    bits.form(alloc)
}

/// The octets of the set that a bitmap has, with its windows ascending and each once.
///
/// # Errors
///
/// Out of memory.
pub(crate) fn ascending_octets(alloc: Global, octets: &[u8]) -> Result<Vec<u8>, OutOfMemory>
    ensures { IfOk result (λ form. form.items ≡ form_of (has_type octets.now)) }
{
    let mut bits = TypeBits::new(alloc);
    let mut rest = octets;
    while let Some(block) = TypeBlock::first(rest) {
        bits.merge(&block)?;
        rest = block.rest();
    }
    bits.form(alloc)
}

/// A bit for each type of a set: type n is bit n, from the highest bit of the first octet on. A contract sees the
/// octets.
#[derive(Drop)]
struct TypeBits {
    octets: Vec<u8>,
}

impl Model for TypeBits {
    ghost use Rattle.std.specs.Prelude.{List, ℕ, length, ◌≤◌};

    ghost Value = { List ℕ };

    ghost view = { λ s. s.octets.items };

    ghost invariant = { λ s. length s.octets.items ≤ 8192 };
}

impl TypeBits {
    /// No types.
    fn new(alloc: Global) -> TypeBits
        ensures { result ≡ [] }
    {
        TypeBits {
            octets: Vec::new(alloc),
        }
    }

    /// Makes room for so many octets.
    fn make_room(&mut self, len: usize) -> Result<(), OutOfMemory>
        requires { len ≤ 8192 }
        ensures room { OnOk result (len ≤ length self.new) }
        ensures bits { OnOk result ((n : ℕ) → has_type_bit self.new n ≡ has_type_bit self.old n) }
    {
        if self.octets.len() < len {
            self.octets.resize(len, 0)?;
        }
        Ok(())
    }

    /// Adds a type.
    #[tactic(auto, using(crate::proofs::TypeBits::bit_set_after))]
    fn insert(&mut self, rtype: RecordType) -> Result<(), OutOfMemory>
        ensures { OnOk result ((n : ℕ) → has_type_bit self.new n ≡ (has_type_bit self.old n || nat_eq n rtype)) }
    {
        let number = u16::from(rtype);
        let place = usize::from(number / 8);
        self.make_room(place + 1)?;
        self.octets[place] |= 0x80 >> (number % 8);
        Ok(())
    }

    /// Adds the types of a block.
    #[tactic(auto, using(crate::proofs::TypeBits::bits_merged_after))]
    fn merge(&mut self, block: &TypeBlock<'_>) -> Result<(), OutOfMemory>
        ensures { OnOk result ((n : ℕ) → has_type_bit self.new n
            ≡ (has_type_bit self.old n || block_has n block.now.0)) }
    {
        let start = 32 * usize::from(block.window());
        let bits = block.bits();
        self.make_room(start + bits.len())?;
        merge_at(&mut self.octets, start, bits);
        Ok(())
    }

    /// The form of the set.
    #[tactic(auto, using(crate::proofs::FormWriting::written_all, crate::proofs::FormWriting::written_more))]
    fn form(&self, alloc: Global) -> Result<Vec<u8>, OutOfMemory>
        ensures { IfOk result (λ form. form.items ≡ form_of (has_type_bit self.now)) }
    {
        let bits = self.octets.as_slice();
        let mut form = Vec::new(alloc);
        for window in 0..bits.len().div_ceil(32) {
            let start = 32 * window;
            let end = bits.len().min(start + 32);
            push_block(&mut form, window as u8, trimmed(&bits[start..end]))?;
        }
        Ok(form)
    }
}

/// Sets the bits of these octets in those from `start` on, and clears none.
fn merge_at(octets: &mut [u8], start: usize, bits: &[u8])
    requires { start + length bits.now ≤ length octets.old }
    ensures before { (k : ℕ) → k < start → slice_index octets.new k ≡ slice_index octets.old k }
    ensures merged { (k : ℕ) → slice_index octets.new (start + k)
        ≡ bit_or (slice_index octets.old (start + k)) (slice_index bits.now k) }
{
    for (i, more) in bits.iter().enumerate() {
        octets[start + i] |= *more;
    }
}

/// The octets without the zero octets at their end.
#[tactic(auto, using(crate::proofs::FormWriting::trim_steps))]
fn trimmed(octets: &[u8]) -> &[u8]
    ensures { result.now ≡ trimmed octets.now }
{
    let mut left = octets;
    while let Some((last, front)) = left.split_last() {
        if *last != 0 {
            return left;
        }
        left = front;
    }
    left
}

/// Appends the block of a window, and nothing where it has no bits.
fn push_block(form: &mut Vec<u8>, window: u8, bits: &[u8]) -> Result<(), OutOfMemory>
    requires { length bits.now ≤ 32 }
    ensures { OnOk result (form.new.items ≡ form.old.items ++ block_unless_empty window bits.now) }
{
    if !bits.is_empty() {
        form.push(window)?;
        form.push(bits.len() as u8)?;
        form.extend_from_slice(bits)?;
    }
    Ok(())
}
