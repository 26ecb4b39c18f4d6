//! The blocks of a type bitmap (RFC 4034 4.1.2).
ghost use Rattle.std.specs.Prelude.{◌≡◌, ◌≤◌, length};
ghost use Rattle.dns_types.specs.TypeSets.{first_block, block_has, is_bitmap, has_type, is_ascending};
ghost use Rattle.dns_types.specs.TypeWalks.{NextBit, NextType};

use std::marker::Model;

/// A window of 256 types, octets with a bit for each of its first types, and the octets behind this block. A contract
/// sees the block, and the octets behind it.
#[derive(Drop)]
pub(crate) struct TypeBlock<'a> {
    window: u8,
    bits: &'a [u8],
    rest: &'a [u8],
}

impl<'a> Model for TypeBlock<'a> {
    ghost use Rattle.std.specs.Prelude.{ℕ, List, ◌≤◌, length};
    ghost use Rattle.dns_types.specs.TypeSets.{Block};

    ghost Value = { Block × List ℕ };

    ghost view = { λ s. (record { window = s.window; bits = s.bits.now }, s.rest.now) };

    ghost invariant = { λ s. length s.bits.now ≤ 32 };
}

impl<'a> TypeBlock<'a> {
    /// The block at the front of the octets.
    pub(crate) fn first(octets: &'a [u8]) -> Option<TypeBlock<'a>>
        ensures { result ≡ first_block octets.now }
    {
        let [window, len, rest @ ..] = octets else {
            return None;
        };
        let len = usize::from(*len);
        if len == 0 || len > 32 || len > rest.len() {
            return None;
        }
        Some(TypeBlock {
            window: *window,
            bits: &rest[..len],
            rest: &rest[len..],
        })
    }

    /// The number of the window.
    pub(crate) fn window(&self) -> u8
        ensures { result ≡ self.now.0.window }
    {
        self.window
    }

    /// The octets of bits, at most 32.
    pub(crate) fn bits(&self) -> &'a [u8]
        ensures value { result.now ≡ self.now.0.bits }
        ensures at_most_32 { length result.now ≤ 32 }
    {
        self.bits
    }

    /// The octets behind the block.
    pub(crate) fn rest(&self) -> &'a [u8]
        ensures { result.now ≡ self.now.1 }
    {
        self.rest
    }

    /// Whether the type's bit is set.
    fn has(&self, rtype: u16) -> bool
        ensures { result ≡ block_has rtype self.now.0 }
    {
        let place = usize::from(rtype % 256 / 8);
        u16::from(self.window) == rtype / 256
            && place < self.bits.len()
            && self.bits[place] >> (7 - rtype % 8) & 1 == 1
    }

    /// The first type from `from` on whose bit is set.
    pub(crate) fn type_from(&self, from: usize) -> Option<u16>
        ensures { NextType self.now.0 from result }
    {
        let first = usize::from(self.window) * 256;
        match bit_from(self.bits, from.saturating_sub(first)) {
            Some(bit) => Some((first + bit) as u16),
            None => None,
        }
    }
}

/// The first bit from `from` on that is set, bits being counted from the highest of the first octet on.
fn bit_from(bits: &[u8], from: usize) -> Option<usize>
    requires { length bits.now ≤ 32 }
    ensures { NextBit bits.now from result }
{
    let mut bit = from;
    while bit / 8 < bits.len() {
        let octet = bits[bit / 8] << (bit % 8);
        if octet != 0 {
            return Some(bit + octet.leading_zeros() as usize);
        }
        bit = (bit / 8 + 1) * 8;
    }
    None
}

/// Whether the octets are a bitmap (RFC 4034 4.1.2): blocks of a window, a length from 1 to 32 and so many octets, one
/// behind the other.
#[tactic(auto, using(crate::proofs::TypeBlocks::bitmap_steps))]
pub fn is_bitmap(octets: &[u8]) -> bool
    ensures { result ≡ is_bitmap octets.now }
{
    let mut rest = octets;
    while let Some(block) = TypeBlock::first(rest) {
        rest = block.rest();
    }
    rest.is_empty()
}

/// Whether the windows strictly ascend.
#[tactic(auto, using(crate::proofs::TypeBlocks::ascending_steps))]
pub(crate) fn is_ascending(octets: &[u8]) -> bool
    ensures { result ≡ is_ascending octets.now }
{
    let mut rest = octets;
    let mut lowest = 0;
    while let Some(block) = TypeBlock::first(rest) {
        if u16::from(block.window()) < lowest {
            return false;
        }
        lowest = u16::from(block.window()) + 1;
        rest = block.rest();
    }
    true
}

/// Whether a bitmap has the type.
#[tactic(auto, using(crate::proofs::TypeBlocks::member_steps))]
pub(crate) fn has_type(octets: &[u8], rtype: u16) -> bool
    ensures { result ≡ has_type octets.now rtype }
{
    let mut rest = octets;
    while let Some(block) = TypeBlock::first(rest) {
        if block.has(rtype) {
            return true;
        }
        rest = block.rest();
    }
    false
}
