//! Octets that are held in memory.
ghost use Rattle.std.specs.Prelude.{◌≡◌, IfOk, length, nat_eq};
ghost use Rattle.std.specs.Cmp.{partial_equiv_from_equiv};
ghost use Rattle.std.specs.Cmp.Lexicographic.{pointwise, nat_list_eq_equiv};
ghost use Rattle.std.specs.Cmp.Rules.{hashing};
ghost use Rattle.std.proofs.Common.{rules};
ghost use Rattle.std.specs.Hash as fed;

use crate::error::OutOfMemory;
use std::alloc::Global;
use std::hash::{Hash, Hasher};
use std::marker::Model;

/// A list of octets. A contract sees the list alone.
#[derive(Debug, Drop)]
pub struct Octets {
    octets: Vec<u8>,
}

impl Model for Octets {
    ghost use Rattle.std.specs.Prelude.{List, ℕ};

    ghost Value = { List ℕ };

    ghost view = { λ s. s.octets.items };
}

impl Octets {
    /// A copy of these octets.
    ///
    /// # Errors
    ///
    /// Out of memory.
    pub fn from_slice(alloc: Global, octets: &[u8]) -> Result<Octets, OutOfMemory>
        ensures { IfOk result (λ held. held ≡ octets.now) }
    {
        match Vec::from_slice(alloc, octets) {
            Ok(octets) => Ok(Octets { octets }),
            Err(_) => Err(OutOfMemory),
        }
    }

    /// The octets of a vector.
    pub fn from_vec(octets: Vec<u8>) -> Octets
        ensures { result ≡ octets.items }
    {
        Octets { octets }
    }

    /// The octets.
    pub fn as_slice(&self) -> &[u8]
        ensures { result.now ≡ self.now }
    {
        self.octets.as_slice()
    }

    /// The octets as a vector.
    pub fn into_vec(self) -> Vec<u8>
        ensures { result.items ≡ self }
    {
        self.octets
    }

    /// How many octets there are.
    pub fn len(&self) -> usize
        ensures { result ≡ length self.now }
    {
        self.octets.len()
    }

    /// A copy of the list.
    ///
    /// # Errors
    ///
    /// Out of memory.
    pub fn try_clone(&self) -> Result<Octets, OutOfMemory>
        ensures { IfOk result (λ held. held ≡ self.now) }
    {
        match self.octets.clone() {
            Ok(octets) => Ok(Octets { octets }),
            Err(_) => Err(OutOfMemory),
        }
    }
}

impl PartialEq for Octets {
    ghost eq = { pointwise nat_eq };

    ghost laws = { partial_equiv_from_equiv nat_list_eq_equiv };

    fn eq(&self, other: &Octets) -> bool {
        self.as_slice() == other.as_slice()
    }
}

impl Eq for Octets {
    ghost laws = { nat_list_eq_equiv };
}

impl Hash for Octets {
    ghost hash_input = { fed.slice fed.u8 };

    ghost respects_eq = { Prim.search (hashing, rules) };

    fn hash<H: Hasher>(&self, state: &mut H) {
        self.as_slice().hash(state);
    }
}
