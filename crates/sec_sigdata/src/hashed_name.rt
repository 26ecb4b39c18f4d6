//! Hashes of names, as NSEC3 records hold and print them (RFC 5155 3.1.7, 3.3).
ghost use Rattle.std.specs.Prelude.{◌≡◌, IfOk, nat_eq};
ghost use Rattle.std.specs.Cmp.{partial_equiv_from_equiv};
ghost use Rattle.std.specs.Cmp.Lexicographic.{pointwise, nat_list_eq_equiv};
ghost use Rattle.std.specs.Cmp.Rules.{hashing};
ghost use Rattle.std.specs.Option.{option_map};
ghost use Rattle.std.proofs.Common.{rules};
ghost use Rattle.std.specs.Hash as fed;
ghost use Rattle.sec_digest.specs.Base32.{hash_label};

use dns_names::Label;
use dns_wire::{Octets, OutOfMemory};
use sec_digest::base32_label;
use std::hash::{Hash, Hasher};
use std::marker::Model;

/// The hash of a name. A contract sees its octets alone.
#[derive(Debug, Drop)]
pub(crate) struct HashedName {
    hash: Octets,
    // the first label of the hashed name, which the hash tells
    label: Option<Label>,
}

impl Model for HashedName {
    ghost use Rattle.std.specs.Prelude.{◌≡◌, List, ℕ};
    ghost use Rattle.sec_digest.specs.Base32.{hash_label};

    ghost Value = { List ℕ };

    ghost view = { λ s. s.hash };

    ghost invariant = { λ s. s.label ≡ hash_label s.hash };
}

impl HashedName {
    /// A name with this hash.
    pub(crate) fn new(hash: Octets) -> HashedName
        ensures { result ≡ hash }
    {
        let label = base32_label(hash.as_slice());
        HashedName { hash, label }
    }

    /// The hash.
    pub(crate) fn as_slice(&self) -> &[u8]
        ensures { result.now ≡ self.now }
    {
        self.hash.as_slice()
    }

    /// The hash in base32, as a label.
    pub(crate) fn label(&self) -> Option<&Label>
        ensures { option_map (λ label. label.now) result ≡ hash_label self.now }
    {
        self.label.as_ref()
    }

    /// A copy of the hash.
    pub(crate) fn try_clone(&self) -> Result<HashedName, OutOfMemory>
        ensures { IfOk result (λ copy. copy ≡ self.now) }
    {
        let hash = self.hash.try_clone()?;
        Ok(HashedName {
            hash,
            label: self.label,
        })
    }
}

impl PartialEq for HashedName {
    ghost eq = { pointwise nat_eq };

    ghost laws = { partial_equiv_from_equiv nat_list_eq_equiv };

    fn eq(&self, other: &HashedName) -> bool {
        self.hash == other.hash
    }
}

impl Eq for HashedName {
    ghost laws = { nat_list_eq_equiv };
}

impl Hash for HashedName {
    ghost hash_input = { fed.slice fed.u8 };

    ghost respects_eq = { Prim.search (hashing, rules) };

    fn hash<H: Hasher>(&self, state: &mut H) {
        self.hash.hash(state);
    }
}
