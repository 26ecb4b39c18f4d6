//! Labels.
ghost use Rattle.std.specs.Prelude.{◌≡◌, ◌<◌, ◌≤◌, ◌↔◌, List, length, nat_eq, IfOk, IsOk, IsErrOf};
ghost use Rattle.std.specs.Cmp.{partial_equiv_from_equiv};
ghost use Rattle.std.specs.Cmp.Lexicographic.{pointwise, nat_list_eq_equiv};
ghost use Rattle.std.specs.Cmp.Rules.{hashing};
ghost use Rattle.std.proofs.Common.{rules};
ghost use Rattle.std.specs.Hash as fed;
ghost use Rattle.dns_names.specs.Names.{IsLabel};

use dns_wire::NameError;
use std::hash::{Hash, Hasher};
use std::marker::Model;

/// How many octets a label has at most (RFC 1035 2.3.4).
pub(crate) const MAX_LABEL: usize = 63;

/// A label of 1 to 63 octets. Its equality keeps the case of letters.
#[derive(Clone, Copy)]
pub struct Label {
    octets: [u8; MAX_LABEL],
    len: u8,
}

impl Model for Label {
    ghost use Rattle.std.specs.Prelude.{List, ℕ, ◌++◌, ◌-◌, length, take, replicate};
    ghost use Rattle.std.proofs.Common.{sym};
    ghost use Rattle.dns_names.specs.Names.{HoldsLabel};

    ghost Value = { List ℕ };

    ghost view = { λ s. take s.len s.octets };

    ghost invariant = { λ s. HoldsLabel s.octets s.len };

    ghost inverse = { λ l. record { octets = l ++ replicate (63 - length l) 0; len = length l } };

    ghost inverse_ok = { λ s h i. record { octets = sym h.spelled i; len = sym h.counted i } };
}

impl Label {
    /// These octets as a label.
    ///
    /// # Errors
    ///
    /// `EmptyLabel` where there are none, `LabelTooLong` where there are more than 63.
    pub fn from_bytes(octets: &[u8]) -> Result<Label, NameError>
        ensures ok { IfOk result (λ label. (label ≡ octets.now) × IsLabel label) }
        ensures empty { IsErrOf result NameError.EmptyLabel ↔ (length octets.now ≡ 0) }
        ensures long { IsErrOf result NameError.LabelTooLong ↔ (63 < length octets.now) }
        ensures only { 0 < length octets.now → length octets.now ≤ 63 → IsOk result }
    {
        if octets.is_empty() {
            return Err(NameError::EmptyLabel);
        }
        if octets.len() > MAX_LABEL {
            return Err(NameError::LabelTooLong);
        }
        let mut held = [0; MAX_LABEL];
        held[..octets.len()].copy_from_slice(octets);
        Ok(Label {
            octets: held,
            len: octets.len() as u8,
        })
    }

    /// The octets of the label.
    pub fn as_slice(&self) -> &[u8]
        ensures value { result.now ≡ self.now }
        ensures label { IsLabel self.now }
    {
        &self.octets[..self.len as usize]
    }
}

impl PartialEq for Label {
    ghost eq = { pointwise nat_eq };

    ghost laws = { partial_equiv_from_equiv nat_list_eq_equiv };

    fn eq(&self, other: &Label) -> bool {
        self.as_slice() == other.as_slice()
    }
}

impl Eq for Label {
    ghost laws = { nat_list_eq_equiv };
}

impl Hash for Label {
    ghost hash_input = { fed.slice fed.u8 };

    ghost respects_eq = { Prim.search (hashing, rules) };

    fn hash<H: Hasher>(&self, state: &mut H) {
        self.as_slice().hash(state);
    }
}
