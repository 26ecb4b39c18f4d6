//! Names in lower case.
ghost use Rattle.std.specs.Prelude.{◌≡◌, ◌↔◌, [], IsTrue};
ghost use Rattle.dns_names.specs.Names.{low, IsLowered};

use crate::name::Name;
use std::marker::Model;

/// A name whose letters are in lower case.
///
/// The clause `is_lowered` of a getter says what every such name keeps to.
#[derive(Clone, Copy, Debug, PartialEq, Eq, Hash)]
pub struct LowerName(Name);

impl Model for LowerName {
    ghost use Rattle.std.specs.Prelude.{List, ℕ};
    ghost use Rattle.dns_names.specs.Names.{IsLowered};

    ghost Value = { List (List ℕ) };

    ghost view = { λ s. s.0 };

    ghost invariant = { λ s. IsLowered s.0 };

    ghost inverse = { λ n. record { 0 = n } };
}

impl LowerName {
    /// The name in lower case.
    pub fn new(name: &Name) -> LowerName
        ensures value { result ≡ low name.now }
        ensures is_lowered { IsLowered result }
    {
        LowerName(name.to_lowercase())
    }

    /// Whether it is the root.
    pub fn is_root(&self) -> bool
        ensures root { IsTrue result ↔ (self.now ≡ []) }
        ensures is_lowered { IsLowered self.now }
    {
        self.0.is_root()
    }
}

impl From<&Name> for LowerName {
    ghost from_gives = { λ name lower. lower ≡ low name.now };

    fn from(name: &Name) -> LowerName {
        LowerName::new(name)
    }
}
