//! How far records are proved authentic (RFC 4035 4.3).
ghost use Rattle.std.specs.Prelude.{◌≡◌, ◌↔◌, IsTrue, Some};

use crate::proof_flags::ProofFlags;
use bitflags::Flags;
use std::error::Error;
use std::fmt;
use std::ops::BitOr;

/// How far a record is proved authentic. The order is Indeterminate, Bogus, Insecure, Secure, and Indeterminate is the
/// default.
#[derive(Clone, Copy, Debug, Default, PartialEq, Eq, PartialOrd, Ord)]
pub enum Proof {
    /// Whether the record should be signed can't be told.
    #[default]
    Indeterminate = 0,
    /// The record should be signed, and no signature on it was accepted.
    Bogus = 1,
    /// The record's zone is known to be unsigned.
    Insecure = 2,
    /// A chain of trust leads to a signature on the record that was accepted.
    Secure = 3,
}

impl Proof {
    /// Whether the record was proved authentic.
    pub fn is_secure(&self) -> bool
        ensures { IsTrue result ↔ (self.now ≡ Proof.Secure) }
    {
        *self == Proof::Secure
    }

    /// Whether the record's zone is known to be unsigned.
    pub fn is_insecure(&self) -> bool
        ensures { IsTrue result ↔ (self.now ≡ Proof.Insecure) }
    {
        *self == Proof::Insecure
    }

    /// Whether the record should be signed, and no signature was accepted.
    pub fn is_bogus(&self) -> bool
        ensures { IsTrue result ↔ (self.now ≡ Proof.Bogus) }
    {
        *self == Proof::Bogus
    }

    /// Whether nothing can be told of the record.
    pub fn is_indeterminate(&self) -> bool
        ensures { IsTrue result ↔ (self.now ≡ Proof.Indeterminate) }
    {
        *self == Proof::Indeterminate
    }
}

impl fmt::Display for Proof {
    ghost use Rattle.std.specs.Prelude.{Some};
    ghost use Rattle.sec_codes.specs.Proofs.{proof_text};

    ghost output = { λ proof. Some (proof_text proof) };

    fn fmt<W: fmt::Write>(&self, f: &mut fmt::Formatter<W>) -> fmt::Result {
        f.write_str(match self {
            Proof::Indeterminate => "Indeterminate",
            Proof::Bogus => "Bogus",
            Proof::Insecure => "Insecure",
            Proof::Secure => "Secure",
        })
    }
}

impl Error for Proof {}

/// The flags of both.
impl BitOr for Proof {
    ghost use Rattle.std.specs.Prelude.{◌≡◌};
    ghost use Rattle.std.specs.Int.RustNames.{bit_or};
    ghost use Rattle.sec_codes.specs.Proofs.{bits, flag};

    type Output = ProofFlags;

    ghost bitor_gives = { λ a b flags. bits flags ≡ bit_or (flag a) (flag b) };

    fn bitor(self, other: Proof) -> ProofFlags {
        ProofFlags::from(self).union(ProofFlags::from(other))
    }
}
