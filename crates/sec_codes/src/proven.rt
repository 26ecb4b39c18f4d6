//! Values with their proof.
ghost use Rattle.std.specs.Prelude.{false, ◌≡◌, IsTrue, MatchResult, MatchOption, None, Some};
ghost use Rattle.sec_codes.specs.Proofs.{among};

use crate::proof::Proof;
use crate::proof_flags::ProofFlags;
use bitflags::Flags;
use std::marker::Model;

/// A value, which is given only to those who accept its proof. A contract sees the proof and the value.
#[derive(Debug, Drop, PartialEq, Eq)]
pub struct Proven<T> {
    proof: Proof,
    value: T,
}

impl<T> Model for Proven<T> {
    ghost use Rattle.sec_codes.specs.declared.proof.Proof.{Proof};

    ghost Value = { Proof × T };

    ghost view = { λ s. (s.proof, s.value) };

    ghost inverse = { λ v. record { proof = v.0; value = v.1 } };
}

impl<T> Proven<T> {
    /// A value with its proof.
    pub fn new(proof: Proof, value: T) -> Proven<T>
        ensures proof { result.0 ≡ proof }
        ensures value { result.1 ≡ value }
    {
        Proven { proof, value }
    }

    /// The proof.
    pub fn proof(&self) -> Proof
        ensures { result ≡ self.now.0 }
    {
        self.proof
    }

    /// Lends the value where its proof is among the flags.
    ///
    /// # Errors
    ///
    /// The proof, where it is not among them.
    pub fn require_as_ref(&self, flags: ProofFlags) -> Result<&T, Proof>
        ensures { MatchResult result (λ value. IsTrue (among flags self.now.0) × (value.now ≡ self.now.1))
            (λ proof. (among flags self.now.0 ≡ false) × (proof ≡ self.now.0)) }
    {
        if flags.contains(ProofFlags::from(self.proof)) {
            Ok(&self.value)
        } else {
            Err(self.proof)
        }
    }

    /// The value where its proof is among the flags.
    ///
    /// # Errors
    ///
    /// The whole, where it is not among them.
    pub fn require(self, flags: ProofFlags) -> Result<T, Proven<T>>
        ensures { MatchResult result (λ value. IsTrue (among flags self.0) × (value ≡ self.1))
            (λ whole. (among flags self.0 ≡ false) × (whole ≡ self)) }
    {
        if flags.contains(ProofFlags::from(self.proof)) {
            Ok(self.value)
        } else {
            Err(self)
        }
    }

    /// Another value made of this one, with the same proof.
    pub fn map<U, F: FnOnce(T) -> U>(self, f: F) -> Proven<U>
        requires { F.pre f self.1 }
        ensures proof { result.0 ≡ self.0 }
        ensures value { F.post f self.1 result.1 }
    {
        Proven {
            proof: self.proof,
            value: f(self.value),
        }
    }

    /// The proof and the value.
    pub fn into_parts(self) -> (Proof, T)
        ensures proof { result.0 ≡ self.0 }
        ensures value { result.1 ≡ self.1 }
    {
        (self.proof, self.value)
    }
}

impl<T> Proven<Option<T>> {
    /// The value that there is, with the same proof. `None` where there is none.
    pub fn transpose(self) -> Option<Proven<T>>
        ensures { MatchOption result (self.1 ≡ None) (λ whole. (whole.0 ≡ self.0) × (self.1 ≡ Some whole.1)) }
    {
        let Proven { proof, value } = self;
        value.map(|value| Proven { proof, value })
    }
}
