//! Sets of proofs, as flags.
ghost use Rattle.std.specs.Prelude.{◌≡◌};

use crate::proof::Proof;
use bitflags::{Flag, Flags, bitflag_items};

/// A set of proofs. A contract sees `bits` of it, the number whose bits are the flags.
#[derive(Clone, Copy, Debug, PartialEq, Eq)]
pub struct ProofFlags(u32);

bitflag_items! {
    impl ProofFlags: u32 {
        /// The flag of `Proof::Indeterminate`.
        const INDETERMINATE = 1;
        /// The flag of `Proof::Bogus`.
        const BOGUS = 2;
        /// The flag of `Proof::Insecure`.
        const INSECURE = 4;
        /// The flag of `Proof::Secure`.
        const SECURE = 8;
    }
}

impl Flags for ProofFlags {
    ghost use Rattle.std.specs.Prelude.{◌∷◌, [], codes, ⊤};
    ghost use Rattle.sec_codes.specs.Proofs.{bits};

    type Bits = u32;

    ghost exact = { ⊤ };

    ghost table = { (codes "INDETERMINATE", 1) ∷ (codes "BOGUS", 2) ∷ (codes "INSECURE", 4) ∷ (codes "SECURE", 8)
        ∷ [] };

    ghost set_of = { bits };

    fn flags<'a>() -> &'a [Flag<ProofFlags>] {
        ProofFlags::FLAGS
    }

    fn bits(&self) -> u32 {
        self.0
    }

    fn from_bits_retain(bits: u32) -> ProofFlags {
        ProofFlags(bits)
    }
}

/// The flag of one proof.
impl From<Proof> for ProofFlags {
    ghost use Rattle.std.specs.Prelude.{◌≡◌};
    ghost use Rattle.sec_codes.specs.Proofs.{bits, flag};

    ghost from_gives = { λ proof flags. bits flags ≡ flag proof };

    fn from(proof: Proof) -> ProofFlags {
        match proof {
            Proof::Indeterminate => ProofFlags::INDETERMINATE,
            Proof::Bogus => ProofFlags::BOGUS,
            Proof::Insecure => ProofFlags::INSECURE,
            Proof::Secure => ProofFlags::SECURE,
        }
    }
}
