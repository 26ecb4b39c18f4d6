//! Keys that sign.
ghost use Rattle.std.specs.Prelude.{◌≡◌, ◌⊎◌, IfOk, IfErr};
ghost use Rattle.sec_codes.specs.KeptKeys.{kept_key};
ghost use Rattle.sec_sigdata.specs.declared.error.DnsSecError.TheVariants.{OutOfMemory as no_memory};

use crate::tbs::TBS;
use sec_codes::{Algorithm, PublicKeyBuf};
use sec_sigdata::DnsSecResult;

/// A key that signs. Its box is made by the caller.
pub trait SigningKey: Drop {
    ghost use Rattle.std.specs.Prelude.{ℕ, List};
    ghost use Rattle.sec_codes.specs.declared.algorithm.Algorithm.{Algorithm};
    ghost use Rattle.sec_codes.specs.KeyForms.{Key};

    // the messages and what are signatures of the key on them
    ghost signs: { Self → List ℕ → List ℕ → Type 0 };

    // the messages that the key may refuse to sign
    ghost refuses: { Self → List ℕ → Type 0 };

    // its algorithm
    ghost algorithm_of_key: { Self → Algorithm };

    // its public key
    ghost public_key: { Self → Key };

    /// A signature on the octets.
    ///
    /// # Errors
    ///
    /// Only where the key refuses the octets, or `OutOfMemory`.
    fn sign(&self, tbs: &TBS) -> DnsSecResult<Vec<u8>>
        ensures signed { IfOk result (λ signature. signs self.now tbs.now signature.items) }
        ensures refused { IfErr result (λ e. (e ≡ no_memory) ⊎ refuses self.now tbs.now) };

    /// The public key.
    ///
    /// # Errors
    ///
    /// `OutOfMemory`.
    fn to_public_key(&self) -> DnsSecResult<PublicKeyBuf>
        ensures key { IfOk result (λ key. kept_key key ≡ public_key self.now) }
        ensures memory { IfErr result (λ e. e ≡ no_memory) };

    /// The algorithm.
    fn algorithm(&self) -> Algorithm
        ensures { result ≡ algorithm_of_key self.now };
}
