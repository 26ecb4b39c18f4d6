//! The scheme that tells whether a signature is right.
ghost use Rattle.std.specs.Prelude.{◌≡◌, IfOk, Ok};
ghost use Rattle.dns_wire.specs.Reading.{GivesUnless};
ghost use Rattle.sec_codes.specs.KeyForms.{key_form};
ghost use Rattle.sec_codes.specs.Schemes.{verified};

use crate::algorithm::Algorithm;
use crate::key_error::{KeyError, KeyKind};
use dns_wire::OutOfMemory;

/// A way to tell whether signatures are right. What it tells depends on what it holds, and on the four arguments of
/// `verify` alone.
pub trait SignatureScheme {
    ghost use Rattle.std.specs.Prelude.{Bool, ℕ, List};
    ghost use Rattle.sec_codes.specs.declared.algorithm.Algorithm.{Algorithm};

    // the scheme's relation: whether it accepts a signature on a message by the key with these octets, under an
    // algorithm
    ghost accepts: { Self → Algorithm → List ℕ → List ℕ → List ℕ → Bool };

    /// Whether the signature on the message by the key is right.
    ///
    /// # Errors
    ///
    /// Out of memory.
    fn verify(
        &self,
        algorithm: Algorithm,
        key: &[u8],
        message: &[u8],
        signature: &[u8],
    ) -> Result<bool, OutOfMemory>
        ensures { IfOk result (λ right. right ≡ accepts self.now algorithm key.now message.now signature.now) };
}

/// Asks the scheme about a signature by a key that has its form.
///
/// # Errors
///
/// `Crypto` exactly where the scheme does not accept the signature, or `OutOfMemory`.
pub(crate) fn ask<S: SignatureScheme>(
    scheme: &S,
    kind: KeyKind,
    algorithm: Algorithm,
    key: &[u8],
    message: &[u8],
    signature: &[u8],
) -> Result<(), KeyError>
    requires { key_form algorithm key.now ≡ Ok kind }
    ensures { GivesUnless KeyError.OutOfMemory (λ done. done) result
        (verified algorithm key.now (S.accepts scheme.now algorithm key.now message.now signature.now)) }
{
    match scheme.verify(algorithm, key, message, signature) {
        Ok(true) => Ok(()),
        Ok(false) => Err(KeyError::Crypto(kind)),
        Err(OutOfMemory) => Err(KeyError::OutOfMemory),
    }
}
