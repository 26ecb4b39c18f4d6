//! Public keys.
ghost use Rattle.std.specs.Prelude.{◌≡◌};

use crate::algorithm::Algorithm;
use crate::key_error::KeyError;
use crate::scheme::SignatureScheme;

/// A public key: its octets, as a DNSKEY record has them, and its algorithm (RFC 4034 2.1).
pub trait PublicKey {
    ghost use Rattle.dns_wire.specs.Reading.{GivesUnless};
    ghost use Rattle.sec_codes.specs.KeyForms.{Key};
    ghost use Rattle.sec_codes.specs.Schemes.{verified};

    // the octets and the algorithm
    ghost key: { Self → Key };

    /// The octets of the key.
    fn public_bytes(&self) -> &[u8]
        ensures { result.now ≡ (key self.now).octets };

    /// Checks a signature on a message.
    ///
    /// # Errors
    ///
    /// Why the octets lack the form of the algorithm's keys. Where they have it, `Crypto` exactly where the scheme does
    /// not accept the signature. `OutOfMemory` may come in place of any answer.
    fn verify<S: SignatureScheme>(
        &self,
        scheme: &S,
        message: &[u8],
        signature: &[u8],
    ) -> Result<(), KeyError>
        ensures { GivesUnless KeyError.OutOfMemory (λ done. done) result
            (verified (key self.now).algorithm (key self.now).octets
            (S.accepts scheme.now (key self.now).algorithm (key self.now).octets message.now signature.now)) };

    /// The algorithm of the key.
    fn algorithm(&self) -> Algorithm
        ensures { result ≡ (key self.now).algorithm };
}
