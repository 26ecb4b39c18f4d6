//! A signature scheme of one's own.

use dns_wire::OutOfMemory;
use sec_codes::{Algorithm, SignatureScheme};
use sec_sign::KeyedHash;

/// Signatures by keys of Ed25519 alone, whose number is 15. Where `KeyedHash` stands, a resolver has the arithmetic.
pub(crate) struct OwnScheme;

impl SignatureScheme for OwnScheme {
    ghost use Rattle.std.specs.Prelude.{nat_eq, ◌&&◌};
    ghost use Rattle.sec_codes.specs.Algorithms.{number};
    ghost use Rattle.sec_sign.specs.KeyedHashes.{is_hash};

    ghost accepts = { λ _ algorithm key message signature.
        nat_eq (number algorithm) 15 && is_hash key message signature };

    fn verify(
        &self,
        algorithm: Algorithm,
        key: &[u8],
        message: &[u8],
        signature: &[u8],
    ) -> Result<bool, OutOfMemory> {
        if u8::from(algorithm) == 15 {
            KeyedHash.verify(algorithm, key, message, signature)
        } else {
            Ok(false)
        }
    }
}
