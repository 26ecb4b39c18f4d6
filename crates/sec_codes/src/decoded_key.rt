//! Keys in their form.
ghost use Rattle.std.specs.Prelude.{◌≡◌, IfOk};
ghost use Rattle.dns_wire.specs.Reading.{Gives};
ghost use Rattle.sec_codes.specs.KeyForms.{key_form};
ghost use Rattle.sec_codes.specs.DecodedKeys.{key_of, kind_of};

use crate::algorithm::Algorithm;
use crate::ec_key::EcKey;
use crate::ed25519::Ed25519;
use crate::key_error::KeyError;
use crate::public_key::PublicKey;
use crate::rsa::Rsa;
use crate::scheme::SignatureScheme;

/// A key that has the form of its algorithm's keys.
#[derive(Debug, Drop)]
pub enum DecodedKey<'k> {
    /// A key of ECDSA.
    Ec(EcKey<'k>),
    /// A key of Ed25519.
    Ed(Ed25519<'k>),
    /// A key of RSA.
    Rsa(Rsa<'k>),
}

/// These octets as a key of the algorithm.
///
/// # Errors
///
/// `UnsupportedAlgorithm` for an algorithm that is not supported. Else `WrongLength` or `BadRsaKey` where the octets
/// lack the form of its keys.
pub fn decode_public_key(
    public_key: &[u8],
    algorithm: Algorithm,
) -> Result<DecodedKey<'_>, KeyError>
    ensures form { Gives kind_of result (key_form algorithm public_key.now) }
    ensures key { IfOk result (λ key. key_of key ≡ record { octets = public_key.now; algorithm = algorithm }) }
{
    match algorithm {
        Algorithm::ED25519 => Ok(DecodedKey::Ed(Ed25519::from_public_bytes(public_key)?)),
        Algorithm::ECDSAP256SHA256 | Algorithm::ECDSAP384SHA384 => Ok(DecodedKey::Ec(
            EcKey::from_public_bytes(public_key, algorithm)?,
        )),
        _ => Ok(DecodedKey::Rsa(Rsa::from_public_bytes(public_key, algorithm)?)),
    }
}

impl<'k> PublicKey for DecodedKey<'k> {
    ghost use Rattle.sec_codes.specs.DecodedKeys.{key_of};

    ghost key = { key_of };

    fn public_bytes(&self) -> &[u8] {
        match self {
            DecodedKey::Ec(key) => key.public_bytes(),
            DecodedKey::Ed(key) => key.public_bytes(),
            DecodedKey::Rsa(key) => key.public_bytes(),
        }
    }

    fn verify<S: SignatureScheme>(
        &self,
        scheme: &S,
        message: &[u8],
        signature: &[u8],
    ) -> Result<(), KeyError> {
        match self {
            DecodedKey::Ec(key) => key.verify(scheme, message, signature),
            DecodedKey::Ed(key) => key.verify(scheme, message, signature),
            DecodedKey::Rsa(key) => key.verify(scheme, message, signature),
        }
    }

    fn algorithm(&self) -> Algorithm {
        match self {
            DecodedKey::Ec(key) => key.algorithm(),
            DecodedKey::Ed(key) => key.algorithm(),
            DecodedKey::Rsa(key) => key.algorithm(),
        }
    }
}
