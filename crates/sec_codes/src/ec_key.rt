//! Keys of ECDSA (RFC 6605 4).
ghost use Rattle.std.specs.Prelude.{◌≡◌, IfOk};
ghost use Rattle.dns_wire.specs.Reading.{Gives};
ghost use Rattle.sec_codes.specs.KeyForms.{ec_form};

use crate::algorithm::Algorithm;
use crate::key_error::{KeyError, KeyKind};
use crate::public_key::PublicKey;
use crate::scheme::{SignatureScheme, ask};
use std::marker::Model;

/// A key of ECDSA: the two coordinates of a point, of 32 octets each for P-256 and of 48 for P-384. A contract sees the
/// octets and the algorithm.
#[derive(Debug, Drop)]
pub struct EcKey<'k> {
    octets: &'k [u8],
    algorithm: Algorithm,
}

impl<'k> Model for EcKey<'k> {
    ghost use Rattle.std.specs.Prelude.{◌≡◌, Ok};
    ghost use Rattle.sec_codes.specs.declared.key_error.KeyKind.TheVariants.{Ec};
    ghost use Rattle.sec_codes.specs.KeyForms.{Key, key_form};

    ghost Value = { Key };

    ghost view = { λ s. record { octets = s.octets.now; algorithm = s.algorithm } };

    ghost invariant = { λ s. key_form s.algorithm s.octets.now ≡ Ok Ec };
}

impl<'k> EcKey<'k> {
    /// These octets as a key of the algorithm.
    ///
    /// # Errors
    ///
    /// `UnsupportedAlgorithm` outside ECDSAP256SHA256 and ECDSAP384SHA384, then `WrongLength` where they are not 64 and
    /// 96.
    pub fn from_public_bytes(
        public_key: &'k [u8],
        algorithm: Algorithm,
    ) -> Result<EcKey<'k>, KeyError>
        ensures form { Gives (λ _. KeyKind.Ec) result (ec_form algorithm public_key.now) }
        ensures key { IfOk result (λ key. key ≡ record { octets = public_key.now; algorithm = algorithm }) }
    {
        let expected = match algorithm {
            Algorithm::ECDSAP256SHA256 => 64,
            Algorithm::ECDSAP384SHA384 => 96,
            _ => return Err(KeyError::UnsupportedAlgorithm(u8::from(algorithm))),
        };
        if public_key.len() != expected {
            return Err(KeyError::WrongLength {
                expected,
                found: public_key.len(),
            });
        }
        Ok(EcKey {
            octets: public_key,
            algorithm,
        })
    }
}

impl<'k> PublicKey for EcKey<'k> {
    ghost key = { λ key. key };

    fn public_bytes(&self) -> &[u8] {
        self.octets
    }

    fn verify<S: SignatureScheme>(
        &self,
        scheme: &S,
        message: &[u8],
        signature: &[u8],
    ) -> Result<(), KeyError> {
        ask(
            scheme,
            KeyKind::Ec,
            self.algorithm,
            self.octets,
            message,
            signature,
        )
    }

    fn algorithm(&self) -> Algorithm {
        self.algorithm
    }
}
