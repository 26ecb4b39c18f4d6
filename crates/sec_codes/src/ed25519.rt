//! Keys of Ed25519 (RFC 8080 3).
ghost use Rattle.std.specs.Prelude.{◌≡◌, IfOk};
ghost use Rattle.dns_wire.specs.Reading.{Gives};
ghost use Rattle.sec_codes.specs.KeyForms.{ed_form};

use crate::algorithm::Algorithm;
use crate::key_error::{KeyError, KeyKind};
use crate::public_key::PublicKey;
use crate::scheme::{SignatureScheme, ask};
use std::marker::Model;

/// A key of Ed25519: 32 octets. A contract sees the octets.
#[derive(Debug, Drop)]
pub struct Ed25519<'k> {
    octets: &'k [u8],
}

impl<'k> Model for Ed25519<'k> {
    ghost use Rattle.std.specs.Prelude.{◌≡◌, List, ℕ, Ok};
    ghost use Rattle.sec_codes.specs.declared.key_error.KeyKind.TheVariants.{Ed};
    ghost use Rattle.sec_codes.specs.KeyForms.{ed_form};

    ghost Value = { List ℕ };

    ghost view = { λ s. s.octets.now };

    ghost invariant = { λ s. ed_form s.octets.now ≡ Ok Ed };
}

impl<'k> Ed25519<'k> {
    /// These octets as a key.
    ///
    /// # Errors
    ///
    /// `WrongLength` where they are not 32.
    pub fn from_public_bytes(public_key: &'k [u8]) -> Result<Ed25519<'k>, KeyError>
        ensures form { Gives (λ _. KeyKind.Ed) result (ed_form public_key.now) }
        ensures key { IfOk result (λ key. key ≡ public_key.now) }
    {
        if public_key.len() != 32 {
            return Err(KeyError::WrongLength {
                expected: 32,
                found: public_key.len(),
            });
        }
        Ok(Ed25519 { octets: public_key })
    }
}

impl<'k> PublicKey for Ed25519<'k> {
    ghost use Rattle.sec_codes.specs.declared.algorithm.Algorithm.TheVariants.{ED25519};

    ghost key = { λ key. record { octets = key; algorithm = ED25519 } };

    fn public_bytes(&self) -> &[u8] {
        self.octets
    }

    fn verify<S: SignatureScheme>(
        &self,
        scheme: &S,
        message: &[u8],
        signature: &[u8],
    ) -> Result<(), KeyError> {
        ask(
            scheme,
            KeyKind::Ed,
            Algorithm::ED25519,
            self.octets,
            message,
            signature,
        )
    }

    fn algorithm(&self) -> Algorithm {
        Algorithm::ED25519
    }
}
