//! Keys of RSA (RFC 3110 2).
ghost use Rattle.std.specs.Prelude.{◌≡◌, IfOk, Some};
ghost use Rattle.std.specs.Option.{option_map};
ghost use Rattle.dns_wire.specs.Reading.{Gives};
ghost use Rattle.sec_codes.specs.KeyForms.{rsa_form, rsa_parts};

use crate::algorithm::Algorithm;
use crate::key_error::{KeyError, KeyKind};
use crate::public_key::PublicKey;
use crate::scheme::{SignatureScheme, ask};
use std::marker::Model;

/// A key of RSA: an exponent and a modulus. A contract sees the octets of both, with the exponent's length, and the
/// algorithm.
#[derive(Debug, Drop)]
pub struct Rsa<'k> {
    octets: &'k [u8],
    algorithm: Algorithm,
    e: &'k [u8],
    n: &'k [u8],
}

impl<'k> Model for Rsa<'k> {
    ghost use Rattle.std.specs.Prelude.{◌≡◌, Ok, Some};
    ghost use Rattle.sec_codes.specs.declared.key_error.KeyKind.TheVariants.{Rsa};
    ghost use Rattle.sec_codes.specs.KeyForms.{Key, key_form, rsa_parts};

    ghost Value = { Key };

    ghost view = { λ s. record { octets = s.octets.now; algorithm = s.algorithm } };

    ghost invariant = { λ s. (key_form s.algorithm s.octets.now ≡ Ok Rsa)
        × (rsa_parts s.octets.now ≡ Some (s.e.now, s.n.now)) };
}

impl<'k> Rsa<'k> {
    /// These octets as a key of the algorithm.
    ///
    /// # Errors
    ///
    /// `UnsupportedAlgorithm` outside RSASHA1, RSASHA1NSEC3SHA1, RSASHA256 and RSASHA512, then `BadRsaKey` where they
    /// are no exponent and modulus: where there are none, where a zero octet has not two octets of length behind it, or
    /// where the exponent passes the end.
    pub fn from_public_bytes(raw: &'k [u8], algorithm: Algorithm) -> Result<Rsa<'k>, KeyError>
        ensures form { Gives (λ _. KeyKind.Rsa) result (rsa_form algorithm raw.now) }
        ensures key { IfOk result (λ key. key ≡ record { octets = raw.now; algorithm = algorithm }) }
    {
        match algorithm {
            Algorithm::RSASHA1
            | Algorithm::RSASHA1NSEC3SHA1
            | Algorithm::RSASHA256
            | Algorithm::RSASHA512 => {}
            _ => return Err(KeyError::UnsupportedAlgorithm(u8::from(algorithm))),
        }
        match rsa_parts(raw) {
            Some((e, n)) => Ok(Rsa {
                octets: raw,
                algorithm,
                e,
                n,
            }),
            None => Err(KeyError::BadRsaKey),
        }
    }

    /// The exponent.
    pub fn e(&self) -> &'k [u8]
        ensures { option_map (λ parts. parts.0) (rsa_parts self.now.octets) ≡ Some result.now }
    {
        self.e
    }

    /// The modulus.
    pub fn n(&self) -> &'k [u8]
        ensures { option_map (λ parts. parts.1) (rsa_parts self.now.octets) ≡ Some result.now }
    {
        self.n
    }
}

/// The exponent and the modulus.
fn rsa_parts(raw: &[u8]) -> Option<(&[u8], &[u8])>
    ensures { option_map (λ parts. (parts.0.now, parts.1.now)) result ≡ rsa_parts raw.now }
{
    let (first, rest) = raw.split_first()?;
    if *first != 0 {
        return rest.split_at_checked(usize::from(*first));
    }
    let (high, rest) = rest.split_first()?;
    let (low, rest) = rest.split_first()?;
    rest.split_at_checked(usize::from(*high) * 256 + usize::from(*low))
}

impl<'k> PublicKey for Rsa<'k> {
    ghost key = { λ key. key };

    fn public_bytes(&self) -> &[u8] {
        self.octets
    }

    fn verify<S: SignatureScheme>(
        &self,
        scheme: &S,
        message: &[u8],
        signature: &[u8],
    ) -> Result<(), KeyError> {
        ask(
            scheme,
            KeyKind::Rsa,
            self.algorithm,
            self.octets,
            message,
            signature,
        )
    }

    fn algorithm(&self) -> Algorithm {
        self.algorithm
    }
}
