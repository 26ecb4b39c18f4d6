//! The hash of NSEC3 records (RFC 5155).

ghost use Rattle.std.specs.Prelude.{◌≡◌, length, MatchResult, ◌≢◌};
ghost use Rattle.sha1.specs.Sha1.{sha1};
ghost use Rattle.dns_names.specs.Names.{wire, low};
ghost use Rattle.dns_wire.specs.declared.error.DecodeError.TheVariants.{UnknownNsec3HashAlgorithm};
ghost use Rattle.sec_digest.specs.Digests.{digest_octets, iterated_hash};

use crate::digest::Digest;
use crate::hash::iterated;
use dns_names::Name;
use dns_wire::DecodeError;

/// A hash algorithm of NSEC3 records, by its number (RFC 5155, section 11).
#[derive(Clone, Copy, Debug, Default, PartialEq, Eq, Hash)]
pub enum Nsec3HashAlgorithm {
    /// Number 1, SHA-1.
    #[default]
    SHA1,
}

impl TryFrom<u8> for Nsec3HashAlgorithm {
    type Error = DecodeError;

    // Number 1 alone has an algorithm, and any other is refused by itself.
    ghost try_from_gives = { λ number result. MatchResult result (λ _. number ≡ 1)
        (λ e. (number ≢ 1) × (e ≡ UnknownNsec3HashAlgorithm number)) };

    fn try_from(number: u8) -> Result<Nsec3HashAlgorithm, DecodeError> {
        match number {
            1 => Ok(Nsec3HashAlgorithm::SHA1),
            _ => Err(DecodeError::UnknownNsec3HashAlgorithm(number)),
        }
    }
}

impl From<Nsec3HashAlgorithm> for u8 {
    ghost from_gives = { λ _ number. number ≡ 1 };

    fn from(algorithm: Nsec3HashAlgorithm) -> u8 {
        match algorithm {
            Nsec3HashAlgorithm::SHA1 => 1,
        }
    }
}

impl Nsec3HashAlgorithm {
    /// The hash of a name (RFC 5155, section 5): the iterated hash of its wire form in lower case,
    /// with so many rounds behind the first.
    pub fn hash(self, salt: &[u8], name: &Name, iterations: u16) -> Digest
        ensures exact { digest_octets result ≡ iterated_hash sha1 salt.now (wire (low name.now)) iterations }
        ensures len { length (digest_octets result) ≡ 20 }
    {
        match self {
            Nsec3HashAlgorithm::SHA1 => {
                Digest::Sha1(iterated(salt, name.to_lowercase().as_wire(), iterations))
            }
        }
    }
}
