//! Digests of octets by the hash functions of digest types.

ghost use Rattle.std.specs.Prelude.{◌≡◌, ◌≤◌, ◌++◌, length, IfOk};
ghost use Rattle.dns_wire.specs.Reading.{Gives};
ghost use Rattle.sec_digest.specs.Digests.{digest, digest_len, digest_octets, iterated_digest};

use crate::digest_type::DigestType;
use crate::hash::{HashOutput, iterated};
use dns_wire::DecodeError;

/// A digest: the 20, 32 or 48 octets of a hash function. Its calls take no memory.
#[derive(Clone, Copy, Debug)]
pub enum Digest {
    /// A digest by SHA-1.
    Sha1([u8; 20]),
    /// A digest by SHA-256.
    Sha256([u8; 32]),
    /// A digest by SHA-384.
    Sha384([u8; 48]),
}

impl Digest {
    /// The digest of octets. `UnknownDigestAlgorithm` exactly for `DigestType::Unknown`.
    pub fn new(octets: &[u8], kind: DigestType) -> Result<Digest, DecodeError>
        ensures exact { Gives digest_octets result (digest kind octets.now) }
        ensures len { IfOk result (λ made. length (digest_octets made) ≡ digest_len kind) }
    {
        Digest::from_iter(octets, &[], kind)
    }

    /// The digest of two pieces, one behind the other. `UnknownDigestAlgorithm` exactly for
    /// `DigestType::Unknown`.
    pub fn from_iter(first: &[u8], second: &[u8], kind: DigestType) -> Result<Digest, DecodeError>
        ensures exact { Gives digest_octets result (digest kind (first.now ++ second.now)) }
        ensures len { IfOk result (λ made. length (digest_octets made) ≡ digest_len kind) }
    {
        match kind {
            DigestType::SHA1 => Ok(Digest::Sha1(HashOutput::of_two(first, second))),
            DigestType::SHA256 => Ok(Digest::Sha256(HashOutput::of_two(first, second))),
            DigestType::SHA384 => Ok(Digest::Sha384(HashOutput::of_two(first, second))),
            DigestType::Unknown(number) => Err(DecodeError::UnknownDigestAlgorithm(number)),
        }
    }

    /// The iterated hash of RFC 5155, section 5: of the octets and the salt, and then so many times
    /// of the digest before and the salt. `UnknownDigestAlgorithm` exactly for
    /// `DigestType::Unknown`.
    pub fn iterated(
        salt: &[u8],
        octets: &[u8],
        kind: DigestType,
        iterations: u16,
    ) -> Result<Digest, DecodeError>
        ensures exact { Gives digest_octets result (iterated_digest kind salt.now octets.now iterations) }
        ensures len { IfOk result (λ made. length (digest_octets made) ≡ digest_len kind) }
    {
        match kind {
            DigestType::SHA1 => Ok(Digest::Sha1(iterated(salt, octets, iterations))),
            DigestType::SHA256 => Ok(Digest::Sha256(iterated(salt, octets, iterations))),
            DigestType::SHA384 => Ok(Digest::Sha384(iterated(salt, octets, iterations))),
            DigestType::Unknown(number) => Err(DecodeError::UnknownDigestAlgorithm(number)),
        }
    }

    /// The octets of the digest.
    pub fn as_slice(&self) -> &[u8]
        ensures octets { result.now ≡ digest_octets self.now }
        ensures at_most_48 { length result.now ≤ 48 }
    {
        match self {
            Digest::Sha1(octets) => octets,
            Digest::Sha256(octets) => octets,
            Digest::Sha384(octets) => octets,
        }
    }
}
