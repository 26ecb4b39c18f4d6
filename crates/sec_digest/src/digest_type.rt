//! The types of digest that a DS record names.

ghost use Rattle.std.specs.Prelude.{◌≡◌, is_ok};
ghost use Rattle.sec_digest.specs.Digests.{digest_number, digest_type, hash_function};

/// A digest type of DS records, by its number (RFC 4034, appendix A.2; RFC 4509; RFC 6605).
///
/// The order is that of the variants, unknown types last by their number.
#[derive(Clone, Copy, Debug, PartialEq, Eq, PartialOrd, Ord, Hash)]
pub enum DigestType {
    /// Number 1, SHA-1: 20 octets.
    SHA1,
    /// Number 2, SHA-256: 32 octets.
    SHA256,
    /// Number 4, SHA-384: 48 octets.
    SHA384,
    /// Any other number, of which no digest is made.
    Unknown(u8),
}

impl DigestType {
    /// Whether digests of this type can be made: all but the unknown ones.
    pub fn is_supported(&self) -> bool
        ensures { result ≡ is_ok (hash_function self.now) }
    {
        !matches!(self, DigestType::Unknown(_))
    }
}

impl From<u8> for DigestType {
    ghost from_gives = { λ number kind. kind ≡ digest_type number };

    fn from(number: u8) -> DigestType {
        match number {
            1 => DigestType::SHA1,
            2 => DigestType::SHA256,
            4 => DigestType::SHA384,
            _ => DigestType::Unknown(number),
        }
    }
}

impl From<DigestType> for u8 {
    ghost from_gives = { λ kind number. number ≡ digest_number kind };

    fn from(kind: DigestType) -> u8 {
        match kind {
            DigestType::SHA1 => 1,
            DigestType::SHA256 => 2,
            DigestType::SHA384 => 4,
            DigestType::Unknown(number) => number,
        }
    }
}
