//! What HMAC answers: a message authentication code (MAC).

ghost use Rattle.std.specs.Prelude.{◌≡◌, ◌≤◌, ◌↔◌, length, IsTrue};
ghost use Rattle.sec_digest.specs.Mac.{mac_octets};

/// A message authentication code (MAC): the 32, 48 or 64 octets that HMAC (RFC 2104) gives, by its
/// hash function.
#[derive(Clone, Copy, Debug)]
pub enum Mac {
    /// A MAC under SHA-256.
    Sha256([u8; 32]),
    /// A MAC under SHA-384.
    Sha384([u8; 48]),
    /// A MAC under SHA-512.
    Sha512([u8; 64]),
}

impl Mac {
    /// The octets of the MAC.
    pub fn as_slice(&self) -> &[u8]
        ensures octets { result.now ≡ mac_octets self.now }
        ensures at_most_64 { length result.now ≤ 64 }
    {
        match self {
            Mac::Sha256(octets) => octets,
            Mac::Sha384(octets) => octets,
            Mac::Sha512(octets) => octets,
        }
    }
}

/// Whether two octet strings are equal. Of strings of one length it reads every octet.
pub(crate) fn same_octets(a: &[u8], b: &[u8]) -> bool
    ensures { IsTrue result ↔ (a.now ≡ b.now) }
{
    if a.len() != b.len() {
        return false;
    }
    let mut difference = 0;
    for i in 0..a.len() {
        difference |= a[i] ^ b[i];
    }
    difference == 0
}
