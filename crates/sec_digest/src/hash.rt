//! Hash functions on two pieces, and on their own digests again and again.

ghost use Rattle.std.specs.Prelude.{◌≡◌, ℕ, List, ◌++◌};
ghost use Rattle.sha1.specs.Sha1.{sha1};
ghost use Rattle.sha2.specs.Sha256.{sha256};
ghost use Rattle.sha2.specs.Sha512.{sha384};
ghost use Rattle.sec_digest.specs.Digests.{iterated_hash};

use sha1::Sha1;
use sha2::{Digest, Sha256, Sha384};
use std::convert::AsSlice;

/// The digests of a hash function, as an array of octets.
pub(crate) trait HashOutput: AsSlice<u8> + Copy {
    // The hash function.
    ghost hash: { List ℕ → List ℕ };

    /// The digest of two pieces, one behind the other.
    fn of_two(first: &[u8], second: &[u8]) -> Self
        ensures { Self.items result ≡ hash (first.now ++ second.now) };
}

impl HashOutput for [u8; 20] {
    ghost hash = { sha1 };

    fn of_two(first: &[u8], second: &[u8]) -> [u8; 20] {
        let mut hasher = Sha1::new();
        hasher.update(first);
        hasher.update(second);
        hasher.finalize()
    }
}

impl HashOutput for [u8; 32] {
    ghost hash = { sha256 };

    fn of_two(first: &[u8], second: &[u8]) -> [u8; 32] {
        Sha256::new_with_prefix(first)
            .chain_update(second)
            .finalize()
    }
}

impl HashOutput for [u8; 48] {
    ghost hash = { sha384 };

    fn of_two(first: &[u8], second: &[u8]) -> [u8; 48] {
        Sha384::new_with_prefix(first)
            .chain_update(second)
            .finalize()
    }
}

/// The iterated hash of RFC 5155, section 5, with so many rounds behind the first.
pub(crate) fn iterated<D: HashOutput>(salt: &[u8], octets: &[u8], iterations: u16) -> D
    ensures { D.items result ≡ iterated_hash D.hash salt.now octets.now iterations }
{
    let mut digest = D::of_two(octets, salt);
    for _ in 0..iterations {
        digest = D::of_two(digest.as_slice(), salt);
    }
    digest
}
