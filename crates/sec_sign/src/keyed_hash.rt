//! A scheme of signatures that are keyed hashes. It is not secure, since who checks can sign: it serves tests and
//! trials.
ghost use Rattle.std.specs.Prelude.{◌≡◌, IfOk};
ghost use Rattle.sec_digest.specs.Hmac.{Feeds};
ghost use Rattle.sec_sign.specs.KeyedHashes.{key_of_hash};

use crate::signing_key::SigningKey;
use crate::tbs::TBS;
use dns_wire::{Octets, OutOfMemory};
use sec_codes::{Algorithm, PublicKeyBuf, SignatureScheme};
use sec_digest::{Hmac, HmacHash};
use sec_sigdata::DnsSecResult;
use std::alloc::Global;

/// A hasher of the message under the key, by HMAC with SHA-256.
fn hasher_of(key: &[u8], message: &[u8]) -> Hmac
    ensures { Feeds result HmacHash.Sha256 key.now message.now }
{
    let mut hasher = Hmac::new(HmacHash::Sha256, key);
    hasher.update(message);
    hasher
}

/// The scheme that accepts a signature exactly where it is the HMAC with SHA-256 (RFC 2104) of the message under the
/// octets of the key. It is not secure: the key that checks is the key that signs.
#[derive(Clone, Copy, Debug)]
pub struct KeyedHash;

impl SignatureScheme for KeyedHash {
    ghost use Rattle.sec_sign.specs.KeyedHashes.{is_hash};

    ghost accepts = { λ _ _ key message signature. is_hash key message signature };

    /// Whether the signature is the keyed hash. Takes no memory.
    fn verify(
        &self,
        _algorithm: Algorithm,
        key: &[u8],
        message: &[u8],
        signature: &[u8],
    ) -> Result<bool, OutOfMemory> {
        Ok(hasher_of(key, message).verify(signature))
    }
}

/// A key that signs as `KeyedHash` checks, and refuses nothing.
#[derive(Drop)]
pub struct KeyedHashKey {
    alloc: Global,
    algorithm: Algorithm,
    key: Octets,
}

impl KeyedHashKey {
    /// A key of an algorithm with these octets.
    ///
    /// # Errors
    ///
    /// Out of memory.
    pub fn new(alloc: Global, algorithm: Algorithm, key: &[u8]) -> Result<KeyedHashKey, OutOfMemory>
        ensures { IfOk result (λ made. key_of_hash made ≡ record { octets = key.now; algorithm = algorithm }) }
    {
        Ok(KeyedHashKey {
            alloc,
            algorithm,
            key: Octets::from_slice(alloc, key)?,
        })
    }
}

impl SigningKey for KeyedHashKey {
    ghost use Rattle.std.specs.Prelude.{IsTrue};
    ghost use Rattle.sec_sign.specs.KeyedHashes.{key_of_hash, is_hash};

    ghost signs = { λ key message signature. IsTrue (is_hash (key_of_hash key).octets message signature) };

    ghost refuses = { λ key message. ⊥ };

    ghost algorithm_of_key = { λ key. (key_of_hash key).algorithm };

    ghost public_key = { key_of_hash };

    fn sign(&self, tbs: &TBS) -> DnsSecResult<Vec<u8>> {
        let mac = hasher_of(self.key.as_slice(), tbs.as_slice()).finish();
        Ok(Vec::from_slice(self.alloc, mac.as_slice())?)
    }

    fn to_public_key(&self) -> DnsSecResult<PublicKeyBuf> {
        let octets = Vec::from_slice(self.alloc, self.key.as_slice())?;
        Ok(PublicKeyBuf::new(octets, self.algorithm))
    }

    fn algorithm(&self) -> Algorithm {
        self.algorithm
    }
}
