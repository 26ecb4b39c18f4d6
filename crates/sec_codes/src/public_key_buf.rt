//! Public keys that are held in memory.
ghost use Rattle.std.specs.Prelude.{◌≡◌, IfOk};
ghost use Rattle.sec_codes.specs.KeptKeys.{kept_key};

use crate::algorithm::Algorithm;
use crate::decoded_key::decode_public_key;
use crate::key_error::KeyError;
use crate::public_key::PublicKey;
use crate::scheme::SignatureScheme;
use dns_wire::OutOfMemory;

/// The octets of a public key, which may lack the form of its algorithm's keys. A contract sees them and the algorithm,
/// by `kept_key`.
#[derive(Debug, Drop, PartialEq, Eq, Hash)]
pub struct PublicKeyBuf {
    key_buf: Vec<u8>,
    algorithm: Algorithm,
}

impl PublicKeyBuf {
    /// A key of these octets.
    pub fn new(key_buf: Vec<u8>, algorithm: Algorithm) -> PublicKeyBuf
        ensures { kept_key result ≡ record { octets = key_buf.items; algorithm = algorithm } }
    {
        PublicKeyBuf { key_buf, algorithm }
    }

    /// The octets.
    pub fn into_inner(self) -> Vec<u8>
        ensures { result.items ≡ (kept_key self).octets }
    {
        self.key_buf
    }

    /// A copy of the key.
    ///
    /// # Errors
    ///
    /// Out of memory.
    pub fn try_clone(&self) -> Result<PublicKeyBuf, OutOfMemory>
        ensures { IfOk result (λ copy. kept_key copy ≡ kept_key self.now) }
    {
        match self.key_buf.clone() {
            Ok(key_buf) => Ok(PublicKeyBuf {
                key_buf,
                algorithm: self.algorithm,
            }),
            Err(_) => Err(OutOfMemory),
        }
    }
}

impl PublicKey for PublicKeyBuf {
    ghost use Rattle.sec_codes.specs.KeptKeys.{kept_key};

    ghost key = { kept_key };

    fn public_bytes(&self) -> &[u8] {
        self.key_buf.as_slice()
    }

    /// Checks a signature on a message, after the key is decoded.
    fn verify<S: SignatureScheme>(
        &self,
        scheme: &S,
        message: &[u8],
        signature: &[u8],
    ) -> Result<(), KeyError> {
        decode_public_key(&self.key_buf, self.algorithm)?.verify(scheme, message, signature)
    }

    fn algorithm(&self) -> Algorithm {
        self.algorithm
    }
}
