//! Signers.
ghost use Rattle.std.specs.Prelude.{◌≡◌, IfOk, IfErr};
ghost use Rattle.dns_wire.specs.Reading.{Gives};
ghost use Rattle.sec_digest.specs.Hmac.{hmac};
ghost use Rattle.sec_sigdata.specs.TsigAlgorithms.{algorithm_with, is_mac};
ghost use Rattle.sec_tsig.specs.Signers.{signer_of};

use crate::borrowed_signer::BorrowedSigner;
use dns_names::Name;
use dns_wire::OutOfMemory;
use sec_digest::HmacHash;
use sec_sigdata::{DnsSecError, TsigAlgorithm};
use std::alloc::Global;
use std::fmt;
use std::marker::Model;

/// A key, by which messages are signed and checked (RFC 8945), with its name, its algorithm, and the fudge of what it
/// signs.
#[derive(Drop)]
pub struct TSigner {
    key: Vec<u8>,
    algorithm: TsigAlgorithm,
    // the hash function of the algorithm
    hash: HmacHash,
    name: Name,
    fudge: u16,
}

impl Model for TSigner {
    ghost use Rattle.std.specs.Prelude.{◌≡◌};
    ghost use Rattle.sec_sigdata.specs.TsigAlgorithms.{algorithm_with};
    ghost use Rattle.sec_tsig.specs.Signers.{Signer};

    ghost Value = { Signer };

    ghost view = { λ s. record { key = s.key.items; algorithm = s.hash; name = s.name; fudge = s.fudge } };

    ghost invariant = { λ s. s.algorithm ≡ algorithm_with s.hash };
}

/// Shows the key's name and not the key.
impl fmt::Debug for TSigner {
    fn fmt<W: fmt::Write>(&self, f: &mut fmt::Formatter<W>) -> fmt::Result {
        write!(f, "TSigner({})", self.name)
    }
}

impl TSigner {
    /// A signer with this key, its algorithm and its name, and the fudge of what it signs, in seconds.
    ///
    /// # Errors
    ///
    /// `TsigUnsupportedMacAlgorithm` for every algorithm but `HmacSha256`, `HmacSha384` and `HmacSha512`.
    pub fn new(
        key: Vec<u8>,
        algorithm: TsigAlgorithm,
        signer_name: Name,
        fudge: u16,
    ) -> Result<TSigner, DnsSecError>
        ensures { Gives (λ signer. signer) result (signer_of key.items algorithm signer_name fudge) }
    {
        match algorithm.hmac_hash() {
            Some(hash) => Ok(TSigner {
                key,
                algorithm: TsigAlgorithm::from(hash),
                hash,
                name: signer_name,
                fudge,
            }),
            None => Err(DnsSecError::TsigUnsupportedMacAlgorithm(algorithm)),
        }
    }

    /// The key.
    pub fn key(&self) -> &[u8]
        ensures { result.now ≡ self.now.key }
    {
        self.key.as_slice()
    }

    /// The algorithm.
    pub fn algorithm(&self) -> &TsigAlgorithm
        ensures { result.now ≡ algorithm_with self.now.algorithm }
    {
        &self.algorithm
    }

    /// The name of the key.
    pub fn signer_name(&self) -> &Name
        ensures { result.now ≡ self.now.name }
    {
        &self.name
    }

    /// The fudge of what is signed, in seconds.
    pub fn fudge(&self) -> u16
        ensures { result ≡ self.now.fudge }
    {
        self.fudge
    }

    /// A copy of the signer.
    ///
    /// # Errors
    ///
    /// Out of memory.
    pub fn try_clone(&self) -> Result<TSigner, OutOfMemory>
        ensures { IfOk result (λ signer. signer ≡ self.now) }
    {
        Ok(TSigner {
            key: self.key.clone()?,
            algorithm: self.algorithm,
            hash: self.hash,
            name: self.name,
            fudge: self.fudge,
        })
    }

    /// The memory of the signer.
    pub(crate) fn alloc(&self) -> Global {
        *self.key.allocator()
    }

    /// The signer, its key and its name borrowed.
    pub fn borrowed(&self) -> BorrowedSigner<'_>
        ensures { result ≡ self.now }
    {
        BorrowedSigner::new(self.key.as_slice(), self.hash, &self.name, self.fudge)
    }

    /// The MAC of octets: HMAC under the key (RFC 2104).
    ///
    /// # Errors
    ///
    /// Out of memory.
    pub fn sign(&self, tbs: &[u8]) -> Result<Vec<u8>, DnsSecError>
        ensures mac { IfOk result (λ mac. mac.items ≡ hmac self.now.algorithm self.now.key tbs.now) }
        ensures refused { IfErr result (λ cause. cause ≡ DnsSecError.OutOfMemory) }
    {
        let mut hasher = self.borrowed().hasher();
        hasher.update(tbs);
        Ok(Vec::from_slice(self.alloc(), hasher.finish().as_slice())?)
    }

    /// Whether a tag is the MAC of octets. A part of the MAC is not.
    ///
    /// # Errors
    ///
    /// `HmacInvalid` where the tag is not the MAC.
    pub fn verify(&self, tbv: &[u8], tag: &[u8]) -> Result<(), DnsSecError>
        ensures { result ≡ is_mac tag.now (hmac self.now.algorithm self.now.key tbv.now) }
    {
        let mut hasher = self.borrowed().hasher();
        hasher.update(tbv);
        if hasher.verify(tag) {
            Ok(())
        } else {
            Err(DnsSecError::HmacInvalid)
        }
    }
}
