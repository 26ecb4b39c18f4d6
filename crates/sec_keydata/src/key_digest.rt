//! The digests of keys, and the records that are made of keys (RFC 4034 5).
ghost use Rattle.std.specs.Prelude.{◌≡◌, IfOk};
ghost use Rattle.dns_wire.specs.Reading.{Gives, GivesUnless};
ghost use Rattle.sec_digest.specs.Digests.{digest_octets};
ghost use Rattle.sec_keydata.specs.DsData.{ds_data};
ghost use Rattle.sec_keydata.specs.DnsKeys.{dnskey_data};
ghost use Rattle.sec_keydata.specs.KeyDigests.{ds_digest, secure_entry_key, ds_of_key, covered};
ghost use Rattle.sec_keydata.specs.KeyDigests.{identifies};

use crate::dnskey::DNSKEY;
use crate::dnskey_fields::DnskeyFields;
use crate::ds::DS;
use crate::key_data_error::KeyDataError;
use dns_names::Name;
use dns_wire::OutOfMemory;
use sec_codes::{PublicKey, PublicKeyBuf};
use sec_digest::{Digest, DigestType};
use std::alloc::Global;

impl DNSKEY {
    /// A key of a zone that is a secure entry point (flags 257), with a copy of this public key.
    ///
    /// # Errors
    ///
    /// Out of memory.
    pub fn from_key<P: PublicKey>(alloc: Global, public_key: &P) -> Result<DNSKEY, OutOfMemory>
        ensures { IfOk result (λ key. dnskey_data key ≡ secure_entry_key (P.key public_key.now)) }
    {
        let octets = Vec::from_slice(alloc, public_key.public_bytes())?;
        let key = PublicKeyBuf::new(octets, public_key.algorithm());
        Ok(DNSKEY::new(true, true, false, key))
    }

    /// The digest of the key at its owner: of the owner's wire form in lower case, and the data (RFC 4034 5.1.4). Takes
    /// no memory.
    ///
    /// # Errors
    ///
    /// `DataTooLong` exactly where the key has more than 65,531 octets, and then `UnknownDigestAlgorithm` exactly for a
    /// digest type that is unknown.
    pub fn to_digest(&self, name: &Name, digest_type: DigestType) -> Result<Digest, KeyDataError>
        ensures { Gives digest_octets result (ds_digest name.now (dnskey_data self.now) digest_type) }
    {
        self.fields().digest(name, digest_type)
    }
}

impl DS {
    /// The DS of a public key at its owner, with the tag and the digest of the key's DNSKEY (`DNSKEY::from_key`).
    ///
    /// # Errors
    ///
    /// `DataTooLong` exactly where the key has more than 65,531 octets, and then `UnknownDigestAlgorithm` exactly for a
    /// digest type that is unknown. `OutOfMemory` may come in place of any answer.
    pub fn from_key<P: PublicKey>(
        alloc: Global,
        public_key: &P,
        name: &Name,
        digest_type: DigestType,
    ) -> Result<DS, KeyDataError>
        ensures { GivesUnless KeyDataError.OutOfMemory ds_data result
            (ds_of_key name.now (P.key public_key.now) digest_type) }
    {
        let fields = DnskeyFields::secure_entry(public_key);
        let key_tag = fields.tag()?;
        let digest = fields.digest(name, digest_type)?;
        match Vec::from_slice(alloc, digest.as_slice()) {
            Ok(octets) => Ok(DS::new(key_tag, public_key.algorithm(), digest_type, octets)),
            Err(_) => Err(KeyDataError::OutOfMemory),
        }
    }

    /// Whether the key at its owner is one of a zone whose digest, of this type, is this one (RFC 4034 5.2). Takes no
    /// memory.
    ///
    /// # Errors
    ///
    /// Those of `DNSKEY::to_digest` with the type of the digest, whatever the flags of the key are.
    pub fn covers(&self, name: &Name, key: &DNSKEY) -> Result<bool, KeyDataError>
        ensures { result ≡ covered name.now (ds_data self.now) (dnskey_data key.now) }
    {
        let digest = key.to_digest(name, self.digest_type())?;
        Ok(key.zone_key() && digest.as_slice() == self.digest())
    }

    /// Whether this is the digest of the key at its owner, with the key's tag and algorithm (RFC 4034 5.2). A digest of an
    /// unknown type is no key's (RFC 4035 5.2), and a key of more than 65,531 octets has none. Takes no memory.
    pub fn identifies(&self, name: &Name, key: &DNSKEY) -> bool
        ensures { result ≡ identifies name.now (ds_data self.now) (dnskey_data key.now) }
    {
        key.has_tag(self.key_tag())
            && u8::from(self.algorithm()) == u8::from(key.public_key().algorithm())
            && matches!(self.covers(name, key), Ok(true))
    }
}
