//! Signers of record sets.
ghost use Rattle.std.specs.Prelude.{◌≡◌, IsTrue, IfOk, IsOk};
ghost use Rattle.sec_keydata.specs.DnsKeyFlags.{is_zone_key};
ghost use Rattle.sec_keydata.specs.DnsKeys.{dnskey_data};
ghost use Rattle.sec_keydata.specs.KeyTags.{dnskey_tag};
ghost use Rattle.sec_sign.specs.Signers.{signer_data, signing_key, lent_key};
ghost use Rattle.sec_sign.specs.Signing.{IsSignature};

use crate::sign_error::SignError;
use crate::signing_key::SigningKey;
use crate::tbs::TBS;
use dns_names::Name;
use dns_wire::OutOfMemory;
use sec_keydata::{DNSKEY, KeyDataError};
use sec_sigdata::{DnsSecError, DnsSecResult};

/// A signer of record sets: a key that signs, the DNSKEY that its signatures are checked by, the name of the zone, and
/// how long the signatures are valid. A contract sees it by `signer_data` and `signing_key`.
#[derive(Drop)]
pub struct DnssecSigner {
    dnskey: DNSKEY,
    key: Box<dyn SigningKey>,
    signer_name: Name,
    sig_duration: u64,
}

impl DnssecSigner {
    /// A signer whose signatures are valid for `sig_duration` seconds.
    pub fn new(
        dnskey: DNSKEY,
        key: Box<dyn SigningKey>,
        signer_name: Name,
        sig_duration: u64,
    ) -> DnssecSigner
        ensures signer { signer_data result
            ≡ record { dnskey = dnskey_data dnskey; signer_name = signer_name; sig_duration = sig_duration } }
        ensures key { signing_key result ≡ key }
    {
        DnssecSigner {
            dnskey,
            key,
            signer_name,
            sig_duration,
        }
    }

    /// The key that signs.
    pub fn key(&self) -> &dyn SigningKey
        ensures { result.now ≡ lent_key self.now }
    {
        &*self.key
    }

    /// For how many seconds signatures are valid.
    pub fn sig_duration(&self) -> u64
        ensures { result ≡ (signer_data self.now).sig_duration }
    {
        self.sig_duration
    }

    /// Whether the DNSKEY is one of a zone.
    pub fn is_zone_signing_key(&self) -> bool
        ensures { result ≡ is_zone_key (signer_data self.now).dnskey.flags }
    {
        self.dnskey.zone_key()
    }

    /// A signature of the key on the octets.
    ///
    /// # Errors
    ///
    /// `Signing` only where the key refuses the octets. Or `OutOfMemory`.
    pub fn sign(&self, tbs: &TBS) -> Result<Vec<u8>, SignError>
        ensures { IsSignature (λ signature. signs (signing_key self.now) tbs.now signature.items)
            (refuses (signing_key self.now) tbs.now) result }
    {
        match self.key.sign(tbs) {
            Ok(signature) => Ok(signature),
            Err(DnsSecError::OutOfMemory) => Err(SignError::OutOfMemory),
            Err(cause) => Err(SignError::Signing(cause)),
        }
    }

    /// The name of the zone.
    pub fn signer_name(&self) -> &Name
        ensures { result.now ≡ (signer_data self.now).signer_name }
    {
        &self.signer_name
    }

    /// The tag of the DNSKEY. Takes no memory.
    ///
    /// # Errors
    ///
    /// `DataTooLong` exactly where the key has more than 65,531 octets.
    pub fn calculate_key_tag(&self) -> Result<u16, KeyDataError>
        ensures { result ≡ dnskey_tag (signer_data self.now).dnskey }
    {
        self.dnskey.calculate_key_tag()
    }

    /// The DNSKEY.
    pub fn dnskey(&self) -> &DNSKEY
        ensures { dnskey_data result.now ≡ (signer_data self.now).dnskey }
    {
        &self.dnskey
    }

    /// A copy of the DNSKEY.
    ///
    /// # Errors
    ///
    /// Out of memory.
    pub fn to_dnskey(&self) -> Result<DNSKEY, OutOfMemory>
        ensures { IfOk result (λ dnskey. dnskey_data dnskey ≡ (signer_data self.now).dnskey) }
    {
        self.dnskey.try_clone()
    }

    /// Tests nothing, and always answers Ok.
    pub fn test_key(&self) -> DnsSecResult<()>
        ensures { IsOk result }
    {
        Ok(())
    }
}
