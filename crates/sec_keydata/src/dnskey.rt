//! DNSKEY records: the public keys of zones (RFC 4034 2).
ghost use Rattle.std.specs.Prelude.{◌≡◌, Some, IfOk};
ghost use Rattle.dns_grammar.specs.Fields.{fields_octets};
ghost use Rattle.dns_grammar.specs.RowReaders.{ReadsRow};
ghost use Rattle.sec_keydata.specs.KeyRows.{dnskey_row};
ghost use Rattle.sec_codes.specs.KeptKeys.{kept_key};
ghost use Rattle.sec_keydata.specs.DnsKeyFlags as specs;
ghost use Rattle.sec_keydata.specs.DnsKeys.{dnskey_data, dnskey_fields, dnskey_values, dnskey_text, DnsKeyIsByNumber};
ghost use Rattle.sec_keydata.specs.PublicKeyFields.{lent_fields};
ghost use Rattle.sec_keydata.specs.WellFormedKeys.{is_well_formed};

use crate::dnskey_fields::{DnskeyFields, LONGEST_KEY};
use crate::dnskey_flags::{flags_of, is_revoked, is_secure_entry_point, is_zone_key};
use dns_wire::{
    BinDecoder, BinEncodable, DecodeError, EmitError, Form, OctetSink, OutOfMemory, Putting,
    RecordDataDecodable,
};
use sec_codes::{Algorithm, PublicKey, PublicKeyBuf, decode_public_key};
use std::alloc::Global;
use std::fmt;

/// A public key of a zone (RFC 4034 2). A contract sees the flags and the key, by `dnskey_data`.
#[derive(Debug, PartialEq, Eq, Hash, Drop)]
pub struct DNSKEY {
    flags: u16,
    public_key: PublicKeyBuf,
}

impl DNSKEY {
    /// A key with these flags alone.
    pub fn new(
        zone_key: bool,
        secure_entry_point: bool,
        revoke: bool,
        public_key: PublicKeyBuf,
    ) -> DNSKEY
        ensures { dnskey_data result
            ≡ record {
              flags = specs.flags_of zone_key secure_entry_point revoke;
              public_key = kept_key public_key;
            } }
    {
        DNSKEY::with_flags(flags_of(zone_key, secure_entry_point, revoke), public_key)
    }

    /// A key with these flags, all sixteen bits of them.
    pub fn with_flags(flags: u16, public_key: PublicKeyBuf) -> DNSKEY
        ensures { dnskey_data result ≡ record { flags = flags; public_key = kept_key public_key } }
    {
        DNSKEY { flags, public_key }
    }

    /// Whether the key is one of a zone (RFC 4034 2.1.1).
    pub fn zone_key(&self) -> bool
        ensures { result ≡ specs.is_zone_key (dnskey_data self.now).flags }
    {
        is_zone_key(self.flags)
    }

    /// Whether the key is meant as a secure entry point (RFC 4034 2.1.1).
    pub fn secure_entry_point(&self) -> bool
        ensures { result ≡ specs.is_secure_entry_point (dnskey_data self.now).flags }
    {
        is_secure_entry_point(self.flags)
    }

    /// Whether the key is one of a zone and a secure entry point, and not revoked.
    pub fn is_key_signing_key(&self) -> bool
        ensures { result ≡ specs.is_key_signing_key (dnskey_data self.now).flags }
    {
        self.zone_key() && self.secure_entry_point() && !self.revoke()
    }

    /// Whether the key is revoked (RFC 5011 3).
    pub fn revoke(&self) -> bool
        ensures { result ≡ specs.is_revoked (dnskey_data self.now).flags }
    {
        is_revoked(self.flags)
    }

    /// The key.
    pub fn public_key(&self) -> &PublicKeyBuf
        ensures { kept_key result.now ≡ (dnskey_data self.now).public_key }
    {
        &self.public_key
    }

    /// The flags, all sixteen bits of them.
    pub fn flags(&self) -> u16
        ensures { result ≡ (dnskey_data self.now).flags }
    {
        self.flags
    }

    /// Whether the key's algorithm is supported, and the key has the form of the algorithm's keys (RFC 3110 2,
    /// RFC 6605 4, RFC 8080 3) and at most 65,531 octets, so that the data fit a record (RFC 1035 3.2.1).
    pub fn is_well_formed(&self) -> bool
        ensures { result ≡ is_well_formed (dnskey_data self.now).public_key }
    {
        let algorithm = self.public_key.algorithm();
        let octets = self.public_key.public_bytes();
        algorithm.is_supported()
            && decode_public_key(octets, algorithm).is_ok()
            && octets.len() <= LONGEST_KEY
    }

    /// A copy of the key.
    ///
    /// # Errors
    ///
    /// Out of memory.
    pub fn try_clone(&self) -> Result<DNSKEY, OutOfMemory>
        ensures { IfOk result (λ copy. dnskey_data copy ≡ dnskey_data self.now) }
    {
        Ok(DNSKEY {
            flags: self.flags,
            public_key: self.public_key.try_clone()?,
        })
    }

    /// The fields of the data.
    pub(crate) fn fields(&self) -> DnskeyFields<'_>
        ensures { lent_fields result ≡ dnskey_fields (dnskey_data self.now) }
    {
        DnskeyFields {
            flags: self.flags,
            algorithm: self.public_key.algorithm().into(),
            public_key: self.public_key.public_bytes(),
        }
    }
}

impl<'r> RecordDataDecodable<'r> for DNSKEY {
    ghost is_read = { ReadsRow dnskey_row (λ key. dnskey_values (dnskey_data key))
        (λ key. DnsKeyIsByNumber (dnskey_data key)) };

    /// Reads flags, protocol, algorithm and key.
    ///
    /// # Errors
    ///
    /// `InsufficientBytes` where an octet is needed past the data, `DnsKeyProtocolNot3`, or `OutOfMemory`.
    fn read_data(
        alloc: Global,
        decoder: &mut BinDecoder<'r>,
        length: u16,
    ) -> Result<DNSKEY, DecodeError> {
        let mut reader = *decoder;
        let fields = DnskeyFields::read_data(&mut reader, length)?;
        let octets = Vec::from_slice(alloc, fields.public_key)?;
        *decoder = reader;
        let key = PublicKeyBuf::new(octets, Algorithm::from_u8(fields.algorithm));
        Ok(DNSKEY::with_flags(fields.flags, key))
    }
}

impl Putting for DNSKEY {
    ghost written = { λ canonical _ key. fields_octets canonical dnskey_row (dnskey_values (dnskey_data key)) };

    fn put<S: OctetSink>(&self, form: Form, sink: &mut S) -> Result<(), EmitError> {
        self.fields().put(form, sink)
    }
}

impl BinEncodable for DNSKEY {}

/// Flags, `3`, algorithm number, key in base64 (RFC 4034 2.2).
impl fmt::Display for DNSKEY {
    ghost output = { λ key. Some (dnskey_text (dnskey_data key)) };

    fn fmt<W: fmt::Write>(&self, f: &mut fmt::Formatter<W>) -> fmt::Result {
        write!(f, "{}", self.fields())
    }
}
