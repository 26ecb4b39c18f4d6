//! CDNSKEY records: the public keys that a zone wants (RFC 7344 3.2, RFC 8078 4).
ghost use Rattle.std.specs.Prelude.{◌≡◌, Some, IfOk};
ghost use Rattle.std.specs.Option.{is_none, option_map};
ghost use Rattle.dns_grammar.specs.Fields.{fields_octets};
ghost use Rattle.dns_grammar.specs.RowReaders.{ReadsRow};
ghost use Rattle.sec_keydata.specs.KeyRows.{dnskey_row};
ghost use Rattle.sec_codes.specs.KeptKeys.{kept_key};
ghost use Rattle.sec_keydata.specs.DnsKeyFlags as specs;
ghost use Rattle.sec_keydata.specs.DnsKeys.{cdnskey_data, cdnskey_fields, cdnskey_values, cdnskey_text};
ghost use Rattle.sec_keydata.specs.DnsKeys.{CdnsKeyIsByNumber, key_unless_delete};
ghost use Rattle.sec_keydata.specs.PublicKeyFields.{lent_fields};

use crate::dnskey_fields::DnskeyFields;
use crate::dnskey_flags::{flags_of, is_revoked, is_secure_entry_point, is_zone_key};
use crate::optional_algorithm::{optional_algorithm, optional_algorithm_number};
use dns_wire::{
    BinDecoder, BinEncodable, DecodeError, EmitError, Form, OctetSink, OutOfMemory, Putting,
    RecordDataDecodable,
};
use sec_codes::{Algorithm, PublicKeyBuf};
use std::alloc::Global;
use std::fmt;

/// A public key that a child zone asks its parent to take, or the wish that all be deleted (RFC 7344 3.2, RFC 8078 4).
/// A contract sees the flags, the algorithm and the octets of the key, by `cdnskey_data`.
#[derive(Debug, PartialEq, Eq, Hash, Drop)]
pub struct CDNSKEY {
    flags: u16,
    algorithm: Option<Algorithm>,
    public_key: Vec<u8>,
}

impl CDNSKEY {
    /// A key with these flags alone. With no algorithm it asks for deletion.
    pub fn new(
        zone_key: bool,
        secure_entry_point: bool,
        revoke: bool,
        algorithm: Option<Algorithm>,
        public_key: Vec<u8>,
    ) -> CDNSKEY
        ensures { cdnskey_data result
            ≡ record {
              flags = specs.flags_of zone_key secure_entry_point revoke;
              algorithm = algorithm;
              octets = public_key.items;
            } }
    {
        let flags = flags_of(zone_key, secure_entry_point, revoke);
        CDNSKEY::with_flags(flags, algorithm, public_key)
    }

    /// A key with these flags, all sixteen bits of them. With no algorithm it asks for deletion.
    pub fn with_flags(flags: u16, algorithm: Option<Algorithm>, public_key: Vec<u8>) -> CDNSKEY
        ensures { cdnskey_data result
            ≡ record { flags = flags; algorithm = algorithm; octets = public_key.items } }
    {
        CDNSKEY {
            flags,
            algorithm,
            public_key,
        }
    }

    /// Whether the key is one of a zone (RFC 4034 2.1.1).
    pub fn zone_key(&self) -> bool
        ensures { result ≡ specs.is_zone_key (cdnskey_data self.now).flags }
    {
        is_zone_key(self.flags)
    }

    /// Whether the key is meant as a secure entry point (RFC 4034 2.1.1).
    pub fn secure_entry_point(&self) -> bool
        ensures { result ≡ specs.is_secure_entry_point (cdnskey_data self.now).flags }
    {
        is_secure_entry_point(self.flags)
    }

    /// Whether the key is revoked (RFC 5011 3).
    pub fn revoke(&self) -> bool
        ensures { result ≡ specs.is_revoked (cdnskey_data self.now).flags }
    {
        is_revoked(self.flags)
    }

    /// The algorithm. `None` stands for the number 0, which asks for deletion (RFC 8078 4).
    pub fn algorithm(&self) -> Option<Algorithm>
        ensures { result ≡ (cdnskey_data self.now).algorithm }
    {
        self.algorithm
    }

    /// Whether the record asks for deletion: whether it has no algorithm (RFC 8078 4).
    pub fn is_delete(&self) -> bool
        ensures { result ≡ is_none (cdnskey_data self.now).algorithm }
    {
        self.algorithm.is_none()
    }

    /// A copy of the key. `None` exactly where the record asks for deletion.
    ///
    /// # Errors
    ///
    /// Out of memory.
    pub fn public_key(&self) -> Result<Option<PublicKeyBuf>, OutOfMemory>
        ensures { IfOk result (λ key. option_map kept_key key ≡ key_unless_delete (cdnskey_data self.now)) }
    {
        let Some(algorithm) = self.algorithm else {
            return Ok(None);
        };
        match self.public_key.clone() {
            Ok(octets) => Ok(Some(PublicKeyBuf::new(octets, algorithm))),
            Err(_) => Err(OutOfMemory),
        }
    }

    /// The flags, all sixteen bits of them.
    pub fn flags(&self) -> u16
        ensures { result ≡ (cdnskey_data self.now).flags }
    {
        self.flags
    }

    /// A copy of the record.
    ///
    /// # Errors
    ///
    /// Out of memory.
    pub fn try_clone(&self) -> Result<CDNSKEY, OutOfMemory>
        ensures { IfOk result (λ copy. cdnskey_data copy ≡ cdnskey_data self.now) }
    {
        match self.public_key.clone() {
            Ok(public_key) => Ok(CDNSKEY {
                flags: self.flags,
                algorithm: self.algorithm,
                public_key,
            }),
            Err(_) => Err(OutOfMemory),
        }
    }

    /// The fields of the data.
    fn fields(&self) -> DnskeyFields<'_>
        ensures { lent_fields result ≡ cdnskey_fields (cdnskey_data self.now) }
    {
        DnskeyFields {
            flags: self.flags,
            algorithm: optional_algorithm_number(self.algorithm),
            public_key: self.public_key.as_slice(),
        }
    }
}

impl<'r> RecordDataDecodable<'r> for CDNSKEY {
    ghost is_read = { ReadsRow dnskey_row (λ key. cdnskey_values (cdnskey_data key))
        (λ key. CdnsKeyIsByNumber (cdnskey_data key)) };

    /// Reads flags, protocol, algorithm and key.
    ///
    /// # Errors
    ///
    /// `InsufficientBytes` where an octet is needed past the data, `DnsKeyProtocolNot3`, or `OutOfMemory`.
    fn read_data(
        alloc: Global,
        decoder: &mut BinDecoder<'r>,
        length: u16,
    ) -> Result<CDNSKEY, DecodeError> {
        let mut reader = *decoder;
        let fields = DnskeyFields::read_data(&mut reader, length)?;
        let public_key = Vec::from_slice(alloc, fields.public_key)?;
        *decoder = reader;
        Ok(CDNSKEY {
            flags: fields.flags,
            algorithm: optional_algorithm(fields.algorithm),
            public_key,
        })
    }
}

impl Putting for CDNSKEY {
    ghost written = { λ canonical _ key. fields_octets canonical dnskey_row (cdnskey_values (cdnskey_data key)) };

    fn put<S: OctetSink>(&self, form: Form, sink: &mut S) -> Result<(), EmitError> {
        self.fields().put(form, sink)
    }
}

impl BinEncodable for CDNSKEY {}

/// Flags, `3`, algorithm number or 0, key in base64 (RFC 4034 2.2, RFC 8078 4).
impl fmt::Display for CDNSKEY {
    ghost output = { λ key. Some (cdnskey_text (cdnskey_data key)) };

    fn fmt<W: fmt::Write>(&self, f: &mut fmt::Formatter<W>) -> fmt::Result {
        write!(f, "{}", self.fields())
    }
}
