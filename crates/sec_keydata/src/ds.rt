//! DS records: the digest of a zone's key, in the zone above it (RFC 4034 5).
ghost use Rattle.std.specs.Prelude.{◌≡◌, Some, IfOk};
ghost use Rattle.dns_grammar.specs.Fields.{fields_octets};
ghost use Rattle.dns_grammar.specs.RowReaders.{ReadsRow};
ghost use Rattle.sec_keydata.specs.KeyRows.{ds_row};
ghost use Rattle.sec_keydata.specs.DsData.{ds_data, ds_values, ds_text, fields_values, fields_text, DsIsByNumber};

use crate::digest_fields::DigestFields;
use dns_wire::{
    BinDecoder, BinEncodable, DecodeError, EmitError, Form, OctetSink, Octets, OutOfMemory,
    Putting, RecordDataDecodable,
};
use sec_codes::Algorithm;
use sec_digest::DigestType;
use std::alloc::Global;
use std::fmt;

/// The digest of a key. A contract sees its parts, by `ds_data`.
#[derive(Debug, PartialEq, Eq, Hash, Drop)]
pub struct DS {
    key_tag: u16,
    algorithm: Algorithm,
    digest_type: DigestType,
    digest: Octets,
}

impl DS {
    /// The digest of a key with this tag and algorithm (RFC 4034 5.1).
    pub fn new(key_tag: u16, algorithm: Algorithm, digest_type: DigestType, digest: Vec<u8>) -> DS
        ensures { ds_data result
            ≡ record {
              key_tag = key_tag;
              algorithm = algorithm;
              digest_type = digest_type;
              digest = digest.items;
            } }
    {
        DS {
            key_tag,
            algorithm,
            digest_type,
            digest: Octets::from_vec(digest),
        }
    }

    /// The tag of the key (RFC 4034 5.1.1).
    pub fn key_tag(&self) -> u16
        ensures { result ≡ (ds_data self.now).key_tag }
    {
        self.key_tag
    }

    /// The algorithm of the key (RFC 4034 5.1.2).
    pub fn algorithm(&self) -> Algorithm
        ensures { result ≡ (ds_data self.now).algorithm }
    {
        self.algorithm
    }

    /// The type of the digest (RFC 4034 5.1.3).
    pub fn digest_type(&self) -> DigestType
        ensures { result ≡ (ds_data self.now).digest_type }
    {
        self.digest_type
    }

    /// The octets of the digest (RFC 4034 5.1.4).
    pub fn digest(&self) -> &[u8]
        ensures { result.now ≡ (ds_data self.now).digest }
    {
        self.digest.as_slice()
    }

    /// A copy of the data.
    ///
    /// # Errors
    ///
    /// Out of memory.
    pub fn try_clone(&self) -> Result<DS, OutOfMemory>
        ensures { IfOk result (λ copy. copy ≡ self.now) }
    {
        Ok(DS {
            key_tag: self.key_tag,
            algorithm: self.algorithm,
            digest_type: self.digest_type,
            digest: self.digest.try_clone()?,
        })
    }

    /// The fields of the data.
    fn fields(&self) -> DigestFields<'_>
        ensures values { fields_values result ≡ ds_values (ds_data self.now) }
        ensures text { fields_text result ≡ ds_text (ds_data self.now) }
    {
        DigestFields {
            key_tag: self.key_tag,
            algorithm: self.algorithm.into(),
            digest_type: self.digest_type.into(),
            digest: self.digest.as_slice(),
        }
    }
}

impl<'r> RecordDataDecodable<'r> for DS {
    ghost is_read = { ReadsRow ds_row (λ ds. ds_values (ds_data ds)) (λ ds. DsIsByNumber (ds_data ds)) };

    /// Reads key tag, algorithm, digest type and digest.
    ///
    /// # Errors
    ///
    /// `InsufficientBytes` where an octet is needed past the data, or `OutOfMemory`.
    fn read_data(
        alloc: Global,
        decoder: &mut BinDecoder<'r>,
        length: u16,
    ) -> Result<DS, DecodeError> {
        let mut reader = *decoder;
        let fields = DigestFields::read_data(&mut reader, length)?;
        let digest = Octets::from_slice(alloc, fields.digest)?;
        *decoder = reader;
        Ok(DS {
            key_tag: fields.key_tag,
            algorithm: Algorithm::from_u8(fields.algorithm),
            digest_type: DigestType::from(fields.digest_type),
            digest,
        })
    }
}

impl Putting for DS {
    ghost written = { λ canonical _ ds. fields_octets canonical ds_row (ds_values (ds_data ds)) };

    fn put<S: OctetSink>(&self, form: Form, sink: &mut S) -> Result<(), EmitError> {
        self.fields().put(form, sink)
    }
}

impl BinEncodable for DS {}

/// Key tag, algorithm number, digest type number, digest in upper-case hexadecimal (RFC 4034 5.3).
impl fmt::Display for DS {
    ghost output = { λ ds. Some (ds_text (ds_data ds)) };

    fn fmt<W: fmt::Write>(&self, f: &mut fmt::Formatter<W>) -> fmt::Result {
        write!(f, "{}", self.fields())
    }
}
