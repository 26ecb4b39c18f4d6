//! CDS records: the DS records that a zone wants (RFC 7344 3.1, RFC 8078 4).
ghost use Rattle.std.specs.Prelude.{◌≡◌, ◌↔◌, Some, None, IfOk, IsTrue};
ghost use Rattle.dns_grammar.specs.Fields.{fields_octets};
ghost use Rattle.dns_grammar.specs.RowReaders.{ReadsRow};
ghost use Rattle.sec_keydata.specs.KeyRows.{ds_row};
ghost use Rattle.sec_keydata.specs.DsData.{cds_data, cds_values, cds_text, fields_values, fields_text, CdsIsByNumber};

use crate::digest_fields::DigestFields;
use crate::optional_algorithm::{optional_algorithm, optional_algorithm_number};
use dns_wire::{
    BinDecoder, BinEncodable, DecodeError, EmitError, Form, OctetSink, Octets, OutOfMemory,
    Putting, RecordDataDecodable,
};
use sec_codes::Algorithm;
use sec_digest::DigestType;
use std::alloc::Global;
use std::fmt;

/// The digest of a key, or the wish that the DS records be deleted. A contract sees its parts, by `cds_data`.
#[derive(Debug, PartialEq, Eq, Hash, Drop)]
pub struct CDS {
    key_tag: u16,
    algorithm: Option<Algorithm>,
    digest_type: DigestType,
    digest: Octets,
}

impl CDS {
    /// The digest of a key with this tag and algorithm, and with no algorithm the wish for deletion (RFC 7344 3.1, RFC
    /// 8078 4).
    pub fn new(
        key_tag: u16,
        algorithm: Option<Algorithm>,
        digest_type: DigestType,
        digest: Vec<u8>,
    ) -> CDS
        ensures { cds_data result
            ≡ record {
              key_tag = key_tag;
              algorithm = algorithm;
              digest_type = digest_type;
              digest = digest.items;
            } }
    {
        CDS {
            key_tag,
            algorithm,
            digest_type,
            digest: Octets::from_vec(digest),
        }
    }

    /// The tag of the key (RFC 4034 5.1.1).
    pub fn key_tag(&self) -> u16
        ensures { result ≡ (cds_data self.now).key_tag }
    {
        self.key_tag
    }

    /// The algorithm of the key (RFC 4034 5.1.2), and `None` where the DS records are to be deleted (RFC 8078 4).
    pub fn algorithm(&self) -> Option<Algorithm>
        ensures { result ≡ (cds_data self.now).algorithm }
    {
        self.algorithm
    }

    /// Whether the DS records are to be deleted (RFC 8078 4).
    pub fn is_delete(&self) -> bool
        ensures { IsTrue result ↔ ((cds_data self.now).algorithm ≡ None) }
    {
        self.algorithm.is_none()
    }

    /// The type of the digest (RFC 4034 5.1.3).
    pub fn digest_type(&self) -> DigestType
        ensures { result ≡ (cds_data self.now).digest_type }
    {
        self.digest_type
    }

    /// The octets of the digest (RFC 4034 5.1.4).
    pub fn digest(&self) -> &[u8]
        ensures { result.now ≡ (cds_data self.now).digest }
    {
        self.digest.as_slice()
    }

    /// A copy of the data.
    ///
    /// # Errors
    ///
    /// Out of memory.
    pub fn try_clone(&self) -> Result<CDS, OutOfMemory>
        ensures { IfOk result (λ copy. copy ≡ self.now) }
    {
        Ok(CDS {
            key_tag: self.key_tag,
            algorithm: self.algorithm,
            digest_type: self.digest_type,
            digest: self.digest.try_clone()?,
        })
    }

    /// The fields of the data.
    fn fields(&self) -> DigestFields<'_>
        ensures values { fields_values result ≡ cds_values (cds_data self.now) }
        ensures text { fields_text result ≡ cds_text (cds_data self.now) }
    {
        DigestFields {
            key_tag: self.key_tag,
            algorithm: optional_algorithm_number(self.algorithm),
            digest_type: self.digest_type.into(),
            digest: self.digest.as_slice(),
        }
    }
}

impl<'r> RecordDataDecodable<'r> for CDS {
    ghost is_read = { ReadsRow ds_row (λ cds. cds_values (cds_data cds)) (λ cds. CdsIsByNumber (cds_data cds)) };

    /// Reads key tag, algorithm, digest type and digest.
    ///
    /// # Errors
    ///
    /// `InsufficientBytes` where an octet is needed past the data, or `OutOfMemory`.
    fn read_data(
        alloc: Global,
        decoder: &mut BinDecoder<'r>,
        length: u16,
    ) -> Result<CDS, DecodeError> {
        let mut reader = *decoder;
        let fields = DigestFields::read_data(&mut reader, length)?;
        let digest = Octets::from_slice(alloc, fields.digest)?;
        *decoder = reader;
        Ok(CDS {
            key_tag: fields.key_tag,
            algorithm: optional_algorithm(fields.algorithm),
            digest_type: DigestType::from(fields.digest_type),
            digest,
        })
    }
}

impl Putting for CDS {
    ghost written = { λ canonical _ cds. fields_octets canonical ds_row (cds_values (cds_data cds)) };

    fn put<S: OctetSink>(&self, form: Form, sink: &mut S) -> Result<(), EmitError> {
        self.fields().put(form, sink)
    }
}

impl BinEncodable for CDS {}

/// Key tag, algorithm number and 0 for none, digest type number, digest in upper-case hexadecimal (RFC 4034 5.3, RFC
/// 8078 4).
impl fmt::Display for CDS {
    ghost output = { λ cds. Some (cds_text (cds_data cds)) };

    fn fmt<W: fmt::Write>(&self, f: &mut fmt::Formatter<W>) -> fmt::Result {
        write!(f, "{}", self.fields())
    }
}
