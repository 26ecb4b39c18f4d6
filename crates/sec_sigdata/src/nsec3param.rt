//! NSEC3PARAM records: how a zone's server hashes its names (RFC 5155 4).
ghost use Rattle.std.specs.Prelude.{◌≡◌, Some, IfOk};
ghost use Rattle.dns_wire.specs.Reading.{octets, place, ReadsUnless};
ghost use Rattle.dns_grammar.specs.Fields.{fields_octets};
ghost use Rattle.dns_grammar.specs.RowReaders.{ReadsRow};
ghost use Rattle.dns_grammar.specs.RecordData.{one_type_data_at};
ghost use Rattle.sec_sigdata.specs.SignatureRows.{nsec3param_row};
ghost use Rattle.sec_sigdata.specs.HashParameters.{opt_out_flags, nsec3param_data, hash_values, hash_text};

use crate::hash_parameters::HashParameters;
use dns_grammar::{FieldOut, data_end, expect_end, put_fields};
use dns_wire::{
    BinDecoder, BinEncodable, DecodeError, EmitError, Form, OctetSink, Octets, OutOfMemory,
    Putting, RecordDataDecodable,
};
use sec_digest::Nsec3HashAlgorithm;
use std::alloc::Global;
use std::fmt;

/// How the names of a zone are hashed. A contract sees the parameters, by `nsec3param_data`.
#[derive(Debug, PartialEq, Eq, Hash, Drop)]
pub struct NSEC3PARAM(HashParameters);

impl NSEC3PARAM {
    /// These parameters.
    pub fn new(
        hash_algorithm: Nsec3HashAlgorithm,
        opt_out: bool,
        iterations: u16,
        salt: Vec<u8>,
    ) -> NSEC3PARAM
        ensures { nsec3param_data result
            ≡ record {
              hash_algorithm = hash_algorithm;
              opt_out = opt_out;
              iterations = iterations;
              salt = salt.items;
            } }
    {
        NSEC3PARAM(HashParameters {
            hash_algorithm,
            opt_out,
            iterations,
            salt: Octets::from_vec(salt),
        })
    }

    /// The hash algorithm (RFC 5155 4.1.1).
    pub fn hash_algorithm(&self) -> Nsec3HashAlgorithm
        ensures { result ≡ (nsec3param_data self.now).hash_algorithm }
    {
        self.0.hash_algorithm
    }

    /// Whether the flag Opt-Out is set (RFC 5155 4.1.2).
    pub fn opt_out(&self) -> bool
        ensures { result ≡ (nsec3param_data self.now).opt_out }
    {
        self.0.opt_out
    }

    /// How often the hash is applied again (RFC 5155 4.1.3).
    pub fn iterations(&self) -> u16
        ensures { result ≡ (nsec3param_data self.now).iterations }
    {
        self.0.iterations
    }

    /// The octets behind each name and each hash (RFC 5155 4.1.5).
    pub fn salt(&self) -> &[u8]
        ensures { result.now ≡ (nsec3param_data self.now).salt }
    {
        self.0.salt.as_slice()
    }

    /// The flags (RFC 5155 4.1.2): 1 for Opt-Out, and else 0.
    pub fn flags(&self) -> u8
        ensures { result ≡ opt_out_flags (nsec3param_data self.now).opt_out }
    {
        self.0.flags()
    }

    /// A copy of the data.
    ///
    /// # Errors
    ///
    /// Out of memory.
    pub fn try_clone(&self) -> Result<NSEC3PARAM, OutOfMemory>
        ensures { IfOk result (λ copy. copy ≡ self.now) }
    {
        Ok(NSEC3PARAM(self.0.try_clone()?))
    }

    /// Reads the fields of the data.
    #[tactic(auto, unfolding(dns_grammar::specs::RecordData::one_type_data_at, dns_grammar::specs::RecordData::fields_filling))]
    fn read_fields(
        alloc: Global,
        decoder: &mut BinDecoder<'_>,
        length: u16,
    ) -> Result<NSEC3PARAM, DecodeError>
        ensures { ReadsUnless (λ param. hash_values (nsec3param_data param)) result decoder.old decoder.new
            (one_type_data_at nsec3param_row (octets decoder.old) (place decoder.old) length) }
    {
        let end = data_end(decoder, length)?;
        let mut reader = *decoder;
        let parameters = HashParameters::read_within(alloc, &mut reader, end)?;
        expect_end(&reader, decoder.index(), end)?;
        *decoder = reader;
        Ok(NSEC3PARAM(parameters))
    }
}

impl<'r> RecordDataDecodable<'r> for NSEC3PARAM {
    ghost is_read = { ReadsRow nsec3param_row (λ param. hash_values (nsec3param_data param)) (λ _. Unit {0}) };

    /// Reads hash algorithm, flags, iterations and salt.
    ///
    /// # Errors
    ///
    /// `InsufficientBytes` where an octet is needed past the data, `UnknownNsec3HashAlgorithm`,
    /// `UnrecognizedNsec3Flags`, `IncorrectRDataLengthRead` where octets are left over, or `OutOfMemory`.
    #[tactic(auto, using(dns_grammar::proofs::RowReaderLaws::reads_plain_row))]
    fn read_data(
        alloc: Global,
        decoder: &mut BinDecoder<'r>,
        length: u16,
    ) -> Result<NSEC3PARAM, DecodeError> {
        NSEC3PARAM::read_fields(alloc, decoder, length)
    }
}

impl Putting for NSEC3PARAM {
    ghost written = { λ canonical _ param.
        fields_octets canonical nsec3param_row (hash_values (nsec3param_data param)) };

    fn put<S: OctetSink>(&self, form: Form, sink: &mut S) -> Result<(), EmitError> {
        let parameters = &self.0;
        put_fields(
            sink,
            form,
            &[
                FieldOut::U8(parameters.hash_algorithm.into()),
                FieldOut::U8(parameters.flags()),
                FieldOut::U16(parameters.iterations),
                FieldOut::Counted8(parameters.salt.as_slice(), EmitError::SaltTooLong),
            ],
        )
    }
}

impl BinEncodable for NSEC3PARAM {}

/// Hash number, flags, iterations, salt in upper-case hexadecimal or `-` for none (RFC 5155 4.3).
impl fmt::Display for NSEC3PARAM {
    ghost output = { λ param. Some (hash_text (nsec3param_data param)) };

    fn fmt<W: fmt::Write>(&self, f: &mut fmt::Formatter<W>) -> fmt::Result {
        write!(f, "{}", self.0)
    }
}
