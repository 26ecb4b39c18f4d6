//! NSEC3 records: which hash is next in a zone, and which types there are at the name that was hashed (RFC 5155 3).
ghost use Rattle.std.specs.Prelude.{◌≡◌, Some, IfOk};
ghost use Rattle.std.specs.Option.{option_map};
ghost use Rattle.dns_wire.specs.Reading.{octets, place, ReadsUnless};
ghost use Rattle.dns_types.specs.TypeSets.{form_of, is_one_of, types};
ghost use Rattle.dns_grammar.specs.Fields.{fields_octets};
ghost use Rattle.dns_grammar.specs.RowReaders.{ReadsRow};
ghost use Rattle.dns_grammar.specs.RecordData.{one_type_data_at};
ghost use Rattle.sec_sigdata.specs.SignatureRows.{nsec3_row};
ghost use Rattle.sec_digest.specs.Base32.{hash_label};
ghost use Rattle.sec_sigdata.specs.HashParameters.{opt_out_flags};
ghost use Rattle.sec_sigdata.specs.TypeLists as specs;
ghost use Rattle.sec_sigdata.specs.Nsec3.{nsec3_data, nsec3_values, nsec3_text};

use crate::hash_parameters::HashParameters;
use crate::hashed_name::HashedName;
use crate::type_list::{TypesText, is_ancestor_delegation};
use dns_grammar::{FieldOut, data_end, put_fields};
use dns_names::Label;
use dns_types::{RecordType, RecordTypeIter, RecordTypeSet};
use dns_wire::{
    BinDecoder, BinEncodable, DecodeError, EmitError, Form, OctetSink, Octets, OutOfMemory,
    Putting, RecordDataDecodable,
};
use sec_digest::{Base32Text, Nsec3HashAlgorithm};
use std::alloc::Global;
use std::fmt;

/// The next hash of a zone, and the types at the name that was hashed. A contract sees the parts, by `nsec3_data`.
#[derive(Debug, PartialEq, Eq, Hash, Drop)]
pub struct NSEC3 {
    parameters: HashParameters,
    next_hashed_owner_name: HashedName,
    types: RecordTypeSet,
}

impl NSEC3 {
    /// The next hash, under these parameters, and exactly these types.
    ///
    /// # Errors
    ///
    /// Out of memory.
    pub fn new(
        alloc: Global,
        hash_algorithm: Nsec3HashAlgorithm,
        opt_out: bool,
        iterations: u16,
        salt: Vec<u8>,
        next_hashed_owner_name: Vec<u8>,
        types: &[RecordType],
    ) -> Result<NSEC3, OutOfMemory>
        ensures { IfOk result (λ nsec3. nsec3_data nsec3
            ≡ record {
              hash = record {
                hash_algorithm = hash_algorithm;
                opt_out = opt_out;
                iterations = iterations;
                salt = salt.items;
              };
              next_hashed_owner_name = next_hashed_owner_name.items;
              types = form_of (is_one_of types.now);
            }) }
    {
        let types = RecordTypeSet::new(alloc, types)?;
        Ok(NSEC3 {
            parameters: HashParameters {
                hash_algorithm,
                opt_out,
                iterations,
                salt: Octets::from_vec(salt),
            },
            next_hashed_owner_name: HashedName::new(Octets::from_vec(next_hashed_owner_name)),
            types,
        })
    }

    /// The hash algorithm (RFC 5155 3.1.1).
    pub fn hash_algorithm(&self) -> Nsec3HashAlgorithm
        ensures { result ≡ (nsec3_data self.now).hash.hash_algorithm }
    {
        self.parameters.hash_algorithm
    }

    /// Whether names without signatures may stand between the two hashes (RFC 5155 3.1.2.1).
    pub fn opt_out(&self) -> bool
        ensures { result ≡ (nsec3_data self.now).hash.opt_out }
    {
        self.parameters.opt_out
    }

    /// How often the hash is applied again (RFC 5155 3.1.3).
    pub fn iterations(&self) -> u16
        ensures { result ≡ (nsec3_data self.now).hash.iterations }
    {
        self.parameters.iterations
    }

    /// The octets behind each name and each hash (RFC 5155 3.1.5).
    pub fn salt(&self) -> &[u8]
        ensures { result.now ≡ (nsec3_data self.now).hash.salt }
    {
        self.parameters.salt.as_slice()
    }

    /// The next hash of the zone (RFC 5155 3.1.7).
    pub fn next_hashed_owner_name(&self) -> &[u8]
        ensures { result.now ≡ (nsec3_data self.now).next_hashed_owner_name }
    {
        self.next_hashed_owner_name.as_slice()
    }

    /// The next hash in base32, as the first label of its name (RFC 5155 3). `None` where it is no label: for a hash of
    /// no octet, and of more than 39.
    pub fn next_hashed_owner_name_base32(&self) -> Option<&Label>
        ensures { option_map (λ label. label.now) result ≡ hash_label (nsec3_data self.now).next_hashed_owner_name }
    {
        self.next_hashed_owner_name.label()
    }

    /// The types, ascending and each once.
    pub fn type_bit_maps(&self) -> RecordTypeIter<'_>
        ensures { result ≡ types (nsec3_data self.now).types }
    {
        self.types.iter()
    }

    /// The set of the types (RFC 5155 3.1.8).
    pub fn type_set(&self) -> &RecordTypeSet
        ensures { result.now ≡ (nsec3_data self.now).types }
    {
        &self.types
    }

    /// Whether the types have DNAME, or NS without SOA: those of a delegation as the zone above sees it, or of a
    /// subtree under another name (RFC 6840 4.1).
    pub fn is_ancestor_delegation(&self) -> bool
        ensures { result ≡ specs.is_ancestor_delegation (nsec3_data self.now).types }
    {
        is_ancestor_delegation(&self.types)
    }

    /// The flags (RFC 5155 3.1.2): 1 for Opt-Out, and else 0.
    pub fn flags(&self) -> u8
        ensures { result ≡ opt_out_flags (nsec3_data self.now).hash.opt_out }
    {
        self.parameters.flags()
    }

    /// A copy of the data.
    ///
    /// # Errors
    ///
    /// Out of memory.
    pub fn try_clone(&self) -> Result<NSEC3, OutOfMemory>
        ensures { IfOk result (λ copy. copy ≡ self.now) }
    {
        Ok(NSEC3 {
            parameters: self.parameters.try_clone()?,
            next_hashed_owner_name: self.next_hashed_owner_name.try_clone()?,
            types: self.types.try_clone()?,
        })
    }

    /// Reads the fields of the data.
    #[tactic(auto, unfolding(dns_grammar::specs::RecordData::one_type_data_at, dns_grammar::specs::RecordData::fields_filling))]
    fn read_fields(
        alloc: Global,
        decoder: &mut BinDecoder<'_>,
        length: u16,
    ) -> Result<NSEC3, DecodeError>
        ensures { ReadsUnless (λ nsec3. nsec3_values (nsec3_data nsec3)) result decoder.old decoder.new
            (one_type_data_at nsec3_row (octets decoder.old) (place decoder.old) length) }
    {
        let end = data_end(decoder, length)?;
        let mut reader = *decoder;
        let parameters = HashParameters::read_within(alloc, &mut reader, end)?;
        let hash = Octets::from_slice(alloc, reader.read_counted8_within(end)?)?;
        let types = RecordTypeSet::read_within(alloc, &mut reader, end)?;
        *decoder = reader;
        Ok(NSEC3 {
            parameters,
            next_hashed_owner_name: HashedName::new(hash),
            types,
        })
    }
}

impl<'r> RecordDataDecodable<'r> for NSEC3 {
    ghost is_read = { ReadsRow nsec3_row (λ nsec3. nsec3_values (nsec3_data nsec3)) (λ _. Unit {0}) };

    /// Reads hash algorithm, flags, iterations, salt, the next hash and the types.
    ///
    /// # Errors
    ///
    /// `InsufficientBytes` where an octet is needed past the data, `UnknownNsec3HashAlgorithm`,
    /// `UnrecognizedNsec3Flags`, `BitmapMalformed`, or `OutOfMemory`.
    #[tactic(auto, using(dns_grammar::proofs::RowReaderLaws::reads_plain_row))]
    fn read_data(
        alloc: Global,
        decoder: &mut BinDecoder<'r>,
        length: u16,
    ) -> Result<NSEC3, DecodeError> {
        NSEC3::read_fields(alloc, decoder, length)
    }
}

impl Putting for NSEC3 {
    ghost written = { λ canonical _ nsec3. fields_octets canonical nsec3_row (nsec3_values (nsec3_data nsec3)) };

    fn put<S: OctetSink>(&self, form: Form, sink: &mut S) -> Result<(), EmitError> {
        let parameters = &self.parameters;
        put_fields(
            sink,
            form,
            &[
                FieldOut::U8(parameters.hash_algorithm.into()),
                FieldOut::U8(parameters.flags()),
                FieldOut::U16(parameters.iterations),
                FieldOut::Counted8(parameters.salt.as_slice(), EmitError::SaltTooLong),
                FieldOut::Counted8(
                    self.next_hashed_owner_name.as_slice(),
                    EmitError::HashTooLong,
                ),
                FieldOut::Octets(self.types.as_octets()),
            ],
        )
    }
}

impl BinEncodable for NSEC3 {}

/// Hash number, flags, iterations, salt in upper-case hexadecimal or `-` for none, the next hash in base32, each type
/// (RFC 5155 3.3).
impl fmt::Display for NSEC3 {
    ghost output = { λ nsec3. Some (nsec3_text (nsec3_data nsec3)) };

    fn fmt<W: fmt::Write>(&self, f: &mut fmt::Formatter<W>) -> fmt::Result {
        write!(
            f,
            "{} {}{}",
            self.parameters,
            Base32Text(self.next_hashed_owner_name.as_slice()),
            TypesText(&self.types)
        )
    }
}
