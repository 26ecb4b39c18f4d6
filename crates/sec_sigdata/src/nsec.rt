//! NSEC records: which name is next in a zone, and which types there are at this one (RFC 4034 4).
ghost use Rattle.std.specs.Prelude.{◌≡◌, ◌≤◌, ◌++◌, ◌∷◌, [], Some, IfOk, OnErr};
ghost use Rattle.dns_wire.specs.Reading.{octets, place, ReadsUnless};
ghost use Rattle.dns_names.specs.PointerCache.{IsPointerCache};
ghost use Rattle.dns_types.specs.TypeNumbers as numbers;
ghost use Rattle.dns_types.specs.TypeSets.{form_of, is_one_of, types};
ghost use Rattle.dns_grammar.specs.Fields.{fields_octets};
ghost use Rattle.dns_grammar.specs.RowReaders.{ReadsRow};
ghost use Rattle.dns_grammar.specs.RecordData.{one_type_data_at};
ghost use Rattle.sec_sigdata.specs.SignatureRows.{nsec_row};
ghost use Rattle.sec_sigdata.specs.TypeLists as specs;
ghost use Rattle.sec_sigdata.specs.Nsec.{nsec_data, nsec_values, nsec_text};

use crate::type_list::{TypesText, is_ancestor_delegation};
use dns_grammar::{FieldOut, data_end, put_fields};
use dns_names::Name;
use dns_types::{RecordType, RecordTypeIter, RecordTypeSet};
use dns_wire::{
    BinDecoder, BinEncodable, DecodeError, EmitError, Form, OctetSink, OutOfMemory, Putting,
    RecordDataDecodable,
};
use std::alloc::Global;
use std::fmt;

/// The next name of a zone, and the types at a name. A contract sees both, by `nsec_data`.
#[derive(Debug, PartialEq, Eq, Hash, Drop)]
pub struct NSEC {
    next_domain_name: Name,
    types: RecordTypeSet,
}

impl NSEC {
    /// The next name, and exactly these types.
    ///
    /// # Errors
    ///
    /// Out of memory.
    pub fn new(
        alloc: Global,
        next_domain_name: Name,
        types: &[RecordType],
    ) -> Result<NSEC, OutOfMemory>
        ensures { IfOk result (λ nsec. nsec_data nsec
            ≡ record { next_domain_name = next_domain_name; types = form_of (is_one_of types.now) }) }
    {
        Ok(NSEC {
            next_domain_name,
            types: RecordTypeSet::new(alloc, types)?,
        })
    }

    /// The next name, and these types with those that every name with an NSEC record has: NSEC itself and RRSIG (RFC
    /// 4034 4.1.2).
    ///
    /// # Errors
    ///
    /// Out of memory.
    pub fn new_cover_self(
        alloc: Global,
        next_domain_name: Name,
        types: &[RecordType],
    ) -> Result<NSEC, OutOfMemory>
        ensures { IfOk result (λ nsec. nsec_data nsec
            ≡ record {
              next_domain_name = next_domain_name;
              types = form_of (is_one_of (types.now ++ numbers.NSEC ∷ numbers.RRSIG ∷ []));
            }) }
    {
        let mut all = Vec::from_slice(alloc, types)?;
        all.push(RecordType::NSEC)?;
        all.push(RecordType::RRSIG)?;
        NSEC::new(alloc, next_domain_name, all.as_slice())
    }

    /// The next name of the zone (RFC 4034 4.1.1).
    pub fn next_domain_name(&self) -> &Name
        ensures { result.now ≡ (nsec_data self.now).next_domain_name }
    {
        &self.next_domain_name
    }

    /// The types, ascending and each once.
    pub fn type_bit_maps(&self) -> RecordTypeIter<'_>
        ensures { result ≡ types (nsec_data self.now).types }
    {
        self.types.iter()
    }

    /// The set of the types (RFC 4034 4.1.2).
    pub fn type_set(&self) -> &RecordTypeSet
        ensures { result.now ≡ (nsec_data self.now).types }
    {
        &self.types
    }

    /// Whether the types have DNAME, or NS without SOA: those of a delegation as the zone above sees it, or of a
    /// subtree under another name (RFC 6840 4.1).
    pub fn is_ancestor_delegation(&self) -> bool
        ensures { result ≡ specs.is_ancestor_delegation (nsec_data self.now).types }
    {
        is_ancestor_delegation(&self.types)
    }

    /// A copy of the data.
    ///
    /// # Errors
    ///
    /// Out of memory.
    pub fn try_clone(&self) -> Result<NSEC, OutOfMemory>
        ensures { IfOk result (λ copy. copy ≡ self.now) }
    {
        Ok(NSEC {
            next_domain_name: self.next_domain_name,
            types: self.types.try_clone()?,
        })
    }

    /// Reads the data of `length` octets at the decoder's place: the next name and the types.
    ///
    /// Pointers that were followed before are known from `cache`, and those that are met are noted there.
    ///
    /// # Errors
    ///
    /// Those of `read_data`.
    #[tactic(auto, using(dns_grammar::proofs::RowReaderLaws::reads_plain_row))]
    pub fn read_with(
        alloc: Global,
        decoder: &mut BinDecoder<'_>,
        length: u16,
        cache: &mut [u16],
    ) -> Result<NSEC, DecodeError>
        requires cache { IsPointerCache (octets decoder.old) cache.old }
        ensures read { ReadsRow nsec_row (λ nsec. nsec_values (nsec_data nsec)) (λ _. Unit {0})
            length decoder.old decoder.new result }
        ensures octets { octets decoder.new ≡ octets decoder.old }
        ensures forward { place decoder.old ≤ place decoder.new }
        ensures refused { OnErr result (decoder.new ≡ decoder.old) }
        ensures cache { IsPointerCache (octets decoder.old) cache.new }
    {
        NSEC::read_fields(alloc, decoder, length, cache)
    }

    /// Reads the fields of the data.
    #[tactic(auto, unfolding(dns_grammar::specs::RecordData::one_type_data_at, dns_grammar::specs::RecordData::fields_filling))]
    fn read_fields(
        alloc: Global,
        decoder: &mut BinDecoder<'_>,
        length: u16,
        cache: &mut [u16],
    ) -> Result<NSEC, DecodeError>
        requires cache { IsPointerCache (octets decoder.old) cache.old }
        ensures exact { ReadsUnless (λ nsec. nsec_values (nsec_data nsec)) result decoder.old decoder.new
            (one_type_data_at nsec_row (octets decoder.old) (place decoder.old) length) }
        ensures cache { IsPointerCache (octets decoder.old) cache.new }
    {
        let end = data_end(decoder, length)?;
        let mut reader = *decoder;
        let next_domain_name = Name::read_with(&mut reader, end, cache)?;
        let types = RecordTypeSet::read_within(alloc, &mut reader, end)?;
        *decoder = reader;
        Ok(NSEC {
            next_domain_name,
            types,
        })
    }
}

impl<'r> RecordDataDecodable<'r> for NSEC {
    ghost is_read = { ReadsRow nsec_row (λ nsec. nsec_values (nsec_data nsec)) (λ _. Unit {0}) };

    /// Reads the next name and the types.
    ///
    /// # Errors
    ///
    /// `InsufficientBytes` where an octet is needed past the data, `NameMalformed`, `BitmapMalformed`, or
    /// `OutOfMemory`.
    fn read_data(
        alloc: Global,
        decoder: &mut BinDecoder<'r>,
        length: u16,
    ) -> Result<NSEC, DecodeError> {
        NSEC::read_with(alloc, decoder, length, &mut [])
    }
}

impl Putting for NSEC {
    ghost written = { λ canonical _ nsec. fields_octets canonical nsec_row (nsec_values (nsec_data nsec)) };

    fn put<S: OctetSink>(&self, form: Form, sink: &mut S) -> Result<(), EmitError> {
        put_fields(
            sink,
            form,
            &[
                FieldOut::KeptName(&self.next_domain_name),
                FieldOut::Octets(self.types.as_octets()),
            ],
        )
    }
}

impl BinEncodable for NSEC {}

/// The next name, and each type (RFC 4034 4.2).
impl fmt::Display for NSEC {
    ghost output = { λ nsec. Some (nsec_text (nsec_data nsec)) };

    fn fmt<W: fmt::Write>(&self, f: &mut fmt::Formatter<W>) -> fmt::Result {
        write!(f, "{}{}", self.next_domain_name, TypesText(&self.types))
    }
}
