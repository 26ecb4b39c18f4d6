//! SIG records: signatures of messages (RFC 2931), and of record sets in the older form (RFC 2535 4).
ghost use Rattle.std.specs.Prelude.{◌≡◌, ◌≤◌, Some, IfOk, OnErr};
ghost use Rattle.dns_wire.specs.Reading.{octets, place, ReadsUnless};
ghost use Rattle.dns_names.specs.PointerCache.{IsPointerCache};
ghost use Rattle.dns_grammar.specs.Fields.{fields_octets};
ghost use Rattle.dns_grammar.specs.RecordData.{one_type_data_at};
ghost use Rattle.dns_grammar.specs.RowReaders.{ReadsRow};
ghost use Rattle.sec_sigdata.specs.SignatureRows.{sig_row};
ghost use Rattle.sec_sigdata.specs.Signatures.{sig_data, sig_values, sig_text, SigIsByNumber};

use crate::sig_input::{KindText, SigInput, TimesText};
use dns_grammar::{FieldOut, data_end, put_fields};
use dns_text::Base64Text;
use dns_wire::{
    BinDecoder, BinEncodable, DecodeError, EmitError, Form, OctetSink, Octets, OutOfMemory,
    Putting, RecordDataDecodable,
};
use std::alloc::Global;
use std::fmt;

/// A signature and what it is of. A contract sees its parts, by `sig_data`.
#[derive(Debug, PartialEq, Eq, Hash, Drop)]
pub struct SIG {
    input: SigInput,
    sig: Octets,
}

impl SIG {
    /// A signature behind these fields.
    pub(crate) fn new(input: SigInput, sig: Vec<u8>) -> SIG
        ensures { sig_data result ≡ record { input = input; sig = sig.items } }
    {
        SIG {
            input,
            sig: Octets::from_vec(sig),
        }
    }

    /// The octets of the signature (RFC 4034 3.1.8).
    pub fn sig(&self) -> &[u8]
        ensures { result.now ≡ (sig_data self.now).sig }
    {
        self.sig.as_slice()
    }

    /// The fields before the signature.
    pub fn input(&self) -> &SigInput
        ensures { result.now ≡ (sig_data self.now).input }
    {
        &self.input
    }

    /// A copy of the data.
    ///
    /// # Errors
    ///
    /// Out of memory.
    pub fn try_clone(&self) -> Result<SIG, OutOfMemory>
        ensures { IfOk result (λ copy. copy ≡ self.now) }
    {
        let sig = self.sig.try_clone()?;
        Ok(SIG {
            input: self.input,
            sig,
        })
    }

    /// Reads the data of `length` octets at the decoder's place: the fields before the signature, and the signature.
    ///
    /// Pointers that were followed before are known from `cache`, and those that are met are noted there.
    ///
    /// # Errors
    ///
    /// Those of `read_data`.
    #[tactic(auto, using(dns_grammar::proofs::RowReaderLaws::reads_row))]
    pub fn read_with(
        alloc: Global,
        decoder: &mut BinDecoder<'_>,
        length: u16,
        cache: &mut [u16],
    ) -> Result<SIG, DecodeError>
        requires cache { IsPointerCache (octets decoder.old) cache.old }
        ensures read { ReadsRow sig_row (λ sig. sig_values (sig_data sig)) (λ sig. SigIsByNumber (sig_data sig))
            length decoder.old decoder.new result }
        ensures octets { octets decoder.new ≡ octets decoder.old }
        ensures forward { place decoder.old ≤ place decoder.new }
        ensures refused { OnErr result (decoder.new ≡ decoder.old) }
        ensures cache { IsPointerCache (octets decoder.old) cache.new }
    {
        SIG::read_fields(alloc, decoder, length, cache)
    }

    /// Reads the fields of the data.
    #[tactic(auto, unfolding(dns_grammar::specs::RecordData::one_type_data_at, dns_grammar::specs::RecordData::fields_filling))]
    fn read_fields(
        alloc: Global,
        decoder: &mut BinDecoder<'_>,
        length: u16,
        cache: &mut [u16],
    ) -> Result<SIG, DecodeError>
        requires cache { IsPointerCache (octets decoder.old) cache.old }
        ensures exact { ReadsUnless (λ sig. sig_values (sig_data sig)) result decoder.old decoder.new
            (one_type_data_at sig_row (octets decoder.old) (place decoder.old) length) }
        ensures by_number { IfOk result (λ sig. SigIsByNumber (sig_data sig)) }
        ensures cache { IsPointerCache (octets decoder.old) cache.new }
    {
        let end = data_end(decoder, length)?;
        let mut reader = *decoder;
        let input = SigInput::read_with(&mut reader, end, cache)?;
        let sig = Octets::from_slice(alloc, reader.read_rest_within(end))?;
        *decoder = reader;
        Ok(SIG { input, sig })
    }
}

impl<'r> RecordDataDecodable<'r> for SIG {
    ghost is_read = { ReadsRow sig_row (λ sig. sig_values (sig_data sig)) (λ sig. SigIsByNumber (sig_data sig)) };

    /// Reads type covered, algorithm, labels, original TTL, expiration, inception, key tag, signer's name and
    /// signature.
    ///
    /// # Errors
    ///
    /// `InsufficientBytes` where an octet is needed past the data, `NameMalformed`, or `OutOfMemory`.
    fn read_data(
        alloc: Global,
        decoder: &mut BinDecoder<'r>,
        length: u16,
    ) -> Result<SIG, DecodeError> {
        SIG::read_with(alloc, decoder, length, &mut [])
    }
}

impl Putting for SIG {
    ghost written = { λ canonical _ sig. fields_octets canonical sig_row (sig_values (sig_data sig)) };

    fn put<S: OctetSink>(&self, form: Form, sink: &mut S) -> Result<(), EmitError> {
        let input = &self.input;
        put_fields(
            sink,
            form,
            &[
                FieldOut::U16(input.type_covered.into()),
                FieldOut::U8(input.algorithm.into()),
                FieldOut::U8(input.num_labels),
                FieldOut::U32(input.original_ttl),
                FieldOut::U32(input.sig_expiration.0),
                FieldOut::U32(input.sig_inception.0),
                FieldOut::U16(input.key_tag),
                FieldOut::LoweredName(&input.signer_name),
                FieldOut::Octets(self.sig.as_slice()),
            ],
        )
    }
}

impl BinEncodable for SIG {}

/// Type covered, name of the algorithm, labels, original TTL, expiration, inception, key tag, signer's name, signature
/// in base64 (RFC 4034 3.2), the times as numbers of seconds.
impl fmt::Display for SIG {
    ghost output = { λ sig. Some (sig_text (sig_data sig)) };

    fn fmt<W: fmt::Write>(&self, f: &mut fmt::Formatter<W>) -> fmt::Result {
        let input = &self.input;
        write!(
            f,
            "{} {} {} {}",
            KindText(input),
            TimesText(input),
            input.signer_name,
            Base64Text(self.sig.as_slice())
        )
    }
}
