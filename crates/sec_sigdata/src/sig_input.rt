//! What stands before the signature in SIG and RRSIG records (RFC 2535 4.1, RFC 4034 3.1).
ghost use Rattle.std.specs.Prelude.{◌≡◌, ◌≤◌, length, Some, IfOk};
ghost use Rattle.dns_wire.specs.Reading.{octets, place, Reads};
ghost use Rattle.dns_names.specs.PointerCache.{IsPointerCache};
ghost use Rattle.dns_grammar.specs.Fields.{fields_at, fields_octets};
ghost use Rattle.sec_codes.specs.Algorithms.{number, algorithm_numbered};
ghost use Rattle.sec_sigdata.specs.Signatures.{input_row, input_values, kind_text, times_text};

use dns_grammar::{FieldOut, put_fields};
use dns_names::Name;
use dns_types::RecordType;
use dns_wire::{
    BinDecoder, BinEncodable, DecodeError, EmitError, Form, OctetSink, Putting, SerialNumber,
};
use sec_codes::Algorithm;
use std::fmt;

/// The fields of a signature's data before the signature.
#[derive(Clone, Copy, Debug, PartialEq, Eq, Hash)]
pub struct SigInput {
    /// The type of the records that are signed (RFC 4034 3.1.1).
    pub type_covered: RecordType,
    /// The algorithm of the signature (RFC 4034 3.1.2).
    pub algorithm: Algorithm,
    /// How many labels the name of the records has, a `*` in front not counted (RFC 4034 3.1.3).
    pub num_labels: u8,
    /// The time to live of the records in their zone, in seconds (RFC 4034 3.1.4).
    pub original_ttl: u32,
    /// The last second in which the signature is valid, from the start of 1970 on (RFC 4034 3.1.5).
    pub sig_expiration: SerialNumber,
    /// The first second in which the signature is valid (RFC 4034 3.1.5).
    pub sig_inception: SerialNumber,
    /// The tag of the key that signed (RFC 4034 3.1.6).
    pub key_tag: u16,
    /// The name of the key that signed (RFC 4034 3.1.7).
    pub signer_name: Name,
}

impl SigInput {
    /// Reads type covered, algorithm, labels, original TTL, expiration, inception, key tag and signer's name of data
    /// that end at `end`, the name by a pointer cache. A refused reading leaves the decoder.
    ///
    /// # Errors
    ///
    /// `InsufficientBytes` where the data end within a number, and those of `Name::read_with` for the signer's name.
    pub fn read_with(
        decoder: &mut BinDecoder<'_>,
        end: usize,
        cache: &mut [u16],
    ) -> Result<SigInput, DecodeError>
        requires ahead { place decoder.old ≤ end }
        requires inside { end ≤ length (octets decoder.old) }
        requires cache { IsPointerCache (octets decoder.old) cache.old }
        ensures exact { Reads input_values result decoder.old decoder.new
            (fields_at input_row (octets decoder.old) (place decoder.old) end) }
        ensures by_number { IfOk result (λ input. input.algorithm ≡ algorithm_numbered (number input.algorithm)) }
        ensures inside { place decoder.new ≤ end }
        ensures cache { IsPointerCache (octets decoder.old) cache.new }
    {
        let mut reader = *decoder;
        let type_covered = reader.read_u16_within(end)?;
        let algorithm = reader.read_u8_within(end)?;
        let num_labels = reader.read_u8_within(end)?;
        let original_ttl = reader.read_u32_within(end)?;
        let sig_expiration = reader.read_u32_within(end)?;
        let sig_inception = reader.read_u32_within(end)?;
        let key_tag = reader.read_u16_within(end)?;
        let signer_name = Name::read_with(&mut reader, end, cache)?;
        *decoder = reader;
        Ok(SigInput {
            type_covered: type_covered.into(),
            algorithm: Algorithm::from_u8(algorithm),
            num_labels,
            original_ttl,
            sig_expiration: SerialNumber(sig_expiration),
            sig_inception: SerialNumber(sig_inception),
            key_tag,
            signer_name,
        })
    }
}

/// The fields are put as in a signature's data, in canonical form with the signer's name in lower case (RFC 4034 6.2).
impl Putting for SigInput {
    ghost written = { λ canonical _ input. fields_octets canonical input_row (input_values input) };

    fn put<S: OctetSink>(&self, form: Form, sink: &mut S) -> Result<(), EmitError> {
        put_fields(
            sink,
            form,
            &[
                FieldOut::U16(self.type_covered.into()),
                FieldOut::U8(self.algorithm.into()),
                FieldOut::U8(self.num_labels),
                FieldOut::U32(self.original_ttl),
                FieldOut::U32(self.sig_expiration.0),
                FieldOut::U32(self.sig_inception.0),
                FieldOut::U16(self.key_tag),
                FieldOut::LoweredName(&self.signer_name),
            ],
        )
    }
}

impl BinEncodable for SigInput {}

/// The first three fields, as they are printed.
#[derive(Clone, Copy)]
pub(crate) struct KindText<'a>(pub(crate) &'a SigInput);

impl fmt::Display for KindText<'_> {
    ghost output = { λ text. Some (kind_text text.0.now) };

    #[tactic(auto, unfolding(crate::specs::Signatures::kind_text))]
    fn fmt<W: fmt::Write>(&self, f: &mut fmt::Formatter<W>) -> fmt::Result {
        let input = self.0;
        write!(
            f,
            "{} {} {}",
            input.type_covered, input.algorithm, input.num_labels
        )
    }
}

/// The original TTL, the times and the key tag, as they are printed.
#[derive(Clone, Copy)]
pub(crate) struct TimesText<'a>(pub(crate) &'a SigInput);

impl fmt::Display for TimesText<'_> {
    ghost output = { λ text. Some (times_text text.0.now) };

    #[tactic(auto, unfolding(crate::specs::Signatures::times_text))]
    fn fmt<W: fmt::Write>(&self, f: &mut fmt::Formatter<W>) -> fmt::Result {
        let input = self.0;
        write!(
            f,
            "{} {} {} {}",
            input.original_ttl, input.sig_expiration.0, input.sig_inception.0, input.key_tag
        )
    }
}
