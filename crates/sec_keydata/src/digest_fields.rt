//! The fields of DS and CDS data (RFC 4034 5.1, RFC 7344 3.1).
ghost use Rattle.std.specs.Prelude.{◌≡◌, Some};
ghost use Rattle.dns_wire.specs.Reading.{octets, place, Reads};
ghost use Rattle.dns_wire.specs.Sinks.{Puts};
ghost use Rattle.dns_grammar.specs.Fields.{fields_octets};
ghost use Rattle.dns_grammar.specs.RecordData.{one_type_data_at};
ghost use Rattle.sec_keydata.specs.KeyRows.{ds_row};
ghost use Rattle.sec_keydata.specs.DsData.{fields_values, fields_text};

use dns_grammar::{FieldOut, data_end, put_fields};
use dns_text::UpperHex;
use dns_wire::{BinDecoder, DecodeError, EmitError, Form, OctetSink};
use std::fmt;

/// The fields: key tag, number of the algorithm, number of the digest type, digest.
#[derive(Clone, Copy)]
pub(crate) struct DigestFields<'a> {
    pub(crate) key_tag: u16,
    pub(crate) algorithm: u8,
    pub(crate) digest_type: u8,
    pub(crate) digest: &'a [u8],
}

impl<'a> DigestFields<'a> {
    /// Reads the fields of data of this length.
    #[tactic(auto, unfolding(dns_grammar::specs::RecordData::one_type_data_at, dns_grammar::specs::RecordData::fields_filling))]
    pub(crate) fn read_data(
        decoder: &mut BinDecoder<'a>,
        length: u16,
    ) -> Result<DigestFields<'a>, DecodeError>
        ensures { Reads fields_values result decoder.old decoder.new
            (one_type_data_at ds_row (octets decoder.old) (place decoder.old) length) }
    {
        let end = data_end(decoder, length)?;
        let mut reader = *decoder;
        let key_tag = reader.read_u16_within(end)?;
        let algorithm = reader.read_u8_within(end)?;
        let digest_type = reader.read_u8_within(end)?;
        let digest = reader.read_rest_within(end);
        *decoder = reader;
        Ok(DigestFields {
            key_tag,
            algorithm,
            digest_type,
            digest,
        })
    }

    /// Writes the fields.
    pub(crate) fn put<S: OctetSink>(&self, form: Form, sink: &mut S) -> Result<(), EmitError>
        ensures { Puts S.has_taken result sink.old sink.new
            (fields_octets form.canonical_form ds_row (fields_values self.now)) }
    {
        put_fields(
            sink,
            form,
            &[
                FieldOut::U16(self.key_tag),
                FieldOut::U8(self.algorithm),
                FieldOut::U8(self.digest_type),
                FieldOut::Octets(self.digest),
            ],
        )
    }
}

impl fmt::Display for DigestFields<'_> {
    ghost output = { λ fields. Some (fields_text fields) };

    fn fmt<W: fmt::Write>(&self, f: &mut fmt::Formatter<W>) -> fmt::Result {
        write!(
            f,
            "{} {} {} {}",
            self.key_tag,
            self.algorithm,
            self.digest_type,
            UpperHex(self.digest)
        )
    }
}
