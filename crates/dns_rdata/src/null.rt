//! Data that nothing is known of (RFC 1035 3.3.10, RFC 3597).
ghost use Rattle.std.specs.Prelude.{◌≡◌, IfOk};
ghost use Rattle.dns_wire.specs.Reading.{octets, place, ReadsUnless};
ghost use Rattle.dns_wire.specs.Sinks.{Puts};
ghost use Rattle.dns_grammar.specs.Fields.{fields_octets, unknown_row};
ghost use Rattle.dns_grammar.specs.RecordData.{one_type_data_at};
ghost use Rattle.dns_rdata.specs.PlainData.{null_octets, null_values};

use dns_grammar::{FieldOut, data_end, put_fields};
use dns_wire::{BinDecoder, DecodeError, EmitError, Form, OctetSink, Octets, OutOfMemory};
use std::alloc::Global;

/// Any octets. A contract sees them, by `null_octets`.
#[derive(Debug, PartialEq, Eq, Hash, Drop)]
pub struct NULL {
    anything: Octets,
}

impl NULL {
    /// These octets.
    pub fn with(anything: Octets) -> NULL
        ensures { null_octets result ≡ anything }
    {
        NULL { anything }
    }

    /// The octets.
    pub fn anything(&self) -> &[u8]
        ensures { result.now ≡ null_octets self.now }
    {
        self.anything.as_slice()
    }

    /// A copy of the data.
    ///
    /// # Errors
    ///
    /// Out of memory.
    pub fn try_clone(&self) -> Result<NULL, OutOfMemory>
        ensures { IfOk result (λ copy. copy ≡ self.now) }
    {
        Ok(NULL {
            anything: self.anything.try_clone()?,
        })
    }

    /// Reads the data, `length` octets of them.
    #[tactic(auto, unfolding(dns_grammar::specs::RecordData::one_type_data_at, dns_grammar::specs::RecordData::fields_filling))]
    pub(crate) fn read(
        alloc: Global,
        decoder: &mut BinDecoder<'_>,
        length: u16,
    ) -> Result<NULL, DecodeError>
        ensures { ReadsUnless null_values result decoder.old decoder.new
            (one_type_data_at unknown_row (octets decoder.old) (place decoder.old) length) }
    {
        let end = data_end(decoder, length)?;
        let mut reader = *decoder;
        let anything = Octets::from_slice(alloc, reader.read_rest_within(end))?;
        *decoder = reader;
        Ok(NULL { anything })
    }

    /// Writes the data.
    pub(crate) fn put<S: OctetSink>(&self, form: Form, sink: &mut S) -> Result<(), EmitError>
        ensures { Puts S.has_taken result sink.old sink.new
            (fields_octets form.canonical_form unknown_row (null_values self.now)) }
    {
        put_fields(sink, form, &[FieldOut::Octets(self.anything.as_slice())])
    }
}
