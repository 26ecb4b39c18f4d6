//! A server of a service (RFC 2782).
ghost use Rattle.dns_wire.specs.Reading.{octets, place, Reads};
ghost use Rattle.dns_wire.specs.Sinks.{Puts};
ghost use Rattle.dns_names.specs.PointerCache.{IsPointerCache};
ghost use Rattle.dns_grammar.specs.Fields.{fields_octets};
ghost use Rattle.dns_grammar.specs.RecordData.{one_type_data_at};
ghost use Rattle.dns_rdata.specs.PlainData.{srv_values};
ghost use Rattle.dns_rdata.specs.RDataTable.{srv_row};

use dns_grammar::{FieldOut, data_end, expect_end, put_fields};
use dns_names::Name;
use dns_wire::{BinDecoder, DecodeError, EmitError, Form, OctetSink};

/// A server of a service.
#[derive(Clone, Copy, Debug, PartialEq, Eq, Hash)]
pub struct SRV {
    /// Which server is tried first: that of the lowest number.
    pub priority: u16,
    /// How often the server is taken among those of the same priority.
    pub weight: u16,
    /// The port of the service.
    pub port: u16,
    /// The server.
    pub target: Name,
}

impl SRV {
    /// Reads the data, `length` octets of them.
    #[tactic(auto, unfolding(dns_grammar::specs::RecordData::one_type_data_at, dns_grammar::specs::RecordData::fields_filling))]
    pub(crate) fn read_with(
        decoder: &mut BinDecoder<'_>,
        length: u16,
        cache: &mut [u16],
    ) -> Result<SRV, DecodeError>
        requires cache { IsPointerCache (octets decoder.old) cache.old }
        ensures exact { Reads srv_values result decoder.old decoder.new
            (one_type_data_at srv_row (octets decoder.old) (place decoder.old) length) }
        ensures cache { IsPointerCache (octets decoder.old) cache.new }
    {
        let start = decoder.index();
        let end = data_end(decoder, length)?;
        let mut reader = *decoder;
        let priority = reader.read_u16_within(end)?;
        let weight = reader.read_u16_within(end)?;
        let port = reader.read_u16_within(end)?;
        let target = Name::read_with(&mut reader, end, cache)?;
        expect_end(&reader, start, end)?;
        *decoder = reader;
        Ok(SRV {
            priority,
            weight,
            port,
            target,
        })
    }

    /// Writes the data.
    pub(crate) fn put<S: OctetSink>(&self, form: Form, sink: &mut S) -> Result<(), EmitError>
        ensures { Puts S.has_taken result sink.old sink.new
            (fields_octets form.canonical_form srv_row (srv_values self.now)) }
    {
        put_fields(
            sink,
            form,
            &[
                FieldOut::U16(self.priority),
                FieldOut::U16(self.weight),
                FieldOut::U16(self.port),
                FieldOut::LoweredName(&self.target),
            ],
        )
    }
}
