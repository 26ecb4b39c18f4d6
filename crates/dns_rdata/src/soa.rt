//! The start of a zone (RFC 1035 3.3.13).
ghost use Rattle.dns_wire.specs.Reading.{octets, place, Reads};
ghost use Rattle.dns_wire.specs.Sinks.{Puts};
ghost use Rattle.dns_names.specs.PointerCache.{IsPointerCache};
ghost use Rattle.dns_grammar.specs.Fields.{fields_octets};
ghost use Rattle.dns_grammar.specs.RecordData.{one_type_data_at};
ghost use Rattle.dns_rdata.specs.PlainData.{soa_values};
ghost use Rattle.dns_rdata.specs.RDataTable.{soa_row};

use dns_grammar::{FieldOut, data_end, expect_end, put_fields};
use dns_names::Name;
use dns_wire::{BinDecoder, DecodeError, EmitError, Form, OctetSink};

/// The start of a zone: who serves it, and how long others may keep what they copied.
#[derive(Clone, Copy, Debug, PartialEq, Eq, Hash)]
pub struct SOA {
    /// The server that has the zone first.
    pub mname: Name,
    /// The mailbox of who is responsible.
    pub rname: Name,
    /// The version of the zone.
    pub serial: u32,
    /// Seconds between two looks at the version.
    pub refresh: u32,
    /// Seconds before a look that failed is tried again.
    pub retry: u32,
    /// Seconds after which a copy that could not be renewed is no longer good.
    pub expire: u32,
    /// Seconds for which it may be kept that a name or type is not there (RFC 2308 4).
    pub minimum: u32,
}

impl SOA {
    /// Reads the data, `length` octets of them.
    #[tactic(auto, unfolding(dns_grammar::specs::RecordData::one_type_data_at, dns_grammar::specs::RecordData::fields_filling))]
    pub(crate) fn read_with(
        decoder: &mut BinDecoder<'_>,
        length: u16,
        cache: &mut [u16],
    ) -> Result<SOA, DecodeError>
        requires cache { IsPointerCache (octets decoder.old) cache.old }
        ensures exact { Reads soa_values result decoder.old decoder.new
            (one_type_data_at soa_row (octets decoder.old) (place decoder.old) length) }
        ensures cache { IsPointerCache (octets decoder.old) cache.new }
    {
        let start = decoder.index();
        let end = data_end(decoder, length)?;
        let mut reader = *decoder;
        let mname = Name::read_with(&mut reader, end, cache)?;
        let rname = Name::read_with(&mut reader, end, cache)?;
        let serial = reader.read_u32_within(end)?;
        let refresh = reader.read_u32_within(end)?;
        let retry = reader.read_u32_within(end)?;
        let expire = reader.read_u32_within(end)?;
        let minimum = reader.read_u32_within(end)?;
        expect_end(&reader, start, end)?;
        *decoder = reader;
        Ok(SOA {
            mname,
            rname,
            serial,
            refresh,
            retry,
            expire,
            minimum,
        })
    }

    /// Writes the data.
    pub(crate) fn put<S: OctetSink>(&self, form: Form, sink: &mut S) -> Result<(), EmitError>
        ensures { Puts S.has_taken result sink.old sink.new
            (fields_octets form.canonical_form soa_row (soa_values self.now)) }
    {
        put_fields(
            sink,
            form,
            &[
                FieldOut::LoweredName(&self.mname),
                FieldOut::LoweredName(&self.rname),
                FieldOut::U32(self.serial),
                FieldOut::U32(self.refresh),
                FieldOut::U32(self.retry),
                FieldOut::U32(self.expire),
                FieldOut::U32(self.minimum),
            ],
        )
    }
}
