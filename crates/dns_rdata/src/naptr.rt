//! A rule that makes one name of another (RFC 3403).
ghost use Rattle.std.specs.Prelude.{◌≡◌, IfOk};
ghost use Rattle.dns_wire.specs.Reading.{octets, place, ReadsUnless};
ghost use Rattle.dns_wire.specs.Sinks.{Puts};
ghost use Rattle.dns_names.specs.PointerCache.{IsPointerCache};
ghost use Rattle.dns_grammar.specs.Fields.{fields_octets};
ghost use Rattle.dns_grammar.specs.RecordData.{one_type_data_at};
ghost use Rattle.dns_rdata.specs.PlainData.{naptr_values};
ghost use Rattle.dns_rdata.specs.RDataTable.{naptr_row};

use dns_grammar::{FieldOut, data_end, expect_end, put_fields};
use dns_names::Name;
use dns_wire::{BinDecoder, DecodeError, EmitError, Form, OctetSink, Octets, OutOfMemory};
use std::alloc::Global;

/// A naming authority pointer (RFC 3403 4.1).
#[derive(Debug, PartialEq, Eq, Hash, Drop)]
pub struct NAPTR {
    /// Which rule is tried first: that of the lowest number.
    pub order: u16,
    /// Which rule is tried first among those of the same order.
    pub preference: u16,
    /// How the result is read.
    pub flags: Octets,
    /// Which services the rule serves.
    pub services: Octets,
    /// How the name is rewritten.
    pub regexp: Octets,
    /// The name in place of a rewritten one.
    pub replacement: Name,
}

impl NAPTR {
    /// A copy of the data.
    ///
    /// # Errors
    ///
    /// Out of memory.
    pub fn try_clone(&self) -> Result<NAPTR, OutOfMemory>
        ensures { IfOk result (λ copy. copy ≡ self.now) }
    {
        Ok(NAPTR {
            order: self.order,
            preference: self.preference,
            flags: self.flags.try_clone()?,
            services: self.services.try_clone()?,
            regexp: self.regexp.try_clone()?,
            replacement: self.replacement,
        })
    }

    /// Reads the data, `length` octets of them.
    #[tactic(auto, unfolding(dns_grammar::specs::RecordData::one_type_data_at, dns_grammar::specs::RecordData::fields_filling))]
    pub(crate) fn read_with(
        alloc: Global,
        decoder: &mut BinDecoder<'_>,
        length: u16,
        cache: &mut [u16],
    ) -> Result<NAPTR, DecodeError>
        requires cache { IsPointerCache (octets decoder.old) cache.old }
        ensures exact { ReadsUnless naptr_values result decoder.old decoder.new
            (one_type_data_at naptr_row (octets decoder.old) (place decoder.old) length) }
        ensures cache { IsPointerCache (octets decoder.old) cache.new }
    {
        let start = decoder.index();
        let end = data_end(decoder, length)?;
        let mut reader = *decoder;
        let order = reader.read_u16_within(end)?;
        let preference = reader.read_u16_within(end)?;
        let flags = reader.read_counted8_within(end)?;
        let services = reader.read_counted8_within(end)?;
        let regexp = reader.read_counted8_within(end)?;
        let replacement = Name::read_with(&mut reader, end, cache)?;
        expect_end(&reader, start, end)?;
        let flags = Octets::from_slice(alloc, flags)?;
        let services = Octets::from_slice(alloc, services)?;
        let regexp = Octets::from_slice(alloc, regexp)?;
        *decoder = reader;
        Ok(NAPTR {
            order,
            preference,
            flags,
            services,
            regexp,
            replacement,
        })
    }

    /// Writes the data.
    pub(crate) fn put<S: OctetSink>(&self, form: Form, sink: &mut S) -> Result<(), EmitError>
        ensures { Puts S.has_taken result sink.old sink.new
            (fields_octets form.canonical_form naptr_row (naptr_values self.now)) }
    {
        put_fields(
            sink,
            form,
            &[
                FieldOut::U16(self.order),
                FieldOut::U16(self.preference),
                FieldOut::Counted8(self.flags.as_slice(), EmitError::StringTooLong),
                FieldOut::Counted8(self.services.as_slice(), EmitError::StringTooLong),
                FieldOut::Counted8(self.regexp.as_slice(), EmitError::StringTooLong),
                FieldOut::LoweredName(&self.replacement),
            ],
        )
    }
}
