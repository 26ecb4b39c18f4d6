//! Texts (RFC 1035 3.3.14).
ghost use Rattle.std.specs.Prelude.{◌≡◌, ◌-◌, ◌≤◌, length, IfOk};
ghost use Rattle.dns_wire.specs.Reading.{octets, place, GivesUnless, ReadsUnless};
ghost use Rattle.dns_wire.specs.Sinks.{Puts};
ghost use Rattle.dns_grammar.specs.Fields.{fields_octets, strings_at};
ghost use Rattle.dns_grammar.specs.RecordData.{one_type_data_at};
ghost use Rattle.dns_rdata.specs.PlainData.{txt_strings, txt_values};
ghost use Rattle.dns_rdata.specs.RDataTable.{txt_row};

use dns_grammar::{FieldOut, data_end, put_fields};
use dns_wire::{BinDecoder, DecodeError, EmitError, Form, OctetSink, Octets, OutOfMemory};
use std::alloc::Global;

/// Strings of at most 255 octets each, whatever their octets mean. A contract sees them, by `txt_strings`.
#[derive(Debug, PartialEq, Eq, Hash, Drop)]
pub struct TXT {
    /// The strings.
    pub strings: Vec<Octets>,
}

/// The strings from the reader's place up to `end`, each behind its count of one octet.
#[tactic(auto, using(crate::proofs::Strings::string_next, crate::proofs::Strings::string_stop))]
fn read_strings(
    alloc: Global,
    mut reader: BinDecoder<'_>,
    end: usize,
) -> Result<Vec<Octets>, DecodeError>
    requires ahead { place reader ≤ end }
    requires inside { end ≤ length (octets reader) }
    ensures { GivesUnless DecodeError.OutOfMemory (λ strings. (strings.items, end)) result
        (strings_at (end - place reader.entry) (octets reader.entry) (place reader.entry) end) }
{
    let mut strings = Vec::new(alloc);
    'strings: while reader.index() < end {
        let string = Octets::from_slice(alloc, reader.read_counted8_within(end)?)?;
        strings.push(string)?;
    }
    Ok(strings)
}

impl TXT {
    /// A copy of the data.
    ///
    /// # Errors
    ///
    /// Out of memory.
    pub fn try_clone(&self, alloc: Global) -> Result<TXT, OutOfMemory>
        ensures { IfOk result (λ copy. txt_strings copy ≡ txt_strings self.now) }
    {
        let held = self.strings.as_slice();
        let mut strings = Vec::new(alloc);
        for string in held {
            strings.push(string.try_clone()?)?;
        }
        Ok(TXT { strings })
    }

    /// Reads the data, `length` octets of them.
    #[tactic(auto, unfolding(dns_grammar::specs::RecordData::one_type_data_at, dns_grammar::specs::RecordData::fields_filling))]
    pub(crate) fn read(
        alloc: Global,
        decoder: &mut BinDecoder<'_>,
        length: u16,
    ) -> Result<TXT, DecodeError>
        ensures { ReadsUnless txt_values result decoder.old decoder.new
            (one_type_data_at txt_row (octets decoder.old) (place decoder.old) length) }
    {
        let end = data_end(decoder, length)?;
        let strings = read_strings(alloc, *decoder, end)?;
        decoder.set_index(end);
        Ok(TXT { strings })
    }

    /// Writes the data.
    pub(crate) fn put<S: OctetSink>(&self, form: Form, sink: &mut S) -> Result<(), EmitError>
        ensures { Puts S.has_taken result sink.old sink.new
            (fields_octets form.canonical_form txt_row (txt_values self.now)) }
    {
        put_fields(sink, form, &[FieldOut::Strings(self.strings.as_slice())])
    }
}
