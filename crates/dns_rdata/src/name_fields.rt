//! Data of names, and of a number and names, of whatever type.
ghost use Rattle.dns_wire.specs.Reading.{octets, place, Reads};
ghost use Rattle.dns_wire.specs.Sinks.{Puts};
ghost use Rattle.dns_names.specs.PointerCache.{IsPointerCache};
ghost use Rattle.dns_grammar.specs.Fields.{fields_octets};
ghost use Rattle.dns_grammar.specs.RecordData.{one_type_data_at};
ghost use Rattle.dns_rdata.specs.PlainData.{name_values, number_name_values, two_names_values};
ghost use Rattle.dns_rdata.specs.PlainData.{number_two_names_values};
ghost use Rattle.dns_rdata.specs.RDataTable.{name_row, number_name_row, two_names_row, number_two_names_row};

use dns_grammar::{FieldOut, data_end, expect_end, put_fields};
use dns_names::Name;
use dns_wire::{BinDecoder, DecodeError, EmitError, Form, OctetSink};

/// Reads data of one name.
#[tactic(auto, unfolding(dns_grammar::specs::RecordData::one_type_data_at, dns_grammar::specs::RecordData::fields_filling))]
pub(crate) fn read_name(
    decoder: &mut BinDecoder<'_>,
    length: u16,
    cache: &mut [u16],
) -> Result<Name, DecodeError>
    requires cache { IsPointerCache (octets decoder.old) cache.old }
    ensures exact { Reads name_values result decoder.old decoder.new
        (one_type_data_at name_row (octets decoder.old) (place decoder.old) length) }
    ensures cache { IsPointerCache (octets decoder.old) cache.new }
{
    let start = decoder.index();
    let end = data_end(decoder, length)?;
    let mut reader = *decoder;
    let name = Name::read_with(&mut reader, end, cache)?;
    expect_end(&reader, start, end)?;
    *decoder = reader;
    Ok(name)
}

/// Reads data of a number and a name.
#[tactic(auto, unfolding(dns_grammar::specs::RecordData::one_type_data_at, dns_grammar::specs::RecordData::fields_filling))]
pub(crate) fn read_number_name(
    decoder: &mut BinDecoder<'_>,
    length: u16,
    cache: &mut [u16],
) -> Result<(u16, Name), DecodeError>
    requires cache { IsPointerCache (octets decoder.old) cache.old }
    ensures exact { Reads (λ x. number_name_values x.0 x.1) result decoder.old decoder.new
        (one_type_data_at number_name_row (octets decoder.old) (place decoder.old) length) }
    ensures cache { IsPointerCache (octets decoder.old) cache.new }
{
    let start = decoder.index();
    let end = data_end(decoder, length)?;
    let mut reader = *decoder;
    let number = reader.read_u16_within(end)?;
    let name = Name::read_with(&mut reader, end, cache)?;
    expect_end(&reader, start, end)?;
    *decoder = reader;
    Ok((number, name))
}

/// Reads data of two names.
#[tactic(auto, unfolding(dns_grammar::specs::RecordData::one_type_data_at, dns_grammar::specs::RecordData::fields_filling))]
pub(crate) fn read_two_names(
    decoder: &mut BinDecoder<'_>,
    length: u16,
    cache: &mut [u16],
) -> Result<(Name, Name), DecodeError>
    requires cache { IsPointerCache (octets decoder.old) cache.old }
    ensures exact { Reads (λ x. two_names_values x.0 x.1) result decoder.old decoder.new
        (one_type_data_at two_names_row (octets decoder.old) (place decoder.old) length) }
    ensures cache { IsPointerCache (octets decoder.old) cache.new }
{
    let start = decoder.index();
    let end = data_end(decoder, length)?;
    let mut reader = *decoder;
    let first = Name::read_with(&mut reader, end, cache)?;
    let second = Name::read_with(&mut reader, end, cache)?;
    expect_end(&reader, start, end)?;
    *decoder = reader;
    Ok((first, second))
}

/// Reads data of a number and two names.
#[tactic(auto, unfolding(dns_grammar::specs::RecordData::one_type_data_at, dns_grammar::specs::RecordData::fields_filling))]
pub(crate) fn read_number_two_names(
    decoder: &mut BinDecoder<'_>,
    length: u16,
    cache: &mut [u16],
) -> Result<(u16, Name, Name), DecodeError>
    requires cache { IsPointerCache (octets decoder.old) cache.old }
    ensures exact { Reads (λ x. number_two_names_values x.0 x.1 x.2) result decoder.old decoder.new
        (one_type_data_at number_two_names_row (octets decoder.old) (place decoder.old) length) }
    ensures cache { IsPointerCache (octets decoder.old) cache.new }
{
    let start = decoder.index();
    let end = data_end(decoder, length)?;
    let mut reader = *decoder;
    let number = reader.read_u16_within(end)?;
    let first = Name::read_with(&mut reader, end, cache)?;
    let second = Name::read_with(&mut reader, end, cache)?;
    expect_end(&reader, start, end)?;
    *decoder = reader;
    Ok((number, first, second))
}

/// Puts data of one name.
pub(crate) fn put_one_name<S: OctetSink>(
    sink: &mut S,
    form: Form,
    name: &Name,
) -> Result<(), EmitError>
    ensures { Puts S.has_taken result sink.old sink.new
        (fields_octets form.canonical_form name_row (name_values name.now)) }
{
    put_fields(sink, form, &[FieldOut::LoweredName(name)])
}

/// Puts data of a number and a name.
pub(crate) fn put_number_name<S: OctetSink>(
    sink: &mut S,
    form: Form,
    number: u16,
    name: &Name,
) -> Result<(), EmitError>
    ensures { Puts S.has_taken result sink.old sink.new
        (fields_octets form.canonical_form number_name_row (number_name_values number name.now)) }
{
    put_fields(
        sink,
        form,
        &[FieldOut::U16(number), FieldOut::LoweredName(name)],
    )
}

/// Puts data of two names.
pub(crate) fn put_two_names<'a, S: OctetSink>(
    sink: &mut S,
    form: Form,
    first: &'a Name,
    second: &'a Name,
) -> Result<(), EmitError>
    ensures { Puts S.has_taken result sink.old sink.new
        (fields_octets form.canonical_form two_names_row (two_names_values first.now second.now)) }
{
    put_fields(
        sink,
        form,
        &[FieldOut::LoweredName(first), FieldOut::LoweredName(second)],
    )
}

/// Puts data of a number and two names.
pub(crate) fn put_number_two_names<'a, S: OctetSink>(
    sink: &mut S,
    form: Form,
    number: u16,
    first: &'a Name,
    second: &'a Name,
) -> Result<(), EmitError>
    ensures { Puts S.has_taken result sink.old sink.new
        (fields_octets form.canonical_form number_two_names_row
        (number_two_names_values number first.now second.now)) }
{
    put_fields(
        sink,
        form,
        &[
            FieldOut::U16(number),
            FieldOut::LoweredName(first),
            FieldOut::LoweredName(second),
        ],
    )
}
