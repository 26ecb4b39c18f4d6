//! The data of a record in canonical form (RFC 4034 6.2), copied out of the octets of its message.
ghost use Rattle.std.specs.Prelude.{◌≡◌, ◌≤◌, ◌∷◌, [], length, IfOk, IsOk, OnOk};
ghost use Rattle.dns_wire.specs.Octets.{AreOctets};
ghost use Rattle.dns_wire.specs.Reading.{octets, place, Gives};
ghost use Rattle.dns_names.specs.PointerCache.{IsPointerCache};
ghost use Rattle.dns_names.specs.Skipping.{without_value};
ghost use Rattle.dns_grammar.specs.Fields.{any, canonical_name, fields_at};
ghost use Rattle.dns_grammar.specs.FieldKinds.{kind_field, kind_fields};
ghost use Rattle.dns_grammar.specs.Messages.{head_at};
ghost use Rattle.dns_message.specs.Views.{map_head};
ghost use Rattle.dns_rdata.specs.FieldChecks.{tested_field};
ghost use Rattle.message_walk.specs.Places.{data_at, record_from};
ghost use Rattle.message_walk.specs.Copies.{Fills, NoName, Puts, canonical_from, data_behind, name_kind, put};
ghost use Rattle.message_walk.specs.Copies.{type_and_length};

use crate::data_buffer::DataBuffer;
use crate::data_error::DataError;
use dns_grammar::{FieldKind, data_end};
use dns_message::skip_head;
use dns_names::Name;
use dns_rdata::{FieldCheck, RData, rdata_fields};
use dns_types::RecordType;
use dns_wire::{BinDecoder, DecodeError};

/// Shows the proof that these are octets.
fn are_octets(octets: &[u8])
    ensures { AreOctets octets.now }
{
    let _ = octets.len();
}

/// A name as canonical form has it: lowered, or as it is.
fn canonical(name: &Name, is_lowered: bool) -> Name
    ensures { result ≡ canonical_name is_lowered name.now }
{
    if is_lowered {
        name.to_lowercase()
    } else {
        *name
    }
}

/// Puts the wire form of the name at the decoder's place to the buffer, lowered or as it is, and goes behind the name.
///
/// `DataTooLong` where there is no room for it, or where no name stands there.
fn copy_name(
    decoder: &mut BinDecoder<'_>,
    end: usize,
    is_lowered: bool,
    cache: &mut [u16],
    buffer: &mut DataBuffer,
) -> Result<(), DataError>
    requires ahead { place decoder.old ≤ end }
    requires inside { end ≤ length (octets decoder.old) }
    requires cache { IsPointerCache (octets decoder.old) cache.old }
    ensures exact { Puts result buffer.new
        (put buffer.old (canonical_from (any (name_kind is_lowered) ∷ []) (octets decoder.old) (place decoder.old) end)) }
    ensures moved { OnOk result (without_value
        (fields_at (any (name_kind is_lowered) ∷ []) (octets decoder.old) (place decoder.old) end)
        ≡ Ok (tt, place decoder.new)) }
    ensures octets { octets decoder.new ≡ octets decoder.old }
    ensures inside { place decoder.new ≤ end }
    ensures cache { IsPointerCache (octets decoder.old) cache.new }
{
    match Name::read_with(decoder, end, cache) {
        Ok(name) => buffer.append(canonical(&name, is_lowered).as_wire()),
        Err(_) => Err(DataError::DataTooLong),
    }
}

/// Puts the octets of a field other than a name to the buffer, and goes behind the field.
///
/// `DataTooLong` where there is no room for them, or where no such field stands there.
fn copy_octets(
    decoder: &mut BinDecoder<'_>,
    end: usize,
    field: &FieldKind<FieldCheck>,
    cache: &mut [u16],
    buffer: &mut DataBuffer,
) -> Result<(), DataError>
    requires ahead { place decoder.old ≤ end }
    requires inside { end ≤ length (octets decoder.old) }
    requires cache { IsPointerCache (octets decoder.old) cache.old }
    requires no_name { NoName (kind_field tested_field field.now).kind }
    ensures exact { Puts result buffer.new
        (put buffer.old (canonical_from (kind_field tested_field field.now ∷ [])
        (octets decoder.old) (place decoder.old) end)) }
    ensures moved { OnOk result (without_value
        (fields_at (kind_field tested_field field.now ∷ []) (octets decoder.old) (place decoder.old) end)
        ≡ Ok (tt, place decoder.new)) }
    ensures octets { octets decoder.new ≡ octets decoder.old }
    ensures inside { place decoder.new ≤ end }
    ensures cache { IsPointerCache (octets decoder.old) cache.new }
{
    let octets = decoder.buffer();
    are_octets(octets);
    let start = decoder.index();
    match field.skip(decoder, end, cache) {
        Ok(()) => buffer.append(&octets[start..decoder.index()]),
        Err(_) => Err(DataError::DataTooLong),
    }
}

/// Puts the octets of a field in canonical form to the buffer, and goes behind the field.
///
/// `DataTooLong` where there is no room for them, or where no such field stands there.
fn copy_field(
    decoder: &mut BinDecoder<'_>,
    end: usize,
    field: &FieldKind<FieldCheck>,
    cache: &mut [u16],
    buffer: &mut DataBuffer,
) -> Result<(), DataError>
    requires ahead { place decoder.old ≤ end }
    requires inside { end ≤ length (octets decoder.old) }
    requires cache { IsPointerCache (octets decoder.old) cache.old }
    ensures exact { Puts result buffer.new
        (put buffer.old (canonical_from (kind_field tested_field field.now ∷ [])
        (octets decoder.old) (place decoder.old) end)) }
    ensures moved { OnOk result (without_value
        (fields_at (kind_field tested_field field.now ∷ []) (octets decoder.old) (place decoder.old) end)
        ≡ Ok (tt, place decoder.new)) }
    ensures octets { octets decoder.new ≡ octets decoder.old }
    ensures inside { place decoder.new ≤ end }
    ensures cache { IsPointerCache (octets decoder.old) cache.new }
{
    match field {
        FieldKind::LoweredName => copy_name(decoder, end, true, cache, buffer),
        FieldKind::KeptName => copy_name(decoder, end, false, cache, buffer),
        _ => copy_octets(decoder, end, field, cache, buffer),
    }
}

/// Puts the octets of fields one behind the other, which end at or before `end`, in canonical form to the buffer.
///
/// `DataTooLong` where there is no room for them, or where they don't stand there.
fn copy_fields(
    decoder: &mut BinDecoder<'_>,
    end: usize,
    fields: &[FieldKind<FieldCheck>],
    cache: &mut [u16],
    buffer: &mut DataBuffer,
) -> Result<(), DataError>
    requires ahead { place decoder.old ≤ end }
    requires inside { end ≤ length (octets decoder.old) }
    requires cache { IsPointerCache (octets decoder.old) cache.old }
    requires room { length buffer.old ≤ 65535 }
    ensures exact { Puts result buffer.new
        (put buffer.old (canonical_from (kind_fields tested_field fields.now)
        (octets decoder.old) (place decoder.old) end)) }
    ensures cache { IsPointerCache (octets decoder.old) cache.new }
{
    for field in fields {
        copy_field(decoder, end, field, cache, buffer)?;
    }
    Ok(())
}

/// What stands before the data of the record that starts at `start`: its type and how many octets the data have, and the
/// place behind that.
///
/// The faults of `skip_head`, and `InsufficientBytes` for a place past the end.
#[tactic(auto, using(crate::proofs::RecordSteps::no_head_past))]
fn data_start(
    message: &[u8],
    start: usize,
    cache: &mut [u16],
) -> Result<((RecordType, u16), usize), DecodeError>
    requires cache { IsPointerCache message.now cache.old }
    ensures cache { IsPointerCache message.now cache.new }
    ensures exact { Gives (λ x. x) result (map_head type_and_length (head_at message.now start)) }
    ensures inside { IfOk result (λ x. x.1 ≤ length message.now) }
{
    if start > message.len() {
        return Err(DecodeError::InsufficientBytes);
    }
    let mut reader = BinDecoder::new(message);
    reader.set_index(start);
    let head = skip_head(&mut reader, cache)?;
    Ok((head, reader.index()))
}

/// The place behind the record that starts at `start`, whatever its type.
///
/// The first fault from the left where no record stands there.
fn record_end(message: &[u8], start: usize, cache: &mut [u16]) -> Result<usize, DecodeError>
    requires cache { IsPointerCache message.now cache.old }
    ensures cache { IsPointerCache message.now cache.new }
    ensures exact { Gives (λ end. (tt, end)) result (without_value (record_from message.now start)) }
{
    let ((rtype, length), place) = data_start(message, start, cache)?;
    let mut reader = BinDecoder::new(message);
    reader.set_index(place);
    RData::check_with(&mut reader, rtype, length, cache)?;
    Ok(reader.index())
}

/// Puts the data at the decoder's place, `length` octets of them, to the empty buffer in canonical form.
///
/// `NoRecord` where fewer octets are left, and `DataTooLong` where there is no room, or where no such data stand there.
fn copy_behind(
    decoder: &mut BinDecoder<'_>,
    rtype: RecordType,
    length: u16,
    cache: &mut [u16],
    buffer: &mut DataBuffer,
) -> Result<(), DataError>
    requires cache { IsPointerCache (octets decoder.old) cache.old }
    requires empty { buffer.old ≡ [] }
    ensures cache { IsPointerCache (octets decoder.old) cache.new }
    ensures exact { Puts result buffer.new (data_behind rtype length (octets decoder.old) (place decoder.old)) }
{
    if length == 0 {
        return Ok(());
    }
    match data_end(decoder, length) {
        Ok(end) => copy_fields(decoder, end, rdata_fields(rtype), cache, buffer),
        Err(_) => Err(DataError::NoRecord),
    }
}

/// Puts the data of the record at `start`, where a record stands, to the empty buffer in canonical form.
fn copy_data(
    message: &[u8],
    start: usize,
    cache: &mut [u16],
    buffer: &mut DataBuffer,
) -> Result<(), DataError>
    requires cache { IsPointerCache message.now cache.old }
    requires stands { IsOk (record_from message.now start) }
    requires empty { buffer.old ≡ [] }
    ensures cache { IsPointerCache message.now cache.new }
    ensures exact { Puts result buffer.new (data_at message.now start) }
{
    match data_start(message, start, cache) {
        Ok(((rtype, length), place)) => {
            let mut reader = BinDecoder::new(message);
            reader.set_index(place);
            copy_behind(&mut reader, rtype, length, cache, buffer)
        }
        Err(_) => Err(DataError::NoRecord),
    }
}

/// Puts the data of the record that starts at `start` to the buffer in canonical form, as `canonical_data` does, where
/// a record is known to stand there.
///
/// # Errors
///
/// `DataTooLong` for more than 65,535 octets in this form. The buffer is then empty.
pub fn copy_canonical(
    message: &[u8],
    start: usize,
    cache: &mut [u16],
    buffer: &mut DataBuffer,
) -> Result<(), DataError>
    requires cache { IsPointerCache message.now cache.old }
    requires stands { IsOk (record_from message.now start) }
    ensures cache { IsPointerCache message.now cache.new }
    ensures exact { Fills result buffer.new (data_at message.now start) }
{
    buffer.clear();
    match copy_data(message, start, cache, buffer) {
        Ok(()) => Ok(()),
        Err(cause) => {
            buffer.clear();
            Err(cause)
        }
    }
}

/// Puts the data of the record that starts at `start` to the buffer in canonical form (RFC 4034 6.2), in place of what
/// the buffer held. Any place and any octets may be asked about.
///
/// Pointers that were followed before are known from `cache`, and those that are met are noted there.
///
/// # Errors
///
/// `NoRecord` where no record starts at the place, and then `DataTooLong` for more than 65,535 octets in this form. The
/// buffer is then empty.
pub fn canonical_data(
    message: &[u8],
    start: usize,
    cache: &mut [u16],
    buffer: &mut DataBuffer,
) -> Result<(), DataError>
    requires cache { IsPointerCache message.now cache.old }
    ensures cache { IsPointerCache message.now cache.new }
    ensures exact { Fills result buffer.new (data_at message.now start) }
{
    match record_end(message, start, cache) {
        Ok(_) => copy_canonical(message, start, cache, buffer),
        Err(_) => {
            buffer.clear();
            Err(DataError::NoRecord)
        }
    }
}
