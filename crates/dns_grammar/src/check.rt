//! Record data checked in their octets by the fields of their type, without memory.
ghost use Rattle.std.specs.Prelude.{◌≡◌, ℕ, ◌+◌, ◌-◌, ◌≤◌, ◌<◌, List, [], ◌∷◌, length, IfOk, IsOk, OnOk};
ghost use Rattle.dns_wire.specs.Reading.{octets, place, Gives, Reads};
ghost use Rattle.dns_names.specs.PointerCache.{IsPointerCache};
ghost use Rattle.dns_grammar.specs.Fields.{Field, Table, Value, row_of, FieldsAt, fields_at, strings_at};
ghost use Rattle.dns_grammar.specs.RecordData.{one_type_data_at, rdata_at};
ghost use Rattle.dns_grammar.specs.RowReaders.{ChecksRow, ChecksData};
ghost use Rattle.dns_names.specs.Skipping.{without_value};
ghost use Rattle.dns_grammar.specs.FieldKinds.{kind_field, kind_fields};

use crate::span::{data_end, expect_end};
use dns_names::Name;
use dns_types::RecordType;
use dns_wire::{BinDecoder, DecodeError, EmitError};

/// A field whose values are tested.
pub trait TestedField {
    ghost use Rattle.dns_grammar.specs.Fields.{Field};

    /// Its kind, and the fault of a value that it does not allow.
    ghost field: { Self → Field };

    /// Skips the field, which ends at or before `end`.
    ///
    /// # Errors
    ///
    /// `InsufficientBytes` where an octet is needed past the end, and the fault of a value that the field does not
    /// allow. The decoder then stays in place.
    fn skip(&self, decoder: &mut BinDecoder<'_>, end: usize) -> Result<(), DecodeError>
        requires ahead { place decoder.old ≤ end }
        requires inside { end ≤ length (octets decoder.old) }
        ensures exact { Reads (λ x. x) result decoder.old decoder.new
            (without_value (fields_at (field self.now ∷ []) (octets decoder.old) (place decoder.old) end)) }
        ensures inside { place decoder.new ≤ end };
}

/// A field of record data (RFC 1035 3.3).
#[derive(Clone, Copy, Debug)]
pub enum FieldKind<T> {
    /// A number in one octet.
    U8,
    /// A number in two octets.
    U16,
    /// A number in four octets.
    U32,
    /// A time in six octets (RFC 8945 4.2).
    Time,
    /// So many octets.
    Fixed(usize),
    /// Octets behind their count in one octet, and the cause why more than 255 can't be written.
    Counted8(EmitError),
    /// Octets behind their count in two octets, and the cause why more than 65,535 can't be written.
    Counted16(EmitError),
    /// The rest, as strings behind their counts in one octet (RFC 1035 3.3.14).
    Strings,
    /// The rest.
    Octets,
    /// A name that canonical form lowers (RFC 4034 6.2).
    LoweredName,
    /// A name that canonical form keeps.
    KeptName,
    /// A field whose values are tested.
    Tested(T),
}

/// Skips strings, each behind its count in one octet, up to `end`.
#[tactic(auto, using(crate::proofs::CheckLaws::strings_next, crate::proofs::CheckLaws::strings_stop))]
fn skip_strings<'a>(mut reader: BinDecoder<'a>, end: usize) -> Result<BinDecoder<'a>, DecodeError>
    requires ahead { place reader ≤ end }
    requires inside { end ≤ length (octets reader) }
    ensures exact { Gives (λ read. (tt, place read)) result
        (without_value (strings_at (end - place reader.entry) (octets reader.entry) (place reader.entry) end)) }
    ensures octets { IfOk result (λ read. octets read ≡ octets reader.entry) }
    ensures forward { IfOk result (λ read. place reader.entry ≤ place read) }
    ensures inside { IfOk result (λ read. place read ≤ end) }
{
    'strings: while reader.index() < end {
        reader.read_counted8_within(end)?;
    }
    Ok(reader)
}

impl<T: TestedField> FieldKind<T> {
    /// Skips the field, which ends at or before `end`, a name by a pointer cache.
    ///
    /// # Errors
    ///
    /// `InsufficientBytes` where an octet is needed past the end, those of `Name::skip_with` for a name, and the fault
    /// of a value that a tested field does not allow. The decoder then stays in place.
    pub fn skip(
        &self,
        decoder: &mut BinDecoder<'_>,
        end: usize,
        cache: &mut [u16],
    ) -> Result<(), DecodeError>
        requires ahead { place decoder.old ≤ end }
        requires inside { end ≤ length (octets decoder.old) }
        requires cache { IsPointerCache (octets decoder.old) cache.old }
        ensures exact { Reads (λ x. x) result decoder.old decoder.new
            (without_value (fields_at (kind_field T.field self.now ∷ [])
            (octets decoder.old) (place decoder.old) end)) }
        ensures inside { place decoder.new ≤ end }
        ensures cache { IsPointerCache (octets decoder.old) cache.new }
    {
        match self {
            FieldKind::U8 => {
                decoder.read_u8_within(end)?;
            }
            FieldKind::U16 => {
                decoder.read_u16_within(end)?;
            }
            FieldKind::U32 => {
                decoder.read_u32_within(end)?;
            }
            FieldKind::Time => {
                decoder.read_time_within(end)?;
            }
            FieldKind::Fixed(n) => {
                decoder.read_slice_within(*n, end)?;
            }
            FieldKind::Counted8(_) => {
                decoder.read_counted8_within(end)?;
            }
            FieldKind::Counted16(_) => {
                decoder.read_counted16_within(end)?;
            }
            FieldKind::Strings => {
                *decoder = skip_strings(*decoder, end)?;
            }
            FieldKind::Octets => decoder.set_index(end),
            FieldKind::LoweredName | FieldKind::KeptName => Name::skip_with(decoder, end, cache)?,
            FieldKind::Tested(field) => field.skip(decoder, end)?,
        }
        Ok(())
    }
}

/// Skips fields one behind the other, which end at or before `end`.
#[tactic(auto, using(crate::proofs::CheckLaws::fields_next, crate::proofs::CheckLaws::fields_stop))]
fn skip_fields<'a, T: TestedField>(
    mut reader: BinDecoder<'a>,
    end: usize,
    fields: &[FieldKind<T>],
    cache: &mut [u16],
) -> Result<BinDecoder<'a>, DecodeError>
    requires ahead { place reader ≤ end }
    requires inside { end ≤ length (octets reader) }
    requires cache { IsPointerCache (octets reader) cache.old }
    ensures exact { Gives (λ read. (tt, place read)) result
        (without_value (fields_at (kind_fields T.field fields.now) (octets reader.entry) (place reader.entry) end)) }
    ensures octets { IfOk result (λ read. octets read ≡ octets reader.entry) }
    ensures forward { IfOk result (λ read. place reader.entry ≤ place read) }
    ensures inside { IfOk result (λ read. place read ≤ end) }
    ensures cache { IsPointerCache (octets reader.entry) cache.new }
{
    for field in fields {
        field.skip(&mut reader, end, cache)?;
    }
    Ok(reader)
}

/// Goes past fields one behind the other, as the reading function does.
fn pass_fields<T: TestedField>(
    decoder: &mut BinDecoder<'_>,
    end: usize,
    fields: &[FieldKind<T>],
    cache: &mut [u16],
) -> Result<(), DecodeError>
    requires ahead { place decoder.old ≤ end }
    requires inside { end ≤ length (octets decoder.old) }
    requires cache { IsPointerCache (octets decoder.old) cache.old }
    ensures exact { Reads (λ x. x) result decoder.old decoder.new
        (without_value (fields_at (kind_fields T.field fields.now) (octets decoder.old) (place decoder.old) end)) }
    ensures inside { place decoder.new ≤ end }
    ensures cache { IsPointerCache (octets decoder.old) cache.new }
{
    *decoder = skip_fields(*decoder, end, fields, cache)?;
    Ok(())
}

/// Checks fields one behind the other, which end at or before `end`, and goes behind them.
///
/// # Errors
///
/// That of the first field from the left: `InsufficientBytes` where an octet is needed past the end, the fault of a
/// name, or that of a value that its field does not allow. The decoder then stays in place.
pub fn check_fields<T: TestedField>(
    decoder: &mut BinDecoder<'_>,
    end: usize,
    fields: &[FieldKind<T>],
    cache: &mut [u16],
) -> Result<(), DecodeError>
    requires ahead { place decoder.old ≤ end }
    requires inside { end ≤ length (octets decoder.old) }
    requires cache { IsPointerCache (octets decoder.old) cache.old }
    ensures found { OnOk result ((vs : List Value) × FieldsAt (kind_fields T.field fields.now)
        (octets decoder.old) (place decoder.old) end vs (place decoder.new)) }
    ensures only { (vs : List Value) (q : ℕ)
        → FieldsAt (kind_fields T.field fields.now) (octets decoder.old) (place decoder.old) end vs q
        → IsOk result × (place decoder.new ≡ q) }
    ensures exact { Reads (λ x. x) result decoder.old decoder.new
        (without_value (fields_at (kind_fields T.field fields.now) (octets decoder.old) (place decoder.old) end)) }
    ensures inside { place decoder.new ≤ end }
    ensures cache { IsPointerCache (octets decoder.old) cache.new }
{
    pass_fields(decoder, end, fields, cache)
}

/// Goes past the data of one known type, as the reading function does.
#[tactic(auto, unfolding(crate::specs::RecordData::one_type_data_at, crate::specs::RecordData::fields_filling))]
fn pass_row<T: TestedField>(
    decoder: &mut BinDecoder<'_>,
    len: u16,
    fields: &[FieldKind<T>],
    cache: &mut [u16],
) -> Result<(), DecodeError>
    requires cache { IsPointerCache (octets decoder.old) cache.old }
    ensures exact { Reads (λ x. x) result decoder.old decoder.new
        (without_value (one_type_data_at (kind_fields T.field fields.now)
        (octets decoder.old) (place decoder.old) len)) }
    ensures cache { IsPointerCache (octets decoder.old) cache.new }
{
    let start = decoder.index();
    let end = data_end(decoder, len)?;
    let mut reader = *decoder;
    pass_fields(&mut reader, end, fields, cache)?;
    expect_end(&reader, start, end)?;
    *decoder = reader;
    Ok(())
}

/// Checks the data of one known type, `len` octets of them (RFC 1035 3.2.1), and goes behind them.
///
/// # Errors
///
/// `InsufficientBytes` where fewer octets are left, and where `len` is 0. Then the faults of the fields, where an octet
/// past `len` is needed too. At last `IncorrectRDataLengthRead` where octets are left over. The decoder then stays in
/// place.
#[tactic(auto, using(crate::proofs::RowReaderLaws::checks_row))]
pub fn check_row<T: TestedField>(
    decoder: &mut BinDecoder<'_>,
    len: u16,
    fields: &[FieldKind<T>],
    cache: &mut [u16],
) -> Result<(), DecodeError>
    requires cache { IsPointerCache (octets decoder.old) cache.old }
    ensures checks { ChecksRow (kind_fields T.field fields.now) len decoder.old decoder.new result }
    ensures cache { IsPointerCache (octets decoder.old) cache.new }
{
    pass_row(decoder, len, fields, cache)
}

/// Goes past the data of a record of type `rtype`, as the reading function does.
#[tactic(auto, unfolding(crate::specs::RecordData::rdata_at))]
fn pass_rdata<T: TestedField>(
    decoder: &mut BinDecoder<'_>,
    rtype: RecordType,
    len: u16,
    fields: &[FieldKind<T>],
    cache: &mut [u16],
) -> Result<(), DecodeError>
    requires cache { IsPointerCache (octets decoder.old) cache.old }
    ensures exact { (table : Table) → kind_fields T.field fields.now ≡ row_of table rtype
        → Reads (λ x. x) result decoder.old decoder.new
        (without_value (rdata_at table (octets decoder.old) (place decoder.old) len rtype)) }
    ensures cache { IsPointerCache (octets decoder.old) cache.new }
{
    if len == 0 && rtype != RecordType::TSIG {
        return Ok(());
    }
    pass_row(decoder, len, fields, cache)
}

/// Checks the data of a record of type `rtype`, whose fields are these, `len` octets of them, and goes behind them.
///
/// # Errors
///
/// None where `len` is 0, for every type but TSIG. Otherwise those of `check_row`.
pub fn check_rdata<T: TestedField>(
    decoder: &mut BinDecoder<'_>,
    rtype: RecordType,
    len: u16,
    fields: &[FieldKind<T>],
    cache: &mut [u16],
) -> Result<(), DecodeError>
    requires cache { IsPointerCache (octets decoder.old) cache.old }
    ensures checks { (table : Table) → kind_fields T.field fields.now ≡ row_of table rtype
        → ChecksData table rtype len decoder.old decoder.new result }
    ensures cache { IsPointerCache (octets decoder.old) cache.new }
{
    pass_rdata(decoder, rtype, len, fields, cache)
}
