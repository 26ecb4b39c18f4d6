//! The one writer of record data: fields, one behind the other.
ghost use Rattle.dns_wire.specs.declared.error.EmitError.TheVariants.{StringTooLong};
ghost use Rattle.dns_wire.specs.Sinks.{Puts};
ghost use Rattle.dns_grammar.specs.Fields.{One, Two, counted_octets, strings_octets};
ghost use Rattle.dns_grammar.specs.FieldsOut.{fields_out_octets};

use dns_names::Name;
use dns_wire::{
    EmitError, Form, OctetSink, Octets, Putting, put_u8, put_u16, put_u32, time_octets,
};

/// A field of record data that is to be written (RFC 1035 3.3).
#[derive(Clone, Copy, Debug)]
pub enum FieldOut<'a> {
    /// A number in one octet.
    U8(u8),
    /// A number in two octets.
    U16(u16),
    /// A number in four octets.
    U32(u32),
    /// A time in six octets (RFC 8945 4.2), below 2^48.
    Time(u64),
    /// Octets as they are.
    Octets(&'a [u8]),
    /// Octets behind their count in one octet, and the cause where there are more than 255.
    Counted8(&'a [u8], EmitError),
    /// Octets behind their count in two octets, and the cause where there are more than 65,535.
    Counted16(&'a [u8], EmitError),
    /// Strings, each behind its count in one octet (RFC 1035 3.3.14); `StringTooLong` where one has more than 255
    /// octets.
    Strings(&'a [Octets]),
    /// A name that canonical form lowers (RFC 4034 6.2).
    LoweredName(&'a Name),
    /// A name that canonical form keeps.
    KeptName(&'a Name),
}

/// Names heed the canonical form and no name encoding.
impl Putting for FieldOut<'_> {
    ghost use Rattle.dns_grammar.specs.FieldsOut.{field_out_octets};

    ghost written = { λ is_canonical _ field. field_out_octets is_canonical field };

    #[tactic(auto, using(dns_wire::proofs::PutLaws::took_none))]
    fn put<S: OctetSink>(&self, form: Form, sink: &mut S) -> Result<(), EmitError> {
        match *self {
            FieldOut::U8(n) => {
                put_u8(sink, n);
                Ok(())
            }
            FieldOut::U16(n) => {
                put_u16(sink, n);
                Ok(())
            }
            FieldOut::U32(n) => {
                put_u32(sink, n);
                Ok(())
            }
            FieldOut::Time(time) => {
                if time >= 1 << 48 {
                    return Err(EmitError::TimeTooLarge);
                }
                sink.take(&time_octets(time));
                Ok(())
            }
            FieldOut::Octets(octets) => {
                sink.take(octets);
                Ok(())
            }
            FieldOut::Counted8(octets, too_long) => put_counted8(sink, octets, too_long),
            FieldOut::Counted16(octets, too_long) => put_counted16(sink, octets, too_long),
            FieldOut::Strings(strings) => put_strings(sink, strings),
            FieldOut::LoweredName(name) => {
                if form.canonical_form {
                    sink.take(name.to_lowercase().as_wire());
                } else {
                    sink.take(name.as_wire());
                }
                Ok(())
            }
            FieldOut::KeptName(name) => {
                sink.take(name.as_wire());
                Ok(())
            }
        }
    }
}

/// Puts octets behind their count in one octet.
#[tactic(auto, using(dns_wire::proofs::PutLaws::took_none))]
fn put_counted8<S: OctetSink>(
    sink: &mut S,
    octets: &[u8],
    too_long: EmitError,
) -> Result<(), EmitError>
    ensures { Puts S.has_taken result sink.old sink.new (counted_octets One too_long octets.now) }
{
    match u8::try_from(octets.len()) {
        Ok(count) => {
            sink.take(&count.to_be_bytes());
            sink.take(octets);
            Ok(())
        }
        Err(_) => Err(too_long),
    }
}

/// Puts octets behind their count in two octets.
#[tactic(auto, using(dns_wire::proofs::PutLaws::took_none))]
fn put_counted16<S: OctetSink>(
    sink: &mut S,
    octets: &[u8],
    too_long: EmitError,
) -> Result<(), EmitError>
    ensures { Puts S.has_taken result sink.old sink.new (counted_octets Two too_long octets.now) }
{
    match u16::try_from(octets.len()) {
        Ok(count) => {
            sink.take(&count.to_be_bytes());
            sink.take(octets);
            Ok(())
        }
        Err(_) => Err(too_long),
    }
}

/// Puts a string behind its count in one octet.
fn put_string<S: OctetSink>(sink: &mut S, string: &Octets) -> Result<(), EmitError>
    ensures { Puts S.has_taken result sink.old sink.new (counted_octets One StringTooLong string.now) }
{
    put_counted8(sink, string.as_slice(), EmitError::StringTooLong)
}

/// Puts the strings, up to the first that can't be written.
fn put_strings<S: OctetSink>(sink: &mut S, strings: &[Octets]) -> Result<(), EmitError>
    ensures { Puts S.has_taken result sink.old sink.new (strings_octets strings.now) }
{
    for string in strings {
        put_string(sink, string)?;
    }
    Ok(())
}

/// Puts the fields, one behind the other, up to the first that can't be written.
///
/// # Errors
///
/// That of the first field that can't be written: a time of 2^48 or more is `TimeTooLarge`, a string above 255 octets is
/// `StringTooLong`, and counted octets name their own.
pub fn put_fields<S: OctetSink>(
    sink: &mut S,
    form: Form,
    fields: &[FieldOut<'_>],
) -> Result<(), EmitError>
    ensures { Puts S.has_taken result sink.old sink.new (fields_out_octets form.canonical_form fields.now) }
{
    fields.put(form, sink)
}
