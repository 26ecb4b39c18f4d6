//! Values that are put into what takes octets in.
ghost use Rattle.std.specs.Prelude.{◌≡◌, ◌<◌, ◌^◌, ◌++◌, ℕ, List, length, Ok};
ghost use Rattle.dns_wire.specs.Sinks.{Puts};
ghost use Rattle.dns_wire.specs.Growing.{Grows};
ghost use Rattle.dns_wire.specs.Writing.{Writes};
ghost use Rattle.dns_wire.specs.Rooms.{FillsRoom, FillsStart, FitsRoom, IsCountable, Measures};

use crate::counter::Counter;
use crate::encoder::{BinEncoder, NameEncoding};
use crate::encoder_sink::EncoderSink;
use crate::error::EmitError;
use crate::sink::OctetSink;
use crate::slice_writer::SliceWriter;

/// How values are written: whether record data are in canonical form (RFC 4034 6.2), and how other names are written.
#[derive(Clone, Copy, Debug, PartialEq, Eq)]
pub struct Form {
    /// Whether record data are in canonical form.
    pub canonical_form: bool,
    /// How names outside record data are written.
    pub name_encoding: NameEncoding,
}

/// A value that is put into what takes octets in.
pub trait Putting {
    ghost use Rattle.std.specs.Prelude.{Bool, ℕ, List, Result};
    ghost use Rattle.dns_wire.specs.declared.encoder.NameEncoding.{NameEncoding};
    ghost use Rattle.dns_wire.specs.declared.error.EmitError.{EmitError};

    // the octets of the value in canonical form or not, under a name encoding, or the cause for which there are none
    ghost written: { Bool → NameEncoding → Self → Result (List ℕ) EmitError };

    /// Puts the octets. Where there are none, some octets are put, and the sink is of no more use.
    ///
    /// # Errors
    ///
    /// The cause for which there are no octets.
    fn put<S: OctetSink>(&self, form: Form, sink: &mut S) -> Result<(), EmitError>
        ensures { Puts S.has_taken result sink.old sink.new
            (written form.canonical_form form.name_encoding self.now) };
}

/// Puts the octets of a value to the encoder's end, in the encoder's form, up to the first that there was no memory for.
fn append_put<T: Putting>(value: &T, encoder: &mut BinEncoder) -> Result<(), EmitError>
    ensures { Grows result encoder.old encoder.new
        (T.written encoder.old.canonical_form encoder.old.name_encoding value.now) }
{
    let form = Form {
        canonical_form: encoder.is_canonical_form(),
        name_encoding: encoder.name_encoding(),
    };
    let mut sink = EncoderSink::new(encoder);
    let result = value.put(form, &mut sink);
    if sink.is_full() {
        return Err(EmitError::OutOfMemory);
    }
    result
}

/// Puts the octets of a value to the encoder's end, in the encoder's form. A refused call leaves the encoder as it was.
///
/// # Errors
///
/// The cause for which there are no octets, or `OutOfMemory`.
#[tactic(auto, using(crate::proofs::SinkSteps::cut_back))]
pub fn emit_put<T: Putting>(value: &T, encoder: &mut BinEncoder) -> Result<(), EmitError>
    ensures { Writes result encoder.old encoder.new
        (T.written encoder.old.canonical_form encoder.old.name_encoding value.now) }
{
    let start = encoder.len();
    let result = append_put(value, encoder);
    if result.is_err() {
        encoder.truncate(start);
    }
    result
}

/// How many octets a value has, or the cause for which there are none.
pub fn put_len<T: Putting>(value: &T, form: Form) -> Result<usize, EmitError>
    ensures { Measures result (T.written form.canonical_form form.name_encoding value.now) }
{
    let mut counter = Counter::new();
    value.put(form, &mut counter)?;
    Ok(counter.len())
}

/// Puts the octets of a value to the start of a room that has room for them all.
fn fill_start<T: Putting>(value: &T, form: Form, room: &mut [u8]) -> Result<(), EmitError>
    requires fits { FitsRoom (T.written form.canonical_form form.name_encoding value.now) room.old }
    ensures { FillsStart result room.old room.new (T.written form.canonical_form form.name_encoding value.now) }
{
    let mut writer = SliceWriter::new(room);
    value.put(form, &mut writer)
}

/// Puts the octets of a value to the start of the room, where it has room for all, and says how many they are.
///
/// # Errors
///
/// The cause for which there are no octets.
#[tactic(auto, using(crate::proofs::Rooms::filled_up, crate::proofs::Rooms::not_filled))]
pub fn fill_room<T: Putting>(value: &T, form: Form, room: &mut [u8]) -> Result<usize, EmitError>
    requires countable { IsCountable (T.written form.canonical_form form.name_encoding value.now) }
    ensures { FillsRoom result room.old room.new (T.written form.canonical_form form.name_encoding value.now) }
{
    let len = put_len(value, form)?;
    if len > room.len() {
        return Ok(len);
    }
    fill_start(value, form, room)?;
    Ok(len)
}
