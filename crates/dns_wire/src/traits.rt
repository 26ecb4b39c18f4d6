//! What is written and read as octets.
ghost use Rattle.std.specs.Prelude.{◌≡◌, ◌≤◌, OnErr};
ghost use Rattle.dns_wire.specs.Writing.{Writes};
ghost use Rattle.dns_wire.specs.Reading.{octets, place};

use crate::decoder::BinDecoder;
use crate::encoder::BinEncoder;
use crate::error::{DecodeError, EmitError};
use crate::putting::{Putting, emit_put};
use std::alloc::Global;

/// A value that is written as octets.
pub trait BinEncodable: Putting {
    /// Writes the octets at the encoder's end. A refused call leaves the encoder as it was.
    ///
    /// # Errors
    ///
    /// The cause for which there are no octets, or `OutOfMemory`.
    fn emit(&self, encoder: &mut BinEncoder) -> Result<(), EmitError>
        ensures { Writes result encoder.old encoder.new
            (Self.written encoder.old.canonical_form encoder.old.name_encoding self.now) }
    {
        emit_put(self, encoder)
    }
}

/// A value that is read from octets.
pub trait BinDecodable<'r>: Sized {
    ghost use Rattle.std.specs.Prelude.{Result};
    ghost use Rattle.dns_wire.specs.declared.decoder.BinDecoder.{BinDecoder};
    ghost use Rattle.dns_wire.specs.declared.error.DecodeError.{DecodeError};

    // what a call answered that moved the first decoder to where the second one is
    ghost is_read: { BinDecoder → BinDecoder → Result Self DecodeError → Type 0 };

    /// Reads the value at the decoder's place. A refused call leaves the decoder as it was.
    ///
    /// # Errors
    ///
    /// The first fault, or `OutOfMemory`.
    fn read(alloc: Global, decoder: &mut BinDecoder<'r>) -> Result<Self, DecodeError>
        ensures read { is_read decoder.old decoder.new result }
        ensures octets { octets decoder.new ≡ octets decoder.old }
        ensures forward { place decoder.old ≤ place decoder.new }
        ensures refused { OnErr result (decoder.new ≡ decoder.old) };
}

/// A value that is read from the data of a record.
pub trait RecordDataDecodable<'r>: Sized {
    ghost use Rattle.std.specs.Prelude.{ℕ, Result};
    ghost use Rattle.dns_wire.specs.declared.decoder.BinDecoder.{BinDecoder};
    ghost use Rattle.dns_wire.specs.declared.error.DecodeError.{DecodeError};

    // what a call answered of data of this length, that moved the first decoder to where the second one is
    ghost is_read: { ℕ → BinDecoder → BinDecoder → Result Self DecodeError → Type 0 };

    /// Reads the data of `length` octets at the decoder's place. A refused call leaves the decoder as it was.
    ///
    /// # Errors
    ///
    /// The first fault of the data, or `OutOfMemory`.
    fn read_data(
        alloc: Global,
        decoder: &mut BinDecoder<'r>,
        length: u16,
    ) -> Result<Self, DecodeError>
        ensures read { is_read length decoder.old decoder.new result }
        ensures octets { octets decoder.new ≡ octets decoder.old }
        ensures forward { place decoder.old ≤ place decoder.new }
        ensures refused { OnErr result (decoder.new ≡ decoder.old) };
}
