//! An encoder that takes octets in.
ghost use Rattle.std.specs.Prelude.{◌≡◌, ◌++◌, [], ℕ, List};
ghost use Rattle.dns_wire.specs.SinkViews.{EncodedBy, HasEncoded};
ghost use Rattle.dns_wire.specs.Writing.{Output};

use crate::encoder::BinEncoder;
use crate::sink::OctetSink;

/// Puts octets at an encoder's end until there is no memory for more, and then none of what comes.
#[derive(Drop)]
pub(crate) struct EncoderSink<'a> {
    encoder: &'a mut BinEncoder,
    is_full: bool,
}

impl<'a> EncoderSink<'a> {
    /// At the encoder's end.
    pub(crate) fn new(encoder: &'a mut BinEncoder) -> EncoderSink<'a>
        ensures { HasEncoded result (encoder.entry.ghost_name, encoder.old) [] }
    {
        EncoderSink {
            encoder,
            is_full: false,
        }
    }

    /// Whether there was no memory for all octets.
    pub(crate) fn is_full(&self) -> bool
        ensures { result ≡ self.now.is_full }
    {
        self.is_full
    }
}

impl OctetSink for EncoderSink<'_> {
    ghost use Rattle.std.specs.Prelude.{ℕ, List};
    ghost use Rattle.dns_wire.specs.Writing.{Output};

    ghost Purpose = { ℕ × Output };

    ghost has_taken = { HasEncoded };

    fn take(&mut self, octets: &[u8]) {
        if !self.is_full && self.encoder.emit_vec(octets).is_err() {
            self.is_full = true;
        }
    }
}
