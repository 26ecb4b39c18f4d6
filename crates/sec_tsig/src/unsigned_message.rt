//! Messages without the TSIG record with which they were received.
ghost use Rattle.std.specs.Prelude.{◌≡◌};
ghost use Rattle.dns_message.specs.Views.{IsPlaced};
ghost use Rattle.sec_tsig.specs.Tsig.{message_without_tsig};
ghost use Rattle.sec_tsig.specs.Unsigned.{unsigned_octets};

use dns_message::{Header, TsigView};
use dns_wire::{EmitError, Form, OctetSink, Putting, put_u16};

/// A message as it was before its TSIG record was put after it: under its original ID, and with an additional count of
/// one less (RFC 8945 4.3.2).
#[derive(Clone, Copy)]
pub(crate) struct UnsignedMessage<'a> {
    // the original ID
    id: u16,
    // the flags, and the counts but the last
    flags_and_counts: &'a [u8],
    additionals: u16,
    // what is after the header
    sections: &'a [u8],
}

impl<'a> UnsignedMessage<'a> {
    /// The message in these octets, which has this header and this TSIG record.
    #[tactic(auto, unfolding(crate::specs::Tsig::message_without_tsig))]
    pub(crate) fn of(octets: &'a [u8], header: &Header, tsig: &TsigView<'_>) -> UnsignedMessage<'a>
        requires { IsPlaced octets.now header.now tsig.now }
        ensures { unsigned_octets result
            ≡ message_without_tsig tsig.now.oid header.now.additionals octets.now tsig.now.start }
    {
        UnsignedMessage {
            id: tsig.oid,
            flags_and_counts: &octets[2..10],
            additionals: header.additionals - 1,
            sections: &octets[12..tsig.start],
        }
    }
}

impl Putting for UnsignedMessage<'_> {
    ghost use Rattle.std.specs.Prelude.{Ok};
    ghost use Rattle.sec_tsig.specs.Unsigned.{unsigned_octets};

    ghost written = { λ _ _ message. Ok (unsigned_octets message) };

    fn put<S: OctetSink>(&self, form: Form, sink: &mut S) -> Result<(), EmitError> {
        put_u16(sink, self.id);
        sink.take(self.flags_and_counts);
        put_u16(sink, self.additionals);
        sink.take(self.sections);
        Ok(())
    }
}
