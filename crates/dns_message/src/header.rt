//! Headers of messages (RFC 1035 4.1.1).
ghost use Rattle.std.specs.Prelude.{◌≡◌, IfOk};
ghost use Rattle.dns_wire.specs.Reading.{octets, place, Gives};
ghost use Rattle.dns_grammar.specs.Messages.{header_at};
ghost use Rattle.dns_message.specs.Views.{header_view};

use dns_wire::{BinDecoder, DecodeError};

/// The ID of a message, its flags, and how many questions and records it has.
#[derive(Clone, Copy, Debug, PartialEq, Eq)]
pub struct Header {
    /// The ID of the message.
    pub id: u16,
    /// The flags: the highest bit is QR, the next four are the opcode.
    pub flags: u16,
    /// How many questions there are.
    pub questions: u16,
    /// How many answers there are.
    pub answers: u16,
    /// How many authority records there are.
    pub authorities: u16,
    /// How many additional records there are.
    pub additionals: u16,
}

impl Header {
    /// The header of a message, and the decoder behind it.
    ///
    /// # Errors
    ///
    /// `InsufficientBytes` for less than 12 octets.
    #[tactic(auto, unfolding(dns_grammar::specs::Messages::header_at))]
    pub fn read(message: &[u8]) -> Result<(Header, BinDecoder<'_>), DecodeError>
        ensures exact { Gives (λ x. (header_view x.0, place x.1)) result (header_at message.now) }
        ensures octets { IfOk result (λ x. octets x.1 ≡ message.now) }
        ensures place { IfOk result (λ x. place x.1 ≡ 12) }
    {
        let mut reader = BinDecoder::new(message);
        let end = message.len();
        let id = reader.read_u16_within(end)?;
        let flags = reader.read_u16_within(end)?;
        let questions = reader.read_u16_within(end)?;
        let answers = reader.read_u16_within(end)?;
        let authorities = reader.read_u16_within(end)?;
        let additionals = reader.read_u16_within(end)?;
        let header = Header {
            id,
            flags,
            questions,
            answers,
            authorities,
            additionals,
        };
        Ok((header, reader))
    }
}
