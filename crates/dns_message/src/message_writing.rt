//! How messages are written (RFC 1035 4.1).
ghost use Rattle.std.specs.Prelude.{Ok, Err, nat_lt, if◌then◌else◌};
ghost use Rattle.dns_wire.specs.declared.error.EmitError.TheVariants.{CountTooLarge};
ghost use Rattle.dns_wire.specs.Reading.{Gives};

use crate::message::Message;
use dns_grammar::{FieldOut, put_fields};
use dns_wire::{BinEncodable, EmitError, Form, OctetSink, Putting};

/// A count as the header of a message has it.
fn counted(count: usize) -> Result<u16, EmitError>
    ensures { Gives (λ n. n) result (if nat_lt 65535 count then Err CountTooLarge else Ok count) }
{
    match u16::try_from(count) {
        Ok(count) => Ok(count),
        Err(_) => Err(EmitError::CountTooLarge),
    }
}

/// The header of a message, with the counts of its lists (RFC 1035 4.1.1).
#[derive(Clone, Copy)]
struct MessageHeader<'a>(&'a Message);

impl Putting for MessageHeader<'_> {
    ghost use Rattle.dns_grammar.specs.MessageWriting.{header_octets};
    ghost use Rattle.dns_message.specs.Parts.{message_parts, whole};

    ghost written = { λ _ _ header. header_octets (whole (message_parts header.0.now)) };

    #[tactic(auto, using(dns_wire::proofs::PutLaws::took_none))]
    fn put<S: OctetSink>(&self, form: Form, sink: &mut S) -> Result<(), EmitError> {
        let message = self.0;
        let signatures = if message.signature.is_some() { 1 } else { 0 };
        let questions = counted(message.queries.len())?;
        let answers = counted(message.answers.len())?;
        let authorities = counted(message.authorities.len())?;
        let additionals = counted(message.additionals.len().saturating_add(signatures))?;
        put_fields(
            sink,
            form,
            &[
                FieldOut::U16(message.id),
                FieldOut::U16(message.flags),
                FieldOut::U16(questions),
                FieldOut::U16(answers),
                FieldOut::U16(authorities),
                FieldOut::U16(additionals),
            ],
        )
    }
}

impl Putting for Message {
    ghost use Rattle.dns_message.specs.MessageWriting.{written_message};

    ghost written = { written_message };

    /// Puts the message (RFC 1035 4.1), its signature as the last additional record. Owners and questions heed the name
    /// encoding, and record data the canonical form. No name is compressed.
    ///
    /// # Errors
    ///
    /// `CountTooLarge` for more than 65,535 questions or records of one part, the signature counted among the
    /// additionals. Then the cause of the first record that can't be written.
    fn put<S: OctetSink>(&self, form: Form, sink: &mut S) -> Result<(), EmitError> {
        let last = (&self.additionals, &self.signature);
        let records = (&self.answers, (&self.authorities, last));
        (MessageHeader(self), (&self.queries, records)).put(form, sink)
    }
}

impl BinEncodable for Message {}
