//! The messages that calls are on.
ghost use Rattle.std.specs.Prelude.{◌≡◌, IfOk};
ghost use Rattle.std.specs.Option.{option_copied, option_map};
ghost use Rattle.dns_wire.specs.Reading.{GivesUnless};
ghost use Rattle.dns_message.specs.OwnedMessages.{IsReadMessage, IsReadRecord};
ghost use Rattle.dns_message.specs.Parts.{message_parts, record_view};
ghost use Rattle.sec_sigdata.specs.Signatures.{rrsig_data};
ghost use Rattle.sec_sign.specs.MessageSignatures.{rrsig_in};
ghost use Rattle.dns_rows.specs.declared.refusal.Refusal.TheVariants.{OutOfMemory as no_memory};
ghost use Rattle.dnsrows.specs.Messages.{message_in, octets_of_parts};

use dns_message::{Message, Record};
use dns_rdata::{RData, RecordData};
use dns_rows::Refusal;
use dns_rows::call_texts::written;
use dns_rows::call_words::octets_in;
use sec_sigdata::RRSIG;
use std::alloc::Global;

/// The message whose octets a word writes.
pub(crate) fn message_in(alloc: Global, word: &[u8]) -> Result<Message, Refusal>
    ensures exact { GivesUnless no_memory message_parts result (message_in word.now) }
    ensures as_read { IfOk result IsReadMessage }
{
    let octets = octets_in(alloc, word)?;
    Ok(Message::from_vec(alloc, &octets)?)
}

/// The octets of a message that was read.
#[tactic(auto, using(crate::proofs::MessageOctets::message_by_table))]
pub(crate) fn message_octets(alloc: Global, message: &Message) -> Result<Vec<u8>, Refusal>
    requires { IsReadMessage message.now }
    ensures { GivesUnless no_memory (λ octets. octets.items) result (octets_of_parts (message_parts message.now)) }
{
    Ok(written(alloc, message)?)
}

/// The signature that a record is that was read.
#[tactic(auto, using(crate::proofs::Signatures::exits))]
pub(crate) fn signature_of(rr: &Record<RData>) -> Option<&RRSIG>
    requires { IsReadRecord rr.now }
    ensures { option_map rrsig_data (option_copied result) ≡ rrsig_in (record_view rr.now) }
{
    RRSIG::try_borrow(&rr.rdata)
}
