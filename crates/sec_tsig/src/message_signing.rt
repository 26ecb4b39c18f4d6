//! Signing messages that are held in memory.
ghost use Rattle.std.specs.Prelude.{◌≡◌, false, None};
ghost use Rattle.std.specs.List.{list_any};
ghost use Rattle.dns_wire.specs.declared.encoder.NameEncoding.TheVariants.{Uncompressed};
ghost use Rattle.dns_wire.specs.Reading.{GivesUnless};
ghost use Rattle.dns_message.specs.MessageWriting.{written_message};
ghost use Rattle.sec_tsig.specs.MessageSigning.{is_transfer, should_sign, signed_message};
ghost use Rattle.sec_tsig.specs.Tsig.{tsig_record};

use crate::sign_error::TsigSignError;
use crate::signer::TSigner;
use crate::verifier::TSigVerifier;
use dns_message::{Message, Query, Record};
use dns_types::RecordType;
use dns_wire::{BinEncodable, BinEncoder, EmitError};
use sec_sigdata::TSIG;

/// Whether a question asks for the transfer of a zone.
fn is_transfer(query: &Query) -> bool
    ensures { result ≡ is_transfer query.now }
{
    query.query_type == RecordType::AXFR || query.query_type == RecordType::IXFR
}

/// Whether one of the questions asks for the transfer of a zone.
#[tactic(auto, using(crate::proofs::Transfers::steps))]
fn asks_for_transfer(queries: &[Query]) -> bool
    ensures { result ≡ list_any is_transfer queries.now }
{
    for query in queries {
        if is_transfer(query) {
            return true;
        }
    }
    false
}

impl TSigner {
    /// Whether a message is one that is to be signed: a NOTIFY (RFC 1996) or an UPDATE (RFC 2136), by its opcode, or
    /// one with a question for the transfer of a zone (RFC 5936, RFC 1995).
    pub fn should_sign_message(&self, message: &Message) -> bool
        ensures { result ≡ should_sign message.now }
    {
        let op_code = message.op_code();
        op_code == 4 || op_code == 5 || asks_for_transfer(message.queries.as_slice())
    }

    /// Signs a request that is sent at `current_time`, in seconds from 1970 on (RFC 8945 5.1): the TSIG record for its
    /// octets, and what checks the answers to it. The message has no signature yet.
    ///
    /// # Errors
    ///
    /// `Message` with the cause for which the message can't be written, then `TimeTooLarge` for a time of 2^48 or more.
    /// Or `OutOfMemory`.
    #[tactic(auto, using(crate::proofs::WrittenMessages::written_long))]
    pub fn sign_message(
        &self,
        message: &Message,
        current_time: u64,
    ) -> Result<(Record<TSIG>, TSigVerifier), TsigSignError>
        requires { message.now.signature ≡ None }
        ensures { GivesUnless TsigSignError.OutOfMemory (λ x. (tsig_record x.0, x.1)) result
            (signed_message self.now current_time (written_message false Uncompressed message.now)) }
    {
        let mut encoder = BinEncoder::new(self.alloc());
        match message.emit(&mut encoder) {
            Ok(()) => self.sign_octets(encoder.as_slice(), current_time),
            Err(EmitError::OutOfMemory) => Err(TsigSignError::OutOfMemory),
            Err(cause) => Err(TsigSignError::Message(cause)),
        }
    }
}
