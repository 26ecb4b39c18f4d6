//! Messages that are held in memory (RFC 1035 4.1).
ghost use Rattle.std.specs.Prelude.{◌≡◌};
ghost use Rattle.dns_message.specs.Parts.{has_qr, op_code_of};

use crate::query::Query;
use crate::record::Record;
use dns_rdata::RData;
use sec_sigdata::TSIG;

/// A message: its questions, the records of its three parts, and the transaction signature that is its last additional
/// record. A contract sees its parts, by `message_parts`.
#[derive(Debug, Drop)]
pub struct Message {
    /// The ID.
    pub id: u16,
    /// The flags: the highest bit is QR, the next four are the opcode.
    pub flags: u16,
    /// The questions.
    pub queries: Vec<Query>,
    /// The answers.
    pub answers: Vec<Record<RData>>,
    /// The authority records.
    pub authorities: Vec<Record<RData>>,
    /// The additional records, but for the signature.
    pub additionals: Vec<Record<RData>>,
    /// The transaction signature (RFC 8945), which stands as the last additional record.
    pub signature: Option<Record<TSIG>>,
}

/// Where parts of a message stand in its octets.
#[derive(Clone, Copy, Debug, PartialEq, Eq)]
pub struct Places {
    /// The place where the record of the signature starts.
    pub signature: Option<usize>,
    /// The place behind the last question or record. Octets from there on are no part of the message.
    pub end: usize,
}

impl Message {
    /// Whether the bit QR, the highest of the flags, is set.
    pub fn is_response(&self) -> bool
        ensures { result ≡ has_qr self.now.flags }
    {
        self.flags >= 0x8000
    }

    /// The opcode, the four bits behind QR.
    pub fn op_code(&self) -> u8
        ensures { result ≡ op_code_of self.now.flags }
    {
        (self.flags / 2048 % 16) as u8
    }
}
