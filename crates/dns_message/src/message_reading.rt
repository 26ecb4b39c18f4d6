//! How a message is read into memory (RFC 1035 4.1), from left to right and once.
ghost use Rattle.std.specs.Prelude.{◌≡◌, ◌≤◌, true, length, IfOk};
ghost use Rattle.dns_wire.specs.Reading.{GivesUnless};
ghost use Rattle.dns_names.specs.PointerCache.{IsPointerCache};
ghost use Rattle.dns_grammar.specs.Messages.{record_at};
ghost use Rattle.dns_rdata.specs.RDataTable.{rdata_table};
ghost use Rattle.dns_message.specs.OwnedMessages.{held, standing, standing_parts, IsReadMessage, ReadsMessage};
ghost use Rattle.dns_message.specs.MessageReading.{parts_at, unplaced_at, last_view, IsReadLast, ahead_view};
ghost use Rattle.dns_message.specs.MessageReading.{parts_ahead_at};
ghost use Rattle.dns_message.specs.Parts.{message_parts};

use crate::header::Header;
use crate::message::{Message, Places};
use crate::record::Record;
use crate::record_head::RecordHead;
use crate::record_reading::{read_queries, read_records};
use dns_names::with_pointer_cache;
use dns_rdata::RData;
use dns_types::RecordType;
use dns_wire::{BinDecoder, DecodeError};
use sec_codes::Proof;
use sec_sigdata::TSIG;
use std::alloc::Global;

/// The last additional record of a message.
#[derive(Drop)]
pub(crate) enum LastRecord {
    Other(Record<RData>),
    Signature(Record<TSIG>),
}

/// Reads the last additional record, and gives the place behind it.
#[tactic(auto, unfolding(dns_grammar::specs::Messages::record_at))]
fn read_last(
    alloc: Global,
    message: &[u8],
    start: usize,
    cache: &mut [u16],
) -> Result<(LastRecord, usize), DecodeError>
    requires inside { start ≤ length message.now }
    requires cache { IsPointerCache message.now cache.old }
    ensures cache { IsPointerCache message.now cache.new }
    ensures exact { GivesUnless DecodeError.OutOfMemory (λ x. (last_view x.0, x.1)) result
        (unplaced_at (record_at rdata_table true message.now start)) }
    ensures as_read { IfOk result (λ x. IsReadLast x.0) }
{
    let mut reader = BinDecoder::new(message);
    reader.set_index(start);
    let head = RecordHead::read_with(&mut reader, cache)?;
    if head.rtype == RecordType::TSIG {
        let rdata = TSIG::read_with(alloc, &mut reader, head.length, cache)?;
        let rr = Record {
            name: head.name,
            dns_class: head.dns_class,
            ttl: head.ttl,
            rdata,
            proof: Proof::Indeterminate,
        };
        return Ok((LastRecord::Signature(rr), reader.index()));
    }
    let rdata = RData::read_with(alloc, &mut reader, head.rtype, head.length, cache)?;
    let rr = Record {
        name: head.name,
        dns_class: head.dns_class,
        ttl: head.ttl,
        rdata,
        proof: Proof::Indeterminate,
    };
    Ok((LastRecord::Other(rr), reader.index()))
}

/// Reads a message but its last additional record, and says how many additional records there are, and where the last
/// starts.
#[tactic(auto, unfolding(crate::specs::MessageReading::parts_ahead_at))]
fn read_ahead(
    alloc: Global,
    message: &[u8],
    cache: &mut [u16],
) -> Result<((Message, u16), usize), DecodeError>
    requires { IsPointerCache message.now cache.old }
    ensures cache { IsPointerCache message.now cache.new }
    ensures exact { GivesUnless DecodeError.OutOfMemory (λ x. (ahead_view x.0, x.1)) result
        (parts_ahead_at message.now) }
    ensures inside { IfOk result (λ x. x.1 ≤ length message.now) }
    ensures as_read { IfOk result (λ x. IsReadMessage x.0.0) }
{
    if message.len() > 65535 {
        return Err(DecodeError::MessageTooLong);
    }
    let (header, reader) = Header::read(message)?;
    let (queries, end) = read_queries(alloc, message, reader.index(), header.questions, cache)?;
    let (answers, end) = read_records(alloc, message, end, header.answers, cache)?;
    let (authorities, end) = read_records(alloc, message, end, header.authorities, cache)?;
    let others = header.additionals.saturating_sub(1);
    let (additionals, end) = read_records(alloc, message, end, others, cache)?;
    let read = Message {
        id: header.id,
        flags: header.flags,
        queries,
        answers,
        authorities,
        additionals,
        signature: None,
    };
    Ok(((read, header.additionals), end))
}

/// Reads a message, and where its parts stand.
#[tactic(auto, using(crate::proofs::PartSteps::exits))]
fn read_message(
    alloc: Global,
    message: &[u8],
    cache: &mut [u16],
) -> Result<(Message, Places), DecodeError>
    requires { IsPointerCache message.now cache.old }
    ensures exact { GivesUnless DecodeError.OutOfMemory held result (parts_at message.now) }
    ensures as_read { IfOk result (λ x. IsReadMessage x.0) }
{
    let ((mut read, additionals), start) = read_ahead(alloc, message, cache)?;
    if additionals == 0 {
        let places = Places {
            signature: None,
            end: start,
        };
        return Ok((read, places));
    }
    let (last, end) = read_last(alloc, message, start, cache)?;
    match last {
        LastRecord::Other(rr) => {
            read.additionals.push(rr)?;
            let places = Places {
                signature: None,
                end,
            };
            Ok((read, places))
        }
        LastRecord::Signature(rr) => {
            read.signature = Some(rr);
            let places = Places {
                signature: Some(start),
                end,
            };
            Ok((read, places))
        }
    }
}

/// The same with a pointer cache for the message.
fn read_with_cache(alloc: Global, message: &[u8]) -> Result<(Message, Places), DecodeError>
    ensures exact { GivesUnless DecodeError.OutOfMemory held result (parts_at message.now) }
    ensures as_read { IfOk result (λ x. IsReadMessage x.0) }
{
    with_pointer_cache(message, |cache| read_message(alloc, message, cache))
}

impl Message {
    /// Reads the message that stands in these octets (RFC 1035 4.1), and says where its signature starts and where it
    /// ends. Octets behind the message are no fault. Of no record anything is proved.
    ///
    /// # Errors
    ///
    /// `MessageTooLong` for more than 65,535 octets. Then the first field that fails from the left decides:
    /// `InsufficientBytes` where an octet is needed past the end, the faults of names and of record data, and
    /// `TsigNotLast` for a TSIG record that isn't the last additional (RFC 8945 5.1). Or `OutOfMemory`.
    pub fn from_vec_with_places(
        alloc: Global,
        octets: &[u8],
    ) -> Result<(Message, Places), DecodeError>
        ensures read { ReadsMessage held standing octets.now result }
        ensures as_read { IfOk result (λ x. IsReadMessage x.0) }
    {
        read_with_cache(alloc, octets)
    }

    /// Reads the message that stands in these octets (RFC 1035 4.1). Octets behind the message are no fault. Of no
    /// record anything is proved.
    ///
    /// # Errors
    ///
    /// Those of `from_vec_with_places`.
    pub fn from_vec(alloc: Global, octets: &[u8]) -> Result<Message, DecodeError>
        ensures read { ReadsMessage message_parts standing_parts octets.now result }
        ensures as_read { IfOk result IsReadMessage }
    {
        let (message, _places) = Message::from_vec_with_places(alloc, octets)?;
        Ok(message)
    }
}
