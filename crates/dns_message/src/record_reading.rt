//! How questions and records are read into memory (RFC 1035 4.1).
ghost use Rattle.std.specs.Prelude.{◌≡◌, ◌≤◌, false, map, length, IfOk};
ghost use Rattle.std.specs.List.{AllByRecursion};
ghost use Rattle.dns_wire.specs.Reading.{octets, place, GivesUnless, ReadsUnless};
ghost use Rattle.dns_names.specs.PointerCache.{IsPointerCache};
ghost use Rattle.dns_grammar.specs.Messages.{queries_at, record_at};
ghost use Rattle.dns_rdata.specs.RDataTable.{rdata_table};
ghost use Rattle.dns_message.specs.MessageReading.{unplaced_at, others_at};
ghost use Rattle.dns_message.specs.OwnedMessages.{IsReadRecord};
ghost use Rattle.dns_message.specs.Parts.{record_view};
ghost use Rattle.dns_message.specs.Views.{query_view};

use crate::query::Query;
use crate::record::Record;
use crate::record_head::RecordHead;
use dns_rdata::RData;
use dns_types::RecordType;
use dns_wire::{BinDecoder, DecodeError};
use sec_codes::Proof;
use std::alloc::Global;

/// Reads a record that isn't the last additional.
#[tactic(auto, unfolding(dns_grammar::specs::Messages::record_at))]
fn read_record(
    alloc: Global,
    decoder: &mut BinDecoder<'_>,
    cache: &mut [u16],
) -> Result<Record<RData>, DecodeError>
    requires cache { IsPointerCache (octets decoder.old) cache.old }
    ensures cache { IsPointerCache (octets decoder.old) cache.new }
    ensures exact { ReadsUnless record_view result decoder.old decoder.new
        (unplaced_at (record_at rdata_table false (octets decoder.old) (place decoder.old))) }
    ensures as_read { IfOk result IsReadRecord }
{
    let mut reader = *decoder;
    let head = RecordHead::read_with(&mut reader, cache)?;
    if head.rtype == RecordType::TSIG {
        return Err(DecodeError::TsigNotLast);
    }
    let rdata = RData::read_with(alloc, &mut reader, head.rtype, head.length, cache)?;
    *decoder = reader;
    Ok(Record {
        name: head.name,
        dns_class: head.dns_class,
        ttl: head.ttl,
        rdata,
        proof: Proof::Indeterminate,
    })
}

/// Reads so many questions from a place of a message on, and gives the place behind them.
#[tactic(auto, using(crate::proofs::ValuesRead::next_read, crate::proofs::ValuesRead::all_read))]
pub(crate) fn read_queries(
    alloc: Global,
    message: &[u8],
    start: usize,
    count: u16,
    cache: &mut [u16],
) -> Result<(Vec<Query>, usize), DecodeError>
    requires inside { start ≤ length message.now }
    requires cache { IsPointerCache message.now cache.old }
    ensures cache { IsPointerCache message.now cache.new }
    ensures exact { GivesUnless DecodeError.OutOfMemory (λ x. (map query_view x.0.items, x.1)) result
        (queries_at count message.now start) }
    ensures inside { IfOk result (λ x. x.1 ≤ length message.now) }
{
    let mut reader = BinDecoder::new(message);
    reader.set_index(start);
    let mut queries = Vec::new(alloc);
    'queries: for _ in 0..count {
        let query = Query::read_with(&mut reader, cache)?;
        queries.push(query)?;
    }
    Ok((queries, reader.index()))
}

/// Reads so many records from a place of a message on, none of which is the last additional, and gives the place behind
/// them.
#[tactic(auto, using(crate::proofs::ValuesRead::next_read, crate::proofs::ValuesRead::all_read))]
pub(crate) fn read_records(
    alloc: Global,
    message: &[u8],
    start: usize,
    count: u16,
    cache: &mut [u16],
) -> Result<(Vec<Record<RData>>, usize), DecodeError>
    requires inside { start ≤ length message.now }
    requires cache { IsPointerCache message.now cache.old }
    ensures cache { IsPointerCache message.now cache.new }
    ensures exact { GivesUnless DecodeError.OutOfMemory (λ x. (map record_view x.0.items, x.1)) result
        (others_at count message.now start) }
    ensures inside { IfOk result (λ x. x.1 ≤ length message.now) }
    ensures as_read { IfOk result (λ x. AllByRecursion IsReadRecord x.0.items) }
{
    let mut reader = BinDecoder::new(message);
    reader.set_index(start);
    let mut records = Vec::new(alloc);
    'records: for _ in 0..count {
        let record = read_record(alloc, &mut reader, cache)?;
        records.push(record)?;
    }
    Ok((records, reader.index()))
}
