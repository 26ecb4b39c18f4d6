//! A message viewed in its own octets: read in one pass, and without memory.
ghost use Rattle.std.specs.Prelude.{◌≡◌, ◌≤◌, false, true, length, IfOk, OnOk};
ghost use Rattle.std.specs.Option.{option_map, ForSome};
ghost use Rattle.dns_wire.specs.Reading.{octets, place, Gives, Reads};
ghost use Rattle.dns_names.specs.PointerCache.{IsPointerCache};
ghost use Rattle.dns_names.specs.Skipping.{without_value};
ghost use Rattle.dns_rdata.specs.RDataTable.{rdata_table};
ghost use Rattle.dns_grammar.specs.Messages.{message_at, queries_at, record_at, records_at};
ghost use Rattle.dns_grammar.specs.RecordData.{rdata_at};
ghost use Rattle.dns_message.specs.Views.{ahead_at, as_signature, header_view, outlined, outline_view, tsig_view};
ghost use Rattle.dns_message.specs.Views.{TsigViewFits, IsPlaced, ViewsMessage};
ghost use Rattle.dns_message.specs.Views.{view_header, view_end, view_tsig};

use crate::header::Header;
use crate::query::skip_query;
use crate::record_head::{RecordHead, skip_head};
use crate::tsig_view::TsigView;
use dns_grammar::data_end;
use dns_names::with_pointer_cache;
use dns_rdata::RData;
use dns_types::RecordType;
use dns_wire::{BinDecoder, DecodeError};
use sec_sigdata::BorrowedTsig;

/// A message in its own octets, its lists left out. A contract sees its parts, by `view_header`, `view_end` and
/// `view_tsig`.
#[derive(Clone, Copy, Debug)]
pub struct MessageView<'a> {
    header: Header,
    end: usize,
    tsig: Option<TsigView<'a>>,
}

/// Skips questions.
#[tactic(auto, using(crate::proofs::Each::skipped_more, crate::proofs::Each::skipped_none))]
fn skip_queries<'a>(
    mut reader: BinDecoder<'a>,
    count: u16,
    cache: &mut [u16],
) -> Result<BinDecoder<'a>, DecodeError>
    requires cache { IsPointerCache (octets reader) cache.old }
    ensures cache { IsPointerCache (octets reader.entry) cache.new }
    ensures exact { Gives (λ read. (tt, place read)) result
        (without_value (queries_at count (octets reader.entry) (place reader.entry))) }
    ensures octets { IfOk result (λ read. octets read ≡ octets reader.entry) }
    ensures forward { IfOk result (λ read. place reader.entry ≤ place read) }
{
    'queries: for _ in 0..count {
        skip_query(&mut reader, cache)?;
    }
    Ok(reader)
}

/// Skips the data of a record.
fn skip_rdata(
    decoder: &mut BinDecoder<'_>,
    rtype: RecordType,
    length: u16,
    cache: &mut [u16],
) -> Result<(), DecodeError>
    requires cache { IsPointerCache (octets decoder.old) cache.old }
    ensures cache { IsPointerCache (octets decoder.old) cache.new }
    ensures exact { Reads (λ x. x) result decoder.old decoder.new
        (without_value (rdata_at rdata_table (octets decoder.old) (place decoder.old) length rtype)) }
{
    RData::check_with(decoder, rtype, length, cache)
}

/// Skips a record that isn't the last additional.
#[tactic(auto, unfolding(dns_grammar::specs::Messages::record_at))]
fn skip_record(decoder: &mut BinDecoder<'_>, cache: &mut [u16]) -> Result<(), DecodeError>
    requires cache { IsPointerCache (octets decoder.old) cache.old }
    ensures cache { IsPointerCache (octets decoder.old) cache.new }
    ensures exact { Reads (λ x. x) result decoder.old decoder.new
        (without_value (record_at rdata_table false (octets decoder.old) (place decoder.old))) }
{
    let mut reader = *decoder;
    let (rtype, length) = skip_head(&mut reader, cache)?;
    if rtype == RecordType::TSIG {
        return Err(DecodeError::TsigNotLast);
    }
    skip_rdata(&mut reader, rtype, length, cache)?;
    *decoder = reader;
    Ok(())
}

/// Skips records none of which is the last additional.
#[tactic(auto, using(crate::proofs::Each::skipped_more, crate::proofs::Each::skipped_none))]
fn skip_records<'a>(
    mut reader: BinDecoder<'a>,
    count: u16,
    cache: &mut [u16],
) -> Result<BinDecoder<'a>, DecodeError>
    requires cache { IsPointerCache (octets reader) cache.old }
    ensures cache { IsPointerCache (octets reader.entry) cache.new }
    ensures exact { Gives (λ read. (tt, place read)) result
        (without_value (records_at rdata_table count (octets reader.entry) (place reader.entry))) }
    ensures octets { IfOk result (λ read. octets read ≡ octets reader.entry) }
    ensures forward { IfOk result (λ read. place reader.entry ≤ place read) }
{
    'records: for _ in 0..count {
        skip_record(&mut reader, cache)?;
    }
    Ok(reader)
}

/// The header of a message, and the place behind its questions and all its records but the last additional.
#[tactic(auto, unfolding(crate::specs::Views::ahead_at))]
fn read_ahead(message: &[u8], cache: &mut [u16]) -> Result<(Header, usize), DecodeError>
    requires { IsPointerCache message.now cache.old }
    ensures exact { Gives (λ x. (header_view x.0, x.1)) result (ahead_at message.now) }
    ensures ahead { IfOk result (λ x. 12 ≤ x.1) }
    ensures inside { IfOk result (λ x. x.1 ≤ length message.now) }
{
    if message.len() > 65535 {
        return Err(DecodeError::MessageTooLong);
    }
    let (header, reader) = Header::read(message)?;
    let reader = skip_queries(reader, header.questions, cache)?;
    let reader = skip_records(reader, header.answers, cache)?;
    let reader = skip_records(reader, header.authorities, cache)?;
    let reader = skip_records(reader, header.additionals.saturating_sub(1), cache)?;
    Ok((header, reader.index()))
}

/// The same with a pointer cache for the message.
fn message_ahead(message: &[u8]) -> Result<(Header, usize), DecodeError>
    ensures exact { Gives (λ x. (header_view x.0, x.1)) result (ahead_at message.now) }
    ensures ahead { IfOk result (λ x. 12 ≤ x.1) }
    ensures inside { IfOk result (λ x. x.1 ≤ length message.now) }
{
    with_pointer_cache(message, |cache| read_ahead(message, cache))
}

/// Reads the last additional record, where that is a transaction signature, or skips it.
#[tactic(auto, unfolding(dns_grammar::specs::Messages::record_at, dns_grammar::specs::RecordData::rdata_at))]
fn read_last<'a>(decoder: &mut BinDecoder<'a>) -> Result<Option<TsigView<'a>>, DecodeError>
    ensures exact { Reads (option_map tsig_view) result decoder.old decoder.new
        (as_signature (record_at rdata_table true (octets decoder.old) (place decoder.old))) }
    ensures start { IfOk result (λ x. ForSome x (λ tsig. (tsig.start ≡ place decoder.old) × TsigViewFits tsig)) }
{
    let mut reader = *decoder;
    let head = RecordHead::read_with(&mut reader, &mut [])?;
    if head.rtype != RecordType::TSIG {
        skip_rdata(&mut reader, head.rtype, head.length, &mut [])?;
        *decoder = reader;
        return Ok(None);
    }
    let end = data_end(&reader, head.length)?;
    // A `match`, since the check has no rule for `?` at a value that holds a name and a reference.
    match BorrowedTsig::read_within(reader, end) {
        Ok(tsig) => {
            reader.set_index(end);
            *decoder = reader;
            Ok(Some(TsigView::of(head.start, head.name, &tsig)))
        }
        Err(fault) => Err(fault),
    }
}

impl<'a> MessageView<'a> {
    /// Reads a message in one pass, without its values.
    #[tactic(auto, using(crate::proofs::OutlineSteps::exits))]
    fn read(octets: &'a [u8]) -> Result<MessageView<'a>, DecodeError>
        ensures exact { Gives outline_view result (outlined (message_at rdata_table octets.now)) }
        ensures placed { IfOk result (λ view. ForSome (view_tsig view) (IsPlaced octets.now (view_header view))) }
        ensures header { OnOk result (12 ≤ length octets.now) }
    {
        let (header, end) = message_ahead(octets)?;
        if header.additionals == 0 {
            return Ok(MessageView {
                header,
                end,
                tsig: None,
            });
        }
        let mut reader = BinDecoder::new(octets);
        reader.set_index(end);
        match read_last(&mut reader) {
            Ok(tsig) => Ok(MessageView {
                header,
                end: reader.index(),
                tsig,
            }),
            Err(fault) => Err(fault),
        }
    }

    /// A view of the message in these octets (RFC 1035 4.1), read in one pass and without memory. Octets behind the
    /// message are no fault.
    ///
    /// # Errors
    ///
    /// `MessageTooLong` for more than 65,535 octets. Then the first field that fails from the left decides:
    /// `InsufficientBytes` where an octet is needed past the end, the faults of names and of record data, and
    /// `TsigNotLast` for a TSIG record that isn't the last additional (RFC 8945 5.1).
    #[tactic(auto, using(crate::proofs::ViewLaws::views))]
    pub fn parse(octets: &'a [u8]) -> Result<MessageView<'a>, DecodeError>
        ensures { ViewsMessage octets.now result }
    {
        MessageView::read(octets)
    }

    /// The header.
    pub fn header(&self) -> Header
        ensures { result ≡ view_header self.now }
    {
        self.header
    }

    /// The place behind the last question or record. Octets from there on are no part of the message.
    pub fn end(&self) -> usize
        ensures { result ≡ view_end self.now }
    {
        self.end
    }

    /// The last additional record, where that is a transaction signature.
    pub fn tsig(&self) -> Option<TsigView<'a>>
        ensures { result ≡ view_tsig self.now }
    {
        match &self.tsig {
            Some(tsig) => Some(tsig.copied()),
            None => None,
        }
    }
}
