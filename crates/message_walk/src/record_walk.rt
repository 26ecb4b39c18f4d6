//! The records of a message one behind the other, in its octets.
ghost use Rattle.std.specs.Prelude.{◌≡◌, ◌+◌, ◌≤◌, ◌∷◌, [], length, Ok, IfOk, IfSome, IsOk, OnOk, MatchOption, Some};
ghost use Rattle.dns_wire.specs.Reading.{octets, place, Gives};
ghost use Rattle.dns_names.specs.PointerCache.{IsPointerCache};
ghost use Rattle.dns_names.specs.Skipping.{without_value};
ghost use Rattle.dns_grammar.specs.Messages.{queries_at};
ghost use Rattle.dns_message.specs.Views.{header_view};
ghost use Rattle.message_walk.specs.Places.{places_at, record_end, record_from};
ghost use Rattle.message_walk.specs.Walks.{Walk, is_message, read_place, records_start};

use crate::record_place::RecordPlace;
use dns_message::{Header, MessageView, Section, skip_head, skip_query};
use dns_names::with_pointer_cache;
use dns_wire::{BinDecoder, DecodeError};
use std::marker::Model;

/// A walk over the records of a message, in the order in which they stand. A contract sees the octets of the message,
/// and where the records stand that are left.
#[derive(Debug, Drop)]
pub struct RecordWalk<'a> {
    reader: BinDecoder<'a>,
    answers: u16,
    authorities: u16,
    additionals: u16,
}

impl<'a> Model for RecordWalk<'a> {
    ghost use Rattle.dns_wire.specs.Reading.{octets, place};
    ghost use Rattle.message_walk.specs.Walks.{Walk, LeftStand, left_places};

    ghost Value = { Walk };

    ghost view = { λ s. record {
      message = octets s.reader;
      left = left_places (octets s.reader) (place s.reader) s.answers s.authorities s.additionals;
    } };

    ghost invariant = { λ s.
        LeftStand (octets s.reader) (place s.reader) s.answers s.authorities s.additionals };
}

/// Whether a message stands in the octets.
///
/// The faults of `MessageView::parse`.
fn check_message(message: &[u8]) -> Result<(), DecodeError>
    ensures exact { Gives (λ x. x) result (is_message message.now) }
    ensures short { OnOk result (length message.now ≤ 65535) }
{
    match MessageView::parse(message) {
        Ok(_) => Ok(()),
        Err(fault) => Err(fault),
    }
}

/// Skips questions.
#[tactic(auto, using(dns_message::proofs::Each::skipped_more, dns_message::proofs::Each::skipped_none))]
fn skip_queries<'a>(
    mut reader: BinDecoder<'a>,
    count: u16,
    cache: &mut [u16],
) -> Result<BinDecoder<'a>, DecodeError>
    requires cache { IsPointerCache (octets reader) cache.old }
    ensures cache { IsPointerCache (octets reader.entry) cache.new }
    ensures exact { Gives (λ read. (tt, place read)) result
        (without_value (queries_at count (octets reader.entry) (place reader.entry))) }
    ensures octets { IfOk result (λ read. octets read ≡ octets reader.entry) }
{
    'queries: for _ in 0..count {
        skip_query(&mut reader, cache)?;
    }
    Ok(reader)
}

/// The header of a message, and the place behind its questions.
#[tactic(auto, unfolding(crate::specs::Walks::records_start))]
fn read_start(message: &[u8], cache: &mut [u16]) -> Result<(Header, usize), DecodeError>
    requires { IsPointerCache message.now cache.old }
    ensures exact { Gives (λ x. (header_view x.0, x.1)) result (records_start message.now) }
    ensures inside { IfOk result (λ x. x.1 ≤ length message.now) }
{
    let (header, reader) = Header::read(message)?;
    let reader = skip_queries(reader, header.questions, cache)?;
    Ok((header, reader.index()))
}

/// The same with a pointer cache for the message.
fn start_of_records(message: &[u8]) -> Result<(Header, usize), DecodeError>
    ensures exact { Gives (λ x. (header_view x.0, x.1)) result (records_start message.now) }
    ensures inside { IfOk result (λ x. x.1 ≤ length message.now) }
{
    with_pointer_cache(message, |cache| read_start(message, cache))
}

/// Where the record stands that starts at the decoder's place, and goes behind it.
fn step(decoder: &mut BinDecoder<'_>, section: Section, cache: &mut [u16]) -> Option<RecordPlace>
    requires cache { IsPointerCache (octets decoder.old) cache.old }
    requires stands { IsOk (record_from (octets decoder.old) (place decoder.old)) }
    ensures cache { IsPointerCache (octets decoder.old) cache.new }
    ensures stands { IfSome result (λ found. IsOk (record_from (octets decoder.old) found.start)) }
    ensures inside { IfSome result (λ found. found.start + found.length ≤ length (octets decoder.old)) }
    ensures found { result
        ≡ Some (read_place section (place decoder.old) (record_from (octets decoder.old) (place decoder.old))) }
    ensures octets { octets decoder.new ≡ octets decoder.old }
    ensures place { place decoder.new ≡ record_end (octets decoder.old) (place decoder.old) }
{
    let start = decoder.index();
    match skip_head(decoder, cache) {
        Ok((rtype, length)) => {
            let end = decoder.index() + length as usize;
            decoder.set_index(end);
            Some(RecordPlace {
                start,
                length: end - start,
                section,
                rtype,
            })
        }
        Err(_) => None,
    }
}

impl<'a> RecordWalk<'a> {
    /// A walk over all records of the message in these octets.
    ///
    /// # Errors
    ///
    /// Those of `MessageView::parse`, where no message stands in the octets.
    pub fn new(message: &'a [u8]) -> Result<RecordWalk<'a>, DecodeError>
        ensures exact { Gives (λ walk. walk.left) result (places_at message.now) }
        ensures message { IfOk result (λ walk. walk.message ≡ message.now) }
        ensures short { OnOk result (length message.now ≤ 65535) }
    {
        check_message(message)?;
        let (header, start) = start_of_records(message)?;
        let mut reader = BinDecoder::new(message);
        reader.set_index(start);
        Ok(RecordWalk {
            reader,
            answers: header.answers,
            authorities: header.authorities,
            additionals: header.additionals,
        })
    }

    /// How many records are left.
    #[tactic(auto, using(crate::proofs::WalkSteps::left_length))]
    pub fn len(&self) -> usize
        ensures { result ≡ length self.now.left }
    {
        usize::from(self.answers) + usize::from(self.authorities) + usize::from(self.additionals)
    }

    /// The same walk once more, over the records that are left.
    pub fn copied(&self) -> RecordWalk<'a>
        ensures { result ≡ self.now }
    {
        RecordWalk {
            reader: self.reader,
            answers: self.answers,
            authorities: self.authorities,
            additionals: self.additionals,
        }
    }

    /// Where the next record stands; none where none is left. Its owner is skipped by a pointer cache.
    pub fn next(&mut self, cache: &mut [u16]) -> Option<RecordPlace>
        requires cache { IsPointerCache self.old.message cache.old }
        ensures cache { IsPointerCache self.old.message cache.new }
        ensures message { self.new.message ≡ self.old.message }
        ensures next { MatchOption result ((self.old.left ≡ []) × (self.new.left ≡ []))
            (λ place. self.old.left ≡ place ∷ self.new.left) }
        ensures stands { IfSome result (λ place. IsOk (record_from self.old.message place.start)) }
        ensures inside { IfSome result (λ place. place.start + place.length ≤ length self.old.message) }
    {
        if self.answers > 0 {
            self.answers -= 1;
            return step(&mut self.reader, Section::Answer, cache);
        }
        if self.authorities > 0 {
            self.authorities -= 1;
            return step(&mut self.reader, Section::Authority, cache);
        }
        if self.additionals > 0 {
            self.additionals -= 1;
            return step(&mut self.reader, Section::Additional, cache);
        }
        None
    }
}
