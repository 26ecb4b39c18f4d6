//! The call on messages.
ghost use Rattle.std.specs.Prelude.{◌≡◌, Some};
ghost use Rattle.std.specs.String.{string_bytes};
ghost use Rattle.dns_text.specs.Words.{words};
ghost use Rattle.dns_wire.specs.Reading.{GivesUnless};
ghost use Rattle.dns_message.specs.Views.{query_view};
ghost use Rattle.dns_rows.specs.declared.refusal.Refusal.TheVariants.{OutOfMemory as no_memory};
ghost use Rattle.dnsshow.specs.MessageCalls.{flag_text, flags_text, query_text, after_text, listing};
ghost use Rattle.dnsshow.specs.MessageCalls.{message_answer, message_calls};
ghost use Rattle.dnsshow.specs.ShownMessages.{header_shown, record_shown, signature_shown, query_lines_shown};
ghost use Rattle.dnsshow.specs.ShownMessages.{record_lines_shown, queries_shown, records_shown, additionals_shown};
ghost use Rattle.dnsshow.specs.ShownMessages.{message_shown};

use dns_message::{Message, Query, Record};
use dns_rdata::RData;
use dns_rows::Refusal;
use dns_rows::call_words::octets_in;
use dns_text::one_word;
use dns_types::RecordType;
use sec_sigdata::TSIG;
use std::alloc::Global;
use std::fmt;

/// A word, where its bit is set.
fn flag_text(flags: u16, bit: u16, word: &'static str) -> &'static str
    ensures { result.now ≡ flag_text flags bit word.now }
{
    if flags & bit == 0 { "" } else { word }
}

/// The flags that are set, each after a space.
#[derive(Clone, Copy)]
struct FlagsText(u16);

impl fmt::Display for FlagsText {
    ghost output = { λ text. Some (flags_text text.0) };

    #[tactic(auto, unfolding(crate::specs::MessageCalls::flags_text))]
    fn fmt<W: fmt::Write>(&self, f: &mut fmt::Formatter<W>) -> fmt::Result {
        let flags = self.0;
        write!(
            f,
            "{}{}{}{}{}{}{}",
            flag_text(flags, 0x8000, " qr"),
            flag_text(flags, 0x0400, " aa"),
            flag_text(flags, 0x0200, " tc"),
            flag_text(flags, 0x0100, " rd"),
            flag_text(flags, 0x0080, " ra"),
            flag_text(flags, 0x0020, " ad"),
            flag_text(flags, 0x0010, " cd"),
        )
    }
}

/// The ID and the flags of a message.
#[derive(Clone, Copy)]
struct HeaderText<'a>(&'a Message);

impl fmt::Display for HeaderText<'_> {
    ghost output = { λ text. Some (header_shown text.0.now) };

    fn fmt<W: fmt::Write>(&self, f: &mut fmt::Formatter<W>) -> fmt::Result {
        let message = self.0;
        write!(
            f,
            ";; id {} opcode {} rcode {} flags{}",
            message.id,
            message.op_code(),
            message.flags % 16,
            FlagsText(message.flags),
        )
    }
}

/// A question.
#[derive(Clone, Copy)]
struct QueryText<'a>(&'a Query);

impl fmt::Display for QueryText<'_> {
    ghost output = { λ text. Some (query_text (query_view text.0.now)) };

    fn fmt<W: fmt::Write>(&self, f: &mut fmt::Formatter<W>) -> fmt::Result {
        let query = self.0;
        write!(
            f,
            "{} {} {}",
            query.name, query.query_class, query.query_type
        )
    }
}

/// A record.
#[derive(Clone, Copy)]
struct RecordText<'a>(&'a Record<RData>);

impl fmt::Display for RecordText<'_> {
    ghost output = { λ text. Some (record_shown text.0.now) };

    fn fmt<W: fmt::Write>(&self, f: &mut fmt::Formatter<W>) -> fmt::Result {
        let rr = self.0;
        let rtype = rr.record_type();
        write!(
            f,
            "{} {} {} {rtype} {}",
            rr.name, rr.ttl, rr.dns_class, rr.rdata
        )
    }
}

/// A transaction signature.
#[derive(Clone, Copy)]
struct SignatureText<'a>(&'a Record<TSIG>);

impl fmt::Display for SignatureText<'_> {
    ghost output = { λ text. Some (signature_shown text.0.now) };

    fn fmt<W: fmt::Write>(&self, f: &mut fmt::Formatter<W>) -> fmt::Result {
        let rr = self.0;
        write!(
            f,
            "{} {} {} {} {}",
            rr.name,
            rr.ttl,
            rr.dns_class,
            RecordType::TSIG,
            rr.rdata
        )
    }
}

/// Questions, each after a line feed.
#[derive(Clone, Copy)]
struct QueryLines<'a>(&'a [Query]);

impl fmt::Display for QueryLines<'_> {
    ghost output = { λ text. Some (query_lines_shown text.0.now) };

    fn fmt<W: fmt::Write>(&self, f: &mut fmt::Formatter<W>) -> fmt::Result {
        let queries = self.0;
        for query in queries {
            write!(f, "\n{}", QueryText(query))?;
        }
        Ok(())
    }
}

/// Records, each after a line feed.
#[derive(Clone, Copy)]
struct RecordLines<'a>(&'a [Record<RData>]);

impl fmt::Display for RecordLines<'_> {
    ghost output = { λ text. Some (record_lines_shown text.0.now) };

    fn fmt<W: fmt::Write>(&self, f: &mut fmt::Formatter<W>) -> fmt::Result {
        let records = self.0;
        for rr in records {
            write!(f, "\n{}", RecordText(rr))?;
        }
        Ok(())
    }
}

/// The section of the questions, and nothing where there are none.
#[derive(Clone, Copy)]
struct QuerySection<'a>(&'a [Query]);

impl fmt::Display for QuerySection<'_> {
    ghost output = { λ text. Some (queries_shown text.0.now) };

    #[tactic(auto, unfolding(crate::specs::ShownMessages::queries_shown))]
    fn fmt<W: fmt::Write>(&self, f: &mut fmt::Formatter<W>) -> fmt::Result {
        let queries = self.0;
        if queries.is_empty() {
            return Ok(());
        }
        write!(f, "\n;; QUESTION{}", QueryLines(queries))
    }
}

/// A section of records, and nothing where there are none.
#[derive(Clone, Copy)]
struct RecordSection<'a> {
    title: &'static str,
    records: &'a [Record<RData>],
}

impl fmt::Display for RecordSection<'_> {
    ghost output = { λ text. Some (records_shown text.title.now text.records.now) };

    #[tactic(auto, unfolding(crate::specs::ShownMessages::records_shown))]
    fn fmt<W: fmt::Write>(&self, f: &mut fmt::Formatter<W>) -> fmt::Result {
        let records = self.records;
        if records.is_empty() {
            return Ok(());
        }
        write!(f, "\n;; {}{}", self.title, RecordLines(records))
    }
}

/// The section of the additional records, whose last is the transaction signature.
#[derive(Clone, Copy)]
struct AdditionalSection<'a>(&'a Message);

impl fmt::Display for AdditionalSection<'_> {
    ghost output = { λ text. Some (additionals_shown text.0.now.additionals.items text.0.now.signature) };

    #[tactic(auto, unfolding(crate::specs::ShownMessages::additionals_shown))]
    fn fmt<W: fmt::Write>(&self, f: &mut fmt::Formatter<W>) -> fmt::Result {
        let records = &self.0.additionals;
        match &self.0.signature {
            Some(rr) => write!(
                f,
                "\n;; ADDITIONAL{}\n{}",
                RecordLines(records),
                SignatureText(rr),
            ),
            None => write!(
                f,
                "{}",
                RecordSection {
                    title: "ADDITIONAL",
                    records,
                },
            ),
        }
    }
}

/// A message by its sections.
#[derive(Clone, Copy)]
struct MessageText<'a>(&'a Message);

impl fmt::Display for MessageText<'_> {
    ghost output = { λ text. Some (message_shown text.0.now) };

    #[tactic(auto, unfolding(crate::specs::ShownMessages::message_shown))]
    fn fmt<W: fmt::Write>(&self, f: &mut fmt::Formatter<W>) -> fmt::Result {
        let message = self.0;
        let answers = RecordSection {
            title: "ANSWER",
            records: &message.answers,
        };
        let authorities = RecordSection {
            title: "AUTHORITY",
            records: &message.authorities,
        };
        write!(
            f,
            "{}{}{answers}{authorities}{}",
            HeaderText(message),
            QuerySection(&message.queries),
            AdditionalSection(message),
        )
    }
}

/// How many octets stand after a message.
#[derive(Clone, Copy)]
struct AfterText(usize);

impl fmt::Display for AfterText {
    ghost output = { λ text. Some (after_text text.0) };

    fn fmt<W: fmt::Write>(&self, f: &mut fmt::Formatter<W>) -> fmt::Result {
        let count = self.0;
        if count == 0 {
            return Ok(());
        }
        write!(f, "\n;; {count} octets after the message")
    }
}

/// The listing of the message that stands in octets.
#[tactic(auto, using(crate::proofs::Listings::listed, crate::proofs::Listings::not_listed))]
fn listing(alloc: Global, octets: &[u8]) -> Result<String, Refusal>
    ensures { GivesUnless no_memory (λ text. string_bytes text) result (listing octets.now) }
{
    let (message, places) = Message::from_vec_with_places(alloc, octets)?;
    let after = AfterText(octets.len().saturating_sub(places.end));
    Ok(format!(in alloc; "{}{after}", MessageText(&message))?)
}

/// `message HEX`: the listing of a message.
fn message(alloc: Global, rest: &[u8]) -> Result<String, Refusal>
    ensures { GivesUnless no_memory (λ text. string_bytes text) result (message_answer (words rest.now)) }
{
    let word = one_word(rest).ok_or(Refusal::NoCall)?;
    let octets = octets_in(alloc, word)?;
    listing(alloc, &octets)
}

/// What the call of this word answers.
pub(crate) fn answer(alloc: Global, word: &[u8], rest: &[u8]) -> Result<String, Refusal>
    ensures { GivesUnless no_memory (λ text. string_bytes text) result (message_calls word.now (words rest.now)) }
{
    if word == b"message".as_slice() {
        message(alloc, rest)
    } else {
        Err(Refusal::NoCall)
    }
}
