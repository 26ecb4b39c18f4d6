//! The calls on whole messages, and on the octets that their signatures cover.
ghost use Rattle.std.specs.Prelude.{◌≡◌, ◌++◌, Ok, IfOk, OnOk, map};
ghost use Rattle.std.specs.List.{AllByRecursion};
ghost use Rattle.std.specs.String.{string_bytes};
ghost use Rattle.dns_text.specs.Words.{words};
ghost use Rattle.dns_wire.specs.Reading.{GivesUnless};
ghost use Rattle.dns_grammar.specs.Messages.{message_at};
ghost use Rattle.dns_rdata.specs.RDataTable.{rdata_table};
ghost use Rattle.dns_message.specs.declared.section.Section.TheVariants as sections;
ghost use Rattle.dns_message.specs.OwnedMessages.{IsReadRecord};
ghost use Rattle.dns_message.specs.Parts.{record_view};
ghost use Rattle.sec_sigdata.specs.Signatures.{rrsig_data};
ghost use Rattle.rrsig_input.specs.SignedSets.{signed_input};
ghost use Rattle.dns_rows.specs.declared.refusal.Refusal.TheVariants.{OutOfMemory as no_memory};
ghost use Rattle.dns_rows.specs.Refusals.{input_refusal, with_refusal};
ghost use Rattle.dnsrows.specs.Messages.{AreAnswersOf};
ghost use Rattle.dnsrows.specs.Covering.{covered_words, signature_line, covered_among, covered_line, covered_lines};
ghost use Rattle.dnsrows.specs.Covering.{covered_from, placed_line, placed_lines, written_answer};
ghost use Rattle.dnsrows.specs.Covering.{covered_answer, placed_answer, covering_calls};

use crate::messages::{message_in, message_octets, signature_of};
use crate::pairs;
use dns_message::{Message, Record, Section};
use dns_names::Name;
use dns_rdata::RData;
use dns_rows::call_texts::separated;
use dns_rows::call_words::octets_in;
use dns_rows::{HexWord, Refusal, answer_text};
use dns_text::one_word;
use dns_types::DNSClass;
use dns_wire::OutOfMemory;
use message_walk::RecordWalk;
use rrsig_input::signed_input;
use sec_sigdata::RRSIG;
use sec_sign::TBS;
use std::alloc::Global;

/// The octets that a signature covers, and the signature itself.
fn covered_words(alloc: Global, octets: &[u8], rrsig: &RRSIG) -> Result<String, OutOfMemory>
    ensures { IfOk result (λ text. Ok (string_bytes text) ≡ covered_words (rrsig_data rrsig.now) (Ok octets.now)) }
{
    let octets = HexWord(octets);
    let signature = HexWord(rrsig.sig());
    Ok(format!(in alloc; "{octets} {signature}")?)
}

/// The key tag of a signature, its signer, and these words.
fn signature_line(alloc: Global, rrsig: &RRSIG, words: &str) -> Result<String, OutOfMemory>
    ensures { IfOk result (λ line. string_bytes line ≡ signature_line (rrsig_data rrsig.now) words.now) }
{
    let tag = rrsig.input().key_tag;
    let signer = rrsig.input().signer_name;
    Ok(format!(in alloc; "{tag} {signer} {words}")?)
}

/// What a signature covers of the answers.
#[tactic(auto, using(crate::proofs::PairSteps::signed_by_values))]
fn covered_among(
    alloc: Global,
    rr: &Record<RData>,
    rrsig: &RRSIG,
    answers: &[Record<RData>],
) -> Result<String, Refusal>
    requires { AllByRecursion IsReadRecord answers.now }
    ensures { GivesUnless no_memory (λ text. string_bytes text) result (covered_words (rrsig_data rrsig.now)
        (covered_among (map record_view answers.now) (record_view rr.now) (rrsig_data rrsig.now))) }
{
    let tbs = TBS::from_input(alloc, &rr.name, rr.dns_class, rrsig.input(), answers)?;
    Ok(covered_words(alloc, tbs.as_slice(), rrsig)?)
}

/// Appends the line of a record of the answers, where it is a signature.
fn push_covered(
    alloc: Global,
    lines: &mut Vec<String>,
    rr: &Record<RData>,
    answers: &[Record<RData>],
) -> Result<(), OutOfMemory>
    requires read { IsReadRecord rr.now }
    requires answers { AllByRecursion IsReadRecord answers.now }
    ensures { OnOk result (map string_bytes lines.new.items
        ≡ map string_bytes lines.old.items ++ covered_line (map record_view answers.now) (record_view rr.now)) }
{
    let Some(rrsig) = signature_of(rr) else {
        return Ok(());
    };
    let words = answer_text(alloc, covered_among(alloc, rr, rrsig, answers))?;
    lines.push(signature_line(alloc, rrsig, words.as_str())?)?;
    Ok(())
}

/// A line for each signature among the answers.
fn covered_lines(alloc: Global, answers: &[Record<RData>]) -> Result<Vec<String>, OutOfMemory>
    requires { AllByRecursion IsReadRecord answers.now }
    ensures { IfOk result (λ lines. map string_bytes lines.items ≡ covered_lines (map record_view answers.now)) }
{
    let mut lines = Vec::new(alloc);
    'records: for rr in answers {
        push_covered(alloc, &mut lines, rr, answers)?;
    }
    Ok(lines)
}

/// The octets that the signature covers that starts at a place of a message, of the answers with an owner and a class.
fn input_from(
    alloc: Global,
    message: &[u8],
    owner: &Name,
    dns_class: DNSClass,
    start: usize,
) -> Result<Vec<u8>, Refusal>
    ensures { GivesUnless no_memory (λ octets. octets.items) result
        (with_refusal input_refusal (signed_input message.now sections.Answer owner.now dns_class start)) }
{
    let section = Section::Answer;
    let length = signed_input(message, section, owner, dns_class, start, &mut [])?;
    let mut octets = vec![in alloc; 0; length]?;
    signed_input(message, section, owner, dns_class, start, &mut octets)?;
    Ok(octets)
}

/// What a signature covers that starts at a place of a message.
fn covered_from(
    alloc: Global,
    message: &[u8],
    rr: &Record<RData>,
    rrsig: &RRSIG,
    start: usize,
) -> Result<String, Refusal>
    ensures { GivesUnless no_memory (λ text. string_bytes text) result (covered_words (rrsig_data rrsig.now)
        (covered_from message.now (record (record_view rr.now) { start = start }))) }
{
    let octets = input_from(alloc, message, &rr.name, rr.dns_class, start)?;
    Ok(covered_words(alloc, &octets, rrsig)?)
}

/// Appends the line of an answer that starts at a place of a message, where it is a signature.
fn push_placed(
    alloc: Global,
    lines: &mut Vec<String>,
    message: &[u8],
    rr: &Record<RData>,
    start: usize,
) -> Result<(), OutOfMemory>
    requires { IsReadRecord rr.now }
    ensures { OnOk result (map string_bytes lines.new.items ≡ map string_bytes lines.old.items
        ++ placed_line message.now (record (record_view rr.now) { start = start })) }
{
    let Some(rrsig) = signature_of(rr) else {
        return Ok(());
    };
    let words = answer_text(alloc, covered_from(alloc, message, rr, rrsig, start))?;
    lines.push(signature_line(alloc, rrsig, words.as_str())?)?;
    Ok(())
}

/// A line for each signature among the answers, whose places in the message are gone through.
fn placed_lines(
    alloc: Global,
    message: &[u8],
    answers: &[Record<RData>],
) -> Result<Vec<String>, Refusal>
    requires records { AllByRecursion IsReadRecord answers.now }
    requires standing { AreAnswersOf (message_at rdata_table message.now) (map record_view answers.now) }
    ensures { GivesUnless no_memory (λ lines. map string_bytes lines.items) result
        (placed_lines message.now) }
{
    let mut walk = RecordWalk::new(message)?;
    let mut lines = Vec::new(alloc);
    'records: for rr in answers {
        let Some(place) = walk.next(&mut []) else {
            return Ok(lines);
        };
        push_placed(alloc, &mut lines, message, rr, place.start)?;
    }
    Ok(lines)
}

/// `written HEX`: the message read and written again.
fn written(alloc: Global, rest: &[u8]) -> Result<String, Refusal>
    ensures { GivesUnless no_memory (λ text. string_bytes text) result (written_answer (words rest.now)) }
{
    let word = one_word(rest).ok_or(Refusal::NoCall)?;
    let message = message_in(alloc, word)?;
    let octets = message_octets(alloc, &message)?;
    Ok(HexWord(&octets).to_string(alloc)?)
}

/// `covered HEX`: the octets that the signatures among the answers of a message cover.
fn covered(alloc: Global, rest: &[u8]) -> Result<String, Refusal>
    ensures { GivesUnless no_memory (λ text. string_bytes text) result (covered_answer (words rest.now)) }
{
    let word = one_word(rest).ok_or(Refusal::NoCall)?;
    let message = message_in(alloc, word)?;
    let lines = covered_lines(alloc, message.answers.as_slice())?;
    Ok(separated(alloc, "\n", &lines)?)
}

/// `covered-in-place HEX`: the same, found in the octets of the message without memory.
fn covered_in_place(alloc: Global, rest: &[u8]) -> Result<String, Refusal>
    ensures { GivesUnless no_memory (λ text. string_bytes text) result (placed_answer (words rest.now)) }
{
    let word = one_word(rest).ok_or(Refusal::NoCall)?;
    let octets = octets_in(alloc, word)?;
    let message = Message::from_vec(alloc, &octets)?;
    let lines = placed_lines(alloc, &octets, message.answers.as_slice())?;
    Ok(separated(alloc, "\n", &lines)?)
}

/// What the call of this word answers.
pub(crate) fn answer(alloc: Global, word: &[u8], rest: &[u8]) -> Result<String, Refusal>
    ensures { GivesUnless no_memory (λ text. string_bytes text) result (covering_calls word.now (words rest.now)) }
{
    if word == b"written".as_slice() {
        written(alloc, rest)
    } else if word == b"covered".as_slice() {
        covered(alloc, rest)
    } else if word == b"covered-in-place".as_slice() {
        covered_in_place(alloc, rest)
    } else {
        pairs::answer(alloc, word, rest)
    }
}
