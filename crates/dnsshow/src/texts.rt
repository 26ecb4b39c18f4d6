//! The calls on texts of octets, numbers and tokens.
ghost use Rattle.std.specs.Prelude.{map};
ghost use Rattle.std.specs.String.{string_bytes};
ghost use Rattle.dns_text.specs.Words.{words};
ghost use Rattle.dns_wire.specs.Reading.{GivesUnless};
ghost use Rattle.dns_lexer.specs.Tokens.{items};
ghost use Rattle.dns_rows.specs.declared.refusal.Refusal.TheVariants.{OutOfMemory as no_memory};
ghost use Rattle.dnsshow.specs.TextCalls.{base32_answer, base64_answer, number_answer, ttl_answer, token_texts};
ghost use Rattle.dnsshow.specs.TextCalls.{lex_answer, text_calls};

use crate::anchors;
use dns_lexer::{Lexer, parse_ttl};
use dns_rows::Refusal;
use dns_rows::call_texts::{separated, text_or_dash};
use dns_rows::call_words::{number_in, octets_in, text_in};
use dns_text::{Base64Text, number_below, one_word, two_words};
use sec_digest::Base32Text;
use std::alloc::Global;

/// `base32 HEX`: octets in base32.
fn base32(alloc: Global, rest: &[u8]) -> Result<String, Refusal>
    ensures { GivesUnless no_memory (λ text. string_bytes text) result (base32_answer (words rest.now)) }
{
    let word = one_word(rest).ok_or(Refusal::NoCall)?;
    let octets = octets_in(alloc, word)?;
    let text = Base32Text(&octets).to_string(alloc)?;
    Ok(text_or_dash(alloc, text)?)
}

/// `base64 HEX`: octets in base64.
fn base64(alloc: Global, rest: &[u8]) -> Result<String, Refusal>
    ensures { GivesUnless no_memory (λ text. string_bytes text) result (base64_answer (words rest.now)) }
{
    let word = one_word(rest).ok_or(Refusal::NoCall)?;
    let octets = octets_in(alloc, word)?;
    let text = Base64Text(&octets).to_string(alloc)?;
    Ok(text_or_dash(alloc, text)?)
}

/// `number END WORD`: the number below the end that the word's digits write.
fn number(alloc: Global, rest: &[u8]) -> Result<String, Refusal>
    ensures { GivesUnless no_memory (λ text. string_bytes text) result (number_answer (words rest.now)) }
{
    let (end, word) = two_words(rest).ok_or(Refusal::NoCall)?;
    let end = number_in(u64::MAX, end)?;
    match number_below(end, word) {
        Some(number) => Ok(number.to_string(alloc)?),
        None => Ok(String::from_str(alloc, "none")?),
    }
}

/// `ttl WORD`: the seconds of a time to live.
fn ttl(alloc: Global, rest: &[u8]) -> Result<String, Refusal>
    ensures { GivesUnless no_memory (λ text. string_bytes text) result (ttl_answer (words rest.now)) }
{
    let word = one_word(rest).ok_or(Refusal::NoCall)?;
    let text = text_in(word)?;
    match parse_ttl(text) {
        Some(seconds) => Ok(seconds.to_string(alloc)?),
        None => Ok(String::from_str(alloc, "none")?),
    }
}

/// What the tokens of a text print.
#[tactic(auto, using(crate::proofs::Gathered::tokens_begin, crate::proofs::Gathered::tokens_more, crate::proofs::Gathered::tokens_end, crate::proofs::Gathered::tokens_refused))]
fn token_texts(alloc: Global, text: &str) -> Result<Vec<String>, Refusal>
    ensures { GivesUnless no_memory (λ texts. map string_bytes texts.items) result (token_texts (items text.now)) }
{
    let mut lexer = Lexer::new(text);
    let mut texts = Vec::new(alloc);
    'tokens: loop {
        match lexer.next_token(alloc)? {
            Some(token) => texts.push(token.to_string(alloc)?)?,
            None => return Ok(texts),
        }
    }
}

/// `lex HEX`: the tokens of a text.
fn lex(alloc: Global, rest: &[u8]) -> Result<String, Refusal>
    ensures { GivesUnless no_memory (λ text. string_bytes text) result (lex_answer (words rest.now)) }
{
    let word = one_word(rest).ok_or(Refusal::NoCall)?;
    let octets = octets_in(alloc, word)?;
    let texts = token_texts(alloc, text_in(&octets)?)?;
    Ok(separated(alloc, ", ", &texts)?)
}

/// What the call of this word answers.
pub(crate) fn answer(alloc: Global, word: &[u8], rest: &[u8]) -> Result<String, Refusal>
    ensures { GivesUnless no_memory (λ text. string_bytes text) result (text_calls word.now (words rest.now)) }
{
    if word == b"base32".as_slice() {
        base32(alloc, rest)
    } else if word == b"base64".as_slice() {
        base64(alloc, rest)
    } else if word == b"number".as_slice() {
        number(alloc, rest)
    } else if word == b"ttl".as_slice() {
        ttl(alloc, rest)
    } else if word == b"lex".as_slice() {
        lex(alloc, rest)
    } else {
        anchors::answer(alloc, word, rest)
    }
}
