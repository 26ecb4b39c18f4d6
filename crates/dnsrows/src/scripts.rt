//! The calls on scripts of `dnscheck check`, whose signatures are keyed hashes.
ghost use Rattle.std.specs.Prelude.{◌≡◌, ◌++◌, Ok, IfOk, OnOk, map};
ghost use Rattle.std.specs.List.{after_first, before_first};
ghost use Rattle.std.specs.Str.{IsUtf8};
ghost use Rattle.std.specs.String.{string_bytes};
ghost use Rattle.dns_text.specs.Words.{is_line_feed, lines, words};
ghost use Rattle.dns_wire.specs.Reading.{GivesUnless};
ghost use Rattle.dns_rows.specs.declared.refusal.Refusal.TheVariants.{OutOfMemory as no_memory};
ghost use Rattle.dnsrows.specs.Scripts.{line_end, script_octets, session_line, check_answer};
ghost use Rattle.dnsrows.specs.Scripts.{script_answer, script_calls};

use crate::covering;
use check_script::session;
use dns_rows::Refusal;
use dns_rows::call_texts::separated;
use dns_rows::call_words::octets_in;
use dns_text::{one_word, split_word};
use dns_wire::OutOfMemory;
use sec_sign::KeyedHash;
use std::alloc::Global;

/// An octet of a script in one line, where a vertical bar ends a line.
fn line_end(octet: u8) -> u8
    ensures { result ≡ line_end octet }
{
    if octet == b'|' { b'\n' } else { octet }
}

/// Appends the octets of a word to a script.
fn push_octets(script: &mut Vec<u8>, word: &[u8]) -> Result<(), OutOfMemory>
    ensures { OnOk result (script.new.items ≡ script.old.items ++ map line_end word.now) }
{
    'octets: for octet in word {
        script.push(line_end(*octet))?;
    }
    Ok(())
}

/// The script of the words of a line, each after a space.
fn script_octets(alloc: Global, line: &[u8]) -> Result<Vec<u8>, OutOfMemory>
    ensures { IfOk result (λ script. script.items ≡ script_octets (words line.now)) }
{
    let mut script = Vec::new(alloc);
    let mut rest = line;
    'words: while let Some((word, after)) = split_word(rest) {
        script.push(b' ')?;
        push_octets(&mut script, word)?;
        rest = after;
    }
    Ok(script)
}

/// The first line of a text, and what stands after its line feed.
fn first_line(text: &str) -> (&str, &str)
    ensures line { result.0.now ≡ before_first is_line_feed text.now }
    ensures rest { result.1.now ≡ after_first is_line_feed text.now }
    ensures rest_is_text { IsUtf8 result.1.now }
{
    match text.split_once('\n') {
        Some((line, rest)) => (line, rest),
        None => (text, ""),
    }
}

/// The lines of a text.
fn text_lines(alloc: Global, text: &str) -> Result<Vec<String>, OutOfMemory>
    ensures { IfOk result (λ found. map string_bytes found.items ≡ lines text.now) }
{
    let mut found = Vec::new(alloc);
    let mut rest = text;
    'lines: while !rest.is_empty() {
        let (line, after) = first_line(rest);
        found.push(String::from_str(alloc, line)?)?;
        rest = after;
    }
    Ok(found)
}

/// The status and the text of a script's session in one line.
fn session_line(alloc: Global, octets: &[u8]) -> Result<String, OutOfMemory>
    ensures { IfOk result (λ line. string_bytes line ≡ session_line octets.now) }
{
    let (text, status) = session(alloc, &KeyedHash, octets)?;
    let lines = text_lines(alloc, text.as_str())?;
    let lines = separated(alloc, " | ", &lines)?;
    Ok(format!(in alloc; "{} {lines}", u8::from(status))?)
}

/// `check TEXT`: the session of the script in one line, where a vertical bar ends a line.
fn check(alloc: Global, rest: &[u8]) -> Result<String, Refusal>
    ensures { GivesUnless no_memory (λ text. string_bytes text) result (check_answer (words rest.now)) }
{
    let octets = script_octets(alloc, rest)?;
    Ok(session_line(alloc, &octets)?)
}

/// `script HEX`: the session of these octets.
fn script(alloc: Global, rest: &[u8]) -> Result<String, Refusal>
    ensures { GivesUnless no_memory (λ text. string_bytes text) result (script_answer (words rest.now)) }
{
    let word = one_word(rest).ok_or(Refusal::NoCall)?;
    let octets = octets_in(alloc, word)?;
    Ok(session_line(alloc, &octets)?)
}

/// What the call of this word answers.
pub(crate) fn answer(alloc: Global, word: &[u8], rest: &[u8]) -> Result<String, Refusal>
    ensures { GivesUnless no_memory (λ text. string_bytes text) result (script_calls word.now (words rest.now)) }
{
    if word == b"check".as_slice() {
        check(alloc, rest)
    } else if word == b"script".as_slice() {
        script(alloc, rest)
    } else {
        covering::answer(alloc, word, rest)
    }
}
