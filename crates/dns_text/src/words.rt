//! The lines of a script, and the words, numbers and octets in them.
//!
//! Each reader lends parts of what it is given, and copies nothing but the octets that hexadecimal digits write.

ghost use Rattle.std.specs.Prelude.{◌≡◌, ◌∷◌, ◌<◌, [], not, position, find, IfOk, IfSome, MatchOption, length};
ghost use Rattle.std.specs.List.{after_first, before_first, list_all};
ghost use Rattle.std.specs.Option.{option_map};
ghost use Rattle.dns_text.specs.Words.{is_line_feed, is_blank, is_text, is_skipped, lines, words, from_word};
ghost use Rattle.dns_text.specs.Words.{behind_word};
ghost use Rattle.dns_text.specs.Words.{without_return, number_below, decode_hex, one_word, two_words, three_words, four_words};

use hex::FromHexError;
use std::alloc::{AllocError, Global};

fn is_blank(octet: u8) -> bool
    ensures { result ≡ is_blank octet }
{
    octet == b' ' || octet == b'\t'
}

// Where the first line feed stands.
fn line_feed_at(octets: &[u8]) -> Option<usize>
    ensures { result ≡ position is_line_feed octets.now }
{
    octets.iter().position(|octet| *octet == b'\n')
}

// Where the first blank stands.
fn blank_at(line: &[u8]) -> Option<usize>
    ensures { result ≡ position is_blank line.now }
{
    line.iter().position(|octet| is_blank(*octet))
}

// Where the first word begins.
fn word_at(line: &[u8]) -> Option<usize>
    ensures { result ≡ position (λ octet. not (is_blank octet)) line.now }
{
    line.iter().position(|octet| !is_blank(*octet))
}

// The octet that the first word begins with.
fn first_non_blank(line: &[u8]) -> Option<u8>
    ensures { result ≡ find (λ octet. not (is_blank octet)) line.now }
{
    line.iter().copied().find(|octet| !is_blank(*octet))
}

/// The first line, and what stands behind its line feed.
pub fn split_line(octets: &[u8]) -> (&[u8], &[u8])
    ensures line { result.0.now ≡ before_first is_line_feed octets.now }
    ensures rest { result.1.now ≡ after_first is_line_feed octets.now }
    ensures lines { 0 < length octets.now → lines octets.now ≡ result.0.now ∷ lines result.1.now }
{
    match line_feed_at(octets) {
        Some(end) => (&octets[..end], &octets[end + 1..]),
        None => (octets, &[]),
    }
}

/// A line without one carriage return at its end.
pub fn without_return(line: &[u8]) -> &[u8]
    ensures { result.now ≡ without_return line.now }
{
    match line {
        [line @ .., b'\r'] => line,
        _ => line,
    }
}

/// Whether a line says nothing: it is blank, or a comment, whose first octet but blanks is `#`.
pub fn is_skipped(line: &[u8]) -> bool
    ensures { result ≡ is_skipped line.now }
{
    first_non_blank(line).is_none_or(|octet| octet == b'#')
}

/// Whether each octet of a line is a blank or an ASCII character that is seen.
pub fn is_text(line: &[u8]) -> bool
    ensures { result ≡ list_all is_text line.now }
{
    line.iter()
        .all(|octet| octet.is_ascii_graphic() || is_blank(*octet))
}

// A line without the blanks before its first word.
fn from_word(line: &[u8]) -> &[u8]
    ensures { result.now ≡ from_word line.now }
{
    match word_at(line) {
        Some(start) => &line[start..],
        None => &[],
    }
}

// What stands before the first blank, and what stands behind it.
fn split_blank(line: &[u8]) -> (&[u8], &[u8])
    ensures word { result.0.now ≡ before_first is_blank line.now }
    ensures rest { result.1.now ≡ after_first is_blank line.now }
{
    match blank_at(line) {
        Some(end) => (&line[..end], &line[end + 1..]),
        None => (line, &[]),
    }
}

/// The first word of a line, and what stands behind the blank that ends it.
pub fn split_word(line: &[u8]) -> Option<(&[u8], &[u8])>
    ensures words { MatchOption result (words line.now ≡ [])
        (λ found. words line.now ≡ found.0.now ∷ words found.1.now) }
    ensures behind { IfSome result (λ found. found.1.now ≡ behind_word line.now) }
{
    let rest = from_word(line);
    if rest.is_empty() {
        return None;
    }
    Some(split_blank(rest))
}

/// The word of a line that has one.
pub fn one_word(line: &[u8]) -> Option<&[u8]>
    ensures { option_map (λ word. word.now) result ≡ one_word (words line.now) }
{
    let (word, rest) = split_word(line)?;
    match split_word(rest) {
        Some(_) => None,
        None => Some(word),
    }
}

/// The two words of a line that has two.
pub fn two_words(line: &[u8]) -> Option<(&[u8], &[u8])>
    ensures { option_map (λ found. (found.0.now, found.1.now)) result ≡ two_words (words line.now) }
{
    let (first, rest) = split_word(line)?;
    let (second, rest) = split_word(rest)?;
    match split_word(rest) {
        Some(_) => None,
        None => Some((first, second)),
    }
}

/// The three words of a line that has three.
pub fn three_words(line: &[u8]) -> Option<(&[u8], &[u8], &[u8])>
    ensures { option_map (λ found. (found.0.now, found.1.now, found.2.now)) result ≡ three_words (words line.now) }
{
    let (first, rest) = split_word(line)?;
    let (second, rest) = split_word(rest)?;
    let (third, rest) = split_word(rest)?;
    match split_word(rest) {
        Some(_) => None,
        None => Some((first, second, third)),
    }
}

/// The four words of a line that has four.
pub fn four_words(line: &[u8]) -> Option<(&[u8], &[u8], &[u8], &[u8])>
    ensures { option_map (λ found. (found.0.now, found.1.now, found.2.now, found.3.now)) result
        ≡ four_words (words line.now) }
{
    let (first, rest) = split_word(line)?;
    let (second, rest) = split_word(rest)?;
    let (third, rest) = split_word(rest)?;
    let (fourth, rest) = split_word(rest)?;
    match split_word(rest) {
        Some(_) => None,
        None => Some((first, second, third, fourth)),
    }
}

/// The number that a word's decimal digits write, where it is below `end`. Any number of leading zeros is allowed.
pub fn number_below(end: u64, word: &[u8]) -> Option<u64>
    ensures { result ≡ number_below end word.now }
{
    if word.is_empty() {
        return None;
    }
    let mut number = 0u64;
    'digits: for octet in word {
        if !octet.is_ascii_digit() {
            return None;
        }
        number = number
            .saturating_mul(10)
            .saturating_add(u64::from(*octet - b'0'));
    }
    if number < end { Some(number) } else { None }
}

/// The octets that a word's hexadecimal digits write, of either case, or no octets at `-`; `None` at a word of another
/// form.
pub fn decode_hex(alloc: Global, word: &[u8]) -> Result<Option<Vec<u8>>, AllocError>
    ensures { IfOk result (λ found. option_map (λ octets. octets.items) found ≡ decode_hex word.now) }
{
    if word == b"-".as_slice() {
        return Ok(Some(Vec::new(alloc)));
    }
    match hex::decode(alloc, word) {
        Ok(octets) => Ok(Some(octets)),
        Err(FromHexError::OutOfMemory) => Err(AllocError),
        Err(_) => Ok(None),
    }
}
