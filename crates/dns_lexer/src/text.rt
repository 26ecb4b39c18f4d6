//! Words and gaps at the front of a text.
ghost use Rattle.std.specs.Prelude.{◌≡◌, ◌+◌, ◌<◌, ◌≤◌, ◌-◌, [], ◌∷◌, length, drop, take, position};
ghost use Rattle.std.specs.Prelude.{MatchOption, slice_index, false};
ghost use Rattle.std.specs.Str.{IsCharBoundary, chars};
ghost use Rattle.dns_lexer.specs.Tokens as specs;
ghost use Rattle.dns_lexer.specs.Tokens.{items_behind, begins};
ghost use Rattle.dns_text.specs.Words.{is_blank, is_line_feed};
ghost use Rattle.std.specs.List.{position_or_len};

/// What stands behind so many octets of a text.
pub(crate) fn behind(text: &str, count: usize) -> &str
    requires { IsCharBoundary text.now count }
    ensures { result.now ≡ drop count text.now }
{
    &text[count..]
}

/// The first octets of a text, so many.
pub(crate) fn front(text: &str, count: usize) -> &str
    requires { IsCharBoundary text.now count }
    ensures { result.now ≡ take count text.now }
{
    &text[..count]
}

/// The first character of a text.
pub(crate) fn first_char(text: &str) -> Option<char>
    ensures { MatchOption result (text.now ≡ []) (λ c. c ≡ slice_index (chars text.now) 0) }
{
    text.chars().next()
}

/// The first octet of a text.
pub(crate) fn first_octet(text: &str) -> Option<u8>
    ensures { MatchOption result (text.now ≡ []) (λ octet. text.now ≡ octet ∷ drop 1 text.now) }
{
    match text.as_bytes() {
        [octet, ..] => Some(*octet),
        [] => None,
    }
}

pub(crate) fn is_parenthesis(octet: u8) -> bool
    ensures { result ≡ specs.is_parenthesis octet }
{
    octet == b'(' || octet == b')'
}

fn is_blank(octet: u8) -> bool
    ensures { result ≡ is_blank octet }
{
    octet == b' ' || octet == b'\t'
}

/// Whether a text begins with a blank.
pub(crate) fn begins_with_blank(text: &str) -> bool
    ensures { result ≡ begins is_blank text.now }
{
    match text.as_bytes() {
        [octet, ..] => is_blank(*octet),
        [] => false,
    }
}

fn is_plain(octet: u8) -> bool
    ensures { result ≡ specs.is_plain octet }
{
    octet.is_ascii_graphic() && !matches!(octet, b';' | b'(' | b')' | b'"' | b'\\')
}

/// How many octets the character has that a word may have next.
fn unit_len(text: &[u8]) -> usize
    ensures { result ≡ specs.unit_len text.now }
{
    match text {
        [b'\\', next, ..] => { if next.is_ascii_graphic() { 2 } else { 0 } }
        [octet, ..] => { if is_plain(*octet) { 1 } else { 0 } }
        [] => 0,
    }
}

/// How many octets the word has that a text begins with, the last of which is ASCII.
fn word_octets(text: &[u8]) -> usize
    ensures value { result ≡ specs.word_len text.now }
    ensures within { result ≤ length text.now }
    ensures ascii { 0 < result → slice_index text.now (result - 1) < 128 }
{
    let mut len = 0;
    'units: loop {
        let next = unit_len(&text[len..]);
        if next == 0 {
            return len;
        }
        len += next;
    }
}

/// How many octets the word has that a text begins with.
pub(crate) fn word_len(text: &str) -> usize
    ensures value { result ≡ specs.word_len text.now }
    ensures boundary { IsCharBoundary text.now result }
{
    word_octets(text.as_bytes())
}

/// Where the first line feed stands.
fn line_feed_at(text: &[u8]) -> Option<usize>
    ensures { result ≡ position is_line_feed text.now }
{
    text.iter().position(|octet| *octet == b'\n')
}

/// How many octets stand before the first line feed, or the text's end.
fn line_len(text: &[u8]) -> usize
    ensures value { result ≡ position_or_len is_line_feed text.now }
    ensures within { result ≤ length text.now }
{
    match line_feed_at(text) {
        Some(len) => len,
        None => text.len(),
    }
}

/// How many octets between tokens a text begins with.
fn gap_octets(text: &[u8]) -> usize
    ensures { result ≡ specs.gap_len text.now }
{
    match text {
        [b' ' | b'\t', ..] => 1,
        [b'\r', b'\n', ..] => 1,
        [b';', comment @ ..] => 1 + line_len(comment),
        _ => 0,
    }
}

/// How many octets between tokens a text begins with.
fn gap_len(text: &str) -> usize
    ensures value { result ≡ specs.gap_len text.now }
    ensures boundary { IsCharBoundary text.now result }
{
    gap_octets(text.as_bytes())
}

/// A text without what stands between tokens at its front.
pub(crate) fn behind_gap(text: &str) -> &str
    ensures same { items_behind 0 result.now ≡ items_behind 0 text.now }
    ensures ended { specs.gap_len result.now ≡ 0 }
{
    let mut rest = text;
    'gaps: loop {
        let len = gap_len(rest);
        if len == 0 {
            return rest;
        }
        rest = behind(rest, len);
    }
}
