//! A text taken apart into tokens.
ghost use Rattle.std.specs.Prelude.{◌≡◌, ◌&&◌, ◌<◌, ◌⊎◌, MatchResult, Err, nat_eq, length, slice_index};
ghost use Rattle.std.specs.Str.{chars};
ghost use Rattle.dns_lexer.specs.Tokens.{items, items_left, word_item, item_of, dollar, fault, begins, Takes};
ghost use Rattle.dns_text.specs.Words.{is_blank};

use crate::lex_error::LexError;
use crate::lex_token::LexToken;
use crate::text::{
    begins_with_blank, behind, behind_gap, first_char, first_octet, front, is_parenthesis, word_len,
};
use std::alloc::Global;

/// Gives the tokens of a text, one at a time, and copies each word once. A contract sees what is left for it, by
/// `items_left`.
#[derive(Clone, Copy, Debug)]
pub struct Lexer<'a> {
    rest: &'a str,
    starts_line: bool,
}

impl<'a> Lexer<'a> {
    /// A lexer of this text.
    pub fn new(text: &'a str) -> Lexer<'a>
        ensures { items_left result ≡ items text.now }
    {
        Lexer {
            rest: text,
            starts_line: true,
        }
    }

    /// Takes the next token; `None` exactly where neither a token nor a fault is left (RFC 1035 5.1).
    ///
    /// Spaces and tabs at the start of a line are one `Blank`, and separate words elsewhere. A line feed, also behind a
    /// carriage return, is `EOL`. `;` begins a comment, up to the line's end. A parenthesis is `List`. A word is
    /// characters 33 to 126 other than `;`, `"` and parentheses; a backslash takes any of 33 to 126 into the word, and
    /// stays in it.
    ///
    /// # Errors
    ///
    /// `UnrecognizedChar` at a `"`, a backslash before anything but a character 33 to 126, a carriage return before
    /// anything but a line feed, another character outside 33 to 126, and at `$` where it begins another word than
    /// `$INCLUDE`, `$ORIGIN` and `$TTL`. `OutOfMemory` may come in place of a token. The lexer then stays where it is.
    pub fn next_token(&mut self, alloc: Global) -> Result<Option<LexToken>, LexError>
        ensures { Takes result self.old self.new }
    {
        if self.is_at_blank() {
            self.starts_line = false;
            return Ok(Some(LexToken::Blank));
        }
        let text = behind_gap(self.rest);
        let len = word_len(text);
        if len > 0 {
            return match word_token(alloc, front(text, len)) {
                Ok(token) => {
                    self.rest = behind(text, len);
                    self.starts_line = false;
                    Ok(Some(token))
                }
                Err(e) => Err(e),
            };
        }
        let Some(octet) = first_octet(text) else {
            return Ok(None);
        };
        if octet == b'\n' {
            self.rest = behind(text, 1);
            self.starts_line = true;
            return Ok(Some(LexToken::EOL));
        }
        if is_parenthesis(octet) {
            self.rest = behind(text, 1);
            self.starts_line = false;
            return Ok(Some(LexToken::List));
        }
        unrecognized(text)
    }

    /// Whether blanks at the start of a line are next.
    fn is_at_blank(&self) -> bool
        ensures { result ≡ (self.now.starts_line && begins is_blank self.now.rest.now) }
    {
        self.starts_line && begins_with_blank(self.rest)
    }
}

/// Refuses the first character of a text.
fn unrecognized(text: &str) -> Result<Option<LexToken>, LexError>
    requires { 0 < length text.now }
    ensures { result ≡ Err (LexError.UnrecognizedChar (slice_index (chars text.now) 0)) }
{
    match first_char(text) {
        Some(character) => Err(LexError::UnrecognizedChar(character)),
        None => Ok(None),
    }
}

/// The token that a word is.
fn word_token(alloc: Global, word: &str) -> Result<LexToken, LexError>
    ensures { MatchResult result (λ token. word_item word.now ≡ item_of token)
        (λ e. (e ≡ LexError.OutOfMemory)
        ⊎ ((e ≡ LexError.UnrecognizedChar dollar) × (word_item word.now ≡ fault dollar))) }
{
    let octets = word.as_bytes();
    if octets == b"@".as_slice() {
        return Ok(LexToken::At);
    }
    if octets == b"$INCLUDE".as_slice() {
        return Ok(LexToken::Include);
    }
    if octets == b"$ORIGIN".as_slice() {
        return Ok(LexToken::Origin);
    }
    if octets == b"$TTL".as_slice() {
        return Ok(LexToken::Ttl);
    }
    if begins_with_dollar(octets) {
        return Err(LexError::UnrecognizedChar('$'));
    }
    Ok(LexToken::CharData(String::from_str(alloc, word)?))
}

fn begins_with_dollar(word: &[u8]) -> bool
    ensures { result ≡ nat_eq (slice_index word.now 0) dollar }
{
    match word {
        [first, ..] => *first == b'$',
        [] => false,
    }
}
