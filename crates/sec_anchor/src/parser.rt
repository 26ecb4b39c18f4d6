//! Entries read from an anchor text.
ghost use Rattle.std.specs.Prelude.{◌≡◌, [], ◌∷◌, ◌++◌, map, OnOk, IfErr};
ghost use Rattle.std.specs.Option.{option_map};
ghost use Rattle.std.specs.String.{string_bytes};
ghost use Rattle.dns_wire.specs.Reading.{GivesUnless};
ghost use Rattle.dns_lexer.specs.Tokens.{items, items_left, item_of};
ghost use Rattle.sec_keydata.specs.DnsKeys.{dnskey_data};
ghost use Rattle.sec_keydata.specs.Tokens.{token_dnskey};
ghost use Rattle.sec_anchor.specs.Entries.{entry_data, entry_before, entries_ahead, by_owner, key_text, behind_name};
ghost use Rattle.sec_anchor.specs.Entries.{by_class, behind_ttl, behind_class, behind_type, type_named, words_ahead};
ghost use Rattle.sec_anchor.specs.Entries.{as_token};
ghost use Rattle.sec_anchor.specs.AnchorTokens.{lex_token};
ghost use Rattle.sec_anchor.specs.Lines.{first_line, extended, TakesToken, TakesWord, TakesWordInLine};
ghost use Rattle.sec_anchor.specs.Lines.{ReadsText, ReadsEntry, ReadsLine, items_ahead};
ghost use Rattle.dns_types.specs.Codes.{class_of};

use crate::entry::{Entry, Record};
use crate::parse_error::ParseError;
use crate::token::Token;
use dns_lexer::{LexToken, Lexer, parse_ttl};
use dns_names::Name;
use dns_types::{DNSClass, RecordType};
use sec_keydata::{DNSKEY, TokenError};
use std::alloc::Global;

/// Reads the entries of an anchor text. A contract sees what is left of the text, by `items_left` of its lexer.
#[derive(Clone, Copy, Debug)]
pub struct Parser<'a> {
    lexer: Lexer<'a>,
}

impl<'a> Parser<'a> {
    /// A parser of this text.
    pub fn new(input: &'a str) -> Parser<'a>
        ensures { items_ahead result ≡ items input.now }
    {
        Parser {
            lexer: Lexer::new(input),
        }
    }

    /// Reads the entries, in order.
    ///
    /// A line has an owner (RFC 1035 5.1), a class or a TTL and a class, the type DNSKEY, and the words of the key
    /// (RFC 4034 2.2). Blank lines and comments say nothing, nor does a last line that ends before its type.
    ///
    /// # Errors
    ///
    /// The cause of the first token that fails: `BadName` for the owner, `BadTtl` for a word that is no class either,
    /// `BadClass` behind a TTL, `UnknownRecordType`, `UnsupportedRecordType`; `UnexpectedToken` for `@`, `$INCLUDE`,
    /// `$ORIGIN`, `$TTL` and parentheses anywhere, and for the end of a line before its type; `UnrecognizedChar` from
    /// the lexer. `Token` comes behind a line's tokens. `OutOfMemory` may come in place of any answer.
    pub fn parse(self, alloc: Global) -> Result<Vec<Entry>, ParseError>
        ensures { GivesUnless ParseError.OutOfMemory (λ entries. map entry_data entries.items) result
            (entries_ahead (items_ahead self.entry)) }
    {
        let mut lexer = self.lexer;
        let mut entries = Vec::new(alloc);
        'lines: loop {
            match next_entry(alloc, &mut lexer) {
                Ok(Some(entry)) => push_some(&mut entries, entry)?,
                Ok(None) => return Ok(entries),
                Err(e) => return Err(e),
            }
        }
    }
}

/// Puts an entry behind others, if there is one.
fn push_some(entries: &mut Vec<Entry>, entry: Option<Entry>) -> Result<(), ParseError>
    ensures ok { OnOk result (map entry_data entries.new.items
        ≡ map entry_data entries.old.items ++ entry_before (option_map entry_data entry) []) }
    ensures err { IfErr result (λ e. e ≡ ParseError.OutOfMemory) }
{
    match entry {
        Some(entry) => match entries.push(entry) {
            Ok(()) => Ok(()),
            Err(_) => Err(ParseError::OutOfMemory),
        },
        None => Ok(()),
    }
}

/// What the next line says, or a blank before it; none at the end of the text.
fn next_entry(alloc: Global, lexer: &mut Lexer<'_>) -> Result<Option<Option<Entry>>, ParseError>
    ensures { ReadsEntry result (items_left lexer.old) (items_left lexer.new) }
{
    match next_token(alloc, lexer) {
        Ok(Some(token)) => entry_by_token(alloc, lexer, token),
        Ok(None) => Ok(None),
        Err(e) => Err(e),
    }
}

/// What a line says, by its first token.
fn entry_by_token(
    alloc: Global,
    lexer: &mut Lexer<'_>,
    token: Token,
) -> Result<Option<Option<Entry>>, ParseError>
    ensures { ReadsEntry result (item_of (lex_token token) ∷ items_left lexer.old) (items_left lexer.new) }
{
    match token {
        Token::CharData(owner) => match entry_of_owner(alloc, lexer, &owner) {
            Ok(entry) => Ok(Some(entry)),
            Err(e) => Err(e),
        },
        Token::Blank => Ok(Some(None)),
        Token::EOL => Ok(Some(None)),
    }
}

/// The next token.
fn next_token(alloc: Global, lexer: &mut Lexer<'_>) -> Result<Option<Token>, ParseError>
    ensures { TakesToken result (items_left lexer.old) (items_left lexer.new) }
{
    match lexer.next_token(alloc) {
        Ok(Some(token)) => entry_token(token),
        Ok(None) => Ok(None),
        Err(e) => Err(ParseError::from(e)),
    }
}

/// A token that entries may have.
fn entry_token(token: LexToken) -> Result<Option<Token>, ParseError>
    ensures { TakesToken result (item_of token ∷ []) [] }
{
    match Token::try_from(token) {
        Ok(token) => Ok(Some(token)),
        Err(e) => Err(e),
    }
}

/// The next token, which has to be a word.
fn next_word(alloc: Global, lexer: &mut Lexer<'_>) -> Result<Option<String>, ParseError>
    ensures { TakesWord result (items_left lexer.old) (items_left lexer.new) }
{
    match next_token(alloc, lexer) {
        Ok(Some(Token::CharData(text))) => Ok(Some(text)),
        Ok(Some(Token::Blank)) => Err(ParseError::UnexpectedToken(LexToken::Blank)),
        Ok(Some(Token::EOL)) => Err(ParseError::UnexpectedToken(LexToken::EOL)),
        Ok(None) => Ok(None),
        Err(e) => Err(e),
    }
}

/// The next word of a line, none at its end.
fn next_word_in_line(alloc: Global, lexer: &mut Lexer<'_>) -> Result<Option<String>, ParseError>
    ensures { TakesWordInLine result (items_left lexer.old) (items_left lexer.new) }
{
    match next_token(alloc, lexer) {
        Ok(Some(Token::CharData(text))) => Ok(Some(text)),
        Ok(Some(Token::Blank)) => Err(ParseError::UnexpectedToken(LexToken::Blank)),
        Ok(Some(Token::EOL)) => Ok(None),
        Ok(None) => Ok(None),
        Err(e) => Err(e),
    }
}

/// The entry of a line, by its owner.
fn entry_of_owner(
    alloc: Global,
    lexer: &mut Lexer<'_>,
    owner: &str,
) -> Result<Option<Entry>, ParseError>
    ensures { ReadsLine result (by_owner owner.now (first_line (items_left lexer.old)))
        (items_left lexer.old) (items_left lexer.new) }
{
    match Name::from_ascii(owner) {
        Ok(name) => entry_behind_name(alloc, lexer, name),
        Err(e) => Err(ParseError::BadName(e)),
    }
}

/// The entry of a line, behind its owner.
fn entry_behind_name(
    alloc: Global,
    lexer: &mut Lexer<'_>,
    name: Name,
) -> Result<Option<Entry>, ParseError>
    ensures { ReadsLine result (behind_name name (first_line (items_left lexer.old)))
        (items_left lexer.old) (items_left lexer.new) }
{
    match next_word(alloc, lexer) {
        Ok(Some(word)) => entry_by_class(alloc, lexer, name, &word),
        Ok(None) => Ok(None),
        Err(e) => Err(e),
    }
}

/// The entry of a line, by the class or the TTL behind its owner.
fn entry_by_class(
    alloc: Global,
    lexer: &mut Lexer<'_>,
    name: Name,
    word: &str,
) -> Result<Option<Entry>, ParseError>
    ensures { ReadsLine result (by_class name word.now (first_line (items_left lexer.old)) (class_of word.now))
        (items_left lexer.old) (items_left lexer.new) }
{
    match DNSClass::parse(word) {
        Some(class) => entry_behind_class(alloc, lexer, name, None, class),
        None => match parse_ttl(word) {
            Some(ttl) => entry_behind_ttl(alloc, lexer, name, ttl),
            None => Err(ParseError::BadTtl),
        },
    }
}

/// The entry of a line, behind its TTL.
fn entry_behind_ttl(
    alloc: Global,
    lexer: &mut Lexer<'_>,
    name: Name,
    ttl: u32,
) -> Result<Option<Entry>, ParseError>
    ensures { ReadsLine result (behind_ttl name ttl (first_line (items_left lexer.old)))
        (items_left lexer.old) (items_left lexer.new) }
{
    match next_word(alloc, lexer) {
        Ok(Some(word)) => match DNSClass::parse(&word) {
            Some(class) => entry_behind_class(alloc, lexer, name, Some(ttl), class),
            None => Err(ParseError::BadClass),
        },
        Ok(None) => Ok(None),
        Err(e) => Err(e),
    }
}

/// The entry of a line, behind its class.
fn entry_behind_class(
    alloc: Global,
    lexer: &mut Lexer<'_>,
    name: Name,
    ttl: Option<u32>,
    class: DNSClass,
) -> Result<Option<Entry>, ParseError>
    ensures { ReadsLine result (behind_class name ttl class (first_line (items_left lexer.old)))
        (items_left lexer.old) (items_left lexer.new) }
{
    match next_word(alloc, lexer) {
        Ok(Some(word)) => match check_type(&word) {
            Ok(()) => entry_behind_type(alloc, lexer, name, ttl, class),
            Err(e) => Err(e),
        },
        Ok(None) => Ok(None),
        Err(e) => Err(e),
    }
}

/// Refuses types other than DNSKEY.
fn check_type(word: &str) -> Result<(), ParseError>
    ensures { result ≡ type_named word.now }
{
    match RecordType::parse(word) {
        Some(RecordType::DNSKEY) => Ok(()),
        Some(other) => Err(ParseError::UnsupportedRecordType(other)),
        None => Err(ParseError::UnknownRecordType),
    }
}

/// The entry of a line, behind its type.
fn entry_behind_type(
    alloc: Global,
    lexer: &mut Lexer<'_>,
    name: Name,
    ttl: Option<u32>,
    class: DNSClass,
) -> Result<Option<Entry>, ParseError>
    ensures { ReadsLine result (behind_type name ttl class (first_line (items_left lexer.old)))
        (items_left lexer.old) (items_left lexer.new) }
{
    match key_text(alloc, lexer) {
        Ok(text) => match key_of_text(alloc, &text) {
            Ok(key) => Ok(Some(Entry::DNSKEY(Record::new(name, class, ttl, key)))),
            Err(e) => Err(e),
        },
        Err(e) => Err(e),
    }
}

/// The key of a text.
fn key_of_text(alloc: Global, text: &str) -> Result<DNSKEY, ParseError>
    ensures { GivesUnless ParseError.OutOfMemory dnskey_data result (as_token (token_dnskey text.now)) }
{
    match DNSKEY::from_tokens(alloc, text) {
        Ok(key) => Ok(key),
        Err(TokenError::OutOfMemory) => Err(ParseError::OutOfMemory),
        Err(e) => Err(ParseError::Token(e)),
    }
}

/// The words up to a line's end, joined by spaces.
fn key_text(alloc: Global, lexer: &mut Lexer<'_>) -> Result<String, ParseError>
    ensures { ReadsText result (key_text (first_line (items_left lexer.old)))
        (items_left lexer.old) (items_left lexer.new) }
{
    match next_word_in_line(alloc, lexer) {
        Ok(Some(word)) => with_words(alloc, lexer, word),
        Ok(None) => Ok(String::new(alloc)),
        Err(e) => Err(e),
    }
}

/// A text, with the words up to a line's end behind it, each behind a space.
fn with_words(alloc: Global, lexer: &mut Lexer<'_>, text: String) -> Result<String, ParseError>
    ensures { ReadsText result (extended (string_bytes text) (words_ahead (first_line (items_left lexer.old))))
        (items_left lexer.old) (items_left lexer.new) }
{
    let mut text = text;
    'words: loop {
        match next_word_in_line(alloc, lexer) {
            Ok(Some(word)) => {
                text.push(' ')?;
                text.push_str(&word)?;
            }
            Ok(None) => return Ok(text),
            Err(e) => return Err(e),
        }
    }
}
