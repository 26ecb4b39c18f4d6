//! The tokens of anchor text.
use std::fmt;

/// A token. A contract sees it by `item_of`.
#[derive(Debug, PartialEq, Eq, Drop)]
pub enum LexToken {
    /// Spaces and tabs at the start of a line.
    Blank,
    /// A word that is none of those below, with its backslashes.
    CharData(String),
    /// The end of a line.
    EOL,
    /// The word `@`.
    At,
    /// The word `$INCLUDE`.
    Include,
    /// The word `$ORIGIN`.
    Origin,
    /// The word `$TTL`.
    Ttl,
    /// A parenthesis.
    List,
}

/// The name of the variant, and its word.
impl fmt::Display for LexToken {
    ghost use Rattle.std.specs.Prelude.{Some};
    ghost use Rattle.dns_lexer.specs.ErrorTexts.{lex_token_text};

    ghost output = { λ token. Some (lex_token_text token) };

    fn fmt<W: fmt::Write>(&self, f: &mut fmt::Formatter<W>) -> fmt::Result {
        match self {
            LexToken::Blank => f.write_str("Blank"),
            LexToken::CharData(word) => write!(f, "CharData {word}"),
            LexToken::EOL => f.write_str("EOL"),
            LexToken::At => f.write_str("At"),
            LexToken::Include => f.write_str("Include"),
            LexToken::Origin => f.write_str("Origin"),
            LexToken::Ttl => f.write_str("Ttl"),
            LexToken::List => f.write_str("List"),
        }
    }
}
