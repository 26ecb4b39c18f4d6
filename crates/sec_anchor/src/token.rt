//! The tokens that entries are made of.
use crate::parse_error::ParseError;
use dns_lexer::LexToken;

/// A token of an entry.
#[derive(Debug, PartialEq, Eq, Drop)]
pub enum Token {
    /// Spaces and tabs at the start of a line.
    Blank,
    /// A word.
    CharData(String),
    /// The end of a line.
    EOL,
}

impl TryFrom<LexToken> for Token {
    ghost use Rattle.std.specs.Prelude.{◌≡◌};
    ghost use Rattle.sec_anchor.specs.AnchorTokens.{entry_token};

    type Error = ParseError;

    ghost try_from_gives = { λ token result. result ≡ entry_token token };

    /// The token, where entries may have it; `UnexpectedToken` for `At`, `Include`, `Origin`, `Ttl` and `List`.
    fn try_from(token: LexToken) -> Result<Token, ParseError> {
        match token {
            LexToken::Blank => Ok(Token::Blank),
            LexToken::CharData(text) => Ok(Token::CharData(text)),
            LexToken::EOL => Ok(Token::EOL),
            LexToken::At => Err(ParseError::UnexpectedToken(LexToken::At)),
            LexToken::Include => Err(ParseError::UnexpectedToken(LexToken::Include)),
            LexToken::Origin => Err(ParseError::UnexpectedToken(LexToken::Origin)),
            LexToken::Ttl => Err(ParseError::UnexpectedToken(LexToken::Ttl)),
            LexToken::List => Err(ParseError::UnexpectedToken(LexToken::List)),
        }
    }
}

impl From<Token> for LexToken {
    ghost use Rattle.std.specs.Prelude.{◌≡◌};
    ghost use Rattle.sec_anchor.specs.AnchorTokens.{lex_token};

    ghost from_gives = { λ token lexed. lexed ≡ lex_token token };

    fn from(token: Token) -> LexToken {
        match token {
            Token::Blank => LexToken::Blank,
            Token::CharData(text) => LexToken::CharData(text),
            Token::EOL => LexToken::EOL,
        }
    }
}
