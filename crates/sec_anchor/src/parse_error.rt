//! Why a text is no anchor text.
use dns_lexer::{LexError, LexToken};
use dns_types::RecordType;
use dns_wire::NameError;
use sec_codes::KeyError;
use sec_keydata::TokenError;
use std::alloc::{AllocError, AllocFailed};
use std::error::Error;
use std::fmt;

/// Why a text is not read as anchors: the first token that fails decides.
#[derive(Debug, PartialEq, Eq, Drop)]
pub enum ParseError {
    /// A token that may not stand where it does.
    UnexpectedToken(LexToken),
    /// An owner that is no name.
    BadName(NameError),
    /// A word behind the owner that is neither a class nor a TTL.
    BadTtl,
    /// A word behind a TTL that is no class.
    BadClass,
    /// A word behind a class that is no type.
    UnknownRecordType,
    /// A type other than DNSKEY.
    UnsupportedRecordType(RecordType),
    /// Words that are no key.
    Token(TokenError),
    /// A character that no token begins with.
    UnrecognizedChar(char),
    /// A key that lacks the form of its algorithm's keys.
    Key(KeyError),
    /// There was no memory.
    OutOfMemory,
}

/// The name of the variant, and what it holds.
impl fmt::Display for ParseError {
    ghost use Rattle.std.specs.Prelude.{Some};
    ghost use Rattle.sec_anchor.specs.ErrorTexts.{parse_error_text};

    ghost output = { λ error. Some (parse_error_text error) };

    fn fmt<W: fmt::Write>(&self, f: &mut fmt::Formatter<W>) -> fmt::Result {
        match self {
            ParseError::UnexpectedToken(token) => write!(f, "UnexpectedToken {token}"),
            ParseError::BadName(fault) => write!(f, "BadName {fault}"),
            ParseError::BadTtl => f.write_str("BadTtl"),
            ParseError::BadClass => f.write_str("BadClass"),
            ParseError::UnknownRecordType => f.write_str("UnknownRecordType"),
            ParseError::UnsupportedRecordType(rtype) => write!(f, "UnsupportedRecordType {rtype}"),
            ParseError::Token(cause) => write!(f, "Token {cause}"),
            ParseError::UnrecognizedChar(character) => write!(
                f,
                "UnrecognizedChar {}",
                u32::from(*character)
            ),
            ParseError::Key(cause) => write!(f, "Key {cause}"),
            ParseError::OutOfMemory => f.write_str("OutOfMemory"),
        }
    }
}

impl Error for ParseError {}

impl From<AllocError> for ParseError {
    ghost use Rattle.std.specs.Prelude.{◌≡◌};
    ghost use Rattle.sec_anchor.specs.declared.parse_error.ParseError.TheVariants as errors;

    ghost from_gives = { λ _ e. e ≡ errors.OutOfMemory };

    fn from(_e: AllocError) -> ParseError {
        ParseError::OutOfMemory
    }
}

impl<T: Drop> From<AllocFailed<T>> for ParseError {
    ghost use Rattle.std.specs.Prelude.{◌≡◌};
    ghost use Rattle.sec_anchor.specs.declared.parse_error.ParseError.TheVariants as errors;

    ghost from_gives = { λ _ e. e ≡ errors.OutOfMemory };

    fn from(_e: AllocFailed<T>) -> ParseError {
        ParseError::OutOfMemory
    }
}

impl From<LexError> for ParseError {
    ghost use Rattle.std.specs.Prelude.{◌≡◌};
    ghost use Rattle.sec_anchor.specs.Lines.{lex_cause};

    ghost from_gives = { λ fault e. e ≡ lex_cause fault };

    fn from(fault: LexError) -> ParseError {
        match fault {
            LexError::UnrecognizedChar(character) => ParseError::UnrecognizedChar(character),
            LexError::OutOfMemory => ParseError::OutOfMemory,
        }
    }
}
