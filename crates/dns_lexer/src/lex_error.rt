//! Why there is no token.
use std::alloc::AllocError;
use std::error::Error;
use std::fmt;

/// Why a text has no next token.
#[derive(Clone, Copy, Debug, PartialEq, Eq)]
pub enum LexError {
    /// A character that no token begins with.
    UnrecognizedChar(char),
    /// There was no memory.
    OutOfMemory,
}

/// The name of the variant, and what it holds.
impl fmt::Display for LexError {
    ghost use Rattle.std.specs.Prelude.{Some};
    ghost use Rattle.dns_lexer.specs.ErrorTexts.{lex_error_text};

    ghost output = { λ error. Some (lex_error_text error) };

    fn fmt<W: fmt::Write>(&self, f: &mut fmt::Formatter<W>) -> fmt::Result {
        match self {
            LexError::UnrecognizedChar(character) => write!(
                f,
                "UnrecognizedChar {}",
                u32::from(*character)
            ),
            LexError::OutOfMemory => f.write_str("OutOfMemory"),
        }
    }
}

impl Error for LexError {}

impl From<AllocError> for LexError {
    ghost use Rattle.std.specs.Prelude.{◌≡◌};
    ghost use Rattle.dns_lexer.specs.declared.lex_error.LexError.TheVariants as errors;

    ghost from_gives = { λ _ e. e ≡ errors.OutOfMemory };

    fn from(_e: AllocError) -> LexError {
        LexError::OutOfMemory
    }
}
