//! Why a key has no tag or no digest.
use std::error::Error;
use std::fmt;

/// Why a key has no tag or no digest. Where several causes apply, the first in this order is answered.
#[derive(Clone, Copy, Debug, PartialEq, Eq)]
pub enum KeyDataError {
    /// A key of more than 65,531 octets, whose data no record holds.
    DataTooLong,
    /// A digest type, by its number, of which no digest is made.
    UnknownDigestAlgorithm(u8),
    /// There was no memory.
    OutOfMemory,
}

/// The name of the variant, and what it holds.
impl fmt::Display for KeyDataError {
    ghost use Rattle.std.specs.Prelude.{Some};
    ghost use Rattle.sec_keydata.specs.ErrorTexts.{key_data_error_text};

    ghost output = { λ error. Some (key_data_error_text error) };

    fn fmt<W: fmt::Write>(&self, f: &mut fmt::Formatter<W>) -> fmt::Result {
        match self {
            KeyDataError::DataTooLong => f.write_str("DataTooLong"),
            KeyDataError::UnknownDigestAlgorithm(number) => write!(
                f,
                "UnknownDigestAlgorithm {number}"
            ),
            KeyDataError::OutOfMemory => f.write_str("OutOfMemory"),
        }
    }
}

impl Error for KeyDataError {}
