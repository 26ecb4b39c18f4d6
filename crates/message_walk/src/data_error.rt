//! Why a record has no canonical data.
use std::error::Error;
use std::fmt;

/// Why a record has no canonical data. Where both apply, the first is answered.
#[derive(Clone, Copy, Debug, PartialEq, Eq)]
pub enum DataError {
    /// No record stands at the place.
    NoRecord,
    /// The data have more than 65,535 octets in canonical form, where their names aren't compressed (RFC 4034 6.2).
    DataTooLong,
}

/// The name of the variant, and what it holds.
impl fmt::Display for DataError {
    ghost use Rattle.std.specs.Prelude.{Some};
    ghost use Rattle.message_walk.specs.ErrorTexts.{data_error_text};

    ghost output = { λ error. Some (data_error_text error) };

    fn fmt<W: fmt::Write>(&self, f: &mut fmt::Formatter<W>) -> fmt::Result {
        f.write_str(match self {
            DataError::NoRecord => "NoRecord",
            DataError::DataTooLong => "DataTooLong",
        })
    }
}

impl Error for DataError {}
