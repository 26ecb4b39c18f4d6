//! Why there are no octets that a signature of a message covers.
use std::error::Error;
use std::fmt;

/// Why there are no octets that an RRSIG of a message covers. Where several causes apply, the first in this order is
/// answered.
#[derive(Clone, Copy, Debug, PartialEq, Eq)]
pub enum InputError {
    /// The octets are no message.
    NoMessage,
    /// No RRSIG starts at the place, or it has no data.
    NoRrsig,
    /// The RRSIG has more labels than the owner, a `*` in front not counted (RFC 4035 5.3.1).
    LabelsExceedOwner,
    /// A record of the set has more than 65,535 octets of data in canonical form.
    DataTooLong,
}

/// The name of the variant, and what it holds.
impl fmt::Display for InputError {
    ghost use Rattle.std.specs.Prelude.{Some};
    ghost use Rattle.rrsig_input.specs.ErrorTexts.{input_error_text};

    ghost output = { λ error. Some (input_error_text error) };

    fn fmt<W: fmt::Write>(&self, f: &mut fmt::Formatter<W>) -> fmt::Result {
        f.write_str(match self {
            InputError::NoMessage => "NoMessage",
            InputError::NoRrsig => "NoRrsig",
            InputError::LabelsExceedOwner => "LabelsExceedOwner",
            InputError::DataTooLong => "DataTooLong",
        })
    }
}

impl Error for InputError {}
