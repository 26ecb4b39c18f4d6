//! Why a request was not signed.
use std::error::Error;
use std::fmt;

/// Why octets were not signed as a request: the first that holds.
#[derive(Clone, Copy, Debug, PartialEq, Eq)]
pub enum RequestError {
    /// The time is 2^48 seconds or more.
    TimeTooLarge,
    /// The octets are no message without a transaction signature, or go on after it.
    NotARequest,
    /// The message has 65,535 additional records, and there is no number for one more.
    CountTooLarge,
    /// The signed request would have more than 65,535 octets.
    MessageTooLong,
}

/// The name of the variant, and what it holds.
impl fmt::Display for RequestError {
    ghost use Rattle.std.specs.Prelude.{Some};
    ghost use Rattle.sec_tsig.specs.ErrorTexts.{request_error_text};

    ghost output = { λ error. Some (request_error_text error) };

    fn fmt<W: fmt::Write>(&self, f: &mut fmt::Formatter<W>) -> fmt::Result {
        f.write_str(match self {
            RequestError::TimeTooLarge => "TimeTooLarge",
            RequestError::NotARequest => "NotARequest",
            RequestError::CountTooLarge => "CountTooLarge",
            RequestError::MessageTooLong => "MessageTooLong",
        })
    }
}

impl Error for RequestError {}
