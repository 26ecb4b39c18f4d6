//! Why a message was not signed.
use dns_wire::{EmitError, OutOfMemory};
use std::alloc::AllocError;
use std::error::Error;
use std::fmt;

/// Why a message was not signed: the first that holds.
#[derive(Clone, Copy, Debug, PartialEq, Eq)]
pub enum TsigSignError {
    /// An answer with the error of this number is not signed (RFC 8945 5.3.2).
    UnsignedError(u16),
    /// The message can't be written.
    Message(EmitError),
    /// A time is 2^48 or more.
    TimeTooLarge,
    /// The MAC of the message before has more than 65,535 octets.
    MacTooLong,
    /// There was no memory.
    OutOfMemory,
    /// An answer with the error BADTIME tells the server's time (RFC 8945 5.2.3).
    NeedsServerTime,
}

/// The name of the variant, and what it holds.
impl fmt::Display for TsigSignError {
    ghost use Rattle.std.specs.Prelude.{Some};
    ghost use Rattle.sec_tsig.specs.ErrorTexts.{tsig_sign_error_text};

    ghost output = { λ error. Some (tsig_sign_error_text error) };

    fn fmt<W: fmt::Write>(&self, f: &mut fmt::Formatter<W>) -> fmt::Result {
        match self {
            TsigSignError::UnsignedError(number) => write!(f, "UnsignedError {number}"),
            TsigSignError::Message(cause) => write!(f, "Message {cause}"),
            TsigSignError::TimeTooLarge => f.write_str("TimeTooLarge"),
            TsigSignError::MacTooLong => f.write_str("MacTooLong"),
            TsigSignError::OutOfMemory => f.write_str("OutOfMemory"),
            TsigSignError::NeedsServerTime => f.write_str("NeedsServerTime"),
        }
    }
}

impl Error for TsigSignError {}

impl From<AllocError> for TsigSignError {
    ghost use Rattle.std.specs.Prelude.{◌≡◌};
    ghost use Rattle.sec_tsig.specs.declared.sign_error.TsigSignError.TheVariants.{OutOfMemory};

    ghost from_gives = { λ _ e. e ≡ OutOfMemory };

    fn from(_e: AllocError) -> TsigSignError {
        TsigSignError::OutOfMemory
    }
}

impl From<OutOfMemory> for TsigSignError {
    ghost use Rattle.std.specs.Prelude.{◌≡◌};
    ghost use Rattle.sec_tsig.specs.declared.sign_error.TsigSignError.TheVariants as causes;

    ghost from_gives = { λ _ e. e ≡ causes.OutOfMemory };

    fn from(_e: OutOfMemory) -> TsigSignError {
        TsigSignError::OutOfMemory
    }
}
