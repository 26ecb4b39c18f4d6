//! Why a record set is not signed.
use dns_wire::EmitError;
use sec_sigdata::DnsSecError;
use std::error::Error;
use std::fmt;

/// Why a record set is not signed. Where several causes apply, the first in this order is answered.
#[derive(Debug, PartialEq, Eq, Drop)]
pub enum SignError {
    /// A last second that 64 bits don't hold.
    TimeOutOfRange,
    /// A DNSKEY with more than 65,531 octets of key.
    KeyTooLong,
    /// Why the first record of the set that can't be written can't.
    Emit(EmitError),
    /// Why the key refused to sign.
    Signing(DnsSecError),
    /// There was no memory.
    OutOfMemory,
}

/// The name of the variant, and what it holds.
impl fmt::Display for SignError {
    ghost use Rattle.std.specs.Prelude.{Some};
    ghost use Rattle.sec_sign.specs.ErrorTexts.{sign_error_text};

    ghost output = { λ error. Some (sign_error_text error) };

    fn fmt<W: fmt::Write>(&self, f: &mut fmt::Formatter<W>) -> fmt::Result {
        match self {
            SignError::TimeOutOfRange => f.write_str("TimeOutOfRange"),
            SignError::KeyTooLong => f.write_str("KeyTooLong"),
            SignError::Emit(cause) => write!(f, "Emit {cause}"),
            SignError::Signing(cause) => write!(f, "Signing {cause}"),
            SignError::OutOfMemory => f.write_str("OutOfMemory"),
        }
    }
}

impl Error for SignError {}

impl From<EmitError> for SignError {
    ghost use Rattle.std.specs.Prelude.{◌≡◌};
    ghost use Rattle.sec_sign.specs.Signing.{emit_cause};

    ghost from_gives = { λ e cause. cause ≡ emit_cause e };

    fn from(e: EmitError) -> SignError {
        match e {
            EmitError::OutOfMemory => SignError::OutOfMemory,
            cause => SignError::Emit(cause),
        }
    }
}
