//! Why a signature of a record set is not accepted.
use crate::tbs_error::TbsError;
use sec_codes::KeyError;
use std::error::Error;
use std::fmt;

/// Why a signature of a record set is not accepted. Where several causes apply, the first in this order is answered.
#[derive(Clone, Copy, Debug, PartialEq, Eq)]
pub enum VerifyRrsigError {
    /// Why there are no octets that it could be of.
    Tbs(TbsError),
    /// Why the key is refused, or its signature.
    Key(KeyError),
    /// There was no memory.
    OutOfMemory,
}

/// The name of the variant, and what it holds.
impl fmt::Display for VerifyRrsigError {
    ghost use Rattle.std.specs.Prelude.{Some};
    ghost use Rattle.sec_sign.specs.ErrorTexts.{verify_rrsig_error_text};

    ghost output = { λ error. Some (verify_rrsig_error_text error) };

    fn fmt<W: fmt::Write>(&self, f: &mut fmt::Formatter<W>) -> fmt::Result {
        match self {
            VerifyRrsigError::Tbs(cause) => write!(f, "Tbs {cause}"),
            VerifyRrsigError::Key(cause) => write!(f, "Key {cause}"),
            VerifyRrsigError::OutOfMemory => f.write_str("OutOfMemory"),
        }
    }
}

impl Error for VerifyRrsigError {}

impl From<TbsError> for VerifyRrsigError {
    ghost use Rattle.std.specs.Prelude.{◌≡◌};
    ghost use Rattle.sec_sign.specs.Verifying.{set_cause};

    ghost from_gives = { λ e cause. cause ≡ set_cause e };

    fn from(e: TbsError) -> VerifyRrsigError {
        match e {
            TbsError::OutOfMemory => VerifyRrsigError::OutOfMemory,
            cause => VerifyRrsigError::Tbs(cause),
        }
    }
}

impl From<KeyError> for VerifyRrsigError {
    ghost use Rattle.std.specs.Prelude.{◌≡◌};
    ghost use Rattle.sec_sign.specs.Verifying.{key_cause};

    ghost from_gives = { λ e cause. cause ≡ key_cause e };

    fn from(e: KeyError) -> VerifyRrsigError {
        match e {
            KeyError::OutOfMemory => VerifyRrsigError::OutOfMemory,
            cause => VerifyRrsigError::Key(cause),
        }
    }
}
