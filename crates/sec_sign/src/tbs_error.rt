//! Why there are no octets to sign.
use dns_wire::EmitError;
use std::alloc::AllocError;
use std::error::Error;
use std::fmt;

/// Why there are no octets to sign. Where several causes apply, the first in this order is answered.
#[derive(Clone, Copy, Debug, PartialEq, Eq)]
pub enum TbsError {
    /// More labels than the owner of the records has, a `*` in front not counted.
    LabelsExceedOwner {
        /// How many labels there should be.
        labels: u8,
        /// How many the owner has.
        owner: u8,
    },
    /// Why the first record of the set that can't be written can't.
    Emit(EmitError),
    /// There was no memory.
    OutOfMemory,
}

/// The name of the variant, and what it holds.
impl fmt::Display for TbsError {
    ghost use Rattle.std.specs.Prelude.{Some};
    ghost use Rattle.sec_sign.specs.ErrorTexts.{tbs_error_text};

    ghost output = { λ error. Some (tbs_error_text error) };

    fn fmt<W: fmt::Write>(&self, f: &mut fmt::Formatter<W>) -> fmt::Result {
        match self {
            TbsError::LabelsExceedOwner { labels, owner } => write!(
                f,
                "LabelsExceedOwner {labels} {owner}"
            ),
            TbsError::Emit(cause) => write!(f, "Emit {cause}"),
            TbsError::OutOfMemory => f.write_str("OutOfMemory"),
        }
    }
}

impl Error for TbsError {}

impl From<EmitError> for TbsError {
    ghost use Rattle.std.specs.Prelude.{◌≡◌};
    ghost use Rattle.sec_sign.specs.Causes.{tbs_cause};

    ghost from_gives = { λ e cause. cause ≡ tbs_cause e };

    fn from(e: EmitError) -> TbsError {
        match e {
            EmitError::OutOfMemory => TbsError::OutOfMemory,
            cause => TbsError::Emit(cause),
        }
    }
}

impl From<AllocError> for TbsError {
    ghost use Rattle.std.specs.Prelude.{◌≡◌};
    ghost use Rattle.sec_sign.specs.declared.tbs_error.TbsError.TheVariants.{OutOfMemory};

    ghost from_gives = { λ _ cause. cause ≡ OutOfMemory };

    fn from(_e: AllocError) -> TbsError {
        TbsError::OutOfMemory
    }
}
