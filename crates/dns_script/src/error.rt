//! Why a line, or a script, was not read.

ghost use Rattle.std.specs.Prelude.{◌≡◌};
ghost use Rattle.dns_script.specs.LineErrors.{numbered};
ghost use Rattle.dns_script.specs.declared.error.LineError.TheVariants.{OutOfMemory as no_memory};

use crate::reason::Reason;
use dns_wire::OutOfMemory;
use std::alloc::{AllocError, AllocFailed};
use std::error::Error;
use std::fmt;

/// Why a line was not read.
#[derive(Clone, Copy, Debug, PartialEq, Eq)]
pub enum LineError {
    /// The line is faulty.
    Fault(Reason),
    /// There was no memory.
    OutOfMemory,
}

impl LineError {
    /// The error of the line with this number.
    pub fn numbered(self, line: u64) -> ScriptError
        ensures { result ≡ numbered line self }
    {
        match self {
            LineError::Fault(reason) => ScriptError::Fault { line, reason },
            LineError::OutOfMemory => ScriptError::OutOfMemory,
        }
    }
}

impl From<OutOfMemory> for LineError {
    ghost from_gives = { λ _ e. e ≡ no_memory };

    fn from(_: OutOfMemory) -> Self {
        LineError::OutOfMemory
    }
}

impl From<AllocError> for LineError {
    ghost from_gives = { λ _ e. e ≡ no_memory };

    fn from(_: AllocError) -> Self {
        LineError::OutOfMemory
    }
}

impl<T: Drop> From<AllocFailed<T>> for LineError {
    ghost from_gives = { λ _ e. e ≡ no_memory };

    fn from(_: AllocFailed<T>) -> Self {
        LineError::OutOfMemory
    }
}

/// Why no script was read.
#[derive(Clone, Copy, Debug, PartialEq, Eq)]
pub enum ScriptError {
    /// The first faulty line, numbered from 1.
    Fault {
        /// The number of the line.
        line: u64,
        /// Why it is faulty.
        reason: Reason,
    },
    /// There was no memory.
    OutOfMemory,
}

/// The name of the variant, the line and the reason.
impl fmt::Display for ScriptError {
    ghost use Rattle.std.specs.Prelude.{Some};
    ghost use Rattle.dns_script.specs.ErrorTexts.{script_error_text};

    ghost output = { λ error. Some (script_error_text error) };

    fn fmt<W: fmt::Write>(&self, f: &mut fmt::Formatter<W>) -> fmt::Result {
        match self {
            ScriptError::Fault { line, reason } => write!(f, "Fault {line} {reason}"),
            ScriptError::OutOfMemory => f.write_str("OutOfMemory"),
        }
    }
}

impl Error for ScriptError {}
