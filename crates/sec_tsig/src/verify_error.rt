//! Why a message is no valid answer.
use dns_message::ResponseError;
use std::alloc::AllocError;
use std::error::Error;
use std::fmt;

/// Why a message is no valid answer: the first that holds.
#[derive(Clone, Copy, Debug, PartialEq, Eq)]
pub enum VerifyError {
    /// The octets are no message.
    Decode,
    /// Its last additional record is no TSIG.
    MissingTsig,
    /// The TSIG names another key, or another algorithm.
    TsigWrongKey,
    /// The MAC is shorter than the algorithm's.
    TruncatedMac,
    /// The MAC is not that of the message.
    HmacInvalid,
    /// It was signed before the last answer, or the request was not sent within its window.
    Outdated,
    /// It is no response.
    NotAResponse,
    /// There was no memory.
    OutOfMemory,
}

/// The name of the variant, and what it holds.
impl fmt::Display for VerifyError {
    ghost use Rattle.std.specs.Prelude.{Some};
    ghost use Rattle.sec_tsig.specs.ErrorTexts.{verify_error_text};

    ghost output = { λ error. Some (verify_error_text error) };

    fn fmt<W: fmt::Write>(&self, f: &mut fmt::Formatter<W>) -> fmt::Result {
        f.write_str(match self {
            VerifyError::Decode => "Decode",
            VerifyError::MissingTsig => "MissingTsig",
            VerifyError::TsigWrongKey => "TsigWrongKey",
            VerifyError::TruncatedMac => "TruncatedMac",
            VerifyError::HmacInvalid => "HmacInvalid",
            VerifyError::Outdated => "Outdated",
            VerifyError::NotAResponse => "NotAResponse",
            VerifyError::OutOfMemory => "OutOfMemory",
        })
    }
}

impl Error for VerifyError {}

impl From<AllocError> for VerifyError {
    ghost use Rattle.std.specs.Prelude.{◌≡◌};
    ghost use Rattle.sec_tsig.specs.declared.verify_error.VerifyError.TheVariants.{OutOfMemory};

    ghost from_gives = { λ _ e. e ≡ OutOfMemory };

    fn from(_e: AllocError) -> VerifyError {
        VerifyError::OutOfMemory
    }
}

impl From<ResponseError> for VerifyError {
    ghost use Rattle.std.specs.Prelude.{◌≡◌};
    ghost use Rattle.sec_tsig.specs.ResponseCauses.{response_cause};

    ghost from_gives = { λ error cause. cause ≡ response_cause error };

    fn from(error: ResponseError) -> VerifyError {
        match error {
            ResponseError::Decode(_) => VerifyError::Decode,
            ResponseError::NotAResponse => VerifyError::NotAResponse,
            ResponseError::OutOfMemory => VerifyError::OutOfMemory,
        }
    }
}
