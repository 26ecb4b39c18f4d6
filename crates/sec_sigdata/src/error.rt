//! Why a signature is not made or not accepted.
ghost use Rattle.std.specs.Prelude.{◌≡◌, IfOk};

use crate::tsig_algorithm::TsigAlgorithm;
use dns_wire::{DecodeError, OutOfMemory};
use std::alloc::AllocError;
use std::error::Error;
use std::fmt;

/// The answer of a call that signs or checks.
pub type DnsSecResult<T> = Result<T, DnsSecError>;

/// Why a signature is not made or not accepted.
#[derive(Debug, PartialEq, Eq, Drop)]
pub enum DnsSecError {
    /// The tag is not the MAC of the message.
    HmacInvalid,
    /// A text that stands in the program.
    Message(&'static str),
    /// A text that was made.
    Msg(String),
    /// Octets that were not read.
    Proto(DecodeError),
    /// An algorithm whose MACs are not made.
    TsigUnsupportedMacAlgorithm(TsigAlgorithm),
    /// Another key or algorithm than the signer's.
    TsigWrongKey,
    /// There was no memory.
    OutOfMemory,
}

/// The name of the variant, and what it holds.
impl fmt::Display for DnsSecError {
    ghost use Rattle.std.specs.Prelude.{Some};
    ghost use Rattle.sec_sigdata.specs.ErrorTexts.{dns_sec_error_text};

    ghost output = { λ error. Some (dns_sec_error_text error) };

    fn fmt<W: fmt::Write>(&self, f: &mut fmt::Formatter<W>) -> fmt::Result {
        match self {
            DnsSecError::HmacInvalid => f.write_str("HmacInvalid"),
            DnsSecError::Message(text) => write!(f, "Message {text}"),
            DnsSecError::Msg(text) => write!(f, "Msg {text}"),
            DnsSecError::Proto(fault) => write!(f, "Proto {fault}"),
            DnsSecError::TsigUnsupportedMacAlgorithm(algorithm) => {
                write!(f, "TsigUnsupportedMacAlgorithm {algorithm}")
            }
            DnsSecError::TsigWrongKey => f.write_str("TsigWrongKey"),
            DnsSecError::OutOfMemory => f.write_str("OutOfMemory"),
        }
    }
}

impl Error for DnsSecError {}

impl DnsSecError {
    ghost use Rattle.sec_sigdata.specs.Errors.{IsCopyOf};

    /// A copy of the error.
    ///
    /// # Errors
    ///
    /// Out of memory.
    pub fn try_clone(&self) -> Result<DnsSecError, OutOfMemory>
        ensures { IfOk result (λ copy. IsCopyOf copy self.now) }
    {
        Ok(match self {
            DnsSecError::HmacInvalid => DnsSecError::HmacInvalid,
            DnsSecError::Message(text) => DnsSecError::Message(text),
            DnsSecError::Msg(text) => DnsSecError::Msg(text.clone()?),
            DnsSecError::Proto(error) => DnsSecError::Proto(*error),
            DnsSecError::TsigUnsupportedMacAlgorithm(algorithm) => {
                DnsSecError::TsigUnsupportedMacAlgorithm(*algorithm)
            }
            DnsSecError::TsigWrongKey => DnsSecError::TsigWrongKey,
            DnsSecError::OutOfMemory => DnsSecError::OutOfMemory,
        })
    }
}

impl From<String> for DnsSecError {
    ghost use Rattle.std.specs.Prelude.{◌≡◌};
    ghost use Rattle.sec_sigdata.specs.declared.error.DnsSecError.TheVariants.{Msg};

    ghost from_gives = { λ text e. e ≡ Msg text };

    fn from(text: String) -> DnsSecError {
        DnsSecError::Msg(text)
    }
}

impl From<&'static str> for DnsSecError {
    ghost use Rattle.std.specs.Prelude.{◌≡◌};
    ghost use Rattle.sec_sigdata.specs.declared.error.DnsSecError.TheVariants.{Message};

    ghost from_gives = { λ text e. e ≡ Message text };

    fn from(text: &'static str) -> DnsSecError {
        DnsSecError::Message(text)
    }
}

impl From<AllocError> for DnsSecError {
    ghost use Rattle.std.specs.Prelude.{◌≡◌};
    ghost use Rattle.sec_sigdata.specs.declared.error.DnsSecError.TheVariants.{OutOfMemory};

    ghost from_gives = { λ _ e. e ≡ OutOfMemory };

    fn from(_e: AllocError) -> DnsSecError {
        DnsSecError::OutOfMemory
    }
}
