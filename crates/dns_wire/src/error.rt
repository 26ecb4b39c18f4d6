//! Why a call is refused.
ghost use Rattle.std.specs.Prelude.{◌≡◌};

use std::alloc::{AllocError, AllocFailed};
use std::error::Error;
use std::fmt;

/// There was no memory.
#[derive(Clone, Copy, Debug, PartialEq, Eq)]
pub struct OutOfMemory;

/// Its name.
impl fmt::Display for OutOfMemory {
    ghost use Rattle.std.specs.Prelude.{Some, codes};

    ghost output = { λ _. Some (codes "OutOfMemory") };

    fn fmt<W: fmt::Write>(&self, f: &mut fmt::Formatter<W>) -> fmt::Result {
        f.write_str("OutOfMemory")
    }
}

impl Error for OutOfMemory {}

impl From<AllocError> for OutOfMemory {
    fn from(_e: AllocError) -> OutOfMemory {
        OutOfMemory
    }
}

impl<T: Drop> From<AllocFailed<T>> for OutOfMemory {
    fn from(_e: AllocFailed<T>) -> OutOfMemory {
        OutOfMemory
    }
}

/// Why a name or a label was not made: the first fault from the left.
#[derive(Clone, Copy, Debug, PartialEq, Eq)]
pub enum NameError {
    /// A label has no octet.
    EmptyLabel,
    /// A label has more than 63 octets.
    LabelTooLong,
    /// The wire form has more than 255 octets.
    NameTooLong,
    /// A backslash before anything but three digits up to 255 or one visible character.
    BadEscape,
    /// A character that is not visible ASCII.
    BadCharacter,
}

/// The name of the variant, and what it holds.
impl fmt::Display for NameError {
    ghost use Rattle.std.specs.Prelude.{Some};
    ghost use Rattle.dns_wire.specs.ErrorTexts.{name_error_text};

    ghost output = { λ error. Some (name_error_text error) };

    fn fmt<W: fmt::Write>(&self, f: &mut fmt::Formatter<W>) -> fmt::Result {
        f.write_str(match self {
            NameError::EmptyLabel => "EmptyLabel",
            NameError::LabelTooLong => "LabelTooLong",
            NameError::NameTooLong => "NameTooLong",
            NameError::BadEscape => "BadEscape",
            NameError::BadCharacter => "BadCharacter",
        })
    }
}

impl Error for NameError {}

/// Why octets were not read.
#[derive(Clone, Copy, Debug, PartialEq, Eq)]
pub enum DecodeError {
    /// An octet was needed past the end.
    InsufficientBytes,
    /// A length octet, a pointer or the length of a name that no name has.
    NameMalformed,
    /// Octets that are no type bitmap.
    BitmapMalformed,
    /// A DNSKEY's protocol that is not 3.
    DnsKeyProtocolNot3(u8),
    /// A KEY's flags with a reserved bit.
    KeyFlagsReserved(u16),
    /// A KEY's flags that call for more flags.
    ExtendedKeyFlagsUnsupported(u16),
    /// An NSEC3's flags with a bit other than opt out.
    UnrecognizedNsec3Flags(u8),
    /// An NSEC3's hash other than SHA-1.
    UnknownNsec3HashAlgorithm(u8),
    /// The number of a digest that is not known.
    UnknownDigestAlgorithm(u8),
    /// The fields of a record's data have other than its length.
    IncorrectRDataLengthRead {
        /// How many octets the fields have.
        read: usize,
        /// How many the data have.
        len: usize,
    },
    /// There was no memory.
    OutOfMemory,
    /// A message above 65,535 octets.
    MessageTooLong,
    /// A TSIG that is not the last additional record.
    TsigNotLast,
}

/// The name of the variant, and what it holds.
impl fmt::Display for DecodeError {
    ghost use Rattle.std.specs.Prelude.{Some};
    ghost use Rattle.dns_wire.specs.ErrorTexts.{decode_error_text};

    ghost output = { λ error. Some (decode_error_text error) };

    fn fmt<W: fmt::Write>(&self, f: &mut fmt::Formatter<W>) -> fmt::Result {
        match self {
            DecodeError::InsufficientBytes => f.write_str("InsufficientBytes"),
            DecodeError::NameMalformed => f.write_str("NameMalformed"),
            DecodeError::BitmapMalformed => f.write_str("BitmapMalformed"),
            DecodeError::DnsKeyProtocolNot3(number) => write!(f, "DnsKeyProtocolNot3 {number}"),
            DecodeError::KeyFlagsReserved(number) => write!(f, "KeyFlagsReserved {number}"),
            DecodeError::ExtendedKeyFlagsUnsupported(number) => write!(
                f,
                "ExtendedKeyFlagsUnsupported {number}"
            ),
            DecodeError::UnrecognizedNsec3Flags(number) => write!(
                f,
                "UnrecognizedNsec3Flags {number}"
            ),
            DecodeError::UnknownNsec3HashAlgorithm(number) => write!(
                f,
                "UnknownNsec3HashAlgorithm {number}"
            ),
            DecodeError::UnknownDigestAlgorithm(number) => write!(
                f,
                "UnknownDigestAlgorithm {number}"
            ),
            DecodeError::IncorrectRDataLengthRead { read, len } => write!(
                f,
                "IncorrectRDataLengthRead {read} {len}"
            ),
            DecodeError::OutOfMemory => f.write_str("OutOfMemory"),
            DecodeError::MessageTooLong => f.write_str("MessageTooLong"),
            DecodeError::TsigNotLast => f.write_str("TsigNotLast"),
        }
    }
}

impl Error for DecodeError {}

impl From<OutOfMemory> for DecodeError {
    ghost use Rattle.dns_wire.specs.declared.error.DecodeError.TheVariants.{OutOfMemory};

    ghost from_gives = { λ _ e. e ≡ OutOfMemory };

    fn from(_e: OutOfMemory) -> DecodeError {
        DecodeError::OutOfMemory
    }
}

impl From<AllocError> for DecodeError {
    ghost use Rattle.dns_wire.specs.declared.error.DecodeError.TheVariants.{OutOfMemory};

    ghost from_gives = { λ _ e. e ≡ OutOfMemory };

    fn from(_e: AllocError) -> DecodeError {
        DecodeError::OutOfMemory
    }
}

impl<T: Drop> From<AllocFailed<T>> for DecodeError {
    ghost use Rattle.dns_wire.specs.declared.error.DecodeError.TheVariants.{OutOfMemory};

    ghost from_gives = { λ _ e. e ≡ OutOfMemory };

    fn from(_e: AllocFailed<T>) -> DecodeError {
        DecodeError::OutOfMemory
    }
}

/// Why octets were not written.
#[derive(Clone, Copy, Debug, PartialEq, Eq)]
pub enum EmitError {
    /// A salt above 255 octets.
    SaltTooLong,
    /// A hashed owner name above 255 octets.
    HashTooLong,
    /// A MAC above 65,535 octets.
    MacTooLong,
    /// A TSIG's other data above 65,535 octets.
    OtherTooLong,
    /// A time that needs more than six octets.
    TimeTooLarge,
    /// One record's data above 65,535 octets.
    DataTooLong,
    /// A message above 65,535 octets.
    MessageTooLong,
    /// More than 65,535 questions or records in one part.
    CountTooLarge,
    /// There was no memory.
    OutOfMemory,
    /// A string above 255 octets.
    StringTooLong,
}

/// The name of the variant, and what it holds.
impl fmt::Display for EmitError {
    ghost use Rattle.std.specs.Prelude.{Some};
    ghost use Rattle.dns_wire.specs.ErrorTexts.{emit_error_text};

    ghost output = { λ error. Some (emit_error_text error) };

    fn fmt<W: fmt::Write>(&self, f: &mut fmt::Formatter<W>) -> fmt::Result {
        f.write_str(match self {
            EmitError::SaltTooLong => "SaltTooLong",
            EmitError::HashTooLong => "HashTooLong",
            EmitError::MacTooLong => "MacTooLong",
            EmitError::OtherTooLong => "OtherTooLong",
            EmitError::TimeTooLarge => "TimeTooLarge",
            EmitError::DataTooLong => "DataTooLong",
            EmitError::MessageTooLong => "MessageTooLong",
            EmitError::CountTooLarge => "CountTooLarge",
            EmitError::OutOfMemory => "OutOfMemory",
            EmitError::StringTooLong => "StringTooLong",
        })
    }
}

impl Error for EmitError {}

impl From<OutOfMemory> for EmitError {
    ghost use Rattle.dns_wire.specs.declared.error.EmitError.TheVariants.{OutOfMemory};

    ghost from_gives = { λ _ e. e ≡ OutOfMemory };

    fn from(_e: OutOfMemory) -> EmitError {
        EmitError::OutOfMemory
    }
}

impl From<AllocError> for EmitError {
    ghost use Rattle.dns_wire.specs.declared.error.EmitError.TheVariants.{OutOfMemory};

    ghost from_gives = { λ _ e. e ≡ OutOfMemory };

    fn from(_e: AllocError) -> EmitError {
        EmitError::OutOfMemory
    }
}

impl<T: Drop> From<AllocFailed<T>> for EmitError {
    ghost use Rattle.dns_wire.specs.declared.error.EmitError.TheVariants.{OutOfMemory};

    ghost from_gives = { λ _ e. e ≡ OutOfMemory };

    fn from(_e: AllocFailed<T>) -> EmitError {
        EmitError::OutOfMemory
    }
}
