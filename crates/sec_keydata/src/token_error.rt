//! Why a text is no record data.
use std::alloc::AllocError;
use std::error::Error;
use std::fmt;

/// A field of the text of a DNSKEY or a DS (RFC 4034 2.2, 5.3).
#[derive(Clone, Copy, Debug, PartialEq, Eq)]
pub enum TokenField {
    /// The flags of a DNSKEY.
    Flags,
    /// The protocol of a DNSKEY.
    Protocol,
    /// The algorithm of a DNSKEY or a DS.
    Algorithm,
    /// The key of a DNSKEY.
    PublicKey,
    /// The key tag of a DS.
    KeyTag,
    /// The digest type of a DS.
    DigestType,
    /// The digest of a DS.
    Digest,
}

/// The name of the variant, and what it holds.
impl fmt::Display for TokenField {
    ghost use Rattle.std.specs.Prelude.{Some};
    ghost use Rattle.sec_keydata.specs.ErrorTexts.{token_field_text};

    ghost output = { λ error. Some (token_field_text error) };

    fn fmt<W: fmt::Write>(&self, f: &mut fmt::Formatter<W>) -> fmt::Result {
        f.write_str(match self {
            TokenField::Flags => "Flags",
            TokenField::Protocol => "Protocol",
            TokenField::Algorithm => "Algorithm",
            TokenField::PublicKey => "PublicKey",
            TokenField::KeyTag => "KeyTag",
            TokenField::DigestType => "DigestType",
            TokenField::Digest => "Digest",
        })
    }
}

/// Why a text is not read as a DNSKEY or a DS.
#[derive(Clone, Copy, Debug, PartialEq, Eq)]
pub enum TokenError {
    /// The text ends before a field.
    Missing(TokenField),
    /// A number that isn't decimal digits, or that its field does not hold.
    BadNumber,
    /// The protocol of a DNSKEY is not 3.
    ProtocolNot3,
    /// A key that is not the base64 of octets.
    BadBase64,
    /// A digest with a pair of octets that isn't two hexadecimal digits.
    BadHex,
    /// There was no memory.
    OutOfMemory,
}

/// The name of the variant, and what it holds.
impl fmt::Display for TokenError {
    ghost use Rattle.std.specs.Prelude.{Some};
    ghost use Rattle.sec_keydata.specs.ErrorTexts.{token_error_text};

    ghost output = { λ error. Some (token_error_text error) };

    fn fmt<W: fmt::Write>(&self, f: &mut fmt::Formatter<W>) -> fmt::Result {
        match self {
            TokenError::Missing(field) => write!(f, "Missing {field}"),
            TokenError::BadNumber => f.write_str("BadNumber"),
            TokenError::ProtocolNot3 => f.write_str("ProtocolNot3"),
            TokenError::BadBase64 => f.write_str("BadBase64"),
            TokenError::BadHex => f.write_str("BadHex"),
            TokenError::OutOfMemory => f.write_str("OutOfMemory"),
        }
    }
}

impl Error for TokenError {}

impl From<AllocError> for TokenError {
    ghost use Rattle.std.specs.Prelude.{◌≡◌};
    ghost use Rattle.sec_keydata.specs.declared.token_error.TokenError.TheVariants as errors;

    ghost from_gives = { λ _ e. e ≡ errors.OutOfMemory };

    fn from(_e: AllocError) -> TokenError {
        TokenError::OutOfMemory
    }
}
