//! The errors that a TSIG record tells of (RFC 8945 3).
ghost use Rattle.std.specs.Prelude.{◌≡◌};
ghost use Rattle.sec_sigdata.specs.TsigErrors as specs;
ghost use Rattle.sec_sigdata.specs.TsigErrors.{error_number, error_numbered};

/// Why a message's signature was not accepted, as the TSIG of the answer says. The order is that of the variants, with
/// `Unknown` last, by its number.
#[derive(Clone, Copy, Debug, PartialEq, Eq, PartialOrd, Hash)]
pub enum TsigError {
    /// Number 16: the MAC is not that of the message.
    BadSig,
    /// Number 17: the key or its algorithm is not known.
    BadKey,
    /// Number 18: the time of signing is outside the window.
    BadTime,
    /// Number 22: the MAC is cut too short.
    BadTrunc,
    /// Any other number.
    Unknown(u16),
}

impl From<u16> for TsigError {
    ghost from_gives = { λ number error. error ≡ error_numbered number };

    fn from(number: u16) -> TsigError {
        match number {
            16 => TsigError::BadSig,
            17 => TsigError::BadKey,
            18 => TsigError::BadTime,
            22 => TsigError::BadTrunc,
            _ => TsigError::Unknown(number),
        }
    }
}

impl From<TsigError> for u16 {
    ghost from_gives = { λ error number. number ≡ error_number error };

    fn from(error: TsigError) -> u16 {
        match error {
            TsigError::BadSig => 16,
            TsigError::BadKey => 17,
            TsigError::BadTime => 18,
            TsigError::BadTrunc => 22,
            TsigError::Unknown(number) => number,
        }
    }
}

/// The number of an error, and 0 for none.
pub(crate) fn optional_error_number(error: Option<TsigError>) -> u16
    ensures { result ≡ specs.optional_error_number error }
{
    match error {
        Some(error) => error.into(),
        None => 0,
    }
}

/// The error of a number, and none for 0.
pub(crate) fn optional_error(number: u16) -> Option<TsigError>
    ensures error { result ≡ specs.optional_error number }
    ensures number { specs.optional_error_number result ≡ number }
{
    if number == 0 {
        None
    } else {
        Some(TsigError::from(number))
    }
}
