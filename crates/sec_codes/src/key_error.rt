//! Why a key is refused, or what it signed.
use std::error::Error;
use std::fmt;

/// The form of a key.
#[derive(Clone, Copy, Debug, PartialEq, Eq)]
pub enum KeyKind {
    /// A point of an elliptic curve, for ECDSA.
    Ec,
    /// A key of Ed25519.
    Ed,
    /// An exponent and a modulus, for RSA.
    Rsa,
}

/// The name of the variant, and what it holds.
impl fmt::Display for KeyKind {
    ghost use Rattle.std.specs.Prelude.{Some};
    ghost use Rattle.sec_codes.specs.ErrorTexts.{key_kind_text};

    ghost output = { λ error. Some (key_kind_text error) };

    fn fmt<W: fmt::Write>(&self, f: &mut fmt::Formatter<W>) -> fmt::Result {
        f.write_str(match self {
            KeyKind::Ec => "Ec",
            KeyKind::Ed => "Ed",
            KeyKind::Rsa => "Rsa",
        })
    }
}

/// Why a key is refused, or a signature by it.
#[derive(Clone, Copy, Debug, PartialEq, Eq)]
pub enum KeyError {
    /// An algorithm, by its number, whose keys are not taken.
    UnsupportedAlgorithm(u8),
    /// Another number of octets than keys of the algorithm have.
    WrongLength {
        /// How many octets a key has.
        expected: usize,
        /// How many there are.
        found: usize,
    },
    /// Octets that are no exponent and modulus.
    BadRsaKey,
    /// The scheme does not accept the signature by a key of this form.
    Crypto(KeyKind),
    /// There was no memory.
    OutOfMemory,
}

/// The name of the variant, and what it holds.
impl fmt::Display for KeyError {
    ghost use Rattle.std.specs.Prelude.{Some};
    ghost use Rattle.sec_codes.specs.ErrorTexts.{key_error_text};

    ghost output = { λ error. Some (key_error_text error) };

    fn fmt<W: fmt::Write>(&self, f: &mut fmt::Formatter<W>) -> fmt::Result {
        match self {
            KeyError::UnsupportedAlgorithm(number) => write!(f, "UnsupportedAlgorithm {number}"),
            KeyError::WrongLength { expected, found } => write!(
                f,
                "WrongLength {expected} {found}"
            ),
            KeyError::BadRsaKey => f.write_str("BadRsaKey"),
            KeyError::Crypto(kind) => write!(f, "Crypto {kind}"),
            KeyError::OutOfMemory => f.write_str("OutOfMemory"),
        }
    }
}

impl Error for KeyError {}
