//! Octets as hexadecimal (RFC 4648 8).
ghost use Rattle.std.specs.Prelude.{◌≡◌, ◌<◌, slice_index, Some};
ghost use Rattle.dns_text.specs.HexText.{digits, hex, lower_hex, upper_hex};

use std::fmt;

/// The letters of the digits 10 to 15.
#[derive(Clone, Copy)]
enum Letters {
    /// `a` to `f`.
    Lower,
    /// `A` to `F`.
    Upper,
}

impl Letters {
    /// The digit of a number.
    fn digit(self, n: u8) -> u8
        requires { n < 16 }
        ensures value { result ≡ slice_index (digits self) n }
        ensures ascii { result < 128 }
    {
        match self {
            Letters::Lower => b"0123456789abcdef"[usize::from(n)],
            Letters::Upper => b"0123456789ABCDEF"[usize::from(n)],
        }
    }
}

/// Octets that print as two digits each.
#[derive(Clone, Copy)]
struct Hex<'a> {
    octets: &'a [u8],
    letters: Letters,
}

impl fmt::Display for Hex<'_> {
    ghost output = { λ text. Some (hex (digits text.letters) text.octets.now) };

    fn fmt<W: fmt::Write>(&self, f: &mut fmt::Formatter<W>) -> fmt::Result {
        let octets = self.octets;
        let letters = self.letters;
        for octet in octets {
            let high = letters.digit(*octet / 16);
            let low = letters.digit(*octet % 16);
            write!(f, "{}{}", char::from(high), char::from(low))?;
        }
        Ok(())
    }
}

/// Octets that print as hexadecimal in lower case.
#[derive(Clone, Copy)]
pub struct LowerHex<'a>(pub &'a [u8]);

impl fmt::Display for LowerHex<'_> {
    ghost output = { λ text. Some (lower_hex text.0.now) };

    fn fmt<W: fmt::Write>(&self, f: &mut fmt::Formatter<W>) -> fmt::Result {
        let text = Hex {
            octets: self.0,
            letters: Letters::Lower,
        };
        write!(f, "{}", text)
    }
}

/// Octets that print as hexadecimal in upper case.
#[derive(Clone, Copy)]
pub struct UpperHex<'a>(pub &'a [u8]);

impl fmt::Display for UpperHex<'_> {
    ghost output = { λ text. Some (upper_hex text.0.now) };

    fn fmt<W: fmt::Write>(&self, f: &mut fmt::Formatter<W>) -> fmt::Result {
        let text = Hex {
            octets: self.0,
            letters: Letters::Upper,
        };
        write!(f, "{}", text)
    }
}
