//! Octets as a word.
ghost use Rattle.std.specs.Prelude.{Some};
ghost use Rattle.dns_rows.specs.Rows.{hex_word};

use dns_text::LowerHex;
use std::fmt;

/// Octets that print in hexadecimal, in lower case, and as `-` where there are none.
#[derive(Clone, Copy)]
pub struct HexWord<'a>(pub &'a [u8]);

impl fmt::Display for HexWord<'_> {
    ghost output = { λ word. Some (hex_word word.0.now) };

    fn fmt<W: fmt::Write>(&self, f: &mut fmt::Formatter<W>) -> fmt::Result {
        let octets = self.0;
        if octets.is_empty() {
            f.write_str("-")
        } else {
            write!(f, "{}", LowerHex(octets))
        }
    }
}
