//! Octets as base64.
ghost use Rattle.std.specs.Prelude.{Some};
ghost use Rattle.base64.specs.Engines.{standard};
ghost use Rattle.base64.specs.GeneralPurpose.{encode_of};

use base64::display::Base64Display;
use base64::engine::general_purpose::STANDARD;
use std::fmt;

/// Octets that print as base64, with padding (RFC 4648 4).
#[derive(Clone, Copy)]
pub struct Base64Text<'a>(pub &'a [u8]);

impl fmt::Display for Base64Text<'_> {
    ghost output = { λ text. Some (encode_of standard text.0.now) };

    fn fmt<W: fmt::Write>(&self, f: &mut fmt::Formatter<W>) -> fmt::Result {
        write!(f, "{}", Base64Display::new(self.0, &STANDARD))
    }
}
