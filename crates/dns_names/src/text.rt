//! Names as text (RFC 1035 5.1). Each loop that writes has a value of its own, an octet, a label or a name, whose text
//! is stated.
ghost use Rattle.std.specs.Prelude.{◌≡◌, ◌++◌, ◌∷◌, [], Some};
ghost use Rattle.std.specs.List.{flat_map};
ghost use Rattle.dns_names.specs.NameText.{is_special, octet_text, octets_text, label_text, name_text};
ghost use Rattle.dns_names.specs.NameText.{name_text_without_dot};

use crate::label::Label;
use crate::name::Name;
use std::fmt;

/// An octet of a label.
#[derive(Drop)]
struct OctetText(u8);

impl fmt::Display for OctetText {
    ghost output = { λ octet. Some (octet_text octet.0) };

    fn fmt<W: fmt::Write>(&self, f: &mut fmt::Formatter<W>) -> fmt::Result {
        let octet = self.0;
        if is_special(octet) {
            write!(f, "\\{}", char::from(octet))
        } else if octet.is_ascii_graphic() {
            write!(f, "{}", char::from(octet))
        } else {
            write!(f, "\\{}{}{}", octet / 100, octet / 10 % 10, octet % 10)
        }
    }
}

/// Whether a backslash stands before the octet in the text of a label (RFC 1035 5.1), as before a dot, a backslash, a
/// quote, a parenthesis, a semicolon, an at sign and a dollar sign.
pub fn is_special(octet: u8) -> bool
    ensures { result ≡ is_special octet }
{
    matches!(
        octet,
        b'.' | b'\\' | b'"' | b'(' | b')' | b';' | b'@' | b'$'
    )
}

/// The octets of a label.
#[derive(Drop)]
struct OctetsText<'a>(&'a [u8]);

impl fmt::Display for OctetsText<'_> {
    ghost output = { λ label. Some (octets_text label.0.now) };

    fn fmt<W: fmt::Write>(&self, f: &mut fmt::Formatter<W>) -> fmt::Result {
        let octets = self.0;
        for octet in octets {
            write!(f, "{}", OctetText(*octet))?;
        }
        Ok(())
    }
}

/// A label and the dot behind it.
#[derive(Drop)]
struct LabelText<'a>(&'a [u8]);

impl fmt::Display for LabelText<'_> {
    ghost output = { λ label. Some (label_text label.0.now) };

    fn fmt<W: fmt::Write>(&self, f: &mut fmt::Formatter<W>) -> fmt::Result {
        write!(f, "{}.", OctetsText(self.0))
    }
}

/// As `Display`, in quotes.
impl fmt::Debug for Name {
    fn fmt<W: fmt::Write>(&self, f: &mut fmt::Formatter<W>) -> fmt::Result {
        write!(f, "Name(\"{self}\")")
    }
}

/// The octets as text, and the dot behind them.
impl fmt::Debug for Label {
    fn fmt<W: fmt::Write>(&self, f: &mut fmt::Formatter<W>) -> fmt::Result {
        write!(f, "Label(\"{}\")", LabelText(self.as_slice()))
    }
}

/// Each label with its dot; the root is one dot. A visible octet stands for itself, with a backslash before `.`, `\`,
/// `"`, `(`, `)`, `;`, `@` and `$`, and any other octet is a backslash and three decimal digits.
impl fmt::Display for Name {
    ghost output = { λ name. Some (name_text name) };

    fn fmt<W: fmt::Write>(&self, f: &mut fmt::Formatter<W>) -> fmt::Result {
        if self.is_root() {
            return f.write_str(".");
        }
        for label in self.iter() {
            write!(f, "{}", LabelText(label))?;
        }
        Ok(())
    }
}

/// A name that prints as `Name` does, without its last dot. The root is one dot.
#[derive(Clone, Copy)]
pub struct NameWithoutDot<'a>(pub &'a Name);

impl fmt::Display for NameWithoutDot<'_> {
    ghost output = { λ name. Some (name_text_without_dot name.0.now) };

    fn fmt<W: fmt::Write>(&self, f: &mut fmt::Formatter<W>) -> fmt::Result {
        let mut labels = self.0.iter();
        let Some(first) = labels.next() else {
            return f.write_str(".");
        };
        write!(f, "{}", OctetsText(first))?;
        for label in labels {
            write!(f, ".{}", OctetsText(label))?;
        }
        Ok(())
    }
}
