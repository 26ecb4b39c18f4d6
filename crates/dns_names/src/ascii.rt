//! Names read from text.
ghost use Rattle.std.specs.Prelude.{◌≡◌, ◌≤◌, ℕ, List, [], length, IfOk, MatchResult, Ok, Err};
ghost use Rattle.dns_wire.specs.Reading.{Gives};
ghost use Rattle.dns_names.specs.Names.{IsName};
ghost use Rattle.dns_names.specs.NameText.{first_octet, escaped, add_octet, name_at_end, completed_name};
ghost use Rattle.dns_names.specs.NameText.{name_from_text, Spells};

use crate::label::MAX_LABEL;
use crate::name::Name;
use dns_wire::NameError;
use std::marker::Model;

/// The octets of a label so far.
#[derive(Drop)]
struct LabelBuf {
    octets: [u8; MAX_LABEL],
    len: usize,
}

impl Model for LabelBuf {
    ghost use Rattle.std.specs.Prelude.{List, ℕ, ◌≤◌, take};

    ghost Value = { List ℕ };

    ghost view = { λ s. take s.len s.octets };

    ghost invariant = { λ s. s.len ≤ 63 };
}

impl LabelBuf {
    fn new() -> LabelBuf
        ensures { result ≡ [] }
    {
        LabelBuf {
            octets: [0; MAX_LABEL],
            len: 0,
        }
    }

    /// Adds an octet at the end.
    ///
    /// # Errors
    ///
    /// `LabelTooLong` where there are 63 octets.
    fn add_octet(&mut self, octet: u8) -> Result<(), NameError>
        ensures { MatchResult result (λ _. add_octet self.old octet ≡ Ok self.new) (λ e. add_octet self.old octet
            ≡ Err e) }
    {
        if self.len == MAX_LABEL {
            return Err(NameError::LabelTooLong);
        }
        self.octets[self.len] = octet;
        self.len += 1;
        Ok(())
    }

    fn as_slice(&self) -> &[u8]
        ensures value { result.now ≡ self.now }
        ensures at_most_63 { length self.now ≤ 63 }
    {
        &self.octets[..self.len]
    }
}

/// The octet behind a backslash, and how many characters spell it there.
fn escaped_octet(text: &[u8]) -> Result<(u8, usize), NameError>
    ensures { Gives (λ x. (x.0, x.1)) result (escaped text.now) }
{
    match text {
        [a, b, c, ..] if a.is_ascii_digit() => {
            if !b.is_ascii_digit() || !c.is_ascii_digit() {
                return Err(NameError::BadEscape);
            }
            let value = u16::from(*a - b'0') * 100
                + u16::from(*b - b'0') * 10
                + u16::from(*c - b'0');
            if value > 255 {
                return Err(NameError::BadEscape);
            }
            Ok((value as u8, 3))
        }
        [a, ..] if !a.is_ascii_digit() && a.is_ascii_graphic() => Ok((*a, 1)),
        _ => Err(NameError::BadEscape),
    }
}

/// The octet that a text begins with, and how many characters behind the first spell it too.
fn first_octet(first: u8, rest: &[u8]) -> Result<(u8, usize), NameError>
    ensures { Gives (λ x. (x.0, x.1)) result (first_octet first rest.now) }
{
    match first {
        b'\\' => escaped_octet(rest),
        33..=126 => Ok((first, 0)),
        _ => Err(NameError::BadCharacter),
    }
}

/// The name that a text other than one dot spells.
fn spelled_name(text: &[u8]) -> Result<Name, NameError>
    ensures { result ≡ completed_name 0 [] [] text.now }
{
    let mut name = Name::root();
    let mut label = LabelBuf::new();
    let mut rest = text;
    'characters: while let [first, after @ ..] = rest {
        if *first == b'.' {
            name.add_label(label.as_slice())?;
            label = LabelBuf::new();
            rest = after;
        } else {
            let (octet, behind) = first_octet(*first, after)?;
            label.add_octet(octet)?;
            rest = &after[behind..];
        }
    }
    name.finished(label.as_slice())
}

impl Name {
    /// The name at the end of the text, where a dot may have stood last.
    fn finished(mut self, label: &[u8]) -> Result<Name, NameError>
        requires { length label.now ≤ 63 }
        ensures { result ≡ name_at_end self label.now }
    {
        if label.is_empty() && !self.is_root() {
            return Ok(self);
        }
        self.add_label(label)?;
        Ok(self)
    }

    /// The name that the text spells, fully qualified with or without a dot at its end (RFC 1035 5.1). A backslash and
    /// three decimal digits are an octet, a backslash and another visible character that character. One dot is the
    /// root.
    ///
    /// # Errors
    ///
    /// The first fault from the left: `EmptyLabel` at two dots, at a dot at the front and for no text, `LabelTooLong`
    /// at the 64th octet of a label, `NameTooLong` at the end of a label that brings the wire form above 255 octets,
    /// `BadEscape` at a backslash before anything else, `BadCharacter` at a character that is not visible ASCII.
    pub fn from_ascii(text: &str) -> Result<Name, NameError>
        ensures found { IfOk result (λ n. Spells text.now n × IsName n) }
        ensures only { (n : List (List ℕ)) → Spells text.now n → IsName n → result ≡ Ok n }
        ensures exact { result ≡ name_from_text text.now }
    {
        Name::from_ascii_octets(text.as_bytes())
    }

    /// The name that octets spell, as `from_ascii` reads a text.
    ///
    /// # Errors
    ///
    /// Those of `from_ascii`; no octet above 126 is a visible character.
    pub fn from_ascii_octets(text: &[u8]) -> Result<Name, NameError>
        ensures found { IfOk result (λ n. Spells text.now n × IsName n) }
        ensures only { (n : List (List ℕ)) → Spells text.now n → IsName n → result ≡ Ok n }
        ensures exact { result ≡ name_from_text text.now }
    {
        if text == b".".as_slice() {
            return Ok(Name::root());
        }
        spelled_name(text)
    }
}
