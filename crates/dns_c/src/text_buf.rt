//! The text of a name, without memory.
ghost use Rattle.std.specs.Prelude.{◌≡◌, ◌+◌, ◌≤◌, [], ◌++◌, length};
ghost use Rattle.dns_names.specs.NameText.{octet_text, label_text, name_text};

use dns_names::{Name, is_special};
use std::marker::Model;

/// How many octets the text of a name has at most: four for each octet of its labels, and a dot for each label.
const LONGEST_TEXT: usize = 1004;

/// The text of a name so far.
#[derive(Drop)]
pub(crate) struct TextBuf {
    octets: [u8; LONGEST_TEXT],
    len: usize,
}

impl Model for TextBuf {
    ghost use Rattle.std.specs.Prelude.{List, ℕ, ◌≤◌, take};

    ghost Value = { List ℕ };

    ghost view = { λ s. take s.len s.octets };

    ghost invariant = { λ s. s.len ≤ 1004 };
}

impl TextBuf {
    fn new() -> TextBuf
        ensures { result ≡ [] }
    {
        TextBuf {
            octets: [0; LONGEST_TEXT],
            len: 0,
        }
    }

    /// The text of the name (RFC 1035 5.1).
    #[tactic(auto, using(crate::proofs::TextLengths::label_fits))]
    pub(crate) fn of_name(name: &Name) -> TextBuf
        ensures { result ≡ name_text name.now }
    {
        let mut text = TextBuf::new();
        if name.is_root() {
            text.add(b".");
            return text;
        }
        for label in name.iter() {
            text.add_label(label);
        }
        text
    }

    /// Adds octets at the end.
    fn add(&mut self, octets: &[u8])
        requires { length self.old + length octets.now ≤ 1004 }
        ensures { self.new ≡ self.old ++ octets.now }
    {
        let end = self.len + octets.len();
        self.octets[self.len..end].copy_from_slice(octets);
        self.len = end;
    }

    /// Adds the text of an octet of a label.
    #[tactic(auto, using(crate::proofs::TextLengths::octet_in_digits))]
    fn add_octet(&mut self, octet: u8)
        requires { length self.old + length (octet_text octet) ≤ 1004 }
        ensures { self.new ≡ self.old ++ octet_text octet }
    {
        if is_special(octet) {
            self.add(&[b'\\', octet]);
        } else if octet.is_ascii_graphic() {
            self.add(&[octet]);
        } else {
            self.add(&[
                b'\\',
                b'0' + octet / 100,
                b'0' + octet / 10 % 10,
                b'0' + octet % 10,
            ]);
        }
    }

    /// Adds the text of a label and the dot behind it.
    #[tactic(auto, using(crate::proofs::TextLengths::octet_fits))]
    fn add_label(&mut self, label: &[u8])
        requires { length self.old + length (label_text label.now) ≤ 1004 }
        ensures { self.new ≡ self.old ++ label_text label.now }
    {
        for octet in label {
            self.add_octet(*octet);
        }
        self.add(b".");
    }

    /// The text.
    pub(crate) fn as_slice(&self) -> &[u8]
        ensures { result.now ≡ self.now }
    {
        &self.octets[..self.len]
    }
}
