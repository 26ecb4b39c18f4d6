//! Domain names.
ghost use Rattle.std.specs.Prelude.{◌≡◌, ℕ, ◌+◌, ◌≤◌, ◌<◌, ◌++◌, ◌↔◌, List, [], ◌∷◌, length, IsTrue, MatchResult, Ok};
ghost use Rattle.std.specs.Prelude.{Err};
ghost use Rattle.std.specs.Cmp.{on_equiv, on_per, partial_equiv_from_equiv};
ghost use Rattle.std.proofs.lemmas.Cmp.{lists_equiv, nat_eq_equiv};
ghost use Rattle.std.specs.Hash as fed;
ghost use Rattle.dns_wire.specs.Octets.{lowered};
ghost use Rattle.dns_names.specs.Names.{wire, low, same, IsName};
ghost use Rattle.dns_names.specs.NameLaws.{same_alike};
ghost use Rattle.std.specs.Iterator.{YieldsFirstRef, item_count};
ghost use Rattle.dns_names.specs.NameWriting.{name_octets};
ghost use Rattle.dns_names.specs.NameText.{add_label};
ghost use Rattle.dns_wire.specs.Sinks.{Takes};

use crate::label::Label;
use dns_wire::{BinEncodable, EmitError, Form, NameEncoding, NameError, OctetSink, Putting};
use std::hash::{Hash, Hasher};
use std::marker::Model;

/// How many octets the wire form of a name has at most (RFC 1035 2.3.4).
const MAX_NAME: usize = 255;

/// A domain name: labels of 1 to 63 octets, at most 255 octets on the wire (RFC 1035 3.1).
///
/// A contract sees the list of its labels, leftmost first. Equality, hash and order put the case of ASCII letters
/// aside. The clause `is_name` of a getter says what every name keeps to.
#[derive(Clone, Copy)]
pub struct Name {
    octets: [u8; MAX_NAME],
    len: u8,
}

impl Model for Name {
    ghost use Rattle.std.specs.Prelude.{List, ℕ, length};
    ghost use Rattle.std.proofs.Common.{sym};
    ghost use Rattle.dns_names.specs.Names.{labels_of_wire, wire, padded, HoldsName};

    ghost Value = { List (List ℕ) };

    ghost view = { λ s. labels_of_wire s.octets };

    ghost invariant = { λ s. HoldsName s.octets s.len };

    ghost inverse = { λ n. record { octets = padded n; len = length (wire n) } };

    ghost inverse_ok = { λ s h i. record { octets = sym h.spelled i; len = sym h.counted i } };
}

impl Name {
    /// The root.
    pub fn root() -> Name
        ensures { result ≡ [] }
    {
        Name {
            octets: [0; MAX_NAME],
            len: 1,
        }
    }

    /// Whether the name has no label.
    pub fn is_root(&self) -> bool
        ensures root { IsTrue result ↔ (self.now ≡ []) }
        ensures is_name { IsName self.now }
    {
        self.len == 1
    }

    /// How many octets the wire form has, its last zero octet counted.
    pub fn len(&self) -> usize
        ensures value { result ≡ length (wire self.now) }
        ensures is_name { IsName self.now }
    {
        self.len as usize
    }

    /// The wire form: each label behind its length, then a zero octet.
    pub fn as_wire(&self) -> &[u8]
        ensures value { result.now ≡ wire self.now }
        ensures is_name { IsName self.now }
    {
        &self.octets[..self.len as usize]
    }

    /// Puts a label at the end.
    pub(crate) fn push(&mut self, label: &[u8])
        requires nonempty { 0 < length label.now }
        requires at_most_63 { length label.now ≤ 63 }
        requires at_most_255 { length (wire self.old) + length label.now + 1 ≤ 255 }
        ensures after { self.new ≡ self.old ++ label.now ∷ [] }
        ensures is_name { IsName self.new }
    {
        let start = self.len as usize;
        self.octets[start - 1] = label.len() as u8;
        self.octets[start..start + label.len()].copy_from_slice(label);
        self.len = (start + 1 + label.len()) as u8;
    }

    /// Adds a label at the end.
    ///
    /// # Errors
    ///
    /// `EmptyLabel` where it has no octet, `NameTooLong` where the wire form would pass 255 octets.
    pub(crate) fn add_label(&mut self, label: &[u8]) -> Result<(), NameError>
        requires { length label.now ≤ 63 }
        ensures { MatchResult result (λ _. (add_label self.old label.now ≡ Ok self.new) × IsName self.new)
            (λ e. add_label self.old label.now ≡ Err e) }
    {
        if label.is_empty() {
            return Err(NameError::EmptyLabel);
        }
        if !has_room(self.len(), label.len()) {
            return Err(NameError::NameTooLong);
        }
        self.push(label);
        Ok(())
    }

    /// The name of these labels, leftmost first.
    ///
    /// # Errors
    ///
    /// `NameTooLong` where the wire form passes 255 octets.
    pub fn from_labels(labels: &[Label]) -> Result<Name, NameError>
        ensures { MatchResult result (λ n. (n ≡ labels.now) × IsName n)
            (λ e. (e ≡ NameError.NameTooLong) × (255 < length (wire labels.now))) }
    {
        let mut name = Name::root();
        for label in labels {
            name.add_label(label.as_slice())?;
        }
        Ok(name)
    }

    /// The octets of each label, leftmost first.
    pub fn iter(&self) -> LabelIter<'_>
        ensures value { result ≡ self.now }
        ensures is_name { IsName self.now }
    {
        LabelIter {
            rest: self.as_wire(),
        }
    }

    /// How many labels the name has.
    pub(crate) fn label_count(&self) -> usize
        ensures { result ≡ length self.now }
    {
        self.iter().count()
    }

    /// The name of the labels that are left.
    pub(crate) fn of_rest(labels: LabelIter<'_>) -> Name
        requires { length (wire labels) ≤ 255 }
        ensures value { result ≡ labels.entry }
        ensures is_name { IsName result }
    {
        let wire = labels.rest;
        let mut octets = [0; MAX_NAME];
        octets[..wire.len()].copy_from_slice(wire);
        Name {
            octets,
            len: wire.len() as u8,
        }
    }

    /// The name with its letters in lower case.
    pub fn to_lowercase(&self) -> Name
        ensures value { result ≡ low self.now }
        ensures is_name { IsName self.now }
    {
        let mut octets = self.octets;
        octets.make_ascii_lowercase();
        Name {
            octets,
            len: self.len,
        }
    }
}

/// Puts the wire form of a name, in lower case where the encoding says so.
pub fn put_name<S: OctetSink>(sink: &mut S, name_encoding: NameEncoding, name: &Name)
    ensures octets { Takes S.has_taken sink.old sink.new (name_octets name_encoding name.now) }
    ensures is_name { IsName name.now }
{
    match name_encoding {
        NameEncoding::Uncompressed => sink.take(name.as_wire()),
        NameEncoding::UncompressedLowercase => sink.take(name.to_lowercase().as_wire()),
    }
}

impl Putting for Name {
    ghost use Rattle.std.specs.Prelude.{Ok};
    ghost use Rattle.dns_names.specs.NameWriting.{name_octets};

    ghost written = { λ canonical_form name_encoding n. Ok (name_octets name_encoding n) };

    /// Puts the wire form, in lower case where the form says so.
    fn put<S: OctetSink>(&self, form: Form, sink: &mut S) -> Result<(), EmitError> {
        put_name(sink, form.name_encoding, self);
        Ok(())
    }
}

impl BinEncodable for Name {}

/// Whether a wire form of `size` octets has room for one more label, of `label` octets.
pub(crate) fn has_room(size: usize, label: usize) -> bool
    ensures { IsTrue result ↔ (size + label + 1 ≤ 255) }
{
    label < MAX_NAME.saturating_sub(size)
}

/// The labels of a name that are left, leftmost first.
#[derive(Debug, Drop)]
pub struct LabelIter<'a> {
    rest: &'a [u8],
}

impl<'a> Model for LabelIter<'a> {
    ghost use Rattle.std.specs.Prelude.{List, ℕ};
    ghost use Rattle.dns_names.specs.Names.{labels_of_wire, IsWire};

    ghost Value = { List (List ℕ) };

    ghost view = { λ s. labels_of_wire s.rest.now };

    ghost invariant = { λ s. IsWire s.rest.now };
}

impl<'a> Iterator for LabelIter<'a> {
    type Item = &'a [u8];

    ghost next_gives = { YieldsFirstRef (λ s. s) };

    ghost remaining = { item_count (λ s. s) };

    fn next(&mut self) -> Option<&'a [u8]> {
        let len = self.rest[0] as usize;
        if len == 0 {
            return None;
        }
        let label = &self.rest[1..1 + len];
        self.rest = &self.rest[1 + len..];
        Some(label)
    }
}

impl PartialEq for Name {
    ghost eq = { same };

    ghost laws = { on_per low (partial_equiv_from_equiv (lists_equiv (lists_equiv nat_eq_equiv))) };

    fn eq(&self, other: &Name) -> bool {
        self.as_wire().eq_ignore_ascii_case(other.as_wire())
    }
}

impl Eq for Name {
    ghost laws = { on_equiv low (lists_equiv (lists_equiv nat_eq_equiv)) };
}

impl Hash for Name {
    ghost hash_input = { λ n. fed.slice fed.u8 (wire (low n)) };

    ghost respects_eq = { same_alike.fed };

    fn hash<H: Hasher>(&self, state: &mut H) {
        self.to_lowercase().as_wire().hash(state);
    }
}
