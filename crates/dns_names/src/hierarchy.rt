//! Names above and below other names (RFC 1034 3.1).
ghost use Rattle.std.specs.Prelude.{◌≡◌, ◌<◌, ◌-◌, ◌∷◌, ◌↔◌, length, drop, IsTrue, MatchResult};
ghost use Rattle.dns_names.specs.Names.{wire, count, IsName, Under};

use crate::label::Label;
use crate::name::Name;
use crate::order::behind;
use dns_wire::NameError;

impl Name {
    /// How many labels the name has, one leading label `*` left out (RFC 4034 3.1.3).
    pub fn num_labels(&self) -> u8
        ensures value { result ≡ count self.now }
        ensures is_name { IsName self.now }
    {
        let first = self.iter().next();
        let labels = self.label_count() as u8;
        match first {
            Some(label) if label == b"*".as_slice() => labels - 1,
            _ => labels,
        }
    }

    /// The rightmost `n` labels, or all where there are fewer.
    pub fn trim_to(&self, n: usize) -> Name
        ensures value { result ≡ drop (length self.now - n) self.now }
        ensures is_name { IsName result }
    {
        let left_out = self.label_count().saturating_sub(n);
        Name::of_rest(behind(self.iter(), left_out))
    }

    /// Whether `other` is this name or below it, the case of letters aside.
    pub fn zone_of(&self, other: &Name) -> bool
        ensures { IsTrue result ↔ Under other.now self.now }
    {
        other.trim_to(self.label_count()) == *self
    }

    /// The name with one more label before its first.
    ///
    /// # Errors
    ///
    /// `NameTooLong` where the wire form would pass 255 octets.
    pub fn prepend(&self, label: &Label) -> Result<Name, NameError>
        ensures { MatchResult result (λ n. (n ≡ label.now ∷ self.now) × IsName n)
            (λ e. (e ≡ NameError.NameTooLong) × (255 < length (wire (label.now ∷ self.now)))) }
    {
        let mut name = Name::root();
        name.add_label(label.as_slice())?;
        'labels: for octets in self.iter() {
            name.add_label(octets)?;
        }
        Ok(name)
    }

    /// Whether the names are equal, the case of letters included.
    pub fn eq_case(&self, other: &Name) -> bool
        ensures { IsTrue result ↔ (self.now ≡ other.now) }
    {
        self.as_wire() == other.as_wire()
    }
}
