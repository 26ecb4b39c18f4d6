//! Octets written in turn.
ghost use Rattle.std.specs.Prelude.{false, ◌≡◌, ◌+◌, ◌≤◌, ◌∷◌, [], ◌++◌, length, take};
ghost use Rattle.dns_wire.specs.Octets.{two_octets, four_octets};
ghost use Rattle.dns_wire.specs.Writing.{Appends, paste};

use crate::error::EmitError;
use std::alloc::Global;
use std::marker::Model;

/// How names are written. Record data heed the canonical form instead.
#[derive(Clone, Copy, Debug, PartialEq, Eq)]
pub enum NameEncoding {
    /// With the case that they have.
    Uncompressed,
    /// In lower case.
    UncompressedLowercase,
}

/// A growing string of octets. A refused call leaves it as it was.
///
/// A contract sees an `Output`: the octets, the name encoding and whether record data are written in canonical form.
#[derive(Debug, Drop)]
pub struct BinEncoder {
    octets: Vec<u8>,
    name_encoding: NameEncoding,
    canonical_form: bool,
}

impl Model for BinEncoder {
    ghost use Rattle.dns_wire.specs.Writing.{Output};

    ghost Value = { Output };

    ghost view = { λ s. record {
      octets = s.octets.items;
      name_encoding = s.name_encoding;
      canonical_form =
          s.canonical_form;
    } };
}

impl BinEncoder {
    /// No octets, names with their case, record data not in canonical form.
    pub fn new(alloc: Global) -> BinEncoder
        ensures { result ≡ record { octets = []; name_encoding = NameEncoding.Uncompressed; canonical_form = false } }
    {
        BinEncoder {
            octets: Vec::new(alloc),
            name_encoding: NameEncoding::Uncompressed,
            canonical_form: false,
        }
    }

    /// Writes octets.
    ///
    /// # Errors
    ///
    /// Out of memory.
    pub fn emit_vec(&mut self, octets: &[u8]) -> Result<(), EmitError>
        ensures { Appends result self.old self.new octets.now }
    {
        self.octets.extend_from_slice(octets)?;
        Ok(())
    }

    /// Writes two pieces of octets, both or none.
    ///
    /// # Errors
    ///
    /// Out of memory.
    pub fn emit_both(&mut self, first: &[u8], second: &[u8]) -> Result<(), EmitError>
        ensures { Appends result self.old self.new (first.now ++ second.now) }
    {
        let start = self.octets.len();
        self.octets.extend_from_slice(first)?;
        let result = self.octets.extend_from_slice(second);
        if result.is_err() {
            self.octets.truncate(start);
        }
        result?;
        Ok(())
    }

    /// Writes one octet.
    ///
    /// # Errors
    ///
    /// Out of memory.
    pub fn emit_u8(&mut self, n: u8) -> Result<(), EmitError>
        ensures { Appends result self.old self.new (n ∷ []) }
    {
        self.emit_vec(&[n])
    }

    /// Writes a number in two octets, the highest first.
    ///
    /// # Errors
    ///
    /// Out of memory.
    pub fn emit_u16(&mut self, n: u16) -> Result<(), EmitError>
        ensures { Appends result self.old self.new (two_octets n) }
    {
        self.emit_vec(&n.to_be_bytes())
    }

    /// Writes a number in four octets, the highest first.
    ///
    /// # Errors
    ///
    /// Out of memory.
    pub fn emit_u32(&mut self, n: u32) -> Result<(), EmitError>
        ensures { Appends result self.old self.new (four_octets n) }
    {
        self.emit_vec(&n.to_be_bytes())
    }

    /// Sets how names are written from here on.
    pub fn set_name_encoding(&mut self, mode: NameEncoding)
        ensures { self.new ≡ record self.old { name_encoding = mode } }
    {
        self.name_encoding = mode;
    }

    /// How names are written.
    pub fn name_encoding(&self) -> NameEncoding
        ensures { result ≡ self.now.name_encoding }
    {
        self.name_encoding
    }

    /// Sets whether record data are written in canonical form from here on (RFC 4034 6.2).
    pub fn set_canonical_form(&mut self, on: bool)
        ensures { self.new ≡ record self.old { canonical_form = on } }
    {
        self.canonical_form = on;
    }

    /// Whether record data are written in canonical form.
    pub fn is_canonical_form(&self) -> bool
        ensures { result ≡ self.now.canonical_form }
    {
        self.canonical_form
    }

    /// How many octets were written.
    pub fn len(&self) -> usize
        ensures { result ≡ length self.now.octets }
    {
        self.octets.len()
    }

    /// The octets written.
    pub fn as_slice(&self) -> &[u8]
        ensures { result.now ≡ self.now.octets }
    {
        self.octets.as_slice()
    }

    /// The octets written, as a vector.
    pub fn into_bytes(self) -> Vec<u8>
        ensures { result.items ≡ self.octets }
    {
        self.octets
    }

    /// Keeps the first `len` octets.
    pub fn truncate(&mut self, len: usize)
        requires { len ≤ length self.old.octets }
        ensures { self.new ≡ record self.old { octets = take len self.old.octets } }
    {
        self.octets.truncate(len);
    }

    /// Replaces the two octets at `place`.
    pub fn place_u16(&mut self, place: usize, n: u16)
        requires { place + 2 ≤ length self.old.octets }
        ensures { self.new ≡ record self.old { octets = paste self.old.octets place (two_octets n) } }
    {
        self.octets[place..place + 2].copy_from_slice(&n.to_be_bytes());
    }
}
