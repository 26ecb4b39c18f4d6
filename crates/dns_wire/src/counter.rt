//! How many octets something has.
ghost use Rattle.std.specs.Prelude.{◌≡◌, ℕ, List, []};
ghost use Rattle.dns_wire.specs.Rooms.{counted};
ghost use Rattle.dns_wire.specs.SinkViews.{Counts};

use crate::sink::OctetSink;

/// Counts the octets that it takes in.
#[derive(Debug, Drop)]
pub struct Counter {
    len: usize,
}

impl Counter {
    /// No octets.
    pub fn new() -> Counter
        ensures { Counts result [] }
    {
        Counter { len: 0 }
    }

    /// How many octets were taken in, or as many as a `usize` counts.
    pub fn len(&self) -> usize
        ensures { (m : List ℕ) → Counts self.now m → result ≡ counted m }
    {
        self.len
    }
}

impl OctetSink for Counter {
    ghost Purpose = { Unit {0} };

    ghost has_taken = { λ counter _ m. Counts counter m };

    fn take(&mut self, octets: &[u8]) {
        self.len = self.len.saturating_add(octets.len());
    }
}
