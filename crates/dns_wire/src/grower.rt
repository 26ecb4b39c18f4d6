//! Octets put at the end of others, in memory.
ghost use Rattle.std.specs.Prelude.{◌≡◌, ℕ, List, ◌++◌, [], IfOk};
ghost use Rattle.dns_wire.specs.SinkViews.{HasGrown};

use crate::error::OutOfMemory;
use crate::sink::OctetSink;

/// Takes octets in until there is no memory for more, and then none of what comes.
#[derive(Debug, Drop)]
pub struct Grower {
    octets: Vec<u8>,
    is_full: bool,
}

impl Grower {
    /// These octets, behind which others are to be put.
    pub fn new(octets: Vec<u8>) -> Grower
        ensures { HasGrown result octets.items [] }
    {
        Grower {
            octets,
            is_full: false,
        }
    }

    /// All octets that were taken in, behind the first; or want of memory.
    pub fn into_octets(self) -> Result<Vec<u8>, OutOfMemory>
        ensures { (first m : List ℕ) → HasGrown self first m → IfOk result (λ octets. octets.items ≡ first ++ m) }
    {
        if self.is_full {
            return Err(OutOfMemory);
        }
        Ok(self.octets)
    }
}

impl OctetSink for Grower {
    ghost use Rattle.std.specs.Prelude.{ℕ, List};

    ghost Purpose = { List ℕ };

    ghost has_taken = { HasGrown };

    fn take(&mut self, octets: &[u8]) {
        if !self.is_full && self.octets.extend_from_slice(octets).is_err() {
            self.is_full = true;
        }
    }
}
