//! Where octets come from and where they go.

ghost use Rattle.std.specs.Prelude.{◌<◌, List, ℕ, length, IfOk};
ghost use Rattle.std.specs.declared.option.Option.{Option};
ghost use Rattle.std.specs.Io.{ReadsAtMost, WritesAtMost};
ghost use Rattle.std.specs.Io.KnownBytes.{ReadConsumes, WriteAppends};
ghost use Rattle.dns_io.specs.Counts.{CountsTaken, CountsFaults};

use std::error::Error;
use std::fmt;

/// A read or a write failed.
#[derive(Clone, Copy, Debug, PartialEq, Eq, Hash)]
pub struct Failed;

/// Its name.
impl fmt::Display for Failed {
    ghost use Rattle.std.specs.Prelude.{Some, codes};

    ghost output = { λ _. Some (codes "Failed") };

    fn fmt<W: fmt::Write>(&self, f: &mut fmt::Formatter<W>) -> fmt::Result {
        f.write_str("Failed")
    }
}

impl Error for Failed {}

/// A source of octets.
pub trait Source {
    /// The octets left, where the source tells them.
    ghost left: { Self → Option (List ℕ) };

    /// How many octets were taken, as a `u64` that stands still at its last value.
    ghost taken: { Self → ℕ };

    /// How often a read has failed, as a `u64` that stands still at its last value.
    ghost faults: { Self → ℕ };

    /// Moves the first octets left to the front of `buf`, and answers how many they are. Ok(0), for a `buf` with room,
    /// is the end. A failed read moves nothing.
    fn read(&mut self, buf: &mut [u8]) -> Result<usize, Failed>
        ensures bound { ReadsAtMost result buf.new }
        ensures octets { ReadConsumes (left self.old) (left self.new) result buf.new }
        ensures taken { CountsTaken (taken self.old) (taken self.new) result }
        ensures faults { CountsFaults (faults self.old) (faults self.new) result };
}

/// A sink of octets.
pub trait Sink {
    /// The octets held, where the sink tells them.
    ghost held: { Self → Option (List ℕ) };

    /// How often a write has failed, as a `u64` that stands still at its last value.
    ghost faults: { Self → ℕ };

    /// Appends the first octets of `buf`, and answers how many they are: at least one, where `buf` has any. A failed
    /// write appends nothing.
    fn write(&mut self, buf: &[u8]) -> Result<usize, Failed>
        ensures bound { WritesAtMost result buf.now }
        ensures moves { 0 < length buf.now → IfOk result (λ n. 0 < n) }
        ensures octets { WriteAppends (held self.old) (held self.new) result buf.now }
        ensures faults { CountsFaults (faults self.old) (faults self.new) result };
}
