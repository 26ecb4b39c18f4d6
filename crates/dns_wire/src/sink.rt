//! What takes octets in, piece by piece.
ghost use Rattle.std.specs.Prelude.{ℕ, List, ◌++◌, ◌∷◌, []};
ghost use Rattle.dns_wire.specs.Octets.{two_octets, four_octets};
ghost use Rattle.dns_wire.specs.Sinks.{Takes};

/// What takes octets in, piece by piece, and never refuses any: memory, a slice of the caller's, a hasher, a counter. One
/// that has no room for all of them remembers so, and is asked when all is put.
pub trait OctetSink {
    ghost use Rattle.std.specs.Prelude.{ℕ, List};

    // what it was made for
    ghost Purpose: { Type 0 };

    // it was made for this, and has taken these octets in
    ghost has_taken: { Self → Purpose → List ℕ → Type 0 };

    /// Takes more octets in.
    fn take(&mut self, octets: &[u8])
        ensures { Takes has_taken self.old self.new octets.now };
}

/// Puts a number in one octet.
pub fn put_u8<S: OctetSink>(sink: &mut S, n: u8)
    ensures { Takes S.has_taken sink.old sink.new (n ∷ []) }
{
    sink.take(&[n]);
}

/// Puts a number in two octets, the highest first.
pub fn put_u16<S: OctetSink>(sink: &mut S, n: u16)
    ensures { Takes S.has_taken sink.old sink.new (two_octets n) }
{
    sink.take(&n.to_be_bytes());
}

/// Puts a number in four octets, the highest first.
pub fn put_u32<S: OctetSink>(sink: &mut S, n: u32)
    ensures { Takes S.has_taken sink.old sink.new (four_octets n) }
{
    sink.take(&n.to_be_bytes());
}
