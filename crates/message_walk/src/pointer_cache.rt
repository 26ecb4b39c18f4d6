//! A pointer cache, on the stack (RFC 1035 4.1.4).
ghost use Rattle.std.specs.Prelude.{ℕ, List};
ghost use Rattle.dns_names.specs.PointerCache.{IsPointerCache};

/// How many places a pointer can name.
pub const PLACES: usize = 0x4000;

/// A pointer cache of whatever message, in which nothing is noted yet: 32 KiB.
pub fn empty_cache() -> [u16; PLACES]
    ensures { (message : List ℕ) → IsPointerCache message result }
{
    [0; PLACES]
}
