//! Where chains of pointers lead, so that each is gone through once (RFC 1035 4.1.4).
//!
//! A pointer cache has a number for each of the first places of a message, as many as it has room for: how far back
//! the place lies whose chain of pointers says what the chain at this place says. 0 is true of each place.
ghost use Rattle.std.specs.Prelude.{◌≡◌, ◌^◌, ◌≤◌, ◌<◌};
ghost use Rattle.dns_names.specs.PointerCache.{IsPointerCache, IsEnd, LeadsTo};

/// How many octets a message has at most whose table is small.
const SHORT_MESSAGE: usize = 512;

/// How many places a pointer can name.
const PLACES: usize = 0x4000;

/// What `read` answers where it gets a pointer cache for the message: all zeros, and with room for each place that a
/// pointer can name.
pub fn with_pointer_cache<T, F: FnOnce(&mut [u16]) -> T>(message: &[u8], read: F) -> T
    requires { (cache : _) → IsPointerCache message.now cache.now → F.pre read cache }
    ensures { (cache : _) × (after : _) × IsPointerCache message.now cache.now × F.post read cache result after }
{
    if message.len() <= SHORT_MESSAGE {
        with_small_cache(message, read)
    } else {
        with_whole_cache(message, read)
    }
}

/// As `with_pointer_cache`, for a short message.
fn with_small_cache<T, F: FnOnce(&mut [u16]) -> T>(message: &[u8], read: F) -> T
    requires { (cache : _) → IsPointerCache message.now cache.now → F.pre read cache }
    ensures { (cache : _) × (after : _) × IsPointerCache message.now cache.now × F.post read cache result after }
{
    let mut cache = [0; SHORT_MESSAGE];
    read(&mut cache)
}

/// As `with_pointer_cache`, for any message.
fn with_whole_cache<T, F: FnOnce(&mut [u16]) -> T>(message: &[u8], read: F) -> T
    requires { (cache : _) → IsPointerCache message.now cache.now → F.pre read cache }
    ensures { (cache : _) × (after : _) × IsPointerCache message.now cache.now × F.post read cache result after }
{
    let mut cache = [0; PLACES];
    read(&mut cache)
}

/// A place that the one at `place` leads to: farther back, or itself where no pointer stands that leads back.
#[tactic(auto, using(crate::proofs::Chains::steps))]
fn hop(octets: &[u8], place: usize, cache: &[u16]) -> usize
    requires cache { IsPointerCache octets.now cache.now }
    ensures leads { LeadsTo octets.now place result }
    ensures back { result ≤ place }
    ensures end { result ≡ place → IsEnd octets.now place }
{
    if place >= octets.len() || octets.len() - place < 2 {
        return place;
    }
    let octet = octets[place] as usize;
    if octet < 192 {
        return place;
    }
    if place < cache.len() {
        let back = cache[place] as usize;
        if back > 0 {
            return place - back;
        }
    }
    let target = (octet * 256 + octets[place + 1] as usize) % 0x4000;
    if target >= place {
        return place;
    }
    target
}

/// The last place of the chain of pointers that begins at `first`.
#[tactic(auto, using(crate::proofs::Chains::steps))]
fn end_of_chain(octets: &[u8], first: usize, cache: &[u16]) -> usize
    requires cache { IsPointerCache octets.now cache.now }
    ensures leads { LeadsTo octets.now first result }
    ensures back { result ≤ first }
    ensures end { IsEnd octets.now result }
{
    let mut place = first;
    loop {
        let next = hop(octets, place, cache);
        if next >= place {
            return place;
        }
        place = next;
    }
}

/// The last place of the chain of pointers that begins at `first`. Each place of the chain leads there from now on.
#[tactic(auto, using(crate::proofs::Chains::steps))]
pub(crate) fn last_of_chain(octets: &[u8], first: usize, cache: &mut [u16]) -> usize
    requires reached { first < 2 ^ 14 }
    requires cache { IsPointerCache octets.now cache.old }
    ensures cache { IsPointerCache octets.now cache.new }
    ensures leads { LeadsTo octets.now first result }
    ensures back { result ≤ first }
    ensures end { IsEnd octets.now result }
{
    let last = end_of_chain(octets, first, cache);
    let mut place = first;
    while place > last {
        let next = hop(octets, place, cache);
        if next >= place {
            break;
        }
        if place < cache.len() {
            cache[place] = (place - last) as u16;
        }
        place = next;
    }
    last
}
