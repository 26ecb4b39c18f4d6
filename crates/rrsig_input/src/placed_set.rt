//! A record set of a message as it is signed, its data found by the places of its records (RFC 4034 3.1.8.1).
ghost use Rattle.std.specs.Prelude.{◌≡◌, ◌≤◌, IsOk, length, map};
ghost use Rattle.std.specs.List.{All};
ghost use Rattle.dns_wire.specs.Rooms.{filled};
ghost use Rattle.dns_wire.specs.Sinks.{Takes};
ghost use Rattle.dns_names.specs.PointerCache.{IsPointerCache};
ghost use Rattle.message_walk.specs.Places.{data_at};
ghost use Rattle.sec_sign.specs.Signed.{records_octets, signed_octets};
ghost use Rattle.sec_sign.specs.SignedSets.{head_of};
ghost use Rattle.rrsig_input.specs.SignedSets.{data_from};

use dns_names::Name;
use dns_types::DNSClass;
use dns_wire::{OctetSink, fill_room};
use message_walk::{DataBuffer, copy_canonical, empty_cache};
use sec_sigdata::SigInput;
use sec_sign::{CANONICAL, CanonicalData, SignedHead, SignedSet, put_signed_record};
use std::marker::Model;

/// Copies the data of the record at a place to the buffer, in canonical form.
#[tactic(auto, using(crate::proofs::MessageSteps::data_known))]
fn load(message: &[u8], place: usize, cache: &mut [u16], buffer: &mut DataBuffer)
    requires stands { IsOk (data_at message.now place) }
    requires cache { IsPointerCache message.now cache.old }
    ensures data { buffer.new ≡ data_from message.now place }
    ensures cache { IsPointerCache message.now cache.new }
{
    let _ = copy_canonical(message, place, cache, buffer);
}

/// Puts the records at these places, with this head. It is never a part of its callers, so that they don't hold its
/// buffers on the stack.
#[inline(never)]
#[tactic(auto, using(crate::proofs::Records::records_steps))]
fn put_placed<S: OctetSink>(message: &[u8], places: &[u16], head: &SignedHead<'_>, sink: &mut S)
    requires { All (λ place. IsOk (data_at message.now place)) places.now }
    ensures { Takes S.has_taken sink.old sink.new
        (records_octets (head_of head.now) (map (data_from message.now) places.now)) }
{
    let mut cache = empty_cache();
    let mut buffer = DataBuffer::new();
    'records: for place in places {
        load(message, *place as usize, &mut cache, &mut buffer);
        put_signed_record(head, buffer.as_slice(), sink);
    }
}

/// The data of a set of a message, by the places of its records in their order. A contract sees the data.
#[derive(Drop)]
struct PlacedData<'a> {
    message: &'a [u8],
    places: &'a [u16],
}

impl<'a> Model for PlacedData<'a> {
    ghost use Rattle.std.specs.Prelude.{IsOk, List, map, ℕ};
    ghost use Rattle.std.specs.List.{All};
    ghost use Rattle.message_walk.specs.Places.{data_at};
    ghost use Rattle.rrsig_input.specs.SignedSets.{data_from};

    ghost Value = { List (List ℕ) };

    ghost view = { λ s. map (data_from s.message.now) s.places.now };

    ghost invariant = { λ s. All (λ place. IsOk (data_at s.message.now place)) s.places.now };
}

impl CanonicalData for PlacedData<'_> {
    ghost strings = { λ placed. placed };

    fn put_records<S: OctetSink>(&self, head: &SignedHead<'_>, sink: &mut S) {
        put_placed(self.message, self.places, head, sink);
    }
}

impl<'a> PlacedData<'a> {
    /// The data of the records at these places.
    fn new(message: &'a [u8], places: &'a [u16]) -> PlacedData<'a>
        requires { All (λ place. IsOk (data_at message.now place)) places.now }
        ensures { result ≡ map (data_from message.now) places.now }
    {
        PlacedData { message, places }
    }
}

/// Puts the octets of a set that are signed into the buffer, under the owner as it is signed and with the records at
/// these places, where they all fit, and says how many they are.
#[tactic(auto, using(crate::proofs::Records::set_is_countable))]
pub(crate) fn put_signed(
    message: &[u8],
    owner: &Name,
    dns_class: DNSClass,
    input: &SigInput,
    places: &[u16],
    out: &mut [u8],
) -> usize
    requires stand { All (λ place. IsOk (data_at message.now place)) places.now }
    requires few { length places.now ≤ 65536 }
    ensures len { result
        ≡ length (signed_octets owner.now input.now dns_class (map (data_from message.now) places.now)) }
    ensures out { out.new
        ≡ filled out.old (signed_octets owner.now input.now dns_class (map (data_from message.now) places.now)) }
{
    let _ = owner.len() + input.signer_name.len();
    let strings = PlacedData::new(message, places);
    let set = SignedSet {
        owner,
        dns_class,
        input,
        strings: &strings,
    };
    match fill_room(&set, CANONICAL, out) {
        Ok(len) => len,
        Err(_) => unreachable!(),
    }
}
