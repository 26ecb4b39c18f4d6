//! Where the records of a set are in a message, in the order of their data (RFC 4034 6.3).
ghost use Rattle.std.specs.Prelude.{◌≡◌, ◌+◌, ◌<◌, ◌≤◌, ◌^◌, IfOk, IsErr, IsOk, MatchResult, Ok, OnOk, length, map};
ghost use Rattle.std.specs.BTreeSet.{insert_key};
ghost use Rattle.std.specs.List.{All};
ghost use Rattle.dns_wire.specs.Reading.{Gives};
ghost use Rattle.dns_names.specs.PointerCache.{IsPointerCache};
ghost use Rattle.dns_grammar.specs.Messages.{message_at};
ghost use Rattle.dns_rdata.specs.RDataTable.{rdata_table};
ghost use Rattle.message_walk.specs.Places.{data_at, places_at, record_from};
ghost use Rattle.sec_sign.specs.Ascending.{Ascend, octets_cmp};
ghost use Rattle.sec_sign.specs.Pairs.{set_named};
ghost use Rattle.rrsig_input.specs.SignedSets.{data_from, is_place_of, same_section, set_in};

use crate::data_order::DataOrder;
use crate::input_error::InputError;
use crate::place_list::PlaceList;
use crate::set_name::is_of_set;
use dns_message::Section;
use message_walk::{RecordPlace, RecordWalk, empty_cache};
use sec_sign::RrsetName;

/// Whether two sections are one.
fn same_section(section: Section, other: Section) -> bool
    ensures { result ≡ same_section section other }
{
    section == other
}

/// Whether a record is of a set of a section.
fn is_place_of(
    message: &[u8],
    place: &RecordPlace,
    section: Section,
    set: &RrsetName<'_>,
    cache: &mut [u16],
) -> bool
    requires inside { place.now.start ≤ length message.now }
    requires cache { IsPointerCache message.now cache.old }
    ensures cache { IsPointerCache message.now cache.new }
    ensures exact { result ≡ is_place_of message.now section (set_named set.now) place.now }
{
    same_section(place.section, section) && is_of_set(message, place.start, set, cache)
}

/// Puts a record to those of its set, unless one with equal data is there already.
///
/// `DataTooLong` where its data don't fit a record in canonical form.
#[tactic(auto, using(crate::proofs::SetSteps::data_steps))]
fn put_place(
    places: &mut PlaceList,
    order: &mut DataOrder<'_>,
    place: usize,
) -> Result<(), InputError>
    requires stands { IsOk (record_from order.old place) }
    requires short { place < 2 ^ 16 }
    requires room { length places.old < 5957 }
    requires listed { All (λ place. IsOk (data_at order.old place)) places.old }
    requires ascend { Ascend (map (data_from order.old) places.old) }
    ensures put { MatchResult result
        (λ _. (data_at order.old place ≡ Ok (data_from order.old place))
        × (map (data_from order.old) places.new
        ≡ insert_key octets_cmp (map (data_from order.old) places.old) (data_from order.old place)))
        (λ cause. (cause ≡ InputError.DataTooLong) × IsErr (data_at order.old place)) }
    ensures ascend { OnOk result (Ascend (map (data_from order.old) places.new)) }
    ensures listed { OnOk result (All (λ place. IsOk (data_at order.old place)) places.new) }
    ensures length { OnOk result (length places.new ≤ length places.old + 1) }
    ensures same { order.new ≡ order.old }
{
    if !order.has_data(place) {
        return Err(InputError::DataTooLong);
    }
    places.insert(place as u16, order);
    Ok(())
}

/// Where the records of a set of a section are, in the order of their data, and each of equal data once, found by a walk
/// over all records of the message.
///
/// `DataTooLong` where the data of such a record don't fit a record in canonical form.
///
/// It is never a part of its callers, so that they don't hold its buffers on the stack.
#[inline(never)]
#[tactic(auto, using(crate::proofs::SetSteps::set_steps))]
pub(crate) fn places_of_set(
    message: &[u8],
    mut walk: RecordWalk<'_>,
    section: Section,
    set: &RrsetName<'_>,
) -> Result<PlaceList, InputError>
    requires message { walk.message ≡ message.now }
    requires whole { places_at message.now ≡ Ok walk.left }
    ensures exact { Gives (map (data_from message.now)) result
        (set_in (message_at rdata_table message.now) section (set_named set.now)) }
    ensures listed { IfOk result (All (λ place. IsOk (data_at message.now place))) }
    ensures few { IfOk result (λ places. length places ≤ 5957) }
{
    let mut cache = empty_cache();
    let mut order = DataOrder::new(message);
    let mut places = PlaceList::new();
    'records: while let Some(place) = walk.next(&mut cache) {
        if is_place_of(message, &place, section, set, &mut cache) {
            put_place(&mut places, &mut order, place.start)?;
        }
    }
    Ok(places)
}
