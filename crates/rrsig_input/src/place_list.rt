//! The records of a set in canonical order, each once, by the places where they start (RFC 4034 6.3).
ghost use Rattle.std.specs.Prelude.{◌≡◌, ◌+◌, ◌<◌, ◌≤◌, [], length, map, IfSome, IfNone};
ghost use Rattle.std.specs.BTreeSet.{insert_key};
ghost use Rattle.std.specs.List.{All, insert};
ghost use Rattle.sec_sign.specs.Ascending.{octets_cmp, Ascend};

use std::cmp::Ordering;
use std::marker::Model;

/// More records than a message of 65,535 octets has: each takes eleven or more, after a header of twelve.
pub(crate) const RECORD_LIMIT: usize = 5957;

/// What compares the data of records by the places where they start.
pub(crate) trait DataByPlace {
    ghost use Rattle.std.specs.Prelude.{ℕ, List};

    // where records are, as the octets of a message
    ghost Source: { Type 0 };

    // where these records are
    ghost source: { Self → Source };

    // that there is a record with data at a place
    ghost stands: { Source → ℕ → Type 0 };

    // the data of the record at a place in canonical form
    ghost canonical: { Source → ℕ → List ℕ };

    /// How the data of the records at two places compare (RFC 4034 6.3).
    fn compare(&mut self, place: usize, other: usize) -> Ordering
        requires place { stands (source self.old) place }
        requires other { stands (source self.old) other }
        ensures order { result
            ≡ octets_cmp (canonical (source self.old) place) (canonical (source self.old) other) }
        ensures same { source self.new ≡ source self.old };
}

/// Places of records. A contract sees the list of the places.
#[derive(Drop)]
pub(crate) struct PlaceList {
    places: [u16; RECORD_LIMIT],
    count: usize,
}

impl Model for PlaceList {
    ghost use Rattle.std.specs.Prelude.{List, ℕ, ◌≤◌, take};

    ghost Value = { List ℕ };

    ghost view = { λ s. take s.count s.places };

    ghost invariant = { λ s. s.count ≤ 5957 };
}

impl PlaceList {
    /// No places.
    pub(crate) fn new() -> PlaceList
        ensures { result ≡ [] }
    {
        PlaceList {
            places: [0; RECORD_LIMIT],
            count: 0,
        }
    }

    /// The places in the order of their data.
    pub(crate) fn as_slice(&self) -> &[u16]
        ensures { result.now ≡ self.now }
    {
        &self.places[..self.count]
    }

    /// Puts a place where its data belong, unless equal data are there already: after thirteen comparisons at most.
    pub(crate) fn insert<D: DataByPlace>(&mut self, place: u16, records: &mut D)
        requires room { length self.old < 5957 }
        requires listed { All (D.stands (D.source records.old)) self.old }
        requires stands { D.stands (D.source records.old) place }
        requires ascend { Ascend (map (D.canonical (D.source records.old)) self.old) }
        ensures put { map (D.canonical (D.source records.old)) self.new
            ≡ insert_key octets_cmp (map (D.canonical (D.source records.old)) self.old)
            (D.canonical (D.source records.old) place) }
        ensures ascend { Ascend (map (D.canonical (D.source records.old)) self.new) }
        ensures listed { All (D.stands (D.source records.old)) self.new }
        ensures length { length self.new ≤ length self.old + 1 }
        ensures same { D.source records.new ≡ D.source records.old }
    {
        if let Some(index) = gap_for(self.as_slice(), place, records) {
            self.insert_at(index, place);
        }
    }

    /// Puts a place before those from an index on.
    fn insert_at(&mut self, index: usize, place: u16)
        requires room { length self.old < 5957 }
        requires within { index ≤ length self.old }
        ensures { self.new ≡ insert self.old index place }
    {
        self.places.copy_within(index..self.count, index + 1);
        self.places[index] = place;
        self.count += 1;
    }
}

/// The index at which a place belongs among places whose data ascend; None where equal data are among them.
fn gap_for<D: DataByPlace>(places: &[u16], place: u16, records: &mut D) -> Option<usize>
    requires listed { All (D.stands (D.source records.old)) places.now }
    requires stands { D.stands (D.source records.old) place }
    requires ascend { Ascend (map (D.canonical (D.source records.old)) places.now) }
    ensures within { IfSome result (λ index. index ≤ length places.now) }
    ensures missing { IfSome result (λ index.
        insert_key octets_cmp (map (D.canonical (D.source records.old)) places.now)
        (D.canonical (D.source records.old) place)
        ≡ insert (map (D.canonical (D.source records.old)) places.now) index
        (D.canonical (D.source records.old) place)) }
    ensures found { IfNone result
        (insert_key octets_cmp (map (D.canonical (D.source records.old)) places.now)
        (D.canonical (D.source records.old) place)
        ≡ map (D.canonical (D.source records.old)) places.now) }
    ensures same { D.source records.new ≡ D.source records.old }
{
    let mut low = 0;
    let mut high = places.len();
    'halves: while low < high {
        let middle = low + (high - low) / 2;
        match records.compare(places[middle] as usize, place as usize) {
            Ordering::Less => low = middle + 1,
            Ordering::Equal => return None,
            Ordering::Greater => high = middle,
        }
    }
    Some(low)
}
