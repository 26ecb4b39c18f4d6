//! The labels of a name, read one by one where the name stands (RFC 1035 4.1.4).
ghost use Rattle.std.specs.Prelude.{◌≤◌, length};

use crate::name::has_room;
use crate::pointer_cache::last_of_chain;
use dns_wire::DecodeError;

/// How far a name was read.
#[derive(Drop)]
pub(crate) struct LabelReader<'a> {
    octets: &'a [u8],
    /// Where the run begins. A pointer leads before it.
    run: usize,
    /// Where the next octet is.
    place: usize,
    /// Where the run ends at the latest.
    end: usize,
    /// How many octets the wire form has so far, the zero octet at its end counted.
    size: usize,
    /// The place behind the first run, where a pointer ended it.
    next: Option<usize>,
    ghost inside: { end ≤ length octets.now },
    ghost fits: { size ≤ 255 },
}

/// What was read.
#[derive(Drop)]
pub(crate) enum Step<'a> {
    /// A label.
    Label(&'a [u8]),
    /// A pointer, from whose target reading goes on.
    Pointer,
    /// The end of the name, with the place behind its first run.
    Root(usize),
}

impl<'a> LabelReader<'a> {
    ghost use Rattle.std.specs.Prelude.{◌≡◌};
    ghost use Rattle.dns_names.specs.Places.{name_at};
    ghost use Rattle.dns_names.specs.PointerCache.{IsPointerCache};
    ghost use Rattle.dns_names.specs.LabelReading.{to_read, Steps};

    /// Begins a name whose first run ends at or before `end`.
    #[tactic(auto, using(crate::proofs::Chains::begins))]
    pub(crate) fn new(octets: &'a [u8], place: usize, end: usize) -> LabelReader<'a>
        requires inside { end ≤ length octets.now }
        ensures octets { result.octets.now ≡ octets.now }
        ensures size { result.size ≡ 1 }
        ensures reads { to_read result ≡ name_at octets.now place end }
    {
        LabelReader {
            octets,
            run: place,
            place,
            end,
            size: 1,
            next: None,
        }
    }

    /// Reads the next label or pointer, or the end of the name.
    ///
    /// # Errors
    ///
    /// `InsufficientBytes` where an octet is needed past the end, `NameMalformed` for a length octet of 64 to 191, for
    /// a pointer that does not lead before its run and for a wire form above 255 octets.
    #[tactic(auto, using(crate::proofs::Chains::exits))]
    pub(crate) fn step(&mut self, cache: &mut [u16]) -> Result<Step<'a>, DecodeError>
        requires cache { IsPointerCache self.old.octets.now cache.old }
        ensures cache { IsPointerCache self.new.octets.now cache.new }
        ensures octets { self.new.octets.now ≡ self.old.octets.now }
        ensures steps { Steps result self.old self.new }
    {
        if self.place >= self.end {
            return Err(DecodeError::InsufficientBytes);
        }
        let octet = self.octets[self.place] as usize;
        if octet == 0 {
            Ok(Step::Root(self.next.unwrap_or(self.place + 1)))
        } else if octet < 64 {
            let label = self.place + 1;
            let behind = label + octet;
            if !has_room(self.size, octet) {
                return Err(DecodeError::NameMalformed);
            }
            if behind > self.end {
                return Err(DecodeError::InsufficientBytes);
            }
            self.size += octet + 1;
            self.place = behind;
            Ok(Step::Label(&self.octets[label..behind]))
        } else if octet < 192 {
            Err(DecodeError::NameMalformed)
        } else {
            if self.place + 2 > self.end {
                return Err(DecodeError::InsufficientBytes);
            }
            let target = (octet * 256 + self.octets[self.place + 1] as usize) % 0x4000;
            if target >= self.run {
                return Err(DecodeError::NameMalformed);
            }
            self.next = self.next.or(Some(self.place + 2));
            self.run = last_of_chain(self.octets, target, cache);
            self.place = self.run;
            self.end = self.octets.len();
            Ok(Step::Pointer)
        }
    }
}
