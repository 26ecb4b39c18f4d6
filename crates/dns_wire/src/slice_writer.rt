//! Octets put into the caller's slice.
ghost use Rattle.std.specs.Prelude.{◌≡◌, ◌^◌, ◌<◌, ◌≤◌, ℕ, List, [], ◌++◌, length, drop};
ghost use Rattle.dns_wire.specs.SinkViews.{IsWritten};

use crate::sink::OctetSink;

/// Writes octets to a slice, one piece behind the other. Where one has no room, none of what comes is written, and only
/// counted.
#[derive(Drop)]
pub struct SliceWriter<'a> {
    room: &'a mut [u8],
    len: usize,
}

impl<'a> SliceWriter<'a> {
    /// A writer at the start of the room.
    pub fn new(room: &'a mut [u8]) -> SliceWriter<'a>
        ensures { IsWritten result (room.entry.ghost_name, room.old) [] }
    {
        SliceWriter { room, len: 0 }
    }

    /// How many octets were taken in.
    pub fn len(&self) -> usize
        ensures { (room : ℕ × List ℕ) (m : List ℕ) → IsWritten self.now room m → length m < 2 ^ 64
            → result ≡ length m }
    {
        self.len
    }
}

impl OctetSink for SliceWriter<'_> {
    ghost use Rattle.std.specs.Prelude.{ℕ, List};

    ghost Purpose = { ℕ × List ℕ };

    ghost has_taken = { IsWritten };

    fn take(&mut self, octets: &[u8]) {
        let end = self.len.saturating_add(octets.len());
        if end <= self.room.len() {
            self.room[self.len..end].copy_from_slice(octets);
        }
        self.len = end;
    }
}
