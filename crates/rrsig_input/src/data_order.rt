//! The records of a message compared by their data (RFC 4034 6.3).
ghost use Rattle.std.specs.Prelude.{◌≡◌, IsOk, is_ok};
ghost use Rattle.message_walk.specs.Places.{data_at, record_from};

use crate::place_list::DataByPlace;
use message_walk::{DataBuffer, PLACES, copy_canonical, empty_cache};
use std::cmp::Ordering;
use std::marker::Model;

/// Buffers in which the data of two records of a message are compared. A contract sees the octets of the message.
#[derive(Drop)]
pub(crate) struct DataOrder<'a> {
    message: &'a [u8],
    cache: [u16; PLACES],
    data: DataBuffer,
    other_data: DataBuffer,
}

impl<'a> Model for DataOrder<'a> {
    ghost use Rattle.std.specs.Prelude.{List, ℕ};
    ghost use Rattle.dns_names.specs.PointerCache.{IsPointerCache};

    ghost Value = { List ℕ };

    ghost view = { λ s. s.message.now };

    ghost invariant = { λ s. IsPointerCache s.message.now s.cache };
}

impl<'a> DataOrder<'a> {
    /// Buffers for the records of a message.
    pub(crate) fn new(message: &'a [u8]) -> DataOrder<'a>
        ensures { result ≡ message.now }
    {
        DataOrder {
            message,
            cache: empty_cache(),
            data: DataBuffer::new(),
            other_data: DataBuffer::new(),
        }
    }

    /// Whether the data of the record at a place fit a record in canonical form.
    pub(crate) fn has_data(&mut self, place: usize) -> bool
        requires stands { IsOk (record_from self.old place) }
        ensures exact { result ≡ is_ok (data_at self.old place) }
        ensures same { self.new ≡ self.old }
    {
        copy_canonical(self.message, place, &mut self.cache, &mut self.data).is_ok()
    }
}

impl<'a> DataByPlace for DataOrder<'a> {
    ghost use Rattle.std.specs.Prelude.{List, ℕ, IsOk};
    ghost use Rattle.message_walk.specs.Places.{data_at};
    ghost use Rattle.rrsig_input.specs.SignedSets.{data_from};

    ghost Source = { List ℕ };

    ghost source = { λ order. order };

    ghost stands = { λ message place. IsOk (data_at message place) };

    ghost canonical = { data_from };

    #[tactic(auto, using(crate::proofs::MessageSteps::data_known))]
    fn compare(&mut self, place: usize, other: usize) -> Ordering {
        let _ = copy_canonical(self.message, place, &mut self.cache, &mut self.data);
        let _ = copy_canonical(self.message, other, &mut self.cache, &mut self.other_data);
        self.data.as_slice().cmp(self.other_data.as_slice())
    }
}
