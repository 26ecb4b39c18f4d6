//! Room for the data of one record, without memory.
ghost use Rattle.std.specs.Prelude.{◌≡◌, ◌+◌, ◌≤◌, ◌<◌, ◌++◌, [], length, MatchResult};

use crate::data_error::DataError;
use std::marker::Model;

/// How many octets the data of a record have at most (RDLENGTH, RFC 1035 4.1.3).
const MAX_DATA: usize = 65535;

/// The data of one record: at most 65,535 octets. A contract sees the list of them.
#[derive(Drop)]
pub struct DataBuffer {
    octets: [u8; MAX_DATA],
    len: usize,
}

impl Model for DataBuffer {
    ghost use Rattle.std.specs.Prelude.{List, ℕ, ◌≤◌, take};

    ghost Value = { List ℕ };

    ghost view = { λ s. take s.len s.octets };

    ghost invariant = { λ s. s.len ≤ 65535 };
}

impl DataBuffer {
    /// No octets.
    pub fn new() -> DataBuffer
        ensures { result ≡ [] }
    {
        DataBuffer {
            octets: [0; MAX_DATA],
            len: 0,
        }
    }

    /// The octets.
    pub fn as_slice(&self) -> &[u8]
        ensures value { result.now ≡ self.now }
        ensures at_most_65535 { length self.now ≤ 65535 }
    {
        &self.octets[..self.len]
    }

    /// Takes all octets away.
    pub fn clear(&mut self)
        ensures { self.new ≡ [] }
    {
        self.len = 0;
    }

    /// Puts octets at the end.
    ///
    /// # Errors
    ///
    /// `DataTooLong` where there would be more than 65,535 octets. The buffer then stays as it was.
    pub fn append(&mut self, octets: &[u8]) -> Result<(), DataError>
        ensures { MatchResult result
            (λ _. (self.new ≡ self.old ++ octets.now) × (length self.new ≤ 65535))
            (λ e. (e ≡ DataError.DataTooLong) × (self.new ≡ self.old)
            × (65535 < length self.old + length octets.now)) }
    {
        if MAX_DATA - self.len < octets.len() {
            return Err(DataError::DataTooLong);
        }
        let end = self.len + octets.len();
        self.octets[self.len..end].copy_from_slice(octets);
        self.len = end;
        Ok(())
    }
}
