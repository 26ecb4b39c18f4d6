//! Numbers and octets read in turn.
ghost use Rattle.std.specs.Prelude.{◌≡◌, ℕ, ◌+◌, ◌-◌, ◌≤◌, ◌<◌, ◌^◌, length, take, drop, IfOk, OnOk};
ghost use Rattle.std.specs.Int.{w8, w16, w32};

use crate::error::DecodeError;

/// A place in a string of octets, from which the next field is read.
#[derive(Clone, Copy, Debug)]
pub struct BinDecoder<'a> {
    buffer: &'a [u8],
    index: usize,
    pub ghost inside: { index ≤ length buffer.now },
}

impl<'a> BinDecoder<'a> {
    ghost use Rattle.dns_wire.specs.Reading.{octets, place, Reads, octets_at, number_at, time_at, counted_at};

    /// Begins at the first octet.
    pub fn new(buffer: &'a [u8]) -> BinDecoder<'a>
        ensures octets { octets result ≡ buffer.now }
        ensures place { place result ≡ 0 }
    {
        BinDecoder { buffer, index: 0 }
    }

    /// The place of the next octet.
    pub fn index(&self) -> usize
        ensures place { result ≡ place self.now }
        ensures inside { result ≤ length (octets self.now) }
    {
        self.index
    }

    /// How many octets are left.
    pub fn len(&self) -> usize
        ensures { place self.now + result ≡ length (octets self.now) }
    {
        self.buffer.len() - self.index
    }

    /// All octets, those that were read too.
    pub fn buffer(&self) -> &'a [u8]
        ensures { result.now ≡ octets self.now }
    {
        self.buffer
    }

    /// Goes on at `index`.
    pub fn set_index(&mut self, index: usize)
        requires inside { index ≤ length (octets self.old) }
        ensures octets { octets self.new ≡ octets self.old }
        ensures place { place self.new ≡ index }
    {
        self.index = index;
    }

    /// The octets up to the place `end`.
    pub fn read_rest_within(&mut self, end: usize) -> &'a [u8]
        requires ahead { place self.old ≤ end }
        requires inside { end ≤ length (octets self.old) }
        ensures value { result.now ≡ take (end - place self.old) (drop (place self.old) (octets self.old)) }
        ensures octets { octets self.new ≡ octets self.old }
        ensures place { place self.new ≡ end }
    {
        let octets = &self.buffer[self.index..end];
        self.index = end;
        octets
    }

    /// The next `n` octets, which end at or before `end`.
    ///
    /// # Errors
    ///
    /// `InsufficientBytes` where fewer octets stand before `end`.
    #[tactic(auto, unfolding(crate::specs::Reading::octets_at))]
    pub fn read_slice_within(&mut self, n: usize, end: usize) -> Result<&'a [u8], DecodeError>
        requires ahead { place self.old ≤ end }
        requires inside { end ≤ length (octets self.old) }
        ensures exact { Reads (λ octets. octets.now) result self.old self.new
            (octets_at n (octets self.old) (place self.old) end) }
        ensures inside { place self.new ≤ end }
        ensures length { IfOk result (λ octets. length octets.now ≡ n) }
    {
        if end - self.index < n {
            return Err(DecodeError::InsufficientBytes);
        }
        let octets = &self.buffer[self.index..self.index + n];
        self.index += n;
        Ok(octets)
    }

    /// A number of one octet that ends at or before `end`.
    ///
    /// # Errors
    ///
    /// `InsufficientBytes` where fewer octets stand before `end`.
    #[tactic(auto, unfolding(crate::specs::Reading::number_at))]
    pub fn read_u8_within(&mut self, end: usize) -> Result<u8, DecodeError>
        requires ahead { place self.old ≤ end }
        requires inside { end ≤ length (octets self.old) }
        ensures exact { Reads (λ n. n) result self.old self.new (number_at w8 (octets self.old) (place self.old) end) }
        ensures inside { place self.new ≤ end }
    {
        let octets = self.read_slice_within(1, end)?;
        Ok(u8::from_be_bytes([octets[0]]))
    }

    /// A number of two octets, the highest first, that ends at or before `end`.
    ///
    /// # Errors
    ///
    /// `InsufficientBytes` where fewer octets stand before `end`.
    #[tactic(auto, unfolding(crate::specs::Reading::number_at))]
    pub fn read_u16_within(&mut self, end: usize) -> Result<u16, DecodeError>
        requires ahead { place self.old ≤ end }
        requires inside { end ≤ length (octets self.old) }
        ensures exact { Reads (λ n. n) result self.old self.new (number_at w16 (octets self.old) (place self.old) end) }
        ensures inside { place self.new ≤ end }
    {
        let octets = self.read_slice_within(2, end)?;
        Ok(u16::from_be_bytes([octets[0], octets[1]]))
    }

    /// A number of four octets, the highest first, that ends at or before `end`.
    ///
    /// # Errors
    ///
    /// `InsufficientBytes` where fewer octets stand before `end`.
    #[tactic(auto, unfolding(crate::specs::Reading::number_at))]
    pub fn read_u32_within(&mut self, end: usize) -> Result<u32, DecodeError>
        requires ahead { place self.old ≤ end }
        requires inside { end ≤ length (octets self.old) }
        ensures exact { Reads (λ n. n) result self.old self.new (number_at w32 (octets self.old) (place self.old) end) }
        ensures inside { place self.new ≤ end }
    {
        let octets = self.read_slice_within(4, end)?;
        Ok(u32::from_be_bytes([octets[0], octets[1], octets[2], octets[3]]))
    }

    /// Octets behind their count in one octet, which end at or before `end`.
    ///
    /// # Errors
    ///
    /// `InsufficientBytes` where fewer octets stand before `end`.
    #[tactic(auto, unfolding(crate::specs::Reading::counted_at))]
    pub fn read_counted8_within(&mut self, end: usize) -> Result<&'a [u8], DecodeError>
        requires ahead { place self.old ≤ end }
        requires inside { end ≤ length (octets self.old) }
        ensures exact { Reads (λ octets. octets.now) result self.old self.new
            (counted_at w8 (octets self.old) (place self.old) end) }
        ensures inside { place self.new ≤ end }
        ensures fits { IfOk result (λ octets. length octets.now < 2 ^ 8) }
    {
        let mut reader = *self;
        let count = reader.read_u8_within(end)?;
        let octets = reader.read_slice_within(usize::from(count), end)?;
        *self = reader;
        Ok(octets)
    }

    /// Octets behind their count in two octets, which end at or before `end`.
    ///
    /// # Errors
    ///
    /// `InsufficientBytes` where fewer octets stand before `end`.
    #[tactic(auto, unfolding(crate::specs::Reading::counted_at))]
    pub fn read_counted16_within(&mut self, end: usize) -> Result<&'a [u8], DecodeError>
        requires ahead { place self.old ≤ end }
        requires inside { end ≤ length (octets self.old) }
        ensures exact { Reads (λ octets. octets.now) result self.old self.new
            (counted_at w16 (octets self.old) (place self.old) end) }
        ensures inside { place self.new ≤ end }
        ensures fits { IfOk result (λ octets. length octets.now < 2 ^ 16) }
    {
        let mut reader = *self;
        let count = reader.read_u16_within(end)?;
        let octets = reader.read_slice_within(usize::from(count), end)?;
        *self = reader;
        Ok(octets)
    }

    /// A number of six octets, the highest first, that ends at or before `end`.
    ///
    /// # Errors
    ///
    /// `InsufficientBytes` where fewer octets stand before `end`.
    #[tactic(auto, unfolding(crate::specs::Reading::time_at))]
    pub fn read_time_within(&mut self, end: usize) -> Result<u64, DecodeError>
        requires ahead { place self.old ≤ end }
        requires inside { end ≤ length (octets self.old) }
        ensures exact { Reads (λ n. n) result self.old self.new (time_at (octets self.old) (place self.old) end) }
        ensures inside { place self.new ≤ end }
        ensures fits { IfOk result (λ time. time < 2 ^ 48) }
    {
        let octets = self.read_slice_within(6, end)?;
        let high = u16::from_be_bytes([octets[0], octets[1]]);
        let low = u32::from_be_bytes([octets[2], octets[3], octets[4], octets[5]]);
        Ok(u64::from(high) * 0x1_0000_0000 + u64::from(low))
    }

    /// A number of one octet.
    ///
    /// # Errors
    ///
    /// `InsufficientBytes` where fewer octets are left.
    pub fn read_u8(&mut self) -> Result<u8, DecodeError>
        ensures exact { Reads (λ n. n) result self.old self.new
            (number_at w8 (octets self.old) (place self.old) (length (octets self.old))) }
        ensures inside { place self.new ≤ length (octets self.new) }
    {
        self.read_u8_within(self.buffer.len())
    }

    /// A number of two octets, the highest first.
    ///
    /// # Errors
    ///
    /// `InsufficientBytes` where fewer octets are left.
    pub fn read_u16(&mut self) -> Result<u16, DecodeError>
        ensures exact { Reads (λ n. n) result self.old self.new
            (number_at w16 (octets self.old) (place self.old) (length (octets self.old))) }
        ensures inside { place self.new ≤ length (octets self.new) }
    {
        self.read_u16_within(self.buffer.len())
    }

    /// A number of four octets, the highest first.
    ///
    /// # Errors
    ///
    /// `InsufficientBytes` where fewer octets are left.
    pub fn read_u32(&mut self) -> Result<u32, DecodeError>
        ensures exact { Reads (λ n. n) result self.old self.new
            (number_at w32 (octets self.old) (place self.old) (length (octets self.old))) }
        ensures inside { place self.new ≤ length (octets self.new) }
    {
        self.read_u32_within(self.buffer.len())
    }

    /// The next `n` octets.
    ///
    /// # Errors
    ///
    /// `InsufficientBytes` where fewer octets are left.
    pub fn read_slice(&mut self, n: usize) -> Result<&'a [u8], DecodeError>
        ensures exact { Reads (λ octets. octets.now) result self.old self.new
            (octets_at n (octets self.old) (place self.old) (length (octets self.old))) }
        ensures inside { place self.new ≤ length (octets self.new) }
    {
        self.read_slice_within(n, self.buffer.len())
    }
}
