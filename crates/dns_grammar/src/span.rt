//! The octets that the data of a record fill.
ghost use Rattle.std.specs.Prelude.{◌≡◌, ◌+◌, ◌-◌, ◌≤◌, nat_eq, nat_lt, length, Ok, Err, if◌then◌else◌};
ghost use Rattle.dns_wire.specs.Reading.{octets, place};

use dns_wire::{BinDecoder, DecodeError};

/// The place behind data of `len` octets (RDLENGTH, RFC 1035 4.1.3), for the reader of one type.
///
/// `InsufficientBytes` where fewer octets are left, and where `len` is 0.
pub fn data_end(decoder: &BinDecoder<'_>, len: u16) -> Result<usize, DecodeError>
    ensures { result
        ≡ (if nat_lt (length (octets decoder.now)) (place decoder.now + len) then Err DecodeError.InsufficientBytes
        else if nat_eq len 0 then Err DecodeError.InsufficientBytes
        else Ok (place decoder.now + len)) }
{
    if decoder.len() < usize::from(len) || len == 0 {
        return Err(DecodeError::InsufficientBytes);
    }
    Ok(decoder.index() + usize::from(len))
}

/// Whether the fields read from `start` fill the octets up to `end`.
///
/// `IncorrectRDataLengthRead` where octets are left over, with the octets of the fields and the length of the data.
pub fn expect_end(reader: &BinDecoder<'_>, start: usize, end: usize) -> Result<(), DecodeError>
    requires from { start ≤ place reader.now }
    requires ahead { place reader.now ≤ end }
    ensures { result
        ≡ (if nat_eq (place reader.now) end then Ok tt
        else Err (DecodeError.IncorrectRDataLengthRead (place reader.now - start) (end - start))) }
{
    if reader.index() == end {
        Ok(())
    } else {
        Err(DecodeError::IncorrectRDataLengthRead {
            read: reader.index() - start,
            len: end - start,
        })
    }
}
