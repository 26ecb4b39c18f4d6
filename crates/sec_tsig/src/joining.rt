//! Messages with a TSIG record put after them.
ghost use Rattle.std.specs.Prelude.{◌≡◌, ◌≤◌, ◌<◌, ◌+◌, ◌++◌, ℕ, List, length, drop, false, slice_range, Ok, OnOk};
ghost use Rattle.std.specs.Int.{w16, from_be_bytes};
ghost use Rattle.dns_wire.specs.declared.encoder.NameEncoding.TheVariants.{Uncompressed};
ghost use Rattle.dns_wire.specs.Octets.{two_octets};
ghost use Rattle.dns_wire.specs.Rooms.{FillsStart, FitsRoom};
ghost use Rattle.dns_wire.specs.Writing.{paste};
ghost use Rattle.sec_tsig.specs.Tsig.{additional_count, join, tsig_record, with_record, JoinsTo};
ghost use Rattle.sec_tsig.specs.Views.{Becomes};

use crate::mac_input::FORM;
use dns_message::Record;
use dns_wire::{EmitError, Putting, SliceWriter, put_len};
use sec_sigdata::TSIG;

/// The number of octets of the longest message.
pub(crate) const MESSAGE_LIMIT: usize = 65535;

/// The number in the two octets of a message at a place.
pub(crate) fn number_at(octets: &[u8], place: usize) -> u16
    requires { place + 2 ≤ length octets.now }
    ensures { result ≡ from_be_bytes w16 (slice_range octets.now place (place + 2)) }
{
    u16::from_be_bytes([octets[place], octets[place + 1]])
}

/// Raises the additional count of a message by one.
fn count_one_more(octets: &mut [u8])
    requires header { 12 ≤ length octets.old }
    requires counted { additional_count octets.old < 65535 }
    ensures { octets.new ≡ paste octets.old 10 (two_octets (additional_count octets.old + 1)) }
{
    let additionals = number_at(octets, 10);
    octets[10..12].copy_from_slice(&(additionals + 1).to_be_bytes());
}

/// Puts a record at the start of a buffer that has buffer for it.
fn put_at_start<R: Putting>(buffer: &mut [u8], rr: &R)
    requires { FitsRoom (R.written false Uncompressed rr.now) buffer.old }
    ensures { (octets : List ℕ) → R.written false Uncompressed rr.now ≡ Ok octets
        → buffer.new ≡ octets ++ drop (length octets) buffer.old }
{
    let mut writer = SliceWriter::new(buffer);
    rr.put(FORM, &mut writer).unwrap();
}

/// Puts a record after the message that ends at a place of a buffer, and counts it among the message's additionals. The
/// buffer has buffer for it.
pub(crate) fn append_record<R: Putting>(buffer: &mut [u8], end: usize, rr: &R)
    requires header { 12 ≤ end }
    requires inside { end ≤ length buffer.old }
    requires counted { additional_count buffer.old < 65535 }
    requires fits { FitsRoom (R.written false Uncompressed rr.now) (drop end buffer.old) }
    ensures { (message rest octets : List ℕ) → buffer.old ≡ message ++ rest → length message ≡ end
        → R.written false Uncompressed rr.now ≡ Ok octets
        → buffer.new ≡ join message octets ++ drop (length octets) rest }
{
    put_at_start(&mut buffer[end..], rr);
    count_one_more(buffer);
}

/// How many octets a message has with a record after it.
#[tactic(auto, using(crate::proofs::Joins::exits))]
fn joined_len(octets: &[u8], rr: &Record<TSIG>) -> Result<usize, EmitError>
    requires { 12 ≤ length octets.now }
    ensures exact { JoinsTo result octets.now (tsig_record rr.now) }
    ensures counted { OnOk result (additional_count octets.now < 65535) }
{
    if number_at(octets, 10) == u16::MAX {
        return Err(EmitError::CountTooLarge);
    }
    let len = octets.len().saturating_add(put_len(rr, FORM)?);
    if len > MESSAGE_LIMIT {
        return Err(EmitError::MessageTooLong);
    }
    Ok(len)
}

/// Puts a TSIG record after a message and counts it among its additionals (RFC 8945 5.1).
///
/// # Errors
///
/// `CountTooLarge` where the message has 65,535 additional records. Then the causes for which the record can't be
/// written: `TimeTooLarge`, `MacTooLong`, `OtherTooLong`, `DataTooLong`, in this order. Then `MessageTooLong` where the
/// whole would have more than 65,535 octets. Or `OutOfMemory`. The message then stays as it was.
pub fn append_tsig(octets: &mut Vec<u8>, rr: &Record<TSIG>) -> Result<(), EmitError>
    requires { 12 ≤ length octets.old.items }
    ensures { Becomes result octets.old.items octets.new.items (with_record octets.old.items (tsig_record rr.now)) }
{
    let end = octets.len();
    let joined = joined_len(octets.as_slice(), rr)?;
    octets.resize(joined, 0)?;
    append_record(octets.as_mut_slice(), end, rr);
    Ok(())
}
