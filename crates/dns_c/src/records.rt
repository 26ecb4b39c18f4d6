//! The records of messages, and what their signatures cover.
ghost use Rattle.std.specs.Prelude.{◌≡◌, ◌+◌, ◌≤◌, ◌<◌, ◌^◌, ◌++◌, drop, length, map};
ghost use Rattle.rrsig_input.specs.Rooms.{FillsRoom};
ghost use Rattle.dns_c.specs.MessageRecords.{data_of_record, data_status, input_of_rrsig, input_status, record_for};
ghost use Rattle.dns_c.specs.MessageRecords.{records_of, section_number, section_of_number};
ghost use Rattle.dns_c.specs.Answered.{answered_list};

use crate::output::tell;
use crate::status::Status;
use crate::wire_name::name_of_wire;
use dns_message::Section;
use dns_types::DNSClass;
use message_walk::{DataBuffer, DataError, RecordPlace, RecordWalk, canonical_data, empty_cache};
use rrsig_input::{InputError, signed_input};

/// Where a record of a message stands.
#[repr(C)]
#[derive(Clone, Copy, Debug)]
pub struct PspRecord {
    /// The place of its first octet.
    pub start: u32,
    /// How many octets it has, from its owner to the end of its data.
    pub length: u32,
    /// 1 for the answers, 2 for the authority records, 3 for the additional records.
    pub section: u16,
    /// Its type.
    pub rtype: u16,
}

/// The number of a section.
fn section_number(section: Section) -> u16
    ensures { result ≡ section_number section }
{
    match section {
        Section::Answer => 1,
        Section::Authority => 2,
        Section::Additional => 3,
    }
}

/// The section of a number.
fn section_of_number(number: u32) -> Result<Section, Status>
    ensures { result ≡ section_of_number number }
{
    match number {
        1 => Ok(Section::Answer),
        2 => Ok(Section::Authority),
        3 => Ok(Section::Additional),
        _ => Err(Status::BadSection),
    }
}

/// The status of a record without canonical data.
fn data_status(cause: DataError) -> Status
    ensures { result ≡ data_status cause }
{
    match cause {
        DataError::NoRecord => Status::NoRecord,
        DataError::DataTooLong => Status::DataTooLong,
    }
}

/// The status of an RRSIG that covers nothing.
fn input_status(cause: InputError) -> Status
    ensures { result ≡ input_status cause }
{
    match cause {
        InputError::NoMessage => Status::NotAMessage,
        InputError::NoRrsig => Status::NoRrsig,
        InputError::LabelsExceedOwner => Status::LabelsExceedOwner,
        InputError::DataTooLong => Status::DataTooLong,
    }
}

impl PspRecord {
    /// Where a record stands, as it is told.
    fn of(place: &RecordPlace) -> PspRecord
        requires { place.now.start + place.now.length < 2 ^ 32 }
        ensures { result ≡ record_for place.now }
    {
        PspRecord {
            start: place.start as u32,
            length: place.length as u32,
            section: section_number(place.section),
            rtype: place.rtype.into(),
        }
    }
}

/// Writes where the records stand that are left, to a room that is long enough.
fn put_places(mut walk: RecordWalk<'_>, out: &mut [PspRecord])
    requires short { length walk.message ≤ 65535 }
    requires room { length walk.left ≤ length out.old }
    ensures { out.new ≡ map record_for walk.entry.left ++ drop (length walk.entry.left) out.old }
{
    let mut cache = empty_cache();
    let mut count = 0;
    'records: while let Some(place) = walk.next(&mut cache) {
        out[count] = PspRecord::of(&place);
        count += 1;
    }
}

/// Tells where the records of a message stand, in their order (RFC 1035 4.1).
#[unsafe(no_mangle)]
pub extern "C" fn psp_records(message: &[u8], out: &mut [PspRecord], out_len: &mut usize) -> u32
    ensures { (result, out.new, out_len.new) ≡ answered_list (records_of message.now) out.old out_len.old }
{
    let Ok(walk) = RecordWalk::new(message) else {
        return Status::NotAMessage.number();
    };
    *out_len = walk.len();
    if out.len() < walk.len() {
        return Status::OutTooShort.number();
    }
    put_places(walk, out);
    Status::Done.number()
}

/// Tells the data of the record that starts at `start` in canonical form (RFC 4034 6.2).
#[unsafe(no_mangle)]
pub extern "C" fn psp_canonical_data(
    message: &[u8],
    start: usize,
    out: &mut [u8],
    out_len: &mut usize,
) -> u32
    ensures { (result, out.new, out_len.new) ≡ answered_list (data_of_record message.now start) out.old out_len.old }
{
    let mut cache = empty_cache();
    let mut held = DataBuffer::new();
    match canonical_data(message, start, &mut cache, &mut held) {
        Ok(()) => tell(held.as_slice(), out, out_len),
        Err(cause) => data_status(cause).number(),
    }
}

/// What the RRSIG covers that starts at `start`, put into the room.
fn put_input(
    message: &[u8],
    section: u32,
    owner: &[u8],
    dns_class: u16,
    start: usize,
    out: &mut [u8],
) -> Result<usize, Status>
    ensures { FillsRoom result out.old out.new (input_of_rrsig message.now section owner.now dns_class start) }
{
    let section = section_of_number(section)?;
    let owner = name_of_wire(owner)?;
    match signed_input(
        message,
        section,
        &owner,
        DNSClass::from(dns_class),
        start,
        out,
    ) {
        Ok(length) => Ok(length),
        Err(cause) => Err(input_status(cause)),
    }
}

/// Tells the octets that the RRSIG covers that starts at `start` (RFC 4034 3.1.8.1), of the records of a section with
/// this owner, a name in wire form, and this class.
#[unsafe(no_mangle)]
pub extern "C" fn psp_rrsig_input(
    message: &[u8],
    section: u32,
    owner: &[u8],
    dns_class: u16,
    start: usize,
    out: &mut [u8],
    out_len: &mut usize,
) -> u32
    ensures { (result, out.new, out_len.new)
        ≡ answered_list (input_of_rrsig message.now section owner.now dns_class start) out.old out_len.old }
{
    match put_input(message, section, owner, dns_class, start, out) {
        Ok(length) => {
            *out_len = length;
            if out.len() < length {
                return Status::OutTooShort.number();
            }
            Status::Done.number()
        }
        Err(refusal) => refusal.number(),
    }
}
