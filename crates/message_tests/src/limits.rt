//! Messages at the limits of their lengths and counts.
use crate::hex::octets;
use dns_message::{Message, MessageView, Query, Record};
use dns_names::Name;
use dns_rdata::{NULL, RData};
use dns_types::{DNSClass, RecordType};
use dns_wire::{BinEncodable, BinEncoder, DecodeError, EmitError, Octets};
use std::alloc::Global;
use std::test::Fail;

/// An answer of one address, with zeros after it up to a length.
fn padded(alloc: Global, length: usize) -> Result<Vec<u8>, Fail> {
    let mut answer = octets(
        alloc,
        "123481800001000100000000076578616d706c650000010001c00c0001000100000e100004c0000201",
    )?;
    answer.resize(length, 0)?;
    Ok(answer)
}

/// A message without parts.
fn empty(alloc: Global) -> Message {
    Message {
        id: 1,
        flags: 0x8000,
        queries: Vec::new(alloc),
        answers: Vec::new(alloc),
        authorities: Vec::new(alloc),
        additionals: Vec::new(alloc),
        signature: None,
    }
}

/// Whether the message is written, or why not.
fn emit(alloc: Global, message: &Message) -> Result<usize, EmitError> {
    let mut encoder = BinEncoder::new(alloc);
    message.emit(&mut encoder)?;
    Ok(encoder.len())
}

#[test]
fn a_message_has_at_most_65535_octets(rt: HostRuntime) -> Result<(), Fail> {
    let longest = padded(rt.alloc(), 65535)?;
    assert!(rt; Message::from_vec(rt.alloc(), longest.as_slice()).is_ok());
    assert!(rt; MessageView::parse(longest.as_slice()).is_ok());
    let longer = padded(rt.alloc(), 65536)?;
    let refused = Message::from_vec(rt.alloc(), longer.as_slice());
    assert!(rt; matches!(refused, Err(DecodeError::MessageTooLong)));
    let refused = MessageView::parse(longer.as_slice());
    assert!(rt; matches!(refused, Err(DecodeError::MessageTooLong)));
    Ok(())
}

/// What writing a message gives whose one answer has so many octets of data.
fn with_data(alloc: Global, length: usize) -> Result<Result<usize, EmitError>, Fail> {
    let mut data_octets = Vec::new(alloc);
    data_octets.resize(length, 0)?;
    let rdata = RData::NULL(NULL::with(Octets::from_vec(data_octets)));
    let mut message = empty(alloc);
    message
        .answers
        .push(Record::from_rdata(Name::root(), 0, rdata))?;
    Ok(emit(alloc, &message))
}

#[test]
fn data_have_at_most_65535_octets(rt: HostRuntime) -> Result<(), Fail> {
    assert_eq!(rt; with_data(rt.alloc(), 65535)?, Ok(12 + 11 + 65535));
    assert_eq!(rt; with_data(rt.alloc(), 65536)?, Err(EmitError::DataTooLong));
    Ok(())
}

/// What writing a message gives that has so many questions.
fn with_questions(alloc: Global, count: usize) -> Result<Result<usize, EmitError>, Fail> {
    let mut message = empty(alloc);
    for _ in 0..count {
        message.queries.push(Query {
            name: Name::root(),
            query_type: RecordType::A,
            query_class: DNSClass::IN,
        })?;
    }
    Ok(emit(alloc, &message))
}

#[test]
fn a_part_has_at_most_65535_entries(rt: HostRuntime) -> Result<(), Fail> {
    assert_eq!(rt; with_questions(rt.alloc(), 65535)?, Ok(12 + 5 * 65535));
    assert_eq!(rt;
        with_questions(rt.alloc(), 65536)?,
        Err(EmitError::CountTooLarge)
    );
    Ok(())
}
