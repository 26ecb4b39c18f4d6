//! Where the records of a message stand, and what its signatures cover, in the caller's memory. The octets are counted and
//! written by hand.
use crate::fixtures::{joined, octets_of};
use dns_message::Section;
use dns_names::Name;
use dns_types::{DNSClass, RecordType};
use message_walk::{DataBuffer, DataError, RecordPlace, RecordWalk, canonical_data};
use rrsig_input::{InputError, signed_input};
use std::alloc::Global;
use std::test::Fail;

/// The name servers of `example.` in an answer: `NS2.example.`, `ns1.example.`, the second once more, and their RRSIG at
/// place 79, its signature replaced by two octets (RFC 4035 appendix A). The names of the records are pointers, or end in
/// one.
const NAME_SERVERS: [&str; 6] = [
    "123485000001000400000000076578616d706c650000020001",
    "c00c00020001000000010006034e5332c00c",
    "c00c00020001000000020006036e7331c00c",
    "c00c00020001000000030006036e7331c00c",
    "c00c002e00010000003c001d",
    "0002050100000e10409e7a234076ed239677076578616d706c6500abcd",
];

/// An RRSIG of SIG records at place 12, and at place 44 a SIG of the same owner, the root, whose length and signature are
/// left out. The signer of the SIG is a pointer to the start of the message, where the octets are a name of 59 octets: a
/// label of 57, and an octet of zero in the SIG's own fields.
const SIG_OF_ROOT: [&str; 5] = [
    "390000000000000200000000",
    "00002e000100000e100015",
    "0018050000000e10409e7a234076ed23967700abcd",
    "000018000100000e10",
    "0001050000000e10409e7a234076ed239677c000",
];

/// Where the records of the name servers' message stand.
const PLACES: [(usize, usize, RecordType); 4] = [
    (25, 18, RecordType::NS),
    (43, 18, RecordType::NS),
    (61, 18, RecordType::NS),
    (79, 41, RecordType::RRSIG),
];

#[test]
fn records_stand_one_after_the_other(rt: HostRuntime) -> Result<(), Fail> {
    let message = joined(rt.alloc(), &NAME_SERVERS)?;
    let mut walk = RecordWalk::new(&message)?;
    for (start, length, rtype) in PLACES {
        let wanted = RecordPlace {
            start,
            length,
            section: Section::Answer,
            rtype,
        };
        assert_eq!(rt; walk.next(&mut []), Some(wanted));
    }
    assert_eq!(rt; walk.next(&mut []), None);
    Ok(())
}

#[test]
fn names_of_data_are_written_out_and_lowered(rt: HostRuntime) -> Result<(), Fail> {
    let message = joined(rt.alloc(), &NAME_SERVERS)?;
    let wanted = octets_of(rt.alloc(), "036e7332076578616d706c6500")?;
    let mut held = DataBuffer::new();
    assert_eq!(rt; canonical_data(&message, 25, &mut [], &mut held), Ok(()));
    assert!(rt; held.as_slice() == wanted.as_slice());
    let none = canonical_data(&message, 120, &mut [], &mut held);
    assert_eq!(rt; none, Err(DataError::NoRecord));
    assert!(rt; held.as_slice().is_empty());
    Ok(())
}

/// How many octets the RRSIG at a place covers of a set among the answers in class IN, or the cause why there are none.
fn covered(
    message: &[u8],
    owner: &str,
    start: usize,
    out: &mut [u8],
) -> Result<Result<usize, InputError>, Fail> {
    let owner = Name::from_ascii(owner)?;
    Ok(signed_input(message, Section::Answer, &owner, DNSClass::IN, start, out))
}

#[test]
fn a_short_buffer_is_left(rt: HostRuntime) -> Result<(), Fail> {
    let message = joined(rt.alloc(), &NAME_SERVERS)?;
    let mut out = [0xff; 90];
    assert_eq!(rt; covered(&message, "example.", 79, &mut out)?, Ok(91));
    assert!(rt; out.iter().all(|octet| *octet == 0xff));
    Ok(())
}

/// Owners, places, and why the name servers' message has nothing for them.
const CAUSES: [(&str, usize, InputError); 4] = [
    // a record of another type, and places within a record and after all
    ("example.", 25, InputError::NoRrsig),
    ("example.", 80, InputError::NoRrsig),
    ("example.", 65535, InputError::NoRrsig),
    (".", 79, InputError::LabelsExceedOwner),
];

#[test]
fn causes_are_answered(rt: HostRuntime) -> Result<(), Fail> {
    let message = joined(rt.alloc(), &NAME_SERVERS)?;
    for (owner, start, cause) in CAUSES {
        let mut out = [0xff; 91];
        assert_eq!(rt; covered(&message, owner, start, &mut out)?, Err(cause));
        assert!(rt; out.iter().all(|octet| *octet == 0xff));
    }
    Ok(())
}

#[test]
fn cut_messages_are_refused_first(rt: HostRuntime) -> Result<(), Fail> {
    let cut = joined(rt.alloc(), &NAME_SERVERS[..5])?;
    assert_eq!(rt;
        covered(&cut, ".", 25, &mut [])?,
        Err(InputError::NoMessage)
    );
    Ok(())
}

/// The message of a SIG of the root, where the SIG has this length and a signature of zeros.
fn long_sig(alloc: Global, length: u16) -> Result<Vec<u8>, Fail> {
    let mut message = joined(alloc, &SIG_OF_ROOT[..4])?;
    message.extend_from_slice(&length.to_be_bytes())?;
    message.extend_from_slice(&octets_of(alloc, SIG_OF_ROOT[4])?)?;
    message.resize(55 + length as usize, 0)?;
    Ok(message)
}

/// Lengths of the SIG, and what its RRSIG covers: 19 octets of fields, 11 before the data, and the data, which are longer
/// than those that stand by the 57 octets of a name in place of a pointer.
const LONG_DATA: [(u16, Result<usize, InputError>); 2] = [
    (65478, Ok(65565)),
    (65479, Err(InputError::DataTooLong)),
];

#[test]
fn data_that_no_record_holds_are_refused(rt: HostRuntime) -> Result<(), Fail> {
    let mut held = DataBuffer::new();
    for (length, wanted) in LONG_DATA {
        let message = long_sig(rt.alloc(), length)?;
        assert_eq!(rt; covered(&message, ".", 12, &mut [])?, wanted);
        let made = canonical_data(&message, 44, &mut [], &mut held);
        assert_eq!(rt; made.err(), wanted.err().map(|_| DataError::DataTooLong));
    }
    Ok(())
}
