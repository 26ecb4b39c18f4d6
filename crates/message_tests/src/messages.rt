//! Single messages, written by hand from RFC 1035 and RFC 8945; the MAC is from python3's module hmac.
use crate::hex::{joined, octets};
use dns_message::{DnsResponse, Message, MessageView, Places, ResponseError};
use dns_wire::DecodeError;
use std::test::Fail;

/// A question for the addresses of `example.`, with ID 1234.
const REQUEST: &str = "123401000001000000000000076578616d706c650000010001";

/// The answer of one address, whose owner is a pointer.
const ANSWER: &str = "123481800001000100000000076578616d706c650000010001\
                      c00c0001000100000e100004c0000201";

/// The answer with a TSIG record at place 41, by twenty octets 0b under the name `k.`, at time 1000.
const SIGNED: [&str; 4] = [
    "123481800001000100000001076578616d706c650000010001c00c0001000100000e100004c0000201",
    "016b0000fa00ff00000000003d0b686d61632d736861323536000000000003e8012c0020",
    "bd51d084b43578959c48a9ff978363372f39c9fdcaab2dbedaf304bfbddeb40d",
    "123400000000",
];

/// Where a message ends, and where its signature starts and its time.
fn viewed(octets: &[u8]) -> Option<(usize, Option<(usize, u64)>)> {
    match MessageView::parse(octets) {
        Ok(view) => match view.tsig() {
            Some(tsig) => Some((view.end(), Some((tsig.start, tsig.time)))),
            None => Some((view.end(), None)),
        },
        Err(_) => None,
    }
}

#[test]
fn responses_have_the_bit_qr(rt: HostRuntime) -> Result<(), Fail> {
    let answer = octets(rt.alloc(), ANSWER)?;
    let response = DnsResponse::from_buffer(answer)?;
    assert_eq!(rt; response.message().answers.len(), 1);
    assert_eq!(rt; response.as_buffer().len(), 41);
    let request = DnsResponse::from_buffer(octets(rt.alloc(), REQUEST)?);
    assert!(rt; matches!(request, Err(ResponseError::NotAResponse)));
    let none = DnsResponse::from_buffer(Vec::new(rt.alloc()));
    assert!(rt;
        matches!(
            none,
            Err(ResponseError::Decode(DecodeError::InsufficientBytes))
        )
    );
    Ok(())
}

#[test]
fn a_signature_stands_by_itself(rt: HostRuntime) -> Result<(), Fail> {
    let mut octets_read = joined(rt.alloc(), &SIGNED)?;
    octets_read.extend_from_slice(&[0, 0, 0])?;
    let (message, places) = Message::from_vec_with_places(rt.alloc(), octets_read.as_slice())?;
    let wanted = Places {
        signature: Some(41),
        end: 115,
    };
    assert_eq!(rt; places, wanted);
    assert_eq!(rt; message.additionals.len(), 0);
    assert_eq!(rt;
        viewed(octets_read.as_slice()),
        Some((115, Some((41, 1000))))
    );
    Ok(())
}
