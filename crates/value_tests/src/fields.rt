//! A field of the test's own among those of record data, and the checks that take one.
use dns_grammar::{FieldKind, TestedField, check_row};
use dns_wire::{BinDecoder, DecodeError};
use std::test::Fail;

/// The protocol of a DNSKEY (RFC 4034 section 2.1.2), in its own octet.
#[derive(Clone, Copy, Debug)]
struct Protocol;

impl TestedField for Protocol {
    ghost use Rattle.value_tests.specs.Protocols.{protocol_field};

    ghost field = { λ _. protocol_field };

    fn skip(&self, decoder: &mut BinDecoder<'_>, end: usize) -> Result<(), DecodeError> {
        let mut reader = *decoder;
        let protocol = reader.read_u8_within(end)?;
        if protocol != 3 {
            return Err(DecodeError::DnsKeyProtocolNot3(protocol));
        }
        *decoder = reader;
        Ok(())
    }
}

/// Flags, protocol, algorithm and key (RFC 4034 section 2.1).
const DNSKEY: [FieldKind<Protocol>; 4] = [
    FieldKind::U16,
    FieldKind::Tested(Protocol),
    FieldKind::U8,
    FieldKind::Octets,
];

#[test]
fn tested_fields_are_checked_in_turn(rt: HostRuntime) -> Result<(), Fail> {
    let octets = [1u8, 0, 3, 5, 9, 9, 1, 0, 4, 5];
    let mut reader = BinDecoder::new(&octets);
    assert_eq!(rt; check_row(&mut reader, 6, &DNSKEY, &mut []), Ok(()));
    assert_eq!(rt; reader.index(), 6);
    assert_eq!(rt;
        check_row(&mut reader, 4, &DNSKEY, &mut []),
        Err(DecodeError::DnsKeyProtocolNot3(4))
    );
    assert_eq!(rt; reader.index(), 6);
    Ok(())
}
