//! Numbers and octets written in turn, one in place of another.
use dns_wire::{BinEncoder, EmitError, Octets};
use std::alloc::Global;
use std::test::Fail;

/// Numbers of each width, the second in place of another, and octets.
fn numbers_and_octets(alloc: Global) -> Result<Vec<u8>, EmitError> {
    let mut encoder = BinEncoder::new(alloc);
    encoder.emit_u8(1)?;
    encoder.emit_u16(0x0203)?;
    encoder.emit_u32(0x0405_0607)?;
    encoder.emit_both(b"ab", b"c")?;
    encoder.emit_vec(b"rest")?;
    encoder.place_u16(1, 0xfffe);
    encoder.truncate(11);
    Ok(encoder.into_bytes())
}

#[test]
fn numbers_and_octets_are_written(rt: HostRuntime) -> Result<(), Fail> {
    let written = numbers_and_octets(rt.alloc())?;
    let wanted = b"\x01\xff\xfe\x04\x05\x06\x07abcr".as_slice();
    assert_eq!(rt; written.as_slice(), wanted);
    let held = Octets::from_slice(rt.alloc(), wanted)?;
    assert!(rt; held.try_clone()? == held);
    Ok(())
}
