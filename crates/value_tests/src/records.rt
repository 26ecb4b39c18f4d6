//! Record data made by hand, and passed between the types that hold them.
use dns_names::Name;
use dns_rdata::{DNSSECRData, NULL, RData};
use dns_types::RecordType;
use dns_wire::{BinEncodable, BinEncoder, EmitError, Octets};
use sec_digest::Nsec3HashAlgorithm;
use sec_sigdata::{NSEC, NSEC3};
use std::alloc::Global;
use std::test::Fail;

/// The octets that are written.
pub(crate) fn written<T: BinEncodable>(alloc: Global, value: &T) -> Result<Vec<u8>, EmitError> {
    let mut encoder = BinEncoder::new(alloc);
    value.emit(&mut encoder)?;
    Ok(encoder.into_bytes())
}

/// Data of type 1234.
fn unknown(alloc: Global) -> Result<DNSSECRData, Fail> {
    let rdata = NULL::with(Octets::from_slice(alloc, &[0xff])?);
    Ok(DNSSECRData::Unknown { code: 1234, rdata })
}

/// What is written of data of this type as data of any type.
fn written_as_any(alloc: Global, data: DNSSECRData) -> Result<Vec<u8>, EmitError> {
    written(alloc, &RData::from(data))
}

#[test]
fn data_of_another_type_are_octets(rt: HostRuntime) -> Result<(), Fail> {
    let alloc = rt.alloc();
    assert_eq!(rt; unknown(alloc)?.to_string(alloc)?.as_str(), "/w==");
    assert_eq!(rt;
        written_as_any(alloc, unknown(alloc)?)?.as_slice(),
        [0xffu8].as_slice()
    );
    Ok(())
}

/// The text of the next name `host.example.com.` with the types MX and A, and with those of an NSEC record itself.
fn next_names(alloc: Global) -> Result<(String, String), Fail> {
    let next = Name::from_ascii("host.example.com.")?;
    let types = [RecordType::MX, RecordType::A];
    let plain = NSEC::new(alloc, next, &types)?.to_string(alloc)?;
    let cover = NSEC::new_cover_self(alloc, next, &types)?.to_string(alloc)?;
    Ok((plain, cover))
}

#[test]
fn next_names_are_made_with_their_types(rt: HostRuntime) -> Result<(), Fail> {
    let (plain, cover) = next_names(rt.alloc())?;
    assert_eq!(rt; plain.as_str(), "host.example.com. A MX");
    assert_eq!(rt; cover.as_str(), "host.example.com. A MX RRSIG NSEC");
    Ok(())
}

#[test]
fn hashed_names_are_made_with_their_types(rt: HostRuntime) -> Result<(), Fail> {
    let alloc = rt.alloc();
    let (salt, hash) = (Vec::new(alloc), Vec::from_slice(alloc, b"\xff")?);
    let types = [RecordType::MX, RecordType::A];
    let nsec3 = NSEC3::new(
        alloc,
        Nsec3HashAlgorithm::SHA1,
        true,
        12,
        salt,
        hash,
        &types,
    )?;
    assert!(rt; nsec3.type_bit_maps().map(u16::from).eq([1u16, 15]));
    Ok(())
}
