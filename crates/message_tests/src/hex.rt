//! Octets spelled out in hexadecimal.
use dns_text::decode_hex;
use std::alloc::Global;
use std::test::Fail;

/// The octets of hexadecimal digits.
pub(crate) fn octets(alloc: Global, hex: &str) -> Result<Vec<u8>, Fail> {
    let Some(octets) = decode_hex(alloc, hex.as_bytes())? else {
        return Ok(Vec::new(alloc));
    };
    Ok(octets)
}

/// The octets of pieces of hexadecimal digits, one after the other.
pub(crate) fn joined(alloc: Global, pieces: &[&str]) -> Result<Vec<u8>, Fail> {
    let mut all = Vec::new(alloc);
    for piece in pieces {
        all.extend_from_slice(octets(alloc, piece)?.as_slice())?;
    }
    Ok(all)
}
