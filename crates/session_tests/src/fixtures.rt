//! Records, keys and signatures from texts.
use dns_message::Record;
use dns_names::Name;
use dns_rdata::RData;
use dns_text::decode_hex;
use dns_types::DNSClass;
use dns_wire::{BinDecoder, RecordDataDecodable};
use sec_keydata::DNSKEY;
use sec_sigdata::RRSIG;
use sec_sign::{TBS, TbsError};
use std::alloc::Global;
use std::test::Fail;

/// A key of 32 octets 01 for Ed25519, as the text of a DNSKEY. Its tag is 5151.
pub(crate) const KEY: &str = "256 3 15 AQEBAQEBAQEBAQEBAQEBAQEBAQEBAQEBAQEBAQEBAQE=";

/// A key of one octet 01 for Ed25519, whose keys have 32. Its tag is 1295.
pub(crate) const SHORT_KEY: &str = "256 3 15 AQ==";

/// The fields of the RRSIG of a set of addresses by the first key: labels 1, TTL 3600, from 1000 to 2000, by
/// `example.`.
pub(crate) const HEADER: &str = "00010f0100000e10000007d0000003e8141f076578616d706c6500";

/// The HMAC with SHA-256, under 32 octets 01, of what that header and the addresses 192.0.2.1 and 192.0.2.2 of
/// `example.` sign, by python3's module hmac.
pub(crate) const SIGNATURE: &str =
    "c3a6e12add2a329578951748a89822b8854bc7d598618e8fe81cfad0f3386051";

/// The octets of a text in hexadecimal.
pub(crate) fn octets_of(alloc: Global, hex: &str) -> Result<Vec<u8>, Fail> {
    Ok(decode_hex(alloc, hex.as_bytes())?.ok_or("no hexadecimal")?)
}

/// The octets of texts in hexadecimal, one after the other.
pub(crate) fn joined(alloc: Global, pieces: &[&str]) -> Result<Vec<u8>, Fail> {
    let mut octets = Vec::new(alloc);
    for piece in pieces {
        octets.extend_from_slice(&octets_of(alloc, piece)?)?;
    }
    Ok(octets)
}

/// The addresses 192.0.2.2 and 192.0.2.1 of `EXAMPLE.`.
pub(crate) fn addresses(alloc: Global) -> Result<Vec<Record<RData>>, Fail> {
    let name = Name::from_ascii("EXAMPLE.")?;
    let second = Record::from_rdata(name, 3600, RData::A([192, 0, 2, 2]));
    let first = Record::from_rdata(name, 3600, RData::A([192, 0, 2, 1]));
    Ok(Vec::from_array(alloc, [second, first])?)
}

/// An RRSIG with these fields and this signature.
pub(crate) fn rrsig_of(alloc: Global, header: &str, signature: &str) -> Result<RRSIG, Fail> {
    let octets = joined(alloc, &[header, signature])?;
    let length = u16::try_from(octets.len()).unwrap_or(u16::MAX);
    Ok(RRSIG::read_data(alloc, &mut BinDecoder::new(&octets), length)?)
}

/// The DNSKEY of a text.
pub(crate) fn dnskey_of(alloc: Global, text: &str) -> Result<DNSKEY, Fail> {
    Ok(DNSKEY::from_tokens(alloc, text)?)
}

/// What an RRSIG's fields and the records of `example.` in class IN sign, or why there is nothing.
pub(crate) fn signed(
    alloc: Global,
    header: &str,
    records: &[Record<RData>],
) -> Result<Result<TBS, TbsError>, Fail> {
    let name = Name::from_ascii("example.")?;
    let rrsig = rrsig_of(alloc, header, "")?;
    Ok(TBS::from_input(alloc, &name, DNSClass::IN, rrsig.input(), records))
}
