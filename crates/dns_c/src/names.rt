//! Names as text and in wire form, and their hashes.
ghost use Rattle.std.specs.Prelude.{◌≡◌};
ghost use Rattle.dns_wire.specs.Reading.{Gives};
ghost use Rattle.dns_names.specs.Names.{wire};
ghost use Rattle.sec_digest.specs.Digests.{digest_octets};
ghost use Rattle.dns_c.specs.KeysAndNames as specs;
ghost use Rattle.dns_c.specs.Answered.{answered_list};

use crate::output::tell;
use crate::status::Status;
use crate::text_buf::TextBuf;
use crate::wire_name::name_of_wire;
use dns_names::Name;
use dns_wire::NameError;
use sec_digest::{Digest, Nsec3HashAlgorithm};
use std::str;

/// How many octets a salt has at most (RFC 5155 3.1.4).
const LONGEST_SALT: usize = 255;

/// The status of a text that spells no name.
fn text_fault(fault: NameError) -> Status
    ensures { result ≡ specs.text_fault fault }
{
    match fault {
        NameError::EmptyLabel => Status::EmptyLabel,
        NameError::LabelTooLong => Status::LabelTooLong,
        NameError::NameTooLong => Status::NameTooLong,
        NameError::BadEscape => Status::BadEscape,
        NameError::BadCharacter => Status::BadCharacter,
    }
}

/// The name that a text spells.
fn name_of_text(text: &[u8]) -> Result<Name, Status>
    ensures { Gives wire result (specs.wire_of_text text.now) }
{
    let Ok(text) = str::from_utf8(text) else {
        return Err(Status::NotUtf8);
    };
    match Name::from_ascii(text) {
        Ok(name) => Ok(name),
        Err(fault) => Err(text_fault(fault)),
    }
}

/// The text of the name whose wire form the octets are.
fn text_of_wire(octets: &[u8]) -> Result<TextBuf, Status>
    ensures { Gives (λ text. text) result (specs.text_of_wire octets.now) }
{
    let name = name_of_wire(octets)?;
    Ok(TextBuf::of_name(&name))
}

/// The hash of the name whose wire form the octets are.
fn hash_of_name(octets: &[u8], salt: &[u8], iterations: u16) -> Result<Digest, Status>
    ensures { Gives digest_octets result (specs.hash_of_name octets.now salt.now iterations) }
{
    let name = name_of_wire(octets)?;
    if salt.len() > LONGEST_SALT {
        return Err(Status::SaltTooLong);
    }
    Ok(Nsec3HashAlgorithm::SHA1.hash(salt, &name, iterations))
}

/// The wire form of the name that a text spells (RFC 1035 5.1).
#[unsafe(no_mangle)]
pub extern "C" fn psp_name_from_text(text: &[u8], out: &mut [u8], out_len: &mut usize) -> u32
    ensures { (result, out.new, out_len.new) ≡ answered_list (specs.wire_of_text text.now) out.old out_len.old }
{
    match name_of_text(text) {
        Ok(name) => tell(name.as_wire(), out, out_len),
        Err(refusal) => refusal.number(),
    }
}

/// The text of a name in wire form (RFC 1035 5.1), with a dot at the end.
#[unsafe(no_mangle)]
pub extern "C" fn psp_name_to_text(name: &[u8], out: &mut [u8], out_len: &mut usize) -> u32
    ensures { (result, out.new, out_len.new) ≡ answered_list (specs.text_of_wire name.now) out.old out_len.old }
{
    match text_of_wire(name) {
        Ok(text) => tell(text.as_slice(), out, out_len),
        Err(refusal) => refusal.number(),
    }
}

/// The hash of a name in wire form by SHA-1, with so many rounds behind the first (RFC 5155 5).
#[unsafe(no_mangle)]
pub extern "C" fn psp_nsec3_hash(
    name: &[u8],
    salt: &[u8],
    iterations: u16,
    out: &mut [u8],
    out_len: &mut usize,
) -> u32
    ensures { (result, out.new, out_len.new)
        ≡ answered_list (specs.hash_of_name name.now salt.now iterations) out.old out_len.old }
{
    match hash_of_name(name, salt, iterations) {
        Ok(hash) => tell(hash.as_slice(), out, out_len),
        Err(refusal) => refusal.number(),
    }
}
