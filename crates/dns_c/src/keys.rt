//! The tags and digests of keys.
ghost use Rattle.std.specs.Prelude.{◌≡◌, ◌≤◌, length, IfOk};
ghost use Rattle.dns_wire.specs.Reading.{Gives};
ghost use Rattle.sec_digest.specs.Digests.{digest_octets};
ghost use Rattle.dns_c.specs.Arguments.{held_data};
ghost use Rattle.dns_c.specs.KeysAndNames.{tag_of_data, digest_of_data};
ghost use Rattle.dns_c.specs.Answered.{answered, answered_list};

use crate::output::tell;
use crate::status::Status;
use crate::wire_name::name_of_wire;
use sec_digest::Digest;
use sec_keydata::DNSKEY;

/// How many octets the data of a record have at most (RFC 1035 3.2.1).
const LONGEST_DATA: usize = 65_535;

/// The data, where a record holds them.
///
/// # Errors
///
/// `DataTooLong`.
fn held_data(octets: &[u8]) -> Result<&[u8], Status>
    ensures exact { Gives (λ held. held.now) result (held_data octets.now) }
    ensures at_most { IfOk result (λ held. length held.now ≤ LONGEST_DATA) }
{
    if octets.len() > LONGEST_DATA {
        return Err(Status::DataTooLong);
    }
    Ok(octets)
}

/// The tag of the DNSKEY with these data.
fn tag_of_data(octets: &[u8]) -> Result<u16, Status>
    ensures { result ≡ tag_of_data octets.now }
{
    let held = held_data(octets)?;
    Ok(DNSKEY::calculate_key_tag_internal(held))
}

/// The digest of the owner's DNSKEY with these data.
fn digest_of_data(owner: &[u8], octets: &[u8], digest_type: u8) -> Result<Digest, Status>
    ensures { Gives digest_octets result (digest_of_data owner.now octets.now digest_type) }
{
    let owner = name_of_wire(owner)?;
    let held = held_data(octets)?;
    match Digest::from_iter(owner.to_lowercase().as_wire(), held, digest_type.into()) {
        Ok(digest) => Ok(digest),
        Err(_) => Err(Status::UnknownDigestType),
    }
}

/// The tag of the DNSKEY with these data (RFC 4034 appendix B).
#[unsafe(no_mangle)]
pub extern "C" fn psp_key_tag(octets: &[u8], tag: &mut u16) -> u32
    ensures { (result, tag.new) ≡ answered (tag_of_data octets.now) tag.old }
{
    match tag_of_data(octets) {
        Ok(found) => {
            *tag = found;
            Status::Done.number()
        }
        Err(refusal) => refusal.number(),
    }
}

/// The digest of the owner's DNSKEY with these data (RFC 4034 5.1.4). `owner` is a name in wire form.
#[unsafe(no_mangle)]
pub extern "C" fn psp_ds_digest(
    owner: &[u8],
    octets: &[u8],
    digest_type: u8,
    out: &mut [u8],
    out_len: &mut usize,
) -> u32
    ensures { (result, out.new, out_len.new)
        ≡ answered_list (digest_of_data owner.now octets.now digest_type) out.old out_len.old }
{
    match digest_of_data(owner, octets, digest_type) {
        Ok(digest) => tell(digest.as_slice(), out, out_len),
        Err(refusal) => refusal.number(),
    }
}
