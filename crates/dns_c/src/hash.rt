//! The hash functions of HMAC, by their numbers.
ghost use Rattle.std.specs.Prelude.{◌≡◌};
ghost use Rattle.dns_c.specs.Arguments as specs;

use crate::status::Status;
use sec_digest::HmacHash;

/// The hash function of a number.
///
/// # Errors
///
/// `UnknownHash`.
pub(crate) fn hash_of_number(number: u32) -> Result<HmacHash, Status>
    ensures { result ≡ specs.hash_of_number number }
{
    match number {
        256 => Ok(HmacHash::Sha256),
        384 => Ok(HmacHash::Sha384),
        512 => Ok(HmacHash::Sha512),
        _ => Err(Status::UnknownHash),
    }
}
