//! HMAC.
ghost use Rattle.std.specs.Prelude.{◌≡◌};
ghost use Rattle.dns_wire.specs.Reading.{Gives};
ghost use Rattle.sec_digest.specs.Mac.{mac_octets};
ghost use Rattle.dns_c.specs.KeysAndNames as specs;
ghost use Rattle.dns_c.specs.Answered.{answered_list};

use crate::hash::hash_of_number;
use crate::output::tell;
use crate::status::Status;
use sec_digest::{Hmac, Mac};

/// The MAC of a message under the hash function of a number.
fn mac_of_message(hash: u32, key: &[u8], message: &[u8]) -> Result<Mac, Status>
    ensures { Gives mac_octets result (specs.mac_of_message hash key.now message.now) }
{
    let mut hasher = Hmac::new(hash_of_number(hash)?, key);
    hasher.update(message);
    Ok(hasher.finish())
}

/// HMAC of a message under a key of any length (RFC 2104). `hash` is 256, 384 or 512, for SHA-256, SHA-384 or SHA-512.
#[unsafe(no_mangle)]
pub extern "C" fn psp_hmac(
    hash: u32,
    key: &[u8],
    message: &[u8],
    out: &mut [u8],
    out_len: &mut usize,
) -> u32
    ensures { (result, out.new, out_len.new)
        ≡ answered_list (specs.mac_of_message hash key.now message.now) out.old out_len.old }
{
    match mac_of_message(hash, key, message) {
        Ok(mac) => tell(mac.as_slice(), out, out_len),
        Err(refusal) => refusal.number(),
    }
}
