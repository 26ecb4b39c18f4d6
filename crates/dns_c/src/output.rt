//! The caller's memory.
ghost use Rattle.std.specs.Prelude.{◌≡◌, Ok};
ghost use Rattle.dns_c.specs.Answered.{answered_list};

use crate::status::Status;

/// Writes octets to the caller's room, where it is long enough, and tells how many they are.
pub(crate) fn tell(octets: &[u8], out: &mut [u8], out_len: &mut usize) -> u32
    ensures { (result, out.new, out_len.new) ≡ answered_list (Ok octets.now) out.old out_len.old }
{
    *out_len = octets.len();
    if out.len() < octets.len() {
        return Status::OutTooShort.number();
    }
    out[..octets.len()].copy_from_slice(octets);
    Status::Done.number()
}
