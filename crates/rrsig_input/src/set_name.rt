//! Which records of a message are of a set (RFC 2181 5).
ghost use Rattle.std.specs.Prelude.{◌≡◌, ◌≤◌, length};
ghost use Rattle.dns_names.specs.PointerCache.{IsPointerCache};
ghost use Rattle.dns_grammar.specs.Messages.{head_at};
ghost use Rattle.sec_sign.specs.Pairs.{set_named};
ghost use Rattle.rrsig_input.specs.SignedSets.{is_head_of};

use dns_message::RecordHead;
use dns_wire::BinDecoder;
use sec_sign::RrsetName;

/// Whether the record that starts at `start` is of the set.
pub(crate) fn is_of_set(
    message: &[u8],
    start: usize,
    set: &RrsetName<'_>,
    cache: &mut [u16],
) -> bool
    requires inside { start ≤ length message.now }
    requires cache { IsPointerCache message.now cache.old }
    ensures cache { IsPointerCache message.now cache.new }
    ensures exact { result ≡ is_head_of (set_named set.now) (head_at message.now start) }
{
    let mut reader = BinDecoder::new(message);
    reader.set_index(start);
    match RecordHead::read_with(&mut reader, cache) {
        Ok(head) => {
            head.rtype == set.rtype && head.dns_class == set.dns_class && head.name == *set.name
        }
        Err(_) => false,
    }
}
