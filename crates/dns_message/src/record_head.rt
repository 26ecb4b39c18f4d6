//! What stands before the data of a record (RFC 1035 4.1.3).
ghost use Rattle.std.specs.Prelude.{◌≡◌, IfOk};
ghost use Rattle.dns_wire.specs.Reading.{octets, place, Reads};
ghost use Rattle.dns_names.specs.PointerCache.{IsPointerCache};
ghost use Rattle.dns_grammar.specs.Messages.{head_at};
ghost use Rattle.dns_message.specs.Views.{head_view, map_head};

use dns_names::Name;
use dns_types::{DNSClass, RecordType};
use dns_wire::{BinDecoder, DecodeError};

/// What stands before the data of a record.
#[derive(Clone, Copy, Debug)]
pub struct RecordHead {
    /// Where the record starts.
    pub start: usize,
    /// The owner.
    pub name: Name,
    /// The type.
    pub rtype: RecordType,
    /// The class.
    pub dns_class: DNSClass,
    /// How many seconds the record may be kept.
    pub ttl: u32,
    /// How many octets the data have.
    pub length: u16,
}

/// Skips what stands before the data of a record, and gives its type and how many octets the data have. A refused
/// reading leaves the decoder.
///
/// # Errors
///
/// Those of `Name::skip_with` for the owner, and `InsufficientBytes` where the octets end within a number.
#[tactic(auto, unfolding(dns_grammar::specs::Messages::head_at))]
pub fn skip_head(
    decoder: &mut BinDecoder<'_>,
    cache: &mut [u16],
) -> Result<(RecordType, u16), DecodeError>
    requires cache { IsPointerCache (octets decoder.old) cache.old }
    ensures cache { IsPointerCache (octets decoder.old) cache.new }
    ensures exact { Reads (λ x. x) result decoder.old decoder.new
        (map_head (λ head. (head.rtype, head.data_length)) (head_at (octets decoder.old) (place decoder.old))) }
{
    let mut reader = *decoder;
    let end = reader.buffer().len();
    Name::skip_with(&mut reader, end, cache)?;
    let rtype = reader.read_u16_within(end)?;
    reader.read_u16_within(end)?;
    reader.read_u32_within(end)?;
    let length = reader.read_u16_within(end)?;
    *decoder = reader;
    Ok((RecordType::from(rtype), length))
}

impl RecordHead {
    /// Reads what stands before the data of a record, its name by a pointer cache. A refused reading leaves the
    /// decoder.
    ///
    /// # Errors
    ///
    /// Those of `Name::read_with` for the owner, and `InsufficientBytes` where the octets end within a number.
    #[tactic(auto, unfolding(dns_grammar::specs::Messages::head_at))]
    pub fn read_with(
        decoder: &mut BinDecoder<'_>,
        cache: &mut [u16],
    ) -> Result<RecordHead, DecodeError>
        requires cache { IsPointerCache (octets decoder.old) cache.old }
        ensures cache { IsPointerCache (octets decoder.old) cache.new }
        ensures exact { Reads head_view result decoder.old decoder.new
            (head_at (octets decoder.old) (place decoder.old)) }
        ensures start { IfOk result (λ head. head.start ≡ place decoder.old) }
    {
        let mut reader = *decoder;
        let start = reader.index();
        let end = reader.buffer().len();
        let name = Name::read_with(&mut reader, end, cache)?;
        let rtype = reader.read_u16_within(end)?;
        let dns_class = reader.read_u16_within(end)?;
        let ttl = reader.read_u32_within(end)?;
        let length = reader.read_u16_within(end)?;
        *decoder = reader;
        Ok(RecordHead {
            start,
            name,
            rtype: RecordType::from(rtype),
            dns_class: DNSClass::from(dns_class),
            ttl,
            length,
        })
    }
}
