//! Questions (RFC 1035 4.1.2).
ghost use Rattle.std.specs.Prelude.{◌≡◌};
ghost use Rattle.dns_wire.specs.Reading.{octets, place, Reads};
ghost use Rattle.dns_names.specs.PointerCache.{IsPointerCache};
ghost use Rattle.dns_names.specs.Skipping.{without_value};
ghost use Rattle.dns_grammar.specs.Messages.{query_at};
ghost use Rattle.dns_message.specs.Views.{query_view};

use dns_names::Name;
use dns_types::{DNSClass, RecordType};
use dns_wire::{BinDecoder, BinEncodable, DecodeError};

/// A question: what records are asked for.
#[derive(Clone, Copy, Debug, PartialEq, Eq)]
pub struct Query {
    /// The name that is asked about.
    pub name: Name,
    /// The type of the records.
    pub query_type: RecordType,
    /// Their class.
    pub query_class: DNSClass,
}

impl Query {
    /// The type of the records that are asked for.
    pub fn query_type(&self) -> RecordType
        ensures { result ≡ self.now.query_type }
    {
        self.query_type
    }

    /// Reads a question.
    #[tactic(auto, unfolding(dns_grammar::specs::Messages::query_at))]
    pub(crate) fn read_with(
        decoder: &mut BinDecoder<'_>,
        cache: &mut [u16],
    ) -> Result<Query, DecodeError>
        requires cache { IsPointerCache (octets decoder.old) cache.old }
        ensures cache { IsPointerCache (octets decoder.old) cache.new }
        ensures exact { Reads query_view result decoder.old decoder.new
            (query_at (octets decoder.old) (place decoder.old)) }
    {
        let mut reader = *decoder;
        let end = reader.buffer().len();
        let name = Name::read_with(&mut reader, end, cache)?;
        let query_type = reader.read_u16_within(end)?;
        let query_class = reader.read_u16_within(end)?;
        *decoder = reader;
        Ok(Query {
            name,
            query_type: RecordType::from(query_type),
            query_class: DNSClass::from(query_class),
        })
    }
}

impl BinEncodable for Query {}

/// Skips a question. A refused reading leaves the decoder.
///
/// # Errors
///
/// Those of `Name::skip_with` for the name, and `InsufficientBytes` where the octets end within type or class.
#[tactic(auto, unfolding(dns_grammar::specs::Messages::query_at))]
pub fn skip_query(decoder: &mut BinDecoder<'_>, cache: &mut [u16]) -> Result<(), DecodeError>
    requires cache { IsPointerCache (octets decoder.old) cache.old }
    ensures cache { IsPointerCache (octets decoder.old) cache.new }
    ensures exact { Reads (λ x. x) result decoder.old decoder.new
        (without_value (query_at (octets decoder.old) (place decoder.old))) }
{
    let mut reader = *decoder;
    let end = reader.buffer().len();
    Name::skip_with(&mut reader, end, cache)?;
    reader.read_u16_within(end)?;
    reader.read_u16_within(end)?;
    *decoder = reader;
    Ok(())
}
