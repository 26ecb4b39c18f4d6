//! The fields of an RRSIG before its signature, read in the octets of its message.
ghost use Rattle.std.specs.Prelude.{◌≡◌, ◌≤◌, Ok, length};
ghost use Rattle.dns_wire.specs.Reading.{Gives};
ghost use Rattle.dns_names.specs.PointerCache.{IsPointerCache};
ghost use Rattle.dns_grammar.specs.Messages.{message_at};
ghost use Rattle.dns_rdata.specs.RDataTable.{rdata_table};
ghost use Rattle.message_walk.specs.Places.{places_at, record_from};
ghost use Rattle.rrsig_input.specs.SignedSets.{input_in, input_read};

use crate::input_error::InputError;
use dns_grammar::data_end;
use dns_message::RecordHead;
use dns_types::RecordType;
use dns_wire::BinDecoder;
use message_walk::{RecordWalk, empty_cache};
use sec_sigdata::SigInput;

/// The fields before the signature of the record that starts at `start`, where that is an RRSIG whose data aren't
/// empty.
#[tactic(auto, using(crate::proofs::RrsigSteps::early_exits))]
fn read_input(message: &[u8], start: usize, cache: &mut [u16]) -> Option<SigInput>
    requires inside { start ≤ length message.now }
    requires cache { IsPointerCache message.now cache.old }
    ensures { result ≡ input_read (record_from message.now start) }
{
    let mut reader = BinDecoder::new(message);
    reader.set_index(start);
    match RecordHead::read_with(&mut reader, cache) {
        Ok(head) => {
            if head.rtype != RecordType::RRSIG {
                return None;
            }
            match data_end(&reader, head.length) {
                Ok(end) => match SigInput::read_with(&mut reader, end, cache) {
                    Ok(input) => Some(input),
                    Err(_) => None,
                },
                Err(_) => None,
            }
        }
        Err(_) => None,
    }
}

/// The fields before the signature of the RRSIG that starts at `start`, found by a walk over all records of the message.
///
/// `NoRrsig` where no RRSIG starts there, or it has no data.
#[tactic(auto, using(crate::proofs::InputSteps::walk_steps))]
pub(crate) fn find_input(
    message: &[u8],
    mut walk: RecordWalk<'_>,
    start: usize,
) -> Result<SigInput, InputError>
    requires message { walk.message ≡ message.now }
    requires whole { places_at message.now ≡ Ok walk.left }
    ensures { Gives (λ input. input) result (input_in (message_at rdata_table message.now) start) }
{
    let mut cache = empty_cache();
    'records: while let Some(place) = walk.next(&mut cache) {
        if place.start == start {
            return read_input(message, start, &mut cache).ok_or(InputError::NoRrsig);
        }
    }
    Err(InputError::NoRrsig)
}
