//! The octets that an RRSIG of a message covers, found in its octets (RFC 4034 3.1.8.1).
ghost use Rattle.rrsig_input.specs.Rooms.{FillsRoom};
ghost use Rattle.rrsig_input.specs.SignedSets.{signed_input};

use crate::input_error::InputError;
use crate::placed_set::put_signed;
use crate::rrsig_fields::find_input;
use crate::set_places::places_of_set;
use dns_message::Section;
use dns_names::Name;
use dns_types::DNSClass;
use message_walk::RecordWalk;
use sec_sign::{RrsetName, determine_name};

/// How many octets the RRSIG that starts at `start` of a message covers of the set of this owner and class in a section
/// (RFC 4034 3.1.8.1), and these octets in the first places of `out`, where they all fit. They are the
/// fields of the RRSIG before its signature, and the records of the type covered in canonical form, in the order of
/// their data and each once (RFC 4034 6.2, 6.3), under a `*` where the RRSIG has fewer labels than the owner (RFC 4035
/// 5.3.2). Where `out` is too short, and on an error, it is left as it was.
///
/// Any octets may be asked about. It takes no memory, and about 300 KiB of the stack.
///
/// # Errors
///
/// The first of `NoMessage`, `NoRrsig`, `LabelsExceedOwner` and `DataTooLong` that applies.
#[tactic(auto, using(crate::proofs::AnswerSteps::endings))]
pub fn signed_input(
    message: &[u8],
    section: Section,
    owner: &Name,
    dns_class: DNSClass,
    start: usize,
    out: &mut [u8],
) -> Result<usize, InputError>
    ensures { FillsRoom result out.old out.new (signed_input message.now section owner.now dns_class start) }
{
    let Ok(walk) = RecordWalk::new(message) else {
        return Err(InputError::NoMessage);
    };
    let input = find_input(message, walk.copied(), start)?;
    let Ok(shown) = determine_name(owner, input.num_labels) else {
        return Err(InputError::LabelsExceedOwner);
    };
    let set = RrsetName {
        name: owner,
        dns_class,
        rtype: input.type_covered,
    };
    let places = places_of_set(message, walk, section, &set)?;
    Ok(put_signed(message, &shown, dns_class, &input, places.as_slice(), out))
}
