//! What is under the MAC of a message that was received, and its TSIG record.
ghost use Rattle.std.specs.Prelude.{◌≡◌, ◌≤◌, length, Ok, IfOk, IfErr};
ghost use Rattle.std.specs.Option.{option_copied, ForSome};
ghost use Rattle.dns_wire.specs.Reading.{Gives, GivesUnless};
ghost use Rattle.dns_grammar.specs.Messages.{message_at};
ghost use Rattle.dns_rdata.specs.RDataTable.{rdata_table};
ghost use Rattle.dns_message.specs.Views.{header_view, tsig_view, IsPlaced, TsigViewFits};
ghost use Rattle.sec_tsig.specs.Tsig.{received_input, tsig_record, IsCounted};
ghost use Rattle.sec_tsig.specs.Received.{class_and_ttl_at, received_record, signed_input};
ghost use Rattle.sec_tsig.specs.SignedViews.{signed_view};
ghost use Rattle.sec_tsig.specs.Verdict.{signed_parts};

use crate::mac_check::{data_of, variables_of};
use crate::mac_input::{MacInput, put_input};
use crate::signed_view::SignedView;
use crate::unsigned_message::UnsignedMessage;
use crate::verify_error::VerifyError;
use dns_message::{Header, Record, TsigView};
use dns_names::Name;
use dns_types::DNSClass;
use dns_wire::{BinDecoder, DecodeError, Grower};
use sec_codes::Proof;
use sec_sigdata::TSIG;
use std::alloc::{AllocError, Global};

/// The class and the TTL of the record at a place.
#[tactic(auto, unfolding(crate::specs::Received::class_and_ttl_at))]
fn class_and_ttl(message: &[u8], start: usize) -> Result<(DNSClass, u32), DecodeError>
    requires { start ≤ length message.now }
    ensures { Gives (λ x. x) result (class_and_ttl_at message.now start) }
{
    let mut reader = BinDecoder::new(message);
    let end = message.len();
    reader.set_index(start);
    Name::skip_with(&mut reader, end, &mut [])?;
    reader.read_u16_within(end)?;
    let dns_class = reader.read_u16_within(end)?;
    let ttl = reader.read_u32_within(end)?;
    Ok((DNSClass::from(dns_class), ttl))
}

/// The record of a TSIG that was received.
fn received_record(
    alloc: Global,
    dns_class: DNSClass,
    ttl: u32,
    tsig: &TsigView<'_>,
) -> Result<Record<TSIG>, AllocError>
    requires { TsigViewFits tsig.now }
    ensures { IfOk result (λ rr. tsig_record rr ≡ received_record dns_class ttl (tsig_view tsig.now)) }
{
    let data = data_of(tsig);
    let mac = Vec::from_slice(alloc, data.mac)?;
    let other = Vec::from_slice(alloc, data.other)?;
    Ok(Record {
        name: tsig.owner,
        dns_class,
        ttl,
        rdata: TSIG::new(
            data.algorithm,
            data.time,
            data.fudge,
            mac,
            data.oid,
            data.error,
            other,
        ),
        proof: Proof::Indeterminate,
    })
}

/// The octets under the MAC of a message with this TSIG.
fn received_input(
    alloc: Global,
    previous: Option<&[u8]>,
    first: bool,
    message: &[u8],
    header: &Header,
    tsig: &TsigView<'_>,
) -> Result<Vec<u8>, VerifyError>
    requires previous { ForSome (option_copied previous) IsCounted }
    requires placed { IsPlaced message.now header.now tsig.now }
    ensures input { IfOk result (λ input. input.items ≡ received_input (option_copied previous.entry) first message.now
        (header_view header.now) (tsig_view tsig.now)) }
    ensures refused { IfErr result (λ cause. cause ≡ VerifyError.OutOfMemory) }
{
    let variables = variables_of(tsig);
    let mut grower = Grower::new(Vec::new(alloc));
    let input = MacInput {
        previous,
        message: UnsignedMessage::of(message, header, tsig),
        is_first: first,
        variables: &variables,
    };
    put_input(&mut grower, &input);
    match grower.into_octets() {
        Ok(octets) => Ok(octets),
        Err(_) => Err(VerifyError::OutOfMemory),
    }
}

/// What is under the MAC of a message that ends in this TSIG, and the record.
fn input_and_record(
    alloc: Global,
    message: &[u8],
    previous: Option<&[u8]>,
    first: bool,
    view: &SignedView<'_>,
) -> Result<(Vec<u8>, Record<TSIG>), VerifyError>
    requires previous { ForSome (option_copied previous) IsCounted }
    requires placed { IsPlaced message.now view.now.header view.now.tsig }
    requires read { signed_parts (message_at rdata_table message.now) ≡ Ok (signed_view view.now) }
    ensures { GivesUnless VerifyError.OutOfMemory (λ x. (x.0.items, tsig_record x.1)) result
        (signed_input (option_copied previous.entry) first message.now) }
{
    let SignedView { header, tsig } = view;
    let (dns_class, ttl) = class_and_ttl(message, tsig.start).unwrap();
    let input = received_input(alloc, previous, first, message, header, tsig)?;
    let rr = received_record(alloc, dns_class, ttl, tsig)?;
    Ok((input, rr))
}

/// What is under the MAC of a message (RFC 8945 4.3) after the MAC of a message before, or none, as a first message or
/// a later one, and its TSIG record as it was received.
///
/// # Errors
///
/// `Decode` where the octets are no message, more than 65,535 octets among them. Then `MissingTsig` where the last
/// additional record is no TSIG, or there is none. Or `OutOfMemory`.
#[tactic(auto, using(crate::proofs::Buffers::input_refused))]
pub fn signed_bitmessage_to_buf(
    alloc: Global,
    message: &[u8],
    previous_hash: Option<&[u8]>,
    first_message: bool,
) -> Result<(Vec<u8>, Record<TSIG>), VerifyError>
    requires { ForSome (option_copied previous_hash) IsCounted }
    ensures { GivesUnless VerifyError.OutOfMemory (λ x. (x.0.items, tsig_record x.1)) result
        (signed_input (option_copied previous_hash.entry) first_message message.now) }
{
    match SignedView::parse(message) {
        Ok(view) => input_and_record(alloc, message, previous_hash, first_message, &view),
        Err(cause) => Err(cause),
    }
}
