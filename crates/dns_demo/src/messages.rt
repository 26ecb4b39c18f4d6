//! Names and messages.
ghost use Rattle.std.specs.Prelude.{◌≡◌, ◌≤◌, ◌<◌, false, length, map, Ok, IfOk, IsOk};
ghost use Rattle.std.specs.List.{AllByRecursion};
ghost use Rattle.dns_wire.specs.declared.encoder.NameEncoding.TheVariants.{Uncompressed};
ghost use Rattle.dns_names.specs.Names.{wire};
ghost use Rattle.dns_message.specs.MessageWriting.{written_message};
ghost use Rattle.dns_message.specs.Parts.{record_view};
ghost use Rattle.dns_message.specs.Views.{query_view};
ghost use Rattle.dns_demo.specs.Demo.{demo_message, demo_written, zone, IsOfTable};

use crate::parts::ID;
use dns_message::{Message, Query, Record};
use dns_names::{Label, Name};
use dns_rdata::RData;
use dns_wire::{BinEncodable, BinEncoder, EmitError, OutOfMemory};
use std::alloc::Global;

/// A label of these octets.
pub(crate) fn label(octets: &[u8]) -> Label
    requires some { 0 < length octets.now }
    requires at_most { length octets.now ≤ 63 }
    ensures { result ≡ octets.now }
{
    match Label::from_bytes(octets) {
        Ok(label) => label,
        Err(_) => unreachable!(),
    }
}

/// The name of these labels.
pub(crate) fn name(labels: &[Label]) -> Name
    requires { length (wire labels.now) ≤ 255 }
    ensures { result ≡ labels.now }
{
    match Name::from_labels(labels) {
        Ok(name) => name,
        Err(_) => unreachable!(),
    }
}

/// The name of the zone.
#[tactic(auto, unfolding(crate::specs::Demo::zone))]
pub(crate) fn zone() -> Name
    ensures { result ≡ zone }
{
    name(&[label(b"example")])
}

/// The octets of a message that can be written.
#[tactic(auto, using(crate::proofs::Refusals::refuses_nothing))]
fn written(alloc: Global, message: &Message) -> Result<Vec<u8>, OutOfMemory>
    requires { IsOk (written_message false Uncompressed message.now) }
    ensures { IfOk result (λ octets. written_message false Uncompressed message.now ≡ Ok octets.items) }
{
    let mut encoder = BinEncoder::new(alloc);
    match message.emit(&mut encoder) {
        Ok(()) => Ok(encoder.into_bytes()),
        Err(EmitError::OutOfMemory) => Err(OutOfMemory),
        Err(_) => unreachable!(),
    }
}

/// The octets of a message with these questions and these answers.
#[tactic(auto, using(crate::proofs::Written::exits))]
pub(crate) fn message(
    alloc: Global,
    flags: u16,
    queries: Vec<Query>,
    answers: Vec<Record<RData>>,
) -> Result<Vec<u8>, OutOfMemory>
    requires rows { AllByRecursion IsOfTable answers.items }
    requires writable { IsOk (demo_written flags (map query_view queries.items) (map record_view answers.items)) }
    ensures exact { IfOk result (λ octets. octets.items
        ≡ demo_message flags (map query_view queries.items) (map record_view answers.items)) }
    ensures header { IfOk result (λ octets. 12 ≤ length octets.items) }
{
    let message = Message {
        id: ID,
        flags,
        queries,
        answers,
        authorities: Vec::new(alloc),
        additionals: Vec::new(alloc),
        signature: None,
    };
    let octets = written(alloc, &message)?;
    Ok(octets)
}
