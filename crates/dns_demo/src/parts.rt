//! Who signs, and the request.
ghost use Rattle.std.specs.Prelude.{◌≡◌, ◌≤◌, length, map, Ok, IfOk, IsOk};
ghost use Rattle.sec_anchor.specs.Entries.{entry_data, entries_of};
ghost use Rattle.dns_demo.specs.Demo.{anchor_text, demo_entries, demo_request, demo_signer};

use crate::messages::{label, message, name, zone};
use dns_message::Query;
use dns_types::{DNSClass, RecordType};
use dns_wire::OutOfMemory;
use sec_anchor::{Entry, ParseError, Parser};
use sec_sigdata::TsigAlgorithm;
use sec_tsig::TSigner;
use std::alloc::Global;

/// When the request and the answers are signed, in seconds from 1970 on.
pub const TIME: u64 = 1_000_000;

/// The moment at which the answers are checked: the same.
pub const MOMENT: u32 = 1_000_000;

/// The ID of the request and of the answers.
pub(crate) const ID: u16 = 4660;

/// The anchor text.
#[tactic(auto, unfolding(crate::specs::Demo::anchor_text))]
fn anchor_text() -> &'static str
    ensures { result.now ≡ anchor_text }
{
    "example. IN DNSKEY 256 3 15 AQEBAQEBAQEBAQEBAQEBAQEBAQEBAQEBAQEBAQEBAQE="
}

/// The entries of an anchor text that can be read.
#[tactic(auto, using(crate::proofs::Refusals::refuses_nothing))]
fn entries_in(alloc: Global, text: &str) -> Result<Vec<Entry>, OutOfMemory>
    requires { IsOk (entries_of text.now) }
    ensures { IfOk result (λ entries. entries_of text.now ≡ Ok (map entry_data entries.items)) }
{
    match Parser::new(text).parse(alloc) {
        Ok(entries) => Ok(entries),
        Err(ParseError::OutOfMemory) => Err(OutOfMemory),
        Err(_) => unreachable!(),
    }
}

/// The trusted entries.
///
/// # Errors
///
/// Out of memory.
#[tactic(auto, using(crate::proofs::Steps::entries_read, crate::proofs::Anchors::can_be_read))]
pub fn entries(alloc: Global) -> Result<Vec<Entry>, OutOfMemory>
    ensures { IfOk result (λ entries. map entry_data entries.items ≡ demo_entries) }
{
    entries_in(alloc, anchor_text())
}

/// Who signs the request and the answers.
///
/// # Errors
///
/// Out of memory.
#[tactic(auto, unfolding(crate::specs::Demo::demo_signer))]
pub fn signer(alloc: Global) -> Result<TSigner, OutOfMemory>
    ensures { IfOk result (λ signer. signer ≡ demo_signer) }
{
    let key = Vec::from_slice(alloc, &[11; 20])?;
    let owner = name(&[label(b"k")]);
    match TSigner::new(key, TsigAlgorithm::HmacSha256, owner, 300) {
        Ok(signer) => Ok(signer),
        Err(_) => unreachable!(),
    }
}

/// The request.
///
/// # Errors
///
/// Out of memory.
#[tactic(auto, unfolding(crate::specs::Demo::demo_request))]
pub fn request(alloc: Global) -> Result<Vec<u8>, OutOfMemory>
    ensures exact { IfOk result (λ octets. octets.items ≡ demo_request) }
    ensures header { IfOk result (λ octets. 12 ≤ length octets.items) }
{
    let mut queries = Vec::new(alloc);
    queries.push(Query {
        name: zone(),
        query_type: RecordType::A,
        query_class: DNSClass::IN,
    })?;
    message(alloc, 0x0100, queries, Vec::new(alloc))
}
