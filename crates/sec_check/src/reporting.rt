//! Making the report of an answer.
ghost use Rattle.std.specs.Prelude.{◌≡◌, ◌++◌, true, map, List, ℕ, IfOk, IsOk, Ok};
ghost use Rattle.std.specs.List.{AllByRecursion};
ghost use Rattle.dns_grammar.specs.Messages.{Message as message_of_octets, message_at};
ghost use Rattle.dns_rdata.specs.RDataTable.{rdata_table};
ghost use Rattle.dns_rdata.specs.declared.rdata.RData.{RData as rdata};
ghost use Rattle.dns_message.specs.declared.record.Record.{Record as resource_record};
ghost use Rattle.dns_message.specs.OwnedMessages.{IsReadMessage, IsReadRecord};
ghost use Rattle.dns_message.specs.Parts.{message_parts, parts_of, record_view};
ghost use Rattle.sec_check.specs.RecordSets.{forms_rrset};
ghost use Rattle.sec_check.specs.Reports.{section_proofs, set_proof, set_proofs};
ghost use Rattle.sec_check.specs.SectionRecords.{name_of};
ghost use Rattle.sec_check.specs.Sections.{Holds};

use crate::mark::mark;
use crate::rrset_key::RrsetKey;
use crate::section_records::SectionRecords;
use crate::set_proof::SetProof;
use crate::trusted_keys::TrustedKeys;
use dns_message::{Message, Record, Section};
use dns_rdata::RData;
use dns_types::{DNSClass, RecordType};
use dns_wire::{DecodeError, OutOfMemory};
use sec_codes::SignatureScheme;
use std::alloc::Global;

/// A set of a section with its mark.
fn proof_of<S: SignatureScheme>(
    alloc: Global,
    scheme: &S,
    moment: u32,
    keys: &TrustedKeys<'_>,
    section: Section,
    held: &SectionRecords,
    set: &RrsetKey,
) -> Result<SetProof, OutOfMemory>
    ensures { IfOk result (λ proof. (records : List (resource_record rdata)) → Holds held.now records
        → AllByRecursion IsReadRecord records → forms_rrset set.now.rtype ≡ true
        → proof ≡ set_proof record { accepts = S.accepts scheme.now; moment = moment; entries = keys.now } section
        (map record_view records) (name_of set.now)) }
{
    let records = held.records.get(set);
    let signatures = held.signatures.get(set);
    let proof = mark(alloc, scheme, moment, keys, set, records, signatures)?;
    Ok(SetProof {
        section,
        owner: set.owner,
        dns_class: DNSClass::from(set.dns_class),
        rtype: RecordType::from(set.rtype),
        proof,
    })
}

/// Appends the sets of a section with their marks.
fn push_proofs<S: SignatureScheme>(
    alloc: Global,
    scheme: &S,
    moment: u32,
    keys: &TrustedKeys<'_>,
    section: Section,
    held: &SectionRecords,
    mut proofs: Vec<SetProof>,
) -> Result<Vec<SetProof>, OutOfMemory>
    ensures { IfOk result (λ after. (records : List (resource_record rdata)) → Holds held.now records
        → AllByRecursion IsReadRecord records
        → after.items ≡ proofs.items
        ++ section_proofs record { accepts = S.accepts scheme.now; moment = moment; entries = keys.now } section
        (map record_view records)) }
{
    for set in held.sets.keys() {
        let proof = proof_of(alloc, scheme, moment, keys, section, held, set)?;
        proofs.push(proof)?;
    }
    Ok(proofs)
}

/// The same for the records of a section.
fn add_section<S: SignatureScheme>(
    alloc: Global,
    scheme: &S,
    moment: u32,
    keys: &TrustedKeys<'_>,
    section: Section,
    records: Vec<Record<RData>>,
    proofs: Vec<SetProof>,
) -> Result<Vec<SetProof>, OutOfMemory>
    requires { AllByRecursion IsReadRecord records.items }
    ensures { IfOk result (λ after. after.items ≡ proofs.items
        ++ section_proofs record { accepts = S.accepts scheme.now; moment = moment; entries = keys.now } section
        (map record_view records.items)) }
{
    let held = SectionRecords::of(alloc, records)?;
    push_proofs(alloc, scheme, moment, keys, section, &held, proofs)
}

/// The sets of a message's sections with their marks.
#[tactic(auto, unfolding(crate::specs::Reports::set_proofs))]
fn sets_of_message<S: SignatureScheme>(
    alloc: Global,
    scheme: &S,
    moment: u32,
    keys: &TrustedKeys<'_>,
    message: Message,
) -> Result<Vec<SetProof>, OutOfMemory>
    requires { IsReadMessage message }
    ensures { IfOk result (λ proofs. proofs.items
        ≡ set_proofs record { accepts = S.accepts scheme.now; moment = moment; entries = keys.now }
        (message_parts message)) }
{
    let Message {
        answers,
        authorities,
        additionals,
        ..
    } = message;
    let proofs = Vec::new(alloc);
    let proofs = add_section(
        alloc,
        scheme,
        moment,
        keys,
        Section::Answer,
        answers,
        proofs,
    )?;
    let proofs = add_section(
        alloc,
        scheme,
        moment,
        keys,
        Section::Authority,
        authorities,
        proofs,
    )?;
    add_section(
        alloc,
        scheme,
        moment,
        keys,
        Section::Additional,
        additionals,
        proofs,
    )
}

/// The sets of the sections of the message that stands in octets, with their marks.
#[tactic(auto, using(crate::proofs::Reported::read_refuses_nothing))]
pub(crate) fn set_proofs<S: SignatureScheme>(
    alloc: Global,
    scheme: &S,
    moment: u32,
    keys: &TrustedKeys<'_>,
    octets: &[u8],
) -> Result<Vec<SetProof>, OutOfMemory>
    requires { IsOk (message_at rdata_table octets.now) }
    ensures { IfOk result (λ proofs. (message : message_of_octets) (e : ℕ)
        → message_at rdata_table octets.now ≡ Ok (message, e)
        → proofs.items ≡ set_proofs record { accepts = S.accepts scheme.now; moment = moment; entries = keys.now }
        (parts_of message)) }
{
    match Message::from_vec(alloc, octets) {
        Ok(message) => sets_of_message(alloc, scheme, moment, keys, message),
        Err(DecodeError::OutOfMemory) => Err(OutOfMemory),
        Err(_) => unreachable!(),
    }
}
