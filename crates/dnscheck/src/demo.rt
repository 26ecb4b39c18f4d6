//! The script of a demo, and what it comes to.
ghost use Rattle.std.specs.Prelude.{◌≡◌, ◌++◌, map, IfOk, OnOk};
ghost use Rattle.std.specs.String.{string_bytes};
ghost use Rattle.dnscheck.specs.Demos.{demo_answer, demo_script, demo_signed, demo_status, demo_text};
ghost use Rattle.dnscheck.specs.Demos.{answer_counts_text, counts_text, set_counts_text};

use crate::counts::Counts;
use check_script::{Answer, Script, check_answers};
use dns_demo::laws::request_is_signed;
use dns_io::Status;
use dns_script::LineError;
use dns_wire::OutOfMemory;
use sec_codes::SignatureScheme;
use signer_lines::{SignedRequest, sign_request};
use std::alloc::Global;

/// The request, signed at the time of the demo.
#[tactic(auto, using(crate::proofs::Demos::signed_is, crate::proofs::Demos::never_faulty))]
fn signed_request(alloc: Global) -> Result<SignedRequest, OutOfMemory>
    ensures { IfOk result (λ request. request ≡ demo_signed) }
{
    request_is_signed();
    let signer = dns_demo::signer(alloc)?;
    let octets = dns_demo::request(alloc)?;
    match sign_request(&signer, octets, dns_demo::TIME) {
        Ok(request) => Ok(request),
        Err(LineError::OutOfMemory) => Err(OutOfMemory),
        Err(LineError::Fault(_)) => unreachable!(),
    }
}

/// Answers that are checked at the moment of the demo.
#[tactic(auto, using(crate::proofs::Demos::one_more_answer))]
fn at_moment(alloc: Global, all: Vec<Vec<u8>>) -> Result<Vec<Answer>, OutOfMemory>
    ensures { IfOk result (λ answers. answers.items ≡ map demo_answer (map (λ octets. octets.items) all.items)) }
{
    let mut answers = Vec::new(alloc);
    'answers: for octets in all {
        answers.push(Answer {
            moment: dns_demo::MOMENT,
            octets,
        })?;
    }
    Ok(answers)
}

/// The script of so many answers.
#[tactic(auto, unfolding(crate::specs::Demos::demo_script))]
fn demo_script(alloc: Global, count: u16) -> Result<Script, OutOfMemory>
    ensures { IfOk result (λ script. script ≡ demo_script count) }
{
    let entries = dns_demo::entries(alloc)?;
    let request = signed_request(alloc)?;
    let answers = at_moment(alloc, dns_demo::answers(alloc, count)?)?;
    Ok(Script {
        entries,
        request,
        answers,
    })
}

/// Appends how many answers there are, and how many of them are accepted and refused.
fn push_answer_counts(text: &mut String, count: u16, counts: &Counts) -> Result<(), OutOfMemory>
    ensures { OnOk result (string_bytes text.new ≡ string_bytes text.old ++ answer_counts_text count counts.now) }
{
    let accepted = counts.accepted;
    let refused = counts.refused;
    write!(text, "demo {count} ok {accepted} refused {refused}")?;
    Ok(())
}

/// Appends how many record sets have each mark.
fn push_set_counts(text: &mut String, counts: &Counts) -> Result<(), OutOfMemory>
    ensures { OnOk result (string_bytes text.new ≡ string_bytes text.old ++ set_counts_text counts.now) }
{
    let secure = counts.secure;
    let bogus = counts.bogus;
    let indeterminate = counts.indeterminate;
    writeln!(
        text,
        " secure {secure} bogus {bogus} indeterminate {indeterminate}"
    )?;
    Ok(())
}

/// Appends the line of a demo.
fn push_counts(text: &mut String, count: u16, counts: &Counts) -> Result<(), OutOfMemory>
    ensures { OnOk result (string_bytes text.new ≡ string_bytes text.old ++ counts_text count counts.now) }
{
    push_answer_counts(text, count, counts)?;
    push_set_counts(text, counts)
}

/// The text of a demo, and the status that it comes to.
#[tactic(auto, unfolding(crate::specs::Demos::demo_status), using(crate::proofs::Demos::text_is))]
pub(crate) fn demo<S: SignatureScheme>(
    alloc: Global,
    scheme: &S,
    count: u16,
) -> Result<(String, Status), OutOfMemory>
    ensures text { IfOk result (λ found. string_bytes found.0 ≡ demo_text (S.accepts scheme.now) count) }
    ensures status { IfOk result (λ found. found.1 ≡ demo_status (S.accepts scheme.now) count) }
{
    let script = demo_script(alloc, count)?;
    let mut counts = Counts::new();
    let status = check_answers(alloc, scheme, &mut counts, script)?;
    let mut text = String::new(alloc);
    push_counts(&mut text, count, &counts)?;
    Ok((text, status))
}
