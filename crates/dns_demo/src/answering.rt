//! The answers.
ghost use Rattle.std.specs.Prelude.{◌≡◌, ◌≤◌, ◌<◌, ◌^◌, length, map, IfOk, IsOk, if◌then◌else◌};
ghost use Rattle.sec_tsig.specs.Tsig.{tsig_record, with_record};
ghost use Rattle.dns_demo.specs.Demo.{answer, answers_from, demo_answers, demo_signer, mac_behind, request_mac};
ghost use Rattle.dns_demo.specs.Demo.{unsigned_answer, followed_by_tsig};

use crate::messages::message;
use crate::parts::{TIME, request, signer};
use crate::records::{owner, records_under};
use crate::signing::{answer_record, turn_mac_if};
use dns_message::Record;
use dns_wire::{EmitError, OutOfMemory};
use sec_digest::laws::length_of_hmac;
use sec_sigdata::TSIG;
use sec_tsig::{TSigner, TsigSignError, append_tsig};
use std::alloc::Global;

/// An answer before it is signed.
#[tactic(auto, unfolding(crate::specs::Demo::unsigned_answer))]
fn unsigned_answer(alloc: Global, number: u16) -> Result<Vec<u8>, OutOfMemory>
    ensures exact { IfOk result (λ octets. octets.items ≡ unsigned_answer number) }
    ensures header { IfOk result (λ octets. 12 ≤ length octets.items) }
{
    // The proof takes the length of MACs from this law.
    length_of_hmac();
    let records = records_under(alloc, owner(alloc, number)?, number)?;
    message(alloc, 0x8180, Vec::new(alloc), records)
}

/// An answer with a TSIG record behind it.
#[tactic(auto, unfolding(crate::specs::Demo::followed_by_tsig), using(crate::proofs::Refusals::refuses_nothing))]
fn followed_by_tsig(mut octets: Vec<u8>, rr: &Record<TSIG>) -> Result<Vec<u8>, OutOfMemory>
    requires header { 12 ≤ length octets.items }
    requires joinable { IsOk (with_record octets.items (tsig_record rr.now)) }
    ensures { IfOk result (λ found. found.items ≡ followed_by_tsig octets.items (tsig_record rr.now)) }
{
    match append_tsig(&mut octets, rr) {
        Ok(()) => Ok(octets),
        Err(EmitError::OutOfMemory) => Err(OutOfMemory),
        Err(_) => unreachable!(),
    }
}

/// The MAC that the next answer is behind.
fn mac_behind(is_wrong: bool, mac: Vec<u8>, rr: &Record<TSIG>) -> Result<Vec<u8>, OutOfMemory>
    ensures { IfOk result (λ behind. behind.items
        ≡ (if is_wrong then mac.items else (tsig_record rr.now).tsig.mac)) }
{
    if is_wrong {
        Ok(mac)
    } else {
        Ok(rr.rdata.mac.clone()?)
    }
}

/// An answer behind a MAC, and the MAC that the next one is behind.
#[tactic(auto, unfolding(crate::specs::Demo::answer, crate::specs::Demo::mac_behind))]
fn answer(
    alloc: Global,
    signer: &TSigner,
    mac: Vec<u8>,
    number: u16,
) -> Result<(Vec<u8>, Vec<u8>), OutOfMemory>
    requires signer { signer.now ≡ demo_signer }
    requires counted { length mac.items < 2 ^ 16 }
    ensures octets { IfOk result (λ found. found.0.items ≡ answer mac.items number) }
    ensures behind { IfOk result (λ found. found.1.items ≡ mac_behind mac.items number) }
    ensures counted { IfOk result (λ found. length found.1.items < 2 ^ 16) }
{
    // The proof takes the length of MACs from this law.
    length_of_hmac();
    let octets = unsigned_answer(alloc, number)?;
    let rr = answer_record(
        alloc,
        signer,
        mac.as_slice(),
        number == 1,
        octets.as_slice(),
    )?;
    let is_wrong = number % 4 == 0;
    let behind = mac_behind(is_wrong, mac, &rr)?;
    let answer = followed_by_tsig(octets, &turn_mac_if(is_wrong, rr))?;
    Ok((answer, behind))
}

/// The MAC of the signed request.
#[tactic(auto, unfolding(crate::specs::Demo::request_mac), using(crate::proofs::AnswersWritten::request_counted))]
fn request_mac(alloc: Global, signer: &TSigner) -> Result<Vec<u8>, OutOfMemory>
    requires { signer.now ≡ demo_signer }
    ensures exact { IfOk result (λ mac. mac.items ≡ request_mac) }
    ensures counted { IfOk result (λ mac. length mac.items < 2 ^ 16) }
{
    // The proof takes the length of MACs from this law.
    length_of_hmac();
    let octets = request(alloc)?;
    match signer.sign_octets(octets.as_slice(), TIME) {
        Ok((rr, _)) => Ok(rr.rdata.mac),
        Err(TsigSignError::OutOfMemory) => Err(OutOfMemory),
        Err(_) => unreachable!(),
    }
}

/// So many answers, the first of them behind a MAC.
#[tactic(auto, using(crate::proofs::Walks::steps))]
fn answers_behind(
    alloc: Global,
    signer: &TSigner,
    mut mac: Vec<u8>,
    count: u16,
) -> Result<Vec<Vec<u8>>, OutOfMemory>
    requires signer { signer.now ≡ demo_signer }
    requires counted { length mac.items < 2 ^ 16 }
    ensures { IfOk result (λ answers. map (λ octets. octets.items) answers.items ≡ answers_from mac.items 1 count) }
{
    let mut answers = Vec::new(alloc);
    'answers: for before in 0..count {
        let (octets, behind) = answer(alloc, signer, mac, before + 1)?;
        answers.push(octets)?;
        mac = behind;
    }
    Ok(answers)
}

/// So many answers to the request, each behind those before it.
///
/// # Errors
///
/// Out of memory.
#[tactic(auto, unfolding(crate::specs::Demo::demo_answers))]
pub fn answers(alloc: Global, count: u16) -> Result<Vec<Vec<u8>>, OutOfMemory>
    ensures { IfOk result (λ answers. map (λ octets. octets.items) answers.items ≡ demo_answers count) }
{
    let signer = signer(alloc)?;
    let mac = request_mac(alloc, &signer)?;
    answers_behind(alloc, &signer, mac, count)
}
