//! The calls on transaction signatures (RFC 8945).
ghost use Rattle.std.specs.Prelude.{◌≡◌, ◌≤◌, length, IfOk, OnOk};
ghost use Rattle.std.specs.String.{string_bytes};
ghost use Rattle.dns_text.specs.Words.{words};
ghost use Rattle.dns_wire.specs.Reading.{GivesUnless};
ghost use Rattle.sec_sigdata.specs.TsigErrors.{optional_error};
ghost use Rattle.sec_tsig.specs.Requests.{signed_or_cause};
ghost use Rattle.sec_tsig.specs.Signers.{message_id};
ghost use Rattle.sec_tsig.specs.Tsig.{tsig_record};
ghost use Rattle.dns_rows.specs.declared.refusal.Refusal.TheVariants.{OutOfMemory as no_memory};
ghost use Rattle.dns_rows.specs.Refusals.{request_refusal, with_refusal};
ghost use Rattle.dnsrows.specs.Messages.{is_message};
ghost use Rattle.dnsrows.specs.Transactions.{signer_in, time_in, response_in, followed_by_tsig, request_answer};
ghost use Rattle.dnsrows.specs.Transactions.{respond_answer, later_answer, bad_time_answer, bad_signature_answer};
ghost use Rattle.dnsrows.specs.Transactions.{unknown_key_answer, transaction_calls};

use dns_message::{MessageView, Record};
use dns_rows::call_words::{first_four, name_in, number_in, octets_in};
use dns_rows::{HexWord, Refusal};
use dns_text::{four_words, three_words, two_words};
use sec_sigdata::{TSIG, TsigAlgorithm, TsigError};
use sec_tsig::{TSigResponseContext, TSigner, append_tsig};
use std::alloc::Global;

/// Who signs, by the name of an algorithm, a key, its name, and the fudge of what is signed.
fn signer_in(
    alloc: Global,
    algorithm: &[u8],
    key: &[u8],
    name: &[u8],
    fudge: &[u8],
) -> Result<TSigner, Refusal>
    ensures { GivesUnless no_memory (λ signer. signer) result (signer_in algorithm.now key.now name.now fudge.now) }
{
    let algorithm = TsigAlgorithm::from_name(name_in(algorithm)?);
    let key = octets_in(alloc, key)?;
    let name = name_in(name)?;
    let fudge = number_in(1 << 16, fudge)? as u16;
    Ok(TSigner::new(key, algorithm, name, fudge)?)
}

fn time_in(word: &[u8]) -> Result<u64, Refusal>
    ensures { result ≡ time_in word.now }
{
    number_in(u64::MAX, word)
}

/// The error of a number, and none for 0.
fn error_numbered(number: u16) -> Option<TsigError>
    ensures { result ≡ optional_error number }
{
    if number == 0 {
        None
    } else {
        Some(TsigError::from(number))
    }
}

/// Whether a message stands in octets.
fn check_message(octets: &[u8]) -> Result<(), Refusal>
    ensures exact { GivesUnless no_memory (λ x. x) result (is_message octets.now) }
    ensures header { OnOk result (12 ≤ length octets.now) }
{
    match MessageView::parse(octets) {
        Ok(_) => Ok(()),
        Err(fault) => Err(Refusal::from(fault)),
    }
}

/// The octets of a message.
fn response_in(alloc: Global, word: &[u8]) -> Result<Vec<u8>, Refusal>
    ensures exact { GivesUnless no_memory (λ octets. octets.items) result (response_in word.now) }
    ensures header { IfOk result (λ octets. 12 ≤ length octets.items) }
{
    let octets = octets_in(alloc, word)?;
    check_message(&octets)?;
    Ok(octets)
}

/// The ID of a message.
fn message_id(octets: &[u8]) -> u16
    requires { 12 ≤ length octets.now }
    ensures { result ≡ message_id octets.now }
{
    u16::from_be_bytes([octets[0], octets[1]])
}

/// A message with a TSIG record after it.
fn followed_by_tsig(
    alloc: Global,
    mut octets: Vec<u8>,
    tsig: &Record<TSIG>,
) -> Result<String, Refusal>
    requires { 12 ≤ length octets.items }
    ensures { GivesUnless no_memory (λ text. string_bytes text) result (followed_by_tsig octets.items (tsig_record tsig.now)) }
{
    append_tsig(&mut octets, tsig)?;
    Ok(HexWord(&octets).to_string(alloc)?)
}

/// The signed request of these octets.
fn signed_request(
    alloc: Global,
    signer: &TSigner,
    time: u64,
    octets: &[u8],
) -> Result<Vec<u8>, Refusal>
    ensures { GivesUnless no_memory (λ octets. octets.items) result
        (with_refusal request_refusal (signed_or_cause signer.now time octets.now)) }
{
    let (length, _) = signer.borrowed().sign_request_to(octets, time, &mut [])?;
    let mut signed = vec![in alloc; 0; length]?;
    signer
        .borrowed()
        .sign_request_to(octets, time, &mut signed)?;
    Ok(signed)
}

/// `request ALGORITHM KEY NAME FUDGE TIME HEX`: the signed request.
fn request(alloc: Global, rest: &[u8]) -> Result<String, Refusal>
    ensures { GivesUnless no_memory (λ text. string_bytes text) result (request_answer (words rest.now)) }
{
    let (algorithm, key, name, fudge, rest) = first_four(rest)?;
    let (time, octets) = two_words(rest).ok_or(Refusal::NoCall)?;
    let signer = signer_in(alloc, algorithm, key, name, fudge)?;
    let time = time_in(time)?;
    let octets = octets_in(alloc, octets)?;
    let signed = signed_request(alloc, &signer, time, &octets)?;
    Ok(HexWord(&signed).to_string(alloc)?)
}

/// `respond ALGORITHM KEY NAME FUDGE TIME MAC ERROR HEX`: the first response to a request of this MAC, with an error or
/// none, signed.
fn respond(alloc: Global, rest: &[u8]) -> Result<String, Refusal>
    ensures { GivesUnless no_memory (λ text. string_bytes text) result (respond_answer (words rest.now)) }
{
    let (algorithm, key, name, fudge, rest) = first_four(rest)?;
    let (time, mac, error, response) = four_words(rest).ok_or(Refusal::NoCall)?;
    let signer = signer_in(alloc, algorithm, key, name, fudge)?;
    let time = time_in(time)?;
    let mac = octets_in(alloc, mac)?;
    let error = error_numbered(number_in(1 << 16, error)? as u16);
    let response = response_in(alloc, response)?;
    let context = TSigResponseContext::new(message_id(&response), time, signer, mac, error);
    let tsig = context.sign(&response)?;
    followed_by_tsig(alloc, response, &tsig)
}

/// `respond-later ALGORITHM KEY NAME FUDGE TIME MAC HEX`: a later response, after the one of this MAC, signed.
fn respond_later(alloc: Global, rest: &[u8]) -> Result<String, Refusal>
    ensures { GivesUnless no_memory (λ text. string_bytes text) result (later_answer (words rest.now)) }
{
    let (algorithm, key, name, fudge, rest) = first_four(rest)?;
    let (time, mac, response) = three_words(rest).ok_or(Refusal::NoCall)?;
    let signer = signer_in(alloc, algorithm, key, name, fudge)?;
    let time = time_in(time)?;
    let mac = octets_in(alloc, mac)?;
    let response = response_in(alloc, response)?;
    let tsig = signer.sign_later(&mac, &response, message_id(&response), time)?;
    followed_by_tsig(alloc, response, &tsig)
}

/// `respond-bad-time ALGORITHM KEY NAME FUDGE TIME MAC SERVERTIME HEX`: the response to a request of this time and this
/// MAC that tells the server's time, signed.
fn respond_bad_time(alloc: Global, rest: &[u8]) -> Result<String, Refusal>
    ensures { GivesUnless no_memory (λ text. string_bytes text) result (bad_time_answer (words rest.now)) }
{
    let (algorithm, key, name, fudge, rest) = first_four(rest)?;
    let (time, mac, server_time, response) = four_words(rest).ok_or(Refusal::NoCall)?;
    let signer = signer_in(alloc, algorithm, key, name, fudge)?;
    let time = time_in(time)?;
    let mac = octets_in(alloc, mac)?;
    let server_time = time_in(server_time)?;
    let response = response_in(alloc, response)?;
    let id = message_id(&response);
    let context = TSigResponseContext::bad_time(id, time, server_time, signer, mac);
    let tsig = context.sign(&response)?;
    followed_by_tsig(alloc, response, &tsig)
}

/// `respond-bad-signature ALGORITHM KEY NAME FUDGE TIME HEX`: the response to a request whose MAC was wrong.
fn respond_bad_signature(alloc: Global, rest: &[u8]) -> Result<String, Refusal>
    ensures { GivesUnless no_memory (λ text. string_bytes text) result (bad_signature_answer (words rest.now)) }
{
    let (algorithm, key, name, fudge, rest) = first_four(rest)?;
    let (time, response) = two_words(rest).ok_or(Refusal::NoCall)?;
    let signer = signer_in(alloc, algorithm, key, name, fudge)?;
    let time = time_in(time)?;
    let response = response_in(alloc, response)?;
    let context = TSigResponseContext::bad_signature(message_id(&response), time, signer);
    let tsig = context.sign(&response)?;
    followed_by_tsig(alloc, response, &tsig)
}

/// `respond-unknown-key NAME TIME HEX`: the response to a request under the unknown key of this name.
fn respond_unknown_key(alloc: Global, rest: &[u8]) -> Result<String, Refusal>
    ensures { GivesUnless no_memory (λ text. string_bytes text) result (unknown_key_answer (words rest.now)) }
{
    let (name, time, response) = three_words(rest).ok_or(Refusal::NoCall)?;
    let name = name_in(name)?;
    let time = time_in(time)?;
    let response = response_in(alloc, response)?;
    let context = TSigResponseContext::unknown_key(alloc, message_id(&response), time, name);
    let tsig = context.sign(&response)?;
    followed_by_tsig(alloc, response, &tsig)
}

/// What the call of this word answers.
pub(crate) fn answer(alloc: Global, word: &[u8], rest: &[u8]) -> Result<String, Refusal>
    ensures { GivesUnless no_memory (λ text. string_bytes text) result (transaction_calls word.now (words rest.now)) }
{
    if word == b"request".as_slice() {
        request(alloc, rest)
    } else if word == b"respond".as_slice() {
        respond(alloc, rest)
    } else if word == b"respond-later".as_slice() {
        respond_later(alloc, rest)
    } else if word == b"respond-bad-time".as_slice() {
        respond_bad_time(alloc, rest)
    } else if word == b"respond-bad-signature".as_slice() {
        respond_bad_signature(alloc, rest)
    } else if word == b"respond-unknown-key".as_slice() {
        respond_unknown_key(alloc, rest)
    } else {
        Err(Refusal::NoCall)
    }
}
