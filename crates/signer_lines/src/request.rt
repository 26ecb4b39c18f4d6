//! The request of a script, as it is signed.

ghost use Rattle.std.specs.Prelude.{◌<◌, ◌^◌};
ghost use Rattle.dns_text.specs.Words.{words};
ghost use Rattle.dns_wire.specs.Reading.{GivesUnless};
ghost use Rattle.sec_tsig.specs.Requests.{signed_request};
ghost use Rattle.signer_lines.specs.Requests.{or_faulty, request_words};

use dns_script::{LineError, Reason};
use dns_text::{decode_hex, number_below, two_words};
use dns_wire::EmitError;
use sec_tsig::{TSigVerifier, TSigner, TsigSignError, append_tsig};
use std::alloc::Global;
use std::marker::Model;

/// A request as it is signed, and what checks the answers to it.
#[derive(Drop)]
pub struct SignedRequest {
    /// The request with its TSIG record.
    pub octets: Vec<u8>,
    /// What checks the answers.
    pub verifier: TSigVerifier,
}

impl Model for SignedRequest {
    ghost use Rattle.signer_lines.specs.Requests.{SignedRequest as signed};

    ghost Value = { signed };

    ghost view = { λ s. record { octets = s.octets.items; chain = s.verifier } };
}

/// The request of these octets, signed at this time, in seconds from 1970 on (RFC 8945 5.1).
///
/// # Errors
///
/// `Fault(Request)` where the signer can't sign them (`TSigner::can_sign_request`), or `OutOfMemory`.
#[tactic(auto, using(crate::proofs::SignedRequests::request_signed))]
pub fn sign_request(
    signer: &TSigner,
    mut octets: Vec<u8>,
    time: u64,
) -> Result<SignedRequest, LineError>
    requires { time < 2 ^ 48 }
    ensures { GivesUnless LineError.OutOfMemory (λ request. request) result
        (or_faulty (signed_request signer.now time octets.items)) }
{
    let fault = LineError::Fault(Reason::Request);
    if !signer.can_sign_request(&octets) {
        return Err(fault);
    }
    let (record, verifier) = match signer.sign_octets(&octets, time) {
        Ok(signed) => signed,
        Err(TsigSignError::OutOfMemory) => return Err(LineError::OutOfMemory),
        Err(_) => return Err(fault),
    };
    match append_tsig(&mut octets, &record) {
        Ok(()) => Ok(SignedRequest { octets, verifier }),
        Err(EmitError::OutOfMemory) => Err(LineError::OutOfMemory),
        Err(_) => Err(fault),
    }
}

/// The request of the words `TIME HEX`, signed at that time, in seconds from 1970 on.
///
/// # Errors
///
/// `Fault(Request)` where a line has other words, or octets that are no request which the signer can sign, or
/// `OutOfMemory`.
pub fn request_words(
    alloc: Global,
    signer: &TSigner,
    text: &[u8],
) -> Result<SignedRequest, LineError>
    ensures { GivesUnless LineError.OutOfMemory (λ request. request) result (request_words signer.now (words text.now)) }
{
    let fault = LineError::Fault(Reason::Request);
    let (time, octets) = two_words(text).ok_or(fault)?;
    let time = number_below(1 << 48, time).ok_or(fault)?;
    let octets = decode_hex(alloc, octets)?.ok_or(fault)?;
    sign_request(signer, octets, time)
}
