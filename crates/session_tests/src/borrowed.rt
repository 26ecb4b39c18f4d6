//! Requests signed into a buffer of the caller's, and answers checked by a chain of the caller's.

use crate::fixtures::octets_of;
use crate::strings::{
    FIRST, FIRST_MAC, KEY, REQUEST, REQUEST_MAC, RESPONSE, SECOND, SECOND_MAC, SIGNED_REQUEST,
};
use dns_names::Name;
use sec_digest::HmacHash;
use sec_tsig::{BorrowedSigner, BorrowedVerifier, RequestError, VerifyError};
use std::alloc::Global;
use std::test::Fail;

/// What signing a request into a buffer of so many octets gives: how many there are, the buffer, and the MAC.
fn signed(
    alloc: Global,
    request: &str,
    time: u64,
    buffer: usize,
) -> Result<Result<(usize, Vec<u8>, Vec<u8>), RequestError>, Fail> {
    let name = Name::from_ascii("k.")?;
    let mut out = vec![in alloc; 7; buffer]?;
    let signer = BorrowedSigner::new(&KEY, HmacHash::Sha256, &name, 300);
    match signer.sign_request_to(&octets_of(alloc, request)?, time, &mut out) {
        Err(cause) => Ok(Err(cause)),
        Ok((length, mac)) => Ok(Ok((length, out, Vec::from_slice(alloc, mac.as_slice())?))),
    }
}

#[test]
fn a_request_is_signed_into_a_buffer(rt: HostRuntime) -> Result<(), Fail> {
    let alloc = rt.alloc();
    let expected = octets_of(alloc, SIGNED_REQUEST)?;
    let Ok((length, buffer, mac)) = signed(alloc, REQUEST, 1000, expected.len() + 2)? else {
        return Err(Fail::from("refused"));
    };
    assert_eq!(rt; length, expected.len());
    assert!(rt; buffer.starts_with(&expected) && buffer.ends_with(&[7, 7]));
    assert_eq!(rt; mac, octets_of(alloc, REQUEST_MAC)?);
    Ok(())
}

#[test]
fn a_short_buffer_stays(rt: HostRuntime) -> Result<(), Fail> {
    let alloc = rt.alloc();
    let expected = octets_of(alloc, SIGNED_REQUEST)?;
    let Ok((length, buffer, _)) = signed(alloc, REQUEST, 1000, expected.len().saturating_sub(1))?
    else {
        return Err(Fail::from("refused"));
    };
    assert_eq!(rt; length, expected.len());
    assert!(rt; buffer.iter().all(|octet| *octet == 7));
    Ok(())
}

/// Why a request is not signed.
fn refusal(alloc: Global, request: &str, time: u64) -> Result<Option<RequestError>, Fail> {
    Ok(signed(alloc, request, time, 512)?.err())
}

#[test]
fn each_refusal_has_its_cause(rt: HostRuntime) -> Result<(), Fail> {
    let alloc = rt.alloc();
    let late = 1 << 48;
    assert_eq!(rt;
        refusal(alloc, REQUEST, late)?,
        Some(RequestError::TimeTooLarge)
    );
    assert_eq!(rt;
        refusal(alloc, SIGNED_REQUEST, 0)?,
        Some(RequestError::NotARequest)
    );
    assert_eq!(rt; refusal(alloc, "", late)?, Some(RequestError::TimeTooLarge));
    assert_eq!(rt; refusal(alloc, "", 0)?, Some(RequestError::NotARequest));
    Ok(())
}

/// What a chain after this MAC makes of an answer: the MAC after it, or the cause.
fn checked(
    alloc: Global,
    mac: &str,
    first: bool,
    answer: &str,
) -> Result<Result<Vec<u8>, VerifyError>, Fail> {
    let name = Name::from_ascii("k.")?;
    let mac = octets_of(alloc, mac)?;
    if mac.len() > 64 {
        return Err(Fail::from("a long MAC"));
    }
    let signer = BorrowedSigner::new(&KEY, HmacHash::Sha256, &name, 300);
    let verifier = BorrowedVerifier::new(signer, 1000, &mac, 0, first);
    match verifier.verdict(&octets_of(alloc, answer)?) {
        Err(cause) => Ok(Err(cause)),
        Ok(step) => Ok(Ok(Vec::from_slice(alloc, step.mac())?)),
    }
}

#[test]
fn answers_are_checked_by_a_callers_chain(rt: HostRuntime) -> Result<(), Fail> {
    let alloc = rt.alloc();
    let first = checked(alloc, REQUEST_MAC, true, FIRST)?;
    assert!(rt; first.is_ok_and(|mac| mac.len() == 32));
    let Ok(mac) = checked(alloc, FIRST_MAC, false, SECOND)? else {
        return Err(Fail::from("refused"));
    };
    assert_eq!(rt; mac, octets_of(alloc, SECOND_MAC)?);
    let again = checked(alloc, FIRST_MAC, true, SECOND)?;
    assert!(rt; again.is_err_and(|cause| cause == VerifyError::HmacInvalid));
    let bare = checked(alloc, REQUEST_MAC, true, RESPONSE)?;
    assert!(rt; bare.is_err_and(|cause| cause == VerifyError::MissingTsig));
    Ok(())
}
