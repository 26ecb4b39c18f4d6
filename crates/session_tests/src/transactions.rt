//! MACs made and checked by hand, and chains that move.

use crate::fixtures::octets_of;
use crate::strings::{
    FIRST, FIRST_MAC, KEY, REQUEST, REQUEST_MAC, RESPONSE, SIGNED_REQUEST, signer,
};
use dns_names::Name;
use sec_sigdata::{TSIG, TsigAlgorithm, TsigError};
use sec_tsig::{TSigResponseContext, TSigVerifier, TsigSignError, append_tsig, make_tsig_record};
use std::alloc::Global;
use std::test::Fail;

/// What is under the MAC of the request at time 1000.
const REQUEST_TBS: &str =
    "123401000001000000000000076578616d706c650000010001016b0000ff000000000b686d61632d736861323536000000000003e8012c00000000";

/// What is under the MAC of the answer.
const RESPONSE_TBS: &str =
    "002056d9a0dbb2ce89ae3200b40be94959a38069d989ca0a0126fc38a6670e7ff40b123481800001000100000000076578616d706c650000010001c00c0001000100000e100004c0000201016b0000ff000000000b686d61632d736861323536000000000003e8012c00000000";

/// What checks the answers to the request at time 1000.
fn verifier(alloc: Global) -> Result<TSigVerifier, Fail> {
    let request = octets_of(alloc, REQUEST)?;
    if request.len() < 12 {
        return Err(Fail::from("no request"));
    }
    let (_, verifier) = signer(alloc)?.sign_octets(&request, 1000)?;
    Ok(verifier)
}

#[test]
fn a_signer_signs_octets(rt: HostRuntime) -> Result<(), Fail> {
    let alloc = rt.alloc();
    let signer = signer(alloc)?.try_clone()?;
    let tbs = octets_of(alloc, REQUEST_TBS)?;
    let mac = signer.sign(&tbs)?;
    assert_eq!(rt; mac, octets_of(alloc, REQUEST_MAC)?);
    assert!(rt; signer.verify(&tbs, &mac).is_ok());
    assert!(rt; signer.verify(&tbs, &[]).is_err());
    assert_eq!(rt; signer.key(), KEY.as_slice());
    assert_eq!(rt; signer.fudge(), 300);
    Ok(())
}

#[test]
fn a_mac_is_checked(rt: HostRuntime) -> Result<(), Fail> {
    let alloc = rt.alloc();
    let message = octets_of(alloc, FIRST)?;
    let previous = octets_of(alloc, REQUEST_MAC)?;
    if previous.len() > 64 {
        return Err(Fail::from("a long MAC"));
    }
    let (mac, time, window) = signer(alloc)?.verify_message_byte(&message, Some(&previous), true)?;
    assert_eq!(rt; mac, octets_of(alloc, FIRST_MAC)?);
    assert_eq!(rt; time, 1000);
    assert_eq!(rt; window.start, 700);
    assert_eq!(rt; window.end, 1300);
    Ok(())
}

#[test]
fn a_signed_request_passes(rt: HostRuntime) -> Result<(), Fail> {
    let alloc = rt.alloc();
    let message = octets_of(alloc, SIGNED_REQUEST)?;
    let (mac, _, _) = signer(alloc)?.verify_message_byte(&message, None, true)?;
    assert_eq!(rt; mac, octets_of(alloc, REQUEST_MAC)?);
    Ok(())
}

#[test]
fn a_full_count_is_refused(rt: HostRuntime) -> Result<(), Fail> {
    let alloc = rt.alloc();
    let tsig = TSIG::new(
        TsigAlgorithm::HmacSha256,
        1000,
        300,
        Vec::new(alloc),
        0,
        None,
        Vec::new(alloc),
    );
    let rr = make_tsig_record(Name::from_ascii("k.")?, tsig);
    let mut octets = Vec::from_slice(alloc, &[0xff; 12])?;
    assert!(rt; append_tsig(&mut octets, &rr).is_err());
    assert_eq!(rt; octets.as_slice(), [0xff; 12].as_slice());
    Ok(())
}

#[test]
fn a_verdict_leaves_the_chain(rt: HostRuntime) -> Result<(), Fail> {
    let alloc = rt.alloc();
    let mut verifier = verifier(alloc)?;
    assert!(rt; verifier.is_first());
    let answer = octets_of(alloc, FIRST)?;
    assert!(rt; verifier.verdict(&answer).is_ok());
    assert!(rt; verifier.is_first());
    verifier.check(&answer)?;
    assert!(rt; !verifier.is_first());
    Ok(())
}

#[test]
fn the_error_of_a_key_is_not_signed(rt: HostRuntime) -> Result<(), Fail> {
    let alloc = rt.alloc();
    let mac = octets_of(alloc, REQUEST_MAC)?;
    let error = Some(TsigError::Unknown(17));
    let context = TSigResponseContext::new(0x1234, 1000, signer(alloc)?, mac, error);
    let response = octets_of(alloc, RESPONSE)?;
    assert_eq!(rt;
        context.sign(&response).err(),
        Some(TsigSignError::UnsignedError(17))
    );
    Ok(())
}

#[test]
fn octets_to_be_signed_are_given(rt: HostRuntime) -> Result<(), Fail> {
    let alloc = rt.alloc();
    let stub = TSIG::new(
        TsigAlgorithm::HmacSha256,
        1000,
        300,
        Vec::new(alloc),
        0x1234,
        None,
        Vec::new(alloc),
    );
    let mac = octets_of(alloc, REQUEST_MAC)?;
    let response = octets_of(alloc, RESPONSE)?;
    let tbs = signer(alloc)?.encode_response_tbs(&mac, &response, &stub)?;
    assert_eq!(rt; tbs, octets_of(alloc, RESPONSE_TBS)?);
    Ok(())
}
