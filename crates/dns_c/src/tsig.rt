//! Transaction signatures (RFC 8945).
ghost use Rattle.std.specs.Prelude.{◌≡◌, length, Ok, Err};
ghost use Rattle.dns_c.specs.Answered.{number_of, answered};
ghost use Rattle.dns_c.specs.Transactions.{checked_by, request_status, signed_by, signer_from, answered_signed, tsig_of};
ghost use Rattle.dns_c.specs.Transactions.{verify_status};

use crate::hash::hash_of_number;
use crate::status::Status;
use crate::transaction::{PspAnswer, PspChain, PspTsig};
use crate::wire_name::name_of_wire;
use dns_message::MessageView;
use sec_tsig::{BorrowedSigner, BorrowedVerifier, RequestError, VerifyError};

/// The status of a request that is not signed.
fn request_status(cause: RequestError) -> Status
    ensures { result ≡ request_status cause }
{
    match cause {
        RequestError::TimeTooLarge => Status::TimeTooLarge,
        RequestError::NotARequest => Status::NotARequest,
        RequestError::CountTooLarge => Status::CountTooLarge,
        RequestError::MessageTooLong => Status::MessageTooLong,
    }
}

/// The status of an answer that is not accepted.
fn verify_status(cause: VerifyError) -> Status
    ensures { result ≡ verify_status cause }
{
    match cause {
        VerifyError::Decode | VerifyError::OutOfMemory => Status::NotAMessage,
        VerifyError::MissingTsig => Status::MissingTsig,
        VerifyError::TsigWrongKey => Status::WrongKey,
        VerifyError::TruncatedMac => Status::TruncatedMac,
        VerifyError::HmacInvalid => Status::WrongMac,
        VerifyError::Outdated => Status::Outdated,
        VerifyError::NotAResponse => Status::NotAResponse,
    }
}

/// Signs a request by a signer.
fn sign(
    signer: &BorrowedSigner<'_>,
    time: u64,
    request: &[u8],
    out: &mut [u8],
    out_len: &mut usize,
    chain: &mut PspChain,
) -> u32
    ensures { (result, out.new, out_len.new, chain.new)
        ≡ answered_signed (signed_by (Ok signer.now) time request.now) out.old out_len.old chain.old }
{
    match signer.sign_request_to(request, time, out) {
        Err(cause) => request_status(cause).number(),
        Ok((length, mac)) => {
            *out_len = length;
            if out.len() < length {
                return Status::OutTooShort.number();
            }
            *chain = PspChain::behind(time, mac.as_slice(), 0, true);
            Status::Done.number()
        }
    }
}

/// Signs a request that is sent at `time` (RFC 8945 5.1), under a key of this name in wire form; the chain is told that
/// the first answer is checked by.
#[unsafe(no_mangle)]
pub extern "C" fn psp_tsig_sign(
    hash: u32,
    key: &[u8],
    name: &[u8],
    fudge: u16,
    time: u64,
    request: &[u8],
    out: &mut [u8],
    out_len: &mut usize,
    chain: &mut PspChain,
) -> u32
    ensures { (result, out.new, out_len.new, chain.new)
        ≡ answered_signed (signed_by (signer_from hash key.now name.now fudge) time request.now)
        out.old out_len.old chain.old }
{
    let hash = match hash_of_number(hash) {
        Ok(hash) => hash,
        Err(status) => return status.number(),
    };
    let name = match name_of_wire(name) {
        Ok(name) => name,
        Err(status) => return status.number(),
    };
    let signer = BorrowedSigner::new(key, hash, &name, fudge);
    sign(&signer, time, request, out, out_len, chain)
}

/// Checks the next answer by a signer.
fn check(
    signer: BorrowedSigner<'_>,
    chain: &mut PspChain,
    message: &[u8],
    answer: &mut PspAnswer,
) -> u32
    ensures { (result, (chain.new, answer.new))
        ≡ answered (checked_by (Ok signer.entry) chain.old message.now) (chain.old, answer.old) }
{
    if chain.mac_len > 64 {
        return Status::BadChain.number();
    }
    let kept = *chain;
    let mac = &kept.mac[..kept.mac_len as usize];
    let verifier = BorrowedVerifier::new(
        signer,
        kept.request_time,
        mac,
        kept.time,
        kept.first != 0,
    );
    match verifier.verdict(message) {
        Err(cause) => verify_status(cause).number(),
        Ok(step) => {
            *chain = PspChain::behind(kept.request_time, step.mac(), step.time(), false);
            *answer = PspAnswer::of(&step);
            Status::Done.number()
        }
    }
}

/// Checks the next answer to a signed request (RFC 8945 5.2 to 5.4), tells what it tells, and moves the chain behind it.
#[unsafe(no_mangle)]
pub extern "C" fn psp_tsig_check(
    hash: u32,
    key: &[u8],
    name: &[u8],
    chain: &mut PspChain,
    message: &[u8],
    answer: &mut PspAnswer,
) -> u32
    ensures { (result, (chain.new, answer.new))
        ≡ answered (checked_by (signer_from hash key.now name.now 0) chain.old message.now) (chain.old, answer.old) }
{
    let hash = match hash_of_number(hash) {
        Ok(hash) => hash,
        Err(status) => return status.number(),
    };
    let name = match name_of_wire(name) {
        Ok(name) => name,
        Err(status) => return status.number(),
    };
    check(
        BorrowedSigner::new(key, hash, &name, 0),
        chain,
        message,
        answer,
    )
}

/// Tells what the transaction signature of a message says, unchecked.
#[unsafe(no_mangle)]
pub extern "C" fn psp_tsig_read(message: &[u8], tsig: &mut PspTsig) -> u32
    ensures { (result, tsig.new) ≡ answered (tsig_of message.now) tsig.old }
{
    let Ok(view) = MessageView::parse(message) else {
        return Status::NotAMessage.number();
    };
    match view.tsig() {
        None => Status::MissingTsig.number(),
        Some(found) => {
            *tsig = PspTsig::of(&found);
            Status::Done.number()
        }
    }
}
