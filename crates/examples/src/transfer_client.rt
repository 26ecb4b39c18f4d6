//! A transfer client: it judges the messages of a transfer one behind the other, and drops a corrupted one.

use crate::strings::{MESSAGES, TRANSFER, octets};
use anyhow::{Result, bail};
use sec_tsig::{TSigVerifier, TSigner, is_request};
use std::alloc::Global;

/// What checks the messages of a transfer. The signed request would be sent, as in the resolver.
fn begin(alloc: Global, signer: &TSigner, now: u64) -> Result<TSigVerifier> {
    let request = octets(alloc, TRANSFER)?;
    if !is_request(&request) {
        bail!("no request that can be signed");
    }
    let (_rr, verifier) = signer.sign_octets(&request, now)?;
    Ok(verifier)
}

/// Judges the next message, and prints how many answers it has, or why it is refused.
fn take(rt: &impl Print, verifier: &mut TSigVerifier, octets: &[u8]) -> Result<()> {
    match verifier.verify(octets) {
        Ok(response) => {
            let count = response.message().answers.len();
            println!(rt; "transfer client: answers {count}")?;
        }
        Err(cause) => println!(rt; "transfer client: {cause}")?,
    }
    Ok(())
}

/// The message with another RCODE, as somebody on the way might have made it.
fn corrupted(alloc: Global, message: &[u8]) -> Result<Vec<u8>> {
    let mut octets = Vec::from_slice(alloc, message)?;
    if let Some(octet) = octets.get_mut(3) {
        *octet ^= 1;
    }
    Ok(octets)
}

pub(crate) fn run(rt: &impl Print, alloc: Global, signer: &TSigner) -> Result<()> {
    let mut verifier = begin(alloc, signer, 1000)?;
    for text in MESSAGES {
        let message = octets(alloc, text)?;
        let other = corrupted(alloc, &message)?;
        take(rt, &mut verifier, &other)?;
        // a refusal left the chain as it was
        take(rt, &mut verifier, &message)?;
    }
    Ok(())
}
