//! An update server: it checks the TSIG of a request, and answers with one, or with an error.

use crate::strings::{FORGED_UPDATE, STRANGE_UPDATE, UPDATE, octets};
use anyhow::{Result, bail};
use dns_message::{Header, Message, MessageView};
use dns_text::LowerHex;
use dns_wire::{BinEncodable, BinEncoder};
use sec_tsig::{TSigResponseContext, TSigner, VerifyError, append_tsig};
use std::alloc::Global;

/// RCODEs (RFC 1035 4.1.1, RFC 8945 5.2).
const NO_ERROR: u16 = 0;

const NOT_AUTH: u16 = 9;

/// A response to the message of this header, without records.
fn response_to(alloc: Global, header: &Header, rcode: u16) -> Result<Vec<u8>> {
    let message = Message {
        id: header.id,
        flags: 0x8000 | (header.flags & 0x7800) | rcode,
        queries: Vec::new(alloc),
        answers: Vec::new(alloc),
        authorities: Vec::new(alloc),
        additionals: Vec::new(alloc),
        signature: None,
    };
    let mut encoder = BinEncoder::new(alloc);
    message.emit(&mut encoder)?;
    Ok(encoder.into_bytes())
}

/// A response with the TSIG record that a context gives.
fn signed(
    alloc: Global,
    header: &Header,
    rcode: u16,
    context: TSigResponseContext,
) -> Result<Vec<u8>> {
    let mut response = response_to(alloc, header, rcode)?;
    if response.len() < 12 {
        bail!("no header");
    }
    let rr = context.sign(&response)?;
    append_tsig(&mut response, &rr)?;
    Ok(response)
}

/// The answer at a time to a request whose MAC is right. The update itself would be done here.
fn answer_to_right(
    alloc: Global,
    signer: TSigner,
    header: &Header,
    mac: Vec<u8>,
    time: u64,
    is_in_window: bool,
    now: u64,
) -> Result<Vec<u8>> {
    if is_in_window {
        let context = TSigResponseContext::new(header.id, now, signer, mac, None);
        signed(alloc, header, NO_ERROR, context)
    } else {
        let context = TSigResponseContext::bad_time(header.id, time, now, signer, mac);
        signed(alloc, header, NOT_AUTH, context)
    }
}

/// The answer at a time to the octets of a request.
fn answer(alloc: Global, signer: &TSigner, request: &[u8], now: u64) -> Result<Vec<u8>> {
    let Ok(view) = MessageView::parse(request) else {
        bail!("no message");
    };
    let header = view.header();
    let Some(tsig) = view.tsig() else {
        bail!("no transaction signature");
    };
    let signer = signer.try_clone()?;
    match signer.verify_message_byte(request, None, true) {
        Ok((mac, time, window)) => {
            let is_in_window = window.start <= now && now < window.end;
            answer_to_right(alloc, signer, &header, mac, time, is_in_window, now)
        }
        Err(VerifyError::TsigWrongKey) => {
            let context = TSigResponseContext::unknown_key(alloc, header.id, now, tsig.owner);
            signed(alloc, &header, NOT_AUTH, context)
        }
        Err(VerifyError::HmacInvalid | VerifyError::TruncatedMac) => {
            let context = TSigResponseContext::bad_signature(header.id, now, signer);
            signed(alloc, &header, NOT_AUTH, context)
        }
        Err(cause) => Err(cause.into()),
    }
}

/// Requests, the server's time, and what the answer is to tell.
const REQUESTS: [(&str, u64, &str); 4] = [
    (UPDATE, 1010, "done"),
    (UPDATE, 5000, "bad time"),
    (FORGED_UPDATE, 1010, "bad signature"),
    (STRANGE_UPDATE, 1010, "bad key"),
];

pub(crate) fn run(rt: &impl Print, alloc: Global, signer: &TSigner) -> Result<()> {
    for (text, now, word) in REQUESTS {
        let request = octets(alloc, text)?;
        let sent = answer(alloc, signer, &request, now)?;
        let sent = LowerHex(&sent);
        println!(rt; "update server: {word}: {sent}")?;
    }
    Ok(())
}
