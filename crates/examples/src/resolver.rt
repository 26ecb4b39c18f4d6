//! A resolver: it signs a request, judges the answer, and marks the record sets in it.

use crate::own_scheme::OwnScheme;
use crate::strings::{ANCHOR, ANSWER, REQUEST, octets};
use anyhow::{Result, bail};
use dns_names::Name;
use dns_rdata::{MX, RData};
use dns_text::LowerHex;
use sec_anchor::Parser;
use sec_check::{Checker, Report};
use sec_tsig::{TSigner, append_tsig, is_request};
use std::alloc::Global;

/// The signed request, and what checks the answers to it by these anchors. The time is in seconds from 1970 on.
fn ask(
    alloc: Global,
    signer: &TSigner,
    mut request: Vec<u8>,
    now: u64,
    anchors: &str,
) -> Result<(Vec<u8>, Checker)> {
    if !is_request(&request) {
        bail!("no request that can be signed");
    }
    let (rr, verifier) = signer.sign_octets(&request, now)?;
    append_tsig(&mut request, &rr)?;
    let entries = Parser::new(anchors).parse(alloc)?;
    Ok((request, Checker::new(alloc, verifier, entries)))
}

/// Prints the record sets of an accepted answer, each with its mark.
fn show(rt: &impl Print, report: &Report) -> Result<()> {
    for set in report.sets() {
        let owner = set.owner;
        let rtype = set.rtype;
        let proof = set.proof;
        println!(rt; "resolver: {owner} {rtype} {proof}")?;
    }
    Ok(())
}

/// The data of an MX record in canonical form.
fn canonical_mx(alloc: Global) -> Result<Vec<u8>> {
    let data = RData::MX(MX {
        preference: 10,
        exchange: Name::from_ascii("Mail.EXAMPLE.")?,
    });
    Ok(data.canonical_octets(alloc)?)
}

pub(crate) fn run(rt: &impl Print, alloc: Global, signer: &TSigner) -> Result<()> {
    let (sent, mut checker) = ask(alloc, signer, octets(alloc, REQUEST)?, 1000, ANCHOR)?;
    let sent = LowerHex(&sent);
    println!(rt; "resolver: sends {sent}")?;
    let answer = octets(alloc, ANSWER)?;
    match checker.answer(&OwnScheme, 1500, &answer) {
        Ok(report) => show(rt, &report)?,
        Err(cause) => println!(rt; "resolver: {cause}")?,
    }
    let mx = canonical_mx(alloc)?;
    let mx = LowerHex(&mx);
    println!(rt; "resolver: canonical {mx}")?;
    Ok(())
}
