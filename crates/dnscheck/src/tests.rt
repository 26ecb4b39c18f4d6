//! Runs over devices in memory that fail or give one octet a call, and demos, under the scheme of keyed hashes. What
//! scripts come to is in the data of `dnsrows`.

use crate::run::run;
use crate::{MemSink, MemSource, PlainSource, Status};
use sec_sign::KeyedHash;
use std::alloc::{AllocError, Global};
use std::process::Abort;
use std::str;
use std::test::Fail;

/// The key `k.` of twenty octets 0b, a query for `example.` A signed at 1000, and an answer to it.
const SCRIPT: &str =
    "key hmac-sha256 k. 300 0b0b0b0b0b0b0b0b0b0b0b0b0b0b0b0b0b0b0b0b\nrequest 1000 123401000001000000000000076578616d706c650000010001\nanswer 0 123481800001000100000001076578616d706c650000010001c00c0001000100000e100004c0000201016b0000fa00ff00000000003d0b686d61632d736861323536000000000003e8012c0020bd51d084b43578959c48a9ff978363372f39c9fdcaab2dbedaf304bfbddeb40d123400000000\n";

/// The text of that script's session.
const TEXT: &str =
    "request 123401000001000000000001076578616d706c650000010001016b0000fa00ff00000000003d0b686d61632d736861323536000000000003e8012c002056d9a0dbb2ce89ae3200b40be94959a38069d989ca0a0126fc38a6670e7ff40b123400000000\nanswer 1 ok 1\nan example. IN A Indeterminate\n";

fn words(alloc: Global, word: &str) -> Result<Vec<String>, Fail> {
    let mut words = Vec::new(alloc);
    words.push(String::from_str(alloc, word)?)?;
    Ok(words)
}

/// Room for the text of any run here.
fn room(alloc: Global) -> Result<Vec<u8>, AllocError> {
    vec![in alloc; 0u8; 65_536]
}

/// Runs over octets and reads and writes that may fail, counted from 1, and expects that nothing is written.
fn expect_nothing(
    rt: &impl Abort,
    alloc: Global,
    words: &[String],
    octets: Vec<u8>,
    failing_reads: Vec<u64>,
    failing_writes: Vec<u64>,
    status: Status,
) -> Result<(), Fail> {
    let mut source = MemSource::new(octets, failing_reads, 100_000);
    let mut sink = MemSink::new(room(alloc)?, failing_writes, 1000);
    assert_eq!(rt;
        run(alloc, words, &KeyedHash, &mut source, &mut sink),
        status
    );
    assert!(rt; sink.as_slice().is_empty(), "at {status:?}");
    Ok(())
}

#[test]
fn nothing_written(rt: HostRuntime) -> Result<(), Fail> {
    let alloc = rt.alloc();
    let check = words(alloc, "check")?;
    let octets = SCRIPT.as_bytes();
    expect_nothing(
        &rt,
        alloc,
        &[],
        octets.to_vec(alloc)?,
        Vec::new(alloc),
        Vec::new(alloc),
        Status::Usage,
    )?;
    expect_nothing(
        &rt,
        alloc,
        &check,
        octets.to_vec(alloc)?,
        one_call(alloc, 1)?,
        Vec::new(alloc),
        Status::ReadFault,
    )?;
    let feeds = vec![in alloc; b'\n'; 16_777_217]?;
    expect_nothing(
        &rt,
        alloc,
        &check,
        feeds,
        Vec::new(alloc),
        Vec::new(alloc),
        Status::TooLong,
    )?;
    expect_nothing(
        &rt,
        alloc,
        &check,
        octets.to_vec(alloc)?,
        Vec::new(alloc),
        one_call(alloc, 1)?,
        Status::WriteFault,
    )?;
    Ok(())
}

/// A run of a script with a source that gives and a sink that takes one octet a call, of which these calls fail.
fn run_by_octets(
    alloc: Global,
    failing_reads: Vec<u64>,
    failing_writes: Vec<u64>,
) -> Result<(Status, Vec<u8>), Fail> {
    let check = words(alloc, "check")?;
    let mut source = MemSource::new(SCRIPT.as_bytes().to_vec(alloc)?, failing_reads, 1);
    let mut sink = MemSink::new(room(alloc)?, failing_writes, 1);
    let status = run(alloc, &check, &KeyedHash, &mut source, &mut sink);
    Ok((status, sink.as_slice().to_vec(alloc)?))
}

fn one_call(alloc: Global, call: u64) -> Result<Vec<u64>, Fail> {
    let mut calls = Vec::new(alloc);
    calls.push(call)?;
    Ok(calls)
}

#[test]
fn octet_by_octet(rt: HostRuntime) -> Result<(), Fail> {
    let alloc = rt.alloc();
    let (status, written) = run_by_octets(alloc, Vec::new(alloc), Vec::new(alloc))?;
    assert_eq!(rt; status, Status::Accepted);
    assert_eq!(rt; written.as_slice(), TEXT.as_bytes());
    Ok(())
}

#[test]
fn each_read_fails(rt: HostRuntime) -> Result<(), Fail> {
    let alloc = rt.alloc();
    for call in 1..1_000u64 {
        let failing = one_call(alloc, call)?;
        let (status, written) = run_by_octets(alloc, failing, Vec::new(alloc))?;
        if status == Status::Accepted {
            return Ok(());
        }
        assert_eq!(rt; status, Status::ReadFault);
        assert!(rt; written.is_empty());
    }
    Err(Fail::from("no run was accepted"))
}

#[test]
fn each_write_fails(rt: HostRuntime) -> Result<(), Fail> {
    let alloc = rt.alloc();
    for call in 1..1_000u64 {
        let failing = one_call(alloc, call)?;
        let (status, written) = run_by_octets(alloc, Vec::new(alloc), failing)?;
        if status == Status::Accepted {
            return Ok(());
        }
        assert_eq!(rt; status, Status::WriteFault);
        assert!(rt; TEXT.as_bytes().starts_with(&written));
    }
    Err(Fail::from("no run was accepted"))
}

#[test]
fn input_up_to_the_limit(rt: HostRuntime) -> Result<(), Fail> {
    let alloc = rt.alloc();
    let check = words(alloc, "check")?;
    let mut source = PlainSource::new(vec![in alloc; b'\n'; 16_777_216]?);
    let mut sink = MemSink::new(room(alloc)?, Vec::new(alloc), 1000);
    let status = run(alloc, &check, &KeyedHash, &mut source, &mut sink);
    assert_eq!(rt; status, Status::ScriptFault);
    assert_eq!(rt; sink.as_slice(), b"fault 16777217 end\n".as_slice());
    Ok(())
}

/// Runs a demo, and compares what it writes and how it ends.
fn expect_demo(
    rt: &impl Abort,
    alloc: Global,
    count: &str,
    text: &str,
    status: Status,
) -> Result<(), Fail> {
    let mut words = words(alloc, "demo")?;
    words.push(String::from_str(alloc, count)?)?;
    let mut source = PlainSource::new(Vec::new(alloc));
    let mut sink = MemSink::new(room(alloc)?, Vec::new(alloc), 1000);
    let found = run(alloc, &words, &KeyedHash, &mut source, &mut sink);
    assert_eq!(rt; found, status, "at {count}");
    assert_eq!(rt; str::from_utf8(sink.as_slice())?, text, "at {count}");
    Ok(())
}

#[test]
fn demos(rt: HostRuntime) -> Result<(), Fail> {
    let alloc = rt.alloc();
    let one = "demo 1 ok 1 refused 0 secure 1 bogus 0 indeterminate 0\n";
    let ten = "demo 10 ok 8 refused 2 secure 3 bogus 3 indeterminate 2\n";
    expect_demo(&rt, alloc, "001", one, Status::Accepted)?;
    expect_demo(&rt, alloc, "10", ten, Status::Refused)?;
    for count in ["0", "1001", "x"] {
        expect_demo(&rt, alloc, count, "", Status::Usage)?;
    }
    Ok(())
}
