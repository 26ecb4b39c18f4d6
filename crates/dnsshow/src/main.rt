//! The program `dnsshow`: it reads lines, each a call of the library with its words, and writes what each call answers,
//! in a line of its own.
#![tactic(auto)]

mod anchors;
mod codes;
mod data;
mod digests;
mod joined_words;
mod keys;
mod message;
mod names;
pub mod run;
mod shown;
mod texts;
mod types;

use dns_io::{StdSink, StdSource};
use dns_script::{behind_program_name, command_words, exit_code};
use std::io;
use std::process::ExitCode;

fn main(rt: HostRuntime) -> ExitCode {
    exit_code(match command_words(&rt) {
        Ok(words) => run::run(
            rt.alloc(),
            behind_program_name(&words),
            &mut StdSource::new(rt.reader()),
            &mut StdSink::new(io::writer(&rt)),
        ),
        Err(status) => status,
    })
}
