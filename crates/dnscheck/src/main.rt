//! The program `dnscheck`: it reads a script with trusted entries, a key, a request and signed answers, signs the request
//! and checks the answers, one after the other, and the signatures of the record sets in them.
#![tactic(auto)]

mod command;
mod counts;
mod demo;
pub mod run;

pub use command::Command;
pub use dns_io::{
    Failed, MemSink, MemSource, PlainSource, Sink, Source, Status, StdSink, StdSource,
};
use dns_script::{behind_program_name, command_words, exit_code};
use sec_sign::KeyedHash;
use std::io;
use std::process::ExitCode;

fn main(rt: HostRuntime) -> ExitCode {
    exit_code(match command_words(&rt) {
        Ok(words) => run::run(
            rt.alloc(),
            behind_program_name(&words),
            &KeyedHash,
            &mut StdSource::new(rt.reader()),
            &mut StdSink::new(io::writer(&rt)),
        ),
        Err(status) => status,
    })
}

#[cfg(test)]
mod tests;
