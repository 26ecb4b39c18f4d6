//! The program `dnsrows`: it reads lines, each a call of the library on a whole script, a message or a transaction, and
//! writes what each call answers, in a line of its own.
#![tactic(auto)]

mod answers;
mod covering;
mod messages;
mod pairs;
pub mod run;
mod scripts;
mod signing;
mod transactions;

use dns_io::{Status, StdSink, StdSource};
use dns_script::{behind_program_name, command_words, exit_code};
use std::io;
use std::process::ExitCode;

fn main(rt: HostRuntime) -> ExitCode {
    exit_code(match command_words(&rt) {
        Ok(words) => run::run(
            rt.alloc(),
            behind_program_name(&words),
            &mut StdSource::new(rt.reader()),
            &mut StdSink::new(io::writer(&rt)),
        ),
        Err(status) => status,
    })
}
