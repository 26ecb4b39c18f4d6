//! The calls of this program.
ghost use Rattle.std.specs.String.{string_bytes};
ghost use Rattle.dns_text.specs.Words.{words};
ghost use Rattle.dns_wire.specs.Reading.{GivesUnless};
ghost use Rattle.dns_rows.specs.declared.refusal.Refusal.TheVariants.{OutOfMemory as no_memory};
ghost use Rattle.dnsrows.specs.Answers.{call_answer, answer_line};

use crate::scripts;
use dns_rows::{Calls, Refusal, answer_text};
use dns_text::split_word;
use dns_wire::OutOfMemory;
use std::alloc::Global;

/// The calls of this program.
pub(crate) struct Rows;

/// What the call of a line answers: its first word is that of the call.
fn call_answer(alloc: Global, line: &[u8]) -> Result<String, Refusal>
    ensures { GivesUnless no_memory (λ text. string_bytes text) result (call_answer (words line.now)) }
{
    match split_word(line) {
        Some((word, rest)) => scripts::answer(alloc, word, rest),
        None => Err(Refusal::NoCall),
    }
}

impl Calls for Rows {
    ghost answer_to = { answer_line };

    fn answer(&self, alloc: Global, line: &[u8]) -> Result<String, OutOfMemory> {
        answer_text(alloc, call_answer(alloc, line))
    }
}
