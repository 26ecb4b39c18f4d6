//! The run of a program of rows.

ghost use Rattle.std.specs.Prelude.{◌≡◌, ◌≤◌, ◌+◌, IfSome};
ghost use Rattle.dns_io.specs.Counts.{raised, RoseBy};
ghost use Rattle.dns_script.specs.Sessions.{ComesTo, WritesNothing, WritesText, SessionWritten};
ghost use Rattle.dns_script.specs.Sessions.{read_faults_after, write_faults_after};
ghost use Rattle.dns_rows.specs.Rows.{rows_session};

use crate::calls::{Calls, rows};
use dns_io::{INPUT_LIMIT, Sink, Source, Status};
use dns_script::{OctetSession, run_session};
use dns_wire::OutOfMemory;
use std::alloc::Global;

/// The session of a program of rows: every line is answered, and everything is accepted.
#[derive(Drop)]
struct Rows<'a, C> {
    calls: &'a C,
}

impl<C: Calls> OctetSession for Rows<'_, C> {
    ghost session = { λ _. rows_session C.answer_to };

    fn make(&self, alloc: Global, octets: &[u8]) -> Result<(String, Status), OutOfMemory> {
        let text = rows(alloc, self.calls, octets)?;
        Ok((text, Status::Accepted))
    }
}

/// Reads all lines that the source gives, and then writes to the sink what each of them is answered.
pub fn run_calls<C: Calls, I: Source, O: Sink>(
    alloc: Global,
    calls: &C,
    source: &mut I,
    sink: &mut O,
) -> Status
    // Over every source and sink: what each status shows of the outside.
    ensures used { result ≡ Status.Usage → ⊥ }
    ensures read_faults { I.faults source.new ≡ read_faults_after (I.faults source.old) result }
    ensures too_long { result ≡ Status.TooLong
        → RoseBy (INPUT_LIMIT + 1) (I.taken source.old) (I.taken source.new) }
    ensures write_faults { O.faults sink.new ≡ write_faults_after (O.faults sink.old) result }
    ensures taken_at_most { I.taken source.new ≤ raised (I.taken source.old) (INPUT_LIMIT + 1) }
    ensures nothing_written { WritesNothing result → sink.new ≡ sink.old }

    // A text is the answers to the lines that were read, which were all there were.
    ensures session_written { WritesText result
        → SessionWritten (rows_session C.answer_to) result (I.left source.old) (I.left source.new)
        (I.taken source.old) (I.taken source.new) (O.held sink.old) (O.held sink.new) }

    // Where the source tells its octets, they decide the status, and the text where the sink tells what it holds.
    ensures told { IfSome (I.left source.old)
        (λ octets. ComesTo (rows_session C.answer_to) octets result (O.held sink.old) (O.held sink.new)) }
{
    run_session(alloc, &Rows { calls }, source, sink)
}
