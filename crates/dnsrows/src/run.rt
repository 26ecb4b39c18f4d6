//! The top call.
ghost use Rattle.std.specs.Prelude.{◌≡◌, ◌≢◌, ◌≤◌, ◌+◌, ◌↔◌, [], IfSome};
ghost use Rattle.dns_io.specs.Counts.{raised, RoseBy};
ghost use Rattle.dns_script.specs.Sessions.{ComesTo, WritesNothing, WritesText, SessionWritten};
ghost use Rattle.dns_script.specs.Sessions.{read_faults_after, write_faults_after};
ghost use Rattle.dns_rows.specs.Rows.{rows_session};
ghost use Rattle.dnsrows.specs.Answers.{answer_line};

use crate::answers::Rows;
use dns_io::{INPUT_LIMIT, Sink, Source, Status};
use dns_rows::run_calls;
use std::alloc::Global;

/// Reads all lines that the source gives, and then writes to the sink what each of them is answered. `words` are the
/// words of the command line after the program's name: there must be none.
pub fn run<I: Source, O: Sink>(
    alloc: Global,
    words: &[String],
    source: &mut I,
    sink: &mut O,
) -> Status
    // Over every source and sink: what each status shows of the words and of the outside.
    ensures usage { (result ≢ Status.Usage) ↔ (words.now ≡ []) }
    ensures usage_reads_nothing { result ≡ Status.Usage → source.new ≡ source.old }
    ensures read_faults { I.faults source.new ≡ read_faults_after (I.faults source.old) result }
    ensures too_long { result ≡ Status.TooLong
        → RoseBy (INPUT_LIMIT + 1) (I.taken source.old) (I.taken source.new) }
    ensures write_faults { O.faults sink.new ≡ write_faults_after (O.faults sink.old) result }
    ensures taken_at_most { I.taken source.new ≤ raised (I.taken source.old) (INPUT_LIMIT + 1) }
    ensures nothing_written { WritesNothing result → sink.new ≡ sink.old }

    // A text is the answers to the lines that were read, which were all there were.
    ensures session_written { WritesText result
        → SessionWritten (rows_session answer_line) result (I.left source.old) (I.left source.new)
        (I.taken source.old) (I.taken source.new) (O.held sink.old) (O.held sink.new) }

    // Without words, where the source tells its octets, they decide the status, and the text where the sink tells what
    // it holds.
    ensures told { words.now ≡ [] → IfSome (I.left source.old)
        (λ octets. ComesTo (rows_session answer_line) octets result (O.held sink.old) (O.held sink.new)) }
{
    if !words.is_empty() {
        return Status::Usage;
    }
    run_calls(alloc, &Rows, source, sink)
}
