//! The top call.

ghost use Rattle.std.specs.Prelude.{◌≡◌, ◌≤◌, ◌+◌, ◌↔◌, IfSome, None};
ghost use Rattle.dns_io.specs.Counts.{raised, RoseBy};
ghost use Rattle.dns_script.specs.Sessions.{ComesTo, WritesNothing, WritesText, SessionWritten};
ghost use Rattle.dns_script.specs.Sessions.{read_faults_after, write_faults_after};
ghost use Rattle.check_script.specs.Session.{check_session};
ghost use Rattle.dnscheck.specs.Commands.{command_of, UnderCheck, UnderDemo};
ghost use Rattle.dnscheck.specs.Demos.{DemoComesTo};

use crate::command::{Command, command_of};
use crate::demo::demo;
use check_script::CheckSession;
use dns_io::{INPUT_LIMIT, Sink, Source, Status, write_all};
use dns_script::run_session;
use sec_codes::SignatureScheme;
use std::alloc::Global;

/// Writes the text of a demo of so many answers to the sink.
#[tactic(auto, using(crate::proofs::Demos::shown_steps))]
fn show<S: SignatureScheme, O: Sink>(alloc: Global, scheme: &S, count: u16, sink: &mut O) -> Status
    ensures write_faults { O.faults sink.new ≡ write_faults_after (O.faults sink.old) result }
    ensures nothing_written { WritesNothing result → sink.new ≡ sink.old }
    ensures told { DemoComesTo (S.accepts scheme.now) count result (O.held sink.old) (O.held sink.new) }
{
    let Ok((text, status)) = demo(alloc, scheme, count) else {
        return Status::OutOfMemory;
    };
    match write_all(sink, text.as_bytes()) {
        Ok(()) => status,
        Err(_) => Status::WriteFault,
    }
}

/// Does what the words ask for: `check` reads the whole script that the source gives, and then writes the text of its
/// session to the sink; `demo` makes a script itself, and writes a line on its session.
///
/// `words` are the words of the command line after the program's name, and `scheme` tells whether a signature of a
/// record set is right. `docs/SCRIPT.md` says what a script is, what is written and which status comes when.
pub fn run<S: SignatureScheme, I: Source, O: Sink>(
    alloc: Global,
    words: &[String],
    scheme: &S,
    source: &mut I,
    sink: &mut O,
) -> Status
    // Over every scheme, source and sink: what each status shows of the words and of the outside.
    ensures usage { (result ≡ Status.Usage) ↔ (command_of words.now ≡ None) }
    ensures usage_reads_nothing { result ≡ Status.Usage → source.new ≡ source.old }
    ensures read_faults { I.faults source.new ≡ read_faults_after (I.faults source.old) result }
    ensures too_long { result ≡ Status.TooLong
        → RoseBy (INPUT_LIMIT + 1) (I.taken source.old) (I.taken source.new) }
    ensures write_faults { O.faults sink.new ≡ write_faults_after (O.faults sink.old) result }
    ensures taken_at_most { I.taken source.new ≤ raised (I.taken source.old) (INPUT_LIMIT + 1) }
    ensures nothing_written { WritesNothing result → sink.new ≡ sink.old }

    // Under `check`, over every scheme, source and sink: a text is the session of the octets that were read, which were
    // all there were.
    ensures session_written { UnderCheck (command_of words.now) (WritesText result
        → SessionWritten (check_session (S.accepts scheme.now)) result (I.left source.old) (I.left source.new)
        (I.taken source.old) (I.taken source.new) (O.held sink.old) (O.held sink.new)) }

    // Under `check`, where the source tells its octets, they decide the status, and the text where the sink tells what
    // it holds.
    ensures told { UnderCheck (command_of words.now) (IfSome (I.left source.old)
        (λ octets. ComesTo (check_session (S.accepts scheme.now)) octets result (O.held sink.old) (O.held sink.new))) }

    // Under `demo`, over every scheme, source and sink: nothing is read, and the script that is made decides the status,
    // and the text where the sink tells what it holds.
    ensures demo_reads_nothing { UnderDemo (command_of words.now) (λ _. source.new ≡ source.old) }
    ensures demo_told { UnderDemo (command_of words.now)
        (λ count. DemoComesTo (S.accepts scheme.now) count result (O.held sink.old) (O.held sink.new)) }
{
    match command_of(words) {
        None => Status::Usage,
        Some(Command::Check) => run_session(alloc, &CheckSession { scheme }, source, sink),
        Some(Command::Demo(count)) => show(alloc, scheme, count, sink),
    }
}
