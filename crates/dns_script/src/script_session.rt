//! The session of a script: what a command makes of the lines that it reads.

ghost use Rattle.std.specs.Prelude.{◌≡◌, ◌≤◌, ◌+◌, IfOk, IfSome};
ghost use Rattle.std.specs.String.{string_bytes};
ghost use Rattle.dns_io.specs.Counts.{raised, RoseBy};
ghost use Rattle.dns_script.specs.Sessions.{IsOutcome, ComesTo, WritesNothing, WritesText, SessionWritten};
ghost use Rattle.dns_script.specs.Sessions.{read_faults_after, write_faults_after};
ghost use Rattle.dns_script.specs.ScriptSessions.{session_of};

use crate::error::ScriptError;
use crate::fault::push_fault;
use crate::script::{Lines, read_script};
use crate::session::{OctetSession, run_session};
use dns_io::{INPUT_LIMIT, Sink, Source, Status};
use dns_wire::OutOfMemory;
use std::alloc::Global;

/// What a command makes of a script.
pub trait ScriptSession {
    ghost use Rattle.dns_script.specs.Sessions.{Session};

    /// What its lines say.
    type Lines: Lines + Drop;

    /// The texts that may come of a script, each with its status.
    ghost of_script: { Self → Session Self.Lines.Script };

    /// One of these texts, with its status.
    fn make(
        &self,
        alloc: Global,
        script: <Self::Lines as Lines>::Script,
    ) -> Result<(String, Status), OutOfMemory>
        ensures session { IfOk result (λ made. of_script self.now script (string_bytes made.0) made.1) }
        ensures outcome { IfOk result (λ made. IsOutcome made.1) };
}

/// A text that may come of octets, with its status.
#[tactic(auto, unfolding(crate::specs::ScriptSessions::session_of))]
pub fn session_of_octets<S: ScriptSession>(
    alloc: Global,
    session: &S,
    octets: &[u8],
) -> Result<(String, Status), OutOfMemory>
    ensures session { IfOk result (λ made. session_of S.Lines.kind (S.of_script session.now) octets.now
        (string_bytes made.0) made.1) }
    ensures outcome { IfOk result (λ made. IsOutcome made.1) }
{
    match read_script::<S::Lines>(alloc, octets) {
        Ok(script) => session.make(alloc, script),
        Err(ScriptError::Fault { line, reason }) => {
            let mut text = String::new(alloc);
            push_fault(&mut text, line, reason)?;
            Ok((text, Status::ScriptFault))
        }
        Err(ScriptError::OutOfMemory) => Err(OutOfMemory),
    }
}

// The session of a script, as one of the octets that write it.
#[derive(Drop)]
struct OfScript<'a, S> {
    session: &'a S,
}

impl<S: ScriptSession> OctetSession for OfScript<'_, S> {
    ghost session = { λ s. session_of S.Lines.kind (S.of_script s.session.now) };

    fn make(&self, alloc: Global, octets: &[u8]) -> Result<(String, Status), OutOfMemory> {
        session_of_octets(alloc, self.session, octets)
    }
}

/// Reads the whole script that the source gives, and then writes the text of its session to the sink.
pub fn run_script<S: ScriptSession, I: Source, O: Sink>(
    alloc: Global,
    session: &S,
    source: &mut I,
    sink: &mut O,
) -> Status
    // Over every source and sink: what each status shows of the outside.
    ensures used { result ≡ Status.Usage → ⊥ }
    ensures read_faults { I.faults source.new ≡ read_faults_after (I.faults source.old) result }
    ensures too_long { result ≡ Status.TooLong
        → RoseBy (INPUT_LIMIT + 1) (I.taken source.old) (I.taken source.new) }
    ensures write_faults { O.faults sink.new ≡ write_faults_after (O.faults sink.old) result }
    ensures taken_at_most { I.taken source.new ≤ raised (I.taken source.old) (INPUT_LIMIT + 1) }
    ensures nothing_written { WritesNothing result → sink.new ≡ sink.old }

    // A text is the session of the octets that were read, which were all there were.
    ensures session_written { WritesText result
        → SessionWritten (session_of S.Lines.kind (S.of_script session.now)) result (I.left source.old)
        (I.left source.new) (I.taken source.old) (I.taken source.new) (O.held sink.old) (O.held sink.new) }

    // Where the source tells its octets, they decide the status, and the text where the sink tells what it holds.
    ensures told { IfSome (I.left source.old)
        (λ octets. ComesTo (session_of S.Lines.kind (S.of_script session.now)) octets result (O.held sink.old)
        (O.held sink.new)) }
{
    run_session(alloc, &OfScript { session }, source, sink)
}
