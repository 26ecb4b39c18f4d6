//! The run of a session: it reads all octets that a source gives, and then writes a text to a sink.

ghost use Rattle.std.specs.Prelude.{◌≡◌, ◌≤◌, ◌+◌, IfOk, IfSome};
ghost use Rattle.std.specs.String.{string_bytes};
ghost use Rattle.dns_io.specs.Counts.{raised, RoseBy};
ghost use Rattle.dns_script.specs.Sessions.{IsOutcome, ComesTo, WritesNothing, WritesText, SessionWritten};
ghost use Rattle.dns_script.specs.Sessions.{read_faults_after, write_faults_after};

use dns_io::{INPUT_LIMIT, ReadError, Sink, Source, Status, read_all, write_all};
use dns_wire::OutOfMemory;
use std::alloc::Global;

/// What a program makes of the octets that it reads.
pub trait OctetSession {
    ghost use Rattle.dns_script.specs.Sessions.{Session};
    ghost use Rattle.std.specs.Prelude.{ℕ, List};

    /// The texts that may come of octets, each with its status.
    ghost session: { Self → Session (List ℕ) };

    /// One of these texts, with its status.
    fn make(&self, alloc: Global, octets: &[u8]) -> Result<(String, Status), OutOfMemory>
        ensures session { IfOk result (λ made. session self.now octets.now (string_bytes made.0) made.1) }
        ensures outcome { IfOk result (λ made. IsOutcome made.1) };
}

/// Reads all octets that the source gives, and then writes the text of their session to the sink.
#[tactic(auto, using(crate::proofs::Outcomes::no_read_fault, crate::proofs::Outcomes::no_write_fault))]
pub fn run_session<S: OctetSession, I: Source, O: Sink>(
    alloc: Global,
    session: &S,
    source: &mut I,
    sink: &mut O,
) -> Status
    // Over every source and sink: what each status shows of the outside.
    ensures used { result ≡ Status.Usage → ⊥ }
    ensures read_faults { I.faults source.new ≡ read_faults_after (I.faults source.old) result }
    ensures too_long { result ≡ Status.TooLong
        → RoseBy (INPUT_LIMIT + 1) (I.taken source.old) (I.taken source.new) }
    ensures write_faults { O.faults sink.new ≡ write_faults_after (O.faults sink.old) result }
    ensures taken_at_most { I.taken source.new ≤ raised (I.taken source.old) (INPUT_LIMIT + 1) }
    ensures nothing_written { WritesNothing result → sink.new ≡ sink.old }

    // A text is the session of the octets that were read, which were all there were.
    ensures session_written { WritesText result
        → SessionWritten (S.session session.now) result (I.left source.old) (I.left source.new) (I.taken source.old)
        (I.taken source.new) (O.held sink.old) (O.held sink.new) }

    // Where the source tells its octets, they decide the status, and the text where the sink tells what it holds.
    ensures told { IfSome (I.left source.old)
        (λ octets. ComesTo (S.session session.now) octets result (O.held sink.old) (O.held sink.new)) }
{
    let octets = match read_all(alloc, source) {
        Ok(octets) => octets,
        Err(ReadError::Fault) => return Status::ReadFault,
        Err(ReadError::TooLong) => return Status::TooLong,
        Err(ReadError::OutOfMemory) => return Status::OutOfMemory,
    };
    let Ok((text, status)) = session.make(alloc, &octets) else {
        return Status::OutOfMemory;
    };
    match write_all(sink, text.as_bytes()) {
        Ok(()) => status,
        Err(_) => Status::WriteFault,
    }
}
