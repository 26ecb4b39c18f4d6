//! The text of a session, and its status.

ghost use Rattle.std.specs.Prelude.{◌≡◌, ◌++◌, IfOk};
ghost use Rattle.std.specs.String.{string_bytes};
ghost use Rattle.dns_script.specs.Sessions.{IsOutcome};
ghost use Rattle.check_script.specs.Session.{session, session_status};

use crate::answers::{AnswerTaker, check_answers};
use crate::script::{Script, ScriptSoFar};
use crate::text::{push_refused, push_report, push_request};
use dns_io::Status;
use dns_script::{OctetSession, ScriptSession, session_of_octets};
use dns_wire::OutOfMemory;
use sec_check::{CheckError, Report};
use sec_codes::SignatureScheme;
use std::alloc::Global;
use std::marker::Model;

/// The text of a session, line by line.
#[derive(Drop)]
struct SessionText {
    text: String,
}

impl Model for SessionText {
    ghost use Rattle.std.specs.Prelude.{List, ℕ};
    ghost use Rattle.std.specs.String.{string_bytes};

    ghost Value = { List ℕ };

    ghost view = { λ s. string_bytes s.text };
}

impl AnswerTaker for SessionText {
    ghost use Rattle.check_script.specs.Session.{appending};

    ghost taking = { appending };

    fn accepted(&mut self, number: u64, report: &Report) -> Result<(), OutOfMemory> {
        push_report(&mut self.text, number, report)
    }

    fn refused(&mut self, number: u64, cause: CheckError) -> Result<(), OutOfMemory> {
        push_refused(&mut self.text, number, cause)
    }
}

/// The session of a script under a scheme, which tells whether a signature of a record set is right.
#[derive(Drop)]
pub struct CheckSession<'a, S> {
    pub scheme: &'a S,
}

impl<S: SignatureScheme> ScriptSession for CheckSession<'_, S> {
    ghost use Rattle.check_script.specs.Session.{script_session};

    type Lines = ScriptSoFar;

    ghost of_script = { λ s. script_session (S.accepts s.scheme.now) };

    #[tactic(auto, using(crate::proofs::TextLines::text_appended))]
    fn make(&self, alloc: Global, script: Script) -> Result<(String, Status), OutOfMemory> {
        let mut text = String::new(alloc);
        let read = &script;
        push_request(&mut text, &read.request.octets)?;
        let mut lines = SessionText { text };
        let status = check_answers(alloc, self.scheme, &mut lines, script)?;
        let SessionText { text } = lines;
        Ok((text, status))
    }
}

impl<S: SignatureScheme> OctetSession for CheckSession<'_, S> {
    ghost use Rattle.check_script.specs.Session.{check_session};

    ghost session = { λ s. check_session (S.accepts s.scheme.now) };

    #[tactic(auto, using(crate::proofs::OneSession::of_octets))]
    fn make(&self, alloc: Global, octets: &[u8]) -> Result<(String, Status), OutOfMemory> {
        session_of_octets(alloc, self, octets)
    }
}

/// The text that octets make, and the status that they come to.
///
/// # Errors
///
/// Out of memory.
pub fn session<S: SignatureScheme>(
    alloc: Global,
    scheme: &S,
    octets: &[u8],
) -> Result<(String, Status), OutOfMemory>
    ensures text { IfOk result (λ found. string_bytes found.0 ≡ session (S.accepts scheme.now) octets.now) }
    ensures status { IfOk result (λ found. found.1 ≡ session_status (S.accepts scheme.now) octets.now) }
{
    OctetSession::make(&CheckSession { scheme }, alloc, octets)
}
