//! Checking the answers of a script, one after the other.

ghost use Rattle.std.specs.Prelude.{◌≡◌, IfOk, is_ok};
ghost use Rattle.std.specs.List.{list_all};
ghost use Rattle.check_script.specs.Answers.{answer_found, answers_found, found, next_chain};
ghost use Rattle.check_script.specs.Taking.{with_answer, with_answers};
ghost use Rattle.check_script.specs.Session.{script_status};

use crate::script::{Answer, Script};
use dns_io::Status;
use dns_wire::OutOfMemory;
use sec_check::{CheckError, Checker, Report};
use sec_codes::SignatureScheme;
use signer_lines::SignedRequest;
use std::alloc::Global;

/// What takes in, one after the other, what the answers of a script come to.
pub trait AnswerTaker {
    ghost use Rattle.std.specs.Prelude.{◌≡◌, OnOk};
    ghost use Rattle.check_script.specs.Taking.{Taking};

    /// What it is after each answer.
    ghost taking: { Taking Self };

    /// Takes an answer that is accepted.
    ///
    /// # Errors
    ///
    /// Out of memory.
    fn accepted(&mut self, number: u64, report: &Report) -> Result<(), OutOfMemory>
        ensures { OnOk result (self.new ≡ taking.accepted self.old number report.now) };

    /// Takes an answer that is refused.
    ///
    /// # Errors
    ///
    /// Out of memory.
    fn refused(&mut self, number: u64, cause: CheckError) -> Result<(), OutOfMemory>
        ensures { OnOk result (self.new ≡ taking.refused self.old number cause) };
}

/// Checks one answer, lets it be taken, and says whether it is accepted.
fn check_answer<S: SignatureScheme, T: AnswerTaker>(
    scheme: &S,
    taker: &mut T,
    number: u64,
    checker: &mut Checker,
    answer: &Answer,
) -> Result<bool, OutOfMemory>
    ensures taken { IfOk result (λ _. taker.new ≡ with_answer T.taking taker.old number
        (answer_found (S.accepts scheme.now) checker.old.entries checker.old.chain answer.now)) }
    ensures accepted { IfOk result (λ accepted. accepted
        ≡ is_ok (answer_found (S.accepts scheme.now) checker.old.entries checker.old.chain answer.now)) }
    ensures chain { IfOk result (λ _. checker.new.chain ≡ next_chain checker.old.chain
        (answer_found (S.accepts scheme.now) checker.old.entries checker.old.chain answer.now)) }
    ensures entries { checker.new.entries ≡ checker.old.entries }
{
    match checker.answer(scheme, answer.moment, answer.octets.as_slice()) {
        Ok(report) => {
            taker.accepted(number, &report)?;
            Ok(true)
        }
        Err(CheckError::OutOfMemory) => Err(OutOfMemory),
        Err(cause) => {
            taker.refused(number, cause)?;
            Ok(false)
        }
    }
}

/// Checks answers, numbered from 1, and says whether each is accepted.
fn check_all<S: SignatureScheme, T: AnswerTaker>(
    scheme: &S,
    taker: &mut T,
    mut checker: Checker,
    answers: &[Answer],
) -> Result<bool, OutOfMemory>
    ensures taken { IfOk result (λ _. taker.new ≡ with_answers T.taking taker.old 1
        (answers_found (S.accepts scheme.now) checker.entries checker.chain answers.now)) }
    ensures accepted { IfOk result (λ accepted. accepted
        ≡ list_all is_ok (answers_found (S.accepts scheme.now) checker.entries checker.chain answers.now)) }
{
    let mut number = 1u64;
    let mut accepted = true;
    'answers: for answer in answers {
        accepted &= check_answer(scheme, taker, number, &mut checker, answer)?;
        number += 1;
    }
    Ok(accepted)
}

/// Checks the answers of a script, each for the chain of those accepted before it, and lets what each comes to be taken:
/// `Accepted` where each of them is accepted, and else `Refused`. `scheme` tells whether a signature of a record set is
/// right.
///
/// # Errors
///
/// Out of memory.
pub fn check_answers<S: SignatureScheme, T: AnswerTaker>(
    alloc: Global,
    scheme: &S,
    taker: &mut T,
    script: Script,
) -> Result<Status, OutOfMemory>
    ensures taken { IfOk result (λ _. taker.new
        ≡ with_answers T.taking taker.old 1 (found (S.accepts scheme.now) script)) }
    ensures status { IfOk result (λ status. status ≡ script_status (S.accepts scheme.now) script) }
{
    let Script {
        entries,
        request,
        answers,
    } = script;
    let SignedRequest {
        octets: _,
        verifier,
    } = request;
    let checker = Checker::new(alloc, verifier, entries);
    if check_all(scheme, taker, checker, &answers)? {
        Ok(Status::Accepted)
    } else {
        Ok(Status::Refused)
    }
}
