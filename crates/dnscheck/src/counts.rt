//! What the answers of a script come to, counted.
ghost use Rattle.std.specs.Prelude.{◌≡◌, ◌∷◌, [], ◌+◌, IfOk};
ghost use Rattle.dnscheck.specs.Counts.{marks, no_counts, with_accepted, with_marks, with_refused};

use check_script::AnswerTaker;
use dns_wire::OutOfMemory;
use sec_check::{CheckError, Report, SetProof};
use sec_codes::Proof;

/// How many answers are accepted and refused, and how many record sets of the accepted ones have each mark.
#[derive(Clone, Copy, Debug, PartialEq, Eq)]
pub(crate) struct Counts {
    pub(crate) accepted: u64,
    pub(crate) refused: u64,
    pub(crate) secure: u64,
    pub(crate) bogus: u64,
    pub(crate) indeterminate: u64,
}

/// One more, which a count never passes: there is less memory than that.
fn one_more(count: u64) -> Result<u64, OutOfMemory>
    ensures { IfOk result (λ more. more ≡ count + 1) }
{
    match count.checked_add(1) {
        Some(more) => Ok(more),
        None => Err(OutOfMemory),
    }
}

impl Counts {
    pub(crate) fn new() -> Counts
        ensures { result ≡ no_counts }
    {
        Counts {
            accepted: 0,
            refused: 0,
            secure: 0,
            bogus: 0,
            indeterminate: 0,
        }
    }

    /// The counts with one more refused answer.
    fn with_refused(self) -> Result<Counts, OutOfMemory>
        ensures { IfOk result (λ counts. counts ≡ with_refused self) }
    {
        let refused = one_more(self.refused)?;
        Ok(Counts { refused, ..self })
    }

    /// The counts with one more record set of this mark.
    fn with_mark(self, proof: Proof) -> Result<Counts, OutOfMemory>
        ensures { IfOk result (λ counts. counts ≡ with_marks self (proof ∷ [])) }
    {
        match proof {
            Proof::Secure => {
                let secure = one_more(self.secure)?;
                Ok(Counts { secure, ..self })
            }
            Proof::Bogus => {
                let bogus = one_more(self.bogus)?;
                Ok(Counts { bogus, ..self })
            }
            Proof::Indeterminate => {
                let indeterminate = one_more(self.indeterminate)?;
                Ok(Counts {
                    indeterminate,
                    ..self
                })
            }
            Proof::Insecure => Ok(self),
        }
    }

    /// The counts with these record sets.
    fn with_marks(self, sets: &[SetProof]) -> Result<Counts, OutOfMemory>
        ensures { IfOk result (λ counts. counts ≡ with_marks self (marks sets.now)) }
    {
        let mut counts = self;
        'sets: for set in sets {
            counts = counts.with_mark(set.proof)?;
        }
        Ok(counts)
    }

    /// The counts with one more accepted answer, which has these record sets.
    fn with_accepted(self, sets: &[SetProof]) -> Result<Counts, OutOfMemory>
        ensures { IfOk result (λ counts. counts ≡ with_accepted self sets.now) }
    {
        let accepted = one_more(self.accepted)?;
        let counts = Counts { accepted, ..self };
        counts.with_marks(sets)
    }
}

impl AnswerTaker for Counts {
    ghost use Rattle.dnscheck.specs.Counts.{counting};

    ghost taking = { counting };

    fn accepted(&mut self, _number: u64, report: &Report) -> Result<(), OutOfMemory> {
        *self = self.with_accepted(report.sets())?;
        Ok(())
    }

    fn refused(&mut self, _number: u64, _cause: CheckError) -> Result<(), OutOfMemory> {
        *self = self.with_refused()?;
        Ok(())
    }
}
