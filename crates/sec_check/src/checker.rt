//! Checking the answers to a signed request, and the record sets in them.

ghost use Rattle.std.specs.Prelude.{◌≡◌, Bool, ℕ, Ok, IfOk, IsOk};
ghost use Rattle.dns_grammar.specs.Messages.{Message as message_of_octets, message_at};
ghost use Rattle.dns_rdata.specs.RDataTable.{rdata_table};
ghost use Rattle.sec_tsig.specs.Notices.{step_notice, notice_by};
ghost use Rattle.sec_check.specs.Reports.{report_of};

use crate::report::Report;
use crate::reporting::set_proofs;
use crate::trusted_entries::TrustedEntries;
use crate::trusted_keys::TrustedKeys;
use dns_wire::OutOfMemory;
use sec_anchor::Entry;
use sec_codes::SignatureScheme;
use sec_tsig::{TSigVerifier, TsigStep, VerifyError};
use std::alloc::Global;
use std::marker::Model;

/// Checks the answers to a signed request, one behind the other, and proves their record sets by trusted entries. A
/// contract sees the chain of the answers accepted so far, and the list of the entries.
#[derive(Drop)]
pub struct Checker {
    alloc: Global,
    verifier: TSigVerifier,
    trusted: TrustedEntries,
}

impl Model for Checker {
    ghost use Rattle.sec_check.specs.Reports.{CheckerData};

    ghost Value = { CheckerData };

    ghost view = { λ s. record { chain = s.verifier; entries = s.trusted.entries } };
}

/// The report of the message that stands in octets, by the step which the verdict on them gave.
fn report<S: SignatureScheme>(
    alloc: Global,
    scheme: &S,
    moment: u32,
    keys: &TrustedKeys<'_>,
    octets: &[u8],
    step: &TsigStep,
) -> Result<Report, OutOfMemory>
    requires { IsOk (message_at rdata_table octets.now) }
    ensures { IfOk result (λ report. (first : Bool) (message : message_of_octets) (e : ℕ)
        → message_at rdata_table octets.now ≡ Ok (message, e) → step_notice step.now ≡ notice_by first message
        → report ≡ report_of record { accepts = S.accepts scheme.now; moment = moment; entries = keys.now } first message) }
{
    let sets = set_proofs(alloc, scheme, moment, keys, octets)?;
    Ok(Report::new(sets, step.tsig_error(), step.server_time()))
}

impl Checker {
    ghost use Rattle.std.specs.Prelude.{map};
    ghost use Rattle.sec_anchor.specs.Entries.{entry_data};
    ghost use Rattle.sec_check.specs.Reports.{AnswersAs, answered, trust_of};

    /// A checker of the answers that the verifier is for, with these trusted entries. Entries that aren't well formed
    /// prove nothing.
    pub fn new(alloc: Global, verifier: TSigVerifier, entries: Vec<Entry>) -> Checker
        ensures { result ≡ record { chain = verifier; entries = map entry_data entries.items } }
    {
        Checker {
            alloc,
            verifier,
            trusted: TrustedEntries::new(entries),
        }
    }

    /// Checks the next answer (RFC 8945 5.2 to 5.4) at a moment, a time in seconds from the start of 1970, and reports
    /// its record sets. Where it is accepted the chain moves behind it.
    ///
    /// # Errors
    ///
    /// Those of `TSigVerifier::verdict`, or `OutOfMemory`. The checker then stays as it was.
    pub fn answer<S: SignatureScheme>(
        &mut self,
        scheme: &S,
        moment: u32,
        octets: &[u8],
    ) -> Result<Report, VerifyError>
        ensures { AnswersAs (λ report. report) result self.old self.new
            (answered (trust_of self.old (S.accepts scheme.now) moment) self.old.chain octets.now) }
    {
        let step = self.verifier.verdict(octets)?;
        if self.trusted.index(self.alloc).is_err() {
            return Err(VerifyError::OutOfMemory);
        }
        let keys = self.trusted.keys();
        match report(self.alloc, scheme, moment, &keys, octets, &step) {
            Ok(report) => {
                self.verifier.advance(step);
                Ok(report)
            }
            Err(OutOfMemory) => Err(VerifyError::OutOfMemory),
        }
    }
}
