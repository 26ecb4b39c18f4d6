//! What a checker reports of an answer.

use crate::set_proof::SetProof;
use std::marker::Model;

/// What a checker reports of an answer that it accepted: the record sets, and what the transaction signature of a first
/// answer says (RFC 8945 5.2.3, 5.3.1). A contract sees these three.
#[derive(Debug, Drop)]
pub struct Report {
    sets: Vec<SetProof>,
    tsig_error: u16,
    server_time: Option<u64>,
}

impl Model for Report {
    ghost use Rattle.sec_check.specs.Reports.{ReportData};

    ghost Value = { ReportData };

    ghost view = { λ r. record {
      sets = r.sets.items;
      tsig_error = r.tsig_error;
      server_time = r.server_time;
    } };
}

impl Report {
    ghost use Rattle.std.specs.Prelude.{◌≡◌};

    pub(crate) fn new(sets: Vec<SetProof>, tsig_error: u16, server_time: Option<u64>) -> Report
        ensures { result ≡ record { sets = sets.items; tsig_error = tsig_error; server_time = server_time } }
    {
        Report {
            sets,
            tsig_error,
            server_time,
        }
    }

    /// The record sets of the answers, the authority records and the additional records in turn, in order of first
    /// record, each with how far it is proved authentic.
    pub fn sets(&self) -> &[SetProof]
        ensures { result.now ≡ self.now.sets }
    {
        self.sets.as_slice()
    }

    /// The number of the error of the transaction signature (RFC 8945 3) of a first answer: 0 where there is none. It is
    /// 0 for a later answer, whose signature doesn't cover it.
    pub fn tsig_error(&self) -> u16
        ensures { result ≡ self.now.tsig_error }
    {
        self.tsig_error
    }

    /// The server's time, in seconds from the start of 1970 on, where a first answer has the error BADTIME, 18, and tells
    /// it in six octets (RFC 8945 5.2.3).
    pub fn server_time(&self) -> Option<u64>
        ensures { result ≡ self.now.server_time }
    {
        self.server_time
    }
}
