//! How far records are proved authentic (RFC 4035 4.3), one by one and together.
ghost use Rattle.std.specs.Prelude.{◌≡◌, map, ◌&&◌};
ghost use Rattle.dns_message.specs.Summary.{with_proof, is_bogus, is_secure, summary};

use crate::record::Record;
use dns_rdata::RData;
use dns_types::RecordType;
use sec_codes::{Proof, Proven};
use std::marker::Model;

/// The records that are left, each with its proof. A contract sees their list.
#[derive(Debug, Drop)]
pub struct DnssecIter<'a> {
    rest: &'a [Record<RData>],
}

impl<'a> Model for DnssecIter<'a> {
    ghost use Rattle.std.specs.Prelude.{List, map};
    ghost use Rattle.dns_rdata.specs.declared.rdata.RData.{RData};
    ghost use Rattle.dns_message.specs.declared.record.Record.{Record};
    ghost use Rattle.sec_codes.specs.declared.proof.Proof.{Proof};
    ghost use Rattle.dns_message.specs.Summary.{with_proof};

    ghost Value = { List (Proof × Record RData) };

    ghost view = { λ s. map with_proof s.rest.now };
}

impl<'a> DnssecIter<'a> {
    /// Each of these records with its proof, in their order.
    pub fn new(records: &'a [Record<RData>]) -> DnssecIter<'a>
        ensures { result ≡ map with_proof records.now }
    {
        DnssecIter { rest: records }
    }
}

impl<'a> Iterator for DnssecIter<'a> {
    ghost use Rattle.std.specs.Iterator.{YieldsFirstBy, item_count};

    type Item = Proven<&'a Record<RData>>;

    ghost next_gives = { YieldsFirstBy (λ x. (x.0, x.1.now)) (λ s. s) };

    ghost remaining = { item_count (λ s. s) };

    fn next(&mut self) -> Option<Proven<&'a Record<RData>>> {
        match self.rest {
            [first, rest @ ..] => {
                self.rest = rest;
                Some(Proven::new(first.proof, first))
            }
            [] => None,
        }
    }
}

/// How far records are proved authentic together.
#[derive(Clone, Copy, Debug, PartialEq, Eq)]
pub enum DnssecSummary {
    /// All of them are Secure, and there is one.
    Secure,
    /// One of them is Bogus.
    Bogus,
    /// Neither.
    Insecure,
}

/// Whether a proof says that the record is not authentic.
fn is_bogus(proof: Proof) -> bool
    ensures { result ≡ is_bogus proof }
{
    match proof {
        Proof::Bogus => true,
        Proof::Secure | Proof::Insecure | Proof::Indeterminate => false,
    }
}

/// Whether all are proved authentic, where this one comes to those before it.
fn all_secure_with(all_secure: bool, proof: Proof) -> bool
    ensures { result ≡ (all_secure && is_secure proof) }
{
    match proof {
        Proof::Secure => all_secure,
        Proof::Bogus | Proof::Insecure | Proof::Indeterminate => false,
    }
}

impl DnssecSummary {
    /// The proofs of these records in one word, those of RRSIG records aside.
    #[tactic(auto, using(crate::proofs::SummarySteps::steps))]
    pub fn from_records(records: &[Record<RData>]) -> DnssecSummary
        ensures { result ≡ summary records.now }
    {
        let mut some = false;
        let mut all_secure = true;
        for rr in records {
            if rr.record_type() == RecordType::RRSIG {
                continue;
            }
            if is_bogus(rr.proof) {
                return DnssecSummary::Bogus;
            }
            some = true;
            all_secure = all_secure_with(all_secure, rr.proof);
        }
        if some && all_secure {
            DnssecSummary::Secure
        } else {
            DnssecSummary::Insecure
        }
    }
}
