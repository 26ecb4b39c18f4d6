//! Checking the answers to a signed request, and proving their record sets: what a checker reports of each answer.
#![tactic(auto)]

mod checker;
mod key_lookup;
pub mod laws;
mod mark;
mod multimap;
mod report;
mod reporting;
mod rrset_key;
mod section_records;
mod set_list;
mod set_proof;
mod trusted_entries;
mod trusted_keys;

pub use checker::Checker;
pub use dns_message::Section;
pub use report::Report;
pub use sec_tsig::VerifyError as CheckError;
pub use set_proof::SetProof;
