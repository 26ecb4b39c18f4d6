//! A script of as many answers as are asked for, which `dnscheck demo` runs: who signs, the request, and the answers,
//! of which some are refused and some have record sets whose signature is wrong or missing.
#![tactic(auto)]

mod answering;
mod flipping;
pub mod laws;
mod messages;
mod parts;
mod records;
mod signing;

pub use answering::answers;
pub use parts::{MOMENT, TIME, entries, request, signer};
