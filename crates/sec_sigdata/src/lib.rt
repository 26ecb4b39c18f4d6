//! The data of the records of signatures and denial: SIG and RRSIG (RFC 2535, RFC 4034), NSEC (RFC 4034), NSEC3 and
//! NSEC3PARAM (RFC 5155), TSIG (RFC 8945).
#![tactic(auto)]

mod borrowed_tsig;
mod error;
mod hash_parameters;
mod hashed_name;
pub mod laws;
mod nsec;
mod nsec3;
mod nsec3param;
mod rrsig;
mod sig;
mod sig_input;
mod tsig;
mod tsig_algorithm;
mod tsig_error;
mod tsig_variables;
mod type_list;

pub use borrowed_tsig::BorrowedTsig;
pub use error::{DnsSecError, DnsSecResult};
pub use hash_parameters::{check_hash_algorithm, check_nsec3_flags};
pub use nsec::NSEC;
pub use nsec3::NSEC3;
pub use nsec3param::NSEC3PARAM;
pub use rrsig::RRSIG;
pub use sig::SIG;
pub use sig_input::SigInput;
pub use tsig::TSIG;
pub use tsig_algorithm::TsigAlgorithm;
pub use tsig_error::TsigError;
pub use tsig_variables::TsigVariables;
