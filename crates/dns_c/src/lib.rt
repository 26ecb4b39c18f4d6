//! The calls for C, and for every language that can call C: the same definitions, in the caller's memory.
#![tactic(auto)]

mod hash;
mod hmac;
mod keys;
pub mod laws;
mod names;
mod output;
mod records;
mod status;
mod text_buf;
mod transaction;
mod tsig;
mod wire_name;

pub use hmac::psp_hmac;
pub use keys::{psp_ds_digest, psp_key_tag};
pub use names::{psp_name_from_text, psp_name_to_text, psp_nsec3_hash};
pub use records::{PspRecord, psp_canonical_data, psp_records, psp_rrsig_input};
pub use status::Status;
pub use transaction::{PspAnswer, PspChain, PspTsig};
pub use tsig::{psp_tsig_check, psp_tsig_read, psp_tsig_sign};
