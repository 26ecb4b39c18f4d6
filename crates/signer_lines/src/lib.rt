//! Lines that say who signs, and what request is signed: those of scripts whose messages have transaction signatures.
#![tactic(auto)]

mod key;
mod request;

pub use key::key_words;
pub use request::{SignedRequest, request_words, sign_request};
