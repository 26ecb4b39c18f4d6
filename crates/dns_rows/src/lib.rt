//! Rows: lines of calls, each answered in its place. A program gives [`Calls`], which say what the words of a line are
//! answered; this crate goes over the lines, reads from a source and writes to a sink. It has the words of calls and
//! [`Refusal`], which is why a call has no other answer.
#![tactic(auto)]

pub mod call_texts;
pub mod call_words;
mod calls;
mod hex_word;
pub mod key_words;
mod refusal;
mod run;

pub use calls::Calls;
pub use hex_word::HexWord;
pub use refusal::{Refusal, answer_text};
pub use run::run_calls;
