//! Scripts of `dnscheck check`: what octets say as a script, what its answers come to, and the text and the status of its
//! session.
#![tactic(auto)]

mod answers;
pub mod laws;
mod script;
mod sessions;
mod text;

pub use answers::{AnswerTaker, check_answers};
pub use script::{Answer, Script, ScriptSoFar};
pub use sessions::{CheckSession, session};
