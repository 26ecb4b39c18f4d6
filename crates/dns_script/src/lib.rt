//! What programs have in common that read octets to their end and then write a text: the words they are called with, the
//! run over a source and a sink, and the number that they end with; and, where the octets are a script, its lines, its
//! first faulty line, and the session of the whole.
//!
//! A command gives [`Lines`], which say what each of its lines adds, and a [`ScriptSession`], which says what text and
//! what status come of the whole script.
#![tactic(auto)]

mod command_line;
mod error;
mod fault;
mod reason;
mod script;
mod script_session;
mod session;
mod words;

pub use command_line::{behind_program_name, command_words, exit_code};
pub use error::{LineError, ScriptError};
pub use fault::push_fault;
pub use reason::Reason;
pub use script::{Lines, read_script};
pub use script_session::{ScriptSession, run_script, session_of_octets};
pub use session::{OctetSession, run_session};
pub use words::{number_word, octets_word};
