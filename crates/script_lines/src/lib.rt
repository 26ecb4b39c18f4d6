//! Lines that the scripts of several commands have.
#![tactic(auto)]

mod anchor;
mod moment;

pub use anchor::anchor_entries;
pub use moment::moment_word;
