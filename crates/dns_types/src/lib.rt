//! Types and classes of records, and sets of types.
#![tactic(auto)]

mod code_text;
mod codes;
pub mod laws;
mod type_blocks;
mod type_form;
mod type_set;

pub use codes::{DNSClass, RecordType};
pub use type_blocks::is_bitmap;
pub use type_set::{RecordTypeIter, RecordTypeSet};
