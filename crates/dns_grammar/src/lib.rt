//! Record data and messages: what they are, by a table of fields for each type of record.
#![tactic(auto)]

mod check;
mod field_out;
pub mod laws;
mod span;

pub use check::{FieldKind, TestedField, check_fields, check_rdata, check_row};
pub use field_out::{FieldOut, put_fields};
pub use span::{data_end, expect_end};
