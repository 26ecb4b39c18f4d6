//! Domain names.
#![tactic(auto)]

mod ascii;
mod hierarchy;
mod label;
mod label_reader;
pub mod laws;
mod lower_name;
mod name;
mod order;
mod pointer_cache;
mod reading;
mod text;

pub use label::Label;
pub use lower_name::LowerName;
pub use name::{LabelIter, Name, put_name};
pub use pointer_cache::with_pointer_cache;
pub use text::{NameWithoutDot, is_special};
