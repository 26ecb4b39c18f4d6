//! The records of a message in its octets, without memory: where each stands, and its data in canonical form.
#![tactic(auto)]

mod data_buffer;
mod data_error;
pub mod laws;
mod pointer_cache;
mod record_data;
mod record_place;
mod record_walk;

pub use data_buffer::DataBuffer;
pub use data_error::DataError;
pub use pointer_cache::{PLACES, empty_cache};
pub use record_data::{canonical_data, copy_canonical};
pub use record_place::RecordPlace;
pub use record_walk::RecordWalk;
