//! The octets that the signatures of a message cover, found in its octets without memory.
#![tactic(auto)]

mod covered_octets;
mod data_order;
mod input_error;
pub mod laws;
mod place_list;
mod placed_set;
mod rrsig_fields;
mod set_name;
mod set_places;

pub use covered_octets::signed_input;
pub use input_error::InputError;
