//! The data of a record, of whatever type: one type of value, read, checked, written and printed by one table.
#![tactic(auto)]

mod data_fields;
mod dnssec_rdata;
mod hosts;
pub mod laws;
mod mailboxes;
mod name_fields;
mod naptr;
mod null;
mod rdata;
mod reading;
mod record_data;
mod soa;
mod srv;
mod texts;
mod txt;

pub use data_fields::{FieldCheck, rdata_fields};
pub use dnssec_rdata::DNSSECRData;
pub use hosts::{AFSDB, KX, MX, PX, RT};
pub use mailboxes::{MINFO, RP};
pub use naptr::NAPTR;
pub use null::NULL;
pub use rdata::RData;
pub use record_data::RecordData;
pub use soa::SOA;
pub use srv::SRV;
pub use txt::TXT;
