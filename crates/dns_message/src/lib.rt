//! Messages (RFC 1035 4.1): viewed in their own octets, read into values, and written.
#![tactic(auto)]

mod dnssec;
mod header;
pub mod laws;
mod message;
mod message_reading;
mod message_writing;
mod query;
mod record;
mod record_head;
mod record_reading;
mod record_set;
mod record_writing;
mod response;
mod section;
mod tsig_view;
mod view;

pub use dnssec::{DnssecIter, DnssecSummary};
pub use header::Header;
pub use message::{Message, Places};
pub use query::{Query, skip_query};
pub use record::Record;
pub use record_head::{RecordHead, skip_head};
pub use record_set::RecordSet;
pub use record_writing::BorrowedRecord;
pub use response::{DnsResponse, ResponseError};
pub use section::Section;
pub use tsig_view::TsigView;
pub use view::MessageView;
