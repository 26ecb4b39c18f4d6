//! Anchor text: the entries of its lines, and the trust anchors that they are (after RFC 1035 5.1, RFC 4034 2.2).
#![tactic(auto)]

mod anchors;
mod entry;
mod parse_error;
mod parser;
mod token;

pub use anchors::TrustAnchors;
pub use entry::{Entry, Record};
pub use parse_error::ParseError;
pub use parser::Parser;
pub use token::Token;
