//! The data of the records of keys: DNSKEY and DS (RFC 4034), CDNSKEY and CDS (RFC 7344), KEY (RFC 2535).
#![tactic(auto)]

mod cdnskey;
mod cds;
mod digest_fields;
mod dnskey;
mod dnskey_fields;
mod dnskey_flags;
mod ds;
mod key;
mod key_data_error;
mod key_digest;
mod key_tag;
mod key_uses;
pub mod laws;
mod mnemonics;
mod optional_algorithm;
mod protocol;
mod token_error;
mod tokens;

pub use cdnskey::CDNSKEY;
pub use cds::CDS;
pub use dnskey::DNSKEY;
pub use dnskey_fields::check_protocol;
pub use ds::DS;
pub use key::{KEY, check_key_flags};
pub use key_data_error::KeyDataError;
pub use key_uses::{KeyTrust, KeyUsage, UpdateScope};
pub use protocol::Protocol;
pub use token_error::{TokenError, TokenField};
