//! Digests of octets: those that DS records name, the iterated hash of NSEC3, base32 as DNSSEC
//! writes it, and HMAC.
#![tactic(auto)]

mod base32;
mod digest;
mod digest_type;
mod hash;
mod hmac;
mod hmac_sink;
pub mod laws;
mod mac;
mod nsec3_hash;

pub use base32::{Base32Text, base32_dnssec, base32_label};
pub use digest::Digest;
pub use digest_type::DigestType;
pub use hmac::{Hmac, HmacHash};
pub use hmac_sink::mac_of_put;
pub use mac::Mac;
pub use nsec3_hash::Nsec3HashAlgorithm;
