//! Algorithms, forms of keys, proofs of authenticity, and the scheme that checks signatures (RFC 4034, RFC 4035).
#![tactic(auto)]

mod algorithm;
mod decoded_key;
mod ec_key;
mod ed25519;
mod key_error;
mod key_format;
pub mod laws;
mod proof;
mod proof_flags;
mod proven;
mod public_key;
mod public_key_buf;
mod rsa;
mod scheme;
mod supported_algorithms;

pub use algorithm::Algorithm;
pub use decoded_key::{DecodedKey, decode_public_key};
pub use ec_key::EcKey;
pub use ed25519::Ed25519;
pub use key_error::{KeyError, KeyKind};
pub use key_format::KeyFormat;
pub use proof::Proof;
pub use proof_flags::ProofFlags;
pub use proven::Proven;
pub use public_key::PublicKey;
pub use public_key_buf::PublicKeyBuf;
pub use rsa::Rsa;
pub use scheme::SignatureScheme;
pub use supported_algorithms::{SupportedAlgorithms, SupportedAlgorithmsIter};
