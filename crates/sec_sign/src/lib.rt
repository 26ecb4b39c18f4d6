//! Signing record sets, and checking their signatures (RFC 4034, RFC 4035 5.3).
#![tactic(auto)]

mod canonical_set;
mod keyed_hash;
pub mod laws;
mod owner;
mod pair;
mod pair_parts;
mod sign_error;
mod signed_set;
mod signer;
mod signing;
mod signing_key;
mod tbs;
mod tbs_error;
mod ttl;
mod verifier;
mod verify_error;

pub use canonical_set::CanonicalSet;
pub use keyed_hash::{KeyedHash, KeyedHashKey};
pub use owner::determine_name;
pub use pair::{PairVerdict, authenticates, authenticates_set};
pub use pair_parts::{RrsetName, ZoneKey};
pub use sign_error::SignError;
pub use signed_set::{CANONICAL, CanonicalData, SignedHead, SignedSet, put_signed_record};
pub use signer::DnssecSigner;
pub use signing::{SigInputOf, SignRrset};
pub use signing_key::SigningKey;
pub use tbs::TBS;
pub use tbs_error::TbsError;
pub use ttl::AuthenticatedTtl;
pub use verifier::Verifier;
pub use verify_error::VerifyRrsigError;
