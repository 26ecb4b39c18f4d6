//! Transaction signatures of messages (RFC 8945).
#![tactic(auto)]

mod bitmessage;
mod borrowed_signer;
mod borrowed_verifier;
mod joining;
pub mod laws;
mod mac_check;
mod mac_input;
mod message_check;
mod message_signing;
mod request;
mod request_error;
mod request_signing;
mod response_context;
mod sign_error;
mod signed_view;
mod signer;
mod signing;
mod tbs;
mod tsig_record;
mod tsig_step;
mod unsigned_message;
mod verifier;
mod verify_error;

pub use bitmessage::signed_bitmessage_to_buf;
pub use borrowed_signer::BorrowedSigner;
pub use borrowed_verifier::BorrowedVerifier;
pub use joining::append_tsig;
pub use request::is_request;
pub use request_error::RequestError;
pub use response_context::TSigResponseContext;
pub use sign_error::TsigSignError;
pub use signer::TSigner;
pub use tbs::message_tbs;
pub use tsig_record::make_tsig_record;
pub use tsig_step::TsigStep;
pub use verifier::TSigVerifier;
pub use verify_error::VerifyError;
