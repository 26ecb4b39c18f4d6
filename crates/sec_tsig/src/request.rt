//! Requests.
ghost use Rattle.std.specs.Prelude.{◌≡◌, ℕ, ◌≤◌, ◌<◌, ◌^◌, length, IsTrue, is_some};
ghost use Rattle.sec_tsig.specs.Requests.{is_request, request_record_len, signed_request};

use crate::borrowed_signer::BorrowedSigner;
use crate::joining::{MESSAGE_LIMIT, number_at};
use crate::signer::TSigner;
use dns_message::MessageView;
use sec_digest::laws::length_of_hmac;

/// Whether octets are a request that can be signed: one message without a transaction signature, and no octets after
/// it. It takes no memory.
#[tactic(auto, using(crate::proofs::Judged::requests))]
pub fn is_request(octets: &[u8]) -> bool
    ensures exact { result ≡ is_request octets.now }
    ensures header { IsTrue result → 12 ≤ length octets.now }
{
    match MessageView::parse(octets) {
        Ok(view) => match view.tsig() {
            None => view.end() == octets.len(),
            Some(_) => false,
        },
        Err(_) => false,
    }
}

impl BorrowedSigner<'_> {
    /// How many octets the TSIG record of a request has.
    pub(crate) fn request_record_len(&self) -> usize
        ensures value { result ≡ request_record_len self.now }
        ensures at_most_512 { result ≤ 512 }
    {
        self.signer_name().len() + 10 + self.algorithm().to_name().len() + 16 + self.mac_len()
    }

    /// Whether octets are a request that this signer can sign, at whatever time: they have fewer than 65,535 additional
    /// records, and at most 65,535 octets with the TSIG record. It takes no memory.
    #[tactic(auto, using(crate::proofs::Signable::exits))]
    pub fn can_sign_request(&self, octets: &[u8]) -> bool
        ensures { (time : ℕ) → time < 2 ^ 48 → result ≡ is_some (signed_request self.now time octets.now) }
    {
        length_of_hmac();
        if !is_request(octets) {
            return false;
        }
        if number_at(octets, 10) == u16::MAX {
            return false;
        }
        self.request_record_len() <= MESSAGE_LIMIT.saturating_sub(octets.len())
    }
}

impl TSigner {
    /// Whether octets are a request that this signer can sign (`BorrowedSigner::can_sign_request`).
    pub fn can_sign_request(&self, octets: &[u8]) -> bool
        ensures { (time : ℕ) → time < 2 ^ 48 → result ≡ is_some (signed_request self.now time octets.now) }
    {
        self.borrowed().can_sign_request(octets)
    }
}
