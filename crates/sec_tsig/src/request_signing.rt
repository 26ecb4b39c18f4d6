//! Signing requests into the caller's buffer, without memory.
ghost use Rattle.std.specs.Prelude.{◌≡◌, ◌≤◌, ◌<◌, ◌^◌, ◌+◌, ◌++◌, ℕ, List, length, drop, Ok};
ghost use Rattle.dns_wire.specs.Rooms.{filled};
ghost use Rattle.sec_digest.specs.Mac.{mac_octets};
ghost use Rattle.sec_sigdata.specs.TsigRecords.{borrowed_fields};
ghost use Rattle.sec_tsig.specs.Requests.{SignsTo, request_record_len, signed_or_cause};
ghost use Rattle.sec_tsig.specs.Signers.{request_record};
ghost use Rattle.sec_tsig.specs.Tsig.{additional_count, join, made_record, written_record};
ghost use Rattle.sec_tsig.specs.Verdict.{first_chain};

use crate::borrowed_signer::BorrowedSigner;
use crate::joining::{MESSAGE_LIMIT, append_record, number_at};
use crate::request::is_request;
use crate::request_error::RequestError;
use crate::signing::TIME_LIMIT;
use crate::tsig_record::with_mac;
use dns_message::BorrowedRecord;
use dns_types::{DNSClass, RecordType};
use sec_digest::Mac;
use sec_digest::laws::length_of_hmac;
use sec_sigdata::TsigVariables;

/// Puts a message to the start of a buffer, and after it the TSIG record of this owner and these data, counted among the
/// message's additionals. The buffer has buffer for them.
fn put_signed(buffer: &mut [u8], request: &[u8], variables: &TsigVariables<'_>)
    requires header { 12 ≤ length request.now }
    requires counted { additional_count request.now < 65535 }
    requires fits { (octets : List ℕ) × (written_record (made_record variables.now.key_name.now
        (borrowed_fields variables.now.tsig)) ≡ Ok octets) × (length request.now + length octets ≤ length buffer.old) }
    ensures { (octets : List ℕ)
        → written_record (made_record variables.now.key_name.now (borrowed_fields variables.now.tsig)) ≡ Ok octets
        → buffer.new ≡ join request.now octets ++ drop (length request.now + length octets) buffer.old }
{
    let rr = BorrowedRecord {
        name: variables.key_name,
        rtype: RecordType::TSIG,
        dns_class: DNSClass::ANY,
        ttl: 0,
        rdata: &variables.tsig,
    };
    buffer[..request.len()].copy_from_slice(request);
    append_record(buffer, request.len(), &rr);
}

impl BorrowedSigner<'_> {
    /// Signs a request that can be signed, which has so many octets with its TSIG record, into a buffer, where that has buffer
    /// for it: the MAC.
    fn sign_into(&self, request: &[u8], time: u64, signed_len: usize, buffer: &mut [u8]) -> Mac
        requires time { time < 2 ^ 48 }
        requires header { 12 ≤ length request.now }
        requires counted { additional_count request.now < 65535 }
        requires length { signed_len ≡ length request.now + request_record_len self.now }
        ensures mac { mac_octets result ≡ (first_chain self.now time request.now).mac }
        ensures signed { (octets : List ℕ) → written_record (request_record self.now time request.now) ≡ Ok octets
            → buffer.new ≡ filled buffer.old (join request.now octets) }
    {
        length_of_hmac();
        let variables = self.tsig_by(time, number_at(request, 0), None, &[]);
        let mac = self.signing_mac(None, true, request, &variables);
        if signed_len <= buffer.len() {
            put_signed(buffer, request, &with_mac(&variables, mac.as_slice()));
        }
        mac
    }

    /// Signs a request that is sent at `time`, in seconds from 1970 on (RFC 8945 5.1), into the caller's buffer: how
    /// many octets the signed request has, and the MAC. They are put to the start of the buffer, where that is long
    /// enough; else the buffer stays as it was. It takes no memory.
    ///
    /// # Errors
    ///
    /// `TimeTooLarge` for a time of 2^48 or more, then `NotARequest` where the octets are no message without a
    /// transaction signature, or go on after it, then `CountTooLarge` for 65,535 additional records, then
    /// `MessageTooLong` for more than 65,535 octets. The buffer then stays as it was.
    pub fn sign_request_to(
        &self,
        request: &[u8],
        time: u64,
        room: &mut [u8],
    ) -> Result<(usize, Mac), RequestError>
        ensures { SignsTo result room.old room.new (first_chain self.now time request.now)
            (signed_or_cause self.now time request.now) }
    {
        length_of_hmac();
        if time >= TIME_LIMIT {
            return Err(RequestError::TimeTooLarge);
        }
        if !is_request(request) {
            return Err(RequestError::NotARequest);
        }
        if number_at(request, 10) == u16::MAX {
            return Err(RequestError::CountTooLarge);
        }
        let length = request.len() + self.request_record_len();
        if length > MESSAGE_LIMIT {
            return Err(RequestError::MessageTooLong);
        }
        let mac = self.sign_into(request, time, length, room);
        Ok((length, mac))
    }
}
