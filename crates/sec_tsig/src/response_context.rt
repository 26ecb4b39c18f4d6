//! Signing answers.
ghost use Rattle.std.specs.Prelude.{◌≡◌, []};
ghost use Rattle.dns_wire.specs.Reading.{GivesUnless};
ghost use Rattle.sec_sigdata.specs.TsigRecords.{borrowed_fields};
ghost use Rattle.sec_tsig.specs.Tsig.{tsig_record};
ghost use Rattle.sec_tsig.specs.Responses.{Signed, WithServerTime, WrongMac, WrongKey, response_record, reply_record};
ghost use Rattle.sec_tsig.specs.Responses.{unsigned_reply, unknown_key_tsig};

use crate::sign_error::TsigSignError;
use crate::signer::TSigner;
use crate::signing::check_time;
use crate::tsig_record::record_with_mac;
use dns_message::Record;
use dns_names::Name;
use dns_wire::time_octets;
use sec_sigdata::{BorrowedTsig, TSIG, TsigAlgorithm, TsigError, TsigVariables};
use std::alloc::Global;
use std::marker::Model;

/// The fudge of an answer under an unknown key, in seconds (RFC 8945 10).
const DEFAULT_FUDGE: u16 = 300;

/// Which answer is signed.
#[derive(Drop)]
enum Reply {
    /// With this error or none, to a request of this MAC.
    Signed(TSigner, Vec<u8>, Option<TsigError>),
    /// With the server's time, to a request of this MAC whose time was not in its window.
    WithServerTime(TSigner, Vec<u8>, u64),
    /// To a request whose MAC was wrong.
    WrongMac(TSigner),
    /// To a request under the unknown key of this name.
    WrongKey(Global, Name),
}

/// Signs the answer to a request (RFC 8945 5.2, 5.3). A contract sees it as a `Response`.
#[derive(Drop)]
pub struct TSigResponseContext {
    request_id: u16,
    time: u64,
    reply: Reply,
}

impl Model for TSigResponseContext {
    ghost use Rattle.sec_tsig.specs.Responses.{Response};
    ghost use Rattle.sec_tsig.specs.Replies.{reply_view};

    ghost Value = { Response };

    ghost view = { λ s. record { request_id = s.request_id; time = s.time; reply = reply_view s.reply } };
}

/// The record of an answer that is not signed.
fn unsigned_reply<'m>(
    alloc: Global,
    variables: &'m TsigVariables<'m>,
) -> Result<Record<TSIG>, TsigSignError>
    ensures { GivesUnless TsigSignError.OutOfMemory tsig_record result
        (unsigned_reply variables.now.key_name.now (borrowed_fields variables.now.tsig)) }
{
    check_time(variables.tsig.time)?;
    Ok(record_with_mac(alloc, variables, variables.tsig.mac)?)
}

/// The record of an answer with this error or none.
fn reply_with_error(
    signer: &TSigner,
    request_mac: &[u8],
    error: Option<TsigError>,
    id: u16,
    time: u64,
    response: &[u8],
) -> Result<Record<TSIG>, TsigSignError>
    ensures { GivesUnless TsigSignError.OutOfMemory tsig_record result
        (reply_record id time (Signed signer.now request_mac.now error) response.now) }
{
    let variables = signer.borrowed().tsig_by(time, id, error, &[]);
    let number = variables.tsig.error_number();
    if number == u16::from(TsigError::BadSig) || number == u16::from(TsigError::BadKey) {
        return Err(TsigSignError::UnsignedError(number));
    }
    if number == u16::from(TsigError::BadTime) {
        return Err(TsigSignError::NeedsServerTime);
    }
    signer.signed_after(request_mac, true, response, &variables)
}

/// The record of an answer with the server's time.
fn reply_with_server_time(
    signer: &TSigner,
    request_mac: &[u8],
    server_time: u64,
    id: u16,
    time: u64,
    response: &[u8],
) -> Result<Record<TSIG>, TsigSignError>
    ensures { GivesUnless TsigSignError.OutOfMemory tsig_record result
        (reply_record id time (WithServerTime signer.now request_mac.now server_time) response.now) }
{
    check_time(server_time)?;
    let other = time_octets(server_time);
    let borrowed = signer.borrowed();
    let variables = borrowed.tsig_by(time, id, Some(TsigError::BadTime), &other);
    signer.signed_after(request_mac, true, response, &variables)
}

/// The record of an answer to a request whose MAC was wrong.
fn reply_to_wrong_mac(signer: &TSigner, id: u16, time: u64) -> Result<Record<TSIG>, TsigSignError>
    ensures { GivesUnless TsigSignError.OutOfMemory tsig_record result
        (reply_record id time (WrongMac signer.now) []) }
{
    let borrowed = signer.borrowed();
    let variables = borrowed.tsig_by(time, id, Some(TsigError::BadSig), &[]);
    unsigned_reply(signer.alloc(), &variables)
}

/// The record of an answer under an unknown key.
fn reply_to_unknown_key(
    alloc: Global,
    owner: &Name,
    id: u16,
    time: u64,
) -> Result<Record<TSIG>, TsigSignError>
    ensures { GivesUnless TsigSignError.OutOfMemory tsig_record result
        (unsigned_reply owner.now (unknown_key_tsig time id)) }
{
    let variables = TsigVariables {
        key_name: owner,
        tsig: BorrowedTsig {
            algorithm: TsigAlgorithm::HmacSha256,
            time,
            fudge: DEFAULT_FUDGE,
            mac: &[],
            oid: id,
            error: Some(TsigError::BadKey),
            other: &[],
        },
    };
    unsigned_reply(alloc, &variables)
}

impl TSigResponseContext {
    /// Signs the answer to a request of this ID and this MAC, at `time`, with an error or none.
    pub fn new(
        request_id: u16,
        time: u64,
        signer: TSigner,
        request_mac: Vec<u8>,
        error: Option<TsigError>,
    ) -> TSigResponseContext
        ensures { result ≡ record {
          request_id = request_id;
          time = time;
          reply = Signed signer request_mac.items error;
        } }
    {
        TSigResponseContext {
            request_id,
            time,
            reply: Reply::Signed(signer, request_mac, error),
        }
    }

    /// Answers a request of this ID whose MAC was wrong, without a MAC and with the error BADSIG (RFC 8945 5.2.2).
    pub fn bad_signature(request_id: u16, time: u64, signer: TSigner) -> TSigResponseContext
        ensures { result ≡ record { request_id = request_id; time = time; reply = WrongMac signer } }
    {
        TSigResponseContext {
            request_id,
            time,
            reply: Reply::WrongMac(signer),
        }
    }

    /// Answers a request of this ID under the unknown key of this name, without a MAC and with the error BADKEY
    /// (RFC 8945 5.2.1), the algorithm hmac-sha256 and the fudge 300.
    pub fn unknown_key(
        alloc: Global,
        request_id: u16,
        time: u64,
        key_name: Name,
    ) -> TSigResponseContext
        ensures { result ≡ record { request_id = request_id; time = time; reply = WrongKey key_name } }
    {
        TSigResponseContext {
            request_id,
            time,
            reply: Reply::WrongKey(alloc, key_name),
        }
    }

    /// Signs the answer to a request of this ID and this MAC that was sent at another time than the server's, with the
    /// error BADTIME, the request's time as its time, and the server's time in its other data (RFC 8945 5.2.3).
    pub fn bad_time(
        request_id: u16,
        request_time: u64,
        server_time: u64,
        signer: TSigner,
        request_mac: Vec<u8>,
    ) -> TSigResponseContext
        ensures { result ≡ record {
          request_id = request_id;
          time = request_time;
          reply = WithServerTime signer request_mac.items server_time;
        } }
    {
        TSigResponseContext {
            request_id,
            time: request_time,
            reply: Reply::WithServerTime(signer, request_mac, server_time),
        }
    }

    /// The TSIG record for these octets, the answer without it.
    ///
    /// # Errors
    ///
    /// In this order: `UnsignedError` where `new` was given an error of the number 16 or 17, `NeedsServerTime` where it
    /// was given one of the number 18, `TimeTooLarge` where a time is 2^48 or more, `MacTooLong` where the request's MAC
    /// has more than 65,535 octets. Or `OutOfMemory`.
    pub fn sign(self, response: &[u8]) -> Result<Record<TSIG>, TsigSignError>
        ensures { GivesUnless TsigSignError.OutOfMemory tsig_record result (response_record self response.now) }
    {
        let TSigResponseContext {
            request_id: id,
            time,
            reply,
        } = self;
        match reply {
            Reply::Signed(signer, request_mac, error) => reply_with_error(
                &signer,
                request_mac.as_slice(),
                error,
                id,
                time,
                response,
            ),
            Reply::WithServerTime(signer, request_mac, server_time) => reply_with_server_time(
                &signer,
                request_mac.as_slice(),
                server_time,
                id,
                time,
                response,
            ),
            Reply::WrongMac(signer) => reply_to_wrong_mac(&signer, id, time),
            Reply::WrongKey(alloc, owner) => reply_to_unknown_key(alloc, &owner, id, time),
        }
    }
}
