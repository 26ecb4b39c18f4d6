//! What stands of transaction signatures in the caller's memory.
ghost use Rattle.std.specs.Prelude.{◌≡◌, ◌≤◌, ◌<◌, ◌^◌, length};
ghost use Rattle.dns_message.specs.Views.{tsig_view, TsigViewFits};
ghost use Rattle.sec_tsig.specs.Notices.{step_notice};
ghost use Rattle.dns_c.specs.Transactions.{answer_for, chain_for, hash_number, kept_mac, tsig_for};

use dns_message::TsigView;
use sec_digest::HmacHash;
use sec_tsig::TsigStep;

/// How many octets the longest MAC has.
const MAC_ROOM: usize = 64;

/// What stands of a signed request and the answers accepted so far.
#[repr(C)]
#[derive(Clone, Copy, Debug)]
pub struct PspChain {
    /// When the request was sent, in seconds from 1970 on.
    pub request_time: u64,
    /// When the last answer was signed, and 0 before the first.
    pub time: u64,
    /// 0 behind the first answer, and else before it.
    pub first: u32,
    /// How many octets of `mac` are the last MAC.
    pub mac_len: u32,
    /// The last MAC: that of the request or of the last answer.
    pub mac: [u8; 64],
}

/// What an accepted answer tells.
#[repr(C)]
#[derive(Clone, Copy, Debug)]
pub struct PspAnswer {
    /// The server's time that a first answer with the error BADTIME tells, else 0.
    pub server_time: u64,
    /// The number of the error of a first answer's TSIG, and 0 for none and behind the first.
    pub tsig_error: u16,
    /// The RCODE of the header.
    pub rcode: u16,
    /// 1 where a server's time is told, else 0.
    pub has_time: u32,
}

/// The transaction signature of a message, as it says itself.
#[repr(C)]
#[derive(Clone, Copy, Debug)]
pub struct PspTsig {
    /// When it was signed, in seconds from 1970 on.
    pub time: u64,
    /// Where its record starts.
    pub start: u32,
    /// How many octets its MAC has.
    pub mac_len: u32,
    /// 256, 384 or 512 by its algorithm's hash function, and 0 for another algorithm.
    pub hash: u32,
    /// The fudge in seconds.
    pub fudge: u16,
    /// The number of its error, and 0 for none.
    pub error: u16,
}

/// A MAC with zero octets behind it.
fn kept_mac(mac: &[u8]) -> [u8; MAC_ROOM]
    requires { length mac.now ≤ 64 }
    ensures { result ≡ kept_mac mac.now }
{
    let mut kept = [0; MAC_ROOM];
    kept[..mac.len()].copy_from_slice(mac);
    kept
}

impl PspChain {
    /// The chain of a request that was sent at `request_time`, or of its answers, behind one of this MAC and this time.
    pub(crate) fn behind(request_time: u64, mac: &[u8], time: u64, first: bool) -> PspChain
        requires { length mac.now ≤ 64 }
        ensures { (signer : _) → result ≡ chain_for record {
          signer = signer;
          request_time = request_time;
          mac = mac.now;
          time = time;
          first = first;
        } }
    {
        PspChain {
            request_time,
            time,
            first: u32::from(first),
            mac_len: mac.len() as u32,
            mac: kept_mac(mac),
        }
    }
}

/// The number of a hash function, and 0 for none.
fn number_of_hash(hash: Option<HmacHash>) -> u32
    ensures { result ≡ hash_number hash }
{
    match hash {
        None => 0,
        Some(HmacHash::Sha256) => 256,
        Some(HmacHash::Sha384) => 384,
        Some(HmacHash::Sha512) => 512,
    }
}

impl PspAnswer {
    /// What the step of an accepted answer tells.
    pub(crate) fn of(step: &TsigStep) -> PspAnswer
        ensures { result ≡ answer_for (step_notice step.now) }
    {
        let server_time = step.server_time();
        PspAnswer {
            server_time: server_time.unwrap_or(0),
            tsig_error: step.tsig_error(),
            rcode: step.rcode(),
            has_time: u32::from(server_time.is_some()),
        }
    }
}

impl PspTsig {
    /// What a transaction signature says.
    pub(crate) fn of(tsig: &TsigView<'_>) -> PspTsig
        requires fits { TsigViewFits tsig.now }
        requires start { tsig.now.start < 2 ^ 32 }
        ensures { result ≡ tsig_for (tsig_view tsig.now) }
    {
        PspTsig {
            time: tsig.time,
            start: tsig.start as u32,
            mac_len: tsig.mac.len() as u32,
            hash: number_of_hash(tsig.algorithm.hmac_hash()),
            fudge: tsig.fudge,
            error: tsig.error,
        }
    }
}
