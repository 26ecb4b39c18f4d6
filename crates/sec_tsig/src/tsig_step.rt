//! What an accepted answer moves, and what it tells.
ghost use Rattle.std.specs.Prelude.{◌≡◌, ◌≤◌, length};
ghost use Rattle.sec_digest.specs.Mac.{mac_octets};
ghost use Rattle.sec_tsig.specs.Notices.{step_notice};

use sec_digest::Mac;

/// By what an accepted answer moves its chain: its MAC and the time at which it was signed; and what it tells. A
/// contract sees the chain after it, by `stepped`, and what it tells, by `step_notice`.
#[derive(Clone, Copy, Debug)]
pub struct TsigStep {
    pub(crate) mac: Mac,
    pub(crate) time: u64,
    pub(crate) tsig_error: u16,
    pub(crate) server_time: Option<u64>,
    pub(crate) rcode: u16,
}

impl TsigStep {
    /// The MAC of the answer.
    pub fn mac(&self) -> &[u8]
        ensures value { result.now ≡ mac_octets self.now.mac }
        ensures at_most_64 { length result.now ≤ 64 }
    {
        self.mac.as_slice()
    }

    /// The time at which the answer was signed, in seconds from 1970 on.
    pub fn time(&self) -> u64
        ensures { result ≡ self.now.time }
    {
        self.time
    }

    /// The number of the error that a first answer's TSIG tells, and 0 for none and in a later answer (RFC 8945 5.3.1).
    pub fn tsig_error(&self) -> u16
        ensures { result ≡ (step_notice self.now).tsig_error }
    {
        self.tsig_error
    }

    /// The server's time that a first answer with the error BADTIME tells (RFC 8945 5.2.3), in seconds from 1970 on.
    pub fn server_time(&self) -> Option<u64>
        ensures { result ≡ (step_notice self.now).server_time }
    {
        self.server_time
    }

    /// The RCODE of the answer's header (RFC 1035 4.1.1).
    pub fn rcode(&self) -> u16
        ensures { result ≡ (step_notice self.now).rcode }
    {
        self.rcode
    }
}
