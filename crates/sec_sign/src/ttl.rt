//! How long an authenticated record may be kept.
ghost use Rattle.std.specs.Prelude.{◌≡◌, ◌-◌, min};

use dns_message::Record;
use dns_rdata::RData;
use sec_sigdata::RRSIG;

/// How long a record may be kept that a signature authenticates.
pub trait AuthenticatedTtl {
    ghost use Rattle.sec_sigdata.specs.declared.sig_input.SigInput.{SigInput};

    // the fields before the signature
    ghost input_of: { Self → SigInput };

    /// For how many seconds the record may be kept from `current_time` on, a time in seconds from the start of 1970: at
    /// most its own TTL, the original one, and what is left up to the expiration (RFC 4035 5.3.3).
    fn authenticated_ttl(&self, rr: &Record<RData>, current_time: u32) -> u32
        ensures { result ≡ min rr.now.ttl (min (input_of self.now).original_ttl
            ((input_of self.now).sig_expiration.0 - current_time)) };
}

impl AuthenticatedTtl for RRSIG {
    ghost use Rattle.sec_sigdata.specs.Signatures.{rrsig_data};

    ghost input_of = { λ rrsig. (rrsig_data rrsig).input };

    fn authenticated_ttl(&self, rr: &Record<RData>, current_time: u32) -> u32 {
        let input = self.input();
        let left = input.sig_expiration.0.saturating_sub(current_time);
        rr.ttl.min(input.original_ttl.min(left))
    }
}
