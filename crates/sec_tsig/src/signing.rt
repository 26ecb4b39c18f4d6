//! Signing requests and later answers.
ghost use Rattle.std.specs.Prelude.{◌≡◌, ◌≤◌, ◌<◌, ◌^◌, length, MatchResult};
ghost use Rattle.dns_wire.specs.Reading.{GivesUnless};
ghost use Rattle.sec_sigdata.specs.TsigRecords.{borrowed_fields};
ghost use Rattle.sec_tsig.specs.Tsig.{tsig_record};
ghost use Rattle.sec_tsig.specs.Signers.{signed_after, signed_later};
ghost use Rattle.sec_tsig.specs.Verdict.{signed_octets};

use crate::joining::number_at;
use crate::sign_error::TsigSignError;
use crate::signer::TSigner;
use crate::tsig_record::record_with_mac;
use crate::verifier::TSigVerifier;
use dns_message::Record;
use sec_sigdata::{TSIG, TsigVariables};

/// The first time that the six octets of a TSIG record can't hold (RFC 8945 4.2).
pub(crate) const TIME_LIMIT: u64 = 1 << 48;

/// The number of octets that two octets can count.
const COUNTED_LIMIT: usize = 65535;

/// Whether a TSIG record can hold a time.
pub(crate) fn check_time(time: u64) -> Result<(), TsigSignError>
    ensures { MatchResult result (λ _. time < 2 ^ 48)
        (λ cause. (2 ^ 48 ≤ time) × (cause ≡ TsigSignError.TimeTooLarge)) }
{
    if time < TIME_LIMIT {
        Ok(())
    } else {
        Err(TsigSignError::TimeTooLarge)
    }
}

impl TSigner {
    /// The record that signs octets after the message of this MAC.
    ///
    /// # Errors
    ///
    /// `TimeTooLarge` for a time of 2^48 or more, then `MacTooLong` for a MAC of more than 65,535 octets, or
    /// `OutOfMemory`.
    pub(crate) fn signed_after<'m>(
        &self,
        previous: &[u8],
        first: bool,
        octets: &[u8],
        variables: &'m TsigVariables<'m>,
    ) -> Result<Record<TSIG>, TsigSignError>
        requires owner { variables.now.key_name.now ≡ self.now.name }
        requires other { length variables.now.tsig.other.now < 2 ^ 16 }
        ensures { GivesUnless TsigSignError.OutOfMemory tsig_record result
            (signed_after self.now previous.now first octets.now (borrowed_fields variables.now.tsig)) }
    {
        check_time(variables.tsig.time)?;
        if previous.len() > COUNTED_LIMIT {
            return Err(TsigSignError::MacTooLong);
        }
        let mac = self
            .borrowed()
            .signing_mac(Some(previous), first, octets, variables);
        Ok(record_with_mac(self.alloc(), variables, mac.as_slice())?)
    }

    /// Signs a request that is sent at `current_time`, in seconds from 1970 on (RFC 8945 5.1): the TSIG record for it,
    /// and what checks the answers to it.
    ///
    /// # Errors
    ///
    /// `TimeTooLarge` for a time of 2^48 or more, or `OutOfMemory`.
    pub fn sign_octets(
        &self,
        octets: &[u8],
        current_time: u64,
    ) -> Result<(Record<TSIG>, TSigVerifier), TsigSignError>
        requires { 12 ≤ length octets.now }
        ensures { GivesUnless TsigSignError.OutOfMemory (λ x. (tsig_record x.0, x.1)) result
            (signed_octets self.now current_time octets.now) }
    {
        check_time(current_time)?;
        let signer = self.borrowed();
        let variables = signer.tsig_by(current_time, number_at(octets, 0), None, &[]);
        let mac = signer.signing_mac(None, true, octets, &variables);
        let rr = record_with_mac(self.alloc(), &variables, mac.as_slice())?;
        let verifier = TSigVerifier::new(self.try_clone()?, current_time, mac);
        Ok((rr, verifier))
    }

    /// Signs an answer after the first, which covers the MAC of the answer before and its own timers (RFC 8945 5.3.1).
    ///
    /// # Errors
    ///
    /// `TimeTooLarge` for a time of 2^48 or more, then `MacTooLong` for a MAC of more than 65,535 octets, or
    /// `OutOfMemory`.
    pub fn sign_later(
        &self,
        previous_mac: &[u8],
        response: &[u8],
        request_id: u16,
        time: u64,
    ) -> Result<Record<TSIG>, TsigSignError>
        ensures { GivesUnless TsigSignError.OutOfMemory tsig_record result
            (signed_later self.now previous_mac.now response.now request_id time) }
    {
        let signer = self.borrowed();
        let variables = signer.tsig_by(time, request_id, None, &[]);
        self.signed_after(previous_mac, false, response, &variables)
    }
}
