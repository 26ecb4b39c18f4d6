//! Checking the MAC of a message that was received.
ghost use Rattle.std.specs.Prelude.{◌≡◌, ◌≢◌, ◌<◌, ◌^◌, length, true, IsTrue, Err};
ghost use Rattle.std.specs.Option.{option_copied, ForSome};
ghost use Rattle.std.specs.Str.{bytes_eq};
ghost use Rattle.dns_wire.specs.Reading.{Gives};
ghost use Rattle.dns_names.specs.Names.{wire};
ghost use Rattle.sec_digest.specs.Mac.{mac_octets};
ghost use Rattle.sec_sigdata.specs.TsigAlgorithms.{algorithm_name, tsig_algorithm_named, algorithm_with};
ghost use Rattle.sec_sigdata.specs.TsigErrors as specs;
ghost use Rattle.sec_sigdata.specs.TsigRecords.{borrowed_data, borrowed_fields, TsigFits, TsigIsByNumber};
ghost use Rattle.dns_message.specs.Views.{header_view, tsig_view, tsig_view_data, TsigViewFits, IsPlaced};
ghost use Rattle.sec_tsig.specs.Tsig.{IsCounted};
ghost use Rattle.sec_tsig.specs.Verdict.{checked_mac, expected_mac, has_signers_key};

use crate::borrowed_signer::BorrowedSigner;
use crate::mac_input::MacInput;
use crate::unsigned_message::UnsignedMessage;
use crate::verify_error::VerifyError;
use dns_message::{Header, TsigView};
use sec_digest::{HmacHash, Mac};
use sec_sigdata::{BorrowedTsig, TsigAlgorithm, TsigError, TsigVariables};

/// Whether an algorithm is HMAC with a hash function, the MAC not cut.
fn uses_hash(algorithm: &TsigAlgorithm, hash: HmacHash) -> bool
    requires { algorithm.now ≡ tsig_algorithm_named (algorithm_name algorithm.now) }
    ensures { result ≡ bytes_eq (wire (algorithm_name (algorithm_with hash))) (wire (algorithm_name algorithm.now)) }
{
    match algorithm.hmac_hash() {
        Some(found) => found == hash,
        None => false,
    }
}

/// The error of a number, and none for 0 (RFC 8945 4.2).
fn error_of(number: u16) -> Option<TsigError>
    ensures value { result ≡ specs.optional_error number }
    ensures number { specs.optional_error_number result ≡ number }
{
    if number == 0 {
        None
    } else {
        Some(TsigError::from(number))
    }
}

/// The data of a TSIG record that was received.
pub(crate) fn data_of<'a>(tsig: &TsigView<'a>) -> BorrowedTsig<'a>
    requires { TsigViewFits tsig.now }
    ensures value { borrowed_data result ≡ tsig_view_data tsig.now }
    ensures fits { TsigFits (borrowed_fields result) }
    ensures by_number { TsigIsByNumber (borrowed_fields result) }
{
    BorrowedTsig {
        algorithm: tsig.algorithm,
        time: tsig.time,
        fudge: tsig.fudge,
        mac: tsig.mac,
        oid: tsig.oid,
        error: error_of(tsig.error),
        other: tsig.other,
    }
}

/// The owner and the data of a TSIG record that was received.
pub(crate) fn variables_of<'a>(tsig: &'a TsigView<'a>) -> TsigVariables<'a>
    requires { TsigViewFits tsig.now }
    ensures owner { result.key_name.now ≡ tsig.now.owner }
    ensures value { borrowed_data result.tsig ≡ tsig_view_data tsig.now }
    ensures fits { TsigFits (borrowed_fields result.tsig) }
{
    TsigVariables {
        key_name: &tsig.owner,
        tsig: data_of(tsig),
    }
}

impl BorrowedSigner<'_> {
    /// Whether a TSIG names the key and its algorithm.
    fn has_key_of(&self, tsig: &TsigView<'_>) -> bool
        requires { TsigViewFits tsig.now }
        ensures { result ≡ has_signers_key self.now (tsig_view tsig.now) }
    {
        *self.signer_name() == tsig.owner && uses_hash(&tsig.algorithm, self.hash())
    }

    /// The MAC that a message with this TSIG must have.
    fn expected_mac(
        &self,
        previous: Option<&[u8]>,
        first: bool,
        octets: &[u8],
        header: &Header,
        tsig: &TsigView<'_>,
    ) -> Mac
        requires previous { ForSome (option_copied previous) IsCounted }
        requires placed { IsPlaced octets.now header.now tsig.now }
        ensures { mac_octets result ≡ expected_mac self.now (option_copied previous.entry) first octets.now
            (header_view header.now) (tsig_view tsig.now) }
    {
        let variables = variables_of(tsig);
        self.mac_of(&MacInput {
            previous,
            message: UnsignedMessage::of(octets, header, tsig),
            is_first: first,
            variables: &variables,
        })
    }

    /// The MAC of a message with this TSIG, where it is right.
    pub(crate) fn checked_mac(
        &self,
        previous: Option<&[u8]>,
        first: bool,
        octets: &[u8],
        header: &Header,
        tsig: &TsigView<'_>,
    ) -> Result<Mac, VerifyError>
        requires previous { ForSome (option_copied previous) IsCounted }
        requires placed { IsPlaced octets.now header.now tsig.now }
        ensures exact { Gives mac_octets result (checked_mac self.now (option_copied previous.entry) first octets.now
            (header_view header.now) (tsig_view tsig.now)) }
        ensures never { result ≢ Err VerifyError.OutOfMemory }
    {
        if !self.has_key_of(tsig) {
            return Err(VerifyError::TsigWrongKey);
        }
        if tsig.mac.len() < self.mac_len() {
            return Err(VerifyError::TruncatedMac);
        }
        let mac = self.expected_mac(previous, first, octets, header, tsig);
        if tsig.mac != mac.as_slice() {
            return Err(VerifyError::HmacInvalid);
        }
        Ok(mac)
    }
}
