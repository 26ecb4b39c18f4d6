//! Checking the MAC of a message in its octets.
ghost use Rattle.std.specs.Prelude.{◌≡◌, Ok};
ghost use Rattle.std.specs.Option.{option_copied, ForSome};
ghost use Rattle.dns_wire.specs.Reading.{GivesUnless};
ghost use Rattle.dns_message.specs.Views.{header_view, tsig_view, IsPlaced, TsigViewFits};
ghost use Rattle.sec_tsig.specs.Tsig.{IsCounted};
ghost use Rattle.sec_tsig.specs.Views.{checked_view};
ghost use Rattle.sec_tsig.specs.Received.{checked_byte, checked_message};
ghost use Rattle.sec_tsig.specs.Verdict.{window_end, window_start};

use crate::signed_view::SignedView;
use crate::signer::TSigner;
use crate::verify_error::VerifyError;
use dns_message::{Header, TsigView};
use std::ops::Range;

/// The seconds in which a request was to be sent whose TSIG this is, or whose answer has it (RFC 8945 5.2.3).
pub(crate) fn window_of(tsig: &TsigView<'_>) -> Range<u64>
    requires { TsigViewFits tsig.now }
    ensures { result ≡ record { start = window_start (tsig_view tsig.now); end = window_end (tsig_view tsig.now) } }
{
    let fudge = u64::from(tsig.fudge);
    tsig.time.saturating_sub(fudge)..tsig.time + fudge
}

impl TSigner {
    /// The MAC, the time and the window of a message with this TSIG, where its MAC is right.
    fn checked_byte(
        &self,
        previous: Option<&[u8]>,
        first: bool,
        message: &[u8],
        header: &Header,
        tsig: &TsigView<'_>,
    ) -> Result<(Vec<u8>, u64, Range<u64>), VerifyError>
        requires previous { ForSome (option_copied previous) IsCounted }
        requires placed { IsPlaced message.now header.now tsig.now }
        ensures { GivesUnless VerifyError.OutOfMemory checked_view result
            (checked_byte self.now (option_copied previous.entry) first message.now (header_view header.now)
            (tsig_view tsig.now)) }
    {
        let mac = self
            .borrowed()
            .checked_mac(previous, first, message, header, tsig)?;
        let mac = Vec::from_slice(self.alloc(), mac.as_slice())?;
        Ok((mac, tsig.time, window_of(tsig)))
    }

    /// Checks the MAC of a message after the MAC of a message before, or none, as a first message or a later one
    /// (RFC 8945 5.2.2): the MAC, the time signed, and the seconds in which the request was to be sent.
    ///
    /// # Errors
    ///
    /// `Decode` where the octets are no message, more than 65,535 octets among them. Then `MissingTsig`, `TsigWrongKey`,
    /// `TruncatedMac` or `HmacInvalid`, the first that holds. Or `OutOfMemory`.
    #[tactic(auto, using(crate::proofs::Judged::by_view))]
    pub fn verify_message_byte(
        &self,
        message: &[u8],
        previous_hash: Option<&[u8]>,
        first_message: bool,
    ) -> Result<(Vec<u8>, u64, Range<u64>), VerifyError>
        requires { ForSome (option_copied previous_hash) IsCounted }
        ensures { GivesUnless VerifyError.OutOfMemory checked_view result
            (checked_message self.now (option_copied previous_hash.entry) first_message message.now) }
    {
        match SignedView::parse(message) {
            Ok(view) => self.checked_byte(
                previous_hash,
                first_message,
                message,
                &view.header,
                &view.tsig,
            ),
            Err(cause) => Err(cause),
        }
    }
}
