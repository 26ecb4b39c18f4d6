//! Messages that end in a transaction signature.
ghost use Rattle.std.specs.Prelude.{◌≡◌, ◌≢◌, Err, IfOk};
ghost use Rattle.dns_wire.specs.Reading.{Gives};
ghost use Rattle.dns_grammar.specs.Messages.{message_at};
ghost use Rattle.dns_rdata.specs.RDataTable.{rdata_table};
ghost use Rattle.dns_message.specs.Views.{IsPlaced};
ghost use Rattle.sec_tsig.specs.SignedViews.{signed_view};
ghost use Rattle.sec_tsig.specs.Verdict.{signed_parts};

use crate::verify_error::VerifyError;
use dns_message::{Header, MessageView, TsigView};

/// A message in its own octets whose last additional record is a TSIG (RFC 8945 5.1).
#[derive(Clone, Copy)]
pub(crate) struct SignedView<'a> {
    /// The header.
    pub(crate) header: Header,
    /// The record.
    pub(crate) tsig: TsigView<'a>,
}

impl<'a> SignedView<'a> {
    /// The message in these octets. Octets after it are no fault.
    ///
    /// # Errors
    ///
    /// `Decode` where the octets are no message, more than 65,535 octets among them. Then `MissingTsig` where the last
    /// additional record is no TSIG, or there is none.
    #[tactic(auto, using(crate::proofs::Judged::parts))]
    pub(crate) fn parse(octets: &'a [u8]) -> Result<SignedView<'a>, VerifyError>
        ensures exact { Gives signed_view result (signed_parts (message_at rdata_table octets.now)) }
        ensures placed { IfOk result (λ view. IsPlaced octets.now view.header view.tsig) }
        ensures never { result ≢ Err VerifyError.OutOfMemory }
    {
        let Ok(view) = MessageView::parse(octets) else {
            return Err(VerifyError::Decode);
        };
        match view.tsig() {
            None => Err(VerifyError::MissingTsig),
            Some(tsig) => Ok(SignedView {
                header: view.header(),
                tsig,
            }),
        }
    }
}
