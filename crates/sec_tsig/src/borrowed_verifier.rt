//! Checking answers by a chain that is the caller's.
ghost use Rattle.std.specs.Prelude.{◌≡◌, ◌≢◌, ◌<◌, ◌^◌, ℕ, true, length, nat_eq, if◌then◌else◌, Some, None, Ok, Err, IfOk};
ghost use Rattle.std.specs.Option.{ForSome, option_copied};
ghost use Rattle.dns_wire.specs.Reading.{Gives};
ghost use Rattle.dns_grammar.specs.Messages.{Message as message_of_octets, message_at};
ghost use Rattle.dns_rdata.specs.RDataTable.{rdata_table};
ghost use Rattle.dns_message.specs.Views.{header_view, tsig_view, IsPlaced, TsigViewFits};
ghost use Rattle.sec_tsig.specs.Notices.{step_notice, time_of_octets, notice_by, notice_error, notice_time, notice_with};
ghost use Rattle.sec_tsig.specs.Tsig.{IsCounted};
ghost use Rattle.sec_tsig.specs.Verdict.{is_in_time, signature_verdict, verdict};
ghost use Rattle.sec_tsig.specs.Views.{stepped};

use crate::borrowed_signer::BorrowedSigner;
use crate::message_check::window_of;
use crate::signed_view::SignedView;
use crate::tsig_step::TsigStep;
use crate::verify_error::VerifyError;
use dns_message::{Header, TsigView};
use dns_wire::BinDecoder;
use sec_sigdata::TsigError;
use std::marker::Model;

/// The time that octets are, where they are six.
fn time_of_octets(octets: &[u8]) -> Option<u64>
    ensures { result ≡ time_of_octets octets.now }
{
    if octets.len() != 6 {
        return None;
    }
    let mut decoder = BinDecoder::new(octets);
    match decoder.read_time_within(6) {
        Ok(time) => Some(time),
        Err(_) => None,
    }
}

/// The error and the server's time that a TSIG tells, which may be that of a first answer.
fn notice(first: bool, tsig: &TsigView<'_>) -> (u16, Option<u64>)
    ensures { result ≡ (notice_error first (Some (tsig_view tsig.now)), notice_time first (Some (tsig_view tsig.now))) }
{
    if !first {
        return (0, None);
    }
    if tsig.error == u16::from(TsigError::BadTime) {
        (tsig.error, time_of_octets(tsig.other))
    } else {
        (tsig.error, None)
    }
}

/// A request and the answers accepted so far, the signer and the last MAC borrowed: what checks the next
/// answer without memory. A contract sees it as a `TsigChain`.
#[derive(Drop)]
pub struct BorrowedVerifier<'a> {
    signer: BorrowedSigner<'a>,
    request_time: u64,
    mac: &'a [u8],
    time: u64,
    first: bool,
}

impl<'a> Model for BorrowedVerifier<'a> {
    ghost use Rattle.sec_tsig.specs.Tsig.{IsCounted};
    ghost use Rattle.sec_tsig.specs.Verdict.{TsigChain};

    ghost Value = { TsigChain };

    ghost view = { λ s. record {
      signer = s.signer;
      request_time = s.request_time;
      mac = s.mac.now;
      time = s.time;
      first = s.first;
    } };

    ghost invariant = { λ s. IsCounted s.mac.now };
}

impl<'a> BorrowedVerifier<'a> {
    /// A verifier of the next answer to a request that was sent at `request_time`, after an answer of this MAC that was
    /// signed at `time`; or of the first answer, after the MAC of the request.
    pub fn new(
        signer: BorrowedSigner<'a>,
        request_time: u64,
        mac: &'a [u8],
        time: u64,
        first: bool,
    ) -> BorrowedVerifier<'a>
        requires { IsCounted mac.now }
        ensures { result ≡ record {
          signer = signer.entry;
          request_time = request_time;
          mac = mac.now;
          time = time;
          first = first;
        } }
    {
        BorrowedVerifier {
            signer,
            request_time,
            mac,
            time,
            first,
        }
    }

    /// Whether a message was signed no earlier than the last one, and the request was sent within its window.
    fn is_in_time(&self, tsig: &TsigView<'_>) -> bool
        requires { TsigViewFits tsig.now }
        ensures { result ≡ is_in_time self.now (tsig_view tsig.now) }
    {
        let window = window_of(tsig);
        self.time <= tsig.time
            && window.start <= self.request_time
            && self.request_time < window.end
    }

    /// The verdict on a message with this TSIG.
    #[tactic(auto, unfolding(crate::specs::Verdict::signature_verdict))]
    fn signature_verdict(
        &self,
        octets: &[u8],
        header: &Header,
        tsig: &TsigView<'_>,
    ) -> Result<TsigStep, VerifyError>
        requires { IsPlaced octets.now header.now tsig.now }
        ensures exact { Gives (λ step. stepped self.now step) result
            (signature_verdict self.now octets.now (header_view header.now) (tsig_view tsig.now)) }
        ensures notice { IfOk result (λ step. step_notice step
            ≡ notice_with self.now.first (header_view header.now) (Some (tsig_view tsig.now))) }
        ensures never { result ≢ Err VerifyError.OutOfMemory }
    {
        let previous = Some(self.mac);
        let mac = self
            .signer
            .checked_mac(previous, self.first, octets, header, tsig)?;
        if !self.is_in_time(tsig) {
            return Err(VerifyError::Outdated);
        }
        if header.flags < 0x8000 {
            return Err(VerifyError::NotAResponse);
        }
        let (tsig_error, server_time) = notice(self.first, tsig);
        Ok(TsigStep {
            mac,
            time: tsig.time,
            tsig_error,
            server_time,
            rcode: header.flags % 16,
        })
    }

    /// The verdict on octets (RFC 8945 5.2 to 5.4): by what they would move the chain, which stays as it is, and what
    /// they tell. It takes no memory.
    ///
    /// # Errors
    ///
    /// `Decode` where the octets are no message, more than 65,535 octets among them; octets after the message are no
    /// fault. Then `MissingTsig`, `TsigWrongKey`, `TruncatedMac`, `HmacInvalid`, `Outdated` or `NotAResponse`, the first
    /// that holds. Never `OutOfMemory`.
    #[tactic(auto, using(crate::proofs::Judged::by_view))]
    pub fn verdict(&self, octets: &[u8]) -> Result<TsigStep, VerifyError>
        ensures verdict { Gives (λ step. stepped self.now step) result (verdict self.now octets.now) }
        ensures notice { IfOk result (λ step. (message : message_of_octets) (e : ℕ)
            → message_at rdata_table octets.now ≡ Ok (message, e) → step_notice step ≡ notice_by self.now.first message) }
        ensures never { result ≢ Err VerifyError.OutOfMemory }
    {
        match SignedView::parse(octets) {
            Ok(view) => self.signature_verdict(octets, &view.header, &view.tsig),
            Err(cause) => Err(cause),
        }
    }
}
