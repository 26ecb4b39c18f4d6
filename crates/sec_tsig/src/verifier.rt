//! Checking the answers to a signed request.
ghost use Rattle.std.specs.Prelude.{◌≡◌, ◌≢◌, ℕ, true, Ok, Err, IfOk};
ghost use Rattle.dns_wire.specs.Reading.{Gives};
ghost use Rattle.dns_grammar.specs.Messages.{Message as message_of_octets, message_at};
ghost use Rattle.dns_rdata.specs.RDataTable.{rdata_table};
ghost use Rattle.sec_digest.specs.Mac.{mac_octets};
ghost use Rattle.sec_tsig.specs.Notices.{step_notice, notice_by};
ghost use Rattle.sec_tsig.specs.Views.{stepped, IsResponseOf, MovesChain, MovesChainUnless};
ghost use Rattle.sec_tsig.specs.Verdict.{verdict};

use crate::borrowed_verifier::BorrowedVerifier;
use crate::signer::TSigner;
use crate::tsig_step::TsigStep;
use crate::verify_error::VerifyError;
use dns_message::DnsResponse;
use sec_digest::Mac;
use std::marker::Model;

/// Checks the answers to a signed request, one after the other: who signs, the time of the request, the last MAC, the
/// last time signed, and whether the next answer is the first. A contract sees it as a `TsigChain`.
#[derive(Debug, Drop)]
pub struct TSigVerifier {
    signer: TSigner,
    request_time: u64,
    mac: Mac,
    time: u64,
    first: bool,
}

impl Model for TSigVerifier {
    ghost use Rattle.sec_tsig.specs.Verdict.{TsigChain};
    ghost use Rattle.sec_digest.specs.Mac.{mac_octets};

    ghost Value = { TsigChain };

    ghost view = { λ s. record {
      signer = s.signer;
      request_time = s.request_time;
      mac = mac_octets s.mac;
      time = s.time;
      first = s.first;
    } };
}

impl TSigVerifier {
    /// A verifier of the first answer to a request with this MAC.
    pub(crate) fn new(signer: TSigner, request_time: u64, mac: Mac) -> TSigVerifier
        ensures { result ≡ record {
          signer = signer;
          request_time = request_time;
          mac = mac_octets mac;
          time = 0;
          first = true;
        } }
    {
        TSigVerifier {
            signer,
            request_time,
            mac,
            time: 0,
            first: true,
        }
    }

    /// Whether the next answer is the first.
    pub fn is_first(&self) -> bool
        ensures { result ≡ self.now.first }
    {
        self.first
    }

    /// The chain, its signer and its MAC borrowed.
    fn borrowed(&self) -> BorrowedVerifier<'_>
        ensures { result ≡ self.now }
    {
        BorrowedVerifier::new(
            self.signer.borrowed(),
            self.request_time,
            self.mac.as_slice(),
            self.time,
            self.first,
        )
    }

    /// The verdict on octets (RFC 8945 5.2 to 5.4): by what they would move the chain, which stays as it is, and what
    /// they tell. It takes no memory.
    ///
    /// # Errors
    ///
    /// Those of `BorrowedVerifier::verdict`. Never `OutOfMemory`.
    pub fn verdict(&self, octets: &[u8]) -> Result<TsigStep, VerifyError>
        ensures verdict { Gives (λ step. stepped self.now step) result (verdict self.now octets.now) }
        ensures notice { IfOk result (λ step. (message : message_of_octets) (e : ℕ)
            → message_at rdata_table octets.now ≡ Ok (message, e) → step_notice step ≡ notice_by self.now.first message) }
        ensures never { result ≢ Err VerifyError.OutOfMemory }
    {
        self.borrowed().verdict(octets)
    }

    /// Moves the chain after an answer on which the verdict gave this step.
    pub fn advance(&mut self, step: TsigStep)
        ensures { self.new ≡ stepped self.old step }
    {
        self.mac = step.mac;
        self.time = step.time;
        self.first = false;
    }

    /// Checks the next answer (RFC 8945 5.2 to 5.4), and moves the chain after it where it is accepted. It takes no
    /// memory.
    ///
    /// # Errors
    ///
    /// Those of `verdict`. The chain then stays as it was.
    pub fn check(&mut self, response_bytes: &[u8]) -> Result<(), VerifyError>
        ensures verdict { MovesChain result self.old self.new (verdict self.old response_bytes.now) }
        ensures never { result ≢ Err VerifyError.OutOfMemory }
    {
        let step = self.verdict(response_bytes)?;
        self.advance(step);
        Ok(())
    }

    /// Checks the next answer (RFC 8945 5.2 to 5.4), reads it, and moves the chain after it where it is accepted.
    ///
    /// # Errors
    ///
    /// Those of `verdict`, or `OutOfMemory`. The chain then stays as it was.
    #[tactic(auto, using(crate::proofs::Accepted::exits))]
    pub fn verify(&mut self, response_bytes: &[u8]) -> Result<DnsResponse, VerifyError>
        ensures verdict { MovesChainUnless result self.old self.new (verdict self.old response_bytes.now) }
        ensures response { IfOk result (IsResponseOf response_bytes.now) }
    {
        let next = self.verdict(response_bytes)?;
        let Ok(buffer) = Vec::from_slice(self.signer.alloc(), response_bytes) else {
            return Err(VerifyError::OutOfMemory);
        };
        match DnsResponse::from_buffer(buffer) {
            Ok(response) => {
                self.advance(next);
                Ok(response)
            }
            Err(cause) => Err(cause.into()),
        }
    }
}
