//! The TSIG records of the answers.
ghost use Rattle.std.specs.Prelude.{◌≡◌, ◌<◌, ◌^◌, true, false, length, IfOk};
ghost use Rattle.sec_tsig.specs.Tsig.{tsig_record};
ghost use Rattle.dns_demo.specs.Demo.{answer_record, with_mac_turned_if};

use crate::flipping::flip_last_bit_if;
use crate::parts::{ID, TIME};
use dns_message::Record;
use dns_wire::OutOfMemory;
use sec_sigdata::TSIG;
use sec_tsig::{TSigResponseContext, TSigner, TsigSignError};
use std::alloc::Global;

/// The record that signs a first answer.
#[tactic(auto, unfolding(crate::specs::Demo::answer_record), using(crate::proofs::Steps::only, crate::proofs::Steps::only_answers))]
fn first_record(
    alloc: Global,
    signer: &TSigner,
    mac: &[u8],
    octets: &[u8],
) -> Result<Record<TSIG>, OutOfMemory>
    requires { length mac.now < 2 ^ 16 }
    ensures { IfOk result (λ rr. tsig_record rr ≡ answer_record signer.now mac.now true octets.now) }
{
    let mac = Vec::from_slice(alloc, mac)?;
    let context = TSigResponseContext::new(ID, TIME, signer.try_clone()?, mac, None);
    match context.sign(octets) {
        Ok(rr) => Ok(rr),
        Err(TsigSignError::OutOfMemory) => Err(OutOfMemory),
        Err(_) => unreachable!(),
    }
}

/// The record that signs a later answer.
#[tactic(auto, unfolding(crate::specs::Demo::answer_record), using(crate::proofs::Steps::only, crate::proofs::Steps::only_answers))]
fn later_record(signer: &TSigner, mac: &[u8], octets: &[u8]) -> Result<Record<TSIG>, OutOfMemory>
    requires { length mac.now < 2 ^ 16 }
    ensures { IfOk result (λ rr. tsig_record rr ≡ answer_record signer.now mac.now false octets.now) }
{
    match signer.sign_later(mac, octets, ID, TIME) {
        Ok(rr) => Ok(rr),
        Err(TsigSignError::OutOfMemory) => Err(OutOfMemory),
        Err(_) => unreachable!(),
    }
}

/// The record that signs an answer behind a MAC.
pub(crate) fn answer_record(
    alloc: Global,
    signer: &TSigner,
    mac: &[u8],
    is_first: bool,
    octets: &[u8],
) -> Result<Record<TSIG>, OutOfMemory>
    requires { length mac.now < 2 ^ 16 }
    ensures { IfOk result (λ rr. tsig_record rr ≡ answer_record signer.now mac.now is_first octets.now) }
{
    if is_first {
        first_record(alloc, signer, mac, octets)
    } else {
        later_record(signer, mac, octets)
    }
}

/// The record with its MAC turned or not.
pub(crate) fn turn_mac_if(turned: bool, mut rr: Record<TSIG>) -> Record<TSIG>
    ensures { tsig_record result ≡ with_mac_turned_if turned (tsig_record rr) }
{
    flip_last_bit_if(turned, &mut rr.rdata.mac);
    rr
}
