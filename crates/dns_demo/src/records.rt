//! The records of an answer.
ghost use Rattle.std.specs.Prelude.{◌≡◌, map, IfOk, IsOk};
ghost use Rattle.std.specs.List.{AllByRecursion};
ghost use Rattle.sec_digest.specs.declared.hmac.HmacHash.TheVariants.{Sha256};
ghost use Rattle.sec_digest.specs.Hmac.{hmac};
ghost use Rattle.dns_types.specs.ClassNumbers as classes;
ghost use Rattle.sec_sign.specs.Signed.{signed};
ghost use Rattle.dns_message.specs.Parts.{record_view};
ghost use Rattle.dns_demo.specs.Demo.{address, owner, records_under, rrsig, signature, signature_fields, signed_set};
ghost use Rattle.dns_demo.specs.Demo.{zone_key, IsOfTable};
ghost use Rattle.dns_demo.specs.Demo.{owner as owner_of};

use crate::flipping::flip_last_bit_if;
use crate::messages::{label, name, zone};
use dns_message::Record;
use dns_names::Name;
use dns_rdata::{DNSSECRData, RData};
use dns_types::{DNSClass, RecordType};
use dns_wire::{OutOfMemory, SerialNumber};
use sec_codes::Algorithm;
use sec_sigdata::{DnsSecError, RRSIG, SigInput};
use sec_sign::{KeyedHashKey, SigningKey, TBS, TbsError};
use std::alloc::Global;

/// The octets of the key of the zone.
const ZONE_KEY: [u8; 32] = [1; 32];

/// How long the records may be kept, in seconds.
const TTL: u32 = 3600;

/// The owner of the records of an answer.
#[tactic(auto, unfolding(crate::specs::Demo::owner), using(crate::proofs::Sets::owner_fits))]
pub(crate) fn owner(alloc: Global, number: u16) -> Result<Name, OutOfMemory>
    ensures { IfOk result (λ name. name ≡ owner number) }
{
    let host = format!(in alloc; "h{number}")?;
    Ok(name(&[label(host.as_bytes()), label(b"example")]))
}

/// The address of an answer.
fn address(owner: Name, number: u16) -> Record<RData>
    ensures { result ≡ address owner number }
{
    let octets = [10, 0, (number / 256) as u8, (number % 256) as u8];
    Record::from_rdata(owner, TTL, RData::A(octets))
}

/// The fields of an RRSIG before the signature.
#[tactic(auto, unfolding(crate::specs::Demo::signature_fields))]
fn signature_fields() -> SigInput
    ensures { result ≡ signature_fields }
{
    SigInput {
        type_covered: RecordType::A,
        algorithm: Algorithm::ED25519,
        num_labels: 2,
        original_ttl: TTL,
        sig_expiration: SerialNumber(2_000_000),
        sig_inception: SerialNumber(500_000),
        key_tag: 5151,
        signer_name: zone(),
    }
}

/// The octets that are signed for a set.
#[tactic(auto, unfolding(crate::specs::Demo::signed_set), using(crate::proofs::Refusals::refuses_nothing))]
fn signed_set(
    alloc: Global,
    input: &SigInput,
    owner: &Name,
    records: &[Record<RData>],
) -> Result<TBS, OutOfMemory>
    requires { IsOk (signed input.now owner.now classes.IN records.now) }
    ensures { IfOk result (λ tbs. tbs ≡ signed_set input.now owner.now records.now) }
{
    match TBS::from_input(alloc, owner, DNSClass::IN, input, records) {
        Ok(tbs) => Ok(tbs),
        Err(TbsError::OutOfMemory) => Err(OutOfMemory),
        Err(_) => unreachable!(),
    }
}

/// The signature of octets under the key of the zone.
#[tactic(auto, unfolding(crate::specs::Demo::zone_key), using(crate::proofs::Steps::hash_is))]
fn keyed_hash(alloc: Global, tbs: &TBS) -> Result<Vec<u8>, OutOfMemory>
    ensures { IfOk result (λ octets. octets.items ≡ hmac Sha256 zone_key tbs.now) }
{
    let key = KeyedHashKey::new(alloc, Algorithm::ED25519, &ZONE_KEY)?;
    match key.sign(tbs) {
        Ok(signature) => Ok(signature),
        Err(DnsSecError::OutOfMemory) => Err(OutOfMemory),
        Err(_) => unreachable!(),
    }
}

/// The signature of a set of an answer.
fn signature(
    alloc: Global,
    number: u16,
    input: &SigInput,
    owner: &Name,
    records: &[Record<RData>],
) -> Result<Vec<u8>, OutOfMemory>
    requires fields { input.now ≡ signature_fields }
    requires signable { IsOk (signed input.now owner.now classes.IN records.now) }
    ensures { IfOk result (λ octets. octets.items ≡ signature number owner.now records.now) }
{
    let tbs = signed_set(alloc, input, owner, records)?;
    let mut octets = keyed_hash(alloc, &tbs)?;
    flip_last_bit_if(number % 4 == 2, &mut octets);
    Ok(octets)
}

/// The RRSIG of a set of an answer.
fn rrsig(
    alloc: Global,
    number: u16,
    owner: Name,
    records: &[Record<RData>],
) -> Result<Record<RData>, OutOfMemory>
    requires { IsOk (signed signature_fields owner classes.IN records.now) }
    ensures view { IfOk result (λ rr. record_view rr ≡ rrsig owner (signature number owner records.now)) }
    ensures row { IfOk result IsOfTable }
{
    let input = signature_fields();
    let octets = signature(alloc, number, &input, &owner, records)?;
    let rrsig = RRSIG::from_sig(input, octets);
    Ok(Record::from_rdata(owner, TTL, RData::DNSSEC(DNSSECRData::RRSIG(rrsig))))
}

/// The records of an answer under its owner.
#[tactic(auto, using(crate::proofs::Sets::can_be_signed))]
pub(crate) fn records_under(
    alloc: Global,
    owner: Name,
    number: u16,
) -> Result<Vec<Record<RData>>, OutOfMemory>
    requires { owner ≡ owner_of number }
    ensures views { IfOk result (λ records. map record_view records.items ≡ records_under owner number) }
    ensures rows { IfOk result (λ records. AllByRecursion IsOfTable records.items) }
{
    let mut records = Vec::new(alloc);
    records.push(address(owner, number))?;
    if number % 4 == 3 {
        return Ok(records);
    }
    let signature = rrsig(alloc, number, owner, records.as_slice())?;
    records.push(signature)?;
    Ok(records)
}
