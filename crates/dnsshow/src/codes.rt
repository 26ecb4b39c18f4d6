//! The calls on algorithms and keys.
ghost use Rattle.std.specs.Prelude.{◌≡◌, Some, IfOk};
ghost use Rattle.std.specs.String.{string_bytes};
ghost use Rattle.dns_text.specs.Words.{words};
ghost use Rattle.dns_wire.specs.Reading.{GivesUnless};
ghost use Rattle.dns_rows.specs.declared.refusal.Refusal.TheVariants.{OutOfMemory as no_memory};
ghost use Rattle.sec_codes.specs.DecodedKeys.{kind_of, key_of};
ghost use Rattle.sec_codes.specs.KeyForms.{rsa_parts};
ghost use Rattle.dnsshow.specs.CodeCalls.{algorithm_text, algorithm_answer, key_text, key_answer, code_calls};

use crate::digests;
use dns_rows::call_texts::yes_or_no;
use dns_rows::call_words::{octet_in, octets_in};
use dns_rows::{HexWord, Refusal};
use dns_text::{one_word, two_words};
use dns_wire::OutOfMemory;
use sec_codes::{Algorithm, DecodedKey, PublicKey, Rsa, decode_public_key};
use std::alloc::Global;

/// An algorithm's name, how many octets its digest has, and whether its keys are taken.
fn algorithm_text(alloc: Global, algorithm: Algorithm) -> Result<String, OutOfMemory>
    ensures { IfOk result (λ text. string_bytes text ≡ algorithm_text algorithm) }
{
    let supported = yes_or_no(algorithm.is_supported());
    match algorithm.hash_len() {
        Some(len) => Ok(format!(in alloc; "{algorithm} {len} {supported}")?),
        None => Ok(format!(in alloc; "{algorithm} - {supported}")?),
    }
}

/// `algorithm NUMBER`: its name, how many octets its digest has, and whether its keys are taken.
fn algorithm(alloc: Global, rest: &[u8]) -> Result<String, Refusal>
    ensures { GivesUnless no_memory (λ text. string_bytes text) result (algorithm_answer (words rest.now)) }
{
    let word = one_word(rest).ok_or(Refusal::NoCall)?;
    let number = octet_in(word)?;
    Ok(algorithm_text(alloc, Algorithm::from_u8(number))?)
}

/// The exponent and the modulus of a key of RSA.
#[tactic(auto, using(crate::proofs::KeyParts::both_parts))]
fn rsa_parts<'k>(key: &Rsa<'k>) -> (&'k [u8], &'k [u8])
    ensures { rsa_parts key.now.octets ≡ Some (result.0.now, result.1.now) }
{
    (key.e(), key.n())
}

/// The parts of a key.
fn key_text(alloc: Global, key: &DecodedKey<'_>) -> Result<String, Refusal>
    ensures { GivesUnless no_memory (λ text. string_bytes text) result
        (key_text (kind_of key.now) (key_of key.now).octets) }
{
    match key {
        DecodedKey::Ec(key) => Ok(format!(in alloc; "EC {}", HexWord(key.public_bytes()))?),
        DecodedKey::Ed(key) => Ok(format!(in alloc; "Ed25519 {}", HexWord(key.public_bytes()))?),
        DecodedKey::Rsa(key) => {
            let (e, n) = rsa_parts(key);
            Ok(format!(in alloc; "RSA {} {}", HexWord(e), HexWord(n))?)
        }
    }
}

/// `key ALGORITHM HEX`: the parts of a public key.
fn key(alloc: Global, rest: &[u8]) -> Result<String, Refusal>
    ensures { GivesUnless no_memory (λ text. string_bytes text) result (key_answer (words rest.now)) }
{
    let (number, octets) = two_words(rest).ok_or(Refusal::NoCall)?;
    let number = octet_in(number)?;
    let octets = octets_in(alloc, octets)?;
    let key = decode_public_key(&octets, Algorithm::from_u8(number))?;
    key_text(alloc, &key)
}

/// What the call of this word answers.
pub(crate) fn answer(alloc: Global, word: &[u8], rest: &[u8]) -> Result<String, Refusal>
    ensures { GivesUnless no_memory (λ text. string_bytes text) result (code_calls word.now (words rest.now)) }
{
    if word == b"algorithm".as_slice() {
        algorithm(alloc, rest)
    } else if word == b"key".as_slice() {
        key(alloc, rest)
    } else {
        digests::answer(alloc, word, rest)
    }
}
