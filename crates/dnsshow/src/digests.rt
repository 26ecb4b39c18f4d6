//! The calls on digests.
ghost use Rattle.std.specs.String.{string_bytes};
ghost use Rattle.dns_text.specs.Words.{words};
ghost use Rattle.dns_wire.specs.Reading.{GivesUnless};
ghost use Rattle.dns_rows.specs.declared.refusal.Refusal.TheVariants.{OutOfMemory as no_memory};
ghost use Rattle.dnsshow.specs.DigestCalls.{hash_answer, mac_answer, nsec3_answer, digest_calls};

use crate::texts;
use dns_rows::call_words::{name_in, octet_in, octets_in, two_octets_in};
use dns_rows::{HexWord, Refusal};
use dns_text::{three_words, two_words};
use sec_digest::{Base32Text, Digest, DigestType, Nsec3HashAlgorithm};
use sec_sigdata::TsigAlgorithm;
use std::alloc::Global;

/// `hash NUMBER HEX`: the digest of octets by the digest type of this number.
fn hash(alloc: Global, rest: &[u8]) -> Result<String, Refusal>
    ensures { GivesUnless no_memory (λ text. string_bytes text) result (hash_answer (words rest.now)) }
{
    let (number, octets) = two_words(rest).ok_or(Refusal::NoCall)?;
    let number = octet_in(number)?;
    let octets = octets_in(alloc, octets)?;
    let digest = Digest::new(&octets, DigestType::from(number))?;
    Ok(HexWord(digest.as_slice()).to_string(alloc)?)
}

/// `mac ALGORITHM KEY HEX`: the MAC of octets under a key.
fn mac(alloc: Global, rest: &[u8]) -> Result<String, Refusal>
    ensures { GivesUnless no_memory (λ text. string_bytes text) result (mac_answer (words rest.now)) }
{
    let (algorithm, key, message) = three_words(rest).ok_or(Refusal::NoCall)?;
    let algorithm = TsigAlgorithm::from_name(name_in(algorithm)?);
    let key = octets_in(alloc, key)?;
    let message = octets_in(alloc, message)?;
    let mac = algorithm.mac_data(alloc, &key, &message)?;
    Ok(HexWord(&mac).to_string(alloc)?)
}

/// `nsec3 NAME SALT N`: the hash of a name, with so many iterations more.
fn nsec3(alloc: Global, rest: &[u8]) -> Result<String, Refusal>
    ensures { GivesUnless no_memory (λ text. string_bytes text) result (nsec3_answer (words rest.now)) }
{
    let (name, salt, iterations) = three_words(rest).ok_or(Refusal::NoCall)?;
    let name = name_in(name)?;
    let salt = octets_in(alloc, salt)?;
    let iterations = two_octets_in(iterations)?;
    let hash = Nsec3HashAlgorithm::SHA1.hash(&salt, &name, iterations);
    Ok(Base32Text(hash.as_slice()).to_string(alloc)?)
}

/// What the call of this word answers.
pub(crate) fn answer(alloc: Global, word: &[u8], rest: &[u8]) -> Result<String, Refusal>
    ensures { GivesUnless no_memory (λ text. string_bytes text) result (digest_calls word.now (words rest.now)) }
{
    if word == b"hash".as_slice() {
        hash(alloc, rest)
    } else if word == b"mac".as_slice() {
        mac(alloc, rest)
    } else if word == b"nsec3".as_slice() {
        nsec3(alloc, rest)
    } else {
        texts::answer(alloc, word, rest)
    }
}
