//! DNSKEY and DS data read from text (RFC 4034 2.2, 5.3).
ghost use Rattle.std.specs.Prelude.{◌≡◌, ◌^◌, Some};
ghost use Rattle.dns_text.specs.Words.{words};
ghost use Rattle.dns_wire.specs.Reading.{Gives, GivesUnless};
ghost use Rattle.sec_keydata.specs.DsData.{ds_data};
ghost use Rattle.sec_keydata.specs.DnsKeys.{dnskey_data};
ghost use Rattle.sec_keydata.specs.Tokens.{first_word, joined_words, number_in, base64_octets, hex_octets};
ghost use Rattle.sec_keydata.specs.Tokens.{algorithm_in, token_dnskey, token_ds};

use crate::dnskey::DNSKEY;
use crate::ds::DS;
use crate::mnemonics::algorithm_named;
use crate::token_error::{TokenError, TokenField};
use base64::DecodeAllocError;
use base64::engine::general_purpose::STANDARD;
use dns_text::{number_below, split_word};
use hex::FromHexError;
use sec_codes::{Algorithm, PublicKeyBuf};
use sec_digest::DigestType;
use std::alloc::Global;

impl DNSKEY {
    /// Reads flags, protocol, algorithm number and a key in base64, as a DNSKEY prints them (RFC 4034 2.2). Words are
    /// separated by spaces and tabs, and the key may stand in several. Numbers may have leading zeros.
    ///
    /// # Errors
    ///
    /// The first of these: `Missing` for flags, protocol, algorithm; `BadNumber` for the flags, the protocol;
    /// `ProtocolNot3`; `BadNumber` for the algorithm; `Missing(PublicKey)`; `BadBase64` where the words of the key,
    /// joined, are not just what the encoder gives for the octets that they decode to. `OutOfMemory` may come in place
    /// of any answer.
    pub fn from_tokens(alloc: Global, text: &str) -> Result<DNSKEY, TokenError>
        ensures { GivesUnless TokenError.OutOfMemory dnskey_data result (token_dnskey text.now) }
    {
        let (flags, rest) = first_word(text.as_bytes(), TokenField::Flags)?;
        let (protocol, rest) = first_word(rest, TokenField::Protocol)?;
        let (algorithm, rest) = first_word(rest, TokenField::Algorithm)?;
        let flags = two_octet_number(flags)?;
        if one_octet_number(protocol)? != 3 {
            return Err(TokenError::ProtocolNot3);
        }
        let algorithm = Algorithm::from_u8(one_octet_number(algorithm)?);
        let joined = joined_words(alloc, rest, TokenField::PublicKey)?;
        let octets = base64_octets(alloc, &joined)?;
        Ok(DNSKEY::with_flags(flags, PublicKeyBuf::new(octets, algorithm)))
    }
}

impl DS {
    /// Reads key tag, algorithm, digest type and a digest in hexadecimal (RFC 4034 5.3). Words are separated by spaces
    /// and tabs, and the digest may stand in several. Numbers may have leading zeros. The algorithm is a number, or a
    /// mnemonic of RFC 4034 appendix A.1 in upper case. The octets of the digest's words, joined, are taken in pairs,
    /// and a single one left at the end is dropped.
    ///
    /// # Errors
    ///
    /// The first of these: `Missing` for key tag, algorithm, digest type; `BadNumber` for the key tag, the algorithm,
    /// the digest type; `Missing(Digest)`; `BadHex` where a pair isn't two hexadecimal digits. `OutOfMemory` may come
    /// in place of any answer.
    pub fn from_tokens(alloc: Global, text: &str) -> Result<DS, TokenError>
        ensures { GivesUnless TokenError.OutOfMemory ds_data result (token_ds text.now) }
    {
        let (key_tag, rest) = first_word(text.as_bytes(), TokenField::KeyTag)?;
        let (algorithm, rest) = first_word(rest, TokenField::Algorithm)?;
        let (digest_type, rest) = first_word(rest, TokenField::DigestType)?;
        let key_tag = two_octet_number(key_tag)?;
        let algorithm = algorithm_in(algorithm)?;
        let digest_type = DigestType::from(one_octet_number(digest_type)?);
        let joined = joined_words(alloc, rest, TokenField::Digest)?;
        let digest = hex_octets(alloc, &joined)?;
        Ok(DS::new(key_tag, algorithm, digest_type, digest))
    }
}

/// The first word of a line, and what stands behind it.
fn first_word(line: &[u8], field: TokenField) -> Result<(&[u8], &[u8]), TokenError>
    ensures { Gives (λ found. (found.0.now, words found.1.now)) result (first_word field (words line.now)) }
{
    match split_word(line) {
        Some(found) => Ok(found),
        None => Err(TokenError::Missing(field)),
    }
}

/// The words of a line, joined.
fn joined_words(alloc: Global, line: &[u8], field: TokenField) -> Result<Vec<u8>, TokenError>
    ensures { GivesUnless TokenError.OutOfMemory (λ joined. joined.items) result (joined_words field (words line.now)) }
{
    let (word, mut line) = first_word(line, field)?;
    let mut joined = Vec::from_slice(alloc, word)?;
    'words: while let Some((word, rest)) = split_word(line) {
        joined.extend_from_slice(word)?;
        line = rest;
    }
    Ok(joined)
}

/// The number that a word writes, in two octets.
fn two_octet_number(word: &[u8]) -> Result<u16, TokenError>
    ensures { result ≡ number_in (2 ^ 16) word.now }
{
    match number_below(1 << 16, word) {
        Some(number) => Ok(number as u16),
        None => Err(TokenError::BadNumber),
    }
}

/// The number that a word writes, in one octet.
fn one_octet_number(word: &[u8]) -> Result<u8, TokenError>
    ensures { result ≡ number_in (2 ^ 8) word.now }
{
    match number_below(1 << 8, word) {
        Some(number) => Ok(number as u8),
        None => Err(TokenError::BadNumber),
    }
}

/// The algorithm that a word names by its mnemonic, or by its number.
fn algorithm_in(word: &[u8]) -> Result<Algorithm, TokenError>
    ensures { result ≡ algorithm_in word.now }
{
    match algorithm_named(word) {
        Some(algorithm) => Ok(algorithm),
        None => Ok(Algorithm::from_u8(one_octet_number(word)?)),
    }
}

/// The octets whose base64 a text is.
fn base64_octets(alloc: Global, text: &[u8]) -> Result<Vec<u8>, TokenError>
    ensures { GivesUnless TokenError.OutOfMemory (λ octets. octets.items) result (base64_octets text.now) }
{
    match STANDARD.decode(alloc, text) {
        Ok(octets) => Ok(octets),
        Err(DecodeAllocError::OutOfMemory) => Err(TokenError::OutOfMemory),
        Err(DecodeAllocError::DecodeError(_)) => Err(TokenError::BadBase64),
    }
}

/// The octets that the pairs of a text write in hexadecimal digits.
fn hex_octets(alloc: Global, text: &[u8]) -> Result<Vec<u8>, TokenError>
    ensures { GivesUnless TokenError.OutOfMemory (λ octets. octets.items) result (hex_octets text.now) }
{
    match hex::decode(alloc, &text[..text.len() / 2 * 2]) {
        Ok(octets) => Ok(octets),
        Err(FromHexError::OutOfMemory) => Err(TokenError::OutOfMemory),
        Err(_) => Err(TokenError::BadHex),
    }
}
