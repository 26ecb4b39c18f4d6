//! The algorithms of TSIG records (RFC 8945 6).
ghost use Rattle.std.specs.Prelude.{◌≡◌, ◌<◌, ◌≤◌, ◌↔◌, [], ◌∷◌, length, IsOk, Some, Ok};
ghost use Rattle.dns_names.specs.NameText.{name_text_without_dot};
ghost use Rattle.dns_wire.specs.Reading.{octets, place, Reads, GivesUnless};
ghost use Rattle.dns_names.specs.NameWriting.{name_octets};
ghost use Rattle.sec_sigdata.specs.TsigAlgorithms.{algorithm_name, algorithm_among, tsig_algorithm_named, algorithm_at};
ghost use Rattle.sec_sigdata.specs.TsigAlgorithms.{hash_of, supported, algorithm_with, mac_of, checked_mac};

use crate::error::DnsSecError;
use dns_names::{Label, Name, NameWithoutDot};
use dns_wire::{
    BinDecodable, BinDecoder, BinEncodable, DecodeError, EmitError, Form, OctetSink, Putting,
};
use sec_digest::{Hmac, HmacHash};
use std::alloc::Global;
use std::fmt;

/// An algorithm by which messages are signed, told by its name (RFC 8945 6). Names are told apart by their spelling,
/// the case of letters included.
///
/// Equality and hash are derived: the same variant, and for `Unknown` the same name, the case of letters aside.
#[derive(Clone, Copy, Debug, PartialEq, Eq, Hash)]
pub enum TsigAlgorithm {
    /// `HMAC-MD5.SIG-ALG.REG.INT`, which must not be used.
    HmacMd5,
    /// `gss-tsig` (RFC 3645).
    Gss,
    /// `hmac-sha1`.
    HmacSha1,
    /// `hmac-sha224`.
    HmacSha224,
    /// `hmac-sha256`.
    HmacSha256,
    /// `hmac-sha256-128`.
    HmacSha256_128,
    /// `hmac-sha384`.
    HmacSha384,
    /// `hmac-sha384-192`.
    HmacSha384_192,
    /// `hmac-sha512`.
    HmacSha512,
    /// `hmac-sha512-256`.
    HmacSha512_256,
    /// Any other name.
    Unknown(Name),
}

/// The algorithms that have a name of their own, those that are supported first.
const NAMED: [TsigAlgorithm; 10] = [
    TsigAlgorithm::HmacSha256,
    TsigAlgorithm::HmacSha384,
    TsigAlgorithm::HmacSha512,
    TsigAlgorithm::HmacMd5,
    TsigAlgorithm::Gss,
    TsigAlgorithm::HmacSha1,
    TsigAlgorithm::HmacSha224,
    TsigAlgorithm::HmacSha256_128,
    TsigAlgorithm::HmacSha384_192,
    TsigAlgorithm::HmacSha512_256,
];

/// These octets as a label.
fn label(octets: &[u8]) -> Label
    requires nonempty { 0 < length octets.now }
    requires at_most_63 { length octets.now ≤ 63 }
    ensures { result ≡ octets.now }
{
    let Ok(label) = Label::from_bytes(octets) else {
        unreachable!()
    };
    label
}

/// The name of one label.
fn name_of_label(octets: &[u8]) -> Name
    requires nonempty { 0 < length octets.now }
    requires at_most_63 { length octets.now ≤ 63 }
    ensures { result ≡ octets.now ∷ [] }
{
    let Ok(name) = Name::from_labels(&[label(octets)]) else {
        unreachable!()
    };
    name
}

/// The name of HMAC with MD5, of four labels.
fn md5_name() -> Name
    ensures { result ≡ algorithm_name TsigAlgorithm.HmacMd5 }
{
    let labels = [
        label(b"HMAC-MD5"),
        label(b"SIG-ALG"),
        label(b"REG"),
        label(b"INT"),
    ];
    let Ok(name) = Name::from_labels(&labels) else {
        unreachable!()
    };
    name
}

/// The first of some algorithms that has a name, its letters' case included, and else the unknown algorithm of that
/// name.
fn algorithm_among(algorithms: &[TsigAlgorithm], name: Name) -> TsigAlgorithm
    ensures { result ≡ algorithm_among algorithms.now name }
{
    'algorithms: for algorithm in algorithms {
        if algorithm.to_name().as_wire() == name.as_wire() {
            return *algorithm;
        }
    }
    TsigAlgorithm::Unknown(name)
}

impl TsigAlgorithm {
    /// The name of the algorithm.
    pub fn to_name(&self) -> Name
        ensures { result ≡ algorithm_name self.now }
    {
        match self {
            TsigAlgorithm::HmacMd5 => md5_name(),
            TsigAlgorithm::Gss => name_of_label(b"gss-tsig"),
            TsigAlgorithm::HmacSha1 => name_of_label(b"hmac-sha1"),
            TsigAlgorithm::HmacSha224 => name_of_label(b"hmac-sha224"),
            TsigAlgorithm::HmacSha256 => name_of_label(b"hmac-sha256"),
            TsigAlgorithm::HmacSha256_128 => name_of_label(b"hmac-sha256-128"),
            TsigAlgorithm::HmacSha384 => name_of_label(b"hmac-sha384"),
            TsigAlgorithm::HmacSha384_192 => name_of_label(b"hmac-sha384-192"),
            TsigAlgorithm::HmacSha512 => name_of_label(b"hmac-sha512"),
            TsigAlgorithm::HmacSha512_256 => name_of_label(b"hmac-sha512-256"),
            TsigAlgorithm::Unknown(name) => *name,
        }
    }

    /// The algorithm of a name, which must be spelled as the algorithm's, the case of letters included. Any other name
    /// is `Unknown`.
    pub fn from_name(name: Name) -> TsigAlgorithm
        ensures algorithm { result ≡ tsig_algorithm_named name }
        ensures name { algorithm_name result ≡ name }
    {
        algorithm_among(&NAMED, name)
    }

    /// The hash function of the algorithm's HMAC, where the algorithm is supported: SHA-256, SHA-384 or SHA-512, the
    /// MAC not cut.
    pub fn hmac_hash(&self) -> Option<HmacHash>
        ensures { result ≡ hash_of self.now }
    {
        match self {
            TsigAlgorithm::HmacSha256 => Some(HmacHash::Sha256),
            TsigAlgorithm::HmacSha384 => Some(HmacHash::Sha384),
            TsigAlgorithm::HmacSha512 => Some(HmacHash::Sha512),
            _ => None,
        }
    }

    /// Whether MACs of the algorithm can be made.
    pub fn supported(&self) -> bool
        ensures { result ≡ supported self.now }
    {
        self.hmac_hash().is_some()
    }

    /// The MAC of a message under a key: 32, 48 or 64 octets (RFC 2104).
    ///
    /// # Errors
    ///
    /// `TsigUnsupportedMacAlgorithm` where the algorithm is not supported, or `OutOfMemory`.
    pub fn mac_data(
        &self,
        alloc: Global,
        key: &[u8],
        message: &[u8],
    ) -> Result<Vec<u8>, DnsSecError>
        ensures { GivesUnless DnsSecError.OutOfMemory (λ mac. mac.items) result (mac_of self.now key.now message.now) }
    {
        let Some(hash) = self.hmac_hash() else {
            return Err(DnsSecError::TsigUnsupportedMacAlgorithm(*self));
        };
        let mut hasher = Hmac::new(hash, key);
        hasher.update(message);
        Ok(Vec::from_slice(alloc, hasher.finish().as_slice())?)
    }

    /// Whether a tag is the MAC of a message under a key. A part of the MAC is not.
    ///
    /// # Errors
    ///
    /// `TsigUnsupportedMacAlgorithm` where the algorithm is not supported, `HmacInvalid` where the tag is not the MAC.
    pub fn verify_mac(&self, key: &[u8], message: &[u8], tag: &[u8]) -> Result<(), DnsSecError>
        ensures exact { result ≡ checked_mac self.now key.now message.now tag.now }
        ensures whole { IsOk result ↔ (mac_of self.now key.now message.now ≡ Ok tag.now) }
    {
        let Some(hash) = self.hmac_hash() else {
            return Err(DnsSecError::TsigUnsupportedMacAlgorithm(*self));
        };
        let mut hasher = Hmac::new(hash, key);
        hasher.update(message);
        if hasher.verify(tag) {
            Ok(())
        } else {
            Err(DnsSecError::HmacInvalid)
        }
    }
}

/// The algorithm of HMAC with a hash function, the MAC not cut.
impl From<HmacHash> for TsigAlgorithm {
    ghost from_gives = { λ hash algorithm. algorithm ≡ algorithm_with hash };

    fn from(hash: HmacHash) -> TsigAlgorithm {
        match hash {
            HmacHash::Sha256 => TsigAlgorithm::HmacSha256,
            HmacHash::Sha384 => TsigAlgorithm::HmacSha384,
            HmacHash::Sha512 => TsigAlgorithm::HmacSha512,
        }
    }
}

impl Putting for TsigAlgorithm {
    ghost written = { λ canonical_form name_encoding a. Ok (name_octets name_encoding (algorithm_name a)) };

    /// Puts the name, in lower case where the name encoding says so.
    fn put<S: OctetSink>(&self, form: Form, sink: &mut S) -> Result<(), EmitError> {
        self.to_name().put(form, sink)
    }
}

impl BinEncodable for TsigAlgorithm {}

impl<'r> BinDecodable<'r> for TsigAlgorithm {
    ghost is_read = { λ old new result. Reads (λ a. a) result old new (algorithm_at (octets old) (place old)) };

    /// Reads a name.
    ///
    /// # Errors
    ///
    /// Those of `Name::read`.
    fn read(_alloc: Global, decoder: &mut BinDecoder<'r>) -> Result<TsigAlgorithm, DecodeError> {
        Ok(TsigAlgorithm::from_name(Name::read(decoder)?))
    }
}

/// The name without its last dot; the root is one dot.
impl fmt::Display for TsigAlgorithm {
    ghost output = { λ a. Some (name_text_without_dot (algorithm_name a)) };

    fn fmt<W: fmt::Write>(&self, f: &mut fmt::Formatter<W>) -> fmt::Result {
        write!(f, "{}", NameWithoutDot(&self.to_name()))
    }
}
