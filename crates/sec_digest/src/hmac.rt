//! HMAC (RFC 2104), which takes its message in pieces.

ghost use Rattle.std.specs.Prelude.{◌≡◌, ℕ, ◌≤◌, ◌↔◌, List, [], ◌++◌, length, IsTrue};
ghost use Rattle.std.specs.Str.{bytes_eq};
ghost use Rattle.sec_digest.specs.declared.hmac.HmacHash.{HmacHash};
ghost use Rattle.sec_digest.specs.declared.hmac.HmacHash.TheVariants as hashes;
ghost use Rattle.sha2.specs.Sha256.{sha256};
ghost use Rattle.sha2.specs.Sha512.{sha384, sha512};
ghost use Rattle.sha2.specs.Hashers.{Holds256, Holds384, Holds512};
ghost use Rattle.sec_digest.specs.Mac.{mac_octets};
ghost use Rattle.sec_digest.specs.Hmac.{Feeds, HasTaken, mac_len, hmac, padded_key, inner_pad, outer_pad};

use crate::mac::{Mac, same_octets};
use sha2::{Digest, Sha256, Sha384, Sha512};

// The octets that ipad and opad repeat (RFC 2104, section 2).
const INNER_PAD: u8 = 0x36;

const OUTER_PAD: u8 = 0x5c;

/// The hash function of an HMAC.
#[derive(Clone, Copy, Debug, PartialEq, Eq)]
pub enum HmacHash {
    /// SHA-256: blocks of 64 octets, MACs of 32.
    Sha256,
    /// SHA-384: blocks of 128 octets, MACs of 48.
    Sha384,
    /// SHA-512: blocks of 128 octets, MACs of 64.
    Sha512,
}

impl HmacHash {
    /// The length in octets of a MAC under this hash function: 32, 48 or 64.
    pub fn output_len(self) -> usize
        ensures { result ≡ mac_len self }
    {
        match self {
            HmacHash::Sha256 => 32,
            HmacHash::Sha384 => 48,
            HmacHash::Sha512 => 64,
        }
    }
}

/// HMAC (RFC 2104) of a message that comes in pieces: `new`, an `update` for each piece, and
/// `finish` or `verify`. It takes no memory. Either block of the key is hashed once, by `new`.
///
/// Its contracts say by `Feeds` which hash function, key and message it stands for. A caller's loop
/// over pieces keeps `Feeds` with the pieces so far.
#[derive(Drop)]
pub struct Hmac {
    state: State,
}

#[derive(Drop)]
enum State {
    Sha256(Keyed<Sha256>),
    Sha384(Keyed<Sha384>),
    Sha512(Keyed<Sha512>),
}

// The hasher of the message and the hasher of its digest, each behind a block of the key.
#[derive(Drop)]
struct Keyed<D> {
    inner: D,
    outer: D,
}

// A key filled with zeros up to a block, each octet xor the pad.
fn padded_key<const N: usize>(key: &[u8], pad: u8) -> [u8; N]
    requires { length key.now ≤ N }
    ensures { result ≡ padded_key N key.now pad }
{
    let mut block = [pad; N];
    for i in 0..key.len() {
        block[i] = key[i] ^ pad;
    }
    block
}

impl<D: Digest> Keyed<D> {
    fn new<const N: usize>(key: &[u8]) -> Keyed<D>
        requires fits { length key.now ≤ N }
        requires block { N ≤ 128 }
        ensures inner { D.holds result.inner (padded_key N key.now inner_pad) }
        ensures outer { D.holds result.outer (padded_key N key.now outer_pad) }
    {
        let inner_block: [u8; N] = padded_key(key, INNER_PAD);
        let outer_block: [u8; N] = padded_key(key, OUTER_PAD);
        Keyed {
            inner: D::new_with_prefix(inner_block.as_slice()),
            outer: D::new_with_prefix(outer_block.as_slice()),
        }
    }
}

// One for each hash function, since a digest's octets are an array of its own length.
impl Keyed<Sha256> {
    fn finish_sha256(self) -> [u8; 32]
        ensures { (p q : List ℕ) → Holds256 self.inner p → Holds256 self.outer q → result ≡ sha256 (q ++ sha256 p) }
    {
        let digest = self.inner.finalize();
        self.outer.chain_update(digest.as_slice()).finalize()
    }
}

impl Keyed<Sha384> {
    fn finish_sha384(self) -> [u8; 48]
        ensures { (p q : List ℕ) → Holds384 self.inner p → Holds384 self.outer q → result ≡ sha384 (q ++ sha384 p) }
    {
        let digest = self.inner.finalize();
        self.outer.chain_update(digest.as_slice()).finalize()
    }
}

impl Keyed<Sha512> {
    fn finish_sha512(self) -> [u8; 64]
        ensures { (p q : List ℕ) → Holds512 self.inner p → Holds512 self.outer q → result ≡ sha512 (q ++ sha512 p) }
    {
        let digest = self.inner.finalize();
        self.outer.chain_update(digest.as_slice()).finalize()
    }
}

impl State {
    fn sha256(key: &[u8]) -> State
        ensures { HasTaken result hashes.Sha256 key.now [] }
    {
        if key.len() > 64 {
            let digest = Sha256::digest(key);
            State::Sha256(Keyed::new::<64>(&digest))
        } else {
            State::Sha256(Keyed::new::<64>(key))
        }
    }

    fn sha384(key: &[u8]) -> State
        ensures { HasTaken result hashes.Sha384 key.now [] }
    {
        if key.len() > 128 {
            let digest = Sha384::digest(key);
            State::Sha384(Keyed::new::<128>(&digest))
        } else {
            State::Sha384(Keyed::new::<128>(key))
        }
    }

    fn sha512(key: &[u8]) -> State
        ensures { HasTaken result hashes.Sha512 key.now [] }
    {
        if key.len() > 128 {
            let digest = Sha512::digest(key);
            State::Sha512(Keyed::new::<128>(&digest))
        } else {
            State::Sha512(Keyed::new::<128>(key))
        }
    }
}

impl Hmac {
    /// HMAC of the empty message, under a hash function and a key of any length.
    pub fn new(hash: HmacHash, key: &[u8]) -> Hmac
        ensures { Feeds result hash key.now [] }
    {
        let state = match hash {
            HmacHash::Sha256 => State::sha256(key),
            HmacHash::Sha384 => State::sha384(key),
            HmacHash::Sha512 => State::sha512(key),
        };
        Hmac { state }
    }

    /// Takes in more octets of the message.
    pub fn update(&mut self, octets: &[u8])
        ensures { (hash : HmacHash) (key message : List ℕ) → Feeds self.old hash key message
            → Feeds self.new hash key (message ++ octets.now) }
    {
        match &mut self.state {
            State::Sha256(keyed) => keyed.inner.update(octets),
            State::Sha384(keyed) => keyed.inner.update(octets),
            State::Sha512(keyed) => keyed.inner.update(octets),
        }
    }

    /// The MAC of the message.
    pub fn finish(self) -> Mac
        ensures value { (hash : HmacHash) (key message : List ℕ) → Feeds self hash key message
            → mac_octets result ≡ hmac hash key message }
        ensures len { (hash : HmacHash) (key message : List ℕ) → Feeds self hash key message
            → length (mac_octets result) ≡ mac_len hash }
    {
        match self.state {
            State::Sha256(keyed) => Mac::Sha256(keyed.finish_sha256()),
            State::Sha384(keyed) => Mac::Sha384(keyed.finish_sha384()),
            State::Sha512(keyed) => Mac::Sha512(keyed.finish_sha512()),
        }
    }

    /// Whether the tag is the whole MAC of the message: a part of the MAC isn't. It reads a tag of
    /// the right length to its end, so that the time doesn't tell where it is wrong.
    pub fn verify(self, tag: &[u8]) -> bool
        ensures answer { (hash : HmacHash) (key message : List ℕ) → Feeds self hash key message
            → result ≡ bytes_eq tag.now (hmac hash key message) }
        ensures whole { (hash : HmacHash) (key message : List ℕ) → Feeds self hash key message
            → (IsTrue result ↔ (tag.now ≡ hmac hash key message)) }
    {
        same_octets(tag, self.finish().as_slice())
    }
}
