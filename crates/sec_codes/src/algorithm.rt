//! The algorithms of keys and signatures (RFC 4034 appendix A.1).
ghost use Rattle.std.specs.Prelude.{◌≡◌, ◌∷◌, [], length, Some, Ok};

use dns_wire::{
    BinDecodable, BinDecoder, BinEncodable, DecodeError, EmitError, Form, OctetSink, Putting,
    put_u8,
};
use std::alloc::Global;
use std::fmt;

/// An algorithm of keys and signatures. The order is that of the numbers, with `Unknown` last, by its number.
#[derive(Clone, Copy, Debug, PartialEq, Eq, PartialOrd, Ord, Hash)]
pub enum Algorithm {
    /// RSA with MD5, which must not be used (RFC 6944).
    RSAMD5,
    /// DSA with SHA-1 (RFC 2536).
    DSA,
    /// RSA with SHA-1 (RFC 3110).
    RSASHA1,
    /// RSA with SHA-1, in zones that have NSEC3 records (RFC 5155).
    RSASHA1NSEC3SHA1,
    /// RSA with SHA-256 (RFC 5702).
    RSASHA256,
    /// RSA with SHA-512 (RFC 5702).
    RSASHA512,
    /// ECDSA over P-256 with SHA-256 (RFC 6605).
    ECDSAP256SHA256,
    /// ECDSA over P-384 with SHA-384 (RFC 6605).
    ECDSAP384SHA384,
    /// Ed25519 (RFC 8080).
    ED25519,
    /// An algorithm that is not known, by its number.
    Unknown(u8),
}

impl Algorithm {
    ghost use Rattle.sec_codes.specs.Algorithms.{number, text, hash_len, supported, algorithm_numbered};

    /// The algorithm of a number.
    pub fn from_u8(value: u8) -> Algorithm
        ensures algorithm { result ≡ algorithm_numbered value }
        ensures number { number result ≡ value }
    {
        match value {
            1 => Algorithm::RSAMD5,
            3 => Algorithm::DSA,
            5 => Algorithm::RSASHA1,
            7 => Algorithm::RSASHA1NSEC3SHA1,
            8 => Algorithm::RSASHA256,
            10 => Algorithm::RSASHA512,
            13 => Algorithm::ECDSAP256SHA256,
            14 => Algorithm::ECDSAP384SHA384,
            15 => Algorithm::ED25519,
            _ => Algorithm::Unknown(value),
        }
    }

    /// Whether keys of this algorithm are taken.
    pub fn is_supported(&self) -> bool
        ensures { result ≡ supported self.now }
    {
        !matches!(
            self,
            Algorithm::RSAMD5 | Algorithm::DSA | Algorithm::Unknown(_)
        )
    }

    /// How many octets the algorithm's digest has. `None` for an algorithm that is not known.
    pub fn hash_len(self) -> Option<usize>
        ensures { result ≡ hash_len self }
    {
        match self {
            Algorithm::RSAMD5 => Some(16),
            Algorithm::DSA | Algorithm::RSASHA1 | Algorithm::RSASHA1NSEC3SHA1 => Some(20),
            Algorithm::RSASHA256 | Algorithm::ECDSAP256SHA256 | Algorithm::ED25519 => Some(32),
            Algorithm::ECDSAP384SHA384 => Some(48),
            Algorithm::RSASHA512 => Some(64),
            Algorithm::Unknown(_) => None,
        }
    }

    /// The name of the algorithm (IANA, DNS Security Algorithm Numbers), and `Unknown` for one that is not known.
    pub fn as_str(self) -> &'static str
        ensures { result.now ≡ text self }
    {
        match self {
            Algorithm::RSAMD5 => "RSAMD5",
            Algorithm::DSA => "DSA",
            Algorithm::RSASHA1 => "RSASHA1",
            Algorithm::RSASHA1NSEC3SHA1 => "RSASHA1-NSEC3-SHA1",
            Algorithm::RSASHA256 => "RSASHA256",
            Algorithm::RSASHA512 => "RSASHA512",
            Algorithm::ECDSAP256SHA256 => "ECDSAP256SHA256",
            Algorithm::ECDSAP384SHA384 => "ECDSAP384SHA384",
            Algorithm::ED25519 => "ED25519",
            Algorithm::Unknown(_) => "Unknown",
        }
    }

    /// The name of the algorithm, as `as_str`.
    pub fn to_str(self) -> &'static str
        ensures { result.now ≡ text self }
    {
        self.as_str()
    }
}

impl From<Algorithm> for u8 {
    ghost use Rattle.std.specs.Prelude.{◌≡◌};
    ghost use Rattle.sec_codes.specs.Algorithms.{number};

    ghost from_gives = { λ a n. n ≡ number a };

    fn from(algorithm: Algorithm) -> u8 {
        match algorithm {
            Algorithm::RSAMD5 => 1,
            Algorithm::DSA => 3,
            Algorithm::RSASHA1 => 5,
            Algorithm::RSASHA1NSEC3SHA1 => 7,
            Algorithm::RSASHA256 => 8,
            Algorithm::RSASHA512 => 10,
            Algorithm::ECDSAP256SHA256 => 13,
            Algorithm::ECDSAP384SHA384 => 14,
            Algorithm::ED25519 => 15,
            Algorithm::Unknown(number) => number,
        }
    }
}

impl From<Algorithm> for &'static str {
    ghost use Rattle.std.specs.Prelude.{◌≡◌};
    ghost use Rattle.sec_codes.specs.Algorithms.{text};

    ghost from_gives = { λ a s. s.now ≡ text a };

    fn from(algorithm: Algorithm) -> &'static str {
        algorithm.as_str()
    }
}

impl fmt::Display for Algorithm {
    ghost use Rattle.std.specs.Prelude.{Some};
    ghost use Rattle.sec_codes.specs.Algorithms.{text};

    ghost output = { λ a. Some (text a) };

    fn fmt<W: fmt::Write>(&self, f: &mut fmt::Formatter<W>) -> fmt::Result {
        f.write_str(self.as_str())
    }
}

impl Putting for Algorithm {
    ghost use Rattle.std.specs.Prelude.{Ok, ◌∷◌, []};
    ghost use Rattle.sec_codes.specs.Algorithms.{number};

    ghost written = { λ canonical_form name_encoding a. Ok (number a ∷ []) };

    fn put<S: OctetSink>(&self, form: Form, sink: &mut S) -> Result<(), EmitError> {
        put_u8(sink, u8::from(*self));
        Ok(())
    }
}

impl BinEncodable for Algorithm {}

impl<'r> BinDecodable<'r> for Algorithm {
    ghost use Rattle.dns_wire.specs.Reading.{Reads, octets, place};
    ghost use Rattle.sec_codes.specs.Algorithms.{algorithm_at};

    ghost is_read = { λ old new result. Reads (λ a. a) result old new (algorithm_at (octets old) (place old)) };

    fn read(_alloc: Global, decoder: &mut BinDecoder<'r>) -> Result<Algorithm, DecodeError> {
        Ok(Algorithm::from_u8(decoder.read_u8()?))
    }
}
