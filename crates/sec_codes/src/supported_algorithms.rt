//! Sets of the algorithms that are taken (RFC 6975 2).
ghost use Rattle.std.specs.Prelude.{◌≡◌, ◌↔◌, IsTrue, length, map, IfOk, [], ◌∷◌, Ok, Some};
ghost use Rattle.std.specs.Iterator.{YieldsFirst, item_count};
ghost use Rattle.sec_codes.specs.Algorithms.{number, algorithm_numbered};
ghost use Rattle.sec_codes.specs.AlgorithmSets.{seven, has, members, place, set_text, IsSetOf, Adds};

use crate::algorithm::Algorithm;
use dns_wire::{BinEncodable, EmitError, Form, OctetSink, OutOfMemory, Putting};
use std::alloc::Global;
use std::fmt;
use std::marker::Model;

/// The algorithms that a set may have, in the order in which members are listed.
const SEVEN: [Algorithm; 7] = [
    Algorithm::RSASHA1,
    Algorithm::RSASHA256,
    Algorithm::RSASHA1NSEC3SHA1,
    Algorithm::RSASHA512,
    Algorithm::ECDSAP256SHA256,
    Algorithm::ECDSAP384SHA384,
    Algorithm::ED25519,
];

/// A set of supported algorithms. Sets are ordered by the sum of 2^i over their members, i being their place, from 0,
/// in the order of iteration. A contract sees that sum.
#[derive(Clone, Copy, Debug, PartialEq, Eq, PartialOrd, Ord, Hash)]
pub struct SupportedAlgorithms {
    bit_map: u8,
}

impl Model for SupportedAlgorithms {
    ghost use Rattle.std.specs.Prelude.{ℕ, ◌<◌};

    ghost Value = { ℕ };

    ghost view = { λ s. s.bit_map };

    ghost invariant = { λ s. s.bit_map < 128 };

    ghost inverse = { λ n. record { bit_map = n } };
}

impl SupportedAlgorithms {
    /// The empty set.
    pub fn new() -> SupportedAlgorithms
        ensures value { result ≡ 0 }
        ensures empty { members result ≡ [] }
    {
        SupportedAlgorithms { bit_map: 0 }
    }

    /// The set of all seven.
    pub fn all() -> SupportedAlgorithms
        ensures { members result ≡ seven }
    {
        SupportedAlgorithms {
            bit_map: 0b0111_1111,
        }
    }

    /// The set of those algorithms of a list that are among the seven.
    pub fn from_vec(algorithms: &[Algorithm]) -> SupportedAlgorithms
        ensures { IsSetOf result algorithms.now }
    {
        let mut supported = SupportedAlgorithms::new();
        'algorithms: for algorithm in algorithms {
            supported.set(*algorithm);
        }
        supported
    }

    /// The place of an algorithm among the seven.
    fn place(algorithm: Algorithm) -> Option<u8>
        ensures { result ≡ place algorithm }
    {
        match algorithm {
            Algorithm::RSASHA1 => Some(0),
            Algorithm::RSASHA256 => Some(1),
            Algorithm::RSASHA1NSEC3SHA1 => Some(2),
            Algorithm::RSASHA512 => Some(3),
            Algorithm::ECDSAP256SHA256 => Some(4),
            Algorithm::ECDSAP384SHA384 => Some(5),
            Algorithm::ED25519 => Some(6),
            Algorithm::RSAMD5 | Algorithm::DSA | Algorithm::Unknown(_) => None,
        }
    }

    /// Adds an algorithm. One that is not among the seven changes nothing.
    pub fn set(&mut self, algorithm: Algorithm)
        ensures { Adds self.old self.new algorithm }
    {
        if let Some(place) = SupportedAlgorithms::place(algorithm) {
            self.bit_map |= 1 << place;
        }
    }

    /// Whether an algorithm is in the set.
    pub fn has(self, algorithm: Algorithm) -> bool
        ensures { result ≡ has self algorithm }
    {
        SupportedAlgorithms::place(algorithm).is_some_and(|place| self.bit_map >> place & 1 == 1)
    }

    /// The members, each once: RSASHA1, RSASHA256, RSASHA1NSEC3SHA1, RSASHA512, ECDSAP256SHA256, ECDSAP384SHA384,
    /// ED25519.
    pub fn iter(&self) -> SupportedAlgorithmsIter<'_>
        ensures { result ≡ members self.now }
    {
        SupportedAlgorithmsIter {
            algorithms: self,
            rest: &SEVEN,
        }
    }

    /// How many members there are.
    pub fn len(self) -> u16
        ensures { result ≡ length (members self) }
    {
        self.iter().count() as u16
    }

    /// Whether there is no member.
    pub fn is_empty(self) -> bool
        ensures { IsTrue result ↔ (members self ≡ []) }
    {
        self.bit_map == 0
    }

    /// The numbers of the members, in the order of iteration.
    ///
    /// # Errors
    ///
    /// Out of memory.
    pub fn to_vec(&self, alloc: Global) -> Result<Vec<u8>, OutOfMemory>
        ensures { IfOk result (λ numbers. numbers.items ≡ map number (members self.now)) }
    {
        match self.iter().map(u8::from).collect(alloc) {
            Ok(numbers) => Ok(numbers),
            Err(_) => Err(OutOfMemory),
        }
    }
}

/// The members of a set that are left. A contract sees their list.
#[derive(Debug, Drop)]
pub struct SupportedAlgorithmsIter<'a> {
    algorithms: &'a SupportedAlgorithms,
    rest: &'a [Algorithm],
}

impl<'a> Model for SupportedAlgorithmsIter<'a> {
    ghost use Rattle.std.specs.Prelude.{List, filter};
    ghost use Rattle.sec_codes.specs.declared.algorithm.Algorithm.{Algorithm};
    ghost use Rattle.sec_codes.specs.AlgorithmSets.{has};

    ghost Value = { List Algorithm };

    ghost view = { λ s. filter (has s.algorithms.now) s.rest.now };
}

impl<'a> Iterator for SupportedAlgorithmsIter<'a> {
    type Item = Algorithm;

    ghost next_gives = { YieldsFirst (λ s. s) };

    ghost remaining = { item_count (λ s. s) };

    fn next(&mut self) -> Option<Algorithm> {
        while let Some((algorithm, rest)) = self.rest.split_first() {
            self.rest = rest;
            if self.algorithms.has(*algorithm) {
                return Some(*algorithm);
            }
        }
        None
    }
}

impl Default for SupportedAlgorithms {
    ghost is_default = { λ s. s ≡ 0 };

    fn default() -> SupportedAlgorithms {
        SupportedAlgorithms::new()
    }
}

impl fmt::Display for SupportedAlgorithms {
    ghost output = { λ s. Some (set_text s) };

    fn fmt<W: fmt::Write>(&self, f: &mut fmt::Formatter<W>) -> fmt::Result {
        for algorithm in self.iter() {
            write!(f, "{algorithm}, ")?;
        }
        Ok(())
    }
}

/// The set of the numbers that are those of the seven.
impl From<&[u8]> for SupportedAlgorithms {
    ghost from_gives = { λ numbers s. IsSetOf s (map algorithm_numbered numbers.now) };

    fn from(numbers: &[u8]) -> SupportedAlgorithms {
        let mut supported = SupportedAlgorithms::new();
        'numbers: for number in numbers {
            supported.set(Algorithm::from_u8(*number));
        }
        supported
    }
}

impl From<Algorithm> for SupportedAlgorithms {
    ghost from_gives = { λ algorithm s. IsSetOf s (algorithm ∷ []) };

    fn from(algorithm: Algorithm) -> SupportedAlgorithms {
        let mut supported = SupportedAlgorithms::new();
        supported.set(algorithm);
        supported
    }
}

impl Putting for SupportedAlgorithms {
    ghost written = { λ canonical_form name_encoding s. Ok (map number (members s)) };

    fn put<S: OctetSink>(&self, form: Form, sink: &mut S) -> Result<(), EmitError> {
        let mut numbers = [0; 7];
        let mut count = 0;
        'members: for algorithm in SEVEN {
            if self.has(algorithm) {
                numbers[count] = u8::from(algorithm);
                count += 1;
            }
        }
        sink.take(&numbers[..count]);
        Ok(())
    }
}

impl BinEncodable for SupportedAlgorithms {}
