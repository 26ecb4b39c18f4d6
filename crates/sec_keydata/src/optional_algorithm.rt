//! Algorithms of CDNSKEY and CDS records, of which there may be none (RFC 8078 4).
ghost use Rattle.std.specs.Prelude.{◌≡◌};
ghost use Rattle.sec_keydata.specs.OptionalAlgorithms as specs;

use sec_codes::Algorithm;

/// The number of an algorithm, and 0 for none.
pub(crate) fn optional_algorithm_number(algorithm: Option<Algorithm>) -> u8
    ensures { result ≡ specs.optional_algorithm_number algorithm }
{
    match algorithm {
        Some(algorithm) => algorithm.into(),
        None => 0,
    }
}

/// The algorithm of a number, and none for 0.
pub(crate) fn optional_algorithm(number: u8) -> Option<Algorithm>
    ensures algorithm { result ≡ specs.optional_algorithm number }
    ensures number { specs.optional_algorithm_number result ≡ number }
{
    if number == 0 {
        None
    } else {
        Some(Algorithm::from_u8(number))
    }
}
