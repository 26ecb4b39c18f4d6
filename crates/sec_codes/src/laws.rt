//! Laws of the definitions. Nothing calls these functions.
ghost use Rattle.std.specs.Prelude.{◌≡◌, ◌↔◌, ℕ, List, IsTrue, Contains, Some};
ghost use Rattle.std.specs.Ordering.{nat_cmp, bool_cmp, ordering_then};
ghost use Rattle.dns_wire.specs.Octets.{AreOctets};
ghost use Rattle.sec_codes.specs.Algorithms.{number, algorithm_numbered, is_unknown};
ghost use Rattle.sec_codes.specs.AlgorithmSets.{has, members};
ghost use Rattle.sec_codes.specs.KeyForms.{rsa_parts, IsRsa};
ghost use Rattle.sec_codes.specs.Proofs.{proof_number};

use crate::algorithm::Algorithm;
use crate::proof::Proof;
use crate::supported_algorithms::SupportedAlgorithms;

/// A number is that of its algorithm, and an algorithm has the number of the one that its number gives.
pub fn numbers_are_kept()
    ensures number { (n : ℕ) → number (algorithm_numbered n) ≡ n }
    ensures algorithm { (a : _) → number (algorithm_numbered (number a)) ≡ number a }
{}

/// Algorithms are ordered by their numbers, the unknown ones last.
pub fn algorithms_are_ordered()
    ensures { (a b : _) → ⟦<Algorithm as Ord>⟧.cmp a b ≡ ordering_then (bool_cmp (is_unknown a) (is_unknown b))
        (nat_cmp (number a) (number b)) }
{}

/// The number of a proof, as which it is cast.
pub fn number_of_proof(proof: Proof) -> u8
    ensures { result ≡ proof_number proof }
{
    proof as u8
}

/// Proofs are ordered by their numbers, and Indeterminate is the default.
pub fn proofs_are_ordered()
    ensures order { (p q : _) → ⟦<Proof as Ord>⟧.cmp p q ≡ nat_cmp (proof_number p) (proof_number q) }
    ensures default { (p : _) → ⟦<Proof as Default>⟧.is_default p ↔ (p ≡ Proof.Indeterminate) }
{}

/// Sets of algorithms are ordered by the sums that contracts see, and the empty set is the default.
pub fn sets_are_ordered()
    ensures order { (s t : ℕ) → ⟦<SupportedAlgorithms as Ord>⟧.cmp s t ≡ nat_cmp s t }
    ensures default { (s : ℕ) → ⟦<SupportedAlgorithms as Default>⟧.is_default s ↔ (s ≡ 0) }
{}

/// The members of a set are the algorithms that it has.
pub fn members_are_had()
    ensures { (s : ℕ) (a : _) → Contains (members s) a ↔ IsTrue (has s a) }
{}

/// An RSA key is taken apart exactly where it is of an exponent and a modulus.
pub fn rsa_keys_have_parts()
    ensures { (key e n : List ℕ) → AreOctets key → (rsa_parts key ≡ Some (e, n)) ↔ IsRsa key e n }
{}
