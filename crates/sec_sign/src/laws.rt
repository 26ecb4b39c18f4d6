//! Laws of the definitions. Nothing calls these functions.
ghost use Rattle.std.specs.Prelude.{◌≡◌, ℕ, List, true, IsOk, Ok};
ghost use Rattle.sec_codes.specs.KeyForms.{key_form};
ghost use Rattle.dns_grammar.specs.Fields.{fields_octets};
ghost use Rattle.sec_sigdata.specs.declared.sig_input.SigInput.{SigInput};
ghost use Rattle.sec_sigdata.specs.Signatures.{input_row, input_values, rrsig_data};
ghost use Rattle.sec_sign.specs.Ascending.{ascending, Ascend, SameStrings};
ghost use Rattle.sec_sign.specs.KeyedHashes.{key_of_hash};
ghost use Rattle.sec_sign.specs.OneReading.{OneReading};
ghost use Rattle.sec_sign.specs.Signed.{header_octets};
ghost use Rattle.sec_sign.specs.Signers.{signer_data, signing_key};
ghost use Rattle.sec_sign.specs.Signing.{to_sign, IsSigned};
ghost use Rattle.sec_sign.specs.Verifying.{rrsig_verified};

use crate::keyed_hash::{KeyedHash, KeyedHashKey};
use crate::signer::DnssecSigner;
use crate::signing_key::SigningKey;
use crate::verifier::Verifier;
use dns_message::RecordSet;
use dns_types::DNSClass;
use sec_codes::{Algorithm, SignatureScheme};
use sec_sigdata::RRSIG;

/// There is one strictly ascending list of given strings.
pub fn one_list_ascends()
    ensures ascends { (xs : List (List ℕ)) → Ascend (ascending xs) }
    ensures same { (xs : List (List ℕ)) → SameStrings (ascending xs) xs }
    ensures one { (xs ys : List (List ℕ)) → Ascend ys → SameStrings ys xs → ys ≡ ascending xs }
{}

/// The RRSIG that a signer makes of a set is verified for the set's name and records in the same class, under every
/// scheme that accepts what the signing key signs, for the verifier's key, which has its form.
pub fn signing_law<S: SignatureScheme, V: Verifier>(
    scheme: &S,
    verifier: &V,
    signer: &DnssecSigner,
    rr_set: &RecordSet,
    zone_class: DNSClass,
    inception: i64,
    rrsig: &RRSIG,
)
    requires signed { IsSigned (signs (signing_key signer.now)) (refuses (signing_key signer.now))
        (to_sign (algorithm_of_key (signing_key signer.now)) (signer_data signer.now) rr_set.now zone_class inception)
        (Ok rrsig.now) }
    requires form { IsOk (key_form (V.checked_by verifier.now).algorithm (V.checked_by verifier.now).octets) }
    requires accepts { (message signature : List ℕ) → signs (signing_key signer.now) message signature
        → S.accepts scheme.now (V.checked_by verifier.now).algorithm (V.checked_by verifier.now).octets message signature
        ≡ true }
    ensures { rrsig_verified (S.accepts scheme.now) (V.checked_by verifier.now) (rrsig_data rrsig.now) rr_set.now.name
        zone_class rr_set.now.records ≡ Ok tt }
{}

/// The scheme of keyed hashes accepts what a key of keyed hashes with the same octets signs, whatever the algorithm.
pub fn keyed_hash_accepts(scheme: &KeyedHash, algorithm: Algorithm, key: &KeyedHashKey)
    ensures { (message signature : List ℕ) → ⟦<KeyedHashKey as SigningKey>⟧.signs key.now message signature
        → ⟦<KeyedHash as SignatureScheme>⟧.accepts scheme.now algorithm (key_of_hash key.now).octets message signature
        ≡ true }
{}

/// What is signed tells the fields before the signature, the data of the set and, where there are any, the owner and
/// the class.
pub fn signed_one_reading()
    ensures { OneReading }
{}

/// The data of an RRSIG up to the signature can be written in canonical form whatever they are, and these are their
/// octets.
pub fn header_is_written()
    ensures { (input : SigInput) → fields_octets true input_row (input_values input) ≡ Ok (header_octets input) }
{}
