//! Laws of the definitions. Nothing calls these functions.
ghost use Rattle.std.specs.Prelude.{◌≡◌, ◌<◌, ◌^◌, Bool, IsTrue, ℕ, List, length, Some, Ok};
ghost use Rattle.std.specs.List.{AllByRecursion};
ghost use Rattle.std.specs.Ordering.{nat_cmp, bool_cmp, ordering_then};
ghost use Rattle.dns_names.specs.Names.{IsName};
ghost use Rattle.dns_types.specs.TypeSets.{is_bitmap};
ghost use Rattle.dns_wire.specs.Joining.{joined};
ghost use Rattle.dns_grammar.specs.Fields.{fields_octets};
ghost use Rattle.dns_grammar.specs.Laws.{AreReadBack};
ghost use Rattle.dns_grammar.specs.Messages.{tsig_values};
ghost use Rattle.dns_grammar.specs.Tables.{tsig_row};
ghost use Rattle.sec_sigdata.specs.SignatureRows.{sig_row, nsec_row, nsec3_row, nsec3param_row};
ghost use Rattle.sec_sigdata.specs.Signatures.{SigData, input_row, input_values, sig_values, SigIsByNumber, InputFits};
ghost use Rattle.sec_sigdata.specs.HashParameters.{HashData, hash_values};
ghost use Rattle.sec_sigdata.specs.Nsec.{NsecData, nsec_values};
ghost use Rattle.sec_sigdata.specs.Nsec3.{Nsec3Data, nsec3_values};
ghost use Rattle.sec_sigdata.specs.TsigAlgorithms.{algorithm_name, tsig_algorithm_named, named_algorithms};
ghost use Rattle.sec_sigdata.specs.TsigErrors.{error_number, error_numbered, is_unknown};
ghost use Rattle.sec_sigdata.specs.TsigErrors.{optional_error_number, optional_error};
ghost use Rattle.sec_sigdata.specs.TsigRecords.{TsigFields, TsigFits, TsigIsByNumber, fields_data};

use crate::tsig_error::TsigError;

/// What is written of a SIG or of an RRSIG is read as data of the same fields.
#[tactic(auto, using(crate::proofs::WrittenFields::signatures_back))]
pub fn signatures_are_read_back()
    ensures { (sig : SigData) → InputFits sig.input → AreReadBack sig_row (sig_values sig) }
{}

/// What is written of a SIG or of an RRSIG is what is written of the fields before the signature, and then the
/// signature.
#[tactic(auto, using(crate::proofs::WrittenFields::signature_behind))]
pub fn signature_stands_behind_its_input()
    ensures { (canonical : Bool) (sig : SigData) → fields_octets canonical sig_row (sig_values sig)
        ≡ joined (fields_octets canonical input_row (input_values sig.input)) (Ok sig.sig) }
{}

/// What is written of an NSEC3PARAM is read as data of the same fields.
#[tactic(auto, using(crate::proofs::WrittenFields::parameters_back))]
pub fn parameters_are_read_back()
    ensures { (hash : HashData) → hash.iterations < 2 ^ 16 → length hash.salt < 2 ^ 8
        → AreReadBack nsec3param_row (hash_values hash) }
{}

/// What is written of an NSEC is read as data of the same fields.
#[tactic(auto, using(crate::proofs::WrittenFields::nsec_back))]
pub fn nsec_is_read_back()
    ensures { (nsec : NsecData) → IsName nsec.next_domain_name → IsTrue (is_bitmap nsec.types)
        → AreReadBack nsec_row (nsec_values nsec) }
{}

/// What is written of an NSEC3 is read as data of the same fields.
#[tactic(auto, using(crate::proofs::WrittenFields::nsec3_back))]
pub fn nsec3_is_read_back()
    ensures { (nsec3 : Nsec3Data) → nsec3.hash.iterations < 2 ^ 16 → length nsec3.hash.salt < 2 ^ 8
        → length nsec3.next_hashed_owner_name < 2 ^ 8 → IsTrue (is_bitmap nsec3.types)
        → AreReadBack nsec3_row (nsec3_values nsec3) }
{}

/// What is written of a TSIG whose numbers and octets fit is read as data of the same fields.
#[tactic(auto, using(crate::proofs::TsigData::read_back))]
pub fn tsig_is_read_back()
    ensures { (tsig : TsigFields) → IsName (algorithm_name tsig.algorithm) → TsigFits tsig → tsig.fudge < 2 ^ 16
        → tsig.oid < 2 ^ 16 → optional_error_number tsig.error < 2 ^ 16
        → AreReadBack tsig_row (tsig_values (fields_data tsig)) }
{}

/// Data of equal fields are equal, where the algorithm of a signature, and the algorithm and the error of a TSIG, are
/// those of their numbers and their name.
#[tactic(auto, using(crate::proofs::EqualFields::equal_fields))]
pub fn equal_fields_are_of_equal_data()
    ensures sig { (x y : SigData) → SigIsByNumber x → SigIsByNumber y → sig_values x ≡ sig_values y → x ≡ y }
    ensures hash { (x y : HashData) → hash_values x ≡ hash_values y → x ≡ y }
    ensures nsec { (x y : NsecData) → nsec_values x ≡ nsec_values y → x ≡ y }
    ensures nsec3 { (x y : Nsec3Data) → nsec3_values x ≡ nsec3_values y → x ≡ y }
    ensures tsig { (x y : TsigFields) → TsigIsByNumber x → TsigIsByNumber y
        → tsig_values (fields_data x) ≡ tsig_values (fields_data y) → x ≡ y }
{}

/// A number is that of its error, and also where 0 is none.
pub fn error_numbers_are_kept()
    ensures error { (n : ℕ) → error_number (error_numbered n) ≡ n }
    ensures optional { (n : ℕ) → optional_error_number (optional_error n) ≡ n }
{}

/// Errors are ordered by their numbers, the unknown ones last.
pub fn errors_are_ordered()
    ensures { (a b : _) → ⟦<TsigError as PartialOrd>⟧.partial_cmp a b
        ≡ Some (ordering_then (bool_cmp (is_unknown a) (is_unknown b)) (nat_cmp (error_number a) (error_number b))) }
{}

/// A name is that of its algorithm, and an algorithm that has a name of its own is that of its name.
pub fn algorithm_names_are_kept()
    ensures name { (n : List (List ℕ)) → algorithm_name (tsig_algorithm_named n) ≡ n }
    ensures algorithm { AllByRecursion (λ a. tsig_algorithm_named (algorithm_name a) ≡ a) named_algorithms }
{}
