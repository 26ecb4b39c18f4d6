//! Laws of the definitions. Nothing calls these functions.
ghost use Rattle.std.specs.Prelude.{◌≡◌, ◌↔◌, ◌<◌, ◌^◌, ◌*◌, ◌+◌, ◌/◌, ◌%◌, ℕ, false, List, length, None, Ok, Err};
ghost use Rattle.dns_wire.specs.Octets.{AreOctets};
ghost use Rattle.dns_grammar.specs.Fields.{Num, Str, fields_octets};
ghost use Rattle.dns_grammar.specs.Laws.{AreReadBack};
ghost use Rattle.sec_codes.specs.Algorithms.{number};
ghost use Rattle.sec_digest.specs.Digests.{digest_number};
ghost use Rattle.sec_keydata.specs.declared.dnskey_fields.TheConstants.{LONGEST_KEY};
ghost use Rattle.sec_keydata.specs.declared.token_error.TokenError.TheVariants.{Missing};
ghost use Rattle.sec_keydata.specs.declared.token_error.TokenField.TheVariants.{PublicKey, Digest};
ghost use Rattle.sec_keydata.specs.DnsKeyFlags.{flags_of, is_zone_key, is_secure_entry_point, is_revoked};
ghost use Rattle.sec_keydata.specs.DnsKeys.{DnsKeyData, dnskey_values, dnskey_text, dnskey_fields, DnsKeyIsByNumber};
ghost use Rattle.sec_keydata.specs.DnsKeys.{CdnsKeyData, cdnskey_values, CdnsKeyIsByNumber};
ghost use Rattle.sec_keydata.specs.DsData.{DsData, digest_values, ds_values, ds_text, DsIsByNumber};
ghost use Rattle.sec_keydata.specs.DsData.{CdsData, cds_values, CdsIsByNumber};
ghost use Rattle.sec_keydata.specs.KeyData.{KeyData, key_row_values, key_values, KeyIsByNumber};
ghost use Rattle.sec_keydata.specs.KeyRows.{dnskey_row, ds_row, key_row, key_flags_fault};
ghost use Rattle.sec_keydata.specs.KeyTags.{key_octets, dnskey_tag};
ghost use Rattle.sec_keydata.specs.KeyUses.{trust_code, usage_code, scope_bits, all_flags};
ghost use Rattle.sec_keydata.specs.KeyUses.{protocol_number, protocol_numbered};
ghost use Rattle.sec_keydata.specs.PublicKeyFields.{PublicKeyFields, public_key_values};
ghost use Rattle.sec_keydata.specs.Tokens.{token_dnskey, token_ds};

use crate::key_uses::{KeyTrust, KeyUsage, UpdateScope};
use crate::protocol::Protocol;

/// How many octets a key has at most.
pub fn longest_key()
    ensures { LONGEST_KEY ≡ 65531 }
{}

/// The flags that are made of three answers give these answers.
pub fn flags_are_kept(zone_key: bool, secure_entry_point: bool, revoke: bool)
    ensures zone_key { is_zone_key (flags_of zone_key secure_entry_point revoke) ≡ zone_key }
    ensures entry { is_secure_entry_point (flags_of zone_key secure_entry_point revoke) ≡ secure_entry_point }
    ensures revoke { is_revoked (flags_of zone_key secure_entry_point revoke) ≡ revoke }
{}

/// What is written of a DNSKEY or of a CDNSKEY, whatever its flags, its algorithm and its key, is read as data of the
/// same fields.
#[tactic(auto, using(crate::proofs::WrittenKeys::read_back))]
pub fn keys_are_read_back()
    ensures { (key : PublicKeyFields) → key.flags < 2 ^ 16 → key.algorithm < 2 ^ 8
        → AreReadBack dnskey_row (public_key_values key) }
{}

/// What is written of a DS or of a CDS is read as data of the same fields.
#[tactic(auto, using(crate::proofs::WrittenDigests::digests_back))]
pub fn digests_are_read_back()
    ensures { (tag algorithm kind : ℕ) (digest : List ℕ) → tag < 2 ^ 16 → algorithm < 2 ^ 8 → kind < 2 ^ 8
        → AreReadBack ds_row (digest_values tag algorithm kind digest) }
{}

/// What is written of a KEY, whose flags have no fault, is read as data of the same fields.
#[tactic(auto, using(crate::proofs::WrittenDigests::other_keys_back))]
pub fn other_keys_are_read_back()
    ensures { (flags protocol algorithm : ℕ) (octets : List ℕ) → flags < 2 ^ 16 → key_flags_fault (Num flags) ≡ None
        → protocol < 2 ^ 8 → algorithm < 2 ^ 8
        → AreReadBack key_row (key_row_values flags protocol algorithm octets) }
{}

/// Data of equal fields are equal, where algorithm, digest type and protocol are those of their numbers.
#[tactic(auto, using(crate::proofs::EqualFields::equal_fields))]
pub fn equal_fields_are_of_equal_data()
    ensures dnskey { (x y : DnsKeyData) → DnsKeyIsByNumber x → DnsKeyIsByNumber y
        → dnskey_values x ≡ dnskey_values y → x ≡ y }
    ensures cdnskey { (x y : CdnsKeyData) → CdnsKeyIsByNumber x → CdnsKeyIsByNumber y
        → cdnskey_values x ≡ cdnskey_values y → x ≡ y }
    ensures ds { (x y : DsData) → DsIsByNumber x → DsIsByNumber y → ds_values x ≡ ds_values y → x ≡ y }
    ensures cds { (x y : CdsData) → CdsIsByNumber x → CdsIsByNumber y → cds_values x ≡ cds_values y → x ≡ y }
    ensures key { (x y : KeyData) → KeyIsByNumber x → KeyIsByNumber y → key_values x ≡ key_values y → x ≡ y }
{}

/// A number is that of its protocol.
pub fn protocol_numbers_are_kept()
    ensures { (n : ℕ) → protocol_number (protocol_numbered n) ≡ n }
{}

/// The defaults of trust, usage, scope and protocol.
pub fn default_uses()
    ensures trust { (t : _) → ⟦<KeyTrust as Default>⟧.is_default t ↔ (t ≡ KeyTrust.AuthOrPrivate) }
    ensures usage { (u : _) → ⟦<KeyUsage as Default>⟧.is_default u ↔ (u ≡ KeyUsage.Entity) }
    ensures scope { (s : _) → ⟦<UpdateScope as Default>⟧.is_default s
        ↔ (s ≡ record { zone = false; strong = false; unique = false; general = false }) }
    ensures protocol { (p : _) → ⟦<Protocol as Default>⟧.is_default p ↔ (p ≡ Protocol.DNSSEC) }
{}

/// The flags that are made of trust, usage and scope give these three, and have no fault.
#[tactic(auto, using(crate::proofs::KeyUseFlags::flags_of_uses))]
pub fn key_uses_are_kept()
    ensures trust { (t : _) (u : _) (s : _) → all_flags t u s / 2 ^ 14 % 4 ≡ trust_code t }
    ensures usage { (t : _) (u : _) (s : _) → all_flags t u s / 2 ^ 8 % 4 ≡ usage_code u }
    ensures scope { (t : _) (u : _) (s : _) → all_flags t u s % 16 ≡ scope_bits s }
    ensures allowed { (t : _) (u : _) (s : _) → key_flags_fault (Num (all_flags t u s)) ≡ None }
{}

/// Flags without fault are the sum of the bits that tell trust, usage and scope.
#[tactic(auto, using(crate::proofs::KnownFlags::known_flags))]
pub fn known_flags_are_all()
    ensures { (n : ℕ) → n < 2 ^ 16 → key_flags_fault (Num n) ≡ None
        → n ≡ n / 2 ^ 14 % 4 * 2 ^ 14 + n / 2 ^ 8 % 4 * 2 ^ 8 + n % 16 }
{}

/// The data of a DNSKEY can be written, whatever they are.
pub fn keys_are_written()
    ensures { (key : PublicKeyFields) → fields_octets false dnskey_row (public_key_values key) ≡ Ok (key_octets key) }
{}

/// The tag of a DNSKEY depends on the octets of its data alone.
#[tactic(auto, using(crate::proofs::SameTags::same_tag))]
pub fn tags_are_of_octets()
    ensures { (x y : DnsKeyData)
        → fields_octets false dnskey_row (dnskey_values x) ≡ fields_octets false dnskey_row (dnskey_values y)
        → dnskey_tag x ≡ dnskey_tag y }
{}

/// What a DNSKEY prints is read as the DNSKEY, where its algorithm is that of its number and its key is not empty.
#[tactic(auto, using(crate::proofs::TextsBack::key_texts_back))]
pub fn key_texts_are_read_back()
    ensures read { (key : DnsKeyData) → key.flags < 2 ^ 16 → number key.public_key.algorithm < 2 ^ 8
        → DnsKeyIsByNumber key → AreOctets key.public_key.octets → 0 < length key.public_key.octets
        → token_dnskey (dnskey_text key) ≡ Ok key }
    ensures no_key { (key : DnsKeyData) → key.flags < 2 ^ 16 → number key.public_key.algorithm < 2 ^ 8
        → length key.public_key.octets ≡ 0 → token_dnskey (dnskey_text key) ≡ Err (Missing PublicKey) }
{}

/// What a DS prints is read as the DS, where its algorithm and its digest type are those of their numbers and its
/// digest is not empty.
#[tactic(auto, using(crate::proofs::DigestTextsBack::digest_texts_back))]
pub fn digest_texts_are_read_back()
    ensures read { (ds : DsData) → ds.key_tag < 2 ^ 16 → number ds.algorithm < 2 ^ 8
        → digest_number ds.digest_type < 2 ^ 8 → DsIsByNumber ds → AreOctets ds.digest → 0 < length ds.digest
        → token_ds (ds_text ds) ≡ Ok ds }
    ensures no_digest { (ds : DsData) → ds.key_tag < 2 ^ 16 → number ds.algorithm < 2 ^ 8
        → digest_number ds.digest_type < 2 ^ 8 → length ds.digest ≡ 0
        → token_ds (ds_text ds) ≡ Err (Missing Digest) }
{}
