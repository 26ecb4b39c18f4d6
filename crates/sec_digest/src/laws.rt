//! Laws of the definitions. Nothing calls these functions.

ghost use Rattle.std.specs.Prelude.{◌≡◌, ℕ, List, length};
ghost use Rattle.std.specs.Ordering.{nat_cmp, bool_cmp, ordering_then};
ghost use Rattle.sec_digest.specs.declared.hmac.HmacHash.{HmacHash};
ghost use Rattle.dns_wire.specs.Octets.{AreOctets};
ghost use Rattle.sec_digest.specs.Base32.{base32};
ghost use Rattle.sec_digest.specs.Digests.{digest_number, digest_type, is_unknown};
ghost use Rattle.sec_digest.specs.Hmac.{hmac, mac_len};

use crate::digest_type::DigestType;

/// A MAC has the output's length of its hash function.
pub fn length_of_hmac()
    ensures { (hash : HmacHash) (key message : List ℕ) → length (hmac hash key message) ≡ mac_len hash }
{}

/// Equal base32 texts come from equal octets, of whatever length.
pub fn base32_is_unique()
    ensures { (x y : List ℕ) → AreOctets x → AreOctets y → base32 x ≡ base32 y → x ≡ y }
{}

/// A digest type from a number has that number.
pub fn digest_type_keeps_its_number()
    ensures { (number : ℕ) → digest_number (digest_type number) ≡ number }
{}

/// Digest types are ordered by their numbers, the unknown ones last.
pub fn digest_types_are_ordered()
    ensures { (a b : _) → ⟦<DigestType as Ord>⟧.cmp a b ≡ ordering_then (bool_cmp (is_unknown a) (is_unknown b))
        (nat_cmp (digest_number a) (digest_number b)) }
{}
