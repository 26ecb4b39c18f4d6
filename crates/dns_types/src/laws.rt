//! Laws of the definitions. Nothing calls these functions.
ghost use Rattle.std.specs.Prelude.{◌≡◌, ◌↔◌, All, Bool, Contains, IsTrue, ℕ, ◌+◌, ◌^◌, ◌<◌};
ghost use Rattle.std.specs.Prelude.{List, ◌++◌, filter, length, map, Some};
ghost use Rattle.std.specs.List.{range_with_len};
ghost use Rattle.std.specs.List.Sorted.{IsStrictlyIncreasing};
ghost use Rattle.dns_types.specs.declared.codes.TheConstants.{TYPES, CLASSES};
ghost use Rattle.dns_types.specs.Codes.{type_mnemonics, type_text, type_of, class_mnemonics, class_text, class_of};
ghost use Rattle.dns_types.specs.TypeSets.{Block, AreBlocks, IsBitmap, HasType, is_bitmap, is_ascending, is_one_of};
ghost use Rattle.dns_types.specs.TypeSets.{has_type, types, TypesAt, types_at, type_set_at, form_of};

use crate::codes::{DNSClass, RecordType};

/// The constants of types have the numbers that the registry has beside their names.
pub fn types_by_name() -> [RecordType; 38]
    ensures { result ≡ map (λ entry. entry.0) type_mnemonics }
{
    [
        RecordType::A,
        RecordType::NS,
        RecordType::MD,
        RecordType::MF,
        RecordType::CNAME,
        RecordType::SOA,
        RecordType::MB,
        RecordType::MG,
        RecordType::MR,
        RecordType::NULL,
        RecordType::PTR,
        RecordType::MINFO,
        RecordType::MX,
        RecordType::TXT,
        RecordType::RP,
        RecordType::AFSDB,
        RecordType::RT,
        RecordType::SIG,
        RecordType::KEY,
        RecordType::PX,
        RecordType::AAAA,
        RecordType::SRV,
        RecordType::NAPTR,
        RecordType::KX,
        RecordType::DNAME,
        RecordType::OPT,
        RecordType::DS,
        RecordType::RRSIG,
        RecordType::NSEC,
        RecordType::DNSKEY,
        RecordType::NSEC3,
        RecordType::NSEC3PARAM,
        RecordType::CDS,
        RecordType::CDNSKEY,
        RecordType::TSIG,
        RecordType::IXFR,
        RecordType::AXFR,
        RecordType::ANY,
    ]
}

/// The constants of classes have the numbers that the registry has beside their names.
pub fn classes_by_name() -> [DNSClass; 5]
    ensures { result ≡ map (λ entry. entry.0) class_mnemonics }
{
    [
        DNSClass::IN,
        DNSClass::CH,
        DNSClass::HS,
        DNSClass::NONE,
        DNSClass::ANY,
    ]
}

/// The tables of mnemonics are those of the registries.
pub fn tables_are_the_registries()
    ensures types { map (λ entry. (entry.0, entry.1.now)) TYPES ≡ type_mnemonics }
    ensures classes { map (λ entry. (entry.0, entry.1.now)) CLASSES ≡ class_mnemonics }
{}

/// The text of each type and each class names it.
pub fn code_texts_name_their_codes()
    ensures types { (n : ℕ) → n < 2 ^ 16 → type_of (type_text n) ≡ Some n }
    ensures classes { (n : ℕ) → n < 2 ^ 16 → class_of (class_text n) ≡ Some n }
{}

/// The one form of a set of types is a bitmap whose windows ascend, and its types are those of the set.
pub fn form_of_a_set_has_its_types()
    ensures bitmap { (has : ℕ → Bool) → IsTrue (is_bitmap (form_of has)) }
    ensures ascends { (has : ℕ → Bool) → IsTrue (is_ascending (form_of has)) }
    ensures has { (has : ℕ → Bool) (t : ℕ) → t < 2 ^ 16 → has_type (form_of has) t ≡ has t }
    ensures types { (has : ℕ → Bool) → types (form_of has) ≡ filter has (range_with_len 0 (2 ^ 16)) }
{}

/// Two forms are equal exactly where the sets have the same types. So are those of two lists of types, in any order and
/// with repeats.
pub fn equal_forms_have_equal_types()
    ensures sets { (has other : ℕ → Bool) → (form_of has ≡ form_of other) ↔ ((t : ℕ) → t < 2 ^ 16 → has t ≡ other t) }
    ensures lists { (xs ys : List ℕ) → All (λ t. t < 2 ^ 16) xs → All (λ t. t < 2 ^ 16) ys
        → (form_of (is_one_of xs) ≡ form_of (is_one_of ys)) ↔ ((t : ℕ) → Contains xs t ↔ Contains ys t) }
{}

/// A bitmap is read exactly where it stands, its blocks are one list, and a set is read exactly where it stands.
pub fn bitmap_is_read_where_it_stands()
    ensures bitmap { (x : List ℕ) → IsTrue (is_bitmap x) ↔ IsBitmap x }
    ensures one { (x : List ℕ) (a b : List Block) → AreBlocks x a → AreBlocks x b → a ≡ b }
    ensures member { (x : List ℕ) (t : ℕ) → IsBitmap x → IsTrue (has_type x t) ↔ HasType x t }
    ensures set { (m : List ℕ) (p e : ℕ) (set : List ℕ) (q : ℕ)
        → (types_at m p e ≡ Ok (set, q)) ↔ TypesAt m p e set q }
{}

/// The types of a bitmap strictly increase, and are those that it has.
pub fn types_ascend()
    ensures ascend { (x : List ℕ) → IsStrictlyIncreasing (types x) }
    ensures members { (x : List ℕ) (t : ℕ) → IsBitmap x → t < 2 ^ 16 → Contains (types x) t ↔ HasType x t }
{}

/// A set that is written is read back as the same octets, and so as the same set, whatever lies before and behind it.
pub fn written_set_is_read()
    ensures within { (x front rest : List ℕ) → IsBitmap x
        → types_at (front ++ (x ++ rest)) (length front) (length front + length x) ≡ Ok (x, length front + length x) }
    ensures data_of_a_record { (x front rest : List ℕ) → IsBitmap x
        → type_set_at (front ++ (x ++ rest)) (length front) (length x) ≡ Ok (x, length front + length x) }
{}
