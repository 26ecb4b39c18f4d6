//! Laws of the definitions. Nothing calls these functions.
ghost use Rattle.std.specs.Prelude.{◌≡◌, ◌↔◌, ℕ, ◌+◌, ◌≤◌, List, ◌++◌, length, slice_index};
ghost use Rattle.dns_wire.specs.Octets.{AreOctets, lowered};
ghost use Rattle.dns_names.specs.Names.{wire, low, IsLowered, IsName};
ghost use Rattle.dns_names.specs.NameText.{name_text, name_from_text, Spells};
ghost use Rattle.dns_names.specs.Places.{NameAt, pointer_target, read_octet, read_labels, name_at};

/// A written name stands where it was written, whatever lies before and behind it.
pub fn written_name_stands()
    ensures { (n : List (List ℕ)) (front rest : List ℕ) (e : ℕ) → IsName n → length front + length (wire n) ≤ e
        → e ≤ length (front ++ (wire n ++ rest))
        → NameAt (front ++ (wire n ++ rest)) (length front) e n (length front + length (wire n)) }
{}

/// At most one name stands at a place.
pub fn one_name_stands()
    ensures { (m : List ℕ) (p e : ℕ) (n z : List (List ℕ)) (q t : ℕ) → NameAt m p e n q → NameAt m p e z t
        → (n ≡ z) × (q ≡ t) }
{}

/// A name is read exactly where it stands.
pub fn name_is_read_where_it_stands()
    ensures { (m : List ℕ) (p e : ℕ) (n : List (List ℕ)) (q : ℕ) → e ≤ length m
        → (name_at m p e ≡ Ok (n, q)) ↔ NameAt m p e n q }
{}

/// What stands in an octet string is a name.
pub fn standing_name_is_name()
    ensures { (m : List ℕ) (p e : ℕ) (n : List (List ℕ)) (q : ℕ) → AreOctets m → NameAt m p e n q → IsName n }
{}

/// Reading a name begins with an empty wire form but for its zero octet, and goes octet by octet: each says the end, a
/// fault, or where reading goes on.
pub fn name_is_read_by_octets()
    ensures begins { (m : List ℕ) (p e : ℕ) → name_at m p e ≡ read_labels m p p e 1 }
    ensures goes_on { (m : List ℕ) (r p e size : ℕ) → size ≤ 255
        → read_labels m r p e size ≡ read_octet m r p e size
        (read_labels m r (p + 1 + slice_index m p) e (size + 1 + slice_index m p))
        (read_labels m (pointer_target m p) (pointer_target m p) (length m) size) }
{}

/// Lowering a wire form lowers its labels alone, since no length is a letter.
pub fn lowering_keeps_lengths()
    ensures { (n : List (List ℕ)) → IsName n → lowered (wire n) ≡ wire (low n) }
{}

/// A lowered name has no letter in upper case.
pub fn lowered_name_is_lowered()
    ensures { (n : List (List ℕ)) → IsLowered (low n) }
{}

/// The text of a name is read as the name.
pub fn name_text_is_read()
    ensures { (n : List (List ℕ)) → IsName n → name_from_text (name_text n) ≡ Ok n }
{}

/// A name is read from a text exactly where the text spells it.
pub fn name_is_read_where_it_is_spelled()
    ensures { (text : List ℕ) (n : List (List ℕ)) → (name_from_text text ≡ Ok n) ↔ (Spells text n × IsName n) }
{}
