//! Laws of the definitions. Nothing calls these functions.
ghost use Rattle.std.specs.Prelude.{◌≡◌, ◌↔◌, ℕ, List, Ok};
ghost use Rattle.dns_wire.specs.Octets.{AreOctets};
ghost use Rattle.dns_names.specs.Names.{wire, IsName};
ghost use Rattle.dns_c.specs.Arguments.{wire_name};

use dns_names::laws::{name_is_read_where_it_stands, standing_name_is_name, written_name_stands};

/// A name is taken from its own wire form, and from no other octets.
pub fn name_is_taken_from_its_wire_form()
    ensures { (octets : List ℕ) (n : List (List ℕ)) → AreOctets octets
        → (wire_name octets ≡ Ok n) ↔ ((octets ≡ wire n) × IsName n) }
{
    name_is_read_where_it_stands();
    standing_name_is_name();
    written_name_stands();
}
