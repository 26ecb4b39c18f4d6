//! Laws of the definitions. Nothing calls these functions.
ghost use Rattle.std.specs.Prelude.{◌≡◌, ℕ, List, Ok, Err};
ghost use Rattle.dns_wire.specs.declared.error.EmitError.{EmitError};
ghost use Rattle.dns_wire.specs.declared.error.EmitError.TheVariants.{DataTooLong};
ghost use Rattle.dns_wire.specs.Octets.{AreOctets};
ghost use Rattle.dns_grammar.specs.Messages.{Message, message_at};
ghost use Rattle.dns_rdata.specs.RDataTable.{rdata_table};
ghost use Rattle.dns_message.specs.declared.section.Section.{Section};
ghost use Rattle.message_walk.specs.Places.{section_records};
ghost use Rattle.sec_sign.specs.Sets.{SetName, set_octets};

/// A set of a message has no data in canonical form only where those of a record are more than 65,535 octets, so that
/// `DataTooLong` is the one cause.
pub fn sets_fail_by_length()
    ensures { (m : List ℕ) (message : Message) (end : ℕ) (section : Section) (set : SetName) (cause : EmitError)
        → AreOctets m → message_at rdata_table m ≡ Ok (message, end)
        → set_octets set (section_records section message) ≡ Err cause → cause ≡ DataTooLong }
{}
