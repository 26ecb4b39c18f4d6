//! Laws of the definitions. Nothing calls these functions.
ghost use Rattle.std.specs.Prelude.{◌≡◌, ℕ, ◌≤◌, List, length, Ok};
ghost use Rattle.std.specs.List.{AllByRecursion};
ghost use Rattle.dns_grammar.specs.Messages.{Message, message_at, records};
ghost use Rattle.dns_rdata.specs.RDataTable.{rdata_table};
ghost use Rattle.message_walk.specs.Places.{message_places, record_from};

/// Each record of a message that is read is read where it starts, whatever its section and its type.
pub fn records_are_read()
    ensures { (m : List ℕ) (message : Message) (e : ℕ) → message_at rdata_table m ≡ Ok (message, e)
        → AllByRecursion (λ rr. (q : ℕ) × (record_from m rr.start ≡ Ok (rr, q))) (records message) }
{}

/// A message has at most 5,956 records: it has 65,535 octets at most, of which 12 are the header, and a record has 11 at
/// least.
pub fn records_are_few()
    ensures { (m : List ℕ) (message : Message) (e : ℕ) → message_at rdata_table m ≡ Ok (message, e)
        → length (message_places m message) ≤ 5956 }
{}
