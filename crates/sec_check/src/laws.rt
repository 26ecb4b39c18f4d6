//! What is true of the definitions. Nothing calls these functions.
ghost use Rattle.std.specs.Prelude.{◌≡◌, List};
ghost use Rattle.std.specs.List.{IsDistinct, list_any};
ghost use Rattle.dns_grammar.specs.Messages.{ResourceRecord};
ghost use Rattle.sec_sign.specs.Sets.{SetName, same_set};
ghost use Rattle.sec_check.specs.RecordSets.{listed, record_sets};
ghost use Rattle.sec_check.specs.Reports.{ReportsAreOfMessages};

/// A set is among those of a section exactly where a record is of it that forms sets, and no set is there twice.
pub fn sets_are_those_of_records()
    ensures each { (set : SetName) (records : List ResourceRecord)
        → list_any (same_set set) (record_sets records) ≡ list_any (same_set set) (listed records) }
    ensures once { (records : List ResourceRecord) → IsDistinct same_set (record_sets records) }
{}

/// The report of an accepted answer is that of the message that stands in its octets.
pub fn reports_are_of_messages()
    ensures { ReportsAreOfMessages }
{}
