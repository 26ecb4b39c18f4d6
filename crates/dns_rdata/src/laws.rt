//! Laws of the definitions, each proved for every string of octets. Nothing calls these functions.
ghost use Rattle.std.specs.Prelude.{◌≡◌, ℕ, IsTrue, true, false, map};
ghost use Rattle.std.specs.List.Sorted.{IsStrictlyIncreasing};
ghost use Rattle.dns_grammar.specs.Fields.{Table, row_of};
ghost use Rattle.dns_grammar.specs.Laws.{rest_is_last};
ghost use Rattle.dns_grammar.specs.RecordData.{rdata_octets, plain, fitting, canon};
ghost use Rattle.dns_grammar.specs.Tables.{IsTable};
ghost use Rattle.dns_rdata.specs.declared.rdata.RData.{RData};
ghost use Rattle.dns_rdata.specs.DataText.{data_text};
ghost use Rattle.dns_rdata.specs.OneReading.{rests_are_last, OneReading, IsReadAgain};
ghost use Rattle.dns_rdata.specs.RData.{rdata_row, rdata_type, rdata_values, rdata_text, RDataIsByNumber};
ghost use Rattle.dns_rdata.specs.RDataTable.{rdata_table};

/// Data of one type have equal canonical octets exactly where they agree.
pub fn data_one_reading()
    ensures table { (table : Table) → IsTrue (rests_are_last table) → OneReading table }
    ensures rdata { OneReading rdata_table }
{}

/// Data that were read can be written, and what is written of them is read as the same data.
pub fn data_are_read_again()
    ensures { IsReadAgain rdata_table }
{}

/// The types of the table ascend, so each has one row; the row of TSIG is that of transaction signatures; and no field
/// but the last of a type takes all that is left.
pub fn table_is_table()
    ensures types { IsStrictlyIncreasing (map (λ row. row.0) rdata_table) }
    ensures tsig { IsTable rdata_table }
    ensures rest { (rtype : ℕ) → IsTrue (rest_is_last (row_of rdata_table rtype)) }
{}

/// The fields of data are those that the table has for their type, where no type that it knows is called unknown, as in
/// all data that were read. So what is written of them is their plain form, and in canonical form their canonical one.
pub fn rows_are_of_types()
    ensures rows { (rdata : RData) → RDataIsByNumber rdata → rdata_row rdata ≡ row_of rdata_table (rdata_type rdata) }
    ensures plain { (rdata : RData) → RDataIsByNumber rdata
        → rdata_octets false (rdata_row rdata) (rdata_values rdata)
        ≡ plain rdata_table (rdata_type rdata) (rdata_values rdata) }
    ensures canon { (rdata : RData) → RDataIsByNumber rdata
        → fitting (rdata_octets true (rdata_row rdata) (rdata_values rdata))
        ≡ canon rdata_table (rdata_type rdata) (rdata_values rdata) }
{}

/// The text of data is that of their type and the values of their fields, as in all data that were read.
pub fn text_is_of_values()
    ensures { (rdata : RData) → RDataIsByNumber rdata
        → rdata_text rdata ≡ data_text (rdata_type rdata) (rdata_values rdata) }
{}
