//! Laws of the definitions, each proved for every string of octets. Nothing calls these functions.
ghost use Rattle.std.specs.Prelude.{IsTrue, List, ℕ};
ghost use Rattle.dns_grammar.specs.Fields.{Field, Table};
ghost use Rattle.dns_grammar.specs.Tables.{IsTable};
ghost use Rattle.dns_grammar.specs.Extents.{SignatureStartsInside, OneStart};
ghost use Rattle.dns_grammar.specs.Laws.{RowIsReadWhereItStands, DataIsReadWhereItStands, OneData, OneMessage};
ghost use Rattle.dns_grammar.specs.Laws.{MessageIsReadWhereItStands, SignatureIsWhole, rest_is_last};
ghost use Rattle.dns_grammar.specs.Laws.{WrittenIsRead, WrittenRowIsRead, WrittenDataIsRead, WrittenRecordIsRead};
ghost use Rattle.dns_grammar.specs.Laws.{WrittenMessageIsRead, ReadIsReadAgain, ReadRowIsReadAgain};
ghost use Rattle.dns_grammar.specs.Laws.{ReadDataIsReadAgain};
ghost use Rattle.dns_grammar.specs.Laws.{CanonicalIsPlain, AgreeingHaveOneForm};

/// Record data are read exactly where they stand, and at most one stand at a place.
pub fn data_are_read_where_they_stand()
    ensures row { (fields : List Field) → RowIsReadWhereItStands fields }
    ensures data { (table : Table) → DataIsReadWhereItStands table }
    ensures one { (table : Table) → OneData table }
{}

/// A message is read exactly where it stands, and a string of octets is at most one message.
pub fn messages_are_read_where_they_stand()
    ensures read { (table : Table) → MessageIsReadWhereItStands table }
    ensures one { (table : Table) → OneMessage table }
{}

/// Under a table that knows transaction signatures, the data of one as the last additional have its seven values.
pub fn signature_is_whole()
    ensures { (table : Table) → IsTable table → SignatureIsWhole table }
{}

/// What is written of values, of record data, of a record and of a message is read as the same.
pub fn written_is_read()
    ensures fields { (fields : List Field) → IsTrue (rest_is_last fields) → WrittenIsRead fields }
    ensures row { (fields : List Field) → IsTrue (rest_is_last fields) → WrittenRowIsRead fields }
    ensures data { (table : Table) → WrittenDataIsRead table }
    ensures record { (table : Table) → WrittenRecordIsRead table }
    ensures message { (table : Table) → WrittenMessageIsRead table }
{}

/// Values and record data that were read can be written, and are then read again.
pub fn read_is_read_again()
    ensures fields { (fields : List Field) → IsTrue (rest_is_last fields) → ReadIsReadAgain fields }
    ensures row { (fields : List Field) → IsTrue (rest_is_last fields) → ReadRowIsReadAgain fields }
    ensures data { (table : Table) → ReadDataIsReadAgain table }
{}

/// Canonical form is the plain form of what it shows, and data that agree have one canonical form.
pub fn canonical_is_plain()
    ensures shown { (fields : List Field) → CanonicalIsPlain fields }
    ensures agree { (table : Table) → AgreeingHaveOneForm table }
{}

/// Where the signature of a message starts: inside, at a place that the octets before it tell alone, whatever the table
/// and wherever names point.
pub fn one_start()
    ensures inside { (table : Table) → SignatureStartsInside table }
    ensures one { (table : Table) → OneStart table }
{}
