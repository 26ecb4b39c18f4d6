//! Laws of messages, each proved for every string of octets. Nothing calls these functions.
ghost use Rattle.dns_grammar.specs.Extents.{SignatureStartsInside, OneStart};
ghost use Rattle.dns_rdata.specs.RDataTable.{rdata_table};
ghost use Rattle.dns_message.specs.Laws.{ViewShowsMessage, OneFault, MessageIsReadAgain, BogusWhereOneIs};

/// A view and a message that were read of the same octets agree, and where octets are no message, they have the same
/// fault.
pub fn view_shows_message()
    ensures shows { ViewShowsMessage }
    ensures fault { OneFault }
{}

/// A message that was read and is written, outside canonical form and in at most 65,535 octets, is read as a message
/// with the same parts, which ends where they end.
pub fn read_is_read_again()
    ensures { MessageIsReadAgain }
{}

/// Where the signature of a message starts: inside, at a place that the octets before it tell alone, since a name ends
/// with its first run, a question four octets behind its name, and a record behind its owner, ten octets and as many as
/// its length says (RFC 1035 4.1).
pub fn extent()
    ensures inside { SignatureStartsInside rdata_table }
    ensures one { OneStart rdata_table }
{}

/// Records are Bogus together exactly where one of them is that is no RRSIG.
pub fn summary_is_bogus()
    ensures { BogusWhereOneIs }
{}
