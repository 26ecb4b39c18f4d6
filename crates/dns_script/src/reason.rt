//! Why a line of a script is faulty, and the word for it.

use std::fmt;

/// Why a line of a script is faulty.
#[derive(Clone, Copy, Debug, PartialEq, Eq)]
pub enum Reason {
    /// An octet that is neither visible ASCII nor a blank.
    Text,
    /// A first word that begins no line.
    Word,
    /// A line that can't stand here.
    Order,
    /// No anchor line: its text has no entries.
    Anchor,
    /// No key line.
    Key,
    /// No request line, or a request that can't be signed.
    Request,
    /// No answer line.
    Answer,
    /// No moment line.
    Moment,
    /// No step line.
    Step,
    /// No records line.
    Records,
    /// No zone line.
    Zone,
    /// No message line.
    Message,
    /// No set line.
    Set,
    /// The script ends, and something is missing.
    End,
}

/// The word of the text.
impl fmt::Display for Reason {
    ghost use Rattle.std.specs.Prelude.{Some};
    ghost use Rattle.dns_script.specs.Faults.{reason_word};

    ghost output = { λ reason. Some (reason_word reason) };

    fn fmt<W: fmt::Write>(&self, f: &mut fmt::Formatter<W>) -> fmt::Result {
        f.write_str(match self {
            Reason::Text => "text",
            Reason::Word => "word",
            Reason::Order => "order",
            Reason::Anchor => "anchor",
            Reason::Key => "key",
            Reason::Request => "request",
            Reason::Answer => "answer",
            Reason::Moment => "moment",
            Reason::Step => "step",
            Reason::Records => "records",
            Reason::Zone => "zone",
            Reason::Message => "message",
            Reason::Set => "set",
            Reason::End => "end",
        })
    }
}
