//! The sections of a message in which records stand.

/// A section of a message in which records stand (RFC 1035 4.1).
#[derive(Clone, Copy, Debug, PartialEq, Eq)]
pub enum Section {
    /// The answers.
    Answer,
    /// The authority records.
    Authority,
    /// The additional records.
    Additional,
}
