//! Where a record of a message stands.
use dns_message::Section;
use dns_types::RecordType;

/// Where a record of a message stands, and what it is (RFC 1035 4.1.3).
#[derive(Clone, Copy, Debug, PartialEq, Eq)]
pub struct RecordPlace {
    /// The place of its first octet.
    pub start: usize,
    /// How many octets it has, from its owner to the end of its data.
    pub length: usize,
    /// The section in which it stands.
    pub section: Section,
    /// Its type.
    pub rtype: RecordType,
}
