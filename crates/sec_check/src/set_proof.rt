//! The record sets of a message, each with how far it is proved authentic.

use dns_message::Section;
use dns_names::Name;
use dns_types::{DNSClass, RecordType};
use sec_codes::Proof;

/// A set of records: those of one section with the same owner, the same class and the same type (RFC 2181 5).
#[derive(Clone, Copy, Debug, PartialEq, Eq)]
pub struct SetProof {
    /// The section of the message in which the records stand.
    pub section: Section,
    /// The owner, spelled as in the first record of the set.
    pub owner: Name,
    /// The class of the records.
    pub dns_class: DNSClass,
    /// The type of the records.
    pub rtype: RecordType,
    /// How far the set is proved authentic.
    pub proof: Proof,
}
