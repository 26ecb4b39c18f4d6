//! What a pair of a signature and a key is of, and by whom.
use dns_names::Name;
use dns_types::{DNSClass, RecordType};
use sec_keydata::DNSKEY;

/// What names a record set (RFC 2181 5).
#[derive(Clone, Copy, Debug)]
pub struct RrsetName<'a> {
    /// The owner of its records.
    pub name: &'a Name,
    /// Their class.
    pub dns_class: DNSClass,
    /// Their type.
    pub rtype: RecordType,
}

/// A key of a zone.
#[derive(Clone, Copy, Debug)]
pub struct ZoneKey<'a> {
    /// The owner of its record, which is the name of the zone.
    pub owner: &'a Name,
    /// The class of its record.
    pub dns_class: DNSClass,
    /// The key.
    pub dnskey: &'a DNSKEY,
}
