//! The entries of an anchor text.
ghost use Rattle.std.specs.Prelude.{◌≡◌};
ghost use Rattle.dns_types.specs.TypeNumbers as types;
ghost use Rattle.sec_keydata.specs.WellFormedKeys.{is_well_formed};
ghost use Rattle.sec_anchor.specs.Entries.{entry_data};

use dns_names::Name;
use dns_types::{DNSClass, RecordType};
use sec_keydata::DNSKEY;

/// A record as it stands in an anchor text: its TTL may be left out.
#[derive(Debug, Drop)]
pub struct Record<R> {
    name_labels: Name,
    dns_class: DNSClass,
    ttl: Option<u32>,
    rdata: R,
}

impl<R> Record<R> {
    pub(crate) fn new(name: Name, dns_class: DNSClass, ttl: Option<u32>, rdata: R) -> Record<R>
        ensures { result ≡ record { name_labels = name; dns_class = dns_class; ttl = ttl; rdata = rdata } }
    {
        Record {
            name_labels: name,
            dns_class,
            ttl,
            rdata,
        }
    }

    /// The data.
    pub fn data(&self) -> &R
        ensures { result.now ≡ self.now.rdata }
    {
        &self.rdata
    }

    /// The class.
    pub fn dns_class(&self) -> DNSClass
        ensures { result ≡ self.now.dns_class }
    {
        self.dns_class
    }

    /// The time to live in seconds, where the text has one.
    pub fn ttl(&self) -> Option<u32>
        ensures { result ≡ self.now.ttl }
    {
        self.ttl
    }

    /// The owner.
    pub fn name(&self) -> &Name
        ensures { result.now ≡ self.now.name_labels }
    {
        &self.name_labels
    }
}

impl Record<DNSKEY> {
    /// The type: DNSKEY.
    pub fn record_type(&self) -> RecordType
        ensures { result ≡ types.DNSKEY }
    {
        RecordType::DNSKEY
    }
}

/// An entry of an anchor text. A contract sees its owner, class, TTL and key, by `entry_data`.
#[derive(Debug, Drop)]
pub enum Entry {
    /// A DNSKEY record.
    DNSKEY(Record<DNSKEY>),
}

impl Entry {
    /// Whether the algorithm is supported, the key has the form of its algorithm's keys (RFC 3110 2, RFC 6605 4,
    /// RFC 8080 3) and has at most 65,531 octets, so that the data fit a record (RFC 1035 3.2.1).
    pub fn is_well_formed(&self) -> bool
        ensures { result ≡ is_well_formed (entry_data self.now).dnskey.public_key }
    {
        let Entry::DNSKEY(record) = self;
        record.rdata.is_well_formed()
    }
}
