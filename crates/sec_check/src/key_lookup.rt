//! What a signature names its key by.
ghost use Rattle.std.specs.Prelude.{◌≡◌};
ghost use Rattle.sec_anchor.specs.Entries.{entry_data};
ghost use Rattle.sec_sign.specs.Pairs.{signature_record};
ghost use Rattle.sec_check.specs.Indexes.{name_in_rrsig, name_of_key};

use dns_message::Record;
use dns_names::Name;
use dns_rdata::{DNSSECRData, RData};
use sec_anchor::Entry;
use sec_codes::PublicKey;

/// What a signature names its key by (RFC 4034 3.1). The numbers are compared first.
#[derive(Clone, Copy, Debug, PartialEq, Eq, PartialOrd, Ord)]
pub(crate) struct KeyLookup {
    pub key_tag: u16,
    pub algorithm: u8,
    pub dns_class: u16,
    pub owner: Name,
}

impl KeyLookup {
    /// The name of an entry's key, unless the key is too long to have a tag.
    pub(crate) fn of_entry(entry: &Entry) -> Option<KeyLookup>
        ensures { result ≡ name_of_key (entry_data entry.now) }
    {
        let Entry::DNSKEY(record) = entry;
        let key = record.data();
        let Ok(key_tag) = key.calculate_key_tag() else {
            return None;
        };
        Some(KeyLookup {
            key_tag,
            algorithm: u8::from(key.public_key().algorithm()),
            dns_class: u16::from(record.dns_class()),
            owner: *record.name(),
        })
    }

    /// The name of the key of a record that is an RRSIG with data.
    pub(crate) fn in_rrsig(rr: &Record<RData>) -> Option<KeyLookup>
        ensures { result ≡ name_in_rrsig (signature_record rr.now) }
    {
        let RData::DNSSEC(DNSSECRData::RRSIG(rrsig)) = &rr.rdata else {
            return None;
        };
        let input = rrsig.input();
        Some(KeyLookup {
            key_tag: input.key_tag,
            algorithm: u8::from(input.algorithm),
            dns_class: u16::from(rr.dns_class),
            owner: input.signer_name,
        })
    }
}
