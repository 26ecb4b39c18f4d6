//! What record sets are told apart by.
ghost use Rattle.std.specs.Prelude.{◌≡◌};
ghost use Rattle.std.specs.Option.{option_map};
ghost use Rattle.dns_message.specs.Parts.{record_view};
ghost use Rattle.sec_sign.specs.Sets.{set_of};
ghost use Rattle.sec_sign.specs.Pairs.{signature_record};
ghost use Rattle.sec_check.specs.RecordSets.{forms_rrset};
ghost use Rattle.sec_check.specs.SectionRecords.{covered_set, name_of};

use dns_message::Record;
use dns_names::Name;
use dns_rdata::{DNSSECRData, RData};
use dns_types::RecordType;

/// What the sets of a section are told apart by, in an order.
#[derive(Clone, Copy, Debug, PartialEq, Eq, PartialOrd, Ord)]
pub(crate) struct RrsetKey {
    pub dns_class: u16,
    pub rtype: u16,
    pub owner: Name,
}

impl RrsetKey {
    /// The set that a record is of.
    pub(crate) fn of(rr: &Record<RData>) -> RrsetKey
        ensures { name_of result ≡ set_of (record_view rr.now) }
    {
        RrsetKey {
            dns_class: u16::from(rr.dns_class),
            rtype: u16::from(rr.record_type()),
            owner: rr.name,
        }
    }

    /// The set that a record covers, if it is an RRSIG with data.
    pub(crate) fn covered_by(rr: &Record<RData>) -> Option<RrsetKey>
        ensures { option_map name_of result ≡ covered_set (signature_record rr.now) }
    {
        match &rr.rdata {
            RData::DNSSEC(DNSSECRData::RRSIG(rrsig)) => Some(RrsetKey {
                dns_class: u16::from(rr.dns_class),
                rtype: u16::from(rrsig.input().type_covered),
                owner: rr.name,
            }),
            _ => None,
        }
    }
}

/// Whether records of this type form sets: all but signatures and OPT.
pub(crate) fn forms_rrset(rtype: RecordType) -> bool
    ensures { result ≡ forms_rrset rtype }
{
    rtype != RecordType::SIG
        && rtype != RecordType::OPT
        && rtype != RecordType::RRSIG
        && rtype != RecordType::TSIG
}
