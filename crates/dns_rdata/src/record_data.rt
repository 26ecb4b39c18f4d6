//! Record data of one type as record data of any type, and back.
ghost use Rattle.std.specs.Prelude.{◌≡◌, IsSome};
ghost use Rattle.std.specs.Option.{ForSome};
ghost use Rattle.dns_rdata.specs.RData.{rdata_type};

use crate::dnssec_rdata::DNSSECRData;
use crate::rdata::RData;
use dns_types::RecordType;
use sec_keydata::{CDNSKEY, CDS, DNSKEY, DS, KEY};
use sec_sigdata::{NSEC, NSEC3, NSEC3PARAM, RRSIG, SIG, TSIG};

/// The data of one type of record.
pub trait RecordData: Sized {
    ghost use Rattle.dns_rdata.specs.declared.rdata.RData.{RData};

    // the record data that hold the value
    ghost variant: { Self → RData };

    /// The value, where the record data are of this type.
    fn try_borrow(rdata: &RData) -> Option<&Self>
        ensures found { ForSome result (λ value. rdata.now ≡ variant value.now) }
        ensures only { (value : Self) → rdata.now ≡ variant value → IsSome result };

    /// The type of a record that has the data.
    fn record_type(&self) -> RecordType
        ensures { result ≡ rdata_type (variant self.now) };

    /// The record data that hold the value.
    fn into_rdata(self) -> RData
        ensures { result ≡ variant self };
}

impl RecordData for CDNSKEY {
    ghost use Rattle.dns_rdata.specs.declared.dnssec_rdata.DNSSECRData.TheVariants as dnssec;
    ghost use Rattle.dns_rdata.specs.declared.rdata.RData.TheVariants as rdata;

    ghost variant = { λ value. rdata.DNSSEC (dnssec.CDNSKEY value) };

    fn try_borrow(rdata: &RData) -> Option<&CDNSKEY> {
        match rdata {
            RData::DNSSEC(DNSSECRData::CDNSKEY(value)) => Some(value),
            _ => None,
        }
    }

    fn record_type(&self) -> RecordType {
        RecordType::CDNSKEY
    }

    fn into_rdata(self) -> RData {
        RData::DNSSEC(DNSSECRData::CDNSKEY(self))
    }
}

impl RecordData for CDS {
    ghost use Rattle.dns_rdata.specs.declared.dnssec_rdata.DNSSECRData.TheVariants as dnssec;
    ghost use Rattle.dns_rdata.specs.declared.rdata.RData.TheVariants as rdata;

    ghost variant = { λ value. rdata.DNSSEC (dnssec.CDS value) };

    fn try_borrow(rdata: &RData) -> Option<&CDS> {
        match rdata {
            RData::DNSSEC(DNSSECRData::CDS(value)) => Some(value),
            _ => None,
        }
    }

    fn record_type(&self) -> RecordType {
        RecordType::CDS
    }

    fn into_rdata(self) -> RData {
        RData::DNSSEC(DNSSECRData::CDS(self))
    }
}

impl RecordData for DNSKEY {
    ghost use Rattle.dns_rdata.specs.declared.dnssec_rdata.DNSSECRData.TheVariants as dnssec;
    ghost use Rattle.dns_rdata.specs.declared.rdata.RData.TheVariants as rdata;

    ghost variant = { λ value. rdata.DNSSEC (dnssec.DNSKEY value) };

    fn try_borrow(rdata: &RData) -> Option<&DNSKEY> {
        match rdata {
            RData::DNSSEC(DNSSECRData::DNSKEY(value)) => Some(value),
            _ => None,
        }
    }

    fn record_type(&self) -> RecordType {
        RecordType::DNSKEY
    }

    fn into_rdata(self) -> RData {
        RData::DNSSEC(DNSSECRData::DNSKEY(self))
    }
}

impl RecordData for DS {
    ghost use Rattle.dns_rdata.specs.declared.dnssec_rdata.DNSSECRData.TheVariants as dnssec;
    ghost use Rattle.dns_rdata.specs.declared.rdata.RData.TheVariants as rdata;

    ghost variant = { λ value. rdata.DNSSEC (dnssec.DS value) };

    fn try_borrow(rdata: &RData) -> Option<&DS> {
        match rdata {
            RData::DNSSEC(DNSSECRData::DS(value)) => Some(value),
            _ => None,
        }
    }

    fn record_type(&self) -> RecordType {
        RecordType::DS
    }

    fn into_rdata(self) -> RData {
        RData::DNSSEC(DNSSECRData::DS(self))
    }
}

impl RecordData for KEY {
    ghost use Rattle.dns_rdata.specs.declared.dnssec_rdata.DNSSECRData.TheVariants as dnssec;
    ghost use Rattle.dns_rdata.specs.declared.rdata.RData.TheVariants as rdata;

    ghost variant = { λ value. rdata.DNSSEC (dnssec.KEY value) };

    fn try_borrow(rdata: &RData) -> Option<&KEY> {
        match rdata {
            RData::DNSSEC(DNSSECRData::KEY(value)) => Some(value),
            _ => None,
        }
    }

    fn record_type(&self) -> RecordType {
        RecordType::KEY
    }

    fn into_rdata(self) -> RData {
        RData::DNSSEC(DNSSECRData::KEY(self))
    }
}

impl RecordData for NSEC {
    ghost use Rattle.dns_rdata.specs.declared.dnssec_rdata.DNSSECRData.TheVariants as dnssec;
    ghost use Rattle.dns_rdata.specs.declared.rdata.RData.TheVariants as rdata;

    ghost variant = { λ value. rdata.DNSSEC (dnssec.NSEC value) };

    fn try_borrow(rdata: &RData) -> Option<&NSEC> {
        match rdata {
            RData::DNSSEC(DNSSECRData::NSEC(value)) => Some(value),
            _ => None,
        }
    }

    fn record_type(&self) -> RecordType {
        RecordType::NSEC
    }

    fn into_rdata(self) -> RData {
        RData::DNSSEC(DNSSECRData::NSEC(self))
    }
}

impl RecordData for NSEC3 {
    ghost use Rattle.dns_rdata.specs.declared.dnssec_rdata.DNSSECRData.TheVariants as dnssec;
    ghost use Rattle.dns_rdata.specs.declared.rdata.RData.TheVariants as rdata;

    ghost variant = { λ value. rdata.DNSSEC (dnssec.NSEC3 value) };

    fn try_borrow(rdata: &RData) -> Option<&NSEC3> {
        match rdata {
            RData::DNSSEC(DNSSECRData::NSEC3(value)) => Some(value),
            _ => None,
        }
    }

    fn record_type(&self) -> RecordType {
        RecordType::NSEC3
    }

    fn into_rdata(self) -> RData {
        RData::DNSSEC(DNSSECRData::NSEC3(self))
    }
}

impl RecordData for NSEC3PARAM {
    ghost use Rattle.dns_rdata.specs.declared.dnssec_rdata.DNSSECRData.TheVariants as dnssec;
    ghost use Rattle.dns_rdata.specs.declared.rdata.RData.TheVariants as rdata;

    ghost variant = { λ value. rdata.DNSSEC (dnssec.NSEC3PARAM value) };

    fn try_borrow(rdata: &RData) -> Option<&NSEC3PARAM> {
        match rdata {
            RData::DNSSEC(DNSSECRData::NSEC3PARAM(value)) => Some(value),
            _ => None,
        }
    }

    fn record_type(&self) -> RecordType {
        RecordType::NSEC3PARAM
    }

    fn into_rdata(self) -> RData {
        RData::DNSSEC(DNSSECRData::NSEC3PARAM(self))
    }
}

impl RecordData for RRSIG {
    ghost use Rattle.dns_rdata.specs.declared.dnssec_rdata.DNSSECRData.TheVariants as dnssec;
    ghost use Rattle.dns_rdata.specs.declared.rdata.RData.TheVariants as rdata;

    ghost variant = { λ value. rdata.DNSSEC (dnssec.RRSIG value) };

    fn try_borrow(rdata: &RData) -> Option<&RRSIG> {
        match rdata {
            RData::DNSSEC(DNSSECRData::RRSIG(value)) => Some(value),
            _ => None,
        }
    }

    fn record_type(&self) -> RecordType {
        RecordType::RRSIG
    }

    fn into_rdata(self) -> RData {
        RData::DNSSEC(DNSSECRData::RRSIG(self))
    }
}

impl RecordData for SIG {
    ghost use Rattle.dns_rdata.specs.declared.dnssec_rdata.DNSSECRData.TheVariants as dnssec;
    ghost use Rattle.dns_rdata.specs.declared.rdata.RData.TheVariants as rdata;

    ghost variant = { λ value. rdata.DNSSEC (dnssec.SIG value) };

    fn try_borrow(rdata: &RData) -> Option<&SIG> {
        match rdata {
            RData::DNSSEC(DNSSECRData::SIG(value)) => Some(value),
            _ => None,
        }
    }

    fn record_type(&self) -> RecordType {
        RecordType::SIG
    }

    fn into_rdata(self) -> RData {
        RData::DNSSEC(DNSSECRData::SIG(self))
    }
}

impl RecordData for TSIG {
    ghost use Rattle.dns_rdata.specs.declared.rdata.RData.TheVariants as rdata;

    ghost variant = { rdata.TSIG };

    fn try_borrow(rdata: &RData) -> Option<&TSIG> {
        match rdata {
            RData::TSIG(value) => Some(value),
            _ => None,
        }
    }

    fn record_type(&self) -> RecordType {
        RecordType::TSIG
    }

    fn into_rdata(self) -> RData {
        RData::TSIG(self)
    }
}

impl From<CDNSKEY> for RData {
    ghost use Rattle.dns_rdata.specs.declared.dnssec_rdata.DNSSECRData.TheVariants as dnssec;
    ghost use Rattle.dns_rdata.specs.declared.rdata.RData.TheVariants as rdata;

    ghost from_gives = { λ value result. result ≡ rdata.DNSSEC (dnssec.CDNSKEY value) };

    fn from(value: CDNSKEY) -> RData {
        value.into_rdata()
    }
}

impl From<CDS> for RData {
    ghost use Rattle.dns_rdata.specs.declared.dnssec_rdata.DNSSECRData.TheVariants as dnssec;
    ghost use Rattle.dns_rdata.specs.declared.rdata.RData.TheVariants as rdata;

    ghost from_gives = { λ value result. result ≡ rdata.DNSSEC (dnssec.CDS value) };

    fn from(value: CDS) -> RData {
        value.into_rdata()
    }
}

impl From<DNSKEY> for RData {
    ghost use Rattle.dns_rdata.specs.declared.dnssec_rdata.DNSSECRData.TheVariants as dnssec;
    ghost use Rattle.dns_rdata.specs.declared.rdata.RData.TheVariants as rdata;

    ghost from_gives = { λ value result. result ≡ rdata.DNSSEC (dnssec.DNSKEY value) };

    fn from(value: DNSKEY) -> RData {
        value.into_rdata()
    }
}

impl From<KEY> for RData {
    ghost use Rattle.dns_rdata.specs.declared.dnssec_rdata.DNSSECRData.TheVariants as dnssec;
    ghost use Rattle.dns_rdata.specs.declared.rdata.RData.TheVariants as rdata;

    ghost from_gives = { λ value result. result ≡ rdata.DNSSEC (dnssec.KEY value) };

    fn from(value: KEY) -> RData {
        value.into_rdata()
    }
}

impl From<DNSSECRData> for RData {
    ghost use Rattle.dns_rdata.specs.declared.rdata.RData.TheVariants as rdata;

    ghost from_gives = { λ value result. result ≡ rdata.DNSSEC value };

    fn from(value: DNSSECRData) -> RData {
        RData::DNSSEC(value)
    }
}
