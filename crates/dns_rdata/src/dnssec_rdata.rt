//! The data of DNSSEC records: keys, digests of keys, signatures and denial.
ghost use Rattle.std.specs.Prelude.{◌≡◌, Some, IfOk};
ghost use Rattle.dns_wire.specs.Sinks.{Puts};
ghost use Rattle.dns_grammar.specs.Fields.{fields_octets};
ghost use Rattle.dns_rdata.specs.RData.{dnssec_row, dnssec_type, dnssec_values, dnssec_text, IsDnssecCopy};

use crate::null::NULL;
use dns_text::Base64Text;
use dns_types::RecordType;
use dns_wire::{EmitError, Form, OctetSink, OutOfMemory, Putting};
use sec_keydata::{CDNSKEY, CDS, DNSKEY, DS, KEY};
use sec_sigdata::{NSEC, NSEC3, NSEC3PARAM, RRSIG, SIG};
use std::alloc::Global;
use std::fmt;

/// The data of a DNSSEC record. A contract sees their type, fields and values, by `dnssec_type`, `dnssec_row` and
/// `dnssec_values`.
#[derive(Debug, PartialEq, Eq, Hash, Drop)]
pub enum DNSSECRData {
    /// A DNSKEY that the child asks for (RFC 7344 3.2).
    CDNSKEY(CDNSKEY),
    /// A DS record that the child asks for (RFC 7344 3.1).
    CDS(CDS),
    /// A key of a zone (RFC 4034 2).
    DNSKEY(DNSKEY),
    /// The digest of a key (RFC 4034 5).
    DS(DS),
    /// A key of other uses (RFC 2535 3).
    KEY(KEY),
    /// The next name of a zone (RFC 4034 4).
    NSEC(NSEC),
    /// The next hashed name of a zone (RFC 5155 3).
    NSEC3(NSEC3),
    /// How a zone's names are hashed (RFC 5155 4).
    NSEC3PARAM(NSEC3PARAM),
    /// A signature of a record set (RFC 4034 3).
    RRSIG(RRSIG),
    /// A signature of a message (RFC 2931).
    SIG(SIG),
    /// Data of another type. Reading never makes them.
    Unknown {
        /// The number of the type.
        code: u16,
        /// The octets.
        rdata: NULL,
    },
}

impl DNSSECRData {
    /// The type of a record that has the data.
    pub(crate) fn record_type(&self) -> RecordType
        ensures { result ≡ dnssec_type self.now }
    {
        match self {
            DNSSECRData::CDNSKEY(_) => RecordType::CDNSKEY,
            DNSSECRData::CDS(_) => RecordType::CDS,
            DNSSECRData::DNSKEY(_) => RecordType::DNSKEY,
            DNSSECRData::DS(_) => RecordType::DS,
            DNSSECRData::KEY(_) => RecordType::KEY,
            DNSSECRData::NSEC(_) => RecordType::NSEC,
            DNSSECRData::NSEC3(_) => RecordType::NSEC3,
            DNSSECRData::NSEC3PARAM(_) => RecordType::NSEC3PARAM,
            DNSSECRData::RRSIG(_) => RecordType::RRSIG,
            DNSSECRData::SIG(_) => RecordType::SIG,
            DNSSECRData::Unknown { code, .. } => RecordType::from(*code),
        }
    }

    /// A copy of the data.
    ///
    /// # Errors
    ///
    /// Out of memory.
    pub fn try_clone(&self, _alloc: Global) -> Result<DNSSECRData, OutOfMemory>
        ensures { IfOk result (λ copy. IsDnssecCopy self.now copy) }
    {
        let copy = match self {
            DNSSECRData::CDNSKEY(key) => DNSSECRData::CDNSKEY(key.try_clone()?),
            DNSSECRData::CDS(cds) => DNSSECRData::CDS(cds.try_clone()?),
            DNSSECRData::DNSKEY(key) => DNSSECRData::DNSKEY(key.try_clone()?),
            DNSSECRData::DS(ds) => DNSSECRData::DS(ds.try_clone()?),
            DNSSECRData::KEY(key) => DNSSECRData::KEY(key.try_clone()?),
            DNSSECRData::NSEC(nsec) => DNSSECRData::NSEC(nsec.try_clone()?),
            DNSSECRData::NSEC3(nsec3) => DNSSECRData::NSEC3(nsec3.try_clone()?),
            DNSSECRData::NSEC3PARAM(param) => DNSSECRData::NSEC3PARAM(param.try_clone()?),
            DNSSECRData::RRSIG(rrsig) => DNSSECRData::RRSIG(rrsig.try_clone()?),
            DNSSECRData::SIG(sig) => DNSSECRData::SIG(sig.try_clone()?),
            DNSSECRData::Unknown { code, rdata } => DNSSECRData::Unknown {
                code: *code,
                rdata: rdata.try_clone()?,
            },
        };
        Ok(copy)
    }

    /// Writes the data.
    pub(crate) fn put<S: OctetSink>(&self, form: Form, sink: &mut S) -> Result<(), EmitError>
        ensures { Puts S.has_taken result sink.old sink.new
            (fields_octets form.canonical_form (dnssec_row self.now) (dnssec_values self.now)) }
    {
        match self {
            DNSSECRData::CDNSKEY(key) => key.put(form, sink),
            DNSSECRData::CDS(cds) => cds.put(form, sink),
            DNSSECRData::DNSKEY(key) => key.put(form, sink),
            DNSSECRData::DS(ds) => ds.put(form, sink),
            DNSSECRData::KEY(key) => key.put(form, sink),
            DNSSECRData::NSEC(nsec) => nsec.put(form, sink),
            DNSSECRData::NSEC3(nsec3) => nsec3.put(form, sink),
            DNSSECRData::NSEC3PARAM(param) => param.put(form, sink),
            DNSSECRData::RRSIG(rrsig) => rrsig.put(form, sink),
            DNSSECRData::SIG(sig) => sig.put(form, sink),
            DNSSECRData::Unknown { rdata, .. } => rdata.put(form, sink),
        }
    }
}

/// The text of the data of their type; octets of a type that is none of these are base64.
impl fmt::Display for DNSSECRData {
    ghost output = { λ rdata. Some (dnssec_text rdata) };

    fn fmt<W: fmt::Write>(&self, f: &mut fmt::Formatter<W>) -> fmt::Result {
        match self {
            DNSSECRData::CDNSKEY(key) => write!(f, "{key}"),
            DNSSECRData::CDS(cds) => write!(f, "{cds}"),
            DNSSECRData::DNSKEY(key) => write!(f, "{key}"),
            DNSSECRData::DS(ds) => write!(f, "{ds}"),
            DNSSECRData::KEY(key) => write!(f, "{key}"),
            DNSSECRData::NSEC(nsec) => write!(f, "{nsec}"),
            DNSSECRData::NSEC3(nsec3) => write!(f, "{nsec3}"),
            DNSSECRData::NSEC3PARAM(param) => write!(f, "{param}"),
            DNSSECRData::RRSIG(rrsig) => write!(f, "{rrsig}"),
            DNSSECRData::SIG(sig) => write!(f, "{sig}"),
            DNSSECRData::Unknown { rdata, .. } => write!(f, "{}", Base64Text(rdata.anything())),
        }
    }
}
