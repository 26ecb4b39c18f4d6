//! The data of a record, of whatever type.
ghost use Rattle.std.specs.Prelude.{◌≡◌, Some, IfOk, true};
ghost use Rattle.dns_wire.specs.Reading.{GivesUnless};
ghost use Rattle.dns_grammar.specs.RecordData.{rdata_octets, fitting};
ghost use Rattle.dns_rdata.specs.RData.{rdata_type, rdata_row, rdata_values, IsCopy};

use crate::dnssec_rdata::DNSSECRData;
use crate::hosts::{AFSDB, KX, MX, PX, RT};
use crate::mailboxes::{MINFO, RP};
use crate::name_fields::{put_number_name, put_number_two_names, put_one_name, put_two_names};
use crate::naptr::NAPTR;
use crate::null::NULL;
use crate::soa::SOA;
use crate::srv::SRV;
use crate::txt::TXT;
use dns_grammar::{FieldOut, put_fields};
use dns_names::Name;
use dns_types::RecordType;
use dns_wire::{BinEncodable, BinEncoder, EmitError, Form, OctetSink, OutOfMemory, Putting};
use sec_sigdata::TSIG;
use std::alloc::Global;

/// The data of a record. A contract sees their type, fields and values, by `rdata_type`, `rdata_row` and
/// `rdata_values`.
#[derive(Debug, PartialEq, Eq, Hash, Drop)]
pub enum RData {
    /// An address of IPv4 (RFC 1035 3.4.1).
    A([u8; 4]),
    /// An address of IPv6 (RFC 3596 2.2).
    AAAA([u8; 16]),
    /// A name server (RFC 1035 3.3.11).
    NS(Name),
    /// A mail destination (RFC 1035 3.3.4).
    MD(Name),
    /// A mail forwarder (RFC 1035 3.3.5).
    MF(Name),
    /// The name that a name is an alias of (RFC 1035 3.3.1).
    CNAME(Name),
    /// The host of a mailbox (RFC 1035 3.3.3).
    MB(Name),
    /// A member of a mail group (RFC 1035 3.3.6).
    MG(Name),
    /// Another name of a mailbox (RFC 1035 3.3.8).
    MR(Name),
    /// The name that a name points to (RFC 1035 3.3.12).
    PTR(Name),
    /// The subtree that a subtree is an alias of (RFC 6672 2.1).
    DNAME(Name),
    /// A mail exchange (RFC 1035 3.3.9).
    MX(MX),
    /// A server of a cell (RFC 1183 1).
    AFSDB(AFSDB),
    /// A route through another host (RFC 1183 3.3).
    RT(RT),
    /// A key exchanger (RFC 2230 3).
    KX(KX),
    /// Mail between RFC 822 and X.400 (RFC 2163 4).
    PX(PX),
    /// Mailboxes of a mailing list (RFC 1035 3.3.7).
    MINFO(MINFO),
    /// A responsible person (RFC 1183 2.2).
    RP(RP),
    /// The start of a zone (RFC 1035 3.3.13).
    SOA(SOA),
    /// A server of a service (RFC 2782).
    SRV(SRV),
    /// A naming authority pointer (RFC 3403 4.1).
    NAPTR(NAPTR),
    /// Texts (RFC 1035 3.3.14).
    TXT(TXT),
    /// Any octets (RFC 1035 3.3.10).
    NULL(NULL),
    /// Options of EDNS, in their octets (RFC 6891 6.1.2).
    OPT(NULL),
    /// The data of DNSSEC.
    DNSSEC(DNSSECRData),
    /// A transaction signature (RFC 8945 4.2).
    TSIG(TSIG),
    /// The octets of a type that nothing is known of (RFC 3597).
    Unknown(RecordType, NULL),
    /// No data, in a record of an update (RFC 2136 2.4, 2.5).
    Update0(RecordType),
}

impl RData {
    /// The type of a record that has the data.
    pub fn record_type(&self) -> RecordType
        ensures { result ≡ rdata_type self.now }
    {
        match self {
            RData::A(_) => RecordType::A,
            RData::AAAA(_) => RecordType::AAAA,
            RData::NS(_) => RecordType::NS,
            RData::MD(_) => RecordType::MD,
            RData::MF(_) => RecordType::MF,
            RData::CNAME(_) => RecordType::CNAME,
            RData::MB(_) => RecordType::MB,
            RData::MG(_) => RecordType::MG,
            RData::MR(_) => RecordType::MR,
            RData::PTR(_) => RecordType::PTR,
            RData::DNAME(_) => RecordType::DNAME,
            RData::MX(_) => RecordType::MX,
            RData::AFSDB(_) => RecordType::AFSDB,
            RData::RT(_) => RecordType::RT,
            RData::KX(_) => RecordType::KX,
            RData::PX(_) => RecordType::PX,
            RData::MINFO(_) => RecordType::MINFO,
            RData::RP(_) => RecordType::RP,
            RData::SOA(_) => RecordType::SOA,
            RData::SRV(_) => RecordType::SRV,
            RData::NAPTR(_) => RecordType::NAPTR,
            RData::TXT(_) => RecordType::TXT,
            RData::NULL(_) => RecordType::NULL,
            RData::OPT(_) => RecordType::OPT,
            RData::DNSSEC(rdata) => rdata.record_type(),
            RData::TSIG(_) => RecordType::TSIG,
            RData::Unknown(rtype, _) | RData::Update0(rtype) => *rtype,
        }
    }

    /// A copy of the data.
    ///
    /// # Errors
    ///
    /// Out of memory.
    pub fn try_clone(&self, alloc: Global) -> Result<RData, OutOfMemory>
        ensures { IfOk result (λ copy. IsCopy self.now copy) }
    {
        let copy = match self {
            RData::A(octets) => RData::A(*octets),
            RData::AAAA(octets) => RData::AAAA(*octets),
            RData::NS(name) => RData::NS(*name),
            RData::MD(name) => RData::MD(*name),
            RData::MF(name) => RData::MF(*name),
            RData::CNAME(name) => RData::CNAME(*name),
            RData::MB(name) => RData::MB(*name),
            RData::MG(name) => RData::MG(*name),
            RData::MR(name) => RData::MR(*name),
            RData::PTR(name) => RData::PTR(*name),
            RData::DNAME(name) => RData::DNAME(*name),
            RData::MX(mx) => RData::MX(*mx),
            RData::AFSDB(afsdb) => RData::AFSDB(*afsdb),
            RData::RT(rt) => RData::RT(*rt),
            RData::KX(kx) => RData::KX(*kx),
            RData::PX(px) => RData::PX(*px),
            RData::MINFO(minfo) => RData::MINFO(*minfo),
            RData::RP(rp) => RData::RP(*rp),
            RData::SOA(soa) => RData::SOA(*soa),
            RData::SRV(srv) => RData::SRV(*srv),
            RData::NAPTR(naptr) => RData::NAPTR(naptr.try_clone()?),
            RData::TXT(txt) => RData::TXT(txt.try_clone(alloc)?),
            RData::NULL(null) => RData::NULL(null.try_clone()?),
            RData::OPT(null) => RData::OPT(null.try_clone()?),
            RData::DNSSEC(rdata) => RData::DNSSEC(rdata.try_clone(alloc)?),
            RData::TSIG(tsig) => RData::TSIG(tsig.try_clone()?),
            RData::Unknown(rtype, null) => RData::Unknown(*rtype, null.try_clone()?),
            RData::Update0(rtype) => RData::Update0(*rtype),
        };
        Ok(copy)
    }

    /// The data in canonical form (RFC 4034 6.2).
    ///
    /// # Errors
    ///
    /// The first field that can't be written decides: `StringTooLong`, `SaltTooLong`, `HashTooLong`, and for a TSIG
    /// `TimeTooLarge`, `MacTooLong` or `OtherTooLong`. Then `DataTooLong` for more than 65,535 octets. Or
    /// `OutOfMemory`.
    pub fn canonical_octets(&self, alloc: Global) -> Result<Vec<u8>, EmitError>
        ensures { GivesUnless EmitError.OutOfMemory (λ octets. octets.items) result
            (fitting (rdata_octets true (rdata_row self.now) (rdata_values self.now))) }
    {
        let mut encoder = BinEncoder::new(alloc);
        encoder.set_canonical_form(true);
        self.emit(&mut encoder)?;
        if encoder.len() > 65535 {
            return Err(EmitError::DataTooLong);
        }
        Ok(encoder.into_bytes())
    }
}

impl Putting for RData {
    ghost written = { λ canonical _ rdata. rdata_octets canonical (rdata_row rdata) (rdata_values rdata) };

    /// Puts the data. Names heed the canonical form and not its name encoding.
    ///
    /// # Errors
    ///
    /// The first field that can't be written decides: `StringTooLong`, `SaltTooLong`, `HashTooLong`, and for a TSIG
    /// `TimeTooLarge`, `MacTooLong` or `OtherTooLong`.
    fn put<S: OctetSink>(&self, form: Form, sink: &mut S) -> Result<(), EmitError> {
        match self {
            RData::A(octets) => put_fields(sink, form, &[FieldOut::Octets(octets)]),
            RData::AAAA(octets) => put_fields(sink, form, &[FieldOut::Octets(octets)]),
            RData::NS(name)
            | RData::MD(name)
            | RData::MF(name)
            | RData::CNAME(name)
            | RData::MB(name)
            | RData::MG(name)
            | RData::MR(name)
            | RData::PTR(name)
            | RData::DNAME(name) => put_one_name(sink, form, name),
            RData::MX(mx) => put_number_name(sink, form, mx.preference, &mx.exchange),
            RData::AFSDB(afsdb) => put_number_name(sink, form, afsdb.subtype, &afsdb.hostname),
            RData::RT(rt) => put_number_name(sink, form, rt.preference, &rt.intermediate),
            RData::KX(kx) => put_number_name(sink, form, kx.preference, &kx.exchanger),
            RData::PX(px) => {
                put_number_two_names(sink, form, px.preference, &px.map822, &px.mapx400)
            }
            RData::MINFO(minfo) => put_two_names(sink, form, &minfo.rmailbx, &minfo.emailbx),
            RData::RP(rp) => put_two_names(sink, form, &rp.mbox, &rp.txt),
            RData::SOA(soa) => soa.put(form, sink),
            RData::SRV(srv) => srv.put(form, sink),
            RData::NAPTR(naptr) => naptr.put(form, sink),
            RData::TXT(txt) => txt.put(form, sink),
            RData::NULL(null) | RData::OPT(null) | RData::Unknown(_, null) => null.put(form, sink),
            RData::DNSSEC(rdata) => rdata.put(form, sink),
            RData::TSIG(tsig) => tsig.put(form, sink),
            RData::Update0(_) => Ok(()),
        }
    }
}

impl BinEncodable for RData {}
