//! Records (RFC 1035 4.1.3).
ghost use Rattle.std.specs.Prelude.{◌≡◌, IfOk};
ghost use Rattle.dns_types.specs.ClassNumbers as classes;
ghost use Rattle.dns_grammar.specs.RecordData.{tsig_type};
ghost use Rattle.dns_rdata.specs.RData.{rdata_type};
ghost use Rattle.dns_message.specs.MessageWriting.{written_record, written_tsig_record};
ghost use Rattle.dns_message.specs.Parts.{IsRecordCopy};
ghost use Rattle.sec_codes.specs.declared.proof.Proof.TheVariants.{Indeterminate};

use crate::record_writing::BorrowedRecord;
use dns_names::Name;
use dns_rdata::RData;
use dns_types::{DNSClass, RecordType};
use dns_wire::{BinEncodable, EmitError, Form, OctetSink, OutOfMemory, Putting};
use sec_codes::Proof;
use sec_sigdata::TSIG;
use std::alloc::Global;

/// A record: its owner, class, TTL and data, and how far it is proved authentic.
#[derive(Debug, Drop)]
pub struct Record<R> {
    /// The owner.
    pub name: Name,
    /// The class.
    pub dns_class: DNSClass,
    /// How many seconds the record may be kept.
    pub ttl: u32,
    /// The data.
    pub rdata: R,
    /// How far the record is proved authentic.
    pub proof: Proof,
}

impl<R> Record<R> {
    /// A record of class IN, of which nothing is proved.
    pub fn from_rdata(name: Name, ttl: u32, rdata: R) -> Record<R>
        ensures { result
            ≡ record { name = name; dns_class = classes.IN; ttl = ttl; rdata = rdata; proof = Indeterminate } }
    {
        Record {
            name,
            dns_class: DNSClass::IN,
            ttl,
            rdata,
            proof: Proof::Indeterminate,
        }
    }

    /// The record, borrowed, as one of this type.
    fn borrowed(&self, rtype: RecordType) -> BorrowedRecord<'_, R>
        ensures name { result.name.now ≡ self.now.name }
        ensures rtype { result.rtype ≡ rtype }
        ensures class { result.dns_class ≡ self.now.dns_class }
        ensures ttl { result.ttl ≡ self.now.ttl }
        ensures rdata { result.rdata.now ≡ self.now.rdata }
    {
        BorrowedRecord {
            name: &self.name,
            rtype,
            dns_class: self.dns_class,
            ttl: self.ttl,
            rdata: &self.rdata,
        }
    }
}

impl Record<RData> {
    /// The type of the record.
    pub fn record_type(&self) -> RecordType
        ensures { result ≡ rdata_type self.now.rdata }
    {
        self.rdata.record_type()
    }

    /// A copy of the record.
    ///
    /// # Errors
    ///
    /// Out of memory.
    pub fn try_clone(&self, alloc: Global) -> Result<Record<RData>, OutOfMemory>
        ensures { IfOk result (IsRecordCopy self.now) }
    {
        Ok(Record {
            name: self.name,
            dns_class: self.dns_class,
            ttl: self.ttl,
            rdata: self.rdata.try_clone(alloc)?,
            proof: self.proof,
        })
    }
}

impl Putting for Record<RData> {
    ghost written = { written_record };

    /// Puts the record (RFC 1035 4.1.3). Its owner heeds the name encoding, and its data the canonical
    /// form.
    ///
    /// # Errors
    ///
    /// The cause of the data's first field that can't be written, then `DataTooLong` for more than 65,535 octets of
    /// data.
    fn put<S: OctetSink>(&self, form: Form, sink: &mut S) -> Result<(), EmitError> {
        self.borrowed(self.rdata.record_type()).put(form, sink)
    }
}

impl BinEncodable for Record<RData> {}

impl Record<TSIG> {
    /// The type of the record.
    pub fn record_type(&self) -> RecordType
        ensures { result ≡ tsig_type }
    {
        RecordType::TSIG
    }
}

impl Putting for Record<TSIG> {
    ghost written = { written_tsig_record };

    /// Puts the record (RFC 1035 4.1.3). Its owner heeds the name encoding.
    ///
    /// # Errors
    ///
    /// `TimeTooLarge`, `MacTooLong` and `OtherTooLong` in this order, then `DataTooLong` for more than 65,535 octets of
    /// data.
    fn put<S: OctetSink>(&self, form: Form, sink: &mut S) -> Result<(), EmitError> {
        self.borrowed(RecordType::TSIG).put(form, sink)
    }
}

impl BinEncodable for Record<TSIG> {}
