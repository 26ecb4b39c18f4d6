//! How questions and records are written (RFC 1035 4.1).
ghost use Rattle.std.specs.Prelude.{◌≡◌, ◌++◌};
ghost use Rattle.dns_wire.specs.Octets.{two_octets, four_octets};
ghost use Rattle.dns_wire.specs.Sinks.{Takes};
ghost use Rattle.dns_grammar.specs.MessageWriting.{head_octets, query_octets};
ghost use Rattle.dns_message.specs.MessageWriting.{borrowed_head};
ghost use Rattle.dns_message.specs.Views.{query_view};

use crate::query::Query;
use dns_names::{Name, put_name};
use dns_types::{DNSClass, RecordType};
use dns_wire::{EmitError, Form, NameEncoding, OctetSink, Putting, put_len, put_u16, put_u32};

impl Putting for Query {
    ghost use Rattle.std.specs.Prelude.{Ok};
    ghost use Rattle.dns_grammar.specs.MessageWriting.{query_octets};
    ghost use Rattle.dns_message.specs.Views.{query_view};

    ghost written = { λ _ encoding query. query_octets encoding (query_view query) };

    /// Puts the question (RFC 1035 4.1.2). Its name heeds the name encoding.
    fn put<S: OctetSink>(&self, form: Form, sink: &mut S) -> Result<(), EmitError> {
        put_name(sink, form.name_encoding, &self.name);
        put_u16(sink, self.query_type.into());
        put_u16(sink, self.query_class.into());
        Ok(())
    }
}

/// A record whose owner and data are borrowed (RFC 1035 4.1.3).
#[derive(Clone, Copy, Debug)]
pub struct BorrowedRecord<'a, R> {
    /// The owner.
    pub name: &'a Name,
    /// The type.
    pub rtype: RecordType,
    /// The class.
    pub dns_class: DNSClass,
    /// How many seconds the record may be kept.
    pub ttl: u32,
    /// The data.
    pub rdata: &'a R,
}

/// Puts type, class, TTL and the length of the data.
fn put_numbers<R, S: OctetSink>(sink: &mut S, rr: &BorrowedRecord<'_, R>, data_length: u16)
    ensures { Takes S.has_taken sink.old sink.new
        (two_octets rr.now.rtype
        ++ (two_octets rr.now.dns_class ++ (four_octets rr.now.ttl ++ two_octets data_length))) }
{
    put_u16(sink, rr.rtype.into());
    put_u16(sink, rr.dns_class.into());
    put_u32(sink, rr.ttl);
    put_u16(sink, data_length);
}

/// Puts what comes before the data.
fn put_head<R, S: OctetSink>(
    sink: &mut S,
    name_encoding: NameEncoding,
    rr: &BorrowedRecord<'_, R>,
    data_length: u16,
)
    ensures { Takes S.has_taken sink.old sink.new
        (head_octets name_encoding (borrowed_head rr.now) data_length) }
{
    put_name(sink, name_encoding, rr.name);
    put_numbers(sink, rr, data_length);
}

impl<R: Putting> Putting for BorrowedRecord<'_, R> {
    ghost use Rattle.dns_message.specs.MessageWriting.{borrowed_head, with_rdata};

    ghost written = { λ canonical encoding rr.
        with_rdata encoding (borrowed_head rr) (R.written canonical encoding rr.rdata.now) };

    /// Puts the record (RFC 1035 4.1.3). Its owner heeds the name encoding.
    ///
    /// # Errors
    ///
    /// The cause for which there are no octets of the data, or `DataTooLong` for more than 65,535 of them.
    #[tactic(auto, using(dns_wire::proofs::PutLaws::took_none))]
    fn put<S: OctetSink>(&self, form: Form, sink: &mut S) -> Result<(), EmitError> {
        let length = put_len(self.rdata, form)?;
        let Ok(data_length) = u16::try_from(length) else {
            return Err(EmitError::DataTooLong);
        };
        put_head(sink, form.name_encoding, self, data_length);
        self.rdata.put(form, sink)
    }
}
