//! TSIG data in the octets that they were read from.
ghost use Rattle.std.specs.Prelude.{◌≡◌, ◌≤◌, length, IfOk};
ghost use Rattle.dns_wire.specs.Reading.{octets, place, Gives};
ghost use Rattle.dns_wire.specs.Sinks.{Puts};
ghost use Rattle.dns_names.specs.PointerCache.{IsPointerCache};
ghost use Rattle.dns_grammar.specs.Fields.{fields_octets};
ghost use Rattle.dns_grammar.specs.RecordData.{fields_filling};
ghost use Rattle.dns_grammar.specs.Tables.{tsig_row};
ghost use Rattle.sec_sigdata.specs.TsigAlgorithms.{algorithm_name};
ghost use Rattle.sec_sigdata.specs.TsigRecords.{borrowed_data, borrowed_fields, borrowed_values, TsigFits};
ghost use Rattle.sec_sigdata.specs.TsigRecords.{TsigIsByNumber};

use crate::tsig_algorithm::TsigAlgorithm;
use crate::tsig_error::{TsigError, optional_error, optional_error_number};
use dns_grammar::{FieldOut, expect_end, put_fields};
use dns_names::Name;
use dns_wire::{BinDecoder, DecodeError, EmitError, Form, OctetSink, Putting};

/// The data of a TSIG record (RFC 8945 4.2), whose octets are borrowed.
#[derive(Clone, Copy, Debug)]
pub struct BorrowedTsig<'a> {
    /// The algorithm of the MAC.
    pub algorithm: TsigAlgorithm,
    /// The time of signing, in seconds from 1970 on.
    pub time: u64,
    /// Seconds by which the time may be off.
    pub fudge: u16,
    /// The MAC.
    pub mac: &'a [u8],
    /// The ID of the message when it was signed.
    pub oid: u16,
    /// Why the request was not accepted.
    pub error: Option<TsigError>,
    /// The server's time, where the error is `BadTime`.
    pub other: &'a [u8],
}

impl<'a> BorrowedTsig<'a> {
    /// Reads the data of a TSIG record, which fill the octets up to `end`. It takes no memory.
    ///
    /// Pointers that were followed before are known from `cache`, and those that are met are noted there.
    ///
    /// # Errors
    ///
    /// The first field that fails decides: `InsufficientBytes` where an octet is needed past `end`, the faults of
    /// `Name::read_with` for the algorithm's name, and `IncorrectRDataLengthRead` where octets are left over.
    #[tactic(auto, unfolding(dns_grammar::specs::RecordData::fields_filling))]
    pub fn read_with(
        mut reader: BinDecoder<'a>,
        end: usize,
        cache: &mut [u16],
    ) -> Result<BorrowedTsig<'a>, DecodeError>
        requires ahead { place reader ≤ end }
        requires inside { end ≤ length (octets reader) }
        requires cache { IsPointerCache (octets reader) cache.old }
        ensures exact { Gives borrowed_values result
            (fields_filling tsig_row (octets reader.entry) (place reader.entry) end) }
        ensures named { IfOk result (λ tsig. TsigIsByNumber (borrowed_fields tsig)) }
        ensures fits { IfOk result (λ tsig. TsigFits (borrowed_fields tsig)) }
        ensures cache { IsPointerCache (octets reader.entry) cache.new }
    {
        let start = reader.index();
        let algorithm = Name::read_with(&mut reader, end, cache)?;
        let time = reader.read_time_within(end)?;
        let fudge = reader.read_u16_within(end)?;
        let mac = reader.read_counted16_within(end)?;
        let oid = reader.read_u16_within(end)?;
        let error = reader.read_u16_within(end)?;
        let other = reader.read_counted16_within(end)?;
        expect_end(&reader, start, end)?;
        Ok(BorrowedTsig {
            algorithm: TsigAlgorithm::from_name(algorithm),
            time,
            fudge,
            mac,
            oid,
            error: optional_error(error),
            other,
        })
    }

    /// Reads the data of a TSIG record, which fill the octets up to `end`. It takes no memory.
    ///
    /// # Errors
    ///
    /// The first field that fails decides: `InsufficientBytes` where an octet is needed past `end`, the faults of
    /// `Name::read_within` for the algorithm's name, and `IncorrectRDataLengthRead` where octets are left over.
    pub fn read_within(reader: BinDecoder<'a>, end: usize) -> Result<BorrowedTsig<'a>, DecodeError>
        requires ahead { place reader ≤ end }
        requires inside { end ≤ length (octets reader) }
        ensures exact { Gives borrowed_values result
            (fields_filling tsig_row (octets reader.entry) (place reader.entry) end) }
        ensures named { IfOk result (λ tsig. TsigIsByNumber (borrowed_fields tsig)) }
        ensures fits { IfOk result (λ tsig. TsigFits (borrowed_fields tsig)) }
    {
        BorrowedTsig::read_with(reader, end, &mut [])
    }

    /// The number of the error, and 0 for none (RFC 8945 4.2).
    pub fn error_number(&self) -> u16
        ensures { result ≡ (borrowed_data self.now).error }
    {
        optional_error_number(self.error)
    }
}

impl Putting for BorrowedTsig<'_> {
    ghost use Rattle.dns_grammar.specs.Fields.{fields_octets};
    ghost use Rattle.dns_grammar.specs.Tables.{tsig_row};
    ghost use Rattle.sec_sigdata.specs.TsigRecords.{borrowed_values};

    ghost written = { λ canonical _ tsig. fields_octets canonical tsig_row (borrowed_values tsig) };

    /// Puts the data of a TSIG record. The algorithm's name keeps its letters.
    ///
    /// # Errors
    ///
    /// `TimeTooLarge` for a time of 2^48 or more, `MacTooLong` and `OtherTooLong` above 65,535 octets, in this order.
    fn put<S: OctetSink>(&self, form: Form, sink: &mut S) -> Result<(), EmitError> {
        put_with_algorithm(sink, form, &self.algorithm.to_name(), self)
    }
}

/// Puts the data with the name of their algorithm.
fn put_with_algorithm<'a, S: OctetSink>(
    sink: &mut S,
    form: Form,
    algorithm: &'a Name,
    tsig: &'a BorrowedTsig<'a>,
) -> Result<(), EmitError>
    requires { algorithm.now ≡ algorithm_name tsig.now.algorithm }
    ensures { Puts S.has_taken result sink.old sink.new
        (fields_octets form.canonical_form tsig_row (borrowed_values tsig.now)) }
{
    put_fields(
        sink,
        form,
        &[
            FieldOut::KeptName(algorithm),
            FieldOut::Time(tsig.time),
            FieldOut::U16(tsig.fudge),
            FieldOut::Counted16(tsig.mac, EmitError::MacTooLong),
            FieldOut::U16(tsig.oid),
            FieldOut::U16(tsig.error_number()),
            FieldOut::Counted16(tsig.other, EmitError::OtherTooLong),
        ],
    )
}
