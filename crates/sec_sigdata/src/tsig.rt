//! TSIG records: the signature of a message (RFC 8945).
ghost use Rattle.std.specs.Prelude.{◌≡◌, ◌≤◌, Some, IfOk, OnErr};
ghost use Rattle.dns_wire.specs.Reading.{octets, place, ReadsUnless};
ghost use Rattle.dns_wire.specs.Writing.{Writes};
ghost use Rattle.dns_names.specs.PointerCache.{IsPointerCache};
ghost use Rattle.dns_grammar.specs.Fields.{fields_octets};
ghost use Rattle.dns_grammar.specs.RecordData.{one_type_data_at};
ghost use Rattle.dns_grammar.specs.RowReaders.{ReadsRow};
ghost use Rattle.dns_grammar.specs.Tables.{tsig_row};
ghost use Rattle.dns_grammar.specs.Messages.{tsig_values};
ghost use Rattle.sec_sigdata.specs.TsigRecords.{tsig_data, tsig_fields, borrowed_fields, TsigIsByNumber, TsigFits};
ghost use Rattle.sec_sigdata.specs.TsigRecords.{signed_text, error_text, tsig_text};
ghost use Rattle.sec_sigdata.specs.TsigRecords.{written_variables};

use crate::borrowed_tsig::BorrowedTsig;
use crate::tsig_algorithm::TsigAlgorithm;
use crate::tsig_error::{TsigError, optional_error_number};
use crate::tsig_variables::TsigVariables;
use dns_grammar::data_end;
use dns_names::Name;
use dns_text::LowerHex;
use dns_wire::{
    BinDecoder, BinEncodable, BinEncoder, DecodeError, EmitError, Form, OctetSink, OutOfMemory,
    Putting, RecordDataDecodable, emit_put,
};
use std::alloc::Global;
use std::fmt;

/// The signature of a message (RFC 8945 4.2). A contract sees its parts, by `tsig_fields`.
#[derive(Debug, PartialEq, Eq, Hash, Drop)]
pub struct TSIG {
    /// The algorithm of the MAC.
    pub algorithm: TsigAlgorithm,
    /// The time of signing, in seconds from 1970 on.
    pub time: u64,
    /// Seconds by which the time may be off.
    pub fudge: u16,
    /// The MAC.
    pub mac: Vec<u8>,
    /// The ID of the message when it was signed.
    pub oid: u16,
    /// Why the request was not accepted.
    pub error: Option<TsigError>,
    /// The server's time, where the error is `BadTime`.
    pub other: Vec<u8>,
}

impl TSIG {
    /// A signature with these fields.
    pub fn new(
        algorithm: TsigAlgorithm,
        time: u64,
        fudge: u16,
        mac: Vec<u8>,
        oid: u16,
        error: Option<TsigError>,
        other: Vec<u8>,
    ) -> TSIG
        ensures { tsig_fields result
            ≡ record {
              algorithm = algorithm;
              time = time;
              fudge = fudge;
              mac = mac.items;
              oid = oid;
              error = error;
              other = other.items;
            } }
    {
        TSIG {
            algorithm,
            time,
            fudge,
            mac,
            oid,
            error,
            other,
        }
    }

    /// The signature with another MAC.
    pub fn set_mac(self, mac: Vec<u8>) -> TSIG
        ensures { tsig_fields result ≡ record (tsig_fields self) { mac = mac.items } }
    {
        TSIG { mac, ..self }
    }

    /// A copy of the data.
    ///
    /// # Errors
    ///
    /// Out of memory.
    pub fn try_clone(&self) -> Result<TSIG, OutOfMemory>
        ensures { IfOk result (λ copy. tsig_fields copy ≡ tsig_fields self.now) }
    {
        Ok(TSIG {
            algorithm: self.algorithm,
            time: self.time,
            fudge: self.fudge,
            mac: self.mac.clone()?,
            oid: self.oid,
            error: self.error,
            other: self.other.clone()?,
        })
    }

    /// The same data, borrowed.
    pub fn borrowed(&self) -> BorrowedTsig<'_>
        ensures { borrowed_fields result ≡ tsig_fields self.now }
    {
        BorrowedTsig {
            algorithm: self.algorithm,
            time: self.time,
            fudge: self.fudge,
            mac: self.mac.as_slice(),
            oid: self.oid,
            error: self.error,
            other: self.other.as_slice(),
        }
    }

    /// Writes what a MAC covers of a TSIG record of this owner, the key's name: the TSIG variables (RFC 8945 4.3.3),
    /// with names in lower case. The MAC and the original ID are none of them.
    ///
    /// # Errors
    ///
    /// `TimeTooLarge` for a time of 2^48 or more, then `OtherTooLong` above 65,535 octets, or `OutOfMemory`. The
    /// encoder then stays as it was.
    pub fn emit_tsig_for_mac(
        &self,
        encoder: &mut BinEncoder,
        key_name: &Name,
    ) -> Result<(), EmitError>
        ensures { Writes result encoder.old encoder.new (written_variables key_name.now (tsig_data self.now)) }
    {
        let tsig = self.borrowed();
        emit_put(&TsigVariables { key_name, tsig }, encoder)
    }

    /// Reads the data of `length` octets at the decoder's place: algorithm name, time, fudge, MAC, original ID, error and
    /// other data.
    ///
    /// Pointers that were followed before are known from `cache`, and those that are met are noted there.
    ///
    /// # Errors
    ///
    /// Those of `read_data`.
    #[tactic(auto, using(dns_grammar::proofs::RowReaderLaws::reads_row))]
    pub fn read_with(
        alloc: Global,
        decoder: &mut BinDecoder<'_>,
        length: u16,
        cache: &mut [u16],
    ) -> Result<TSIG, DecodeError>
        requires cache { IsPointerCache (octets decoder.old) cache.old }
        ensures read { ReadsRow tsig_row (λ tsig. tsig_values (tsig_data tsig))
            (λ tsig. TsigIsByNumber (tsig_fields tsig)) length decoder.old decoder.new result }
        ensures fits { IfOk result (λ tsig. TsigFits (tsig_fields tsig)) }
        ensures octets { octets decoder.new ≡ octets decoder.old }
        ensures forward { place decoder.old ≤ place decoder.new }
        ensures refused { OnErr result (decoder.new ≡ decoder.old) }
        ensures cache { IsPointerCache (octets decoder.old) cache.new }
    {
        TSIG::read_fields(alloc, decoder, length, cache)
    }

    /// Reads the fields of the data.
    #[tactic(auto, unfolding(dns_grammar::specs::RecordData::one_type_data_at))]
    fn read_fields(
        alloc: Global,
        decoder: &mut BinDecoder<'_>,
        length: u16,
        cache: &mut [u16],
    ) -> Result<TSIG, DecodeError>
        requires cache { IsPointerCache (octets decoder.old) cache.old }
        ensures exact { ReadsUnless (λ tsig. tsig_values (tsig_data tsig)) result decoder.old decoder.new
            (one_type_data_at tsig_row (octets decoder.old) (place decoder.old) length) }
        ensures by_number { IfOk result (λ tsig. TsigIsByNumber (tsig_fields tsig)) }
        ensures fits { IfOk result (λ tsig. TsigFits (tsig_fields tsig)) }
        ensures cache { IsPointerCache (octets decoder.old) cache.new }
    {
        let end = data_end(decoder, length)?;
        // A `match`, since the check has no rule for `?` at a value that holds a name and a reference.
        match BorrowedTsig::read_with(*decoder, end, cache) {
            Ok(view) => {
                let mac = Vec::from_slice(alloc, view.mac)?;
                let other = Vec::from_slice(alloc, view.other)?;
                decoder.set_index(end);
                Ok(TSIG {
                    algorithm: view.algorithm,
                    time: view.time,
                    fudge: view.fudge,
                    mac,
                    oid: view.oid,
                    error: view.error,
                    other,
                })
            }
            Err(fault) => Err(fault),
        }
    }
}

impl<'r> RecordDataDecodable<'r> for TSIG {
    ghost is_read = { λ len old new result.
        ReadsRow tsig_row (λ tsig. tsig_values (tsig_data tsig)) (λ tsig. TsigIsByNumber (tsig_fields tsig))
        len old new result
        × IfOk result (λ tsig. TsigFits (tsig_fields tsig)) };

    /// Reads algorithm name, time, fudge, MAC, original ID, error and other data.
    ///
    /// # Errors
    ///
    /// `InsufficientBytes` where fewer octets are left than `length`, and for a `length` of 0. Then the first field
    /// that fails decides: `InsufficientBytes` where an octet is needed past the data, the faults of
    /// `Name::read_within` for the algorithm's name, and `IncorrectRDataLengthRead` where octets are left over. Or
    /// `OutOfMemory`.
    fn read_data(
        alloc: Global,
        decoder: &mut BinDecoder<'r>,
        length: u16,
    ) -> Result<TSIG, DecodeError> {
        TSIG::read_with(alloc, decoder, length, &mut [])
    }
}

impl Putting for TSIG {
    ghost written = { λ canonical _ tsig. fields_octets canonical tsig_row (tsig_values (tsig_data tsig)) };

    /// Puts the data. The algorithm's name keeps its letters, whatever the name encoding and form.
    ///
    /// # Errors
    ///
    /// `TimeTooLarge` for a time of 2^48 or more, `MacTooLong` and `OtherTooLong` above 65,535 octets, in this order.
    fn put<S: OctetSink>(&self, form: Form, sink: &mut S) -> Result<(), EmitError> {
        self.borrowed().put(form, sink)
    }
}

impl BinEncodable for TSIG {}

/// Algorithm, time, fudge and MAC.
#[derive(Drop)]
struct SignedText<'a>(&'a TSIG);

impl fmt::Display for SignedText<'_> {
    ghost output = { λ text. Some (signed_text (tsig_fields text.0.now)) };

    #[tactic(auto, unfolding(crate::specs::TsigRecords::signed_text))]
    fn fmt<W: fmt::Write>(&self, f: &mut fmt::Formatter<W>) -> fmt::Result {
        let tsig = self.0;
        write!(
            f,
            "{} {} {} {}",
            tsig.algorithm,
            tsig.time,
            tsig.fudge,
            LowerHex(tsig.mac.as_slice())
        )
    }
}

/// Original ID, error number and other data.
#[derive(Drop)]
struct ErrorText<'a>(&'a TSIG);

impl fmt::Display for ErrorText<'_> {
    ghost output = { λ text. Some (error_text (tsig_fields text.0.now)) };

    #[tactic(auto, unfolding(crate::specs::TsigRecords::error_text))]
    fn fmt<W: fmt::Write>(&self, f: &mut fmt::Formatter<W>) -> fmt::Result {
        let tsig = self.0;
        write!(
            f,
            "{} {} {}",
            tsig.oid,
            optional_error_number(tsig.error),
            LowerHex(tsig.other.as_slice())
        )
    }
}

/// The seven fields: the algorithm's name without its last dot, the MAC and the other data in lower-case hexadecimal,
/// and numbers in decimal digits.
impl fmt::Display for TSIG {
    ghost output = { λ tsig. Some (tsig_text (tsig_fields tsig)) };

    fn fmt<W: fmt::Write>(&self, f: &mut fmt::Formatter<W>) -> fmt::Result {
        write!(f, "{} {}", SignedText(self), ErrorText(self))
    }
}
