//! What a MAC covers of its own TSIG record (RFC 8945 4.3.3).
ghost use Rattle.dns_wire.specs.Sinks.{Puts};
ghost use Rattle.dns_grammar.specs.Fields.{fields_octets};
ghost use Rattle.sec_sigdata.specs.TsigRecords.{borrowed_data, variables_row, variables_values};

use crate::borrowed_tsig::BorrowedTsig;
use dns_grammar::{FieldOut, put_fields};
use dns_names::Name;
use dns_types::DNSClass;
use dns_wire::{EmitError, Form, OctetSink, Putting};

/// The TSIG variables (RFC 8945 4.3.3): the key's name, class ANY, TTL 0, and the data without MAC and original ID. Names
/// are in lower case.
#[derive(Clone, Copy, Debug)]
pub struct TsigVariables<'a> {
    /// The name of the key, which is the record's owner.
    pub key_name: &'a Name,
    /// The data of the record.
    pub tsig: BorrowedTsig<'a>,
}

impl Putting for TsigVariables<'_> {
    ghost use Rattle.sec_sigdata.specs.TsigRecords.{borrowed_data, written_variables};

    ghost written = { λ _ _ variables. written_variables variables.key_name.now (borrowed_data variables.tsig) };

    /// Puts the variables, in one form.
    ///
    /// # Errors
    ///
    /// `TimeTooLarge` for a time of 2^48 or more, then `OtherTooLong` above 65,535 octets.
    fn put<S: OctetSink>(&self, form: Form, sink: &mut S) -> Result<(), EmitError> {
        let algorithm = self.tsig.algorithm.to_name().to_lowercase();
        put_variables(
            sink,
            form,
            &self.key_name.to_lowercase(),
            &algorithm,
            &self.tsig,
        )
    }
}

/// Puts the variables, with names in lower case.
fn put_variables<'a, S: OctetSink>(
    sink: &mut S,
    form: Form,
    owner: &'a Name,
    algorithm: &'a Name,
    tsig: &'a BorrowedTsig<'a>,
) -> Result<(), EmitError>
    ensures { Puts S.has_taken result sink.old sink.new
        (fields_octets form.canonical_form variables_row
        (variables_values owner.now algorithm.now (borrowed_data tsig.now))) }
{
    put_fields(
        sink,
        form,
        &[
            FieldOut::KeptName(owner),
            FieldOut::U16(DNSClass::ANY.into()),
            FieldOut::U32(0),
            FieldOut::KeptName(algorithm),
            FieldOut::Time(tsig.time),
            FieldOut::U16(tsig.fudge),
            FieldOut::U16(tsig.error_number()),
            FieldOut::Counted16(tsig.other, EmitError::OtherTooLong),
        ],
    )
}
