//! The octets under a MAC (RFC 8945 4.3), put piece by piece into what takes octets in.
ghost use Rattle.std.specs.Prelude.{◌≡◌, ◌<◌, ◌^◌, ℕ, List, length, false, Ok, IsOk};
ghost use Rattle.std.specs.Option.{option_copied, ForSome};
ghost use Rattle.dns_wire.specs.declared.encoder.NameEncoding.TheVariants.{Uncompressed};
ghost use Rattle.dns_wire.specs.Sinks.{Puts, Takes};
ghost use Rattle.sec_sigdata.specs.TsigRecords.{borrowed_data};
ghost use Rattle.sec_tsig.specs.Tsig.{mac_input, written_timers, IsCounted};

use dns_grammar::FieldOut;
use dns_wire::{EmitError, Form, NameEncoding, OctetSink, Putting};
use sec_sigdata::{BorrowedTsig, TsigVariables};

/// How all is written: names with the letters that they have, and none compressed.
pub(crate) const FORM: Form = Form {
    canonical_form: false,
    name_encoding: NameEncoding::Uncompressed,
};

/// Puts the timers of a TSIG record (RFC 8945 5.3.1).
fn put_timers<S: OctetSink>(
    sink: &mut S,
    form: Form,
    tsig: &BorrowedTsig<'_>,
) -> Result<(), EmitError>
    ensures { Puts S.has_taken result sink.old sink.new (written_timers (borrowed_data tsig.now)) }
{
    (FieldOut::Time(tsig.time), FieldOut::U16(tsig.fudge)).put(form, sink)
}

/// What a MAC covers of its own TSIG record: the variables in a first message, the timers in a later one (RFC 8945
/// 5.3.1).
#[derive(Clone, Copy)]
struct CoveredFields<'a> {
    is_first: bool,
    variables: &'a TsigVariables<'a>,
}

impl Putting for CoveredFields<'_> {
    ghost use Rattle.sec_sigdata.specs.TsigRecords.{borrowed_data};
    ghost use Rattle.sec_tsig.specs.Tsig.{written_covered};

    ghost written = { λ _ _ covered. written_covered covered.is_first covered.variables.now.key_name.now
        (borrowed_data covered.variables.now.tsig) };

    fn put<S: OctetSink>(&self, form: Form, sink: &mut S) -> Result<(), EmitError> {
        if self.is_first {
            self.variables.put(form, sink)
        } else {
            put_timers(sink, form, &self.variables.tsig)
        }
    }
}

/// The octets under a MAC (RFC 8945 4.3): the MAC of the message before, or none, the message without its TSIG record, and
/// what is covered of that record.
#[derive(Clone, Copy)]
pub(crate) struct MacInput<'a, M> {
    /// The MAC of the message before.
    pub(crate) previous: Option<&'a [u8]>,
    /// The message.
    pub(crate) message: M,
    /// Whether the message is a request or the first answer to it.
    pub(crate) is_first: bool,
    /// The owner and the data of the record.
    pub(crate) variables: &'a TsigVariables<'a>,
}

impl<M: Putting> Putting for MacInput<'_, M> {
    ghost use Rattle.std.specs.Option.{option_copied};
    ghost use Rattle.sec_sigdata.specs.TsigRecords.{borrowed_data};
    ghost use Rattle.sec_tsig.specs.Tsig.{written_input};

    ghost written = { λ canonical encoding input. written_input (option_copied input.previous)
        (M.written canonical encoding input.message) input.is_first input.variables.now.key_name.now
        (borrowed_data input.variables.now.tsig) };

    /// Puts the octets.
    ///
    /// # Errors
    ///
    /// `MacTooLong` for a MAC of more than 65,535 octets. Then the cause for which the message has no octets, then
    /// `TimeTooLarge` for a time of 2^48 or more, then, in a first message, `OtherTooLong` for other data above 65,535
    /// octets.
    fn put<S: OctetSink>(&self, form: Form, sink: &mut S) -> Result<(), EmitError> {
        let covered = CoveredFields {
            is_first: self.is_first,
            variables: self.variables,
        };
        let message = (&self.message, covered);
        match self.previous {
            Some(mac) => {
                (FieldOut::Counted16(mac, EmitError::MacTooLong), message).put(form, sink)
            }
            None => message.put(form, sink),
        }
    }
}

/// Puts the octets under a MAC whose fields fit.
pub(crate) fn put_input<S: OctetSink, M: Putting>(sink: &mut S, input: &MacInput<'_, M>)
    requires message { IsOk (M.written false Uncompressed input.now.message) }
    requires previous { ForSome (option_copied input.now.previous) IsCounted }
    requires time { input.now.variables.now.tsig.time < 2 ^ 48 }
    requires other { length input.now.variables.now.tsig.other.now < 2 ^ 16 }
    ensures { (octets : List ℕ) → M.written false Uncompressed input.now.message ≡ Ok octets
        → Takes S.has_taken sink.old sink.new (mac_input (option_copied input.now.previous) input.now.is_first octets
        input.now.variables.now.key_name.now (borrowed_data input.now.variables.now.tsig)) }
{
    input.put(FORM, sink).unwrap();
}
