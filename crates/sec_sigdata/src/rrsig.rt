//! RRSIG records: signatures of record sets (RFC 4034 3).
ghost use Rattle.std.specs.Prelude.{◌≡◌, ◌≤◌, Some, IfOk, OnErr};
ghost use Rattle.dns_wire.specs.Reading.{octets, place};
ghost use Rattle.dns_names.specs.PointerCache.{IsPointerCache};
ghost use Rattle.dns_grammar.specs.Fields.{fields_octets};
ghost use Rattle.dns_grammar.specs.RowReaders.{ReadsRow};
ghost use Rattle.sec_sigdata.specs.SignatureRows.{sig_row};
ghost use Rattle.sec_sigdata.specs.Signatures.{sig_data, rrsig_data, sig_values, sig_text, SigIsByNumber};

use crate::sig::SIG;
use crate::sig_input::SigInput;
use dns_wire::{
    BinDecoder, BinEncodable, DecodeError, EmitError, Form, OctetSink, OutOfMemory, Putting,
    RecordDataDecodable,
};
use std::alloc::Global;
use std::fmt;
use std::ops::Deref;

/// A signature of a record set, in the fields of a SIG. A contract sees its parts, by `rrsig_data`.
#[derive(Debug, PartialEq, Eq, Hash, Drop)]
pub struct RRSIG(SIG);

impl RRSIG {
    /// A signature behind these fields.
    pub fn from_sig(input: SigInput, sig: Vec<u8>) -> RRSIG
        ensures { rrsig_data result ≡ record { input = input; sig = sig.items } }
    {
        RRSIG(SIG::new(input, sig))
    }

    /// A copy of the data.
    ///
    /// # Errors
    ///
    /// Out of memory.
    pub fn try_clone(&self) -> Result<RRSIG, OutOfMemory>
        ensures { IfOk result (λ copy. copy ≡ self.now) }
    {
        Ok(RRSIG(self.0.try_clone()?))
    }

    /// Reads the data of `length` octets at the decoder's place: the fields of a SIG.
    ///
    /// Pointers that were followed before are known from `cache`, and those that are met are noted there.
    ///
    /// # Errors
    ///
    /// Those of `read_data`.
    pub fn read_with(
        alloc: Global,
        decoder: &mut BinDecoder<'_>,
        length: u16,
        cache: &mut [u16],
    ) -> Result<RRSIG, DecodeError>
        requires cache { IsPointerCache (octets decoder.old) cache.old }
        ensures read { ReadsRow sig_row (λ rrsig. sig_values (rrsig_data rrsig))
            (λ rrsig. SigIsByNumber (rrsig_data rrsig)) length decoder.old decoder.new result }
        ensures octets { octets decoder.new ≡ octets decoder.old }
        ensures forward { place decoder.old ≤ place decoder.new }
        ensures refused { OnErr result (decoder.new ≡ decoder.old) }
        ensures cache { IsPointerCache (octets decoder.old) cache.new }
    {
        Ok(RRSIG(SIG::read_with(alloc, decoder, length, cache)?))
    }
}

impl Deref for RRSIG {
    type Target = SIG;

    ghost deref_gives = { λ rrsig sig. sig_data sig ≡ rrsig_data rrsig };

    fn deref(&self) -> &SIG {
        &self.0
    }
}

impl<'r> RecordDataDecodable<'r> for RRSIG {
    ghost is_read = { ReadsRow sig_row (λ rrsig. sig_values (rrsig_data rrsig))
        (λ rrsig. SigIsByNumber (rrsig_data rrsig)) };

    /// Reads the fields of a SIG, with its errors.
    fn read_data(
        alloc: Global,
        decoder: &mut BinDecoder<'r>,
        length: u16,
    ) -> Result<RRSIG, DecodeError> {
        RRSIG::read_with(alloc, decoder, length, &mut [])
    }
}

impl Putting for RRSIG {
    ghost written = { λ canonical _ rrsig. fields_octets canonical sig_row (sig_values (rrsig_data rrsig)) };

    fn put<S: OctetSink>(&self, form: Form, sink: &mut S) -> Result<(), EmitError> {
        self.0.put(form, sink)
    }
}

impl BinEncodable for RRSIG {}

/// The text of a SIG (RFC 4034 3.2).
impl fmt::Display for RRSIG {
    ghost output = { λ rrsig. Some (sig_text (rrsig_data rrsig)) };

    fn fmt<W: fmt::Write>(&self, f: &mut fmt::Formatter<W>) -> fmt::Result {
        write!(f, "{}", self.0)
    }
}
