//! Octets that are to be signed.
ghost use Rattle.std.specs.Prelude.{◌≡◌, false, true, None, Some, Ok};
ghost use Rattle.dns_wire.specs.declared.encoder.NameEncoding.TheVariants.{Uncompressed};
ghost use Rattle.dns_wire.specs.declared.error.EmitError.{EmitError};
ghost use Rattle.dns_wire.specs.Reading.{GivesUnless};
ghost use Rattle.sec_sigdata.specs.TsigRecords.{tsig_data};
ghost use Rattle.sec_tsig.specs.Tsig.{written_input};

use crate::mac_input::MacInput;
use crate::signer::TSigner;
use dns_grammar::FieldOut;
use dns_names::Name;
use dns_wire::{BinEncodable, BinEncoder, EmitError, Putting, emit_put};
use sec_sigdata::{TSIG, TsigVariables};
use std::alloc::Global;

/// The octets of a value.
fn octets_of<T: Putting>(alloc: Global, value: &T) -> Result<Vec<u8>, EmitError>
    ensures { GivesUnless EmitError.OutOfMemory (λ octets. octets.items) result
        (T.written false Uncompressed value.now) }
{
    let mut encoder = BinEncoder::new(alloc);
    emit_put(value, &mut encoder)?;
    Ok(encoder.into_bytes())
}

/// The octets of a message, and after them what is covered of a TSIG record of this owner, the key's name (RFC 8945
/// 4.3).
///
/// # Errors
///
/// The cause for which the message has no octets, then `TimeTooLarge` for a time of 2^48 or more, then `OtherTooLong`
/// for other data above 65,535 octets. Or `OutOfMemory`.
pub fn message_tbs<E: BinEncodable>(
    alloc: Global,
    message: &E,
    pre_tsig: &TSIG,
    key_name: &Name,
) -> Result<Vec<u8>, EmitError>
    ensures { GivesUnless EmitError.OutOfMemory (λ input. input.items) result
        (written_input None (E.written false Uncompressed message.now) true key_name.now (tsig_data pre_tsig.now)) }
{
    let tsig = pre_tsig.borrowed();
    let input = MacInput {
        previous: None,
        message,
        is_first: true,
        variables: &TsigVariables { key_name, tsig },
    };
    octets_of(alloc, &input)
}

impl TSigner {
    /// What is under the MAC of an answer that is sent with this TSIG, the first to a request of this MAC (RFC 8945
    /// 5.3).
    ///
    /// # Errors
    ///
    /// `MacTooLong` for a MAC of more than 65,535 octets, then `TimeTooLarge` for a time of 2^48 or more, then
    /// `OtherTooLong` for other data above 65,535 octets. Or `OutOfMemory`.
    pub fn encode_response_tbs(
        &self,
        previous_mac: &[u8],
        encoded_response: &[u8],
        stub_tsig: &TSIG,
    ) -> Result<Vec<u8>, EmitError>
        ensures { GivesUnless EmitError.OutOfMemory (λ input. input.items) result
            (written_input (Some previous_mac.now) (Ok encoded_response.now) true self.now.name (tsig_data stub_tsig.now)) }
    {
        let key_name = self.signer_name();
        let tsig = stub_tsig.borrowed();
        let input = MacInput {
            previous: Some(previous_mac),
            message: FieldOut::Octets(encoded_response),
            is_first: true,
            variables: &TsigVariables { key_name, tsig },
        };
        octets_of(self.alloc(), &input)
    }
}
