//! KEY records: keys of other uses than DNSSEC's (RFC 2535 3, RFC 3445).
ghost use Rattle.std.specs.Prelude.{◌≡◌, ◌↔◌, ◌/◌, ◌%◌, ◌^◌, Some, IfOk, IsTrue};
ghost use Rattle.dns_wire.specs.Reading.{octets, place, ReadsUnless};
ghost use Rattle.dns_grammar.specs.Fields.{Num, no_fault, fields_octets};
ghost use Rattle.dns_grammar.specs.RecordData.{one_type_data_at};
ghost use Rattle.dns_grammar.specs.RowReaders.{ReadsRow};
ghost use Rattle.sec_keydata.specs.KeyRows.{key_flags_fault, key_row};
ghost use Rattle.sec_keydata.specs.KeyUses.{trust_code, usage_code, scope_bits, all_flags};
ghost use Rattle.sec_keydata.specs.KeyData.{key_data, key_values, key_text, KeyIsByNumber};

use crate::key_uses::{KeyTrust, KeyUsage, UpdateScope};
use crate::protocol::Protocol;
use dns_grammar::{FieldOut, data_end, put_fields};
use dns_text::Base64Text;
use dns_wire::{
    BinDecoder, BinEncodable, DecodeError, EmitError, Form, OctetSink, Octets, OutOfMemory,
    Putting, RecordDataDecodable,
};
use sec_codes::Algorithm;
use std::alloc::Global;
use std::fmt;

/// The flags that are reserved (RFC 2535 3.1.2).
const RESERVED: u16 = 0x2cf0;

/// The flag that says that more flags follow (RFC 2535 3.1.2).
const EXTENDED: u16 = 0x1000;

/// Whether the flags of a KEY have no reserved one, and don't say that more follow (RFC 2535 3.1.2).
///
/// # Errors
///
/// `KeyFlagsReserved`, or else `ExtendedKeyFlagsUnsupported`.
pub fn check_key_flags(flags: u16) -> Result<(), DecodeError>
    ensures { result ≡ no_fault (key_flags_fault (Num flags)) }
{
    if flags & RESERVED != 0 {
        return Err(DecodeError::KeyFlagsReserved(flags));
    }
    if flags & EXTENDED != 0 {
        return Err(DecodeError::ExtendedKeyFlagsUnsupported(flags));
    }
    Ok(())
}

/// A public key. A contract sees its parts, by `key_data`.
#[derive(Debug, PartialEq, Eq, Hash, Drop)]
pub struct KEY {
    flags: u16,
    protocol: Protocol,
    algorithm: Algorithm,
    public_key: Octets,
}

impl KEY {
    /// A key with the flags of these three, and no other flag.
    pub fn new(
        key_trust: KeyTrust,
        key_usage: KeyUsage,
        signatory: UpdateScope,
        protocol: Protocol,
        algorithm: Algorithm,
        public_key: Vec<u8>,
    ) -> KEY
        ensures { key_data result
            ≡ record {
              flags = all_flags key_trust key_usage signatory;
              protocol = protocol;
              algorithm = algorithm;
              public_key = public_key.items;
            } }
    {
        KEY {
            flags: u16::from(key_trust) + u16::from(key_usage) + u16::from(signatory),
            protocol,
            algorithm,
            public_key: Octets::from_vec(public_key),
        }
    }

    /// What the key may be used for.
    pub fn key_trust(&self) -> KeyTrust
        ensures { trust_code result ≡ (key_data self.now).flags / 2 ^ 14 % 4 }
    {
        KeyTrust::from(self.flags)
    }

    /// Whose key it is.
    pub fn key_usage(&self) -> KeyUsage
        ensures { usage_code result ≡ (key_data self.now).flags / 2 ^ 8 % 4 }
    {
        KeyUsage::from(self.flags)
    }

    /// Which updates the key may sign.
    pub fn signatory(&self) -> UpdateScope
        ensures { scope_bits result ≡ (key_data self.now).flags % 16 }
    {
        UpdateScope::from(self.flags)
    }

    /// Whether there is no key (RFC 2535 3.1.2), which is so where the two highest flags are set.
    pub fn revoke(&self) -> bool
        ensures { IsTrue result ↔ ((key_data self.now).flags / 2 ^ 14 % 4 ≡ trust_code KeyTrust.DoNotTrust) }
    {
        self.key_trust() == KeyTrust::DoNotTrust
    }

    /// The protocol that the key is for.
    pub fn protocol(&self) -> Protocol
        ensures { result ≡ (key_data self.now).protocol }
    {
        self.protocol
    }

    /// The algorithm of the key.
    pub fn algorithm(&self) -> Algorithm
        ensures { result ≡ (key_data self.now).algorithm }
    {
        self.algorithm
    }

    /// The octets of the key.
    pub fn public_key(&self) -> &[u8]
        ensures { result.now ≡ (key_data self.now).public_key }
    {
        self.public_key.as_slice()
    }

    /// All flags.
    pub fn flags(&self) -> u16
        ensures { result ≡ (key_data self.now).flags }
    {
        self.flags
    }

    /// A copy of the data.
    ///
    /// # Errors
    ///
    /// Out of memory.
    pub fn try_clone(&self) -> Result<KEY, OutOfMemory>
        ensures { IfOk result (λ copy. copy ≡ self.now) }
    {
        Ok(KEY {
            flags: self.flags,
            protocol: self.protocol,
            algorithm: self.algorithm,
            public_key: self.public_key.try_clone()?,
        })
    }

    /// Reads the fields of the data.
    #[tactic(auto, unfolding(dns_grammar::specs::RecordData::one_type_data_at, dns_grammar::specs::RecordData::fields_filling))]
    fn read_fields(
        alloc: Global,
        decoder: &mut BinDecoder<'_>,
        length: u16,
    ) -> Result<KEY, DecodeError>
        ensures exact { ReadsUnless (λ key. key_values (key_data key)) result decoder.old decoder.new
            (one_type_data_at key_row (octets decoder.old) (place decoder.old) length) }
        ensures by_number { IfOk result (λ key. KeyIsByNumber (key_data key)) }
    {
        let end = data_end(decoder, length)?;
        let mut reader = *decoder;
        let flags = reader.read_u16_within(end)?;
        check_key_flags(flags)?;
        let protocol = reader.read_u8_within(end)?;
        let algorithm = reader.read_u8_within(end)?;
        let public_key = Octets::from_slice(alloc, reader.read_rest_within(end))?;
        *decoder = reader;
        Ok(KEY {
            flags,
            protocol: Protocol::from(protocol),
            algorithm: Algorithm::from_u8(algorithm),
            public_key,
        })
    }
}

impl<'r> RecordDataDecodable<'r> for KEY {
    ghost is_read = { ReadsRow key_row (λ key. key_values (key_data key)) (λ key. KeyIsByNumber (key_data key)) };

    /// Reads flags, protocol, algorithm and key.
    ///
    /// # Errors
    ///
    /// `InsufficientBytes` where an octet is needed past the data, `KeyFlagsReserved` or `ExtendedKeyFlagsUnsupported`,
    /// or `OutOfMemory`.
    #[tactic(auto, using(dns_grammar::proofs::RowReaderLaws::reads_row))]
    fn read_data(
        alloc: Global,
        decoder: &mut BinDecoder<'r>,
        length: u16,
    ) -> Result<KEY, DecodeError> {
        KEY::read_fields(alloc, decoder, length)
    }
}

impl Putting for KEY {
    ghost written = { λ canonical _ key. fields_octets canonical key_row (key_values (key_data key)) };

    fn put<S: OctetSink>(&self, form: Form, sink: &mut S) -> Result<(), EmitError> {
        put_fields(
            sink,
            form,
            &[
                FieldOut::U16(self.flags),
                FieldOut::U8(self.protocol.into()),
                FieldOut::U8(self.algorithm.into()),
                FieldOut::Octets(self.public_key.as_slice()),
            ],
        )
    }
}

impl BinEncodable for KEY {}

/// Flags, protocol number, name of the algorithm, key in base64 (RFC 2535 7.1).
impl fmt::Display for KEY {
    ghost output = { λ key. Some (key_text (key_data key)) };

    fn fmt<W: fmt::Write>(&self, f: &mut fmt::Formatter<W>) -> fmt::Result {
        write!(
            f,
            "{} {} {} {}",
            self.flags,
            u8::from(self.protocol),
            self.algorithm,
            Base64Text(self.public_key.as_slice())
        )
    }
}
