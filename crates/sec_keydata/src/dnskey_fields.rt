//! The fields of DNSKEY and CDNSKEY data (RFC 4034 2.1, RFC 7344 3.2), and what is made of them without a copy of the
//! key.
ghost use Rattle.std.specs.Prelude.{◌≡◌, ◌≤◌, ◌++◌, length, take, nat_lt, Some};
ghost use Rattle.dns_names.specs.Names.{wire, low};
ghost use Rattle.dns_wire.specs.Reading.{octets, place, Gives, Reads};
ghost use Rattle.dns_wire.specs.Sinks.{Puts};
ghost use Rattle.dns_grammar.specs.Fields.{Num, no_fault, fields_octets};
ghost use Rattle.dns_grammar.specs.RecordData.{one_type_data_at};
ghost use Rattle.sec_digest.specs.Digests.{digest_octets};
ghost use Rattle.sec_keydata.specs.DnsKeys.{dnskey_fields};
ghost use Rattle.sec_keydata.specs.KeyDigests.{fields_digest, secure_entry_key};
ghost use Rattle.sec_keydata.specs.KeyRows.{dnskey_row, protocol_fault};
ghost use Rattle.sec_keydata.specs.KeyTags.{key_octets, fields_tag};
ghost use Rattle.sec_keydata.specs.PublicKeyFields.{lent_fields, public_key_values, public_key_text};

use crate::dnskey_flags::flags_of;
use crate::key_data_error::KeyDataError;
use crate::key_tag::{octet_sum, tag_of_sum};
use dns_grammar::{FieldOut, data_end, put_fields};
use dns_names::Name;
use dns_text::Base64Text;
use dns_wire::{BinDecoder, DecodeError, EmitError, Form, OctetSink};
use sec_codes::PublicKey;
use sec_digest::{Digest, DigestType};
use std::fmt;

/// The protocol of each key (RFC 4034 2.1.2).
const PROTOCOL: u8 = 3;

/// Whether the protocol of a DNSKEY or CDNSKEY is 3 (RFC 4034 2.1.2).
///
/// # Errors
///
/// `DnsKeyProtocolNot3`.
pub fn check_protocol(protocol: u8) -> Result<(), DecodeError>
    ensures { result ≡ no_fault (protocol_fault (Num protocol)) }
{
    if protocol == PROTOCOL {
        Ok(())
    } else {
        Err(DecodeError::DnsKeyProtocolNot3(protocol))
    }
}

/// How many octets a key has at most: a record's data have 65,535 (RFC 1035 3.2.1), and four stand before the key.
pub(crate) const LONGEST_KEY: usize = 65_531;

/// The fields: flags, number of the algorithm, key.
#[derive(Clone, Copy)]
pub(crate) struct DnskeyFields<'a> {
    pub(crate) flags: u16,
    pub(crate) algorithm: u8,
    pub(crate) public_key: &'a [u8],
}

impl<'a> DnskeyFields<'a> {
    /// The fields of the DNSKEY of a public key: one of a zone, and a secure entry point.
    pub(crate) fn secure_entry<P: PublicKey>(public_key: &'a P) -> DnskeyFields<'a>
        ensures { lent_fields result ≡ dnskey_fields (secure_entry_key (P.key public_key.now)) }
    {
        DnskeyFields {
            flags: flags_of(true, true, false),
            algorithm: public_key.algorithm().into(),
            public_key: public_key.public_bytes(),
        }
    }

    /// Reads the fields of data of this length.
    #[tactic(auto, unfolding(dns_grammar::specs::RecordData::one_type_data_at, dns_grammar::specs::RecordData::fields_filling))]
    pub(crate) fn read_data(
        decoder: &mut BinDecoder<'a>,
        length: u16,
    ) -> Result<DnskeyFields<'a>, DecodeError>
        ensures { Reads (λ fields. public_key_values (lent_fields fields)) result decoder.old decoder.new
            (one_type_data_at dnskey_row (octets decoder.old) (place decoder.old) length) }
    {
        let end = data_end(decoder, length)?;
        let mut reader = *decoder;
        let flags = reader.read_u16_within(end)?;
        let protocol = reader.read_u8_within(end)?;
        check_protocol(protocol)?;
        let algorithm = reader.read_u8_within(end)?;
        let public_key = reader.read_rest_within(end);
        *decoder = reader;
        Ok(DnskeyFields {
            flags,
            algorithm,
            public_key,
        })
    }

    /// Writes the fields.
    pub(crate) fn put<S: OctetSink>(&self, form: Form, sink: &mut S) -> Result<(), EmitError>
        ensures { Puts S.has_taken result sink.old sink.new
            (fields_octets form.canonical_form dnskey_row (public_key_values (lent_fields self.now))) }
    {
        put_fields(
            sink,
            form,
            &[
                FieldOut::U16(self.flags),
                FieldOut::U8(PROTOCOL),
                FieldOut::U8(self.algorithm),
                FieldOut::Octets(self.public_key),
            ],
        )
    }

    /// The tag of a DNSKEY with these fields (RFC 4034 appendix B).
    pub(crate) fn tag(&self) -> Result<u16, KeyDataError>
        ensures { result ≡ fields_tag (lent_fields self.now) }
    {
        if self.is_too_long() {
            return Err(KeyDataError::DataTooLong);
        }
        Ok(tag_of_sum(octet_sum(&self.head()) + octet_sum(self.public_key)))
    }

    /// The digest of the owner's DNSKEY with these fields (RFC 4034 5.1.4).
    pub(crate) fn digest(&self, owner: &Name, kind: DigestType) -> Result<Digest, KeyDataError>
        ensures { Gives digest_octets result (fields_digest owner.now (lent_fields self.now) kind) }
    {
        if self.is_too_long() {
            return Err(KeyDataError::DataTooLong);
        }
        let (front, len) = self.before_key(owner);
        match Digest::from_iter(&front[..len], self.public_key, kind) {
            Ok(digest) => Ok(digest),
            Err(_) => Err(KeyDataError::UnknownDigestAlgorithm(kind.into())),
        }
    }

    /// The owner's wire form in lower case and the octets before the key, and how many octets these are.
    fn before_key(&self, owner: &Name) -> ([u8; 259], usize)
        ensures at_most { result.1 ≤ 259 }
        ensures octets { take result.1 result.0 ++ self.now.public_key.now
            ≡ wire (low owner.now) ++ key_octets (lent_fields self.now) }
    {
        let low = owner.to_lowercase();
        let name = low.as_wire();
        let len = name.len() + 4;
        let mut front = [0; 259];
        front[..name.len()].copy_from_slice(name);
        front[name.len()..len].copy_from_slice(&self.head());
        (front, len)
    }

    /// Whether no record holds the data.
    fn is_too_long(&self) -> bool
        ensures { result ≡ nat_lt LONGEST_KEY (length self.now.public_key.now) }
    {
        self.public_key.len() > LONGEST_KEY
    }

    /// The octets before the key.
    fn head(&self) -> [u8; 4]
        ensures { result ++ self.now.public_key.now ≡ key_octets (lent_fields self.now) }
    {
        let [high, low] = self.flags.to_be_bytes();
        [high, low, PROTOCOL, self.algorithm]
    }
}

impl fmt::Display for DnskeyFields<'_> {
    ghost output = { λ fields. Some (public_key_text (lent_fields fields)) };

    fn fmt<W: fmt::Write>(&self, f: &mut fmt::Formatter<W>) -> fmt::Result {
        write!(
            f,
            "{} 3 {} {}",
            self.flags,
            self.algorithm,
            Base64Text(self.public_key)
        )
    }
}
