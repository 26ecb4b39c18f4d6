//! The table of record data, as octets are checked by it.
ghost use Rattle.std.specs.Prelude.{◌≡◌};
ghost use Rattle.dns_grammar.specs.Fields.{row_of};
ghost use Rattle.dns_grammar.specs.FieldKinds.{kind_fields};
ghost use Rattle.dns_rdata.specs.FieldChecks.{tested_field};
ghost use Rattle.dns_rdata.specs.RDataTable.{rdata_table};

use dns_grammar::{FieldKind, TestedField};
use dns_types::{RecordType, is_bitmap};
use dns_wire::{BinDecoder, DecodeError, EmitError};
use sec_keydata::{check_key_flags, check_protocol};
use sec_sigdata::{check_hash_algorithm, check_nsec3_flags};

/// A field whose values are tested.
#[derive(Clone, Copy, Debug)]
pub enum FieldCheck {
    /// The protocol of a DNSKEY, which is 3 (RFC 4034 2.1.2).
    DnskeyProtocol,
    /// The flags of a KEY (RFC 2535 3.1.2).
    KeyFlags,
    /// The hash algorithm of an NSEC3, which is SHA-1 (RFC 5155 11).
    HashAlgorithm,
    /// The flags of an NSEC3 (RFC 5155 3.1.2).
    Nsec3Flags,
    /// A type bitmap (RFC 4034 4.1.2).
    TypeSet,
}

impl TestedField for FieldCheck {
    ghost use Rattle.dns_rdata.specs.FieldChecks.{tested_field};

    ghost field = { tested_field };

    fn skip(&self, decoder: &mut BinDecoder<'_>, end: usize) -> Result<(), DecodeError> {
        let mut reader = *decoder;
        match self {
            FieldCheck::DnskeyProtocol => check_protocol(reader.read_u8_within(end)?)?,
            FieldCheck::KeyFlags => check_key_flags(reader.read_u16_within(end)?)?,
            FieldCheck::HashAlgorithm => check_hash_algorithm(reader.read_u8_within(end)?)?,
            FieldCheck::Nsec3Flags => check_nsec3_flags(reader.read_u8_within(end)?)?,
            FieldCheck::TypeSet => {
                if !is_bitmap(reader.read_rest_within(end)) {
                    return Err(DecodeError::BitmapMalformed);
                }
            }
        }
        *decoder = reader;
        Ok(())
    }
}

/// An address of IPv4 (RFC 1035 3.4.1).
static A: [FieldKind<FieldCheck>; 1] = [FieldKind::Fixed(4)];

/// An address of IPv6 (RFC 3596 2.2).
static AAAA: [FieldKind<FieldCheck>; 1] = [FieldKind::Fixed(16)];

/// A name.
static NAME: [FieldKind<FieldCheck>; 1] = [FieldKind::LoweredName];

/// A number and a name.
static NUMBER_NAME: [FieldKind<FieldCheck>; 2] = [FieldKind::U16, FieldKind::LoweredName];

/// Two names.
static TWO_NAMES: [FieldKind<FieldCheck>; 2] = [FieldKind::LoweredName, FieldKind::LoweredName];

/// A number and two names.
static NUMBER_TWO_NAMES: [FieldKind<FieldCheck>; 3] = [
    FieldKind::U16,
    FieldKind::LoweredName,
    FieldKind::LoweredName,
];

/// The start of a zone (RFC 1035 3.3.13).
static SOA: [FieldKind<FieldCheck>; 7] = [
    FieldKind::LoweredName,
    FieldKind::LoweredName,
    FieldKind::U32,
    FieldKind::U32,
    FieldKind::U32,
    FieldKind::U32,
    FieldKind::U32,
];

/// A server of a service (RFC 2782).
static SRV: [FieldKind<FieldCheck>; 4] = [
    FieldKind::U16,
    FieldKind::U16,
    FieldKind::U16,
    FieldKind::LoweredName,
];

/// A naming authority pointer (RFC 3403 4.1).
static NAPTR: [FieldKind<FieldCheck>; 6] = [
    FieldKind::U16,
    FieldKind::U16,
    FieldKind::Counted8(EmitError::StringTooLong),
    FieldKind::Counted8(EmitError::StringTooLong),
    FieldKind::Counted8(EmitError::StringTooLong),
    FieldKind::LoweredName,
];

/// Texts (RFC 1035 3.3.14).
static TXT: [FieldKind<FieldCheck>; 1] = [FieldKind::Strings];

/// Octets that nothing is known of (RFC 3597 3).
static UNKNOWN: [FieldKind<FieldCheck>; 1] = [FieldKind::Octets];

/// The key of a zone (RFC 4034 2.1).
static DNSKEY: [FieldKind<FieldCheck>; 4] = [
    FieldKind::U16,
    FieldKind::Tested(FieldCheck::DnskeyProtocol),
    FieldKind::U8,
    FieldKind::Octets,
];

/// The digest of a key (RFC 4034 5.1).
static DS: [FieldKind<FieldCheck>; 4] = [
    FieldKind::U16,
    FieldKind::U8,
    FieldKind::U8,
    FieldKind::Octets,
];

/// A key of other uses (RFC 2535 3.1).
static KEY: [FieldKind<FieldCheck>; 4] = [
    FieldKind::Tested(FieldCheck::KeyFlags),
    FieldKind::U8,
    FieldKind::U8,
    FieldKind::Octets,
];

/// A signature (RFC 4034 3.1).
static SIG: [FieldKind<FieldCheck>; 9] = [
    FieldKind::U16,
    FieldKind::U8,
    FieldKind::U8,
    FieldKind::U32,
    FieldKind::U32,
    FieldKind::U32,
    FieldKind::U16,
    FieldKind::LoweredName,
    FieldKind::Octets,
];

/// The next name of a zone (RFC 4034 4.1).
static NSEC: [FieldKind<FieldCheck>; 2] = [
    FieldKind::KeptName,
    FieldKind::Tested(FieldCheck::TypeSet),
];

/// The next hashed name of a zone (RFC 5155 3.2).
static NSEC3: [FieldKind<FieldCheck>; 6] = [
    FieldKind::Tested(FieldCheck::HashAlgorithm),
    FieldKind::Tested(FieldCheck::Nsec3Flags),
    FieldKind::U16,
    FieldKind::Counted8(EmitError::SaltTooLong),
    FieldKind::Counted8(EmitError::HashTooLong),
    FieldKind::Tested(FieldCheck::TypeSet),
];

/// How the names of a zone are hashed (RFC 5155 4.2).
static NSEC3PARAM: [FieldKind<FieldCheck>; 4] = [
    FieldKind::Tested(FieldCheck::HashAlgorithm),
    FieldKind::Tested(FieldCheck::Nsec3Flags),
    FieldKind::U16,
    FieldKind::Counted8(EmitError::SaltTooLong),
];

/// A transaction signature (RFC 8945 4.2).
static TSIG: [FieldKind<FieldCheck>; 7] = [
    FieldKind::KeptName,
    FieldKind::Time,
    FieldKind::U16,
    FieldKind::Counted16(EmitError::MacTooLong),
    FieldKind::U16,
    FieldKind::U16,
    FieldKind::Counted16(EmitError::OtherTooLong),
];

/// The fields of a type.
pub fn rdata_fields(rtype: RecordType) -> &'static [FieldKind<FieldCheck>]
    ensures { kind_fields tested_field result.now ≡ row_of rdata_table rtype }
{
    match rtype {
        RecordType::A => &A,
        RecordType::AAAA => &AAAA,
        RecordType::NS
        | RecordType::MD
        | RecordType::MF
        | RecordType::CNAME
        | RecordType::MB
        | RecordType::MG
        | RecordType::MR
        | RecordType::PTR
        | RecordType::DNAME => &NAME,
        RecordType::MX | RecordType::AFSDB | RecordType::RT | RecordType::KX => &NUMBER_NAME,
        RecordType::MINFO | RecordType::RP => &TWO_NAMES,
        RecordType::PX => &NUMBER_TWO_NAMES,
        RecordType::SOA => &SOA,
        RecordType::SRV => &SRV,
        RecordType::NAPTR => &NAPTR,
        RecordType::TXT => &TXT,
        RecordType::DNSKEY | RecordType::CDNSKEY => &DNSKEY,
        RecordType::DS | RecordType::CDS => &DS,
        RecordType::KEY => &KEY,
        RecordType::SIG | RecordType::RRSIG => &SIG,
        RecordType::NSEC => &NSEC,
        RecordType::NSEC3 => &NSEC3,
        RecordType::NSEC3PARAM => &NSEC3PARAM,
        RecordType::TSIG => &TSIG,
        _ => &UNKNOWN,
    }
}
