//! Record data read, and checked, by the table.
ghost use Rattle.std.specs.Prelude.{◌∷◌, [], IfOk};
ghost use Rattle.dns_wire.specs.Reading.{octets, place, Reads, ReadsUnless};
ghost use Rattle.dns_names.specs.PointerCache.{IsPointerCache};
ghost use Rattle.dns_grammar.specs.Fields.{Fixed, Str, any};
ghost use Rattle.dns_grammar.specs.RecordData.{one_type_data_at, rdata_at};
ghost use Rattle.dns_grammar.specs.RowReaders.{ReadsData, ChecksData};
ghost use Rattle.dns_rdata.specs.RData.{rdata_values, filled_data_at, IsOfType};
ghost use Rattle.dns_rdata.specs.RDataTable.{rdata_table};

use crate::data_fields::rdata_fields;
use crate::hosts::{AFSDB, KX, MX, PX, RT};
use crate::mailboxes::{MINFO, RP};
use crate::name_fields::{read_name, read_number_name, read_number_two_names, read_two_names};
use crate::naptr::NAPTR;
use crate::null::NULL;
use crate::rdata::RData;
use crate::record_data::RecordData;
use crate::soa::SOA;
use crate::srv::SRV;
use crate::txt::TXT;
use dns_grammar::{check_rdata, data_end, expect_end};
use dns_types::RecordType;
use dns_wire::{BinDecoder, DecodeError, RecordDataDecodable};
use sec_keydata::{CDNSKEY, CDS, DNSKEY, DS, KEY};
use sec_sigdata::{NSEC, NSEC3, NSEC3PARAM, RRSIG, SIG, TSIG};
use std::alloc::Global;

/// Reads data of so many octets.
#[tactic(auto, unfolding(dns_grammar::specs::RecordData::one_type_data_at, dns_grammar::specs::RecordData::fields_filling))]
fn read_octets<const N: usize>(
    decoder: &mut BinDecoder<'_>,
    length: u16,
) -> Result<[u8; N], DecodeError>
    ensures { Reads (λ x. Str x ∷ []) result decoder.old decoder.new
        (one_type_data_at (any (Fixed N) ∷ []) (octets decoder.old) (place decoder.old) length) }
{
    let start = decoder.index();
    let end = data_end(decoder, length)?;
    let mut reader = *decoder;
    let octets = reader.read_slice_within(N, end)?;
    expect_end(&reader, start, end)?;
    match <[u8; N]>::try_from(octets) {
        Ok(octets) => {
            *decoder = reader;
            Ok(octets)
        }
        Err(_) => Err(DecodeError::InsufficientBytes),
    }
}

/// Reads data of this type that are not empty.
fn read_filled(
    alloc: Global,
    decoder: &mut BinDecoder<'_>,
    rtype: RecordType,
    length: u16,
    cache: &mut [u16],
) -> Result<RData, DecodeError>
    requires cache { IsPointerCache (octets decoder.old) cache.old }
    ensures exact { ReadsUnless rdata_values result decoder.old decoder.new
        (filled_data_at rtype (octets decoder.old) (place decoder.old) length) }
    ensures by_number { IfOk result (IsOfType rtype) }
    ensures cache { IsPointerCache (octets decoder.old) cache.new }
{
    match rtype {
        RecordType::A => Ok(RData::A(read_octets(decoder, length)?)),
        RecordType::AAAA => Ok(RData::AAAA(read_octets(decoder, length)?)),
        RecordType::NS => Ok(RData::NS(read_name(decoder, length, cache)?)),
        RecordType::MD => Ok(RData::MD(read_name(decoder, length, cache)?)),
        RecordType::MF => Ok(RData::MF(read_name(decoder, length, cache)?)),
        RecordType::CNAME => Ok(RData::CNAME(read_name(decoder, length, cache)?)),
        RecordType::MB => Ok(RData::MB(read_name(decoder, length, cache)?)),
        RecordType::MG => Ok(RData::MG(read_name(decoder, length, cache)?)),
        RecordType::MR => Ok(RData::MR(read_name(decoder, length, cache)?)),
        RecordType::PTR => Ok(RData::PTR(read_name(decoder, length, cache)?)),
        RecordType::DNAME => Ok(RData::DNAME(read_name(decoder, length, cache)?)),
        RecordType::MX => Ok(RData::MX(MX::read_with(decoder, length, cache)?)),
        RecordType::AFSDB => Ok(RData::AFSDB(AFSDB::read_with(decoder, length, cache)?)),
        RecordType::RT => Ok(RData::RT(RT::read_with(decoder, length, cache)?)),
        RecordType::KX => Ok(RData::KX(KX::read_with(decoder, length, cache)?)),
        RecordType::PX => Ok(RData::PX(PX::read_with(decoder, length, cache)?)),
        RecordType::MINFO => Ok(RData::MINFO(MINFO::read_with(decoder, length, cache)?)),
        RecordType::RP => Ok(RData::RP(RP::read_with(decoder, length, cache)?)),
        RecordType::SOA => Ok(RData::SOA(SOA::read_with(decoder, length, cache)?)),
        RecordType::SRV => Ok(RData::SRV(SRV::read_with(decoder, length, cache)?)),
        RecordType::NAPTR => Ok(RData::NAPTR(NAPTR::read_with(alloc, decoder, length, cache)?)),
        RecordType::TXT => Ok(RData::TXT(TXT::read(alloc, decoder, length)?)),
        RecordType::NULL => Ok(RData::NULL(NULL::read(alloc, decoder, length)?)),
        RecordType::OPT => Ok(RData::OPT(NULL::read(alloc, decoder, length)?)),
        RecordType::DNSKEY => Ok(DNSKEY::read_data(alloc, decoder, length)?.into_rdata()),
        RecordType::CDNSKEY => Ok(CDNSKEY::read_data(alloc, decoder, length)?.into_rdata()),
        RecordType::DS => Ok(DS::read_data(alloc, decoder, length)?.into_rdata()),
        RecordType::CDS => Ok(CDS::read_data(alloc, decoder, length)?.into_rdata()),
        RecordType::KEY => Ok(KEY::read_data(alloc, decoder, length)?.into_rdata()),
        RecordType::NSEC => Ok(NSEC::read_with(alloc, decoder, length, cache)?.into_rdata()),
        RecordType::NSEC3 => Ok(NSEC3::read_data(alloc, decoder, length)?.into_rdata()),
        RecordType::NSEC3PARAM => Ok(NSEC3PARAM::read_data(alloc, decoder, length)?.into_rdata()),
        RecordType::SIG => Ok(SIG::read_with(alloc, decoder, length, cache)?.into_rdata()),
        RecordType::RRSIG => Ok(RRSIG::read_with(alloc, decoder, length, cache)?.into_rdata()),
        RecordType::TSIG => Ok(TSIG::read_with(alloc, decoder, length, cache)?.into_rdata()),
        _ => Ok(RData::Unknown(rtype, NULL::read(alloc, decoder, length)?)),
    }
}

/// Reads the data of a record of this type, as the reading function gives them.
#[tactic(auto, unfolding(dns_grammar::specs::RecordData::rdata_at))]
fn read_any(
    alloc: Global,
    decoder: &mut BinDecoder<'_>,
    rtype: RecordType,
    length: u16,
    cache: &mut [u16],
) -> Result<RData, DecodeError>
    requires cache { IsPointerCache (octets decoder.old) cache.old }
    ensures exact { ReadsUnless rdata_values result decoder.old decoder.new
        (rdata_at rdata_table (octets decoder.old) (place decoder.old) length rtype) }
    ensures by_number { IfOk result (IsOfType rtype) }
    ensures cache { IsPointerCache (octets decoder.old) cache.new }
{
    if length == 0 && rtype != RecordType::TSIG {
        return Ok(RData::Update0(rtype));
    }
    read_filled(alloc, decoder, rtype, length, cache)
}

impl RData {
    /// Reads the data of a record of type `rtype`, `length` octets of them. No octets are `Update0`, for every type but
    /// TSIG.
    ///
    /// Pointers that were followed before are known from `cache`, and those that are met are noted there.
    ///
    /// # Errors
    ///
    /// `InsufficientBytes` where fewer octets are left than `length`, and for a TSIG without data. Then the first field
    /// from the left that fails decides: `InsufficientBytes` where it needs an octet past the data, a name's
    /// `NameMalformed`, or the fault of a value that it does not allow. At last `IncorrectRDataLengthRead` where octets
    /// are left over. Or `OutOfMemory`. The decoder then stays in place.
    #[tactic(auto, using(dns_grammar::proofs::RowReaderLaws::reads_data))]
    pub fn read_with(
        alloc: Global,
        decoder: &mut BinDecoder<'_>,
        rtype: RecordType,
        length: u16,
        cache: &mut [u16],
    ) -> Result<RData, DecodeError>
        requires cache { IsPointerCache (octets decoder.old) cache.old }
        ensures read { ReadsData rdata_table rdata_values (IsOfType rtype) rtype length decoder.old decoder.new result }
        ensures cache { IsPointerCache (octets decoder.old) cache.new }
    {
        read_any(alloc, decoder, rtype, length, cache)
    }

    /// Reads the data of a record of type `rtype`, `length` octets of them. No octets are `Update0`, for every type but
    /// TSIG.
    ///
    /// # Errors
    ///
    /// Those of `read_with`.
    pub fn read(
        alloc: Global,
        decoder: &mut BinDecoder<'_>,
        rtype: RecordType,
        length: u16,
    ) -> Result<RData, DecodeError>
        ensures { ReadsData rdata_table rdata_values (IsOfType rtype) rtype length decoder.old decoder.new result }
    {
        RData::read_with(alloc, decoder, rtype, length, &mut [])
    }

    /// Checks the data of a record of type `rtype`, `length` octets of them, and goes behind them, as `read_with` does,
    /// without the value and without memory.
    ///
    /// Pointers that were followed before are known from `cache`, and those that are met are noted there.
    ///
    /// # Errors
    ///
    /// Those of `read_with`, but `OutOfMemory`.
    pub fn check_with(
        decoder: &mut BinDecoder<'_>,
        rtype: RecordType,
        length: u16,
        cache: &mut [u16],
    ) -> Result<(), DecodeError>
        requires cache { IsPointerCache (octets decoder.old) cache.old }
        ensures checked { ChecksData rdata_table rtype length decoder.old decoder.new result }
        ensures cache { IsPointerCache (octets decoder.old) cache.new }
    {
        check_rdata(decoder, rtype, length, rdata_fields(rtype), cache)
    }

    /// Checks the data of a record of type `rtype`, `length` octets of them, and goes behind them, as `read` does,
    /// without the value and without memory.
    ///
    /// # Errors
    ///
    /// Those of `read_with`, but `OutOfMemory`.
    pub fn check(
        decoder: &mut BinDecoder<'_>,
        rtype: RecordType,
        length: u16,
    ) -> Result<(), DecodeError>
        ensures { ChecksData rdata_table rtype length decoder.old decoder.new result }
    {
        RData::check_with(decoder, rtype, length, &mut [])
    }
}
