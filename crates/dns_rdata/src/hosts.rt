//! Data of a number and the names of hosts.
ghost use Rattle.dns_wire.specs.Reading.{octets, place, Reads};
ghost use Rattle.dns_names.specs.PointerCache.{IsPointerCache};
ghost use Rattle.dns_grammar.specs.RecordData.{one_type_data_at};
ghost use Rattle.dns_rdata.specs.PlainData.{mx_values, afsdb_values, rt_values, kx_values, px_values};
ghost use Rattle.dns_rdata.specs.RDataTable.{number_name_row, number_two_names_row};

use crate::name_fields::{read_number_name, read_number_two_names};
use dns_names::Name;
use dns_wire::{BinDecoder, DecodeError};

/// A host that takes mail for a domain (RFC 1035 3.3.9).
#[derive(Clone, Copy, Debug, PartialEq, Eq, Hash)]
pub struct MX {
    /// Which host is tried first: that of the lowest number.
    pub preference: u16,
    /// The host.
    pub exchange: Name,
}

impl MX {
    /// Reads the data, `length` octets of them.
    pub(crate) fn read_with(
        decoder: &mut BinDecoder<'_>,
        length: u16,
        cache: &mut [u16],
    ) -> Result<MX, DecodeError>
        requires cache { IsPointerCache (octets decoder.old) cache.old }
        ensures exact { Reads mx_values result decoder.old decoder.new
            (one_type_data_at number_name_row (octets decoder.old) (place decoder.old) length) }
        ensures cache { IsPointerCache (octets decoder.old) cache.new }
    {
        let (preference, exchange) = read_number_name(decoder, length, cache)?;
        Ok(MX {
            preference,
            exchange,
        })
    }
}

/// A server of an AFS cell or of a DCE cell (RFC 1183 1).
#[derive(Clone, Copy, Debug, PartialEq, Eq, Hash)]
pub struct AFSDB {
    /// What the server is: 1 for AFS, 2 for DCE.
    pub subtype: u16,
    /// The server.
    pub hostname: Name,
}

impl AFSDB {
    /// Reads the data, `length` octets of them.
    pub(crate) fn read_with(
        decoder: &mut BinDecoder<'_>,
        length: u16,
        cache: &mut [u16],
    ) -> Result<AFSDB, DecodeError>
        requires cache { IsPointerCache (octets decoder.old) cache.old }
        ensures exact { Reads afsdb_values result decoder.old decoder.new
            (one_type_data_at number_name_row (octets decoder.old) (place decoder.old) length) }
        ensures cache { IsPointerCache (octets decoder.old) cache.new }
    {
        let (subtype, hostname) = read_number_name(decoder, length, cache)?;
        Ok(AFSDB { subtype, hostname })
    }
}

/// A host through which a host without an address of its own is reached (RFC 1183 3.3).
#[derive(Clone, Copy, Debug, PartialEq, Eq, Hash)]
pub struct RT {
    /// Which host is tried first: that of the lowest number.
    pub preference: u16,
    /// The host.
    pub intermediate: Name,
}

impl RT {
    /// Reads the data, `length` octets of them.
    pub(crate) fn read_with(
        decoder: &mut BinDecoder<'_>,
        length: u16,
        cache: &mut [u16],
    ) -> Result<RT, DecodeError>
        requires cache { IsPointerCache (octets decoder.old) cache.old }
        ensures exact { Reads rt_values result decoder.old decoder.new
            (one_type_data_at number_name_row (octets decoder.old) (place decoder.old) length) }
        ensures cache { IsPointerCache (octets decoder.old) cache.new }
    {
        let (preference, intermediate) = read_number_name(decoder, length, cache)?;
        Ok(RT {
            preference,
            intermediate,
        })
    }
}

/// A host that exchanges keys for a domain (RFC 2230 3).
#[derive(Clone, Copy, Debug, PartialEq, Eq, Hash)]
pub struct KX {
    /// Which host is tried first: that of the lowest number.
    pub preference: u16,
    /// The host.
    pub exchanger: Name,
}

impl KX {
    /// Reads the data, `length` octets of them.
    pub(crate) fn read_with(
        decoder: &mut BinDecoder<'_>,
        length: u16,
        cache: &mut [u16],
    ) -> Result<KX, DecodeError>
        requires cache { IsPointerCache (octets decoder.old) cache.old }
        ensures exact { Reads kx_values result decoder.old decoder.new
            (one_type_data_at number_name_row (octets decoder.old) (place decoder.old) length) }
        ensures cache { IsPointerCache (octets decoder.old) cache.new }
    {
        let (preference, exchanger) = read_number_name(decoder, length, cache)?;
        Ok(KX {
            preference,
            exchanger,
        })
    }
}

/// A domain's names for mail of RFC 822 and of X.400 (RFC 2163 4).
#[derive(Clone, Copy, Debug, PartialEq, Eq, Hash)]
pub struct PX {
    /// Which mapping is taken first: that of the lowest number.
    pub preference: u16,
    /// The name in mail of RFC 822.
    pub map822: Name,
    /// The name that stands for the X.400 domain.
    pub mapx400: Name,
}

impl PX {
    /// Reads the data, `length` octets of them.
    pub(crate) fn read_with(
        decoder: &mut BinDecoder<'_>,
        length: u16,
        cache: &mut [u16],
    ) -> Result<PX, DecodeError>
        requires cache { IsPointerCache (octets decoder.old) cache.old }
        ensures exact { Reads px_values result decoder.old decoder.new
            (one_type_data_at number_two_names_row (octets decoder.old) (place decoder.old) length) }
        ensures cache { IsPointerCache (octets decoder.old) cache.new }
    {
        let (preference, map822, mapx400) = read_number_two_names(decoder, length, cache)?;
        Ok(PX {
            preference,
            map822,
            mapx400,
        })
    }
}
