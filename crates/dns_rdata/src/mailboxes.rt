//! Data of two names, of which the first is a mailbox.
ghost use Rattle.dns_wire.specs.Reading.{octets, place, Reads};
ghost use Rattle.dns_names.specs.PointerCache.{IsPointerCache};
ghost use Rattle.dns_grammar.specs.RecordData.{one_type_data_at};
ghost use Rattle.dns_rdata.specs.PlainData.{minfo_values, rp_values};
ghost use Rattle.dns_rdata.specs.RDataTable.{two_names_row};

use crate::name_fields::read_two_names;
use dns_names::Name;
use dns_wire::{BinDecoder, DecodeError};

/// The mailboxes of a mailing list (RFC 1035 3.3.7).
#[derive(Clone, Copy, Debug, PartialEq, Eq, Hash)]
pub struct MINFO {
    /// Who is responsible for the list.
    pub rmailbx: Name,
    /// Who gets its error messages.
    pub emailbx: Name,
}

impl MINFO {
    /// Reads the data, `length` octets of them.
    pub(crate) fn read_with(
        decoder: &mut BinDecoder<'_>,
        length: u16,
        cache: &mut [u16],
    ) -> Result<MINFO, DecodeError>
        requires cache { IsPointerCache (octets decoder.old) cache.old }
        ensures exact { Reads minfo_values result decoder.old decoder.new
            (one_type_data_at two_names_row (octets decoder.old) (place decoder.old) length) }
        ensures cache { IsPointerCache (octets decoder.old) cache.new }
    {
        let (rmailbx, emailbx) = read_two_names(decoder, length, cache)?;
        Ok(MINFO { rmailbx, emailbx })
    }
}

/// Who is responsible for a name (RFC 1183 2.2).
#[derive(Clone, Copy, Debug, PartialEq, Eq, Hash)]
pub struct RP {
    /// The mailbox of the person.
    pub mbox: Name,
    /// The name of TXT records that say more.
    pub txt: Name,
}

impl RP {
    /// Reads the data, `length` octets of them.
    pub(crate) fn read_with(
        decoder: &mut BinDecoder<'_>,
        length: u16,
        cache: &mut [u16],
    ) -> Result<RP, DecodeError>
        requires cache { IsPointerCache (octets decoder.old) cache.old }
        ensures exact { Reads rp_values result decoder.old decoder.new
            (one_type_data_at two_names_row (octets decoder.old) (place decoder.old) length) }
        ensures cache { IsPointerCache (octets decoder.old) cache.new }
    {
        let (mbox, txt) = read_two_names(decoder, length, cache)?;
        Ok(RP { mbox, txt })
    }
}
