//! The transaction signature of a message, in the message's own octets (RFC 8945 4.2).
ghost use Rattle.std.specs.Prelude.{◌≡◌};
ghost use Rattle.sec_sigdata.specs.TsigRecords.{borrowed_data, borrowed_fields, TsigFits, TsigIsByNumber};
ghost use Rattle.dns_message.specs.Views.{tsig_view, TsigViewFits};

use dns_names::Name;
use sec_sigdata::{BorrowedTsig, TsigAlgorithm};

/// A TSIG record of a message, and the place where it starts.
#[derive(Clone, Copy, Debug)]
pub struct TsigView<'a> {
    /// The place of the record's first octet.
    pub start: usize,
    /// The record's owner, the name of the key.
    pub owner: Name,
    /// The algorithm of the MAC.
    pub algorithm: TsigAlgorithm,
    /// The time of signing, in seconds from 1970 on.
    pub time: u64,
    /// Seconds by which the time may be off.
    pub fudge: u16,
    /// The MAC.
    pub mac: &'a [u8],
    /// The ID of the message when it was signed.
    pub oid: u16,
    /// The number of the error, and 0 for none.
    pub error: u16,
    /// The server's time, where the error is `BadTime`.
    pub other: &'a [u8],
}

impl<'a> TsigView<'a> {
    /// A record with these data.
    pub(crate) fn of(start: usize, owner: Name, tsig: &BorrowedTsig<'a>) -> TsigView<'a>
        requires fits { TsigFits (borrowed_fields tsig.now) }
        requires by_number { TsigIsByNumber (borrowed_fields tsig.now) }
        ensures value { tsig_view result ≡ record { start = start; name = owner; tsig = borrowed_data tsig.now } }
        ensures fits { TsigViewFits result }
    {
        let error = tsig.error_number();
        TsigView {
            start,
            owner,
            algorithm: tsig.algorithm,
            time: tsig.time,
            fudge: tsig.fudge,
            mac: tsig.mac,
            oid: tsig.oid,
            error,
            other: tsig.other,
        }
    }

    /// The same view. It is copied field by field, since the check has no rule for copying a value behind a reference
    /// that holds a name and references.
    pub(crate) fn copied(&self) -> TsigView<'a>
        ensures { result ≡ self.now }
    {
        TsigView {
            start: self.start,
            owner: self.owner,
            algorithm: self.algorithm,
            time: self.time,
            fudge: self.fudge,
            mac: self.mac,
            oid: self.oid,
            error: self.error,
            other: self.other,
        }
    }
}
