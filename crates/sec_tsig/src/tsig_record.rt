//! TSIG records (RFC 8945 4.2).
ghost use Rattle.std.specs.Prelude.{◌≡◌, IfOk};
ghost use Rattle.sec_sigdata.specs.TsigRecords.{borrowed_fields, tsig_fields};
ghost use Rattle.sec_tsig.specs.Tsig.{made_record, tsig_record};

use dns_message::Record;
use dns_names::Name;
use dns_types::DNSClass;
use sec_codes::Proof;
use sec_sigdata::{BorrowedTsig, TSIG, TsigVariables};
use std::alloc::{AllocError, Global};

/// The TSIG record of this owner, the key's name, with these data: class ANY and TTL 0 (RFC 8945 4.2). Nothing is proved
/// of it.
pub fn make_tsig_record(name: Name, rdata: TSIG) -> Record<TSIG>
    ensures { tsig_record result ≡ made_record name (tsig_fields rdata) }
{
    Record {
        name,
        dns_class: DNSClass::ANY,
        ttl: 0,
        rdata,
        proof: Proof::Indeterminate,
    }
}

/// The same owner and data with another MAC.
pub(crate) fn with_mac<'m>(variables: &'m TsigVariables<'_>, mac: &'m [u8]) -> TsigVariables<'m>
    ensures owner { result.key_name.now ≡ variables.now.key_name.now }
    ensures fields { borrowed_fields result.tsig ≡ record (borrowed_fields variables.now.tsig) { mac = mac.now } }
{
    let tsig = &variables.tsig;
    TsigVariables {
        key_name: variables.key_name,
        tsig: BorrowedTsig {
            algorithm: tsig.algorithm,
            time: tsig.time,
            fudge: tsig.fudge,
            mac,
            oid: tsig.oid,
            error: tsig.error,
            other: tsig.other,
        },
    }
}

/// The TSIG record of this owner and these data, with another MAC.
pub(crate) fn record_with_mac(
    alloc: Global,
    variables: &TsigVariables<'_>,
    mac: &[u8],
) -> Result<Record<TSIG>, AllocError>
    ensures { IfOk result (λ rr. tsig_record rr
        ≡ made_record variables.now.key_name.now (record (borrowed_fields variables.now.tsig) { mac = mac.now })) }
{
    let tsig = &variables.tsig;
    let mac = Vec::from_slice(alloc, mac)?;
    let other = Vec::from_slice(alloc, tsig.other)?;
    Ok(make_tsig_record(
        *variables.key_name,
        TSIG::new(
            tsig.algorithm,
            tsig.time,
            tsig.fudge,
            mac,
            tsig.oid,
            tsig.error,
            other,
        ),
    ))
}
