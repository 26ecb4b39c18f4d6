//! Strings that more than one test uses, by hand from RFC 8945, the MACs by python3's module hmac.

use dns_names::Name;
use sec_sigdata::TsigAlgorithm;
use sec_tsig::TSigner;
use std::alloc::Global;
use std::test::Fail;

/// The key of the strings.
pub(crate) const KEY: [u8; 20] = [0x0b; 20];

/// A question for the addresses of `example.`.
pub(crate) const REQUEST: &str = "123401000001000000000000076578616d706c650000010001";

/// An answer of one address to it, not signed.
pub(crate) const RESPONSE: &str =
    "123481800001000100000000076578616d706c650000010001c00c0001000100000e100004c0000201";

/// The MAC of the request at time 1000.
pub(crate) const REQUEST_MAC: &str =
    "56d9a0dbb2ce89ae3200b40be94959a38069d989ca0a0126fc38a6670e7ff40b";

/// The request signed at time 1000.
pub(crate) const SIGNED_REQUEST: &str =
    "123401000001000000000001076578616d706c650000010001016b0000fa00ff00000000003d0b686d61632d736861323536000000000003e8012c002056d9a0dbb2ce89ae3200b40be94959a38069d989ca0a0126fc38a6670e7ff40b123400000000";

/// The MAC of the answer, signed first at time 1000.
pub(crate) const FIRST_MAC: &str =
    "bd51d084b43578959c48a9ff978363372f39c9fdcaab2dbedaf304bfbddeb40d";

/// The answer signed first at time 1000.
pub(crate) const FIRST: &str =
    "123481800001000100000001076578616d706c650000010001c00c0001000100000e100004c0000201016b0000fa00ff00000000003d0b686d61632d736861323536000000000003e8012c0020bd51d084b43578959c48a9ff978363372f39c9fdcaab2dbedaf304bfbddeb40d123400000000";

/// The answer signed after it at time 1000.
pub(crate) const SECOND: &str =
    "123481800001000100000001076578616d706c650000010001c00c0001000100000e100004c0000201016b0000fa00ff00000000003d0b686d61632d736861323536000000000003e8012c0020a9ee074a063e9607e50f134e46b7ecc75b383e09fd8a9c92a0061dddff8ec602123400000000";

/// Its MAC.
pub(crate) const SECOND_MAC: &str =
    "a9ee074a063e9607e50f134e46b7ecc75b383e09fd8a9c92a0061dddff8ec602";

/// The signer of hmac-sha256.
pub(crate) fn signer(alloc: Global) -> Result<TSigner, Fail> {
    let key = Vec::from_slice(alloc, &KEY)?;
    Ok(TSigner::new(key, TsigAlgorithm::HmacSha256, Name::from_ascii("k.")?, 300)?)
}
