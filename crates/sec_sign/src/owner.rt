//! The owner that a signature is over (RFC 4035 5.3.2).
ghost use Rattle.std.specs.Prelude.{◌≡◌, ◌<◌, ◌∷◌, ◌-◌, codes, drop, length, IfOk};
ghost use Rattle.dns_names.specs.Names.{count, IsName};
ghost use Rattle.sec_sign.specs.Signed.{signed_owner};

use crate::tbs_error::TbsError;
use dns_names::{Label, Name};

/// The label `*`.
fn star() -> Label
    ensures { result ≡ codes "*" }
{
    match Label::from_bytes(b"*") {
        Ok(label) => label,
        Err(_) => unreachable!(),
    }
}

/// The label `*` before the rightmost labels of a name that has more.
#[tactic(auto, using(crate::proofs::Owners::wildcard_fits))]
fn wildcard_above(name: &Name, num_labels: u8) -> Name
    requires is_name { IsName name.now }
    requires more { num_labels < count name.now }
    ensures value { result ≡ codes "*" ∷ drop (length name.now - num_labels) name.now }
    ensures is_name { IsName result }
{
    match name.trim_to(usize::from(num_labels)).prepend(&star()) {
        Ok(owner) => owner,
        Err(_) => unreachable!(),
    }
}

/// The owner as it is signed: the name itself where it has `num_labels` labels, a `*` in front not counted, and `*`
/// before its rightmost labels where it has more. Takes no memory.
///
/// # Errors
///
/// `LabelsExceedOwner` exactly where the name has fewer labels.
pub fn determine_name(name: &Name, num_labels: u8) -> Result<Name, TbsError>
    ensures exact { result ≡ signed_owner name.now num_labels }
    ensures is_name { IfOk result IsName }
{
    let owner = name.num_labels();
    if owner < num_labels {
        return Err(TbsError::LabelsExceedOwner {
            labels: num_labels,
            owner,
        });
    }
    if owner == num_labels {
        return Ok(*name);
    }
    Ok(wildcard_above(name, num_labels))
}
