//! The octets of a record set that are signed (RFC 4034 3.1.8.1).
ghost use Rattle.std.specs.Prelude.{◌≡◌, Ok, IfOk};
ghost use Rattle.dns_wire.specs.declared.error.EmitError.{EmitError};
ghost use Rattle.dns_wire.specs.Reading.{GivesUnless};
ghost use Rattle.sec_sign.specs.declared.tbs_error.TbsError.{TbsError};
ghost use Rattle.sec_sign.specs.Signed.{signed, signed_octets, signed_of};

use crate::canonical_set::CanonicalSet;
use crate::owner::determine_name;
use crate::signed_set::{CANONICAL, SignedSet};
use crate::tbs_error::TbsError;
use dns_message::Record;
use dns_names::Name;
use dns_rdata::RData;
use dns_types::DNSClass;
use dns_wire::{EmitError, Form, Grower, OutOfMemory, Putting, put_len};
use sec_sigdata::SigInput;
use std::alloc::Global;
use std::marker::Model;

/// Octets to be signed. A contract sees the list of them.
#[derive(Debug, Drop)]
pub struct TBS {
    octets: Vec<u8>,
}

impl Model for TBS {
    ghost use Rattle.std.specs.Prelude.{List, ℕ};

    ghost Value = { List ℕ };

    ghost view = { λ s. s.octets.items };
}

/// The octets of a value that is put, in memory that is taken once.
fn octets_of<T: Putting>(alloc: Global, value: &T, form: Form) -> Result<Vec<u8>, EmitError>
    ensures { GivesUnless EmitError.OutOfMemory (λ octets. octets.items) result
        (T.written form.canonical_form form.name_encoding value.now) }
{
    let len = put_len(value, form)?;
    let mut sink = Grower::new(Vec::with_capacity(alloc, len)?);
    value.put(form, &mut sink)?;
    Ok(sink.into_octets()?)
}

impl TBS {
    /// The octets to be signed for the records of a set: those of `records` with this name, this class and the type
    /// that `input` covers.
    ///
    /// # Errors
    ///
    /// `LabelsExceedOwner` where `input` has more labels than the name; else `Emit` with the cause of the first such
    /// record that can't be written. Or `OutOfMemory`.
    pub fn from_input(
        alloc: Global,
        name: &Name,
        dns_class: DNSClass,
        input: &SigInput,
        records: &[Record<RData>],
    ) -> Result<TBS, TbsError>
        ensures { GivesUnless TbsError.OutOfMemory (λ tbs. tbs) result
            (signed input.now name.now dns_class records.now) }
    {
        let owner = determine_name(name, input.num_labels)?;
        let set = CanonicalSet::new(alloc, name, dns_class, input.type_covered, records)?;
        Ok(TBS::under_owner(alloc, &owner, dns_class, input, &set)?)
    }

    /// The octets to be signed for a set with this name and class, whose data are at hand.
    ///
    /// # Errors
    ///
    /// `LabelsExceedOwner` where `input` has more labels than the name. Or `OutOfMemory`.
    pub fn of_set(
        alloc: Global,
        name: &Name,
        dns_class: DNSClass,
        input: &SigInput,
        set: &CanonicalSet,
    ) -> Result<TBS, TbsError>
        ensures { GivesUnless TbsError.OutOfMemory (λ tbs. tbs) result
            (signed_of input.now name.now dns_class (Ok set.now)) }
    {
        let owner = determine_name(name, input.num_labels)?;
        Ok(TBS::under_owner(alloc, &owner, dns_class, input, set)?)
    }

    /// The octets to be signed for a set, under the owner as it is signed.
    pub(crate) fn under_owner(
        alloc: Global,
        owner: &Name,
        dns_class: DNSClass,
        input: &SigInput,
        set: &CanonicalSet,
    ) -> Result<TBS, EmitError>
        ensures { GivesUnless EmitError.OutOfMemory (λ tbs. tbs) result
            (Ok (signed_octets owner.now input.now dns_class set.now)) }
    {
        let signed = SignedSet {
            owner,
            dns_class,
            input,
            strings: set,
        };
        Ok(TBS {
            octets: octets_of(alloc, &signed, CANONICAL)?,
        })
    }

    /// A copy of these octets.
    ///
    /// # Errors
    ///
    /// Out of memory.
    pub fn from_slice(alloc: Global, octets: &[u8]) -> Result<TBS, OutOfMemory>
        ensures { IfOk result (λ tbs. tbs ≡ octets.now) }
    {
        Ok(TBS {
            octets: Vec::from_slice(alloc, octets)?,
        })
    }

    /// The octets.
    pub fn as_slice(&self) -> &[u8]
        ensures { result.now ≡ self.now }
    {
        self.octets.as_slice()
    }
}
