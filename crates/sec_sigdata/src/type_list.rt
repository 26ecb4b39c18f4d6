//! The types at a name, as NSEC and NSEC3 records list them (RFC 4034 4.1.2, RFC 5155 3.2.1).
ghost use Rattle.std.specs.Prelude.{◌≡◌, Some};
ghost use Rattle.sec_sigdata.specs.TypeLists as specs;

use dns_types::{RecordType, RecordTypeSet};
use std::fmt;

/// Whether the types are those of a delegation as the zone above sees it, NS without SOA, or of a subtree under another
/// name, DNAME (RFC 6840 4.1).
pub(crate) fn is_ancestor_delegation(types: &RecordTypeSet) -> bool
    ensures { result ≡ specs.is_ancestor_delegation types.now }
{
    types.contains(RecordType::DNAME)
        || types.contains(RecordType::NS) && !types.contains(RecordType::SOA)
}

/// The types of a set, each behind a space.
#[derive(Clone, Copy)]
pub(crate) struct TypesText<'a>(pub(crate) &'a RecordTypeSet);

impl fmt::Display for TypesText<'_> {
    ghost output = { λ text. Some (specs.types_text text.0.now) };

    #[tactic(auto, unfolding(crate::specs::TypeLists::types_text))]
    fn fmt<W: fmt::Write>(&self, f: &mut fmt::Formatter<W>) -> fmt::Result {
        for rtype in self.0.iter() {
            write!(f, " {rtype}")?;
        }
        Ok(())
    }
}
