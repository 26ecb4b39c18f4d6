//! The canonical order of names (RFC 4034 6.1).
ghost use Rattle.std.specs.Prelude.{◌≡◌, ◌-◌, length, drop, reverse, refl, Some};
ghost use Rattle.std.specs.Ordering.{nat_cmp, ordering_then};
ghost use Rattle.std.specs.Cmp.{po};
ghost use Rattle.std.specs.Cmp.Lexicographic.{slice_cmp};
ghost use Rattle.dns_names.specs.Names.{name_cmp};
ghost use Rattle.dns_names.specs.NameLaws.{name_cmp_total, same_ties};

use crate::name::{LabelIter, Name};
use std::cmp::Ordering;

/// Compares as many labels on both sides, the rightmost first; where all are equal, the answer is `tied`.
fn cmp_from_right(mut left: LabelIter<'_>, mut right: LabelIter<'_>, tied: Ordering) -> Ordering
    requires { length left ≡ length right }
    ensures { result ≡ ordering_then (slice_cmp (slice_cmp nat_cmp) (reverse left.entry) (reverse right.entry)) tied }
{
    let mut ordering = tied;
    'labels: while let (Some(a), Some(b)) = (left.next(), right.next()) {
        ordering = a.cmp(b).then(ordering);
    }
    ordering
}

/// The labels behind the first `n`.
pub(crate) fn behind(mut labels: LabelIter<'_>, n: usize) -> LabelIter<'_>
    ensures { result ≡ drop n labels.entry }
{
    'labels: for _ in 0..n {
        labels.next();
    }
    labels
}

impl Ord for Name {
    ghost cmp = { name_cmp };

    ghost total = { name_cmp_total };

    ghost matches_partial_cmp = { λ n z. refl };

    ghost matches_eq = { same_ties };

    fn cmp(&self, other: &Name) -> Ordering {
        let (first, second) = (self.to_lowercase(), other.to_lowercase());
        let (m, n) = (first.label_count(), second.label_count());
        let left = behind(first.iter(), m.saturating_sub(n));
        let right = behind(second.iter(), n.saturating_sub(m));
        cmp_from_right(left, right, m.cmp(&n))
    }
}

impl PartialOrd for Name {
    ghost partial_cmp = { λ n z. Some (name_cmp n z) };

    ghost laws = { po name_cmp_total same_ties };

    fn partial_cmp(&self, other: &Name) -> Option<Ordering> {
        Some(self.cmp(other))
    }
}
