//! The order of labels in a record.

ghost use Rattle.std.specs.Prelude.{◌≡◌};
ghost use Rattle.std.specs.Ordering.{nat_cmp, is_lt};
ghost use Rattle.std.specs.Cmp.Lexicographic.{slice_cmp};

use std::cmp::Ordering;

/// Whether a label stands above the last one, by their bytes.
pub(crate) fn rises(last: &str, label: &str) -> bool
    ensures value { result ≡ is_lt (slice_cmp nat_cmp last.now label.now) }
{
    match last.cmp(label) {
        Ordering::Less => true,
        Ordering::Equal | Ordering::Greater => false,
    }
}
