//! Rows that a candidate changes, and a commit after its snapshot too.

ghost use Rattle.std.specs.Prelude.{◌≡◌, false, find, option_copied, IfNone, IfSome};
ghost use Rattle.std.specs.List.{list_any};
ghost use Rattle.alone.specs.Commits.{share_row};
ghost use Rattle.conflict.specs.Judged.{has_row_of, IsFirstShared};

use crate::pairs::has_row_of;
use alone::Record;
use table::Change;

/// The place of the first of some changes whose row one of these changed too, and the number of the first of these that
/// did.
pub fn find_write_conflict(others: &[Record], changes: &[Change]) -> Option<(usize, u64)>
    ensures found { IfSome result (λ found. IsFirstShared others.now changes.now found.0 found.1) }
    ensures none { IfNone result (list_any (λ other. share_row changes.now other.changes) others.now ≡ false) }
{
    for (row, change) in changes.iter().enumerate() {
        if let Some(other) = first_with(others, change) {
            return Some((row, other.number));
        }
    }
    None
}

/// The first of these that changed the row of a change.
fn first_with<'a>(others: &'a [Record], change: &Change) -> Option<&'a Record>
    ensures { option_copied result ≡ find (has_row_of change.now) others.now }
{
    others.iter().find(|other| has_row(other, change))
}

/// Whether a commit changed the row of a change.
fn has_row(other: &Record, change: &Change) -> bool
    ensures { result ≡ has_row_of change.now other.now }
{
    has_row_of(other.changes.as_slice(), change)
}
