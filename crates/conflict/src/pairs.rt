//! What two transactions have in common.

ghost use Rattle.std.specs.Prelude.{◌≡◌};
ghost use Rattle.std.specs.List.{list_any};
ghost use Rattle.siread.specs.Keys.{place_of, same_place, touches};
ghost use Rattle.alone.specs.Commits.{conflicts_to, overlap, share_row, touch_any};
ghost use Rattle.conflict.specs.Candidates.{record_of};

use crate::candidates::Candidate;
use alone::Record;
use siread::{LockKey, touches};
use table::Change;
use value::order;

/// Whether one of these changes touches one of these keys.
pub fn touch_any(changes: &[Change], keys: &[LockKey]) -> bool
    ensures { result ≡ touch_any changes.now keys.now }
{
    is_any_touched(changes, keys)
}

fn is_any_touched(changes: &[Change], keys: &[LockKey]) -> bool
    ensures { result ≡ list_any (λ key. list_any (λ change. touches change key) changes.now) keys.now }
{
    keys.iter().any(|key| is_touched_by_any(changes, key))
}

fn is_touched_by_any(changes: &[Change], key: &LockKey) -> bool
    ensures { result ≡ list_any (λ change. touches change key.now) changes.now }
{
    changes.iter().any(|change| touches(change, key))
}

/// Whether two net changes have a row in common.
pub fn share_row(these: &[Change], those: &[Change]) -> bool
    ensures { result ≡ share_row these.now those.now }
{
    is_any_shared(these, those)
}

fn is_any_shared(these: &[Change], those: &[Change]) -> bool
    ensures { result
        ≡ list_any (λ change. list_any (λ other. same_place (place_of change) (place_of other)) those.now) these.now }
{
    these.iter().any(|change| has_row_of(those, change))
}

/// Whether one of these changes is of the same row.
pub fn has_row_of(those: &[Change], change: &Change) -> bool
    ensures { result ≡ list_any (λ other. same_place (place_of change.now) (place_of other)) those.now }
{
    those.iter().any(|other| is_same_row(change, other))
}

fn is_same_row(change: &Change, other: &Change) -> bool
    ensures { result ≡ same_place (place_of change.now) (place_of other.now) }
{
    change.table == other.table && order(&change.key, &other.key).is_eq()
}

/// Whether the candidate conflicts to a commit: they overlap, and that one wrote what the candidate read.
pub fn conflicts_to(candidate: &Candidate, writer: &Record) -> bool
    ensures { result ≡ conflicts_to (record_of candidate.now) writer.now }
{
    is_overlap(candidate, writer) && touch_any(writer.changes.as_slice(), candidate.reads)
}

/// Whether neither's snapshot holds the other.
fn is_overlap(candidate: &Candidate, other: &Record) -> bool
    ensures { result ≡ overlap (record_of candidate.now) other.now }
{
    candidate.number != other.number
        && other.snapshot < candidate.number
        && candidate.snapshot < other.number
}
