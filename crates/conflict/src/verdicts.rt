//! What a candidate is answered by the commits before it.

ghost use Rattle.std.specs.Prelude.{◌≡◌, ◌<◌, ◌+◌, true, false, [], length, map, reverse};
ghost use Rattle.siread.specs.Locks.{readers_at};
ghost use Rattle.alone.specs.declared.records.Record.{Record as Commit};
ghost use Rattle.alone.specs.Commits.{reach, IsLog};
ghost use Rattle.alone.specs.Order.{least_out};
ghost use Rattle.conflict.specs.Candidates.{IsOf};
ghost use Rattle.conflict.specs.Judged.{IsJudgmentOf};
ghost use Rattle.conflict.specs.Readers.{HasReaders};

use crate::candidates::Candidate;
use crate::dangers::{Danger, find_pivot};
use crate::numbers::{greatest_in, least_out};
use crate::overwrites::find_write_conflict;
use alone::{Record, two_numbers_decide};
use siread::LockTable;

/// What a candidate is answered by the commits before it.
#[derive(Clone, Copy, Debug, PartialEq, Eq)]
pub enum Judgment {
    /// It may join them. `place` is the least commit to which it conflicts, or its own number where there is none.
    Fine { place: u64 },
    /// `changes[row]` is the first of its changes whose row a commit after the snapshot changed, and `by` the least
    /// such commit.
    WriteConflict { row: usize, by: u64 },
    /// A dangerous triple would have it in it.
    Dangerous(Danger),
}

/// What the next candidate is answered by those committed: a write conflict, else a dangerous triple, else that it may
/// join them. `places` are the least conflicts out of those committed, each kept since that one was judged, and
/// `reaches` says how far each reaches; `locks` says who of them read what, of those that reach above a number that is
/// at most the candidate's snapshot. One that is read only changes nothing, so who read what need not be known for it.
/// It takes no memory.
pub fn judge(
    committed: &[Record],
    places: &[u64],
    reaches: &[u64],
    locks: &LockTable,
    candidate: &Candidate,
) -> Judgment
    requires log { IsLog (reverse committed.now) }
    requires next { candidate.now.number ≡ length committed.now + 1 }
    requires after_snapshot { candidate.now.snapshot < candidate.now.number }
    requires places { places.now ≡ map (least_out (reverse committed.now)) committed.now }
    requires reaches { reaches.now ≡ map reach committed.now }
    requires readers { candidate.now.read_only ≡ false
        → HasReaders (readers_at locks.now) reaches.now committed.now candidate.now.snapshot }
    requires changes_nothing { candidate.now.read_only ≡ true → candidate.now.changes.now ≡ [] }
    ensures { (commit : Commit) → IsOf candidate.now commit → IsJudgmentOf (reverse committed.now) commit result }
{
    two_numbers_decide();
    let recent = &committed[candidate.snapshot as usize..];
    if let Some((row, by)) = find_write_conflict(recent, candidate.changes) {
        return Judgment::WriteConflict { row, by };
    }
    let place = least_out(recent, candidate);
    let reader = greatest_in(locks, reaches, place, candidate);
    if place <= reader {
        return Judgment::Dangerous(Danger::AsPivot {
            reader,
            writer: place,
        });
    }
    match find_pivot(committed, places, candidate) {
        None => Judgment::Fine { place },
        Some((pivot, writer)) => Judgment::Dangerous(Danger::AsReader {
            pivot: pivot.number,
            writer,
        }),
    }
}
