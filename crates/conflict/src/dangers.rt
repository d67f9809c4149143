//! The dangerous triple that a candidate would complete.

ghost use Rattle.std.specs.Prelude.{◌≡◌, ◌<◌, ◌+◌, ◌&&◌, false, length, map, nat_le, nat_lt, reverse, IfNone, IfSome};
ghost use Rattle.alone.specs.Commits.{conflicts_to, reach, IsLog};
ghost use Rattle.alone.specs.Numbers.{is_reader, IsLeastPivot};
ghost use Rattle.alone.specs.Order.{least_out};
ghost use Rattle.conflict.specs.Candidates.{record_of};

use crate::candidates::Candidate;
use crate::pairs::conflicts_to;
use alone::Record;

/// A dangerous triple that a candidate would complete. The others in it are named by their numbers.
#[derive(Clone, Copy, Debug, PartialEq, Eq)]
pub enum Danger {
    /// The candidate would be the pivot, between its greatest reader and its least writer.
    AsPivot { reader: u64, writer: u64 },
    /// The candidate can be no pivot. It would be the reader of the least pivot, with that one's least writer.
    AsReader { pivot: u64, writer: u64 },
}

/// The least of those with which the candidate would be a reader, and that one's least writer. `places` are the least
/// conflicts out of those committed.
pub fn find_pivot<'a>(
    committed: &'a [Record],
    places: &[u64],
    candidate: &Candidate,
) -> Option<(&'a Record, u64)>
    requires log { IsLog (reverse committed.now) }
    requires next { candidate.now.number ≡ length committed.now + 1 }
    requires after_snapshot { candidate.now.snapshot < candidate.now.number }
    requires places { places.now ≡ map (least_out (reverse committed.now)) committed.now }
    ensures found { IfSome result (λ found.
        IsLeastPivot (reverse committed.now) (record_of candidate.now) found.0.now) }
    ensures writer { IfSome result (λ found. found.1 ≡ least_out (reverse committed.now) found.0.now) }
    ensures none { IfNone result (is_reader (reverse committed.now) (record_of candidate.now) ≡ false) }
{
    let held = candidate.snapshot as usize;
    for (pivot, place) in committed[held..].iter().zip(&places[held..]) {
        if is_reader_of(candidate, pivot, *place) {
            return Some((pivot, *place));
        }
    }
    None
}

/// Whether the candidate would be the reader of a dangerous triple with this pivot, whose least writer is this.
fn is_reader_of(candidate: &Candidate, pivot: &Record, writer: u64) -> bool
    ensures { result ≡ (conflicts_to (record_of candidate.now) pivot.now
        && (nat_lt writer pivot.now.number && nat_le writer (reach (record_of candidate.now)))) }
{
    // (two numbers are compared sooner than keys)
    (writer < pivot.number && writer <= candidate.reach()) && conflicts_to(candidate, pivot)
}
