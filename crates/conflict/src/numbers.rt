//! The two numbers of a candidate.

ghost use Rattle.std.specs.Prelude.{◌≡◌, ◌<◌, ◌&&◌, true, false, List, [], if◌then◌else◌, map, min, nat_lt, reverse};
ghost use Rattle.siread.specs.Locks.{readers_at};
ghost use Rattle.siread.specs.Readers.{ReachNoFurther};
ghost use Rattle.alone.specs.Commits.{conflicts_to, reach, IsNext};
ghost use Rattle.alone.specs.Numbers.{greatest_in};
ghost use Rattle.alone.specs.Order.{least_out};
ghost use Rattle.conflict.specs.Candidates.{record_of};
ghost use Rattle.conflict.specs.Readers.{HasReaders};
ghost use Rattle.alone.specs.declared.records.Record.{Record};

use crate::candidates::Candidate;
use crate::pairs::conflicts_to;
use alone::Record;
use siread::LockTable;

/// The least of the earlier commits to which the candidate conflicts, or its own number where there is none.
pub fn least_out(others: &[Record], candidate: &Candidate) -> u64
    ensures { result ≡ least_out (reverse others.now) (record_of candidate.now) }
{
    let mut least = candidate.number;
    for other in others {
        least = least_with(other, candidate, least);
    }
    least
}

fn least_with(other: &Record, candidate: &Candidate, least: u64) -> u64
    ensures { result
        ≡ (if nat_lt other.now.number candidate.now.number && conflicts_to (record_of candidate.now) other.now
        then min other.now.number least else least) }
{
    if other.number < candidate.number && conflicts_to(candidate, other) {
        other.number.min(least)
    } else {
        least
    }
}

/// The greatest of those that conflict to the candidate and reach the least to which it conflicts, 0 where there is
/// none. Of those who read what it changes, all that reach so far reach past its snapshot. To one that is read only
/// none conflicts, so who read what is not asked for.
pub fn greatest_in(locks: &LockTable, reaches: &[u64], least: u64, candidate: &Candidate) -> u64
    requires no_further { ReachNoFurther reaches.now }
    requires after_snapshot { candidate.now.snapshot < candidate.now.number }
    requires changes_nothing { candidate.now.read_only ≡ true → candidate.now.changes.now ≡ [] }
    ensures { (commits : List Record) → IsNext (record_of candidate.now) (reverse commits)
        → (candidate.now.read_only ≡ false
        → HasReaders (readers_at locks.now) reaches.now commits candidate.now.snapshot)
        → reaches.now ≡ map reach commits → least ≡ least_out (reverse commits) (record_of candidate.now)
        → result ≡ greatest_in (reverse commits) (record_of candidate.now) }
{
    if candidate.read_only {
        return 0;
    }
    locks.greatest_reader(candidate.changes, least, reaches)
}
