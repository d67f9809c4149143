//! Transactions that ask to be committed.

ghost use Rattle.std.specs.Prelude.{◌≡◌};
ghost use Rattle.alone.specs.Commits.{reach};
ghost use Rattle.conflict.specs.Candidates.{record_of};

use alone::reach_of;
use siread::LockKey;
use table::Change;

/// A transaction that asks to be committed next. What it lends is all that conflicts are decided by.
#[derive(Clone, Copy, Debug)]
pub struct Candidate<'a> {
    /// The number that it would have: the next.
    pub number: u64,
    /// How many commits its snapshot holds.
    pub snapshot: u64,
    /// Whether it began READ ONLY.
    pub read_only: bool,
    /// What it read.
    pub reads: &'a [LockKey],
    /// Its net change, by table and key.
    pub changes: &'a [Change],
}

impl Candidate<'_> {
    /// How far it reaches as the commit of its number.
    pub fn reach(&self) -> u64
        ensures { result ≡ reach (record_of self.now) }
    {
        reach_of(self.number, self.snapshot, self.read_only)
    }
}
