//! Committed transactions.

ghost use Rattle.std.specs.Prelude.{◌≡◌};
ghost use Rattle.alone.specs.Commits.{reach, reach_of};

use crate::statements::ResolvedStatement;
use siread::LockKey;
use sqlite_items::Items;
use table::Change;
use value::Text;

/// A committed transaction. What its statements were answered is not in it: that is a function of its statements and
/// of the tables that it began on, which the commits before it made.
#[derive(Debug, Drop)]
pub struct Record {
    /// Its place among the commits, from 1 upwards.
    pub number: u64,
    /// How many commits its snapshot holds.
    pub snapshot: u64,
    /// Whether it began READ ONLY.
    pub read_only: bool,
    /// The session that ran it.
    pub session: Text,
    /// Its statements, refused ones too, with their names found.
    pub trace: Items<ResolvedStatement>,
    /// What it read.
    pub reads: Items<LockKey>,
    /// Its net change, by table and key.
    pub changes: Items<Change>,
}

impl Record {
    /// How far it reaches.
    pub fn reach(&self) -> u64
        ensures { result ≡ reach self.now }
    {
        reach_of(self.number, self.snapshot, self.read_only)
    }
}

/// The last number that may stand in the serial order before a commit of this number and snapshot: that of its
/// snapshot where it is read only, else its own.
pub fn reach_of(number: u64, snapshot: u64, read_only: bool) -> u64
    ensures { result ≡ reach_of number snapshot read_only }
{
    if read_only { snapshot } else { number }
}
