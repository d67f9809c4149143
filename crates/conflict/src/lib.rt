//! What a commit is answered by those before it, where it then stands among them, and which snapshots open transactions
//! hold.
//!
//! [`judge`] compares a candidate with the commits after its snapshot, and asks the table of reads who read what it
//! changes. In this order:
//!
//! - *A write conflict*: one of them has a row of its net change, and the first committer wins. The first such row of
//!   the net change is named, and the least such commit.
//! - *A dangerous triple* would have the candidate in it. Two numbers decide: the least commit to which it conflicts,
//!   and the greatest that conflicts to it and reaches that one (Cahill, Röhm and Fekete 2008; Ports and Grittner
//!   2012). As a pivot it is named with these two; else as a reader with the least pivot whose least writer it reaches,
//!   and that writer.
//! - Else it may join them.
//!
//! Who is read only reaches no further than its snapshot, since it may stand right behind that; each other reaches its
//! own number. So the greatest reader of what a candidate changed is not always the one that counts, and how far each
//! commit reaches is kept beside it ([`alone::Record::reach`]).
//!
//! [`put_in_order`] then puts its number into the serial order: behind all of no greater rank. What conflicts,
//! dangerous triples and the serial order are is defined in the crate `alone`, and so is the answer (`specs/Answer`):
//! what `judge` finds is that answer.
//!
//! Commits are passed in the order of their numbers. A number is then a place, and a commit on a snapshot overlaps with
//! none that the snapshot holds, so only what stands after it is looked at. The least conflict out of each commit stays
//! as others follow. It is found once, kept beside the commit, and passed back with it: no pair of committed
//! transactions is compared again.
//!
//! [`Live`] knows which snapshots are held (`specs/Live`). A transaction holds the tables after so many commits from
//! its begin to its end, and is known in between by its number. What a commit read can matter only to a transaction
//! that may write and began before that commit; so reads are kept as long as such a one is open, and the least snapshot
//! that one of them holds tells which may go. One that is read only keeps nothing, however long it is open.
#![tactic(auto)]

mod candidates;
mod dangers;
mod numbers;
mod open_snapshots;
mod orders;
mod overwrites;
mod pairs;
mod snapshots;
mod verdicts;

pub use candidates::Candidate;
pub use dangers::Danger;
pub use open_snapshots::{Live, LiveSnapshot};
pub use orders::put_in_order;
pub use pairs::{share_row, touch_any};
pub use snapshots::is_safe;
pub use verdicts::{Judgment, judge};
