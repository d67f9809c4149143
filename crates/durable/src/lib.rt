//! Committed transactions that a crash does not take back.
//!
//! A [`Ledger`] answers events as `commit::Engine` does, and keeps each commit in a journal (`journal`) before it
//! counts: a COMMIT that is accepted is prepared, its line is written and synced, and only then it is the next commit
//! and is answered. Where it could not be kept the event is [`Unanswered`], and nothing has changed: the transaction
//! is still open. After the disk has failed no commit can be kept until the file is opened again.
//!
//! The first entry of a journal is its image: the rows that the tables held after the commit of that number, each put
//! into an empty table. [`restore`] puts the image and the commits behind it in, one after the other. Each change is
//! tested: its table is there, its old row stands under its key, and its new row fits and has that key. Then each
//! assertion is evaluated.
//!
//! What the layer above may rest on. Of a ledger at each moment, a crash leaves a file that says the image and the
//! first few commits, each whole and in their order: all that were answered, and at most the one that was being kept
//! (`specs/Promise`). What such a file says is restored to the committed tables after that many commits, and is never
//! refused ([`what_was_kept_is_restored`]). So what goes on from there is what a checkpoint after that commit would
//! have begun.
#![tactic(auto)]

mod batches;
mod faults;
mod images;
mod laws;
mod ledgers;
mod opening;
mod outlets;
mod restoring;
mod writers;

pub use batches::Batch;
pub use faults::{KeepFault, OpenFault, RestoreFault};
pub use images::spell_image;
pub use laws::{a_journal_is_restored, an_image_is_restored, what_was_kept_is_restored};
pub use ledgers::Ledger;
pub use opening::restore_tables;
pub use outlets::Outlet;
pub use restoring::restore;
pub use writers::Writer;
