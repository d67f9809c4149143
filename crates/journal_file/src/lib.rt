//! The real file of a journal, as a [`Device`](journal::Device) that a [`Journal`](journal::Journal) writes to.
//!
//! - [`JournalFile::open`] locks a file that is there and hands out its bytes, which are on the disk then.
//! - [`JournalFile::behind`] lets a journal see the file from behind its header on.
//! - [`write_new`] puts a whole new file in the place of one, or where there is none, without a moment in which the
//!   name stands for half a file, or for one that a second process may take.
//! - A [`JournalFile`] is over what makes its calls, an [`OpenFile`]: a file of the system, or an [`Outbox`], in which
//!   they wait for a caller that has the file (`JournalFile::of_read`, `waiting`). `specs/Waiting` has their bytes.
//!
//! # What is proved, and what is trusted
//!
//! Nothing can prove what a disk does. A [`JournalFile`] keeps a record of its calls, which only proofs see
//! (`record`), and it is proved that **what the record says is what the clauses of `Device` ask for**. That the record
//! is true of the real file is trusted, and has to be read:
//!
//! - each method of `handle::Handle` makes the one call on the file that `files` notes beside its answer, at the place
//!   that is noted, behind the base; over an `Outbox`, that this call is the one whose bytes are put behind those that
//!   wait, and that the caller makes them in their order;
//! - `JournalFile::open` notes as read the bytes that it has read, of a file that was synced before and that no other
//!   process writes to (`places`);
//! - what the system promises of `pwrite`, `fdatasync`, `fsync`, `flock`, `link` and `rename` is so
//!   (docs/JOURNAL.md has it in plain words).
//!
//! A body that notes a sync and makes none would be proved as well. Of `record`, two functions are proved by hand,
//! since they set what no memory holds; no other proof by hand may be written over a `Record`.
#![tactic(auto)]

mod faults;
mod files;
mod handle;
mod outbox;
mod places;
mod record;

pub use faults::OpenFault;
pub use files::{Draft, JournalFile, write_new};
pub use handle::OpenFile;
pub use outbox::Outbox;
