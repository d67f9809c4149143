//! What a transaction reads, and which changes touch it.
//!
//! A serializable snapshot engine notes what each transaction read, under keys that outlive the read and block nobody
//! (SIREAD locks: Cahill, Röhm and Fekete 2008). Here a key is one row of a table, whether it is there or not; the
//! rows with one value in a column; or a whole table. A change of a row *touches* the key of the row itself, the keys
//! of the values that its old or its new row has in a column, and the key of its table. What a transaction finds
//! under its keys is all that it knows of the tables, so one whose keys nobody touched would be answered the same on
//! the tables after the change.
//!
//! NULL is a value like others here: rows that have NULL in a column are under that column's key for NULL, as GROUP
//! BY puts them into one group (ISO/IEC 9075:1992, group by clause).
//!
//! A [`LockTable`] keeps for each key the numbers of the commits that read it. It is changed in place, and a look-up
//! costs no more than the depth of a map. Readers that can matter to none who will ask are trimmed: those that reach
//! no further than the least snapshot that may ask.
//!
//! The greatest reader of the keys that changes touch is found by what stands in the rows, without memory. Not every
//! reader counts: one that is read only may stand earlier than its number, so the caller says how far each *reaches*,
//! and how far it is to reach at least. Who reads later may reach less far, so the last reader of a key need not be
//! the one; but none reaches further than its number, and so none below what is asked for counts.
//!
//! The definitions are in `specs/Keys`, `specs/Families` and `specs/Locks`.
#![tactic(auto)]

mod by_value;
mod keys;
mod locks;
mod readers;

pub use keys::{LockKey, Place, is_same, touches};
pub use locks::LockTable;
