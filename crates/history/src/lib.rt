//! What happened when a script was run: each transaction with what it read, by whom, and what it changed.
//!
//! The engine keeps of a transaction what it needs to answer: a list of keys that it read, and its net change. A person
//! who asks why an answer was given asks for more: which statement, or the check of which assertion, read a key; what
//! stood on the view on which an assertion would have been false; and which reads of one transaction the changes of
//! another touch. So [`read_history`] runs the script in the engine, and each transaction once more beside it, on the
//! tables that it began on, and notes these. Nothing is guessed:
//!
//! - the answers are those of `commit::Engine`, and the serial order is that of its core;
//! - a transaction alone is a `txn::Txn`, begun on the same tables and given the same statements, and at COMMIT a
//!   `txn::ClosedTransaction`: so what it reads and its net change are what the engine's own transaction has;
//! - the keys of a check are those of `changes::push_check`, for each assertion that is meant, in the modes of
//!   `alone::Modes`, over the rows that the statement changes (those of its `txn::AppliedEffect`), or over the net
//!   change at COMMIT;
//! - a view on which an assertion would be false is that of the same `txn::AppliedEffect`;
//! - a change touches a read where `siread::touches` says so ([`conflict_between`]).
//!
//! [`Source`] finds the text of an event or a definition again.
#![tactic(auto)]

mod checks;
mod conflicts;
mod histories;
mod mirrors;
mod recorders;
mod sources;
mod tries;
mod words;

pub use conflicts::{Conflict, are_apart, conflict_between, push_conflicts};
pub use histories::{End, Happening, History, Read, Reader, Transaction};
pub use recorders::read_history;
pub use sources::Source;
pub use words::{add_bytes, add_change, add_key, add_row, add_table, column_name};
