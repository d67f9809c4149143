//! The running manager: sessions on threads, one lock, and the committed tables on a shelf beside it.
//!
//! A [`Manager`] is a [`Book`] under a lock, and a [`Shelf`]. The book is the commits (`commit::Core`), with a token
//! of the shelf for each number; the shelf has for each number the record of that commit and the tables after it, and
//! only grows. Each call of a manager takes the lock for one call of the book of the same name, which is one event of
//! the core. A transaction ([`Txn`]) is run by its thread on values of its own: its statements, and the check of
//! COMMIT, take no lock.
//!
//! A commit may have to be kept before it counts, as in a journal ([`Manager::commit_kept`]): it is prepared under the
//! lock, kept, and only then made. So each transaction begins on commits that were kept.
//!
//! What a thread brings to the lock is known again by its token. A transaction carries the token of its snapshot, and
//! the book has its own token for that number; tokens of one index show one item. So the lock knows on which tables
//! the transaction ran, and a [`Receipt`] shows the very record that was committed. Which shelf, and which limits,
//! belong to a manager's id is said by an `N: `[`Named`], which is chosen once, where the shelves are made.
//!
//! An epoch is the commits from the opening on. [`Manager::checkpoint`] ends it, and begins the next one on the newest
//! tables, under other assertions: a new book takes the place of the old one, which is handed out as a [`History`]. The
//! id stays and the epoch's number is one more, so what the old book gave out is not known to the new one.
//!
//! What the layer above may rest on: whenever the lock is free, the book's type keeps that its core is serializable
//! (`commit::Core::recall_serializability`) and that its tokens are those of its commits (`specs/Books`); each call of
//! a [`Book`] is decided by it (`specs/Answers`). Nothing is claimed of who comes first, or that a call that waits
//! returns.
#![tactic(auto)]

mod book;
mod history;
mod items;
mod limits;
mod making;
mod manager;
mod named;
mod receipts;
mod releases;
mod sessions;
mod shelf;
mod tickets;

pub use book::Book;
pub use history::History;
pub use items::Item;
pub use limits::Limits;
pub use manager::Manager;
pub use named::Named;
pub use receipts::Receipt;
pub use releases::{release, release_refused};
pub use sessions::Session;
pub use shelf::{Shelf, Token};
pub use tickets::{CloseFailure, ClosedTransaction, CommitFault, Txn};
pub use txn::Access;
