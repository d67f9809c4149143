//! The calls of the C library, as safe functions: bytes in, and bytes out.
//!
//! A [`Library`] is what stands behind the handle of a C program: a database with its sessions and prepared statements,
//! unless its definitions were refused, and the response to the last call. [`open`] makes it of the bytes of a
//! request, and [`serve`] makes one call and writes its reply. What stands in the bytes is in the crate
//! `messages`.
//!
//! What a call does (`specs/Calls`):
//!
//! - A session is opened by a name and closed by its number, which is given to no other. Its events are answered in the
//!   seat of its name by `commit::Engine`.
//! - A prepared statement is run with values, and is then the event that has these constants in its places.
//! - Several of them are run in one call, each as a call of its own runs it, up to the first that is not done; or a
//!   whole transaction is: BEGIN, the statements and COMMIT, or ROLLBACK where one of them is not done.
//! - A statement's text may end with its `;`.
//! - Where a request does not decode, a session or a statement is not there, or values do not fit, nothing has changed,
//!   and the response says which of these it is. Nor has anything changed where memory ran out.
//! - The response is kept, so that a reply that did not fit into the caller's buffer is given again.
//! - A library that is opened on a journal's file ([`open_journal`]) begins with the tables that the file says, and a
//!   COMMIT counts only once it is kept in it. The library makes no call on the file: what is to be written where, and
//!   when to sync, waits for the caller, who takes it ([`take_calls`]) and does it before the answer is handed on
//!   (`specs/Keeping`, `specs/Journals`). A COMMIT that could not be kept has changed nothing.
//!
//! The reply is a function of the response, byte by byte, and where there is no memory for it the status says that it
//! waits (`specs/States`).
//!
//! The modules, from the top down: `libraries` has the four functions; `databases` makes the calls, `steps` those of
//! several events, and `journals` those for a journal, over `kept` (an engine with its journal), `sessions` and
//! `statements`.
#![tactic(auto)]

mod databases;
mod journals;
mod kept;
mod libraries;
mod sessions;
mod statements;
mod steps;

pub use libraries::{Library, open, open_journal, serve, take_calls};
