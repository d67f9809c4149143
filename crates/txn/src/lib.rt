//! One transaction alone: what its statements answer and leave, and what its COMMIT checks.
//!
//! A transaction begins on some version of the tables, and from then on sees that version with its own changes and
//! nothing of what others do (ISO/IEC 9075:1992, SQL-transactions). One that is read only is refused each INSERT,
//! UPDATE and DELETE (transaction access mode). A statement has its effect on the rows, and then the immediate
//! assertions are checked on the rows that it leaves: where one is false, the statement is refused and has had no
//! effect (checking of constraints). SET CONSTRAINTS sets which assertions are immediate, and COMMIT checks all of
//! them (set constraints mode statement, commit statement). Which transactions may commit side by side is not decided
//! here: a transaction notes under which keys it has read, and hands out its net change, for the layer above to decide.
//!
//! - [`Txn::begin`] is a transaction on given tables. [`Txn::begin_number`], [`Txn::snapshot`] and
//!   [`Txn::is_read_only`] tell what it was begun with, and by [`Txn::recall_read_only`] a read-only one has no net
//!   change.
//! - [`Txn::execute`] runs a statement, finds its names first, and notes it in the trace.
//! - [`Txn::own`], [`Txn::trace`] and [`Txn::reads`] lend its own view of the tables, its statements so far with
//!   their names found, and the keys under which they have read.
//! - [`Txn::verdict`] is the truth of an assertion on the own view, and [`Txn::pending`] names the assertions that
//!   are false there. Neither enters the trace.
//! - [`Txn::close_check`] takes it to COMMIT: a [`ClosedTransaction`] has the transaction ([`ClosedTransaction::txn`]),
//!   its net change ([`ClosedTransaction::changes`]), the refusal by the first assertion that is false
//!   ([`ClosedTransaction::refused`]), and what it has read ([`ClosedTransaction::reads`]).
//!   [`ClosedTransaction::into_parts`] hands out what is kept of it when it is committed, and
//!   [`ClosedTransaction::reopen`] opens it again. Where memory runs out, [`CloseFailure`] gives it back as it was.
//! - [`Txn::abandon`] ends it, and nothing is kept but its own view.
//! - [`find_violation`] is the refusal by the first assertion that is false, of those that are meant. [`find_false`]
//!   lends its name and the least root at which it is; [`find_first_false`] does so of all assertions, also for tables
//!   that a transaction is to begin on.
//! - [`resolve`] finds a statement's names. [`update_effect`] and [`delete_effect`] are what it does to the rows of a
//!   view by its WHERE on a table of the view ([`filter_on`]), and [`apply`] puts that into the view, as
//!   [`apply_insert`] does new rows, before its assertions are asked: for who explains a refused statement.
//!
//! **Why each reply is that from scratch.** Of a transaction, contracts show six things: what is declared, its begin
//! number and snapshot, whether it is read only, the state that it began on, and its trace. They name no own view and
//! no modes that are kept, no rows that it has touched and no key that it has noted. The definitions of `alone` run the
//! trace again, from the first statement on, over plain lists of rows, and evaluate each condition and each assertion
//! on them; [`Txn::execute`] answers what the last statement of such a run answers. For that a transaction keeps as its
//! invariant that its own view, its modes and its keys are those which the run leaves, and that what it has noted of
//! the rows that it touched is what start and own view hold there, which elsewhere are the same (`Held`). So the net
//! change at COMMIT, read off these notes, is that of the two whole states; a row that is set to what it held is no
//! part of it. A view answers for its assertions (`delta`), and a statement that is refused leaves view and modes as
//! they were, since the new ones are made beside the old and put in their place last. Of a read-only one the invariant
//! says that its trace holds no INSERT, UPDATE or DELETE, and so it has no net change.
//!
//! What the layer above may rest on: a trace is all that there is to know of a transaction, and it can be run again
//! on other tables; a refusal is the definition's refusal, and stands in the trace; where memory runs out instead,
//! nothing has changed and the statement is in no trace. Tables, assertions and start stay as they were begun with. A
//! transaction is not let go by itself: each one is closed or abandoned. What it owes: nothing but tables that are a
//! [`delta::View`].
//!
//! The definitions are in `specs/`: `Transactions` (an open transaction, its own view, its outcome), `Runnable` (what
//! finding the names has tested), `Effects`, `Steps` and `Checks` (what steps of the code leave), and `Held` (how
//! what is kept agrees with the trace; no public contract cites it). A statement and a transaction alone are those of
//! `alone`.
#![tactic(auto)]

mod accesses;
mod applied;
mod checks;
mod closed;
mod copies;
mod effects;
pub mod laws;
mod resolutions;
mod steps;
mod traces;
mod txns;

pub use accesses::Access;
pub use applied::{AppliedEffect, apply, apply_insert};
pub use checks::{find_false, find_first_false, find_violation, list_truths, verdict_on};
pub use closed::{CloseFailure, ClosedTransaction, Parts};
pub use copies::{copy_changes, copy_record};
pub use effects::{Effect, delete_effect, filter_on, recall_order, update_effect};
pub use resolutions::{resolve, unless_memory};
pub use txns::Txn;
