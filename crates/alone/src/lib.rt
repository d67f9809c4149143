//! What a statement and a transaction do alone, when a commit may join those before it, and why the committed
//! transactions then have a serial order.
//!
//! *What is answered.* An event begins, commits or rolls back a transaction, or runs a statement in the one that is
//! open. [`Answer`] has a variant for each of these where it was done, and one for a refusal; [`Reply`] is what a
//! statement says that was run. A [`RefusedCommit`] is kept for each COMMIT whose refusal ended its transaction. How an
//! answer is printed is said in the crate `report`.
//!
//! *When assertions are checked* (`specs/Modes`). An assertion is *immediate* in a transaction, and then it is checked
//! after each statement, or *deferred*, and then it is checked at COMMIT (ISO/IEC 9075:1992, checking of constraints,
//! and set constraints mode statement). A transaction begins with each assertion in its initial mode; SET CONSTRAINTS
//! sets the mode of those that are deferrable, to the transaction's end. [`Modes`] are the modes of all assertions, in
//! the order of their creation. [`settable_names`] finds the assertions that SET CONSTRAINTS means, or its first fault,
//! name by name from the left; ALL means all that are deferrable. That names are tested when the statement is read, and
//! modes set when it is run, lets a statement whose names are found be kept and run again.
//!
//! *Alone.* A statement of a transaction is a step: from what is declared, the tables of the transaction's begin, its
//! own view of them and its modes, to a reply (a refusal among the replies), the view and the modes afterwards, and the
//! keys that it read. Its effect on the rows comes first, then the changes are put in, and then the immediate
//! assertions are checked on what they leave: one definition for INSERT, UPDATE and DELETE. A refused statement leaves
//! everything as it was. A transaction is its statements one after the other, and then COMMIT's check of all
//! assertions. These definitions evaluate whole lists of rows from scratch, and know nothing of what a view keeps:
//!
//! - `specs/States`: what stands at a place, and the net change between two states;
//! - `specs/Groups`: rows in order and in groups;
//! - `specs/Statements`: what each statement does to the rows, and what a SELECT lists of them;
//! - `specs/Reads`, `specs/Checks`: under which keys a WHERE and a check of assertions read;
//! - `specs/Alone`: a step, a run of statements, a transaction, and what it reads;
//! - `specs/Resolve`: statements as they were written, with their names found, and which of them a read-only
//!   transaction may run.
//!
//! *Together.* Transactions run on snapshots. A transaction *conflicts to* another that ran beside it where that one
//! wrote what it read: in every serial order it has to stand before it. A snapshot engine is serializable where it
//! refuses each commit that would complete a *dangerous triple*: a reader that conflicts to a pivot, the pivot to a
//! writer, and the writer committed before both (Cahill, Röhm and Fekete 2008; that the writer comes first is the rule
//! of Ports and Grittner 2012). Writer and reader may be one transaction.
//!
//! A transaction that began READ ONLY has written nothing, so none conflicts to it, and all that it conflicts to is
//! past its snapshot. It may therefore stand right behind its snapshot, before all later commits, however late it
//! commits itself. What speaks against that is only a commit to which it conflicts and which itself stands before one
//! that the snapshot holds: a pivot whose writer the snapshot holds. So a read-only transaction is the reader of a
//! dangerous triple only where its snapshot holds the writer (Ports and Grittner 2012; that one which only reads can be
//! the reader of a triple at all was found by Fekete, O'Neil and O'Neil 2004). Such a commit *reaches* its snapshot,
//! each other its own number: a writer that a commit does not reach makes no triple with it as the reader.
//!
//! These are definitions over a log of [`Record`]s, the newest first:
//!
//! - `specs/Commits`: conflicts, dangerous triples, and a log whose commits were accepted one after the other;
//! - `specs/Numbers`: the two numbers by which a commit is judged;
//! - `specs/Order`: the serial order, where those stand that are read only, and what it keeps;
//! - `specs/Replay`, `specs/Epoch`: transactions run alone one after the other, on states of rows;
//! - `specs/Answer`: what a COMMIT is to be answered by the commits before it;
//! - `specs/Safe`: the snapshots whose readers are never refused.
//!
//! The laws are contracts of functions without parameters. All of serializability rests on [`transactions_agree`]: on
//! two states that make no assertion false and hold the same rows under each key that a transaction reads on the one,
//! it answers the same and changes the same (in the theory of Cahill, Röhm and Fekete 2008, that a transaction is a
//! function of what it read). [`commits_have_an_order`] is the order law, [`two_numbers_decide`] says what the two
//! numbers decide, and [`replay_answers_again`] is the theorem of the whole: run alone in the serial order, each
//! committed transaction answers what it was answered on its snapshot. That there are such logs is shown in
//! `proofs/Witness`, and short ones are worked out in `proofs/Worked`.
#![tactic(auto)]

mod answers;
mod commit_laws;
mod laws;
mod modes;
mod names;
mod records;
mod results;
mod statements;

pub use answers::{Answer, RefusedCommit, Reply};
pub use commit_laws::{
    commits_have_an_order, numbered_commits_are_accepted, replay_answers_again,
    safe_snapshots_have_no_danger, two_numbers_decide,
};
pub use laws::{
    changes_are_due, commits_are_sound, immediate_checks_are_read_once, net_change_is_what_differs,
    read_only_statements_change_nothing, roots_depend_on_their_keys, runs_are_joined,
    transactions_agree, updates_leave_the_key,
};
pub use modes::Modes;
pub use names::settable_names;
pub use records::{Record, reach_of};
pub use results::{ResultRow, ResultValue};
pub use statements::ResolvedStatement;
