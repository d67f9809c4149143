//! The commits, the sessions with their open transactions, and events of any sessions one after the other.
//!
//! [`admit`] takes definitions in: what they define, and that no assertion is false on the rows that they begin
//! with (ISO/IEC 9075:1992, assertion definition: an assertion is satisfied where its condition is not false; that
//! rows are loaded first and assertions evaluated once, at the end, is this project's choice). Each assertion means
//! what the definitions write.
//!
//! A [`Core`] is the commits: the tables before the first and after the last, a record of each, their serial order,
//! and the commits that were refused. [`Core::begin`] begins a transaction on the newest tables. [`Core::commit`]
//! answers a COMMIT by the first of these that holds: an assertion is false on the transaction's own view; the
//! epoch is full; a commit after its snapshot changed a row that it changed; it would complete a dangerous triple;
//! else the next number. Its net change is then put into the newest tables; where nothing was committed since its
//! snapshot, they are its own view.
//!
//! An [`Engine`] is a core and the sessions, each in its [`Seat`] with its open transaction, if one is open:
//!
//! - BEGIN begins a transaction; inside one it is refused, and outside one everything else is.
//! - A statement is answered as alone on the transaction's own view (`txn`), and its trace then holds it.
//! - COMMIT ends the transaction, accepted or refused; ROLLBACK ends it, and nothing of it is kept.
//! - An event that finds no memory is answered so, and nothing has changed.
//! - A session that leaves gives its seat back ([`Engine::unseat`]); its open transaction ends as by a ROLLBACK.
//!
//! [`run`] answers a list of events. Its contract is the headline of the whole: each answer is one that `specs/Events`
//! allows after those before it; no committed tables make an assertion false; the serial order has each commit once;
//! and the committed transactions, run alone in it, answer what they answered and leave the newest tables
//! (`IsSerializable` in `specs/Cores`). Each maintained verdict, on the committed tables and on each open transaction's
//! own view, is its assertion evaluated from scratch (`specs/Verdicts`). What each committed transaction was told, out
//! of the list of events and answers, is what it answers alone (`specs/Told`). The law behind it speaks of the
//! definitions alone ([`answers_lead_to_a_serial_order`]).
//!
//! How it works. What a core keeps at hand (the newest tables, the least conflict out of each commit, the order) is
//! what its records determine, and each record was accepted over those before it and recorded as it runs alone on
//! its snapshot (`specs/Kept`): that is the premise of the laws of `alone`, so they hold of every core. A commit
//! is judged by the commits after its snapshot (`conflict::judge`), and all that takes memory is made before the
//! first field changes.
//!
//! What the layer above may rest on: the contracts of [`Engine::answer`], [`Core::commit`] and [`run`], and that law.
//! What it owes: tables that are admitted, and how many commits there may be at most. With a limit of 0 no commit is
//! accepted: each COMMIT on whose own view no assertion is false is answered that the epoch is full.
#![tactic(auto)]

mod admission;
mod cores;
mod decisions;
mod engine;
mod epochs;
mod keepers;
pub mod laws;
mod prepared;
mod seats;
mod verdicts;

pub use admission::{admit, admit_taken, require_satisfied};
pub use cores::{CommitFailure, Core};
pub use engine::{Engine, Outcome, run};
pub use epochs::{Epoch, Epochs, readmit, run_epochs};
pub use keepers::{Keeper, Kept, Unanswered};
pub use laws::{
    answers_lead_to_a_serial_order, replies_are_those_alone, safe_readers_are_never_refused,
};
pub use prepared::Prepared;
pub use seats::{Seat, has_few_sessions};
