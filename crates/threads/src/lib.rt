//! Scripts with a thread for each session, from bytes to bytes.
//!
//! [`threads_into`] reads the two texts of a script, of definitions and of what sessions do, as whole as a replay does;
//! it gives the events of each session to a thread of its own, over one manager; and writes what each was answered, all
//! lines of a session together, with the closing part of the commits behind them. Which of the orders that threads may
//! take it was is not said; that the commits are serializable in the order that the closing part names, is
//! (`specs/Grouped`).
//!
//! [`run_sessions`] hands a [`Script`] to each thread, which takes a session of the manager and runs the script's lines
//! in their order: BEGIN, COMMIT and ROLLBACK are the manager's calls, and a statement is run in the open transaction,
//! without a lock. A session has one transaction at a time: BEGIN in an open one is refused, and everything else
//! without one. A [`Gate`] is called round each line, so that a test can hold a thread where it wants the others to
//! pass.
//!
//! [`threads_on_journal`] runs scripts on what a journal holds. A [`Keeping`], under a lock of its own, keeps each
//! commit before it counts (`specs/Keeping`), so that every transaction begins on commits that are on the disk; and
//! what is written is said as of a run without one (`specs/Kept`).
//!
//! What may be rested on of a run: there is an answer for each line of each script, or the one refusal of a script that
//! got no thread or no session (`specs/Scripts`); what a line is answered, as far as it is known without the commits,
//! is said where it is run (`specs/Lines`). A scope says nothing of what its threads wrote, so that the answers are
//! those of the manager is tested, and not proved.
//!
//! The modules, from the top down: `engine` is the whole, and `journals` the whole on a journal; `printing` the report;
//! `grouping` the scripts of the sessions; `runs` the threads, and `lines` the lines of one; `keeping` who keeps their
//! commits; `gates` what is called round each line; `scripts` what goes in and comes out.
#![tactic(auto)]

mod engine;
mod gates;
mod grouping;
mod journals;
mod keeping;
mod lines;
mod printing;
mod runs;
mod scripts;

pub use engine::threads_into;
pub use gates::{Free, Gate};
pub use journals::{read_scripts, threads_on_journal};
pub use printing::print_report;
pub use runs::run_sessions;
pub use scripts::{Script, ScriptAnswers};
