//! The shell: events as they come, each answered at once.
//!
//! [`shell_into`] reads events from an input, as from a pipe, and writes for each the line that a replay of the same
//! events writes; [`converse_into`] talks to a person at a terminal. What a text is and what it is answered:
//!
//! - A piece of the input goes up to the next semicolon that stands neither in a quoted text nor in a comment. It may
//!   span lines, and a line may have several. Blanks and comments alone are no event.
//! - A piece is an event of the session that it names in front, `NAME: BEGIN;`, or of the session ME.
//! - A piece that is none of the language gets one line, `SCRIPT: REFUSED 2 - SYNTAX 17`, with the place in the input
//!   at which it goes wrong, counted in bytes from 0. Nothing has changed, and the next piece is read.
//! - At most 256 sessions have a seat: those that come first. Each event of another is refused. Where there is no
//!   memory to read an event, or for the seat of a session that comes for the first time, the event is refused as a
//!   text.
//!
//! What the contract of [`shell_into`] says stands on `commit::Engine` and on one law more: an engine that seats its
//! sessions as they come answers as one that seated all of them at the start (`proofs/Seating`). So the answers are
//! those of a script, and the commits are serializable in the order that the report names.
//!
//! The modules, from the top down: `calls` has the shell for a pipe, and `conversations` with `commands` the one for a
//! terminal; `shells` reads, answers and writes; `events` answers one piece; `headings` finds the session of a piece,
//! and `cutting` the end of one.
#![tactic(auto)]

mod calls;
mod commands;
mod conversations;
mod cutting;
mod events;
mod faults;
mod headings;
mod laws;
mod ledgers;
mod shells;

pub use calls::shell_into;
pub use conversations::converse_into;
pub use faults::{LedgerFault, ShellFault};
pub use laws::{pieces_are_the_input, quotes_and_comments_are_whole};
pub use ledgers::{LedgerShell, Pace, Stop};
