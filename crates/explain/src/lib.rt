//! Why an event of a script was answered so.
//!
//! [`explain_into`] runs a script, as `replay::replay_into` does, and writes for each event that was refused, or for
//! one event by its number, what the answer rests on (docs/EXPLAIN.md tells how to read it). Each figure is taken from
//! values that the contracts of the layers below speak of:
//!
//! - of an assertion that would be false: the least root that the refusal names, what each set function of the
//!   assertion gives there (`groups::Total`), and the rows that it counts (`delta::View::rows`, `table::passes`), on
//!   the tables as the refused statement would have left them;
//! - of a commit in the way: the rows that both changed, by the net changes at COMMIT;
//! - of a dangerous triple: for each of its two conflicts the keys that the one read and the changes of the other that
//!   touch them (`siread::touches`), with the statement, or the check of an assertion, that read the key;
//! - of an event that was not refused: its answer, the keys that it read and by whom, and the rows that it changed.
//!
//! Lists are cut after ten lines. The crate `history` runs the script and notes who read what.
#![tactic(auto)]

mod conditions;
mod conflicts;
mod explaining;
mod faults;
mod figures;
mod happenings;
mod parts;
mod stories;
mod violations;

pub use explaining::{ExplainFault, explain_into};
