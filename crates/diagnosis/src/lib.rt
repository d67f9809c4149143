//! What is wrong with the trees of a text: where, and what to do about it.
//!
//! A text that is of the language is answered with its first fault, a `value::Refusal`. A person wants more, which is
//! found here of the text, of the refusal and of the trees, after the fact; it changes no answer, and no layer below
//! knows of it.
//!
//! - [`diagnose_definitions`]: the first definition that was not taken in. Trees keep no places, so the part at fault
//!   is found in its tree by the rules of the layers below (names by `form_check`'s scopes, bounds by `table::bound`),
//!   and its place in the text by counting leaves.
//! - [`diagnose_false`]: an assertion that is false on the rows that the definitions put in.
//! - [`diagnose_statement`]: a statement of a script that is refused whatever the rows are.
//!
//! A place is never guessed: where the part at fault is not found, the whole definition is shown
//! (`faults::At::Definition`). Nothing here is proved but that each call is safe and ends, and that want of memory is
//! an error: what it says is held against a table of faulty texts (`tools/faulty_texts.py`).
#![tactic(auto)]

mod answers;
mod conditions;
mod constraints;
mod contexts;
mod definitions_at_fault;
mod inserts;
mod leaves;
mod names;
mod parts;
mod references;
mod refused;
mod rows;
mod rules;
mod selects;
mod shapes;
mod statements;
mod tables;
mod types;
mod widths;

pub use definitions_at_fault::{
    BadRow, DefinitionsText, FalseAssertion, diagnose_definitions, diagnose_false,
};
pub use statements::{ScriptStatement, diagnose_statement};
