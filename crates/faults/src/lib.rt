//! A fault in a text of definitions or a script: where it is, what is wrong and what to do about it.
//!
//! The layers below answer a faulty text with its first fault, a `value::Refusal`: a program needs no more. A person
//! wants to see the line, and to be told what may stand there. That is a [`Diagnosis`], and [`draw`] draws it, with the
//! line and carets under the bytes.
//!
//! [`diagnose_grammar`] makes it of a text that is none of the language: what may stand at the place is asked of the
//! parser itself, word by word. What is wrong with trees is told by the crate above, `diagnosis`; what it needs stands
//! here: a definition's tokens ([`Piece`]), the nearest name ([`Nearest`]), lists in words ([`push_names`]).
//!
//! Nothing here is proved but that each call is safe and ends, and that want of memory is an error: what is said is
//! held against a table of faulty texts (`tools/faulty_texts.py`).
#![tactic(auto)]

mod diagnoses;
mod expected;
mod grammar;
mod hints;
mod near;
mod pictures;
mod pieces;
mod places;
mod words;

pub use diagnoses::{At, Diagnosis, number_of};
pub use expected::Which;
pub use grammar::diagnose_grammar;
pub use near::Nearest;
pub use pictures::{Colour, NamedText, draw};
pub use pieces::Piece;
pub use places::{Place, Span, place_of, push_printable};
pub use words::{push_names, separator};
