//! Statements with `?` where a constant may stand: parsed once, and run with values.
//!
//! A text with parameters is read by [`prepare`]. Each `?` outside of quoted texts and comments stands for a constant.
//! [`Prepared::fill`] puts values in their places, numbers, texts and NULL, and what comes of it is the event that the
//! text with these constants has. A value never becomes text, so nothing that it holds can be read as a part of the
//! statement.
//!
//! The grammar knows no `?`. The *mask* of a text has a `0` for each, one byte for one byte, so that every offset is
//! the text's own; the tree is that of the mask. Each token of the mask that is a number is one number of the tree, in
//! reading order, and it is a parameter where the text has a `?` there.
//!
//! Two places are refused although the mask is of the language. A `?` directly behind a sign that is no operator of a
//! sum would lose that sign, since `- 0` is the number 0; `BAL - ?` is a sum, and fine. And a `?` stands neither
//! directly behind a word or a number nor directly before a digit: `AND?` and `?5` are refused, since the mask has one
//! token `AND0` or `05` there.
//!
//! NULL may stand for a parameter where the grammar has NULL: as a value of an INSERT, and where the parameter is all
//! that an UPDATE gives to a column (also in parentheses, which a tree doesn't keep). Elsewhere it is refused; a
//! condition tests for NULL by IS NULL. Whether a value fits its column is for the run to say, as of a constant.
//!
//! A text is one statement. Scripts have a `;` behind each, and [`without_semicolon`] takes it off.
//!
//! The definitions are in `specs/`: `Masks` (the mask of a text), `Ends` (the `;` at its end), `Numbers` (which numbers
//! are parameters, and where none may stand), `Constants`, `Conditions` and `Statements` (a tree with values in the
//! places of its parameters, a walk in reading order), and `Prepared` (what the public calls say). Two laws stand
//! beside them. [`event_has_the_numbers_of_its_text`]: the n-th number of a tree is the n-th among the tokens of its
//! text, which is what lets values be put into the tree. [`filled_event_is_written`]: values that are numbers and
//! texts, for an INSERT also NULL, filled in, give the event of each text that has them written in the places of its
//! parameters.
#![tactic(auto)]

mod conditions;
mod constants;
mod copies;
mod ends;
mod faults;
mod laws;
mod masks;
mod numbers;
mod prepared;
mod statements;

pub use ends::without_semicolon;
pub use faults::FillFault;
pub use laws::{event_has_the_numbers_of_its_text, filled_event_is_written};
pub use masks::mask;
pub use prepared::{Prepared, prepare};
