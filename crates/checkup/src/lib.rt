//! `skewguard check`: what two texts define, what their assertions cost, and what is wrong with them.
//!
//! Of each assertion it is shown in which form it is kept, which totals are maintained for it, which rows and columns a
//! check of it reads, when it is checked, how many rows and groups there are, and its verdict. The form and its tables
//! and columns are those of the resolved assertion (`assertion::Form`), the verdict and the least bad root are those of
//! `delta::View`, and rows are looked through by `changes::filtered_rows` and `mvrows::Rows`, so each figure is a value
//! of which contracts speak. (`tools/check_against.py` holds them against a reference.) Faults are those of `faults`
//! and `diagnosis`.
//!
//! [`check_into`] writes all of it for a person or for an editor, [`draw_refused`] draws the picture of one fault, for
//! a program that refuses a text, and [`draw_refused_text`] that of one text of a program over the library.
#![tactic(auto)]

mod calls;
mod columns;
mod examinations;
mod figures;
mod naming;
mod objects;
mod pairs;
mod refused_texts;
mod scans;
mod texts;

pub use calls::{CheckFault, Health, Style, check_into, draw_refused};
pub use faults::{Colour, NamedText, Which};
pub use refused_texts::{RefusedText, Role, draw_refused_text};
