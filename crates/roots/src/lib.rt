//! Which roots a change can turn, and whether an assertion is false at a root, by totals that are maintained.
//!
//! Evaluated from scratch, an assertion reads whole tables. Between one statement and the next little changes, so
//! here the answers of its subqueries and set functions are carried on instead (incremental view maintenance: Gupta,
//! Mumick and Subrahmanian, "Maintaining Views Incrementally", 1993), as *summaries*: the rows of a table that a
//! WHERE keeps, in groups, and for each group the totals of one column (summary tables: Mumick, Quass and Mumick,
//! "Maintenance of Data Cubes and Summary Tables in a Warehouse", 1997). A form has one for each slot of its condition,
//! in order, which is the slot's own query, so nothing is made of the form at a change:
//!
//! - by rows, a subquery, in which a row's group is what its linked column holds. NULL links to no key, and so such a
//!   row has no group. Where its filter asks what the row around holds, each row around is a group of its own, of the
//!   rows that are linked to it and that the filter keeps beside it; and where its link names one row by its key, that
//!   row is looked up, and nothing is maintained;
//! - by groups, a set function of HAVING, in which NULL is a group like another. Where HAVING has none there is one
//!   summary all the same, that of COUNT(*), since a group is listed only where it has a row;
//! - of a single condition, a subquery, in which all rows are one group.
//!
//! - [`candidates`] are the roots that changes can turn, in order, by the tables after them; every other root keeps its
//!   truth.
//! - [`totals_of`] are the maintained totals of tables, made in one pass. A group without rows has no entry.
//! - [`is_bad`] is whether the assertion is false at one root, from the row under that key, where the form is by
//!   rows, and the maintained totals.
//! - [`bad_of`] are the bad roots, in order, as a [`BadRoots`], of which every version stays whole. Of tables only the
//!   roots that rows name are evaluated, since no other can be bad.
//! - [`maintained_after`] are both after a change. A row that moves leaves its old group. Where the rows around are the
//!   groups, a changed row is counted up and down at each row around to which it is linked, and a row around that is
//!   new or another has its total made anew, so that a change costs in proportion to its group. Then the candidates are
//!   evaluated and no other root is: one that turned bad is put in, one that was mended is taken out, and the rest
//!   stays. Where the rows around are the groups of all summaries, of the candidates that linked rows find only those
//!   are evaluated beside which the old or the new row is: of the others the row and the totals stay, and so the truth.
//! - [`is_over`] is whether an assertion is over a table. A change of another one has no candidates, and what is
//!   maintained stays right as it is.
//! - [`truth_of`] is the assertion's truth: by rows and by groups whether there is a bad root, of a single condition
//!   its truth, which can be unknown and is then not bad.
//! - [`row_under`] is the row under a key of a table, for whoever makes changes.
//!
//! What the layer above may rest on: each of these is what `assertion`'s definitions say from scratch of the tables
//! that the maintained totals are of; calls fail only where memory runs out, and that changes nothing, since they only
//! read what they are handed. What it owes: the form's expressions are bounded; the rows of the tables and of a change
//! are within the bounds of a column, and fewer than 2^63 in a table; the maintained totals are those of some tables.
//!
//! The definitions are in `specs/`: `Summaries` (the queries of the slots, and those whose totals are maintained),
//! `Around` (groups that are rows around), `Turned` (the roots whose totals a change turns there), `Maintained`
//! (maintained totals of tables, and bounds), `Answers` (what the queries give), `Bad` (rows of roots, and lists of bad
//! roots), `Listed` (how such a list is held), `Over` (the tables of an assertion) and `Shown` (what is lent from a
//! form). Truth, bad roots and candidates are those of `assertion`.
#![tactic(auto)]

mod answers;
mod around;
mod bad_roots;
mod candidate_roots;
mod grouped;
mod lists;
mod maintained;
mod summaries;
mod updates;

pub use bad_roots::{is_bad, truth_of};
pub use candidate_roots::{candidates, is_over};
pub use lists::BadRoots;
pub use maintained::totals_of;
pub use updates::{bad_of, maintained_after, row_under};
