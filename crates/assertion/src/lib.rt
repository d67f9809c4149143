//! Assertions of SQL-92 with their names resolved, and what they mean on tables.
//!
//! An *assertion* (ISO/IEC 9075:1992, assertion definition) is a search condition over whole tables. It is satisfied
//! where the condition is not false; so one that is unknown is satisfied. Here it has one of three forms (which three
//! is this project's choice):
//!
//! - `Form::ByRow`: `NOT EXISTS (SELECT * FROM t r WHERE c)`. The condition sees the columns of one row of `t` and, in
//!   its slots, the row's subqueries: `EXISTS (SELECT * FROM d WHERE d.x = r.y AND f)`, which asks whether a COUNT(*)
//!   is above 0, and `(SELECT aggregate FROM d WHERE d.x = r.y AND f)`. The equality is the *link*; neither side need
//!   be a key.
//! - `Form::ByGroup`: `NOT EXISTS (SELECT k FROM t WHERE f GROUP BY k HAVING h)`. The condition `h` sees the group's
//!   value in column 0 and, in its slots, the aggregates of the group's rows.
//! - `Form::Single`: a condition that sees no row, and in its slots the subqueries `(SELECT aggregate FROM t WHERE f)`.
//!
//! In a resolved assertion a table is its place in the order of creation and a column its place in the table. The slots
//! of a condition are the subqueries or aggregates beside it, in order. A WHERE that is not written is an And of no
//! part, which is true.
//!
//! **Bad roots.** Where an assertion is false, it is false *at* something: at a key of `t` for which the outer query
//! lists the row, at a value of `k` that it lists (NULL is one group), or, in the third form, as a whole
//! (`Root::All`). An assertion is false exactly where it has a bad root; the third form alone can be unknown. The
//! least bad root is named when a statement is refused.
//!
//! **Candidates.** A change of one row can turn an assertion only at few roots, its *candidates*:
//!
//! - by rows, the key of the changed row if it is of `t`, and, if it is of a subquery's table, for each value other
//!   than NULL that `x` has in the old or the new row, the value itself where `y` is the key of `t`, and else the keys
//!   of the rows of `t` that have it in `y` after the change;
//! - by groups, the value of `k` in the old and in the new row, if it is of `t`;
//! - of a single condition, the whole, if it is of one of its tables.
//!
//! That these are all is the law [`untouched_roots_keep_their_truth`]. At a root, an assertion reads one row and
//! filters of tables. A change under another key leaves the row; and a filter that neither the old nor the new row
//! passes keeps the same rows as before. A row passes the filter of a subquery only for the rows that have in `y` what
//! it has in `x`, and that of a group only for its own value of `k`. NULL is linked to nothing, since a comparison with
//! it is unknown, and so is no candidate by a link; as a group it is one.
//!
//! What the layer above may rest on: a copy is equal to its original, or memory ran out; `kind` is the kind of slot
//! that a set function fills, by which `table` bounds its number; and three laws, each the contract of a function that
//! does nothing: [`untouched_roots_keep_their_truth`], [`bad_roots_are_those_that_are_bad`] and
//! [`bad_roots_answer`].
//!
//! The definitions are in `specs/`: `Meaning` (bad roots, verdict and least bad root from scratch, on whole lists of
//! rows), `Roots` (whether one root is bad, changes of a state), `Candidates`, `Bounded` (which forms are evaluated
//! without overflow) and `Laws` (the statements of the laws). Set functions and groups are those of `table`'s
//! `Aggregates`. The lemmas behind the laws are public in `proofs/`, for layers that keep what a change can turn.
#![tactic(auto)]

mod assertions;
mod forms;
mod kinds;
mod laws;
mod queries;

pub use assertions::{Assertion, ConstraintAttributes};
pub use forms::Form;
pub use kinds::kind;
pub use laws::{
    bad_roots_answer, bad_roots_are_those_that_are_bad, untouched_roots_keep_their_truth,
};
pub use queries::{Link, Query, Whole};
