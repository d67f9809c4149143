//! The tables of a database with the verdicts of its assertions, maintained through changes.
//!
//! A database has several tables and several assertions on them (ISO/IEC 9075:1992, assertion definition). After a
//! statement, or when a transaction commits, it is asked whether each assertion is satisfied, and if one isn't, at
//! what it is false. To evaluate the assertions afresh at each question would read every row of every table. Hence a
//! [`View`]: one version of all tables, and beside it, for each assertion, a *watch*, which is what its verdict is
//! read off from:
//!
//! - the totals of its groups, which answer its set functions and subqueries;
//! - its bad roots (the keys of the rows, or the values of the groups, at which it is false), in order;
//! - its truth.
//!
//! A view never changes. [`View::with`] makes the view after a change of one row and leaves the old one whole, so
//! that a transaction can go on reading the version that it began with (multiversion concurrency control). The new
//! watches are made from the old ones: the old row leaves its group and the new row joins its own, and the assertion
//! is evaluated again only at the change's candidates, since no other root can have turned (materialized views,
//! maintained incrementally: Gupta, Mumick and Subrahmanian, "Maintaining Views Incrementally", 1993). The watch of
//! an assertion that isn't over the changed table is shared as it is, and every other one shares all but what is
//! changed and, from time to time, the paths to it (`pages`). The tables that there are and the assertions are the
//! same for all views that come from one, and are shared.
//!
//! Where a subquery is linked to another column than the key, the table of the rows has an index by that column
//! (`mvrows`), made when the view is loaded or the assertion is declared, and carried on with each change: a change of
//! the subquery's table finds the rows that it is linked to without a look at the others.
//!
//! **Why each verdict is that from scratch.** Of a view, contracts show two things: what is declared (the tables and
//! the assertions, which no change touches) and the state (the plain rows). They name no total, no bad root and no
//! truth that is maintained. [`View::verdict`] and [`View::least_bad`] answer what `assertion`'s definitions say of
//! those rows, evaluated from scratch. For that the view keeps as its invariant that every watch is right: its totals
//! are those of the groups of these very rows, its list has the roots at which the assertion is false and no other,
//! and its truth is the assertion's. It holds of tables without rows, and a change keeps it: the totals follow the
//! change (`roots`); a candidate is put in or taken out as it is bad now, and any other root is bad where it was
//! before (the law `untouched_roots_keep_their_truth` of `assertion`). The least bad root is then the first of the
//! list.
//!
//! - [`View::load`] is the view of given tables.
//! - [`View::with`] is the view after a change of one row, [`View::after`] that after several, one after the other,
//!   and [`View::copy`] one that is equal.
//! - [`View::settle`] changes nothing that a view shows, and leaves less for the next one to copy: who has let go of
//!   the view before calls it.
//! - [`View::with_assertion`] and [`View::without_assertion`] are views of the same tables on which an assertion more
//!   is declared, or one less.
//! - [`put_change`] puts a change of one row into tables of which there is no view yet.
//! - [`View::catalog`], [`View::schema`], [`View::assertions`] and [`View::rows`] lend what it shows.
//! - [`View::verdict`] and [`View::least_bad`] are an assertion's truth and the least root at which it is false. They
//!   take no memory.
//! - [`View::candidates`] are the roots that changes can turn, for who has to note what a check has read.
//!
//! What the layer above may rest on: the rows are always tables of the catalog (each row fits its columns, and they
//! are in key order), and there is one for each name; calls fail only where memory runs out, and that changes nothing.
//! What it owes: the assertions are evaluated without overflow; given rows are tables of the catalog; a change is of
//! one of the tables, names the row that stands under its key, and its new row fits and has that key.
//!
//! The definitions are in `specs/`: `Views` (what contracts see of a view, and what may be put into it) and
//! `Maintained` (how what is maintained agrees with the tables; no public contract cites it). Truth, bad roots and
//! candidates are those of `assertion`.
#![tactic(auto)]

mod declarations;
mod versions;
mod views;
mod watches;

pub use declarations::{copy_assertions, copy_catalog};
pub use versions::put_change;
pub use views::View;
