//! What set functions need of the rows of groups, and which rows have a value in a column, maintained as rows come and
//! go.
//!
//! A *set function* (ISO/IEC 9075:1992, set function specification) gives one value of the rows of a group: COUNT(*)
//! how many rows there are; COUNT, SUM, MIN and MAX of a column look only at its values that are not NULL, and of
//! none of them COUNT is 0 and the others are NULL. COUNT and SUM with DISTINCT take each value once. Evaluated from
//! scratch they read the whole group. Here each group has a `Total` that is carried on as one row goes or comes
//! (incremental view maintenance: Gupta, Mumick and Subrahmanian, "Maintaining Views Incrementally", 1993): the number
//! of rows, the number of values that are not NULL and their sum; and for MIN, MAX and DISTINCT alone the multiset of
//! the values, each with how often it stands. The least one may go, and the next one has then to be known; and with
//! DISTINCT the number and the sum change only with the first row that has a value, and with the last.
//!
//! - A group is named by a value, and NULL is one like another, as GROUP BY wants it. Its rows count by one value
//!   each, that of the column under the set function.
//! - `Totals` has a `Total` for each group that has a row, and nothing for one that has none. `Totals::with` makes
//!   the totals after one row goes and one comes, each a `Member`: its group and its value. A row that moves between
//!   groups, or whose value changes, is both. It is told for which set function the totals are: what that one asks for
//!   is carried on. It takes the old totals, and changes in place what no copy shares.
//! - `Totals::get` lends the total of a group, `Totals::answer` and `Total::answer` what a set function gives by totals
//!   that are carried on for it.
//!
//! What the layer above may rest on: totals of some groups for a set function are, after `with`, those of the groups
//! with that change; what stands for a group is the total of its rows, and nothing stands for a group without rows;
//! what a set function gives by them is what it gives of the group's rows from scratch, after removals too, where MIN,
//! MAX and DISTINCT have to know which values are left; `get` takes no memory; a copy is equal to its original; and
//! calls fail only where memory runs out. No call has a premise: the contract of `with` says what follows where the
//! groups after it are within bounds, which are fewer than 2^63 rows with numbers within 10^15. There no number passes
//! its width (a sum stays within 2^113), and what is answered fits a slot of a condition.
//!
//! That the groups of a table's rows have such a change wherever the table has a changed row, and are within bounds
//! where its rows are, is the law [`members_follow_rows`]; and that a column makes the groups of GROUP BY is
//! [`column_makes_groups`].
//!
//! The definitions are in `specs/`: `Totals` (totals of a list of values and of groups, and the groups before and
//! after a change), `Figures` (what contracts see of a total), `Members` (a table's rows by groups), `Answers` (the
//! value that a set function looks at), and for the functions inside `Counts` (the multiset) and `Steps` (one row
//! more or less). The set functions themselves are `table/specs/Aggregates`.
//!
//! Totals stand under their groups in a `pages::DifferentialMap`: totals that differ by a few are noted beside those
//! that are shared, until [`Totals::settle`] finds that nobody shares them. The values of a multiset stand in
//! `pages::Pages`, each with its number: for MIN, MAX and DISTINCT a change looks one value up and copies the path to
//! it, and shares the rest.
//!
//! Beside totals, which say how many rows a group has, an [`Index`] says which ones: for each value in a column the
//! keys of the rows that have it there, in order. It is a *secondary index* (Comer, "The Ubiquitous B-Tree", 1979):
//! where a column is to be equal to a value, the rows of which this holds are found without reading the others. NULL is
//! equal to nothing, so rows that have it there are under no value.
//!
//! - `Index::with` makes the index after the row under a key becomes another; where its value stays as it is, nothing
//!   changes. `Index::with_row` puts one row more behind the others, so that an index is made in one pass over a table.
//! - `Index::keys` lends the keys of a value, one after the other ([`Keys`]). It takes no memory.
//!
//! What the layer above may rest on: the index of a table's rows is, after `with`, that of the rows with that change
//! (`specs/Indexes`, `IsIndexOf`), wherever the rows are in key order, the old row is the one under the key and the new
//! row has that key; its keys of a value are those of the rows that have it, in the order of the rows; a copy is equal
//! to its original; and rows have one index, which is the law [`rows_have_one_index`]. Calls fail only where memory
//! runs out, and none has a premise.
//!
//! Values with keys stand in a `pages::DifferentialMap`, and the keys of each in `pages::Pages`: a change copies at
//! most the path to one key, or to one in each of two sets, and shares the rest. The steps are in `specs/IndexSteps`.
#![tactic(auto)]

mod counts;
mod entries;
mod indexes;
mod key_sets;
mod laws;
mod members;
mod totals;

pub use entries::Totals;
pub use indexes::Index;
pub use key_sets::Keys;
pub use laws::{column_makes_groups, members_follow_rows, rows_have_one_index};
pub use members::Member;
pub use totals::Total;
