//! What each statement changes of the rows of a table, what statements and checks read, and the net change between two
//! views.
//!
//! # Changes
//!
//! - An INSERT adds a row, and it may do so only where the row satisfies the table's own constraints: each value is
//!   of its column's type and range, NULL stands only where it may, and no other row has the key (ISO/IEC 9075:1992,
//!   table constraint definition and insert statement). [`insertion`] is that change, or the first fault of the row:
//!   its types, then by columns NULL and range, and last its key.
//! - A DELETE takes out the rows of which its condition is true ([`removals`]).
//! - An UPDATE gives such rows other values. Each is evaluated on the row as it was, and the first fault, by rows in
//!   key order and then by assignments as they are written, refuses the whole ([`renewals`]).
//! - A SELECT changes nothing. It lists values of each of such rows, or of each group of them that its HAVING keeps:
//!   the rows are sorted by the columns of GROUP BY, and a group is a run that is alike in them (ISO/IEC 9075:1992, 7.7
//!   to 7.9; [`listed_rows`]).
//!
//! Where a WHERE has `key = literal` among the parts that AND joins at its top, that one row is looked up; where it has
//! `column = literal` and the column has an index, the rows with that value are; and else all rows are tested: one
//! choice of rows for DELETE, UPDATE and SELECT. It is made by the key under which the WHERE reads ("Reads", below),
//! which a [`TableFilter`] holds beside the WHERE.
//!
//! What is left of a statement then are *changes*: of each the table, a key, the row that stood there and the row
//! that is to stand there. Everything above works with changes alone.
//!
//! What the layer above may rest on: the changes are those of the statement's effect on the rows alone (`alone`), or
//! it is refused as it is there, or memory ran out; they are in the order of their keys, each names the row that
//! stands under its key, and each new row fits the columns; so they may be put in one after the other. The rows
//! themselves aren't changed.
//!
//! The definitions are those of `alone`; `specs/Insertions` has INSERT as a whole on what a view shows, and
//! `specs/Keyed` how rows compare that stand beside their values.
//!
//! # Reads
//!
//! A serializable snapshot engine notes what each transaction read, under keys that outlive the read (SIREAD locks:
//! Cahill, Röhm and Fekete 2008). What a predicate reads is noted under the smallest key that covers it, as the
//! "index-range and relation locks" of Ports and Grittner (2012) do:
//!
//! - [`TableFilter`]: a WHERE reads one row, whether it is there or not, where a part that AND joins at the top sets
//!   the key column equal to a literal; else the rows with a value in a column, where a part sets that column equal to
//!   a literal; else the table. This key is found once, when the filter is made, and is what the statement has read.
//! - [`checks_read`]: a check of assertions reads at each candidate of the changes: by rows the row and those that
//!   link to it, by groups the group, and of a single condition the tables of its queries. [`push_check`] is that of
//!   one assertion.
//! - [`tables_read`]: VERDICT reads each table that an assertion names.
//!
//! A check is over the rows that have changed alone; [`real_changes`] leaves out the changes of a row to what it held.
//!
//! What the layer above may rest on: the keys are those of `alone`, so that the laws there are about them; only memory
//! can fail. What it owes: for each assertion whether it is meant, as [`alone::Modes`].
//!
//! The definitions are those of `alone`: `specs/Reads`, `specs/Checks` and `is_real` of `specs/States`.
//!
//! # The net change
//!
//! A transaction changes rows, some of them twice, and some back to what they held. What counts at its COMMIT is its
//! *net change*: the rows in which its own view and the tables of its begin differ, by table and key, each with what
//! stood there and what is to stand there. To compare two whole states would cost the tables; so a transaction notes
//! the rows that it touches ([`TouchedRows`]): at the first change of a place what stood there, and at each what is to
//! stand there. Room is made before a statement is taken, and then noting its changes cannot fail.
//!
//! What the layer above may rest on: where two states differ as is noted (`specs/Nets`), what is answered is the net
//! change of the definition (`net_change` in `alone/specs/States`), which compares the states whole. Only memory can
//! fail.
#![tactic(auto)]

mod checks;
mod deletions;
mod extremes;
mod filtered;
mod filters;
mod groupings;
mod insertions;
mod listings;
mod lookups;
mod real;
mod settings;
mod touched;
mod updates;
mod wheres;

pub use checks::{checks_read, push_check, push_checks, tables_read};
pub use deletions::removals;
pub use filtered::{FilteredRows, filtered_rows};
pub use filters::TableFilter;
pub use insertions::insertion;
pub use listings::listed_rows;
pub use real::{is_same_there, real_changes};
pub use touched::{RowsThere, TouchedRows};
pub use updates::renewals;
