//! Checks of what is written: assertions, and the rows and conditions of statements, with their names found.
//!
//! A tree says nothing of what its names stand for. Here each becomes what the layers below evaluate, or is refused
//! for its first fault, in this order (this project's choice):
//!
//! 1. of CREATE ASSERTION, attributes that are at odds: INITIALLY DEFERRED is never NOT DEFERRABLE (SQL-92, constraint
//!    attributes);
//! 2. *names*: of a statement its table, then its assigned columns from the left, then the names in what it lists or
//!    assigns, then those of its WHERE, its GROUP BY and its HAVING (`form_check`). No UPDATE assigns a column twice, or
//!    the key;
//! 3. *shape*: an assertion is of one of three forms, and what a statement assigns and its condition hold neither a set
//!    function nor a query. What a SELECT lists is over each row, likewise; or, with GROUP BY or HAVING or where a set
//!    function stands among it, over groups of rows, and then no column but those of GROUP BY stands outside a set
//!    function (ISO/IEC 9075:1992, 7.9; `form_check`).
//!    What is over each row of its table alone has no unknown name, so the names of a statement are looked up by
//!    themselves only to say which fault is its first, and where there are groups;
//! 4. *types*: what is compared is of one type, arithmetic is on numbers, and a constant, or what is assigned, is of
//!    its column's type;
//! 5. *width*: each expression has a bound, so that no evaluation overflows (`table`).
//!
//! [`check`] is for CREATE ASSERTION; [`check_delete`], [`check_insert`], [`check_select`] and [`check_update`] are
//! for statements, the INSERTs of a schema among them. What they make is over places of tables and columns alone.
//!
//! What the layer above may rest on: each answers exactly what its definition in `specs/` says, or that memory ran out:
//! an assertion only for a condition of the class, typed and bounded, and the stated first fault for every other. The
//! definitions are in `specs/`: `Assertions`, `Conditions`, `Statements`, `Updates`, `Groupings` and `Selects`.
//!
//! # Types and widths
//!
//! SQL-92 (ISO/IEC 9075:1992, data types) lets two values be compared only where their types are comparable, numbers
//! with numbers and character strings with character strings; it computes with numbers alone, and so does SUM. Here a
//! column is INTEGER or VARCHAR(n), and what an expression gives is of one of two types, a *number* or a *text*: the
//! length of a text plays no part, since texts of any lengths can be compared.
//!
//! - A literal is of its own type, a column of the declared one. COUNT and SUM give numbers, MIN and MAX what their
//!   column holds. A negation, a sum and a product are numbers where each part is one.
//! - A *mismatch* is a comparison of a number with a text (BETWEEN and IN are comparisons already), arithmetic or a
//!   negation on a text, SUM of a text column, and a link between columns of two types. IS NULL
//!   takes either type, and the slot of EXISTS holds a count.
//! - What can't stand in a resolved condition has no type, and so is a mismatch wherever its type is asked for: NULL
//!   as a literal, and a column or a slot that is not there. A table past the end of the catalog has no columns.
//!
//! **What a condition sees.** A WHERE sees the columns of its table; that of a subquery of an assertion by rows also
//! sees, in its slots, values of the row around it, each bounded as a column is. The condition of an assertion by rows
//! sees the columns of its table and, in its slots, what the row's subqueries give; HAVING sees the grouping column
//! alone, as column 0, and the aggregates of the group's rows; a single condition sees no column, only its subqueries.
//! A form is *typed* where each of its conditions is, over what it sees.
//!
//! **Width.** A form is *bounded* where each expression of its conditions has a bound (see `table`), by the set
//! functions that fill its slots. A bounded form is evaluated in 128 bits without overflow.
//!
//! What the layer above may rest on: `form_is_typed` and `form_is_bounded` answer exactly by their definitions, or
//! memory ran out; of a form that is bounded so, `assertion`'s `IsBounded` holds, which layers that evaluate it ask
//! for. The functions below the forms take no memory, and are for conditions and expressions that stand in no
//! assertion, as those of a statement.
//!
//! The definitions of these are `Types` (types of expressions, typed conditions), `Forms` (typed forms) and `Widths`
//! (bounded forms).
#![tactic(auto)]

mod assertions;
mod assignments;
mod bounded_forms;
mod columns;
mod conditions;
mod data_types;
mod deletes;
mod groupings;
mod inserts;
mod listings;
mod selects;
mod typed_forms;
mod typed_trees;
mod updates;

pub use assertions::check;
pub use bounded_forms::form_is_bounded;
pub use data_types::{DataType, aggregate_type, are_comparable, column_type};
pub use deletes::{Delete, check_delete};
pub use groupings::{Grouping, is_grouped};
pub use inserts::{NewRows, check_insert};
pub use selects::{Listing, Select, check_select};
pub use typed_forms::form_is_typed;
pub use typed_trees::{expression_type, is_well_typed};
pub use updates::{Setting, Update, check_update};
