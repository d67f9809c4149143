//! Tables: their columns, their rows, conditions over a row, and the tables of a database by name.
//!
//! A table has columns in an order, and each has a type and may refuse NULL (SQL-92, ISO/IEC 9075:1992, column
//! definition). A row has a value for each column. One column is the key: no two rows have the same value there,
//! and a table is read in the order of its keys (both of them this project's choice, in place of the standard's
//! bag of rows).
//!
//! What a column can hold is narrower here than in the standard, so that sums stay exact (this project's choice):
//! INTEGER the whole numbers from -10^15 to 10^15, and VARCHAR(n) texts of at most n characters, which are any but
//! the control characters of ASCII.
//!
//! `Schema::admits` tests the values of an INSERT in the order in which their faults are answered: first the number
//! and the types of the values, and then column by column whether NULL may stand there and whether the value is in
//! range. `Catalog` holds the schemas of a database: each name once, in the order of creation.
//!
//! What stands at a place: [`value_at`] and [`value_or`] are what a row has in a column, [`schema_at`] and [`name_at`]
//! the schema and the name of a catalog's table, and [`key_column`] is the place of a table's key column. Checked
//! statements and resolved assertions name columns and tables so.
//!
//! A *condition* (ISO/IEC 9075:1992, search condition) is a tree: comparisons, IS NULL and EXISTS at its leaves, and
//! IS, NOT, AND and OR above them. An *expression* is a tree of literals, columns and *slots* under negation, sums
//! and products. A column is named by its place in the row. A slot stands for a set function or a subquery that is
//! used as a value, and is named by its place among the `Slots` that the caller hands in beside the row; so a
//! condition holds no query, and evaluating it looks at nothing but the row and the slots.
//!
//! - A comparison with NULL on a side is unknown. NOT leaves unknown, AND and OR go by their truth tables, and IS, IS
//!   NULL and EXISTS are never unknown.
//! - Arithmetic is exact, and NULL where an operand is NULL. (A text is no number; where one stands in arithmetic,
//!   which typing rules out, it counts as NULL.)
//! - `x BETWEEN a AND b` is `x >= a AND x <= b`, and `x IN (a, b)` is `x = a OR x = b`. They have no tree of their
//!   own: `Cond::between` and `Cond::is_in` make the conditions that they abbreviate. An IN of one value is an Or of
//!   one part, so that it is never taken for an equality that was written as one. NOT BETWEEN and NOT IN are the
//!   negations.
//! - `keeps` is the test of WHERE and HAVING, which keep a row or a group only where the condition is true; `passes`
//!   is that of a statement's WHERE, which has no slots.
//!
//! **Width.** That arithmetic is exact needs a bound, and a bound that depends on no table (this project's choice):
//! an expression's `bound` is a literal's magnitude, 2^50 for a column, MIN or MAX, 2^64 for COUNT and 2^114 for SUM;
//! a negation keeps its part's, a sum adds and a product multiplies them from the left. Where a part or a partial
//! result passes 2^126 the answer is TooWide. What is left is evaluated in 128 bits without overflow, on every row
//! whose numbers are within 10^15 as in every column; a `Slots` holds only numbers within its slots' bounds.
//!
//! What the layer above may rest on: an admitted row fits its columns; a refused one is refused for its first fault,
//! or memory ran out; what a catalog holds is found under its name or at its place, and nothing else; `eval` is the
//! condition's truth and `evaluate` the expression's value by their definitions, for what has a bound; `bound` and
//! `is_bounded` say exactly what has one; none of the four takes memory; a copy is equal to its original, or memory ran
//! out.
//!
//! The definitions are in `specs/`: `Rows` (rows, columns and what fits them, tables in key order, catalogs), `Faults`
//! (what is wrong with a row) and `Aggregates` (the set functions of SQL-92, which a layer above computes); `Values`
//! (arithmetic, comparisons, AND and OR, over values and truths alone), `Eval` (values of expressions, truth of
//! conditions), `Conditions` (BETWEEN and IN), `Bounds` (the rule of width), `Slots` (what slots hold), `Kinds` (the
//! kind of slot of a set function) and `Shown` (a lent value as a value).
#![tactic(auto)]

mod aggregates;
mod bounds;
mod catalogs;
mod conds;
mod evals;
mod exprs;
mod places;
mod rows;
mod schemas;
mod slots;
mod truths;

pub use aggregates::Aggregate;
pub use bounds::{bound, is_bounded};
pub use catalogs::Catalog;
pub use conds::Cond;
pub use evals::{LentValue, evaluate};
pub use exprs::Expr;
pub use places::{key_column, name_at, schema_at, value_at, value_or};
pub use rows::{Change, Row};
pub use schemas::{Column, LARGEST, Schema};
pub use slots::{SlotKind, SlotValue, Slots};
pub use truths::{eval, keeps, passes};
