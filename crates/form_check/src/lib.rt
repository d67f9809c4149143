//! Conditions with their names found, and their shapes: a row condition of a statement, and the three forms of an
//! assertion.
//!
//! # Names
//!
//! A condition names tables, in its queries, and columns. A column's name is seen from the tables around it, the
//! innermost first (ISO/IEC 9075:1992, 5.4 names and identifiers, 6.3 table reference, 6.4 column reference):
//!
//! - In a query the query's own table is the innermost. It goes by its correlation name where one is written, and
//!   then no longer by its own. Outside it come the tables of the queries around it, and last, in a statement, the
//!   statement's own.
//! - A name without a qualifier means the column of the innermost table that has it.
//! - A qualifier means the innermost table that goes by it, and the column has to be one of that table's.
//!
//! (The standard refuses a name that two tables of one FROM have; here each FROM has one table, so none is
//! ambiguous.)
//!
//! [`look_up_condition`] and [`look_up_expression`] look names up from the left, and of a query first its table, then
//! what it lists, WHERE, GROUP BY and HAVING: the order in which a fault is answered. They look at names alone,
//! whatever the shape, so that an unknown name is told before a shape that isn't allowed. A [`Scope`] is one table
//! with the name it goes by; [`Scope::is_named`] says whether a name is of it, and [`Scope::own`] gives the column of
//! it that a name means.
//!
//! # Columns and slots
//!
//! A condition as it is written names columns and holds set functions and queries anywhere. What the layers below can
//! evaluate is a `table::Cond`: over the columns of one row, by their places, and slots for all else.
//! [`numbered_condition`] makes the one of the other. It finds each column by its name, where that may stand there
//! ([`Columns`]), and puts each set function and query that it meets into a list ([`Leaf`]); its place there is its
//! slot. What the form of a condition has in its slots is made of that list alone.
//!
//! # Shapes
//!
//! Where the shape allows it, a condition becomes such a one, with what stands in its slots; every other shape is
//! refused as outside the class. Names are looked up before; types and widths are looked at afterwards (`assertcheck`).
//!
//! A *row condition* (WHERE of a statement, and of most queries) is over the columns of its own table alone: no set
//! function, no query, no column of a table around it ([`row_condition`]). A *row expression* is so too
//! ([`row_expression`]). A *summary* is over a group of such rows: over set functions of them, and outside those over
//! the columns of GROUP BY alone, in which they are alike ([`summary_expression`]). So is what a SELECT lists where it
//! has GROUP BY, HAVING or a set function (7.9), and so is the condition of its HAVING ([`group_condition`]).
//!
//! An assertion's condition ([`form`]; SQL-92, ISO/IEC 9075:1992, assertion definition; which cut of it, is this
//! project's choice) has one of three forms:
//!
//! - **By rows**: `NOT EXISTS (SELECT .. FROM t r WHERE c)`, without GROUP BY and HAVING. `c` is over the columns of
//!   `r`, and may hold queries of the row, under EXISTS or as values of one set function. Of the parts that AND joins
//!   at the top of such a query's WHERE one links it to the row: an equality of one of its columns and one of the
//!   row's, either way round; of several the first by the key of its table, else the first of all. The others are over
//!   both rows: they name columns of its table and of the row, and hold neither set function nor query (SQL-92, 6.4).
//! - **By groups**: `NOT EXISTS (SELECT .. FROM t WHERE f GROUP BY k HAVING h)`. `f` is a row condition, and `h` is
//!   over `k` and set functions of `t`.
//! - **Single**: any other condition without EXISTS, column or set function of its own, over queries `(SELECT
//!   function FROM t WHERE f)`, where `f` is a row condition or missing.
//!
//! Under EXISTS a query lists `*`, one literal or one column of its own table (by groups the grouping column), which
//! means the same.
//!
//! It works in two passes. The first numbers the condition, and lists what it meets in it that wants a slot. The second
//! looks at that list alone, and makes of each entry what the form has there, or refuses it.
//!
//! The definitions are in `specs/`: `Scopes` (which table and column a name means, on which the written meaning stands
//! as well), `Names` (the first fault of a tree, a fold over it); `Leaves` (a condition with its slots), `Columns`
//! (which names may stand in it), `Results` (steps that end where a shape is outside the class); `Queries` (sources,
//! row conditions, select lists), `Summaries`, `Links` and `Forms`, which go step by step as the code does; and what is
//! lent as what it shows: `ShownScopes`, `ShownLeaves`, `ShownSources`. That a form has the bad roots and the truth of
//! its text, and that one is made exactly where the text is of the class, are laws of the crate `meaning`.
#![tactic(auto)]

mod aggregates;
mod forms;
mod leaves;
mod linked_queries;
mod links;
mod plain_queries;
mod queries;
mod scopes;
mod slots;
mod summaries;
mod trees;

pub use forms::form;
pub use leaves::{Columns, Leaf, among, numbered_condition, numbered_expression};
pub use queries::{Source, row_condition, row_expression, row_filter};
pub use scopes::{Scope, exposed_name, look_up_column};
pub use summaries::{
    GroupCondition, Summary, group_condition, grouping_columns, has_set_function,
    summary_expression,
};
pub use trees::{look_up_condition, look_up_expression};
