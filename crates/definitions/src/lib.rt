//! What definitions define: tables, assertions over them, and the rows that the tables begin with.
//!
//! A schema is a list of definitions (SQL-92, ISO/IEC 9075:1992: table definition, assertion definition, insert
//! statement), and they are taken in in their order; the first fault refuses the whole:
//!
//! - CREATE TABLE: the name is free among the tables, no column's name stands twice, and exactly one column is the
//!   PRIMARY KEY (this project's choice: a table has one key, of one column). A key takes no NULL. Behind the table the
//!   assertion of each of its constraints is taken in, in their order (11.7 to 11.9; `specs/Constraints`): UNIQUE of
//!   one column, CHECK, and FOREIGN KEY, which refers to a key or to columns under UNIQUE. Its tree has no text, for
//!   its rows go by names with a blank in them.
//! - CREATE ASSERTION: the name is free among the assertions (tables and assertions have names of their own), and the
//!   assertion is of the class, typed and bounded (`assertcheck`).
//! - INSERT: a row of constants of the columns' types, NULL only where it may stand, each value in its range, under a
//!   key that is free.
//! - CREATE INDEX, which SQL-92 leaves out: the name is free among the indexes, and the table has the column. It
//!   changes nothing that is defined; the rows of the table keep an index by the column (`mvrows`), and so do all
//!   versions of them, so that a statement whose WHERE wants a value there looks at no other row.
//!   [`indexes_change_nothing`] is the law that definitions define the same without their indexes.
//!
//! No assertion is evaluated while definitions are taken in. The rows of a schema are loaded one by one, and it is
//! only when all are there that the assertions have to hold (this project's choice): [`Definitions::load`] is the
//! view of what is defined, of which the layer above asks that.
//!
//! What the layer above may rest on: [`Definitions::take`] answers what `specs/Taken` says of the list, or its first
//! fault, or that memory ran out. No list of definitions is needed: they may be handed over one by one, to
//! [`Taking::with`] on [`Taking::new`], and `proofs/OneMore` has the laws by which that comes to the same.
//! What is taken in is always good tables and assertions that are evaluated without
//! overflow, which is what a view is made of. `specs/Tables` has CREATE TABLE; an INSERT is that of `changes`. And
//! the assertions are those that are written (`specs/Written`): there is one for each CREATE ASSERTION and for each
//! constraint of a table, in their order, which has its name and means what its condition means as it is written
//! (`meaning`), over all tables of the schema.
//!
//! Of tables that there are [`redeclare`] drops assertions and creates others (SQL-92: drop assertion statement,
//! assertion definition; `specs/Redeclaration`), and [`Definitions::of`] is what a view shows, as if a schema had
//! defined it.
#![tactic(auto)]

mod constraints;
mod laws;
mod redeclaration;
mod tables;
mod taken;
mod takings;

pub use constraints::{
    UniqueColumns, constraint_name, foreign_key_condition, note_unique, note_unique_of,
    unique_condition,
};
pub use laws::{
    check_says_what_is_written, foreign_key_says_what_is_written, indexes_change_nothing,
    unique_says_what_is_written,
};
pub use redeclaration::{NewAssertion, new_assertions, redeclare};
pub use tables::schema_of;
pub use taken::{Definitions, is_asserted};
pub use takings::Taking;
