//! The trees of definitions.

use crate::statements::{Insert, Mode};
use crate::trees::Condition;
use sqlite_items::Items;
use value::{ColType, Text};

/// What is written behind the condition of an assertion, or behind a constraint: its first mode, and whether it is
/// deferrable.
#[derive(Clone, Copy, Debug, PartialEq, Eq)]
pub struct Attributes {
    pub initially: Option<Mode>,
    pub deferrable: Option<bool>,
}

/// A column of a table that is created.
#[derive(Drop)]
pub struct ColumnDefinition {
    pub name: Text,
    pub kind: ColType,
    /// Whether NOT NULL is written. A key is never NULL, whether that is written or not.
    pub not_null: bool,
}

/// FOREIGN KEY, or REFERENCES behind a column (11.8).
#[derive(Drop)]
pub struct ForeignKey {
    /// The columns that refer.
    pub columns: Items<Text>,
    /// The table that they refer to.
    pub table: Text,
    /// Its columns, where they are written; else its key is meant.
    pub referenced: Option<Items<Text>>,
}

/// What the rows of a table satisfy.
#[derive(Drop)]
pub enum Constraint {
    /// UNIQUE of these columns (11.7).
    Unique(Items<Text>),
    /// CHECK (11.9), of the column behind which it is written, if it stands behind one. The condition is what the
    /// standard says of the table: that it has no row of which what is written is false.
    Check {
        column: Option<Text>,
        condition: Condition,
    },
    ForeignKey(ForeignKey),
}

/// A constraint of a table, with the name that CONSTRAINT gives it.
#[derive(Drop)]
pub struct TableConstraint {
    pub name: Option<Text>,
    pub constraint: Constraint,
    pub attributes: Attributes,
}

/// What is written behind a column's type (11.4).
#[derive(Drop)]
pub enum ColumnConstraint {
    NotNull,
    PrimaryKey,
    Constraint(TableConstraint),
}

/// What stands between the commas of CREATE TABLE (11.3).
#[derive(Drop)]
pub enum TableElement {
    Column {
        name: Text,
        kind: ColType,
        constraints: Items<ColumnConstraint>,
    },
    /// PRIMARY KEY of these columns.
    PrimaryKey(Items<Text>),
    Constraint(TableConstraint),
}

/// CREATE TABLE (11.3).
#[derive(Drop)]
pub struct TableDefinition {
    pub name: Text,
    pub columns: Items<ColumnDefinition>,
    /// The columns of each PRIMARY KEY, in the order of the text.
    pub keys: Items<Items<Text>>,
    pub constraints: Items<TableConstraint>,
}

/// A definition of a schema. An INSERT fills its tables.
#[derive(Drop)]
pub enum Definition {
    Table(TableDefinition),
    Assertion {
        name: Text,
        condition: Condition,
        attributes: Attributes,
    },
    Insert(Insert),
    /// An index by a column of a table. SQL-92 has none; it changes no answer.
    Index {
        name: Text,
        table: Text,
        column: Text,
    },
}
