//! The trees of statements and events.

use crate::trees::{ColumnName, Condition, Expression};
use sqlite_items::{Boxed, Items};
use value::{Text, Value};

/// An INSERT of one row or several, with the columns where they are listed.
#[derive(Drop)]
pub struct Insert {
    pub table: Text,
    pub columns: Option<Items<Text>>,
    pub rows: Items<Items<Value>>,
}

/// What an UPDATE gives to a column.
#[derive(Drop)]
pub enum UpdateSource {
    Null,
    To(Expression),
}

/// A column of an UPDATE, and what is given to it.
#[derive(Drop)]
pub struct Assignment {
    pub column: Text,
    pub value: UpdateSource,
}

/// A derived column of a SELECT: an expression, and the name that it gets with AS.
#[derive(Drop)]
pub struct DerivedColumn {
    pub value: Expression,
    pub name: Option<Text>,
}

/// A SELECT of a table. Where no columns are written, it lists all those of the table.
#[derive(Drop)]
pub struct Select {
    pub columns: Option<Items<DerivedColumn>>,
    pub table: Text,
    pub correlation_name: Option<Text>,
    pub keeps: Option<Boxed<Condition>>,
    /// The columns of GROUP BY.
    pub group_by: Option<Items<ColumnName>>,
    pub having: Option<Boxed<Condition>>,
}

/// All assertions, or those with these names.
#[derive(Drop)]
pub enum Which {
    All,
    Names(Items<Text>),
}

/// When an assertion is checked: at the COMMIT, or at each statement.
#[derive(Clone, Copy, Debug, PartialEq, Eq)]
pub enum Mode {
    Deferred,
    Immediate,
}

/// A statement. `keeps` is the condition of its WHERE, in a box, since most lines of a script have none.
#[derive(Drop)]
pub enum Statement {
    Insert(Insert),
    Update {
        table: Text,
        sets: Items<Assignment>,
        keeps: Option<Boxed<Condition>>,
    },
    Delete {
        table: Text,
        keeps: Option<Boxed<Condition>>,
    },
    Select(Select),
    SetConstraints {
        assertions: Which,
        mode: Mode,
    },
    /// The truth of an assertion, by its name.
    Verdict(Text),
}

/// What a session does.
#[derive(Drop)]
pub enum Event {
    Begin,
    /// BEGIN READ ONLY: of a transaction in which INSERT, UPDATE and DELETE are refused.
    BeginReadOnly,
    Commit,
    Rollback,
    Run(Statement),
}

/// A line of a script: an event, and the name of the session that it is of.
#[derive(Drop)]
pub struct ScriptLine {
    pub session: Text,
    pub event: Event,
}
