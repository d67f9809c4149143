//! Every refusal of every crate.

ghost use Rattle.std.specs.Prelude.{◌≡◌, IfOk};
ghost use Rattle.value.specs.declared.refusals.Refusal.TheVariants.{NoMemory};

use crate::texts::Text;
use crate::values::{Root, Value};
use std::alloc::{AllocError, AllocFailed};
use std::fmt;
use thiserror::Error;

/// A transaction that a refusal names: the one refused, or a commit by its number.
#[derive(Clone, Copy, Debug, PartialEq, Eq)]
pub enum Party {
    This,
    Number(u64),
}

impl fmt::Display for Party {
    fn fmt<W: fmt::Write>(&self, f: &mut fmt::Formatter<W>) -> fmt::Result {
        match self {
            Party::This => write!(f, "THIS"),
            Party::Number(number) => write!(f, "{number}"),
        }
    }
}

/// What was too much for a column: a number beyond its range, or a text past its length.
#[derive(Clone, Copy, Debug, PartialEq, Eq)]
pub enum Excess {
    Number,
    Text,
}

impl fmt::Display for Excess {
    fn fmt<W: fmt::Write>(&self, f: &mut fmt::Formatter<W>) -> fmt::Result {
        match self {
            Excess::Number => write!(f, "number"),
            Excess::Text => write!(f, "text"),
        }
    }
}

/// Why something was refused. What it names is a part of it.
#[derive(Debug, Drop, Error)]
pub enum Refusal {
    /// No memory was left. What was asked for has not happened.
    #[error("no memory is left")]
    NoMemory,
    /// The text is none of the grammar's; `at` is the offset of its first wrong byte.
    #[error("syntax error at byte {at}")]
    Syntax {
        at: usize,
    },
    /// Nothing has this name.
    #[error("nothing has the name {name}")]
    UnknownName {
        name: Text,
    },
    /// Something has this name already.
    #[error("the name {name} is taken")]
    NameTaken {
        name: Text,
    },
    /// Values and columns differ in number or type.
    #[error("the types do not fit")]
    TypeMismatch,
    /// NULL was given for a column that takes none.
    #[error("{column} takes no NULL")]
    NullNotAllowed {
        column: Text,
    },
    /// The table has a row under this key already.
    #[error("{table} has a row under the key {key} already")]
    DuplicateKey {
        table: Text,
        key: Value,
    },
    /// An UPDATE assigns the key column.
    #[error("the key {column} is not updated")]
    KeyUpdate {
        column: Text,
    },
    /// A number beyond the range of numbers, or a text longer than the column.
    #[error("the {excess} is out of the range of {column}")]
    OutOfRange {
        column: Text,
        excess: Excess,
    },
    /// The assertion would be false, and this is its least bad root.
    #[error("{assertion} is violated at {group}")]
    Violated {
        assertion: Text,
        group: Root,
    },
    /// The assertion is checked after each statement, and cannot be deferred.
    #[error("{assertion} is not deferrable")]
    NotDeferrable {
        assertion: Text,
    },
    /// The commit `by`, which this transaction has not seen, changed the same row.
    #[error("commit {by} has changed the row {key} of {table}")]
    WriteConflict {
        table: Text,
        key: Value,
        by: u64,
    },
    /// The transaction would complete a dangerous structure of reads and writes (Cahill, Roehm, Fekete 2008).
    #[error("{reader}, {pivot} and {writer} are a dangerous structure")]
    Dangerous {
        reader: Party,
        pivot: Party,
        writer: Party,
    },
    /// No transaction is open in this session.
    #[error("no transaction is open")]
    NoTransaction,
    /// A transaction is open in this session already.
    #[error("a transaction is open")]
    TransactionOpen,
    /// What was handed in belongs to another manager or epoch.
    #[error("this belongs to another manager or epoch")]
    Stranger,
    /// The epoch holds as many commits as its limit.
    #[error("the epoch is full")]
    EpochFull,
    /// An expression could pass the range in which arithmetic is exact.
    #[error("the expression is too wide")]
    TooWide,
    /// The text nests too deep at this offset.
    #[error("the text nests too deep at byte {at}")]
    TooDeep {
        at: usize,
    },
    /// The assertion or the condition is of none of the forms that are checked.
    #[error("this is outside the class of assertions")]
    OutsideClass,
    /// The assertion is false on the loaded tables, and this is its least bad root.
    #[error("{assertion} is false at {group} on the loaded tables")]
    FalseAtCreation {
        assertion: Text,
        group: Root,
    },
    /// The attributes of the assertion exclude each other.
    #[error("the attributes of {assertion} exclude each other")]
    AttributeClash {
        assertion: Text,
    },
    /// The transaction reads only, and the statement would write.
    #[error("the transaction is read only")]
    ReadOnlyTransaction,
    /// There are as many sessions as the limit.
    #[error("there are too many sessions")]
    TooManySessions,
}

impl Refusal {
    /// A refusal equal to this one.
    pub fn copy(&self) -> Result<Refusal, AllocError>
        ensures { IfOk result (λ copy. copy ≡ self.now) }
    {
        let copy = match self {
            Refusal::NoMemory => Refusal::NoMemory,
            Refusal::Syntax { at } => Refusal::Syntax { at: *at },
            Refusal::UnknownName { name } => Refusal::UnknownName { name: name.copy()? },
            Refusal::NameTaken { name } => Refusal::NameTaken { name: name.copy()? },
            Refusal::TypeMismatch => Refusal::TypeMismatch,
            Refusal::NullNotAllowed { column } => Refusal::NullNotAllowed {
                column: column.copy()?,
            },
            Refusal::DuplicateKey { table, key } => Refusal::DuplicateKey {
                table: table.copy()?,
                key: key.copy()?,
            },
            Refusal::KeyUpdate { column } => Refusal::KeyUpdate {
                column: column.copy()?,
            },
            Refusal::OutOfRange { column, excess } => Refusal::OutOfRange {
                column: column.copy()?,
                excess: *excess,
            },
            Refusal::Violated { assertion, group } => Refusal::Violated {
                assertion: assertion.copy()?,
                group: group.copy()?,
            },
            Refusal::NotDeferrable { assertion } => Refusal::NotDeferrable {
                assertion: assertion.copy()?,
            },
            Refusal::WriteConflict { table, key, by } => Refusal::WriteConflict {
                table: table.copy()?,
                key: key.copy()?,
                by: *by,
            },
            Refusal::Dangerous {
                reader,
                pivot,
                writer,
            } => Refusal::Dangerous {
                reader: *reader,
                pivot: *pivot,
                writer: *writer,
            },
            Refusal::NoTransaction => Refusal::NoTransaction,
            Refusal::TransactionOpen => Refusal::TransactionOpen,
            Refusal::Stranger => Refusal::Stranger,
            Refusal::EpochFull => Refusal::EpochFull,
            Refusal::TooWide => Refusal::TooWide,
            Refusal::TooDeep { at } => Refusal::TooDeep { at: *at },
            Refusal::OutsideClass => Refusal::OutsideClass,
            Refusal::FalseAtCreation { assertion, group } => Refusal::FalseAtCreation {
                assertion: assertion.copy()?,
                group: group.copy()?,
            },
            Refusal::AttributeClash { assertion } => Refusal::AttributeClash {
                assertion: assertion.copy()?,
            },
            Refusal::ReadOnlyTransaction => Refusal::ReadOnlyTransaction,
            Refusal::TooManySessions => Refusal::TooManySessions,
        };
        Ok(copy)
    }
}

impl From<AllocError> for Refusal {
    ghost from_gives = { λ _ refusal. refusal ≡ NoMemory };

    fn from(_error: AllocError) -> Refusal {
        Refusal::NoMemory
    }
}

impl<T: Drop> From<AllocFailed<T>> for Refusal {
    ghost from_gives = { λ _ refusal. refusal ≡ NoMemory };

    fn from(_error: AllocFailed<T>) -> Refusal {
        Refusal::NoMemory
    }
}
