//! What is wrong with what a foreign key refers to.

use crate::conditions::{diagnose_whole, type_name};
use crate::contexts::Context;
use assertcheck::DataType;
use faults::{At, Diagnosis};
use std::alloc::AllocError;
use syntax::ForeignKey;
use table::{Column, Schema};
use value::{Refusal, Text};

/// A foreign key whose names are of tables and columns that there are.
#[derive(Clone, Copy)]
pub struct Reference<'a> {
    /// Its table is among the context's.
    pub context: Context<'a>,
    /// The name of its table.
    pub own: &'a Text,
    pub key: &'a ForeignKey,
    /// Where its leaves begin: those of its columns, if it lists them.
    pub from: usize,
    /// The leaf that is the name of the table that it refers to; the columns follow, where they are written.
    pub at: usize,
}

impl<'a> Reference<'a> {
    /// Says what is wrong with it.
    pub fn diagnose(&self, diagnosis: &mut Diagnosis) -> Result<(), AllocError> {
        let context = self.context;
        let (Some(own), Some(other)) = (
            context.catalog.get(self.own),
            context.catalog.get(&self.key.table),
        ) else {
            return diagnose_whole(context, diagnosis);
        };
        match context.refusal {
            Refusal::OutsideClass => self.not_a_key(other, diagnosis),
            Refusal::TypeMismatch if self.key.columns.as_slice().len() != self.count() => {
                self.not_as_many(diagnosis)
            }
            Refusal::TypeMismatch => self.another_type(own, other, diagnosis),
            _ => diagnose_whole(context, diagnosis),
        }
    }

    /// The columns that it refers to, where they are written.
    fn written(&self) -> &'a [Text] {
        match &self.key.referenced {
            Some(columns) => columns.as_slice(),
            None => &[],
        }
    }

    /// How many columns it refers to.
    fn count(&self) -> usize {
        self.written().len().max(1)
    }

    /// Where the columns that it refers to stand, or else their table.
    fn referenced_at(&self) -> At {
        let count = self.written().len();
        let from = if count == 0 {
            self.at
        } else {
            self.at.saturating_add(1)
        };
        let to = from.saturating_add(count.max(1));
        self.context.at(self.context.piece.leaves_from(from, to))
    }

    /// Several columns, or one that is neither the key nor under UNIQUE.
    fn not_a_key(&self, other: &Schema, diagnosis: &mut Diagnosis) -> Result<(), AllocError> {
        let table = &self.key.table;
        diagnosis.place(20, self.referenced_at());
        match self.written() {
            [column] => write!(
                diagnosis.what,
                "{column} is neither the key of {table} nor under UNIQUE"
            )?,
            _ => diagnosis.say("a foreign key refers to one column")?,
        }
        let Some(key) = key_of(other) else {
            return Ok(());
        };
        let name = &key.name;
        writeln!(
            diagnosis.advice,
            "Refer to the key of {table}, which is {name}, or to a column of it that stands under UNIQUE."
        )
    }

    /// Another number of columns than are referred to.
    fn not_as_many(&self, diagnosis: &mut Diagnosis) -> Result<(), AllocError> {
        let (own, other) = (self.key.columns.as_slice().len(), self.count());
        let listed = if own > 1 {
            self.context
                .at(self.context.piece.leaves_from(self.from, self.at))
        } else {
            self.referenced_at()
        };
        diagnosis.place(5, listed);
        if own == 1 {
            write!(diagnosis.what, "1 column refers to {other}")?;
        } else {
            write!(diagnosis.what, "{own} columns refer to {other}")?;
        }
        diagnosis.advise(ONE_TO_ONE)
    }

    /// Columns of two types.
    fn another_type(
        &self,
        own: &Schema,
        other: &Schema,
        diagnosis: &mut Diagnosis,
    ) -> Result<(), AllocError> {
        for (place, name) in self.key.columns.as_slice().iter().enumerate() {
            let referenced = match self.written().get(place) {
                Some(column) => column_of(other, column),
                None => key_of(other),
            };
            if let (Some(from), Some(to)) = (column_of(own, name), referenced) {
                if DataType::from(from.kind) != DataType::from(to.kind) {
                    return self.say_types(from, to, diagnosis);
                }
            }
        }
        diagnose_whole(self.context, diagnosis)
    }

    /// That a column refers to one of another type.
    fn say_types(
        &self,
        from: &Column,
        to: &Column,
        diagnosis: &mut Diagnosis,
    ) -> Result<(), AllocError> {
        diagnosis.place(5, self.referenced_at());
        let own = &from.name;
        write!(diagnosis.what, "{own} refers to a column of another type")?;
        let (one, another) = (type_of(from), type_of(to));
        let (name, table) = (&to.name, &self.key.table);
        writeln!(
            diagnosis.advice,
            "{own} is of type {one}, and {name} of {table} of type {another}."
        )
    }
}

/// The type of a column.
fn type_of(column: &Column) -> &'static str {
    type_name(DataType::from(column.kind))
}

/// The column of a table that has this name.
fn column_of<'a>(schema: &'a Schema, name: &Text) -> Option<&'a Column> {
    schema.columns().get(schema.column(name)?)
}

/// The column that is the key of a table.
fn key_of<'a>(schema: &'a Schema) -> Option<&'a Column> {
    schema.columns().get(schema.key())
}

const ONE_TO_ONE: &str =
    "One column refers to one: to the key of the other table, or to a column of it under UNIQUE.";
