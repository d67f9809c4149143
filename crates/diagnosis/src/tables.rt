//! What is wrong with a CREATE TABLE.

use crate::answers::answer_of;
use crate::conditions::diagnose_whole;
use crate::constraints::ConstrainedTable;
use crate::contexts::Context;
use crate::definitions_at_fault::say_taken;
use definitions::{note_unique, note_unique_of, schema_of};
use delta::{View, copy_catalog};
use faults::{Diagnosis, Nearest, Piece, Span};
use std::alloc::{AllocError, Global};
use syntax::{Definition, TableDefinition};
use table::Schema;
use token::Kind;
use value::{Refusal, Text};

/// The definitions before one, and what they define: all tables and assertions, if not every row.
#[derive(Clone, Copy)]
pub struct Earlier<'a> {
    pub definitions: &'a [Definition],
    pub view: &'a View,
}

/// Says what is wrong with a CREATE TABLE: with its columns or its key, or else with one of its constraints.
pub fn diagnose_table(
    alloc: Global,
    context: Context,
    table: &TableDefinition,
    earlier: Earlier,
    diagnosis: &mut Diagnosis,
) -> Result<(), AllocError> {
    let name = &table.name;
    if context.catalog.get(name).is_some() {
        let at = context.name_at(context.piece.token(Kind::Name, 0), name);
        return say_taken(at, "a table", name, diagnosis);
    }
    match answer_of(schema_of(alloc, table.columns.as_slice(), table.keys.as_slice()))? {
        Some(schema) => diagnose_constraints(alloc, context, table, schema, earlier, diagnosis),
        None => diagnose_columns(alloc, context, table, diagnosis),
    }
}

/// Says what is wrong with the columns of a table or its key.
fn diagnose_columns(
    alloc: Global,
    context: Context,
    table: &TableDefinition,
    diagnosis: &mut Diagnosis,
) -> Result<(), AllocError> {
    match context.refusal {
        Refusal::NameTaken { name } => column_twice(context, table, name, diagnosis),
        Refusal::UnknownName { name } => unknown_in_key(alloc, context, table, name, diagnosis),
        Refusal::OutsideClass => diagnose_key(context, table, diagnosis),
        _ => diagnose_whole(context, diagnosis),
    }
}

/// Says which constraint of a table is refused, and why. The table is as it would be.
fn diagnose_constraints(
    alloc: Global,
    context: Context,
    table: &TableDefinition,
    schema: Schema,
    earlier: Earlier,
    diagnosis: &mut Diagnosis,
) -> Result<(), AllocError> {
    let mut catalog = copy_catalog(alloc, context.catalog)?;
    // (a name that is taken is said before)
    answer_of(catalog.add(table.name.copy()?, schema))?;
    let mut unique = Vec::new(alloc);
    for definition in earlier.definitions {
        note_unique(alloc, &mut unique, definition)?;
    }
    note_unique_of(alloc, &mut unique, table)?;
    let among = ConstrainedTable {
        context: Context {
            catalog: &catalog,
            ..context
        },
        table,
        unique: &unique,
        view: earlier.view,
    };
    among.diagnose(alloc, diagnosis)
}

/// A name in a PRIMARY KEY that is none of a column.
fn unknown_in_key(
    alloc: Global,
    context: Context,
    table: &TableDefinition,
    name: &Text,
    diagnosis: &mut Diagnosis,
) -> Result<(), AllocError> {
    diagnosis.place(3, context.name_at(key_name(context.piece, name), name));
    write!(diagnosis.what, "there is no column {name} here")?;
    let mut nearest = Nearest::of(name);
    for column in table.columns.as_slice() {
        nearest.offer_name(alloc, &column.name)?;
    }
    match nearest.found() {
        Some(nearest) => writeln!(diagnosis.advice, "The nearest name is {nearest}."),
        None => diagnosis.advise(
            "PRIMARY KEY on a line of its own names the column that is the key.",
        ),
    }
}

/// Where a name stands in the parentheses behind PRIMARY KEY.
fn key_name(piece: &Piece, name: &Text) -> Option<Span> {
    let mut inside = false;
    let mut last = Kind::End;
    for token in &piece.tokens {
        match token.kind {
            Kind::Open if last == Kind::Key => inside = true,
            Kind::Close => inside = false,
            _ => {}
        }
        let span = Span {
            start: token.start,
            end: token.end,
        };
        if inside && piece.bytes(span).eq_ignore_ascii_case(name.as_bytes()) {
            return Some(span);
        }
        last = token.kind;
    }
    None
}

/// A column that has the name of one before it.
fn column_twice(
    context: Context,
    table: &TableDefinition,
    name: &Text,
    diagnosis: &mut Diagnosis,
) -> Result<(), AllocError> {
    let mut places = table
        .columns
        .as_slice()
        .iter()
        .enumerate()
        .filter(|(_, column)| column.name == *name)
        .skip(1);
    let place = places.next().map_or(0, |(place, _)| place);
    diagnosis.place(4, context.name_at(column_name(context.piece, place), name));
    write!(diagnosis.what, "the table has a column {name} already")?;
    diagnosis.advise("Take another name for one of the two columns.")
}

/// Where the name of a column stands, behind so many other columns: names that stand behind the first parenthesis of
/// the table or behind a comma between its elements.
fn column_name(piece: &Piece, place: usize) -> Option<Span> {
    let mut left = place;
    let mut depth = 0usize;
    let mut is_first = false;
    for token in &piece.tokens {
        if is_first && token.kind == Kind::Name {
            if left == 0 {
                return Some(Span {
                    start: token.start,
                    end: token.end,
                });
            }
            left = left.saturating_sub(1);
        }
        match token.kind {
            Kind::Open => depth = depth.saturating_add(1),
            Kind::Close => depth = depth.saturating_sub(1),
            _ => {}
        }
        is_first = depth == 1 && matches!(token.kind, Kind::Open | Kind::Comma);
    }
    None
}

/// No key, or several, or one of several columns.
fn diagnose_key(
    context: Context,
    table: &TableDefinition,
    diagnosis: &mut Diagnosis,
) -> Result<(), AllocError> {
    let name = &table.name;
    if table.keys.len() > 1 {
        diagnosis.place(20, context.at(context.piece.token(Kind::Primary, 1)));
        write!(diagnosis.what, "{name} has several keys")?;
        return diagnosis.advise(ONE_KEY);
    }
    if table.keys.len() == 1 {
        diagnosis.place(20, context.at(context.piece.token(Kind::Primary, 0)));
        write!(diagnosis.what, "the key of {name} has several columns")?;
        return diagnosis.advise(ONE_COLUMN);
    }
    diagnosis.place(
        20,
        context.name_at(context.piece.token(Kind::Name, 0), name),
    );
    write!(diagnosis.what, "{name} has no PRIMARY KEY")?;
    let first = table
        .columns
        .as_slice()
        .first()
        .map_or(name, |column| &column.name);
    writeln!(
        diagnosis.advice,
        "One column of each table is its key. Write PRIMARY KEY behind its type, behind that of \
         {first} for instance."
    )
}

/// What is said of a second key.
const ONE_KEY: &str =
    "One column is the key. That another is unique too is said by UNIQUE behind its type.";

/// What is said of a key of several columns.
const ONE_COLUMN: &str =
    "One column of each table is its key: give the table a number of its own for it.";
