//! What is wrong with the first definition that was refused.

use crate::conditions::{Site, diagnose_condition, diagnose_whole};
use crate::constraints::{WrittenConstraint, constraint_named};
use crate::contexts::{Context, Viewpoint};
use crate::inserts::{WrittenInsert, diagnose_insert};
use crate::names::{diagnose_column_name, diagnose_table_name};
use crate::refused::{first_refused, put_taken_key};
use crate::rules::FORMS;
use crate::tables::{Earlier, diagnose_table};
use delta::View;
use faults::{At, Diagnosis, Piece, Span, place_of};
use form_check::Scope;
use std::alloc::{AllocError, Global};
use std::slice;
use syntax::{Condition, Definition, Insert};
use table::Row;
use token::Kind;
use value::{Refusal, Root, Text};

/// A text of definitions, which is one of the language, and the definitions that it has.
#[derive(Clone, Copy)]
pub struct DefinitionsText<'a> {
    pub bytes: &'a [u8],
    pub definitions: &'a [Definition],
}

/// Says what is wrong with definitions that were refused so when they were taken in one after the other.
pub fn diagnose_definitions(
    alloc: Global,
    text: DefinitionsText,
    refusal: &Refusal,
    diagnosis: &mut Diagnosis,
) -> Result<(), AllocError> {
    let (place, before) = first_refused(alloc, text.definitions, refusal)?;
    let refused = RefusedDefinition {
        text,
        place,
        refusal,
    };
    diagnose_refused(alloc, refused, &before, diagnosis)
}

/// The definition at a place of a text, and why it was refused.
#[derive(Clone, Copy)]
struct RefusedDefinition<'a> {
    text: DefinitionsText<'a>,
    place: usize,
    refusal: &'a Refusal,
}

/// Says what is wrong with a definition before which there are these tables and assertions.
fn diagnose_refused(
    alloc: Global,
    refused: RefusedDefinition,
    before: &View,
    diagnosis: &mut Diagnosis,
) -> Result<(), AllocError> {
    let RefusedDefinition {
        text,
        place,
        refusal,
    } = refused;
    let piece = Piece::at(alloc, text.bytes, place)?;
    let context = Context {
        piece: &piece,
        catalog: before.catalog(),
        refusal,
    };
    let definitions = &text.definitions[..place.min(text.definitions.len())];
    match text.definitions.get(place) {
        Some(Definition::Table(table)) => {
            let earlier = Earlier {
                definitions,
                view: before,
            };
            diagnose_table(alloc, context, table, earlier, diagnosis)?;
        }
        Some(Definition::Insert(insert)) => {
            diagnose_rows(alloc, context, insert, definitions, diagnosis)?;
        }
        Some(definition) => diagnose_definition(alloc, context, definition, diagnosis)?,
        None => return diagnose_whole(context, diagnosis),
    }
    match refusal {
        Refusal::UnknownName { name } => {
            push_created_below(alloc, text, place, name, &mut diagnosis.advice)
        }
        _ => Ok(()),
    }
}

/// Says what is wrong with an INSERT before which these definitions stand.
fn diagnose_rows(
    alloc: Global,
    context: Context,
    insert: &Insert,
    earlier: &[Definition],
    diagnosis: &mut Diagnosis,
) -> Result<(), AllocError> {
    let written = WrittenInsert {
        insert,
        names: 0,
        was_taken: put_taken_key(alloc, context.catalog, earlier, context.refusal)?,
    };
    diagnose_insert(alloc, context, written, diagnosis)
}

/// A line that a table of this name is created further down, if one is.
fn push_created_below(
    alloc: Global,
    text: DefinitionsText,
    place: usize,
    name: &Text,
    advice: &mut String,
) -> Result<(), AllocError> {
    let Some(at) = created_below(text.definitions, place, name) else {
        return Ok(());
    };
    let piece = Piece::at(alloc, text.bytes, at)?;
    let line = place_of(text.bytes, piece.whole().start).line;
    writeln!(
        advice,
        "{name} is created in line {line}: put its CREATE TABLE above."
    )
}

/// The place of the CREATE TABLE of this name behind another.
fn created_below(definitions: &[Definition], place: usize, name: &Text) -> Option<usize> {
    for (at, definition) in definitions.iter().enumerate() {
        if let Definition::Table(created) = definition {
            if at > place && created.name == *name {
                return Some(at);
            }
        }
    }
    None
}

/// Says what is wrong with a definition of an assertion or an index.
fn diagnose_definition(
    alloc: Global,
    context: Context,
    definition: &Definition,
    diagnosis: &mut Diagnosis,
) -> Result<(), AllocError> {
    match definition {
        Definition::Table(_) | Definition::Insert(_) => diagnose_whole(context, diagnosis),
        Definition::Assertion {
            name,
            condition,
            ..
        } => diagnose_assertion(alloc, context, name, condition, diagnosis),
        Definition::Index {
            name,
            table,
            column,
        } => {
            let index = NewIndex {
                name,
                table,
                column,
            };
            index.diagnose(alloc, context, diagnosis)
        }
    }
}

/// The names of a CREATE INDEX, of which INDEX itself is the first in its text.
#[derive(Clone, Copy)]
struct NewIndex<'a> {
    name: &'a Text,
    table: &'a Text,
    column: &'a Text,
}

impl<'a> NewIndex<'a> {
    /// Says what is wrong with it.
    fn diagnose(
        &self,
        alloc: Global,
        context: Context<'a>,
        diagnosis: &mut Diagnosis,
    ) -> Result<(), AllocError> {
        match context.refusal {
            Refusal::NameTaken { .. } => name_taken(context, "an index", self.name, 1, diagnosis),
            Refusal::UnknownName { .. } => self.diagnose_unknown(alloc, context, diagnosis),
            _ => diagnose_whole(context, diagnosis),
        }
    }

    /// Says which of its table and its column there is not.
    fn diagnose_unknown(
        &self,
        alloc: Global,
        context: Context<'a>,
        diagnosis: &mut Diagnosis,
    ) -> Result<(), AllocError> {
        let Some(schema) = context.catalog.get(self.table) else {
            return diagnose_table_name(alloc, context, self.table, 2, diagnosis);
        };
        let scope = Scope {
            exposed_name: self.table,
            schema,
        };
        let here = Viewpoint {
            context,
            scopes: slice::from_ref(&scope),
        };
        diagnose_column_name(alloc, here, self.column, 3, diagnosis)
    }
}

fn diagnose_assertion(
    alloc: Global,
    context: Context,
    name: &Text,
    condition: &Condition,
    diagnosis: &mut Diagnosis,
) -> Result<(), AllocError> {
    match context.refusal {
        Refusal::NameTaken { .. } => name_taken(context, "an assertion", name, 0, diagnosis),
        Refusal::AttributeClash { .. } => {
            attributes_at_odds(context, context.piece.token(Kind::Initially, 0), diagnosis)
        }
        _ => diagnose_rule(alloc, context, condition, diagnosis),
    }
}

/// Says what is wrong with the condition of an assertion, the first leaf of whose text is its name.
fn diagnose_rule(
    alloc: Global,
    context: Context,
    condition: &Condition,
    diagnosis: &mut Diagnosis,
) -> Result<(), AllocError> {
    let site = Site {
        condition,
        at: 1,
        scopes: &[],
    };
    if diagnose_condition(alloc, context, site, diagnosis)? {
        return Ok(());
    }
    match context.refusal {
        Refusal::OutsideClass => {
            diagnosis.place(20, At::Definition(context.piece.whole()));
            diagnosis.say("this is none of the forms of rules")?;
            diagnosis.advise(FORMS)
        }
        _ => diagnose_whole(context, diagnosis),
    }
}

/// A name that something has. It stands behind so many others in the text of its definition.
fn name_taken(
    context: Context,
    whose: &str,
    name: &Text,
    place: usize,
    diagnosis: &mut Diagnosis,
) -> Result<(), AllocError> {
    let at = context.name_at(context.piece.token(Kind::Name, place), name);
    say_taken(at, whose, name, diagnosis)
}

/// A name that something has, where it is to be shown.
pub fn say_taken(
    at: At,
    whose: &str,
    name: &Text,
    diagnosis: &mut Diagnosis,
) -> Result<(), AllocError> {
    diagnosis.place(4, at);
    write!(diagnosis.what, "{whose} has the name {name} already")?;
    diagnosis.advise("Take another name, or leave one of the two definitions out.")
}

/// INITIALLY DEFERRED and NOT DEFERRABLE, of which the first word stands here.
pub fn attributes_at_odds(
    context: Context,
    initially: Option<Span>,
    diagnosis: &mut Diagnosis,
) -> Result<(), AllocError> {
    diagnosis.place(22, context.at(initially));
    diagnosis.say("INITIALLY DEFERRED and NOT DEFERRABLE exclude each other")?;
    diagnosis.advise(
        "An assertion that begins deferred is deferrable: leave NOT DEFERRABLE out, or write INITIALLY IMMEDIATE.",
    )
}

/// A row at which an assertion is false, and the name of its table.
#[derive(Clone, Copy)]
pub struct BadRow<'a> {
    pub table: &'a Text,
    pub row: &'a Row,
}

/// An assertion that is false at a root; by rows with the row that is bad.
#[derive(Clone, Copy)]
pub struct FalseAssertion<'a> {
    pub name: &'a Text,
    pub root: &'a Root,
    pub row: Option<BadRow<'a>>,
}

/// Says that an assertion is false on the rows that are loaded.
pub fn diagnose_false(
    alloc: Global,
    text: DefinitionsText,
    found: FalseAssertion,
    diagnosis: &mut Diagnosis,
) -> Result<(), AllocError> {
    diagnosis.place(21, assertion_at(alloc, text, found.name)?);
    push_false(found.name, found.root, &mut diagnosis.what)?;
    if let Some(row) = found.row {
        push_row(row, &mut diagnosis.advice)?;
    }
    diagnosis.advise(
        "Change the rows, or the rule. Every assertion holds when the first session begins.",
    )
}

/// Where the name of an assertion is defined; of one that is a constraint of a table, where that begins.
fn assertion_at(alloc: Global, text: DefinitionsText, name: &Text) -> Result<At, AllocError> {
    for (place, definition) in text.definitions.iter().enumerate() {
        match definition {
            Definition::Assertion { name: other, .. } if *other == *name => {
                let piece = Piece::at(alloc, text.bytes, place)?;
                return Ok(first_name(&piece));
            }
            Definition::Table(table) => {
                if let Some(at) = constraint_named(alloc, table, name)? {
                    let piece = Piece::at(alloc, text.bytes, place)?;
                    return Ok(constraint_at(&piece, at));
                }
            }
            _ => {}
        }
    }
    Ok(At::Nowhere)
}

/// Where a constraint of a table begins.
fn constraint_at(piece: &Piece, place: usize) -> At {
    match WrittenConstraint::at(piece, place) {
        Some(written) => At::Bytes(written.named_at(piece)),
        None => At::Definition(piece.whole()),
    }
}

fn first_name(piece: &Piece) -> At {
    match piece.token(Kind::Name, 0) {
        Some(span) => At::Bytes(span),
        None => At::Definition(piece.whole()),
    }
}

fn push_false(name: &Text, root: &Root, what: &mut String) -> Result<(), AllocError> {
    write!(what, "{name} is false on the rows that DEFS puts in, ")?;
    match root {
        Root::All => what.push_str("as a whole"),
        Root::Of(value) => write!(what, "at {value}"),
    }
}

/// A line of a row as a person reads it: its values with commas between them, in parentheses.
fn push_row(bad: BadRow, advice: &mut String) -> Result<(), AllocError> {
    write!(advice, "The row of {} there: (", bad.table)?;
    for (place, value) in bad.row.values().iter().enumerate() {
        if place > 0 {
            advice.push_str(", ")?;
        }
        write!(advice, "{value}")?;
    }
    advice.push_str(").\n")
}
