//! Statements of a script that are refused whatever the rows are: for their names, shapes, types and widths, and for
//! constants that no row may hold.

use crate::answers::refusal_in;
use crate::conditions::{diagnose_expression, diagnose_types, diagnose_whole, type_name};
use crate::contexts::{Context, Viewpoint};
use crate::inserts::{WrittenInsert, diagnose_insert, insert_refusal, push_value_of_type};
use crate::leaves::{Range, of_expression};
use crate::names::{MOST_NAMES, diagnose_column_name};
use crate::parts::parts_of_expression;
use crate::rows::{Rows, diagnose_rows};
use crate::selects::diagnose_select;
use crate::shapes::in_statement;
use crate::types::of_type;
use assertcheck::{DataType, check_delete, check_select, check_update};
use delta::View;
use faults::{At, Diagnosis, Nearest, Piece, Span, push_names};
use form_check::Scope;
use std::alloc::{AllocError, Global};
use std::slice;
use syntax::{Assignment, Expression, Statement, UpdateSource, Which};
use table::Column;
use value::{Refusal, Text};

/// A statement of a script, by the script's text and its place among the lines.
#[derive(Clone, Copy)]
pub struct ScriptStatement<'a> {
    pub bytes: &'a [u8],
    pub place: usize,
    pub statement: &'a Statement,
}

/// Says why a statement is refused in every transaction, if it is.
pub fn diagnose_statement(
    alloc: Global,
    line: ScriptStatement,
    view: &View,
    diagnosis: &mut Diagnosis,
) -> Result<bool, AllocError> {
    match refusal_of(alloc, view, line.statement)? {
        Some(refusal) => diagnose_line(alloc, line, view, &refusal, diagnosis),
        None => Ok(false),
    }
}

/// The refusal that a statement gets whatever the rows are.
fn refusal_of(
    alloc: Global,
    view: &View,
    statement: &Statement,
) -> Result<Option<Refusal>, AllocError> {
    let catalog = view.catalog();
    match statement {
        Statement::Insert(insert) => insert_refusal(alloc, catalog, insert),
        Statement::Update { table, sets, keeps } => {
            refusal_in(check_update(alloc, catalog, table, sets.as_slice(), keeps))
        }
        Statement::Delete { table, keeps } => {
            refusal_in(check_delete(alloc, catalog, table, keeps))
        }
        Statement::Select(select) => refusal_in(check_select(alloc, catalog, select)),
        Statement::SetConstraints { assertions, .. } => refusal_to_set(view, assertions),
        Statement::Verdict(name) => unknown_assertion(view, name),
    }
}

/// UnknownName, if no assertion has this name.
fn unknown_assertion(view: &View, name: &Text) -> Result<Option<Refusal>, AllocError> {
    for assertion in view.assertions() {
        if assertion.name == *name {
            return Ok(None);
        }
    }
    Ok(Some(Refusal::UnknownName { name: name.copy()? }))
}

/// Why SET CONSTRAINTS does not take the first of its names that it refuses.
fn refusal_to_set(view: &View, assertions: &Which) -> Result<Option<Refusal>, AllocError> {
    let Which::Names(names) = assertions else {
        return Ok(None);
    };
    for name in names.as_slice() {
        if let Some(refusal) = unknown_assertion(view, name)? {
            return Ok(Some(refusal));
        }
        for assertion in view.assertions() {
            if assertion.name == *name && !assertion.attributes.deferrable {
                return Ok(Some(Refusal::NotDeferrable {
                    assertion: name.copy()?,
                }));
            }
        }
    }
    Ok(None)
}

/// Says what is wrong with the statement of a line that was refused so. That is always found.
fn diagnose_line(
    alloc: Global,
    line: ScriptStatement,
    view: &View,
    refusal: &Refusal,
    diagnosis: &mut Diagnosis,
) -> Result<bool, AllocError> {
    let piece = Piece::at(alloc, line.bytes, line.place)?;
    let context = Context {
        piece: &piece,
        catalog: view.catalog(),
        refusal,
    };
    diagnose(alloc, context, view, line.statement, diagnosis)
}

fn diagnose(
    alloc: Global,
    context: Context,
    view: &View,
    statement: &Statement,
    diagnosis: &mut Diagnosis,
) -> Result<bool, AllocError> {
    if !diagnose_parts(alloc, context, view, statement, diagnosis)? {
        diagnose_whole(context, diagnosis)?;
    }
    Ok(true)
}

/// Says what is wrong with a part of a statement, if that is found.
fn diagnose_parts(
    alloc: Global,
    context: Context,
    view: &View,
    statement: &Statement,
    diagnosis: &mut Diagnosis,
) -> Result<bool, AllocError> {
    match statement {
        Statement::Insert(insert) => {
            // (whatever the rows are, a key is refused only where two rows of the statement have it)
            let written = WrittenInsert {
                insert,
                names: 1,
                was_taken: false,
            };
            diagnose_insert(alloc, context, written, diagnosis)?;
            Ok(true)
        }
        Statement::Update { table, sets, keeps } => {
            let rows = Rows::new(table, 1, keeps, behind(sets.as_slice()));
            diagnose_update(alloc, context, sets.as_slice(), rows, diagnosis)
        }
        Statement::Delete { table, keeps } => {
            let rows = Rows::new(table, 1, keeps, 2);
            diagnose_rows(alloc, context, rows, diagnosis)
        }
        Statement::Select(select) => diagnose_select(alloc, context, select, diagnosis),
        Statement::SetConstraints { .. } | Statement::Verdict(_) => {
            diagnose_asserted(alloc, context, view, diagnosis)
        }
    }
}

/// An assignment of an UPDATE to this table, and where its leaves begin.
#[derive(Clone, Copy)]
struct Assigned<'a> {
    scope: Scope<'a>,
    assignment: &'a Assignment,
    at: usize,
}

/// A column's name, the sign, and what it is given.
fn leaves_of(assignment: &Assignment) -> usize {
    match &assignment.value {
        UpdateSource::Null => 2,
        UpdateSource::To(expression) => of_expression(expression).saturating_add(2),
    }
}

/// Where the leaves behind the assignments of an UPDATE begin.
fn behind(sets: &[Assignment]) -> usize {
    let mut at = 2usize;
    for assignment in sets {
        at = at.saturating_add(leaves_of(assignment));
    }
    at
}

/// Puts the assignments of an UPDATE to a table behind others.
fn push_assigned<'a>(
    scope: Scope<'a>,
    sets: &'a [Assignment],
    assigned: &mut Vec<Assigned<'a>>,
) -> Result<(), AllocError> {
    for (place, assignment) in sets.iter().enumerate() {
        assigned.push(Assigned {
            scope,
            assignment,
            at: behind(sets.get(..place).unwrap_or(&[])),
        })?;
    }
    Ok(())
}

fn diagnose_update(
    alloc: Global,
    context: Context,
    sets: &[Assignment],
    rows: Rows,
    diagnosis: &mut Diagnosis,
) -> Result<bool, AllocError> {
    let mut assigned = Vec::new(alloc);
    if let Some(scope) = rows.scope(context.catalog) {
        push_assigned(scope, sets, &mut assigned)?;
    }
    if diagnose_sets(alloc, context, &assigned, diagnosis)? {
        return Ok(true);
    }
    diagnose_rows(alloc, context, rows, diagnosis)
}

/// Says what is wrong with a column that is assigned, or else with what one is given, if that is found.
fn diagnose_sets(
    alloc: Global,
    context: Context,
    sets: &[Assigned],
    diagnosis: &mut Diagnosis,
) -> Result<bool, AllocError> {
    for assigned in sets {
        if diagnose_column(alloc, context, *assigned, diagnosis)? {
            return Ok(true);
        }
    }
    for assigned in sets {
        if diagnose_value(alloc, context, *assigned, diagnosis)? {
            return Ok(true);
        }
    }
    Ok(false)
}

/// Says what is wrong with the column of an assignment, if that is found.
fn diagnose_column(
    alloc: Global,
    context: Context,
    assigned: Assigned,
    diagnosis: &mut Diagnosis,
) -> Result<bool, AllocError> {
    let Assigned {
        scope,
        assignment,
        at,
    } = assigned;
    let column = &assignment.column;
    match context.refusal {
        Refusal::UnknownName { name } if scope.schema.column(column).is_none() => {
            let scopes = slice::from_ref(&scope);
            let here = Viewpoint { context, scopes };
            diagnose_column_name(alloc, here, name, at, diagnosis)?;
            Ok(true)
        }
        Refusal::KeyUpdate { column: key } if *key == *column => {
            diagnose_key(context, key, at, diagnosis)
        }
        _ => Ok(false),
    }
}

/// Says that the key at a leaf is assigned. That is always found.
fn diagnose_key(
    context: Context,
    key: &Text,
    leaf: usize,
    diagnosis: &mut Diagnosis,
) -> Result<bool, AllocError> {
    diagnosis.place(8, context.name_at(context.piece.leaf(leaf), key));
    write!(diagnosis.what, "{key} is the key, and no UPDATE assigns it")?;
    diagnosis.advise("Put the row in under its new key, and take the old one out.")?;
    Ok(true)
}

/// Says what is wrong with what an assignment gives, if that is found.
fn diagnose_value(
    alloc: Global,
    context: Context,
    assigned: Assigned,
    diagnosis: &mut Diagnosis,
) -> Result<bool, AllocError> {
    let UpdateSource::To(expression) = &assigned.assignment.value else {
        return Ok(false);
    };
    let given = Given {
        expression,
        at: assigned.at.saturating_add(2),
        assigned,
    };
    match context.refusal {
        Refusal::TypeMismatch => diagnose_given_type(alloc, context, given, diagnosis),
        _ => diagnose_given(alloc, context, given, diagnosis),
    }
}

/// An expression that an assignment gives, and where its leaves begin.
#[derive(Clone, Copy)]
struct Given<'a> {
    expression: &'a Expression,
    at: usize,
    assigned: Assigned<'a>,
}

/// Says what is wrong with the parts of an expression, if that is found.
fn diagnose_given(
    alloc: Global,
    context: Context,
    given: Given,
    diagnosis: &mut Diagnosis,
) -> Result<bool, AllocError> {
    let parts = parts_of_expression(alloc, given.expression, given.at)?;
    let scopes = slice::from_ref(&given.assigned.scope);
    let here = Viewpoint { context, scopes };
    diagnose_expression(alloc, here, &parts, in_statement(&parts), diagnosis)
}

/// Says which types do not fit in an expression, or that it is of another type than its column, if that is found.
fn diagnose_given_type(
    alloc: Global,
    context: Context,
    given: Given,
    diagnosis: &mut Diagnosis,
) -> Result<bool, AllocError> {
    let scopes = slice::from_ref(&given.assigned.scope);
    match of_type(alloc, context.catalog, scopes, given.expression, given.at)? {
        Err(mismatch) => diagnose_types(context, mismatch, diagnosis),
        Ok(found) => diagnose_assigned(context, given, found, diagnosis),
    }
}

/// The column that an assignment sets.
fn column_of<'a>(assigned: Assigned<'a>) -> Option<&'a Column> {
    let schema = assigned.scope.schema;
    schema
        .columns()
        .get(schema.column(&assigned.assignment.column)?)
}

/// Says that an expression is of another type than its column, if it is.
fn diagnose_assigned(
    context: Context,
    given: Given,
    found: DataType,
    diagnosis: &mut Diagnosis,
) -> Result<bool, AllocError> {
    let Some(column) = column_of(given.assigned) else {
        return Ok(false);
    };
    let wanted = DataType::from(column.kind);
    if wanted == found {
        return Ok(false);
    }
    let (one, name) = (type_name(wanted), &column.name);
    diagnosis.place(5, context.range(Range::of(given.expression, given.at)));
    push_value_of_type(type_name(found), one, &mut diagnosis.what)?;
    writeln!(diagnosis.advice, "{name} is of type {one}.")?;
    Ok(true)
}

/// Says what is wrong with the names of VERDICT and SET CONSTRAINTS, if that is found.
fn diagnose_asserted(
    alloc: Global,
    context: Context,
    view: &View,
    diagnosis: &mut Diagnosis,
) -> Result<bool, AllocError> {
    match context.refusal {
        Refusal::UnknownName { name } => {
            diagnosis.place(3, asserted_at(context, name));
            write!(diagnosis.what, "there is no assertion {name}")?;
            push_assertions(alloc, view, name, &mut diagnosis.advice)?;
        }
        Refusal::NotDeferrable { assertion } => {
            diagnosis.place(11, asserted_at(context, assertion));
            write!(diagnosis.what, "{assertion} is not deferrable")?;
            diagnosis.advise(
                "Write DEFERRABLE behind its CREATE ASSERTION .. CHECK (..), if it may be checked at COMMIT alone.",
            )?;
        }
        _ => return Ok(false),
    }
    Ok(true)
}

/// A line of which assertion may be meant, or which there are.
fn push_assertions(
    alloc: Global,
    view: &View,
    name: &Text,
    advice: &mut String,
) -> Result<(), AllocError> {
    if view.assertions().is_empty() {
        return advice.push_str("DEFS has no assertion.\n");
    }
    match nearest_assertion(alloc, view, name)? {
        Some(near) => writeln!(advice, "The nearest name is {near}."),
        None => push_assertion_names(alloc, view, advice),
    }
}

/// The name of an assertion that is nearest to another.
fn nearest_assertion<'a>(
    alloc: Global,
    view: &'a View,
    name: &'a Text,
) -> Result<Option<&'a str>, AllocError> {
    let mut nearest = Nearest::of(name);
    for assertion in view.assertions() {
        nearest.offer_name(alloc, &assertion.name)?;
    }
    Ok(nearest.found())
}

/// A line of the names of the first assertions.
fn push_assertion_names(alloc: Global, view: &View, advice: &mut String) -> Result<(), AllocError> {
    let mut names = Vec::new(alloc);
    for assertion in view.assertions().iter().take(MOST_NAMES) {
        names.push(&assertion.name)?;
    }
    advice.push_str("The assertions: ")?;
    push_names(&names, advice)?;
    advice.push_str(".\n")
}

/// The first of the names behind the session's that is this one.
fn asserted_at(context: Context, name: &Text) -> At {
    let leaves = context.piece.leaves.iter().skip(1);
    for leaf in leaves {
        let span = Span {
            start: leaf.start,
            end: leaf.end,
        };
        if let At::Bytes(span) = context.name_at(Some(span), name) {
            return At::Bytes(span);
        }
    }
    context.at(None)
}
