//! What is wrong with a SELECT: with its table, its list, its WHERE, its GROUP BY or its HAVING.

use crate::conditions::{
    Site, diagnose_condition, diagnose_expression, diagnose_rule, diagnose_shape, diagnose_types,
};
use crate::contexts::{Context, Viewpoint};
use crate::leaves::{of_column, of_condition, of_expression, of_name};
use crate::parts::{parts_of_columns, parts_of_condition, parts_of_expression};
use crate::rows::{Rows, diagnose_rows};
use crate::rules::Rule;
use crate::shapes::{Groups, in_listed};
use crate::types::of_type;
use assertcheck::is_grouped;
use faults::Diagnosis;
use form_check::{Scope, exposed_name};
use std::alloc::{AllocError, Global};
use std::slice;
use syntax::{ColumnName, DerivedColumn, Expression, Select};
use token::Kind;
use value::Refusal;

/// The leaf behind the name of the session and SELECT.
const LIST_AT: usize = 2;

/// The derived columns of a SELECT; none where it lists all those of its table.
fn derived_columns(select: &Select) -> &[DerivedColumn] {
    match &select.columns {
        Some(columns) => columns.as_slice(),
        None => &[],
    }
}

/// The columns of GROUP BY; none where it is not written.
fn grouping_columns(select: &Select) -> &[ColumnName] {
    match &select.group_by {
        Some(names) => names.as_slice(),
        None => &[],
    }
}

/// An expression, and the name behind it.
fn leaves_of(column: &DerivedColumn) -> usize {
    of_expression(&column.value).saturating_add(of_name(&column.name))
}

/// The table of a SELECT and its WHERE, if their leaves begin here.
fn rows_of(select: &Select, table_at: usize) -> Rows {
    Rows {
        table: &select.table,
        exposed_name: exposed_name(&select.correlation_name, &select.table),
        table_at,
        keeps: &select.keeps,
        keeps_at: table_at
            .saturating_add(of_name(&select.correlation_name))
            .saturating_add(1),
    }
}

/// Where the leaves behind the list of a SELECT begin.
fn behind(columns: &[DerivedColumn]) -> usize {
    let mut at = LIST_AT;
    for column in columns {
        at = at.saturating_add(leaves_of(column));
    }
    at
}

/// Where the leaves behind a WHERE begin.
fn behind_where(rows: Rows) -> usize {
    match rows.keeps {
        Some(keeps) => rows.keeps_at.saturating_add(of_condition(keeps.get())),
        None => rows.keeps_at,
    }
}

/// Where the leaves behind a GROUP BY begin.
fn behind_grouping(names: &[ColumnName], at: usize) -> usize {
    let mut at = at;
    for name in names {
        at = at.saturating_add(of_column(name));
    }
    at
}

/// A SELECT over a table that there is.
#[derive(Clone, Copy)]
struct KnownSelect<'a> {
    select: &'a Select,
    scope: Scope<'a>,
    /// Where the leaves of its GROUP BY begin.
    grouping_at: usize,
}

impl<'a> KnownSelect<'a> {
    /// The columns that may stand outside of set functions, if its rows are taken in groups.
    fn groups(&self) -> Option<Groups<'a>> {
        if is_grouped(self.select) {
            Some(self.columns())
        } else {
            None
        }
    }

    fn columns(&self) -> Groups<'a> {
        Groups {
            scope: self.scope,
            columns: grouping_columns(self.select),
        }
    }
}

/// Says what is wrong with a SELECT, if that is found: with its table, or else with its list, its WHERE, its GROUP BY
/// or its HAVING, the first of them.
pub fn diagnose_select(
    alloc: Global,
    context: Context,
    select: &Select,
    diagnosis: &mut Diagnosis,
) -> Result<bool, AllocError> {
    let rows = rows_of(select, behind(derived_columns(select)));
    let Some(scope) = rows.scope(context.catalog) else {
        return diagnose_rows(alloc, context, rows, diagnosis);
    };
    let known = KnownSelect {
        select,
        scope,
        grouping_at: behind_where(rows),
    };
    Ok(
        diagnose_list(alloc, context, known, diagnosis)?
            || diagnose_rows(alloc, context, rows, diagnosis)?
            || diagnose_grouping(alloc, context, known, diagnosis)?
            || diagnose_having(alloc, context, known, diagnosis)?,
    )
}

/// Says what is wrong with what a SELECT lists, if that is found.
fn diagnose_list(
    alloc: Global,
    context: Context,
    known: KnownSelect,
    diagnosis: &mut Diagnosis,
) -> Result<bool, AllocError> {
    match (&known.select.columns, known.groups()) {
        (Some(columns), _) => {
            diagnose_columns(alloc, context, known, columns.as_slice(), diagnosis)
        }
        (None, Some(groups)) => diagnose_star(context, groups, diagnosis),
        (None, None) => Ok(false),
    }
}

/// Says that * lists a column that is not in GROUP BY, if it does.
fn diagnose_star(
    context: Context,
    groups: Groups,
    diagnosis: &mut Diagnosis,
) -> Result<bool, AllocError> {
    match context.refusal {
        Refusal::OutsideClass if !groups.have_all() => {
            let star = context.piece.token(Kind::Star, 0);
            diagnose_rule(context.at(star), Rule::StarOutsideGroup, diagnosis)
        }
        _ => Ok(false),
    }
}

/// Says what is wrong with the first faulty derived column, if one is found.
fn diagnose_columns(
    alloc: Global,
    context: Context,
    known: KnownSelect,
    columns: &[DerivedColumn],
    diagnosis: &mut Diagnosis,
) -> Result<bool, AllocError> {
    let groups = known.groups();
    let mut at = LIST_AT;
    for column in columns {
        let listed = Listed {
            scope: known.scope,
            groups,
            expression: &column.value,
            at,
        };
        if diagnose_listed(alloc, context, listed, diagnosis)? {
            return Ok(true);
        }
        at = at.saturating_add(leaves_of(column));
    }
    Ok(false)
}

/// The expression of a derived column of a table, and where its leaves begin.
#[derive(Clone, Copy)]
struct Listed<'a> {
    scope: Scope<'a>,
    /// The columns that may stand outside of set functions, where not all may.
    groups: Option<Groups<'a>>,
    expression: &'a Expression,
    at: usize,
}

/// Says what is wrong with the expression of a derived column, if that is found.
fn diagnose_listed(
    alloc: Global,
    context: Context,
    listed: Listed,
    diagnosis: &mut Diagnosis,
) -> Result<bool, AllocError> {
    if let Refusal::TypeMismatch = context.refusal {
        return diagnose_type(alloc, context, listed, diagnosis);
    }
    let parts = parts_of_expression(alloc, listed.expression, listed.at)?;
    let scopes = slice::from_ref(&listed.scope);
    let here = Viewpoint { context, scopes };
    let outside = in_listed(&parts, listed.groups);
    diagnose_expression(alloc, here, &parts, outside, diagnosis)
}

/// Says which types do not fit in the expression of a derived column, if that is found.
fn diagnose_type(
    alloc: Global,
    context: Context,
    listed: Listed,
    diagnosis: &mut Diagnosis,
) -> Result<bool, AllocError> {
    let scopes = slice::from_ref(&listed.scope);
    match of_type(alloc, context.catalog, scopes, listed.expression, listed.at)? {
        Err(mismatch) => diagnose_types(context, mismatch, diagnosis),
        Ok(_) => Ok(false),
    }
}

/// Says which name in GROUP BY is none of a column, if one is found.
fn diagnose_grouping(
    alloc: Global,
    context: Context,
    known: KnownSelect,
    diagnosis: &mut Diagnosis,
) -> Result<bool, AllocError> {
    let names = grouping_columns(known.select);
    let parts = parts_of_columns(alloc, names, known.grouping_at)?;
    let scopes = slice::from_ref(&known.scope);
    let here = Viewpoint { context, scopes };
    diagnose_expression(alloc, here, &parts, None, diagnosis)
}

/// Says what is wrong with a HAVING, if that is found.
fn diagnose_having(
    alloc: Global,
    context: Context,
    known: KnownSelect,
    diagnosis: &mut Diagnosis,
) -> Result<bool, AllocError> {
    let Some(having) = &known.select.having else {
        return Ok(false);
    };
    let site = Site {
        condition: having.get(),
        at: behind_grouping(grouping_columns(known.select), known.grouping_at),
        scopes: slice::from_ref(&known.scope),
    };
    if let Refusal::OutsideClass = context.refusal {
        let parts = parts_of_condition(alloc, site.condition, site.at)?;
        let outside = in_listed(&parts, Some(known.columns()));
        return diagnose_shape(context, outside, diagnosis);
    }
    diagnose_condition(alloc, context, site, diagnosis)
}
