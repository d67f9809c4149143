//! The first name of a condition or an expression that stands for nothing: where it stands, and what was meant.
//!
//! The order is that of `form_check`: of a query its table comes first, then its list, WHERE, GROUP BY and HAVING.

use crate::contexts::{Context, Viewpoint, scope_of};
use crate::leaves::{clauses_of, of_column};
use crate::parts::{Node, Part};
use faults::{Diagnosis, Nearest, push_names};
use form_check::Scope;
use std::alloc::{AllocError, Global};
use std::slice;
use syntax::ColumnName;
use table::Catalog;
use value::Text;

/// What a name was looked up among.
#[derive(Clone, Copy)]
enum Sought<'a> {
    Table,
    /// The tables around, by the names that they go by.
    Qualifier,
    /// The columns of the tables around.
    Column,
    /// The columns of the one table that its qualifier names.
    ColumnOf(Scope<'a>),
}

/// A name that stands for nothing.
#[derive(Clone, Copy)]
struct Unknown<'a> {
    /// The place of its leaf.
    leaf: usize,
    sought: Sought<'a>,
    /// The nearest name that there is.
    nearest: Nearest<'a>,
}

/// Says which of the names of some parts stands for nothing, if one is found that does: the name that was refused.
pub fn diagnose_unknown<'a>(
    alloc: Global,
    around: Viewpoint<'a>,
    name: &Text,
    parts: &[Part<'a>],
    diagnosis: &mut Diagnosis,
) -> Result<bool, AllocError> {
    let context = around.context;
    let mut scopes = Vec::from_slice(alloc, around.scopes)?;
    match first_unknown(alloc, context.catalog, parts, &mut scopes)? {
        Some(unknown) => {
            let here = Viewpoint {
                context,
                scopes: &scopes,
            };
            diagnose_name(alloc, here, name, &unknown, diagnosis)?;
            Ok(true)
        }
        None => Ok(false),
    }
}

/// Says that a table's name, at a leaf, stands for nothing.
pub fn diagnose_table_name(
    alloc: Global,
    context: Context,
    name: &Text,
    leaf: usize,
    diagnosis: &mut Diagnosis,
) -> Result<(), AllocError> {
    let unknown = unknown_table(alloc, context.catalog, name, leaf)?;
    let here = Viewpoint {
        context,
        scopes: &[],
    };
    diagnose_name(alloc, here, name, &unknown, diagnosis)
}

/// Says that a name at a leaf is no column of the tables around it.
pub fn diagnose_column_name(
    alloc: Global,
    here: Viewpoint,
    name: &Text,
    leaf: usize,
    diagnosis: &mut Diagnosis,
) -> Result<(), AllocError> {
    let unknown = unknown_column(alloc, here.scopes, name, leaf)?;
    diagnose_name(alloc, here, name, &unknown, diagnosis)
}

/// The first unknown name of the parts of a tree, which is seen from these tables, the innermost last. The tables
/// around it are left there.
fn first_unknown<'a>(
    alloc: Global,
    catalog: &'a Catalog,
    parts: &[Part<'a>],
    scopes: &mut Vec<Scope<'a>>,
) -> Result<Option<Unknown<'a>>, AllocError> {
    for part in parts {
        let unknown = match part.node {
            Node::Column(column) => unknown_in(alloc, scopes, column, part.range.from)?,
            Node::Function(Some(column)) => {
                unknown_in(alloc, scopes, column, part.range.from.saturating_add(1))?
            }
            Node::Exists(_) | Node::Value(_) => enter(alloc, catalog, part, scopes)?,
            Node::End => leave(scopes),
            Node::Function(None) | Node::Arithmetic(_) => None,
        };
        if unknown.is_some() {
            return Ok(unknown);
        }
    }
    Ok(None)
}

/// Puts the table of a query inside the others, if there is such a table.
fn enter<'a>(
    alloc: Global,
    catalog: &'a Catalog,
    part: &Part<'a>,
    scopes: &mut Vec<Scope<'a>>,
) -> Result<Option<Unknown<'a>>, AllocError> {
    let Some((query, at)) = part.query() else {
        return Ok(None);
    };
    let Some(scope) = scope_of(catalog, query) else {
        let leaf = clauses_of(query, at).table;
        return Ok(Some(unknown_table(alloc, catalog, &query.table, leaf)?));
    };
    scopes.push(scope)?;
    Ok(None)
}

/// Takes the innermost table away, behind its query.
fn leave<'a>(scopes: &mut Vec<Scope<'a>>) -> Option<Unknown<'a>> {
    scopes.pop();
    None
}

/// The unknown part of a column's name, if there is one.
fn unknown_in<'a>(
    alloc: Global,
    scopes: &[Scope<'a>],
    column: &'a ColumnName,
    at: usize,
) -> Result<Option<Unknown<'a>>, AllocError> {
    let last = at.saturating_add(of_column(column)).saturating_sub(1);
    let found = match (scope_named(scopes, column), &column.qualifier) {
        (Some(scope), _) if scope.own(column).is_some() => return Ok(None),
        (Some(scope), _) => unknown_column_of(alloc, scope, &column.name, last)?,
        (None, Some(qualifier)) => unknown_qualifier(alloc, scopes, qualifier, at)?,
        (None, None) => unknown_column(alloc, scopes, &column.name, last)?,
    };
    Ok(Some(found))
}

/// The innermost table that a column's name is of.
fn scope_named<'a>(scopes: &[Scope<'a>], column: &ColumnName) -> Option<Scope<'a>> {
    for scope in scopes.iter().rev() {
        if scope.is_named(column) {
            return Some(*scope);
        }
    }
    None
}

/// A table that there is not.
fn unknown_table<'a>(
    alloc: Global,
    catalog: &'a Catalog,
    name: &'a Text,
    leaf: usize,
) -> Result<Unknown<'a>, AllocError> {
    let mut nearest = Nearest::of(name);
    for table in 0..catalog.len() {
        if let Some(name) = catalog.name(table) {
            nearest.offer_name(alloc, name)?;
        }
    }
    Ok(Unknown {
        leaf,
        sought: Sought::Table,
        nearest,
    })
}

/// A column that none of the tables around has.
fn unknown_column<'a>(
    alloc: Global,
    scopes: &[Scope<'a>],
    name: &'a Text,
    leaf: usize,
) -> Result<Unknown<'a>, AllocError> {
    let mut nearest = Nearest::of(name);
    for scope in scopes {
        offer_columns(alloc, *scope, &mut nearest)?;
    }
    Ok(Unknown {
        leaf,
        sought: Sought::Column,
        nearest,
    })
}

/// A column that the one table that its qualifier names does not have.
fn unknown_column_of<'a>(
    alloc: Global,
    scope: Scope<'a>,
    name: &'a Text,
    leaf: usize,
) -> Result<Unknown<'a>, AllocError> {
    let mut nearest = Nearest::of(name);
    offer_columns(alloc, scope, &mut nearest)?;
    Ok(Unknown {
        leaf,
        sought: Sought::ColumnOf(scope),
        nearest,
    })
}

fn offer_columns<'a>(
    alloc: Global,
    scope: Scope<'a>,
    nearest: &mut Nearest<'a>,
) -> Result<(), AllocError> {
    for column in scope.schema.columns() {
        nearest.offer_name(alloc, &column.name)?;
    }
    Ok(())
}

/// A name that none of the tables around goes by.
fn unknown_qualifier<'a>(
    alloc: Global,
    scopes: &[Scope<'a>],
    name: &'a Text,
    leaf: usize,
) -> Result<Unknown<'a>, AllocError> {
    let mut nearest = Nearest::of(name);
    for scope in scopes {
        nearest.offer_name(alloc, scope.exposed_name)?;
    }
    Ok(Unknown {
        leaf,
        sought: Sought::Qualifier,
        nearest,
    })
}

/// Says that a name stands for nothing, and what may be meant.
fn diagnose_name(
    alloc: Global,
    here: Viewpoint,
    name: &Text,
    unknown: &Unknown,
    diagnosis: &mut Diagnosis,
) -> Result<(), AllocError> {
    let Viewpoint { context, scopes } = here;
    diagnosis.place(3, context.name_at(context.piece.leaf(unknown.leaf), name));
    push_missing(name, unknown.sought, &mut diagnosis.what)?;
    match (unknown.nearest.found(), unknown.sought) {
        (Some(nearest), _) => { writeln!(diagnosis.advice, "The nearest name is {nearest}.") }
        (None, Sought::Table) => push_tables(alloc, context.catalog, &mut diagnosis.advice),
        (None, Sought::Qualifier) => push_qualifiers(alloc, scopes, &mut diagnosis.advice),
        (None, Sought::Column) => push_sources(alloc, scopes, &mut diagnosis.advice),
        (None, Sought::ColumnOf(scope)) => {
            push_sources(alloc, slice::from_ref(&scope), &mut diagnosis.advice)
        }
    }
}

/// What there is not.
fn push_missing(name: &Text, sought: Sought, what: &mut String) -> Result<(), AllocError> {
    match sought {
        Sought::Table => write!(what, "there is no table {name}"),
        Sought::Qualifier => write!(what, "no table here goes by {name}"),
        Sought::Column | Sought::ColumnOf(_) => write!(what, "there is no column {name} here"),
    }
}

/// At most so many names are listed.
pub const MOST_NAMES: usize = 8;

/// Which tables there are.
fn push_tables(alloc: Global, catalog: &Catalog, advice: &mut String) -> Result<(), AllocError> {
    if catalog.len() == 0 {
        return advice.push_str("No table is created before it.\n");
    }
    let mut names = Vec::new(alloc);
    for table in 0..catalog.len().min(MOST_NAMES) {
        if let Some(name) = catalog.name(table) {
            names.push(name)?;
        }
    }
    advice.push_str("The tables before it: ")?;
    push_names(&names, advice)?;
    advice.push_str(".\n")
}

/// By which names the tables around go.
fn push_qualifiers(alloc: Global, scopes: &[Scope], advice: &mut String) -> Result<(), AllocError> {
    if scopes.is_empty() {
        return advice.push_str("No table is around it.\n");
    }
    push_exposed_names(alloc, scopes, advice)?;
    advice.push_str(" One that was given a name goes by that name alone.\n")
}

/// Of which tables a column may be.
fn push_sources(alloc: Global, scopes: &[Scope], advice: &mut String) -> Result<(), AllocError> {
    if scopes.is_empty() {
        return advice.push_str("A column stands in a query: (SELECT MAX(C) FROM T).\n");
    }
    push_exposed_names(alloc, scopes, advice)?;
    advice.push_str(" A text stands in single quotes.\n")
}

/// The names that tables go by, the innermost first.
fn push_exposed_names(
    alloc: Global,
    scopes: &[Scope],
    advice: &mut String,
) -> Result<(), AllocError> {
    let mut names = Vec::new(alloc);
    for scope in scopes.iter().rev() {
        names.push(scope.exposed_name)?;
    }
    advice.push_str("The tables here go by ")?;
    push_names(&names, advice)?;
    advice.push_str(".")
}
