//! The first part of a condition whose types do not fit: where it stands, and the two types.
//!
//! What has which type is told by `assertcheck`: numbers and texts. Names and shapes are right when this is asked.

use crate::contexts::scope_of;
use crate::leaves::{Range, clauses_of, of_condition, of_expression};
use assertcheck::DataType;
use form_check::Scope;
use std::alloc::{AllocError, Global};
use syntax::{Aggregate, ColumnName, Condition, Expression, Query, SelectList};
use table::Catalog;

/// Types that do not fit.
#[derive(Clone, Copy)]
pub enum Mismatch {
    /// A comparison of a number and a text. The places are those of its two sides.
    Compared {
        left: Range,
        right: Range,
        left_type: DataType,
        right_type: DataType,
    },
    /// A sum, a product or a negation of a text.
    Computed(Range),
    /// SUM of a column of texts; the place is that of the function.
    SumOfTexts(Range),
}

impl Mismatch {
    /// The leaves of what does not fit.
    pub fn range(self) -> Range {
        match self {
            Mismatch::Compared { left, right, .. } => Range {
                from: left.from,
                to: right.to,
            },
            Mismatch::Computed(range) | Mismatch::SumOfTexts(range) => range,
        }
    }
}

/// The type of an expression, or the first mismatch in it.
pub type TypeOrMismatch = Result<DataType, Mismatch>;

/// The first mismatch of a condition whose leaves begin here, seen from these tables, the innermost last.
#[cycle(types)]
pub fn in_condition<'a>(
    alloc: Global,
    catalog: &'a Catalog,
    scopes: &[Scope<'a>],
    condition: &'a Condition,
    at: usize,
) -> Result<Option<Mismatch>, AllocError> {
    match condition {
        Condition::Or(parts) | Condition::And(parts) => {
            let mut at = at;
            for part in parts.as_slice() {
                if let Some(mismatch) = in_condition(alloc, catalog, scopes, part, at)? {
                    return Ok(Some(mismatch));
                }
                at = at.saturating_add(of_condition(part));
            }
            Ok(None)
        }
        Condition::Not(part) | Condition::Is(part, _) => {
            in_condition(alloc, catalog, scopes, part.get(), at)
        }
        Condition::Exists(query) => {
            let at = at.saturating_add(1);
            Ok(listed_type(alloc, catalog, scopes, query.get(), at)?.err())
        }
        Condition::Compare(left, _, right) => {
            let left = side_of(alloc, catalog, scopes, left, at)?;
            let right = side_of(
                alloc,
                catalog,
                scopes,
                right,
                left.range.to.saturating_add(1),
            )?;
            Ok(side_mismatch(left, right))
        }
        Condition::IsNull(part) => Ok(of_type(alloc, catalog, scopes, part, at)?.err()),
        Condition::Between(subject, low, high) => {
            let subject = side_of(alloc, catalog, scopes, subject, at)?;
            let low = side_of(alloc, catalog, scopes, low, subject.range.to)?;
            let high = side_of(alloc, catalog, scopes, high, low.range.to)?;
            Ok(side_mismatch(subject, low).or(side_mismatch(subject, high)))
        }
        Condition::In(subject, values) => {
            let subject = side_of(alloc, catalog, scopes, subject, at)?;
            let mut at = subject.range.to;
            for value in values.as_slice() {
                let value = side_of(alloc, catalog, scopes, value, at)?;
                if let Some(mismatch) = side_mismatch(subject, value) {
                    return Ok(Some(mismatch));
                }
                at = value.range.to;
            }
            Ok(None)
        }
    }
}

/// A side of a comparison: its leaves, and its type or the first mismatch in it.
#[derive(Clone, Copy)]
struct Side {
    range: Range,
    typed: TypeOrMismatch,
}

/// A side of a comparison, whose leaves begin here.
#[cycle(types)]
fn side_of<'a>(
    alloc: Global,
    catalog: &'a Catalog,
    scopes: &[Scope<'a>],
    expression: &'a Expression,
    at: usize,
) -> Result<Side, AllocError> {
    let typed = of_type(alloc, catalog, scopes, expression, at)?;
    let range = Range::of(expression, at);
    Ok(Side { range, typed })
}

/// The mismatch of two sides, or that of one of them.
fn side_mismatch(left: Side, right: Side) -> Option<Mismatch> {
    match (left.typed, right.typed) {
        (Err(mismatch), _) | (Ok(_), Err(mismatch)) => Some(mismatch),
        (Ok(left_type), Ok(right_type)) if left_type == right_type => None,
        (Ok(left_type), Ok(right_type)) => Some(Mismatch::Compared {
            left: left.range,
            right: right.range,
            left_type,
            right_type,
        }),
    }
}

/// The type of an expression whose leaves begin here, or the first mismatch in it.
#[cycle(types)]
pub fn of_type<'a>(
    alloc: Global,
    catalog: &'a Catalog,
    scopes: &[Scope<'a>],
    expression: &'a Expression,
    at: usize,
) -> Result<TypeOrMismatch, AllocError> {
    match expression {
        Expression::Number(_) | Expression::CountRows => Ok(Ok(DataType::Number)),
        Expression::Text(_) => Ok(Ok(DataType::Text)),
        Expression::Column(column) => Ok(Ok(column_type(scopes, column))),
        Expression::Aggregate(function, argument) => Ok(function_type(
            *function,
            column_type(scopes, &argument.column),
            Range::of(expression, at),
        )),
        Expression::Subquery(query) => listed_type(alloc, catalog, scopes, query.get(), at),
        Expression::Negation(part) => {
            match of_type(alloc, catalog, scopes, part.get(), at)? {
                Ok(DataType::Text) => Ok(Err(Mismatch::Computed(Range::of(part.get(), at)))),
                found => Ok(found),
            }
        }
        Expression::Sum(parts) | Expression::Product(parts) => {
            let mut at = at;
            for part in parts.as_slice() {
                match of_type(alloc, catalog, scopes, part, at)? {
                    Ok(DataType::Number) => {}
                    Ok(DataType::Text) => return Ok(Err(Mismatch::Computed(Range::of(part, at)))),
                    Err(mismatch) => return Ok(Err(mismatch)),
                }
                at = at.saturating_add(of_expression(part));
            }
            Ok(Ok(DataType::Number))
        }
    }
}

/// The type of what a set function gives.
fn function_type(function: Aggregate, column: DataType, range: Range) -> TypeOrMismatch {
    match (function, column) {
        (Aggregate::Count, _) => Ok(DataType::Number),
        (Aggregate::Sum, DataType::Text) => Err(Mismatch::SumOfTexts(range)),
        (Aggregate::Sum | Aggregate::Min | Aggregate::Max, found) => Ok(found),
    }
}

/// The type that a column was declared with, seen from these tables.
fn column_type(scopes: &[Scope], column: &ColumnName) -> DataType {
    for scope in scopes.iter().rev() {
        if let Some(place) = scope.own(column) {
            return match scope.schema.columns().get(place) {
                Some(column) => DataType::from(column.kind),
                None => DataType::Number,
            };
        }
    }
    DataType::Number
}

/// The type of what a query lists, or the first mismatch in the query.
#[cycle(types)]
fn listed_type<'a>(
    alloc: Global,
    catalog: &'a Catalog,
    outer: &[Scope<'a>],
    query: &'a Query,
    at: usize,
) -> Result<TypeOrMismatch, AllocError> {
    let clauses = clauses_of(query, at);
    let Some(inner) = scope_of(catalog, query) else {
        return Ok(Ok(DataType::Number));
    };
    let mut scopes = Vec::from_slice(alloc, outer)?;
    scopes.push(inner)?;
    if let Some(keeps) = &query.keeps {
        if let Some(mismatch) = in_condition(alloc, catalog, &scopes, keeps, clauses.keeps)? {
            return Ok(Err(mismatch));
        }
    }
    if let Some(having) = &query.having {
        if let Some(mismatch) = in_condition(alloc, catalog, &scopes, having, clauses.having)? {
            return Ok(Err(mismatch));
        }
    }
    match &query.select_list {
        SelectList::Star => Ok(Ok(DataType::Number)),
        SelectList::One(listed) => of_type(alloc, catalog, &scopes, listed, clauses.listed),
    }
}
