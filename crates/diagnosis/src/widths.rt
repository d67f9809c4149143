//! The first sum or product that has no bound: where it stands, and the bounds of its parts.
//!
//! Bounds are those of `table::bound`. Names, shapes and types are right when this is asked.

use crate::leaves::Range;
use crate::parts::{Node, Part};
use sqlite_items::{Boxed, Items};
use std::alloc::{AllocError, Global};
use syntax::{Aggregate, Expression, SelectList};
use table::{Expr, SlotKind, bound};
use value::Value;

/// A part of an expression, and the greatest number that it can be.
#[derive(Clone, Copy)]
pub struct BoundedPart {
    pub range: Range,
    pub bound: u128,
}

/// A sum or a product without a bound, each part of which has one.
#[derive(Clone, Copy)]
pub struct Wide<'a> {
    pub range: Range,
    pub is_product: bool,
    pub parts: &'a [Expression],
}

/// The first expression without a bound among the parts of a tree, the innermost of those that hold one another.
pub fn first_wide<'a>(alloc: Global, parts: &[Part<'a>]) -> Result<Option<Wide<'a>>, AllocError> {
    for part in parts {
        if let Node::Arithmetic(expression) = part.node {
            if bound_of(alloc, expression)?.is_none() {
                return Ok(wide_of(expression, part.range));
            }
        }
    }
    Ok(None)
}

/// A sum or a product of these leaves.
fn wide_of<'a>(expression: &'a Expression, range: Range) -> Option<Wide<'a>> {
    let (parts, is_product) = match expression {
        Expression::Sum(parts) => (parts, false),
        Expression::Product(parts) => (parts, true),
        _ => return None,
    };
    Some(Wide {
        range,
        is_product,
        parts: parts.as_slice(),
    })
}

/// Puts the bounds of the parts of an expression behind others.
pub fn push_bounds(
    alloc: Global,
    wide: Wide,
    bounded: &mut Vec<BoundedPart>,
) -> Result<(), AllocError> {
    let mut at = wide.range.from;
    for part in wide.parts {
        let range = Range::of(part, at);
        if let Some(bound) = bound_of(alloc, part)? {
            bounded.push(BoundedPart { range, bound })?;
        }
        at = range.to;
    }
    Ok(())
}

/// The bound of an expression, if it has one.
fn bound_of(alloc: Global, expression: &Expression) -> Result<Option<u128>, AllocError> {
    let mut kinds = Vec::new(alloc);
    let made = as_expr(alloc, expression, &mut kinds)?;
    Ok(bound(&made, &kinds).ok())
}

/// The expression with a slot for each set function and query, as far as its bound goes.
fn as_expr(
    alloc: Global,
    expression: &Expression,
    kinds: &mut Vec<SlotKind>,
) -> Result<Expr, AllocError> {
    match expression {
        Expression::Number(number) => Ok(Expr::Literal(Value::Int(*number))),
        Expression::Text(_) => Ok(Expr::Literal(Value::Null)),
        Expression::Column(_) => Ok(Expr::Column(0)),
        Expression::CountRows => slot(SlotKind::Count, kinds),
        Expression::Aggregate(function, _) => slot(kind_of(*function), kinds),
        Expression::Subquery(query) => slot(listed_kind(&query.get().select_list), kinds),
        Expression::Negation(part) => {
            let part = as_expr(alloc, part.get(), kinds)?;
            Ok(Expr::Negation(Boxed::new(alloc, part)?))
        }
        Expression::Sum(parts) => {
            let mut made = Vec::new(alloc);
            for part in parts.as_slice() {
                made.push(as_expr(alloc, part, kinds)?)?;
            }
            Ok(Expr::Sum(Items::from_vec(made)))
        }
        Expression::Product(parts) => {
            let mut made = Vec::new(alloc);
            for part in parts.as_slice() {
                made.push(as_expr(alloc, part, kinds)?)?;
            }
            Ok(Expr::Product(Items::from_vec(made)))
        }
    }
}

/// One more slot.
fn slot(kind: SlotKind, kinds: &mut Vec<SlotKind>) -> Result<Expr, AllocError> {
    let place = kinds.len();
    kinds.push(kind)?;
    Ok(Expr::Slot(place))
}

/// The kind of slot of a set function of a column.
fn kind_of(function: Aggregate) -> SlotKind {
    match function {
        Aggregate::Count => SlotKind::Count,
        Aggregate::Sum => SlotKind::Sum,
        Aggregate::Min | Aggregate::Max => SlotKind::Extreme,
    }
}

/// The kind of slot of a query that stands for its value.
fn listed_kind(listed: &SelectList) -> SlotKind {
    match listed {
        SelectList::One(Expression::CountRows) => SlotKind::Count,
        SelectList::One(Expression::Aggregate(function, _)) => kind_of(*function),
        SelectList::One(_) | SelectList::Star => SlotKind::Extreme,
    }
}
