//! The key of a WHERE.

ghost use Rattle.std.specs.Prelude.{◌≡◌, IfOk};
ghost use Rattle.table.specs.declared.conds.Cond.TheViews.{out-Cond};
ghost use Rattle.table.specs.declared.exprs.Expr.TheViews.{out-Expr};
ghost use Rattle.alone.specs.Reads.{filter_key as where_key_of, top_parts as top_parts_of, sides as sides_of, equality_in as equality_of, first_equality as first_of_all, first_on as first_of_column, key_from};
ghost use Rattle.changes.specs.Shown.{lent_equality};

use siread::{LockKey, Place};
use std::alloc::AllocError;
use std::slice;
use table::{Cond, Expr};
use value::{Comparison, Value};

/// A column that is set equal to a literal.
#[derive(Clone, Copy)]
struct Equality<'a> {
    column: usize,
    value: &'a Value,
}

/// The key under which a WHERE reads a table whose key column is this one: the row of the first `key = literal` that
/// AND joins at the top, whether it is there or not, else the rows of the first `column = literal`, else the table
/// (SIREAD locks: Cahill, Röhm and Fekete 2008; keys of a predicate: Ports and Grittner 2012, "index-range and
/// relation locks").
pub fn filter_key(table: usize, key: usize, filter: &Cond) -> Result<LockKey, AllocError>
    ensures { IfOk result (λ read. read ≡ where_key_of table key filter.now) }
{
    let parts = top_parts(filter);
    key_of(table, first_on(key, parts), first_equality(parts))
}

/// The row of the one, else the rows of the other, else the table.
fn key_of(
    table: usize,
    row: Option<Equality<'_>>,
    rows: Option<Equality<'_>>,
) -> Result<LockKey, AllocError>
    ensures { IfOk result (λ read. read ≡ key_from table (lent_equality row.entry) (lent_equality rows.entry)) }
{
    if let Some(equality) = row {
        return Ok(LockKey::Row(Place {
            table,
            key: equality.value.copy()?,
        }));
    }
    match rows {
        Some(equality) => Ok(LockKey::Column {
            table,
            column: equality.column,
            value: equality.value.copy()?,
        }),
        None => Ok(LockKey::Table(table)),
    }
}

/// The parts that AND joins at the top.
fn top_parts(condition: &Cond) -> &[Cond]
    ensures { result.now ≡ top_parts_of condition.now }
{
    match condition {
        Cond::And(parts) => parts.as_slice(),
        other => slice::from_ref(other),
    }
}

/// The first equality of the parts on a column.
fn first_on(column: usize, parts: &[Cond]) -> Option<Equality<'_>>
    ensures { lent_equality result ≡ first_of_column column parts.now }
{
    for part in parts {
        if let Some(equality) = equality_in(part) {
            if equality.column == column {
                return Some(equality);
            }
        }
    }
    None
}

/// The first equality of the parts.
fn first_equality(parts: &[Cond]) -> Option<Equality<'_>>
    ensures { lent_equality result ≡ first_of_all parts.now }
{
    for part in parts {
        if let Some(equality) = equality_in(part) {
            return Some(equality);
        }
    }
    None
}

/// The column that a condition sets equal to a literal, if it is such an equality.
fn equality_in(condition: &Cond) -> Option<Equality<'_>>
    ensures { lent_equality result ≡ equality_of (out-Cond condition.now) }
{
    match condition {
        Cond::Compare(Comparison::Equal, left, right) => equality_of(left, right),
        _ => None,
    }
}

/// The column and the literal of which they are, in either order.
fn equality_of<'a>(left: &'a Expr, right: &'a Expr) -> Option<Equality<'a>>
    ensures { lent_equality result ≡ sides_of (out-Expr left.now) (out-Expr right.now) }
{
    match (left, right) {
        (Expr::Column(column), Expr::Literal(value))
        | (Expr::Literal(value), Expr::Column(column)) => Some(Equality {
            column: *column,
            value,
        }),
        _ => None,
    }
}
