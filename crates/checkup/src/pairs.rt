//! How many rows a subquery keeps beside the rows around it, where its filter asks what those hold.

ghost use Rattle.std.specs.Prelude.{[], All, map, IfOk, IsTrue};
ghost use Rattle.table.specs.Bounds.{IsSmallRow, is_bounded};
ghost use Rattle.table.specs.Slots.{kinds_of};

use crate::figures::Counts;
use assertion::{Link, Query};
use delta::View;
use mvrows::Rows;
use std::alloc::{AllocError, Global};
use table::{Cond, Row, Slots, is_bounded, keeps};
use value::Value;

/// How many pairs there are of a row of a table and a row that is linked to it and that the filter keeps beside it, and
/// how many rows of the table are in one.
pub fn count_pairs(
    alloc: Global,
    view: &View,
    around: usize,
    query: &Query<Link>,
) -> Result<Counts, AllocError> {
    let mut counts = Counts { rows: 0, groups: 0 };
    if around >= view.catalog().len() {
        return Ok(counts);
    }
    for row in view.rows(around).iter() {
        let rows = count_beside(alloc, view, query, row)?;
        counts.rows = counts.rows.saturating_add(rows);
        counts.groups = counts.groups.saturating_add(rows.min(1));
    }
    Ok(counts)
}

/// How many rows are linked to a row and kept beside it.
fn count_beside(
    alloc: Global,
    view: &View,
    query: &Query<Link>,
    around: &Row,
) -> Result<usize, AllocError>
    requires small { IsSmallRow around.now }
{
    if query.table >= view.catalog().len() || !is_bounded(&query.filter, &[]) {
        return Ok(0);
    }
    let rows = view.rows(query.table);
    let key = view.key_column(query.table);
    count_linked(alloc, rows, key, query, around)
}

/// The same, of these rows, whose keys are in the column at `key`.
fn count_linked(
    alloc: Global,
    rows: &Rows,
    key: usize,
    query: &Query<Link>,
    around: &Row,
) -> Result<usize, AllocError>
    requires bounded { IsTrue (is_bounded [] query.now.filter) }
    requires small { All IsSmallRow rows.now }
    requires around_small { IsSmallRow around.now }
{
    let slots = Slots::of_row(alloc, around)?;
    let linked = linked_rows(alloc, rows, key, query.grouping, around)?;
    Ok(count_kept(&linked, &query.filter, &slots))
}

/// The rows that are linked to a row. NULL is linked to none.
fn linked_rows<'a>(
    alloc: Global,
    rows: &'a Rows,
    key: usize,
    link: Link,
    around: &Row,
) -> Result<Vec<&'a Row>, AllocError>
    requires small { All IsSmallRow rows.now }
    ensures small { IfOk result (λ linked. All IsSmallRow (map (λ row. row.now) linked.items)) }
{
    match around.values().get(link.outer) {
        None | Some(Value::Null) => Ok(Vec::new(alloc)),
        Some(value) => rows.rows_with(alloc, key, link.inner, value),
    }
}

/// How many rows a filter keeps, with these slots.
fn count_kept(rows: &[&Row], filter: &Cond, slots: &Slots) -> usize
    requires bounded { IsTrue (is_bounded (kinds_of slots.now) filter.now) }
    requires small { All IsSmallRow (map (λ row. row.now) rows.now) }
{
    let mut count = 0usize;
    for row in rows {
        if keeps(filter, row, slots) {
            count = count.saturating_add(1);
        }
    }
    count
}
