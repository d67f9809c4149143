//! The set functions of an assertion, each with the rows that it is of at a root.

ghost use Rattle.std.specs.Prelude.{[], All, IsTrue};
ghost use Rattle.std.specs.Option.{option_copied};
ghost use Rattle.table.specs.Bounds.{IsSmallRow, is_bounded};
ghost use Rattle.value.specs.Ordered.{HoldsOf};

use crate::violations::Violation;
use assertion::{Form, Link, Query};
use delta::View;
use groups::Total;
use mvrows::Rows;
use siread::is_same;
use std::alloc::{AllocError, Global};
use table::{Aggregate, Cond, Row, Slots, is_bounded, keeps, passes};
use value::{Root, Value};

/// Which rows of a table go to a root.
#[derive(Clone, Copy)]
pub enum Share<'a> {
    All,
    /// Those that have a value in a column.
    With { column: usize, value: &'a Value },
    /// None: NULL is linked to nothing.
    None,
}

/// The row around a subquery: the one under a key of a table, if there is one.
#[derive(Clone, Copy)]
pub struct Around<'a> {
    table: usize,
    key: &'a Value,
}

impl<'a> Around<'a> {
    /// The row.
    fn row(self, view: &'a View) -> Option<&'a Row>
        ensures { HoldsOf IsSmallRow (option_copied result) }
    {
        if self.table < view.catalog().len() {
            view.rows(self.table)
                .get(view.key_column(self.table), self.key)
        } else {
            None
        }
    }
}

/// A set function of an assertion at a root: over the rows of a table that a condition keeps and that go to the root.
#[derive(Clone, Copy)]
pub struct Part<'a> {
    pub aggregate: Aggregate,
    pub table: usize,
    pub filter: &'a Cond,
    pub share: Share<'a>,
    /// The row that holds what stands in the slots of the condition.
    around: Option<Around<'a>>,
}

impl<'a> Part<'a> {
    /// The set function of a subquery, over these of its rows.
    fn of_query<G>(query: &'a Query<G>, share: Share<'a>, around: Option<Around<'a>>) -> Part<'a> {
        Part {
            aggregate: query.aggregate,
            table: query.table,
            filter: &query.filter,
            share,
            around,
        }
    }

    /// The row around, if there is one.
    pub fn row_around(self, view: &'a View) -> Option<&'a Row>
        ensures { HoldsOf IsSmallRow (option_copied result) }
    {
        self.around?.row(view)
    }
}

/// Lists the set functions of an assertion at its root, in the order of the slots of its condition.
pub fn push_parts<'a>(
    violation: Violation<'a>,
    parts: &mut Vec<Part<'a>>,
) -> Result<(), AllocError> {
    let (view, root) = (violation.view, violation.root);
    match violation.form {
        Form::ByRow { table, queries, .. } => {
            for query in queries.as_slice() {
                let share = linked_share(view, *table, query.grouping, root);
                parts.push(Part::of_query(query, share, around_of_root(*table, root)))?;
            }
        }
        Form::ByGroup {
            table,
            filter,
            group,
            aggregates,
            ..
        } => {
            for aggregate in aggregates.as_slice() {
                parts.push(Part {
                    aggregate: *aggregate,
                    table: *table,
                    filter,
                    share: group_share(*group, root),
                    around: None,
                })?;
            }
        }
        Form::Single { queries, .. } => {
            for query in queries.as_slice() {
                parts.push(Part::of_query(query, Share::All, None))?;
            }
        }
    }
    Ok(())
}

/// Where the row of a root stands.
fn around_of_root(table: usize, root: &Root) -> Option<Around<'_>> {
    match root {
        Root::Of(key) => Some(Around { table, key }),
        Root::All => None,
    }
}

/// The rows that are linked to the row of a root: by what stands there in the column of the link, or by the key itself
/// where no row stands.
fn linked_share<'a>(view: &'a View, table: usize, link: Link, root: &'a Root) -> Share<'a> {
    let Root::Of(key) = root else {
        return Share::All;
    };
    let column = link.inner;
    if link.outer == view.key_column(table) {
        return Share::With { column, value: key };
    }
    match view
        .row(table, key)
        .and_then(|row| row.values().get(link.outer))
    {
        Some(Value::Null) | None => Share::None,
        Some(value) => Share::With { column, value },
    }
}

/// The rows of a group.
fn group_share(column: usize, root: &Root) -> Share<'_> {
    match root {
        Root::Of(value) => Share::With { column, value },
        Root::All => Share::All,
    }
}

/// Lists the rows that an assertion looks at, at its root: of a group one part, however many set functions it has, else
/// one for each.
pub fn push_lists<'a>(
    violation: Violation<'a>,
    lists: &mut Vec<Part<'a>>,
) -> Result<(), AllocError> {
    let Form::ByGroup {
        table,
        filter,
        group,
        ..
    } = violation.form
    else {
        return push_parts(violation, lists);
    };
    lists.push(Part {
        aggregate: Aggregate::CountRows,
        table: *table,
        filter,
        share: group_share(*group, violation.root),
        around: None,
    })?;
    Ok(())
}

/// Lists the rows of a table that a condition keeps and that go to the root.
pub fn push_rows<'a>(
    alloc: Global,
    view: &'a View,
    part: Part<'_>,
    found: &mut Vec<&'a Row>,
) -> Result<(), AllocError> {
    if part.table >= view.catalog().len() || !is_bounded(part.filter, &[]) {
        return Ok(());
    }
    push_kept(
        alloc,
        view.rows(part.table),
        part,
        part.row_around(view),
        found,
    )
}

/// The same, of these rows, with the row around.
fn push_kept<'a>(
    alloc: Global,
    rows: &'a Rows,
    part: Part<'_>,
    around: Option<&Row>,
    found: &mut Vec<&'a Row>,
) -> Result<(), AllocError>
    requires bounded { IsTrue (is_bounded [] part.filter.now) }
    requires small { All IsSmallRow rows.now }
    requires around_small { HoldsOf IsSmallRow (option_copied around) }
{
    for row in rows.iter() {
        if is_among(row, part.share) && is_kept(alloc, part.filter, row, around)? {
            found.push(row)?;
        }
    }
    Ok(())
}

/// Whether a condition keeps a row, beside the one around it.
fn is_kept(
    alloc: Global,
    filter: &Cond,
    row: &Row,
    around: Option<&Row>,
) -> Result<bool, AllocError>
    requires bounded { IsTrue (is_bounded [] filter.now) }
    requires small { IsSmallRow row.now }
    requires around_small { HoldsOf IsSmallRow (option_copied around) }
{
    match around {
        Some(around) => {
            let slots = Slots::of_row(alloc, around)?;
            Ok(keeps(filter, row, &slots))
        }
        None => Ok(passes(alloc, filter, row)),
    }
}

/// Whether a row is one of those that go to a root.
fn is_among(row: &Row, share: Share<'_>) -> bool {
    match share {
        Share::All => true,
        Share::With { column, value } => match row.values().get(column) {
            Some(found) => is_same(found, value),
            None => false,
        },
        Share::None => false,
    }
}

/// Counts a row in with those that a set function is of so far.
pub fn count_in(total: &mut Total, aggregate: Aggregate, row: &Row) -> Result<(), AllocError> {
    let counted = match aggregate
        .column()
        .and_then(|column| row.values().get(column))
    {
        Some(value) => total.with(aggregate, value),
        None => total.with(aggregate, &Value::Null),
    };
    *total = counted?;
    Ok(())
}
