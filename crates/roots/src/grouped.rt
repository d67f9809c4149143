//! The rows of a table in groups.

ghost use Rattle.std.specs.Prelude.{◌≡◌, [], Some, IfOk};
ghost use Rattle.value.specs.Ordered.{HoldsOf};
ghost use Rattle.table.specs.Bounds.{IsSmallRow};
ghost use Rattle.assertion.specs.Bounded.{IsBoundedOver};
ghost use Rattle.groups.specs.Members.{member_of};
ghost use Rattle.groups.specs.Answers.{value_for};
ghost use Rattle.roots.specs.Shown.{lent_query};
ghost use Rattle.roots.specs.Summaries.{around_of, group_of, key_link, place as place_of};

use assertion::Link;
use groups::Member;
use std::alloc::{AllocError, Global};
use table::{Aggregate, Cond, Row, passes, value_at};
use value::Value;

/// How rows go into groups.
#[derive(Clone, Copy, Debug)]
pub enum Grouping {
    /// All are one group.
    Whole,
    /// By a column, where NULL is a group like another.
    By(usize),
    /// By a linked column, where NULL is no group.
    Linked(Link),
    /// The filter asks what the row around holds, and the link names one row by its key: that row is looked up for each
    /// row around, and nothing is maintained.
    ByKey(Link),
    /// The filter asks what the row around holds: each row around is a group, of the rows that are linked to it and
    /// that the filter keeps beside it.
    PerRow(Around),
}

/// The rows around a query: those of a table, each under what its key column holds.
#[derive(Clone, Copy, Debug)]
pub struct Around {
    pub table: usize,
    pub key: usize,
    pub link: Link,
}

/// A query of groups, lent from a form: for each group, totals of what its set function looks at are maintained.
#[derive(Clone, Copy, Debug)]
pub struct Summary<'a> {
    pub table: usize,
    pub filter: &'a Cond,
    pub grouping: Grouping,
    pub aggregate: Aggregate,
}

/// What a row, if there is one, is to its group, if it goes to one.
pub fn member(
    alloc: Global,
    summary: Summary,
    row: &Option<Row>,
) -> Result<Option<Member>, AllocError>
    requires bounded { IsBoundedOver [] summary.filter.now }
    requires small { HoldsOf IsSmallRow row.now }
    ensures { IfOk result (λ member. member
        ≡ member_of (place_of (lent_query summary.entry)) (value_for summary.entry.aggregate) row.now) }
{
    match row {
        None => Ok(None),
        Some(row) => member_of_row(alloc, summary, row),
    }
}

/// What a row is to its group, if it goes to one.
pub fn member_of_row(
    alloc: Global,
    summary: Summary,
    row: &Row,
) -> Result<Option<Member>, AllocError>
    requires bounded { IsBoundedOver [] summary.filter.now }
    requires small { IsSmallRow row.now }
    ensures { IfOk result (λ member. member
        ≡ member_of (place_of (lent_query summary.entry)) (value_for summary.entry.aggregate) (Some row.now)) }
{
    match place(alloc, summary, row)? {
        None => Ok(None),
        Some(group) => Ok(Some(Member {
            group,
            value: counted_by(row, summary.aggregate)?,
        })),
    }
}

/// What a set function looks at in a row: what its column holds, or NULL where it has none.
pub fn counted_by(row: &Row, aggregate: Aggregate) -> Result<Value, AllocError>
    ensures { IfOk result (λ value. value ≡ value_for aggregate row.now) }
{
    match aggregate {
        Aggregate::CountRows => Ok(Value::Null),
        Aggregate::Count(column)
        | Aggregate::CountDistinct(column)
        | Aggregate::Sum(column)
        | Aggregate::SumDistinct(column)
        | Aggregate::Min(column)
        | Aggregate::Max(column) => value_at(row, column),
    }
}

/// The group to which a row goes by itself, if WHERE keeps it.
fn place(alloc: Global, summary: Summary, row: &Row) -> Result<Option<Value>, AllocError>
    requires bounded { IsBoundedOver [] summary.filter.now }
    requires small { IsSmallRow row.now }
    ensures { IfOk result (λ placed. placed ≡ place_of (lent_query summary.entry) row.now) }
{
    if !passes(alloc, summary.filter, row) {
        return Ok(None);
    }
    group(summary.grouping, row)
}

/// The rows around, where each of them is a group.
pub fn rows_around(grouping: Grouping) -> Option<Around>
    ensures { result ≡ around_of grouping }
{
    match grouping {
        Grouping::PerRow(around) => Some(around),
        Grouping::Whole | Grouping::By(_) | Grouping::Linked(_) | Grouping::ByKey(_) => None,
    }
}

/// The link by which the one row of a query is looked up.
pub fn link_to_key(grouping: Grouping) -> Option<Link>
    ensures { result ≡ key_link grouping }
{
    match grouping {
        Grouping::ByKey(link) => Some(link),
        Grouping::Whole | Grouping::By(_) | Grouping::Linked(_) | Grouping::PerRow(_) => None,
    }
}

/// The group of a row that WHERE keeps; none where the filter asks what the row around holds.
fn group(grouping: Grouping, row: &Row) -> Result<Option<Value>, AllocError>
    ensures { IfOk result (λ group. group ≡ group_of grouping row.now) }
{
    match grouping {
        Grouping::Whole => Ok(Some(Value::Null)),
        Grouping::By(column) => Ok(Some(value_at(row, column)?)),
        Grouping::Linked(link) => match value_at(row, link.inner)? {
            Value::Null => Ok(None),
            Value::Int(number) => Ok(Some(Value::Int(number))),
            Value::Text(text) => Ok(Some(Value::Text(text))),
        },
        Grouping::ByKey(_) | Grouping::PerRow(_) => Ok(None),
    }
}
