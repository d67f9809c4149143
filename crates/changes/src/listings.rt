//! What a SELECT lists.

ghost use Rattle.std.specs.Prelude.{◌≡◌, ◌<◌, ◌^◌, [], All, IfOk, IsSome, IsTrue, Some, length, map};
ghost use Rattle.value.specs.Ordered.{IsAscending};
ghost use Rattle.value.specs.ValueOrder.{value_cmp};
ghost use Rattle.table.specs.Aggregates.{aggregate as aggregate_of};
ghost use Rattle.table.specs.Bounds.{IsSmallRow, bound_of, is_bounded};
ghost use Rattle.table.specs.Eval.{answer};
ghost use Rattle.table.specs.Kinds.{kind_of_aggregate};
ghost use Rattle.table.specs.Rows.{value_in};
ghost use Rattle.table.specs.Slots.{IsWithinKind, kind_of, kinds_of, value_of, values_of};
ghost use Rattle.assertion.specs.Meaning.{filtered_rows};
ghost use Rattle.groups.specs.Answers.{value_for};
ghost use Rattle.assertcheck.specs.Groupings.{IsBoundedGrouping, IsBoundedSummary, is_bounded_having};
ghost use Rattle.assertcheck.specs.Selects.{IsBoundedListing};
ghost use Rattle.alone.specs.Results.{value_of as result_value};
ghost use Rattle.alone.specs.Statements.{first_row, is_kept, listed_rows, summary_value};
ghost use Rattle.assertcheck.specs.declared.selects.Listing.TheVariants as listings;

use crate::extremes::extreme;
use crate::filtered::filtered_rows;
use crate::filters::TableFilter;
use crate::groupings::groups_of;
use alone::{ResultRow, ResultValue};
use assertcheck::{Grouping, Listing};
use form_check::{GroupCondition, Summary};
use groups::Total;
use mvrows::Rows;
use std::alloc::{AllocError, Global};
use table::{Aggregate, Expr, Row, SlotValue, Slots, evaluate, keeps, value_at};
use value::Value;

/// What a SELECT lists of the rows that its WHERE keeps: of each row, in key order, or of each group that its HAVING
/// keeps, in the order of their values. `rows` are those that stand in the WHERE's table now.
pub fn listed_rows(
    alloc: Global,
    rows: &Rows,
    listing: &Listing,
    filter: &TableFilter<'_>,
) -> Result<Vec<ResultRow>, AllocError>
    requires bounded_listing { IsBoundedListing listing.now }
    requires bounded { IsTrue (is_bounded [] filter.now.condition) }
    requires small { All IsSmallRow rows.now }
    requires ordered { IsAscending value_cmp (value_in filter.now.key) rows.now }
    ensures { IfOk result (λ made. made.items
        ≡ listed_rows listing.now (filtered_rows filter.now.condition rows.now)) }
{
    match listing {
        Listing::EachRow(values) => each_row(alloc, rows, values.as_slice(), filter),
        Listing::EachGroup(grouping) => each_group(alloc, rows, grouping, filter),
    }
}

/// What these expressions give of each row.
fn each_row(
    alloc: Global,
    rows: &Rows,
    values: &[Expr],
    filter: &TableFilter<'_>,
) -> Result<Vec<ResultRow>, AllocError>
    requires bounded_values { IsBoundedListing (listings.EachRow values.now) }
    requires bounded { IsTrue (is_bounded [] filter.now.condition) }
    requires small { All IsSmallRow rows.now }
    requires ordered { IsAscending value_cmp (value_in filter.now.key) rows.now }
    ensures { IfOk result (λ made. made.items
        ≡ listed_rows (listings.EachRow values.now) (filtered_rows filter.now.condition rows.now)) }
{
    let slots = Slots::new(alloc);
    let mut made = Vec::new(alloc);
    for row in filtered_rows(alloc, rows, filter) {
        made.push(values_of_row(alloc, values, row, &slots)?)?;
    }
    Ok(made)
}

/// What these expressions give of a row.
fn values_of_row(
    alloc: Global,
    values: &[Expr],
    row: &Row,
    slots: &Slots,
) -> Result<ResultRow, AllocError>
    requires bounded { All (λ value. IsSome (bound_of (kinds_of slots.now) value)) values.now }
    requires small { IsSmallRow row.now }
    ensures { IfOk result (λ made. made ≡ map (answer row.now (values_of slots.now)) values.now) }
{
    let mut made = Vec::with_capacity(alloc, values.len())?;
    for value in values {
        made.push(ResultValue::of(evaluate(value, row, slots))?)?;
    }
    Ok(ResultRow::new(made))
}

/// What is listed of each group that HAVING keeps.
fn each_group(
    alloc: Global,
    rows: &Rows,
    grouping: &Grouping,
    filter: &TableFilter<'_>,
) -> Result<Vec<ResultRow>, AllocError>
    requires bounded_grouping { IsBoundedGrouping grouping.now }
    requires bounded { IsTrue (is_bounded [] filter.now.condition) }
    requires small { All IsSmallRow rows.now }
    requires ordered { IsAscending value_cmp (value_in filter.now.key) rows.now }
    ensures { IfOk result (λ made. made.items
        ≡ listed_rows (listings.EachGroup grouping.now) (filtered_rows filter.now.condition rows.now)) }
{
    let kept = kept_rows(alloc, rows, filter)?;
    let groups = groups_of(alloc, grouping.columns.as_slice(), kept)?;
    let mut made = Vec::new(alloc);
    for group in groups.as_slice() {
        if is_kept(alloc, &grouping.having, group)? {
            made.push(summary_row(alloc, grouping.values.as_slice(), group)?)?;
        }
    }
    Ok(made)
}

/// The rows that the WHERE keeps.
fn kept_rows<'a>(
    alloc: Global,
    rows: &'a Rows,
    filter: &TableFilter<'a>,
) -> Result<Vec<&'a Row>, AllocError>
    requires bounded { IsTrue (is_bounded [] filter.now.condition) }
    requires small { All IsSmallRow rows.now }
    requires ordered { IsAscending value_cmp (value_in filter.now.key) rows.now }
    ensures rows { IfOk result (λ kept. map (λ row. row.now) kept.items
        ≡ filtered_rows filter.now.condition rows.now) }
    ensures small { IfOk result (λ kept. All IsSmallRow (map (λ row. row.now) kept.items)) }
    ensures short { IfOk result (λ kept. length (map (λ row. row.now) kept.items) < 2 ^ 63) }
{
    // (its contract says that they are fewer than 2^63, and so are those that are kept)
    let _most = rows.len();
    let mut kept = Vec::new(alloc);
    for row in filtered_rows(alloc, rows, filter) {
        kept.push(row)?;
    }
    Ok(kept)
}

/// Whether HAVING keeps a group of rows.
fn is_kept(
    alloc: Global,
    having: &Option<GroupCondition>,
    rows: &[&Row],
) -> Result<bool, AllocError>
    requires bounded { IsTrue (is_bounded_having having.now) }
    requires small { All IsSmallRow (map (λ row. row.now) rows.now) }
    requires short { length (map (λ row. row.now) rows.now) < 2 ^ 63 }
    ensures { IfOk result (λ kept. kept ≡ is_kept having.now (map (λ row. row.now) rows.now)) }
{
    match having {
        Some(having) => holds(alloc, having, rows),
        None => Ok(true),
    }
}

/// Whether a condition over groups is true of one.
fn holds(alloc: Global, having: &GroupCondition, rows: &[&Row]) -> Result<bool, AllocError>
    requires bounded { IsTrue (is_bounded_having (Some having.now)) }
    requires small { All IsSmallRow (map (λ row. row.now) rows.now) }
    requires short { length (map (λ row. row.now) rows.now) < 2 ^ 63 }
    ensures { IfOk result (λ kept. kept ≡ is_kept (Some having.now) (map (λ row. row.now) rows.now)) }
{
    let first = first_row(alloc, rows)?;
    let slots = set_functions(alloc, having.aggregates.as_slice(), rows)?;
    Ok(keeps(&having.condition, &first, &slots))
}

/// What each of these expressions gives of a group of rows.
fn summary_row(alloc: Global, summaries: &[Summary], rows: &[&Row]) -> Result<ResultRow, AllocError>
    requires bounded { All IsBoundedSummary summaries.now }
    requires small { All IsSmallRow (map (λ row. row.now) rows.now) }
    requires short { length (map (λ row. row.now) rows.now) < 2 ^ 63 }
    ensures { IfOk result (λ made. made ≡ map (summary_value (map (λ row. row.now) rows.now)) summaries.now) }
{
    let first = first_row(alloc, rows)?;
    let mut made = Vec::with_capacity(alloc, summaries.len())?;
    for summary in summaries {
        made.push(value_of_summary(alloc, summary, rows, &first)?)?;
    }
    Ok(ResultRow::new(made))
}

/// What an expression gives of a group of rows, the first of which is at hand.
fn value_of_summary(
    alloc: Global,
    summary: &Summary,
    rows: &[&Row],
    first: &Row,
) -> Result<ResultValue, AllocError>
    requires bounded { IsBoundedSummary summary.now }
    requires small { All IsSmallRow (map (λ row. row.now) rows.now) }
    requires short { length (map (λ row. row.now) rows.now) < 2 ^ 63 }
    requires first { first.now ≡ first_row (map (λ row. row.now) rows.now) }
    ensures { IfOk result (λ made.
        result_value made ≡ summary_value (map (λ row. row.now) rows.now) summary.now) }
{
    let slots = set_functions(alloc, summary.aggregates.as_slice(), rows)?;
    ResultValue::of(evaluate(&summary.value, first, &slots))
}

/// The first of some rows, and one without values where there is none: no column is looked at then.
fn first_row(alloc: Global, rows: &[&Row]) -> Result<Row, AllocError>
    ensures { IfOk result (λ row. row ≡ first_row (map (λ row. row.now) rows.now)) }
{
    match rows.first() {
        Some(row) => row.copy(),
        None => Row::new(Vec::new(alloc)),
    }
}

/// What these set functions give of some rows.
fn set_functions(
    alloc: Global,
    aggregates: &[Aggregate],
    rows: &[&Row],
) -> Result<Slots, AllocError>
    requires small { All IsSmallRow (map (λ row. row.now) rows.now) }
    requires short { length (map (λ row. row.now) rows.now) < 2 ^ 63 }
    ensures values { IfOk result (λ slots. values_of slots
        ≡ map (λ a. aggregate_of a (map (λ row. row.now) rows.now)) aggregates.now) }
    ensures kinds { IfOk result (λ slots. kinds_of slots ≡ map kind_of_aggregate aggregates.now) }
{
    let mut slots = Slots::new(alloc);
    for aggregate in aggregates {
        slots.push(set_function(alloc, *aggregate, rows)?)?;
    }
    Ok(slots)
}

/// What a set function gives of some rows.
fn set_function(alloc: Global, aggregate: Aggregate, rows: &[&Row]) -> Result<SlotValue, AllocError>
    requires small { All IsSmallRow (map (λ row. row.now) rows.now) }
    requires short { length (map (λ row. row.now) rows.now) < 2 ^ 63 }
    ensures value { IfOk result (λ made. value_of made ≡ aggregate_of aggregate (map (λ row. row.now) rows.now)) }
    ensures kind { IfOk result (λ made. kind_of made ≡ kind_of_aggregate aggregate) }
    ensures within { IfOk result (λ made. IsWithinKind made) }
{
    match aggregate {
        // (these need no total: that of the rules keeps how often each value stands, for rows that go)
        Aggregate::CountRows => Ok(SlotValue::Count(rows.len() as u64)),
        Aggregate::Min(column) => Ok(SlotValue::Extreme(extreme(rows, column, false)?)),
        Aggregate::Max(column) => Ok(SlotValue::Extreme(extreme(rows, column, true)?)),
        Aggregate::Count(_)
        | Aggregate::CountDistinct(_)
        | Aggregate::Sum(_)
        | Aggregate::SumDistinct(_) => by_total(alloc, aggregate, rows),
    }
}

/// What a set function gives by the total of some rows.
fn by_total(alloc: Global, aggregate: Aggregate, rows: &[&Row]) -> Result<SlotValue, AllocError>
    requires small { All IsSmallRow (map (λ row. row.now) rows.now) }
    requires short { length (map (λ row. row.now) rows.now) < 2 ^ 63 }
    ensures value { IfOk result (λ made. value_of made ≡ aggregate_of aggregate (map (λ row. row.now) rows.now)) }
    ensures kind { IfOk result (λ made. kind_of made ≡ kind_of_aggregate aggregate) }
    ensures within { IfOk result (λ made. IsWithinKind made) }
{
    let mut total = Total::new(alloc);
    for row in rows {
        let value = value_for(row, aggregate)?;
        total = total.with(aggregate, &value)?;
    }
    total.answer(aggregate)
}

/// The value of a row that a set function looks at; COUNT(*) looks at none.
fn value_for(row: &Row, aggregate: Aggregate) -> Result<Value, AllocError>
    ensures { IfOk result (λ value. value ≡ value_for aggregate row.now) }
{
    match aggregate.column() {
        Some(column) => value_at(row, column),
        None => Ok(Value::Null),
    }
}
