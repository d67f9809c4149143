//! Whether an assertion is false at a root, from the maintained totals and from rows that are looked up by their keys.

ghost use Rattle.std.specs.Prelude.{◌≡◌, ◌<◌, ◌≤◌, ◌^◌, ◌∷◌, [], length, slice_index_or, IfOk};
ghost use Rattle.std.specs.Option.{option_copied};
ghost use Rattle.value.specs.Ordered.{HoldsOf};
ghost use Rattle.value.specs.Truths.{is_of};
ghost use Rattle.value.specs.declared.truths.Truth.TheVariants.{False};
ghost use Rattle.table.specs.Bounds.{IsSmallRow};
ghost use Rattle.table.specs.Slots.{magnitude};
ghost use Rattle.assertion.specs.Bounded.{IsBounded, IsBoundedOver};
ghost use Rattle.assertion.specs.declared.queries.Query.{Query};
ghost use Rattle.assertion.specs.Meaning.{truth_of_roots, verdict_of};
ghost use Rattle.assertion.specs.Roots.{AreBad, is_bad_root};
ghost use Rattle.assertion.specs.Changes.{IsOrdered};
ghost use Rattle.roots.specs.Answers.{kinds_in};
ghost use Rattle.roots.specs.declared.grouped.Grouping.{Grouping};
ghost use Rattle.roots.specs.Bad.{IsRowOf, group_passes as group_passes_by, row_passes as row_passes_by, whole_truth};
ghost use Rattle.roots.specs.Maintained.{AreMaintained, IsSmallRoot, IsSmallState};
ghost use Rattle.roots.specs.Summaries.{queries_of, summaries_of};

use crate::answers::{count_of, slots};
use crate::lists::BadRoots;
use assertion::Form;
use groups::Totals;
use mvrows::Rows;
use std::alloc::{AllocError, Global};
use table::{Cond, Row, Schema, eval, keeps};
use value::{Root, Truth, Value};

/// Whether an assertion is false at a root. By rows, `row` is the row under the root's key in the root table, if
/// there is one; by groups and for a single condition it isn't looked at.
pub fn is_bad(
    alloc: Global,
    schemas: &[Schema],
    tables: &[Rows],
    form: &Form,
    row: Option<&Row>,
    totals: &[Totals],
    root: &Root,
) -> Result<bool, AllocError>
    requires bounded { IsBounded form.now }
    requires small { IsSmallState tables.now }
    requires totals { AreMaintained schemas.now tables.now form.now totals.now }
    requires row_small { HoldsOf IsSmallRow (option_copied row) }
    requires root_small { IsSmallRoot form.now root.now }
    ensures { IfOk result (λ bad. IsRowOf schemas.now form.now tables.now root.now (option_copied row.entry)
        → bad ≡ is_bad_root schemas.now form.now tables.now root.now) }
{
    match (form, root) {
        (Form::ByRow { condition, .. }, Root::Of(_)) => {
            row_passes(alloc, schemas, tables, form, totals, condition, row)
        }
        (Form::ByGroup { having, .. }, Root::Of(group)) => {
            group_passes(alloc, schemas, tables, form, totals, having, group)
        }
        (Form::Single { condition, .. }, Root::All) => whole_is_false(
            alloc, schemas, tables, form, totals, condition,
        ),
        (Form::ByRow { .. } | Form::ByGroup { .. }, Root::All)
        | (Form::Single { .. }, Root::Of(_)) => Ok(false),
    }
}

/// The truth of an assertion. By rows and by groups it is whether there is a bad root, and `bad` are the bad roots;
/// of a single condition it is the condition's, which can be unknown, and `bad` isn't looked at.
pub fn truth_of(
    alloc: Global,
    schemas: &[Schema],
    tables: &[Rows],
    form: &Form,
    totals: &[Totals],
    bad: &BadRoots,
) -> Result<Truth, AllocError>
    requires bounded { IsBounded form.now }
    requires small { IsSmallState tables.now }
    requires totals { AreMaintained schemas.now tables.now form.now totals.now }
    ensures { IfOk result (λ truth. IsOrdered schemas.now tables.now
        → AreBad schemas.now form.now tables.now bad.now → truth ≡ verdict_of schemas.now form.now tables.now) }
{
    match form {
        Form::Single { condition, .. } => truth_of_whole(
            alloc, schemas, tables, form, totals, condition,
        ),
        Form::ByRow { .. } | Form::ByGroup { .. } => Ok(truth_by_roots(bad)),
    }
}

/// Whether there is no bad root.
fn truth_by_roots(bad: &BadRoots) -> Truth
    ensures { result ≡ truth_of_roots bad.now }
{
    match bad.first() {
        None => Truth::True,
        Some(_) => Truth::False,
    }
}

/// Whether the condition is true of a row, if there is one.
fn row_passes(
    alloc: Global,
    schemas: &[Schema],
    tables: &[Rows],
    form: &Form,
    totals: &[Totals],
    condition: &Cond,
    row: Option<&Row>,
) -> Result<bool, AllocError>
    requires form_bounded { IsBounded form.now }
    requires bounded { IsBoundedOver (kinds_in (queries_of schemas.now form.now)) condition.now }
    requires small { IsSmallState tables.now }
    requires totals { AreMaintained schemas.now tables.now form.now totals.now }
    requires row_small { HoldsOf IsSmallRow (option_copied row) }
    ensures { IfOk result (λ bad.
        bad ≡ row_passes_by tables.now (queries_of schemas.now form.now) condition.now (option_copied row.entry)) }
{
    match row {
        Some(row) => Ok(keeps(
            condition,
            row,
            &slots(alloc, schemas, tables, form, totals, row)?,
        )),
        None => Ok(false),
    }
}

/// Whether a group has a row and HAVING is true of it.
fn group_passes(
    alloc: Global,
    schemas: &[Schema],
    tables: &[Rows],
    form: &Form,
    totals: &[Totals],
    having: &Cond,
    group: &Value,
) -> Result<bool, AllocError>
    requires form_bounded { IsBounded form.now }
    requires bounded { IsBoundedOver (kinds_in (queries_of schemas.now form.now)) having.now }
    requires small { IsSmallState tables.now }
    requires totals { AreMaintained schemas.now tables.now form.now totals.now }
    requires some { 0 < length (summaries_of schemas.now form.now) }
    requires group_small { magnitude group.now ≤ 10 ^ 15 }
    ensures { IfOk result (λ bad. (summary : Query Grouping)
        → bad ≡ group_passes_by tables.now (slice_index_or (summaries_of schemas.now form.now) 0 summary)
        (queries_of schemas.now form.now) having.now group.now) }
{
    if count_of(&totals[0], group) == 0 {
        return Ok(false);
    }
    let row = row_with(alloc, group)?;
    let slots = slots(alloc, schemas, tables, form, totals, &row)?;
    Ok(keeps(having, &row, &slots))
}

/// A row of one value.
fn row_with(alloc: Global, value: &Value) -> Result<Row, AllocError>
    ensures { IfOk result (λ row. row ≡ value.now ∷ []) }
{
    let mut values = Vec::new(alloc);
    values.push(value.copy()?)?;
    Row::new(values)
}

/// Whether a condition that sees no row is false.
fn whole_is_false(
    alloc: Global,
    schemas: &[Schema],
    tables: &[Rows],
    form: &Form,
    totals: &[Totals],
    condition: &Cond,
) -> Result<bool, AllocError>
    requires form_bounded { IsBounded form.now }
    requires bounded { IsBoundedOver (kinds_in (queries_of schemas.now form.now)) condition.now }
    requires small { IsSmallState tables.now }
    requires totals { AreMaintained schemas.now tables.now form.now totals.now }
    ensures { IfOk result (λ bad.
        bad ≡ is_of (whole_truth tables.now (queries_of schemas.now form.now) condition.now) False) }
{
    let truth = truth_of_whole(alloc, schemas, tables, form, totals, condition)?;
    Ok(truth.is(Truth::False))
}

/// The truth of a condition that sees no row.
fn truth_of_whole(
    alloc: Global,
    schemas: &[Schema],
    tables: &[Rows],
    form: &Form,
    totals: &[Totals],
    condition: &Cond,
) -> Result<Truth, AllocError>
    requires form_bounded { IsBounded form.now }
    requires bounded { IsBoundedOver (kinds_in (queries_of schemas.now form.now)) condition.now }
    requires small { IsSmallState tables.now }
    requires totals { AreMaintained schemas.now tables.now form.now totals.now }
    ensures { IfOk result (λ truth.
        truth ≡ whole_truth tables.now (queries_of schemas.now form.now) condition.now) }
{
    let row = Row::new(Vec::new(alloc))?;
    let slots = slots(alloc, schemas, tables, form, totals, &row)?;
    Ok(eval(condition, &row, &slots))
}
