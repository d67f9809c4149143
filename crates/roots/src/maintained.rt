//! The maintained totals of a form, of tables and after a change.

ghost use Rattle.std.specs.Prelude.{◌≡◌, ◌<◌, ◌^◌, ◌++◌, ◌∷◌, [], All, List, length, IfOk, OnOk, IsTrue};
ghost use Rattle.value.specs.Ordered.{HoldsOf};
ghost use Rattle.table.specs.Rows.{Layout, RowValues};
ghost use Rattle.table.specs.Bounds.{IsSmallRow};
ghost use Rattle.assertion.specs.Bounded.{IsBounded, IsBoundedOver};
ghost use Rattle.assertion.specs.Meaning.{State, rows_of};
ghost use Rattle.assertion.specs.Changes.{IsChangeOf, IsOrdered, state_after};
ghost use Rattle.groups.specs.Totals.{AreTotalsOf, AreWithin};
ghost use Rattle.roots.specs.Maintained.{AreMaintained, AreTotalsFor, IsKeyed, IsSmallState, IsStepOf};
ghost use Rattle.roots.specs.Shown.{lent_query};
ghost use Rattle.roots.specs.Summaries.{around_of, row_members, summaries_of};
ghost use Rattle.roots.specs.Turned.{AreAllAround, turned_by, turned_roots};

use crate::around::{around_after, totals_around};
use crate::grouped::{Summary, member, member_of_row, rows_around};
use crate::summaries::{summary_count, summary_of};
use assertion::Form;
use groups::Totals;
use mvrows::Rows;
use std::alloc::{AllocError, Global};
use table::{Change, Row, Schema};
use value::Root;

/// The totals to keep for a form on these tables. Each is made in one pass over the rows of its table; where the rows
/// around are its groups, in one over those, for each of which the rows that are linked to it are looked at.
pub fn totals_of(
    alloc: Global,
    schemas: &[Schema],
    form: &Form,
    tables: &[Rows],
) -> Result<Vec<Totals>, AllocError>
    requires bounded { IsBounded form.now }
    requires small { IsSmallState tables.now }
    requires in_order { IsOrdered schemas.now tables.now }
    ensures { IfOk result (λ totals. AreMaintained schemas.now tables.now form.now totals.items) }
{
    let count = summary_count(form);
    let mut made = Vec::with_capacity(alloc, count)?;
    for index in 0..count {
        let summary = summary_of(schemas, form, index);
        made.push(total_of(alloc, schemas, summary, tables)?)?;
    }
    Ok(made)
}

/// The totals of one summary.
fn total_of(
    alloc: Global,
    schemas: &[Schema],
    summary: Summary,
    tables: &[Rows],
) -> Result<Totals, AllocError>
    requires bounded { IsBoundedOver [] summary.filter.now }
    requires small { IsSmallState tables.now }
    requires in_order { IsOrdered schemas.now tables.now }
    requires keyed { IsKeyed schemas.now (lent_query summary) }
    ensures { IfOk result (AreTotalsFor tables.now (lent_query summary.entry)) }
{
    match rows_around(summary.grouping) {
        Some(around) => totals_around(alloc, schemas, tables, summary, around),
        None => total_of_table(alloc, summary, tables),
    }
}

/// The totals of one summary, to whose groups rows go by themselves.
fn total_of_table(alloc: Global, summary: Summary, tables: &[Rows]) -> Result<Totals, AllocError>
    requires bounded { IsBoundedOver [] summary.filter.now }
    requires small { IsSmallState tables.now }
    ensures { IfOk result (AreTotalsOf summary.entry.aggregate
        (row_members (lent_query summary.entry) (rows_of summary.entry.table tables.now))) }
{
    match tables.get(summary.table) {
        Some(rows) => total_of_rows(alloc, summary, rows),
        None => Ok(Totals::new(alloc)),
    }
}

/// The totals of one summary over these rows.
fn total_of_rows(alloc: Global, summary: Summary, rows: &Rows) -> Result<Totals, AllocError>
    requires bounded { IsBoundedOver [] summary.filter.now }
    requires small { All IsSmallRow rows.now }
    requires short { length rows.now < 2 ^ 63 }
    ensures { IfOk result
        (AreTotalsOf summary.entry.aggregate (row_members (lent_query summary.entry) rows.now)) }
{
    let mut made = Totals::new(alloc);
    for row in rows.iter() {
        made = total_with(alloc, summary, made, row)?;
    }
    Ok(made)
}

/// The totals of one summary with one row more.
fn total_with(
    alloc: Global,
    summary: Summary,
    totals: Totals,
    row: &Row,
) -> Result<Totals, AllocError>
    requires bounded { IsBoundedOver [] summary.filter.now }
    requires small { IsSmallRow row.now }
    ensures { IfOk result (λ made. (rows : List RowValues)
        → AreWithin (row_members (lent_query summary.entry) (rows ++ row.now ∷ []))
        → AreTotalsOf summary.entry.aggregate (row_members (lent_query summary.entry) rows) totals
        → AreTotalsOf summary.entry.aggregate (row_members (lent_query summary.entry) (rows ++ row.now ∷ [])) made) }
{
    let add = member_of_row(alloc, summary, row)?;
    totals.with(summary.aggregate, &add, &None)
}

/// The totals to keep after a change: those of the tables after it, where the old ones are those of the tables before.
/// The roots of rows around whose totals turn with it are put behind the `turned` ones.
pub fn totals_after(
    alloc: Global,
    schemas: &[Schema],
    before: &[Rows],
    after: &[Rows],
    form: &Form,
    totals: &[Totals],
    change: &Change,
    turned: &mut Vec<Root>,
) -> Result<Vec<Totals>, AllocError>
    requires bounded { IsBounded form.now }
    requires step { IsStepOf schemas.now change.now before.now after.now }
    requires totals { AreMaintained schemas.now before.now form.now totals.now }
    ensures totals { IfOk result (λ made. AreMaintained schemas.now after.now form.now made.items) }
    ensures turned { OnOk result (turned.new.items
        ≡ turned.old.items ++ turned_roots after.now change.now (summaries_of schemas.now form.now)) }
{
    let count = summary_count(form);
    let mut made = Vec::with_capacity(alloc, count)?;
    for index in 0..count {
        let summary = summary_of(schemas, form, index);
        let old = &totals[index];
        made.push(total_after(alloc, schemas, before, after, summary, old, change, turned)?)?;
    }
    Ok(made)
}

/// The totals of one summary after a change.
fn total_after(
    alloc: Global,
    schemas: &[Schema],
    before: &[Rows],
    after: &[Rows],
    summary: Summary,
    totals: &Totals,
    change: &Change,
    turned: &mut Vec<Root>,
) -> Result<Totals, AllocError>
    requires bounded { IsBoundedOver [] summary.filter.now }
    requires step { IsStepOf schemas.now change.now before.now after.now }
    requires keyed { IsKeyed schemas.now (lent_query summary) }
    requires totals { AreTotalsFor before.now (lent_query summary) totals.now }
    ensures totals { IfOk result (AreTotalsFor after.now (lent_query summary.entry)) }
    ensures turned { OnOk result (turned.new.items ≡ turned.old.items
        ++ turned_by after.now change.now (lent_query summary.entry) (around_of summary.entry.grouping)) }
{
    match rows_around(summary.grouping) {
        Some(around) => around_after(
            alloc, schemas, before, after, summary, around, totals, change, turned,
        ),
        None => total_with_change(alloc, summary, totals, change),
    }
}

/// The totals of one summary, to whose groups rows go by themselves, after a change.
fn total_with_change(
    alloc: Global,
    summary: Summary,
    totals: &Totals,
    change: &Change,
) -> Result<Totals, AllocError>
    requires bounded { IsBoundedOver [] summary.filter.now }
    requires old_small { HoldsOf IsSmallRow change.now.old }
    requires new_small { HoldsOf IsSmallRow change.now.new }
    ensures { IfOk result (λ made. (layouts : List Layout) (state : State)
        → IsChangeOf layouts change.now state → IsSmallState (state_after layouts change.now state)
        → AreTotalsOf summary.entry.aggregate
        (row_members (lent_query summary.entry) (rows_of summary.entry.table state))
        totals.now
        → AreTotalsOf summary.entry.aggregate (row_members (lent_query summary.entry)
        (rows_of summary.entry.table (state_after layouts change.now state))) made) }
{
    let same = totals.copy()?;
    if summary.table != change.table {
        return Ok(same);
    }
    let remove = member(alloc, summary, &change.old)?;
    let add = member(alloc, summary, &change.new)?;
    same.with(summary.aggregate, &add, &remove)
}

/// Whether each row around is a group, in all summaries of a form.
pub fn are_all_around(schemas: &[Schema], form: &Form) -> bool
    ensures { IsTrue result → AreAllAround (summaries_of schemas.now form.now) }
{
    for index in 0..summary_count(form) {
        match rows_around(summary_of(schemas, form, index).grouping) {
            Some(_) => {}
            None => return false,
        }
    }
    true
}
