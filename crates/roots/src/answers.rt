//! What the slots of a form's condition hold for a group, from the maintained totals.

ghost use Rattle.std.specs.Prelude.{◌≡◌, [], length, IfOk};
ghost use Rattle.value.specs.declared.values.Value.TheVariants.{Null};
ghost use Rattle.table.specs.declared.aggregates.Aggregate.{Aggregate};
ghost use Rattle.table.specs.Bounds.{IsSmallRow};
ghost use Rattle.table.specs.Kinds.{kind_of_aggregate};
ghost use Rattle.table.specs.Slots.{IsWithinKind, kind_of, kinds_of, value_of, values_of};
ghost use Rattle.assertion.specs.Bounded.{IsBounded, IsBoundedOver};
ghost use Rattle.groups.specs.Totals.{Members, AreTotalsOf};
ghost use Rattle.roots.specs.Answers.{kinds_in};
ghost use Rattle.roots.specs.Bad.{answers as answers_of, group_for_row, query_value};
ghost use Rattle.roots.specs.Maintained.{AreMaintained, AreTotalsFor, IsSmallState};
ghost use Rattle.roots.specs.Shown.{lent_query};
ghost use Rattle.roots.specs.Summaries.{queries_of};

use crate::around::total_beside;
use crate::grouped::{Grouping, Summary, link_to_key};
use crate::summaries::{slot_count, summary_of};
use assertion::Form;
use groups::Totals;
use mvrows::Rows;
use std::alloc::{AllocError, Global};
use table::{Row, Schema, SlotValue, Slots, value_or};
use value::Value;

/// What the slots hold for the row that the form's condition sees: one of its table, or one of a group's value alone,
/// or one of no value.
pub fn slots(
    alloc: Global,
    schemas: &[Schema],
    tables: &[Rows],
    form: &Form,
    totals: &[Totals],
    row: &Row,
) -> Result<Slots, AllocError>
    requires bounded { IsBounded form.now }
    requires small { IsSmallState tables.now }
    requires row_small { IsSmallRow row.now }
    requires totals { AreMaintained schemas.now tables.now form.now totals.now }
    ensures kinds { IfOk result (λ slots. kinds_of slots ≡ kinds_in (queries_of schemas.now form.now)) }
    ensures values { IfOk result (λ slots.
        values_of slots ≡ answers_of tables.now (queries_of schemas.now form.now) row.now) }
{
    let mut slots = Slots::new(alloc);
    for index in 0..slot_count(form) {
        let summary = summary_of(schemas, form, index);
        slots.push(answer(alloc, schemas, tables, summary, &totals[index], row)?)?;
    }
    Ok(slots)
}

/// What a query gives for the row that its condition sees.
fn answer(
    alloc: Global,
    schemas: &[Schema],
    tables: &[Rows],
    summary: Summary,
    totals: &Totals,
    row: &Row,
) -> Result<SlotValue, AllocError>
    requires bounded { IsBoundedOver [] summary.filter.now }
    requires small { IsSmallState tables.now }
    requires row_small { IsSmallRow row.now }
    requires totals { AreTotalsFor tables.now (lent_query summary) totals.now }
    ensures kind { IfOk result (λ answer. kind_of answer ≡ kind_of_aggregate summary.entry.aggregate) }
    ensures value { IfOk result (λ answer.
        value_of answer ≡ query_value tables.now row.now (lent_query summary.entry)) }
    ensures within { IfOk result IsWithinKind }
{
    match link_to_key(summary.grouping) {
        Some(link) => {
            let total = total_beside(alloc, schemas, tables, summary, link, row)?;
            total.answer(summary.aggregate)
        }
        None => {
            let null = Value::Null;
            let group = asked_group(summary.grouping, row, &null);
            totals.answer(group, summary.aggregate)
        }
    }
}

/// The group that a query is asked for by the row that its condition sees.
fn asked_group<'a>(grouping: Grouping, row: &'a Row, null: &'a Value) -> &'a Value
    requires { null.now ≡ Null }
    ensures { result.now ≡ group_for_row grouping row.now }
{
    match grouping {
        Grouping::Whole | Grouping::ByKey(_) => null,
        Grouping::By(_) => value_or(row, 0, null),
        Grouping::Linked(link) => value_or(row, link.outer, null),
        Grouping::PerRow(around) => value_or(row, around.key, null),
    }
}

/// How many rows a group has.
pub fn count_of(totals: &Totals, group: &Value) -> u64
    ensures { (group_for_row : Aggregate) (members : Members) → AreTotalsOf group_for_row members totals.now
        → result ≡ length (members group.now) }
{
    match totals.get(group) {
        Some(total) => total.rows(),
        None => 0,
    }
}
