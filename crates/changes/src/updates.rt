//! Rows that get other values.

ghost use Rattle.std.specs.Prelude.{◌≡◌, ◌≢◌, ◌<◌, false, [], All, List, length, IfOk, IfErr, IsTrue, OnOk, Ok, Err, Some, None, slice_get, slice_set};
ghost use Rattle.value.specs.declared.refusals.Refusal.TheVariants.{NoMemory};
ghost use Rattle.value.specs.Ordered.{HoldsOf};
ghost use Rattle.table.specs.Rows.{FitsColumns, IsTable, Layout, key_of};
ghost use Rattle.table.specs.Bounds.{IsSmallRow, is_bounded};
ghost use Rattle.assertion.specs.Meaning.{State, filtered_rows, rows_of};
ghost use Rattle.assertcheck.specs.Updates.{IsBoundedSetting};
ghost use Rattle.alone.specs.declared.answers.Reply.TheVariants.{Updated};
ghost use Rattle.alone.specs.States.{AreDue, IsState};
ghost use Rattle.alone.specs.Statements.{columns_of, given_fault, given_value, renewal, sets_key, settings_fault, update_effect, row_after_settings};
ghost use Rattle.delta.specs.Views.{IsFitting};

use crate::filtered::filtered_rows;
use crate::filters::TableFilter;
use crate::settings::given_value;
use assertcheck::Setting;
use mvrows::Rows;
use std::alloc::{AllocError, Global};
use table::{Change, Column, Row, value_at};
use value::{Refusal, Value};

/// The changes of an UPDATE: that each row which its WHERE keeps gets what is assigned, in key order. Each value is
/// evaluated on the row as it was. `columns` are those of the WHERE's table, and `rows` stand in it now.
///
/// # Errors
///
/// The first fault, by rows in key order and then by assignments as they are written: [`Refusal::TypeMismatch`],
/// [`Refusal::NullNotAllowed`] or [`Refusal::OutOfRange`] of the column. Or [`Refusal::NoMemory`].
pub fn renewals(
    alloc: Global,
    columns: &[Column],
    rows: &Rows,
    sets: &[Setting],
    filter: &TableFilter<'_>,
) -> Result<Vec<Change>, Refusal>
    requires bounded { All IsBoundedSetting sets.now }
    requires bounded_condition { IsTrue (is_bounded [] filter.now.condition) }
    requires table { IsTable (record { columns = columns.now; key = filter.now.key }) rows.now }
    ensures made { IfOk result (λ made.
        update_effect columns.now filter.now.table filter.now.key sets.now
        (filtered_rows filter.now.condition rows.now)
        ≡ Ok (record { reply = Updated (length made.items); changes = made.items })) }
    ensures refused { IfErr result (λ refusal. refusal ≢ NoMemory
        → update_effect columns.now filter.now.table filter.now.key sets.now
        (filtered_rows filter.now.condition rows.now)
        ≡ Err refusal) }
    ensures due { IfOk result (λ made. (layouts : List Layout) (state : State) → IsState layouts state
        → key_of filter.now.table layouts ≡ filter.now.key → rows_of filter.now.table state ≡ rows.now
        → sets_key filter.now.key sets.now ≡ false → AreDue layouts made.items state) }
    ensures fit { IfOk result (λ made. All (λ change. HoldsOf (FitsColumns columns.now) change.new) made.items) }
    ensures fitting { IfOk result (λ made. (layouts : List Layout) → columns_of filter.now.table layouts ≡ columns.now
        → All (IsFitting layouts) made.items) }
{
    let mut made = Vec::new(alloc);
    for row in filtered_rows(alloc, rows, filter) {
        made.push(renewal(alloc, columns, sets, filter, row)?)?;
    }
    Ok(made)
}

/// That a row of the WHERE's table gets what is assigned, or the first fault of that.
fn renewal(
    alloc: Global,
    columns: &[Column],
    sets: &[Setting],
    filter: &TableFilter<'_>,
    row: &Row,
) -> Result<Change, Refusal>
    requires bounded { All IsBoundedSetting sets.now }
    requires fits { FitsColumns columns.now row.now }
    ensures made { IfOk result (λ change. change ≡ renewal filter.now.table filter.now.key sets.now row.now) }
    ensures faultless { OnOk result (settings_fault columns.now sets.now row.now ≡ None) }
    ensures refused { IfErr result (λ refusal. refusal ≢ NoMemory
        → settings_fault columns.now sets.now row.now ≡ Some refusal) }
    ensures fits { OnOk result (FitsColumns columns.now (row_after_settings sets.now row.now row.now)) }
{
    let new = row_after_settings(alloc, columns, sets, row)?;
    Ok(Change {
        table: filter.table(),
        key: value_at(row, filter.key_column())?,
        old: Some(row.copy()?),
        new: Some(new),
    })
}

/// The row with what is assigned, or the first fault of that.
fn row_after_settings(
    alloc: Global,
    columns: &[Column],
    sets: &[Setting],
    row: &Row,
) -> Result<Row, Refusal>
    requires bounded { All IsBoundedSetting sets.now }
    requires fits { FitsColumns columns.now row.now }
    ensures made { IfOk result (λ new. new ≡ row_after_settings sets.now row.now row.now) }
    ensures faultless { OnOk result (settings_fault columns.now sets.now row.now ≡ None) }
    ensures refused { IfErr result (λ refusal. refusal ≢ NoMemory
        → settings_fault columns.now sets.now row.now ≡ Some refusal) }
    ensures fits { IfOk result (FitsColumns columns.now) }
{
    let mut values = values_of(alloc, row)?;
    for setting in sets {
        values = with_setting(alloc, columns, setting, row, values)?;
    }
    Ok(Row::new(values)?)
}

/// The values with what one assignment gives to its column, or the fault of that.
fn with_setting(
    alloc: Global,
    columns: &[Column],
    setting: &Setting,
    old: &Row,
    values: Vec<Value>,
) -> Result<Vec<Value>, Refusal>
    requires bounded { IsBoundedSetting setting.now }
    requires small { IsSmallRow old.now }
    requires fits { FitsColumns columns.now values.items }
    ensures made { IfOk result (λ made. made.items
        ≡ slice_set values.items setting.now.column (given_value old.now setting.now.value)) }
    ensures faultless { OnOk result (given_fault (slice_get columns.now setting.now.column)
        (given_value old.now setting.now.value) ≡ None) }
    ensures refused { IfErr result (λ refusal. refusal ≢ NoMemory
        → given_fault (slice_get columns.now setting.now.column) (given_value old.now setting.now.value)
        ≡ Some refusal) }
    ensures fits { IfOk result (λ made. FitsColumns columns.now made.items) }
{
    match columns.get(setting.column) {
        Some(column) => {
            let value = given_value(alloc, column, setting, old)?;
            Ok(with_value(values, setting.column, value))
        }
        None => Ok(values),
    }
}

/// The values with another one in a column.
fn with_value(values: Vec<Value>, column: usize, value: Value) -> Vec<Value>
    requires { column < length values.items }
    ensures { result.items ≡ slice_set values.items column value }
{
    let mut made = values;
    made[column] = value;
    made
}

/// The values of a row.
fn values_of(alloc: Global, row: &Row) -> Result<Vec<Value>, AllocError>
    ensures { IfOk result (λ values. values.items ≡ row.now) }
{
    let mut values = Vec::with_capacity(alloc, row.len())?;
    for value in row.values() {
        values.push(value.copy()?)?;
    }
    Ok(values)
}
