//! What an assignment gives to a column of a row.

ghost use Rattle.std.specs.Prelude.{◌≡◌, ◌≢◌, IfOk, IfErr, OnOk, Some, None};
ghost use Rattle.value.specs.declared.refusals.Refusal.TheVariants.{NoMemory};
ghost use Rattle.value.specs.declared.values.Value.TheVariants as values;
ghost use Rattle.table.specs.Bounds.{IsSmallRow};
ghost use Rattle.table.specs.Shown.{lent_value};
ghost use Rattle.assertcheck.specs.Updates.{IsBoundedSetting};
ghost use Rattle.alone.specs.Statements.{given_fault, given_value};

use assertcheck::Setting;
use std::alloc::Global;
use table::{Column, LARGEST, LentValue, Row, Slots, evaluate};
use value::{ColType, Excess, Refusal, Value};

/// What an assignment gives to its column, evaluated on the row as it was, or what is wrong with it there.
pub fn given_value(
    alloc: Global,
    column: &Column,
    setting: &Setting,
    old: &Row,
) -> Result<Value, Refusal>
    requires bounded { IsBoundedSetting setting.now }
    requires small { IsSmallRow old.now }
    ensures made { IfOk result (λ value. value ≡ given_value old.now setting.now.value) }
    ensures faultless { OnOk result (given_fault (Some column.now) (given_value old.now setting.now.value) ≡ None) }
    ensures refused { IfErr result (λ refusal. refusal ≢ NoMemory
        → given_fault (Some column.now) (given_value old.now setting.now.value) ≡ Some refusal) }
{
    match &setting.value {
        None => fitting_value(column, Value::Null),
        Some(expr) => {
            let slots = Slots::new(alloc);
            column_value(column, evaluate(expr, old, &slots))
        }
    }
}

/// What an expression gives as a value of a column, or what is wrong with it there. A number may be larger than any
/// that a value holds.
fn column_value(column: &Column, given: LentValue) -> Result<Value, Refusal>
    ensures made { IfOk result (λ value. value ≡ lent_value given.entry) }
    ensures faultless { OnOk result (given_fault (Some column.now) (lent_value given.entry) ≡ None) }
    ensures refused { IfErr result (λ refusal. refusal ≢ NoMemory
        → given_fault (Some column.now) (lent_value given.entry) ≡ Some refusal) }
{
    match given {
        LentValue::Null => fitting_value(column, Value::Null),
        LentValue::Text(text) => fitting_value(column, Value::Text(text.copy()?)),
        LentValue::Number(number) => admitted_number(column, number),
    }
}

/// A number of any size as a value of a column, or what is wrong with it there.
fn admitted_number(column: &Column, number: i128) -> Result<Value, Refusal>
    ensures made { IfOk result (λ value. value ≡ values.Int number) }
    ensures faultless { OnOk result (given_fault (Some column.now) (values.Int number) ≡ None) }
    ensures refused { IfErr result (λ refusal. refusal ≢ NoMemory
        → given_fault (Some column.now) (values.Int number) ≡ Some refusal) }
{
    if column.kind != ColType::Integer {
        return Err(Refusal::TypeMismatch);
    }
    if number.unsigned_abs() > LARGEST as u128 {
        return Err(Refusal::OutOfRange {
            column: column.name.copy()?,
            excess: Excess::Number,
        });
    }
    Ok(Value::Int(number as i64))
}

/// The value, if it may stand in the column.
fn fitting_value(column: &Column, value: Value) -> Result<Value, Refusal>
    ensures same { IfOk result (λ made. made ≡ value) }
    ensures faultless { OnOk result (given_fault (Some column.now) value ≡ None) }
    ensures refused { IfErr result (λ refusal. refusal ≢ NoMemory
        → given_fault (Some column.now) value ≡ Some refusal) }
{
    if !column.is_typed(&value) {
        return Err(Refusal::TypeMismatch);
    }
    match column.fault(&value)? {
        Some(fault) => Err(fault),
        None => Ok(value),
    }
}
