//! What expressions give.

ghost use Rattle.std.specs.Prelude.{◌≡◌, ◌≤◌, ◌+◌, ◌*◌, ◌^◌, ◌+ℤ◌, ◌*ℤ◌, IsSome, IfSome};
ghost use Rattle.table.specs.Bounds.{bound_of, IsSmallRow};
ghost use Rattle.table.specs.Eval.{answer};
ghost use Rattle.table.specs.Values.{operation_value, negative_of};
ghost use Rattle.table.specs.Shown.{lent_value};
ghost use Rattle.table.specs.Slots.{kinds_of, magnitude, values_of};

use crate::exprs::Expr;
use crate::rows::Row;
use crate::slots::Slots;
use value::{Text, Value};

/// What an expression gives: a number may be larger than a column's, and a text is lent.
#[derive(Clone, Copy, Debug)]
pub enum LentValue<'a> {
    Null,
    Number(i128),
    Text(&'a Text),
}

/// What a bounded expression gives on a row. No step of it overflows.
pub fn evaluate<'a>(expr: &'a Expr, row: &'a Row, slots: &'a Slots) -> LentValue<'a>
    requires bounded { IsSome (bound_of (kinds_of slots.now) expr.now) }
    requires small_row { IsSmallRow row.now }
    ensures value { lent_value result ≡ answer row.now (values_of slots.now) expr.now }
    ensures small { IfSome (bound_of (kinds_of slots.now) expr.now) (λ b.
        (magnitude (lent_value result) ≤ b) × (b ≤ 2 ^ 126)) }
{
    match expr {
        Expr::Literal(value) => lend_value(value),
        Expr::Column(column) => match row.values().get(*column) {
            Some(value) => lend_value(value),
            None => LentValue::Null,
        },
        Expr::Slot(slot) => slots.get(*slot),
        Expr::Negation(part) => negative(evaluate(part.get(), row, slots)),
        Expr::Sum(parts) => {
            let mut total = LentValue::Number(0);
            for part in parts.as_slice() {
                total = sum(total, evaluate(part, row, slots));
            }
            total
        }
        Expr::Product(parts) => {
            let mut total = LentValue::Number(1);
            for part in parts.as_slice() {
                total = product(total, evaluate(part, row, slots));
            }
            total
        }
    }
}

/// A value as what an expression gives.
pub(crate) fn lend_value(value: &Value) -> LentValue<'_>
    ensures value { lent_value result ≡ value.now }
    ensures small { magnitude (lent_value result) ≤ 2 ^ 63 }
{
    match value {
        Value::Null => LentValue::Null,
        Value::Int(number) => LentValue::Number(*number as i128),
        Value::Text(text) => LentValue::Text(text),
    }
}

/// A sum that cannot pass the limit; NULL where a side is no number.
fn sum<'a>(left: LentValue<'a>, right: LentValue<'a>) -> LentValue<'a>
    requires { magnitude (lent_value left) + magnitude (lent_value right) ≤ 2 ^ 126 }
    ensures value { lent_value result
        ≡ operation_value (λ m n. m +ℤ n) (lent_value left.entry) (lent_value right.entry) }
    ensures small { magnitude (lent_value result)
        ≤ magnitude (lent_value left.entry) + magnitude (lent_value right.entry) }
{
    match (left, right) {
        (LentValue::Number(m), LentValue::Number(n)) => LentValue::Number(m + n),
        (LentValue::Null | LentValue::Text(_), _) | (_, LentValue::Null | LentValue::Text(_)) =>
            LentValue::Null,
    }
}

/// A product that cannot pass the limit; NULL where a side is no number.
fn product<'a>(left: LentValue<'a>, right: LentValue<'a>) -> LentValue<'a>
    requires { magnitude (lent_value left) * magnitude (lent_value right) ≤ 2 ^ 126 }
    ensures value { lent_value result
        ≡ operation_value (λ m n. m *ℤ n) (lent_value left.entry) (lent_value right.entry) }
    ensures small { magnitude (lent_value result)
        ≤ magnitude (lent_value left.entry) * magnitude (lent_value right.entry) }
{
    match (left, right) {
        (LentValue::Number(m), LentValue::Number(n)) => LentValue::Number(m * n),
        (LentValue::Null | LentValue::Text(_), _) | (_, LentValue::Null | LentValue::Text(_)) =>
            LentValue::Null,
    }
}

/// A number with its sign turned; NULL of what is no number.
fn negative<'a>(part: LentValue<'a>) -> LentValue<'a>
    requires { magnitude (lent_value part) ≤ 2 ^ 126 }
    ensures value { lent_value result ≡ negative_of (lent_value part.entry) }
    ensures small { magnitude (lent_value result) ≤ magnitude (lent_value part.entry) }
{
    match part {
        LentValue::Number(number) => LentValue::Number(-number),
        LentValue::Null | LentValue::Text(_) => LentValue::Null,
    }
}
