//! The truth of conditions.

ghost use Rattle.std.specs.Prelude.{◌≡◌, ◌↔◌, [], IsTrue};
ghost use Rattle.table.specs.Bounds.{is_bounded, IsSmallRow};
ghost use Rattle.table.specs.Eval.{truth, keeps as keeps_of};
ghost use Rattle.table.specs.Values.{comparison_truth as compared_of};
ghost use Rattle.table.specs.Shown.{lent_value};
ghost use Rattle.table.specs.Slots.{kinds_of, values_of};

use crate::conds::Cond;
use crate::evals::{LentValue, evaluate};
use crate::rows::Row;
use crate::slots::Slots;
use std::alloc::Global;
use std::cmp::Ordering;
use value::{Comparison, Truth};

/// Whether WHERE or HAVING keeps the row: where the condition is true, and neither where it is false nor where it is
/// unknown.
pub fn keeps(cond: &Cond, row: &Row, slots: &Slots) -> bool
    requires bounded { IsTrue (is_bounded (kinds_of slots.now) cond.now) }
    requires small_row { IsSmallRow row.now }
    ensures value { result ≡ keeps_of row.now (values_of slots.now) cond.now }
    ensures exact { IsTrue result ↔ (truth row.now (values_of slots.now) cond.now ≡ Truth.True) }
{
    eval(cond, row, slots).is(Truth::True)
}

/// Whether a WHERE keeps the row, where its slots, if it has any, hold nothing. It takes no memory.
pub fn passes(alloc: Global, cond: &Cond, row: &Row) -> bool
    requires bounded { IsTrue (is_bounded [] cond.now) }
    requires small { IsSmallRow row.now }
    ensures { result ≡ keeps_of row.now [] cond.now }
{
    keeps(cond, row, &Slots::new(alloc))
}

/// The truth of a bounded condition on a row. It takes no memory.
pub fn eval(cond: &Cond, row: &Row, slots: &Slots) -> Truth
    requires bounded { IsTrue (is_bounded (kinds_of slots.now) cond.now) }
    requires small_row { IsSmallRow row.now }
    ensures { result ≡ truth row.now (values_of slots.now) cond.now }
{
    match cond {
        Cond::Compare(comparison, left, right) => truth_of_comparison(
            *comparison,
            evaluate(left, row, slots),
            evaluate(right, row, slots),
        ),
        Cond::IsNull(part) => match evaluate(part, row, slots) {
            LentValue::Null => Truth::True,
            LentValue::Number(_) | LentValue::Text(_) => Truth::False,
        },
        Cond::Exists(slot) => {
            let some = truth_of_comparison(
                Comparison::Greater,
                slots.get(*slot),
                LentValue::Number(0),
            );
            Truth::from(some.is(Truth::True))
        }
        Cond::Is(part, wanted) => Truth::from(eval(part.get(), row, slots).is(*wanted)),
        Cond::Not(part) => eval(part.get(), row, slots).not(),
        Cond::And(parts) => {
            let mut all = Truth::True;
            for part in parts.as_slice() {
                all = all.and(eval(part, row, slots));
            }
            all
        }
        Cond::Or(parts) => {
            let mut any = Truth::False;
            for part in parts.as_slice() {
                any = any.or(eval(part, row, slots));
            }
            any
        }
    }
}

/// What a comparison says of two values: unknown where a side is NULL.
fn truth_of_comparison(comparison: Comparison, left: LentValue, right: LentValue) -> Truth
    ensures { result ≡ compared_of comparison (lent_value left.entry) (lent_value right.entry) }
{
    match (left, right) {
        (LentValue::Null, _) | (_, LentValue::Null) => Truth::Unknown,
        (LentValue::Number(m), LentValue::Number(n)) => Truth::from(comparison.holds(m.cmp(&n))),
        (LentValue::Number(_), LentValue::Text(_)) => Truth::from(comparison.holds(Ordering::Less)),
        (LentValue::Text(_), LentValue::Number(_)) => Truth::from(comparison.holds(
            Ordering::Greater,
        )),
        (LentValue::Text(s), LentValue::Text(t)) => Truth::from(comparison.holds(s.cmp(t))),
    }
}
