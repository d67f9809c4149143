//! The least value of some rows, and the greatest.

ghost use Rattle.std.specs.Prelude.{◌≡◌, IfOk, map, unwrap_or};
ghost use Rattle.std.specs.Ordering.{is_lt};
ghost use Rattle.value.specs.Ordered.{least};
ghost use Rattle.value.specs.declared.values.Value.TheVariants.{Null};
ghost use Rattle.table.specs.Aggregates.{values_in};
ghost use Rattle.changes.specs.Extremes.{further_of, toward};

use std::alloc::AllocError;
use table::{Row, value_at};
use value::{Value, order};

/// The least value of some rows in a column, or the greatest. NULLs are left out, and of no value it is NULL.
pub fn extreme(rows: &[&Row], column: usize, is_greatest: bool) -> Result<Value, AllocError>
    ensures { IfOk result (λ value. value
        ≡ unwrap_or (least (toward is_greatest) (values_in column (map (λ row. row.now) rows.now))) Null) }
{
    let mut extreme = Value::Null;
    let mut from = rows.len();
    while from > 0 {
        from -= 1;
        let value = value_at(rows[from], column)?;
        extreme = further(value, extreme, is_greatest);
    }
    Ok(extreme)
}

/// A value, or that of the rows behind it, whichever is further towards the end that is looked for.
fn further(value: Value, behind: Value, is_greatest: bool) -> Value
    ensures { result ≡ further_of (toward is_greatest) value behind }
{
    if matches!(value, Value::Null) {
        return behind;
    }
    if matches!(behind, Value::Null) || !comes_first(&behind, &value, is_greatest) {
        return value;
    }
    behind
}

/// Whether a value comes before another, from the end that is looked for.
fn comes_first(value: &Value, other: &Value, is_greatest: bool) -> bool
    ensures { result ≡ is_lt (toward is_greatest value.now other.now) }
{
    if is_greatest {
        order(other, value).is_lt()
    } else {
        order(value, other).is_lt()
    }
}
