//! Rows that are looked up by a column that is not their key, as no table of a catalog asks.

ghost use Rattle.std.specs.Prelude.{◌≡◌, IfOk};
ghost use Rattle.table.specs.Rows.{value_in};
ghost use Rattle.value.specs.Ordered.{IsAscending};
ghost use Rattle.value.specs.ValueOrder.{value_cmp};
ghost use Rattle.value.specs.declared.values.Value.TheVariants.{Int};

use mvrows::Rows;
use std::alloc::{AllocError, Global};
use std::test::Fail;
use table::{Change, Row};
use value::Value;

/// The column of the name, and that of the key.
const NAME: usize = 0;

const KEY: usize = 1;

/// A row of a name and a key.
fn row(alloc: Global, name: Value, key: i64) -> Result<Row, AllocError>
    ensures { IfOk result (λ row. value_in 1 row ≡ Int key) }
{
    Row::new(vec![in alloc; name, Value::Int(key)]?)
}

/// The version after a row of this name and key is put in.
fn put(alloc: Global, version: Rows, name: Value, key: i64) -> Result<Rows, AllocError>
    requires { IsAscending value_cmp (value_in 1) version }
    ensures { IfOk result (λ rows. IsAscending value_cmp (value_in 1) rows) }
{
    let change = Change {
        table: 0,
        key: Value::Int(key),
        old: None,
        new: Some(row(alloc, name, key)?),
    };
    version.with(KEY, &change)
}

/// The names 7, NULL and 8 under the keys 2, 3 and 4.
fn three_rows(alloc: Global) -> Result<Rows, AllocError>
    ensures { IfOk result (λ rows. IsAscending value_cmp (value_in 1) rows) }
{
    let one = put(alloc, Rows::new(alloc), Value::Int(7), 2)?;
    let two = put(alloc, one, Value::Null, 3)?;
    put(alloc, two, Value::Int(8), 4)
}

/// The number in a column of a row.
fn number_in(row: &Row, column: usize) -> Option<i64> {
    match row.values().get(column) {
        Some(Value::Int(number)) => Some(*number),
        Some(Value::Null | Value::Text(_)) | None => None,
    }
}

/// The key of the row that has a name.
fn key_of(rows: &Rows, name: i64) -> Option<i64> {
    match rows.get(NAME, &Value::Int(name)) {
        Some(row) => number_in(row, KEY),
        None => None,
    }
}

#[test]
fn a_row_is_looked_through_for(rt: HostRuntime) -> Result<(), Fail> {
    let rows = three_rows(rt.alloc())?;
    assert!(rt; key_of(&rows, 8) == Some(4));
    assert!(rt; key_of(&rows, 9).is_none());
    Ok(())
}

/// The number that a list has alone.
fn only_number(values: &[Value]) -> Option<i64> {
    match values {
        [Value::Int(number)] => Some(*number),
        _ => None,
    }
}

/// The keys of the rows of a name, and the names of the rows of a key.
#[test]
fn keys_are_looked_through_for(rt: HostRuntime) -> Result<(), Fail> {
    let rows = three_rows(rt.alloc())?;
    let keys = rows.keys_with(rt.alloc(), KEY, NAME, &Value::Int(8))?;
    assert!(rt; only_number(&keys) == Some(4));
    let same = rows.with_index(NAME, KEY)?;
    let names = same.keys_with(rt.alloc(), NAME, KEY, &Value::Int(4))?;
    assert!(rt; only_number(&names) == Some(8));
    Ok(())
}
