//! What stands at a place: a row's value in a column, and the schema, the name and the key column of a table.

ghost use Rattle.std.specs.Prelude.{◌≡◌, ◌<◌, [], length, slice_index_or, IfOk};
ghost use Rattle.table.specs.Rows.{key_of, layout_at, layouts_of, names_of, value_in};
ghost use Rattle.value.specs.declared.values.Value.TheVariants.{Null};

use crate::catalogs::Catalog;
use crate::rows::Row;
use crate::schemas::Schema;
use std::alloc::AllocError;
use value::{Text, Value};

/// A copy of a row's value in a column; NULL past its end.
pub fn value_at(row: &Row, column: usize) -> Result<Value, AllocError>
    ensures { IfOk result (λ value. value ≡ value_in column row.now) }
{
    match row.values().get(column) {
        Some(value) => value.copy(),
        None => Ok(Value::Null),
    }
}

/// What a row has in a column, and NULL where it has no such column.
pub fn value_or<'a>(row: &'a Row, column: usize, null: &'a Value) -> &'a Value
    requires { null.now ≡ Null }
    ensures { result.now ≡ value_in column row.now }
{
    match row.values().get(column) {
        Some(value) => value,
        None => null,
    }
}

/// The schema of the table at a place of the catalog, where there is one.
pub fn schema_at(catalog: &Catalog, table: usize) -> &Schema
    requires { table < length catalog.now }
    ensures { result.now ≡ layout_at table (layouts_of catalog.now) }
{
    match catalog.at(table) {
        Some(schema) => schema,
        None => unreachable!(),
    }
}

/// The name of the table at a place of the catalog, where there is one.
pub fn name_at(catalog: &Catalog, table: usize) -> &Text
    requires { table < length catalog.now }
    ensures { result.now ≡ slice_index_or (names_of catalog.now) table [] }
{
    match catalog.name(table) {
        Some(name) => name,
        None => unreachable!(),
    }
}

/// The place of a table's key column; 0 where there is no such table. It takes no memory.
pub fn key_column(schemas: &[Schema], table: usize) -> usize
    ensures { result ≡ key_of table schemas.now }
{
    match schemas.get(table) {
        Some(schema) => schema.key(),
        None => 0,
    }
}
