//! INSERT.

ghost use Rattle.std.specs.Prelude.{◌≡◌, ◌≢◌, ◌<◌, ◌==◌, length, IfOk, IfErr, Ok, Err, position};
ghost use Rattle.value.specs.declared.refusals.Refusal.TheVariants.{NoMemory};
ghost use Rattle.value.specs.Results.{each};
ghost use Rattle.assertcheck.specs.Statements.{given_to, insert_of, row_of, typed_row};

use crate::columns::{all_places, places_of};
use crate::conditions::target;
use sqlite_items::Items;
use std::alloc::{AllocError, Global};
use syntax::Insert;
use table::{Catalog, Column, Row, Schema};
use value::{Refusal, Text, Value};

/// An INSERT with its names found: rows of constants of the columns' types, NULL where a column isn't listed. Whether
/// NULL may stand there, whether it is in range and whether its key is free is not tested yet.
#[derive(Debug, Drop)]
pub struct NewRows {
    /// The table's place in the catalog.
    pub table: usize,
    /// In the order of the text, one at least.
    pub rows: Items<Row>,
}

/// `INSERT INTO table (columns) VALUES (constants), ..`.
///
/// # Errors
///
/// The first fault: [`Refusal::UnknownName`] of the table; of the listed columns from the left
/// [`Refusal::UnknownName`], and [`Refusal::NameTaken`] where one stands twice; and [`Refusal::TypeMismatch`] where
/// a row has more or fewer constants than there are columns, or one is not of its column's type. Or
/// [`Refusal::NoMemory`].
pub fn check_insert(alloc: Global, catalog: &Catalog, insert: &Insert) -> Result<NewRows, Refusal>
    ensures made { IfOk result (λ new. insert_of catalog.now insert.now ≡ Ok new) }
    ensures refused { IfErr result (λ refusal. refusal ≢ NoMemory → insert_of catalog.now insert.now ≡ Err refusal) }
    ensures within { IfOk result (λ new. new.table < length catalog.now) }
{
    let target = target(catalog, &insert.table)?;
    let schema = target.scope.schema;
    let places = match &insert.columns {
        Some(names) => places_of(alloc, schema, names.as_slice())?,
        None => all_places(alloc, schema.columns())?,
    };
    let rows = typed_rows(alloc, schema, places.as_slice(), insert.rows.as_slice())?;
    Ok(NewRows {
        table: target.table,
        rows: Items::from_vec(rows),
    })
}

/// All rows, if each has a constant of its type for each listed column.
#[tactic(auto, using(value::proofs::Results::behind_next, value::proofs::Results::behind_none))]
fn typed_rows(
    alloc: Global,
    schema: &Schema,
    places: &[usize],
    rows: &[Items<Value>],
) -> Result<Vec<Row>, Refusal>
    ensures made { IfOk result (λ typed. each (typed_row schema.now.columns places.now) rows.now ≡ Ok typed.items) }
    ensures refused { IfErr result (λ refusal.
        refusal ≢ NoMemory → each (typed_row schema.now.columns places.now) rows.now ≡ Err refusal) }
{
    let mut typed = Vec::with_capacity(alloc, rows.len())?;
    for values in rows {
        typed.push(typed_row(alloc, schema, places, values.as_slice())?)?;
    }
    Ok(typed)
}

/// The whole row, if there is a constant of its type for each listed column.
fn typed_row(
    alloc: Global,
    schema: &Schema,
    places: &[usize],
    values: &[Value],
) -> Result<Row, Refusal>
    ensures made { IfOk result (λ row. typed_row schema.now.columns places.now values.now ≡ Ok row) }
    ensures refused { IfErr result (λ refusal.
        refusal ≢ NoMemory → typed_row schema.now.columns places.now values.now ≡ Err refusal) }
{
    if values.len() != places.len() {
        return Err(Refusal::TypeMismatch);
    }
    let row = row_of(alloc, schema.columns(), places, values)?;
    if !schema.is_typed(&row) {
        return Err(Refusal::TypeMismatch);
    }
    Ok(row)
}

/// The row of what is given to each column.
fn row_of(
    alloc: Global,
    columns: &[Column],
    places: &[usize],
    values: &[Value],
) -> Result<Row, AllocError>
    ensures { IfOk result (λ row. row ≡ row_of columns.now places.now values.now) }
{
    // A table keeps it, so there is no room to spare.
    let mut row = Vec::with_capacity(alloc, columns.len())?;
    for _column in columns {
        let value = given_to(places, values, row.len())?;
        row.push(value)?;
    }
    Row::new(row)
}

/// What is given to a column: NULL where it isn't listed.
fn given_to(places: &[usize], values: &[Value], column: usize) -> Result<Value, AllocError>
    ensures { IfOk result (λ value. value ≡ given_to places.now values.now column) }
{
    match listed_at(places, column) {
        Some(place) => match values.get(place) {
            Some(value) => value.copy(),
            None => Ok(Value::Null),
        },
        None => Ok(Value::Null),
    }
}

/// Where a column stands among those that are listed.
fn listed_at(places: &[usize], column: usize) -> Option<usize>
    ensures { result ≡ position (λ place. place == column) places.now }
{
    places.iter().position(|place| *place == column)
}
