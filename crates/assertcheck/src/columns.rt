//! The columns that a statement names.

ghost use Rattle.std.specs.Prelude.{◌≡◌, ◌≢◌, ◌==◌, [], IfOk, IfErr, Ok, Err};
ghost use Rattle.std.specs.List.{list_any};
ghost use Rattle.value.specs.declared.refusals.Refusal.TheVariants.{NoMemory};
ghost use Rattle.assertcheck.specs.Statements.{named_column, new_place, places_from, places_of};

use std::alloc::{AllocError, Global};
use table::{Column, Schema};
use value::{Refusal, Text};

/// The places of all columns.
pub fn all_places(alloc: Global, columns: &[Column]) -> Result<Vec<usize>, AllocError>
    ensures { IfOk result (λ places. places.items ≡ places_from 0 columns.now) }
{
    let mut places = Vec::with_capacity(alloc, columns.len())?;
    for _column in columns {
        let place = places.len();
        places.push(place)?;
    }
    Ok(places)
}

/// The places of the columns of these names, none of them twice.
pub fn places_of(alloc: Global, schema: &Schema, names: &[Text]) -> Result<Vec<usize>, Refusal>
    ensures made { IfOk result (λ places. places_of schema.now.columns [] names.now ≡ Ok places.items) }
    ensures refused { IfErr result (λ refusal.
        refusal ≢ NoMemory → places_of schema.now.columns [] names.now ≡ Err refusal) }
{
    let mut places = Vec::new(alloc);
    for name in names {
        let place = new_place(schema, places.as_slice(), name)?;
        places.push(place)?;
    }
    Ok(places)
}

/// The place of the column of a name, if it isn't among those before it.
pub fn new_place(schema: &Schema, before: &[usize], name: &Text) -> Result<usize, Refusal>
    ensures made { IfOk result (λ place. new_place schema.now.columns before.now name.now ≡ Ok place) }
    ensures refused { IfErr result (λ refusal.
        refusal ≢ NoMemory → new_place schema.now.columns before.now name.now ≡ Err refusal) }
{
    let column = named_column(schema, name)?;
    if is_listed(before, column) {
        return Err(Refusal::NameTaken { name: name.copy()? });
    }
    Ok(column)
}

/// The place of the column of a name.
fn named_column(schema: &Schema, name: &Text) -> Result<usize, Refusal>
    ensures made { IfOk result (λ place. named_column schema.now.columns name.now ≡ Ok place) }
    ensures refused { IfErr result (λ refusal.
        refusal ≢ NoMemory → named_column schema.now.columns name.now ≡ Err refusal) }
{
    match schema.column(name) {
        Some(column) => Ok(column),
        None => Err(Refusal::UnknownName { name: name.copy()? }),
    }
}

fn is_listed(before: &[usize], column: usize) -> bool
    ensures { result ≡ list_any (λ place. place == column) before.now }
{
    before.iter().any(|place| *place == column)
}
