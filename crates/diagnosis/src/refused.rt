//! Which of the definitions is the first that is refused.
//!
//! What is taken in is not kept up to the fault, so it is asked for again. A schema has few tables and assertions and
//! may have a great many rows, and those mostly stand last: the rows behind the last table and assertion are looked at
//! one by one, and only what stands before is taken in time and again.

use crate::answers::{answer_of, refusal_in};
use crate::inserts::insert_refusal;
use assertcheck::check_insert;
use definitions::Definitions;
use delta::View;
use std::alloc::{AllocError, Global};
use syntax::Definition;
use table::{Catalog, Row, Schema};
use value::{Refusal, Text, Value};

/// The place of the first definition that is refused, and what those before it define: all tables and assertions, if
/// not every row.
pub fn first_refused(
    alloc: Global,
    definitions: &[Definition],
    refusal: &Refusal,
) -> Result<(usize, View), AllocError> {
    let front = &definitions[..front_of(definitions).min(definitions.len())];
    match view_of(alloc, front)? {
        Some(view) => {
            let place = first_row(alloc, view.catalog(), definitions, refusal);
            both(place, view)
        }
        None => first_in_front(alloc, front),
    }
}

/// The same where it is one of these, and not a row behind them.
fn first_in_front(alloc: Global, front: &[Definition]) -> Result<(usize, View), AllocError> {
    let place = by_halving(alloc, front)?;
    match view_of(alloc, &front[..place.min(front.len())])? {
        Some(view) => Ok((place, view)),
        None => Err(AllocError),
    }
}

/// A place, if it was found, and what belongs to it.
fn both<T: Drop>(place: Result<usize, AllocError>, before: T) -> Result<(usize, T), AllocError> {
    Ok((place?, before))
}

/// How many definitions stand before the rows that stand last.
fn front_of(definitions: &[Definition]) -> usize {
    let mut front = 0usize;
    for (place, definition) in definitions.iter().enumerate() {
        if !matches!(definition, Definition::Insert(_)) {
            front = place.saturating_add(1);
        }
    }
    front
}

/// What definitions define, if they are taken in.
fn view_of(alloc: Global, definitions: &[Definition]) -> Result<Option<View>, AllocError> {
    match answer_of(Definitions::take(alloc, definitions))? {
        Some(taken) => Ok(Some(taken.load(alloc)?)),
        None => Ok(None),
    }
}

/// The place of the first definition that is refused, among some of which one is. Those before it are taken in, and
/// with it they are not.
fn by_halving(alloc: Global, definitions: &[Definition]) -> Result<usize, AllocError> {
    let mut taken = 0usize;
    let mut refused = definitions.len();
    // (a length has at most 64 bits, and each step halves what is left)
    for _ in 0..64 {
        if taken >= refused {
            break;
        }
        let middle = taken.saturating_add((refused - taken) / 2);
        if are_taken(alloc, definitions, middle.saturating_add(1))? {
            taken = middle.saturating_add(1);
        } else {
            refused = middle;
        }
    }
    Ok(taken)
}

/// Whether the first so many definitions are taken in.
fn are_taken(alloc: Global, definitions: &[Definition], count: usize) -> Result<bool, AllocError> {
    let first = &definitions[..count.min(definitions.len())];
    Ok(refusal_in(Definitions::take(alloc, first))?.is_none())
}

/// The place of the first INSERT that is refused so, over these tables.
fn first_row(
    alloc: Global,
    catalog: &Catalog,
    definitions: &[Definition],
    refusal: &Refusal,
) -> Result<usize, AllocError> {
    match refusal {
        Refusal::DuplicateKey { table, key } => second_row(alloc, catalog, definitions, table, key),
        _ => first_bad_row(alloc, catalog, definitions),
    }
}

/// The place of the first INSERT that is refused whatever the rows are.
fn first_bad_row(
    alloc: Global,
    catalog: &Catalog,
    definitions: &[Definition],
) -> Result<usize, AllocError> {
    for (place, definition) in definitions.iter().enumerate() {
        if let Definition::Insert(insert) = definition {
            if insert_refusal(alloc, catalog, insert)?.is_some() {
                return Ok(place);
            }
        }
    }
    Ok(definitions.len())
}

/// The place of the INSERT that puts the second row under this key of this table.
fn second_row(
    alloc: Global,
    catalog: &Catalog,
    definitions: &[Definition],
    table: &Text,
    key: &Value,
) -> Result<usize, AllocError> {
    let mut rows = 0usize;
    for (place, definition) in definitions.iter().enumerate() {
        rows = rows.saturating_add(rows_under(alloc, catalog, definition, table, key)?);
        if rows > 1 {
            return Ok(place);
        }
    }
    Ok(definitions.len())
}

/// Whether definitions put a row under the key that is refused as taken.
pub fn put_taken_key(
    alloc: Global,
    catalog: &Catalog,
    definitions: &[Definition],
    refusal: &Refusal,
) -> Result<bool, AllocError> {
    if let Refusal::DuplicateKey { table, key } = refusal {
        for definition in definitions {
            if rows_under(alloc, catalog, definition, table, key)? > 0 {
                return Ok(true);
            }
        }
    }
    Ok(false)
}

/// How many rows a definition puts under this key of this table.
fn rows_under(
    alloc: Global,
    catalog: &Catalog,
    definition: &Definition,
    table: &Text,
    key: &Value,
) -> Result<usize, AllocError> {
    let (Definition::Insert(insert), Some(schema)) = (definition, catalog.get(table)) else {
        return Ok(0);
    };
    if insert.table != *table {
        return Ok(0);
    }
    match answer_of(check_insert(alloc, catalog, insert))? {
        Some(new) => Ok(count_under(new.rows.as_slice(), schema, key)),
        None => Ok(0),
    }
}

/// How many of some rows of a table have this key.
fn count_under(rows: &[Row], schema: &Schema, key: &Value) -> usize {
    let mut count = 0usize;
    for row in rows {
        if row.values().get(schema.key()) == Some(key) {
            count = count.saturating_add(1);
        }
    }
    count
}
