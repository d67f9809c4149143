//! CREATE TABLE.

ghost use Rattle.std.specs.Prelude.{◌≡◌, ◌≢◌, ◌<◌, [], length, position, IfOk, IfErr, IfSome, OnOk, Ok, Err, Some, None};
ghost use Rattle.std.specs.List.{flat_map};
ghost use Rattle.std.specs.Str.{bytes_eq};
ghost use Rattle.value.specs.declared.refusals.Refusal.TheVariants.{NoMemory};
ghost use Rattle.definitions.specs.Tables.{defined_column, defined_columns, is_named, layout_from, only_key, repeated_name, unknown_name};

use sqlite_items::Items;
use std::alloc::{AllocError, Global};
use syntax::ColumnDefinition;
use table::{Column, Schema};
use value::{Refusal, Text};

/// The schema of the columns and keys that CREATE TABLE defines.
///
/// # Errors
///
/// [`Refusal::NameTaken`] with the first name that stands before it; then [`Refusal::UnknownName`] with the first name
/// in a PRIMARY KEY that no column has; then [`Refusal::OutsideClass`] unless there is one PRIMARY KEY, and it is of
/// one column. Or [`Refusal::NoMemory`].
pub fn schema_of(
    alloc: Global,
    columns: &[ColumnDefinition],
    keys: &[Items<Text>],
) -> Result<Schema, Refusal>
    ensures defined { IfOk result (λ schema. layout_from columns.now keys.now ≡ Ok schema) }
    ensures refused { IfErr result (λ refusal. refusal ≢ NoMemory → layout_from columns.now keys.now ≡ Err refusal) }
{
    refuse_repeated_name(columns)?;
    refuse_unknown_names(columns, keys)?;
    let Some(key) = only_key(columns, keys) else {
        return Err(Refusal::OutsideClass);
    };
    Ok(Schema::new(schema_columns(alloc, columns, key)?, key))
}

/// The place of the key, if there is one key, of one column.
fn only_key(columns: &[ColumnDefinition], keys: &[Items<Text>]) -> Option<usize>
    ensures key { result ≡ only_key columns.now keys.now }
    ensures within { IfSome result (λ key. key < length columns.now) }
{
    let [names] = keys else {
        return None;
    };
    let [name] = names.as_slice() else {
        return None;
    };
    place_of(columns, name)
}

/// The place of the first column of this name.
fn place_of(columns: &[ColumnDefinition], name: &Text) -> Option<usize>
    ensures place { result ≡ position (λ column. bytes_eq column.name name.now) columns.now }
    ensures within { IfSome result (λ place. place < length columns.now) }
{
    columns.iter().position(|column| column.name == *name)
}

/// Refuses the first of the names in some keys that no column has.
fn refuse_unknown_names(columns: &[ColumnDefinition], keys: &[Items<Text>]) -> Result<(), Refusal>
    ensures none { OnOk result (unknown_name columns.now (flat_map (λ names. names) keys.now) ≡ None) }
    ensures refused { IfErr result (λ refusal. refusal ≢ NoMemory
        → unknown_name columns.now (flat_map (λ names. names) keys.now) ≡ Some refusal) }
{
    for names in keys {
        refuse_unknown_name(columns, names.as_slice())?;
    }
    Ok(())
}

/// Refuses the first of some names that no column has.
fn refuse_unknown_name(columns: &[ColumnDefinition], names: &[Text]) -> Result<(), Refusal>
    ensures none { OnOk result (unknown_name columns.now names.now ≡ None) }
    ensures refused { IfErr result (λ refusal. refusal ≢ NoMemory
        → unknown_name columns.now names.now ≡ Some refusal) }
{
    for name in names {
        if !has_name(columns, name) {
            return Err(Refusal::UnknownName { name: name.copy()? });
        }
    }
    Ok(())
}

/// Refuses the first column whose name stands before it.
fn refuse_repeated_name(columns: &[ColumnDefinition]) -> Result<(), Refusal>
    ensures none { IfOk result (λ _. repeated_name [] columns.now ≡ None) }
    ensures refused { IfErr result (λ refusal. refusal ≢ NoMemory → repeated_name [] columns.now ≡ Some refusal) }
{
    for i in 0..columns.len() {
        if has_name(&columns[..i], &columns[i].name) {
            return Err(Refusal::NameTaken {
                name: columns[i].name.copy()?,
            });
        }
    }
    Ok(())
}

fn has_name(columns: &[ColumnDefinition], name: &Text) -> bool
    ensures { result ≡ is_named name.now columns.now }
{
    columns.iter().any(|column| column.name == *name)
}

fn schema_columns(
    alloc: Global,
    columns: &[ColumnDefinition],
    key: usize,
) -> Result<Vec<Column>, AllocError>
    ensures { IfOk result (λ made. made.items ≡ defined_columns columns.now key) }
{
    let mut made = Vec::new(alloc);
    for (place, column) in columns.iter().enumerate() {
        made.push(schema_column(column, place == key)?)?;
    }
    Ok(made)
}

fn schema_column(column: &ColumnDefinition, is_key: bool) -> Result<Column, AllocError>
    ensures { IfOk result (λ made. made ≡ defined_column is_key column.now) }
{
    Ok(Column {
        name: column.name.copy()?,
        kind: column.kind,
        nullable: !(column.not_null || is_key),
    })
}
