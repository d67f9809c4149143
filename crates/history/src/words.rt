//! Keys, rows and changes in words.

use delta::View;
use printout::Printout;
use siread::LockKey;
use table::{Change, Row};
use value::{Text, Value};

/// The name of a column of a table.
pub fn column_name(view: &View, table: usize, column: usize) -> Option<&Text> {
    let schema = view.catalog().at(table)?;
    match schema.columns().get(column) {
        Some(column) => Some(&column.name),
        None => None,
    }
}

/// Adds bytes as they are, with U+FFFD where they are no UTF-8.
pub fn add_bytes(bytes: &[u8], out: &mut Printout) {
    for chunk in bytes.utf8_chunks() {
        out.add(chunk.valid());
        if !chunk.invalid().is_empty() {
            out.add_character(char::REPLACEMENT_CHARACTER);
        }
    }
}

/// Adds the name of a table, by its place in the order of creation.
pub fn add_table(view: &View, table: usize, out: &mut Printout) {
    if let Some(name) = view.catalog().name(table) {
        out.show(name);
    }
}

/// Adds what a key means: a row, the rows with a value in a column, or all rows of a table.
pub fn add_key(view: &View, key: &LockKey, out: &mut Printout) {
    match key {
        LockKey::Row(place) => add_row_name(view, place.table, &place.key, out),
        LockKey::Column {
            table,
            column,
            value,
        } => {
            out.add("rows of ");
            add_table(view, *table, out);
            add_column(view, *table, *column, value, out);
        }
        LockKey::Table(table) => {
            out.add("all rows of ");
            add_table(view, *table, out);
        }
    }
}

/// Adds a row by its key.
fn add_row_name(view: &View, table: usize, key: &Value, out: &mut Printout) {
    out.add("row ");
    out.show(key);
    out.add(" of ");
    add_table(view, table, out);
}

/// Adds the value that rows have in a column.
fn add_column(view: &View, table: usize, column: usize, value: &Value, out: &mut Printout) {
    let Some(name) = column_name(view, table, column) else {
        return;
    };
    out.add(" with ");
    out.show(name);
    out.add(if matches!(value, Value::Null) {
        " "
    } else {
        " = "
    });
    out.show(value);
}

/// Adds the values of a row in parentheses.
pub fn add_row(row: &Row, out: &mut Printout) {
    out.show_list("(", row.values(), ", ");
    out.add(")");
}

/// Adds what a change did to its row.
pub fn add_change(view: &View, change: &Change, out: &mut Printout) {
    add_row_name(view, change.table, &change.key, out);
    match (&change.old, &change.new) {
        (Some(old), Some(new)) => {
            out.add(" from ");
            add_row(old, out);
            out.add(" to ");
            add_row(new, out);
        }
        (None, Some(new)) => {
            out.add(", put in as ");
            add_row(new, out);
        }
        (Some(old), None) => {
            out.add(", taken out as ");
            add_row(old, out);
        }
        (None, None) => {}
    }
}
