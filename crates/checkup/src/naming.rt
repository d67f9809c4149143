//! The names of tables, columns and set functions, as SQL writes them.

use printout::opening_of;
use std::alloc::AllocError;
use std::str;
use table::{Aggregate, Catalog};
use value::Text;

/// The name of a table.
pub fn table_name<'a>(catalog: &'a Catalog, table: usize) -> &'a str {
    match catalog.name(table) {
        Some(name) => name_text(name),
        None => "?",
    }
}

/// A name as text: its bytes are letters, digits and underscores.
pub fn name_text<'a>(name: &'a Text) -> &'a str {
    str::from_utf8(name.as_bytes()).unwrap_or("?")
}

/// The name of a column of a table.
pub fn column_name<'a>(catalog: &'a Catalog, table: usize, column: usize) -> &'a str {
    let Some(schema) = catalog.at(table) else {
        return "?";
    };
    match schema.columns().get(column) {
        Some(column) => name_text(&column.name),
        None => "?",
    }
}

/// The names of columns of a table, with commas between them.
pub fn push_column_names(
    catalog: &Catalog,
    table: usize,
    columns: &[usize],
    text: &mut String,
) -> Result<(), AllocError> {
    for (place, column) in columns.iter().enumerate() {
        if place > 0 {
            text.push_str(", ")?;
        }
        text.push_str(column_name(catalog, table, *column))?;
    }
    Ok(())
}

/// A set function of a table's column.
pub fn push_function(
    catalog: &Catalog,
    table: usize,
    function: Aggregate,
    text: &mut String,
) -> Result<(), AllocError> {
    text.push_str(opening_of(function))?;
    if let Some(column) = function.column() {
        text.push_str(column_name(catalog, table, column))?;
    }
    text.push_str(")")
}
