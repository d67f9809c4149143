//! Tables and their rows.

use crate::faults::PrintFault;
use delta::View;
use printout::Printout;
use table::{Column, Row};
use value::{ColType, Text};

/// At most so many columns in a table of SQLite, as it is built by default.
const MOST_COLUMNS: usize = 2000;

/// What no name of a table of SQLite begins with. Names of the language are upper case.
const RESERVED: &[u8] = b"SQLITE_";

/// The columns of a table; none where there is no such table.
fn columns_of(view: &View, table: usize) -> &[Column] {
    match view.catalog().at(table) {
        Some(schema) => schema.columns(),
        None => &[],
    }
}

/// Refuses the first table that SQLite would not make.
pub fn require_takeable(view: &View) -> Result<(), PrintFault> {
    for table in 0..view.catalog().len() {
        if let Some(name) = view.catalog().name(table) {
            require_free_name(name)?;
            require_few_columns(name, columns_of(view, table))?;
        }
    }
    Ok(())
}

fn require_free_name(name: &Text) -> Result<(), PrintFault> {
    if name.as_bytes().starts_with(RESERVED) {
        return Err(PrintFault::ReservedName { name: name.copy()? });
    }
    Ok(())
}

fn require_few_columns(name: &Text, columns: &[Column]) -> Result<(), PrintFault> {
    if columns.len() > MOST_COLUMNS {
        return Err(PrintFault::ManyColumns { name: name.copy()? });
    }
    Ok(())
}

/// Adds a table without rows. A VARCHAR's length is kept for readers; SQLite itself takes texts of any length.
pub fn add_table(sql: &mut Printout, view: &View, table: usize) {
    sql.add("CREATE TABLE ");
    add_table_name(sql, view, table);
    sql.add(" (");
    let key = view.key_column(table);
    let mut before = "\n    ";
    for (place, column) in columns_of(view, table).iter().enumerate() {
        sql.add(before);
        add_column(sql, column, place == key);
        before = ",\n    ";
    }
    sql.add("\n);\n");
}

fn add_column(sql: &mut Printout, column: &Column, is_key: bool) {
    sql.add_name(&column.name);
    match column.kind {
        ColType::Integer => sql.add(" INTEGER"),
        ColType::Varchar(most) => add_text_kind(sql, most),
    }
    if is_key || !column.nullable {
        sql.add(" NOT NULL");
    }
    if is_key {
        sql.add(" PRIMARY KEY");
    }
}

fn add_text_kind(sql: &mut Printout, most: u8) {
    sql.add(" VARCHAR(");
    sql.show(most);
    sql.add(")");
}

/// Adds a row of a table. Values are shown as SQL writes them, a text in quotes with each quote of its own twice.
/// SQLite takes each other character for itself, and texts hold no control characters.
pub fn add_row(sql: &mut Printout, view: &View, table: usize, row: &Row) {
    sql.add("INSERT INTO ");
    add_table_name(sql, view, table);
    sql.show_list(" VALUES (", row.values(), ", ");
    sql.add(");\n");
}

/// Adds the name of a table.
fn add_table_name(sql: &mut Printout, view: &View, table: usize) {
    if let Some(name) = view.catalog().name(table) {
        sql.add_name(name);
    }
}
