//! Names and constants as PostgreSQL reads them.

use printout::Printout;
use table::{Aggregate, Column};
use value::{Text, Value};

/// Adds the name of a column of these, by its place; the word NULL where there is none.
pub fn add_column_name(sql: &mut Printout, columns: &[Column], place: usize) {
    match columns.get(place) {
        Some(column) => sql.add_name(&column.name),
        None => sql.add("NULL"),
    }
}

/// Adds a column of a row that goes by a name.
pub fn add_column(sql: &mut Printout, row: &str, columns: &[Column], place: usize) {
    sql.add(row);
    sql.add(".");
    add_column_name(sql, columns, place);
}

/// Adds a constant. A text is compared by its bytes.
pub fn add_constant(sql: &mut Printout, value: &Value) {
    match value {
        Value::Null => sql.add("NULL"),
        Value::Int(number) => add_number(sql, *number),
        Value::Text(text) => add_text(sql, text),
    }
}

fn add_number(sql: &mut Printout, number: i64) {
    if number < 0 {
        sql.add("(");
        sql.show(number);
        sql.add(")");
    } else {
        sql.show(number);
    }
}

/// Adds a text in quotes. In an escape string a backslash means itself whatever standard_conforming_strings is, and a
/// text with a dollar sign ends no body that stands between dollar signs.
fn add_text(sql: &mut Printout, text: &Text) {
    sql.add("(E'");
    for chunk in text.as_bytes().utf8_chunks() {
        for character in chunk.valid().chars() {
            add_quoted(sql, character);
        }
    }
    sql.add("' COLLATE \"C\")");
}

fn add_quoted(sql: &mut Printout, character: char) {
    match character {
        '\'' => sql.add("''"),
        '\\' => sql.add("\\\\"),
        '$' => sql.add("\\x24"),
        other => sql.add_character(other),
    }
}

/// Adds a set function over the columns of a row that goes by a name. A SUM is of type numeric, so it is exact.
pub fn add_set_function(sql: &mut Printout, aggregate: Aggregate, row: &str, columns: &[Column]) {
    let (word, place) = match aggregate {
        Aggregate::CountRows => return sql.add("count(*)"),
        Aggregate::Count(place) => ("count(", place),
        Aggregate::CountDistinct(place) => ("count(DISTINCT ", place),
        Aggregate::Sum(place) => ("sum(", place),
        Aggregate::SumDistinct(place) => ("sum(DISTINCT ", place),
        Aggregate::Min(place) => ("min(", place),
        Aggregate::Max(place) => ("max(", place),
    };
    sql.add(word);
    add_column(sql, row, columns, place);
    sql.add(")");
}
