//! Tables, their rows and their indexes.

use crate::faults::PrintFault;
use crate::forms::{add_table_name, columns_of};
use crate::words::add_constant;
use assertion::{Assertion, Form};
use delta::View;
use printout::Printout;
use table::{Column, LARGEST, Row};
use value::ColType;

/// Adds a table without rows. A number has the bound of every column, and a text is compared by its bytes.
pub fn add_table(sql: &mut Printout, view: &View, table: usize) {
    sql.add("\nCREATE TABLE ");
    add_table_name(sql, view, table);
    sql.add(" (");
    let key = view.key_column(table);
    let mut before = "\n    ";
    for (place, column) in columns_of(view, table).iter().enumerate() {
        sql.add(before);
        add_column(sql, column, place == key);
        before = ",\n    ";
    }
    sql.add("\n);\n");
}

fn add_column(sql: &mut Printout, column: &Column, is_key: bool) {
    let rest = match (is_key, column.nullable) {
        (true, _) => " PRIMARY KEY",
        (false, true) => "",
        (false, false) => " NOT NULL",
    };
    sql.add_name(&column.name);
    match column.kind {
        ColType::Integer => add_number_kind(sql, column, rest),
        ColType::Varchar(most) => add_text_kind(sql, column, rest, most),
    }
}

fn add_number_kind(sql: &mut Printout, column: &Column, rest: &str) {
    sql.add_all(&[" bigint", rest, " CHECK ("]);
    sql.add_name(&column.name);
    sql.add(" BETWEEN -");
    sql.show(LARGEST);
    sql.add(" AND ");
    sql.show(LARGEST);
    sql.add(")");
}

fn add_text_kind(sql: &mut Printout, column: &Column, rest: &str, most: u8) {
    sql.add_all(&[" text COLLATE \"C\"", rest, " CHECK (char_length("]);
    sql.add_name(&column.name);
    sql.add(") <= ");
    sql.show(most);
    sql.add(" AND ");
    sql.add_name(&column.name);
    sql.add(" !~ E'[\\\\x01-\\\\x1f\\\\x7f]')");
}

/// Adds the rows of a table.
pub fn add_row(sql: &mut Printout, view: &View, table: usize, row: &Row) {
    sql.add("INSERT INTO ");
    add_table_name(sql, view, table);
    let mut before = " VALUES (";
    for value in row.values() {
        sql.add(before);
        add_constant(sql, value);
        before = ", ";
    }
    sql.add(");\n");
}

/// Adds an index on each column of a table by which an assertion looks for rows. A key has one already.
pub fn add_indexes(sql: &mut Printout, view: &View, table: usize) {
    let key = view.key_column(table);
    for (place, column) in columns_of(view, table).iter().enumerate() {
        if place != key && is_looked_up(view.assertions(), table, place) {
            sql.add("CREATE INDEX ON ");
            add_table_name(sql, view, table);
            sql.add(" (");
            sql.add_name(&column.name);
            sql.add(");\n");
        }
    }
}

/// Whether a column is a link or a group of an assertion.
fn is_looked_up(assertions: &[Assertion], table: usize, place: usize) -> bool {
    assertions
        .iter()
        .any(|assertion| is_looked_up_by(&assertion.form, table, place))
}

fn is_looked_up_by(form: &Form, table: usize, place: usize) -> bool {
    match form {
        Form::ByRow {
            table: own,
            queries,
            ..
        } => queries.as_slice().iter().any(|query| {
            query.table == table && query.grouping.inner == place
                || *own == table && query.grouping.outer == place
        }),
        Form::ByGroup {
            table: own,
            group,
            ..
        } => *own == table && *group == place,
        Form::Single { .. } => false,
    }
}

/// The first name that PostgreSQL would cut: it keeps 63 bytes of one.
pub fn require_short_names(view: &View) -> Result<(), PrintFault> {
    for table in 0..view.catalog().len() {
        if let Some(name) = view.catalog().name(table) {
            require_short(name)?;
        }
        for column in columns_of(view, table) {
            require_short(&column.name)?;
        }
    }
    for assertion in view.assertions() {
        require_short(&assertion.name)?;
    }
    Ok(())
}

fn require_short(name: &value::Text) -> Result<(), PrintFault> {
    if name.len() > 63 {
        return Err(PrintFault::LongName { name: name.copy()? });
    }
    Ok(())
}
