//! What is wrong with an INSERT.

use crate::answers::refusal_in;
use crate::conditions::{diagnose_whole, type_name};
use crate::contexts::{Context, Viewpoint};
use crate::names::{diagnose_column_name, diagnose_table_name};
use assertcheck::{DataType, check_insert};
use faults::{At, Diagnosis, push_names};
use form_check::Scope;
use sqlite_items::Items;
use std::alloc::{AllocError, Global};
use std::collections::BTreeSet;
use syntax::Insert;
use table::{Catalog, Column, Row, Schema};
use value::{ColType, Excess, Refusal, Text, Value};

/// The refusal that an INSERT gets into a table without rows, if it is one. Then it is refused whatever the rows are.
pub fn insert_refusal(
    alloc: Global,
    catalog: &Catalog,
    insert: &Insert,
) -> Result<Option<Refusal>, AllocError> {
    match (
        check_insert(alloc, catalog, insert),
        catalog.get(&insert.table),
    ) {
        (Ok(new), Some(schema)) => rows_refusal(alloc, &insert.table, schema, new.rows.as_slice()),
        (answer, _) => refusal_in(answer),
    }
}

/// The first fault of rows that are put into a table without rows, one after the other.
fn rows_refusal(
    alloc: Global,
    table: &Text,
    schema: &Schema,
    rows: &[Row],
) -> Result<Option<Refusal>, AllocError> {
    let mut keys = BTreeSet::new(alloc);
    for row in rows {
        if let Some(refusal) = refusal_in(schema.admits(row))? {
            return Ok(Some(refusal));
        }
        if let Some(key) = row.values().get(schema.key()) {
            if !keys.insert(key.copy()?)? {
                return Ok(Some(Refusal::DuplicateKey {
                    table: table.copy()?,
                    key: key.copy()?,
                }));
            }
        }
    }
    Ok(None)
}

/// An INSERT, and what it is to know of what stands before it.
#[derive(Clone, Copy)]
pub struct WrittenInsert<'a> {
    pub insert: &'a Insert,
    /// How many names stand before that of its table, in the text of the definition or line.
    pub names: usize,
    /// Whether a key that is taken was so before it. Else two of its own rows have that key.
    pub was_taken: bool,
}

/// Says what is wrong with an INSERT.
pub fn diagnose_insert(
    alloc: Global,
    context: Context,
    written: WrittenInsert,
    diagnosis: &mut Diagnosis,
) -> Result<(), AllocError> {
    let WrittenInsert {
        insert,
        names,
        was_taken,
    } = written;
    let Some(schema) = context.catalog.get(&insert.table) else {
        // (the place among the leaves is that among the names: no other leaf stands before it)
        return diagnose_table_name(alloc, context, &insert.table, names, diagnosis);
    };
    let known = KnownInsert {
        context,
        insert,
        schema,
        names,
        was_taken,
    };
    known.diagnose(alloc, diagnosis)
}

/// An INSERT into a table that there is.
#[derive(Clone, Copy)]
struct KnownInsert<'a> {
    context: Context<'a>,
    insert: &'a Insert,
    schema: &'a Schema,
    names: usize,
    was_taken: bool,
}

impl<'a> KnownInsert<'a> {
    fn diagnose(&self, alloc: Global, diagnosis: &mut Diagnosis) -> Result<(), AllocError> {
        match self.context.refusal {
            Refusal::UnknownName { name } => self.unknown(alloc, name, diagnosis),
            Refusal::NameTaken { name } => self.listed_twice(name, diagnosis),
            Refusal::TypeMismatch => self.mismatch(alloc, diagnosis),
            Refusal::NullNotAllowed { column } => self.null(column, diagnosis),
            Refusal::OutOfRange { column, excess } => self.excess(column, *excess, diagnosis),
            Refusal::DuplicateKey { key, .. } => self.duplicate(key, diagnosis),
            _ => diagnose_whole(self.context, diagnosis),
        }
    }

    /// The names of the columns that are listed.
    fn column_list(&self) -> &'a [Text] {
        match &self.insert.columns {
            Some(columns) => columns.as_slice(),
            None => &[],
        }
    }

    /// Where the leaf of the listed column at a place stands.
    fn leaf_of(&self, place: usize) -> usize {
        self.names.saturating_add(1).saturating_add(place)
    }

    /// A listed column that there is not.
    fn unknown(
        &self,
        alloc: Global,
        name: &Text,
        diagnosis: &mut Diagnosis,
    ) -> Result<(), AllocError> {
        let leaf = self.leaf_of(self.place_of(name).unwrap_or(0));
        let scopes = [Scope {
            exposed_name: &self.insert.table,
            schema: self.schema,
        }];
        let here = Viewpoint {
            context: self.context,
            scopes: &scopes,
        };
        diagnose_column_name(alloc, here, name, leaf, diagnosis)
    }

    /// A column that is listed twice.
    fn listed_twice(&self, name: &Text, diagnosis: &mut Diagnosis) -> Result<(), AllocError> {
        let leaf = self.context.piece.leaf(self.leaf_of(self.second_of(name)));
        diagnosis.place(4, self.context.name_at(leaf, name));
        write!(diagnosis.what, "the column {name} is listed twice")?;
        diagnosis.advise("List each column once, with one value for each.")
    }

    /// The place at which a column is listed for the second time.
    fn second_of(&self, name: &Text) -> usize {
        let mut places = self
            .column_list()
            .iter()
            .enumerate()
            .filter(|(_, listed)| **listed == *name)
            .skip(1);
        places.next().map_or(0, |(place, _)| place)
    }

    /// Too many values or too few, or a value of another type than its column.
    fn mismatch(&self, alloc: Global, diagnosis: &mut Diagnosis) -> Result<(), AllocError> {
        let wanted = match &self.insert.columns {
            Some(columns) => columns.len(),
            None => self.schema.columns().len(),
        };
        for (row, values) in self.insert.rows.as_slice().iter().enumerate() {
            if values.len() != wanted {
                let given = values.len();
                return self.count_fault(alloc, Miscount { row, given, wanted }, diagnosis);
            }
            if let Some(mistyped) = self.first_mistyped(row, values.as_slice()) {
                return self.type_fault(mistyped, diagnosis);
            }
        }
        diagnose_whole(self.context, diagnosis)
    }

    /// The first value of a row that is of another type than its column.
    fn first_mistyped(&self, row: usize, values: &'a [Value]) -> Option<Mistyped<'a>> {
        for (place, value) in values.iter().enumerate() {
            if let Some(column) = self.column_at(place) {
                if !column.is_typed(value) {
                    return Some(Mistyped {
                        column,
                        value,
                        row,
                        place,
                    });
                }
            }
        }
        None
    }

    /// The column that the value at a place is for.
    fn column_at(&self, place: usize) -> Option<&'a Column> {
        match &self.insert.columns {
            Some(names) => {
                let column = self.schema.column(names.as_slice().get(place)?)?;
                self.schema.columns().get(column)
            }
            None => self.schema.columns().get(place),
        }
    }

    fn count_fault(
        &self,
        alloc: Global,
        miscount: Miscount,
        diagnosis: &mut Diagnosis,
    ) -> Result<(), AllocError> {
        let Miscount { row, given, wanted } = miscount;
        let place = wanted.min(given.saturating_sub(1));
        diagnosis.place(5, self.context.at(self.context.piece.value(row, place)));
        push_counts(given, wanted, &mut diagnosis.what)?;
        match &self.insert.columns {
            Some(_) => diagnosis.advise("Give one value for each column that is listed."),
            None => push_columns(alloc, self.schema, &mut diagnosis.advice),
        }
    }

    fn type_fault(&self, mistyped: Mistyped, diagnosis: &mut Diagnosis) -> Result<(), AllocError> {
        let Mistyped {
            column,
            value,
            row,
            place,
        } = mistyped;
        let name = &column.name;
        let declared = type_name(DataType::from(column.kind));
        let given = match value {
            Value::Text(_) => "VARCHAR",
            Value::Null | Value::Int(_) => "INTEGER",
        };
        diagnosis.place(5, self.context.at(self.context.piece.value(row, place)));
        push_value_of_type(given, declared, &mut diagnosis.what)?;
        writeln!(
            diagnosis.advice,
            "{name} is of type {declared}, and {value} of type {given}. A text stands in quotes, a \
             number without."
        )
    }

    /// The place of the value for a column.
    fn place_of(&self, name: &Text) -> Option<usize> {
        match &self.insert.columns {
            Some(names) => names.as_slice().iter().position(|listed| *listed == *name),
            None => self.schema.column(name),
        }
    }

    /// The value that a row has for a column, if that is listed.
    fn value_for(&self, row: &'a Items<Value>, name: &Text) -> Option<&'a Value> {
        row.as_slice().get(self.place_of(name)?)
    }

    /// The place of the first row whose value for a column may not stand there.
    fn row_refused(&self, name: &Text) -> Result<usize, AllocError> {
        for (place, row) in self.insert.rows.as_slice().iter().enumerate() {
            if let (Some(column), Some(value)) = (self.column(name), self.value_for(row, name)) {
                if column.fault(value)?.is_some() {
                    return Ok(place);
                }
            }
        }
        Ok(0)
    }

    /// The place of the row whose key is taken: the first under this key, or the second where none was there before.
    fn row_repeated(&self, column: &Text, key: &Value) -> usize {
        let mut was_taken = self.was_taken;
        for (place, row) in self.insert.rows.as_slice().iter().enumerate() {
            if self.value_for(row, column) == Some(key) {
                if was_taken {
                    return place;
                }
                was_taken = true;
            }
        }
        0
    }

    /// Where the value of a row for a column stands, or else the table's name.
    fn value_at(&self, row: usize, name: &Text) -> At {
        let span = match self.place_of(name) {
            Some(place) => self.context.piece.value(row, place),
            None => self.context.piece.leaf(self.names),
        };
        self.context.at(span)
    }

    fn null(&self, column: &Text, diagnosis: &mut Diagnosis) -> Result<(), AllocError> {
        let why = if self.schema.column(column) == Some(self.schema.key()) {
            "is the key"
        } else {
            "is NOT NULL"
        };
        diagnosis.place(6, self.value_at(self.row_refused(column)?, column));
        write!(diagnosis.what, "{column} takes no NULL")?;
        match self.place_of(column) {
            Some(_) => writeln!(diagnosis.advice, "{column} {why}: give it a value."),
            None => writeln!(
                diagnosis.advice,
                "{column} {why}, and a column that is not listed is NULL: list it, and give it a value."
            ),
        }
    }

    fn excess(
        &self,
        column: &Text,
        excess: Excess,
        diagnosis: &mut Diagnosis,
    ) -> Result<(), AllocError> {
        diagnosis.place(9, self.value_at(self.row_refused(column)?, column));
        let kind = self.column(column).map(|declared| declared.kind);
        match (excess, kind) {
            (Excess::Text, Some(ColType::Varchar(most))) => {
                write!(diagnosis.what, "this text is too long for {column}")?;
                writeln!(
                    diagnosis.advice,
                    "{column} is VARCHAR({most}): write a shorter text, or a greater length (up to 255) \
                     in its CREATE TABLE."
                )
            }
            _ => {
                write!(
                    diagnosis.what,
                    "this number is out of the range of {column}"
                )?;
                diagnosis.advise("INTEGER holds the numbers from -10^15 to 10^15.")
            }
        }
    }

    /// The column of this name.
    fn column(&self, name: &Text) -> Option<&'a Column> {
        self.schema.columns().get(self.schema.column(name)?)
    }

    fn duplicate(&self, key: &Value, diagnosis: &mut Diagnosis) -> Result<(), AllocError> {
        let table = &self.insert.table;
        let place = match self.schema.columns().get(self.schema.key()) {
            Some(Column { name, .. }) => self.value_at(self.row_repeated(name, key), name),
            None => self.context.at(None),
        };
        diagnosis.place(7, place);
        if self.was_taken {
            write!(
                diagnosis.what,
                "{table} has a row under the key {key} already"
            )?;
        } else {
            write!(diagnosis.what, "two rows of this INSERT have the key {key}")?;
        }
        diagnosis.advise("Each row has a key of its own: give this one another, or leave it out.")
    }
}

/// A row that has more or fewer values than there are columns for them.
#[derive(Clone, Copy)]
struct Miscount {
    row: usize,
    given: usize,
    wanted: usize,
}

/// A value of another type than its column, with the place of its row, and its own in that.
#[derive(Clone, Copy)]
struct Mistyped<'a> {
    column: &'a Column,
    value: &'a Value,
    row: usize,
    place: usize,
}

/// That a value is of another type than its column.
pub fn push_value_of_type(
    given: &str,
    declared: &str,
    what: &mut String,
) -> Result<(), AllocError> {
    write!(
        what,
        "a value of type {given} for a column of type {declared}"
    )
}

/// How many values were given, and how many were wanted.
fn push_counts(given: usize, wanted: usize, what: &mut String) -> Result<(), AllocError> {
    let values = if given == 1 { "value" } else { "values" };
    let columns = if wanted == 1 { "column" } else { "columns" };
    write!(what, "{given} {values} for {wanted} {columns}")
}

/// A line of the columns that a table has.
fn push_columns(alloc: Global, schema: &Schema, advice: &mut String) -> Result<(), AllocError> {
    let mut names = Vec::new(alloc);
    for column in schema.columns() {
        names.push(&column.name)?;
    }
    advice.push_str("The table has ")?;
    push_names(&names, advice)?;
    advice.push_str(": give a value for each, or list those that get one. The others are NULL.\n")
}
