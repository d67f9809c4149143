//! Columns, schemas, and the tests of a row against them.

ghost use Rattle.std.specs.Prelude.{◌≡◌, ◌<◌, ◌⊎◌, length, IsTrue, IsNone, IsOk, Some, None, OnOk, IfOk, IfErr};
ghost use Rattle.table.specs.Rows.{FitsColumns, column_of};
ghost use Rattle.table.specs.Faults.{is_typed, are_typed, fault_in, row_fault, row_refusal};
ghost use Rattle.value.specs.declared.refusals.Refusal.TheVariants.{NoMemory, OutOfRange};
ghost use Rattle.value.specs.declared.values.Value.TheVariants.{Null};

use crate::rows::Row;
use std::alloc::AllocError;
use std::marker::Model;
use value::{ColType, Excess, Refusal, Text, Value};

/// The largest number that a column holds, with either sign.
pub const LARGEST: u64 = 1_000_000_000_000_000;

/// A column of a table.
#[derive(Debug, Drop)]
pub struct Column {
    pub name: Text,
    pub kind: ColType,
    /// Whether it takes NULL.
    pub nullable: bool,
}

impl Column {
    /// Whether a value is of the column's type. NULL is of every type, and a text of none that is ill-formed UTF-8 or
    /// has a control character of ASCII.
    pub fn is_typed(&self, value: &Value) -> bool
        ensures { result ≡ is_typed self.now.kind value.now }
    {
        match (self.kind, value) {
            (_, Value::Null) | (ColType::Integer, Value::Int(_)) => true,
            (ColType::Varchar(_), Value::Text(text)) => text.is_plain(),
            (ColType::Integer, Value::Text(_)) | (ColType::Varchar(_), Value::Int(_)) => false,
        }
    }

    /// What is wrong with a value of the column's type: NULL where the column takes none, a number beyond the range,
    /// or a text of more characters than the column takes.
    pub fn fault(&self, value: &Value) -> Result<Option<Refusal>, AllocError>
        ensures fault { IfOk result (λ fault. fault ≡ fault_in self.now value.now) }
        ensures none { IsNone (fault_in self.now value.now) → IsOk result }
    {
        match (self.kind, value) {
            (_, Value::Null) => self.null_fault(),
            (_, Value::Int(number)) if number.unsigned_abs() > LARGEST => self.excess(
                Excess::Number,
            ),
            (ColType::Varchar(most), Value::Text(text)) if text.character_count() > most as usize =>
                self.excess(Excess::Text),
            (_, Value::Int(_) | Value::Text(_)) => Ok(None),
        }
    }

    /// What is wrong with NULL in the column.
    fn null_fault(&self) -> Result<Option<Refusal>, AllocError>
        ensures fault { IfOk result (λ fault. fault ≡ fault_in self.now Null) }
        ensures none { IsNone (fault_in self.now Null) → IsOk result }
    {
        if self.nullable {
            return Ok(None);
        }
        Ok(Some(Refusal::NullNotAllowed {
            column: self.name.copy()?,
        }))
    }

    /// The fault of a value that is too much for the column.
    fn excess(&self, excess: Excess) -> Result<Option<Refusal>, AllocError>
        ensures { IfOk result (λ fault. fault ≡ Some (OutOfRange self.now.name excess)) }
    {
        Ok(Some(Refusal::OutOfRange {
            column: self.name.copy()?,
            excess,
        }))
    }

    /// A column equal to this one.
    pub fn copy(&self) -> Result<Column, AllocError>
        ensures { IfOk result (λ copy. copy ≡ self.now) }
    {
        Ok(Column {
            name: self.name.copy()?,
            kind: self.kind,
            nullable: self.nullable,
        })
    }
}

/// A table's columns; one of them is the key.
#[derive(Debug, Drop)]
pub struct Schema {
    columns: Vec<Column>,
    key: usize,
}

impl Model for Schema {
    ghost use Rattle.std.specs.Prelude.{◌<◌, length};
    ghost use Rattle.table.specs.Rows.{Layout};

    ghost Value = { Layout };

    ghost view = { λ schema. record { columns = schema.columns.items; key = schema.key } };

    ghost invariant = { λ schema. schema.key < length schema.columns.items };
}

impl Schema {
    /// The schema of these columns, with this one as its key.
    pub fn new(columns: Vec<Column>, key: usize) -> Schema
        requires { key < length columns.items }
        ensures { result ≡ record { columns = columns.items; key = key } }
    {
        Schema { columns, key }
    }

    pub fn columns(&self) -> &[Column]
        ensures value { result.now ≡ self.now.columns }
        ensures key_in { self.now.key < length self.now.columns }
    {
        self.columns.as_slice()
    }

    /// The place of the key column.
    pub fn key(&self) -> usize
        ensures value { result ≡ self.now.key }
        ensures key_in { self.now.key < length self.now.columns }
    {
        self.key
    }

    /// The place of the first column of this name.
    pub fn column(&self, name: &Text) -> Option<usize>
        ensures { result ≡ column_of name.now self.now.columns }
    {
        self.columns.iter().position(|column| *name == column.name)
    }

    /// Whether there is a value for each column, each of its type. NULL is of every type, and a text of none that is
    /// ill-formed UTF-8 or has a control character of ASCII.
    pub fn is_typed(&self, row: &Row) -> bool
        ensures { result ≡ are_typed self.now.columns row.now }
    {
        are_typed(self.columns(), row.values())
    }

    /// Tests the values of an INSERT in their order. TypeMismatch where the number of values differs or one is not of
    /// its column's type (nor is a text that is ill-formed or has a control character); then by columns NullNotAllowed
    /// and OutOfRange. NoMemory only where the name of the column in fault was not to be copied.
    pub fn admits(&self, row: &Row) -> Result<(), Refusal>
        ensures fits { OnOk result (FitsColumns self.now.columns row.now) }
        ensures wide { OnOk result (length row.now ≡ length self.now.columns) }
        ensures none { OnOk result (row_refusal self.now.columns row.now ≡ None) }
        ensures admitted { IsNone (row_refusal self.now.columns row.now) → IsOk result }
        ensures refused { IfErr result (λ refusal.
            (refusal ≡ NoMemory) ⊎ (row_refusal self.now.columns row.now ≡ Some refusal)) }
    {
        let columns = self.columns();
        let values = row.values();
        if !are_typed(columns, values) {
            return Err(Refusal::TypeMismatch);
        }
        match first_fault(columns, values)? {
            Some(fault) => Err(fault),
            None => Ok(()),
        }
    }

    /// A schema equal to this one.
    pub fn copy(&self) -> Result<Schema, AllocError>
        ensures { IfOk result (λ copy. copy ≡ self.now) }
    {
        let mut columns = Vec::new(*self.columns.allocator());
        for column in &self.columns {
            columns.push(column.copy()?)?;
        }
        Ok(Schema {
            columns,
            key: self.key,
        })
    }
}

/// Whether there is a value for each column, each of its type.
fn are_typed(columns: &[Column], values: &[Value]) -> bool
    ensures value { result ≡ are_typed columns.now values.now }
    ensures wide { IsTrue result → length values.now ≡ length columns.now }
{
    if values.len() != columns.len() {
        return false;
    }
    for i in 0..values.len() {
        if !columns[i].is_typed(&values[i]) {
            return false;
        }
    }
    true
}

/// The first fault of the values, by columns.
fn first_fault(columns: &[Column], values: &[Value]) -> Result<Option<Refusal>, AllocError>
    requires { length values.now ≡ length columns.now }
    ensures fault { IfOk result (λ fault. fault ≡ row_fault columns.now values.now) }
    ensures none { IsNone (row_fault columns.now values.now) → IsOk result }
{
    for i in 0..values.len() {
        let fault = columns[i].fault(&values[i])?;
        if fault.is_some() {
            return Ok(fault);
        }
    }
    Ok(None)
}
