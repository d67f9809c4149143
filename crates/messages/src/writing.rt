//! Bytes as they grow, field by field.

ghost use Rattle.std.specs.Prelude.{◌≡◌, ◌++◌, ◌∷◌, [], OnOk, IfOk, map};
ghost use Rattle.alone.specs.Results.{value_of};
ghost use Rattle.messages.specs.Columns.{derived_name};
ghost use Rattle.messages.specs.Spelling as spelling;
ghost use Rattle.messages.specs.Refusals as parts;

use crate::columns::derived_name;
use crate::parts::{
    conflict_of, name_of, number_of, offset_of, pivot_of, reader_of, sqlstate_of, writer_of,
};
use alone::{ResultRow, ResultValue};
use itoa::Buffer;
use std::alloc::{AllocError, Global};
use std::marker::Model;
use syntax::DerivedColumn;
use table::Column;
use value::{Refusal, Root, Truth, Value};

// The kinds of values, as `bindings/c/skewguard.h` numbers them.
const NULL: u8 = 0;

const NUMBER: u8 = 1;

const CHARACTERS: u8 = 2;

/// Of a root: the assertion is false as a whole.
const ALL: u8 = 3;

/// Of a refusal that names no root and no key.
pub const NO_VALUE: u8 = 4;

/// A number that passes 64 bits.
const NUMERIC: u8 = 5;

/// Bytes that grow, in a contract their list. Where no memory is left, a field may stand there in part.
#[derive(Drop)]
pub struct Bytes {
    bytes: Vec<u8>,
}

impl Model for Bytes {
    ghost use Rattle.std.specs.Prelude.{List, ℕ};

    ghost Value = { List ℕ };

    ghost view = { λ b. b.bytes.items };
}

/// The two's complement of a number.
fn bits_of(number: i64) -> u64
    ensures { result ≡ spelling.bits_of number }
{
    if number < 0 {
        u64::MAX - (-1 - number) as u64
    } else {
        number as u64
    }
}

impl Bytes {
    /// No bytes, and room for a short reply.
    pub fn new(alloc: Global) -> Result<Bytes, AllocError>
        ensures { IfOk result (λ bytes. bytes ≡ []) }
    {
        Ok(Bytes {
            bytes: Vec::with_capacity(alloc, 128)?,
        })
    }

    /// The bytes so far.
    pub fn as_slice(&self) -> &[u8]
        ensures { result.now ≡ self.now }
    {
        self.bytes.as_slice()
    }

    fn put(&mut self, bytes: &[u8]) -> Result<(), AllocError>
        ensures { OnOk result (self.new ≡ self.old ++ bytes.now) }
    {
        self.bytes.extend_from_slice(bytes)
    }

    pub fn add_byte(&mut self, byte: u8) -> Result<(), AllocError>
        ensures { OnOk result (self.new ≡ self.old ++ byte ∷ []) }
    {
        self.put(&[byte])
    }

    #[tactic(auto, unfolding(crate::specs::Spelling::number))]
    pub fn add_number(&mut self, number: u64) -> Result<(), AllocError>
        ensures { OnOk result (self.new ≡ self.old ++ spelling.number number) }
    {
        self.put(&number.to_le_bytes())
    }

    pub fn add_text(&mut self, text: &[u8]) -> Result<(), AllocError>
        ensures { OnOk result (self.new ≡ self.old ++ spelling.text text.now) }
    {
        self.add_number(text.len() as u64)?;
        self.put(text)
    }

    pub fn add_value(&mut self, value: &Value) -> Result<(), AllocError>
        ensures { OnOk result (self.new ≡ self.old ++ spelling.value value.now) }
    {
        match value {
            Value::Null => self.add_byte(NULL),
            Value::Int(number) => self.add_number_value(*number),
            Value::Text(text) => self.add_text_value(text.as_bytes()),
        }
    }

    fn add_number_value(&mut self, number: i64) -> Result<(), AllocError>
        ensures { OnOk result (self.new ≡ self.old ++ 1 ∷ spelling.number (spelling.bits_of number)) }
    {
        self.add_byte(NUMBER)?;
        self.add_number(bits_of(number))
    }

    fn add_text_value(&mut self, text: &[u8]) -> Result<(), AllocError>
        ensures { OnOk result (self.new ≡ self.old ++ 2 ∷ spelling.text text.now) }
    {
        self.add_byte(CHARACTERS)?;
        self.add_text(text)
    }

    /// A value that a SELECT lists.
    fn add_listed_value(&mut self, value: &ResultValue) -> Result<(), AllocError>
        ensures { OnOk result (self.new ≡ self.old ++ spelling.listed_value (value_of value.now)) }
    {
        match value {
            ResultValue::Null => self.add_byte(NULL),
            ResultValue::Number(number) => self.add_listed_number(*number),
            ResultValue::Text(text) => self.add_text_value(text.as_bytes()),
        }
    }

    /// A number of a listed row. One that passes 64 bits stands by its decimal digits, so that a reader may take it
    /// into whatever type it has for such numbers.
    fn add_listed_number(&mut self, number: i128) -> Result<(), AllocError>
        ensures { OnOk result (self.new ≡ self.old ++ spelling.listed_number number) }
    {
        if i64::MIN as i128 <= number && number <= i64::MAX as i128 {
            self.add_number_value(number as i64)
        } else {
            self.add_byte(NUMERIC)?;
            self.add_text(Buffer::new().format(number).as_bytes())
        }
    }

    fn add_root(&mut self, root: &Root) -> Result<(), AllocError>
        ensures { OnOk result (self.new ≡ self.old ++ spelling.root root.now) }
    {
        match root {
            Root::All => self.add_byte(ALL),
            Root::Of(value) => self.add_value(value),
        }
    }

    /// The number of a truth: 0 for false, 1 for true, 2 for unknown.
    pub fn add_truth(&mut self, truth: Truth) -> Result<(), AllocError>
        ensures { OnOk result (self.new ≡ self.old ++ spelling.truth truth) }
    {
        match truth {
            Truth::False => self.add_number(0),
            Truth::True => self.add_number(1),
            Truth::Unknown => self.add_number(2),
        }
    }

    fn add_row(&mut self, values: &[ResultValue]) -> Result<(), AllocError>
        ensures { OnOk result (self.new ≡ self.old ++ spelling.row (map value_of values.now)) }
    {
        for value in values {
            self.add_listed_value(value)?;
        }
        Ok(())
    }

    fn add_each_row(&mut self, rows: &[ResultRow]) -> Result<(), AllocError>
        ensures { OnOk result (self.new ≡ self.old ++ spelling.each_row rows.now) }
    {
        for row in rows {
            self.add_row(row.values())?;
        }
        Ok(())
    }

    /// How many rows, and the values of each.
    pub fn add_rows(&mut self, rows: &[ResultRow]) -> Result<(), AllocError>
        ensures { OnOk result (self.new ≡ self.old ++ spelling.rows rows.now) }
    {
        self.add_number(rows.len() as u64)?;
        self.add_each_row(rows)
    }

    fn add_each_name(&mut self, columns: &[DerivedColumn]) -> Result<(), AllocError>
        ensures { OnOk result (self.new ≡ self.old ++ spelling.each_name (map derived_name columns.now)) }
    {
        for column in columns {
            self.add_text(derived_name(column))?;
        }
        Ok(())
    }

    /// How many derived columns, and the name of each.
    pub fn add_names(&mut self, columns: &[DerivedColumn]) -> Result<(), AllocError>
        ensures { OnOk result (self.new ≡ self.old ++ spelling.names (map derived_name columns.now)) }
    {
        self.add_number(columns.len() as u64)?;
        self.add_each_name(columns)
    }

    fn add_each_column(&mut self, columns: &[Column]) -> Result<(), AllocError>
        ensures { OnOk result (self.new ≡ self.old ++ spelling.each_column columns.now) }
    {
        for column in columns {
            self.add_text(column.name.as_bytes())?;
        }
        Ok(())
    }

    /// How many columns, and the name of each.
    pub fn add_columns(&mut self, columns: &[Column]) -> Result<(), AllocError>
        ensures { OnOk result (self.new ≡ self.old ++ spelling.columns columns.now) }
    {
        self.add_number(columns.len() as u64)?;
        self.add_each_column(columns)
    }

    /// The parts of a refusal. The SQLSTATE of a violated assertion is another at COMMIT.
    pub fn add_refusal(&mut self, at_commit: bool, refusal: &Refusal) -> Result<(), AllocError>
        ensures { OnOk result (self.new ≡ self.old ++ parts.refusal_parts at_commit refusal.now) }
    {
        self.add_naming(at_commit, refusal)?;
        self.add_place(refusal)?;
        self.add_numbers(refusal)
    }

    /// Which refusal it is, and what it names.
    fn add_naming(&mut self, at_commit: bool, refusal: &Refusal) -> Result<(), AllocError>
        ensures { OnOk result (self.new ≡ self.old ++ parts.refusal_head at_commit refusal.now) }
    {
        self.add_number(number_of(refusal))?;
        self.add_text(sqlstate_of(at_commit, refusal).as_bytes())?;
        self.add_text(name_of(refusal))
    }

    /// The root or the key that a refusal names.
    fn add_place(&mut self, refusal: &Refusal) -> Result<(), AllocError>
        ensures { OnOk result (self.new ≡ self.old ++ parts.place refusal.now) }
    {
        match refusal {
            Refusal::Violated { group, .. } | Refusal::FalseAtCreation { group, .. } =>
                self.add_root(group),
            Refusal::DuplicateKey { key, .. } | Refusal::WriteConflict { key, .. } =>
                self.add_value(key),
            _ => self.add_byte(NO_VALUE),
        }
    }

    /// The commits and the offset that a refusal names.
    fn add_numbers(&mut self, refusal: &Refusal) -> Result<(), AllocError>
        ensures { OnOk result (self.new ≡ self.old ++ parts.numbers refusal.now) }
    {
        self.add_number(conflict_of(refusal))?;
        self.add_number(reader_of(refusal))?;
        self.add_number(pivot_of(refusal))?;
        self.add_number(writer_of(refusal))?;
        self.add_number(offset_of(refusal) as u64)
    }
}
