//! Lines as they grow, field by field.

ghost use Rattle.std.specs.Prelude.{◌≡◌, ◌≤◌, ◌++◌, ◌∷◌, [], drop, take, true, length, OnOk, OnErr, IfOk, decimal};
ghost use Rattle.std.specs.Fmt.{signed_decimal};
ghost use Rattle.journal.specs.Spelling as spelling;
ghost use Rattle.journal.specs.Headers.{header_fields, header_line};

use crate::headers::{Header, TITLE};
use crate::sums::sum_of;
use itoa::Buffer;
use std::alloc::{AllocError, Global};
use std::marker::Model;
use table::{Change, Row};
use value::Value;

/// Lines that grow, in a contract their bytes. Where no memory is left, a line may stand there in part.
#[derive(Drop)]
pub struct Lines {
    bytes: Vec<u8>,
}

impl Model for Lines {
    ghost use Rattle.std.specs.Prelude.{List, ℕ};

    ghost Value = { List ℕ };

    ghost view = { λ l. l.bytes.items };
}

impl Lines {
    /// No line.
    pub fn new(alloc: Global) -> Lines
        ensures { result ≡ [] }
    {
        Lines {
            bytes: Vec::new(alloc),
        }
    }

    /// The bytes so far.
    pub fn as_slice(&self) -> &[u8]
        ensures { result.now ≡ self.now }
    {
        self.bytes.as_slice()
    }

    /// The number of bytes.
    pub fn len(&self) -> usize
        ensures { result ≡ length self.now }
    {
        self.bytes.len()
    }

    /// No line again.
    pub fn clear(&mut self)
        ensures { self.new ≡ [] }
    {
        self.bytes.clear();
    }

    /// The bytes up to a length: what stood there before a line for which there was no memory.
    pub fn truncate(&mut self, len: usize)
        ensures { self.new ≡ take len self.old }
    {
        self.bytes.truncate(len);
    }

    /// Whether there is none.
    pub fn is_empty(&self) -> bool
        ensures { result ≡ true → self.now ≡ [] }
    {
        self.bytes.is_empty()
    }

    /// Adds other lines. Where no memory is left, none is added.
    pub fn add_lines(&mut self, more: &Lines) -> Result<(), AllocError>
        ensures added { OnOk result (self.new ≡ self.old ++ more.now) }
        ensures same { OnErr result (self.new ≡ self.old) }
    {
        self.bytes.extend_from_slice(more.as_slice())
    }

    fn put(&mut self, bytes: &[u8]) -> Result<(), AllocError>
        ensures { OnOk result (self.new ≡ self.old ++ bytes.now) }
    {
        self.bytes.extend_from_slice(bytes)
    }

    fn add_number(&mut self, number: u64) -> Result<(), AllocError>
        ensures { OnOk result (self.new ≡ self.old ++ spelling.number number) }
    {
        self.put(Buffer::new().format(number).as_bytes())?;
        self.put(b"\t")
    }

    fn add_signed(&mut self, number: i64) -> Result<(), AllocError>
        ensures { OnOk result (self.new ≡ self.old ++ signed_decimal number ++ 9 ∷ []) }
    {
        self.put(Buffer::new().format(number).as_bytes())?;
        self.put(b"\t")
    }

    fn add_value(&mut self, value: &Value) -> Result<(), AllocError>
        ensures { OnOk result (self.new ≡ self.old ++ spelling.value value.now) }
    {
        match value {
            Value::Null => self.put(b"N\t"),
            Value::Int(number) => self.add_signed(*number),
            Value::Text(text) => {
                self.put(b"'")?;
                self.put(text.as_bytes())?;
                self.put(b"\t")
            }
        }
    }

    fn add_values(&mut self, values: &[Value]) -> Result<(), AllocError>
        ensures { OnOk result (self.new ≡ self.old ++ spelling.values values.now) }
    {
        for value in values {
            self.add_value(value)?;
        }
        Ok(())
    }

    fn add_row(&mut self, row: &Option<Row>) -> Result<(), AllocError>
        ensures { OnOk result (self.new ≡ self.old ++ spelling.row row.now) }
    {
        match row {
            None => self.add_number(0),
            Some(row) => {
                self.add_number(row.len() as u64)?;
                self.add_values(row.values())
            }
        }
    }

    fn add_change(&mut self, change: &Change) -> Result<(), AllocError>
        ensures { OnOk result (self.new ≡ self.old ++ spelling.change change.now) }
    {
        self.add_number(change.table as u64)?;
        self.add_value(&change.key)?;
        self.add_row(&change.old)?;
        self.add_row(&change.new)
    }

    fn add_changes(&mut self, changes: &[Change]) -> Result<(), AllocError>
        ensures { OnOk result (self.new ≡ self.old ++ spelling.changes changes.now) }
    {
        for change in changes {
            self.add_change(change)?;
        }
        Ok(())
    }

    fn add_body(&mut self, number: u64, durable: u64, changes: &[Change]) -> Result<(), AllocError>
        ensures { OnOk result (self.new ≡ self.old ++ spelling.body
            (record { number = number; durable = durable; changes = changes.now })) }
    {
        self.add_number(number)?;
        self.add_number(durable)?;
        self.add_number(changes.len() as u64)?;
        self.add_changes(changes)
    }

    /// Adds the sum of what stands from a place on.
    fn add_sum(&mut self, from: usize) -> Result<(), AllocError>
        requires { from ≤ length self.old }
        ensures { OnOk result (self.new ≡ self.old ++ spelling.number (spelling.sum (drop from self.old))) }
    {
        let sum = sum_of(&self.bytes[from..]);
        self.add_number(sum)
    }

    /// Adds the line of a commit.
    pub fn add_commit(
        &mut self,
        number: u64,
        durable: u64,
        changes: &[Change],
    ) -> Result<(), AllocError>
        ensures { OnOk result (self.new ≡ ((self.old ++ 10 ∷ []) ++ spelling.line
            (record { number = number; durable = durable; changes = changes.now })) ++ 10 ∷ []) }
    {
        self.put(b"\n")?;
        let from = self.len();
        self.add_body(number, durable, changes)?;
        self.add_sum(from)?;
        self.put(b"\n")?;
        Ok(())
    }

    fn add_header_fields(&mut self, header: &Header) -> Result<(), AllocError>
        ensures { OnOk result (self.new ≡ self.old ++ header_fields header.now) }
    {
        self.put(TITLE)?;
        self.add_number(header.first)?;
        self.add_number(header.declared)
    }

    /// Adds the first line of a file.
    pub fn add_header(&mut self, header: &Header) -> Result<(), AllocError>
        ensures { OnOk result (self.new ≡ self.old ++ header_line header.now) }
    {
        let from = self.len();
        self.add_header_fields(header)?;
        self.add_sum(from)?;
        self.put(b"\n")
    }
}
