//! Rows, and changes of rows.

ghost use Rattle.std.specs.Prelude.{◌≡◌, ◌<◌, ◌≤◌, length, IfOk};
ghost use Rattle.table.specs.Blocks.{values_of};
ghost use Rattle.table.specs.Rows.{value_in};

use arrayvec::ArrayVec;
use std::alloc::AllocError;
use std::marker::Model;
use std::sync::Arc;
use value::{Copied, Refusal, Value};

/// The most values that stand in the block of the row itself, so that a row of few takes one block of memory.
const FEW: usize = 4;

/// A row: a value for each column, in the order of the columns. A copy shares the values.
#[derive(Debug, Drop)]
pub struct Row {
    values: Arc<Block>,
}

/// The values of a row: few in place, or a list of any length in a block of its own.
#[derive(Debug, Drop)]
pub enum Block {
    Few(ArrayVec<Value, FEW>),
    Many(Vec<Value>),
}

impl Model for Row {
    ghost use Rattle.std.specs.Arc.{arc_value};
    ghost use Rattle.table.specs.Rows.{RowValues};
    ghost use Rattle.table.specs.Blocks.{values_of};

    ghost Value = { RowValues };

    ghost view = { λ row. values_of (arc_value row.values) };
}

impl Row {
    /// The row of these values.
    pub fn new(values: Vec<Value>) -> Result<Row, AllocError>
        ensures { IfOk result (λ row. row ≡ values.items) }
    {
        let alloc = *values.allocator();
        let values = Arc::new(alloc, block_of(values))?;
        Ok(Row { values })
    }

    /// The number of values.
    pub fn len(&self) -> usize
        ensures { result ≡ length self.now }
    {
        self.values().len()
    }

    pub fn values(&self) -> &[Value]
        ensures { result.now ≡ self.now }
    {
        values_in(&self.values)
    }

    /// The value in a column.
    pub fn value(&self, column: usize) -> &Value
        requires { column < length self.now }
        ensures { result.now ≡ value_in column self.now }
    {
        &self.values()[column]
    }

    /// A row equal to this one. It shares the values, and takes no memory.
    pub fn copy(&self) -> Result<Row, AllocError>
        ensures { IfOk result (λ copy. copy ≡ self.now) }
    {
        let values = Arc::try_clone(&self.values)?;
        Ok(Row { values })
    }
}

/// These values, in place where they are few.
fn block_of(values: Vec<Value>) -> Block
    ensures { values_of result ≡ values.items }
{
    if values.len() > FEW {
        return Block::Many(values);
    }
    Block::Few(few_of(values))
}

/// These few values in place.
fn few_of(values: Vec<Value>) -> ArrayVec<Value, FEW>
    requires { length values.items ≤ 4 }
    ensures { result.items ≡ values.items }
{
    let mut few = ArrayVec::new();
    for value in values {
        few.push(value);
    }
    few
}

/// The values of a block.
fn values_in(block: &Block) -> &[Value]
    ensures { result.now ≡ values_of block.now }
{
    match block {
        Block::Few(values) => values.as_slice(),
        Block::Many(values) => values.as_slice(),
    }
}

impl Copied for Row {
    fn copied(&self) -> Result<Row, AllocError> {
        self.copy()
    }
}

/// A change of one row of a table: what stood under the key, and what is to stand there. A row that is put in has no
/// old row, and one that is taken out no new one.
#[derive(Debug, Drop)]
pub struct Change {
    /// The table, by its place in the order of creation.
    pub table: usize,
    pub key: Value,
    pub old: Option<Row>,
    pub new: Option<Row>,
}
