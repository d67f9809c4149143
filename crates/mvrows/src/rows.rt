//! Versions of a table's rows.

ghost use Rattle.std.specs.Prelude.{◌≡◌, ◌<◌, ◌^◌, ◌+◌, ◌⊎◌, [], ◌∷◌, drop, filter_map, length, map, not, option_to_list, Some, IfOk, IfSome, IsTrue, if◌then◌else◌};
ghost use Rattle.std.specs.Option.{option_copied};
ghost use Rattle.std.specs.Ordering.{eq_by_cmp};
ghost use Rattle.table.specs.Rows.{value_in, row_at, put_row};
ghost use Rattle.table.specs.Aggregates.{is_there};
ghost use Rattle.groups.specs.Indexes.{IsIndexOf, keys_at};
ghost use Rattle.pages.specs.Reach.{AreInOrder};
ghost use Rattle.mvrows.specs.Indexed.{AreIndexesOf};
ghost use Rattle.mvrows.specs.Keyed.{rows_of, AreKeyed};
ghost use Rattle.mvrows.specs.Looked.{keys_with, rows_with};
ghost use Rattle.value.specs.Ordered.{HasKey, IsAscending};
ghost use Rattle.value.specs.ValueOrder.{value_cmp};
ghost use Rattle.value.specs.declared.values.Value.{Value as values};

use crate::index_scans::IndexScan;
use crate::indexes::Indexes;
use crate::iterators::RowIter;
use groups::{Index, Keys};
use pages::{DifferentialMap, Pages};
use std::alloc::{AllocError, Global};
use std::cmp::Ordering;
use std::marker::Model;
use table::{Change, Row, value_at};
use value::{Value, order};

/// One version of the rows of a table, in the order of their keys. Each is kept under its key, which stands in the
/// column at `column`.
#[derive(Debug, Drop)]
pub struct Rows {
    column: usize,
    pages: DifferentialMap<Row>,
    indexes: Indexes,
}

impl Model for Rows {
    ghost use Rattle.table.specs.Rows.{RowValues};
    ghost use Rattle.std.specs.Prelude.{List};

    ghost Value = { List RowValues };

    ghost use Rattle.mvrows.specs.Keyed.{rows_of};
    ghost use Rattle.mvrows.specs.Indexed.{IsVersion};

    ghost view = { λ version. rows_of version.pages };

    ghost invariant = { λ version. IsVersion version.column version.pages version.indexes };
}

impl Rows {
    /// The version of a table without rows. It takes no memory.
    pub fn new(alloc: Global) -> Rows
        ensures { result ≡ [] }
    {
        Rows {
            column: 0,
            pages: DifferentialMap::new(alloc),
            indexes: Indexes::new(alloc),
        }
    }

    /// The version of the same table without rows, which has indexes by the same columns.
    pub fn emptied(&self, alloc: Global) -> Result<Rows, AllocError>
        ensures { IfOk result (λ rows. rows ≡ []) }
    {
        Ok(Rows {
            column: self.column,
            pages: DifferentialMap::new(alloc),
            indexes: self.indexes.emptied()?,
        })
    }

    /// How many rows there are. It takes no memory.
    pub fn len(&self) -> usize
        ensures count { result ≡ length self.now }
        ensures short { length self.now < 2 ^ 63 }
    {
        self.pages.len()
    }

    /// There are fewer rows than 2^63: what holds of every version, brought to where it is needed.
    pub fn recall_length(&self)
        ensures { length self.now < 2 ^ 63 }
    {
        self.pages.recall_order();
    }

    /// The rows in the order of their keys, one after the other. It takes no memory.
    pub fn iter(&self) -> RowIter<'_>
        ensures rest { result ≡ self.now }
        ensures short { length self.now < 2 ^ 63 }
    {
        RowIter::new(&self.pages)
    }

    /// The row under a key, which stands in the column at `key_column`. It takes no memory.
    pub fn get(&self, key_column: usize, key: &Value) -> Option<&Row>
        ensures { option_copied result ≡ row_at key_column key.now self.now }
    {
        if key_column == self.column {
            self.pages.get(key)
        } else {
            find_row(&self.pages, key_column, key)
        }
    }

    /// The keys of the rows that have a value in a column, in the order of the rows. Their own column is the one at
    /// `key_column`.
    pub fn keys_with(
        &self,
        alloc: Global,
        key_column: usize,
        column: usize,
        value: &Value,
    ) -> Result<Vec<Value>, AllocError>
        ensures { IfOk result (λ keys. keys.items ≡ keys_with key_column column value.now self.now) }
    {
        match self.index_for(key_column, column, value) {
            Some(index) => copy_keys(alloc, index.keys(value)),
            None => self.scan_keys(alloc, key_column, column, value),
        }
    }

    /// The rows that have a value in a column, in their order. Their keys are in the column at `key_column`.
    pub fn rows_with(
        &self,
        alloc: Global,
        key_column: usize,
        column: usize,
        value: &Value,
    ) -> Result<Vec<&Row>, AllocError>
        ensures { IfOk result (λ rows. map (λ row. row.now) rows.items ≡ rows_with column value.now self.now) }
    {
        if column == key_column && is_keyed(&self.pages, self.column, key_column) {
            return self.row_alone(alloc, key_column, value);
        }
        match self.index_scan(key_column, column, value) {
            Some(rows) => collect(alloc, rows),
            None => self.scan_rows(alloc, column, value),
        }
    }

    /// The same rows, one after the other, where an index has their keys: a few steps for each, and none for the
    /// others. It takes no memory.
    pub fn index_scan(
        &self,
        key_column: usize,
        column: usize,
        value: &Value,
    ) -> Option<IndexScan<'_>>
        ensures { IfSome result (λ rows. rows ≡ rows_with column value.now self.now) }
    {
        // The proof reads that rows are in the order of the column that they are kept by.
        if !is_keyed(&self.pages, self.column, key_column) {
            return None;
        }
        let index = self.index_for(key_column, column, value)?;
        Some(IndexScan::new(self, key_column, index.keys(value)))
    }

    /// The row under a key, as the only one, if there is one.
    fn row_alone(
        &self,
        alloc: Global,
        key_column: usize,
        key: &Value,
    ) -> Result<Vec<&Row>, AllocError>
        ensures { IfOk result (λ rows.
            map (λ row. row.now) rows.items ≡ option_to_list (row_at key_column key.now self.now)) }
    {
        let mut rows = Vec::new(alloc);
        if let Some(row) = self.get(key_column, key) {
            rows.push(row)?;
        }
        Ok(rows)
    }

    /// The same rows, found among all.
    fn scan_rows(
        &self,
        alloc: Global,
        column: usize,
        value: &Value,
    ) -> Result<Vec<&Row>, AllocError>
        ensures { IfOk result (λ rows. map (λ row. row.now) rows.items ≡ rows_with column value.now self.now) }
    {
        let mut rows = Vec::new(alloc);
        for row in self.iter() {
            if order_key(value, row, column) == Ordering::Equal {
                rows.push(row)?;
            }
        }
        Ok(rows)
    }

    /// The index that has the keys of the rows with a value in a column, if there is one. NULL is in no index.
    fn index_for(&self, key_column: usize, column: usize, value: &Value) -> Option<&Index>
        ensures { IfSome result (λ index.
            keys_at value.now index.now ≡ keys_with key_column column value.now self.now) }
    {
        if key_column != self.column || is_null(value) {
            return None;
        }
        self.indexes.get(column)
    }

    /// The same keys, found among all rows.
    fn scan_keys(
        &self,
        alloc: Global,
        key_column: usize,
        column: usize,
        value: &Value,
    ) -> Result<Vec<Value>, AllocError>
        ensures { IfOk result (λ keys. keys.items ≡ keys_with key_column column value.now self.now) }
    {
        let mut keys = Vec::new(alloc);
        for row in self.iter() {
            if order_key(value, row, column) == Ordering::Equal {
                keys.push(value_at(row, key_column)?)?;
            }
        }
        Ok(keys)
    }

    /// A version equal to this one, in which rows are found by their value in a column without a look at the others. It
    /// takes one pass over the rows, and none where they are found so already, or where the key stands in another
    /// column than that of this version. Only memory can fail.
    pub fn with_index(&self, key_column: usize, column: usize) -> Result<Rows, AllocError>
        ensures equal { IfOk result (λ rows. rows ≡ self.now) }
        ensures short { IfOk result (λ rows. length rows < 2 ^ 63) }
    {
        if !is_keyed(&self.pages, self.column, key_column) || self.indexes.get(column).is_some() {
            return self.copy();
        }
        let index = index_of(&self.pages.merged()?, key_column, column)?;
        let indexes = self.indexes.copy()?.with_index(column, index)?;
        Ok(Rows {
            column: key_column,
            pages: self.pages.copy()?,
            indexes,
        })
    }

    /// The version after a change: under its key, which stands in the column at `key_column`, its new row or none, and
    /// nothing else is another than before. The keys in that column have to ascend, and the new row has to have the
    /// change's key there. Copies of this version stay as they are; what no copy shares is changed where it stands.
    pub fn with(self, key_column: usize, change: &Change) -> Result<Rows, AllocError>
        requires keyed { HasKey value_cmp (value_in key_column) change.now.key change.now.new }
        requires ordered { IsAscending value_cmp (value_in key_column) self }
        ensures changed { IfOk result (λ rows. rows ≡ put_row key_column change.now.key change.now.new self) }
        ensures ordered { IfOk result (λ rows. IsAscending value_cmp (value_in key_column) rows) }
        ensures others { IfOk result (λ rows. (other : values) → row_at key_column other rows
            ≡ if eq_by_cmp value_cmp other change.now.key then change.now.new else row_at key_column other self) }
        ensures short { IfOk result (λ rows. length rows < 2 ^ 63) }
    {
        let indexes = self.indexes_after(key_column, change)?;
        let new = copy_of(&change.new)?;
        let mut pages = by_column(self.pages, self.column, key_column)?;
        pages.put(&change.key, new)?;
        Ok(Rows {
            column: key_column,
            pages,
            indexes,
        })
    }

    /// The indexes of the version after a change; none where the key stands in another column than before.
    fn indexes_after(&self, key_column: usize, change: &Change) -> Result<Indexes, AllocError>
        requires keyed { HasKey value_cmp (value_in key_column) change.now.key change.now.new }
        requires ordered { IsAscending value_cmp (value_in key_column) self.now }
        ensures { IfOk result (λ indexes. AreIndexesOf key_column
            (put_row key_column change.now.key change.now.new self.now) indexes) }
    {
        if key_column != self.column || self.indexes.is_empty() {
            return Ok(Indexes::new(self.pages.allocator()));
        }
        let old = self.get(key_column, &change.key);
        self.indexes.with(&change.key, old, change.new.as_ref())
    }

    /// Rows that were changed since they were last shared come into their place, if nobody shares the others: what the
    /// next version of these has to copy is less then. The rows stay as they are, also where memory runs out.
    pub fn settle(&mut self)
        ensures { self.new ≡ self.old }
    {
        self.pages.settle();
        self.indexes.settle();
    }

    /// A version equal to this one, which shares all rows with it.
    pub fn copy(&self) -> Result<Rows, AllocError>
        ensures { IfOk result (λ copy. copy ≡ self.now) }
    {
        Ok(Rows {
            column: self.column,
            pages: self.pages.copy()?,
            indexes: self.indexes.copy()?,
        })
    }
}

/// Whether the key of each row stands in a column: it is the one that it stands in, or there are no rows.
fn is_keyed(pages: &DifferentialMap<Row>, column: usize, key_column: usize) -> bool
    ensures keyed { IsTrue result → (key_column ≡ column) ⊎ (length pages.now ≡ 0) }
    ensures order { AreInOrder pages.now }
    ensures short { length pages.now < 2 ^ 63 }
{
    pages.recall_order();
    key_column == column || pages.len() == 0
}

/// The index of rows by a column, made in one pass. Each stands under its key.
fn index_of(pages: &Pages<Row>, key_column: usize, column: usize) -> Result<Index, AllocError>
    requires keyed { AreKeyed key_column pages.now }
    requires order { AreInOrder pages.now }
    ensures { IfOk result (λ index. IsIndexOf key_column column (rows_of pages.now) index) }
{
    let mut index = Index::new(pages.allocator());
    for entry in pages.iter() {
        index = index.with_row(column, &entry.0, &entry.1)?;
    }
    Ok(index)
}

/// The rows that are lent, as a list.
fn collect(alloc: Global, rows: IndexScan<'_>) -> Result<Vec<&Row>, AllocError>
    ensures { IfOk result (λ list. map (λ row. row.now) list.items ≡ rows.entry) }
{
    let mut list = Vec::new(alloc);
    for row in rows {
        list.push(row)?;
    }
    Ok(list)
}

/// Keys equal to these.
fn copy_keys(alloc: Global, keys: Keys<'_>) -> Result<Vec<Value>, AllocError>
    ensures { IfOk result (λ copy. copy.items ≡ keys.entry) }
{
    let mut copy = Vec::new(alloc);
    for key in keys {
        copy.push(key.copy()?)?;
    }
    Ok(copy)
}

/// Whether a value is NULL.
fn is_null(value: &Value) -> bool
    ensures { result ≡ not (is_there value.now) }
{
    matches!(value, Value::Null)
}

/// A row equal to this one, if there is one.
fn copy_of(row: &Option<Row>) -> Result<Option<Row>, AllocError>
    ensures { IfOk result (λ copy. copy ≡ row.now) }
{
    match row {
        Some(row) => Ok(Some(row.copy()?)),
        None => Ok(None),
    }
}

/// The rows, each under its key in a column, in which the keys ascend.
fn by_column(
    pages: DifferentialMap<Row>,
    column: usize,
    key_column: usize,
) -> Result<DifferentialMap<Row>, AllocError>
    requires keyed { AreKeyed column pages }
    requires ordered { IsAscending value_cmp (value_in key_column) (rows_of pages) }
    ensures rows { IfOk result (λ made. rows_of made ≡ rows_of pages) }
    ensures keyed { IfOk result (λ made. AreKeyed key_column made) }
{
    if key_column == column {
        Ok(pages)
    } else {
        keyed_by(&pages.merged()?, key_column)
    }
}

/// The rows, each under its key in another column, in which the keys ascend too.
fn keyed_by(pages: &Pages<Row>, key_column: usize) -> Result<DifferentialMap<Row>, AllocError>
    requires { IsAscending value_cmp (value_in key_column) (rows_of pages.now) }
    ensures rows { IfOk result (λ made. rows_of made ≡ rows_of pages.now) }
    ensures keyed { IfOk result (λ made. AreKeyed key_column made) }
{
    let mut made = DifferentialMap::new(pages.allocator());
    for at in 0..pages.len() {
        let row = row_from(pages, at);
        let key = value_at(row, key_column)?;
        let row = row.copy()?;
        made.put(&key, Some(row))?;
    }
    Ok(made)
}

/// The row at a place.
fn row_from(pages: &Pages<Row>, at: usize) -> &Row
    requires { at < length pages.now }
    ensures { drop at (rows_of pages.now) ≡ result.now ∷ drop (at + 1) (rows_of pages.now) }
{
    &pages.page_from(at)[0].1
}

/// The first row under the key in another column, in rows whose keys go up.
fn find_row<'a>(pages: &'a DifferentialMap<Row>, key_column: usize, key: &Value) -> Option<&'a Row>
    ensures { option_copied result ≡ row_at key_column key.now (rows_of pages.now) }
{
    for row in pages.values() {
        match order_key(key, row, key_column) {
            Ordering::Less => return None,
            Ordering::Equal => return Some(row),
            Ordering::Greater => {}
        }
    }
    None
}

/// Where a key stands beside a row's.
fn order_key(key: &Value, row: &Row, key_column: usize) -> Ordering
    ensures { result ≡ value_cmp key.now (value_in key_column row.now) }
{
    match row.values().get(key_column) {
        Some(value) => order(key, value),
        None => order(key, &Value::Null),
    }
}
