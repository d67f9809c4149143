//! The indexes of a version's rows.

ghost use Rattle.std.specs.Prelude.{◌≡◌, ◌==◌, ℕ, List, [], ◌∷◌, ◌++◌, length, IfOk, IfSome};
ghost use Rattle.std.specs.Option.{option_copied};
ghost use Rattle.groups.specs.Indexes.{IsIndexOf};
ghost use Rattle.mvrows.specs.Indexed.{AreIndexesOf, IsReplacement};
ghost use Rattle.table.specs.Rows.{RowValues, put_row};

use groups::Index;
use std::alloc::{AllocError, Global};
use std::marker::Model;
use table::Row;
use value::Value;

/// The index of rows by one of their columns.
#[derive(Debug, Drop)]
pub struct ColumnIndex {
    column: usize,
    index: Index,
}

/// The indexes of a version's rows, each by another column. Where there are none they take no memory.
#[derive(Debug, Drop)]
pub struct Indexes {
    list: Vec<ColumnIndex>,
}

impl Model for Indexes {
    ghost use Rattle.std.specs.Prelude.{List};
    ghost use Rattle.mvrows.specs.declared.indexes.ColumnIndex.{ColumnIndex as column_index};

    ghost Value = { List column_index };

    ghost view = { λ indexes. indexes.list.items };
}

impl Indexes {
    /// No indexes. They take no memory.
    pub fn new(alloc: Global) -> Indexes
        ensures { result ≡ [] }
    {
        Indexes {
            list: Vec::new(alloc),
        }
    }

    /// Whether there is none. It takes no memory.
    pub fn is_empty(&self) -> bool
        ensures { result ≡ (length self.now == 0) }
    {
        self.list.is_empty()
    }

    /// The index by a column, if there is one. It takes no memory.
    pub fn get(&self, column: usize) -> Option<&Index>
        ensures { (key_column : ℕ) (rows : List RowValues) → AreIndexesOf key_column rows self.now
            → IfSome result (λ index. IsIndexOf key_column column rows index.now) }
    {
        for it in &self.list {
            if it.column == column {
                return Some(&it.index);
            }
        }
        None
    }

    /// The indexes after the row under a key becomes another. These stay as they are, also where memory runs out.
    pub fn with(
        &self,
        key: &Value,
        old: Option<&Row>,
        new: Option<&Row>,
    ) -> Result<Indexes, AllocError>
        ensures { IfOk result (λ indexes. (key_column : ℕ) (rows : List RowValues)
            → IsReplacement key_column key.now (option_copied old.entry) (option_copied new.entry) rows
            → AreIndexesOf key_column rows self.now
            → AreIndexesOf key_column (put_row key_column key.now (option_copied new.entry) rows) indexes) }
    {
        let mut list = Vec::new(*self.list.allocator());
        for it in &self.list {
            let index = it.index.copy()?.with(it.column, key, old, new)?;
            list.push(ColumnIndex {
                column: it.column,
                index,
            })?;
        }
        Ok(Indexes { list })
    }

    /// These indexes and one by another column.
    pub fn with_index(self, column: usize, index: Index) -> Result<Indexes, AllocError>
        ensures { IfOk result (λ indexes.
            indexes ≡ self ++ record { column = column; index = index } ∷ []) }
    {
        let mut list = self.list;
        list.push(ColumnIndex { column, index })?;
        Ok(Indexes { list })
    }

    /// Indexes of no rows, by the same columns.
    pub fn emptied(&self) -> Result<Indexes, AllocError>
        ensures { IfOk result (λ indexes. (key_column : ℕ) → AreIndexesOf key_column [] indexes) }
    {
        let alloc = *self.list.allocator();
        let mut list = Vec::new(alloc);
        for it in &self.list {
            list.push(ColumnIndex {
                column: it.column,
                index: Index::new(alloc),
            })?;
        }
        Ok(Indexes { list })
    }

    /// What was changed since it was last shared comes into its place, if nobody shares the rest. The indexes stay as
    /// they are, also where memory runs out.
    pub fn settle(&mut self)
        ensures { self.new ≡ self.old }
    {
        for at in 0..self.list.len() {
            self.list[at].index.settle();
        }
    }

    /// Indexes equal to these, which share all with them.
    pub fn copy(&self) -> Result<Indexes, AllocError>
        ensures { IfOk result (λ copy. copy ≡ self.now) }
    {
        let mut list = Vec::new(*self.list.allocator());
        for it in &self.list {
            list.push(ColumnIndex {
                column: it.column,
                index: it.index.copy()?,
            })?;
        }
        Ok(Indexes { list })
    }
}
