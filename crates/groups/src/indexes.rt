//! Which rows of a table have a value in a column.

ghost use Rattle.std.specs.Prelude.{◌≡◌, ℕ, ◌<◌, ◌^◌, ◌++◌, [], ◌∷◌, Some, List, length, IfOk};
ghost use Rattle.std.specs.Option.{option_copied};
ghost use Rattle.groups.specs.Indexes.{keys_at, keys_with, IsIndexOf};
ghost use Rattle.groups.specs.IndexSteps.{
  known_value,
  unless_null,
  unless_empty,
  put_keys,
  index_more,
  index_less,
  index_after,
};
ghost use Rattle.table.specs.Rows.{RowValues, value_in, row_at, put_row};
ghost use Rattle.value.specs.Ordered.{HasKey, IsAscending};
ghost use Rattle.value.specs.ValueOrder.{value_cmp};

use crate::key_sets::{KeySet, Keys};
use pages::DifferentialMap;
use std::alloc::{AllocError, Global};
use std::cmp::Ordering;
use std::marker::Model;
use table::Row;
use value::{Value, order};

/// For each value in a column of a table the keys of the rows that have it there, in order. NULL has no keys. A copy
/// shares all of it, and a change copies the paths that are still shared.
#[derive(Debug, Drop)]
pub struct Index {
    /// The keys of each value that has any.
    sets: DifferentialMap<KeySet>,
    /// What is lent for every other value.
    empty: KeySet,
}

impl Model for Index {
    ghost use Rattle.std.specs.Prelude.{◌≡◌, []};
    ghost use Rattle.groups.specs.Indexes.{ValueKeys};

    ghost Value = { ValueKeys };

    ghost view = { λ index. index.sets };

    ghost invariant = { λ index. index.empty ≡ [] };
}

impl Index {
    /// The index of a table without rows. It takes no memory.
    pub fn new(alloc: Global) -> Index
        ensures value { result ≡ [] }
        ensures index { (key column : ℕ) → IsIndexOf key column [] result }
    {
        Index {
            sets: DifferentialMap::new(alloc),
            empty: KeySet::new(alloc),
        }
    }

    /// The keys of the rows that have this value in the column, in order, one after the other; none for NULL. It takes
    /// no memory.
    pub fn keys(&self, value: &Value) -> Keys<'_>
        ensures value { result ≡ keys_at value.now self.now }
        // They are those of the rows that the index is of.
        ensures rows { (key column : ℕ) (rows : List RowValues) → IsIndexOf key column rows self.now
            → result ≡ keys_with key column rows value.now }
        ensures short { length (keys_at value.now self.now) < 2 ^ 63 }
    {
        self.key_set(value).iter()
    }

    /// The index by a column after the row under a key becomes another: the key leaves the keys of the old row's value
    /// and joins those of the new row's. Where both have the same value there, or neither has one, nothing changes.
    /// Copies of this index stay as they are; what no copy shares is changed where it stands.
    pub fn with(
        self,
        column: usize,
        key: &Value,
        old: Option<&Row>,
        new: Option<&Row>,
    ) -> Result<Index, AllocError>
        // The index of a table's rows becomes that of the rows with the new one, where the old one is under the key.
        ensures { IfOk result (λ index. (key_column : ℕ) (rows : List RowValues)
            → IsAscending value_cmp (value_in key_column) rows
            → row_at key_column key.now rows ≡ option_copied old.entry
            → HasKey value_cmp (value_in key_column) key.now (option_copied new.entry)
            → IsIndexOf key_column column rows self
            → IsIndexOf key_column column (put_row key_column key.now (option_copied new.entry) rows) index) }
    {
        let gone = optional_value(old, column);
        let come = optional_value(new, column);
        match (gone, come) {
            (None, None) => Ok(self),
            (None, Some(come)) => self.more(come, key),
            (Some(gone), None) => self.less(gone, key),
            (Some(gone), Some(come)) => self.after_replacement(gone, come, key),
        }
    }

    /// The index by a column with one row more, whose key is above those of the others: so an index is made in one pass
    /// over rows in key order. Copies of this index stay as they are.
    pub fn with_row(self, column: usize, key: &Value, row: &Row) -> Result<Index, AllocError>
        // The index of the first rows of a table becomes that of these and the next one.
        ensures { IfOk result (λ index. (key_column : ℕ) (rows rest : List RowValues)
            → IsAscending value_cmp (value_in key_column) (rows ++ row.now ∷ rest)
            → value_in key_column row.now ≡ key.now
            → IsIndexOf key_column column rows self
            → IsIndexOf key_column column (rows ++ row.now ∷ []) index) }
    {
        match row_value(row, column) {
            Some(value) => self.more(value, key),
            None => Ok(self),
        }
    }

    /// The index after a row's value becomes another.
    fn after_replacement(self, old: &Value, new: &Value, key: &Value) -> Result<Index, AllocError>
        ensures { IfOk result (λ index.
            index ≡ index_after (Some old.now) (Some new.now) key.now self) }
    {
        match order(old, new) {
            Ordering::Equal => Ok(self),
            Ordering::Less | Ordering::Greater => self.less(old, key)?.more(new, key),
        }
    }

    /// The index with a key more for a value.
    fn more(self, value: &Value, key: &Value) -> Result<Index, AllocError>
        ensures { IfOk result (λ index. index ≡ index_more value.now key.now self) }
    {
        let keys = self.key_set(value).more(key)?;
        self.put(value, keys)
    }

    /// The index with a key less for a value.
    fn less(self, value: &Value, key: &Value) -> Result<Index, AllocError>
        ensures { IfOk result (λ index. index ≡ index_less value.now key.now self) }
    {
        let keys = self.key_set(value).less(key)?;
        self.put(value, keys)
    }

    /// The keys of a value; no keys where it doesn't stand.
    fn key_set(&self, value: &Value) -> &KeySet
        ensures { result.now ≡ keys_at value.now self.now }
    {
        match self.sets.get(value) {
            Some(keys) => keys,
            None => &self.empty,
        }
    }

    /// The index with these keys for a value, which doesn't stand where there are none.
    fn put(self, value: &Value, keys: KeySet) -> Result<Index, AllocError>
        ensures { IfOk result (λ index. index ≡ put_keys value.now keys self) }
    {
        let mut sets = self.sets;
        sets.put(value, unless_empty(keys))?;
        Ok(Index {
            sets,
            empty: self.empty,
        })
    }

    /// Keys that were changed since they were last shared come into their place, if nobody shares the others. The index
    /// stays as it is, also where memory runs out.
    pub fn settle(&mut self)
        ensures { self.new ≡ self.old }
    {
        self.sets.settle();
    }

    /// An index equal to this one, which shares all with it.
    pub fn copy(&self) -> Result<Index, AllocError>
        ensures { IfOk result (λ copy. copy ≡ self.now) }
    {
        Ok(Index {
            sets: self.sets.copy()?,
            empty: KeySet::new(self.sets.allocator()),
        })
    }
}

/// Keys, if there are any.
fn unless_empty(keys: KeySet) -> Option<KeySet>
    ensures { result ≡ unless_empty keys }
{
    if keys.is_empty() {
        return None;
    }
    Some(keys)
}

/// What a row, if there is one, has in a column, if that is not NULL.
fn optional_value(row: Option<&Row>, column: usize) -> Option<&Value>
    ensures { option_copied result ≡ known_value column (option_copied row.entry) }
{
    match row {
        Some(row) => row_value(row, column),
        None => None,
    }
}

/// What a row has in a column, if that is not NULL.
fn row_value(row: &Row, column: usize) -> Option<&Value>
    ensures { option_copied result ≡ unless_null (value_in column row.now) }
{
    match row.values().get(column) {
        Some(value) => present(value),
        None => None,
    }
}

/// A value that is not NULL.
fn present(value: &Value) -> Option<&Value>
    ensures { option_copied result ≡ unless_null value.now }
{
    match value {
        Value::Null => None,
        Value::Int(_) | Value::Text(_) => Some(value),
    }
}
