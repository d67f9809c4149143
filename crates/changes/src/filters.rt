//! A WHERE on a table, with the key under which it reads the table.

ghost use Rattle.std.specs.Prelude.{◌≡◌, IfOk};
ghost use Rattle.alone.specs.Reads.{filter_key};

use crate::wheres::filter_key;
use siread::LockKey;
use std::alloc::AllocError;
use std::marker::Model;
use table::Cond;

/// A WHERE on a table, and the key under which it reads the table, which is found once: it is what the statement has
/// read, and it says whether the rows to test are one or all.
#[derive(Drop)]
pub struct TableFilter<'a> {
    table: usize,
    key_column: usize,
    condition: &'a Cond,
    read: LockKey,
}

impl<'a> Model for TableFilter<'a> {
    ghost use Rattle.std.specs.Prelude.{◌≡◌};
    ghost use Rattle.std.specs.Coded.{codes};
    ghost use Rattle.table.specs.contracts.conds.Cond as cond_type;
    ghost use Rattle.alone.specs.Reads.{filter_key};
    ghost use Rattle.changes.specs.Filters.{Filter};

    ghost Value = { Filter };

    ghost coded = { Prim.hlevel (codes, cond_type.the_row.coded) };

    ghost view = { λ f. record { table = f.table; key = f.key_column; condition = f.condition.now } };

    ghost invariant = { λ f. f.read ≡ filter_key f.table f.key_column f.condition.now };
}

impl<'a> TableFilter<'a> {
    /// A WHERE on the table at a place, whose key column is this one.
    pub fn new(
        table: usize,
        key_column: usize,
        condition: &'a Cond,
    ) -> Result<TableFilter<'a>, AllocError>
        ensures { IfOk result (λ made. made
            ≡ record { table = table; key = key_column; condition = condition.now }) }
    {
        Ok(TableFilter {
            table,
            key_column,
            condition,
            read: filter_key(table, key_column, condition)?,
        })
    }

    /// The table's place.
    pub fn table(&self) -> usize
        ensures { result ≡ self.now.table }
    {
        self.table
    }

    /// The place of the table's key column.
    pub fn key_column(&self) -> usize
        ensures { result ≡ self.now.key }
    {
        self.key_column
    }

    /// The condition that a row has to meet.
    pub fn condition(&self) -> &'a Cond
        ensures { result.now ≡ self.now.condition }
    {
        self.condition
    }

    /// The key under which it reads the table. It takes no memory.
    pub fn read(&self) -> &LockKey
        ensures { result.now ≡ filter_key self.now.table self.now.key self.now.condition }
    {
        &self.read
    }

    /// The same, out of the filter, which is used up. It takes no memory.
    pub fn into_read(self) -> LockKey
        ensures { result ≡ filter_key self.entry.table self.entry.key self.entry.condition }
    {
        let TableFilter {
            table: _,
            key_column: _,
            condition: _,
            read,
        } = self;
        read
    }
}
