//! The table of all reads.

ghost use Rattle.std.specs.Prelude.{◌≡◌, ◌+◌, ◌∷◌, [], ℕ, not, OnOk, OnErr};
ghost use Rattle.table.specs.Rows.{value_in};
ghost use Rattle.siread.specs.Families.{is_no_entry, last_in, last_over, last_under, reaching_each, readers_of, IsFamilyCount};
ghost use Rattle.siread.specs.Locks.{changed_at, no_reads, reads_above, readers_at, with_reader, without_reader, AreBelow, IsCount, IsGreatestReader, IsPartlyPut, IsUndone};
ghost use Rattle.siread.specs.Readers.{last_reaching, left_out, with_last, ReachNoFurther};

use crate::by_value::ByValue;
use crate::keys::{Family, LockKey};
use crate::readers::Reach;
use std::alloc::{AllocError, Global};
use std::collections::BTreeMap;
use std::marker::Model;
use table::{Change, Row};
use value::Value;

/// Who read what: for each key the ascending list of its readers, each the number of a commit. The keys of a family
/// stand under their values, so that a value of a row is looked up as it stands there.
#[derive(Drop)]
pub struct LockTable {
    alloc: Global,
    families: BTreeMap<Family, ByValue>,
}

impl Model for LockTable {
    ghost use Rattle.siread.specs.Locks.{AreAscending, Locks, readers_at};

    ghost Value = { Locks };

    ghost view = { λ table. table.families.entries };

    ghost invariant = { λ table. AreAscending (readers_at table.families.entries) };
}

impl LockTable {
    /// The table without readers. It takes no memory.
    pub fn new(alloc: Global) -> LockTable
        ensures empty { readers_at result ≡ no_reads }
        ensures below { (number : ℕ) → AreBelow number (readers_at result) }
    {
        LockTable {
            alloc,
            families: BTreeMap::new(alloc),
        }
    }

    /// The readers of a key, in ascending order. It takes no memory.
    pub fn readers(&self, key: &LockKey) -> &[u64]
        ensures { result.now ≡ readers_at self.now key.now }
    {
        let null = Value::Null;
        let (family, value) = key.parts(&null);
        match self.families.get(&family) {
            None => &[],
            Some(readers) => readers.readers(value),
        }
    }

    /// The number of pairs of a key and a reader of it, or the most that a `usize` holds. It takes no memory.
    pub fn len(&self) -> usize
        ensures { IsCount (readers_at self.now) result }
    {
        let mut count = 0usize;
        for (family, readers) in self.families.iter() {
            count = count.saturating_add(count_of(family, readers));
        }
        count
    }

    /// The greatest reader of the keys that some changes touch, of those that reach at least so far, or 0 where there
    /// is none. How far a reader reaches stands in `reaches`, from the number 1 on; past its end that is 0. It takes no
    /// memory.
    pub fn greatest_reader(&self, changes: &[Change], least: u64, reaches: &[u64]) -> u64
        requires no_further { ReachNoFurther reaches.now }
        ensures { IsGreatestReader (readers_at self.now) changes.now least reaches.now result }
    {
        let reach = Reach { least, reaches };
        let mut greatest = 0;
        for change in changes {
            greatest = self.greatest_touched(change, &reach).max(greatest);
        }
        greatest
    }

    /// One reader more, of these keys. Its number is above those of all readers so far.
    ///
    /// # Errors
    ///
    /// Want of memory. The table is then as it was.
    pub fn put(&mut self, number: u64, keys: &[LockKey]) -> Result<(), AllocError>
        requires { AreBelow number (readers_at self.old) }
        ensures put { OnOk result (readers_at self.new ≡ with_reader number keys.now (readers_at self.old)) }
        ensures below { OnOk result (AreBelow (number + 1) (readers_at self.new)) }
        ensures unchanged { OnErr result (readers_at self.new ≡ readers_at self.old) }
    {
        match self.put_each(number, keys) {
            Ok(()) => Ok(()),
            Err(error) => {
                self.take_back(number, keys);
                Err(error)
            }
        }
    }

    /// Takes a reader out of these keys, and so undoes its `put`. It takes no memory.
    pub fn take_back(&mut self, number: u64, keys: &[LockKey])
        ensures taken { readers_at self.new ≡ without_reader number keys.now (readers_at self.old) }
        ensures undone { IsUndone number keys.now (readers_at self.old) (readers_at self.new) }
    {
        for key in keys {
            self.take_one(number, key);
        }
    }

    /// Keeps the readers alone that reach above a number, of all keys. How far a reader reaches stands in `reaches`,
    /// from the number 1 on; past its end that is 0. It takes no memory.
    pub fn trim(&mut self, low: u64, reaches: &[u64])
        ensures { readers_at self.new ≡ reads_above low reaches.now (readers_at self.old) }
    {
        keep_reaching(&mut self.families, low, reaches);
    }

    /// Puts a reader to these keys one after the other, up to the first that finds no memory.
    fn put_each(&mut self, number: u64, keys: &[LockKey]) -> Result<(), AllocError>
        requires { AreBelow number (readers_at self.old) }
        ensures put { OnOk result (readers_at self.new ≡ with_reader number keys.now (readers_at self.old)) }
        ensures part { OnErr result (IsPartlyPut number keys.now (readers_at self.old) (readers_at self.new)) }
    {
        for key in keys {
            self.put_one(number, key)?;
        }
        Ok(())
    }

    /// One reader more of a key, if it isn't the last of them already.
    fn put_one(&mut self, number: u64, key: &LockKey) -> Result<(), AllocError>
        requires { AreBelow (number + 1) (readers_at self.old) }
        ensures put { OnOk result (readers_at self.new ≡ changed_at key.now (with_last number) (readers_at self.old)) }
        ensures unchanged { OnErr result (readers_at self.new ≡ readers_at self.old) }
    {
        let null = Value::Null;
        let (family, value) = key.parts(&null);
        match self.families.get_mut(&family) {
            Some(readers) => {
                readers.put(self.alloc, number, value)?;
                Ok(())
            }
            None => {
                let mut readers = ByValue::new(self.alloc);
                readers.put(self.alloc, number, value)?;
                self.families.insert(family, readers)?;
                Ok(())
            }
        }
    }

    /// A reader of a key taken out.
    fn take_one(&mut self, number: u64, key: &LockKey)
        ensures { readers_at self.new ≡ changed_at key.now (left_out number) (readers_at self.old) }
    {
        let null = Value::Null;
        let (family, value) = key.parts(&null);
        if let Some(readers) = self.families.get_mut(&family) {
            readers.take(number, value);
        }
    }

    /// The greatest reader of the keys that a change touches, of those that reach so far, or 0 where there is none. Of
    /// a key's readers it is the last that does.
    fn greatest_touched(&self, change: &Change, reach: &Reach) -> u64
        requires no_further { ReachNoFurther reach.now.reaches.now }
        ensures { IsGreatestReader (readers_at self.now) (change.now ∷ [])
            reach.now.least reach.now.reaches.now result }
    {
        let mut greatest = 0;
        for (family, readers) in self.families.iter() {
            greatest = last_in(family, readers, change, reach).max(greatest);
        }
        greatest
    }
}

/// Keeps the readers alone that reach above a number, and the families that have some.
fn keep_reaching(families: &mut BTreeMap<Family, ByValue>, low: u64, reaches: &[u64])
    ensures { readers_at families.new.entries ≡ reads_above low reaches.now (readers_at families.old.entries) }
{
    families.retain(
        |_family, readers|
            ensures kept { readers_of readers.new ≡ reaching_each low reaches.entry.now (readers_of readers.old) }
            ensures some { result ≡ not (is_no_entry readers.new) }
        { readers.keeps_some_reaching(low, reaches) },
    );
}

/// The number of readers of a family's keys. All that is under a table is its key under NULL.
fn count_of(family: &Family, readers: &ByValue) -> usize
    ensures { IsFamilyCount family.now readers.now result }
{
    match family {
        Family::Table(_) => readers.readers(&Value::Null).len(),
        Family::Rows(_) | Family::Column { .. } => readers.len(),
    }
}

/// The greatest of the last readers that reach so far of those keys of a family that a change touches, or 0 where
/// there is none.
fn last_in(family: &Family, readers: &ByValue, change: &Change, reach: &Reach) -> u64
    ensures { result
        ≡ last_in (last_reaching reach.now.least reach.now.reaches.now) change.now family.now readers.now }
{
    let old = last_over(family, readers, change, &change.old, reach);
    let new = last_over(family, readers, change, &change.new, reach);
    old.max(new)
}

/// The last reader that reaches so far of the key of a family that a row, if there is one, is under where the change
/// stands.
fn last_over(
    family: &Family,
    readers: &ByValue,
    change: &Change,
    row: &Option<Row>,
    reach: &Reach,
) -> u64
    ensures { result
        ≡ last_over (last_reaching reach.now.least reach.now.reaches.now) family.now readers.now
        (record { table = change.now.table; key = change.now.key }) row.now }
{
    match row {
        None => 0,
        Some(row) => last_under(family, readers, change, row, reach),
    }
}

/// The last reader that reaches so far of the key of a family that a row is under where the change stands.
fn last_under(family: &Family, readers: &ByValue, change: &Change, row: &Row, reach: &Reach) -> u64
    ensures { result
        ≡ last_under (last_reaching reach.now.least reach.now.reaches.now) family.now readers.now
        (record { table = change.now.table; key = change.now.key }) row.now }
{
    match family {
        Family::Rows(table) if *table == change.table => readers.last(&change.key, reach),
        Family::Column { table, column } if *table == change.table => {
            last_with(readers, row, *column, reach)
        }
        Family::Table(table) if *table == change.table => readers.last(&Value::Null, reach),
        _ => 0,
    }
}

/// The last reader that reaches so far of what a row has in a column. Past its last column a row has NULL.
fn last_with(readers: &ByValue, row: &Row, column: usize, reach: &Reach) -> u64
    ensures { result
        ≡ last_reaching reach.now.least reach.now.reaches.now (readers_of readers.now (value_in column row.now)) }
{
    match row.values().get(column) {
        Some(value) => readers.last(value, reach),
        None => readers.last(&Value::Null, reach),
    }
}
