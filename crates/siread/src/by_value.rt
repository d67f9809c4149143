//! The readers of one family of keys.

ghost use Rattle.std.specs.Prelude.{◌≡◌, [], true, filter, not, OnOk, OnErr};
ghost use Rattle.siread.specs.Families.{changed_value, is_no_entry, no_readers, reaching_each, readers_of, IsValueCount};
ghost use Rattle.siread.specs.Readers.{is_none, last_reaching, left_out, reaches_above, with_last};

use crate::readers::{Reach, Readers, last_reaching};
use std::alloc::{AllocError, Global};
use std::collections::BTreeMap;
use std::marker::Model;
use value::Value;

/// For each value its readers.
#[derive(Drop)]
pub struct ByValue {
    readers: BTreeMap<Value, Readers>,
}

impl Model for ByValue {
    ghost use Rattle.siread.specs.Families.{ValueReaders};

    ghost Value = { ValueReaders };

    ghost view = { λ family. family.readers.entries };
}

impl ByValue {
    /// No readers. It takes no memory.
    pub fn new(alloc: Global) -> ByValue
        ensures { readers_of result ≡ no_readers }
    {
        ByValue {
            readers: BTreeMap::new(alloc),
        }
    }

    /// The readers of a value, in the order in which they were put.
    pub fn readers(&self, value: &Value) -> &[u64]
        ensures { result.now ≡ readers_of self.now value.now }
    {
        match self.readers.get(value) {
            None => &[],
            Some(readers) => readers.as_slice(),
        }
    }

    /// The last reader of a value that reaches so far, 0 where there is none.
    pub fn last(&self, value: &Value, reach: &Reach) -> u64
        ensures { result ≡ last_reaching reach.now.least reach.now.reaches.now (readers_of self.now value.now) }
    {
        last_reaching(self.readers(value), reach)
    }

    /// One reader more of a value, if it isn't the last of them already. Where it finds no memory, all is as it was.
    pub fn put(&mut self, alloc: Global, number: u64, value: &Value) -> Result<(), AllocError>
        ensures put { OnOk result (readers_of self.new
            ≡ changed_value value.now (with_last number) (readers_of self.old)) }
        ensures unchanged { OnErr result (readers_of self.new ≡ readers_of self.old) }
    {
        match self.readers.get_mut(value) {
            Some(readers) => {
                readers.put_last(number)?;
                Ok(())
            }
            None => {
                let readers = Readers::from_one(alloc, number)?;
                self.readers.insert(value.copy()?, readers)?;
                Ok(())
            }
        }
    }

    /// A reader of a value taken out, and the value too where it was the last.
    pub fn take(&mut self, number: u64, value: &Value)
        ensures { readers_of self.new ≡ changed_value value.now (left_out number) (readers_of self.old) }
    {
        if self.take_from(number, value) {
            self.forget(value);
        }
    }

    /// Keeps the readers alone that reach above a number, and says whether some are left.
    pub fn keeps_some_reaching(&mut self, low: u64, reaches: &[u64]) -> bool
        ensures kept { readers_of self.new ≡ reaching_each low reaches.now (readers_of self.old) }
        ensures some { result ≡ not (is_no_entry self.new) }
    {
        self.keep_reaching(low, reaches);
        !self.readers.is_empty()
    }

    /// The number of pairs of a value and a reader of it, or the most that a `usize` holds.
    pub fn len(&self) -> usize
        ensures { IsValueCount self.now result }
    {
        let mut count = 0usize;
        for readers in self.readers.values() {
            count = count.saturating_add(readers.len());
        }
        count
    }

    /// Keeps the readers alone that reach above a number, and the values that have some.
    fn keep_reaching(&mut self, low: u64, reaches: &[u64])
        ensures { readers_of self.new ≡ reaching_each low reaches.now (readers_of self.old) }
    {
        self.readers.retain(
            |_value, readers|
                ensures kept { readers.new ≡ filter (reaches_above low reaches.entry.now) readers.old }
                ensures some { result ≡ not (is_none readers.new) }
            { readers.keeps_some_reaching(low, reaches) },
        );
    }

    /// A reader of a value taken out, and whether the value then has none.
    fn take_from(&mut self, number: u64, value: &Value) -> bool
        ensures taken { readers_of self.new ≡ changed_value value.now (left_out number) (readers_of self.old) }
        ensures left { result ≡ true → readers_of self.new value.now ≡ [] }
    {
        let Some(readers) = self.readers.get_mut(value) else {
            return false;
        };
        readers.leave_out(number);
        readers.is_empty()
    }

    /// A value without readers taken out.
    fn forget(&mut self, value: &Value)
        requires { readers_of self.old value.now ≡ [] }
        ensures { readers_of self.new ≡ readers_of self.old }
    {
        self.readers.remove(value);
    }
}
