//! The readers of one key.

ghost use Rattle.std.specs.Prelude.{◌≡◌, [], ◌∷◌, length, filter, not, slice_index_or, IfOk, OnOk, OnErr};
ghost use Rattle.siread.specs.Readers.{ends_in, is_none, last_reaching, left_out, reach_of, reaches_above, with_last};

use std::alloc::{AllocError, Global};
use std::marker::Model;

/// The numbers of those who read one key.
#[derive(Debug, Drop)]
pub struct Readers {
    numbers: Vec<u64>,
}

impl Model for Readers {
    ghost use Rattle.std.specs.Prelude.{ℕ, List};

    ghost Value = { List ℕ };

    ghost view = { λ readers. readers.numbers.items };
}

impl Readers {
    /// One reader.
    pub fn from_one(alloc: Global, number: u64) -> Result<Readers, AllocError>
        ensures { IfOk result (λ readers. readers ≡ number ∷ []) }
    {
        let mut numbers = Vec::new(alloc);
        numbers.push(number)?;
        Ok(Readers { numbers })
    }

    /// Puts a number last, unless it stands there. Where it finds no memory, they are as they were.
    pub fn put_last(&mut self, number: u64) -> Result<(), AllocError>
        ensures put { OnOk result (self.new ≡ with_last number self.old) }
        ensures unchanged { OnErr result (self.new ≡ self.old) }
    {
        if self.ends_in(number) {
            return Ok(());
        }
        self.numbers.push(number)?;
        Ok(())
    }

    fn ends_in(&self, number: u64) -> bool
        ensures { result ≡ ends_in number self.now }
    {
        match self.numbers.last() {
            None => false,
            Some(last) => *last == number,
        }
    }

    /// Takes a number out.
    pub fn leave_out(&mut self, number: u64)
        ensures { self.new ≡ left_out number self.old }
    {
        self.numbers.retain(|reader| *reader != number);
    }

    /// Keeps those alone that reach above a number.
    pub fn keep_reaching(&mut self, low: u64, reaches: &[u64])
        ensures { self.new ≡ filter (reaches_above low reaches.now) self.old }
    {
        self.numbers
            .retain(|reader| low < reach_of(reaches, *reader));
    }

    /// The same, and whether some are left.
    pub fn keeps_some_reaching(&mut self, low: u64, reaches: &[u64]) -> bool
        ensures kept { self.new ≡ filter (reaches_above low reaches.now) self.old }
        ensures some { result ≡ not (is_none self.new) }
    {
        self.keep_reaching(low, reaches);
        !self.is_empty()
    }

    pub fn is_empty(&self) -> bool
        ensures { result ≡ is_none self.now }
    {
        self.numbers.is_empty()
    }

    pub fn len(&self) -> usize
        ensures { result ≡ length self.now }
    {
        self.numbers.len()
    }

    pub fn as_slice(&self) -> &[u64]
        ensures { result.now ≡ self.now }
    {
        self.numbers.as_slice()
    }
}

/// Which readers are asked for: those that reach so far.
#[derive(Clone, Copy)]
pub struct Reach<'a> {
    /// How far at least.
    pub least: u64,
    /// How far the reader of each number reaches, from the number 1 on.
    pub reaches: &'a [u64],
}

/// The last of some readers that reaches so far, 0 where none does. They are gone through from the end, up to the first
/// that is below the least: those before it reach less far.
pub fn last_reaching(readers: &[u64], reach: &Reach) -> u64
    ensures { result ≡ last_reaching reach.now.least reach.now.reaches.now readers.now }
{
    for at in (0..readers.len()).rev() {
        let reader = readers[at];
        if reader < reach.least {
            return 0;
        }
        if reach.least <= reach_of(reach.reaches, reader) {
            return reader;
        }
    }
    0
}

/// How far the reader of a number reaches, 0 where that is not said.
fn reach_of(reaches: &[u64], number: u64) -> u64
    ensures { result ≡ reach_of reaches.now number }
{
    match number.checked_sub(1) {
        None => 0,
        Some(before) => reach_at(reaches, before as usize),
    }
}

fn reach_at(reaches: &[u64], at: usize) -> u64
    ensures { result ≡ slice_index_or reaches.now at 0 }
{
    match reaches.get(at) {
        None => 0,
        Some(reach) => *reach,
    }
}
