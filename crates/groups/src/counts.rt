//! A multiset of values: each with how often it stands, in order.

ghost use Rattle.std.specs.Prelude.{◌≡◌, ◌==◌, [], None, Some, IfOk, if◌then◌else◌};
ghost use Rattle.std.specs.Option.{option_copied};
ghost use Rattle.groups.specs.Counts.{count_at, count_of, put_count, counts_with, first_value, last_value};

use pages::Pages;
use std::alloc::{AllocError, Global};
use std::marker::Model;
use value::Value;

/// A multiset of values that are not NULL, in the order of the values.
#[derive(Debug, Drop)]
pub struct Counts {
    pages: Pages<u64>,
}

impl Model for Counts {
    ghost use Rattle.std.specs.Prelude.{List, map};
    ghost use Rattle.groups.specs.Counts.{Count, count_from};

    ghost Value = { List Count };

    ghost view = { λ c. map count_from c.pages };
}

impl Counts {
    /// No values.
    pub fn new(alloc: Global) -> Counts
        ensures { result ≡ [] }
    {
        Counts {
            pages: Pages::new(alloc),
        }
    }

    /// How often a value stands. NULL isn't counted.
    pub fn count(&self, value: &Value) -> u64
        ensures { result ≡ count_of value.now self.now }
    {
        match value {
            Value::Null => 0,
            Value::Int(_) | Value::Text(_) => self.number(value),
        }
    }

    /// The values with this one so often. NULL isn't counted.
    pub fn with(&self, value: &Value, count: u64) -> Result<Counts, AllocError>
        ensures { IfOk result (λ counts. counts ≡ counts_with value.now count self.now) }
    {
        match value {
            Value::Null => self.copy(),
            Value::Int(_) | Value::Text(_) => self.put(value, count),
        }
    }

    /// The number that stands for a value, 0 where none does.
    fn number(&self, value: &Value) -> u64
        ensures { result ≡ count_at value.now self.now }
    {
        self.pages.get(value).copied().unwrap_or(0)
    }

    /// The values with this number for one.
    fn put(&self, value: &Value, number: u64) -> Result<Counts, AllocError>
        ensures { IfOk result (λ counts. counts ≡ put_count value.now number self.now) }
    {
        Ok(Counts {
            pages: self.pages.with(value, unless_zero(number))?,
        })
    }

    /// The least of the values, if there is one.
    pub fn least(&self) -> Option<&Value>
        ensures { option_copied result ≡ first_value self.now }
    {
        match self.pages.first() {
            Some(entry) => Some(&entry.0),
            None => None,
        }
    }

    /// The greatest of the values, if there is one.
    pub fn greatest(&self) -> Option<&Value>
        ensures { option_copied result ≡ last_value self.now }
    {
        match self.pages.last() {
            Some(entry) => Some(&entry.0),
            None => None,
        }
    }

    /// A multiset equal to this one, which shares all with it.
    pub fn copy(&self) -> Result<Counts, AllocError>
        ensures { IfOk result (λ copy. copy ≡ self.now) }
    {
        Ok(Counts {
            pages: self.pages.copy()?,
        })
    }
}

/// The number of a value that stands so often; nothing where it does not.
fn unless_zero(number: u64) -> Option<u64>
    ensures { result ≡ (if number == 0 then None else Some number) }
{
    if number == 0 { None } else { Some(number) }
}
