//! The total of one group.

ghost use Rattle.std.specs.Prelude.{◌≡◌, ◌==◌, ◌++◌, ◌∷◌, [], List, map, IfOk};
ghost use Rattle.value.specs.declared.values.Value.{Value as values};
ghost use Rattle.table.specs.Aggregates.{number_of, aggregate as aggregate_of};
ghost use Rattle.table.specs.declared.aggregates.Aggregate.{Aggregate as functions};
ghost use Rattle.table.specs.Rows.{RowValues};
ghost use Rattle.table.specs.Kinds.{kind_of_aggregate};
ghost use Rattle.table.specs.Slots.{IsWithinKind, kind_of, value_of};
ghost use Rattle.groups.specs.Answers.{answer_from, sum_from, value_for};
ghost use Rattle.groups.specs.Steps.{no_figures, there_of, there_if, number_if, one_more, one_less, stands as stands_of, values_with as values_with_of, is_taken as is_taken_of};
ghost use Rattle.groups.specs.Totals.{keeps_values as keeps_values_of, IsTotalOf, IsWithin};

use crate::counts::Counts;
use std::alloc::{AllocError, Global};
use std::marker::Model;
use table::{Aggregate, SlotValue};
use value::{Copied, Value};

/// What a set function needs of a group's rows: how many there are, and of their values that are not NULL how many and
/// their sum, with DISTINCT of each value once; and for MIN, MAX and DISTINCT how often each of them stands.
#[derive(Debug, Drop)]
pub struct Total {
    rows: u64,
    there: u64,
    sum: i128,
    values: Counts,
}

impl Model for Total {
    ghost use Rattle.groups.specs.Figures.{Figures};

    ghost Value = { Figures };

    ghost view = { λ t. record { rows = t.rows; there = t.there; sum = t.sum; values = t.values } };
}

impl Total {
    /// The total of no rows. It takes no memory.
    pub fn new(alloc: Global) -> Total
        ensures value { result ≡ no_figures }
        ensures total { (asked : functions) → IsTotalOf asked [] result }
    {
        Total {
            rows: 0,
            there: 0,
            sum: 0,
            values: Counts::new(alloc),
        }
    }

    /// The number of rows.
    pub fn rows(&self) -> u64
        ensures { result ≡ self.now.rows }
    {
        self.rows
    }

    /// Whether there are no rows.
    pub fn is_empty(&self) -> bool
        ensures { result ≡ (self.now.rows == 0) }
    {
        self.rows == 0
    }

    /// What a set function gives of the rows, where the total is what it asks for. MIN or MAX of texts copies one, and
    /// nothing else takes memory.
    pub fn answer(&self, aggregate: Aggregate) -> Result<SlotValue, AllocError>
        ensures kind { IfOk result (λ answer. kind_of answer ≡ kind_of_aggregate aggregate) }
        // It is what the set function gives of the rows from scratch.
        ensures answer { IfOk result (λ answer. (rows : List RowValues)
            → IsTotalOf aggregate (map (value_for aggregate) rows) self.now
            → value_of answer ≡ aggregate_of aggregate rows) }
        ensures within { IfOk result (λ answer. (vs : List values)
            → IsTotalOf aggregate vs self.now → IsWithin vs → IsWithinKind answer) }
    {
        self.figure(aggregate)
    }

    /// The figure that a set function asks for.
    fn figure(&self, aggregate: Aggregate) -> Result<SlotValue, AllocError>
        ensures { IfOk result (λ answer. answer ≡ answer_from aggregate self.now) }
    {
        match aggregate {
            Aggregate::CountRows => Ok(SlotValue::Count(self.rows)),
            Aggregate::Count(_) | Aggregate::CountDistinct(_) => Ok(SlotValue::Count(self.there)),
            Aggregate::Sum(_) | Aggregate::SumDistinct(_) => Ok(self.sum_or_null()),
            Aggregate::Min(_) => match self.values.least() {
                Some(value) => Ok(SlotValue::Extreme(value.copy()?)),
                None => Ok(SlotValue::Extreme(Value::Null)),
            },
            Aggregate::Max(_) => match self.values.greatest() {
                Some(value) => Ok(SlotValue::Extreme(value.copy()?)),
                None => Ok(SlotValue::Extreme(Value::Null)),
            },
        }
    }

    /// The sum, where a value is there.
    fn sum_or_null(&self) -> SlotValue
        ensures { result ≡ sum_from self.now }
    {
        if self.there == 0 {
            return SlotValue::Sum(None);
        }
        SlotValue::Sum(Some(self.sum))
    }

    /// The total with one row more, which has this value, for the set function that is asked for. This one stays as it
    /// is.
    pub fn with(&self, asked: Aggregate, value: &Value) -> Result<Total, AllocError>
        // The total of some values becomes that of these and the new one.
        ensures { IfOk result (λ total. (vs : List values) → IsTotalOf asked vs self.now
            → IsWithin (vs ++ value.now ∷ []) → IsTotalOf asked (vs ++ value.now ∷ []) total) }
    {
        self.more(asked, value)
    }

    /// The total with one row more, which has this value.
    pub(crate) fn more(&self, asked: Aggregate, value: &Value) -> Result<Total, AllocError>
        ensures { IfOk result (λ total. total ≡ one_more asked value.now self.now) }
    {
        let others = self.stands(asked, value);
        let comes = is_taken(asked, others);
        Ok(Total {
            rows: self.rows.saturating_add(1),
            there: self.there.saturating_add(there(comes, value)),
            sum: self.sum.saturating_add(number(comes, value)),
            values: self.values_with(asked, value, others.saturating_add(1))?,
        })
    }

    /// The total with one row less, which has this value.
    pub(crate) fn less(&self, asked: Aggregate, value: &Value) -> Result<Total, AllocError>
        ensures { IfOk result (λ total. total ≡ one_less asked value.now self.now) }
    {
        let others = self.stands(asked, value).saturating_sub(1);
        let goes = is_taken(asked, others);
        Ok(Total {
            rows: self.rows.saturating_sub(1),
            there: self.there.saturating_sub(there(goes, value)),
            sum: self.sum.saturating_sub(number(goes, value)),
            values: self.values_with(asked, value, others)?,
        })
    }

    /// How often a value stands, where the values are kept; else 0, and nothing is looked up.
    fn stands(&self, asked: Aggregate, value: &Value) -> u64
        ensures { result ≡ stands_of asked value.now self.now.values }
    {
        if keeps_values(asked) {
            self.values.count(value)
        } else {
            0
        }
    }

    /// The values with this one so often, where they are kept.
    fn values_with(&self, asked: Aggregate, value: &Value, count: u64) -> Result<Counts, AllocError>
        ensures { IfOk result (λ counts. counts ≡ values_with_of asked value.now count self.now.values) }
    {
        if keeps_values(asked) {
            self.values.with(value, count)
        } else {
            self.values.copy()
        }
    }

    /// A total equal to this one, which shares all values with it.
    pub fn copy(&self) -> Result<Total, AllocError>
        ensures { IfOk result (λ copy. copy ≡ self.now) }
    {
        Ok(Total {
            rows: self.rows,
            there: self.there,
            sum: self.sum,
            values: self.values.copy()?,
        })
    }
}

impl Copied for Total {
    fn copied(&self) -> Result<Total, AllocError> {
        self.copy()
    }
}

/// Whether a set function needs to know how often each value stands: what is the least once the least one went, and
/// whether another row has a value that goes.
fn keeps_values(aggregate: Aggregate) -> bool
    ensures { result ≡ keeps_values_of aggregate }
{
    match aggregate {
        Aggregate::CountRows | Aggregate::Count(_) | Aggregate::Sum(_) => false,
        Aggregate::CountDistinct(_) | Aggregate::SumDistinct(_) => true,
        Aggregate::Min(_) | Aggregate::Max(_) => true,
    }
}

/// Whether a set function takes a value that so many other rows have: with DISTINCT only where none of them has it.
fn is_taken(aggregate: Aggregate, others: u64) -> bool
    ensures { result ≡ is_taken_of aggregate others }
{
    match aggregate {
        Aggregate::CountDistinct(_) | Aggregate::SumDistinct(_) => others == 0,
        Aggregate::CountRows | Aggregate::Count(_) | Aggregate::Sum(_) => true,
        Aggregate::Min(_) | Aggregate::Max(_) => true,
    }
}

/// How many values that are not NULL a value is, if it is taken.
fn there(taken: bool, value: &Value) -> u64
    ensures { result ≡ there_if taken value.now }
{
    match value {
        Value::Int(_) | Value::Text(_) if taken => 1,
        Value::Null | Value::Int(_) | Value::Text(_) => 0,
    }
}

/// The number that a value is, if it is taken and is one; else 0.
fn number(taken: bool, value: &Value) -> i128
    ensures { result ≡ number_if taken value.now }
{
    match value {
        Value::Int(number) if taken => i128::from(*number),
        Value::Null | Value::Int(_) | Value::Text(_) => 0,
    }
}
