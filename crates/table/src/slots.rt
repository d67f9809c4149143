//! The values of aggregates and subqueries beside a row.

ghost use Rattle.std.specs.Prelude.{◌≡◌, ◌≤◌, [], ◌∷◌, ◌++◌, map, IfOk, OnOk, OnErr, slice_index_or};
ghost use Rattle.value.specs.declared.values.Value.TheVariants as value;
ghost use Rattle.table.specs.Bounds.{IsSmallRow, limit_at};
ghost use Rattle.table.specs.Slots.{IsWithinKind, kinds_of, magnitude, values_of};
ghost use Rattle.table.specs.declared.slots.SlotKind.TheVariants as kind;
ghost use Rattle.table.specs.Shown.{lent_value};

use crate::evals::{LentValue, lend_value};
use crate::rows::Row;
use std::alloc::{AllocError, Global};
use std::marker::Model;
use value::Value;

/// Which set function a slot holds, where that decides how large its number can be.
#[derive(Clone, Copy, Debug, PartialEq, Eq)]
pub enum SlotKind {
    /// COUNT, and the count of rows that EXISTS asks for.
    Count,
    Sum,
    /// MIN or MAX.
    Extreme,
}

/// What a set function gives. SUM of no value is `None`, and MIN or MAX of none is NULL.
#[derive(Debug, Drop)]
pub enum SlotValue {
    Count(u64),
    Sum(Option<i128>),
    Extreme(Value),
}

/// The values of the slots, in order.
#[derive(Debug, Drop)]
pub struct Slots {
    values: Vec<SlotValue>,
}

impl Model for Slots {
    ghost use Rattle.std.specs.Prelude.{All};
    ghost use Rattle.table.specs.Slots.{SlotValues, IsWithinKind};

    ghost Value = { SlotValues };

    ghost view = { λ slots. slots.values.items };

    ghost invariant = { λ slots. All IsWithinKind slots.values.items };
}

impl Slots {
    /// No slot, as for a condition of WHERE. It takes no memory.
    pub fn new(alloc: Global) -> Slots
        ensures { result ≡ [] }
    {
        Slots {
            values: Vec::new(alloc),
        }
    }

    /// The values of a row, each in the slot of its column's place.
    pub fn of_row(alloc: Global, row: &Row) -> Result<Slots, AllocError>
        requires { IsSmallRow row.now }
        ensures kinds { IfOk result (λ slots. kinds_of slots ≡ map (λ v. kind.Extreme) row.now) }
        ensures values { IfOk result (λ slots. values_of slots ≡ row.now) }
    {
        let mut slots = Slots::new(alloc);
        for value in row.values() {
            slots.push(SlotValue::Extreme(value.copy()?))?;
        }
        Ok(slots)
    }

    /// Puts one more slot behind the others. After an error they are as before.
    pub fn push(&mut self, value: SlotValue) -> Result<(), AllocError>
        requires { IsWithinKind value }
        ensures ok { OnOk result (self.new ≡ self.old ++ value ∷ []) }
        ensures err { OnErr result (self.new ≡ self.old) }
    {
        self.values.push(value)?;
        Ok(())
    }

    /// What stands in a slot: NULL where there is none.
    pub fn get(&self, slot: usize) -> LentValue<'_>
        ensures value { lent_value result ≡ slice_index_or (values_of self.now) slot value.Null }
        ensures small { magnitude (lent_value result) ≤ limit_at (kinds_of self.now) slot }
    {
        value_in_slot(self.values.as_slice(), slot)
    }
}

/// What stands in one of these slots: NULL where there is none.
fn value_in_slot(values: &[SlotValue], slot: usize) -> LentValue<'_>
    ensures { lent_value result ≡ slice_index_or (values_of values.now) slot value.Null }
{
    match values.get(slot) {
        Some(SlotValue::Count(count)) => LentValue::Number(*count as i128),
        Some(SlotValue::Sum(Some(sum))) => LentValue::Number(*sum),
        Some(SlotValue::Extreme(value)) => lend_value(value),
        Some(SlotValue::Sum(None)) | None => LentValue::Null,
    }
}
