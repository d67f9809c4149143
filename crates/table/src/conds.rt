//! Conditions.

ghost use Rattle.std.specs.Prelude.{◌≡◌, IfOk};
ghost use Rattle.table.specs.Conditions.{between_of, in_of};
ghost use Rattle.table.specs.Slotless.{has_slots};

use crate::exprs::Expr;
use sqlite_items::{Boxed, Items};
use std::alloc::{AllocError, Global};
use value::{Comparison, Truth};

/// A condition over the columns of a row and the slots beside it. An And of no part is true, and an Or of none false.
#[derive(Debug, Drop)]
pub enum Cond {
    Compare(Comparison, Expr, Expr),
    IsNull(Expr),
    /// EXISTS: whether the count of the subquery's rows, which stands in this slot, is above 0.
    Exists(usize),
    Is(Boxed<Cond>, Truth),
    Not(Boxed<Cond>),
    And(Items<Cond>),
    Or(Items<Cond>),
}

impl Cond {
    /// Whether there is a slot in it, so that its truth is not that of the row alone. It takes no memory.
    pub fn has_slots(&self) -> bool
        ensures { result ≡ has_slots self.now }
    {
        match self {
            Cond::Compare(_, left, right) => left.has_slots() || right.has_slots(),
            Cond::IsNull(part) => part.has_slots(),
            Cond::Exists(_) => true,
            Cond::Is(part, _) | Cond::Not(part) => part.get().has_slots(),
            Cond::And(parts) | Cond::Or(parts) => {
                for part in parts.as_slice() {
                    if part.has_slots() {
                        return true;
                    }
                }
                false
            }
        }
    }

    /// NOT of a condition.
    pub fn negation(alloc: Global, part: Cond) -> Result<Cond, AllocError>
        ensures { IfOk result (λ made. made ≡ Cond.Not part) }
    {
        Ok(Cond::Not(Boxed::new(alloc, part)?))
    }

    /// `subject BETWEEN low AND high`: at least the one and at most the other.
    pub fn between(alloc: Global, subject: Expr, low: Expr, high: Expr) -> Result<Cond, AllocError>
        ensures { IfOk result (λ made. made ≡ between_of subject low high) }
    {
        let again = subject.copy(alloc)?;
        let mut parts = Vec::with_capacity(alloc, 2)?;
        parts.push(Cond::Compare(Comparison::AtLeast, subject, low))?;
        parts.push(Cond::Compare(Comparison::AtMost, again, high))?;
        Ok(Cond::And(Items::from_vec(parts)))
    }

    /// `subject IN (values)`: an Or of one equality for each value, also where there is one value alone.
    pub fn is_in(alloc: Global, subject: &Expr, values: Vec<Expr>) -> Result<Cond, AllocError>
        ensures { IfOk result (λ made. made ≡ in_of subject.now values.items) }
    {
        let mut parts = Vec::new(alloc);
        for value in values {
            parts.push(Cond::Compare(Comparison::Equal, subject.copy(alloc)?, value))?;
        }
        Ok(Cond::Or(Items::from_vec(parts)))
    }

    /// A condition equal to this one.
    pub fn copy(&self, alloc: Global) -> Result<Cond, AllocError>
        ensures { IfOk result (λ copy. copy ≡ self.now) }
    {
        match self {
            Cond::Compare(comparison, left, right) => {
                let left = left.copy(alloc)?;
                Ok(Cond::Compare(*comparison, left, right.copy(alloc)?))
            }
            Cond::IsNull(part) => Ok(Cond::IsNull(part.copy(alloc)?)),
            Cond::Exists(slot) => Ok(Cond::Exists(*slot)),
            Cond::Is(part, wanted) => {
                let part = part.get().copy(alloc)?;
                Ok(Cond::Is(Boxed::new(alloc, part)?, *wanted))
            }
            Cond::Not(part) => {
                let part = part.get().copy(alloc)?;
                Cond::negation(alloc, part)
            }
            Cond::And(parts) => {
                let mut made = Vec::new(alloc);
                for part in parts.as_slice() {
                    made.push(part.copy(alloc)?)?;
                }
                Ok(Cond::And(Items::from_vec(made)))
            }
            Cond::Or(parts) => {
                let mut made = Vec::new(alloc);
                for part in parts.as_slice() {
                    made.push(part.copy(alloc)?)?;
                }
                Ok(Cond::Or(Items::from_vec(made)))
            }
        }
    }
}
