//! Expressions.

ghost use Rattle.std.specs.Prelude.{◌≡◌, IfOk};
ghost use Rattle.table.specs.Slotless.{expression_has_slots};

use sqlite_items::{Boxed, Items};
use std::alloc::{AllocError, Global};
use value::Value;

/// An expression over the columns of a row and the slots beside it. A sum or a product goes from the left; of no part
/// it is 0 or 1. What SQL writes `a - b` is the sum of `a` and the negation of `b`.
#[derive(Debug, Drop)]
pub enum Expr {
    Literal(Value),
    /// A column of the row, by its place.
    Column(usize),
    /// An aggregate or a subquery that is used as a value, by its place among the slots.
    Slot(usize),
    Negation(Boxed<Expr>),
    Sum(Items<Expr>),
    Product(Items<Expr>),
}

impl Expr {
    /// Whether there is a slot in it. It takes no memory.
    pub fn has_slots(&self) -> bool
        ensures { result ≡ expression_has_slots self.now }
    {
        match self {
            Expr::Literal(_) | Expr::Column(_) => false,
            Expr::Slot(_) => true,
            Expr::Negation(part) => part.get().has_slots(),
            Expr::Sum(parts) | Expr::Product(parts) => {
                for part in parts.as_slice() {
                    if part.has_slots() {
                        return true;
                    }
                }
                false
            }
        }
    }

    /// An expression equal to this one.
    pub fn copy(&self, alloc: Global) -> Result<Expr, AllocError>
        ensures { IfOk result (λ copy. copy ≡ self.now) }
    {
        match self {
            Expr::Literal(value) => Ok(Expr::Literal(value.copy()?)),
            Expr::Column(column) => Ok(Expr::Column(*column)),
            Expr::Slot(slot) => Ok(Expr::Slot(*slot)),
            Expr::Negation(part) => {
                let part = part.get().copy(alloc)?;
                Ok(Expr::Negation(Boxed::new(alloc, part)?))
            }
            Expr::Sum(parts) => {
                let mut made = Vec::new(alloc);
                for part in parts.as_slice() {
                    made.push(part.copy(alloc)?)?;
                }
                Ok(Expr::Sum(Items::from_vec(made)))
            }
            Expr::Product(parts) => {
                let mut made = Vec::new(alloc);
                for part in parts.as_slice() {
                    made.push(part.copy(alloc)?)?;
                }
                Ok(Expr::Product(Items::from_vec(made)))
            }
        }
    }
}
