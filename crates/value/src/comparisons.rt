//! The comparisons of SQL, and what is known when two values are compared.

ghost use Rattle.std.specs.Prelude.{◌≡◌, ◌↔◌, ◌⊎◌, IsNone};
ghost use Rattle.value.specs.Comparisons.{holds, known_cmp};
ghost use Rattle.value.specs.declared.values.Value.TheVariants.{Null};

use crate::values::{Value, order};
use std::cmp::Ordering;

/// A comparison operator of SQL-92: `=`, `<>`, `<`, `<=`, `>`, `>=`.
#[derive(Clone, Copy, Debug, PartialEq, Eq)]
pub enum Comparison {
    Equal,
    NotEqual,
    Less,
    AtMost,
    Greater,
    AtLeast,
}

impl Comparison {
    /// Whether the comparison holds of two values of which the first stands so beside the second.
    pub fn holds(self, ordering: Ordering) -> bool
        ensures { result ≡ holds self ordering }
    {
        match self {
            Comparison::Equal => ordering.is_eq(),
            Comparison::NotEqual => ordering.is_ne(),
            Comparison::Less => ordering.is_lt(),
            Comparison::AtMost => ordering.is_le(),
            Comparison::Greater => ordering.is_gt(),
            Comparison::AtLeast => ordering.is_ge(),
        }
    }
}

/// How the first value stands beside the second. With NULL on a side it isn't known.
pub fn compare(a: &Value, b: &Value) -> Option<Ordering>
    ensures value { result ≡ known_cmp a.now b.now }
    ensures null { IsNone result ↔ ((a.now ≡ Null) ⊎ (b.now ≡ Null)) }
{
    match (a, b) {
        (Value::Null, _) | (_, Value::Null) => None,
        (Value::Int(_) | Value::Text(_), Value::Int(_) | Value::Text(_)) => Some(order(a, b)),
    }
}
