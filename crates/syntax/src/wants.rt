//! What may stand in parentheses, and what is asked for there.

use crate::trees::{Condition, Expression, Query};
use sqlite_items::Boxed;

/// What a reader is asked for. An operand is an expression, or a query that stands for its value.
#[derive(Clone, Copy, Debug, PartialEq, Eq)]
pub enum Want {
    Condition,
    Expression,
    Query,
    Operand,
    Any,
}

/// What stands in parentheses is a condition, an expression or a query.
#[derive(Drop)]
pub enum PartInParentheses {
    Condition(Boxed<Condition>),
    Expression(Expression),
    Query(Boxed<Query>),
}
