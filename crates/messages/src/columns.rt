//! What the columns that a SELECT lists are called.

ghost use Rattle.std.specs.Prelude.{◌≡◌};
ghost use Rattle.messages.specs.Columns as spec;

use syntax::{Aggregate, DerivedColumn, Expression};

/// The name of an expression that is neither a column nor a set function, as PostgreSQL has it.
const NO_NAME: &str = "?column?";

fn function_name(function: Aggregate) -> &'static str
    ensures { result.now ≡ spec.function_name function }
{
    match function {
        Aggregate::Count => "COUNT",
        Aggregate::Sum => "SUM",
        Aggregate::Min => "MIN",
        Aggregate::Max => "MAX",
    }
}

/// The name that an expression has by itself.
fn expression_name(expression: &Expression) -> &[u8]
    ensures { result.now ≡ spec.expression_name expression.now }
{
    match expression {
        Expression::Column(column) => column.name.as_bytes(),
        Expression::CountRows => function_name(Aggregate::Count).as_bytes(),
        Expression::Aggregate(function, _) => function_name(*function).as_bytes(),
        _ => NO_NAME.as_bytes(),
    }
}

/// The name of a derived column: the one that AS gives, or else that of its expression.
pub fn derived_name(column: &DerivedColumn) -> &[u8]
    ensures { result.now ≡ spec.derived_name column.now }
{
    match &column.name {
        Some(name) => name.as_bytes(),
        None => expression_name(&column.value),
    }
}
