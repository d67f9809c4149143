//! Which columns a condition looks at.

use std::alloc::AllocError;
use table::{Cond, Expr};

/// Which columns of a condition are asked for: those of its own row, or those of the row around it, which stand in its
/// slots.
#[derive(Clone, Copy)]
pub enum WhichRow {
    Own,
    Around,
}

/// Puts a column among others, in their order, if it is not there.
pub fn add_column(columns: &mut Vec<usize>, column: usize) -> Result<(), AllocError> {
    let mut at = 0usize;
    for other in columns.iter() {
        if *other == column {
            return Ok(());
        }
        if *other < column {
            at = at.saturating_add(1);
        }
    }
    if at <= columns.len() {
        columns.insert(at, column)?;
    }
    Ok(())
}

/// Puts columns among others.
pub fn add_columns(columns: &mut Vec<usize>, more: &[usize]) -> Result<(), AllocError> {
    for column in more {
        add_column(columns, *column)?;
    }
    Ok(())
}

/// Puts the columns of a condition among others.
pub fn add_condition(
    columns: &mut Vec<usize>,
    condition: &Cond,
    looked: WhichRow,
) -> Result<(), AllocError> {
    match condition {
        Cond::Compare(_, left, right) => {
            add_expression(columns, left, looked)?;
            add_expression(columns, right, looked)
        }
        Cond::IsNull(part) => add_expression(columns, part, looked),
        Cond::Exists(_) => Ok(()),
        Cond::Is(part, _) | Cond::Not(part) => add_condition(columns, part.get(), looked),
        Cond::And(parts) | Cond::Or(parts) => {
            for part in parts.as_slice() {
                add_condition(columns, part, looked)?;
            }
            Ok(())
        }
    }
}

/// Puts the columns of an expression among others.
fn add_expression(
    columns: &mut Vec<usize>,
    expression: &Expr,
    looked: WhichRow,
) -> Result<(), AllocError> {
    match (expression, looked) {
        (Expr::Column(column), WhichRow::Own) | (Expr::Slot(column), WhichRow::Around) => {
            add_column(columns, *column)
        }
        (Expr::Literal(_) | Expr::Column(_) | Expr::Slot(_), _) => Ok(()),
        (Expr::Negation(part), _) => add_expression(columns, part.get(), looked),
        (Expr::Sum(parts) | Expr::Product(parts), _) => {
            for part in parts.as_slice() {
                add_expression(columns, part, looked)?;
            }
            Ok(())
        }
    }
}
