//! Conditions and expressions over one table, as SQL writes them.

use delta::View;
use history::column_name;
use printout::{Printout, sign_of};
use table::{Cond, Expr, Row};

/// The table whose columns a condition is over, and the row around it, if there is one.
#[derive(Drop)]
pub struct Scope<'a> {
    pub view: &'a View,
    pub table: usize,
    pub around: Option<&'a Row>,
}

/// Adds a condition over the columns of a table. What the row around holds is written as the value that it has there.
/// BETWEEN and IN are written as what they abbreviate.
pub fn add_condition(condition: &Cond, scope: &Scope<'_>, out: &mut Printout) {
    match condition {
        Cond::Compare(comparison, left, right) => {
            add_expression(left, scope, out);
            out.add_all(&[" ", sign_of(*comparison), " "]);
            add_expression(right, scope, out);
        }
        Cond::IsNull(part) => {
            add_expression(part, scope, out);
            out.add(" IS NULL");
        }
        Cond::Exists(_) => out.add("EXISTS (..)"),
        Cond::Is(part, wanted) => {
            out.add("(");
            add_condition(part.get(), scope, out);
            out.add_all(&[") IS ", wanted.name()]);
        }
        Cond::Not(part) => {
            out.add("NOT (");
            add_condition(part.get(), scope, out);
            out.add(")");
        }
        Cond::And(parts) | Cond::Or(parts) => {
            let (open, word, close) = marks_of(condition);
            out.add(open);
            for (place, part) in parts.as_slice().iter().enumerate() {
                out.add(if place == 0 { "" } else { word });
                add_condition(part, scope, out);
            }
            out.add(close);
        }
    }
}

/// What stands before the parts of a condition, between them and behind them.
fn marks_of(condition: &Cond) -> (&'static str, &'static str, &'static str) {
    match condition {
        Cond::Or(_) => ("(", " OR ", ")"),
        _ => ("", " AND ", ""),
    }
}

/// Adds an expression, a sum or a product in parentheses.
fn add_expression(expression: &Expr, scope: &Scope<'_>, out: &mut Printout) {
    match expression {
        Expr::Literal(value) => out.show(value),
        Expr::Column(column) => {
            if let Some(name) = column_name(scope.view, scope.table, *column) {
                out.show(name);
            }
        }
        Expr::Slot(slot) => match scope.around.and_then(|row| row.values().get(*slot)) {
            Some(value) => out.show(value),
            None => out.add("(..)"),
        },
        Expr::Negation(part) => {
            out.add("-");
            add_expression(part.get(), scope, out);
        }
        Expr::Sum(parts) | Expr::Product(parts) => {
            let sign = sign_between(expression);
            out.add("(");
            for (place, part) in parts.as_slice().iter().enumerate() {
                out.add(if place == 0 { "" } else { sign });
                add_expression(part, scope, out);
            }
            out.add(")");
        }
    }
}

/// What stands between the parts of an expression.
fn sign_between(expression: &Expr) -> &'static str {
    match expression {
        Expr::Product(_) => " * ",
        _ => " + ",
    }
}
