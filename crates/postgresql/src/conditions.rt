//! Conditions and expressions as PostgreSQL reads them.
//!
//! Its three-valued logic is that of SQL-92, so a tree is printed as it stands, each part in parentheses. Arithmetic is
//! of type numeric, which has no bound that a condition of the class could pass.

use crate::words::{add_column, add_constant};
use printout::{Printout, sign_of};
use table::{Column, Cond, Expr};
use value::Comparison;

/// What stands in the slots of a condition: set functions and subqueries, or what another row has in its columns.
pub trait Slots {
    /// Adds the value of a slot; NULL where there is no such slot.
    fn add_value(&self, sql: &mut Printout, slot: usize);

    /// Adds the test whether there is a row for a slot; FALSE where there is no such slot.
    fn add_exists(&self, sql: &mut Printout, slot: usize);
}

/// The slots of a condition that has none.
#[derive(Drop)]
pub struct NoSlots;

impl Slots for NoSlots {
    fn add_value(&self, sql: &mut Printout, _slot: usize) {
        sql.add("NULL");
    }

    fn add_exists(&self, sql: &mut Printout, _slot: usize) {
        sql.add("FALSE");
    }
}

/// In each slot the column of a row at the same place.
#[derive(Drop)]
pub struct ColumnSlots<'a> {
    pub row: &'a str,
    pub columns: &'a [Column],
}

impl Slots for ColumnSlots<'_> {
    fn add_value(&self, sql: &mut Printout, slot: usize) {
        add_column(sql, self.row, self.columns, slot);
    }

    fn add_exists(&self, sql: &mut Printout, _slot: usize) {
        sql.add("FALSE");
    }
}

/// By which name the row of a condition goes, its columns, and what stands in its slots.
#[derive(Drop)]
pub struct Scope<'a, S> {
    pub row: &'a str,
    pub columns: &'a [Column],
    pub slots: &'a S,
}

/// Adds a condition.
pub fn add_condition<S: Slots>(sql: &mut Printout, scope: &Scope<'_, S>, condition: &Cond) {
    match condition {
        Cond::Compare(comparison, left, right) => {
            add_comparison(sql, scope, *comparison, left, right)
        }
        Cond::IsNull(part) => {
            sql.add("(");
            add_expression(sql, scope, part);
            sql.add(" IS NULL)");
        }
        Cond::Exists(slot) => scope.slots.add_exists(sql, *slot),
        Cond::Is(part, wanted) => {
            sql.add("(");
            add_condition(sql, scope, part.get());
            sql.add_all(&[" IS ", wanted.name(), ")"]);
        }
        Cond::Not(part) => {
            sql.add("(NOT ");
            add_condition(sql, scope, part.get());
            sql.add(")");
        }
        Cond::And(parts) | Cond::Or(parts) => {
            let (word, of_none) = words_of(condition);
            for (place, part) in parts.as_slice().iter().enumerate() {
                sql.add(if place == 0 { "(" } else { word });
                add_condition(sql, scope, part);
            }
            sql.add(if parts.is_empty() { of_none } else { ")" });
        }
    }
}

/// What joins the parts of a condition, and what it is where it has none.
fn words_of(condition: &Cond) -> (&'static str, &'static str) {
    match condition {
        Cond::Or(_) => (" OR ", "FALSE"),
        _ => (" AND ", "TRUE"),
    }
}

fn add_comparison<S: Slots>(
    sql: &mut Printout,
    scope: &Scope<'_, S>,
    comparison: Comparison,
    left: &Expr,
    right: &Expr,
) {
    sql.add("(");
    add_expression(sql, scope, left);
    sql.add_all(&[" ", sign_of(comparison), " "]);
    add_expression(sql, scope, right);
    sql.add(")");
}

/// Adds an expression. What is no arithmetic keeps its type, so that an index on a column is of use.
fn add_expression<S: Slots>(sql: &mut Printout, scope: &Scope<'_, S>, expression: &Expr) {
    match expression {
        Expr::Literal(_) | Expr::Column(_) | Expr::Slot(_) => add_atom(sql, scope, expression),
        Expr::Negation(_) | Expr::Sum(_) | Expr::Product(_) => add_number(sql, scope, expression),
    }
}

/// Adds an expression of type numeric.
fn add_number<S: Slots>(sql: &mut Printout, scope: &Scope<'_, S>, expression: &Expr) {
    match expression {
        Expr::Literal(_) | Expr::Column(_) | Expr::Slot(_) => {
            add_atom(sql, scope, expression);
            sql.add("::numeric");
        }
        Expr::Negation(part) => {
            sql.add("(- ");
            add_number(sql, scope, part.get());
            sql.add(")");
        }
        Expr::Sum(parts) | Expr::Product(parts) => {
            let (sign, of_none) = signs_of(expression);
            for (place, part) in parts.as_slice().iter().enumerate() {
                sql.add(if place == 0 { "(" } else { sign });
                add_number(sql, scope, part);
            }
            sql.add(if parts.is_empty() { of_none } else { ")" });
        }
    }
}

/// What joins the parts of an expression, and what it is where it has none.
fn signs_of(expression: &Expr) -> (&'static str, &'static str) {
    match expression {
        Expr::Product(_) => (" * ", "1::numeric"),
        _ => (" + ", "0::numeric"),
    }
}

/// Adds a constant, a column or what stands in a slot; NULL for anything else.
fn add_atom<S: Slots>(sql: &mut Printout, scope: &Scope<'_, S>, expression: &Expr) {
    match expression {
        Expr::Literal(value) => add_constant(sql, value),
        Expr::Column(place) => add_column(sql, scope.row, scope.columns, *place),
        Expr::Slot(place) => scope.slots.add_value(sql, *place),
        Expr::Negation(_) | Expr::Sum(_) | Expr::Product(_) => sql.add("NULL"),
    }
}
