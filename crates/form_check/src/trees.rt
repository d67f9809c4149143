//! The names of conditions, expressions and queries are looked up from the left.

ghost use Rattle.std.specs.Prelude.{◌≡◌, ◌≢◌, IfOk, IfErr, Some, None};
ghost use Rattle.value.specs.declared.refusals.Refusal.TheVariants.{NoMemory};
ghost use Rattle.form_check.specs.Names.{condition_fault, expression_fault, query_fault, group_fault};
ghost use Rattle.form_check.specs.ShownScopes.{lent_scopes};

use crate::scopes::{Scope, exposed_name, look_up_column, put_inside};
use std::alloc::Global;
use syntax::{ColumnName, Condition, Expression, Query, SelectList};
use table::Catalog;
use value::Refusal;

/// Looks up the names of a condition, seen from these scopes, the innermost first.
///
/// # Errors
///
/// [`Refusal::UnknownName`] with the first name that stands for nothing, from the left; of a query its table comes
/// first, then its list, WHERE, GROUP BY and HAVING. Or [`Refusal::NoMemory`].
#[cycle(names)]
pub fn look_up_condition(
    alloc: Global,
    catalog: &Catalog,
    scopes: &[Scope],
    condition: &Condition,
) -> Result<(), Refusal>
    ensures known { IfOk result (λ _. condition_fault catalog.now condition.now (lent_scopes scopes.now) ≡ None) }
    ensures refused { IfErr result (λ refusal.
        refusal ≢ NoMemory → condition_fault catalog.now condition.now (lent_scopes scopes.now) ≡ Some refusal) }
{
    match condition {
        Condition::Or(parts) | Condition::And(parts) => {
            for part in parts.as_slice() {
                look_up_condition(alloc, catalog, scopes, part)?;
            }
            Ok(())
        }
        Condition::Not(part) | Condition::Is(part, _) => {
            look_up_condition(alloc, catalog, scopes, part.get())
        }
        Condition::Exists(query) => look_up_query(alloc, catalog, scopes, query.get()),
        Condition::Compare(left, _, right) => {
            look_up_expression(alloc, catalog, scopes, left)?;
            look_up_expression(alloc, catalog, scopes, right)
        }
        Condition::IsNull(part) => look_up_expression(alloc, catalog, scopes, part),
        Condition::Between(subject, low, high) => {
            look_up_expression(alloc, catalog, scopes, subject)?;
            look_up_expression(alloc, catalog, scopes, low)?;
            look_up_expression(alloc, catalog, scopes, high)
        }
        Condition::In(subject, values) => {
            look_up_expression(alloc, catalog, scopes, subject)?;
            for value in values.as_slice() {
                look_up_expression(alloc, catalog, scopes, value)?;
            }
            Ok(())
        }
    }
}

/// Looks up the names of an expression, as of a condition.
#[cycle(names)]
pub fn look_up_expression(
    alloc: Global,
    catalog: &Catalog,
    scopes: &[Scope],
    expression: &Expression,
) -> Result<(), Refusal>
    ensures known { IfOk result (λ _. expression_fault catalog.now expression.now (lent_scopes scopes.now) ≡ None) }
    ensures refused { IfErr result (λ refusal.
        refusal ≢ NoMemory → expression_fault catalog.now expression.now (lent_scopes scopes.now) ≡ Some refusal) }
{
    match expression {
        Expression::Number(_) | Expression::Text(_) | Expression::CountRows => Ok(()),
        Expression::Column(column) => look_up_column(scopes, column),
        Expression::Aggregate(_, argument) => look_up_column(scopes, &argument.column),
        Expression::Subquery(query) => look_up_query(alloc, catalog, scopes, query.get()),
        Expression::Negation(part) => look_up_expression(alloc, catalog, scopes, part.get()),
        Expression::Sum(parts) | Expression::Product(parts) => {
            for part in parts.as_slice() {
                look_up_expression(alloc, catalog, scopes, part)?;
            }
            Ok(())
        }
    }
}

/// Looks up the names of a query: its table, and then those of its clauses, for which the table is the innermost.
#[cycle(names)]
fn look_up_query(
    alloc: Global,
    catalog: &Catalog,
    scopes: &[Scope],
    query: &Query,
) -> Result<(), Refusal>
    ensures known { IfOk result (λ _. query_fault catalog.now query.now (lent_scopes scopes.now) ≡ None) }
    ensures refused { IfErr result (λ refusal.
        refusal ≢ NoMemory → query_fault catalog.now query.now (lent_scopes scopes.now) ≡ Some refusal) }
{
    let Some(schema) = catalog.get(&query.table) else {
        return Err(Refusal::UnknownName {
            name: query.table.copy()?,
        });
    };
    let exposed_name = exposed_name(&query.correlation_name, &query.table);
    let scopes = put_inside(
        alloc,
        Scope {
            exposed_name,
            schema,
        },
        scopes,
    )?;
    if let SelectList::One(select_list) = &query.select_list {
        look_up_expression(alloc, catalog, &scopes, select_list)?;
    }
    if let Some(keeps) = &query.keeps {
        look_up_condition(alloc, catalog, &scopes, keeps)?;
    }
    look_up_group(&scopes, &query.group)?;
    match &query.having {
        Some(having) => look_up_condition(alloc, catalog, &scopes, having),
        None => Ok(()),
    }
}

/// Looks up the column of GROUP BY, if there is one.
fn look_up_group(scopes: &[Scope], group: &Option<ColumnName>) -> Result<(), Refusal>
    ensures known { IfOk result (λ _. group_fault group.now (lent_scopes scopes.now) ≡ None) }
    ensures refused { IfErr result (λ refusal.
        refusal ≢ NoMemory → group_fault group.now (lent_scopes scopes.now) ≡ Some refusal) }
{
    match group {
        Some(column) => look_up_column(scopes, column),
        None => Ok(()),
    }
}
