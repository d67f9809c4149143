//! Expressions and conditions over groups of a table's rows.

ghost use Rattle.std.specs.Prelude.{◌≡◌, ◌≢◌, IfOk, IfErr, Ok, Err};
ghost use Rattle.value.specs.declared.refusals.Refusal.TheVariants.{NoMemory};
ghost use Rattle.form_check.specs.ShownScopes.{lent_scope};
ghost use Rattle.form_check.specs.Summaries.{group_condition_of, grouping_columns, has_set_function, summary_of};

use crate::aggregates::Aggregates;
use crate::leaves::{Columns, numbered_condition, numbered_expression};
use crate::scopes::Scope;
use crate::slots::{all_slots, drop_and_refuse};
use sqlite_items::Items;
use std::alloc::Global;
use syntax::{ColumnName, Condition, Expression};
use table::{Aggregate, Cond, Expr};
use value::Refusal;

/// An expression over a group of rows: in its slots stand the values of these set functions of the rows, and its
/// columns are those in which the rows are alike.
#[derive(Debug, Drop)]
pub struct Summary {
    pub aggregates: Items<Aggregate>,
    pub value: Expr,
}

/// A condition over a group of rows, as a [`Summary`] is an expression.
#[derive(Debug, Drop)]
pub struct GroupCondition {
    pub aggregates: Items<Aggregate>,
    pub condition: Cond,
}

/// Whether a set function stands in an expression outside its queries. It takes no memory.
pub fn has_set_function(expression: &Expression) -> bool
    ensures { result ≡ has_set_function expression.now }
{
    match expression {
        Expression::CountRows | Expression::Aggregate(_, _) => true,
        Expression::Negation(part) => has_set_function(part.get()),
        Expression::Sum(parts) | Expression::Product(parts) => {
            for part in parts.as_slice() {
                if has_set_function(part) {
                    return true;
                }
            }
            false
        }
        Expression::Number(_)
        | Expression::Text(_)
        | Expression::Column(_)
        | Expression::Subquery(_) => false,
    }
}

/// The places of the columns of GROUP BY in the rows of a table.
///
/// # Errors
///
/// [`Refusal::OutsideClass`] where a name is of no column of the table, or [`Refusal::NoMemory`].
#[tactic(auto, using(value::proofs::Results::behind_next, value::proofs::Results::behind_none))]
pub fn grouping_columns(
    alloc: Global,
    scope: Scope,
    names: &[ColumnName],
) -> Result<Items<usize>, Refusal>
    ensures made { IfOk result (λ made. grouping_columns (lent_scope scope.entry) names.now ≡ Ok made) }
    ensures refused { IfErr result (λ refusal.
        refusal ≢ NoMemory → grouping_columns (lent_scope scope.entry) names.now ≡ Err refusal) }
{
    let mut made = Vec::new(alloc);
    for name in names {
        match scope.own(name) {
            Some(column) => made.push(column)?,
            None => return Err(Refusal::OutsideClass),
        }
    }
    Ok(Items::from_vec(made))
}

/// An expression over groups of the rows of a table, which are alike in these columns of it, those of GROUP BY (ISO/IEC
/// 9075:1992, 7.9: outside a set function no other column may stand). Without GROUP BY all rows are one group.
///
/// # Errors
///
/// [`Refusal::OutsideClass`] where it holds a query, or another column outside its set functions, or a set function of
/// a column of another table; or [`Refusal::NoMemory`].
pub fn summary_expression(
    alloc: Global,
    scope: Scope,
    grouping: &[usize],
    expression: &Expression,
) -> Result<Summary, Refusal>
    ensures made { IfOk result (λ made. summary_of (lent_scope scope.entry) grouping.now expression.now ≡ Ok made) }
    ensures refused { IfErr result (λ refusal.
        refusal ≢ NoMemory → summary_of (lent_scope scope.entry) grouping.now expression.now ≡ Err refusal) }
{
    let mut leaves = Vec::new(alloc);
    let columns = Columns::Grouped(scope, grouping);
    let value = numbered_expression(alloc, &columns, expression, &mut leaves)?;
    match all_slots(alloc, &Aggregates { scope }, &leaves) {
        Ok(aggregates) => Ok(Summary { aggregates, value }),
        Err(refusal) => drop_and_refuse(refusal, value),
    }
}

/// A condition of HAVING over groups of the rows of a table, which are alike in these columns of it (ISO/IEC 9075:1992,
/// 7.8).
///
/// # Errors
///
/// As [`summary_expression`].
pub fn group_condition(
    alloc: Global,
    scope: Scope,
    grouping: &[usize],
    condition: &Condition,
) -> Result<GroupCondition, Refusal>
    ensures made { IfOk result (λ made.
        group_condition_of (lent_scope scope.entry) grouping.now condition.now ≡ Ok made) }
    ensures refused { IfErr result (λ refusal.
        refusal ≢ NoMemory → group_condition_of (lent_scope scope.entry) grouping.now condition.now ≡ Err refusal) }
{
    let mut leaves = Vec::new(alloc);
    let columns = Columns::Grouped(scope, grouping);
    let condition = numbered_condition(alloc, &columns, condition, &mut leaves)?;
    match all_slots(alloc, &Aggregates { scope }, &leaves) {
        Ok(aggregates) => Ok(GroupCondition {
            aggregates,
            condition,
        }),
        Err(refusal) => drop_and_refuse(refusal, condition),
    }
}
