//! Conditions, expressions and queries with values in the places of their parameters.

ghost use Rattle.std.specs.Prelude.{◌≡◌, ◌≢◌, List, map, Option, IfOk, IfErr, Ok, Err};
ghost use Rattle.std.specs.Option.{option_map};
ghost use Rattle.prepared.specs.declared.faults.FillFault.TheVariants.{NoMemory};
ghost use Rattle.prepared.specs.Constants.{all, if_there};
ghost use Rattle.syntax.specs.declared.trees.Query.{out-Query};
ghost use Rattle.prepared.specs.Conditions.{filled_condition, filled_expression, filled_query, filled_select_list};

use crate::constants::Constants;
use crate::copies::{copy_argument, copy_column, copy_group, copy_name, drop_and_fail, put_behind};
use crate::faults::FillFault;
use sqlite_items::{Boxed, Items};
use std::alloc::{AllocError, Global};
use syntax::{ColumnName, Condition, Expression, Query, SelectList};
use value::Text;

/// The condition with the next values in the places of its parameters.
///
/// # Errors
///
/// The fault of the first parameter whose value may not stand there, or NoMemory.
#[cycle(filling)]
pub fn fill_condition(
    alloc: Global,
    condition: &Condition,
    constants: &mut Constants,
) -> Result<Condition, FillFault>
    ensures made { IfOk result (λ made. filled_condition condition.now constants.old ≡ Ok (made, constants.new)) }
    ensures refused { IfErr result (λ fault. fault ≢ NoMemory
        → filled_condition condition.now constants.old ≡ Err fault) }
{
    match condition {
        Condition::Or(parts) => {
            let made = fill_conditions(alloc, parts.as_slice(), constants)?;
            Ok(Condition::Or(Items::from_vec(made)))
        }
        Condition::And(parts) => {
            let made = fill_conditions(alloc, parts.as_slice(), constants)?;
            Ok(Condition::And(Items::from_vec(made)))
        }
        Condition::Not(part) => {
            let part = fill_condition(alloc, part.get(), constants)?;
            Ok(Condition::Not(Boxed::new(alloc, part)?))
        }
        Condition::Is(part, truth) => {
            let part = fill_condition(alloc, part.get(), constants)?;
            Ok(Condition::Is(Boxed::new(alloc, part)?, *truth))
        }
        Condition::Exists(query) => {
            let query = fill_query(alloc, query.get(), constants)?;
            Ok(Condition::Exists(Boxed::new(alloc, query)?))
        }
        Condition::Compare(left, comparison, right) => {
            let left = fill_expression(alloc, left, constants)?;
            match fill_expression(alloc, right, constants) {
                Ok(right) => Ok(Condition::Compare(left, *comparison, right)),
                Err(fault) => Err(drop_and_fail(fault, left)),
            }
        }
        Condition::IsNull(part) => Ok(Condition::IsNull(fill_expression(alloc, part, constants)?)),
        Condition::Between(subject, low, high) => {
            let subject = fill_expression(alloc, subject, constants)?;
            let low = match fill_expression(alloc, low, constants) {
                Ok(low) => low,
                Err(fault) => return Err(drop_and_fail(fault, subject)),
            };
            match fill_expression(alloc, high, constants) {
                Ok(high) => Ok(Condition::Between(subject, low, high)),
                Err(fault) => Err(drop_and_fail(fault, (subject, low))),
            }
        }
        Condition::In(subject, values) => {
            let subject = fill_expression(alloc, subject, constants)?;
            match fill_expressions(alloc, values.as_slice(), constants) {
                Ok(values) => Ok(Condition::In(subject, Items::from_vec(values))),
                Err(fault) => Err(drop_and_fail(fault, subject)),
            }
        }
    }
}

/// Several conditions, from the left.
#[cycle(filling)]
#[tactic(auto, using(crate::proofs::Parts::so_far_next, crate::proofs::Parts::so_far_none))]
fn fill_conditions(
    alloc: Global,
    parts: &[Condition],
    constants: &mut Constants,
) -> Result<Vec<Condition>, FillFault>
    ensures made { IfOk result (λ made.
        all (map filled_condition parts.now) constants.old ≡ Ok (made.items, constants.new)) }
    ensures refused { IfErr result (λ fault.
        fault ≢ NoMemory → all (map filled_condition parts.now) constants.old ≡ Err fault) }
{
    let mut made = Vec::new(alloc);
    for part in parts {
        made = match fill_condition(alloc, part, constants) {
            Ok(part) => put_behind(made, part)?,
            Err(fault) => return Err(drop_and_fail(fault, made)),
        };
    }
    Ok(made)
}

/// The expression, as the condition in [`fill_condition`].
#[cycle(filling)]
pub fn fill_expression(
    alloc: Global,
    expression: &Expression,
    constants: &mut Constants,
) -> Result<Expression, FillFault>
    ensures made { IfOk result (λ made. filled_expression expression.now constants.old ≡ Ok (made, constants.new)) }
    ensures refused { IfErr result (λ fault. fault ≢ NoMemory
        → filled_expression expression.now constants.old ≡ Err fault) }
{
    match expression {
        Expression::Number(number) => constants.expression(*number),
        Expression::Text(text) => Ok(Expression::Text(text.copy()?)),
        Expression::Column(column) => Ok(Expression::Column(copy_column(column)?)),
        Expression::CountRows => Ok(Expression::CountRows),
        Expression::Aggregate(function, argument) => {
            Ok(Expression::Aggregate(*function, copy_argument(argument)?))
        }
        Expression::Subquery(query) => {
            let query = fill_query(alloc, query.get(), constants)?;
            Ok(Expression::Subquery(Boxed::new(alloc, query)?))
        }
        Expression::Negation(part) => {
            let part = fill_expression(alloc, part.get(), constants)?;
            Ok(Expression::Negation(Boxed::new(alloc, part)?))
        }
        Expression::Sum(parts) => {
            let made = fill_expressions(alloc, parts.as_slice(), constants)?;
            Ok(Expression::Sum(Items::from_vec(made)))
        }
        Expression::Product(parts) => {
            let made = fill_expressions(alloc, parts.as_slice(), constants)?;
            Ok(Expression::Product(Items::from_vec(made)))
        }
    }
}

/// Several expressions, from the left.
#[cycle(filling)]
#[tactic(auto, using(crate::proofs::Parts::so_far_next, crate::proofs::Parts::so_far_none))]
fn fill_expressions(
    alloc: Global,
    parts: &[Expression],
    constants: &mut Constants,
) -> Result<Vec<Expression>, FillFault>
    ensures made { IfOk result (λ made.
        all (map filled_expression parts.now) constants.old ≡ Ok (made.items, constants.new)) }
    ensures refused { IfErr result (λ fault.
        fault ≢ NoMemory → all (map filled_expression parts.now) constants.old ≡ Err fault) }
{
    let mut made = Vec::new(alloc);
    for part in parts {
        made = match fill_expression(alloc, part, constants) {
            Ok(part) => put_behind(made, part)?,
            Err(fault) => return Err(drop_and_fail(fault, made)),
        };
    }
    Ok(made)
}

/// What a query lists.
#[cycle(filling)]
fn fill_select_list(
    alloc: Global,
    select_list: &SelectList,
    constants: &mut Constants,
) -> Result<SelectList, FillFault>
    ensures made { IfOk result (λ made. filled_select_list select_list.now constants.old ≡ Ok (made, constants.new)) }
    ensures refused { IfErr result (λ fault. fault ≢ NoMemory
        → filled_select_list select_list.now constants.old ≡ Err fault) }
{
    match select_list {
        SelectList::Star => Ok(SelectList::Star),
        SelectList::One(part) => Ok(SelectList::One(fill_expression(alloc, part, constants)?)),
    }
}

/// The condition of a WHERE or a HAVING, if there is one.
#[cycle(filling)]
fn fill_clause(
    alloc: Global,
    clause: &Option<Condition>,
    constants: &mut Constants,
) -> Result<Option<Condition>, FillFault>
    ensures made { IfOk result (λ made.
        if_there (option_map filled_condition clause.now) constants.old ≡ Ok (made, constants.new)) }
    ensures refused { IfErr result (λ fault.
        fault ≢ NoMemory → if_there (option_map filled_condition clause.now) constants.old ≡ Err fault) }
{
    match clause {
        None => Ok(None),
        Some(condition) => Ok(Some(fill_condition(alloc, condition, constants)?)),
    }
}

/// The names that a query has beside its list and its conditions: its table's, the correlation's and the group's.
fn copy_names_of(query: &Query) -> Result<(Text, Option<Text>, Option<ColumnName>), AllocError>
    ensures { IfOk result (λ names. let q = out-Query query.now in
        names ≡ (q.table, q.correlation_name, q.group)) }
{
    let table = query.table.copy()?;
    let correlation_name = copy_name(&query.correlation_name)?;
    let group = copy_group(&query.group)?;
    Ok((table, correlation_name, group))
}

/// A query: its list, WHERE and HAVING.
#[cycle(filling)]
fn fill_query(alloc: Global, query: &Query, constants: &mut Constants) -> Result<Query, FillFault>
    ensures made { IfOk result (λ made. filled_query query.now constants.old ≡ Ok (made, constants.new)) }
    ensures refused { IfErr result (λ fault. fault ≢ NoMemory → filled_query query.now constants.old ≡ Err fault) }
{
    let (table, correlation_name, group) = copy_names_of(query)?;
    let select_list = fill_select_list(alloc, &query.select_list, constants)?;
    let keeps = match fill_clause(alloc, &query.keeps, constants) {
        Ok(keeps) => keeps,
        Err(fault) => return Err(drop_and_fail(fault, select_list)),
    };
    match fill_clause(alloc, &query.having, constants) {
        Ok(having) => Ok(Query {
            select_list,
            table,
            correlation_name,
            keeps,
            group,
            having,
        }),
        Err(fault) => Err(drop_and_fail(fault, (select_list, keeps))),
    }
}
