//! Conditions over the columns of one table, with a slot for each set function and query.

ghost use Rattle.std.specs.Prelude.{◌≡◌, ◌≢◌, ◌++◌, ◌∷◌, [], length, IfOk, IfErr, OnOk, Ok, Err, Some};
ghost use Rattle.value.specs.declared.refusals.Refusal.TheVariants.{NoMemory};
ghost use Rattle.form_check.specs.Columns.{among};
ghost use Rattle.form_check.specs.Leaves.{between, comparison_of, in_predicate_of, numbered, numbered_conditions, numbered_expression, numbered_expressions, slot};
ghost use Rattle.form_check.specs.ShownLeaves.{shown_leaf, shown_leaves, place, meaning_of};

use crate::scopes::Scope;
use sqlite_items::{Boxed, Items};
use std::alloc::{AllocError, Global};
use syntax::{Aggregate, Argument, ColumnName, Condition, Expression, Query};
use table::{Cond, Expr};
use value::{Comparison, Refusal, Value};

/// What stands in a slot.
#[derive(Clone, Copy)]
pub enum Leaf<'a> {
    /// COUNT(*).
    Rows,
    /// A set function of a column.
    Of(Aggregate, &'a Argument),
    /// A query under EXISTS.
    Exists(&'a Query),
    /// A query that stands for its value.
    Value(&'a Query),
}

/// Which columns may stand in a condition outside its set functions and queries.
#[derive(Clone, Copy)]
pub enum Columns<'a> {
    None,
    /// Those of one table.
    Own(Scope<'a>),
    /// The grouping column of a table alone. It stands in column 0 of a group's row.
    Grouping(Scope<'a>, usize),
    /// Those of GROUP BY alone, where they stand in a row of the group.
    Grouped(Scope<'a>, &'a [usize]),
    /// Those of a query's table, and in slots what the row around has in its columns, the table of which is the second.
    Both(Scope<'a>, Scope<'a>),
}

impl<'a> Columns<'a> {
    /// What a name means, if it may stand there.
    fn meaning_of(&self, column: &ColumnName) -> Option<Expr>
        ensures { result ≡ meaning_of self.now column.now }
    {
        if let Some(own) = self.place(column) {
            return Some(Expr::Column(own));
        }
        match self {
            Columns::Both(child, root) => Some(Expr::Slot(child.outer(root, column)?)),
            Columns::None | Columns::Own(_) | Columns::Grouping(_, _) | Columns::Grouped(_, _) =>
                None,
        }
    }

    /// The place of the column of the row at hand that a name means, if it may stand there.
    pub fn place(&self, column: &ColumnName) -> Option<usize>
        ensures { result ≡ place self.now column.now }
    {
        match self {
            Columns::None => None,
            Columns::Own(scope) | Columns::Both(scope, _) => scope.own(column),
            Columns::Grouping(scope, group) => match scope.own(column) {
                Some(found) if found == *group => Some(0),
                Some(_) | None => None,
            },
            Columns::Grouped(scope, grouping) => among(grouping, scope.own(column)?),
        }
    }
}

/// A column, if it is one of these.
pub fn among(columns: &[usize], column: usize) -> Option<usize>
    ensures { result ≡ among columns.now (Some column) }
{
    if columns.contains(&column) {
        Some(column)
    } else {
        None
    }
}

/// The condition with its columns found by their names, and a slot for each set function and query, behind those that
/// were found before.
///
/// # Errors
///
/// [`Refusal::OutsideClass`] where a column stands that may not, or [`Refusal::NoMemory`]. The slots found up to
/// there may then have been put behind the others.
#[cycle(conditions)]
#[tactic(auto, using(crate::proofs::Equations::condition_or, crate::proofs::Equations::condition_and, crate::proofs::Equations::condition_not, crate::proofs::Equations::condition_is, crate::proofs::Equations::condition_exists, crate::proofs::Equations::condition_compare, crate::proofs::Equations::condition_isnull, crate::proofs::Equations::condition_between, crate::proofs::Equations::condition_in))]
pub fn numbered_condition<'a>(
    alloc: Global,
    columns: &Columns,
    condition: &'a Condition,
    leaves: &mut Vec<Leaf<'a>>,
) -> Result<Cond, Refusal>
    ensures made { IfOk result (λ made.
        numbered (meaning_of columns.now) condition.now (shown_leaves leaves.old.items)
        ≡ Ok (made, shown_leaves leaves.new.items)) }
    ensures refused { IfErr result (λ refusal. refusal ≢ NoMemory
        → numbered (meaning_of columns.now) condition.now (shown_leaves leaves.old.items) ≡ Err refusal) }
{
    match condition {
        Condition::Or(parts) => {
            let made = all_numbered(alloc, columns, parts.as_slice(), leaves)?;
            Ok(Cond::Or(Items::from_vec(made)))
        }
        Condition::And(parts) => {
            let made = all_numbered(alloc, columns, parts.as_slice(), leaves)?;
            Ok(Cond::And(Items::from_vec(made)))
        }
        Condition::Not(part) => {
            let part = numbered_condition(alloc, columns, part.get(), leaves)?;
            Ok(Cond::negation(alloc, part)?)
        }
        Condition::Is(part, wanted) => {
            let part = numbered_condition(alloc, columns, part.get(), leaves)?;
            Ok(Cond::Is(Boxed::new(alloc, part)?, *wanted))
        }
        Condition::Exists(query) => { Ok(Cond::Exists(put(leaves, Leaf::Exists(query.get()))?)) }
        Condition::Compare(left, comparison, right) => {
            numbered_comparison(alloc, columns, left, *comparison, right, leaves)
        }
        Condition::IsNull(part) => {
            Ok(Cond::IsNull(numbered_expression(alloc, columns, part, leaves)?))
        }
        Condition::Between(subject, low, high) => {
            between(alloc, columns, subject, low, high, leaves)
        }
        Condition::In(subject, values) => {
            numbered_in_predicate(alloc, columns, subject, values.as_slice(), leaves)
        }
    }
}

/// A comparison.
fn numbered_comparison<'a>(
    alloc: Global,
    columns: &Columns,
    left: &'a Expression,
    comparison: Comparison,
    right: &'a Expression,
    leaves: &mut Vec<Leaf<'a>>,
) -> Result<Cond, Refusal>
    ensures made { IfOk result (λ made.
        comparison_of comparison (numbered_expression (meaning_of columns.now) left.now)
        (numbered_expression (meaning_of columns.now) right.now) (shown_leaves leaves.old.items)
        ≡ Ok (made, shown_leaves leaves.new.items)) }
    ensures refused { IfErr result (λ refusal. refusal ≢ NoMemory
        → comparison_of comparison (numbered_expression (meaning_of columns.now) left.now)
        (numbered_expression (meaning_of columns.now) right.now) (shown_leaves leaves.old.items) ≡ Err refusal) }
{
    let left = numbered_expression(alloc, columns, left, leaves)?;
    let right = numbered_expression(alloc, columns, right, leaves)?;
    Ok(Cond::Compare(comparison, left, right))
}

/// BETWEEN, as two comparisons that AND joins.
fn between<'a>(
    alloc: Global,
    columns: &Columns,
    subject: &'a Expression,
    low: &'a Expression,
    high: &'a Expression,
    leaves: &mut Vec<Leaf<'a>>,
) -> Result<Cond, Refusal>
    ensures made { IfOk result (λ made.
        between (numbered_expression (meaning_of columns.now) subject.now)
        (numbered_expression (meaning_of columns.now) low.now) (numbered_expression (meaning_of columns.now) high.now)
        (shown_leaves leaves.old.items) ≡ Ok (made, shown_leaves leaves.new.items)) }
    ensures refused { IfErr result (λ refusal. refusal ≢ NoMemory
        → between (numbered_expression (meaning_of columns.now) subject.now)
        (numbered_expression (meaning_of columns.now) low.now) (numbered_expression (meaning_of columns.now) high.now)
        (shown_leaves leaves.old.items) ≡ Err refusal) }
{
    let subject = numbered_expression(alloc, columns, subject, leaves)?;
    let low = numbered_expression(alloc, columns, low, leaves)?;
    let high = numbered_expression(alloc, columns, high, leaves)?;
    Ok(Cond::between(alloc, subject, low, high)?)
}

/// IN, as comparisons with each value that OR joins.
fn numbered_in_predicate<'a>(
    alloc: Global,
    columns: &Columns,
    subject: &'a Expression,
    values: &'a [Expression],
    leaves: &mut Vec<Leaf<'a>>,
) -> Result<Cond, Refusal>
    ensures made { IfOk result (λ made.
        in_predicate_of (numbered_expression (meaning_of columns.now) subject.now)
        (numbered_expressions (meaning_of columns.now) values.now) (shown_leaves leaves.old.items)
        ≡ Ok (made, shown_leaves leaves.new.items)) }
    ensures refused { IfErr result (λ refusal. refusal ≢ NoMemory
        → in_predicate_of (numbered_expression (meaning_of columns.now) subject.now)
        (numbered_expressions (meaning_of columns.now) values.now) (shown_leaves leaves.old.items) ≡ Err refusal) }
{
    let subject = numbered_expression(alloc, columns, subject, leaves)?;
    let values = all_expressions(alloc, columns, values, leaves)?;
    Ok(Cond::is_in(alloc, &subject, values)?)
}

/// Several conditions, from the left.
#[cycle(conditions)]
#[tactic(auto, using(crate::proofs::Equations::conditions_are, crate::proofs::Numberings::so_far_next, crate::proofs::Numberings::so_far_none))]
fn all_numbered<'a>(
    alloc: Global,
    columns: &Columns,
    parts: &'a [Condition],
    leaves: &mut Vec<Leaf<'a>>,
) -> Result<Vec<Cond>, Refusal>
    ensures made { IfOk result (λ made.
        numbered_conditions (meaning_of columns.now) parts.now (shown_leaves leaves.old.items)
        ≡ Ok (made.items, shown_leaves leaves.new.items)) }
    ensures refused { IfErr result (λ refusal. refusal ≢ NoMemory
        → numbered_conditions (meaning_of columns.now) parts.now (shown_leaves leaves.old.items) ≡ Err refusal) }
{
    let mut made = Vec::new(alloc);
    for part in parts {
        made.push(numbered_condition(alloc, columns, part, leaves)?)?;
    }
    Ok(made)
}

/// The expression, as the condition in [`numbered_condition`].
#[cycle(expressions)]
#[tactic(auto, using(crate::proofs::Equations::expression_number, crate::proofs::Equations::expression_text, crate::proofs::Equations::expression_column, crate::proofs::Equations::expression_countrows, crate::proofs::Equations::expression_aggregate, crate::proofs::Equations::expression_subquery, crate::proofs::Equations::expression_negation, crate::proofs::Equations::expression_sum, crate::proofs::Equations::expression_product))]
pub fn numbered_expression<'a>(
    alloc: Global,
    columns: &Columns,
    expression: &'a Expression,
    leaves: &mut Vec<Leaf<'a>>,
) -> Result<Expr, Refusal>
    ensures made { IfOk result (λ made.
        numbered_expression (meaning_of columns.now) expression.now (shown_leaves leaves.old.items)
        ≡ Ok (made, shown_leaves leaves.new.items)) }
    ensures refused { IfErr result (λ refusal. refusal ≢ NoMemory
        → numbered_expression (meaning_of columns.now) expression.now (shown_leaves leaves.old.items) ≡ Err refusal) }
{
    match expression {
        Expression::Number(number) => Ok(Expr::Literal(Value::Int(*number))),
        Expression::Text(text) => Ok(Expr::Literal(Value::Text(text.copy()?))),
        Expression::Column(column) => match columns.meaning_of(column) {
            Some(meant) => Ok(meant),
            None => Err(Refusal::OutsideClass),
        },
        Expression::CountRows => Ok(slot(leaves, Leaf::Rows)?),
        Expression::Aggregate(function, argument) => {
            Ok(slot(leaves, Leaf::Of(*function, argument))?)
        }
        Expression::Subquery(query) => Ok(slot(leaves, Leaf::Value(query.get()))?),
        Expression::Negation(part) => {
            let part = numbered_expression(alloc, columns, part.get(), leaves)?;
            Ok(Expr::Negation(Boxed::new(alloc, part)?))
        }
        Expression::Sum(parts) => {
            let made = all_expressions(alloc, columns, parts.as_slice(), leaves)?;
            Ok(Expr::Sum(Items::from_vec(made)))
        }
        Expression::Product(parts) => {
            let made = all_expressions(alloc, columns, parts.as_slice(), leaves)?;
            Ok(Expr::Product(Items::from_vec(made)))
        }
    }
}

/// Several expressions, from the left.
#[cycle(expressions)]
#[tactic(auto, using(crate::proofs::Equations::expressions_are, crate::proofs::Numberings::so_far_next, crate::proofs::Numberings::so_far_none))]
fn all_expressions<'a>(
    alloc: Global,
    columns: &Columns,
    parts: &'a [Expression],
    leaves: &mut Vec<Leaf<'a>>,
) -> Result<Vec<Expr>, Refusal>
    ensures made { IfOk result (λ made.
        numbered_expressions (meaning_of columns.now) parts.now (shown_leaves leaves.old.items)
        ≡ Ok (made.items, shown_leaves leaves.new.items)) }
    ensures refused { IfErr result (λ refusal. refusal ≢ NoMemory
        → numbered_expressions (meaning_of columns.now) parts.now (shown_leaves leaves.old.items) ≡ Err refusal) }
{
    let mut made = Vec::new(alloc);
    for part in parts {
        made.push(numbered_expression(alloc, columns, part, leaves)?)?;
    }
    Ok(made)
}

/// One more slot that stands for a value.
fn slot<'a>(leaves: &mut Vec<Leaf<'a>>, leaf: Leaf<'a>) -> Result<Expr, AllocError>
    ensures { IfOk result (λ made.
        slot (shown_leaf leaf.entry) (shown_leaves leaves.old.items) ≡ Ok (made, shown_leaves leaves.new.items)) }
{
    Ok(Expr::Slot(put(leaves, leaf)?))
}

/// Puts a slot behind the others, and gives its place.
fn put<'a>(leaves: &mut Vec<Leaf<'a>>, leaf: Leaf<'a>) -> Result<usize, AllocError>
    ensures place { IfOk result (λ place. place ≡ length (shown_leaves leaves.old.items)) }
    ensures behind { OnOk result (shown_leaves leaves.new.items
        ≡ shown_leaves leaves.old.items ++ shown_leaf leaf.entry ∷ []) }
{
    let place = leaves.len();
    leaves.push(leaf)?;
    Ok(place)
}
