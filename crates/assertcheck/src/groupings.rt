//! What a SELECT lists of groups of rows.

ghost use Rattle.std.specs.Prelude.{◌≡◌, ◌≢◌, All, IsTrue, IfOk, IfErr, Ok, Err, Some, None};
ghost use Rattle.std.specs.List.{list_all};
ghost use Rattle.value.specs.Results.{each};
ghost use Rattle.value.specs.declared.refusals.Refusal.TheVariants.{NoMemory};
ghost use Rattle.form_check.specs.ShownScopes.{lent_scope};
ghost use Rattle.assertcheck.specs.Statements.{places_from};
ghost use Rattle.assertcheck.specs.Groupings.{IsBoundedGrouping, IsBoundedSummary, grouped_by, grouping_fault, grouping_of, have_set_functions, having_of, is_bounded_grouping, is_bounded_having, is_bounded_summary, is_grouped, is_typed_grouping, is_typed_having, is_typed_summary, lists_set_functions, names_fault, own_summary, summaries_of};

use crate::bounded_forms::aggregate_kinds;
use crate::typed_forms::{aggregate_types, is_typed_over};
use crate::typed_trees::expression_type;
use form_check::{
    GroupCondition, Scope, Summary, among, group_condition, grouping_columns, has_set_function,
    look_up_column, summary_expression,
};
use sqlite_items::{Boxed, Items};
use std::alloc::{AllocError, Global};
use syntax::{ColumnName, Condition, DerivedColumn};
use table::{Column, Expr, bound, is_bounded};
use value::Refusal;

/// GROUP BY, HAVING, and what is listed of each group.
#[derive(Debug, Drop)]
pub struct Grouping {
    /// The places of the columns of GROUP BY. Without any all rows are one group, which is there even where no row is.
    pub columns: Items<usize>,
    /// The condition of HAVING.
    pub having: Option<GroupCondition>,
    pub values: Items<Summary>,
}

/// Whether a SELECT is of groups: with GROUP BY, with HAVING, or where a set function stands in what it lists (ISO/IEC
/// 9075:1992, 7.9). It takes no memory.
pub fn is_grouped(select: &syntax::Select) -> bool
    ensures { result ≡ is_grouped select.now }
{
    select.group_by.is_some() || select.having.is_some() || lists_set_functions(&select.columns)
}

fn lists_set_functions(columns: &Option<Items<DerivedColumn>>) -> bool
    ensures { result ≡ lists_set_functions columns.now }
{
    match columns {
        Some(columns) => have_set_functions(columns.as_slice()),
        None => false,
    }
}

fn have_set_functions(columns: &[DerivedColumn]) -> bool
    ensures { result ≡ have_set_functions columns.now }
{
    columns.iter().any(|column| has_set_function(&column.value))
}

/// Looks up the names in GROUP BY, from the left.
pub fn look_up_grouping(scope: Scope, names: &Option<Items<ColumnName>>) -> Result<(), Refusal>
    ensures known { IfOk result (λ _. grouping_fault (lent_scope scope.entry) names.now ≡ None) }
    ensures refused { IfErr result (λ refusal.
        refusal ≢ NoMemory → grouping_fault (lent_scope scope.entry) names.now ≡ Some refusal) }
{
    match names {
        Some(names) => look_up_names(scope, names.as_slice()),
        None => Ok(()),
    }
}

fn look_up_names(scope: Scope, names: &[ColumnName]) -> Result<(), Refusal>
    ensures known { IfOk result (λ _. names_fault (lent_scope scope.entry) names.now ≡ None) }
    ensures refused { IfErr result (λ refusal.
        refusal ≢ NoMemory → names_fault (lent_scope scope.entry) names.now ≡ Some refusal) }
{
    for name in names {
        look_up_column(&[scope], name)?;
    }
    Ok(())
}

/// What is over the groups of a SELECT, its types and widths not judged.
pub fn grouping_of(
    alloc: Global,
    scope: Scope,
    select: &syntax::Select,
) -> Result<Grouping, Refusal>
    ensures made { IfOk result (λ made. grouping_of (lent_scope scope.entry) select.now ≡ Ok made) }
    ensures refused { IfErr result (λ refusal.
        refusal ≢ NoMemory → grouping_of (lent_scope scope.entry) select.now ≡ Err refusal) }
{
    let columns = grouped_by(alloc, scope, &select.group_by)?;
    let values = summaries(alloc, scope, columns.as_slice(), &select.columns)?;
    let having = having(alloc, scope, columns.as_slice(), &select.having)?;
    Ok(Grouping {
        columns,
        having,
        values,
    })
}

fn grouped_by(
    alloc: Global,
    scope: Scope,
    names: &Option<Items<ColumnName>>,
) -> Result<Items<usize>, Refusal>
    ensures made { IfOk result (λ made. grouped_by (lent_scope scope.entry) names.now ≡ Ok made) }
    ensures refused { IfErr result (λ refusal.
        refusal ≢ NoMemory → grouped_by (lent_scope scope.entry) names.now ≡ Err refusal) }
{
    match names {
        Some(names) => grouping_columns(alloc, scope, names.as_slice()),
        None => Ok(Items::new(alloc)),
    }
}

/// What is listed of each group.
fn summaries(
    alloc: Global,
    scope: Scope,
    grouping: &[usize],
    columns: &Option<Items<DerivedColumn>>,
) -> Result<Items<Summary>, Refusal>
    ensures made { IfOk result (λ made. summaries_of (lent_scope scope.entry) grouping.now columns.now ≡ Ok made) }
    ensures refused { IfErr result (λ refusal.
        refusal ≢ NoMemory → summaries_of (lent_scope scope.entry) grouping.now columns.now ≡ Err refusal) }
{
    match columns {
        Some(columns) => derived_summaries(alloc, scope, grouping, columns.as_slice()),
        None => own_summaries(alloc, grouping, scope.schema.columns()),
    }
}

/// Derived columns over groups.
#[tactic(auto, using(value::proofs::Results::behind_next, value::proofs::Results::behind_none))]
fn derived_summaries(
    alloc: Global,
    scope: Scope,
    grouping: &[usize],
    columns: &[DerivedColumn],
) -> Result<Items<Summary>, Refusal>
    ensures made { IfOk result (λ made.
        summaries_of (lent_scope scope.entry) grouping.now (Some columns.now) ≡ Ok made) }
    ensures refused { IfErr result (λ refusal.
        refusal ≢ NoMemory → summaries_of (lent_scope scope.entry) grouping.now (Some columns.now) ≡ Err refusal) }
{
    let mut made = Vec::new(alloc);
    for column in columns {
        made.push(summary_expression(alloc, scope, grouping, &column.value)?)?;
    }
    Ok(Items::from_vec(made))
}

/// All columns of a table, each of which has to be one of GROUP BY.
#[tactic(auto, using(value::proofs::Results::behind_next, value::proofs::Results::behind_none))]
fn own_summaries(
    alloc: Global,
    grouping: &[usize],
    columns: &[Column],
) -> Result<Items<Summary>, Refusal>
    ensures made { IfOk result (λ made. each (own_summary grouping.now) (places_from 0 columns.now) ≡ Ok made) }
    ensures refused { IfErr result (λ refusal.
        refusal ≢ NoMemory → each (own_summary grouping.now) (places_from 0 columns.now) ≡ Err refusal) }
{
    let mut made = Vec::new(alloc);
    for _column in columns {
        let place = made.len();
        made.push(own_summary(alloc, grouping, place)?)?;
    }
    Ok(Items::from_vec(made))
}

fn own_summary(alloc: Global, grouping: &[usize], place: usize) -> Result<Summary, Refusal>
    ensures made { IfOk result (λ made. own_summary grouping.now place ≡ Ok made) }
    ensures refused { IfErr result (λ refusal. refusal ≢ NoMemory → own_summary grouping.now place ≡ Err refusal) }
{
    match among(grouping, place) {
        Some(column) => Ok(Summary {
            aggregates: Items::new(alloc),
            value: Expr::Column(column),
        }),
        None => Err(Refusal::OutsideClass),
    }
}

/// The condition of HAVING, if it is written.
fn having(
    alloc: Global,
    scope: Scope,
    grouping: &[usize],
    condition: &Option<Boxed<Condition>>,
) -> Result<Option<GroupCondition>, Refusal>
    ensures made { IfOk result (λ made. having_of (lent_scope scope.entry) grouping.now condition.now ≡ Ok made) }
    ensures refused { IfErr result (λ refusal.
        refusal ≢ NoMemory → having_of (lent_scope scope.entry) grouping.now condition.now ≡ Err refusal) }
{
    match condition {
        Some(condition) => Ok(Some(group_condition(alloc, scope, grouping, condition.get())?)),
        None => Ok(None),
    }
}

/// Whether all that is over groups is typed, over a table of these columns.
pub fn is_typed_grouping(
    alloc: Global,
    columns: &[Column],
    grouping: &Grouping,
) -> Result<bool, AllocError>
    ensures { IfOk result (λ typed. typed ≡ is_typed_grouping columns.now grouping.now) }
{
    Ok(
        are_typed_summaries(alloc, columns, grouping.values.as_slice())?
            && is_typed_having(alloc, columns, &grouping.having)?,
    )
}

fn are_typed_summaries(
    alloc: Global,
    columns: &[Column],
    summaries: &[Summary],
) -> Result<bool, AllocError>
    ensures { IfOk result (λ typed. typed ≡ list_all (is_typed_summary columns.now) summaries.now) }
{
    for summary in summaries {
        if !is_typed_summary(alloc, columns, summary)? {
            return Ok(false);
        }
    }
    Ok(true)
}

fn is_typed_summary(
    alloc: Global,
    columns: &[Column],
    summary: &Summary,
) -> Result<bool, AllocError>
    ensures { IfOk result (λ typed. typed ≡ is_typed_summary columns.now summary.now) }
{
    match aggregate_types(alloc, columns, summary.aggregates.as_slice())? {
        Some(slots) => Ok(expression_type(&summary.value, columns, slots.as_slice()).is_some()),
        None => Ok(false),
    }
}

fn is_typed_having(
    alloc: Global,
    columns: &[Column],
    having: &Option<GroupCondition>,
) -> Result<bool, AllocError>
    ensures { IfOk result (λ typed. typed ≡ is_typed_having columns.now having.now) }
{
    match having {
        Some(having) => {
            let slots = aggregate_types(alloc, columns, having.aggregates.as_slice())?;
            Ok(is_typed_over(&having.condition, columns, &slots))
        }
        None => Ok(true),
    }
}

/// Whether all that is over groups is bounded.
pub fn is_bounded_grouping(alloc: Global, grouping: &Grouping) -> Result<bool, AllocError>
    ensures value { IfOk result (λ bounded. bounded ≡ is_bounded_grouping grouping.now) }
    ensures bounded { IfOk result (λ bounded. IsTrue bounded → IsBoundedGrouping grouping.now) }
{
    Ok(
        are_bounded_summaries(alloc, grouping.values.as_slice())?
            && is_bounded_having(alloc, &grouping.having)?,
    )
}

fn are_bounded_summaries(alloc: Global, summaries: &[Summary]) -> Result<bool, AllocError>
    ensures value { IfOk result (λ bounded. bounded ≡ list_all is_bounded_summary summaries.now) }
    ensures bounded { IfOk result (λ bounded. IsTrue bounded → All IsBoundedSummary summaries.now) }
{
    for summary in summaries {
        if !is_bounded_summary(alloc, summary)? {
            return Ok(false);
        }
    }
    Ok(true)
}

fn is_bounded_summary(alloc: Global, summary: &Summary) -> Result<bool, AllocError>
    ensures { IfOk result (λ bounded. bounded ≡ is_bounded_summary summary.now) }
{
    let slots = aggregate_kinds(alloc, summary.aggregates.as_slice())?;
    Ok(bound(&summary.value, &slots).is_ok())
}

fn is_bounded_having(alloc: Global, having: &Option<GroupCondition>) -> Result<bool, AllocError>
    ensures { IfOk result (λ bounded. bounded ≡ is_bounded_having having.now) }
{
    match having {
        Some(having) => {
            let slots = aggregate_kinds(alloc, having.aggregates.as_slice())?;
            Ok(is_bounded(&having.condition, &slots))
        }
        None => Ok(true),
    }
}
