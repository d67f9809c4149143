//! The form of an assertion's condition.

ghost use Rattle.std.specs.Prelude.{◌≡◌, ◌≢◌, IfOk, IfErr, Ok, Err};
ghost use Rattle.syntax.specs.declared.trees.Query.{out-Query};
ghost use Rattle.value.specs.declared.refusals.Refusal.TheVariants.{NoMemory};
ghost use Rattle.form_check.specs.ShownScopes.{lent_scope};
ghost use Rattle.form_check.specs.Forms.{by_clauses, by_group, by_row, form_of, having_over, not_exists, row_where, single};
ghost use Rattle.form_check.specs.ShownSources.{shown_source};
ghost use Rattle.form_check.specs.ShownLeaves.{shown_leaves};

use crate::aggregates::Aggregates;
use crate::leaves::{Columns, Leaf, numbered_condition};
use crate::linked_queries::RowQueries;
use crate::plain_queries::WholeQueries;
use crate::queries::{Source, may_be_selected, row_filter};
use crate::scopes::Scope;
use crate::slots::{all_slots, drop_and_refuse};
use assertion::Form;
use sqlite_items::Items;
use std::alloc::Global;
use syntax::{ColumnName, Condition, Query};
use table::{Catalog, Cond};
use value::Refusal;

/// The form of an assertion's condition, whose names are known.
///
/// # Errors
///
/// [`Refusal::OutsideClass`] where it is of none of the three forms, or [`Refusal::NoMemory`].
pub fn form(alloc: Global, catalog: &Catalog, condition: &Condition) -> Result<Form, Refusal>
    ensures made { IfOk result (λ made. form_of catalog.now condition.now ≡ Ok made) }
    ensures refused { IfErr result (λ refusal. refusal ≢ NoMemory → form_of catalog.now condition.now ≡ Err refusal) }
{
    match condition {
        Condition::Not(part) => match part.get() {
            Condition::Exists(query) => not_exists(alloc, catalog, query.get()),
            _ => single(alloc, catalog, condition),
        },
        _ => single(alloc, catalog, condition),
    }
}

/// NOT EXISTS of a query: by rows without GROUP BY and HAVING, by groups with both.
fn not_exists(alloc: Global, catalog: &Catalog, query: &Query) -> Result<Form, Refusal>
    ensures made { IfOk result (λ made. not_exists catalog.now (out-Query query.now) ≡ Ok made) }
    ensures refused { IfErr result (λ refusal.
        refusal ≢ NoMemory → not_exists catalog.now (out-Query query.now) ≡ Err refusal) }
{
    let Some(source) = Source::of(catalog, &query.table, &query.correlation_name) else {
        return Err(Refusal::OutsideClass);
    };
    match (&query.group, &query.having) {
        (None, None) => by_row(alloc, catalog, source, query),
        (Some(column), Some(having)) => by_group(alloc, source, query, column, having),
        (None, Some(_)) | (Some(_), None) => Err(Refusal::OutsideClass),
    }
}

/// No row for which WHERE is true.
fn by_row(alloc: Global, catalog: &Catalog, source: Source, query: &Query) -> Result<Form, Refusal>
    ensures made { IfOk result (λ made.
        by_row catalog.now (shown_source source.entry) (out-Query query.now) ≡ Ok made) }
    ensures refused { IfErr result (λ refusal.
        refusal ≢ NoMemory → by_row catalog.now (shown_source source.entry) (out-Query query.now) ≡ Err refusal) }
{
    if !may_be_selected(&Columns::Own(source.scope), &query.select_list) {
        return Err(Refusal::OutsideClass);
    }
    let (condition, leaves) = row_where(alloc, source.scope, &query.keeps)?;
    let root = source.scope;
    match all_slots(alloc, &RowQueries { catalog, root }, &leaves) {
        Ok(queries) => Ok(Form::ByRow {
            table: source.table,
            condition,
            queries,
        }),
        Err(refusal) => drop_and_refuse(refusal, condition),
    }
}

/// The condition of WHERE, and what stands in its slots; a missing one keeps every row.
fn row_where<'a>(
    alloc: Global,
    scope: Scope,
    keeps: &'a Option<Condition>,
) -> Result<(Cond, Vec<Leaf<'a>>), Refusal>
    ensures made { IfOk result (λ made.
        row_where (lent_scope scope.entry) keeps.now ≡ Ok (made.0, shown_leaves made.1.items)) }
    ensures refused { IfErr result (λ refusal.
        refusal ≢ NoMemory → row_where (lent_scope scope.entry) keeps.now ≡ Err refusal) }
{
    let mut leaves = Vec::new(alloc);
    let condition = match keeps {
        Some(condition) => numbered_condition(alloc, &Columns::Own(scope), condition, &mut leaves)?,
        None => Cond::And(Items::new(alloc)),
    };
    Ok((condition, leaves))
}

/// No group for which HAVING is true.
fn by_group(
    alloc: Global,
    source: Source,
    query: &Query,
    column: &ColumnName,
    having: &Condition,
) -> Result<Form, Refusal>
    ensures made { IfOk result (λ made.
        by_group (shown_source source.entry) (out-Query query.now) column.now having.now ≡ Ok made) }
    ensures refused { IfErr result (λ refusal. refusal ≢ NoMemory
        → by_group (shown_source source.entry) (out-Query query.now) column.now having.now ≡ Err refusal) }
{
    let Some(group) = source.scope.own(column) else {
        return Err(Refusal::OutsideClass);
    };
    if !may_be_selected(&Columns::Grouping(source.scope, group), &query.select_list) {
        return Err(Refusal::OutsideClass);
    }
    let filter = row_filter(alloc, source.scope, &query.keeps)?;
    having_over(alloc, source, group, filter, having)
}

/// The form by groups of the rows of a filter, with the condition of HAVING.
fn having_over(
    alloc: Global,
    source: Source,
    group: usize,
    filter: Cond,
    having: &Condition,
) -> Result<Form, Refusal>
    ensures made { IfOk result (λ made. having_over (shown_source source.entry) group filter having.now ≡ Ok made) }
    ensures refused { IfErr result (λ refusal.
        refusal ≢ NoMemory → having_over (shown_source source.entry) group filter having.now ≡ Err refusal) }
{
    let mut leaves = Vec::new(alloc);
    let scope = source.scope;
    let having = match numbered_condition(
        alloc,
        &Columns::Grouping(scope, group),
        having,
        &mut leaves,
    ) {
        Ok(having) => having,
        Err(refusal) => return drop_and_refuse(refusal, filter),
    };
    match all_slots(alloc, &Aggregates { scope }, &leaves) {
        Ok(aggregates) => Ok(Form::ByGroup {
            table: source.table,
            filter,
            group,
            having,
            aggregates,
        }),
        Err(refusal) => drop_and_refuse(refusal, (filter, having)),
    }
}

/// A condition of its own, over no row.
fn single(alloc: Global, catalog: &Catalog, condition: &Condition) -> Result<Form, Refusal>
    ensures made { IfOk result (λ made. single catalog.now condition.now ≡ Ok made) }
    ensures refused { IfErr result (λ refusal. refusal ≢ NoMemory → single catalog.now condition.now ≡ Err refusal) }
{
    let mut leaves = Vec::new(alloc);
    let condition = numbered_condition(alloc, &Columns::None, condition, &mut leaves)?;
    match all_slots(alloc, &WholeQueries { catalog }, &leaves) {
        Ok(queries) => Ok(Form::Single { condition, queries }),
        Err(refusal) => drop_and_refuse(refusal, condition),
    }
}
