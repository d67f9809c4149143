//! The summaries of a form: the queries whose totals are maintained.

ghost use Rattle.std.specs.Prelude.{◌≡◌, ◌<◌, List, length, slice_index_or};
ghost use Rattle.table.specs.declared.aggregates.Aggregate.TheVariants as functions;
ghost use Rattle.table.specs.Rows.{Layout};
ghost use Rattle.roots.specs.Maintained.{IsKeyed};
ghost use Rattle.roots.specs.Shown.{lent_query};
ghost use Rattle.roots.specs.Summaries.{linked_grouping as linked_grouping_of, queries_of, query_with_grouping as regrouped_of, summaries_of};

use crate::grouped::{Around, Grouping, Summary};
use assertion::{Form, Link, Query};
use table::{Aggregate, Schema, key_column};

/// How many slots the condition of a form has. Each is answered from the summary at its own index.
pub fn slot_count(form: &Form) -> usize
    ensures { (layouts : List Layout) → result ≡ length (queries_of layouts form.now) }
{
    match form {
        Form::ByRow { queries, .. } => queries.as_slice().len(),
        Form::ByGroup { aggregates, .. } => aggregates.as_slice().len(),
        Form::Single { queries, .. } => queries.as_slice().len(),
    }
}

/// How many summaries a form has: one for each slot, and of groups at least one.
pub fn summary_count(form: &Form) -> usize
    ensures { (layouts : List Layout) → result ≡ length (summaries_of layouts form.now) }
{
    match form {
        Form::ByRow { queries, .. } => queries.as_slice().len(),
        Form::ByGroup { aggregates, .. } => aggregates.as_slice().len().max(1),
        Form::Single { queries, .. } => queries.as_slice().len(),
    }
}

/// The summary at an index.
pub fn summary_of<'a>(schemas: &[Schema], form: &'a Form, index: usize) -> Summary<'a>
    requires within { index < length (summaries_of schemas.now form.now) }
    ensures summary { lent_query result ≡ slice_index_or (summaries_of schemas.now form.now) index (lent_query result) }
    ensures keyed { IsKeyed schemas.now (lent_query result) }
{
    match form {
        Form::ByRow { table, queries, .. } => {
            let query = &queries.as_slice()[index];
            query_with_grouping(query, linked_grouping(schemas, *table, query))
        }
        Form::ByGroup {
            table,
            filter,
            group,
            aggregates,
            ..
        } => Summary {
            table: *table,
            filter,
            grouping: Grouping::By(*group),
            aggregate: function_at(aggregates.as_slice(), index),
        },
        Form::Single { queries, .. } => query_with_grouping(
            &queries.as_slice()[index],
            Grouping::Whole,
        ),
    }
}

/// How the rows of a subquery of a table's rows are grouped.
fn linked_grouping(schemas: &[Schema], table: usize, query: &Query<Link>) -> Grouping
    ensures { result ≡ linked_grouping_of schemas.now table query.now }
{
    let link = query.grouping;
    if !query.filter.has_slots() {
        return Grouping::Linked(link);
    }
    if link.inner == key_column(schemas, query.table) {
        return Grouping::ByKey(link);
    }
    let key = key_column(schemas, table);
    Grouping::PerRow(Around { table, key, link })
}

/// A query with groups of this kind.
fn query_with_grouping<'a, G>(query: &'a Query<G>, grouping: Grouping) -> Summary<'a>
    ensures { lent_query result ≡ regrouped_of grouping query.now }
{
    Summary {
        table: query.table,
        filter: &query.filter,
        grouping,
        aggregate: query.aggregate,
    }
}

/// The set function at an index; the count of rows past the last.
fn function_at(aggregates: &[Aggregate], index: usize) -> Aggregate
    ensures { result ≡ slice_index_or aggregates.now index functions.CountRows }
{
    match aggregates.get(index) {
        Some(aggregate) => *aggregate,
        None => Aggregate::CountRows,
    }
}
