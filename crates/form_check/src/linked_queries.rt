//! The queries of a condition over a row.

ghost use Rattle.std.specs.Prelude.{◌≡◌, ◌≢◌, IfOk, IfErr, Ok, Err};
ghost use Rattle.syntax.specs.declared.trees.Query.{out-Query};
ghost use Rattle.value.specs.declared.refusals.Refusal.TheVariants.{NoMemory};
ghost use Rattle.form_check.specs.ShownScopes.{lent_scope};
ghost use Rattle.form_check.specs.Links.{top_parts};
ghost use Rattle.form_check.specs.Forms.{slot_query_of, linked_by, linked_exists, linked_value, linked_filter};
ghost use Rattle.form_check.specs.ShownSources.{shown_source};

use crate::leaves::{Columns, Leaf};
use crate::links::LinkedTables;
use crate::queries::{Source, may_be_selected, selected_aggregate};
use crate::scopes::Scope;
use crate::slots::Slots;
use assertion::{Link, Query};
use sqlite_items::Items;
use std::alloc::Global;
use std::slice;
use syntax::{ColumnName, Condition, Query as WrittenQuery};
use table::{Aggregate, Catalog, Cond};
use value::Refusal;

/// The queries of the rows of a table.
#[derive(Clone, Copy)]
pub struct RowQueries<'a> {
    pub catalog: &'a Catalog,
    pub root: Scope<'a>,
}

impl<'a> Slots for RowQueries<'a> {
    type Slot = Query<Link>;

    ghost slot = { λ s. slot_query_of s.catalog.now (lent_scope s.root) };

    fn slot(&self, alloc: Global, leaf: &Leaf) -> Result<Query<Link>, Refusal> {
        match leaf {
            Leaf::Rows | Leaf::Of(_, _) => Err(Refusal::OutsideClass),
            Leaf::Exists(query) => linked_exists(alloc, self.catalog, self.root, query),
            Leaf::Value(query) => linked_value(alloc, self.catalog, self.root, query),
        }
    }
}

/// A query of the row under EXISTS: the count of its rows.
fn linked_exists(
    alloc: Global,
    catalog: &Catalog,
    root: Scope,
    query: &WrittenQuery,
) -> Result<Query<Link>, Refusal>
    ensures made { IfOk result (λ made.
        linked_exists catalog.now (lent_scope root.entry) (out-Query query.now) ≡ Ok made) }
    ensures refused { IfErr result (λ refusal.
        refusal ≢ NoMemory → linked_exists catalog.now (lent_scope root.entry) (out-Query query.now) ≡ Err refusal) }
{
    let Some(child) = Source::of(catalog, &query.table, &query.correlation_name) else {
        return Err(Refusal::OutsideClass);
    };
    if !may_be_selected(&Columns::Own(child.scope), &query.select_list) {
        return Err(Refusal::OutsideClass);
    }
    linked_filter(
        alloc,
        child,
        root,
        Aggregate::CountRows,
        &query.keeps,
        &query.group,
        &query.having,
    )
}

/// A query of the row that stands for its value.
fn linked_value(
    alloc: Global,
    catalog: &Catalog,
    root: Scope,
    query: &WrittenQuery,
) -> Result<Query<Link>, Refusal>
    ensures made { IfOk result (λ made.
        linked_value catalog.now (lent_scope root.entry) (out-Query query.now) ≡ Ok made) }
    ensures refused { IfErr result (λ refusal.
        refusal ≢ NoMemory → linked_value catalog.now (lent_scope root.entry) (out-Query query.now) ≡ Err refusal) }
{
    let Some(child) = Source::of(catalog, &query.table, &query.correlation_name) else {
        return Err(Refusal::OutsideClass);
    };
    let Some(aggregate) = selected_aggregate(child.scope, &query.select_list) else {
        return Err(Refusal::OutsideClass);
    };
    linked_filter(
        alloc,
        child,
        root,
        aggregate,
        &query.keeps,
        &query.group,
        &query.having,
    )
}

/// A query of the row by its clauses: it has WHERE, and neither GROUP BY nor HAVING.
fn linked_filter(
    alloc: Global,
    child: Source,
    root: Scope,
    aggregate: Aggregate,
    keeps: &Option<Condition>,
    group: &Option<ColumnName>,
    having: &Option<Condition>,
) -> Result<Query<Link>, Refusal>
    ensures made { IfOk result (λ made.
        linked_filter (shown_source child.entry) (lent_scope root.entry) aggregate keeps.now group.now having.now
        ≡ Ok made) }
    ensures refused { IfErr result (λ refusal. refusal ≢ NoMemory
        → linked_filter (shown_source child.entry) (lent_scope root.entry) aggregate keeps.now group.now having.now
        ≡ Err refusal) }
{
    match (keeps, group, having) {
        (Some(condition), None, None) => linked_by(alloc, child, root, aggregate, condition),
        (None, _, _) | (Some(_), Some(_), _) | (Some(_), None, Some(_)) => {
            Err(Refusal::OutsideClass)
        }
    }
}

/// A query of the row by its WHERE.
fn linked_by(
    alloc: Global,
    child: Source,
    root: Scope,
    aggregate: Aggregate,
    condition: &Condition,
) -> Result<Query<Link>, Refusal>
    ensures made { IfOk result (λ made.
        linked_by (shown_source child.entry) (lent_scope root.entry) aggregate condition.now ≡ Ok made) }
    ensures refused { IfErr result (λ refusal. refusal ≢ NoMemory
        → linked_by (shown_source child.entry) (lent_scope root.entry) aggregate condition.now ≡ Err refusal) }
{
    let tables = LinkedTables {
        child: child.scope,
        root,
    };
    let parts = top_parts(condition);
    let Some(link) = tables.first_link(parts) else {
        return Err(Refusal::OutsideClass);
    };
    let filters = tables.filter_parts(alloc, parts)?;
    Ok(Query {
        table: child.table,
        filter: Cond::And(Items::from_vec(filters)),
        grouping: link,
        aggregate,
    })
}

/// The parts that AND joins at the top of a condition.
fn top_parts(condition: &Condition) -> &[Condition]
    ensures { result.now ≡ top_parts condition.now }
{
    match condition {
        Condition::And(parts) => parts.as_slice(),
        other => slice::from_ref(other),
    }
}
