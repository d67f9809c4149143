//! The queries of a condition of its own.

ghost use Rattle.std.specs.Prelude.{◌≡◌, ◌≢◌, IfOk, IfErr, Ok, Err};
ghost use Rattle.syntax.specs.declared.trees.Query.{out-Query};
ghost use Rattle.value.specs.declared.refusals.Refusal.TheVariants.{NoMemory};
ghost use Rattle.form_check.specs.Forms.{plain, plain_by, plain_value};
ghost use Rattle.form_check.specs.ShownSources.{shown_source};

use crate::leaves::Leaf;
use crate::queries::{Source, row_filter, selected_aggregate};
use crate::slots::Slots;
use assertion::{Query, Whole};
use std::alloc::Global;
use syntax::{ColumnName, Condition, Query as WrittenQuery};
use table::{Aggregate, Catalog};
use value::Refusal;

/// The queries of a condition of its own.
#[derive(Clone, Copy)]
pub struct WholeQueries<'a> {
    pub catalog: &'a Catalog,
}

impl<'a> Slots for WholeQueries<'a> {
    type Slot = Query<Whole>;

    ghost slot = { λ s. plain s.catalog.now };

    fn slot(&self, alloc: Global, leaf: &Leaf) -> Result<Query<Whole>, Refusal> {
        match leaf {
            Leaf::Rows | Leaf::Of(_, _) | Leaf::Exists(_) => Err(Refusal::OutsideClass),
            Leaf::Value(query) => plain_value(alloc, self.catalog, query),
        }
    }
}

/// A query that stands for its value.
fn plain_value(
    alloc: Global,
    catalog: &Catalog,
    query: &WrittenQuery,
) -> Result<Query<Whole>, Refusal>
    ensures made { IfOk result (λ made. plain_value catalog.now (out-Query query.now) ≡ Ok made) }
    ensures refused { IfErr result (λ refusal.
        refusal ≢ NoMemory → plain_value catalog.now (out-Query query.now) ≡ Err refusal) }
{
    let Some(source) = Source::of(catalog, &query.table, &query.correlation_name) else {
        return Err(Refusal::OutsideClass);
    };
    let aggregate = selected_aggregate(source.scope, &query.select_list);
    plain_by(
        alloc,
        source,
        aggregate,
        &query.keeps,
        &query.group,
        &query.having,
    )
}

/// A query by its clauses: it lists one set function, and has neither GROUP BY nor HAVING.
fn plain_by(
    alloc: Global,
    source: Source,
    aggregate: Option<Aggregate>,
    keeps: &Option<Condition>,
    group: &Option<ColumnName>,
    having: &Option<Condition>,
) -> Result<Query<Whole>, Refusal>
    ensures made { IfOk result (λ made.
        plain_by (shown_source source.entry) aggregate keeps.now group.now having.now ≡ Ok made) }
    ensures refused { IfErr result (λ refusal. refusal ≢ NoMemory
        → plain_by (shown_source source.entry) aggregate keeps.now group.now having.now ≡ Err refusal) }
{
    let (Some(aggregate), None, None) = (aggregate, group, having) else {
        return Err(Refusal::OutsideClass);
    };
    Ok(Query {
        table: source.table,
        filter: row_filter(alloc, source.scope, keeps)?,
        grouping: Whole,
        aggregate,
    })
}
