//! Which forms of assertions have only bounded expressions.

ghost use Rattle.std.specs.Prelude.{◌≡◌, ◌↔◌, [], map, IfOk, IsTrue};
ghost use Rattle.std.specs.List.{list_all};
ghost use Rattle.table.specs.Bounds.{is_bounded as is_bounded_of};
ghost use Rattle.assertion.specs.Bounded.{IsBounded, query_kinds as query_kinds_of};
ghost use Rattle.table.specs.Kinds.{kind_of_aggregate};
ghost use Rattle.assertcheck.specs.Widths.{is_bounded_form};

use assertion::{Form, Query, kind};
use std::alloc::{AllocError, Global};
use table::{Aggregate, SlotKind, is_bounded};

/// Whether each condition of a form has only expressions with a bound; so it is evaluated without overflow.
pub fn form_is_bounded(alloc: Global, form: &Form) -> Result<bool, AllocError>
    ensures value { IfOk result (λ bounded. bounded ≡ is_bounded_form form.now) }
    ensures exact { IfOk result (λ bounded. IsTrue bounded ↔ IsBounded form.now) }
{
    match form {
        Form::ByRow {
            condition,
            queries,
            ..
        } => {
            let queries = queries.as_slice();
            let slots = query_kinds(alloc, queries)?;
            Ok(is_bounded(condition, &slots) && are_bounded(queries))
        }
        Form::ByGroup {
            filter,
            having,
            aggregates,
            ..
        } => {
            let slots = aggregate_kinds(alloc, aggregates.as_slice())?;
            Ok(is_bounded(filter, &[]) && is_bounded(having, &slots))
        }
        Form::Single { condition, queries } => {
            let queries = queries.as_slice();
            let slots = query_kinds(alloc, queries)?;
            Ok(is_bounded(condition, &slots) && are_bounded(queries))
        }
    }
}

/// The kinds of the slots that subqueries fill.
fn query_kinds<G>(alloc: Global, queries: &[Query<G>]) -> Result<Vec<SlotKind>, AllocError>
    ensures { IfOk result (λ kinds. kinds.items ≡ query_kinds_of queries.now) }
{
    let mut kinds = Vec::new(alloc);
    for query in queries {
        kinds.push(kind(query.aggregate))?;
    }
    Ok(kinds)
}

/// The kinds of the slots that set functions fill.
pub fn aggregate_kinds(alloc: Global, aggregates: &[Aggregate]) -> Result<Vec<SlotKind>, AllocError>
    ensures { IfOk result (λ kinds. kinds.items ≡ map kind_of_aggregate aggregates.now) }
{
    let mut kinds = Vec::new(alloc);
    for aggregate in aggregates {
        kinds.push(kind(*aggregate))?;
    }
    Ok(kinds)
}

/// Whether the WHERE of each subquery has only bounded expressions.
fn are_bounded<G>(queries: &[Query<G>]) -> bool
    ensures { result ≡ list_all (λ q. is_bounded_of [] q.filter) queries.now }
{
    queries.iter().all(|query| is_bounded(&query.filter, &[]))
}
