//! The roots at which changes can turn an assertion.

ghost use Rattle.std.specs.Prelude.{◌≡◌, ◌++◌, filter, flat_map, map, IfOk, OnOk, option_to_list};
ghost use Rattle.std.specs.Ordering.{eq_by_cmp};
ghost use Rattle.value.specs.ValueOrder.{value_cmp};
ghost use Rattle.table.specs.Rows.{value_in, key_of};
ghost use Rattle.value.specs.declared.values.Root.TheVariants.{Of};
ghost use Rattle.assertion.specs.Candidates.{candidates as candidates_by, candidates_of, group_candidates, is_named as is_named_of, linked_roots, linked_values, query_candidates};
ghost use Rattle.assertion.specs.Meaning.{rows_of};
ghost use Rattle.roots.specs.Over.{is_over as is_over_of};

use assertion::{Form, Link, Query};
use mvrows::Rows;
use std::alloc::{AllocError, Global};
use table::{Change, Row, Schema, key_column, value_at};
use value::{Root, Value};

/// The roots at which an assertion can be another after the changes than before, in the order of the changes; `tables`
/// are those after them. A root may stand more than once. Every other root keeps its truth.
pub fn candidates(
    alloc: Global,
    schemas: &[Schema],
    tables: &[Rows],
    form: &Form,
    changes: &[Change],
) -> Result<Vec<Root>, AllocError>
    ensures { IfOk result (λ roots.
        roots.items ≡ candidates_of schemas.now tables.now changes.now form.now) }
{
    let mut roots = Vec::new(alloc);
    for change in changes {
        push_candidates(&mut roots, schemas, tables, form, change)?;
    }
    Ok(roots)
}

/// Puts the candidates of one change behind the roots.
pub(crate) fn push_candidates(
    roots: &mut Vec<Root>,
    schemas: &[Schema],
    tables: &[Rows],
    form: &Form,
    change: &Change,
) -> Result<(), AllocError>
    ensures { OnOk result (roots.new.items
        ≡ roots.old.items ++ candidates_by schemas.now tables.now change.now form.now) }
{
    match form {
        Form::ByRow { table, queries, .. } => {
            if *table == change.table {
                roots.push(Root::Of(change.key.copy()?))?;
            }
            let of = RootTable {
                tables,
                table: *table,
                key: key_column(schemas, *table),
            };
            push_links(roots, of, queries.as_slice(), change)?;
        }
        Form::ByGroup { table, group, .. } => {
            if *table == change.table {
                push_group(roots, *group, &change.old)?;
                push_group(roots, *group, &change.new)?;
            }
        }
        Form::Single { queries, .. } => {
            if is_named(queries.as_slice(), change.table) {
                roots.push(Root::All)?;
            }
        }
    }
    Ok(())
}

/// The table of the roots of a form by rows, among the tables, and the column of its key.
#[derive(Clone, Copy)]
struct RootTable<'a> {
    tables: &'a [Rows],
    table: usize,
    key: usize,
}

/// Puts the roots to which the subqueries link the old and the new row behind the roots.
fn push_links(
    roots: &mut Vec<Root>,
    of: RootTable,
    queries: &[Query<Link>],
    change: &Change,
) -> Result<(), AllocError>
    ensures { OnOk result (roots.new.items ≡ roots.old.items
        ++ flat_map (query_candidates of.entry.key (rows_of of.entry.table of.entry.tables.now) change.now)
        queries.now) }
{
    for query in queries {
        if query.table == change.table {
            push_linked(roots, of, query.grouping, &change.old)?;
            push_linked(roots, of, query.grouping, &change.new)?;
        }
    }
    Ok(())
}

/// Puts the roots to which a row, if there is one, is linked behind the roots. NULL links to none.
fn push_linked(
    roots: &mut Vec<Root>,
    of: RootTable,
    link: Link,
    row: &Option<Row>,
) -> Result<(), AllocError>
    ensures { OnOk result (roots.new.items ≡ roots.old.items
        ++ flat_map (linked_roots of.entry.key link (rows_of of.entry.table of.entry.tables.now))
        (linked_values link (option_to_list row.now))) }
{
    if let Some(row) = row {
        match row.values().get(link.inner) {
            Some(Value::Null) | None => {}
            Some(value) => push_roots_with(roots, of, link, value)?,
        }
    }
    Ok(())
}

/// Puts the roots to which a value links behind the roots.
fn push_roots_with(
    roots: &mut Vec<Root>,
    of: RootTable,
    link: Link,
    value: &Value,
) -> Result<(), AllocError>
    ensures { OnOk result (roots.new.items ≡ roots.old.items
        ++ linked_roots of.entry.key link (rows_of of.entry.table of.entry.tables.now) value.now) }
{
    if link.outer == of.key {
        roots.push(Root::Of(value.copy()?))?;
        return Ok(());
    }
    match of.tables.get(of.table) {
        Some(rows) => push_rows_with(roots, rows, of.key, link.outer, value),
        None => Ok(()),
    }
}

/// Puts the keys of the rows that have a value in a column behind the roots.
#[tactic(auto, using(crate::proofs::LinkedLemmas::roots_of_keys))]
fn push_rows_with(
    roots: &mut Vec<Root>,
    rows: &Rows,
    key_column: usize,
    column: usize,
    value: &Value,
) -> Result<(), AllocError>
    ensures { OnOk result (roots.new.items ≡ roots.old.items ++ map (λ row. Of (value_in key_column row))
        (filter (λ row. eq_by_cmp value_cmp value.now (value_in column row)) rows.now)) }
{
    let keys = rows.keys_with(*roots.allocator(), key_column, column, value)?;
    push_keys(roots, &keys)
}

/// Puts keys behind the roots.
fn push_keys(roots: &mut Vec<Root>, keys: &[Value]) -> Result<(), AllocError>
    ensures { OnOk result (roots.new.items ≡ roots.old.items ++ map Of keys.now) }
{
    for key in keys {
        roots.push(Root::Of(key.copy()?))?;
    }
    Ok(())
}

/// Puts the group of a row, if there is one, behind the roots. NULL is a group.
fn push_group(roots: &mut Vec<Root>, group: usize, row: &Option<Row>) -> Result<(), AllocError>
    ensures { OnOk result (roots.new.items
        ≡ roots.old.items ++ group_candidates group (option_to_list row.now)) }
{
    if let Some(row) = row {
        roots.push(Root::Of(value_at(row, group)?))?;
    }
    Ok(())
}

/// Whether one of the subqueries is over the table.
fn is_named<G>(queries: &[Query<G>], table: usize) -> bool
    ensures { result ≡ is_named_of table queries.now }
{
    for query in queries {
        if query.table == table {
            return true;
        }
    }
    false
}

/// Whether an assertion is over a table, by its outer query or by a subquery. A change of another table has no
/// candidates, and what is maintained for the assertion stays right.
pub fn is_over(form: &Form, table: usize) -> bool
    ensures { result ≡ is_over_of table form.now }
{
    match form {
        Form::ByRow {
            table: of,
            queries,
            ..
        } => *of == table || is_named(queries.as_slice(), table),
        Form::ByGroup { table: of, .. } => *of == table,
        Form::Single { queries, .. } => is_named(queries.as_slice(), table),
    }
}
