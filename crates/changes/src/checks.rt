//! What checks and VERDICT read.

ghost use Rattle.std.specs.Prelude.{◌≡◌, ◌<◌, ◌++◌, [], flat_map, length, map, option_to_list, slice_index_or, Some};
ghost use Rattle.std.specs.Prelude.{if◌then◌else◌, IfOk, OnOk};
ghost use Rattle.std.specs.Option.{option_copied};
ghost use Rattle.assertion.specs.declared.assertions.Assertion.{Assertion as AnyAssertion};
ghost use Rattle.assertion.specs.Candidates.{candidates_of, linked_values};
ghost use Rattle.assertion.specs.Declarations.{layouts_in};
ghost use Rattle.table.specs.Rows.{key_of, value_in};
ghost use Rattle.siread.specs.declared.keys.LockKey.TheVariants.{Column as InColumn, Table as WholeTable};
ghost use Rattle.alone.specs.States.{row_in};
ghost use Rattle.alone.specs.Modes.{immediate_ones};
ghost use Rattle.alone.specs.Checks.{check_keys, checks_read as checks_read_of, finding_keys, inner_key as inner_key_of, keys_for, outer_keys, query_keys, row_keys, tables_in};
ghost use Rattle.changes.specs.Lookups.{group_keys};

use alone::Modes;
use assertion::{Form, Link, Query};
use delta::View;
use siread::{LockKey, Place};
use std::alloc::{AllocError, Global};
use table::{Change, Row, value_at};
use value::{Root, Value};

/// The keys that a check of the assertions meant reads on this view, over the changes that led to it: those by which
/// the candidates are found, and at each candidate, by rows its row and the rows that are linked to it, by groups the
/// group, and of a single condition the tables of its queries.
pub fn checks_read(
    alloc: Global,
    view: &View,
    meant: &Modes,
    changes: &[Change],
) -> Result<Vec<LockKey>, AllocError>
    requires { length meant.now ≡ length view.now.declared.assertions }
    ensures { IfOk result (λ keys. keys.items
        ≡ checks_read_of (layouts_in view.now.declared) view.now.state
        (immediate_ones meant.now view.now.declared.assertions) changes.now) }
{
    let mut keys = Vec::new(alloc);
    push_checks(&mut keys, view, meant, changes)?;
    Ok(keys)
}

/// Puts the same keys behind these.
pub fn push_checks(
    keys: &mut Vec<LockKey>,
    view: &View,
    meant: &Modes,
    changes: &[Change],
) -> Result<(), AllocError>
    requires { length meant.now ≡ length view.now.declared.assertions }
    ensures { OnOk result (keys.new.items ≡ keys.old.items
        ++ checks_read_of (layouts_in view.now.declared) view.now.state
        (immediate_ones meant.now view.now.declared.assertions) changes.now) }
{
    for place in 0..meant.len() {
        push_if_meant(keys, view, meant.is_immediate(place), place, changes)?;
    }
    Ok(())
}

/// Puts what a check of an assertion reads behind the keys, if it is meant.
fn push_if_meant(
    keys: &mut Vec<LockKey>,
    view: &View,
    is_meant: bool,
    assertion: usize,
    changes: &[Change],
) -> Result<(), AllocError>
    requires { assertion < length view.now.declared.assertions }
    ensures { OnOk result ((a : AnyAssertion)
        → keys.new.items ≡ keys.old.items
        ++ (if is_meant then check_keys (layouts_in view.now.declared) view.now.state
        (slice_index_or view.now.declared.assertions assertion a).form changes.now else [])) }
{
    if is_meant {
        push_check(keys, view, assertion, changes)?;
    }
    Ok(())
}

/// Puts what a check of an assertion reads, on this view and over the changes that led to it, behind the keys.
pub fn push_check(
    keys: &mut Vec<LockKey>,
    view: &View,
    assertion: usize,
    changes: &[Change],
) -> Result<(), AllocError>
    requires { assertion < length view.now.declared.assertions }
    ensures { OnOk result ((a : AnyAssertion)
        → keys.new.items ≡ keys.old.items
        ++ check_keys (layouts_in view.now.declared) view.now.state
        (slice_index_or view.now.declared.assertions assertion a).form changes.now) }
{
    let form = &view.assertions()[assertion].form;
    push_finding(keys, view, form, changes)?;
    push_looks(keys, view, assertion, changes)
}

/// Puts what a look at each candidate of the changes reads behind the keys. By groups the candidates are what the rows
/// have in a column, which is what is read of them, so that no list of roots is made.
fn push_looks(
    keys: &mut Vec<LockKey>,
    view: &View,
    assertion: usize,
    changes: &[Change],
) -> Result<(), AllocError>
    requires { assertion < length view.now.declared.assertions }
    ensures { OnOk result ((a : AnyAssertion)
        → keys.new.items ≡ keys.old.items
        ++ flat_map (keys_for (layouts_in view.now.declared) view.now.state
        (slice_index_or view.now.declared.assertions assertion a).form)
        (candidates_of (layouts_in view.now.declared) view.now.state changes.now
        (slice_index_or view.now.declared.assertions assertion a).form)) }
{
    let form = &view.assertions()[assertion].form;
    match form {
        Form::ByGroup { table, group, .. } => push_groups(keys, *table, *group, changes),
        Form::ByRow { .. } | Form::Single { .. } => {
            let roots = view.candidates(assertion, changes)?;
            push_roots(keys, view, form, &roots)
        }
    }
}

/// Puts the groups of the rows of changes of a table behind the keys.
fn push_groups(
    keys: &mut Vec<LockKey>,
    table: usize,
    group: usize,
    changes: &[Change],
) -> Result<(), AllocError>
    ensures { OnOk result (keys.new.items ≡ keys.old.items ++ flat_map (group_keys table group) changes.now) }
{
    for change in changes {
        if table == change.table {
            push_group(keys, table, group, &change.old)?;
            push_group(keys, table, group, &change.new)?;
        }
    }
    Ok(())
}

/// Puts the group of a row, if there is one, behind the keys. NULL is a group.
fn push_group(
    keys: &mut Vec<LockKey>,
    table: usize,
    column: usize,
    row: &Option<Row>,
) -> Result<(), AllocError>
    ensures { OnOk result (keys.new.items
        ≡ keys.old.items ++ map (λ row. InColumn table column (value_in column row)) (option_to_list row.now)) }
{
    if let Some(row) = row {
        let value = value_at(row, column)?;
        keys.push(LockKey::Column {
            table,
            column,
            value,
        })?;
    }
    Ok(())
}

/// Puts the keys by which the candidates of changes are found behind the keys.
fn push_finding(
    keys: &mut Vec<LockKey>,
    view: &View,
    form: &Form,
    changes: &[Change],
) -> Result<(), AllocError>
    ensures { OnOk result (keys.new.items
        ≡ keys.old.items ++ flat_map (finding_keys (layouts_in view.now.declared) form.now) changes.now) }
{
    for change in changes {
        push_found(keys, view, form, change)?;
    }
    Ok(())
}

/// Puts the keys by which the candidates of a change are found behind the keys.
fn push_found(
    keys: &mut Vec<LockKey>,
    view: &View,
    form: &Form,
    change: &Change,
) -> Result<(), AllocError>
    ensures { OnOk result (keys.new.items
        ≡ keys.old.items ++ finding_keys (layouts_in view.now.declared) form.now change.now) }
{
    match form {
        Form::ByRow { table, queries, .. } => push_outer(
            keys,
            *table,
            view.key_column(*table),
            queries.as_slice(),
            change,
        ),
        Form::ByGroup { .. } | Form::Single { .. } => Ok(()),
    }
}

/// Puts the roots to which the subqueries link the rows of a change behind the keys, where they are found by another
/// column than their key.
fn push_outer(
    keys: &mut Vec<LockKey>,
    table: usize,
    key_column: usize,
    queries: &[Query<Link>],
    change: &Change,
) -> Result<(), AllocError>
    ensures { OnOk result (keys.new.items
        ≡ keys.old.items ++ flat_map (outer_keys table key_column change.now) queries.now) }
{
    for query in queries {
        push_query(keys, table, key_column, query, change)?;
    }
    Ok(())
}

/// The same, of one subquery.
fn push_query(
    keys: &mut Vec<LockKey>,
    table: usize,
    key_column: usize,
    query: &Query<Link>,
    change: &Change,
) -> Result<(), AllocError>
    ensures { OnOk result (keys.new.items
        ≡ keys.old.items ++ outer_keys table key_column change.now query.now) }
{
    if query.grouping.outer == key_column {
        return Ok(());
    }
    if query.table == change.table {
        push_value(keys, table, query.grouping, &change.old)?;
        push_value(keys, table, query.grouping, &change.new)?;
    }
    Ok(())
}

/// Puts the roots to which a row, if there is one, is linked behind the keys. NULL links to none.
fn push_value(
    keys: &mut Vec<LockKey>,
    table: usize,
    link: Link,
    row: &Option<Row>,
) -> Result<(), AllocError>
    ensures { OnOk result (keys.new.items
        ≡ keys.old.items ++ map (InColumn table link.outer) (linked_values link (option_to_list row.now))) }
{
    if let Some(row) = row {
        match row.values().get(link.inner) {
            Some(Value::Null) | None => {}
            Some(value) => keys.push(LockKey::Column {
                table,
                column: link.outer,
                value: value.copy()?,
            })?,
        }
    }
    Ok(())
}

/// Puts what a look at each of the roots reads behind the keys.
fn push_roots(
    keys: &mut Vec<LockKey>,
    view: &View,
    form: &Form,
    roots: &[Root],
) -> Result<(), AllocError>
    ensures { OnOk result (keys.new.items
        ≡ keys.old.items ++ flat_map (keys_for (layouts_in view.now.declared) view.now.state form.now) roots.now) }
{
    for root in roots {
        push_root(keys, view, form, root)?;
    }
    Ok(())
}

/// Puts what a look at a root reads behind the keys. A root of another form has no row and no group.
fn push_root(
    keys: &mut Vec<LockKey>,
    view: &View,
    form: &Form,
    root: &Root,
) -> Result<(), AllocError>
    ensures { OnOk result (keys.new.items
        ≡ keys.old.items ++ keys_for (layouts_in view.now.declared) view.now.state form.now root.now) }
{
    match (form, root) {
        (Form::ByRow { table, queries, .. }, Root::Of(key)) => {
            keys.push(LockKey::Row(Place {
                table: *table,
                key: key.copy()?,
            }))?;
            push_links(keys, view, *table, queries.as_slice(), key)
        }
        (Form::ByGroup { table, group, .. }, Root::Of(value)) => {
            keys.push(LockKey::Column {
                table: *table,
                column: *group,
                value: value.copy()?,
            })?;
            Ok(())
        }
        (Form::Single { queries, .. }, Root::All) => push_tables(keys, queries.as_slice()),
        _ => Ok(()),
    }
}

/// Puts the rows that the subqueries link to the root of a key behind the keys.
fn push_links(
    keys: &mut Vec<LockKey>,
    view: &View,
    table: usize,
    queries: &[Query<Link>],
    key: &Value,
) -> Result<(), AllocError>
    ensures { OnOk result (keys.new.items ≡ keys.old.items
        ++ flat_map (query_keys (layouts_in view.now.declared) (key_of table (layouts_in view.now.declared)) key.now
        (row_in (layouts_in view.now.declared) view.now.state (record { table = table; key = key.now }))) queries.now) }
{
    let key_column = view.key_column(table);
    let row = view.row(table, key);
    for query in queries {
        push_link(keys, view, key_column, key, row, query)?;
    }
    Ok(())
}

/// Puts the rows that a subquery links to a root behind the keys: by the root's key, or by the row that stands there.
fn push_link(
    keys: &mut Vec<LockKey>,
    view: &View,
    key_column: usize,
    key: &Value,
    row: Option<&Row>,
    query: &Query<Link>,
) -> Result<(), AllocError>
    ensures { OnOk result (keys.new.items ≡ keys.old.items
        ++ query_keys (layouts_in view.now.declared) key_column key.now (option_copied row.entry) query.now) }
{
    if query.grouping.outer == key_column {
        keys.push(LockKey::Column {
            table: query.table,
            column: query.grouping.inner,
            value: key.copy()?,
        })?;
        return Ok(());
    }
    match row {
        Some(row) => push_row_link(keys, view, row, query),
        None => Ok(()),
    }
}

/// Puts the rows that a subquery links to a row behind the keys. NULL links to none.
fn push_row_link(
    keys: &mut Vec<LockKey>,
    view: &View,
    row: &Row,
    query: &Query<Link>,
) -> Result<(), AllocError>
    ensures { OnOk result (keys.new.items
        ≡ keys.old.items ++ row_keys (layouts_in view.now.declared) query.now (Some row.now)) }
{
    match row.values().get(query.grouping.outer) {
        Some(Value::Null) | None => {}
        Some(value) => keys.push(inner_key(view, query, value)?)?,
    }
    Ok(())
}

/// The rows of a subquery's table that have a value in its linked column.
fn inner_key(view: &View, query: &Query<Link>, value: &Value) -> Result<LockKey, AllocError>
    ensures { IfOk result (λ key. key ≡ inner_key_of (layouts_in view.now.declared) query.now value.now) }
{
    let value = value.copy()?;
    if query.grouping.inner == view.key_column(query.table) {
        Ok(LockKey::Row(Place {
            table: query.table,
            key: value,
        }))
    } else {
        Ok(LockKey::Column {
            table: query.table,
            column: query.grouping.inner,
            value,
        })
    }
}

/// Puts the tables of the subqueries behind the keys.
fn push_tables<G>(keys: &mut Vec<LockKey>, queries: &[Query<G>]) -> Result<(), AllocError>
    ensures { OnOk result (keys.new.items
        ≡ keys.old.items ++ map WholeTable (map (λ q. q.table) queries.now)) }
{
    for query in queries {
        keys.push(LockKey::Table(query.table))?;
    }
    Ok(())
}

/// The keys that VERDICT reads of an assertion: each table that it names, as often as it does.
pub fn tables_read(alloc: Global, form: &Form) -> Result<Vec<LockKey>, AllocError>
    ensures { IfOk result (λ keys. keys.items ≡ map WholeTable (tables_in form.now)) }
{
    let mut keys = Vec::new(alloc);
    push_named(&mut keys, form)?;
    Ok(keys)
}

/// Puts the tables that an assertion names behind the keys.
fn push_named(keys: &mut Vec<LockKey>, form: &Form) -> Result<(), AllocError>
    ensures { OnOk result (keys.new.items
        ≡ keys.old.items ++ map WholeTable (tables_in form.now)) }
{
    match form {
        Form::ByRow { table, queries, .. } => {
            keys.push(LockKey::Table(*table))?;
            push_tables(keys, queries.as_slice())?;
            Ok(())
        }
        Form::ByGroup { table, .. } => {
            keys.push(LockKey::Table(*table))?;
            Ok(())
        }
        Form::Single { queries, .. } => {
            push_tables(keys, queries.as_slice())?;
            Ok(())
        }
    }
}
