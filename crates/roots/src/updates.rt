//! The maintained bad roots of a form, of tables and after a change.

ghost use Rattle.std.specs.Prelude.{◌≡◌, ◌<◌, ◌++◌, ◌∷◌, ◌==◌, [], true, All, if◌then◌else◌, length, take, slice_index_or, IfOk, IsTrue, OnOk};
ghost use Rattle.std.specs.Option.{option_copied};
ghost use Rattle.value.specs.Ordered as ordered;
ghost use Rattle.value.specs.ValueOrder.{root_cmp};
ghost use Rattle.value.specs.declared.values.Root.{Root as roots};
ghost use Rattle.value.specs.declared.values.Root.TheVariants.{Of};
ghost use Rattle.table.specs.Rows.{row_at, key_of};
ghost use Rattle.table.specs.Bounds.{IsSmallRow};
ghost use Rattle.assertion.specs.Bounded.{IsBounded};
ghost use Rattle.assertion.specs.Candidates.{group_candidates};
ghost use Rattle.assertion.specs.Meaning.{State, rows_of};
ghost use Rattle.assertion.specs.Roots.{AreBad, is_bad_root};
ghost use Rattle.assertion.specs.Changes.{IsChangeOf, IsOrdered, state_after};
ghost use Rattle.roots.specs.Bad.{AreUpdated, IsRowOf, KeepOthers, is_touched, named_roots as named_roots_of, put_root};
ghost use Rattle.roots.specs.Maintained.{AreMaintained, IsSmallRoot, IsSmallState, IsStepOf};
ghost use Rattle.roots.specs.Summaries.{summaries_of};
ghost use Rattle.roots.specs.Turned.{turned_roots};

use crate::bad_roots::is_bad;
use crate::candidate_roots::push_candidates;
use crate::lists::BadRoots;
use crate::maintained::{are_all_around, totals_after};
use assertion::Form;
use groups::Totals;
use mvrows::Rows;
use std::alloc::{AllocError, Global};
use std::cmp::Ordering;
use table::{Change, Row, Schema, key_column, value_at};
use value::{Root, Value, order_roots};

/// The bad roots of these tables, in order, by their maintained totals. Only roots that a row names are looked at,
/// since no other can be bad.
pub fn bad_of(
    alloc: Global,
    schemas: &[Schema],
    tables: &[Rows],
    form: &Form,
    totals: &[Totals],
) -> Result<BadRoots, AllocError>
    requires bounded { IsBounded form.now }
    requires small { IsSmallState tables.now }
    requires totals { AreMaintained schemas.now tables.now form.now totals.now }
    ensures { IfOk result (AreBad schemas.now form.now tables.now) }
{
    let named = named_roots(alloc, schemas, tables, form)?;
    let none = BadRoots::new(alloc);
    roots_after_update(alloc, schemas, tables, form, totals, &none, &named)
}

/// The roots that rows name, and the whole of a single condition.
fn named_roots(
    alloc: Global,
    schemas: &[Schema],
    tables: &[Rows],
    form: &Form,
) -> Result<Vec<Root>, AllocError>
    ensures { IfOk result (λ roots. roots.items ≡ named_roots_of schemas.now form.now tables.now) }
{
    match form {
        Form::ByRow { table, .. } => {
            roots_in_table(alloc, tables, *table, key_column(schemas, *table))
        }
        Form::ByGroup { table, group, .. } => roots_in_table(alloc, tables, *table, *group),
        Form::Single { .. } => {
            let mut roots = Vec::new(alloc);
            roots.push(Root::All)?;
            Ok(roots)
        }
    }
}

/// What a column of a table holds in each of its rows, as roots.
fn roots_in_table(
    alloc: Global,
    tables: &[Rows],
    table: usize,
    column: usize,
) -> Result<Vec<Root>, AllocError>
    ensures { IfOk result (λ roots. roots.items ≡ group_candidates column (rows_of table tables.now)) }
{
    match tables.get(table) {
        Some(rows) => roots_in_rows(alloc, rows, column),
        None => Ok(Vec::new(alloc)),
    }
}

/// What a column holds in each row, as roots.
fn roots_in_rows(alloc: Global, rows: &Rows, column: usize) -> Result<Vec<Root>, AllocError>
    ensures { IfOk result (λ roots. roots.items ≡ group_candidates column rows.now) }
{
    let mut roots = Vec::new(alloc);
    for row in rows.iter() {
        let value = value_at(row, column)?;
        roots.push(Root::Of(value))?;
    }
    Ok(roots)
}

/// What is maintained for a form after a change, where it was right before it: the totals of the tables after it, and
/// their bad roots in order. Only roots at which the change can turn the form are looked at, and each other root is bad
/// where it was. Of the rows to which a changed row is linked, where these are the groups of the totals, those are left
/// out whose totals stay, since the same row with the same totals has the same truth.
pub fn maintained_after(
    alloc: Global,
    schemas: &[Schema],
    before: &[Rows],
    after: &[Rows],
    form: &Form,
    totals: &[Totals],
    bad: &BadRoots,
    change: &Change,
) -> Result<(Vec<Totals>, BadRoots), AllocError>
    requires bounded { IsBounded form.now }
    requires step { IsStepOf schemas.now change.now before.now after.now }
    requires totals { AreMaintained schemas.now before.now form.now totals.now }
    requires bad { AreBad schemas.now form.now before.now bad.now }
    ensures totals { IfOk result (λ made. AreMaintained schemas.now after.now form.now made.0.items) }
    ensures bad { IfOk result (λ made. AreBad schemas.now form.now after.now made.1) }
{
    let mut turned = Vec::new(alloc);
    let made = totals_after(
        alloc,
        schemas,
        before,
        after,
        form,
        totals,
        change,
        &mut turned,
    )?;
    let touched = touched_roots(alloc, schemas, after, form, change, turned)?;
    let bad = roots_after_update(alloc, schemas, after, form, &made, bad, &touched)?;
    Ok((made, bad))
}

/// The roots at which a change can turn a form, where `turned` are those whose totals for rows around turn with it.
fn touched_roots(
    alloc: Global,
    schemas: &[Schema],
    tables: &[Rows],
    form: &Form,
    change: &Change,
    turned: Vec<Root>,
) -> Result<Vec<Root>, AllocError>
    requires old_small { ordered.HoldsOf IsSmallRow change.now.old }
    requires new_small { ordered.HoldsOf IsSmallRow change.now.new }
    requires turned { turned.items ≡ turned_roots tables.now change.now (summaries_of schemas.now form.now) }
    ensures small { IfOk result (λ touched. All (IsSmallRoot form.now) touched.items) }
    ensures others { IfOk result (λ touched. (before : State) → IsOrdered schemas.now before
        → IsChangeOf schemas.now change.now before → tables.now ≡ state_after schemas.now change.now before
        → KeepOthers schemas.now form.now before tables.now touched.items) }
{
    match form {
        Form::ByRow { table, .. } => {
            if are_all_around(schemas, form) {
                let mut touched = turned;
                push_own_key(&mut touched, *table, change)?;
                return Ok(touched);
            }
        }
        Form::ByGroup { .. } | Form::Single { .. } => {}
    }
    let mut touched = Vec::new(alloc);
    push_candidates(&mut touched, schemas, tables, form, change)?;
    Ok(touched)
}

/// Puts the root under the key of a changed row behind the roots, where the row is of their table.
fn push_own_key(roots: &mut Vec<Root>, table: usize, change: &Change) -> Result<(), AllocError>
    ensures { OnOk result (roots.new.items ≡ roots.old.items
        ++ (if table == change.now.table then Of change.now.key ∷ [] else [])) }
{
    if table == change.table {
        roots.push(Root::Of(change.key.copy()?))?;
    }
    Ok(())
}

/// The roots with each of the touched ones put in where it is bad and taken out where it isn't.
fn roots_after_update(
    alloc: Global,
    schemas: &[Schema],
    tables: &[Rows],
    form: &Form,
    totals: &[Totals],
    bad: &BadRoots,
    touched: &[Root],
) -> Result<BadRoots, AllocError>
    requires bounded { IsBounded form.now }
    requires small { IsSmallState tables.now }
    requires roots_small { All (IsSmallRoot form.now) touched.now }
    requires totals { AreMaintained schemas.now tables.now form.now totals.now }
    ensures { IfOk result (λ made. ordered.IsAscending root_cmp (λ k. k) bad.now
        → AreUpdated schemas.now form.now tables.now touched.now bad.now made) }
{
    let mut made = bad.copy()?;
    for index in 0..touched.len() {
        // An UPDATE that leaves its row in its group names the group twice.
        if is_repeated(touched, index) {
            continue;
        }
        made = roots_after_verdict(alloc, schemas, tables, form, totals, &touched[index], made)?;
    }
    Ok(made)
}

/// The roots with this one put in where it is bad and taken out where it isn't.
fn roots_after_verdict(
    alloc: Global,
    schemas: &[Schema],
    tables: &[Rows],
    form: &Form,
    totals: &[Totals],
    root: &Root,
    made: BadRoots,
) -> Result<BadRoots, AllocError>
    requires bounded { IsBounded form.now }
    requires small { IsSmallState tables.now }
    requires root_small { IsSmallRoot form.now root.now }
    requires totals { AreMaintained schemas.now tables.now form.now totals.now }
    ensures { IfOk result (λ next.
        next ≡ put_root root.now (is_bad_root schemas.now form.now tables.now root.now) made) }
{
    let row = row_of(schemas, tables, form, root);
    let is_in = is_bad(alloc, schemas, tables, form, row, totals, root)?;
    made.with(root, is_in)
}

/// Whether the root at a place is the one before it once more.
fn is_repeated(touched: &[Root], index: usize) -> bool
    requires { index < length touched.now }
    ensures { IsTrue result → (root : roots)
        → is_touched (slice_index_or touched.now index root) (take index touched.now) ≡ true }
{
    if index == 0 {
        return false;
    }
    let before = &touched[index - 1];
    let root = &touched[index];
    match order_roots(before, root) {
        Ordering::Equal => true,
        Ordering::Less | Ordering::Greater => false,
    }
}

/// The row of a root, where the form is by rows: the one under the root's key in the root table.
fn row_of<'a>(schemas: &[Schema], tables: &'a [Rows], form: &Form, root: &Root) -> Option<&'a Row>
    requires small { IsSmallState tables.now }
    ensures row { IsRowOf schemas.now form.now tables.now root.now (option_copied result) }
    ensures small { ordered.HoldsOf IsSmallRow (option_copied result) }
{
    match (form, root) {
        (Form::ByRow { table, .. }, Root::Of(key)) => row_under(schemas, tables, *table, key),
        (Form::ByRow { .. }, Root::All) | (Form::ByGroup { .. } | Form::Single { .. }, _) => None,
    }
}

/// The row under a key of a table, if there is one. It takes no memory.
pub fn row_under<'a>(
    schemas: &[Schema],
    tables: &'a [Rows],
    table: usize,
    key: &Value,
) -> Option<&'a Row>
    ensures { option_copied result ≡ row_at (key_of table schemas.now) key.now (rows_of table tables.now) }
{
    match tables.get(table) {
        Some(rows) => rows.get(key_column(schemas, table), key),
        None => None,
    }
}
