//! Effects put into a view, before its assertions are asked.

ghost use Rattle.std.specs.Prelude.{◌≡◌, ◌≢◌, ◌<◌, List, length, IfOk, IfErr, Ok, Err};
ghost use Rattle.value.specs.declared.refusals.Refusal.TheVariants.{NoMemory};
ghost use Rattle.table.specs.Rows.{Layout};
ghost use Rattle.assertion.specs.Changes.{IsChangeOf, state_after_all};
ghost use Rattle.assertion.specs.Declarations.{layouts_in};
ghost use Rattle.assertion.specs.Meaning.{State};
ghost use Rattle.alone.specs.States.{IsState, net_change};
ghost use Rattle.alone.specs.Statements.{insert_effect, insertion, insertions};
ghost use Rattle.changes.specs.Nets.{AreChangesBetween};
ghost use Rattle.delta.specs.Views.{IsFitting};
ghost use Rattle.txn.specs.Effects.{ArePutIn};
ghost use Rattle.txn.specs.Steps.{HasApplied, HasInserted, shown_effect};

use crate::effects::{Effect, recall_order, recall_table, table_name};
use alone::Reply;
use assertcheck::NewRows;
use changes::{TouchedRows, insertion, real_changes};
use delta::View;
use std::alloc::{AllocError, Global};
use table::{Change, Row};
use value::Refusal;

/// What a statement answers, and the view that it leaves unless an assertion is violated there.
#[derive(Drop)]
pub struct AppliedEffect {
    pub reply: Reply,
    pub view: View,
    /// The rows in which it differs from the view before, by table and key.
    pub changes: Vec<Change>,
}

/// Puts an effect into a view, which stays as it is.
pub fn apply(own: &View, effect: Effect) -> Result<AppliedEffect, AllocError>
    requires changes { ArePutIn (layouts_in own.now.declared) effect.changes.items own.now.state }
    ensures applied { IfOk result (HasApplied own.now (shown_effect effect)) }
{
    let Effect { reply, changes } = effect;
    recall_order(own);
    let view = own.after(changes.as_slice())?;
    Ok(AppliedEffect {
        reply,
        view,
        changes: real_changes(changes),
    })
}

/// INSERT: each row comes to stand at its key, among those before it. The view stays as it is.
///
/// # Errors
///
/// The first row's that has any: those of `changes::insertion`.
pub fn apply_insert(alloc: Global, own: &View, new: &NewRows) -> Result<AppliedEffect, Refusal>
    requires table_in { new.now.table < length own.now.declared.tables }
    ensures made { IfOk result (HasInserted own.now new.now) }
    ensures refused { IfErr result (λ refusal.
        refusal ≢ NoMemory → insert_effect own.now.declared.tables new.now own.now.state ≡ Err refusal) }
{
    let rows = new.rows.as_slice();
    let (view, changes) = put_rows(alloc, own, new.table, rows)?;
    recall_order(own);
    recall_order(&view);
    Ok(AppliedEffect {
        reply: Reply::Inserted(rows.len() as u64),
        view,
        changes: net_of(alloc, changes)?,
    })
}

/// The view with new rows of a table, and the change that each of them is.
#[tactic(auto, using(value::proofs::Results::behind_none))]
fn put_rows(
    alloc: Global,
    own: &View,
    table: usize,
    rows: &[Row],
) -> Result<(View, Vec<Change>), Refusal>
    requires table_in { table < length own.now.declared.tables }
    ensures made { IfOk result (λ put.
        insertions own.now.declared.tables table own.now.state rows.now ≡ Ok put.1.items) }
    ensures view { IfOk result (λ put. put.0
        ≡ record own.now { state = state_after_all (layouts_in own.now.declared) put.1.items own.now.state }) }
    ensures refused { IfErr result (λ refusal.
        refusal ≢ NoMemory → insertions own.now.declared.tables table own.now.state rows.now ≡ Err refusal) }
{
    let mut view = own.copy()?;
    let mut changes = Vec::with_capacity(alloc, rows.len())?;
    for row in rows {
        let change = insertion_into(&view, table, row)?;
        view = view.with(&change)?;
        view.settle();
        changes.push(change)?;
    }
    Ok((view, changes))
}

/// The change that puts a row into a table of a view.
fn insertion_into(view: &View, table: usize, row: &Row) -> Result<Change, Refusal>
    requires table_in { table < length view.now.declared.tables }
    ensures made { IfOk result (λ change.
        insertion view.now.declared.tables table view.now.state row.now ≡ Ok change) }
    ensures refused { IfErr result (λ refusal.
        refusal ≢ NoMemory → insertion view.now.declared.tables table view.now.state row.now ≡ Err refusal) }
    ensures is { IfOk result (λ change. IsChangeOf (layouts_in view.now.declared) change view.now.state) }
    ensures fits { IfOk result (IsFitting (layouts_in view.now.declared)) }
{
    recall_table(view, table);
    insertion(
        table_name(view, table),
        table,
        view.schema(table),
        view.rows(table),
        row.copy()?,
    )
}

/// The net change between two states of what leads from one to the other. One change alone is in order, and takes no
/// memory.
fn net_of(alloc: Global, changes: Vec<Change>) -> Result<Vec<Change>, AllocError>
    ensures { IfOk result (λ net. (layouts : List Layout) (before after : State)
        → IsState layouts before → IsState layouts after → AreChangesBetween layouts before after changes.items
        → net.items ≡ net_change layouts before after) }
{
    if changes.len() <= 1 {
        return Ok(real_changes(changes));
    }
    let mut touched = TouchedRows::new(alloc);
    touched.note(changes)?;
    touched.net_change(alloc)
}
