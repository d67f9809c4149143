//! What statements do to the rows of a view.

ghost use Rattle.std.specs.Prelude.{◌≡◌, ◌≢◌, ◌<◌, false, [], All, length, slice_index_or, IfOk, IfErr, Ok, Err};
ghost use Rattle.value.specs.declared.refusals.Refusal.TheVariants.{NoMemory};
ghost use Rattle.assertion.specs.Declarations.{layouts_in};
ghost use Rattle.table.specs.Rows.{names_of};
ghost use Rattle.alone.specs.States.{IsState};
ghost use Rattle.assertcheck.specs.Updates.{IsBoundedSetting};
ghost use Rattle.alone.specs.Statements.{sets_key};
ghost use Rattle.txn.specs.Effects.{ArePutIn, delete_of, filter_on, update_of};
ghost use Rattle.txn.specs.Runnable.{IsRunnableFilter};

use alone::Reply;
use assertcheck::Setting;
use changes::{TableFilter, removals, renewals};
use delta::View;
use std::alloc::{AllocError, Global};
use table::{Change, Cond};
use value::{Refusal, Text};

/// What a statement answers, and the changes of rows that it makes, in the order in which they are put in.
#[derive(Drop)]
pub struct Effect {
    pub reply: Reply,
    pub changes: Vec<Change>,
}

/// A WHERE on a table of a view.
pub fn filter_on<'a>(
    view: &View,
    table: usize,
    condition: &'a Cond,
) -> Result<TableFilter<'a>, AllocError>
    ensures { IfOk result (λ filter. filter ≡ filter_on view.now table condition.now) }
{
    TableFilter::new(table, view.key_column(table), condition)
}

/// UPDATE of the rows that its WHERE keeps. Its refusals are those of `changes::renewals`.
pub fn update_effect(
    alloc: Global,
    view: &View,
    sets: &[Setting],
    filter: &TableFilter<'_>,
) -> Result<Effect, Refusal>
    requires runnable { IsRunnableFilter view.now.declared filter.now }
    requires bounded { All IsBoundedSetting sets.now }
    requires keyless { sets_key filter.now.key sets.now ≡ false }
    ensures made { IfOk result (λ effect.
        update_of view.now sets.now filter.now
        ≡ Ok (record { reply = effect.reply; changes = effect.changes.items })) }
    ensures refused { IfErr result (λ refusal.
        refusal ≢ NoMemory → update_of view.now sets.now filter.now ≡ Err refusal) }
    ensures put_in { IfOk result (λ effect.
        ArePutIn (layouts_in view.now.declared) effect.changes.items view.now.state) }
{
    let table = filter.table();
    recall_table(view, table);
    let columns = view.schema(table).columns();
    let changes = renewals(alloc, columns, view.rows(table), sets, filter)?;
    Ok(Effect {
        reply: Reply::Updated(changes.len() as u64),
        changes,
    })
}

/// DELETE of the rows that its WHERE keeps.
pub fn delete_effect(
    alloc: Global,
    view: &View,
    filter: &TableFilter<'_>,
) -> Result<Effect, AllocError>
    requires runnable { IsRunnableFilter view.now.declared filter.now }
    ensures made { IfOk result (λ effect.
        delete_of view.now filter.now ≡ record { reply = effect.reply; changes = effect.changes.items }) }
    ensures put_in { IfOk result (λ effect.
        ArePutIn (layouts_in view.now.declared) effect.changes.items view.now.state) }
{
    let table = filter.table();
    recall_table(view, table);
    let changes = removals(alloc, view.rows(table), filter)?;
    Ok(Effect {
        reply: Reply::Deleted(changes.len() as u64),
        changes,
    })
}

/// There are rows for each table of the catalog, and the state is in key order: a clause of the view's catalog, brought
/// to where a table is looked up.
pub fn recall_table(view: &View, table: usize)
    requires { table < length view.now.declared.tables }
    ensures within { table < length view.now.state }
    ensures state { IsState (layouts_in view.now.declared) view.now.state }
{
    let _ = view.catalog();
}

/// The rows of a view are a state, those of each table in key order: the same clause.
pub fn recall_order(view: &View)
    ensures { IsState (layouts_in view.now.declared) view.now.state }
{
    let _ = view.catalog();
}

/// The name of the table at a place of the catalog.
pub fn table_name(view: &View, table: usize) -> &Text
    requires { table < length view.now.declared.tables }
    ensures { result.now ≡ slice_index_or (names_of view.now.declared.tables) table [] }
{
    match view.catalog().name(table) {
        Some(name) => name,
        None => unreachable!(),
    }
}
