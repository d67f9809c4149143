//! What a statement does to the rows of a view, whatever its assertions say of it.

ghost use Rattle.txn.specs.Runnable.{IsRunnable};

use crate::histories::Happening;
use alone::ResolvedStatement;
use delta::View;
use std::alloc::{AllocError, Global};
use syntax::Statement;
use txn::{
    AppliedEffect, apply, apply_insert, delete_effect, filter_on, resolve, unless_memory,
    update_effect,
};
use value::Refusal;

/// Notes which rows of a view a statement changes, and the view with these changes. Nothing is noted where it changes
/// no row by its kind, or is refused for another reason than an assertion, as in a read-only transaction.
pub fn try_statement(
    alloc: Global,
    own: &View,
    read_only: bool,
    statement: &Statement,
    happening: &mut Happening,
) -> Result<(), AllocError> {
    let resolved = resolve(alloc, own, read_only, statement)?;
    try_resolved(alloc, own, &resolved, happening)
}

fn try_resolved(
    alloc: Global,
    own: &View,
    statement: &ResolvedStatement,
    happening: &mut Happening,
) -> Result<(), AllocError>
    requires runnable { IsRunnable own.now.declared statement.now }
{
    match statement {
        ResolvedStatement::Insert(new) => {
            note_unless_refused(apply_insert(alloc, own, new), happening)
        }
        ResolvedStatement::Update(update) => {
            let filter = filter_on(own, update.table, &update.filter)?;
            match update_effect(alloc, own, update.sets.as_slice(), &filter) {
                Ok(effect) => note(apply(own, effect), happening),
                Err(refusal) => note_unless_refused(Err(refusal), happening),
            }
        }
        ResolvedStatement::Delete(delete) => {
            let filter = filter_on(own, delete.table, &delete.filter)?;
            match delete_effect(alloc, own, &filter) {
                Ok(effect) => note(apply(own, effect), happening),
                Err(error) => Err(error),
            }
        }
        _ => Ok(()),
    }
}

/// Notes what an effect has changed, and the view that it leaves, unless it was refused.
fn note_unless_refused(
    made: Result<AppliedEffect, Refusal>,
    happening: &mut Happening,
) -> Result<(), AllocError> {
    match made {
        Ok(applied) => note(Ok(applied), happening),
        Err(refusal) => {
            unless_memory(refusal)?;
            Ok(())
        }
    }
}

/// Notes what an effect has changed, and the view that it leaves.
fn note(
    made: Result<AppliedEffect, AllocError>,
    happening: &mut Happening,
) -> Result<(), AllocError> {
    let AppliedEffect {
        reply: _,
        view,
        changes,
    } = made?;
    happening.changes = changes;
    happening.view = Some(view);
    Ok(())
}
