//! Statements with their names found.

ghost use Rattle.std.specs.Prelude.{◌≡◌, ◌≢◌, IfOk};
ghost use Rattle.value.specs.declared.refusals.Refusal.TheVariants.{NoMemory};
ghost use Rattle.alone.specs.Resolve.{resolution_of};
ghost use Rattle.txn.specs.Runnable.{IsRunnable};

use alone::{ResolvedStatement, settable_names, updates_leave_the_key};
use assertcheck::{check_delete, check_insert, check_select, check_update};
use delta::View;
use std::alloc::{AllocError, Global};
use syntax::Statement;
use value::Refusal;

/// A statement with its names found among the tables and assertions of a view; one that has a fault of names,
/// shape, types or width, or that sets a mode that may not be set, is that refusal, and so is one that its read-only
/// transaction may not run, of which no name is looked up.
pub fn resolve(
    alloc: Global,
    view: &View,
    read_only: bool,
    statement: &Statement,
) -> Result<ResolvedStatement, AllocError>
    ensures resolved { IfOk result (λ made. made ≡ resolution_of view.now.declared read_only statement.now) }
    ensures runnable { IfOk result (λ made. IsRunnable view.now.declared made) }
{
    updates_leave_the_key();
    let catalog = view.catalog();
    match statement {
        Statement::Insert(_) | Statement::Update { .. } | Statement::Delete { .. } if read_only => {
            Ok(ResolvedStatement::Refused(Refusal::ReadOnlyTransaction))
        }
        Statement::Insert(insert) => match check_insert(alloc, catalog, insert) {
            Ok(new) => Ok(ResolvedStatement::Insert(new)),
            Err(refusal) => Ok(ResolvedStatement::Refused(unless_memory(refusal)?)),
        },
        Statement::Update { table, sets, keeps } => match check_update(
            alloc,
            catalog,
            table,
            sets.as_slice(),
            keeps,
        ) {
            Ok(update) => Ok(ResolvedStatement::Update(update)),
            Err(refusal) => Ok(ResolvedStatement::Refused(unless_memory(refusal)?)),
        },
        Statement::Delete { table, keeps } => match check_delete(alloc, catalog, table, keeps) {
            Ok(delete) => Ok(ResolvedStatement::Delete(delete)),
            Err(refusal) => Ok(ResolvedStatement::Refused(unless_memory(refusal)?)),
        },
        Statement::Select(select) => match check_select(alloc, catalog, select) {
            Ok(select) => Ok(ResolvedStatement::Select(select)),
            Err(refusal) => Ok(ResolvedStatement::Refused(unless_memory(refusal)?)),
        },
        Statement::SetConstraints { assertions, mode } => {
            match settable_names(alloc, view.assertions(), assertions) {
                Ok(names) => Ok(ResolvedStatement::SetModes { names, mode: *mode }),
                Err(refusal) => Ok(ResolvedStatement::Refused(unless_memory(refusal)?)),
            }
        }
        Statement::Verdict(name) => Ok(ResolvedStatement::Verdict(name.copy()?)),
    }
}

/// The refusal of a statement; memory running out is no refusal of it.
pub fn unless_memory(refusal: Refusal) -> Result<Refusal, AllocError>
    ensures same { IfOk result (λ named. named ≡ refusal) }
    ensures named { IfOk result (λ named. named ≢ NoMemory) }
{
    match refusal {
        Refusal::NoMemory => Err(AllocError),
        refusal => Ok(refusal),
    }
}
