//! Tables with the commits of a journal put in.

ghost use Rattle.std.specs.Prelude.{◌≡◌, ◌≢◌, Some, None, IfOk, IfErr};
ghost use Rattle.std.specs.Option.{option_copied};
ghost use Rattle.assertion.specs.Declarations.{layouts_in};
ghost use Rattle.durable.specs.Restoring.{is_due, is_row_for, restored, restored_changes};
ghost use Rattle.durable.specs.declared.faults.RestoreFault.TheVariants.{NoMemory};

use crate::faults::RestoreFault;
use changes::is_same_there;
use delta::View;
use journal::Entry;
use siread::is_same;
use std::alloc::AllocError;
use table::{Change, Row, Schema};
use value::{Refusal, Value};

/// Whether a new row, if there is one, is one that an INSERT would take, and has this key.
fn is_row_for(schema: &Schema, key: &Value, new: Option<&Row>) -> Result<bool, AllocError>
    ensures { IfOk result (λ is_one. is_one ≡ is_row_for schema.now key.now (option_copied new.entry)) }
{
    let Some(row) = new else {
        return Ok(true);
    };
    match schema.admits(row) {
        Ok(()) => Ok(is_same(row.value(schema.key()), key)),
        Err(Refusal::NoMemory) => Err(AllocError),
        Err(_) => Ok(false),
    }
}

/// Whether a change may be put into tables.
fn is_due(view: &View, change: &Change) -> Result<bool, AllocError>
    ensures { IfOk result (λ due. due ≡ is_due (layouts_in view.now.declared) change.now view.now.state) }
{
    if change.table >= view.catalog().len() {
        return Ok(false);
    }
    let there = view.row(change.table, &change.key);
    if !is_same_there(there, change.old.as_ref()) {
        return Ok(false);
    }
    is_row_for(view.schema(change.table), &change.key, change.new.as_ref())
}

/// Tables with the changes of an entry put in, one after the other.
fn put_in(mut view: View, entry: &Entry) -> Result<View, RestoreFault>
    ensures put { IfOk result (λ after.
        restored_changes (layouts_in view.declared) entry.now.changes view.state ≡ Some after.state) }
    ensures declared { IfOk result (λ after. after.declared ≡ view.declared) }
    ensures refused { IfErr result (λ fault. fault ≢ NoMemory
        → restored_changes (layouts_in view.declared) entry.now.changes view.state ≡ None) }
{
    for change in entry.changes.as_slice() {
        if !is_due(&view, change)? {
            return Err(RestoreFault::NotDue {
                number: entry.number,
            });
        }
        view = view.with(change)?;
    }
    view.settle();
    Ok(view)
}

/// Tables with the commits of a journal put in, one after the other.
///
/// # Errors
///
/// [`RestoreFault::NotDue`] where a change may not be put into the tables that those before it leave: its table is not
/// there, another row stands under its key, or its new row fits it not or has another key. Or
/// [`RestoreFault::NoMemory`].
pub fn restore(mut view: View, entries: &[Entry]) -> Result<View, RestoreFault>
    ensures put { IfOk result (λ after. restored (layouts_in view.declared) entries.now view.state ≡ Some after.state) }
    ensures declared { IfOk result (λ after. after.declared ≡ view.declared) }
    ensures refused { IfErr result (λ fault. fault ≢ NoMemory
        → restored (layouts_in view.declared) entries.now view.state ≡ None) }
{
    for entry in entries {
        view = put_in(view, entry)?;
    }
    Ok(view)
}
