//! Changes that are of rows to another than what they held.

ghost use Rattle.std.specs.Prelude.{◌≡◌, filter};
ghost use Rattle.std.specs.Option.{option_copied};
ghost use Rattle.alone.specs.States.{is_real as is_real_of, same_row, same_there};

use siread::is_same;
use table::{Change, Row};
use value::Value;

/// The changes of a row to another than what it held, in their order. They are those handed in, and it takes no
/// memory.
pub fn real_changes(mut changes: Vec<Change>) -> Vec<Change>
    ensures real { result.items ≡ filter is_real_of changes.items }
{
    changes.retain(|change| is_real(change));
    changes
}

fn is_real(change: &Change) -> bool
    ensures { result ≡ is_real_of change.now }
{
    !is_same_there(change.old.as_ref(), change.new.as_ref())
}

/// Whether the same stands there, which may be no row. It takes no memory.
pub fn is_same_there(one: Option<&Row>, other: Option<&Row>) -> bool
    ensures { result ≡ same_there (option_copied one.entry) (option_copied other.entry) }
{
    match (one, other) {
        (None, None) => true,
        (Some(one), Some(other)) => are_same(one.values(), other.values()),
        _ => false,
    }
}

fn are_same(values: &[Value], others: &[Value]) -> bool
    ensures { result ≡ same_row values.now others.now }
{
    if values.len() != others.len() {
        return false;
    }
    for i in 0..values.len() {
        if !is_same(&values[i], &others[i]) {
            return false;
        }
    }
    true
}
