//! Commits of a journal that are put into tables, and those that may not be.

use crate::shared::tables_of;
use delta::View;
use durable::{RestoreFault, restore};
use journal::Entry;
use sqlite_items::Items;
use std::alloc::{AllocError, Global};
use std::test::Fail;
use table::{Change, Row};
use value::{Refusal, Value};

/// The tables of an image.
const IMAGE: &str = "CREATE TABLE DUTY (ID INTEGER PRIMARY KEY, ONCALL INTEGER);
    INSERT INTO DUTY VALUES (1, 0); INSERT INTO DUTY VALUES (2, 0);";

/// The row of these numbers; of none there is no row.
fn row_of(alloc: Global, numbers: &[i64]) -> Result<Option<Row>, AllocError> {
    if numbers.is_empty() {
        return Ok(None);
    }
    let mut values = Vec::new(alloc);
    for number in numbers {
        values.push(Value::Int(*number))?;
    }
    Ok(Some(Row::new(values)?))
}

/// The change of one row to another.
fn change(
    alloc: Global,
    table: usize,
    key: i64,
    old: &[i64],
    new: &[i64],
) -> Result<Change, AllocError> {
    let old = row_of(alloc, old)?;
    let new = row_of(alloc, new)?;
    Ok(Change {
        table,
        key: Value::Int(key),
        old,
        new,
    })
}

/// The commit of a number that has this change alone.
fn entry(alloc: Global, number: u64, change: Change) -> Result<Entry, AllocError> {
    Ok(Entry {
        number,
        durable: 0,
        changes: Items::from_vec(vec![in alloc; change]?),
    })
}

/// The second number of the row under a key.
fn on_call(view: &View, id: i64) -> Option<i64> {
    match view.row(0, &Value::Int(id)) {
        Some(row) => match row.values().get(1) {
            Some(Value::Int(number)) => Some(*number),
            Some(Value::Null | Value::Text(_)) | None => None,
        },
        None => None,
    }
}

#[test]
fn commits_are_put_into_an_image(rt: HostRuntime) -> Result<(), Fail> {
    let alloc = rt.alloc();
    let image = tables_of(alloc, IMAGE)?;
    let entries = vec![in alloc;
        entry(alloc, 1, change(alloc, 0, 3, &[], &[3, 0])?)?,
        entry(alloc, 2, change(alloc, 0, 1, &[1, 0], &[1, 1])?)?,
        entry(alloc, 3, change(alloc, 0, 3, &[3, 0], &[3, 7])?)?,
        entry(alloc, 4, change(alloc, 0, 2, &[2, 0], &[])?)?,
    ]?;
    let view = restore(image, &entries)?;
    assert_eq!(rt; on_call(&view, 1), Some(1));
    assert_eq!(rt; on_call(&view, 2), None);
    assert_eq!(rt; on_call(&view, 3), Some(7));
    Ok(())
}

/// The fault of restoring a commit that puts in a row under the key 3, and then one that has this change.
fn fault_of(alloc: Global, second: Change) -> Result<Option<RestoreFault>, Refusal> {
    let image = tables_of(alloc, IMAGE)?;
    let first = change(alloc, 0, 3, &[], &[3, 0])?;
    let entries = vec![in alloc; entry(alloc, 1, first)?, entry(alloc, 2, second)?]?;
    Ok(restore(image, &entries).err())
}

#[test]
fn a_change_that_is_not_due_is_refused(rt: HostRuntime) -> Result<(), Fail> {
    let alloc = rt.alloc();
    let refused = Some(RestoreFault::NotDue { number: 2 });
    // (a table that is not there; a row that stands there already; another old row; none)
    let elsewhere = change(alloc, 1, 4, &[], &[4, 0])?;
    let again = change(alloc, 0, 3, &[], &[3, 0])?;
    let another = change(alloc, 0, 1, &[1, 7], &[1, 1])?;
    let none = change(alloc, 0, 4, &[4, 0], &[4, 1])?;
    assert_eq!(rt; fault_of(alloc, elsewhere)?, refused);
    assert_eq!(rt; fault_of(alloc, again)?, refused);
    assert_eq!(rt; fault_of(alloc, another)?, refused);
    assert_eq!(rt; fault_of(alloc, none)?, refused);
    Ok(())
}

#[test]
fn a_row_that_does_not_fit_is_refused(rt: HostRuntime) -> Result<(), Fail> {
    let alloc = rt.alloc();
    let refused = Some(RestoreFault::NotDue { number: 2 });
    // (too long; too short; out of range; under another key; and one that fits)
    let long = change(alloc, 0, 4, &[], &[4, 0, 0])?;
    let short = change(alloc, 0, 4, &[], &[4])?;
    let large = change(alloc, 0, 4, &[], &[4, 1_000_000_000_000_001])?;
    let astray = change(alloc, 0, 4, &[], &[5, 0])?;
    let fit = change(alloc, 0, 4, &[], &[4, 1_000_000_000_000_000])?;
    assert_eq!(rt; fault_of(alloc, long)?, refused);
    assert_eq!(rt; fault_of(alloc, short)?, refused);
    assert_eq!(rt; fault_of(alloc, large)?, refused);
    assert_eq!(rt; fault_of(alloc, astray)?, refused);
    assert_eq!(rt; fault_of(alloc, fit)?, None);
    Ok(())
}
