//! A change of a view that finds no memory leaves the view, and is made once more.

ghost use Rattle.std.specs.Prelude.{◌≡◌, ◌<◌, length, IfOk};
ghost use Rattle.table.specs.Rows.{row_at};
ghost use Rattle.assertion.specs.Declarations.{layouts_in};
ghost use Rattle.assertion.specs.Meaning.{rows_of};
ghost use Rattle.assertion.specs.Changes.{IsChangeOf};
ghost use Rattle.delta.specs.Views.{IsFitting};

use crate::again::{for_ever, is_same, page, show_view};
use crate::printed::defined;
use delta::View;
use histories::{COVER, SEVEN};
use std::alloc::{AllocError, Global};
use std::test::Fail;
use table::{Change, Row, Schema};
use value::Value;

/// A shift that no one covers is put in, which turns an assertion.
#[test]
fn changed(rt: HostRuntime) -> Result<(), Fail> {
    let view = loaded(rt.alloc(), "")?;
    let row = Row::new(vec![in rt.alloc(); Value::Int(8)]?)?;
    let after = put(rt.alloc(), &view, row)?;
    let want = loaded(rt.alloc(), "INSERT INTO SHIFTS VALUES (8);")?;
    let (found, want) = (shown(rt.alloc(), &after)?, shown(rt.alloc(), &want)?);
    assert_eq!(rt; found.as_str(), want.as_str());
    Ok(())
}

fn loaded(alloc: Global, rows: &str) -> Result<View, Fail> {
    let more = format!(in alloc; "{COVER}{SEVEN}{rows}")?;
    let definitions = defined(alloc, more.as_str())?;
    let view = definitions.load(alloc)?;
    Ok(view)
}

fn shown(alloc: Global, view: &View) -> Result<String, Fail> {
    let mut text = page(alloc)?;
    show_view(view, &mut text)?;
    Ok(text)
}

/// The view with the row in place of the one under its key, in the first table.
fn put(alloc: Global, view: &View, row: Row) -> Result<View, Fail> {
    let schema = view.catalog().at(0).ok_or("no table")?;
    schema.admits(&row)?;
    let key = row.value(schema.key()).copy()?;
    let old = old_row(view, schema, &key)?;
    let change = Change {
        table: 0,
        key,
        old,
        new: Some(row),
    };
    change_again(alloc, view, &change)
}

/// What stands under a key of the first table, which has this schema.
fn old_row(view: &View, schema: &Schema, key: &Value) -> Result<Option<Row>, AllocError>
    requires { 0 < length view.now.state }
    ensures { IfOk result (λ old. row_at schema.now.key key.now (rows_of 0 view.now.state) ≡ old) }
{
    match view.rows(0).get(schema.key(), key) {
        Some(row) => Ok(Some(row.copy()?)),
        None => Ok(None),
    }
}

/// Changes the view. Where no memory is found, it is as it was, and is changed once more.
fn change_again(alloc: Global, view: &View, change: &Change) -> Result<View, Fail>
    requires is { IsChangeOf (layouts_in view.now.declared) change.now view.now.state }
    requires fits { IsFitting (layouts_in view.now.declared) change.now }
{
    let before = shown(alloc, view)?;
    if let Ok(after) = view.with(change) {
        return Ok(after);
    }
    is_same(&before, &shown(alloc, view)?)?;
    view.with(change).map_err(|_| for_ever())
}
