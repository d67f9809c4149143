//! The rows that a WHERE has to be tested on.

ghost use Rattle.std.specs.Prelude.{◌≡◌, ◌⊎◌, All, List};
ghost use Rattle.std.specs.Iterator.{YieldsFirstRef, item_count};
ghost use Rattle.value.specs.Ordered.{IsAscending};
ghost use Rattle.value.specs.ValueOrder.{value_cmp};
ghost use Rattle.table.specs.declared.schemas.Column.{Column};
ghost use Rattle.table.specs.Rows.{FitsColumns, value_in};
ghost use Rattle.table.specs.Bounds.{IsSmallRow};
ghost use Rattle.assertion.specs.Meaning.{filtered_rows};
ghost use Rattle.mvrows.specs.Looked.{rows_with};

use crate::filters::TableFilter;
use mvrows::{IndexScan, RowIter, Rows};
use siread::LockKey;
use std::marker::Model;
use table::Row;
use value::Value;

/// The rows that a condition has still to be tested on, in key order: one, where it wants a key, those that an index
/// finds, where it wants a value in another column, or all. It takes no memory.
#[derive(Drop)]
pub struct RowsToTest<'a> {
    one: Option<&'a Row>,
    indexed: Option<IndexScan<'a>>,
    rows: Option<RowIter<'a>>,
}

impl<'a> Model for RowsToTest<'a> {
    ghost use Rattle.std.specs.Prelude.{List};
    ghost use Rattle.std.specs.Option.{option_copied};
    ghost use Rattle.table.specs.Rows.{RowValues};
    ghost use Rattle.changes.specs.Lookups.{looked_at};

    ghost Value = { List RowValues };

    ghost view = { λ left. looked_at (option_copied left.one) left.indexed left.rows };
}

/// Of the rows of a WHERE's table those that its condition has to be tested on: it is true of no other. It takes no
/// memory.
pub fn look_through<'a>(rows: &'a Rows, filter: &TableFilter<'_>) -> RowsToTest<'a>
    requires { IsAscending value_cmp (value_in filter.now.key) rows.now }
    ensures filtered { filtered_rows filter.now.condition result ≡ filtered_rows filter.now.condition rows.now }
    ensures small { All IsSmallRow rows.now → All IsSmallRow result }
    ensures fit { (columns : List Column) → All (FitsColumns columns) rows.now → All (FitsColumns columns) result }
{
    match filter.read() {
        LockKey::Row(place) => RowsToTest {
            one: rows.get(filter.key_column(), &place.key),
            indexed: None,
            rows: None,
        },
        LockKey::Column { column, value, .. } => {
            indexed_or_all(rows, filter.key_column(), *column, value)
        }
        LockKey::Table(_) => all_of(rows),
    }
}

/// The rows that have a value in a column, where an index finds them, or else all.
fn indexed_or_all<'a>(
    rows: &'a Rows,
    key_column: usize,
    column: usize,
    value: &Value,
) -> RowsToTest<'a>
    ensures { (result ≡ rows_with column value.now rows.now) ⊎ (result ≡ rows.now) }
{
    match rows.index_scan(key_column, column, value) {
        Some(indexed) => RowsToTest {
            one: None,
            indexed: Some(indexed),
            rows: None,
        },
        None => all_of(rows),
    }
}

/// All rows.
fn all_of(rows: &Rows) -> RowsToTest<'_>
    ensures { result ≡ rows.now }
{
    RowsToTest {
        one: None,
        indexed: None,
        rows: Some(rows.iter()),
    }
}

impl<'a> Iterator for RowsToTest<'a> {
    type Item = &'a Row;

    ghost next_gives = { YieldsFirstRef (λ left. left) };

    ghost remaining = { item_count (λ left. left) };

    fn next(&mut self) -> Option<&'a Row> {
        if let Some(row) = self.one.take() {
            return Some(row);
        }
        match (&mut self.indexed, &mut self.rows) {
            (Some(indexed), _) => indexed.next(),
            (None, Some(rows)) => rows.next(),
            (None, None) => None,
        }
    }
}
