//! The rows of a version that an index finds, one after the other.

ghost use Rattle.std.specs.Prelude.{◌≡◌, filter_map, List};
ghost use Rattle.std.specs.Iterator.{YieldsFirstRef, item_count};
ghost use Rattle.table.specs.Rows.{row_at};

use crate::rows::Rows;
use groups::Keys;
use std::marker::Model;
use table::Row;

/// The rows of a version with a value in a column that are still to come, in the order of their keys. It takes no
/// memory.
#[derive(Drop)]
pub struct IndexScan<'a> {
    rows: &'a Rows,
    key_column: usize,
    keys: Keys<'a>,
}

impl<'a> Model for IndexScan<'a> {
    ghost use Rattle.std.specs.Prelude.{List, filter_map};
    ghost use Rattle.table.specs.Rows.{RowValues, row_at};

    ghost Value = { List RowValues };

    ghost view = { λ left. filter_map (λ key. row_at left.key_column key left.rows.now) left.keys };
}

impl<'a> IndexScan<'a> {
    /// Those under these keys.
    pub(crate) fn new(rows: &'a Rows, key_column: usize, keys: Keys<'a>) -> IndexScan<'a>
        ensures { result ≡ filter_map (λ key. row_at key_column key rows.now) keys.entry }
    {
        IndexScan {
            rows,
            key_column,
            keys,
        }
    }
}

impl<'a> Iterator for IndexScan<'a> {
    type Item = &'a Row;

    ghost next_gives = { YieldsFirstRef (λ left. left) };

    ghost remaining = { item_count (λ left. left) };

    fn next(&mut self) -> Option<&'a Row> {
        next_under(self.rows, self.key_column, &mut self.keys)
    }
}

/// The next row that stands under one of these keys.
fn next_under<'a>(rows: &'a Rows, key_column: usize, keys: &mut Keys<'_>) -> Option<&'a Row>
    ensures { YieldsFirstRef (λ left. filter_map (λ key. row_at key_column key rows.now) left)
        keys.old result keys.new }
{
    while let Some(key) = keys.next() {
        if let Some(row) = rows.get(key_column, key) {
            return Some(row);
        }
    }
    None
}
