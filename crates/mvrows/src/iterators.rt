//! The rows of a version, one after the other.

ghost use Rattle.std.specs.Prelude.{◌≡◌, ◌<◌, ◌^◌, length};
ghost use Rattle.std.specs.Iterator.{YieldsFirstRef, item_count};
ghost use Rattle.mvrows.specs.Keyed.{rows_of};

use pages::{DifferentialMap, Values};
use std::marker::Model;
use table::Row;

/// The rows of a version that are still to come, in the order of their keys. It takes no memory.
#[derive(Drop)]
pub struct RowIter<'a> {
    values: Values<'a, Row>,
}

impl<'a> Model for RowIter<'a> {
    ghost use Rattle.table.specs.Rows.{RowValues};
    ghost use Rattle.std.specs.Prelude.{List};

    ghost Value = { List RowValues };

    ghost view = { λ left. left.values };
}

impl<'a> RowIter<'a> {
    /// All rows of a version.
    pub(crate) fn new(pages: &'a DifferentialMap<Row>) -> RowIter<'a>
        ensures rest { result ≡ rows_of pages.now }
        ensures short { length (rows_of pages.now) < 2 ^ 63 }
    {
        RowIter {
            values: pages.values(),
        }
    }
}

impl<'a> Iterator for RowIter<'a> {
    type Item = &'a Row;

    ghost next_gives = { YieldsFirstRef (λ left. left) };

    ghost remaining = { item_count (λ left. left) };

    fn next(&mut self) -> Option<&'a Row> {
        self.values.next()
    }
}
