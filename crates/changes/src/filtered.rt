//! The rows that a WHERE keeps.

ghost use Rattle.std.specs.Prelude.{◌≡◌, [], All, IsTrue};
ghost use Rattle.std.specs.Iterator.{YieldsFirstRef, item_count};
ghost use Rattle.value.specs.Ordered.{IsAscending};
ghost use Rattle.value.specs.ValueOrder.{value_cmp};
ghost use Rattle.table.specs.Rows.{value_in};
ghost use Rattle.table.specs.Bounds.{IsSmallRow, is_bounded};
ghost use Rattle.assertion.specs.Meaning.{filtered_rows};

use crate::filters::TableFilter;
use crate::lookups::{RowsToTest, look_through};
use mvrows::Rows;
use std::alloc::Global;
use std::marker::Model;
use table::{Cond, Row, passes};

/// The rows that a condition keeps and that are still to come, in key order. It takes no memory.
#[derive(Drop)]
pub struct FilteredRows<'a> {
    alloc: Global,
    filter: &'a Cond,
    looked: RowsToTest<'a>,
}

impl<'a> Model for FilteredRows<'a> {
    ghost use Rattle.std.specs.Prelude.{[], All, IsTrue, List};
    ghost use Rattle.table.specs.Rows.{RowValues};
    ghost use Rattle.table.specs.Bounds.{IsSmallRow, is_bounded};
    ghost use Rattle.assertion.specs.Meaning.{filtered_rows};

    ghost Value = { List RowValues };

    ghost view = { λ left. filtered_rows left.filter.now left.looked };

    ghost invariant = { λ left. IsTrue (is_bounded [] left.filter.now) × All IsSmallRow left.looked };
}

/// Of the rows of a WHERE's table those that its condition keeps, in key order. Where it reads under one key, no other
/// row is looked at. It takes no memory.
pub fn filtered_rows<'a>(
    alloc: Global,
    rows: &'a Rows,
    filter: &TableFilter<'a>,
) -> FilteredRows<'a>
    requires bounded { IsTrue (is_bounded [] filter.now.condition) }
    requires small { All IsSmallRow rows.now }
    requires ordered { IsAscending value_cmp (value_in filter.now.key) rows.now }
    ensures { result ≡ filtered_rows filter.now.condition rows.now }
{
    FilteredRows {
        alloc,
        filter: filter.condition(),
        looked: look_through(rows, filter),
    }
}

impl<'a> Iterator for FilteredRows<'a> {
    type Item = &'a Row;

    ghost next_gives = { YieldsFirstRef (λ left. left) };

    ghost remaining = { item_count (λ left. left) };

    fn next(&mut self) -> Option<&'a Row> {
        next_filtered(self.alloc, self.filter, &mut self.looked)
    }
}

/// The next of these rows that the condition keeps.
fn next_filtered<'a>(alloc: Global, filter: &Cond, looked: &mut RowsToTest<'a>) -> Option<&'a Row>
    requires bounded { IsTrue (is_bounded [] filter.now) }
    requires small { All IsSmallRow looked.old }
    ensures next { YieldsFirstRef (λ left. filtered_rows filter.now left) looked.old result looked.new }
    ensures small { All IsSmallRow looked.new }
{
    while let Some(row) = looked.next() {
        if passes(alloc, filter, row) {
            return Some(row);
        }
    }
    None
}
