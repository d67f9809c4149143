//! Rows that are taken out.

ghost use Rattle.std.specs.Prelude.{◌≡◌, [], All, List, length, IfOk, IsTrue};
ghost use Rattle.value.specs.Ordered.{IsAscending};
ghost use Rattle.value.specs.ValueOrder.{value_cmp};
ghost use Rattle.table.specs.Rows.{Layout, value_in, key_of};
ghost use Rattle.table.specs.Bounds.{IsSmallRow, is_bounded};
ghost use Rattle.assertion.specs.Meaning.{State, filtered_rows, rows_of};
ghost use Rattle.alone.specs.declared.answers.Reply.TheVariants.{Deleted};
ghost use Rattle.alone.specs.States.{AreDue, IsState};
ghost use Rattle.alone.specs.Statements.{delete_effect, removal};
ghost use Rattle.delta.specs.Views.{IsFitting};

use crate::filtered::filtered_rows;
use crate::filters::TableFilter;
use mvrows::Rows;
use std::alloc::{AllocError, Global};
use table::{Change, Row, value_at};

/// The changes of a DELETE: that each row which its WHERE keeps is taken out, in key order. `rows` are those that stand
/// in the WHERE's table now.
pub fn removals(
    alloc: Global,
    rows: &Rows,
    filter: &TableFilter<'_>,
) -> Result<Vec<Change>, AllocError>
    requires bounded { IsTrue (is_bounded [] filter.now.condition) }
    requires small { All IsSmallRow rows.now }
    requires ordered { IsAscending value_cmp (value_in filter.now.key) rows.now }
    ensures made { IfOk result (λ made. record { reply = Deleted (length made.items); changes = made.items }
        ≡ delete_effect filter.now.table filter.now.key (filtered_rows filter.now.condition rows.now)) }
    ensures due { IfOk result (λ made. (layouts : List Layout) (state : State) → IsState layouts state
        → key_of filter.now.table layouts ≡ filter.now.key → rows_of filter.now.table state ≡ rows.now
        → AreDue layouts made.items state) }
    ensures fit { IfOk result (λ made. (layouts : List Layout) → All (IsFitting layouts) made.items) }
{
    let mut made = Vec::new(alloc);
    for row in filtered_rows(alloc, rows, filter) {
        made.push(removal(filter, row)?)?;
    }
    Ok(made)
}

/// That a row of the WHERE's table is taken out.
fn removal(filter: &TableFilter<'_>, row: &Row) -> Result<Change, AllocError>
    ensures { IfOk result (λ change. change ≡ removal filter.now.table filter.now.key row.now) }
{
    Ok(Change {
        table: filter.table(),
        key: value_at(row, filter.key_column())?,
        old: Some(row.copy()?),
        new: None,
    })
}
