//! What holds of groups alone.

ghost use Rattle.std.specs.Prelude.{◌≡◌, ℕ, ◌<◌, ◌^◌, All, List, length, Option, Some};
ghost use Rattle.value.specs.declared.values.Value.{Value};
ghost use Rattle.table.specs.declared.aggregates.Aggregate.{Aggregate};
ghost use Rattle.table.specs.Aggregates.{rows_of_group};
ghost use Rattle.table.specs.Rows.{RowValues, row_at, put_row, value_in};
ghost use Rattle.table.specs.Bounds.{IsSmallRow};
ghost use Rattle.groups.specs.Answers.{value_for};
ghost use Rattle.groups.specs.Indexes.{IsIndexOf, ValueKeys};
ghost use Rattle.groups.specs.Members.{member_of, members_of, rows_in};
ghost use Rattle.groups.specs.Totals.{AreWithin, IsChange};

/// However a table's rows go to groups (`place`), a change of the row under a key changes the groups by the row that
/// stood there and the one that stands there now. And the groups are within bounds where the table is.
pub fn members_follow_rows()
    ensures change { (place : RowValues → Option Value) (value : RowValues → Value)
        (column : ℕ) (key : Value) (new : Option RowValues) (rows : List RowValues)
        → IsChange (member_of place value new) (member_of place value (row_at column key rows))
        (members_of place value rows) (members_of place value (put_row column key new rows)) }
    ensures within { (place : RowValues → Option Value) (aggregate : Aggregate) (rows : List RowValues)
        → length rows < 2 ^ 63 → All IsSmallRow rows → AreWithin (members_of place (value_for aggregate) rows) }
{}

/// Where each row goes to the group of its value in a column, the groups are those of GROUP BY.
pub fn column_makes_groups()
    ensures { (column : ℕ) (rows : List RowValues) (group : Value)
        → rows_in (λ row. Some (value_in column row)) rows group ≡ rows_of_group column group rows }
{}

/// The rows of a table have one index by a column.
pub fn rows_have_one_index()
    ensures { (key column : ℕ) (rows : List RowValues) (index other : ValueKeys)
        → IsIndexOf key column rows index → IsIndexOf key column rows other → index ≡ other }
{}
