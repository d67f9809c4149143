//! Totals of a query whose filter asks what the row around holds: one for each row around, of the rows that are linked
//! to it and that the filter keeps beside it.

ghost use Rattle.std.specs.Prelude.{◌≡◌, ◌<◌, ◌^◌, ◌++◌, ◌∷◌, ◌&&◌, ◌||◌, [], ℕ, false, All, List, Some, filter, flat_map, if◌then◌else◌, length, map, IfOk, OnOk};
ghost use Rattle.std.specs.Ordering.{eq_by_cmp};
ghost use Rattle.value.specs.Ordered.{HoldsOf, IsAscending};
ghost use Rattle.value.specs.ValueOrder.{value_cmp};
ghost use Rattle.value.specs.declared.values.Value.{Value as values};
ghost use Rattle.value.specs.declared.values.Root.TheVariants.{Of};
ghost use Rattle.value.specs.declared.values.Value.TheVariants.{Null};
ghost use Rattle.table.specs.Bounds.{IsSmallRow};
ghost use Rattle.table.specs.Eval.{keeps as keeps_of};
ghost use Rattle.table.specs.Rows.{RowValues, put_row, row_at, value_in};
ghost use Rattle.table.specs.Slots.{kinds_of, values_of};
ghost use Rattle.assertion.specs.Bounded.{IsBoundedOver};
ghost use Rattle.assertion.specs.Meaning.{links, rows_of};
ghost use Rattle.assertion.specs.Changes.{IsOrdered};
ghost use Rattle.groups.specs.Answers.{value_for};
ghost use Rattle.groups.specs.Members.{member_of};
ghost use Rattle.groups.specs.Totals.{AreTotalsOf, AreWithin, IsTotalOf, IsWithin, Members};
ghost use Rattle.roots.specs.Around.{IsTurn, around_members, is_equal as is_equal_of, kept_values, place_beside, value_in_one, values_beside};
ghost use Rattle.roots.specs.Maintained.{AreTotalsFor, IsKeyed, IsSmallState, IsStepOf};
ghost use Rattle.roots.specs.Shown.{lent_query};
ghost use Rattle.roots.specs.Summaries.{around_of, rows_beside};
ghost use Rattle.roots.specs.Turned.{linked_around, turned_around, turned_root};

use crate::grouped::{Around, Summary, counted_by};
use assertion::Link;
use groups::{Member, Total, Totals};
use mvrows::Rows;
use std::alloc::{AllocError, Global};
use std::cmp::Ordering;
use table::{Change, Row, Schema, Slots, keeps, key_column, value_at, value_or};
use value::{Root, Value, compare, order};

/// The totals for the rows around in these tables. For each of them the rows that are linked to it are looked at.
pub fn totals_around(
    alloc: Global,
    schemas: &[Schema],
    tables: &[Rows],
    summary: Summary,
    around: Around,
) -> Result<Totals, AllocError>
    requires bounded { IsBoundedOver [] summary.filter.now }
    requires small { IsSmallState tables.now }
    requires in_order { IsOrdered schemas.now tables.now }
    requires around { around_of summary.grouping ≡ Some around }
    requires keyed { IsKeyed schemas.now (lent_query summary) }
    ensures { IfOk result (AreTotalsFor tables.now (lent_query summary.entry)) }
{
    match tables.get(around.table) {
        Some(outer) => totals_for_rows(alloc, schemas, tables, summary, around, outer),
        None => Ok(Totals::new(alloc)),
    }
}

/// The totals for these rows around.
fn totals_for_rows(
    alloc: Global,
    schemas: &[Schema],
    tables: &[Rows],
    summary: Summary,
    around: Around,
    outer: &Rows,
) -> Result<Totals, AllocError>
    requires bounded { IsBoundedOver [] summary.filter.now }
    requires small { IsSmallState tables.now }
    requires outer_small { All IsSmallRow outer.now }
    requires in_order { IsAscending value_cmp (value_in around.key) outer.now }
    ensures { IfOk result (AreTotalsOf summary.entry.aggregate (around_members around (lent_query summary.entry)
        outer.now (rows_of summary.entry.table tables.now))) }
{
    let mut made = Totals::new(alloc);
    for row in outer.iter() {
        made = with_row(alloc, schemas, tables, summary, around, made, row)?;
    }
    Ok(made)
}

/// The totals with that of a row around made anew.
fn with_row(
    alloc: Global,
    schemas: &[Schema],
    tables: &[Rows],
    summary: Summary,
    around: Around,
    totals: Totals,
    row: &Row,
) -> Result<Totals, AllocError>
    requires bounded { IsBoundedOver [] summary.filter.now }
    requires small { IsSmallState tables.now }
    requires row_small { IsSmallRow row.now }
    ensures { IfOk result (λ made. (before after : Members)
        → after (value_in around.key row.now)
        ≡ values_beside around (lent_query summary.entry) (rows_of summary.entry.table tables.now) row.now
        → ((v : values) → eq_by_cmp value_cmp v (value_in around.key row.now) ≡ false → after v ≡ before v)
        → AreTotalsOf summary.entry.aggregate before totals
        → AreTotalsOf summary.entry.aggregate after made) }
{
    let null = Value::Null;
    let total = total_beside(alloc, schemas, tables, summary, around.link, row)?;
    totals.put(value_or(row, around.key, &null), total)
}

/// The total of the rows that are linked to a row, and that the filter keeps beside it. It looks at the linked rows
/// alone.
pub fn total_beside(
    alloc: Global,
    schemas: &[Schema],
    tables: &[Rows],
    summary: Summary,
    link: Link,
    row: &Row,
) -> Result<Total, AllocError>
    requires bounded { IsBoundedOver [] summary.filter.now }
    requires small { IsSmallState tables.now }
    requires row_small { IsSmallRow row.now }
    ensures { IfOk result (IsTotalOf summary.entry.aggregate (map (value_for summary.entry.aggregate)
        (rows_beside link (lent_query summary.entry).filter (rows_of summary.entry.table tables.now) row.now))) }
{
    let slots = Slots::of_row(alloc, row)?;
    let linked = linked_rows(alloc, schemas, tables, summary.table, link, row)?;
    total_of_kept(alloc, summary, &linked, &slots)
}

/// The rows of a table that are linked to a row, in their order.
fn linked_rows<'a>(
    alloc: Global,
    schemas: &[Schema],
    tables: &'a [Rows],
    table: usize,
    link: Link,
    row: &Row,
) -> Result<Vec<&'a Row>, AllocError>
    ensures { IfOk result (λ found. map (λ row. row.now) found.items
        ≡ filter (λ linked. links link row.now linked) (rows_of table tables.now)) }
{
    let null = Value::Null;
    match tables.get(table) {
        Some(rows) => rows_equal_to(
            alloc,
            rows,
            key_column(schemas, table),
            link.inner,
            value_or(row, link.outer, &null),
        ),
        None => Ok(Vec::new(alloc)),
    }
}

/// The rows whose value in a column is equal to this one; none where it is NULL.
fn rows_equal_to<'a>(
    alloc: Global,
    rows: &'a Rows,
    key_column: usize,
    column: usize,
    value: &Value,
) -> Result<Vec<&'a Row>, AllocError>
    ensures { IfOk result (λ found. map (λ row. row.now) found.items
        ≡ filter (λ row. is_equal_of value.now (value_in column row)) rows.now) }
{
    match value {
        Value::Null => Ok(Vec::new(alloc)),
        Value::Int(_) | Value::Text(_) => rows.rows_with(alloc, key_column, column, value),
    }
}

/// The total of those of some rows that the filter keeps, with these slots.
fn total_of_kept(
    alloc: Global,
    summary: Summary,
    rows: &[&Row],
    slots: &Slots,
) -> Result<Total, AllocError>
    requires bounded { IsBoundedOver (kinds_of slots.now) summary.filter.now }
    requires small { All IsSmallRow (map (λ row. row.now) rows.now) }
    requires short { length (map (λ row. row.now) rows.now) < 2 ^ 63 }
    ensures { IfOk result (IsTotalOf summary.entry.aggregate
        (kept_values (lent_query summary.entry) (values_of slots.now) (map (λ row. row.now) rows.now))) }
{
    let mut total = Total::new(alloc);
    for row in rows {
        total = counted_if_kept(summary, total, row, slots)?;
    }
    Ok(total)
}

/// The total with one row more, if the filter keeps it.
fn counted_if_kept(
    summary: Summary,
    total: Total,
    row: &Row,
    slots: &Slots,
) -> Result<Total, AllocError>
    requires bounded { IsBoundedOver (kinds_of slots.now) summary.filter.now }
    requires small { IsSmallRow row.now }
    ensures { IfOk result (λ made. (rows : List RowValues)
        → IsTotalOf summary.entry.aggregate (kept_values (lent_query summary.entry) (values_of slots.now) rows) total
        → IsWithin (kept_values (lent_query summary.entry) (values_of slots.now) (rows ++ row.now ∷ []))
        → IsTotalOf summary.entry.aggregate
        (kept_values (lent_query summary.entry) (values_of slots.now) (rows ++ row.now ∷ [])) made) }
{
    if !keeps(summary.filter, row, slots) {
        return Ok(total);
    }
    let value = counted_by(row, summary.aggregate)?;
    total.with(summary.aggregate, &value)
}

/// The totals after a change: the changed row around has its total made anew, and that of each row around to which the
/// old or the new row is linked is carried on. The roots whose totals turn with it are put behind the `turned` ones.
pub fn around_after(
    alloc: Global,
    schemas: &[Schema],
    before: &[Rows],
    after: &[Rows],
    summary: Summary,
    around: Around,
    totals: &Totals,
    change: &Change,
    turned: &mut Vec<Root>,
) -> Result<Totals, AllocError>
    requires bounded { IsBoundedOver [] summary.filter.now }
    requires step { IsStepOf schemas.now change.now before.now after.now }
    requires around { around_of summary.grouping ≡ Some around }
    requires keyed { IsKeyed schemas.now (lent_query summary) }
    requires totals { AreTotalsFor before.now (lent_query summary) totals.now }
    ensures totals { IfOk result (AreTotalsFor after.now (lent_query summary.entry)) }
    ensures turned { OnOk result (turned.new.items
        ≡ turned.old.items ++ turned_around around after.now change.now (lent_query summary.entry)) }
{
    let same = totals.copy()?;
    let made = outer_after(alloc, schemas, before, after, summary, around, same, change)?;
    if summary.table != change.table {
        return Ok(made);
    }
    match after.get(around.table) {
        Some(outer) => linked_after(alloc, outer, summary, around, made, change, turned),
        None => Ok(made),
    }
}

/// The totals for the rows around as they are after a change, of the rows before it.
fn outer_after(
    alloc: Global,
    schemas: &[Schema],
    before: &[Rows],
    _after: &[Rows],
    summary: Summary,
    around: Around,
    totals: Totals,
    change: &Change,
) -> Result<Totals, AllocError>
    requires bounded { IsBoundedOver [] summary.filter.now }
    requires step { IsStepOf schemas.now change.now before.now _after.now }
    requires around { around_of summary.grouping ≡ Some around }
    requires keyed { IsKeyed schemas.now (lent_query summary) }
    requires totals { AreTotalsFor before.now (lent_query summary) totals }
    ensures { IfOk result (AreTotalsOf summary.entry.aggregate (around_members around (lent_query summary.entry)
        (rows_of around.table _after.now) (rows_of summary.entry.table before.now))) }
{
    if around.table != change.table {
        return Ok(totals);
    }
    match &change.new {
        Some(row) => with_row(alloc, schemas, before, summary, around, totals, row),
        None => totals.put(&change.key, Total::new(alloc)),
    }
}

/// The totals for these rows around, after a change of the rows that are linked to them. The roots whose totals
/// turn are put behind the `turned` ones.
fn linked_after(
    alloc: Global,
    outer: &Rows,
    summary: Summary,
    around: Around,
    totals: Totals,
    change: &Change,
    turned: &mut Vec<Root>,
) -> Result<Totals, AllocError>
    requires bounded { IsBoundedOver [] summary.filter.now }
    requires old_small { HoldsOf IsSmallRow change.now.old }
    requires new_small { HoldsOf IsSmallRow change.now.new }
    requires outer_small { All IsSmallRow outer.now }
    requires in_order { IsAscending value_cmp (value_in around.key) outer.now }
    ensures totals { IfOk result (λ made. (key : ℕ) (rows : List RowValues)
        → row_at key change.now.key rows ≡ change.now.old
        → AreWithin (around_members around (lent_query summary.entry) outer.now rows)
        → AreWithin (around_members around (lent_query summary.entry) outer.now
        (put_row key change.now.key change.now.new rows))
        → AreTotalsOf summary.entry.aggregate (around_members around (lent_query summary.entry) outer.now rows) totals
        → AreTotalsOf summary.entry.aggregate (around_members around (lent_query summary.entry) outer.now
        (put_row key change.now.key change.now.new rows)) made) }
    ensures turned { OnOk result (turned.new.items ≡ turned.old.items
        ++ flat_map (turned_root around (lent_query summary.entry).filter change.now)
        (linked_around around change.now outer.now)) }
{
    let null = Value::Null;
    let old = value_of(&change.old, around.link.inner, &null);
    let new = value_of(&change.new, around.link.inner, &null);
    let made = linked_to(alloc, outer, summary, around, totals, change, old, turned)?;
    match order(old, new) {
        Ordering::Equal => Ok(made),
        Ordering::Less | Ordering::Greater => linked_to(
            alloc, outer, summary, around, made, change, new, turned,
        ),
    }
}

/// What a row, if there is one, has in a column; NULL if there is none.
fn value_of<'a>(row: &'a Option<Row>, column: usize, null: &'a Value) -> &'a Value
    requires { null.now ≡ Null }
    ensures { result.now ≡ value_in_one column row.now }
{
    match row {
        Some(row) => value_or(row, column, null),
        None => null,
    }
}

/// The totals after a change, for those of these rows around that have a value in the column of the link.
/// The roots whose totals turn are put behind the `turned` ones.
fn linked_to(
    alloc: Global,
    outer: &Rows,
    summary: Summary,
    around: Around,
    totals: Totals,
    change: &Change,
    value: &Value,
    turned: &mut Vec<Root>,
) -> Result<Totals, AllocError>
    requires bounded { IsBoundedOver [] summary.filter.now }
    requires old_small { HoldsOf IsSmallRow change.now.old }
    requires new_small { HoldsOf IsSmallRow change.now.new }
    requires outer_small { All IsSmallRow outer.now }
    requires in_order { IsAscending value_cmp (value_in around.key) outer.now }
    ensures totals { IfOk result (λ made. (key : ℕ) (rows : List RowValues) (before after : Members)
        → row_at key change.now.key rows ≡ change.now.old
        → IsTurn around (lent_query summary.entry) outer.now value.now rows
        (put_row key change.now.key change.now.new rows) before after
        → AreTotalsOf summary.entry.aggregate before totals
        → AreTotalsOf summary.entry.aggregate after made) }
    ensures turned { OnOk result (turned.new.items ≡ turned.old.items
        ++ flat_map (turned_root around (lent_query summary.entry).filter change.now)
        (filter (λ row. is_equal_of value.now (value_in around.link.outer row)) outer.now)) }
{
    let rows = rows_equal_to(alloc, outer, around.key, around.link.outer, value)?;
    let mut made = totals;
    for row in &rows {
        made = beside_one(alloc, summary, around, made, change, row, turned)?;
    }
    Ok(made)
}

/// The totals with that of one row around carried on through a change of the rows beside it. Where the
/// old or the new row is beside it, its root is put behind the `turned` ones; else the totals stay.
fn beside_one(
    alloc: Global,
    summary: Summary,
    around: Around,
    totals: Totals,
    change: &Change,
    row: &Row,
    turned: &mut Vec<Root>,
) -> Result<Totals, AllocError>
    requires bounded { IsBoundedOver [] summary.filter.now }
    requires old_small { HoldsOf IsSmallRow change.now.old }
    requires new_small { HoldsOf IsSmallRow change.now.new }
    requires row_small { IsSmallRow row.now }
    ensures totals { IfOk result (λ made. (key : ℕ) (rows : List RowValues) (before after : Members)
        → row_at key change.now.key rows ≡ change.now.old
        → before (value_in around.key row.now) ≡ values_beside around (lent_query summary.entry) rows row.now
        → after (value_in around.key row.now)
        ≡ values_beside around (lent_query summary.entry) (put_row key change.now.key change.now.new rows) row.now
        → ((v : values) → eq_by_cmp value_cmp v (value_in around.key row.now) ≡ false → after v ≡ before v)
        → AreWithin after
        → AreTotalsOf summary.entry.aggregate before totals
        → AreTotalsOf summary.entry.aggregate after made) }
    ensures turned { OnOk result (turned.new.items
        ≡ turned.old.items ++ turned_root around (lent_query summary.entry).filter change.now row.now) }
{
    let slots = Slots::of_row(alloc, row)?;
    let remove = member_beside(summary, around, &change.old, row, &slots)?;
    let add = member_beside(summary, around, &change.new, row, &slots)?;
    push_turned(turned, remove.is_some(), add.is_some(), around.key, row)?;
    totals.with(summary.aggregate, &add, &remove)
}

/// Puts the root of a row around behind the roots, if the old or the new row of a change is beside it.
fn push_turned(
    roots: &mut Vec<Root>,
    is_old_beside: bool,
    is_new_beside: bool,
    key: usize,
    row: &Row,
) -> Result<(), AllocError>
    ensures { OnOk result (roots.new.items ≡ roots.old.items
        ++ (if is_old_beside || is_new_beside then Of (value_in key row.now) ∷ [] else [])) }
{
    if is_old_beside || is_new_beside {
        roots.push(Root::Of(value_at(row, key)?))?;
    }
    Ok(())
}

/// What a row, if there is one, is to the group of one row around, if it is of that group.
fn member_beside(
    summary: Summary,
    around: Around,
    linked: &Option<Row>,
    row: &Row,
    slots: &Slots,
) -> Result<Option<Member>, AllocError>
    requires bounded { IsBoundedOver (kinds_of slots.now) summary.filter.now }
    requires slots { values_of slots.now ≡ row.now }
    requires small { HoldsOf IsSmallRow linked.now }
    ensures { IfOk result (λ member. member
        ≡ member_of (place_beside around (lent_query summary.entry).filter row.now) (value_for summary.entry.aggregate)
        linked.now) }
{
    match linked {
        None => Ok(None),
        Some(linked) => {
            if !is_beside(summary, around.link, linked, row, slots) {
                return Ok(None);
            }
            Ok(Some(Member {
                group: value_at(row, around.key)?,
                value: counted_by(linked, summary.aggregate)?,
            }))
        }
    }
}

/// Whether a row is linked to one row around, and the filter keeps it beside that.
fn is_beside(summary: Summary, link: Link, linked: &Row, row: &Row, slots: &Slots) -> bool
    requires bounded { IsBoundedOver (kinds_of slots.now) summary.filter.now }
    requires slots { values_of slots.now ≡ row.now }
    requires small { IsSmallRow linked.now }
    ensures { result ≡ (links link row.now linked.now
        && keeps_of linked.now row.now (lent_query summary.entry).filter) }
{
    let null = Value::Null;
    let outer = value_or(row, link.outer, &null);
    let inner = value_or(linked, link.inner, &null);
    is_equal(outer, inner) && keeps(summary.filter, linked, slots)
}

/// Whether an equality of two values is true.
fn is_equal(left: &Value, right: &Value) -> bool
    ensures { result ≡ is_equal_of left.now right.now }
{
    match compare(left, right) {
        Some(Ordering::Equal) => true,
        Some(Ordering::Less | Ordering::Greater) | None => false,
    }
}
