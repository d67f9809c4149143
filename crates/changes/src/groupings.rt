//! Groups of rows.

ghost use Rattle.std.specs.Prelude.{◌≡◌, ◌<◌, All, IfOk, Some, length, map};
ghost use Rattle.std.proofs.Common.{refl};
ghost use Rattle.std.specs.Cmp as Cmp;
ghost use Rattle.std.specs.Cmp.{eq_by_cmp_equiv, on_total, partial_order_from_total};
ghost use Rattle.std.specs.Cmp.Lexicographic.{lists_total};
ghost use Rattle.std.specs.Ordering.{is_eq};
ghost use Rattle.value.proofs.ValueOrders.{value_cmp_total};
ghost use Rattle.table.specs.Rows.{value_in};
ghost use Rattle.alone.specs.Groups.{groups_of, runs};
ghost use Rattle.changes.specs.Keyed.{IsKeyed, compare_keyed, row_of, run_length, values_of};

use std::alloc::{AllocError, Global};
use std::cmp::Ordering;
use table::{Row, value_at};
use value::Value;

/// A row beside its values in the columns of GROUP BY, by which it is compared.
#[derive(Drop)]
pub struct KeyedRow<'a> {
    values: Vec<Value>,
    row: &'a Row,
}

impl<'a> PartialEq for KeyedRow<'a> {
    ghost eq = { λ x y. is_eq (compare_keyed x y) };

    ghost laws = { Cmp.partial_equiv_from_equiv (eq_by_cmp_equiv (on_total values_of (lists_total value_cmp_total))) };

    fn eq(&self, other: &KeyedRow<'a>) -> bool {
        self.cmp(other).is_eq()
    }
}

impl<'a> Eq for KeyedRow<'a> {
    ghost laws = { eq_by_cmp_equiv (on_total values_of (lists_total value_cmp_total)) };
}

impl<'a> PartialOrd for KeyedRow<'a> {
    ghost partial_cmp = { λ x y. Some (compare_keyed x y) };

    ghost laws = { partial_order_from_total (on_total values_of (lists_total value_cmp_total)) };

    fn partial_cmp(&self, other: &KeyedRow<'a>) -> Option<Ordering> {
        Some(self.cmp(other))
    }
}

impl<'a> Ord for KeyedRow<'a> {
    ghost cmp = { compare_keyed };

    ghost total = { on_total values_of (lists_total value_cmp_total) };

    ghost matches_partial_cmp = { λ x y. refl };

    ghost matches_eq = { λ x y. refl };

    fn cmp(&self, other: &KeyedRow<'a>) -> Ordering {
        self.values.cmp(&other.values)
    }
}

/// The groups of some rows, which are alike in these columns; without any one group of them all.
pub fn groups_of<'a>(
    alloc: Global,
    columns: &[usize],
    rows: Vec<&'a Row>,
) -> Result<Vec<Vec<&'a Row>>, AllocError>
    ensures { IfOk result (λ groups. map (λ group. map (λ row. row.now) group.items) groups.items
        ≡ groups_of columns.now (map (λ row. row.now) rows.entry.items)) }
{
    if columns.is_empty() {
        let mut groups = Vec::with_capacity(alloc, 1)?;
        groups.push(rows)?;
        return Ok(groups);
    }
    let mut keyed = keyed_rows(alloc, columns, &rows)?;
    keyed.sort()?;
    runs(alloc, &keyed)
}

/// The rows beside their values in these columns.
fn keyed_rows<'a>(
    alloc: Global,
    columns: &[usize],
    rows: &[&'a Row],
) -> Result<Vec<KeyedRow<'a>>, AllocError>
    ensures rows { IfOk result (λ keyed. map row_of keyed.items ≡ map (λ row. row.now) rows.now) }
    ensures keyed { IfOk result (λ keyed. All (IsKeyed columns.now) keyed.items) }
{
    let mut keyed = Vec::with_capacity(alloc, rows.len())?;
    for row in rows {
        let values = values_in(alloc, columns, row)?;
        keyed.push(KeyedRow { values, row })?;
    }
    Ok(keyed)
}

/// The values of a row in these columns.
fn values_in(alloc: Global, columns: &[usize], row: &Row) -> Result<Vec<Value>, AllocError>
    ensures { IfOk result (λ values. values.items ≡ map (λ c. value_in c row.now) columns.now) }
{
    let mut values = Vec::with_capacity(alloc, columns.len())?;
    for column in columns {
        values.push(value_at(row, *column)?)?;
    }
    Ok(values)
}

/// The runs of rows that are alike.
fn runs<'a>(alloc: Global, keyed: &[KeyedRow<'a>]) -> Result<Vec<Vec<&'a Row>>, AllocError>
    ensures { IfOk result (λ groups. map (λ group. map (λ row. row.now) group.items) groups.items
        ≡ map (map row_of) (runs compare_keyed keyed.now)) }
{
    let mut groups = Vec::new(alloc);
    let mut from = 0;
    while from < keyed.len() {
        let (_, left) = keyed.split_at(from);
        let (run, _) = left.split_at(run_length(left));
        groups.push(rows_of(alloc, run)?)?;
        from += run.len();
    }
    Ok(groups)
}

/// How many rows the first run has.
fn run_length(keyed: &[KeyedRow]) -> usize
    requires { 0 < length keyed.now }
    ensures { result ≡ run_length compare_keyed keyed.now }
{
    let mut last = 0;
    while last + 1 < keyed.len() {
        if keyed[last] != keyed[last + 1] {
            return last + 1;
        }
        last += 1;
    }
    last + 1
}

/// The rows of a run.
fn rows_of<'a>(alloc: Global, run: &[KeyedRow<'a>]) -> Result<Vec<&'a Row>, AllocError>
    ensures { IfOk result (λ rows. map (λ row. row.now) rows.items ≡ map row_of run.now) }
{
    let mut rows = Vec::with_capacity(alloc, run.len())?;
    for keyed in run {
        rows.push(keyed.row)?;
    }
    Ok(rows)
}
