//! Rows that are put in.

ghost use Rattle.std.specs.Prelude.{◌≡◌, ◌≢◌, IfOk, IfErr, Ok, Err};
ghost use Rattle.value.specs.Ordered.{HasKey, HoldsOf};
ghost use Rattle.value.specs.ValueOrder.{value_cmp};
ghost use Rattle.value.specs.declared.refusals.Refusal.TheVariants.{NoMemory};
ghost use Rattle.table.specs.Rows.{FitsColumns, row_at, value_in};
ghost use Rattle.changes.specs.Insertions.{insertion_of};

use mvrows::Rows;
use table::{Change, Row, Schema};
use value::{Refusal, Text};

/// The change that puts a row into a table: `name` is its name, `table` its place in the catalog, and `rows` are those
/// that stand in it now.
///
/// # Errors
///
/// The row's first fault: [`Refusal::TypeMismatch`]; then by columns [`Refusal::NullNotAllowed`] and
/// [`Refusal::OutOfRange`]; and last [`Refusal::DuplicateKey`], where a row stands under its key. Or
/// [`Refusal::NoMemory`]. The row is gone then, and nothing else has changed.
pub fn insertion(
    name: &Text,
    table: usize,
    schema: &Schema,
    rows: &Rows,
    row: Row,
) -> Result<Change, Refusal>
    ensures made { IfOk result (λ change. insertion_of name.now table schema.now rows.now row ≡ Ok change) }
    ensures refused { IfErr result (λ refusal. refusal ≢ NoMemory
        → insertion_of name.now table schema.now rows.now row ≡ Err refusal) }
    ensures place { IfOk result (λ change. change.table ≡ table) }
    ensures stands { IfOk result (λ change. row_at schema.now.key change.key rows.now ≡ change.old) }
    ensures keyed { IfOk result (λ change. HasKey value_cmp (value_in schema.now.key) change.key change.new) }
    ensures fits { IfOk result (λ change. HoldsOf (FitsColumns schema.now.columns) change.new) }
{
    schema.admits(&row)?;
    let key = row.value(schema.key()).copy()?;
    if rows.get(schema.key(), &key).is_some() {
        return Err(Refusal::DuplicateKey {
            table: name.copy()?,
            key,
        });
    }
    Ok(Change {
        table,
        key,
        old: None,
        new: Some(row),
    })
}
