//! The types of expressions, and which conditions are typed.

ghost use Rattle.std.specs.Prelude.{◌≡◌, slice_get};
ghost use Rattle.assertcheck.specs.Types.{expression_type as expression_type_of, is_typed_condition as is_typed_of};

use crate::data_types::{DataType, are_comparable, column_type, is_number, literal_type};
use table::{Column, Cond, Expr};

/// The type of an expression over a row of these columns and slots of these types. None on a mismatch, which is
/// arithmetic or a negation on a text; and NULL has no type, nor has a column or a slot that is not there. It takes no
/// memory.
pub fn expression_type(expr: &Expr, columns: &[Column], slots: &[DataType]) -> Option<DataType>
    ensures { result ≡ expression_type_of columns.now slots.now expr.now }
{
    match expr {
        Expr::Literal(value) => literal_type(value),
        Expr::Column(column) => column_type(columns, *column),
        Expr::Slot(slot) => slot_type(slots, *slot),
        Expr::Negation(part) => {
            if !is_number(expression_type(part.get(), columns, slots)) {
                return None;
            }
            Some(DataType::Number)
        }
        Expr::Sum(parts) | Expr::Product(parts) => {
            for part in parts.as_slice() {
                if !is_number(expression_type(part, columns, slots)) {
                    return None;
                }
            }
            Some(DataType::Number)
        }
    }
}

/// The type of the slot at this place; none where there is no such slot.
fn slot_type(slots: &[DataType], slot: usize) -> Option<DataType>
    ensures { result ≡ slice_get slots.now slot }
{
    slots.get(slot).copied()
}

/// Whether each expression of a condition has a type, and each comparison is between two of the same. IS NULL takes
/// either, and what EXISTS asks of is a count. It takes no memory.
pub fn is_well_typed(cond: &Cond, columns: &[Column], slots: &[DataType]) -> bool
    ensures { result ≡ is_typed_of columns.now slots.now cond.now }
{
    match cond {
        Cond::Compare(_, left, right) => are_comparable(
            expression_type(left, columns, slots),
            expression_type(right, columns, slots),
        ),
        Cond::IsNull(part) => expression_type(part, columns, slots).is_some(),
        Cond::Exists(_) => true,
        Cond::Is(part, _) | Cond::Not(part) => is_well_typed(part.get(), columns, slots),
        Cond::And(parts) | Cond::Or(parts) => {
            for part in parts.as_slice() {
                if !is_well_typed(part, columns, slots) {
                    return false;
                }
            }
            true
        }
    }
}
