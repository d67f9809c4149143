//! The two types, and what has which.

ghost use Rattle.std.specs.Prelude.{◌≡◌};
ghost use Rattle.assertcheck.specs.Types.{type_of, column_type as column_type_of, aggregate_type as aggregate_type_of, are_comparable as are_comparable_of, is_number as is_number_of, literal_type as literal_type_of};

use table::{Aggregate, Column};
use value::{ColType, Value};

/// The type of what an expression gives, whatever the length of a text. Values of one type can be compared.
#[derive(Clone, Copy, Debug, PartialEq, Eq)]
pub enum DataType {
    Number,
    Text,
}

/// What a column declared so holds.
impl From<ColType> for DataType {
    ghost from_gives = { λ declared data_type. data_type ≡ type_of declared };

    fn from(declared: ColType) -> DataType {
        match declared {
            ColType::Integer => DataType::Number,
            ColType::Varchar(_) => DataType::Text,
        }
    }
}

/// The type of the column at this place; none where there is no such column.
pub fn column_type(columns: &[Column], column: usize) -> Option<DataType>
    ensures { result ≡ column_type_of columns.now column }
{
    match columns.get(column) {
        Some(found) => Some(DataType::from(found.kind)),
        None => None,
    }
}

/// The type of what a set function gives over rows of these columns; none for SUM of a text column, and for SUM, MIN or
/// MAX of a column that is not there.
pub fn aggregate_type(columns: &[Column], aggregate: Aggregate) -> Option<DataType>
    ensures { result ≡ aggregate_type_of columns.now aggregate }
{
    match aggregate {
        Aggregate::CountRows | Aggregate::Count(_) | Aggregate::CountDistinct(_) => {
            Some(DataType::Number)
        }
        Aggregate::Sum(column) | Aggregate::SumDistinct(column)
            if is_number(column_type(columns, column)) => { Some(DataType::Number) }
        Aggregate::Sum(_) | Aggregate::SumDistinct(_) => None,
        Aggregate::Min(column) | Aggregate::Max(column) => column_type(columns, column),
    }
}

/// The type of a literal; none of NULL.
pub(crate) fn literal_type(value: &Value) -> Option<DataType>
    ensures { result ≡ literal_type_of value.now }
{
    match value {
        Value::Null => None,
        Value::Int(_) => Some(DataType::Number),
        Value::Text(_) => Some(DataType::Text),
    }
}

/// Whether this is the type of numbers, with which alone one can compute.
pub(crate) fn is_number(found: Option<DataType>) -> bool
    ensures { result ≡ is_number_of found }
{
    match found {
        Some(DataType::Number) => true,
        Some(DataType::Text) | None => false,
    }
}

/// Whether values of these types can be compared.
pub fn are_comparable(left: Option<DataType>, right: Option<DataType>) -> bool
    ensures { result ≡ are_comparable_of left right }
{
    match (left, right) {
        (Some(left), Some(right)) => left == right,
        (None, _) | (_, None) => false,
    }
}
