//! Rows that a SELECT gives.

ghost use Rattle.std.specs.Prelude.{◌≡◌, map, IfOk};
ghost use Rattle.table.specs.Shown.{lent_value};
ghost use Rattle.alone.specs.Results.{value_of};

use std::alloc::AllocError;
use std::marker::Model;
use table::LentValue;
use value::Text;

/// A value that a SELECT lists. A number may be larger than a column's.
#[derive(Debug, Drop)]
pub enum ResultValue {
    Null,
    Number(i128),
    Text(Text),
}

impl ResultValue {
    /// What an expression gave. It shares a text's bytes, and takes no memory.
    pub fn of(lent: LentValue) -> Result<ResultValue, AllocError>
        ensures { IfOk result (λ made. value_of made ≡ lent_value lent.entry) }
    {
        match lent {
            LentValue::Null => Ok(ResultValue::Null),
            LentValue::Number(number) => Ok(ResultValue::Number(number)),
            LentValue::Text(text) => Ok(ResultValue::Text(text.copy()?)),
        }
    }
}

/// A row that a SELECT gives: a value for each column that it lists, in their order.
#[derive(Debug, Drop)]
pub struct ResultRow {
    values: Vec<ResultValue>,
}

impl Model for ResultRow {
    ghost use Rattle.std.specs.Prelude.{map};
    ghost use Rattle.table.specs.Rows.{RowValues};
    ghost use Rattle.alone.specs.Results.{value_of};

    ghost Value = { RowValues };

    ghost view = { λ row. map value_of row.values.items };
}

impl ResultRow {
    /// The row of these values.
    pub fn new(values: Vec<ResultValue>) -> ResultRow
        ensures { result ≡ map value_of values.items }
    {
        ResultRow { values }
    }

    pub fn values(&self) -> &[ResultValue]
        ensures { map value_of result.now ≡ self.now }
    {
        self.values.as_slice()
    }
}
