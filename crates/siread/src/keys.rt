//! Places of rows, keys of reads, and the changes that touch a key.

ghost use Rattle.std.specs.Prelude.{◌≡◌, IfOk};
ghost use Rattle.value.specs.declared.values.Value.TheVariants.{Null};
ghost use Rattle.table.specs.Rows.{value_in};
ghost use Rattle.siread.specs.Keys.{holds, is_under, same_value, touches};
ghost use Rattle.siread.specs.Families.{family_of, value_of};

use std::alloc::AllocError;
use table::{Change, Row};
use value::{Value, order};

/// Where a row stands: its table, by the table's place in the order of creation, and its key there. In order by
/// table, and then by key.
#[derive(Debug, Drop, PartialEq, Eq, PartialOrd, Ord)]
pub struct Place {
    pub table: usize,
    pub key: Value,
}

/// What a transaction reads. In order the rows stand before the columns, and those before the tables.
#[derive(Debug, Drop, PartialEq, Eq, PartialOrd, Ord)]
pub enum LockKey {
    /// One row, also where none stands there.
    Row(Place),
    /// The rows of a table that have this value, which may be NULL, in a column.
    Column {
        table: usize,
        column: usize,
        value: Value,
    },
    /// All rows of a table.
    Table(usize),
}

/// The keys that differ by a value alone. In order the rows stand before the columns, and those before the tables.
#[derive(Clone, Copy, Debug, PartialEq, Eq, PartialOrd, Ord)]
pub enum Family {
    /// The rows of a table, by their key.
    Rows(usize),
    /// The rows of a table, by what they have in a column.
    Column { table: usize, column: usize },
    /// A whole table: one key, under NULL.
    Table(usize),
}

impl LockKey {
    /// The family of a key, and its value there. NULL is the caller's to lend.
    pub fn parts<'a>(&'a self, null: &'a Value) -> (Family, &'a Value)
        requires { null.now ≡ Null }
        ensures family { result.0 ≡ family_of self.now }
        ensures value { result.1.now ≡ value_of self.now }
    {
        match self {
            LockKey::Row(place) => (Family::Rows(place.table), &place.key),
            LockKey::Column {
                table,
                column,
                value,
            } => {
                let family = Family::Column {
                    table: *table,
                    column: *column,
                };
                (family, value)
            }
            LockKey::Table(table) => (Family::Table(*table), null),
        }
    }

    /// A key equal to this one.
    pub fn copy(&self) -> Result<LockKey, AllocError>
        ensures { IfOk result (λ copy. copy ≡ self.now) }
    {
        match self {
            LockKey::Row(place) => Ok(LockKey::Row(Place {
                table: place.table,
                key: place.key.copy()?,
            })),
            LockKey::Column {
                table,
                column,
                value,
            } => Ok(LockKey::Column {
                table: *table,
                column: *column,
                value: value.copy()?,
            }),
            LockKey::Table(table) => Ok(LockKey::Table(*table)),
        }
    }
}

/// Whether a change touches a key: its old or its new row is one of those that the key means. It takes no memory.
pub fn touches(change: &Change, key: &LockKey) -> bool
    ensures { result ≡ touches change.now key.now }
{
    holds(key, change, &change.old) || holds(key, change, &change.new)
}

/// Whether a row that stands where the change does, if there is one, is under the key.
fn holds(key: &LockKey, change: &Change, row: &Option<Row>) -> bool
    ensures { result ≡ holds key.now (record { table = change.now.table; key = change.now.key }) row.now }
{
    match row {
        None => false,
        Some(row) => is_under(key, change.table, &change.key, row),
    }
}

/// Whether a row is one of those that the key means.
fn is_under(key: &LockKey, at: usize, under: &Value, row: &Row) -> bool
    ensures { result ≡ is_under key.now (record { table = at; key = under.now }) row.now }
{
    match key {
        LockKey::Row(place) => place.table == at && is_same(&place.key, under),
        LockKey::Column {
            table,
            column,
            value,
        } => *table == at && has(row, *column, value),
        LockKey::Table(table) => *table == at,
    }
}

/// Whether two values are the same, as keys and groups see it: NULL is the same as NULL. It takes no memory.
pub fn is_same(a: &Value, b: &Value) -> bool
    ensures { result ≡ same_value a.now b.now }
{
    order(a, b).is_eq()
}

/// Whether a row has this value in a column. Past its last column a row has NULL.
fn has(row: &Row, column: usize, value: &Value) -> bool
    ensures { result ≡ same_value value.now (value_in column row.now) }
{
    match row.values().get(column) {
        Some(found) => is_same(value, found),
        None => is_same(value, &Value::Null),
    }
}
