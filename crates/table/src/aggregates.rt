//! Set functions.

ghost use Rattle.std.specs.Prelude.{◌≡◌};
ghost use Rattle.table.specs.Aggregates.{column_of};

/// A set function of SQL-92 over some rows: COUNT(*), or COUNT, SUM, MIN or MAX of a column, by its place. COUNT and
/// SUM are of each value as often as it stands, or with DISTINCT of each value once; to MIN and MAX that is the same.
#[derive(Clone, Copy, Debug, PartialEq, Eq)]
pub enum Aggregate {
    CountRows,
    Count(usize),
    CountDistinct(usize),
    Sum(usize),
    SumDistinct(usize),
    Min(usize),
    Max(usize),
}

impl Aggregate {
    /// The place of the column that it is of; COUNT(*) is of none.
    pub fn column(self) -> Option<usize>
        ensures { result ≡ column_of self }
    {
        match self {
            Aggregate::CountRows => None,
            Aggregate::Count(column)
            | Aggregate::CountDistinct(column)
            | Aggregate::Sum(column)
            | Aggregate::SumDistinct(column)
            | Aggregate::Min(column)
            | Aggregate::Max(column) => Some(column),
        }
    }
}
