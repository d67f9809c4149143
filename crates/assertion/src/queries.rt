//! Subqueries.

ghost use Rattle.std.specs.Prelude.{◌≡◌, IfOk};

use sqlite_items::Items;
use std::alloc::{AllocError, Global};
use table::{Aggregate, Cond};

/// A subquery, `(SELECT aggregate FROM table WHERE filter)`: over the rows of a table that a condition keeps, or over
/// those of them that its grouping gives. EXISTS is one of COUNT(*).
#[derive(Debug, Drop)]
pub struct Query<G> {
    pub table: usize,
    pub filter: Cond,
    pub grouping: G,
    pub aggregate: Aggregate,
}

/// The rows that are linked to a row, `WHERE inner = outer`: those that have in a column of the subquery's table what
/// the row has in a column of its own.
#[derive(Clone, Copy, Debug)]
pub struct Link {
    /// The column of the subquery's table.
    pub inner: usize,
    /// The column of the row.
    pub outer: usize,
}

/// All rows, of a subquery of its own.
#[derive(Clone, Copy, Debug)]
pub struct Whole;

impl<G: Copy> Query<G> {
    /// A subquery equal to this one.
    pub fn copy(&self, alloc: Global) -> Result<Query<G>, AllocError>
        ensures { IfOk result (λ copy. copy ≡ self.now) }
    {
        Ok(Query {
            table: self.table,
            filter: self.filter.copy(alloc)?,
            grouping: self.grouping,
            aggregate: self.aggregate,
        })
    }
}

/// Subqueries equal to these.
pub fn copy_queries<G: Copy + Drop>(
    alloc: Global,
    queries: &[Query<G>],
) -> Result<Items<Query<G>>, AllocError>
    ensures { IfOk result (λ copy. copy ≡ queries.now) }
{
    let mut made = Vec::new(alloc);
    for query in queries {
        made.push(query.copy(alloc)?)?;
    }
    Ok(Items::from_vec(made))
}
