//! The three forms of assertions.

ghost use Rattle.std.specs.Prelude.{◌≡◌, IfOk};

use crate::queries::{Link, Query, Whole, copy_queries};
use sqlite_items::Items;
use std::alloc::{AllocError, Global};
use table::{Aggregate, Cond};

/// What an assertion forbids or demands. The slots of its condition are its queries or aggregates, in order.
#[derive(Debug, Drop)]
pub enum Form {
    /// `NOT EXISTS (SELECT * FROM table WHERE condition)`: no row for which the condition is true.
    ByRow {
        table: usize,
        condition: Cond,
        queries: Items<Query<Link>>,
    },
    /// `NOT EXISTS (SELECT group FROM table WHERE filter GROUP BY group HAVING having)`: no group for which the
    /// condition is true. The row that `having` sees is the group's value alone.
    ByGroup {
        table: usize,
        filter: Cond,
        group: usize,
        having: Cond,
        aggregates: Items<Aggregate>,
    },
    /// A condition that is not to be false. It sees no row.
    Single {
        condition: Cond,
        queries: Items<Query<Whole>>,
    },
}

impl Form {
    /// A form equal to this one.
    pub fn copy(&self, alloc: Global) -> Result<Form, AllocError>
        ensures { IfOk result (λ copy. copy ≡ self.now) }
    {
        match self {
            Form::ByRow {
                table,
                condition,
                queries,
            } => Ok(Form::ByRow {
                table: *table,
                condition: condition.copy(alloc)?,
                queries: copy_queries(alloc, queries.as_slice())?,
            }),
            Form::ByGroup {
                table,
                filter,
                group,
                having,
                aggregates,
            } => Ok(Form::ByGroup {
                table: *table,
                filter: filter.copy(alloc)?,
                group: *group,
                having: having.copy(alloc)?,
                aggregates: Items::from_slice(alloc, aggregates.as_slice())?,
            }),
            Form::Single { condition, queries } => Ok(Form::Single {
                condition: condition.copy(alloc)?,
                queries: copy_queries(alloc, queries.as_slice())?,
            }),
        }
    }
}
