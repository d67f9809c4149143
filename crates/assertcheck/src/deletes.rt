//! DELETE.

ghost use Rattle.std.specs.Prelude.{◌≡◌, ◌≢◌, ◌<◌, [], length, IsTrue, IfOk, IfErr, Ok, Err};
ghost use Rattle.table.specs.Bounds.{is_bounded};
ghost use Rattle.value.specs.declared.refusals.Refusal.TheVariants.{NoMemory};
ghost use Rattle.assertcheck.specs.Statements.{delete_of};

use crate::conditions::{filter_condition, target};
use sqlite_items::Boxed;
use std::alloc::Global;
use syntax::Condition;
use table::{Catalog, Cond};
use value::{Refusal, Text};

/// A DELETE with its names found: the rows of a table that a condition keeps go.
#[derive(Debug, Drop)]
pub struct Delete {
    /// The table's place in the catalog.
    pub table: usize,
    pub filter: Cond,
}

/// `DELETE FROM table WHERE condition`.
///
/// # Errors
///
/// The first fault: [`Refusal::UnknownName`] of the table and then of the condition's names; then
/// [`Refusal::OutsideClass`], [`Refusal::TypeMismatch`] and [`Refusal::TooWide`] of the condition. Or
/// [`Refusal::NoMemory`].
pub fn check_delete(
    alloc: Global,
    catalog: &Catalog,
    table: &Text,
    condition: &Option<Boxed<Condition>>,
) -> Result<Delete, Refusal>
    ensures made { IfOk result (λ delete. delete_of catalog.now table.now condition.now ≡ Ok delete) }
    ensures refused { IfErr result (λ refusal.
        refusal ≢ NoMemory → delete_of catalog.now table.now condition.now ≡ Err refusal) }
    ensures within { IfOk result (λ delete. delete.table < length catalog.now) }
    ensures bounded { IfOk result (λ delete. IsTrue (is_bounded [] delete.filter)) }
{
    let target = target(catalog, table)?;
    let filter = filter_condition(alloc, catalog, target.scope, condition)?;
    Ok(Delete {
        table: target.table,
        filter,
    })
}
