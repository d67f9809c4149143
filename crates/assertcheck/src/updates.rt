//! UPDATE.

ghost use Rattle.std.specs.Prelude.{◌≡◌, ◌≢◌, ◌<◌, [], All, length, IsTrue, IfOk, IfErr, Ok, Err};
ghost use Rattle.table.specs.Bounds.{is_bounded as is_bounded_of};
ghost use Rattle.value.specs.declared.refusals.Refusal.TheVariants.{NoMemory};
ghost use Rattle.form_check.specs.ShownSources.{shown_source};
ghost use Rattle.assertcheck.specs.Updates.{IsBoundedSetting, sound_update, update_of, update_over};

use crate::assignments::{all_fit, are_bounded, assigned_places, known_names, settings};
use crate::conditions::{row_filter, target};
use crate::typed_trees::is_well_typed;
use form_check::Source;
use sqlite_items::{Boxed, Items};
use std::alloc::Global;
use syntax::{Assignment, Condition};
use table::{Catalog, Column, Cond, Expr, is_bounded};
use value::{Refusal, Text};

/// What an UPDATE gives to a column of a row that it keeps.
#[derive(Debug, Drop)]
pub struct Setting {
    /// The column's place. It is never the key's.
    pub column: usize,
    /// An expression over the row as it was; none gives NULL.
    pub value: Option<Expr>,
}

/// An UPDATE with its names found: in the rows of a table that a condition keeps, these columns get other values.
/// Whether NULL may stand there and whether a value is in range is not tested yet.
#[derive(Debug, Drop)]
pub struct Update {
    /// The table's place in the catalog.
    pub table: usize,
    pub sets: Items<Setting>,
    pub filter: Cond,
}

/// `UPDATE table SET sets WHERE condition`.
///
/// # Errors
///
/// The first fault: [`Refusal::UnknownName`] of the table; of the assigned columns from the left
/// [`Refusal::UnknownName`], [`Refusal::NameTaken`] where one stands twice, and [`Refusal::KeyUpdate`] where one is
/// the key; [`Refusal::UnknownName`] of the names in the assigned expressions, and then in the condition. After all
/// names, of all expressions and the condition, [`Refusal::OutsideClass`], then [`Refusal::TypeMismatch`] (also where
/// an expression is not of its column's type), and then [`Refusal::TooWide`]. Or [`Refusal::NoMemory`].
pub fn check_update(
    alloc: Global,
    catalog: &Catalog,
    table: &Text,
    sets: &[Assignment],
    condition: &Option<Boxed<Condition>>,
) -> Result<Update, Refusal>
    ensures made { IfOk result (λ update. update_of catalog.now table.now sets.now condition.now ≡ Ok update) }
    ensures refused { IfErr result (λ refusal.
        refusal ≢ NoMemory → update_of catalog.now table.now sets.now condition.now ≡ Err refusal) }
    ensures within { IfOk result (λ update. update.table < length catalog.now) }
    ensures bounded { IfOk result (λ update. All IsBoundedSetting update.sets) }
    ensures bounded_condition { IfOk result (λ update. IsTrue (is_bounded_of [] update.filter)) }
{
    let target = target(catalog, table)?;
    let places = assigned_places(alloc, target.scope.schema, sets)?;
    match update_over(alloc, target, places.as_slice(), sets, condition) {
        // (its names are known then: nothing but columns of the table stands there)
        Ok(update) => Ok(update),
        Err(refusal) => {
            known_names(alloc, catalog, target.scope, sets, condition)?;
            Err(refusal)
        }
    }
}

/// The UPDATE that gives these columns their values, if its expressions and its condition are over the rows of its
/// table alone, typed and bounded.
fn update_over(
    alloc: Global,
    target: Source,
    places: &[usize],
    sets: &[Assignment],
    condition: &Option<Boxed<Condition>>,
) -> Result<Update, Refusal>
    requires { length places.now ≡ length sets.now }
    ensures made { IfOk result (λ update.
        update_over (shown_source target.entry) places.now sets.now condition.now ≡ Ok update) }
    ensures refused { IfErr result (λ refusal. refusal ≢ NoMemory
        → update_over (shown_source target.entry) places.now sets.now condition.now ≡ Err refusal) }
    ensures place { IfOk result (λ update. update.table ≡ target.entry.table) }
    ensures bounded { IfOk result (λ update. All IsBoundedSetting update.sets) }
    ensures bounded_condition { IfOk result (λ update. IsTrue (is_bounded_of [] update.filter)) }
{
    let settings = settings(alloc, target.scope, places, sets)?;
    let filter = row_filter(alloc, target.scope, condition)?;
    let update = Update {
        table: target.table,
        sets: Items::from_vec(settings),
        filter,
    };
    require_sound(target.scope.schema.columns(), update)
}

/// The UPDATE, if what it gives and its condition are typed, and bounded.
fn require_sound(columns: &[Column], update: Update) -> Result<Update, Refusal>
    ensures sound { result ≡ sound_update columns.now update }
    ensures same { IfOk result (λ made. made ≡ update) }
    ensures bounded { IfOk result (λ made. All IsBoundedSetting made.sets) }
    ensures bounded_condition { IfOk result (λ made. IsTrue (is_bounded_of [] made.filter)) }
{
    let sets = update.sets.as_slice();
    if !all_fit(columns, sets) || !is_well_typed(&update.filter, columns, &[]) {
        return Err(Refusal::TypeMismatch);
    }
    if !are_bounded(sets) || !is_bounded(&update.filter, &[]) {
        return Err(Refusal::TooWide);
    }
    Ok(update)
}
