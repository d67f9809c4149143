//! The table and the condition of a statement.

ghost use Rattle.std.specs.Prelude.{◌≡◌, ◌≢◌, ◌<◌, [], length, IsTrue, IfOk, IfErr, Ok, Err, Some, None};
ghost use Rattle.table.specs.Bounds.{is_bounded};
ghost use Rattle.value.specs.declared.refusals.Refusal.TheVariants.{NoMemory};
ghost use Rattle.form_check.specs.ShownScopes.{lent_scope};
ghost use Rattle.form_check.specs.Queries.{row_filter};
ghost use Rattle.form_check.specs.ShownSources.{shown_source};
ghost use Rattle.assertcheck.specs.Conditions.{sound_condition, target_of, filter_fault, filter_of};

use crate::typed_trees::is_well_typed;
use form_check::{Scope, Source, look_up_condition, row_condition};
use sqlite_items::{Boxed, Items};
use std::alloc::Global;
use syntax::Condition;
use table::{Catalog, Cond, is_bounded};
use value::{Refusal, Text};

/// The table that a statement names.
pub fn target<'a>(catalog: &'a Catalog, name: &'a Text) -> Result<Source<'a>, Refusal>
    ensures found { IfOk result (λ source. target_of catalog.now name.now ≡ Ok (shown_source source)) }
    ensures refused { IfErr result (λ refusal. refusal ≢ NoMemory → target_of catalog.now name.now ≡ Err refusal) }
    ensures within { IfOk result (λ source. source.table < length catalog.now) }
{
    match Source::by_table_name(catalog, name) {
        Some(source) => Ok(source),
        None => Err(Refusal::UnknownName { name: name.copy()? }),
    }
}

/// The condition of WHERE over the rows of a table; a missing one keeps every row.
///
/// # Errors
///
/// The first fault: [`Refusal::UnknownName`], [`Refusal::OutsideClass`] for a set function or a query,
/// [`Refusal::TypeMismatch`] and [`Refusal::TooWide`]. Or [`Refusal::NoMemory`].
pub fn filter_condition(
    alloc: Global,
    catalog: &Catalog,
    scope: Scope,
    condition: &Option<Boxed<Condition>>,
) -> Result<Cond, Refusal>
    ensures made { IfOk result (λ made. filter_of catalog.now (lent_scope scope.entry) condition.now ≡ Ok made) }
    ensures refused { IfErr result (λ refusal.
        refusal ≢ NoMemory → filter_of catalog.now (lent_scope scope.entry) condition.now ≡ Err refusal) }
    ensures bounded { IfOk result (λ made. IsTrue (is_bounded [] made)) }
{
    match row_filter(alloc, scope, condition) {
        // (its names are known then: nothing but columns of the table stands there)
        Ok(made) => require_sound(scope, made),
        Err(refusal) => {
            look_up_where(alloc, catalog, scope, condition)?;
            Err(refusal)
        }
    }
}

/// Looks up the names in the condition of WHERE, or of HAVING.
pub fn look_up_where(
    alloc: Global,
    catalog: &Catalog,
    scope: Scope,
    condition: &Option<Boxed<Condition>>,
) -> Result<(), Refusal>
    ensures known { IfOk result (λ _. filter_fault catalog.now (lent_scope scope.entry) condition.now ≡ None) }
    ensures refused { IfErr result (λ refusal.
        refusal ≢ NoMemory → filter_fault catalog.now (lent_scope scope.entry) condition.now ≡ Some refusal) }
{
    match condition {
        Some(condition) => look_up_condition(alloc, catalog, &[scope], condition.get()),
        None => Ok(()),
    }
}

/// The condition of WHERE over the rows of a table, its names known and its types not judged; a missing one keeps every
/// row.
pub fn row_filter(
    alloc: Global,
    scope: Scope,
    condition: &Option<Boxed<Condition>>,
) -> Result<Cond, Refusal>
    ensures made { IfOk result (λ made. row_filter (lent_scope scope.entry) condition.now ≡ Ok made) }
    ensures refused { IfErr result (λ refusal.
        refusal ≢ NoMemory → row_filter (lent_scope scope.entry) condition.now ≡ Err refusal) }
{
    match condition {
        Some(condition) => row_condition(alloc, scope, condition.get()),
        None => Ok(Cond::And(Items::new(alloc))),
    }
}

/// The condition, if it is typed and its expressions are bounded.
fn require_sound(scope: Scope, made: Cond) -> Result<Cond, Refusal>
    ensures sound { result ≡ sound_condition (lent_scope scope.entry) made }
    ensures bounded { IfOk result (λ made. IsTrue (is_bounded [] made)) }
{
    if !is_well_typed(&made, scope.schema.columns(), &[]) {
        return Err(Refusal::TypeMismatch);
    }
    if !is_bounded(&made, &[]) {
        return Err(Refusal::TooWide);
    }
    Ok(made)
}
