//! What an UPDATE assigns.

ghost use Rattle.std.specs.Prelude.{◌≡◌, ◌≢◌, [], All, length, IsTrue, IfOk, IfErr, Ok, Err, Some, None};
ghost use Rattle.std.specs.List.{list_all};
ghost use Rattle.value.specs.declared.refusals.Refusal.TheVariants.{NoMemory};
ghost use Rattle.form_check.specs.ShownScopes.{lent_scope};
ghost use Rattle.assertcheck.specs.Updates.{IsBoundedSetting, assignable, assigned_places, fits, is_bounded_setting, names_fault, settings_of, value_fault, value_of, values_fault};

use crate::columns::new_place;
use crate::conditions::look_up_where;
use crate::data_types::{are_comparable, column_type};
use crate::typed_trees::expression_type;
use crate::updates::Setting;
use form_check::{Scope, look_up_expression, row_expression};
use sqlite_items::Boxed;
use std::alloc::Global;
use syntax::{Assignment, Condition, UpdateSource};
use table::{Catalog, Column, Expr, Schema, bound};
use value::{Refusal, Text};

/// The places of the assigned columns, none of them twice and none of them the key.
pub fn assigned_places(
    alloc: Global,
    schema: &Schema,
    sets: &[Assignment],
) -> Result<Vec<usize>, Refusal>
    ensures made { IfOk result (λ places. assigned_places schema.now [] sets.now ≡ Ok places.items) }
    ensures refused { IfErr result (λ refusal.
        refusal ≢ NoMemory → assigned_places schema.now [] sets.now ≡ Err refusal) }
    ensures as_many { IfOk result (λ places. length places.items ≡ length sets.now) }
{
    let mut places = Vec::new(alloc);
    for assignment in sets {
        let place = assignable(schema, places.as_slice(), &assignment.column)?;
        places.push(place)?;
    }
    Ok(places)
}

/// The place of the column of a name, if it isn't among those before it, and isn't the key.
fn assignable(schema: &Schema, before: &[usize], name: &Text) -> Result<usize, Refusal>
    ensures made { IfOk result (λ place. assignable schema.now before.now name.now ≡ Ok place) }
    ensures refused { IfErr result (λ refusal.
        refusal ≢ NoMemory → assignable schema.now before.now name.now ≡ Err refusal) }
{
    let column = new_place(schema, before, name)?;
    if column == schema.key() {
        return Err(Refusal::KeyUpdate {
            column: name.copy()?,
        });
    }
    Ok(column)
}

/// Looks up the names in the assigned expressions from the left, and then those of the condition.
pub fn known_names(
    alloc: Global,
    catalog: &Catalog,
    scope: Scope,
    sets: &[Assignment],
    condition: &Option<Boxed<Condition>>,
) -> Result<(), Refusal>
    ensures known { IfOk result (λ _. names_fault catalog.now (lent_scope scope.entry) sets.now condition.now ≡ None) }
    ensures refused { IfErr result (λ refusal.
        refusal ≢ NoMemory → names_fault catalog.now (lent_scope scope.entry) sets.now condition.now ≡ Some refusal) }
{
    known_values(alloc, catalog, scope, sets)?;
    look_up_where(alloc, catalog, scope, condition)
}

fn known_values(
    alloc: Global,
    catalog: &Catalog,
    scope: Scope,
    sets: &[Assignment],
) -> Result<(), Refusal>
    ensures known { IfOk result (λ _. values_fault catalog.now (lent_scope scope.entry) sets.now ≡ None) }
    ensures refused { IfErr result (λ refusal.
        refusal ≢ NoMemory → values_fault catalog.now (lent_scope scope.entry) sets.now ≡ Some refusal) }
{
    for assignment in sets {
        known_value(alloc, catalog, scope, &assignment.value)?;
    }
    Ok(())
}

fn known_value(
    alloc: Global,
    catalog: &Catalog,
    scope: Scope,
    value: &UpdateSource,
) -> Result<(), Refusal>
    ensures known { IfOk result (λ _. value_fault catalog.now (lent_scope scope.entry) value.now ≡ None) }
    ensures refused { IfErr result (λ refusal.
        refusal ≢ NoMemory → value_fault catalog.now (lent_scope scope.entry) value.now ≡ Some refusal) }
{
    match value {
        UpdateSource::Null => Ok(()),
        UpdateSource::To(expression) => look_up_expression(alloc, catalog, &[scope], expression),
    }
}

/// What is given to the columns at these places, over the columns of the row alone.
#[tactic(auto, using(value::proofs::Results::behind_next, value::proofs::Results::behind_none))]
pub fn settings(
    alloc: Global,
    scope: Scope,
    places: &[usize],
    sets: &[Assignment],
) -> Result<Vec<Setting>, Refusal>
    requires { length places.now ≡ length sets.now }
    ensures made { IfOk result (λ made. settings_of (lent_scope scope.entry) places.now sets.now ≡ Ok made.items) }
    ensures refused { IfErr result (λ refusal.
        refusal ≢ NoMemory → settings_of (lent_scope scope.entry) places.now sets.now ≡ Err refusal) }
{
    let mut made = Vec::new(alloc);
    for i in 0..sets.len() {
        let column = places[i];
        let value = given_expression(alloc, scope, &sets[i].value)?;
        made.push(Setting { column, value })?;
    }
    Ok(made)
}

/// What is given to one column; none is NULL.
fn given_expression(
    alloc: Global,
    scope: Scope,
    value: &UpdateSource,
) -> Result<Option<Expr>, Refusal>
    ensures made { IfOk result (λ made. value_of (lent_scope scope.entry) value.now ≡ Ok made) }
    ensures refused { IfErr result (λ refusal.
        refusal ≢ NoMemory → value_of (lent_scope scope.entry) value.now ≡ Err refusal) }
{
    match value {
        UpdateSource::Null => Ok(None),
        UpdateSource::To(expression) => Ok(Some(row_expression(alloc, scope, expression)?)),
    }
}

/// Whether each expression is of its column's type. NULL is of every type.
pub fn all_fit(columns: &[Column], sets: &[Setting]) -> bool
    ensures { result ≡ list_all (fits columns.now) sets.now }
{
    sets.iter().all(|setting| fits(columns, setting))
}

fn fits(columns: &[Column], setting: &Setting) -> bool
    ensures { result ≡ fits columns.now setting.now }
{
    match &setting.value {
        None => true,
        Some(value) => are_comparable(
            column_type(columns, setting.column),
            expression_type(value, columns, &[]),
        ),
    }
}

/// Whether each expression has a bound.
#[tactic(auto, using(crate::proofs::Widths::each_bounded))]
pub fn are_bounded(sets: &[Setting]) -> bool
    ensures value { result ≡ list_all is_bounded_setting sets.now }
    ensures bounded { IsTrue result → All IsBoundedSetting sets.now }
{
    sets.iter().all(|setting| is_bounded(setting))
}

fn is_bounded(setting: &Setting) -> bool
    ensures { result ≡ is_bounded_setting setting.now }
{
    match &setting.value {
        None => true,
        Some(value) => bound(value, &[]).is_ok(),
    }
}
