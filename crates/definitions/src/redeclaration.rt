//! Assertions of tables that there are: some are dropped, and new ones created.

ghost use Rattle.std.specs.Prelude.{◌≡◌, ◌≢◌, false, map, IfOk, IfErr, Ok, Err};
ghost use Rattle.std.specs.List.{list_all};
ghost use Rattle.value.specs.declared.refusals.Refusal.TheVariants.{NoMemory, OutsideClass};
ghost use Rattle.delta.specs.Views.{ViewState};
ghost use Rattle.definitions.specs.Redeclaration.{AreCreated, definition_of, redeclaration, with_new, without_name, without_names};
ghost use Rattle.definitions.specs.Taken.{with_assertion};
ghost use Rattle.definitions.specs.Written.{is_assertion};

use crate::taken::is_asserted;
use assertcheck::check;
use delta::View;
use sqlite_items::Items;
use std::alloc::Global;
use syntax::{Attributes, Condition, Definition};
use value::{Refusal, Text};

/// `CREATE ASSERTION name CHECK (condition) attributes`, for tables that there are.
#[derive(Drop)]
pub struct NewAssertion {
    pub name: Text,
    pub condition: Condition,
    pub attributes: Attributes,
}

impl NewAssertion {
    /// The assertion that a definition creates. A definition of something else is given back.
    pub fn of(definition: Definition) -> Result<NewAssertion, Definition>
        ensures created { IfOk result (λ new. definition ≡ definition_of new) }
        ensures other { IfErr result (λ back. (back ≡ definition) × (is_assertion definition ≡ false)) }
    {
        match definition {
            Definition::Assertion {
                name,
                condition,
                attributes,
            } => Ok(NewAssertion {
                name,
                condition,
                attributes,
            }),
            other => Err(other),
        }
    }
}

/// The new assertions that definitions write, in their order: so that they may be read from a text.
///
/// # Errors
///
/// [`Refusal::OutsideClass`] where a definition is of something else; or [`Refusal::NoMemory`].
pub fn new_assertions(
    alloc: Global,
    mut definitions: Items<Definition>,
) -> Result<Vec<NewAssertion>, Refusal>
    ensures written { IfOk result (λ new. definitions ≡ map definition_of new.items) }
    ensures refused { IfErr result (λ refusal. refusal ≢ NoMemory
        → (refusal ≡ OutsideClass) × (list_all is_assertion definitions ≡ false)) }
{
    let mut new = Vec::new(alloc);
    'turn: while let Some(definition) = definitions.pop() {
        new.push(read_new(definition)?)?;
    }
    new.reverse();
    Ok(new)
}

/// The new assertion that a definition writes.
fn read_new(definition: Definition) -> Result<NewAssertion, Refusal>
    ensures created { IfOk result (λ new. definition ≡ definition_of new) }
    ensures refused { IfErr result (λ refusal. (refusal ≡ OutsideClass) × (is_assertion definition ≡ false)) }
{
    match NewAssertion::of(definition) {
        Ok(new) => Ok(new),
        Err(other) => {
            drop(other);
            Err(Refusal::OutsideClass)
        }
    }
}

/// The view of the same tables without the assertions of some names and with new ones behind those that are left. A
/// name that is dropped may be given anew. Whether they are satisfied is not asked, and the view
/// that there was stays as it is.
///
/// # Errors
///
/// [`Refusal::UnknownName`] of the first name that is dropped and that no assertion has, or has any more; then of the
/// first new assertion that is refused what CREATE ASSERTION answers: [`Refusal::NameTaken`], or what
/// `assertcheck::check` answers. Or [`Refusal::NoMemory`].
pub fn redeclare(
    alloc: Global,
    view: &View,
    dropped: &[Text],
    created: &[NewAssertion],
) -> Result<View, Refusal>
    ensures redeclared { IfOk result (λ next. redeclaration dropped.now created.now view.now ≡ Ok next) }
    ensures refused { IfErr result (λ refusal. refusal ≢ NoMemory
        → redeclaration dropped.now created.now view.now ≡ Err refusal) }
    ensures written { IfOk result (λ next. (left : ViewState) → without_names dropped.now view.now ≡ Ok left
        → AreCreated left created.now next) }
{
    let left = drop_assertions(view, dropped)?;
    create_assertions(alloc, left, created)
}

/// The view without the assertions of these names.
fn drop_assertions(view: &View, names: &[Text]) -> Result<View, Refusal>
    ensures dropped { IfOk result (λ left. without_names names.now view.now ≡ Ok left) }
    ensures refused { IfErr result (λ refusal. refusal ≢ NoMemory → without_names names.now view.now ≡ Err refusal) }
{
    let mut left = view.copy()?;
    for name in names {
        left = drop_assertion(&left, name)?;
    }
    Ok(left)
}

/// The view without the assertion of this name.
fn drop_assertion(view: &View, name: &Text) -> Result<View, Refusal>
    ensures dropped { IfOk result (λ left. without_name name.now view.now ≡ Ok left) }
    ensures refused { IfErr result (λ refusal. refusal ≢ NoMemory → without_name name.now view.now ≡ Err refusal) }
{
    if !is_asserted(view.assertions(), name) {
        return Err(Refusal::UnknownName { name: name.copy()? });
    }
    Ok(view.without_assertion(name)?)
}

/// The view with these new assertions behind the others.
fn create_assertions(alloc: Global, left: View, created: &[NewAssertion]) -> Result<View, Refusal>
    ensures created { IfOk result (λ next. with_new created.now left ≡ Ok next) }
    ensures refused { IfErr result (λ refusal. refusal ≢ NoMemory → with_new created.now left ≡ Err refusal) }
{
    let mut made = left;
    for new in created {
        made = create_assertion(alloc, &made, new)?;
    }
    Ok(made)
}

/// The view with this new assertion behind the others.
fn create_assertion(alloc: Global, view: &View, new: &NewAssertion) -> Result<View, Refusal>
    ensures created { IfOk result (λ next.
        with_assertion new.now.name new.now.condition new.now.attributes view.now ≡ Ok next) }
    ensures refused { IfErr result (λ refusal. refusal ≢ NoMemory
        → with_assertion new.now.name new.now.condition new.now.attributes view.now ≡ Err refusal) }
{
    if is_asserted(view.assertions(), &new.name) {
        return Err(Refusal::NameTaken {
            name: new.name.copy()?,
        });
    }
    let assertion = check(
        alloc,
        view.catalog(),
        &new.name,
        &new.condition,
        new.attributes,
    )?;
    Ok(view.with_assertion(assertion)?)
}
