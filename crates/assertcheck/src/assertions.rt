//! What CREATE ASSERTION defines.

ghost use Rattle.std.specs.Prelude.{◌≡◌, ◌≢◌, IfOk, IfErr, Ok, Err};
ghost use Rattle.value.specs.declared.refusals.Refusal.TheVariants.{NoMemory};
ghost use Rattle.assertion.specs.Bounded.{IsBounded};
ghost use Rattle.assertcheck.specs.Assertions.{are_at_odds, attributes_of, checked_assertion, of_form};

use crate::bounded_forms::form_is_bounded;
use crate::typed_forms::form_is_typed;
use assertion::{Assertion, ConstraintAttributes, Form};
use form_check::{form, look_up_condition};
use std::alloc::Global;
use syntax::{Attributes, Condition, Mode};
use table::Catalog;
use value::{Refusal, Text};

/// The assertion that `CREATE ASSERTION name CHECK (condition) attributes` defines over the tables of a catalog.
/// Whether an assertion of that name is there already is for who keeps them to test.
///
/// # Errors
///
/// The first fault: [`Refusal::AttributeClash`]; [`Refusal::UnknownName`] with the first name that stands for nothing;
/// [`Refusal::OutsideClass`] for a condition of none of the three forms; [`Refusal::TypeMismatch`]; and
/// [`Refusal::TooWide`]. Or [`Refusal::NoMemory`].
pub fn check(
    alloc: Global,
    catalog: &Catalog,
    name: &Text,
    condition: &Condition,
    attributes: Attributes,
) -> Result<Assertion, Refusal>
    ensures made { IfOk result (λ assertion.
        checked_assertion catalog.now name.now condition.now attributes ≡ Ok assertion) }
    ensures refused { IfErr result (λ refusal.
        refusal ≢ NoMemory → checked_assertion catalog.now name.now condition.now attributes ≡ Err refusal) }
    ensures bounded { IfOk result (λ assertion. IsBounded assertion.form) }
{
    if are_at_odds(attributes) {
        return Err(Refusal::AttributeClash {
            assertion: name.copy()?,
        });
    }
    look_up_condition(alloc, catalog, &[], condition)?;
    let form = form(alloc, catalog, condition)?;
    of_form(
        alloc,
        catalog,
        name,
        constraint_attributes(attributes),
        form,
    )
}

/// An assertion of a form, if the form is typed and its expressions are bounded.
fn of_form(
    alloc: Global,
    catalog: &Catalog,
    name: &Text,
    attributes: ConstraintAttributes,
    form: Form,
) -> Result<Assertion, Refusal>
    ensures made { IfOk result (λ assertion. of_form catalog.now name.now attributes form ≡ Ok assertion) }
    ensures refused { IfErr result (λ refusal.
        refusal ≢ NoMemory → of_form catalog.now name.now attributes form ≡ Err refusal) }
    ensures bounded { IfOk result (λ assertion. IsBounded assertion.form) }
{
    if !form_is_typed(alloc, catalog, &form)? {
        return Err(Refusal::TypeMismatch);
    }
    if !form_is_bounded(alloc, &form)? {
        return Err(Refusal::TooWide);
    }
    Ok(Assertion {
        name: name.copy()?,
        attributes,
        form,
    })
}

/// Whether the attributes are INITIALLY DEFERRED and NOT DEFERRABLE.
fn are_at_odds(written: Attributes) -> bool
    ensures { result ≡ are_at_odds written }
{
    written.initially == Some(Mode::Deferred) && written.deferrable == Some(false)
}

/// The attributes with what goes without a word: INITIALLY DEFERRED is deferrable, and else what is not written
/// DEFERRABLE is not.
fn constraint_attributes(written: Attributes) -> ConstraintAttributes
    ensures { result ≡ attributes_of written }
{
    let initially_deferred = written.initially == Some(Mode::Deferred);
    ConstraintAttributes {
        deferrable: initially_deferred || written.deferrable == Some(true),
        initially_deferred,
    }
}
