//! Assertions by their names.

ghost use Rattle.std.specs.Prelude.{◌≡◌, ◌≢◌, IfOk, IfErr, Ok, Err};
ghost use Rattle.value.specs.declared.refusals.Refusal.TheVariants.{NoMemory};
ghost use Rattle.std.specs.Option.{option_copied};
ghost use Rattle.alone.specs.Modes.{assertion_of, deferrable_names, is_named, set_names, settable, tested_names};

use assertion::Assertion;
use sqlite_items::Items;
use std::alloc::{AllocError, Global};
use syntax::Which;
use value::{Refusal, Text};

/// The names of the assertions whose mode SET CONSTRAINTS sets.
///
/// # Errors
///
/// Name by name from the left [`Refusal::UnknownName`], and then [`Refusal::NotDeferrable`]. Or [`Refusal::NoMemory`].
pub fn settable_names(
    alloc: Global,
    assertions: &[Assertion],
    which: &Which,
) -> Result<Items<Text>, Refusal>
    ensures found { IfOk result (λ names. set_names assertions.now which.now ≡ Ok names) }
    ensures refused { IfErr result (λ refusal. refusal ≢ NoMemory → set_names assertions.now which.now ≡ Err refusal) }
{
    match which {
        Which::All => Ok(deferrable_names(alloc, assertions)?),
        Which::Names(names) => require_deferrable(alloc, assertions, names.as_slice()),
    }
}

fn deferrable_names(alloc: Global, assertions: &[Assertion]) -> Result<Items<Text>, AllocError>
    ensures { IfOk result (λ names. names ≡ deferrable_names assertions.now) }
{
    let mut names = Vec::new(alloc);
    for assertion in assertions {
        if assertion.attributes.deferrable {
            names.push(assertion.name.copy()?)?;
        }
    }
    Ok(Items::from_vec(names))
}

fn require_deferrable(
    alloc: Global,
    assertions: &[Assertion],
    names: &[Text],
) -> Result<Items<Text>, Refusal>
    ensures found { IfOk result (λ made. tested_names assertions.now names.now ≡ Ok made) }
    ensures refused { IfErr result (λ refusal.
        refusal ≢ NoMemory → tested_names assertions.now names.now ≡ Err refusal) }
{
    let mut made = Vec::new(alloc);
    for name in names {
        made.push(require_deferrable_name(assertions, name)?)?;
    }
    Ok(Items::from_vec(made))
}

fn require_deferrable_name(assertions: &[Assertion], name: &Text) -> Result<Text, Refusal>
    ensures found { IfOk result (λ made. settable name.now (assertion_of name.now assertions.now) ≡ Ok made) }
    ensures refused { IfErr result (λ refusal.
        refusal ≢ NoMemory → settable name.now (assertion_of name.now assertions.now) ≡ Err refusal) }
{
    match find_assertion(assertions, name) {
        None => Err(Refusal::UnknownName { name: name.copy()? }),
        Some(assertion) if assertion.attributes.deferrable => Ok(name.copy()?),
        Some(_) => Err(Refusal::NotDeferrable {
            assertion: name.copy()?,
        }),
    }
}

/// The first assertion of this name.
fn find_assertion<'a>(assertions: &'a [Assertion], name: &Text) -> Option<&'a Assertion>
    ensures { option_copied result ≡ assertion_of name.now assertions.now }
{
    assertions.iter().find(|assertion| assertion.name == *name)
}

/// Whether a name is among these.
pub fn is_named(names: &[Text], name: &Text) -> bool
    ensures { result ≡ is_named names.now name.now }
{
    names.iter().any(|other| *other == *name)
}
