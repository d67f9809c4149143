//! Checks of assertions.

ghost use Rattle.std.specs.Prelude.{◌≡◌, ◌≢◌, ◌<◌, ◌++◌, true, length, slice_index_or, IfOk, IfNone, IfSome, OnOk, None, Some};
ghost use Rattle.std.specs.Option.{option_copied};
ghost use Rattle.value.specs.Ordered.{HoldsOf};
ghost use Rattle.value.specs.declared.refusals.Refusal.TheVariants.{NoMemory, Violated};
ghost use Rattle.assertion.specs.declared.assertions.Assertion.{Assertion as AnyAssertion};
ghost use Rattle.assertion.specs.Declarations.{layouts_in};
ghost use Rattle.alone.specs.Modes.{assertion_of, immediate_ones};
ghost use Rattle.alone.specs.Checks.{violation};
ghost use Rattle.txn.specs.Checks.{least_bad_if_meant};
ghost use Rattle.txn.specs.Transactions.{false_names, name_if_false, truth_of, truths_on};

use alone::Modes;
use assertion::Assertion;
use delta::View;
use std::alloc::{AllocError, Global};
use value::{Refusal, Root, Text, Truth};

/// The refusal by the first assertion, of those that are meant, that is false on a view, with the least root at
/// which it is. What is unknown is not false.
pub fn find_violation(view: &View, meant: &Modes) -> Result<Option<Refusal>, AllocError>
    requires { length meant.now ≡ length view.now.declared.assertions }
    ensures named { IfOk result (HoldsOf (λ refusal. refusal ≢ NoMemory)) }
    ensures first { IfOk result (λ found.
        found
        ≡ violation (layouts_in view.now.declared) (immediate_ones meant.now view.now.declared.assertions)
        view.now.state) }
{
    match find_false(view, meant) {
        None => Ok(None),
        Some((assertion, group)) => Ok(Some(Refusal::Violated {
            assertion: assertion.copy()?,
            group: group.copy()?,
        })),
    }
}

/// The first assertion that is false on a view's tables, by its name, and the least root at which it is. What is
/// unknown is not false. It takes no memory.
pub fn find_first_false(view: &View) -> Option<(&Text, &Root)>
    ensures found { IfSome result (λ found.
        violation (layouts_in view.now.declared) view.now.declared.assertions view.now.state
        ≡ Some (Violated found.0.now found.1.now)) }
    ensures none { IfNone result (
        violation (layouts_in view.now.declared) view.now.declared.assertions view.now.state ≡ None) }
{
    let meant = Modes::all_immediate(view.assertions());
    find_false(view, &meant)
}

/// The same, of those assertions that are meant.
pub fn find_false<'a>(view: &'a View, meant: &Modes) -> Option<(&'a Text, &'a Root)>
    requires { length meant.now ≡ length view.now.declared.assertions }
    ensures found { IfSome result (λ found.
        violation (layouts_in view.now.declared) (immediate_ones meant.now view.now.declared.assertions) view.now.state
        ≡ Some (Violated found.0.now found.1.now)) }
    ensures none { IfNone result (
        violation (layouts_in view.now.declared) (immediate_ones meant.now view.now.declared.assertions) view.now.state
        ≡ None) }
{
    for place in 0..view.assertions().len() {
        if let Some(root) = least_bad_if_meant(view, meant, place) {
            return Some((&view.assertions()[place].name, root));
        }
    }
    None
}

/// The least root at which an assertion is false, if it is meant and false. It takes no memory.
fn least_bad_if_meant<'a>(view: &'a View, meant: &Modes, place: usize) -> Option<&'a Root>
    requires within { place < length view.now.declared.assertions }
    requires modes { length meant.now ≡ length view.now.declared.assertions }
    ensures { (a : AnyAssertion)
        → option_copied result
        ≡ least_bad_if_meant (layouts_in view.now.declared) (slice_index_or view.now.declared.assertions place a)
        (slice_index_or meant.now place true) view.now.state }
{
    if meant.is_immediate(place) {
        view.least_bad(place)
    } else {
        None
    }
}

/// The place of the first assertion of a name. It takes no memory.
pub fn find_assertion(assertions: &[Assertion], name: &Text) -> Option<usize>
    ensures within { IfSome result (λ place. place < length assertions.now) }
    ensures found { IfSome result (λ place. (a : AnyAssertion)
        → assertion_of name.now assertions.now ≡ Some (slice_index_or assertions.now place a)) }
    ensures none { IfNone result (assertion_of name.now assertions.now ≡ None) }
{
    for place in 0..assertions.len() {
        if assertions[place].name == *name {
            return Some(place);
        }
    }
    None
}

/// The truth of the assertion of a name on a view; none where no assertion has it. It takes no memory.
pub fn verdict_on(view: &View, name: &Text) -> Option<Truth>
    ensures { result ≡ truth_of view.now (assertion_of name.now view.now.declared.assertions) }
{
    match find_assertion(view.assertions(), name) {
        Some(place) => {
            // Both clauses speak of the item at the place, and an index names one.
            let _ = &view.assertions()[place];
            Some(view.verdict(place))
        }
        None => None,
    }
}

/// The truth of each assertion on a view, in the order of their creation.
pub fn list_truths(alloc: Global, view: &View) -> Result<Vec<Truth>, AllocError>
    ensures { IfOk result (λ found. found.items ≡ truths_on view.now) }
{
    let mut found = Vec::new(alloc);
    for place in 0..view.assertions().len() {
        found.push(view.verdict(place))?;
    }
    Ok(found)
}

/// The names of the assertions that are false on a view, in the order of their creation.
pub fn list_false(alloc: Global, view: &View) -> Result<Vec<Text>, AllocError>
    ensures { IfOk result (λ names. names.items ≡ false_names view.now) }
{
    let mut names = Vec::new(alloc);
    for place in 0..view.assertions().len() {
        push_if_false(&mut names, view, place)?;
    }
    Ok(names)
}

/// Puts the name of an assertion behind the names, if it is false.
fn push_if_false(names: &mut Vec<Text>, view: &View, place: usize) -> Result<(), AllocError>
    requires { place < length view.now.declared.assertions }
    ensures { OnOk result ((a : AnyAssertion)
        → names.new.items
        ≡ names.old.items ++ name_if_false view.now (slice_index_or view.now.declared.assertions place a)) }
{
    let assertion = &view.assertions()[place];
    if view.verdict(place) == Truth::False {
        names.push(assertion.name.copy()?)?;
    }
    Ok(())
}
