//! Definitions that are admitted.

ghost use Rattle.std.specs.Prelude.{◌≡◌, ◌≢◌, IfOk, IfErr, Ok, Err};
ghost use Rattle.value.specs.declared.refusals.Refusal.TheVariants.{NoMemory};
ghost use Rattle.alone.specs.Alone.{IsSound};
ghost use Rattle.definitions.specs.Written.{AreWritten};
ghost use Rattle.commit.specs.Admission.{admission_of, tables_if_satisfied};

use definitions::Definitions;
use delta::View;
use std::alloc::Global;
use syntax::Definition;
use txn::find_first_false;
use value::Refusal;

/// The tables that definitions begin with. Every assertion is satisfied on them, and means what the definitions write.
///
/// # Errors
///
/// The first fault of the definitions, as `Definitions::take` answers it; then [`Refusal::FalseAtCreation`] with
/// the first assertion that is false on the loaded rows, and the least root at which it is. Or
/// [`Refusal::NoMemory`].
pub fn admit(alloc: Global, definitions: &[Definition]) -> Result<View, Refusal>
    ensures admitted { IfOk result (λ view. admission_of definitions.now ≡ Ok view) }
    ensures sound { IfOk result (λ view. IsSound view.declared view.state) }
    ensures written { IfOk result (λ view. AreWritten definitions.now view.declared) }
    ensures refused { IfErr result (λ refusal. refusal ≢ NoMemory → admission_of definitions.now ≡ Err refusal) }
{
    let taken = Definitions::take(alloc, definitions)?;
    let view = admit_taken(alloc, taken)?;
    Ok(view)
}

/// The tables that definitions begin with which were taken in already. Every assertion is satisfied on them.
///
/// # Errors
///
/// [`Refusal::FalseAtCreation`] with the first assertion that is false on the loaded rows, and the least root at which
/// it is. Or [`Refusal::NoMemory`].
pub fn admit_taken(alloc: Global, taken: Definitions) -> Result<View, Refusal>
    ensures satisfied { IfOk result (λ view. tables_if_satisfied taken ≡ Ok view) }
    ensures same { IfOk result (λ view. view ≡ taken) }
    ensures sound { IfOk result (λ view. IsSound view.declared view.state) }
    ensures refused { IfErr result (λ refusal. refusal ≢ NoMemory → tables_if_satisfied taken ≡ Err refusal) }
{
    let loaded = taken.load(alloc)?;
    let view = require_satisfied(loaded)?;
    Ok(view)
}

/// The tables, if every assertion is satisfied on them.
///
/// # Errors
///
/// [`Refusal::FalseAtCreation`] with the first assertion that is false, and the least root at which it is. Or
/// [`Refusal::NoMemory`].
pub fn require_satisfied(view: View) -> Result<View, Refusal>
    ensures satisfied { IfOk result (λ same. tables_if_satisfied view ≡ Ok same) }
    ensures same { IfOk result (λ same. same ≡ view) }
    ensures sound { IfOk result (λ same. IsSound same.declared same.state) }
    ensures refused { IfErr result (λ refusal. refusal ≢ NoMemory → tables_if_satisfied view ≡ Err refusal) }
{
    // (that a view's tables are as its declarations say is the invariant of its catalog)
    let _ = view.catalog();
    match find_first_false(&view) {
        None => Ok(view),
        Some((assertion, group)) => Err(Refusal::FalseAtCreation {
            assertion: assertion.copy()?,
            group: group.copy()?,
        }),
    }
}
