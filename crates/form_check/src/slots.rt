//! What a form has in the slots of its condition.

ghost use Rattle.std.specs.Prelude.{◌≡◌, ◌≢◌, IfOk, IfErr, Ok, Err};
ghost use Rattle.value.specs.declared.refusals.Refusal.TheVariants.{NoMemory};
ghost use Rattle.value.specs.Results.{each};
ghost use Rattle.form_check.specs.ShownLeaves.{shown_leaf, shown_leaves};

use crate::leaves::Leaf;
use sqlite_items::Items;
use std::alloc::Global;
use value::Refusal;

/// How one of the forms fills its slots.
pub trait Slots {
    ghost use Rattle.std.specs.Prelude.{Result};
    ghost use Rattle.value.specs.declared.refusals.Refusal.{Refusal as AnyRefusal};
    ghost use Rattle.form_check.specs.Leaves.{Leaf as AnyLeaf};

    type Slot: Drop;

    ghost slot: { Self → AnyLeaf → Result Self.Slot AnyRefusal };

    /// What a slot has where this stands.
    fn slot(&self, alloc: Global, leaf: &Leaf) -> Result<Self::Slot, Refusal>
        ensures made { IfOk result (λ made. slot self.now (shown_leaf leaf.now) ≡ Ok made) }
        ensures refused { IfErr result (λ refusal.
            refusal ≢ NoMemory → slot self.now (shown_leaf leaf.now) ≡ Err refusal) };
}

/// What stands in all slots of a condition.
#[tactic(auto, using(value::proofs::Results::behind_next, value::proofs::Results::behind_none))]
pub fn all_slots<S: Slots>(
    alloc: Global,
    slots: &S,
    leaves: &[Leaf],
) -> Result<Items<S::Slot>, Refusal>
    ensures made { IfOk result (λ made. each (S.slot slots.now) (shown_leaves leaves.now) ≡ Ok made) }
    ensures refused { IfErr result (λ refusal.
        refusal ≢ NoMemory → each (S.slot slots.now) (shown_leaves leaves.now) ≡ Err refusal) }
{
    let mut made = Vec::new(alloc);
    for leaf in leaves {
        made.push(slots.slot(alloc, leaf)?)?;
    }
    Ok(Items::from_vec(made))
}

/// Refuses, and lets go what was made before. Its type is a parameter here, so that the callers' proofs do not go over
/// its fields.
pub fn drop_and_refuse<T: Drop, R>(refusal: Refusal, _made: T) -> Result<R, Refusal>
    ensures { result ≡ Err refusal }
{
    Err(refusal)
}
