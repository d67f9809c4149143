//! What the definitions of this crate entail. Each law is the contract of a function that does nothing.

ghost use Rattle.std.specs.Prelude.{◌≡◌, ◌+◌, ℕ, List, [], ◌∷◌, Some, drop, reverse, take};
ghost use Rattle.assertion.specs.Declarations.{Declared, layouts_in};
ghost use Rattle.assertion.specs.Meaning.{State};
ghost use Rattle.meaning.specs.Laws.{Pairs};
ghost use Rattle.alone.specs.declared.records.Record.{Record};
ghost use Rattle.alone.specs.Epoch.{IsEpoch, state_of};
ghost use Rattle.alone.specs.States.{IsState};
ghost use Rattle.journal.specs.declared.entries.Entry.{Entry};
ghost use Rattle.txn.specs.Fitting.{RowsFit};
ghost use Rattle.durable.specs.Images.{image_from};
ghost use Rattle.durable.specs.Opening.{blank_state};
ghost use Rattle.durable.specs.Restoring.{IsOf, restored};

use alone::replay_answers_again;

/// What the journal of an epoch says is restored to its committed tables, after any number of its commits, and is never
/// refused. (That the commits of a core are an epoch says `Core::recall_epoch`.)
pub fn what_was_kept_is_restored()
    ensures { (declared : Declared) (start : State) (log : List Record) → IsEpoch declared start log
        → RowsFit (layouts_in declared) start
        → (entries : List Entry) → Pairs IsOf (reverse log) entries → (number : ℕ)
        → restored (layouts_in declared) (take number entries) start ≡ Some (state_of declared start log number) }
{}

/// The image of tables whose rows are in key order and fit their columns is restored to these tables, from tables
/// without rows, and is never refused.
pub fn an_image_is_restored()
    ensures { (declared : Declared) (state : State) → IsState (layouts_in declared) state
        → RowsFit (layouts_in declared) state
        → (image : Entry) → image.changes ≡ image_from (layouts_in declared) 0 state
        → restored (layouts_in declared) (image ∷ []) (blank_state declared) ≡ Some state }
{}

/// What a journal says that begins with the image of the committed tables after some commits of an epoch, and goes on
/// with those behind them, is restored to the committed tables after any number of these.
pub fn a_journal_is_restored()
    ensures { (declared : Declared) (start : State) (log : List Record) → IsEpoch declared start log
        → RowsFit (layouts_in declared) start
        → (entries : List Entry) → Pairs IsOf (reverse log) entries → (before more : ℕ)
        → (image : Entry) → image.changes ≡ image_from (layouts_in declared) 0 (state_of declared start log before)
        → restored (layouts_in declared) (image ∷ take more (drop before entries)) (blank_state declared)
        ≡ Some (state_of declared start log (before + more)) }
{
    an_image_is_restored();
    what_was_kept_is_restored();
    replay_answers_again();
}
