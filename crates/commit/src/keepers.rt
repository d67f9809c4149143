//! Commits that are kept before they count, as in a journal.

ghost use Rattle.std.specs.Prelude.{ℕ, ◌+◌, Bool, List, if◌then◌else◌};
ghost use Rattle.table.specs.declared.rows.Change.{Change};

use std::alloc::AllocError;
use table::Change;
use txn::Txn;

/// Who keeps commits. What it asks for before the commit of a number, and what it then has done, are its own to say.
pub trait Keeper {
    /// What it asks for before it keeps the commit of this number.
    ghost expects: { Self → ℕ → Type 0 };

    /// What it has done, asked for a commit of this number with this net change: whether it has kept it.
    ghost did_keep: { Self → Self → ℕ → List Change → Bool → Type 0 };

    /// Keeps a commit before it counts. False: it could not, and the commit must not count.
    fn keep(&mut self, number: u64, changes: &[Change]) -> bool
        requires expected { expects self.old number }
        ensures { did_keep self.old self.new number changes.now result };

    /// It can be asked for the next, or for the same again where it could not keep it.
    ghost goes_on: { (old new : Self) (number : ℕ) (changes : List Change) (kept : Bool) →
        expects old number → did_keep old new number changes kept →
        expects new (if kept then number + 1 else number) };
}

/// What became of a COMMIT that is accepted.
pub enum Kept {
    /// It was kept, and is the commit of this number.
    Committed(u64),
    /// It could not be kept. Nothing has changed, and the transaction is given back.
    NotKept(Txn),
}

/// Why an event has no answer. Nothing has changed then.
#[derive(Clone, Copy, Debug, PartialEq, Eq)]
pub enum Unanswered {
    /// No memory was left.
    NoMemory,
    /// The COMMIT is accepted, but could not be kept. The transaction is still open.
    NotKept,
}

impl From<AllocError> for Unanswered {
    ghost use Rattle.std.specs.Prelude.{◌≡◌};
    ghost use Rattle.commit.specs.declared.keepers.Unanswered.TheVariants.{NoMemory};

    ghost from_gives = { λ _ unanswered. unanswered ≡ NoMemory };

    fn from(_error: AllocError) -> Unanswered {
        Unanswered::NoMemory
    }
}
