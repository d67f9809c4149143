//! Who keeps the commits of sessions on threads.

ghost use Rattle.std.specs.Prelude.{◌≡◌, false};
ghost use Rattle.durable.specs.Promise.{IsReadyFor};

use commit::Keeper;
use durable::Writer;
use journal::Device;
use std::marker::Model;
use std::sync::Mutex;
use table::Change;

/// How the commits of sessions on threads are made.
#[derive(Drop)]
pub enum Commits<D: Device> {
    /// Each counts at once.
    AtOnce,
    /// Each counts only once it is kept.
    Kept(Mutex<Keeping<D>>),
}

/// Who keeps the commits of sessions on threads: a writer, which threads take turns with under a lock. What is under a
/// lock is known by its type alone, so a commit is kept only if its number is the next, as it always is, and if the
/// writer syncs each by itself.
#[derive(Drop)]
pub struct Keeping<D: Device> {
    writer: Writer<D>,
    /// The number of the next commit.
    next: u64,
    /// Whether the commit that it was asked for last could not be kept.
    has_failed: bool,
}

impl<D: Device> Model for Keeping<D> {
    ghost use Rattle.durable.specs.Promise.{IsReadyFor};
    ghost use Rattle.threads.specs.Keeping.{KeepingState};

    ghost Value = { KeepingState D };

    ghost view = { λ k. record { writer = k.writer; next = k.next; has_failed = k.has_failed } };

    ghost invariant = { λ k. IsReadyFor D.seen D.may_leave k.next k.writer };
}

impl<D: Device> Keeping<D> {
    /// Who keeps commits from the first on.
    pub fn new(writer: Writer<D>) -> Keeping<D>
        requires ready { IsReadyFor D.seen D.may_leave 1 writer }
        ensures { result ≡ record { writer = writer; next = 1; has_failed = false } }
    {
        Keeping {
            writer,
            next: 1,
            has_failed: false,
        }
    }

    /// The number of the next commit: it has kept those before it.
    pub fn next(&self) -> u64
        ensures { result ≡ self.now.next }
    {
        self.next
    }

    /// Whether the commit that it was asked for last could not be kept.
    pub fn has_failed(&self) -> bool
        ensures { result ≡ self.now.has_failed }
    {
        self.has_failed
    }

    /// Forgets that a commit could not be kept.
    pub fn forget_failure(&mut self)
        ensures { self.new ≡ record self.old { has_failed = false } }
    {
        self.has_failed = false;
    }
}

impl<D: Device> Keeper for Keeping<D> {
    ghost use Rattle.std.specs.Prelude.{⊤};
    ghost use Rattle.threads.specs.Keeping.{HasAnswered};

    ghost expects = { λ _ _. ⊤ };

    ghost did_keep = { λ old new number changes kept.
        HasAnswered D.seen D.may_leave D.moment D.left_since old new number changes kept };

    ghost goes_on = { λ _ _ _ _ _ _ _. tt };

    #[tactic(auto, using(crate::proofs::Answered::has_answered, crate::proofs::Answered::ready_again))]
    fn keep(&mut self, number: u64, changes: &[Change]) -> bool {
        if number != self.next || number == u64::MAX || self.writer.is_sharing {
            self.has_failed = true;
            return false;
        }
        let was_kept = self.writer.keep(number, changes);
        self.next = if was_kept { number + 1 } else { number };
        self.has_failed = !was_kept;
        was_kept
    }
}
