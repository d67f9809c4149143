//! An engine whose commits are kept in a journal before they count.

ghost use Rattle.std.specs.Prelude.{◌≡◌, ◌+◌, List, [], true, false, length, IfOk, OnErr, OnOk};
ghost use Rattle.journal.specs.Device.{LeavesOnly};
ghost use Rattle.journal.specs.Journals.{IsBetween};
ghost use Rattle.durable.specs.Batches.{entries_waiting};
ghost use Rattle.commit.specs.Events.{IsAnswered, after, without_session};
ghost use Rattle.commit.specs.Keepers.{IsAskedFor};
ghost use Rattle.journal.specs.declared.entries.Entry.{Entry};
ghost use Rattle.durable.specs.Epochs.{IsFollowed};
ghost use Rattle.durable.specs.Promise.{DidKeep, IsReadyFor, SaysBehind, entries_of};

use crate::faults::KeepFault;
use crate::writers::Writer;
use alone::Answer;
use commit::{Engine, Unanswered};
use journal::Device;
use syntax::ScriptLine;

/// An engine, and who writes its commits.
#[derive(Drop)]
pub struct Ledger<D: Device> {
    pub engine: Engine,
    pub writer: Writer<D>,
}

impl<D: Device> Ledger<D> {
    /// Lets commits share syncs from now on: each counts at once, and is on the disk when [`Ledger::sync`] has
    /// returned. No answer may go out before, which an [`Outlet`](crate::Outlet) sees to.
    #[tactic(auto, using(crate::proofs::Flushing::shared))]
    pub fn share_syncs(&mut self)
        requires ready { IsReadyFor D.seen D.may_leave
            (length self.old.engine.core.records + 1) self.old.writer }
        ensures shared { self.new ≡ record self.old { writer = record self.old.writer { is_sharing = true } } }
        ensures ready { IsReadyFor D.seen D.may_leave
            (length self.new.engine.core.records + 1) self.new.writer }
    {
        self.writer.is_sharing = true;
    }

    /// Syncs the commits that wait, all at once. Their answers may go out then.
    ///
    /// # Errors
    ///
    /// [`KeepFault::Shut`], and no commit is kept any more. Which of those that waited are on the disk is known once
    /// the file is opened again, so their answers may not go out.
    #[tactic(auto, using(crate::proofs::Said::ready_after_sync, crate::proofs::Said::says_synced))]
    pub fn sync(&mut self) -> Result<(), KeepFault>
        requires ready { IsReadyFor D.seen D.may_leave
            (length self.old.engine.core.records + 1) self.old.writer }
        ensures engine { self.new.engine ≡ self.old.engine }
        ensures none { OnOk result (entries_waiting self.new.writer.batch ≡ []) }
        ensures says { OnOk result ((before : List Entry)
            → SaysBehind D.seen before self.old.engine.core.records self.old.writer
            → SaysBehind D.seen before self.new.engine.core.records self.new.writer) }
        ensures shut { OnErr result (self.new.writer.is_shut ≡ true) }
        ensures ready { IsReadyFor D.seen D.may_leave
            (length self.new.engine.core.records + 1) self.new.writer }
        ensures moments { self.old.writer.is_shut ≡ false
            → LeavesOnly D.moment D.left_since self.old.writer.journal.device self.new.writer.journal.device
            (IsBetween self.old.writer.first (entries_of D.seen self.old.writer)
            (entries_waiting self.old.writer.batch)) }
    {
        self.writer.sync()
    }

    /// Begins a new epoch where this one is full and no transaction is open. The journal's own numbers go on. Where
    /// there is no memory, nothing has changed.
    #[tactic(auto, using(crate::proofs::Flushing::counted_anew))]
    pub fn follow_full_epoch(&mut self)
        requires ready { IsReadyFor D.seen D.may_leave
            (length self.old.engine.core.records + 1) self.old.writer }
        ensures followed { IsFollowed self.old self.new }
        ensures ready { IsReadyFor D.seen D.may_leave
            (length self.new.engine.core.records + 1) self.new.writer }
    {
        let core = self.engine.core();
        if (core.records().len() as u64) < u64::from(core.limit()) {
            return;
        }
        if self.engine.checkpoint(&[], &[]).is_ok() {
            self.writer.last = self.writer.batch.newest;
        }
    }

    /// Answers an event as [`Engine::answer`] does, but a commit counts only once it is kept: on the disk, or, where
    /// commits share syncs, among those that wait. An event that is not answered has changed nothing.
    pub fn answer(&mut self, line: &ScriptLine) -> Result<Answer, Unanswered>
        requires ready { IsReadyFor D.seen D.may_leave
            (length self.old.engine.core.records + 1) self.old.writer }
        ensures answered { IfOk result (IsAnswered self.old.engine line.now) }
        ensures after { IfOk result (λ answer. self.new.engine ≡ after self.old.engine line.now answer) }
        ensures same { OnErr result (self.new.engine ≡ self.old.engine) }
        ensures kept { IsAskedFor (DidKeep D.seen D.may_leave D.moment D.left_since) self.old.writer self.new.writer
            self.old.engine.core.records self.new.engine.core.records result }
        ensures ready { IsReadyFor D.seen D.may_leave
            (length self.new.engine.core.records + 1) self.new.writer }
        ensures says { (before : List Entry)
            → SaysBehind D.seen before self.old.engine.core.records self.old.writer
            → self.new.writer.is_shut ≡ false
            → SaysBehind D.seen before self.new.engine.core.records self.new.writer }
    {
        self.engine.answer_kept(line, &mut self.writer)
    }
}
