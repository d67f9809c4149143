//! An engine whose commits are kept in a journal before they count, where there is one.

ghost use Rattle.std.specs.Prelude.{◌≡◌, ◌≢◌, ◌+◌, None, Some, false, length, Err, IfErr, IfOk, IfSome, OnErr, OnOk};
ghost use Rattle.value.specs.declared.refusals.Refusal.TheVariants.{NoMemory};
ghost use Rattle.commit.specs.Epochs.{IsNextEpoch, is_any_open, next_start_of};
ghost use Rattle.commit.specs.Events.{without_session};
ghost use Rattle.durable.specs.Promise.{HasMoved, IsReadyFor};
ghost use Rattle.journal.specs.Device.{Only};
ghost use Rattle.journal_file.specs.Files.{file_bytes, file_may_leave};
ghost use Rattle.syntax.specs.declared.statements.Event.TheVariants.{Rollback};
ghost use Rattle.calls.specs.Keeping as spec;

use alone::Answer;
use commit::{Core, Engine, Unanswered};
use definitions::NewAssertion;
use durable::{KeepFault, OpenFault, Writer};
use journal_file::{JournalFile, Outbox};
use std::alloc::{AllocError, Global};
use std::marker::Model;
use syntax::ScriptLine;
use value::{Refusal, Text};

/// The committed transactions and the sessions with the open ones; and who writes the commits, where they are kept. It
/// waits for the next commit.
#[derive(Drop)]
pub struct KeptEngine {
    engine: Engine,
    writer: Option<Writer<JournalFile<Outbox>>>,
}

impl Model for KeptEngine {
    ghost use Rattle.table.specs.contracts.conds.Cond as cond_type;
    ghost use Rattle.table.specs.contracts.exprs.Expr as expr_type;
    ghost use Rattle.std.specs.Coded.{codes};
    ghost use Rattle.std.specs.Prelude.{length};
    ghost use Rattle.calls.specs.Keeping.{IsInStep, KeptState};

    ghost Value = { KeptState };

    ghost coded = { Prim.hlevel (codes, cond_type.the_row.coded, expr_type.the_row.coded) };

    ghost view = { λ k. record { engine = k.engine; writer = k.writer } };

    ghost invariant = { λ k. IsInStep (length k.engine.core.records) k.writer };
}

impl KeptEngine {
    /// An engine whose commits are kept in memory alone.
    pub fn alone(engine: Engine) -> KeptEngine
        ensures { result ≡ record { engine = engine; writer = None } }
    {
        KeptEngine {
            engine,
            writer: None,
        }
    }

    /// An engine whose commits are kept by this writer.
    pub fn kept_by(engine: Engine, writer: Writer<JournalFile<Outbox>>) -> KeptEngine
        requires ready { IsReadyFor file_bytes file_may_leave (length engine.core.records + 1) writer }
        ensures { result ≡ record { engine = engine; writer = Some writer } }
    {
        KeptEngine {
            engine,
            writer: Some(writer),
        }
    }

    /// The engine.
    pub fn engine(&self) -> &Engine
        ensures { result.now ≡ self.now.engine }
    {
        &self.engine
    }

    /// Whether its commits are kept in a journal.
    pub fn is_journaled(&self) -> bool
        ensures { result ≡ spec.is_journaled self.now }
    {
        self.writer.is_some()
    }

    /// The number of the last commit; of the journal, where there is one. There is none beyond 64 bits.
    pub fn commit_count(&self) -> Option<u64>
        ensures { IfSome result (λ count. count ≡ spec.commit_count self.now) }
    {
        let count = self.engine.core().records().len();
        last_of(&self.writer).checked_add(count as u64)
    }

    /// A seat for a session, as [`Engine::seat`] gives it.
    pub fn seat(&mut self, session: &Text) -> Result<(), AllocError>
        ensures { spec.IsSeated session.now result self.old self.new }
    {
        self.engine.seat(session)
    }

    /// Takes the seat of a session away, as [`Engine::unseat`] does.
    pub fn unseat(&mut self, session: &Text)
        ensures { self.new ≡ spec.with_engine self.old (without_session self.old.engine session.now) }
    {
        self.engine.unseat(session);
    }

    /// Answers an event. With a journal a commit counts only once its line waits for a sync, and an event that is not
    /// answered has changed nothing.
    pub fn answer(&mut self, line: &ScriptLine) -> Result<Answer, Unanswered>
        ensures { spec.IsHandled self.old line.now result self.new }
    {
        answer_with(&mut self.engine, &mut self.writer, line)
    }

    /// Answers a ROLLBACK, of which nothing is kept. It takes no memory.
    pub fn answer_rollback(&mut self, line: &ScriptLine) -> Answer
        requires rollback { line.now.event ≡ Rollback }
        ensures { spec.IsKeptAnswer self.old line.now result self.new }
    {
        self.engine.answer(line)
    }

    /// Begins a new epoch, as [`Engine::checkpoint`] does. The numbers of a journal go on.
    pub fn checkpoint(
        &mut self,
        dropped: &[Text],
        created: &[NewAssertion],
    ) -> Result<Core, Refusal>
        ensures before { IfOk result (λ before. before ≡ self.old.engine.core) }
        ensures closed { IfOk result (λ _. is_any_open self.old.engine.seats ≡ false) }
        ensures after { IfOk result (λ _.
            IsNextEpoch dropped.now created.now self.old.engine.core self.new.engine.core) }
        ensures seats { IfOk result (λ _. self.new.engine.seats ≡ self.old.engine.seats) }
        ensures writer { IfOk result (λ _. self.new.writer ≡ spec.counted_anew self.old.writer) }
        ensures refused { IfErr result (λ refusal. refusal ≢ NoMemory
            → next_start_of dropped.now created.now self.old.engine ≡ Err refusal) }
        ensures same { OnErr result (self.new ≡ self.old) }
    {
        checkpoint_with(&mut self.engine, &mut self.writer, dropped, created)
    }

    /// Goes on in another file, as [`Writer::move_to`] does. Without a journal nothing is done.
    ///
    /// # Errors
    ///
    /// Those of [`Writer::move_to`], and nothing has changed.
    pub fn move_to(
        &mut self,
        alloc: Global,
        device: JournalFile<Outbox>,
        bytes: &[u8],
    ) -> Result<(), OpenFault>
        requires read { bytes.now ≡ file_bytes device }
        requires on_disk { Only (file_bytes device) (file_may_leave device) }
        ensures engine { self.new.engine ≡ self.old.engine }
        ensures moved { OnOk result (spec.AreMoved bytes.now self.old.writer self.new.writer) }
        ensures same { OnErr result (self.new.writer ≡ self.old.writer) }
    {
        move_writer(&self.engine, &mut self.writer, alloc, device, bytes)
    }

    /// Puts the lines of all commits that wait among the calls on the journal's file, and one sync behind them. Without
    /// a journal nothing is done.
    ///
    /// # Errors
    ///
    /// [`KeepFault::Shut`] where there was no memory for the calls: no commit is kept any more.
    pub fn sync(&mut self) -> Result<(), KeepFault>
        ensures { spec.IsSynced self.old result self.new }
    {
        sync_writer(&self.engine, &mut self.writer)
    }

    /// The bytes of the calls on the journal's file that wait; none without a journal.
    pub fn waiting(&self) -> &[u8]
        ensures { result.now ≡ spec.waiting self.now.writer }
    {
        match &self.writer {
            None => &[],
            Some(writer) => writer.journal.device.waiting(),
        }
    }

    /// They were handed out.
    pub fn forget_waiting(&mut self)
        ensures { self.new ≡ spec.with_none_waiting self.old }
    {
        forget_waiting(&mut self.writer);
    }
}

/// Answers an event, whose commit is kept before it counts, where there is who keeps it.
fn answer_with(
    engine: &mut Engine,
    writer: &mut Option<Writer<JournalFile<Outbox>>>,
    line: &ScriptLine,
) -> Result<Answer, Unanswered>
    requires step { spec.IsInStep (length engine.old.core.records) writer.old }
    ensures step { spec.IsInStep (length engine.new.core.records) writer.new }
    ensures handled { spec.IsHandled (record { engine = engine.old; writer = writer.old }) line.now result
        (record { engine = engine.new; writer = writer.new }) }
{
    match writer {
        None => Ok(engine.answer(line)),
        Some(writer) => answer_kept_by(engine, writer, line),
    }
}

/// Answers an event, whose commit is kept before it counts.
fn answer_kept_by(
    engine: &mut Engine,
    writer: &mut Writer<JournalFile<Outbox>>,
    line: &ScriptLine,
) -> Result<Answer, Unanswered>
    requires step { spec.IsInStep (length engine.old.core.records) (Some writer.old) }
    ensures step { spec.IsInStep (length engine.new.core.records) (Some writer.new) }
    ensures handled { spec.IsHandled (record { engine = engine.old; writer = Some writer.old }) line.now result
        (record { engine = engine.new; writer = Some writer.new }) }
{
    engine.answer_kept(line, writer)
}

/// Begins a new epoch. The next commit is the first of it, and in a journal the one behind the newest.
#[tactic(auto, using(crate::proofs::Keeping::step_counted))]
fn checkpoint_with(
    engine: &mut Engine,
    writer: &mut Option<Writer<JournalFile<Outbox>>>,
    dropped: &[Text],
    created: &[NewAssertion],
) -> Result<Core, Refusal>
    requires step { spec.IsInStep (length engine.old.core.records) writer.old }
    ensures step { spec.IsInStep (length engine.new.core.records) writer.new }
    ensures before { IfOk result (λ before. before ≡ engine.old.core) }
    ensures closed { IfOk result (λ _. is_any_open engine.old.seats ≡ false) }
    ensures after { IfOk result (λ _. IsNextEpoch dropped.now created.now engine.old.core engine.new.core) }
    ensures seats { IfOk result (λ _. engine.new.seats ≡ engine.old.seats) }
    ensures writer { IfOk result (λ _. writer.new ≡ spec.counted_anew writer.old) }
    ensures refused { IfErr result (λ refusal. refusal ≢ NoMemory
        → next_start_of dropped.now created.now engine.old ≡ Err refusal) }
    ensures same { OnErr result (engine.new ≡ engine.old) }
    ensures same_writer { OnErr result (writer.new ≡ writer.old) }
{
    let result = engine.checkpoint(dropped, created);
    if result.is_ok() {
        count_anew(writer);
    }
    result
}

/// Counts commits from the newest on, if there is a journal.
fn count_anew(writer: &mut Option<Writer<JournalFile<Outbox>>>)
    ensures { writer.new ≡ spec.counted_anew writer.old }
{
    match writer {
        None => {}
        Some(writer) => writer.last = writer.batch.newest,
    }
}

/// Goes on in another file, if there is a journal. It is in step with this engine.
fn move_writer(
    engine: &Engine,
    writer: &mut Option<Writer<JournalFile<Outbox>>>,
    alloc: Global,
    device: JournalFile<Outbox>,
    bytes: &[u8],
) -> Result<(), OpenFault>
    requires read { bytes.now ≡ file_bytes device }
    requires on_disk { Only (file_bytes device) (file_may_leave device) }
    requires step { spec.IsInStep (length engine.now.core.records) writer.old }
    ensures step { spec.IsInStep (length engine.now.core.records) writer.new }
    ensures moved { OnOk result (spec.AreMoved bytes.now writer.old writer.new) }
    ensures same { OnErr result (writer.new ≡ writer.old) }
{
    match writer {
        None => {
            drop(device);
            Ok(())
        }
        Some(writer) => move_kept_by(engine, writer, alloc, device, bytes),
    }
}

/// The same where there is one.
fn move_kept_by(
    _engine: &Engine,
    writer: &mut Writer<JournalFile<Outbox>>,
    alloc: Global,
    device: JournalFile<Outbox>,
    bytes: &[u8],
) -> Result<(), OpenFault>
    requires read { bytes.now ≡ file_bytes device }
    requires on_disk { Only (file_bytes device) (file_may_leave device) }
    requires step { spec.IsInStep (length _engine.now.core.records) (Some writer.old) }
    ensures step { spec.IsInStep (length _engine.now.core.records) (Some writer.new) }
    ensures moved { OnOk result (HasMoved file_bytes bytes.now writer.old writer.new) }
    ensures same { OnErr result (writer.new ≡ writer.old) }
{
    writer.move_to(alloc, device, bytes)
}

/// Puts what waits among the calls on the file, if there is a journal. It is in step with this engine.
#[tactic(auto, using(durable::proofs::Said::ready_after_sync))]
fn sync_writer(
    _engine: &Engine,
    writer: &mut Option<Writer<JournalFile<Outbox>>>,
) -> Result<(), KeepFault>
    requires step { spec.IsInStep (length _engine.now.core.records) writer.old }
    ensures step { spec.IsInStep (length _engine.now.core.records) writer.new }
    ensures written { OnOk result (spec.AreWritten writer.old writer.new) }
    ensures shut { OnErr result (spec.IsShut writer.new) }
{
    match writer {
        None => Ok(()),
        Some(writer) => writer.sync(),
    }
}

/// The number of the last entry that a journal had when it was opened; 0 without one.
fn last_of(writer: &Option<Writer<JournalFile<Outbox>>>) -> u64
    ensures { result ≡ spec.last_of writer.now }
{
    match writer {
        None => 0,
        Some(writer) => writer.last,
    }
}

/// Forgets the calls that wait, if there is a journal.
fn forget_waiting(writer: &mut Option<Writer<JournalFile<Outbox>>>)
    ensures { writer.new ≡ spec.writer_with_none_waiting writer.old }
{
    match writer {
        None => {}
        Some(writer) => writer.journal.device.forget_waiting(),
    }
}
