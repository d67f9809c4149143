//! Epochs: assertions change while the tables stay, and what was kept of the commits is handed out.

ghost use Rattle.std.specs.Prelude.{◌≡◌, ◌≢◌, ◌≤◌, IfOk, IfErr, OnErr, Ok, Err, None};
ghost use Rattle.value.specs.declared.refusals.Refusal.TheVariants.{NoMemory};
ghost use Rattle.alone.specs.Alone.{IsSound};
ghost use Rattle.delta.specs.Views.{ViewState};
ghost use Rattle.definitions.specs.Redeclaration.{AreCreated, without_names};
ghost use Rattle.commit.specs.Cores.{newest_tables};
ghost use Rattle.commit.specs.Epochs.{AreOutcomes, IsEnd, IsNextEpoch, IsOneMore, next_start, tables_left};

use crate::admission::require_satisfied;
use crate::cores::Core;
use crate::engine::{Outcome, run};
use definitions::{NewAssertion, redeclare};
use delta::View;
use sqlite_items::Items;
use std::alloc::Global;
use std::mem;
use syntax::ScriptLine;
use value::{Refusal, Text};

/// How the assertions change when an epoch begins, and the events in it.
#[derive(Drop)]
pub struct Epoch {
    /// The names of the assertions that are dropped.
    pub dropped: Vec<Text>,
    /// The assertions that are then created.
    pub created: Vec<NewAssertion>,
    pub lines: Items<ScriptLine>,
}

/// What epochs led to, one after the other, and why the next did not begin, if they ended early.
#[derive(Drop)]
pub struct Epochs {
    pub outcomes: Vec<Outcome>,
    pub refused: Option<Refusal>,
}

/// The same tables without the assertions of some names and with new ones, on which every assertion is satisfied.
///
/// # Errors
///
/// What `definitions::redeclare` answers; then [`Refusal::FalseAtCreation`] with the first assertion that is false on
/// the tables, and the least root at which it is. Or [`Refusal::NoMemory`].
pub fn readmit(
    alloc: Global,
    view: &View,
    dropped: &[Text],
    created: &[NewAssertion],
) -> Result<View, Refusal>
    ensures readmitted { IfOk result (λ next. next_start dropped.now created.now view.now ≡ Ok next) }
    ensures sound { IfOk result (λ next. IsSound next.declared next.state) }
    ensures written { IfOk result (λ next. (left : ViewState) → without_names dropped.now view.now ≡ Ok left
        → AreCreated left created.now next) }
    ensures refused { IfErr result (λ refusal. refusal ≢ NoMemory
        → next_start dropped.now created.now view.now ≡ Err refusal) }
{
    let redeclared = redeclare(alloc, view, dropped, created)?;
    let next = require_satisfied(redeclared)?;
    Ok(next)
}

impl Core {
    /// Begins a new epoch on the newest tables: the assertions of some names are dropped, new ones are created, and
    /// there is no commit yet. What the epoch before left is handed out: who drops it gives its memory back. Open
    /// transactions are those of the core that is handed out.
    ///
    /// # Errors
    ///
    /// Those of [`readmit`]. Nothing has changed then.
    pub fn checkpoint(
        &mut self,
        dropped: &[Text],
        created: &[NewAssertion],
    ) -> Result<Core, Refusal>
        requires idle { self.old.prepared ≡ None }
        ensures before { IfOk result (λ before. before ≡ self.old) }
        ensures after { IfOk result (λ _. IsNextEpoch dropped.now created.now self.old self.new) }
        ensures refused { IfErr result (λ refusal. refusal ≢ NoMemory
            → next_start dropped.now created.now (newest_tables self.old) ≡ Err refusal) }
        ensures same { OnErr result (self.new ≡ self.old) }
    {
        let next = self.next(dropped, created)?;
        Ok(mem::replace(self, next))
    }

    /// The core with which the next epoch begins.
    fn next(&self, dropped: &[Text], created: &[NewAssertion]) -> Result<Core, Refusal>
        ensures next { IfOk result (IsNextEpoch dropped.now created.now self.now) }
        ensures refused { IfErr result (λ refusal. refusal ≢ NoMemory
            → next_start dropped.now created.now (newest_tables self.now) ≡ Err refusal) }
    {
        let alloc = self.allocator();
        let start = readmit(alloc, self.newest(), dropped, created)?;
        Ok(Core::new(alloc, self.limit(), start)?)
    }
}

/// Epochs one after the other, each with at most so many commits. The first begins with
/// these tables, and each other with those that the one before it left; the assertions change first. They end at the
/// first whose assertions are refused, for what [`readmit`] answers, or where there is no memory: with
/// [`Refusal::NoMemory`], behind the answers that were found room for.
pub fn run_epochs(alloc: Global, limit: u32, loaded: &View, epochs: &[Epoch]) -> Epochs
    ensures outcomes { AreOutcomes limit loaded.now epochs.now result.outcomes.items }
    ensures end { IsEnd loaded.now epochs.now result.outcomes.items result.refused }
{
    let mut outcomes = Vec::new(alloc);
    for epoch in epochs {
        match run_next(alloc, limit, loaded, epoch, &mut outcomes) {
            Ok(true) => {}
            Ok(false) => return end_early(outcomes, Refusal::NoMemory),
            Err(refusal) => return end_early(outcomes, refusal),
        }
    }
    Epochs {
        outcomes,
        refused: None,
    }
}

/// These epochs, behind which the next does not begin.
fn end_early(outcomes: Vec<Outcome>, refusal: Refusal) -> Epochs
    ensures { result ≡ record { outcomes = outcomes; refused = Some refusal } }
{
    Epochs {
        outcomes,
        refused: Some(refusal),
    }
}

/// One epoch more; whether each of its events was answered.
fn run_next(
    alloc: Global,
    limit: u32,
    loaded: &View,
    epoch: &Epoch,
    outcomes: &mut Vec<Outcome>,
) -> Result<bool, Refusal>
    ensures more { IfOk result (IsOneMore limit loaded.now epoch.now outcomes.old.items outcomes.new.items) }
    ensures same { OnErr result (outcomes.new.items ≡ outcomes.old.items) }
    ensures refused { IfErr result (λ refusal. refusal ≢ NoMemory
        → next_start epoch.now.dropped.items epoch.now.created.items (tables_left loaded.now outcomes.old.items)
        ≡ Err refusal) }
{
    let before = tables_left(loaded, outcomes.as_slice());
    let start = readmit(alloc, before, &epoch.dropped, &epoch.created)?;
    outcomes.reserve(1)?;
    let outcome = run(alloc, limit, start, epoch.lines.as_slice())?;
    let is_whole = outcome.answers.len() == epoch.lines.len();
    outcomes.push_reserved(outcome);
    Ok(is_whole)
}

/// The tables that the last of these epochs left.
fn tables_left<'a>(loaded: &'a View, outcomes: &'a [Outcome]) -> &'a View
    ensures { result.now ≡ tables_left loaded.now outcomes.now }
{
    match outcomes.last() {
        Some(outcome) => outcome.engine.core().newest(),
        None => loaded,
    }
}
