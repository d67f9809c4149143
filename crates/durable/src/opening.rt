//! A ledger on what a crash may have left.

ghost use Rattle.std.specs.Prelude.{◌≡◌, ◌≤◌, ◌+◌, ℕ, [], false, length, IfErr, IfOk, OnErr, OnOk, Some};
ghost use Rattle.journal.specs.Device.{LeavesOnly, Only};
ghost use Rattle.journal.specs.Journals.{Holds, IsBetween, Says, Told};
ghost use Rattle.journal.specs.Recovery.{said};
ghost use Rattle.journal.specs.Tails.{fed, lines_of, zeros};
ghost use Rattle.alone.specs.Alone.{IsSound};
ghost use Rattle.durable.specs.Faults.{IsOfDevice};
ghost use Rattle.durable.specs.Opening.{HasNoNext, IsBegunOn, IsDamage, IsRestored, IsUnopened, IsUnrestored, blank_of};
ghost use Rattle.durable.specs.Batches.{entries_waiting};
ghost use Rattle.durable.specs.Promise.{HasMoved, IsReadyFor, entries_in, entries_of};

use crate::faults::OpenFault;
use crate::ledgers::Ledger;
use crate::restoring::restore;
use crate::writers::Writer;
use commit::{Engine, require_satisfied};
use delta::{View, copy_assertions, copy_catalog};
use journal::{Device, DeviceFault, Journal, Recovered, recover};
use std::alloc::{AllocError, Global};

/// The tables without their rows, under the same assertions. Rows that are put in are found by the same indexes.
#[tactic(auto, using(crate::proofs::Blank::blank_tables))]
fn without_rows(alloc: Global, view: &View) -> Result<View, AllocError>
    ensures { IfOk result (λ blank. blank ≡ blank_of view.now) }
{
    let catalog = copy_catalog(alloc, view.catalog())?;
    let assertions = copy_assertions(alloc, view.assertions())?;
    let mut rows = Vec::new(alloc);
    for table in 0..view.catalog().len() {
        rows.push(view.rows(table).emptied(alloc)?)?;
    }
    View::load(alloc, catalog, assertions, rows.as_slice())
}

/// The committed tables that a journal says, under the assertions of these, each of which is satisfied on them.
///
/// # Errors
///
/// [`OpenFault::NotDue`] where a commit is none of these tables, [`OpenFault::False`] where an assertion is false on
/// them, or [`OpenFault::NoMemory`].
#[tactic(auto, using(crate::proofs::Refused::by_restoring, crate::proofs::Refused::by_assertions))]
pub fn restore_tables(alloc: Global, declared: &View, found: &Recovered) -> Result<View, OpenFault>
    ensures restored { IfOk result (λ view. IsRestored declared.now found.now.entries.items view) }
    ensures sound { IfOk result (λ view. IsSound view.declared view.state) }
    ensures refused { IfErr result (IsUnrestored declared.now found.now.entries.items) }
{
    let restored = restore(without_rows(alloc, declared)?, found.entries.as_slice())?;
    let view = require_satisfied(restored)?;
    Ok(view)
}

/// The number of the last of so many entries, of which the first has this one: there is an image at least.
fn last_number(first: u64, count: usize) -> Result<u64, OpenFault>
    ensures number { IfOk result (λ last. first + count ≡ last + 1) }
    ensures refused { OnErr result (HasNoNext first count) }
    ensures damage { IfErr result IsDamage }
{
    match first.checked_add(count as u64) {
        Some(next) if count > 0 => Ok(next - 1),
        _ => Err(OpenFault::Damaged {
            number: first,
            at: 0,
        }),
    }
}

impl<D: Device + Drop> Ledger<D> {
    /// Opens the journal in a file, which a crash may have left: its first entry, the image, has this number, and the
    /// tables are those of these definitions, whose rows the image has in their place. The engine begins on the tables
    /// after the last commit, with at most so many commits more. What a crash tore behind it is written over with
    /// zeros.
    ///
    /// # Errors
    ///
    /// [`OpenFault::Damaged`] where no crash left the file so; [`OpenFault::NotDue`] where a commit is none of these
    /// tables; [`OpenFault::False`] where an assertion is false on what the journal says; [`OpenFault::Disk`] where the
    /// disk failed; or [`OpenFault::NoMemory`]. The file says what it said.
    #[tactic(auto, using(crate::proofs::Waiting::none_waiting, crate::proofs::Refused::by_recovery, crate::proofs::Refused::by_tables, crate::proofs::Refused::by_number, crate::proofs::Refused::by_device, crate::proofs::Refused::by_memory))]
    pub fn open(
        alloc: Global,
        device: D,
        bytes: &[u8],
        first: u64,
        declared: &View,
        limit: u32,
    ) -> Result<Ledger<D>, OpenFault>
        requires read { bytes.now ≡ D.seen device }
        requires on_disk { Only (D.seen device) (D.may_leave device) }
        ensures ready { IfOk result (λ ledger.
            IsReadyFor D.seen D.may_leave 1 ledger.writer) }
        ensures begun { IfOk result (λ ledger.
            IsBegunOn declared.now (entries_in first bytes.now) limit ledger.engine) }
        ensures said { IfOk result (λ ledger. (ledger.writer.is_shut ≡ false)
            × (entries_of D.seen ledger.writer ≡ entries_in first bytes.now)) }
        ensures alone { IfOk result (λ ledger. (ledger.writer.is_sharing ≡ false)
            × (entries_waiting ledger.writer.batch ≡ [])) }
        ensures refused { IfErr result (IsUnopened declared.now first (said first bytes.now)) }
    {
        let found = recover(alloc, first, bytes)?;
        let view = restore_tables(alloc, declared, &found)?;
        let last = last_number(first, found.entries.len())?;
        let journal = take_up(alloc, device, bytes, found.end, first)?;
        Ok(Ledger {
            engine: Engine::new(alloc, limit, view, &[])?,
            writer: Writer::new(alloc, journal, first, last),
        })
    }

    /// Goes on in another file, as [`Writer::move_to`] does.
    ///
    /// # Errors
    ///
    /// Those of [`Writer::move_to`]. The ledger goes on in its own file then.
    pub fn move_to(&mut self, alloc: Global, device: D, bytes: &[u8]) -> Result<(), OpenFault>
        requires read { bytes.now ≡ D.seen device }
        requires on_disk { Only (D.seen device) (D.may_leave device) }
        requires ready { IsReadyFor D.seen D.may_leave
            (length self.old.engine.core.records + 1) self.old.writer }
        ensures engine { self.new.engine ≡ self.old.engine }
        ensures moved { OnOk result (HasMoved D.seen bytes.now self.old.writer self.new.writer) }
        ensures same { OnErr result (self.new ≡ self.old) }
        ensures ready { IsReadyFor D.seen D.may_leave
            (length self.new.engine.core.records + 1) self.new.writer }
    {
        self.writer.move_to(alloc, device, bytes)
    }
}

impl<D: Device + Drop> Writer<D> {
    /// Goes on in another file, which has an image of the committed tables under the number of the last commit, and no
    /// commit behind it.
    ///
    /// # Errors
    ///
    /// [`OpenFault::Damaged`] where the file says anything else than one entry of that number, or commits wait for a
    /// sync; [`OpenFault::Disk`] and [`OpenFault::NoMemory`]. The writer goes on in its own file then.
    #[tactic(auto, using(crate::proofs::Flushing::moved))]
    pub fn move_to(&mut self, alloc: Global, device: D, bytes: &[u8]) -> Result<(), OpenFault>
        requires read { bytes.now ≡ D.seen device }
        requires on_disk { Only (D.seen device) (D.may_leave device) }
        ensures moved { OnOk result (HasMoved D.seen bytes.now self.old self.new) }
        ensures same { OnErr result (self.new ≡ self.old) }
        ensures ready { (number : ℕ) → IsReadyFor D.seen D.may_leave number self.old
            → IsReadyFor D.seen D.may_leave number self.new }
    {
        let first = self.batch.newest;
        let found = recover(alloc, first, bytes)?;
        if found.entries.len() != 1 || !self.batch.lines.is_empty() {
            return Err(OpenFault::Damaged {
                number: first,
                at: 0,
            });
        }
        self.journal = take_up(alloc, device, bytes, found.end, first)?;
        self.first = first;
        Ok(())
    }
}

/// The journal of a file whose lines end there, and behind them zeros.
#[tactic(auto, using(crate::proofs::Refused::of_device_is))]
fn take_up<D: Device + Drop>(
    alloc: Global,
    device: D,
    bytes: &[u8],
    end: usize,
    first: u64,
) -> Result<Journal<D>, OpenFault>
    requires read { bytes.now ≡ D.seen device }
    requires on_disk { Only (D.seen device) (D.may_leave device) }
    requires said { said first bytes.now ≡ Some (entries_in first bytes.now) }
    requires end { end ≡ length (fed (lines_of bytes.now)) }
    ensures holds { IfOk result (Holds D.seen D.may_leave first (entries_in first bytes.now)) }
    ensures failed { IfErr result IsOfDevice }
{
    let mut journal = reopen_at(device, bytes, end, first);
    let blank = Vec::from_elem(alloc, 0u8, journal.room)?;
    repair(&mut journal, blank.as_slice(), first)?;
    Ok(journal)
}

/// The journal that is opened again, whose first entry has this number, by which a call picks what it is told of.
fn reopen_at<D: Device>(device: D, bytes: &[u8], end: usize, _first: u64) -> Journal<D>
    ghost told: { Told }
    requires read { bytes.now ≡ D.seen device }
    requires durable { Only (D.seen device) (D.may_leave device) }
    requires said { said told.first bytes.now ≡ Some told.entries }
    requires end { end ≡ length (fed (lines_of bytes.now)) }
    ensures { Says D.seen D.may_leave told.first told.entries result }
{
    Journal::reopen(device, bytes, end)
}

/// Writes zeros behind the lines of a journal whose first entry has this number, by which a call picks what it is told
/// of.
fn repair<D: Device>(journal: &mut Journal<D>, blank: &[u8], _first: u64) -> Result<(), DeviceFault>
    ghost told: { Told }
    requires says { Says D.seen D.may_leave told.first told.entries journal.old }
    requires blank { blank.now ≡ zeros journal.old.room }
    ensures settled { OnOk result (Holds D.seen D.may_leave told.first told.entries journal.new) }
    ensures any_moment { LeavesOnly D.moment D.left_since journal.old.device journal.new.device
        (IsBetween told.first told.entries []) }
{
    journal.repair(blank)
}
