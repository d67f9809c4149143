//! Who writes commits into a journal.

ghost use Rattle.std.specs.Prelude.{◌≡◌, ◌≢◌, ◌<◌, ◌≤◌, ◌+◌, ◌^◌, ◌++◌, [], true, false, length, IfErr, OnErr, OnOk};
ghost use Rattle.journal.specs.Device.{LeavesOnly};
ghost use Rattle.journal.specs.Fitting.{AreNext};
ghost use Rattle.journal.specs.Journals.{Holds, IsBetween, Told};
ghost use Rattle.journal.specs.Spelling.{lines as spelled};
ghost use Rattle.durable.specs.declared.faults.KeepFault.TheVariants.{Shut};
ghost use Rattle.durable.specs.Batches.{entries_behind, entries_waiting, entry_behind, none_behind};
ghost use Rattle.durable.specs.Promise.{DidKeep, HasFlushed, HasKept, IsInOrder, IsOpenAt, IsReadyFor, IsSame, LeavesAtMost, entries_in, entries_of};

use crate::batches::Batch;
use crate::faults::KeepFault;
use commit::Keeper;
use journal::{Device, DeviceFault, Journal};
use std::alloc::Global;
use table::Change;

/// So many zeros are put behind the file at once, so that most commits need no more than one sync.
const ROOM: usize = 1 << 20;

/// The longest file, in bytes.
const LONGEST: usize = 1 << 62;

/// Who writes commits into a journal.
#[derive(Drop)]
pub struct Writer<D: Device> {
    /// The journal.
    pub journal: Journal<D>,
    /// The number of its first entry, the image.
    pub first: u64,
    /// The number of the last entry that it had when it was opened: the commit of number 1 comes behind it.
    pub last: u64,
    /// Whether the disk has failed since the file was opened.
    pub is_shut: bool,
    /// Whether commits wait for a sync that serves several. Else each is synced by itself, before it counts.
    pub is_sharing: bool,
    /// Those that wait.
    pub batch: Batch,
}

impl<D: Device> Writer<D> {
    /// Who writes behind what a journal says, the first and the last entry of which have these numbers. Each commit is
    /// synced by itself.
    pub fn new(alloc: Global, journal: Journal<D>, first: u64, last: u64) -> Writer<D>
        ensures journal { result.journal ≡ journal }
        ensures first { result.first ≡ first }
        ensures last { result.last ≡ last }
        ensures still_open { result.is_shut ≡ false }
        ensures alone { result.is_sharing ≡ false }
        ensures none { result.batch ≡ none_behind last }
    {
        Writer {
            journal,
            first,
            last,
            is_shut: false,
            is_sharing: false,
            batch: Batch::new(alloc, last),
        }
    }

    /// Gives the file back.
    pub fn into_device(self) -> D
        ensures { result ≡ self.journal.device }
    {
        let Writer {
            journal,
            first: _,
            last: _,
            is_shut: _,
            is_sharing: _,
            batch: _,
        } = self;
        let Journal {
            device,
            end: _,
            room: _,
        } = journal;
        device
    }

    /// Writes the lines that wait, and syncs once.
    #[tactic(auto, using(crate::proofs::Flushing::flushed))]
    fn flush(&mut self) -> Result<(), KeepFault>
        requires ready { IsInOrder D.seen D.may_leave self.old }
        ensures flushed { OnOk result (HasFlushed D.seen D.may_leave self.old self.new) }
        ensures first { self.new.first ≡ self.old.first }
        ensures last { self.new.last ≡ self.old.last }
        ensures still { self.new.is_shut ≡ self.old.is_shut }
        ensures sharing { self.new.is_sharing ≡ self.old.is_sharing }
        ensures moments { LeavesOnly D.moment D.left_since self.old.journal.device self.new.journal.device
            (IsBetween self.old.first (entries_of D.seen self.old) (entries_waiting self.old.batch)) }
    {
        if self.journal.end >= LONGEST || self.journal.room >= LONGEST {
            return Err(KeepFault::Unfit);
        }
        let lines = self.batch.lines.as_slice();
        append_lines(&mut self.journal, lines, self.first, self.batch.durable)?;
        self.batch.settle();
        Ok(())
    }

    /// Syncs what waits: from then on it is on the disk. Where nothing waits, nothing is done.
    ///
    /// # Errors
    ///
    /// [`KeepFault::Shut`]: which of the commits that waited are on the disk is known once the file is opened again.
    #[tactic(auto, using(crate::proofs::Flushing::none_to_flush))]
    pub fn sync(&mut self) -> Result<(), KeepFault>
        requires ready { self.old.is_shut ≡ false → IsInOrder D.seen D.may_leave self.old }
        ensures synced { OnOk result (HasFlushed D.seen D.may_leave self.old self.new) }
        ensures was_open { OnOk result (self.old.is_shut ≡ false) }
        ensures open { OnOk result (self.new.is_shut ≡ false) }
        ensures shut { OnErr result (self.new.is_shut ≡ true) }
        ensures shut_for { IfErr result (λ fault. fault ≡ Shut) }
        ensures first { self.new.first ≡ self.old.first }
        ensures last { self.new.last ≡ self.old.last }
        ensures sharing { self.new.is_sharing ≡ self.old.is_sharing }
        ensures moments { self.old.is_shut ≡ false
            → LeavesOnly D.moment D.left_since self.old.journal.device self.new.journal.device
            (IsBetween self.old.first (entries_of D.seen self.old) (entries_waiting self.old.batch)) }
    {
        if self.is_shut {
            return Err(KeepFault::Shut);
        }
        if self.batch.lines.is_empty() {
            return Ok(());
        }
        match self.flush() {
            Ok(()) => Ok(()),
            Err(_) => {
                self.is_shut = true;
                Err(KeepFault::Shut)
            }
        }
    }

    /// Adds a commit to those that wait, or, where none may wait, writes its line and syncs. Where the disk has failed,
    /// the answer is `Shut`.
    #[tactic(auto, using(crate::proofs::Flushing::in_order_added, crate::proofs::Flushing::untouched, crate::proofs::Flushing::flushed_more, crate::proofs::Flushing::kept_waiting, crate::proofs::Flushing::kept_at_once))]
    fn write(&mut self, number: u64, changes: &[Change]) -> Result<(), KeepFault>
        requires is_open { self.old.is_shut ≡ false }
        requires ready { IsOpenAt D.seen D.may_leave number self.old }
        ensures kept { OnOk result (HasKept D.seen D.may_leave D.moment D.left_since self.old self.new number
            changes.now) }
        ensures first { self.new.first ≡ self.old.first }
        ensures last { self.new.last ≡ self.old.last }
        ensures still { self.new.is_shut ≡ self.old.is_shut }
        ensures sharing { self.new.is_sharing ≡ self.old.is_sharing }
        ensures same { IfErr result (λ fault. fault ≢ Shut → IsSame self.old self.new) }
        ensures moments { LeavesAtMost D.seen D.may_leave D.moment D.left_since self.old self.new
            (entry_behind self.old.batch changes.now) }
    {
        self.batch.add(changes)?;
        if self.is_sharing {
            return Ok(());
        }
        match self.flush() {
            Ok(()) => Ok(()),
            Err(_) => Err(KeepFault::Shut),
        }
    }
}

impl<D: Device> Keeper for Writer<D> {
    ghost expects = { λ w number. IsReadyFor D.seen D.may_leave number w };

    ghost did_keep = { λ old new number changes kept.
        DidKeep D.seen D.may_leave D.moment D.left_since old new number changes kept };

    ghost use Rattle.durable.specs.Writing.{ready_again};

    ghost goes_on = { λ old new number changes kept expected did.
        ready_again D.seen D.may_leave D.moment D.left_since old new number changes kept expected did };

    fn keep(&mut self, number: u64, changes: &[Change]) -> bool {
        if self.is_shut {
            return false;
        }
        match self.write(number, changes) {
            Ok(()) => true,
            Err(fault) => {
                self.is_shut = fault == KeepFault::Shut;
                false
            }
        }
    }
}

/// Appends lines behind zeros that are on the disk, of which it first makes more where there are too few. By the
/// numbers of the first and of the last entry on the disk a call picks what it is told of.
fn append_lines<D: Device>(
    journal: &mut Journal<D>,
    lines: &[u8],
    first: u64,
    durable: u64,
) -> Result<(), DeviceFault>
    requires settled { Holds D.seen D.may_leave first (entries_in first (D.seen journal.old.device)) journal.old }
    requires next { AreNext (first + length (entries_in first (D.seen journal.old.device)))
        (entries_behind durable lines.now) }
    requires lines { lines.now ≡ spelled (entries_behind durable lines.now) }
    requires small { length lines.now + 2 ^ 20 < 2 ^ 62 }
    requires short { journal.old.end < 2 ^ 62 }
    requires roomy { journal.old.room < 2 ^ 62 }
    ensures acknowledged { OnOk result
        (Holds D.seen D.may_leave first
        (entries_in first (D.seen journal.old.device) ++ entries_behind durable lines.now) journal.new) }
    ensures any_moment { LeavesOnly D.moment D.left_since journal.old.device journal.new.device
        (IsBetween first (entries_in first (D.seen journal.old.device)) (entries_behind durable lines.now)) }
{
    if lines.len() >= journal.room {
        put_room(journal, lines.len() + ROOM, first)?;
    }
    put_lines(journal, lines, first, durable)
}

/// Puts zeros behind a journal whose first entry has this number, by which a call picks what it is told of.
fn put_room<D: Device>(
    journal: &mut Journal<D>,
    count: usize,
    _first: u64,
) -> Result<(), DeviceFault>
    ghost told: { Told }
    requires settled { Holds D.seen D.may_leave told.first told.entries journal.old }
    requires fits { journal.old.room + count < 2 ^ 63 }
    ensures roomy { OnOk result (Holds D.seen D.may_leave told.first told.entries journal.new) }
    ensures more { OnOk result (journal.new.room ≡ journal.old.room + count) }
    ensures end { OnOk result (journal.new.end ≡ journal.old.end) }
    ensures any_moment { LeavesOnly D.moment D.left_since journal.old.device journal.new.device
        (IsBetween told.first told.entries []) }
{
    journal.make_room(count)
}

/// Appends lines, by whose numbers a call picks what it is told of.
fn put_lines<D: Device>(
    journal: &mut Journal<D>,
    lines: &[u8],
    _first: u64,
    _durable: u64,
) -> Result<(), DeviceFault>
    ghost told: { Told }
    requires settled { Holds D.seen D.may_leave told.first told.entries journal.old }
    requires fits { length lines.now < journal.old.room }
    requires small { journal.old.end + length lines.now < 2 ^ 63 }
    requires line { lines.now ≡ spelled told.batch }
    requires next { AreNext (told.first + length told.entries) told.batch }
    ensures acknowledged { OnOk result
        (Holds D.seen D.may_leave told.first (told.entries ++ told.batch) journal.new) }
    ensures any_moment { LeavesOnly D.moment D.left_since journal.old.device journal.new.device
        (IsBetween told.first told.entries told.batch) }
{
    journal.append(lines)
}
