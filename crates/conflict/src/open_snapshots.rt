//! The snapshots of open transactions.

ghost use Rattle.std.specs.Prelude.{◌≡◌, ◌≢◌, false, true, Contains, IfErr, OnErr, OnOk};
ghost use Rattle.value.specs.declared.refusals.Refusal.TheVariants.{EpochFull, NoMemory};
ghost use Rattle.conflict.specs.Held.{is_held};
ghost use Rattle.conflict.specs.Live.{has_begin_number, least_with, least_writing, may_another_ask, none_live, with_begin, without, writers_hold};

use std::alloc::Global;
use std::marker::Model;
use value::Refusal;

/// An open transaction: its begin number, how many commits its snapshot holds, and whether it is read only.
#[derive(Clone, Copy, Debug, PartialEq, Eq)]
pub struct LiveSnapshot {
    pub begin_number: u64,
    pub snapshot: u64,
    pub read_only: bool,
}

/// The open transactions, in the order of their begins.
#[derive(Drop)]
pub struct Live {
    begun: u64,
    snapshots: Vec<LiveSnapshot>,
}

impl Model for Live {
    ghost use Rattle.conflict.specs.Live.{LiveState, AreBelow};

    ghost Value = { LiveState };

    ghost view = { λ live. record { begun = live.begun; snapshots = live.snapshots.items } };

    ghost invariant = { λ live. AreBelow live.begun live.snapshots.items };
}

impl Live {
    /// No transaction yet. It takes no memory.
    pub fn new(alloc: Global) -> Live
        ensures { result ≡ none_live }
    {
        Live {
            begun: 0,
            snapshots: Vec::new(alloc),
        }
    }

    /// The begin number of the next transaction: how many have begun. It takes no memory.
    pub fn next_begin_number(&self) -> u64
        ensures { result ≡ self.now.begun }
    {
        self.begun
    }

    /// The next transaction begins, with a snapshot that holds so many commits, read only or not.
    ///
    /// # Errors
    ///
    /// [`Refusal::EpochFull`] where 2^64 - 1 transactions have begun; or [`Refusal::NoMemory`]. All is then as it was.
    pub fn begin(&mut self, snapshot: u64, read_only: bool) -> Result<(), Refusal>
        ensures begun { OnOk result (self.new ≡ with_begin snapshot read_only self.old) }
        ensures room { OnOk result (has_begin_number self.old ≡ true) }
        ensures refused { IfErr result (λ refusal. refusal ≢ NoMemory
            → (refusal ≡ EpochFull) × (has_begin_number self.old ≡ false)) }
        ensures same { OnErr result (self.new ≡ self.old) }
    {
        let begin_number = self.begun;
        let Some(begun) = begin_number.checked_add(1) else {
            return Err(Refusal::EpochFull);
        };
        self.snapshots.push(LiveSnapshot {
            begin_number,
            snapshot,
            read_only,
        })?;
        self.begun = begun;
        Ok(())
    }

    /// The transaction with a begin number has ended. It takes no memory.
    pub fn end(&mut self, begin_number: u64)
        ensures { self.new ≡ without begin_number self.old }
    {
        self.snapshots
            .retain(|live| live.begin_number != begin_number);
    }

    /// Whether the transaction with a begin number is open, holds this snapshot, and is read only or not as is said. It
    /// takes no memory.
    pub fn holds(&self, begin_number: u64, snapshot: u64, read_only: bool) -> bool
        ensures test { result ≡ is_held begin_number snapshot read_only self.now.snapshots }
        ensures held { result ≡ true → Contains self.now.snapshots
            (record { begin_number = begin_number; snapshot = snapshot; read_only = read_only }) }
    {
        is_held(self.snapshots.as_slice(), begin_number, snapshot, read_only)
    }

    /// The least number of commits that the snapshot of an open transaction that may write holds, or this one where
    /// that is less. It takes no memory.
    pub fn least_writing(&self, newest: u64) -> u64
        ensures { result ≡ least_writing newest self.now.snapshots }
    {
        let mut least = newest;
        for live in &self.snapshots {
            least = least_with(live, least);
        }
        least
    }

    /// Whether each open transaction that may write has a snapshot that holds at least so many commits. It takes no
    /// memory.
    pub fn writers_hold(&self, snapshot: u64) -> bool
        ensures { result ≡ writers_hold snapshot self.now.snapshots }
    {
        self.snapshots
            .iter()
            .all(|live| live.read_only || snapshot <= live.snapshot)
    }

    /// Whether another open transaction than that with a begin number, one that may write, has a snapshot that holds
    /// fewer commits than `reach` says: it may ask for what a commit that reaches so far has read. It takes no memory.
    pub fn may_another_ask(&self, begin_number: u64, reach: u64) -> bool
        ensures { result ≡ may_another_ask begin_number reach self.now.snapshots }
    {
        self.snapshots.iter().any(|live| {
            live.begin_number != begin_number && (!live.read_only && live.snapshot < reach)
        })
    }
}

/// The lesser of a number and what the transaction's snapshot holds, if that one may write.
fn least_with(live: &LiveSnapshot, least: u64) -> u64
    ensures { result ≡ least_with live.now least }
{
    if live.read_only {
        least
    } else {
        live.snapshot.min(least)
    }
}

#[tactic(auto, using(crate::proofs::Holding::held_facts))]
fn is_held(snapshots: &[LiveSnapshot], begin_number: u64, snapshot: u64, read_only: bool) -> bool
    ensures test { result ≡ is_held begin_number snapshot read_only snapshots.now }
    ensures held { result ≡ true → Contains snapshots.now
        (record { begin_number = begin_number; snapshot = snapshot; read_only = read_only }) }
{
    snapshots.iter().any(|live| {
        live.begin_number == begin_number
            && (live.snapshot == snapshot && live.read_only == read_only)
    })
}
