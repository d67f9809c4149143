//! Commits whose lines wait for a sync.

ghost use Rattle.std.specs.Prelude.{◌≡◌, ◌≢◌, ◌<◌, ◌^◌, ◌∷◌, [], true, IfErr, OnErr, OnOk};
ghost use Rattle.std.specs.List.{AllByRecursion};
ghost use Rattle.journal.specs.Fitting.{FitsChange, FitsEntry, FitsRow, FitsValue};
ghost use Rattle.journal.specs.Spelling.{lines};
ghost use Rattle.value.specs.declared.values.Value.TheVariants.{Int};
ghost use Rattle.durable.specs.declared.faults.KeepFault.TheVariants.{Shut};
ghost use Rattle.durable.specs.Batches.{HasAdded, IsSameBatch, IsWaiting, entries_waiting, none_behind};

use crate::faults::KeepFault;
use journal::Lines;
use std::alloc::Global;
use table::{Change, Row};
use value::Value;

/// No batch has as many bytes, and no line in it.
const LONGEST: usize = 1 << 60;

/// Commits that are not on the disk yet. Their lines wait for a sync that serves them all.
#[derive(Drop)]
pub struct Batch {
    /// The number of the last entry on the disk.
    pub durable: u64,
    /// The number of the last entry of all: of those that wait, or of those on the disk.
    pub newest: u64,
    /// The lines of those that wait.
    pub lines: Lines,
    /// The line that is spelled.
    pub line: Lines,
}

impl Batch {
    /// None waits behind the entry of this number.
    pub fn new(alloc: Global, durable: u64) -> Batch
        ensures { result ≡ none_behind durable }
    {
        Batch {
            durable,
            newest: durable,
            lines: Lines::new(alloc),
            line: Lines::new(alloc),
        }
    }

    /// Whether none waits.
    pub fn is_empty(&self) -> bool
        ensures { result ≡ true → entries_waiting self.now ≡ [] }
    {
        self.lines.is_empty()
    }

    /// How many commits wait.
    pub fn len(&self) -> u64 {
        self.newest.saturating_sub(self.durable)
    }

    /// Adds a commit behind those that wait.
    ///
    /// # Errors
    ///
    /// [`KeepFault::Unfit`] and [`KeepFault::NoMemory`]. Those that wait are the same then.
    pub fn add(&mut self, changes: &[Change]) -> Result<(), KeepFault>
        requires waiting { IsWaiting self.old }
        ensures added { OnOk result (HasAdded self.old self.new changes.now) }
        ensures same { OnErr result (IsSameBatch self.old self.new) }
        ensures alive { IfErr result (λ fault. fault ≢ Shut) }
    {
        let Some(number) = self.newest.checked_add(1) else {
            return Err(KeepFault::Unfit);
        };
        spell(&mut self.line, number, self.durable, changes)?;
        if self.lines.len() >= LONGEST || self.line.len() >= LONGEST {
            return Err(KeepFault::Unfit);
        }
        self.lines.add_lines(&self.line)?;
        self.newest = number;
        Ok(())
    }

    /// Those that waited are on the disk.
    pub fn settle(&mut self)
        ensures durable { self.new.durable ≡ self.old.newest }
        ensures newest { self.new.newest ≡ self.old.newest }
        ensures lines { self.new.lines ≡ [] }
    {
        self.durable = self.newest;
        self.lines.clear();
    }
}

/// Spells the line of a commit, if lines can spell it.
fn spell(line: &mut Lines, number: u64, durable: u64, changes: &[Change]) -> Result<(), KeepFault>
    ensures line { OnOk result
        (line.new ≡ lines (record { number = number; durable = durable; changes = changes.now } ∷ [])) }
    ensures fits { OnOk result
        (FitsEntry (record { number = number; durable = durable; changes = changes.now })) }
    ensures alive { IfErr result (λ fault. fault ≢ Shut) }
{
    if !fit(changes) {
        return Err(KeepFault::Unfit);
    }
    line.clear();
    line.add_commit(number, durable, changes)?;
    Ok(())
}

/// Whether lines can spell these changes.
fn fit(changes: &[Change]) -> bool
    ensures { result ≡ true → AllByRecursion FitsChange changes.now }
{
    for change in changes {
        if !fits(change) {
            return false;
        }
    }
    true
}

fn fits(change: &Change) -> bool
    ensures { result ≡ true → FitsChange change.now }
{
    fits_place(change.table)
        && (fits_value(&change.key) && (fits_row(&change.old) && fits_row(&change.new)))
}

/// Each place fits, which is known where it is an argument.
fn fits_place(place: usize) -> bool
    ensures { result ≡ true → place < 2 ^ 64 }
{
    let _ = place;
    true
}

fn fits_row(row: &Option<Row>) -> bool
    ensures { result ≡ true → FitsRow row.now }
{
    match row {
        None => true,
        Some(row) => row.len() > 0 && fit_values(row.values()),
    }
}

fn fit_values(values: &[Value]) -> bool
    ensures { result ≡ true → AllByRecursion FitsValue values.now }
{
    for value in values {
        if !fits_value(value) {
            return false;
        }
    }
    true
}

#[tactic(auto, using(crate::proofs::Plain::plain_text))]
fn fits_value(value: &Value) -> bool
    ensures { result ≡ true → FitsValue value.now }
{
    match value {
        Value::Null => true,
        Value::Int(number) => fits_number(*number),
        Value::Text(text) => text.is_plain(),
    }
}

/// Each number of 64 bits fits, which is known where it is an argument.
fn fits_number(number: i64) -> bool
    ensures { result ≡ true → FitsValue (Int number) }
{
    let _ = number;
    true
}
