//! Copies of what a committed transaction leaves: its net change, and what it read. A record of a commit stands twice,
//! with the commits and where threads look it up, and no thread waits for the other to read it.

ghost use Rattle.std.specs.Prelude.{◌≡◌, IfOk};

use crate::traces::copy_trace;
use alone::Record;
use siread::LockKey;
use sqlite_items::Items;
use std::alloc::{AllocError, Global};
use table::{Aggregate, Change, Expr, Row};
use value::Text;

/// What has a copy equal to it where there is memory. `Clone` could not answer that there is none.
pub trait Part {
    ghost use Rattle.std.specs.Prelude.{◌≡◌, IfOk};

    /// A part equal to this one.
    fn copy_in(&self, alloc: Global) -> Result<Self, AllocError>
        ensures { IfOk result (λ copy. copy ≡ self.now) };
}

/// Parts equal to these, in their order.
pub fn copy_all<T: Part + Drop>(alloc: Global, parts: &[T]) -> Result<Items<T>, AllocError>
    ensures { IfOk result (λ copy. copy ≡ parts.now) }
{
    let mut made = Vec::with_capacity(alloc, parts.len())?;
    for part in parts {
        made.push(part.copy_in(alloc)?)?;
    }
    Ok(Items::from_vec(made))
}

/// A part equal to this one, if there is one.
pub fn copy_if<T: Part + Drop>(alloc: Global, part: &Option<T>) -> Result<Option<T>, AllocError>
    ensures { IfOk result (λ copy. copy ≡ part.now) }
{
    match part {
        None => Ok(None),
        Some(part) => {
            let copy = part.copy_in(alloc)?;
            Ok(Some(copy))
        }
    }
}

impl Part for Aggregate {
    fn copy_in(&self, _alloc: Global) -> Result<Aggregate, AllocError>
        ensures { IfOk result (λ copy. copy ≡ self.now) }
    {
        Ok(*self)
    }
}

impl Part for usize {
    fn copy_in(&self, _alloc: Global) -> Result<usize, AllocError>
        ensures { IfOk result (λ copy. copy ≡ self.now) }
    {
        Ok(*self)
    }
}

impl Part for Text {
    fn copy_in(&self, _alloc: Global) -> Result<Text, AllocError>
        ensures { IfOk result (λ copy. copy ≡ self.now) }
    {
        self.copy()
    }
}

impl Part for Row {
    fn copy_in(&self, _alloc: Global) -> Result<Row, AllocError>
        ensures { IfOk result (λ copy. copy ≡ self.now) }
    {
        self.copy()
    }
}

impl Part for LockKey {
    fn copy_in(&self, _alloc: Global) -> Result<LockKey, AllocError>
        ensures { IfOk result (λ copy. copy ≡ self.now) }
    {
        self.copy()
    }
}

impl Part for Expr {
    fn copy_in(&self, alloc: Global) -> Result<Expr, AllocError>
        ensures { IfOk result (λ copy. copy ≡ self.now) }
    {
        self.copy(alloc)
    }
}

/// Changes equal to these.
pub fn copy_changes(alloc: Global, changes: &[Change]) -> Result<Items<Change>, AllocError>
    ensures { IfOk result (λ copy. copy ≡ changes.now) }
{
    copy_all(alloc, changes)
}

/// Keys equal to these.
pub fn copy_reads(alloc: Global, reads: &[LockKey]) -> Result<Items<LockKey>, AllocError>
    ensures { IfOk result (λ copy. copy ≡ reads.now) }
{
    copy_all(alloc, reads)
}

/// A record equal to this one.
pub fn copy_record(alloc: Global, commit: &Record) -> Result<Record, AllocError>
    ensures { IfOk result (λ copy. copy ≡ commit.now) }
{
    Ok(Record {
        number: commit.number,
        snapshot: commit.snapshot,
        read_only: commit.read_only,
        session: commit.session.copy()?,
        trace: copy_trace(alloc, commit.trace.as_slice())?,
        reads: copy_reads(alloc, commit.reads.as_slice())?,
        changes: copy_changes(alloc, commit.changes.as_slice())?,
    })
}

impl Part for Change {
    fn copy_in(&self, alloc: Global) -> Result<Change, AllocError>
        ensures { IfOk result (λ copy. copy ≡ self.now) }
    {
        Ok(Change {
            table: self.table,
            key: self.key.copy()?,
            old: copy_if(alloc, &self.old)?,
            new: copy_if(alloc, &self.new)?,
        })
    }
}
