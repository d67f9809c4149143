//! Calls that wait for whoever can make them. As of `handle`, it is trusted that each is the one that is asked for.

ghost use Rattle.std.specs.Prelude.{◌≡◌, ◌++◌, [], OnOk};
ghost use Rattle.journal_file.specs.Waiting as waiting;

use crate::handle::OpenFile;
use std::alloc::{AllocError, Global};
use std::io;
use std::marker::Model;

// The kinds of calls, as `specs/Waiting` numbers them.
const WRITE: u64 = 1;

const ZEROS: u64 = 2;

const SYNC: u64 = 3;

/// The bytes of the calls that wait, one behind the other in their order: what to write where, and when to sync. A call
/// fails only for want of memory, and is not added then.
#[derive(Drop)]
pub struct Outbox {
    bytes: Vec<u8>,
}

impl Model for Outbox {
    ghost use Rattle.std.specs.Prelude.{List, ℕ};

    ghost Value = { List ℕ };

    ghost view = { λ o. o.bytes.items };
}

impl Outbox {
    /// No call.
    pub fn new(alloc: Global) -> Outbox
        ensures { result ≡ [] }
    {
        Outbox {
            bytes: Vec::new(alloc),
        }
    }

    /// The bytes of the calls.
    pub fn as_slice(&self) -> &[u8]
        ensures { result.now ≡ self.now }
    {
        self.bytes.as_slice()
    }

    /// No call waits any more.
    pub fn clear(&mut self)
        ensures { self.new ≡ [] }
    {
        self.bytes.clear();
    }

    #[tactic(auto, unfolding(crate::specs::Waiting::number))]
    fn add_number(&mut self, number: u64) -> Result<(), AllocError>
        ensures { OnOk result (self.new ≡ self.old ++ waiting.number number) }
    {
        self.bytes.extend_from_slice(&number.to_le_bytes())
    }

    /// Room for a call with so many bytes, so that it is added whole or not at all.
    fn reserve(&mut self, count: usize) -> Result<(), AllocError>
        ensures { self.new ≡ self.old }
    {
        self.bytes.reserve(count.saturating_add(24))
    }

    /// Adds that bytes are to be written at a place.
    fn add_write(&mut self, at: u64, bytes: &[u8]) -> Result<(), AllocError>
        ensures { OnOk result (self.new ≡ self.old ++ waiting.write at bytes.now) }
    {
        self.reserve(bytes.len())?;
        self.add_number(WRITE)?;
        self.add_number(at)?;
        self.add_number(bytes.len() as u64)?;
        self.bytes.extend_from_slice(bytes)
    }

    /// Adds that so many zeros are to be written at a place.
    fn add_zeros(&mut self, at: u64, count: u64) -> Result<(), AllocError>
        ensures { OnOk result (self.new ≡ self.old ++ waiting.zeros at count) }
    {
        self.reserve(0)?;
        self.add_number(ZEROS)?;
        self.add_number(at)?;
        self.add_number(count)
    }

    /// Adds that the file is to be synced.
    fn add_sync(&mut self) -> Result<(), AllocError>
        ensures { OnOk result (self.new ≡ self.old ++ waiting.sync) }
    {
        self.reserve(0)?;
        self.add_number(SYNC)
    }
}

fn is_blank(bytes: &[u8]) -> bool {
    bytes.iter().all(|byte| *byte == 0)
}

impl OpenFile for Outbox {
    fn put(&mut self, at: u64, bytes: &[u8]) -> io::Result<()> {
        // (what a crash tore is written over by many)
        if is_blank(bytes) {
            self.add_zeros(at, bytes.len() as u64)?;
        } else {
            self.add_write(at, bytes)?;
        }
        Ok(())
    }

    fn put_zeros(&mut self, at: u64, count: usize) -> io::Result<()> {
        self.add_zeros(at, count as u64)?;
        Ok(())
    }

    fn settle(&mut self) -> io::Result<()> {
        self.add_sync()?;
        Ok(())
    }
}
