//! A journal's file as a device: each call on it, and the note of it.

ghost use Rattle.std.specs.Prelude.{◌≡◌, ◌≤◌, ◌++◌, [], length, drop, IfOk, OnOk};
ghost use Rattle.journal.specs.Tails.{zeros};
ghost use Rattle.journal_file.specs.Calls as calls;
ghost use Rattle.journal_file.specs.Files.{IsOnDisk, file_bytes, waiting_calls, with_none_waiting};
ghost use Rattle.journal_file.specs.Since.{now_counts, only_at_end};

use crate::faults::OpenFault;
use crate::handle::{Handle, OpenFile, read_synced};
use crate::outbox::Outbox;
use crate::places::{make_alone, make_beside, name, open_locked, replace, sync_folder};
use crate::record::Record;
use journal::{Device, DeviceFault};
use std::alloc::Global;
use std::fs::File;
use std::rt::Files;
use std::{fs, io};

const OPENED: u64 = 0;

const BEHIND: u64 = 1;

const WROTE: u64 = 2;

const GREW: u64 = 3;

const SYNCED: u64 = 4;

/// A journal's file, which no other process has. It is given back where it is dropped.
#[derive(Drop)]
pub struct JournalFile<F: OpenFile> {
    handle: Handle<F>,
    calls: Record,
}

impl JournalFile<File> {
    /// Opens a file that is there, and hands out its bytes, all of which are on the disk then.
    ///
    /// # Errors
    ///
    /// `NotFound` where there is none, so that the caller makes one (`write_new`); `Folder`, `Link`, `NotRegular`,
    /// `Denied` and `InUse` by what stands there; `NoMemory`, or `Failed` as the system says. Nothing was changed.
    pub fn open<R>(rt: &R, path: &str) -> Result<(JournalFile<File>, Vec<u8>), OpenFault>
    where
        R: Files<File = File> + AllocGlobal,
        ensures read { IfOk result (λ opened. file_bytes opened.0 ≡ opened.1.items) }
        ensures durable { IfOk result (λ opened. IsOnDisk opened.0) }
    {
        let mut file = open_locked(rt, path)?;
        sync_folder(rt, path)?;
        let bytes = read_synced(rt.alloc(), &mut file)?;
        let journal = JournalFile::new(file, &bytes);
        Ok((journal, bytes))
    }
}

impl JournalFile<Outbox> {
    /// The file of these bytes, which its caller has read, of a file that was synced before and that no other process
    /// writes to. What is asked of it waits, and is the caller's to do.
    pub fn of_read(alloc: Global, bytes: &[u8]) -> JournalFile<Outbox>
        ensures read { file_bytes result ≡ bytes.now }
        ensures durable { IsOnDisk result }
        ensures none { waiting_calls result ≡ [] }
    {
        JournalFile::new(Outbox::new(alloc), bytes)
    }

    /// The bytes of the calls that wait: what to write where, and when to sync, in their order.
    pub fn waiting(&self) -> &[u8]
        ensures { result.now ≡ waiting_calls self.now }
    {
        self.handle.file.as_slice()
    }

    /// Those that wait were handed out.
    pub fn forget_waiting(&mut self)
        ensures { self.new ≡ with_none_waiting self.old }
    {
        self.handle.file.clear();
    }
}

impl<F: OpenFile> JournalFile<F> {
    /// A file that holds these bytes, all of which are on the disk.
    fn new(file: F, bytes: &[u8]) -> JournalFile<F>
        ensures file { result.handle.file ≡ file }
        ensures read { file_bytes result ≡ bytes.now }
        ensures durable { IsOnDisk result }
    {
        let mut calls = Record::new();
        calls.note(&[OPENED, 0, 1], bytes);
        let handle = Handle::new(file, bytes.len());
        JournalFile { handle, calls }
    }

    /// The file from behind so many of its bytes on, which are its header.
    pub fn behind(self, base: usize) -> JournalFile<F>
        ensures bytes { file_bytes result ≡ drop base (file_bytes self) }
        ensures durable { IsOnDisk self → IsOnDisk result }
    {
        let JournalFile {
            mut handle,
            mut calls,
        } = self;
        handle.base = handle.base.saturating_add(base);
        calls.note(&[BEHIND, base as u64, 1], &[]);
        JournalFile { handle, calls }
    }

    /// What the system said of the first call that failed. All calls fail after it: open the file again.
    pub fn failure(&self) -> Option<io::Error> {
        self.handle.failure
    }

    /// Writes the whole of an empty file, and syncs it.
    fn fill(&mut self, bytes: &[u8], room: usize) -> Result<(), DeviceFault>
        requires { file_bytes self.old ≡ [] }
        ensures bytes { OnOk result (file_bytes self.new ≡ bytes.now ++ zeros room) }
        ensures durable { OnOk result (IsOnDisk self.new) }
    {
        let Some(length) = bytes.len().checked_add(room) else {
            return Err(DeviceFault::NoMemory);
        };
        self.grow(length)?;
        self.write_at(0, bytes)?;
        self.sync()
    }

    /// Why it was not filled.
    fn fault(&self) -> OpenFault {
        match self.handle.failure {
            Some(error) => OpenFault::from(error),
            None => OpenFault::NoMemory,
        }
    }
}

impl<F: OpenFile> Device for JournalFile<F> {
    ghost seen = { λ file. calls.seen file.calls.events };

    ghost may_leave = { λ file. calls.may_leave file.calls.events };

    ghost moment = { λ file. length file.calls.events };

    ghost left_since = { λ file. calls.left_since file.calls.events };

    ghost faults = { λ file. calls.failures file.calls.events };

    ghost counts_now = { λ file t c le now. now_counts file.calls.events t c le now };

    ghost only_now = { λ file c left. only_at_end file.calls.events c left };

    fn write_at(&mut self, at: usize, bytes: &[u8]) -> Result<(), DeviceFault> {
        let outcome = self.handle.write(at, bytes);
        self.calls
            .note(&[WROTE, at as u64, u64::from(outcome.is_ok())], bytes);
        outcome
    }

    fn grow(&mut self, count: usize) -> Result<(), DeviceFault> {
        let outcome = self.handle.grow(count);
        self.calls
            .note(&[GREW, count as u64, u64::from(outcome.is_ok())], &[]);
        outcome
    }

    fn sync(&mut self) -> Result<(), DeviceFault> {
        let outcome = self.handle.sync();
        self.calls
            .note(&[SYNCED, 0, u64::from(outcome.is_ok())], &[]);
        outcome
    }
}

/// A file that is whole and on the disk, and has not its name yet. Until then it is called `FILE.new`; one that a
/// killed process left is taken away when the next is made.
#[derive(Drop)]
pub struct Draft {
    file: JournalFile<File>,
    /// What it is called.
    called: String,
    /// Whether a file has the name that it is to have.
    replaces: bool,
}

impl Draft {
    /// Makes a file with these bytes, and so many zeros behind them, beside the one that is given, or where there is
    /// none. It is this process's before it has its name.
    ///
    /// # Errors
    ///
    /// `InUse` where another process is making a file of this name; `NotFound` where there is no such folder;
    /// `NoMemory`, `Denied`, or `Failed` as the system says. The name stands for what it stood for.
    pub fn make<R>(
        rt: &R,
        path: &str,
        old: Option<&JournalFile<File>>,
        bytes: &[u8],
        room: usize,
    ) -> Result<Draft, OpenFault>
    where
        R: Files<File = File> + AllocGlobal,
        ensures bytes { IfOk result (λ draft. file_bytes draft.file ≡ bytes.now ++ zeros room) }
        ensures durable { IfOk result (λ draft. IsOnDisk draft.file) }
    {
        let called = format!(in rt.alloc(); "{path}.new")?;
        let file = match old {
            Some(old) => make_beside(rt, &called, &old.handle.file)?,
            None => make_alone(rt, &called)?,
        };
        let mut file = JournalFile::new(file, &[]);
        if file.fill(bytes, room).is_err() {
            let _ = fs::remove_file(rt, &called);
            return Err(file.fault());
        }
        Ok(Draft {
            file,
            called,
            replaces: old.is_some(),
        })
    }

    /// Gives the file its name. The name stands for the old file, whole, or for the new one, whole and on the disk, at
    /// each moment, after a crash too.
    ///
    /// # Errors
    ///
    /// `Exists` where another process has made a file of this name meanwhile; `Failed` as the system says. The name
    /// stands for the old file or the new one: open it again to see which.
    pub fn publish<R>(self, rt: &R, path: &str) -> Result<JournalFile<File>, OpenFault>
    where
        R: Files<File = File> + AllocGlobal,
        requires durable { IsOnDisk self.file }
        ensures { IfOk result (λ file. file ≡ self.file) }
    {
        let Draft {
            file,
            called,
            replaces,
        } = self;
        if replaces {
            replace(rt, &file, &called, path)?;
        } else {
            name(rt, &file, &called, path)?;
        }
        Ok(file)
    }
}

/// Puts a file with these bytes, and so many zeros behind them, where there is none, or in the place of the one that
/// is given, which is given back last.
///
/// # Errors
///
/// Those of [`Draft::make`] and of [`Draft::publish`]. The name stands for the old file or the new one: open it again
/// to see which.
pub fn write_new<R>(
    rt: &R,
    path: &str,
    old: Option<JournalFile<File>>,
    bytes: &[u8],
    room: usize,
) -> Result<JournalFile<File>, OpenFault>
where
    R: Files<File = File> + AllocGlobal,
    ensures bytes { IfOk result (λ file. file_bytes file ≡ bytes.now ++ zeros room) }
    ensures durable { IfOk result IsOnDisk }
{
    let draft = Draft::make(rt, path, old.as_ref(), bytes, room)?;
    draft.publish(rt, path)
}
