//! The calls on the file. Each method makes one, and believes nothing after one that failed. All of this is trusted.

ghost use Rattle.std.specs.Prelude.{◌≡◌};

use crate::faults::OpenFault;
use journal::DeviceFault;
use std::alloc::Global;
use std::fs::File;
use std::io;
use std::io::Read;
use std::os::unix::fs::FileExt;

/// So many zeros are written at a time.
const BLOCK: usize = 8192;

/// What a handle asks of the file that stands behind it.
pub trait OpenFile {
    /// Writes all of these bytes at a place, over what is there.
    fn put(&mut self, at: u64, bytes: &[u8]) -> io::Result<()>;

    /// Writes so many zeros at a place, behind what is there.
    fn put_zeros(&mut self, at: u64, count: usize) -> io::Result<()>;

    /// Waits until all that was written is on the disk.
    fn settle(&mut self) -> io::Result<()>;
}

impl OpenFile for File {
    fn put(&mut self, at: u64, bytes: &[u8]) -> io::Result<()> {
        self.write_all_at(bytes, at)
    }

    fn put_zeros(&mut self, at: u64, count: usize) -> io::Result<()> {
        write_zeros(self, at, count)
    }

    fn settle(&mut self) -> io::Result<()> {
        self.sync_data()
    }
}

/// An open file, seen from a base on.
#[derive(Drop)]
pub(crate) struct Handle<F: OpenFile> {
    pub(crate) file: F,
    /// So many bytes of the file stand in front of what is seen.
    pub(crate) base: usize,
    /// The byte behind the last.
    end: usize,
    /// What the system said of the first call that failed.
    pub(crate) failure: Option<io::Error>,
}

impl<F: OpenFile> Handle<F> {
    /// The handle of a file with so many bytes.
    pub(crate) fn new(file: F, end: usize) -> Handle<F>
        ensures { result.file ≡ file }
    {
        Handle {
            file,
            base: 0,
            end,
            failure: None,
        }
    }

    /// Writes over what is there.
    pub(crate) fn write(&mut self, at: usize, bytes: &[u8]) -> Result<(), DeviceFault> {
        self.require_sound()?;
        let place = self.base.saturating_add(at);
        let outcome = self.file.put(place as u64, bytes);
        self.believe(outcome)
    }

    /// Puts zeros behind what is there. They are written, so that no later write over them meets a full disk.
    pub(crate) fn grow(&mut self, count: usize) -> Result<(), DeviceFault> {
        self.require_sound()?;
        let outcome = self.file.put_zeros(self.end as u64, count);
        self.end = self.end.saturating_add(count);
        self.believe(outcome)
    }

    /// Waits until all that was written is on the disk.
    pub(crate) fn sync(&mut self) -> Result<(), DeviceFault> {
        self.require_sound()?;
        let outcome = self.file.settle();
        self.believe(outcome)
    }

    fn require_sound(&self) -> Result<(), DeviceFault> {
        match self.failure {
            None => Ok(()),
            Some(_) => Err(DeviceFault::Failed),
        }
    }

    fn believe(&mut self, outcome: io::Result<()>) -> Result<(), DeviceFault> {
        outcome.map_err(|error| {
            self.failure = Some(error);
            DeviceFault::Failed
        })
    }
}

fn write_zeros(file: &File, from: u64, count: usize) -> io::Result<()> {
    let zeros = [0u8; BLOCK];
    let mut written = 0;
    while written < count {
        let next = BLOCK.min(count - written);
        file.write_all_at(&zeros[..next], from.saturating_add(written as u64))?;
        written += next;
    }
    Ok(())
}

/// The bytes of a file, read once it was synced: a process that was killed may have left some that are not on the disk.
pub(crate) fn read_synced(alloc: Global, file: &mut File) -> Result<Vec<u8>, OpenFault> {
    file.sync_all()?;
    let mut bytes = Vec::new(alloc);
    file.read_to_end(&mut bytes)?;
    Ok(bytes)
}
