//! A journal on a device.

ghost use Rattle.std.specs.Prelude.{◌≡◌, ◌<◌, ◌+◌, ◌^◌, ◌++◌, [], Some, length, OnOk, IsErrOf};
ghost use Rattle.journal.specs.Device.{LeavesOnly, Only};
ghost use Rattle.journal.specs.Fitting.{AreNext};
ghost use Rattle.journal.specs.Journals.{Holds, IsBetween, Says, Told};
ghost use Rattle.journal.specs.Spelling.{lines};
ghost use Rattle.journal.specs.Recovery.{said};
ghost use Rattle.journal.specs.Tails.{fed, lines_of, zeros};

use crate::device::{Device, DeviceFault};

/// A journal: where its lines end in the file, and how many bytes stand behind them.
#[derive(Drop)]
pub struct Journal<D: Device> {
    /// The file.
    pub device: D,
    /// The byte behind the last line.
    pub end: usize,
    /// How many bytes stand behind the lines.
    pub room: usize,
}

impl<D: Device> Journal<D> {
    /// The journal of a file that was read whole, by where `recover` found the end of its lines. What is read has to
    /// be on the disk: a process that was killed leaves bytes that are read and that a crash may still take, so sync
    /// first.
    pub fn reopen(device: D, bytes: &[u8], end: usize) -> Journal<D>
        ghost told: { Told }
        requires read { bytes.now ≡ D.seen device }
        requires durable { Only (D.seen device) (D.may_leave device) }
        requires said { said told.first bytes.now ≡ Some told.entries }
        requires end { end ≡ length (fed (lines_of bytes.now)) }
        ensures { Says D.seen D.may_leave told.first told.entries result }
    {
        let room = bytes.len().saturating_sub(end);
        Journal { device, end, room }
    }

    /// Appends the lines of a batch of commits. At `Ok` they are acknowledged: from then on each crash leaves a file
    /// that says them. A crash at any moment of the call leaves the commits before it and the first few of the batch.
    /// `Failed` comes only where the disk has failed. At `Err`, open the file again: which commits of the batch it says
    /// is not known before.
    pub fn append(&mut self, text: &[u8]) -> Result<(), DeviceFault>
        ghost told: { Told }
        requires settled { Holds D.seen D.may_leave told.first told.entries self.old }
        requires fits { length text.now < self.old.room }
        requires small { self.old.end + length text.now < 2 ^ 63 }
        requires lines { text.now ≡ lines told.batch }
        requires next { AreNext (told.first + length told.entries) told.batch }

        ensures acknowledged { OnOk result
            (Holds D.seen D.may_leave told.first (told.entries ++ told.batch) self.new) }

        ensures any_moment { LeavesOnly D.moment D.left_since self.old.device self.new.device
            (IsBetween told.first told.entries told.batch) }

        ensures failed { IsErrOf result DeviceFault.Failed → D.faults self.old.device < D.faults self.new.device }
    {
        self.device.write_at(self.end, text)?;
        self.device.sync()?;
        self.end += text.len();
        self.room -= text.len();
        Ok(())
    }

    /// Writes zeros over what a crash left behind the lines. A crash at any moment of the call leaves the same commits.
    pub fn repair(&mut self, blank: &[u8]) -> Result<(), DeviceFault>
        ghost told: { Told }
        requires says { Says D.seen D.may_leave told.first told.entries self.old }
        requires blank { blank.now ≡ zeros self.old.room }

        ensures settled { OnOk result (Holds D.seen D.may_leave told.first told.entries self.new) }

        ensures any_moment { LeavesOnly D.moment D.left_since self.old.device self.new.device
            (IsBetween told.first told.entries []) }
    {
        self.device.write_at(self.end, blank)?;
        self.device.sync()?;
        Ok(())
    }

    /// Puts zeros behind the file. A crash at any moment of the call leaves the same commits.
    pub fn make_room(&mut self, count: usize) -> Result<(), DeviceFault>
        ghost told: { Told }
        requires settled { Holds D.seen D.may_leave told.first told.entries self.old }
        requires fits { self.old.room + count < 2 ^ 63 }

        ensures roomy { OnOk result (Holds D.seen D.may_leave told.first told.entries self.new) }
        ensures more { OnOk result (self.new.room ≡ self.old.room + count) }
        ensures end { OnOk result (self.new.end ≡ self.old.end) }

        ensures any_moment { LeavesOnly D.moment D.left_since self.old.device self.new.device
            (IsBetween told.first told.entries []) }
    {
        self.device.grow(count)?;
        self.device.sync()?;
        self.room += count;
        Ok(())
    }
}
