//! The shell on a ledger: no answer goes out before each commit that it may have seen is on the disk.

ghost use Rattle.std.specs.Prelude.{◌≡◌, ◌+◌, [], length, OnOk};
ghost use Rattle.durable.specs.Batches.{entries_waiting};
ghost use Rattle.durable.specs.Promise.{IsReadyFor};
ghost use Rattle.shell.specs.Headings as heading;

use crate::cutting::Cutter;
use crate::events::{NAME, answer_rest, read_line, welcome};
use crate::faults::{LedgerFault, ShellFault};
use crate::headings::is_blank;
use crate::shells::fault_of_reader;
use alone::Answer;
use commit::Unanswered;
use durable::{Ledger, Outlet};
use journal::Device;
use replay::write_ending;
use report::{write_not_kept, write_refusal, write_reply};
use std::alloc::Global;
use std::io;
use std::io::{BufReader, Read, Write};
use syntax::ScriptLine;
use value::Refusal;

/// Answers of so many bytes wait for a sync at most.
const MOST_HELD: usize = 1 << 16;

/// When commits are synced, and how long the journal may grow.
#[derive(Clone, Copy, Debug)]
pub struct Pace {
    /// So many commits share a sync at most. With 1 each has its own.
    pub sync_every: u64,
    /// The shell pauses where the lines of the journal end behind this byte.
    pub longest: usize,
}

/// Why a shell on a ledger has stopped.
#[derive(Clone, Copy, Debug, PartialEq, Eq)]
pub enum Stop {
    /// The input has ended.
    End,
    /// The journal has grown too long. Nothing waits, and the shell can go on.
    Long,
}

/// A piece of the input, and what it is answered.
#[derive(Drop)]
enum Said {
    /// Blanks and comments are answered nothing.
    Nothing,
    /// It is no event, or there was no memory for it.
    Refused(Refusal),
    Answered(ScriptLine, Result<Answer, Unanswered>),
}

/// A shell on a ledger: what it has read and not answered, and the answers that wait for a sync.
#[derive(Drop)]
pub struct LedgerShell {
    alloc: Global,
    cutter: Cutter,
    held: Vec<u8>,
}

impl LedgerShell {
    /// A shell that has read nothing.
    pub fn new(alloc: Global) -> LedgerShell {
        LedgerShell {
            alloc,
            cutter: Cutter::new(alloc),
            held: Vec::new(alloc),
        }
    }

    /// Answers events as they come, as [`shell_into`](crate::shell_into) does, on a ledger: each commit is on the disk
    /// before its line goes out, and so is every commit that another answer may have seen. Where commits share syncs,
    /// answers wait as long as whole events are at hand. Nobody waits for an answer that waits for him.
    ///
    /// A COMMIT that could not be kept is refused with SQLSTATE 58030, and its transaction is still open. A full epoch
    /// is followed by a new one as soon as no transaction is open.
    ///
    /// # Errors
    ///
    /// [`ShellFault::Input`] at the first fault of the reader, and `Run` of `Stopped` where there is no memory for what
    /// is read: each event that came before is answered then. `Run` of `Output` at the first fault of the writer.
    /// [`LedgerFault::Journal`] where commits that share a sync could not be written: no answer that waited for it goes
    /// out, and which of them are on the disk is known once the file is opened again.
    pub fn serve<D: Device, R: Read, W: Write>(
        &mut self,
        ledger: &mut Ledger<D>,
        pace: Pace,
        input: &mut BufReader<R>,
        outlet: &mut Outlet<W>,
    ) -> Result<Stop, LedgerFault>
        requires ready { IsReadyFor D.seen D.may_leave
            (length ledger.old.engine.core.records + 1) ledger.old.writer }
        ensures none { OnOk result (entries_waiting ledger.new.writer.batch ≡ []) }
        ensures ready { IsReadyFor D.seen D.may_leave
            (length ledger.new.engine.core.records + 1) ledger.new.writer }
    {
        for _turn in 0..u64::MAX {
            if !self.may_wait(ledger, pace, input.buffer()) {
                self.release(ledger, outlet)?;
                if ledger.writer.journal.end > pace.longest {
                    return Ok(Stop::Long);
                }
            }
            if !self.serve_piece(ledger, input, outlet)? {
                break;
            }
        }
        self.release(ledger, outlet)?;
        let out = outlet.open(ledger);
        answer_rest(self.alloc, self.cutter.at(), self.cutter.bytes(), out)?;
        out.flush()?;
        Ok(Stop::End)
    }

    /// Whether answers may wait for a sync that serves more commits: some wait, and the next event is at hand.
    fn may_wait<D: Device>(&self, ledger: &Ledger<D>, pace: Pace, at_hand: &[u8]) -> bool {
        let waiting = ledger.writer.batch.len();
        waiting > 0
            && waiting < pace.sync_every
            && self.held.len() < MOST_HELD
            && at_hand.contains(&b';')
    }

    /// Syncs the commits that wait, and lets the answers go that waited with them.
    fn release<D: Device, W: Write>(
        &mut self,
        ledger: &mut Ledger<D>,
        outlet: &mut Outlet<W>,
    ) -> Result<(), LedgerFault>
        requires ready { IsReadyFor D.seen D.may_leave
            (length ledger.old.engine.core.records + 1) ledger.old.writer }
        ensures none { OnOk result (entries_waiting ledger.new.writer.batch ≡ []) }
        ensures ready { IsReadyFor D.seen D.may_leave
            (length ledger.new.engine.core.records + 1) ledger.new.writer }
    {
        if !ledger.writer.batch.is_empty() && ledger.sync().is_err() {
            return Err(LedgerFault::Journal);
        }
        let out = outlet.open(ledger);
        out.write_all(self.held.as_slice())?;
        self.held.clear();
        out.flush()?;
        Ok(())
    }

    /// Reads on to the next semicolon, and answers the piece that it ends, if it ends one. False: nothing is left.
    fn serve_piece<D: Device, R: Read, W: Write>(
        &mut self,
        ledger: &mut Ledger<D>,
        input: &mut BufReader<R>,
        outlet: &mut Outlet<W>,
    ) -> Result<bool, LedgerFault>
        requires ready { IsReadyFor D.seen D.may_leave
            (length ledger.old.engine.core.records + 1) ledger.old.writer }
        ensures ready { IsReadyFor D.seen D.may_leave
            (length ledger.new.engine.core.records + 1) ledger.new.writer }
    {
        let (more, read) = self.cutter.read_on(input);
        if more && self.cutter.is_whole() {
            let said = answer_on(self.alloc, ledger, self.cutter.at(), self.cutter.piece());
            self.cutter.cut();
            let told = self.say(ledger, &said, outlet);
            drop(said);
            told?;
        }
        match read {
            Ok(()) => Ok(more),
            Err(error) => {
                self.release(ledger, outlet)?;
                Err(LedgerFault::Shell(fault_of_reader(&error)))
            }
        }
    }

    /// Puts an answer behind those that wait. Where there is no memory for it, they wait no longer.
    fn say<D: Device, W: Write>(
        &mut self,
        ledger: &mut Ledger<D>,
        said: &Said,
        outlet: &mut Outlet<W>,
    ) -> Result<(), LedgerFault>
        requires ready { IsReadyFor D.seen D.may_leave
            (length ledger.old.engine.core.records + 1) ledger.old.writer }
        ensures ready { IsReadyFor D.seen D.may_leave
            (length ledger.new.engine.core.records + 1) ledger.new.writer }
    {
        if self.hold(said) {
            return Ok(());
        }
        self.release(ledger, outlet)?;
        write_said(said, outlet.open(ledger))?;
        Ok(())
    }

    /// Puts an answer behind those that wait, if there is memory for it.
    fn hold(&mut self, said: &Said) -> bool {
        let before = self.held.len();
        let written = write_said(said, &mut self.held).is_ok();
        if !written {
            self.held.truncate(before);
        }
        written
    }

    /// Writes the report of the epoch, if it is asked for, behind the answers that still wait.
    ///
    /// # Errors
    ///
    /// `Run` of `Output` at the first fault of the writer; [`LedgerFault::Journal`] as of [`LedgerShell::serve`].
    pub fn finish<D: Device, W: Write>(
        &mut self,
        ledger: &mut Ledger<D>,
        with_report: bool,
        outlet: &mut Outlet<W>,
    ) -> Result<(), LedgerFault>
        requires ready { IsReadyFor D.seen D.may_leave
            (length ledger.old.engine.core.records + 1) ledger.old.writer }
    {
        self.release(ledger, outlet)?;
        let out = outlet.open(ledger);
        if with_report {
            write_ending(&ledger.engine, out)?;
        }
        out.flush()?;
        Ok(())
    }
}

/// Answers a piece.
fn answer_on<D: Device>(alloc: Global, ledger: &mut Ledger<D>, at: usize, bytes: &[u8]) -> Said
    requires ready { IsReadyFor D.seen D.may_leave
        (length ledger.old.engine.core.records + 1) ledger.old.writer }
    ensures ready { IsReadyFor D.seen D.may_leave
        (length ledger.new.engine.core.records + 1) ledger.new.writer }
{
    if is_blank(bytes) {
        return Said::Nothing;
    }
    let line = match read_line(alloc, at, bytes) {
        Ok(line) => line,
        Err(refusal) => return Said::Refused(refusal),
    };
    if let Err(_) = welcome(&mut ledger.engine, &line.session) {
        drop(line);
        return Said::Refused(Refusal::NoMemory);
    }
    ledger.follow_full_epoch();
    let answered = ledger.answer(&line);
    Said::Answered(line, answered)
}

/// Writes what was answered.
fn write_said<W: Write>(said: &Said, out: &mut W) -> io::Result<()> {
    match said {
        Said::Nothing => Ok(()),
        Said::Refused(refusal) => write_refusal(NAME, refusal, out),
        Said::Answered(line, answered) => write_answer(line, answered, out),
    }
}

/// Writes the line of an event.
fn write_answer<W: Write>(
    line: &ScriptLine,
    answered: &Result<Answer, Unanswered>,
    out: &mut W,
) -> io::Result<()> {
    match answered {
        Ok(answer) => write_reply(line, answer, out),
        Err(Unanswered::NoMemory) => write_reply(line, &Answer::Refused(Refusal::NoMemory), out),
        Err(Unanswered::NotKept) => write_not_kept(&line.session, out),
    }
}
