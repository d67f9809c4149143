//! The shell: what it reads, what it answers, and what it writes.

ghost use Rattle.std.specs.Prelude.{◌≡◌, ◌≢◌, ◌⊎◌, ◌≤◌, true, IfErr, IfOk, OnOk};
ghost use Rattle.std.specs.Io.KnownBytes.{Appends};
ghost use Rattle.std.specs.IoError.{error_kind};
ghost use Rattle.std.specs.declared.io.ErrorKind.TheVariants.{OutOfMemory};
ghost use Rattle.replay.specs.Texts.{is_before_the_run};
ghost use Rattle.replay.specs.declared.faults.ProgramFault.TheVariants.{Output, Stopped};
ghost use Rattle.shell.specs.declared.faults.ShellFault.TheVariants.{Input, Run};
ghost use Rattle.shell.specs.Cuts.{no_rest};
ghost use Rattle.shell.specs.Shell.{IsBeginning, IsInTheTalk, IsRunFault, is_stop};
ghost use Rattle.shell.specs.Writing.{AnswersNone, AnswersWhole, Feeds, FeedsAll, Finishes, Turns};

use crate::cutting::Cutter;
use crate::events::{answer_piece, answer_rest};
use crate::faults::ShellFault;
use commit::Engine;
use replay::{ProgramFault, ReadFault, admit_text, fault_of, write_ending};
use std::alloc::Global;
use std::io;
use std::io::{BufRead, Write};
use value::Refusal;

/// The committed transactions and the sessions, and what came in and is not answered yet.
#[derive(Drop)]
pub struct Shell {
    pub alloc: Global,
    pub engine: Engine,
    pub cutter: Cutter,
}

/// The shell before the first byte, over what definitions define, with at most so many commits.
///
/// # Errors
///
/// [`ProgramFault::Defs`] where the definitions are refused, or there is no memory to take them in.
pub fn begin_shell(alloc: Global, defs: &[u8], limit: u32) -> Result<Shell, ProgramFault>
    ensures begun { IfOk result (λ shell. IsBeginning defs.now limit shell.engine) }
    ensures fresh { IfOk result (λ shell. shell.cutter ≡ no_rest) }
    ensures refused { IfErr result (IsRunFault defs.now) }
    ensures before { IfErr result (λ fault. is_before_the_run fault ≡ true) }
{
    let engine = begin_engine(alloc, defs, limit)?;
    Ok(Shell {
        alloc,
        engine,
        cutter: Cutter::new(alloc),
    })
}

fn begin_engine(alloc: Global, defs: &[u8], limit: u32) -> Result<Engine, ProgramFault>
    ensures begun { IfOk result (IsBeginning defs.now limit) }
    ensures refused { IfErr result (IsRunFault defs.now) }
    ensures before { IfErr result (λ fault. is_before_the_run fault ≡ true) }
{
    let view = match admit_text(alloc, defs) {
        Ok(view) => view,
        Err(refusal) => return Err(ProgramFault::Defs(refusal)),
    };
    match Engine::new(alloc, limit, view, &[]) {
        Ok(engine) => Ok(engine),
        Err(_) => Err(ProgramFault::Defs(Refusal::NoMemory)),
    }
}

/// What a fault of the reader ends the shell with.
pub fn fault_of_reader(error: &io::Error) -> ShellFault
    ensures no_memory { error_kind error.now ≡ OutOfMemory → result ≡ Run Stopped }
    ensures unreadable { error_kind error.now ≢ OutOfMemory → result ≡ Input }
    ensures late { IsInTheTalk result }
{
    match fault_of(error) {
        ReadFault::NoMemory => ShellFault::Run(ProgramFault::Stopped),
        ReadFault::Unreadable => ShellFault::Input,
    }
}

/// Writes bytes, and flushes the writer. The only error is `Output`.
pub fn write_out<W: Write>(bytes: &[u8], out: &mut W) -> Result<(), ShellFault>
    ensures written { OnOk result (Appends (W.contents out.old) (W.contents out.new) bytes.now) }
    ensures output { IfErr result (λ fault. fault ≡ Run Output) }
{
    out.write_all(bytes)?;
    out.flush()?;
    Ok(())
}

impl Shell {
    /// Reads all that a reader has, and answers each piece as soon as it is whole. What is left is kept for more.
    ///
    /// # Errors
    ///
    /// [`ShellFault::Input`] at the first fault of the reader, and `Stopped` where there is no memory for what is read:
    /// each piece that is whole by then is answered. `Output` at the first fault of the writer.
    #[tactic(auto, using(crate::proofs::Feeding::feeds_none, crate::proofs::Feeding::feeds_more, crate::proofs::Feeding::feeds_all))]
    pub fn feed<R: BufRead, W: Write>(
        &mut self,
        input: &mut R,
        out: &mut W,
    ) -> Result<(), ShellFault>
        ensures fed { OnOk result
            (FeedsAll self.old.engine self.old.cutter self.new.engine self.new.cutter (R.remaining input.old)
            (W.contents out.old) (W.contents out.new)) }
        ensures late { IfErr result IsInTheTalk }
        ensures stopped { IfErr result (λ fault. is_stop fault ≡ true
            → Feeds self.old.engine self.old.cutter self.new.engine self.new.cutter (R.remaining input.old)
            (R.remaining input.new) (W.contents out.old) (W.contents out.new)) }
    {
        for _turn in 0..u64::MAX {
            if !self.feed_piece(input, out)? {
                return Ok(());
            }
        }
        Err(ShellFault::Run(ProgramFault::Stopped))
    }

    /// Reads on to the next semicolon, and answers the piece that it ends, if it ends one. False: nothing is left.
    fn feed_piece<R: BufRead, W: Write>(
        &mut self,
        input: &mut R,
        out: &mut W,
    ) -> Result<bool, ShellFault>
        ensures turned { IfOk result (λ more.
            Turns more self.old.engine self.old.cutter self.new.engine self.new.cutter (R.remaining input.old)
            (R.remaining input.new) (W.contents out.old) (W.contents out.new)) }
        ensures late { IfErr result IsInTheTalk }
        ensures stopped { IfErr result (λ fault. is_stop fault ≡ true
            → Feeds self.old.engine self.old.cutter self.new.engine self.new.cutter (R.remaining input.old)
            (R.remaining input.new) (W.contents out.old) (W.contents out.new)) }
    {
        let (more, read) = self.cutter.read_on(input);
        // (what came before a fault of the reader is read all the same)
        self.answer_ended(more, out)?;
        match read {
            Ok(()) => Ok(more),
            Err(error) => Err(fault_of_reader(&error)),
        }
    }

    /// Answers the piece that the last byte read ends, and cuts it off, if any was read and it ends one.
    #[tactic(auto, using(crate::proofs::Feeding::none_read, crate::proofs::Feeding::none_ended, crate::proofs::Feeding::whole_ended))]
    fn answer_ended<W: Write>(&mut self, more: bool, out: &mut W) -> Result<(), ShellFault>
        ensures answered { OnOk result
            (AnswersWhole more self.old.engine self.old.cutter self.new.engine self.new.cutter (W.contents out.old)
            (W.contents out.new)
            ⊎ AnswersNone more self.old.engine self.old.cutter self.new.engine self.new.cutter (W.contents out.old)
            (W.contents out.new)) }
        ensures output { IfErr result (λ fault. fault ≡ Run Output) }
    {
        if !more {
            return Ok(());
        }
        if !self.cutter.is_whole() {
            return Ok(());
        }
        let at = self.cutter.at();
        answer_piece(self.alloc, &mut self.engine, at, self.cutter.piece(), out)?;
        self.cutter.cut();
        out.flush()?;
        Ok(())
    }

    /// Answers what is left at the end of the input, and writes the report behind it, if it is asked for.
    ///
    /// # Errors
    ///
    /// `Output` at the first fault of the writer.
    pub fn finish<W: Write>(&mut self, with_report: bool, out: &mut W) -> Result<(), ShellFault>
        ensures finished { OnOk result
            (Finishes self.old.cutter self.old.engine with_report (W.contents out.old) (W.contents out.new)) }
        ensures output { IfErr result (λ fault. fault ≡ Run Output) }
    {
        let at = self.cutter.at();
        answer_rest(self.alloc, at, self.cutter.bytes(), out)?;
        if with_report {
            write_ending(&self.engine, out)?;
        }
        out.flush()?;
        Ok(())
    }
}
