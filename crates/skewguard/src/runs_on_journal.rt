//! `skewguard threads --journal`: sessions on threads, whose commits outlive the process.

ghost use Rattle.std.specs.Prelude.{◌≤◌, IfOk};
ghost use Rattle.durable.specs.Promise.{IsReadyFor};
ghost use Rattle.journal_file.specs.Files.{file_bytes, file_may_leave};

use crate::endings::end_run;
use crate::files::{Streams, report_no_memory};
use crate::ledgers::{Unopened, Whose, admit_defs, open_declared, report_unopened};
use crate::texts::Texts;
use durable::Ledger;
use journal_file::JournalFile;
use replay::ProgramFault;
use session::Shelf;
use std::fs::File;
use std::io::{BufWriter, Write};
use std::marker::Brand;
use std::rt::Files;
use std::sync::Wait;
use std::thread::Threads;
use threads::{Script, read_scripts, threads_on_journal};

/// Runs each session of a script on a thread, on the journal of this name. Each commit is on the disk before it counts.
pub fn run_on_journal<R, W, E>(
    rt: &R,
    texts: &Texts<'_>,
    path: &str,
    limit: u32,
    streams: &mut Streams<'_, W, E>,
) -> u8
where
    R: Files<File = File> + AllocGlobal + Threads + Wait + Sync,
    W: Write,
    E: Write,
    requires some { 1 ≤ limit }
    ensures { result ≤ 4 }
{
    let alloc = rt.alloc();
    let (ledger, scripts) = match open(rt, texts, path, limit) {
        Ok(opened) => opened,
        Err(fault) => return report_unopened(alloc, fault, path, texts, streams),
    };
    let Ok(mut out) = BufWriter::new(alloc, &mut *streams.out) else {
        return report_no_memory(streams.err);
    };
    let run = run_threads(rt, ledger, scripts.as_slice(), limit, &mut out);
    let _ = out.flush();
    drop(out);
    end_run(alloc, run, texts, streams)
}

/// The ledger of the journal, and the scripts of the sessions. Both texts are read before a file is made or changed.
fn open<R: Files<File = File> + AllocGlobal>(
    rt: &R,
    texts: &Texts<'_>,
    path: &str,
    limit: u32,
) -> Result<(Ledger<JournalFile<File>>, Vec<Script>), Unopened>
    ensures ready { IfOk result (λ opened. IsReadyFor file_bytes file_may_leave 1 opened.0.writer) }
{
    let defs = texts.defs().bytes;
    let declared = admit_defs(rt.alloc(), defs)?;
    let scripts = match read_scripts(rt.alloc(), texts.script_bytes()) {
        Ok(scripts) => scripts,
        Err(fault) => return Err(Unopened::Text(fault)),
    };
    let ledger = open_declared(rt, defs, &declared, path, limit, Whose::Theirs)?;
    Ok((ledger, scripts))
}

/// Runs each script on a thread.
fn run_threads<R, W>(
    rt: &R,
    ledger: Ledger<JournalFile<File>>,
    scripts: &[Script],
    limit: u32,
    out: &mut W,
) -> Result<(), ProgramFault>
where
    R: AllocGlobal + Threads + Wait + Sync,
    W: Write,
    requires some { 1 ≤ limit }
    requires ready { IsReadyFor file_bytes file_may_leave 1 ledger.writer }
{
    let shelf = match Shelf::new(rt.alloc()) {
        Ok(shelf) => shelf,
        Err(refusal) => return Err(ProgramFault::Script(refusal)),
    };
    threads_on_journal::<Brand, R, JournalFile<File>, W>(rt, shelf, ledger, scripts, limit, out)
}
