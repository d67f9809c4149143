//! `skewguard replay` and `skewguard threads`.

ghost use Rattle.std.specs.Prelude.{◌≤◌};

use crate::endings::end_run;
use crate::files::{Streams, USAGE, report_no_memory};
use crate::runs_on_journal::run_on_journal;
use crate::texts::{Texts, limit_of, read_texts};
use clap::ArgMatches;
use replay::{ProgramFault, replay_into};
use session::Shelf;
use std::fs::File;
use std::io::{BufWriter, Write};
use std::marker::Brand;
use std::rt::Files;
use std::sync::Wait;
use std::thread::Threads;
use threads::{Free, threads_into};

/// How a script is run.
#[derive(Clone, Copy, Debug, PartialEq, Eq)]
pub enum Way {
    /// Event by event, as it is written.
    InOrder,
    /// Each session on a thread of its own.
    OnThreads,
}

/// Runs the two files that the words name. On threads they may be run on a journal.
pub fn run<R, W, E>(rt: &R, way: Way, words: &ArgMatches<'_>, streams: &mut Streams<'_, W, E>) -> u8
where
    R: Files<File = File> + AllocGlobal + Threads + Wait + Sync,
    W: Write,
    E: Write,
    ensures { result ≤ 4 }
{
    let Some(limit) = limit_of(words) else {
        return USAGE;
    };
    let texts = match read_texts(rt, words, streams) {
        Ok(texts) => texts,
        Err(status) => return status,
    };
    match (way, words.get_str("journal")) {
        (Way::OnThreads, Some(path)) => run_on_journal(rt, &texts, path, limit, streams),
        _ => run_texts(rt, way, &texts, limit, streams),
    }
}

/// Runs the two texts. What is refused is said in one line on the second stream, and on a terminal with a picture
/// behind it.
fn run_texts<R, W, E>(
    rt: &R,
    way: Way,
    texts: &Texts<'_>,
    limit: u32,
    streams: &mut Streams<'_, W, E>,
) -> u8
where
    R: AllocGlobal + Threads + Wait + Sync,
    W: Write,
    E: Write,
    requires some { 1 ≤ limit }
    ensures { result ≤ 3 }
{
    let alloc = rt.alloc();
    // (a report is written piece by piece)
    let Ok(mut out) = BufWriter::new(alloc, &mut *streams.out) else {
        return report_no_memory(streams.err);
    };
    let (defs, script) = (texts.defs().bytes, texts.script_bytes());
    let run = match way {
        Way::InOrder => replay_into(alloc, defs, script, limit, &mut out),
        Way::OnThreads => run_threads(rt, defs, script, limit, &mut out),
    };
    // (a run that ends early leaves answers in the buffer)
    let _ = out.flush();
    drop(out);
    end_run(alloc, run, texts, streams)
}

/// Runs each session of a script on a thread, which no gate holds.
fn run_threads<R, W>(
    rt: &R,
    defs: &[u8],
    script: &[u8],
    limit: u32,
    out: &mut W,
) -> Result<(), ProgramFault>
where
    R: AllocGlobal + Threads + Wait + Sync,
    W: Write,
    requires some { 1 ≤ limit }
{
    let shelf = match Shelf::new(rt.alloc()) {
        Ok(shelf) => shelf,
        Err(refusal) => return Err(ProgramFault::Script(refusal)),
    };
    threads_into::<Brand, R, Free, W>(rt, rt.alloc(), shelf, 0, defs, script, limit, &Free, out)
}
