//! `skewguard shell`.

ghost use Rattle.std.specs.Prelude.{◌≤◌};

use crate::endings::end_run;
use crate::files::{OUTSIDE, Streams, USAGE, WELL, report_no_memory};
use crate::ledgers::{OnJournal, serve_on_journal};
use crate::texts::{Texts, limit_of, read_texts};
use clap::ArgMatches;
use shell::{ShellFault, converse_into, shell_into};
use std::alloc::Global;
use std::fs::File;
use std::io::{BufReader, BufWriter, Input, Write};
use std::rt::Files;

/// Answers what comes on standard input, on the definitions that the words name.
pub fn serve<R, W, E>(rt: &R, words: &ArgMatches<'_>, streams: &mut Streams<'_, W, E>) -> u8
where
    R: Files<File = File> + Input + AllocGlobal,
    W: Write,
    E: Write,
    ensures { result ≤ 4 }
{
    let Some(limit) = limit_of(words) else {
        return USAGE;
    };
    let texts = match read_texts(rt, words, streams) {
        Ok(texts) => texts,
        Err(status) => return status,
    };
    let with_report = words.get_flag("report");
    match words.get_str("journal") {
        Some(path) => {
            let on_journal = OnJournal {
                defs: texts.defs().bytes,
                path,
                limit,
                with_report,
                sync_every: number_of(words, "sync-every"),
                checkpoint_bytes: number_of(words, "checkpoint-bytes"),
            };
            serve_on_journal(rt, &texts, on_journal, streams)
        }
        None => serve_on(rt, &texts, limit, with_report, streams),
    }
}

/// The number of an option that has one when it is not named.
fn number_of(words: &ArgMatches<'_>, option: &str) -> u64 {
    match words.get_one::<u32>(option) {
        Some(number) => u64::from(number),
        None => 1,
    }
}

/// Talks to a person where both ends are a terminal. Else the answers alone are written.
fn serve_on<R, W, E>(
    rt: &R,
    texts: &Texts<'_>,
    limit: u32,
    with_report: bool,
    streams: &mut Streams<'_, W, E>,
) -> u8
where
    R: Input + AllocGlobal,
    W: Write,
    E: Write,
    ensures { result ≤ 3 }
{
    let alloc = rt.alloc();
    let defs = texts.defs().bytes;
    let Ok(mut input) = BufReader::new(alloc, rt.reader()) else {
        return report_no_memory(streams.err);
    };
    // (an answer is written piece by piece, and the shell flushes what it has answered before it reads on)
    let Ok(mut out) = BufWriter::new(alloc, &mut *streams.out) else {
        return report_no_memory(streams.err);
    };
    let served = if streams.in_is_terminal && streams.out_is_terminal {
        converse_into(alloc, defs, limit, with_report, &mut input, &mut out)
    } else {
        shell_into(alloc, defs, limit, with_report, &mut input, &mut out)
    };
    let _ = out.flush();
    drop(out);
    end_shell(alloc, served, texts, streams)
}

/// The status to end with. What can't be read is said in one line on the second stream.
pub fn end_shell<W: Write, E: Write>(
    alloc: Global,
    served: Result<(), ShellFault>,
    texts: &Texts<'_>,
    streams: &mut Streams<'_, W, E>,
) -> u8
    ensures { result ≤ 3 }
{
    match served {
        Ok(()) => WELL,
        Err(ShellFault::Run(fault)) => end_run(alloc, Err(fault), texts, streams),
        Err(ShellFault::Input) => {
            let _ = streams.err.write_all(b"INPUT: UNREADABLE\n");
            OUTSIDE
        }
    }
}
