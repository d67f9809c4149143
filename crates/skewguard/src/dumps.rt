//! `skewguard sqlite`: tables and rows as SQL for SQLite.

ghost use Rattle.std.specs.Prelude.{◌≡◌, ◌≤◌};

use crate::endings::end_run;
use crate::files::{REFUSED, Streams};
use crate::held::read_held;
use crate::ledgers::report_unrestored;
use crate::texts::{Texts, read_texts};
use clap::ArgMatches;
use delta::View;
use durable::restore_tables;
use journal::sum_of;
use replay::{ProgramFault, admit_text};
use sqlite_text::{PrintFault, print_into};
use std::alloc::Global;
use std::io::Write;
use std::rt::Files;
use value::{Refusal, Text};

/// Prints the tables that the words name as SQL for SQLite, with the rows after the last commit of a journal, or those
/// of the definitions where none is named. The journal is only read, and may be in use.
pub fn dump<R, W, E>(rt: &R, words: &ArgMatches<'_>, streams: &mut Streams<'_, W, E>) -> u8
where
    R: Files + AllocGlobal,
    W: Write,
    E: Write,
    ensures { result ≤ 4 }
{
    let alloc = rt.alloc();
    let texts = match read_texts(rt, words, streams) {
        Ok(texts) => texts,
        Err(status) => return status,
    };
    let declared = match admit_text(alloc, texts.defs().bytes) {
        Ok(view) => view,
        Err(refusal) => return end_run(alloc, Err(ProgramFault::Defs(refusal)), &texts, streams),
    };
    match words.get_str("journal") {
        Some(path) => dump_journal(rt, &declared, path, &texts, streams),
        None => print(alloc, &declared, None, &texts, streams),
    }
}

/// Prints the tables with the rows after the last commit of a journal.
fn dump_journal<R, W, E>(
    rt: &R,
    declared: &View,
    path: &str,
    texts: &Texts<'_>,
    streams: &mut Streams<'_, W, E>,
) -> u8
where
    R: Files + AllocGlobal,
    W: Write,
    E: Write,
    ensures { result ≤ 4 }
{
    let sum = sum_of(texts.defs().bytes);
    let held = match read_held(rt, path, Some(sum), streams.err) {
        Ok(held) => held,
        Err(status) => return status,
    };
    let last = held.last();
    let restored = restore_tables(rt.alloc(), declared, &held.found);
    // (its lines take as much memory as the tables)
    drop(held);
    match restored {
        Ok(view) => print(rt.alloc(), &view, Some(last), texts, streams),
        Err(fault) => report_unrestored(fault, path, streams.err),
    }
}

/// Prints tables, with the rows after this commit, and gives the status to end with.
fn print<W: Write, E: Write>(
    alloc: Global,
    view: &View,
    commit: Option<u64>,
    texts: &Texts<'_>,
    streams: &mut Streams<'_, W, E>,
) -> u8
    ensures { result ≤ 3 }
{
    let run = match print_into(alloc, view, commit, streams.out) {
        Ok(()) => Ok(()),
        Err(PrintFault::NoMemory) => Err(ProgramFault::Defs(Refusal::NoMemory)),
        Err(PrintFault::Output) => Err(ProgramFault::Output),
        Err(PrintFault::ReservedName { name }) => {
            return report_table(RESERVED, &name, streams.err);
        }
        Err(PrintFault::ManyColumns { name }) => {
            return report_table(MANY_COLUMNS, &name, streams.err);
        }
    };
    end_run(alloc, run, texts, streams)
}

const RESERVED: &str = "DEFS: SQLite keeps the name of a table for itself: ";

const MANY_COLUMNS: &str = "DEFS: a table has more than the 2000 columns that SQLite takes: ";

/// Says which table SQLite does not take, and gives the status to end with.
fn report_table<E: Write>(why: &str, name: &Text, err: &mut E) -> u8
    ensures { result ≡ 1 }
{
    let _ = err.write_all(why.as_bytes());
    let _ = err.write_all(name.as_bytes());
    let _ = err.write_all(b"\n");
    REFUSED
}
