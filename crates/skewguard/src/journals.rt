//! `skewguard journal`: what a journal's file holds.

ghost use Rattle.std.specs.Prelude.{◌≤◌};

use crate::files::{OUTSIDE, Streams, USAGE, WELL, report_no_memory};
use crate::follows::follow;
use crate::held::{Held, read_held};
use clap::ArgMatches;
use journal::Entry;
use std::fs::File;
use std::io;
use std::io::{BufWriter, Write};
use std::rt::Files;
use std::time::Clock;
use table::{Change, Row};

/// Prints what the journal that the words name holds, or each of its commits, and those that come while it is in use.
/// The file is only read.
pub fn show<R, W, E>(rt: &R, words: &ArgMatches<'_>, streams: &mut Streams<'_, W, E>) -> u8
where
    R: Files<File = File> + AllocGlobal + Clock,
    W: Write,
    E: Write,
    ensures { result ≤ 4 }
{
    let Some(path) = words.get_str("FILE") else {
        return USAGE;
    };
    let held = match read_held(rt, path, None, streams.err) {
        Ok(held) => held,
        Err(status) => return status,
    };
    // (there is a write for each part of a line)
    let Ok(mut out) = BufWriter::new(rt.alloc(), &mut *streams.out) else {
        return report_no_memory(streams.err);
    };
    let follows = words.get_flag("follow");
    let written = if follows || words.get_flag("commits") {
        write_commits(&held, &mut out)
    } else {
        write_items(&held, &mut out)
    };
    let status = match written {
        Ok(()) if follows => follow(rt, path, &held, &mut out, streams.err),
        Ok(()) => WELL,
        Err(_) => OUTSIDE,
    };
    drop(out);
    status
}

/// Writes an item a line: of which definitions a file is, its image, its commits, and what a crash left behind them.
fn write_items<W: Write>(held: &Held, out: &mut W) -> io::Result<()> {
    write!(out, "definitions {}\n", held.header.declared)?;
    if let Some((image, commits)) = held.found.entries.split_first() {
        write_range(image, commits, out)?;
    }
    if held.torn > 0 {
        write!(out, "torn: {} bytes behind the lines\n", held.torn)?;
    }
    out.flush()
}

fn write_range<W: Write>(image: &Entry, commits: &[Entry], out: &mut W) -> io::Result<()> {
    let (first, rows) = (image.number, image.changes.len());
    write!(out, "image after commit {first}: {rows} rows\n")?;
    match (commits.first(), commits.last()) {
        (Some(first), Some(last)) => write!(out, "commits {} to {}\n", first.number, last.number),
        _ => out.write_all(b"no commits\n"),
    }
}

/// Writes the commits behind the image.
fn write_commits<W: Write>(held: &Held, out: &mut W) -> io::Result<()> {
    match held.found.entries.split_first() {
        Some((_, commits)) => write_entries(commits, out),
        None => out.flush(),
    }
}

/// Writes commits, each changed row on a line of its own that begins with the commit's number.
pub fn write_entries<W: Write>(commits: &[Entry], out: &mut W) -> io::Result<()> {
    for commit in commits {
        write_commit(commit, out)?;
    }
    out.flush()
}

fn write_commit<W: Write>(commit: &Entry, out: &mut W) -> io::Result<()> {
    let number = commit.number;
    if commit.changes.is_empty() {
        return write!(out, "commit {number}: no changes\n");
    }
    for change in commit.changes.as_slice() {
        write_change(number, change, out)?;
    }
    Ok(())
}

fn write_change<W: Write>(number: u64, change: &Change, out: &mut W) -> io::Result<()> {
    write!(out, "commit {number}: table {}: ", change.table)?;
    write_row(change.old.as_ref(), out)?;
    out.write_all(b" -> ")?;
    write_row(change.new.as_ref(), out)?;
    out.write_all(b"\n")
}

/// Writes a row, or that there is none.
fn write_row<W: Write>(row: Option<&Row>, out: &mut W) -> io::Result<()> {
    let Some(row) = row else {
        return out.write_all(b"none");
    };
    let mut before = "(";
    for value in row.values() {
        write!(out, "{before}{value}")?;
        before = ", ";
    }
    out.write_all(b")")
}
