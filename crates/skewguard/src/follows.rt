//! `skewguard journal --follow`: commits as they come.

ghost use Rattle.std.specs.Prelude.{◌≤◌, IfErr};

use crate::files::OUTSIDE;
use crate::held::{Held, read_held};
use crate::journals::write_entries;
use journal::{Recovered, read_header, recover};
use std::fs::File;
use std::io::Write;
use std::os::unix::fs::FileExt;
use std::rt::Files;
use std::time::{Clock, Duration};
use std::{io, thread};

/// A file is looked at again after so many milliseconds.
const PAUSE: u64 = 200;

/// No header has as many bytes.
const HEAD: usize = 128;

/// How far a journal was printed.
#[derive(Clone, Copy)]
struct Shown {
    /// The first number of its header: another, where a checkpoint has put another file in its place.
    first: u64,
    /// The last commit that was printed.
    last: u64,
    /// The byte behind its line.
    end: u64,
}

impl Shown {
    /// All that a file holds was printed.
    fn all_of(held: &Held) -> Shown {
        Shown {
            first: held.header.first,
            last: held.last(),
            end: held.end as u64,
        }
    }
}

/// Prints the commits that come behind those that a journal holds, until they can't be printed any more.
pub fn follow<R, W, E>(rt: &R, path: &str, held: &Held, out: &mut W, err: &mut E) -> u8
where
    R: Files<File = File> + AllocGlobal + Clock,
    W: Write,
    E: Write,
    ensures { result ≤ 4 }
{
    let mut shown = Shown::all_of(held);
    for _ in 0..u64::MAX {
        thread::sleep(rt, Duration::from_millis(PAUSE));
        match print_more(rt, path, shown, out, err) {
            Ok(more) => shown = more,
            Err(status) => return status,
        }
    }
    OUTSIDE
}

/// Prints the commits that have come since.
///
/// # Errors
///
/// The status to end with, where they can't be printed, or the file says nothing any more.
fn print_more<R, W, E>(
    rt: &R,
    path: &str,
    shown: Shown,
    out: &mut W,
    err: &mut E,
) -> Result<Shown, u8>
where
    R: Files<File = File> + AllocGlobal,
    W: Write,
    E: Write,
    ensures { IfErr result (λ status. status ≤ 4) }
{
    match read_more(rt, path, shown) {
        Ok(Some(found)) => match write_entries(found.entries.as_slice(), out) {
            Ok(()) => Ok(behind(shown, &found)),
            Err(_) => Err(OUTSIDE),
        },
        // (a line that is being written is whole the next time)
        Ok(None) => Ok(shown),
        Err(_) => print_anew(rt, path, shown, out, err),
    }
}

/// How far a journal was printed, with these commits behind the last.
fn behind(shown: Shown, found: &Recovered) -> Shown {
    match found.entries.last() {
        None => shown,
        Some(entry) => Shown {
            first: shown.first,
            last: entry.number,
            end: shown.end.saturating_add(found.end as u64),
        },
    }
}

/// The commits behind those that were printed; none where a line among them is not whole.
///
/// # Errors
///
/// Another file has the name by now, or the file can't be read.
fn read_more<R: Files<File = File> + AllocGlobal>(
    rt: &R,
    path: &str,
    shown: Shown,
) -> io::Result<Option<Recovered>> {
    let file = File::open(rt, path)?;
    let mut head = [0u8; HEAD];
    let count = file.read_at(&mut head, 0)?;
    match read_header(head.get(..count).unwrap_or_default()) {
        Some((header, _)) if header.first == shown.first => {}
        _ => return Err(io::Error::from(io::ErrorKind::NotFound)),
    }
    let left = file.metadata()?.len().saturating_sub(shown.end);
    let mut bytes = Vec::from_elem(rt.alloc(), 0u8, left as usize)?;
    let count = file.read_at(bytes.as_mut_slice(), shown.end)?;
    let more = bytes.get(..count).unwrap_or_default();
    Ok(recover(rt.alloc(), shown.last.saturating_add(1), more).ok())
}

/// Prints the commits of another file behind those that were printed. Where some are in its image alone, that is said.
fn print_anew<R, W, E>(
    rt: &R,
    path: &str,
    shown: Shown,
    out: &mut W,
    err: &mut E,
) -> Result<Shown, u8>
where
    R: Files<File = File> + AllocGlobal,
    W: Write,
    E: Write,
    ensures { IfErr result (λ status. status ≤ 4) }
{
    let held = read_held(rt, path, None, err)?;
    match write_behind(&held, shown.last, out) {
        Ok(()) => Ok(Shown::all_of(&held)),
        Err(_) => Err(OUTSIDE),
    }
}

/// Writes the commits of a file behind the one of a number.
fn write_behind<W: Write>(held: &Held, last: u64, out: &mut W) -> io::Result<()> {
    let image = held.header.first;
    if image > last {
        let next = last.saturating_add(1);
        write!(out, "commits {next} to {image}: in the image\n")?;
    }
    let entries = held.found.entries.as_slice();
    let printed = last.max(image).saturating_sub(image).saturating_add(1);
    write_entries(entries.get(printed as usize..).unwrap_or_default(), out)
}
