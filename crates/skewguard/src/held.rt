//! What a journal's file holds, and what is said of one that holds nothing.

ghost use Rattle.std.specs.Prelude.{◌≡◌, ◌≤◌, IfErr};

use crate::files::{REFUSED, read_or_report, report_no_memory};
use journal::{Header, JournalFault, Recovered, read_header, recover};
use std::alloc::Global;
use std::io::Write;
use std::rt::Files;

/// A journal's file is damaged, and says nothing.
pub const DAMAGED: u8 = 4;

/// A file is read so often before it is called damaged: a commit that is written while it is read can look so.
const READS: u32 = 3;

/// What a journal's file holds.
#[derive(Drop)]
pub struct Held {
    pub header: Header,
    pub found: Recovered,
    /// The byte behind the last line.
    pub end: usize,
    /// How many bytes a crash has left behind the lines.
    pub torn: usize,
}

impl Held {
    /// The number of the last commit, or of the image where there is none.
    pub fn last(&self) -> u64 {
        match self.found.entries.last() {
            Some(entry) => entry.number,
            None => self.header.first,
        }
    }
}

/// Why a file says nothing.
#[derive(Clone, Copy)]
enum Unheld {
    NoMemory,
    /// It does not begin as a journal does.
    Headless,
    /// It is of other definitions.
    OfOthers,
    /// The line of this commit, which begins at this byte, is damaged or missing.
    Damaged { number: u64, at: usize },
}

impl Unheld {
    /// Whether the file may say something when it is read again.
    fn may_pass(self) -> bool {
        matches!(self, Unheld::Damaged { .. })
    }
}

/// What a journal's file holds, of definitions with this sum, if one is given. The file is only read, and may be in
/// use.
///
/// # Errors
///
/// The status to end with, where the file says nothing, of which `err` then says why.
pub fn read_held<R, E>(rt: &R, path: &str, declared: Option<u64>, err: &mut E) -> Result<Held, u8>
where
    R: Files + AllocGlobal,
    E: Write,
    ensures { IfErr result (λ status. status ≤ 4) }
{
    let mut fault = Unheld::NoMemory;
    for _ in 0..READS {
        let source = read_or_report(rt, "FILE", path, err)?;
        match take_held(rt.alloc(), &source.bytes, declared) {
            Ok(held) => return Ok(held),
            Err(found) => fault = found,
        }
        if !fault.may_pass() {
            break;
        }
    }
    Err(report_unheld(fault, path, err))
}

/// What a file holds that has these bytes.
fn take_held(alloc: Global, bytes: &[u8], declared: Option<u64>) -> Result<Held, Unheld> {
    let Some((header, body)) = read_header(bytes) else {
        return Err(Unheld::Headless);
    };
    if matches!(declared, Some(sum) if sum != header.declared) {
        return Err(Unheld::OfOthers);
    }
    let base = bytes.len().saturating_sub(body.len());
    let found = recover_body(alloc, header.first, base, body)?;
    let torn = torn_bytes(body, found.end);
    let end = base.saturating_add(found.end);
    Ok(Held {
        header,
        found,
        end,
        torn,
    })
}

/// How many bytes stand behind the lines up to the last one that is not zero.
fn torn_bytes(body: &[u8], end: usize) -> usize {
    let tail = body.get(end..).unwrap_or_default();
    match tail.iter().rposition(|byte| *byte != 0) {
        Some(last) => last.saturating_add(1),
        None => 0,
    }
}

/// The image, which has this number, and the commits of a body that begins at this byte.
fn recover_body(alloc: Global, first: u64, base: usize, body: &[u8]) -> Result<Recovered, Unheld> {
    let found = match recover(alloc, first, body) {
        Ok(found) => found,
        Err(JournalFault::Damaged { number, at }) => {
            return Err(Unheld::Damaged {
                number,
                at: base.saturating_add(at),
            });
        }
        Err(JournalFault::NoMemory) => return Err(Unheld::NoMemory),
    };
    if found.entries.is_empty() {
        return Err(Unheld::Damaged {
            number: first,
            at: base,
        });
    }
    Ok(found)
}

/// Says why a file says nothing, and gives the status to end with.
fn report_unheld<E: Write>(fault: Unheld, path: &str, err: &mut E) -> u8
    ensures { result ≤ 4 }
{
    match fault {
        Unheld::NoMemory => report_no_memory(err),
        Unheld::Headless => report_headless(path, err),
        Unheld::OfOthers => report_of_others(path, err),
        Unheld::Damaged { number, at } => report_damaged(path, number, at, err),
    }
}

/// Says that a file is no journal, and gives the status to end with.
pub fn report_headless<E: Write>(path: &str, err: &mut E) -> u8
    ensures { result ≡ 1 }
{
    let _ = write!(
        err,
        "error: {path} is no journal: it does not begin with the line of one\n"
    );
    REFUSED
}

/// Says that a journal is of other definitions, and gives the status to end with.
pub fn report_of_others<E: Write>(path: &str, err: &mut E) -> u8
    ensures { result ≡ 1 }
{
    let _ = write!(
        err,
        "error: the journal {path} is of other definitions\nhint: skewguard checkpoint DEFS --journal {path} \
        takes these for what it holds\n"
    );
    REFUSED
}

/// Says which commit of a journal is missing, and where its line begins, and gives the status to end with.
pub fn report_damaged<E: Write>(path: &str, number: u64, at: usize, err: &mut E) -> u8
    ensures { result ≡ 4 }
{
    let _ = write!(
        err,
        "error: the journal {path} is damaged at byte {at}: commit {number} is missing\n"
    );
    DAMAGED
}
