//! What a journal says, after whatever a crash made of it.

ghost use Rattle.std.specs.Prelude.{◌≡◌, ◌≢◌, ◌+◌, length, Some, None, IfOk, IfErr};
ghost use Rattle.std.specs.Option.{option_map};
ghost use Rattle.journal.specs.declared.faults.JournalFault.TheVariants.{NoMemory};
ghost use Rattle.journal.specs.Reading.{line_at};
ghost use Rattle.journal.specs.Recovery as recovery;
ghost use Rattle.journal.specs.Tails.{fed, lines_of, tail_of};

use crate::entries::Entry;
use crate::faults::{EntryFault, JournalFault};
use crate::reading::{read_entry, read_piece};
use std::alloc::{AllocError, Global};

/// The commits of a journal.
#[derive(Drop)]
pub struct Recovered {
    /// In their order.
    pub entries: Vec<Entry>,
    /// Where their lines end.
    pub end: usize,
}

/// The line in front, between two line feeds, and the bytes behind it; nothing where a zero or the end comes first.
pub fn next_line(bytes: &[u8]) -> Option<(&[u8], &[u8])>
    ensures { option_map (λ x. (x.0.now, x.1.now)) result ≡ line_at bytes.now }
{
    let [feed, rest @ ..] = bytes else {
        return None;
    };
    if *feed == 10 {
        read_piece(10, rest)
    } else {
        None
    }
}

/// The number of the commit behind so many, of which the first has this one.
fn next_number(first: u64, count: usize) -> u128
    ensures { result ≡ first + count }
{
    u128::from(first) + count as u128
}

/// The fault that this many commits are whole, and that the next line, which begins at this byte, is damaged.
fn damaged(first: u64, count: usize, at: usize) -> JournalFault
    ensures { result ≢ NoMemory }
{
    let number = first.saturating_add(count as u64);
    JournalFault::Damaged { number, at }
}

/// The commit of the line behind so many, if it has its number.
#[tactic(auto, unfolding(crate::specs::Recovery::entry_at))]
fn read_next(
    alloc: Global,
    first: u64,
    count: usize,
    at: usize,
    line: &[u8],
) -> Result<Entry, JournalFault>
    ensures found { IfOk result (λ entry. recovery.entry_at (first + count) line.now ≡ Some entry) }
    ensures refused { IfErr result (λ fault. fault ≢ NoMemory → recovery.entry_at (first + count) line.now ≡ None) }
{
    match read_entry(alloc, line) {
        Ok(entry) => {
            if u128::from(entry.number) == next_number(first, count) {
                Ok(entry)
            } else {
                Err(damaged(first, count, at))
            }
        }
        Err(EntryFault::NoMemory) => Err(JournalFault::NoMemory),
        Err(EntryFault::Malformed) => Err(damaged(first, count, at)),
    }
}

/// The commits of the lines in front, the first of which has this number, and what stands behind them.
pub fn read_lines(
    alloc: Global,
    first: u64,
    bytes: &[u8],
) -> Result<(Vec<Entry>, &[u8]), JournalFault>
    ensures found { IfOk result (λ read. recovery.recovered first bytes.now ≡ Some read.0.items) }
    ensures behind { IfOk result (λ read. read.1.now ≡ tail_of bytes.now) }
    ensures refused { IfErr result (λ fault. fault ≢ NoMemory → recovery.recovered first bytes.now ≡ None) }
{
    let mut entries = Vec::new(alloc);
    let mut rest = bytes;
    while let Some((line, behind)) = next_line(rest) {
        let at = bytes.len().saturating_sub(rest.len());
        let entry = read_next(alloc, first, entries.len(), at, line)?;
        entries.push(entry)?;
        rest = behind;
    }
    Ok((entries, rest))
}

/// Whether no whole line in front says that this commit was on the disk when it was written.
#[tactic(auto, unfolding(crate::specs::Recovery::is_silent_at))]
fn is_silent_at(alloc: Global, number: u128, bytes: &[u8]) -> Result<bool, AllocError>
    ensures { IfOk result (λ silent. silent ≡ recovery.is_silent_at number bytes.now) }
{
    let Some((line, _)) = next_line(bytes) else {
        return Ok(true);
    };
    match read_entry(alloc, line) {
        Ok(entry) => Ok(u128::from(entry.durable) < number),
        Err(EntryFault::NoMemory) => Err(AllocError),
        Err(EntryFault::Malformed) => Ok(true),
    }
}

/// Whether none does so that begins anywhere.
fn is_silent(alloc: Global, number: u128, tail: &[u8]) -> Result<bool, AllocError>
    ensures { IfOk result (λ silent. silent ≡ recovery.is_silent number tail.now) }
{
    let mut rest = tail;
    while let [_, behind @ ..] = rest {
        if !is_silent_at(alloc, number, rest)? {
            return Ok(false);
        }
        rest = behind;
    }
    Ok(true)
}

/// Whether a zero stands in front, or the line feed of a line, or nothing.
fn begins_torn(tail: &[u8]) -> bool
    ensures { result ≡ recovery.begins_torn tail.now }
{
    match tail {
        [byte, ..] => *byte == 0 || *byte == 10,
        [] => true,
    }
}

/// Whether a crash may have left these bytes where this commit would stand.
fn is_torn(alloc: Global, number: u128, tail: &[u8]) -> Result<bool, AllocError>
    ensures { IfOk result (λ torn. torn ≡ recovery.is_torn number tail.now) }
{
    if !begins_torn(tail) {
        return Ok(false);
    }
    is_silent(alloc, number, tail)
}

/// The commits of a journal, the first of which has this number. What stands behind their lines is what a crash tore,
/// or nothing.
pub fn recover(alloc: Global, first: u64, bytes: &[u8]) -> Result<Recovered, JournalFault>
    ensures found { IfOk result (λ read. recovery.said first bytes.now ≡ Some read.entries.items) }
    ensures end { IfOk result (λ read. read.end ≡ length (fed (lines_of bytes.now))) }
    ensures refused { IfErr result (λ fault. fault ≢ NoMemory → recovery.said first bytes.now ≡ None) }
{
    let (entries, rest) = read_lines(alloc, first, bytes)?;
    let end = bytes.len().saturating_sub(rest.len());
    if is_torn(alloc, next_number(first, entries.len()), rest)? {
        Ok(Recovered { entries, end })
    } else {
        Err(damaged(first, entries.len(), end))
    }
}
