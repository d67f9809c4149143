//! The texts, the streams, and the statuses to end with.

ghost use Rattle.std.specs.Prelude.{◌≡◌, ◌≢◌, ◌≤◌, ◌⊎◌, IfErr};
ghost use Rattle.std.specs.IoError.{error_kind};
ghost use Rattle.std.specs.declared.io.ErrorKind.TheVariants.{OutOfMemory};
ghost use Rattle.replay.specs.declared.files.ReadFault.TheVariants.{NoMemory, Unreadable};

use crate::signs::Sign;
use checkup::{Colour, NamedText};
use replay::{ReadFault, fault_of, read_all};
use report::write_refusal;
use std::fs::File;
use std::io;
use std::io::Write;
use std::rt::Files;
use value::Refusal;

/// All went well: a script was run whole, whatever it was answered, or texts have no fault.
pub const WELL: u8 = 0;
/// A text was refused.
pub const REFUSED: u8 = 1;
/// The words of the command line are none that the program takes.
pub const USAGE: u8 = 2;
/// A file can't be read, or the output can't be written.
pub const OUTSIDE: u8 = 3;

/// Where the program writes, and whether its three streams are terminals.
#[derive(Drop)]
pub struct Streams<'a, W, E> {
    pub out: &'a mut W,
    pub err: &'a mut E,
    pub in_is_terminal: bool,
    pub out_is_terminal: bool,
    pub err_is_terminal: bool,
    /// What shows on a terminal that long work goes on.
    pub sign: &'a Sign,
}

/// The colours of a stream.
pub fn colour_of(is_terminal: bool) -> Colour {
    if is_terminal {
        Colour::Terminal
    } else {
        Colour::Plain
    }
}

/// A text with the name of its file.
#[derive(Drop)]
pub struct Source<'a> {
    name: &'a str,
    pub bytes: Vec<u8>,
}

impl<'a> Source<'a> {
    /// The text as a reader is shown it.
    pub fn named(&self) -> NamedText<'_> {
        NamedText {
            name: self.name,
            bytes: self.bytes.as_slice(),
        }
    }
}

/// The text of a file that stands in the command line's place of this name.
///
/// # Errors
///
/// The status to end with, where the file can't be read, of which the second stream then says it.
pub fn read_or_report<'a, R, E>(
    rt: &R,
    place: &str,
    path: &'a str,
    err: &mut E,
) -> Result<Source<'a>, u8>
where
    R: Files + AllocGlobal,
    E: Write,
    ensures { IfErr result (λ status. status ≤ 3) }
{
    match read(rt, path) {
        Ok(bytes) => Ok(Source { name: path, bytes }),
        Err(fault) => Err(report_unread(place, fault, err)),
    }
}

/// The bytes of a file.
fn read<R: Files + AllocGlobal>(rt: &R, path: &str) -> Result<Vec<u8>, ReadFault> {
    match File::open(rt, path) {
        Ok(mut file) => read_all(rt.alloc(), &mut file),
        Err(error) => Err(fault_of(&error)),
    }
}

/// Says that there was no memory for the words of the command line, and gives the status to end with.
pub fn report_no_memory<E: Write>(err: &mut E) -> u8
    ensures { result ≡ 1 }
{
    let _ = err.write_all(b"REFUSED 1 - NO MEMORY\n");
    REFUSED
}

/// Says why the words of the command line were not read, and gives the status to end with: one of them is not UTF-8, as
/// `clap` says it, or there was no memory for them.
pub fn report_unread_words<E: Write>(error: &io::Error, err: &mut E) -> u8
    ensures no_memory { error_kind error.now ≡ OutOfMemory → result ≡ 1 }
    ensures not_utf8 { error_kind error.now ≢ OutOfMemory → result ≡ 2 }
    ensures either { (result ≡ 1) ⊎ (result ≡ 2) }
{
    match fault_of(error) {
        ReadFault::NoMemory => report_no_memory(err),
        ReadFault::Unreadable => {
            let _ = err.write_all(b"error: invalid UTF-8 was detected in one or more arguments\n");
            USAGE
        }
    }
}

/// Says that a file was not read, and gives the status to end with.
fn report_unread<E: Write>(name: &str, fault: ReadFault, err: &mut E) -> u8
    ensures unreadable { fault ≡ Unreadable → result ≡ 3 }
    ensures no_memory { fault ≡ NoMemory → result ≡ 1 }
    ensures either { (result ≡ 1) ⊎ (result ≡ 3) }
{
    match fault {
        ReadFault::NoMemory => report_refused(name, &Refusal::NoMemory, err),
        ReadFault::Unreadable => {
            let _ = err.write_all(name.as_bytes());
            let _ = err.write_all(b": UNREADABLE\n");
            OUTSIDE
        }
    }
}

/// Says why a text was refused, and gives the status to end with.
pub fn report_refused<E: Write>(name: &str, refusal: &Refusal, err: &mut E) -> u8
    ensures { result ≡ 1 }
{
    let _ = write_refusal(name, refusal, err);
    REFUSED
}
