//! Files, readers and writers that fail, and a reader of which nothing is read.

use crate::texts::defs_of;
use histories::SHIFT_WRITE_SKEW;
use replay::{ProgramFault, ReadFault, fault_of, read_all, replay_into};
use shell::{ShellFault, shell_into};
use std::io;
use std::io::{BufReader, ErrorKind, Read, Write};
use std::test::Fail;

/// A call of a reader or a writer, which fails where its number is the one that fails.
fn call(calls: &mut usize, fails_at: usize) -> io::Result<()> {
    let now = *calls;
    *calls = now.saturating_add(1);
    if now == fails_at {
        Err(io::Error::from(ErrorKind::BrokenPipe))
    } else {
        Ok(())
    }
}

/// A reader that has some bytes, gives seven at a call and fails at one.
#[derive(Drop)]
struct BrittleReader<'a> {
    left: &'a [u8],
    calls: usize,
    fails_at: usize,
}

impl Read for BrittleReader<'_> {
    fn read(&mut self, buf: &mut [u8]) -> io::Result<usize> {
        call(&mut self.calls, self.fails_at)?;
        let most = buf.len().min(7);
        self.left.read(&mut buf[..most])
    }
}

/// A writer that takes seven bytes at a call and fails at one.
#[derive(Drop)]
pub struct BrittleWriter {
    calls: usize,
    fails_at: usize,
}

impl BrittleWriter {
    pub fn new(fails_at: usize) -> BrittleWriter {
        BrittleWriter { calls: 0, fails_at }
    }

    /// How often it was called.
    pub fn calls(&self) -> usize {
        self.calls
    }
}

impl Write for BrittleWriter {
    fn write(&mut self, buf: &[u8]) -> io::Result<usize> {
        call(&mut self.calls, self.fails_at)?;
        Ok(buf.len().min(7))
    }

    fn flush(&mut self) -> io::Result<()> {
        call(&mut self.calls, self.fails_at)
    }
}

/// The reader fails at each of its calls in turn, and so the file can't be read; where it fails at none, all is read.
#[test]
fn readers_that_fail(rt: HostRuntime) -> Result<(), Fail> {
    let script = SHIFT_WRITE_SKEW.script.as_bytes();
    for fails_at in 0..1000 {
        let mut reader = BrittleReader {
            left: script,
            calls: 0,
            fails_at,
        };
        let read = read_all(rt.alloc(), &mut reader);
        if reader.calls <= fails_at {
            assert!(rt; matches!(&read, Ok(bytes) if bytes.as_slice() == script));
            return Ok(());
        }
        assert!(rt; matches!(&read, Err(ReadFault::Unreadable)));
        assert_eq!(rt; reader.calls, fails_at.saturating_add(1));
    }
    Err(Fail::from("each run met a fault of the reader"))
}

/// Want of memory is told from all else that may befall a file.
#[test]
fn faults_of_files(rt: HostRuntime) -> Result<(), Fail> {
    for (kind, fault) in [
        (ErrorKind::OutOfMemory, ReadFault::NoMemory),
        (ErrorKind::NotFound, ReadFault::Unreadable),
        (ErrorKind::PermissionDenied, ReadFault::Unreadable),
    ] {
        assert_eq!(rt; fault_of(&io::Error::from(kind)), fault);
    }
    Ok(())
}

/// The writer fails at each of its calls in turn: the run ends there, and nothing more is asked of the writer.
#[test]
fn writers_that_fail(rt: HostRuntime) -> Result<(), Fail> {
    let defs = defs_of(rt.alloc(), &SHIFT_WRITE_SKEW)?;
    let script = SHIFT_WRITE_SKEW.script.as_bytes();
    for fails_at in 0..1000 {
        let mut out = BrittleWriter::new(fails_at);
        let run = replay_into(rt.alloc(), defs.as_bytes(), script, 10, &mut out);
        if out.calls <= fails_at {
            assert!(rt; run.is_ok());
            return Ok(());
        }
        assert!(rt; matches!(run, Err(ProgramFault::Output)));
        assert_eq!(rt; out.calls, fails_at.saturating_add(1));
    }
    Err(Fail::from("each run met a fault of the writer"))
}

fn count_of(wanted: u8, bytes: &[u8]) -> usize {
    bytes.iter().filter(|byte| **byte == wanted).count()
}

/// The reader fails at each of its calls in turn: each event whose semicolon came before is answered, with its one
/// line, and no other.
#[test]
fn events_before_a_fault_of_the_reader(rt: HostRuntime) -> Result<(), Fail> {
    let defs = defs_of(rt.alloc(), &SHIFT_WRITE_SKEW)?;
    let script = SHIFT_WRITE_SKEW.script.as_bytes();
    let answers = SHIFT_WRITE_SKEW.answers.as_bytes();
    for fails_at in 0..1000 {
        let reader = BrittleReader {
            left: script,
            calls: 0,
            fails_at,
        };
        let mut input = BufReader::new(rt.alloc(), reader)?;
        let mut out = Vec::new(rt.alloc());
        let talk = shell_into(rt.alloc(), defs.as_bytes(), 10, false, &mut input, &mut out);
        if input.get_ref().calls <= fails_at {
            assert_eq!(rt; out.as_slice(), answers);
            return Ok(());
        }
        assert!(rt; matches!(talk, Err(ShellFault::Input)));
        let read = fails_at.saturating_mul(7).min(script.len());
        assert!(rt; answers.starts_with(out.as_slice()));
        assert_eq!(rt;
            count_of(b'\n', out.as_slice()),
            count_of(b';', &script[..read])
        );
    }
    Err(Fail::from("each talk met a fault of the reader"))
}

/// Where the definitions are refused, no event is read and nothing is written.
#[test]
fn definitions_that_are_refused(rt: HostRuntime) -> Result<(), Fail> {
    let alloc = rt.alloc();
    let mut out = Vec::new(alloc);
    let mut bytes = "BEGIN;".as_bytes();
    let run = shell_into(alloc, b"CREATE TABEL", 1000, true, &mut bytes, &mut out);
    let refused = matches!(run, Err(ShellFault::Run(ProgramFault::Defs(_))));
    assert_eq!(&rt; refused, true);
    assert_eq!(&rt; out.is_empty(), true);
    assert_eq!(&rt; bytes.len(), 6);
    Ok(())
}
