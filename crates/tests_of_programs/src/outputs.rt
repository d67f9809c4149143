//! What prints beside a run, for a writer that fails and where nothing is printed: `skewguard check`, `explain`,
//! `picture`, `postgresql` and `sqlite`.

use checkup::{CheckFault, Colour, NamedText, Style, check_into};
use commit::admit;
use delta::View;
use explain::{ExplainFault, explain_into};
use parse::parse_schema;
use picture::picture_into;
use postgresql::{PrintFault, print_into};
use replay::ProgramFault;
use std::alloc::Global;
use std::io;
use std::io::{ErrorKind, Write};
use std::test::Fail;
use value::Refusal;

const DEFS: &str = "CREATE TABLE T (ID INTEGER PRIMARY KEY); INSERT INTO T VALUES (7);";

/// A writer that takes some calls, and then fails at each.
#[derive(Drop)]
struct Brittle {
    left: usize,
}

impl Brittle {
    fn call(&mut self) -> io::Result<()> {
        if self.left == 0 {
            return Err(io::Error::from(ErrorKind::BrokenPipe));
        }
        self.left -= 1;
        Ok(())
    }
}

impl Write for Brittle {
    fn write(&mut self, buf: &[u8]) -> io::Result<usize> {
        self.call()?;
        Ok(buf.len())
    }

    fn flush(&mut self) -> io::Result<()> {
        self.call()
    }
}

/// The text and the flush are a call each.
#[test]
fn checks_for_a_writer_that_fails(rt: HostRuntime) -> Result<(), Fail> {
    let alloc = rt.alloc();
    let defs = NamedText {
        name: "defs.sql",
        bytes: DEFS.as_bytes(),
    };
    for calls in 0..3 {
        let mut out = Brittle { left: calls };
        let style = Style::Text(Colour::Plain);
        let fault = check_into(alloc, defs, None, style, &mut out).err();
        let is_output = matches!(fault, Some(CheckFault::Output));
        assert!(&rt; is_output == (calls < 2), "{calls}");
    }
    Ok(())
}

/// What is printed is one write, and then it is flushed.
#[test]
fn explanations_for_a_writer_that_fails(rt: HostRuntime) -> Result<(), Fail> {
    let alloc = rt.alloc();
    for calls in 0..2 {
        let mut out = Brittle { left: calls };
        let explained = explain_into(alloc, DEFS.as_bytes(), b"A: COMMIT;", 1, None, &mut out);
        assert!(&rt; matches!(explained, Err(ExplainFault::Run(ProgramFault::Output))));
    }
    Ok(())
}

/// Nothing is written where there is no event of the number.
#[test]
fn no_event(rt: HostRuntime) -> Result<(), Fail> {
    let alloc = rt.alloc();
    let mut out = Vec::new(alloc);
    let explained = explain_into(alloc, DEFS.as_bytes(), b"A: BEGIN;", 1, Some(2), &mut out);
    assert!(rt; matches!(explained, Err(ExplainFault::NoEvent(1))));
    assert!(rt; out.is_empty());
    Ok(())
}

/// What is printed is one write, and then it is flushed.
#[test]
fn pictures_for_a_writer_that_fails(rt: HostRuntime) -> Result<(), Fail> {
    let alloc = rt.alloc();
    for calls in 0..2 {
        let mut out = Brittle { left: calls };
        let picture = picture_into(alloc, DEFS.as_bytes(), b"A: COMMIT;", 1, &mut out);
        assert!(&rt; matches!(picture, Err(ProgramFault::Output)));
    }
    Ok(())
}

/// The tables and assertions of a text.
fn view_of(alloc: Global, defs: &str) -> Result<View, Refusal> {
    let definitions = parse_schema(alloc, defs.as_bytes())?;
    let view = admit(alloc, definitions.as_slice());
    drop(definitions);
    view
}

/// The rows, the rules and the flush are a call each.
#[test]
fn translations_for_a_writer_that_fails(rt: HostRuntime) -> Result<(), Fail> {
    let alloc = rt.alloc();
    let view = view_of(alloc, DEFS)?;
    for calls in 0..3 {
        let mut out = Brittle { left: calls };
        let printed = print_into(alloc, &view, &mut out);
        assert!(&rt; matches!(printed, Err(PrintFault::Output)), "{calls}");
    }
    Ok(())
}

/// Nothing is written of a name that is too long for PostgreSQL.
#[test]
fn names_too_long_for_postgresql(rt: HostRuntime) -> Result<(), Fail> {
    let alloc = rt.alloc();
    let defs = "CREATE TABLE A123456789B123456789C123456789D123456789E123456789F123456789G123
        (ID INTEGER PRIMARY KEY);";
    let view = view_of(alloc, defs)?;
    let mut out = Vec::new(alloc);
    let printed = print_into(alloc, &view, &mut out);
    drop(view);
    assert!(&rt; matches!(printed, Err(PrintFault::LongName { .. })));
    assert!(&rt; out.is_empty());
    Ok(())
}

/// What is printed of few rows is one write, and then it is flushed.
#[test]
fn rows_for_a_writer_that_fails(rt: HostRuntime) -> Result<(), Fail> {
    let alloc = rt.alloc();
    let view = view_of(alloc, DEFS)?;
    for calls in 0..2 {
        let mut out = Brittle { left: calls };
        let printed = sqlite_text::print_into(alloc, &view, Some(2), &mut out);
        assert!(&rt;
            matches!(printed, Err(sqlite_text::PrintFault::Output)),
            "{calls}"
        );
    }
    Ok(())
}

/// Nothing is written of a table whose name SQLite keeps for itself.
#[test]
fn names_of_sqlite(rt: HostRuntime) -> Result<(), Fail> {
    let alloc = rt.alloc();
    let view = view_of(alloc, "CREATE TABLE sqlite_t (ID INTEGER PRIMARY KEY);")?;
    let mut out = Vec::new(alloc);
    let printed = sqlite_text::print_into(alloc, &view, None, &mut out);
    drop(view);
    assert!(&rt; matches!(printed, Err(sqlite_text::PrintFault::ReservedName { .. })));
    assert!(&rt; out.is_empty());
    Ok(())
}
