//! `skewguard postgresql`.

ghost use Rattle.std.specs.Prelude.{◌≡◌, ◌≤◌};

use crate::endings::end_run;
use crate::files::{REFUSED, Streams};
use crate::texts::read_texts;
use clap::ArgMatches;
use commit::admit;
use delta::View;
use parse::parse_schema;
use postgresql::{PrintFault, print_into};
use replay::ProgramFault;
use std::alloc::Global;
use std::io::Write;
use std::rt::Files;
use value::{Refusal, Text};

/// Prints the definitions that the words name as SQL for PostgreSQL.
pub fn translate<R, W, E>(rt: &R, words: &ArgMatches<'_>, streams: &mut Streams<'_, W, E>) -> u8
where
    R: Files + AllocGlobal,
    W: Write,
    E: Write,
    ensures { result ≤ 3 }
{
    let alloc = rt.alloc();
    let texts = match read_texts(rt, words, streams) {
        Ok(texts) => texts,
        Err(status) => return status,
    };
    let run = match take_in(alloc, texts.defs().bytes) {
        Ok(view) => match print_into(alloc, &view, streams.out) {
            Ok(()) => Ok(()),
            Err(PrintFault::NoMemory) => Err(ProgramFault::Defs(Refusal::NoMemory)),
            Err(PrintFault::Output) => Err(ProgramFault::Output),
            Err(PrintFault::LongName { name }) => return report_long_name(&name, streams.err),
        },
        Err(refusal) => Err(ProgramFault::Defs(refusal)),
    };
    end_run(alloc, run, &texts, streams)
}

/// The tables that a text of definitions defines.
fn take_in(alloc: Global, defs: &[u8]) -> Result<View, Refusal> {
    let definitions = parse_schema(alloc, defs)?;
    admit(alloc, definitions.as_slice())
}

/// Says which name is too long, and gives the status to end with.
fn report_long_name<E: Write>(name: &Text, err: &mut E) -> u8
    ensures { result ≡ 1 }
{
    let _ = err.write_all(b"DEFS: a name is longer than the 63 bytes that PostgreSQL keeps: ");
    let _ = err.write_all(name.as_bytes());
    let _ = err.write_all(b"\n");
    REFUSED
}
