//! `skewguard check`.

ghost use Rattle.std.specs.Prelude.{◌≤◌};

use crate::files::{OUTSIDE, REFUSED, Streams, WELL, colour_of, report_no_memory};
use crate::texts::read_texts;
use checkup::{CheckFault, Health, Style, check_into};
use clap::ArgMatches;
use std::io::Write;
use std::rt::Files;

/// Looks at the files that the words name, and writes what they define and their first faults.
pub fn check<R, W, E>(rt: &R, words: &ArgMatches<'_>, streams: &mut Streams<'_, W, E>) -> u8
where
    R: Files + AllocGlobal,
    W: Write,
    E: Write,
    ensures { result ≤ 3 }
{
    let texts = match read_texts(rt, words, streams) {
        Ok(texts) => texts,
        Err(status) => return status,
    };
    let style = if words.get_flag("json") {
        Style::Json
    } else {
        Style::Text(colour_of(streams.out_is_terminal))
    };
    match check_into(rt.alloc(), texts.defs(), texts.script(), style, streams.out) {
        Ok(Health::Well) => WELL,
        Ok(Health::Faulty) => REFUSED,
        Err(CheckFault::NoMemory) => report_no_memory(streams.err),
        Err(CheckFault::Output) => OUTSIDE,
    }
}
