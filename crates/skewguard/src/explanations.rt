//! `skewguard explain` and `skewguard picture`.

ghost use Rattle.std.specs.Prelude.{◌≤◌};

use crate::endings::end_run;
use crate::files::{REFUSED, Streams, USAGE};
use crate::texts::{limit_of, read_texts};
use clap::ArgMatches;
use explain::{ExplainFault, explain_into};
use picture::picture_into;
use std::io::Write;
use std::rt::Files;

/// Says why events of the two files that the words name were answered so.
pub fn explain<R, W, E>(rt: &R, words: &ArgMatches<'_>, streams: &mut Streams<'_, W, E>) -> u8
where
    R: Files + AllocGlobal,
    W: Write,
    E: Write,
    ensures { result ≤ 3 }
{
    let Some(limit) = limit_of(words) else {
        return USAGE;
    };
    let texts = match read_texts(rt, words, streams) {
        Ok(texts) => texts,
        Err(status) => return status,
    };
    let event = words.get_one::<u64>("EVENT");
    let run = match explain_into(
        rt.alloc(),
        texts.defs().bytes,
        texts.script_bytes(),
        limit,
        event,
        streams.out,
    ) {
        Ok(()) => Ok(()),
        Err(ExplainFault::Run(fault)) => Err(fault),
        Err(ExplainFault::NoEvent(_)) => {
            let _ = streams
                .err
                .write_all(b"EVENT: SCRIPT has no event of this number\n");
            return REFUSED;
        }
    };
    end_run(rt.alloc(), run, &texts, streams)
}

/// Draws the transactions of the two files that the words name.
pub fn draw<R, W, E>(rt: &R, words: &ArgMatches<'_>, streams: &mut Streams<'_, W, E>) -> u8
where
    R: Files + AllocGlobal,
    W: Write,
    E: Write,
    ensures { result ≤ 3 }
{
    let Some(limit) = limit_of(words) else {
        return USAGE;
    };
    let texts = match read_texts(rt, words, streams) {
        Ok(texts) => texts,
        Err(status) => return status,
    };
    let run = picture_into(
        rt.alloc(),
        texts.defs().bytes,
        texts.script_bytes(),
        limit,
        streams.out,
    );
    end_run(rt.alloc(), run, &texts, streams)
}
