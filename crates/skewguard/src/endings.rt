//! How a run ends: the status, what is said on the second stream, and on a terminal a picture of the fault.

ghost use Rattle.std.specs.Prelude.{◌≡◌, ◌≢◌, ◌≤◌, Err, IfErr, IsOk};
ghost use Rattle.replay.specs.declared.faults.ProgramFault.TheVariants.{Output};

use crate::files::{OUTSIDE, REFUSED, Streams, WELL, report_refused};
use crate::texts::Texts;
use checkup::{Colour, Which, draw_refused};
use replay::ProgramFault;
use std::alloc::{AllocError, Global};
use std::io::Write;

/// The status to end with. A fault is said in one line on the second stream, and on a terminal with a picture behind
/// it.
pub fn end_run<W: Write, E: Write>(
    alloc: Global,
    run: Result<(), ProgramFault>,
    texts: &Texts<'_>,
    streams: &mut Streams<'_, W, E>,
) -> u8
    ensures { result ≤ 3 }
{
    let mut drawn = String::new(alloc);
    if streams.err_is_terminal && draw_fault(alloc, &run, texts, &mut drawn).is_err() {
        drawn.clear();
    }
    let status = end_with_status(run, streams.out, streams.err);
    let _ = streams.err.write_all(drawn.as_bytes());
    status
}

/// Draws the fault for which a text was refused; nothing where none was.
fn draw_fault(
    alloc: Global,
    run: &Result<(), ProgramFault>,
    texts: &Texts<'_>,
    drawn: &mut String,
) -> Result<(), AllocError> {
    let (which, text, refusal) = match (run, texts.script()) {
        (Err(ProgramFault::Defs(refusal)), _) => (Which::Defs, texts.defs(), refusal),
        (Err(ProgramFault::Script(refusal)), Some(script)) => (Which::Script, script, refusal),
        _ => return Ok(()),
    };
    draw_refused(alloc, which, text, refusal, Colour::Terminal, drawn)
}

/// The status to end with. A fault is said in one line on `err`; one of the writer is not, nor a session without a
/// thread, of which a line of the report says it.
fn end_with_status<W: Write, E: Write>(
    run: Result<(), ProgramFault>,
    out: &mut W,
    err: &mut E,
) -> u8
    ensures whole { IsOk run → result ≡ 0 }
    ensures output { run ≡ Err Output → result ≡ 3 }
    ensures refused { IfErr run (λ fault. fault ≢ Output → result ≡ 1) }
    ensures known { result ≤ 3 }
{
    match run {
        Ok(()) => WELL,
        Err(ProgramFault::Defs(refusal)) => report_refused("DEFS", &refusal, err),
        Err(ProgramFault::Script(refusal)) => report_refused("SCRIPT", &refusal, err),
        Err(ProgramFault::Stopped) => {
            let _ = out.flush();
            let _ = err.write_all(b"SCRIPT: STOPPED 1 - NO MEMORY\n");
            REFUSED
        }
        Err(ProgramFault::NoThread) => REFUSED,
        Err(ProgramFault::Output) => OUTSIDE,
    }
}
