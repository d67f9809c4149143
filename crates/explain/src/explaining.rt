//! The explanation of a script.

ghost use Rattle.std.specs.Prelude.{◌≤◌};

use crate::happenings::add_event;
use crate::stories::{Story, Texts};
use history::{History, read_history};
use printout::{Printout, Unwritten};
use replay::ProgramFault;
use std::alloc::{AllocError, Global};
use std::io::Write;
use thiserror::Error;

/// Why a script was not explained.
#[derive(Debug, Drop, Error)]
pub enum ExplainFault {
    /// The run, or the writer.
    #[error("{0}")]
    Run(#[from] ProgramFault),
    /// The script has no event of the number that was asked for, and so many events.
    #[error("the script has {0} events")]
    NoEvent(usize),
}

impl From<AllocError> for ExplainFault {
    fn from(_error: AllocError) -> ExplainFault {
        ExplainFault::Run(ProgramFault::Stopped)
    }
}

impl From<Unwritten> for ExplainFault {
    fn from(unwritten: Unwritten) -> ExplainFault {
        ExplainFault::Run(match unwritten {
            Unwritten::NoMemory => ProgramFault::Stopped,
            Unwritten::Output => ProgramFault::Output,
        })
    }
}

/// Runs a script of any sessions on definitions, with at most so many commits, and writes why events were answered so:
/// the one of this number, counted from 1 in the order of the script, or else each that was refused.
///
/// # Errors
///
/// [`ExplainFault::Run`] with the first fault before the run, as `replay::replay_into` answers it, and the writer is
/// then as it was; or with `Stopped` where memory ends the run, or `Output` at the first fault of the writer.
/// [`ExplainFault::NoEvent`] where there is no event of that number; the writer is then as it was.
// (what is run, as for all that run a script, which event is asked for, and where the answer goes)
pub fn explain_into<W: Write>(
    alloc: Global,
    defs: &[u8],
    script: &[u8],
    max_commits: u32,
    event: Option<u64>,
    out: &mut W,
) -> Result<(), ExplainFault> {
    let mut history = History::new(alloc);
    let mut texts = Texts::new(alloc, defs, script);
    match read_history(alloc, defs, script, max_commits, &mut history) {
        Ok(()) => explain_history(alloc, &history, &mut texts, event, out),
        Err(fault) => Err(ExplainFault::Run(fault)),
    }
}

/// Explains what happened when these texts were run, which were not read yet.
fn explain_history<W: Write>(
    alloc: Global,
    history: &History,
    texts: &mut Texts<'_>,
    event: Option<u64>,
    out: &mut W,
) -> Result<(), ExplainFault> {
    texts.read(alloc)?;
    let story = Story { history, texts };
    match event {
        Some(number) => explain_number(alloc, story, number, out),
        None => explain_refused(alloc, story, out),
    }
}

/// Explains the event of a number.
fn explain_number<W: Write>(
    alloc: Global,
    story: Story<'_>,
    number: u64,
    out: &mut W,
) -> Result<(), ExplainFault> {
    let count = story.history.events.len();
    if number == 0 || number > count as u64 {
        return Err(ExplainFault::NoEvent(count));
    }
    let mut text = Printout::new(alloc);
    add_event(alloc, story, (number - 1) as usize, &mut text)?;
    Ok(text.finish_into(out)?)
}

/// Explains each event that was refused.
fn explain_refused<W: Write>(
    alloc: Global,
    story: Story<'_>,
    out: &mut W,
) -> Result<(), ExplainFault> {
    let mut text = Printout::new(alloc);
    let mut is_any = false;
    for (event, happening) in story.history.events.as_slice().iter().enumerate() {
        if happening.is_refused() {
            add_event(alloc, story, event, &mut text)?;
            text.write_into(out)?;
            is_any = true;
        }
    }
    if !is_any {
        text.add("no event was refused\n");
    }
    Ok(text.finish_into(out)?)
}
