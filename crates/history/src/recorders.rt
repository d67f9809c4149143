//! A script run in the engine, and each of its transactions once more beside it.

ghost use Rattle.std.specs.Prelude.{◌≤◌};

use crate::histories::{Happening, History};
use crate::mirrors::{Mirror, follow};
use alone::Modes;
use commit::{Engine, Seat};
use replay::{ProgramFault, begin_run};
use std::alloc::{AllocError, Global};
use syntax::ScriptLine;
use value::Text;

/// Notes what happens when a script of any sessions is run on definitions, with at most so many commits, in a history
/// of nothing yet.
///
/// # Errors
///
/// The first fault, as `replay::replay_into` answers it before the run; the history is then as it was. Or
/// [`ProgramFault::Stopped`] where memory ends the run; the history then has a part of it.
pub fn read_history(
    alloc: Global,
    defs: &[u8],
    script: &[u8],
    max_commits: u32,
    history: &mut History,
) -> Result<(), ProgramFault> {
    let (engine, lines) = begin_run(alloc, defs, script, max_commits)?;
    let mut engine = engine;
    let mut mirrors = Vec::new(alloc);
    let recorded = record(alloc, &mut engine, lines.as_slice(), &mut mirrors, history);
    drop(mirrors);
    drop(engine);
    history.lines = lines;
    match recorded {
        Ok(()) => Ok(()),
        Err(_) => Err(ProgramFault::Stopped),
    }
}

/// Runs the events, and notes what happened.
fn record(
    alloc: Global,
    engine: &mut Engine,
    lines: &[ScriptLine],
    mirrors: &mut Vec<Mirror>,
    history: &mut History,
) -> Result<(), AllocError> {
    push_mirrors(alloc, engine.seats(), mirrors)?;
    push_names(engine.seats(), &mut history.sessions)?;
    history.loaded = Some(engine.core().loaded().copy()?);
    for line in lines {
        record_line(alloc, engine, mirrors, line, history)?;
    }
    history
        .order
        .extend_from_slice(engine.core().serial_order())
}

/// A place for the transaction of each session.
fn push_mirrors(
    alloc: Global,
    seats: &[Seat],
    mirrors: &mut Vec<Mirror>,
) -> Result<(), AllocError> {
    for seat in seats {
        let modes = Modes::initial(alloc, &[])?;
        mirrors.push(Mirror {
            seat: Seat {
                session: seat.session.copy()?,
                txn: None,
            },
            modes,
            transaction: 0,
        })?;
    }
    Ok(())
}

/// The names of the sessions.
fn push_names(seats: &[Seat], names: &mut Vec<Text>) -> Result<(), AllocError> {
    for seat in seats {
        names.push(seat.session.copy()?)?;
    }
    Ok(())
}

/// Runs an event, and notes what happened.
fn record_line(
    alloc: Global,
    engine: &mut Engine,
    mirrors: &mut Vec<Mirror>,
    line: &ScriptLine,
    history: &mut History,
) -> Result<(), AllocError> {
    let found = mirrors
        .iter()
        .position(|it| it.seat.session == line.session);
    let Some(session) = found else {
        return Ok(());
    };
    let Some(mirror) = mirrors.get_mut(session) else {
        return Ok(());
    };
    history.events.push(Happening {
        answer: engine.answer(line),
        session,
        transaction: None,
        changes: Vec::new(alloc),
        view: None,
    })?;
    follow(alloc, engine.core(), mirror, line, history)
}
