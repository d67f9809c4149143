//! What shows that a call which found no memory has changed nothing: all that can be seen before it and after it.

use crate::driver::Seat;
use alone::ResolvedStatement;
use commit::Core;
use delta::View;
use mvrows::Rows;
use session::{Manager, Named, Session, Txn};
use siread::LockKey;
use std::alloc::Global;
use std::fmt::Debug;
use std::sync::Wait;
use std::test::Fail;
use txn::Access;
use value::Refusal;

/// So many bytes hold all that is shown in these tests: asked for at once, so that few allocations are their own.
const ROOM: usize = 1 << 16;

pub fn page(alloc: Global) -> Result<String, Fail> {
    let page = String::with_capacity(alloc, ROOM)?;
    Ok(page)
}

/// Adds a value and ends the line. (Its type is a parameter, as in `equal`.)
pub fn show<T: Debug>(value: &T, text: &mut String) -> Result<(), Fail> {
    write!(text, "{value:?}\n")?;
    Ok(())
}

/// What ends a test where a call finds no memory twice. One allocation is refused in a run, so that the second call
/// finds some; what a test itself has no memory for ends it with other words.
pub fn for_ever() -> Fail {
    Fail::from("a call finds no memory for ever")
}

/// What a call that found no memory was to leave as it was, before it and after it.
pub fn is_same(before: &String, after: &String) -> Result<(), Fail> {
    if before.as_bytes() == after.as_bytes() {
        Ok(())
    } else {
        Err(Fail::from("what found no memory has changed something"))
    }
}

/// The open transaction of a seat, and what one finds that begins now.
pub fn shown<N: Named, R: Wait>(
    rt: &R,
    alloc: Global,
    manager: &Manager<N>,
    seat: &mut Seat<N>,
) -> Result<String, Fail> {
    let mut text = page(alloc)?;
    match &seat.txn {
        Some(txn) => show_txn(txn, &mut text)?,
        None => text.push_str("NONE\n")?,
    }
    show_newest(rt, manager, &mut seat.session, &mut text)?;
    Ok(text)
}

/// The newest tables, as a transaction finds them that begins on them and is rolled back.
pub fn show_newest<N: Named, R: Wait>(
    rt: &R,
    manager: &Manager<N>,
    session: &mut Session<N>,
    text: &mut String,
) -> Result<(), Fail> {
    let txn = begin_again(rt, manager, session)?;
    if let Err(fail) = show_found(rt, manager, &txn, text) {
        drop(txn.abandon());
        return Err(fail);
    }
    match manager.rollback(rt, txn) {
        Ok(()) => Ok(()),
        Err((refusal, txn)) => {
            drop(txn.abandon());
            Err(Fail::from(refusal))
        }
    }
}

/// A transaction that begins for a look. A begin that finds no memory is made once more.
fn begin_again<N: Named, R: Wait>(
    rt: &R,
    manager: &Manager<N>,
    session: &mut Session<N>,
) -> Result<Txn<N>, Fail> {
    match manager.begin(rt, session, Access::ReadWrite) {
        Ok(txn) => Ok(txn),
        Err(Refusal::NoMemory) => match manager.begin(rt, session, Access::ReadWrite) {
            Ok(txn) => Ok(txn),
            Err(_) => Err(for_ever()),
        },
        Err(refusal) => Err(Fail::from(refusal)),
    }
}

fn show_found<N: Named, R: Wait>(
    rt: &R,
    manager: &Manager<N>,
    txn: &Txn<N>,
    text: &mut String,
) -> Result<(), Fail> {
    show_txn(txn, text)?;
    for assertion in txn.own().assertions() {
        show(&manager.verdict(rt, &assertion.name), text)?;
    }
    Ok(())
}

pub fn show_txn<N: Named>(txn: &Txn<N>, text: &mut String) -> Result<(), Fail> {
    show_run(txn.snapshot(), txn.trace(), txn.reads(), txn.own(), text)
}

/// A transaction by its parts.
pub fn show_run(
    snapshot: u64,
    trace: &[ResolvedStatement],
    reads: &[LockKey],
    own: &View,
    text: &mut String,
) -> Result<(), Fail> {
    show(&snapshot, text)?;
    show(&trace, text)?;
    show(&reads, text)?;
    show_view(own, text)
}

/// The rows of a view, and how its assertions stand.
pub fn show_view(view: &View, text: &mut String) -> Result<(), Fail> {
    for table in 0..view.catalog().len() {
        show_rows(view.rows(table), text)?;
    }
    for place in 0..view.assertions().len() {
        show(&view.verdict(place), text)?;
        show(&view.least_bad(place), text)?;
    }
    Ok(())
}

fn show_rows(rows: &Rows, text: &mut String) -> Result<(), Fail> {
    for row in rows.iter() {
        show(row, text)?;
    }
    Ok(())
}

/// The commits, those that were refused, the serial order, the count of kept locks, and the tables.
pub fn show_core(core: &Core, text: &mut String) -> Result<(), Fail> {
    show(&core.records(), text)?;
    show(&core.serial_order(), text)?;
    show(&core.refused(), text)?;
    show(&core.locks(), text)?;
    show(&core.prepared().is_some(), text)?;
    show_view(core.loaded(), text)?;
    show_view(core.newest(), text)
}
