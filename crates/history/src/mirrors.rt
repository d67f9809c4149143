//! The transactions of the engine's sessions, run once more beside it.

use crate::checks::push_checks;
use crate::histories::{End, Happening, History, Read, Reader, Transaction};
use crate::tries::try_statement;
use alone::{Answer, Modes, ResolvedStatement};
use commit::{Core, Seat};
use sqlite_items::Items;
use std::alloc::{AllocError, Global};
use std::mem;
use syntax::{Event, Mode, ScriptLine, Statement};
use txn::{Access, CloseFailure, ClosedTransaction, Txn, copy_changes};
use value::Refusal;

/// A session's open transaction, run beside the engine's.
#[derive(Drop)]
pub struct Mirror {
    pub seat: Seat,
    pub modes: Modes,
    /// The transaction, by its place in the history.
    pub transaction: usize,
}

/// Follows the newest event of a history, with what it was answered, in its session's own transaction. That memory is
/// wanting is an error also where it is the answer.
pub fn follow(
    alloc: Global,
    core: &Core,
    mirror: &mut Mirror,
    line: &ScriptLine,
    history: &mut History,
) -> Result<(), AllocError> {
    let Some(happening) = history.events.last() else {
        return Ok(());
    };
    match &happening.answer {
        Answer::Refused(Refusal::NoMemory) => Err(AllocError),
        Answer::Begun(snapshot) => {
            let access = access_of(&line.event);
            match Txn::begin(alloc, 0, *snapshot, access, core.newest()) {
                Ok(txn) => follow_begin(alloc, txn, mirror, history),
                Err(error) => Err(error),
            }
        }
        _ => {
            let commits = core.records().len() as u64;
            follow_inside(alloc, commits, mirror, line, history)
        }
    }
}

/// The access mode in which a transaction begins.
fn access_of(event: &Event) -> Access {
    match event {
        Event::BeginReadOnly => Access::ReadOnly,
        _ => Access::ReadWrite,
    }
}

/// Follows an event that is no BEGIN, where a transaction is open.
fn follow_inside(
    alloc: Global,
    commits: u64,
    mirror: &mut Mirror,
    line: &ScriptLine,
    history: &mut History,
) -> Result<(), AllocError> {
    if mirror.seat.txn.is_none() {
        return Ok(());
    }
    let event = history.events.len().saturating_sub(1);
    let Some(happening) = history.events.last_mut() else {
        return Ok(());
    };
    let Some(transaction) = history.transactions.get_mut(mirror.transaction) else {
        return Ok(());
    };
    happening.transaction = Some(mirror.transaction);
    transaction.ended = event;
    match &line.event {
        Event::Begin | Event::BeginReadOnly => Ok(()),
        Event::Run(statement) => {
            follow_statement(alloc, mirror, statement, happening, transaction)
        }
        Event::Commit => follow_commit(alloc, commits, mirror, happening, transaction),
        Event::Rollback => {
            transaction.end = End::RolledBack;
            set_txn(&mut mirror.seat, None);
            Ok(())
        }
    }
}

/// Seats a transaction on the tables that the engine's transaction begins on.
fn follow_begin(
    alloc: Global,
    txn: Txn,
    mirror: &mut Mirror,
    history: &mut History,
) -> Result<(), AllocError> {
    let (read_only, snapshot) = (txn.is_read_only(), txn.snapshot());
    let modes = Modes::initial(alloc, txn.own().assertions());
    set_txn(&mut mirror.seat, Some(txn));
    mirror.modes = modes?;
    mirror.transaction = history.transactions.len();
    let event = history.events.len().saturating_sub(1);
    let Some(happening) = history.events.last_mut() else {
        return Ok(());
    };
    happening.transaction = Some(mirror.transaction);
    history.transactions.push(Transaction {
        session: happening.session,
        begun: event,
        ended: event,
        end: End::Open,
        read_only,
        snapshot,
        number: 0,
        reads: Vec::new(alloc),
        changes: Items::new(alloc),
    })?;
    Ok(())
}

/// Runs the statement, and notes what it and the checks behind it read.
fn follow_statement(
    alloc: Global,
    mirror: &mut Mirror,
    statement: &Statement,
    happening: &mut Happening,
    transaction: &mut Transaction,
) -> Result<(), AllocError> {
    let Some(txn) = &mut mirror.seat.txn else {
        return Ok(());
    };
    try_statement(alloc, txn.own(), txn.is_read_only(), statement, happening)?;
    let has_view = happening.view.is_some();
    if !has_view {
        happening.view = Some(txn.own().copy()?);
    }
    execute(txn, statement, transaction)?;
    if has_view {
        push_tried(alloc, &mirror.modes, happening, transaction)?;
    } else {
        follow_modes(alloc, mirror, happening, transaction)?;
    }
    if !happening.is_refused() {
        happening.view = None;
    }
    Ok(())
}

/// Notes what the checks behind a statement read, over the changes that it makes.
fn push_tried(
    alloc: Global,
    modes: &Modes,
    happening: &Happening,
    transaction: &mut Transaction,
) -> Result<(), AllocError> {
    match &happening.view {
        Some(view) => push_checks(
            alloc,
            transaction,
            view,
            modes,
            happening.changes.as_slice(),
        ),
        None => Ok(()),
    }
}

/// Runs the statement, and notes what it read itself.
fn execute(
    txn: &mut Txn,
    statement: &Statement,
    transaction: &mut Transaction,
) -> Result<(), AllocError> {
    let before = txn.reads().len();
    if let Err(Refusal::NoMemory) = txn.execute(statement) {
        return Err(AllocError);
    }
    let most = match txn.trace().last() {
        Some(ResolvedStatement::Refused(_) | ResolvedStatement::SetModes { .. }) | None => 0,
        Some(ResolvedStatement::Verdict(_)) => usize::MAX,
        Some(ResolvedStatement::Insert(new)) => new.rows.len(),
        Some(_) => 1,
    };
    for key in txn.reads().iter().skip(before).take(most) {
        transaction.reads.push(Read {
            key: key.copy()?,
            event: transaction.ended,
            reader: Reader::Statement,
        })?;
    }
    Ok(())
}

/// Takes the transaction of a seat to COMMIT, if one is open there.
fn close(seat: &mut Seat) -> Result<Option<ClosedTransaction>, AllocError> {
    let Some(txn) = seat.txn.take() else {
        return Ok(None);
    };
    match txn.close_check() {
        Ok(closed) => Ok(Some(closed)),
        Err(unclosed) => Err(give_up(unclosed)),
    }
}

/// The modes after SET CONSTRAINTS, and what its checks read.
fn follow_modes(
    alloc: Global,
    mirror: &mut Mirror,
    happening: &Happening,
    transaction: &mut Transaction,
) -> Result<(), AllocError> {
    let Some(closed) = close(&mut mirror.seat)? else {
        return Ok(());
    };
    let followed = follow_modes_in(alloc, &closed, mirror, happening, transaction);
    set_txn(&mut mirror.seat, Some(closed.reopen()));
    followed
}

fn follow_modes_in(
    alloc: Global,
    closed: &ClosedTransaction,
    mirror: &mut Mirror,
    happening: &Happening,
    transaction: &mut Transaction,
) -> Result<(), AllocError> {
    let Some(ResolvedStatement::SetModes { names, mode }) = closed.txn().trace().last() else {
        return Ok(());
    };
    let own = closed.txn().own();
    let assertions = own.assertions();
    if *mode == Mode::Immediate {
        let meant = Modes::named_immediate(alloc, assertions, names.as_slice())?;
        push_checks(alloc, transaction, own, &meant, closed.changes())?;
    }
    if !happening.is_refused() && mirror.modes.len() == assertions.len() {
        mirror.modes = mirror
            .modes
            .set(alloc, assertions, names.as_slice(), *mode)?;
    }
    Ok(())
}

/// Takes the transaction to COMMIT, and notes what the check of the assertions read that are deferred then, and its net
/// change.
fn follow_commit(
    alloc: Global,
    commits: u64,
    mirror: &mut Mirror,
    happening: &mut Happening,
    transaction: &mut Transaction,
) -> Result<(), AllocError> {
    let Some(closed) = close(&mut mirror.seat)? else {
        return Ok(());
    };
    match &happening.answer {
        Answer::Committed(number) => {
            transaction.end = End::Committed;
            transaction.number = *number;
        }
        _ => {
            transaction.end = End::Refused;
            transaction.number = commits.saturating_add(1);
        }
    }
    let noted = note_closed(alloc, &closed, &mirror.modes, happening, transaction);
    drop(closed.into_parts());
    noted
}

/// Notes what the check of a COMMIT read in these modes, and what the transaction changed.
fn note_closed(
    alloc: Global,
    closed: &ClosedTransaction,
    modes: &Modes,
    happening: &mut Happening,
    transaction: &mut Transaction,
) -> Result<(), AllocError> {
    let own = closed.txn().own();
    let deferred = modes.opposite(alloc)?;
    let changes = closed.changes();
    push_checks(alloc, transaction, own, &deferred, changes)?;
    transaction.changes = copy_changes(alloc, changes)?;
    if happening.is_refused() {
        happening.view = Some(own.copy()?);
    }
    Ok(())
}

/// The transaction could not be taken to COMMIT for want of memory.
fn give_up(unclosed: CloseFailure) -> AllocError {
    let CloseFailure { txn } = unclosed;
    drop(txn.abandon());
    AllocError
}

/// Seats a transaction, or none. One that was open is ended.
fn set_txn(seat: &mut Seat, txn: Option<Txn>) {
    match mem::replace(&mut seat.txn, txn) {
        None => {}
        Some(old) => drop(old.abandon()),
    }
}
