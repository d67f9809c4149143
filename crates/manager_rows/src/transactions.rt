//! What a transaction tells of itself.

ghost use Rattle.std.specs.Prelude.{◌≡◌};

use crate::driver::equal;
use crate::printed::{Opening, lines_of, make_opening, open};
use alone::Reply;
use session::{CloseFailure, ClosedTransaction, CommitFault, Manager, Named, Receipt, Txn};
use std::alloc::Global;
use std::marker::Brand;
use std::process::Abort;
use std::sync::Wait;
use std::test::Fail;
use syntax::{Event, ScriptLine};
use txn::Access;
use value::{Refusal, Text, Truth};

/// Someone is on call in each shift, when a transaction ends.
const COVER_DEFERRED: &str =
    "CREATE ASSERTION COVER CHECK (NOT EXISTS (SELECT * FROM SHIFTS S WHERE NOT EXISTS
    (SELECT * FROM DUTY D WHERE D.SHIFT = S.ID AND D.ONCALL = 1))) INITIALLY DEFERRED;";

#[test]
fn violation_at_commit(rt: HostRuntime) -> Result<(), Fail> {
    let on = make_opening(rt.alloc(), COVER_DEFERRED, 1, 1)?;
    violates::<Brand, HostRuntime>(&rt, rt.alloc(), on)
}

/// A shift is put in that no one covers.
fn violates<N: Named, R: Wait + Abort>(rt: &R, alloc: Global, on: Opening) -> Result<(), Fail>
    requires shelf { on.shelf ≡ N.shelf 1 }
    requires limits { on.limits ≡ N.limits 1 }
{
    let manager = open::<N, R>(rt, alloc, 1, on)?;
    let cover = Text::from_str(alloc, "COVER")?;
    let lines = lines_of(alloc, "A: INSERT INTO SHIFTS VALUES (7);")?;
    commits_in_vain(rt, &manager, lines.as_slice(), &cover)?;
    assert_eq!(rt; manager.verdict(rt, &cover), Some(Truth::True));
    let history = manager.close();
    assert_eq!(rt; history.core().refused().len(), 1);
    Ok(())
}

fn commits_in_vain<N: Named, R: Wait + Abort>(
    rt: &R,
    manager: &Manager<N>,
    lines: &[ScriptLine],
    cover: &Text,
) -> Result<(), Fail> {
    let mut session = manager.session(rt, cover)?;
    let mut txn = manager.begin(rt, &mut session, Access::ReadWrite)?;
    for line in lines {
        insert(rt, &mut txn, &line.event);
    }
    open_tells(rt, &txn, cover);
    let txn = reopened(rt, txn);
    assert!(rt; is_violation(manager.commit(rt, &mut session, txn)));
    Ok(())
}

fn insert<N: Named, R: Abort>(rt: &R, txn: &mut Txn<N>, event: &Event) {
    if let Event::Run(statement) = event {
        assert!(rt; matches!(txn.execute(statement), Ok(Reply::Inserted(1))));
    }
}

fn open_tells<N: Named, R: Abort>(rt: &R, txn: &Txn<N>, cover: &Text) {
    equal(rt, txn.snapshot(), 0);
    equal(rt, txn.trace().len(), 1);
    assert!(rt; !txn.reads().is_empty());
    equal(rt, txn.own().assertions().len(), 1);
    equal(rt, txn.verdict(cover), Some(Truth::False));
    match txn.pending() {
        Ok(names) => assert_eq!(rt; names.len(), 1),
        Err(_) => assert!(rt; false, "memory"),
    }
}

/// The transaction, after it was closed.
fn reopened<N: Named, R: Abort>(rt: &R, txn: Txn<N>) -> Txn<N> {
    match txn.close_check() {
        Ok(closed) => {
            closed_tells(rt, &closed);
            closed.reopen()
        }
        Err(CloseFailure { refusal, txn }) => {
            drop(refusal);
            txn
        }
    }
}

fn closed_tells<N: Named, R: Abort>(rt: &R, closed: &ClosedTransaction<N>) {
    equal(rt, closed.snapshot(), 0);
    equal(rt, closed.changes().len(), 1);
    assert!(rt; !closed.reads().is_empty());
    equal(rt, closed.own().assertions().len(), 1);
    assert!(rt; matches!(closed.refused(), Some(Refusal::Violated { .. })));
}

/// A violation, which has ended its transaction and shows no receipt.
fn is_violation<N: Named>(outcome: Result<Receipt<N>, CommitFault<N>>) -> bool {
    match outcome {
        Ok(_receipt) => false,
        Err(fault) => has_ended(fault),
    }
}

fn has_ended<N: Named>(fault: CommitFault<N>) -> bool {
    let CommitFault {
        refusal,
        txn,
        shown,
    } = fault;
    let shows = shown.iter().any(|shown| shown.is_some());
    match txn {
        Some(txn) => {
            drop(txn.abandon());
            false
        }
        None => matches!(refusal, Refusal::Violated { .. }) && !shows,
    }
}
