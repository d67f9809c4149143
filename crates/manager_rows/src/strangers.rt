//! What one manager gave is handed to another.

ghost use Rattle.std.specs.Prelude.{◌≡◌};

use crate::printed::{Case, Left, Opening, make_opening, open, serves};
use histories::{COVER, KIM, SEVEN};
use session::{CommitFault, Manager, Named, Receipt, Txn};
use std::alloc::Global;
use std::marker::Brand;
use std::process::Abort;
use std::sync::Wait;
use std::test::Fail;
use txn::Access;
use value::{Refusal, Text};

#[test]
fn strangers(rt: HostRuntime) -> Result<(), Fail> {
    let more = format!(in rt.alloc(); "{COVER}{SEVEN}")?;
    let shifts = make_opening(rt.alloc(), more.as_str(), 10, 10)?;
    let accounts = make_opening(rt.alloc(), KIM, 10, 10)?;
    two_managers::<Brand, HostRuntime>(&rt, rt.alloc(), shifts, accounts)
}

/// Each refuses the other's session and transaction, gives the transaction back, and goes on.
fn two_managers<N: Named, R: Wait + Abort>(
    rt: &R,
    alloc: Global,
    shifts: Opening,
    accounts: Opening,
) -> Result<(), Fail>
    requires shelf_of_shifts { shifts.shelf ≡ N.shelf 1 }
    requires limits_of_shifts { shifts.limits ≡ N.limits 1 }
    requires shelf_of_accounts { accounts.shelf ≡ N.shelf 2 }
    requires limits_of_accounts { accounts.limits ≡ N.limits 2 }
{
    let first = open::<N, R>(rt, alloc, 1, shifts)?;
    let second = open::<N, R>(rt, alloc, 2, accounts)?;
    meet(rt, alloc, &first, &second)?;
    go_on(rt, alloc, first, second)
}

/// The first serves its shifts, the second its accounts, and knows no receipt of the first.
fn go_on<N: Named, R: Wait + Abort>(
    rt: &R,
    alloc: Global,
    first: Manager<N>,
    second: Manager<N>,
) -> Result<(), Fail> {
    let first = serve_shifts(rt, alloc, first)?;
    let second = serve_accounts(rt, alloc, second)?;
    for receipt in first.receipts.as_slice() {
        assert!(rt; matches!(second.history.record(receipt), Err(Refusal::Stranger)));
    }
    Ok(())
}

/// A session and a transaction of the first are handed to the second.
fn meet<N: Named, R: Wait + Abort>(
    rt: &R,
    alloc: Global,
    first: &Manager<N>,
    second: &Manager<N>,
) -> Result<(), Fail> {
    let name = Text::from_str(alloc, "S")?;
    let mut mine = first.session(rt, &name)?;
    let mut theirs = second.session(rt, &name)?;
    assert!(rt; is_stranger(second.begin(rt, &mut mine, Access::ReadWrite)));
    let txn = first.begin(rt, &mut mine, Access::ReadWrite)?;
    // A session and a transaction of the first; a session of its own, and the transaction; and the other way round.
    let txn = refused(second.commit(rt, &mut mine, txn))?;
    let txn = refused(second.commit(rt, &mut theirs, txn))?;
    let txn = refused(first.commit(rt, &mut theirs, txn))?;
    let txn = unrolled(second.rollback(rt, txn))?;
    assert!(rt; is_ended(first.rollback(rt, txn)));
    Ok(())
}

pub fn is_stranger<N: Named>(begun: Result<Txn<N>, Refusal>) -> bool {
    match begun {
        Ok(txn) => {
            drop(txn.abandon());
            false
        }
        Err(refusal) => matches!(refusal, Refusal::Stranger),
    }
}

/// The transaction that a COMMIT gave back as a stranger's, with no receipt.
pub fn refused<N: Named>(outcome: Result<Receipt<N>, CommitFault<N>>) -> Result<Txn<N>, Fail> {
    let fault = outcome.err();
    let fault = fault.ok_or("a stranger's transaction was committed")?;
    let (refusal, txn) = given_back(fault)?;
    stranger_back(txn, refusal)
}

/// Why a COMMIT gave a transaction back, with no receipt, and the transaction.
pub fn given_back<N: Named>(fault: CommitFault<N>) -> Result<(Refusal, Txn<N>), Fail> {
    let CommitFault {
        refusal,
        txn,
        shown,
    } = fault;
    let shows = shown.iter().any(|shown| shown.is_some());
    match txn {
        Some(txn) if !shows => Ok((refusal, txn)),
        Some(txn) => {
            drop(txn.abandon());
            Err(Fail::from("a receipt was shown"))
        }
        None => Err(Fail::from("a transaction was ended that should have been given back")),
    }
}

/// The transaction that a ROLLBACK gave back.
pub fn unrolled<N: Named>(outcome: Result<(), (Refusal, Txn<N>)>) -> Result<Txn<N>, Fail> {
    match outcome {
        Ok(()) => Err(Fail::from("a stranger's transaction was rolled back")),
        Err((refusal, txn)) => stranger_back(txn, refusal),
    }
}

/// The transaction that a call gave back as a stranger's.
fn stranger_back<N: Named>(txn: Txn<N>, refusal: Refusal) -> Result<Txn<N>, Fail> {
    let is_wanted = matches!(refusal, Refusal::Stranger);
    wanted_back(txn, refusal, is_wanted)
}

/// The transaction that a call gave back, if its refusal is the one that was wanted.
pub fn wanted_back<N: Named>(
    txn: Txn<N>,
    refusal: Refusal,
    is_wanted: bool,
) -> Result<Txn<N>, Fail> {
    if is_wanted {
        return Ok(txn);
    }
    drop(txn.abandon());
    Err(Fail::from(refusal))
}

pub fn is_ended<N: Named>(outcome: Result<(), (Refusal, Txn<N>)>) -> bool {
    match outcome {
        Ok(()) => true,
        Err((_, txn)) => {
            drop(txn.abandon());
            false
        }
    }
}

fn serve_shifts<N: Named, R: Wait + Abort>(
    rt: &R,
    alloc: Global,
    manager: Manager<N>,
) -> Result<Left<N>, Fail> {
    let case = Case {
        script: "A: BEGIN; B: BEGIN; A: UPDATE DUTY SET ONCALL = 0 WHERE ID = 1;
            B: UPDATE DUTY SET ONCALL = 0 WHERE ID = 2; A: COMMIT; B: COMMIT;",
        want: "A: BEGIN 0\nB: BEGIN 0\nA: UPDATE 1\nB: UPDATE 1\nA: COMMIT 1\n\
            B: REFUSED 13 40001 READER 1 PIVOT THIS WRITER 1\n\
            COMMITS 1\n1 A SNAPSHOT 0 ROWS 1\nSERIAL 1\nREFUSED 1\n\
            B 13 40001 READER 1 PIVOT THIS WRITER 1\nASSERTIONS 1\nCOVER TRUE\n",
        receipts: &[1, 1, 1],
        locks: 0,
    };
    serves(rt, alloc, manager, &case)
}

fn serve_accounts<N: Named, R: Wait + Abort>(
    rt: &R,
    alloc: Global,
    manager: Manager<N>,
) -> Result<Left<N>, Fail> {
    let case = Case {
        script: "A: BEGIN; A: SELECT BAL FROM ACCT WHERE ID = 1;
            B: BEGIN; B: UPDATE ACCT SET BAL = 0 WHERE ID = 1; B: COMMIT; A: COMMIT;",
        want: "A: BEGIN 0\nA: SELECT 1\n  100\nB: BEGIN 0\nB: UPDATE 1\nB: COMMIT 1\nA: COMMIT 2\n\
            COMMITS 2\n1 B SNAPSHOT 0 ROWS 1\n2 A SNAPSHOT 0 ROWS 0\nSERIAL 2 1\nREFUSED 0\n\
            ASSERTIONS 0\n",
        receipts: &[1, 2],
        locks: 0,
    };
    serves(rt, alloc, manager, &case)
}
