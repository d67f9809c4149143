//! Scripts of several sessions.

use crate::printed::{Case, make_opening, prints, prints_on};
use histories::{
    COVER, DISJOINT_SHIFTS, EIGHT, HARMLESS_PIVOT, History, KIM, LATE_READER, LEDGER_WRITE_SKEW,
    PIVOT_REFUSED, READ_ONLY_INSERT, READ_ONLY_READER_PASSES, READ_ONLY_READER_REFUSED,
    READER_BEFORE_WRITER, READER_REFUSED, SAME_KEY_INSERTED_TWICE, SEVEN, SHIFT_WRITE_SKEW,
};
use session::Limits;
use std::alloc::Global;
use std::process::Abort;
use std::sync::Wait;
use std::test::Fail;

/// No owner's accounts sum below zero; a transaction may put its check off.
pub const FUNDS_DEFERRABLE: &str =
    "CREATE ASSERTION FUNDS CHECK (NOT EXISTS (SELECT OWNER FROM ACCT GROUP BY OWNER
    HAVING SUM(BAL) < 0)) DEFERRABLE;";

/// All balances sum to 100 at most. The sum of none is unknown.
const CAP: &str = "CREATE ASSERTION CAP CHECK ((SELECT SUM(BAL) FROM ACCT) <= 100);";

#[test]
fn sum_of_nothing_is_unknown(rt: HostRuntime) -> Result<(), Fail> {
    let case = Case {
        script: "",
        want: "COMMITS 0\nSERIAL\nREFUSED 0\nASSERTIONS 1\nCAP UNKNOWN\n",
        receipts: &[],
        locks: 0,
    };
    prints(&rt, rt.alloc(), CAP, &case)
}

/// The manager is asked of the newest tables: on those before the commit the sum was unknown.
#[test]
fn sum_is_known_after_a_commit(rt: HostRuntime) -> Result<(), Fail> {
    let case = Case {
        script: "A: BEGIN; A: INSERT INTO ACCT VALUES (1, 'KIM', 50); A: COMMIT;",
        want: "A: BEGIN 0\nA: INSERT 1\nA: COMMIT 1\nCOMMITS 1\n1 A SNAPSHOT 0 ROWS 1\nSERIAL 1\n\
            REFUSED 0\nASSERTIONS 1\nCAP TRUE\n",
        receipts: &[1],
        locks: 0,
    };
    prints(&rt, rt.alloc(), CAP, &case)
}

/// The history's lines in the script's order, receipts of these numbers, and no key that is kept at the end.
fn prints_history<R: Wait + Abort>(
    rt: &R,
    alloc: Global,
    history: &History,
    receipts: &[u64],
) -> Result<(), Fail> {
    let more = history.definitions_behind(alloc)?;
    let want = history.printed(alloc)?;
    let case = Case {
        script: history.script,
        want: want.as_str(),
        receipts,
        locks: 0,
    };
    prints(rt, alloc, more.as_str(), &case)
}

#[test]
fn shift_write_skew(rt: HostRuntime) -> Result<(), Fail> {
    prints_history(&rt, rt.alloc(), &SHIFT_WRITE_SKEW, &[1, 1, 1])
}

#[test]
fn disjoint_shifts(rt: HostRuntime) -> Result<(), Fail> {
    prints_history(&rt, rt.alloc(), &DISJOINT_SHIFTS, &[1, 2])
}

#[test]
fn ledger_write_skew(rt: HostRuntime) -> Result<(), Fail> {
    prints_history(&rt, rt.alloc(), &LEDGER_WRITE_SKEW, &[1, 1, 1])
}

#[test]
fn reader_before_writer(rt: HostRuntime) -> Result<(), Fail> {
    prints_history(&rt, rt.alloc(), &READER_BEFORE_WRITER, &[1, 2])
}

#[test]
fn harmless_pivot(rt: HostRuntime) -> Result<(), Fail> {
    prints_history(&rt, rt.alloc(), &HARMLESS_PIVOT, &[1, 2, 3])
}

#[test]
fn pivot_refused(rt: HostRuntime) -> Result<(), Fail> {
    prints_history(&rt, rt.alloc(), &PIVOT_REFUSED, &[1, 2, 2, 1])
}

#[test]
fn reader_refused(rt: HostRuntime) -> Result<(), Fail> {
    prints_history(&rt, rt.alloc(), &READER_REFUSED, &[1, 2, 2, 1])
}

#[test]
fn late_reader(rt: HostRuntime) -> Result<(), Fail> {
    prints_history(&rt, rt.alloc(), &LATE_READER, &[1, 2, 2, 1])
}

#[test]
fn read_only_reader_passes(rt: HostRuntime) -> Result<(), Fail> {
    prints_history(&rt, rt.alloc(), &READ_ONLY_READER_PASSES, &[1, 2, 3])
}

#[test]
fn read_only_reader_refused(rt: HostRuntime) -> Result<(), Fail> {
    prints_history(&rt, rt.alloc(), &READ_ONLY_READER_REFUSED, &[1, 2, 2, 1])
}

#[test]
fn read_only_insert(rt: HostRuntime) -> Result<(), Fail> {
    prints_history(&rt, rt.alloc(), &READ_ONLY_INSERT, &[1])
}

#[test]
fn same_key_inserted_twice(rt: HostRuntime) -> Result<(), Fail> {
    prints_history(&rt, rt.alloc(), &SAME_KEY_INSERTED_TWICE, &[1, 1])
}

/// An account below zero is let in while its assertion is deferred; neither its check nor COMMIT lets it stay.
#[test]
fn deferred_then_immediate(rt: HostRuntime) -> Result<(), Fail> {
    let case = Case {
        script: "A: BEGIN; A: SET CONSTRAINTS ALL DEFERRED; A: INSERT INTO ACCT VALUES (1, 'LEE', -4);
            A: SET CONSTRAINTS FUNDS IMMEDIATE; A: COMMIT;",
        want: "A: BEGIN 0\nA: SET CONSTRAINTS\nA: INSERT 1\nA: REFUSED 10 23000 FUNDS 'LEE'\n\
            A: REFUSED 10 40002 FUNDS 'LEE'\n\
            COMMITS 0\nSERIAL\nREFUSED 1\nA 10 40002 FUNDS 'LEE'\nASSERTIONS 1\nFUNDS TRUE\n",
        receipts: &[],
        locks: 0,
    };
    prints(&rt, rt.alloc(), FUNDS_DEFERRABLE, &case)
}

/// With room for one commit and one session, the second of each is refused.
#[test]
fn epoch_full(rt: HostRuntime) -> Result<(), Fail> {
    let one = make_opening(rt.alloc(), "", 1, 1)?;
    let two = make_opening(rt.alloc(), "", 1, 1)?;
    let case = Case {
        script: "A: BEGIN; A: INSERT INTO SHIFTS VALUES (1); A: COMMIT; B: BEGIN;
            A: BEGIN; A: SELECT * FROM SHIFTS; A: COMMIT;",
        want: "A: BEGIN 0\nA: INSERT 1\nA: COMMIT 1\nB: REFUSED 24 - TOO MANY SESSIONS\n\
            A: BEGIN 1\nA: SELECT 1\n  1\nA: REFUSED 17 - EPOCH FULL\n\
            COMMITS 1\n1 A SNAPSHOT 0 ROWS 1\nSERIAL 1\nREFUSED 1\nA 17 - EPOCH FULL\n\
            ASSERTIONS 0\n",
        receipts: &[1, 1],
        locks: 0,
    };
    prints_on(&rt, rt.alloc(), one, two, &case)
}

#[test]
fn limits_have_their_ranges(rt: HostRuntime) {
    for (commits, sessions) in [(0, 1), (1, 0), (1, 65_537)] {
        assert!(rt;
            Limits::new(commits, sessions).is_none(),
            "{commits} commits, {sessions} sessions"
        );
    }
    assert!(rt; Limits::new(4_294_967_295, 65_536).is_some());
}

/// A's second statement is answered, and it goes on when B has committed three times.
fn holds<R: Wait + Abort>(
    rt: &R,
    alloc: Global,
    script: &str,
    want: &str,
    receipts: &[u64],
) -> Result<(), Fail> {
    let more = format!(in alloc; "{COVER}{SEVEN}{KIM}")?;
    let script = format!(in alloc; "A: BEGIN; A: SELECT BAL FROM ACCT WHERE ID = 1; {script}")?;
    let want = format!(in alloc;
        "A: BEGIN 0\nA: SELECT 1\n  100\n{want}ASSERTIONS 1\nCOVER TRUE\n"
    )?;
    let case = Case {
        script: script.as_str(),
        want: want.as_str(),
        receipts,
        locks: 0,
    };
    prints(rt, alloc, more.as_str(), &case)
}

/// It stands before all that it has not seen.
#[test]
fn held_transaction_commits(rt: HostRuntime) -> Result<(), Fail> {
    holds(
        &rt,
        rt.alloc(),
        "A: UPDATE DUTY SET ONCALL = 0 WHERE ID = 1;
            B: BEGIN; B: UPDATE ACCT SET BAL = 1 WHERE ID = 1; B: COMMIT;
            B: BEGIN; B: UPDATE ACCT SET BAL = 2 WHERE ID = 1; B: COMMIT;
            B: BEGIN; B: UPDATE ACCT SET BAL = 3 WHERE ID = 2; B: COMMIT; A: COMMIT;",
        "A: UPDATE 1\nB: BEGIN 0\nB: UPDATE 1\nB: COMMIT 1\nB: BEGIN 1\nB: UPDATE 1\nB: COMMIT 2\n\
            B: BEGIN 2\nB: UPDATE 1\nB: COMMIT 3\nA: COMMIT 4\n\
            COMMITS 4\n1 B SNAPSHOT 0 ROWS 1\n2 B SNAPSHOT 1 ROWS 1\n3 B SNAPSHOT 2 ROWS 1\n\
            4 A SNAPSHOT 0 ROWS 1\nSERIAL 4 1 2 3\nREFUSED 0\n",
        &[1, 2, 3, 4],
    )
}

/// It has not seen the first of B, and the third has not seen what it wrote.
#[test]
fn held_transaction_is_a_pivot(rt: HostRuntime) -> Result<(), Fail> {
    holds(
        &rt,
        rt.alloc(),
        "A: UPDATE DUTY SET ONCALL = 0 WHERE ID = 1;
            B: BEGIN; B: UPDATE ACCT SET BAL = 1 WHERE ID = 1; B: COMMIT;
            B: BEGIN; B: UPDATE ACCT SET BAL = 2 WHERE ID = 1; B: COMMIT;
            B: BEGIN; B: SELECT ONCALL FROM DUTY WHERE ID = 1; B: COMMIT; A: COMMIT;",
        "A: UPDATE 1\nB: BEGIN 0\nB: UPDATE 1\nB: COMMIT 1\nB: BEGIN 1\nB: UPDATE 1\nB: COMMIT 2\n\
            B: BEGIN 2\nB: SELECT 1\n  1\nB: COMMIT 3\n\
            A: REFUSED 13 40001 READER 3 PIVOT THIS WRITER 1\n\
            COMMITS 3\n1 B SNAPSHOT 0 ROWS 1\n2 B SNAPSHOT 1 ROWS 1\n3 B SNAPSHOT 2 ROWS 0\n\
            SERIAL 1 2 3\nREFUSED 1\nA 13 40001 READER 3 PIVOT THIS WRITER 1\n",
        &[1, 2, 3, 3, 1],
    )
}

/// The second of B is the first that changed the row that it changed.
#[test]
fn held_transaction_meets_a_writer(rt: HostRuntime) -> Result<(), Fail> {
    holds(
        &rt,
        rt.alloc(),
        "A: UPDATE ACCT SET BAL = 0 WHERE ID = 2;
            B: BEGIN; B: UPDATE ACCT SET BAL = 1 WHERE ID = 1; B: COMMIT;
            B: BEGIN; B: UPDATE ACCT SET BAL = 2 WHERE ID = 2; B: COMMIT;
            B: BEGIN; B: UPDATE ACCT SET BAL = 3 WHERE ID = 2; B: COMMIT; A: COMMIT;",
        "A: UPDATE 1\nB: BEGIN 0\nB: UPDATE 1\nB: COMMIT 1\nB: BEGIN 1\nB: UPDATE 1\nB: COMMIT 2\n\
            B: BEGIN 2\nB: UPDATE 1\nB: COMMIT 3\nA: REFUSED 12 40001 ACCT 2 BY 2\n\
            COMMITS 3\n1 B SNAPSHOT 0 ROWS 1\n2 B SNAPSHOT 1 ROWS 1\n3 B SNAPSHOT 2 ROWS 1\n\
            SERIAL 1 2 3\nREFUSED 1\nA 12 40001 ACCT 2 BY 2\n",
        &[1, 2, 3, 2],
    )
}

/// R rolls back after BEGIN, after a statement, and after one that is refused; the others are answered as without it.
#[test]
fn rollbacks_leave_no_trace(rt: HostRuntime) -> Result<(), Fail> {
    let more = format!(in rt.alloc(); "{COVER}{SEVEN}")?;
    let case = Case {
        script: "R: BEGIN; R: ROLLBACK; A: BEGIN; B: BEGIN;
            R: BEGIN; R: UPDATE DUTY SET ONCALL = 0 WHERE ID = 2; R: ROLLBACK;
            A: UPDATE DUTY SET ONCALL = 0 WHERE ID = 1; B: UPDATE DUTY SET ONCALL = 0 WHERE ID = 2;
            R: BEGIN; A: COMMIT; R: DELETE FROM DUTY; R: SELECT * FROM DUTY; R: ROLLBACK;
            B: COMMIT; R: BEGIN; R: SELECT * FROM DUTY; R: ROLLBACK;",
        want: "R: BEGIN 0\nR: ROLLBACK\nA: BEGIN 0\nB: BEGIN 0\nR: BEGIN 0\nR: UPDATE 1\nR: ROLLBACK\n\
            A: UPDATE 1\nB: UPDATE 1\nR: BEGIN 0\nA: COMMIT 1\nR: REFUSED 10 23000 COVER 7\n\
            R: SELECT 2\n  1, 7, 1\n  2, 7, 1\nR: ROLLBACK\n\
            B: REFUSED 13 40001 READER 1 PIVOT THIS WRITER 1\n\
            R: BEGIN 1\nR: SELECT 2\n  1, 7, 0\n  2, 7, 1\nR: ROLLBACK\n\
            COMMITS 1\n1 A SNAPSHOT 0 ROWS 1\nSERIAL 1\nREFUSED 1\n\
            B 13 40001 READER 1 PIVOT THIS WRITER 1\nASSERTIONS 1\nCOVER TRUE\n",
        receipts: &[1, 1, 1],
        locks: 0,
    };
    prints(&rt, rt.alloc(), more.as_str(), &case)
}

/// A statement of R, two commits that began beside it, and what becomes of R.
fn keeps_locks<R: Wait + Abort>(
    rt: &R,
    alloc: Global,
    rest: &str,
    left: &str,
    locks: usize,
) -> Result<(), Fail> {
    let more = format!(in alloc; "{COVER}{SEVEN}{EIGHT}")?;
    let script = format!(in alloc;
        "R: BEGIN; R: SELECT ONCALL FROM DUTY WHERE ID = 1; A: BEGIN; B: BEGIN;
        A: UPDATE DUTY SET ONCALL = 0 WHERE ID = 1; B: UPDATE DUTY SET ONCALL = 0 WHERE ID = 3;
        A: COMMIT; B: COMMIT; {rest}"
    )?;
    let want = format!(in alloc;
        "R: BEGIN 0\nR: SELECT 1\n  1\nA: BEGIN 0\nB: BEGIN 0\nA: UPDATE 1\nB: UPDATE 1\n\
        A: COMMIT 1\nB: COMMIT 2\n{left}\
        COMMITS 2\n1 A SNAPSHOT 0 ROWS 1\n2 B SNAPSHOT 0 ROWS 1\nSERIAL 1 2\nREFUSED 0\n\
        ASSERTIONS 1\nCOVER TRUE\n"
    )?;
    let case = Case {
        script: script.as_str(),
        want: want.as_str(),
        receipts: &[1, 2],
        locks,
    };
    prints(rt, alloc, more.as_str(), &case)
}

/// What two commits read is kept while a transaction is open that began before them: three keys of each.
#[test]
fn rollback_lets_keys_go(rt: HostRuntime) -> Result<(), Fail> {
    keeps_locks(&rt, rt.alloc(), "", "R: ROLLBACK AT END\n", 6)?;
    keeps_locks(&rt, rt.alloc(), "R: ROLLBACK;", "R: ROLLBACK\n", 0)
}
