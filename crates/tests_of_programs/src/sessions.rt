//! Scripts of several sessions, by the bytes that they print.

use crate::replays::{locks_kept, prints, prints_over_tables};
use crate::texts::{FUNDS, defs_of};
use histories::{
    COVER, DISJOINT_SHIFTS, EIGHT, HARMLESS_PIVOT, History, KIM, LATE_READER, LEDGER_WRITE_SKEW,
    PIVOT_REFUSED, READ_ONLY_INSERT, READ_ONLY_READER_PASSES, READ_ONLY_READER_REFUSED,
    READER_BEFORE_WRITER, READER_REFUSED, SAME_KEY_INSERTED_TWICE, SEVEN, SHIFT_WRITE_SKEW,
};
use std::alloc::Global;
use std::process::Abort;
use std::test::Fail;

#[test]
fn empty_script(rt: HostRuntime) -> Result<(), Fail> {
    let more = format!(in rt.alloc(); "{COVER}{FUNDS}")?;
    prints_over_tables(
        &rt,
        more.as_str(),
        "",
        "COMMITS 0\nSERIAL\nREFUSED 0\nASSERTIONS 2\nCOVER TRUE\nFUNDS TRUE\n",
    )
}

/// The history's lines in the script's order.
fn prints_history(rt: &(impl Abort + Alloc<A = Global>), history: &History) -> Result<(), Fail> {
    let defs = defs_of(rt.alloc(), history)?;
    let want = history.printed(rt.alloc())?;
    prints(rt, defs.as_str(), history.script, want.as_str())
}

#[test]
fn shift_write_skew(rt: HostRuntime) -> Result<(), Fail> {
    prints_history(&rt, &SHIFT_WRITE_SKEW)
}

#[test]
fn disjoint_shifts(rt: HostRuntime) -> Result<(), Fail> {
    prints_history(&rt, &DISJOINT_SHIFTS)
}

/// After the first COMMIT its three keys are kept, since the other transaction began before it; after the second
/// none is.
#[test]
fn lock_table_sizes(rt: HostRuntime) -> Result<(), Fail> {
    let more = format!(in rt.alloc(); "{COVER}{SEVEN}{EIGHT}")?;
    let kept = locks_kept(rt.alloc(), more.as_str(), DISJOINT_SHIFTS.script)?;
    assert_eq!(rt; kept.as_slice(), [0, 0, 0, 0, 3, 0].as_slice());
    Ok(())
}

#[test]
fn ledger_write_skew(rt: HostRuntime) -> Result<(), Fail> {
    prints_history(&rt, &LEDGER_WRITE_SKEW)
}

#[test]
fn reader_before_writer(rt: HostRuntime) -> Result<(), Fail> {
    prints_history(&rt, &READER_BEFORE_WRITER)
}

#[test]
fn harmless_pivot(rt: HostRuntime) -> Result<(), Fail> {
    prints_history(&rt, &HARMLESS_PIVOT)
}

#[test]
fn pivot_refused(rt: HostRuntime) -> Result<(), Fail> {
    prints_history(&rt, &PIVOT_REFUSED)
}

#[test]
fn reader_refused(rt: HostRuntime) -> Result<(), Fail> {
    prints_history(&rt, &READER_REFUSED)
}

#[test]
fn late_reader(rt: HostRuntime) -> Result<(), Fail> {
    prints_history(&rt, &LATE_READER)
}

#[test]
fn read_only_reader_passes(rt: HostRuntime) -> Result<(), Fail> {
    prints_history(&rt, &READ_ONLY_READER_PASSES)
}

#[test]
fn read_only_before_pivot(rt: HostRuntime) -> Result<(), Fail> {
    let more = format!(in rt.alloc(); "{COVER}{SEVEN}{KIM}")?;
    prints_over_tables(
        &rt,
        more.as_str(),
        "X: BEGIN READ ONLY; P: BEGIN; Y: BEGIN; X: SELECT ONCALL FROM DUTY WHERE ID = 1;
         P: SELECT BAL FROM ACCT WHERE ID = 1; P: UPDATE DUTY SET ONCALL = 0 WHERE ID = 1;
         Y: UPDATE ACCT SET BAL = 0 WHERE ID = 1; Y: COMMIT; P: COMMIT; X: COMMIT;",
        "X: BEGIN 0\nP: BEGIN 0\nY: BEGIN 0\nX: SELECT 1\n  1\nP: SELECT 1\n  100\nP: UPDATE 1\nY: UPDATE 1\n\
         Y: COMMIT 1\nP: COMMIT 2\nX: COMMIT 3\n\
         COMMITS 3\n1 Y SNAPSHOT 0 ROWS 1\n2 P SNAPSHOT 0 ROWS 1\n3 X SNAPSHOT 0 ROWS 0\nSERIAL 3 2 1\n\
         REFUSED 0\nASSERTIONS 1\nCOVER TRUE\n",
    )
}

#[test]
fn read_only_reader_refused(rt: HostRuntime) -> Result<(), Fail> {
    prints_history(&rt, &READ_ONLY_READER_REFUSED)
}

#[test]
fn read_only_insert(rt: HostRuntime) -> Result<(), Fail> {
    prints_history(&rt, &READ_ONLY_INSERT)
}

#[test]
fn same_key_inserted_twice(rt: HostRuntime) -> Result<(), Fail> {
    prints_history(&rt, &SAME_KEY_INSERTED_TWICE)
}

#[test]
fn null_group_write_skew(rt: HostRuntime) -> Result<(), Fail> {
    let more = format!(in rt.alloc();
        "{FUNDS}INSERT INTO ACCT VALUES (1, NULL, 5); INSERT INTO ACCT VALUES (2, NULL, 5);"
    )?;
    prints_over_tables(
        &rt,
        more.as_str(),
        "A: BEGIN; B: BEGIN; A: UPDATE ACCT SET BAL = -4 WHERE ID = 1; B: UPDATE ACCT SET BAL = -4 WHERE ID = 2;
         A: COMMIT; B: COMMIT;",
        "A: BEGIN 0\nB: BEGIN 0\nA: UPDATE 1\nB: UPDATE 1\nA: COMMIT 1\n\
         B: REFUSED 13 40001 READER 1 PIVOT THIS WRITER 1\n\
         COMMITS 1\n1 A SNAPSHOT 0 ROWS 1\nSERIAL 1\nREFUSED 1\nB 13 40001 READER 1 PIVOT THIS WRITER 1\n\
         ASSERTIONS 1\nFUNDS TRUE\n",
    )
}
