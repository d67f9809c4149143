//! Statements, modes and their checks, by the bytes that they print.

use crate::replays::prints_over_tables;
use crate::texts::FUNDS;
use histories::COVER;
use std::test::Fail;

/// The assertion COVER with other attributes, and some rows.
const COVER_DEFERRED: &str =
    "CREATE ASSERTION COVER CHECK (NOT EXISTS (SELECT * FROM SHIFTS S WHERE NOT EXISTS
    (SELECT * FROM DUTY D WHERE D.SHIFT = S.ID AND D.ONCALL = 1))) INITIALLY DEFERRED;";

const FUNDS_DEFERRABLE: &str =
    "CREATE ASSERTION FUNDS CHECK (NOT EXISTS (SELECT OWNER FROM ACCT GROUP BY OWNER HAVING SUM(BAL) < 0)) DEFERRABLE;";

#[test]
fn immediate_refusal_undone(rt: HostRuntime) -> Result<(), Fail> {
    prints_over_tables(
        &rt,
        COVER,
        "A: BEGIN; A: INSERT INTO SHIFTS VALUES (7); A: SELECT * FROM SHIFTS; A: COMMIT;",
        "A: BEGIN 0\nA: REFUSED 10 23000 COVER 7\nA: SELECT 0\nA: COMMIT 1\n\
         COMMITS 1\n1 A SNAPSHOT 0 ROWS 0\nSERIAL 1\nREFUSED 0\nASSERTIONS 1\nCOVER TRUE\n",
    )
}

#[test]
fn deferred_pair(rt: HostRuntime) -> Result<(), Fail> {
    prints_over_tables(
        &rt,
        COVER_DEFERRED,
        "A: BEGIN; A: INSERT INTO SHIFTS VALUES (7); A: INSERT INTO DUTY VALUES (1, 7, 1); A: COMMIT;",
        "A: BEGIN 0\nA: INSERT 1\nA: INSERT 1\nA: COMMIT 1\n\
         COMMITS 1\n1 A SNAPSHOT 0 ROWS 2\nSERIAL 1\nREFUSED 0\nASSERTIONS 1\nCOVER TRUE\n",
    )
}

#[test]
fn deferred_violation_at_commit(rt: HostRuntime) -> Result<(), Fail> {
    prints_over_tables(
        &rt,
        COVER_DEFERRED,
        "A: BEGIN; A: INSERT INTO SHIFTS VALUES (7); A: COMMIT;",
        "A: BEGIN 0\nA: INSERT 1\nA: REFUSED 10 40002 COVER 7\n\
         COMMITS 0\nSERIAL\nREFUSED 1\nA 10 40002 COVER 7\nASSERTIONS 1\nCOVER TRUE\n",
    )
}

#[test]
fn low_balance_verdicts(rt: HostRuntime) -> Result<(), Fail> {
    prints_over_tables(
        &rt,
        "INSERT INTO ACCT VALUES (1, 'KIM', 100); INSERT INTO ACCT VALUES (2, 'KIM', 50);
         CREATE ASSERTION LOW CHECK (NOT EXISTS (SELECT OWNER FROM ACCT GROUP BY OWNER HAVING NOT MIN(BAL) >= 0)) INITIALLY DEFERRED;",
        "A: BEGIN; A: INSERT INTO ACCT VALUES (3, 'LEE', -1); A: VERDICT LOW; A: DELETE FROM ACCT WHERE ID = 3; A: VERDICT LOW; A: COMMIT;",
        "A: BEGIN 0\nA: INSERT 1\nA: VERDICT LOW FALSE\nA: DELETE 1\nA: VERDICT LOW TRUE\nA: COMMIT 1\n\
         COMMITS 1\n1 A SNAPSHOT 0 ROWS 0\nSERIAL 1\nREFUSED 0\nASSERTIONS 1\nLOW TRUE\n",
    )
}

#[test]
fn update_out_of_range(rt: HostRuntime) -> Result<(), Fail> {
    prints_over_tables(
        &rt,
        "INSERT INTO ACCT VALUES (1, 'KIM', 5); INSERT INTO ACCT VALUES (2, 'KIM', 1000000000000000);",
        "A: BEGIN; A: UPDATE ACCT SET BAL = BAL + 1; A: SELECT * FROM ACCT; A: ROLLBACK;",
        "A: BEGIN 0\nA: REFUSED 9 22003 BAL\nA: SELECT 2\n  1, 'KIM', 5\n  2, 'KIM', 1000000000000000\n\
         A: ROLLBACK\n\
         COMMITS 0\nSERIAL\nREFUSED 0\nASSERTIONS 0\n",
    )
}

#[test]
fn not_deferrable(rt: HostRuntime) -> Result<(), Fail> {
    prints_over_tables(
        &rt,
        FUNDS,
        "A: BEGIN; A: SET CONSTRAINTS FUNDS DEFERRED; A: INSERT INTO ACCT VALUES (1, 'LEE', -4); A: ROLLBACK;",
        "A: BEGIN 0\nA: REFUSED 11 - FUNDS\nA: REFUSED 10 23000 FUNDS 'LEE'\nA: ROLLBACK\n\
         COMMITS 0\nSERIAL\nREFUSED 0\nASSERTIONS 1\nFUNDS TRUE\n",
    )
}

#[test]
fn deferred_then_immediate(rt: HostRuntime) -> Result<(), Fail> {
    prints_over_tables(
        &rt,
        FUNDS_DEFERRABLE,
        "A: BEGIN; A: SET CONSTRAINTS ALL DEFERRED; A: INSERT INTO ACCT VALUES (1, 'LEE', -4); A: SET CONSTRAINTS FUNDS IMMEDIATE; A: COMMIT;",
        "A: BEGIN 0\nA: SET CONSTRAINTS\nA: INSERT 1\nA: REFUSED 10 23000 FUNDS 'LEE'\n\
         A: REFUSED 10 40002 FUNDS 'LEE'\n\
         COMMITS 0\nSERIAL\nREFUSED 1\nA 10 40002 FUNDS 'LEE'\nASSERTIONS 1\nFUNDS TRUE\n",
    )
}

#[test]
fn unknown_keeps_no_row(rt: HostRuntime) -> Result<(), Fail> {
    prints_over_tables(
        &rt,
        "INSERT INTO ACCT VALUES (1, NULL, 5); INSERT INTO ACCT VALUES (2, 'LEE', 6);",
        "A: BEGIN; A: SELECT ID FROM ACCT WHERE NOT OWNER = 'KIM';",
        "A: BEGIN 0\nA: SELECT 1\n  2\nA: ROLLBACK AT END\n\
         COMMITS 0\nSERIAL\nREFUSED 0\nASSERTIONS 0\n",
    )
}
