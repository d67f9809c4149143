//! Subqueries that are linked to their row by another column than its key, by the bytes that are printed.

use crate::replays::prints_over_tables;
use std::test::Fail;

/// Each duty is in a shift that there is.
const KNOWN: &str =
    "CREATE ASSERTION KNOWN CHECK (NOT EXISTS (SELECT * FROM DUTY D WHERE D.SHIFT IS NOT NULL AND NOT EXISTS
    (SELECT * FROM SHIFTS S WHERE S.ID = D.SHIFT))); INSERT INTO SHIFTS VALUES (7);";

#[test]
fn known_shift(rt: HostRuntime) -> Result<(), Fail> {
    prints_over_tables(
        &rt,
        KNOWN,
        "A: BEGIN; A: INSERT INTO DUTY VALUES (1, 8, 1); A: INSERT INTO DUTY VALUES (1, NULL, 1);
         A: INSERT INTO DUTY VALUES (2, 7, 1); A: DELETE FROM SHIFTS WHERE ID = 7; A: COMMIT;",
        "A: BEGIN 0\nA: REFUSED 10 23000 KNOWN 1\nA: INSERT 1\nA: INSERT 1\n\
         A: REFUSED 10 23000 KNOWN 2\nA: COMMIT 1\n\
         COMMITS 1\n1 A SNAPSHOT 0 ROWS 2\nSERIAL 1\nREFUSED 0\nASSERTIONS 1\nKNOWN TRUE\n",
    )
}

#[test]
fn known_shift_write_skew(rt: HostRuntime) -> Result<(), Fail> {
    prints_over_tables(
        &rt,
        KNOWN,
        "A: BEGIN; B: BEGIN; A: DELETE FROM SHIFTS WHERE ID = 7; B: INSERT INTO DUTY VALUES (1, 7, 1);
         A: COMMIT; B: COMMIT;",
        "A: BEGIN 0\nB: BEGIN 0\nA: DELETE 1\nB: INSERT 1\nA: COMMIT 1\n\
         B: REFUSED 13 40001 READER 1 PIVOT THIS WRITER 1\n\
         COMMITS 1\n1 A SNAPSHOT 0 ROWS 1\nSERIAL 1\nREFUSED 1\n\
         B 13 40001 READER 1 PIVOT THIS WRITER 1\nASSERTIONS 1\nKNOWN TRUE\n",
    )
}
