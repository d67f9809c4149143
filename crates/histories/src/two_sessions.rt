//! Histories of at most two sessions.

use crate::History;
use crate::texts::{COVER, EIGHT, KIM, LEDGER, LEDGER_TURNS, SEVEN};

/// Each of two goes off call, since the other one is on call.
pub const SHIFT_WRITE_SKEW: History = History {
    more: &[COVER, SEVEN],
    script: "A: BEGIN; B: BEGIN; A: UPDATE DUTY SET ONCALL = 0 WHERE ID = 1;
        B: UPDATE DUTY SET ONCALL = 0 WHERE ID = 2; A: COMMIT; B: COMMIT;",
    turns: &[0, 1, 0, 1, 0, 1],
    answers: "A: BEGIN 0\nB: BEGIN 0\nA: UPDATE 1\nB: UPDATE 1\nA: COMMIT 1\n\
        B: REFUSED 13 40001 READER 1 PIVOT THIS WRITER 1\n",
    grouped: "A: BEGIN 0\nA: UPDATE 1\nA: COMMIT 1\n\
        B: BEGIN 0\nB: UPDATE 1\nB: REFUSED 13 40001 READER 1 PIVOT THIS WRITER 1\n",
    closing: "COMMITS 1\n1 A SNAPSHOT 0 ROWS 1\nSERIAL 1\n\
        REFUSED 1\nB 13 40001 READER 1 PIVOT THIS WRITER 1\nASSERTIONS 1\nCOVER TRUE\n",
};

/// They go off call in two shifts.
pub const DISJOINT_SHIFTS: History = History {
    more: &[COVER, SEVEN, EIGHT],
    script: "A: BEGIN; B: BEGIN; A: UPDATE DUTY SET ONCALL = 0 WHERE ID = 1;
        B: UPDATE DUTY SET ONCALL = 0 WHERE ID = 3; A: COMMIT; B: COMMIT;",
    turns: &[0, 1, 0, 1, 0, 1],
    answers: "A: BEGIN 0\nB: BEGIN 0\nA: UPDATE 1\nB: UPDATE 1\nA: COMMIT 1\nB: COMMIT 2\n",
    grouped: "A: BEGIN 0\nA: UPDATE 1\nA: COMMIT 1\nB: BEGIN 0\nB: UPDATE 1\nB: COMMIT 2\n",
    closing: "COMMITS 2\n1 A SNAPSHOT 0 ROWS 1\n2 B SNAPSHOT 0 ROWS 1\nSERIAL 1 2\n\
        REFUSED 0\nASSERTIONS 1\nCOVER TRUE\n",
};

/// Each takes from one account what it found in both, and no assertion stands against it.
pub const LEDGER_WRITE_SKEW: History = History {
    more: &[KIM],
    script: LEDGER,
    turns: LEDGER_TURNS,
    answers: "A: BEGIN 0\nB: BEGIN 0\nA: SELECT 1\n  100\nA: SELECT 1\n  50\n\
        B: SELECT 1\n  100\nB: SELECT 1\n  50\nA: UPDATE 1\nA: COMMIT 1\nB: UPDATE 1\n\
        B: REFUSED 13 40001 READER 1 PIVOT THIS WRITER 1\n",
    grouped: "A: BEGIN 0\nA: SELECT 1\n  100\nA: SELECT 1\n  50\nA: UPDATE 1\nA: COMMIT 1\n\
        B: BEGIN 0\nB: SELECT 1\n  100\nB: SELECT 1\n  50\nB: UPDATE 1\n\
        B: REFUSED 13 40001 READER 1 PIVOT THIS WRITER 1\n",
    closing: "COMMITS 1\n1 A SNAPSHOT 0 ROWS 1\nSERIAL 1\n\
        REFUSED 1\nB 13 40001 READER 1 PIVOT THIS WRITER 1\nASSERTIONS 0\n",
};

/// The reader commits behind the writer, and stands before it.
pub const READER_BEFORE_WRITER: History = History {
    more: &[KIM],
    script: "A: BEGIN; A: SELECT BAL FROM ACCT WHERE ID = 1;
        B: BEGIN; B: UPDATE ACCT SET BAL = 0 WHERE ID = 1; B: COMMIT; A: COMMIT;",
    turns: &[0, 0, 1, 1, 1, 0],
    answers: "A: BEGIN 0\nA: SELECT 1\n  100\nB: BEGIN 0\nB: UPDATE 1\nB: COMMIT 1\nA: COMMIT 2\n",
    grouped: "A: BEGIN 0\nA: SELECT 1\n  100\nA: COMMIT 2\nB: BEGIN 0\nB: UPDATE 1\nB: COMMIT 1\n",
    closing: "COMMITS 2\n1 B SNAPSHOT 0 ROWS 1\n2 A SNAPSHOT 0 ROWS 0\nSERIAL 2 1\n\
        REFUSED 0\nASSERTIONS 0\n",
};

/// A transaction that is read only goes on where it would write.
pub const READ_ONLY_INSERT: History = History {
    more: &[],
    script: "A: BEGIN READ ONLY; A: INSERT INTO SHIFTS VALUES (1); A: COMMIT;",
    turns: &[0, 0, 0],
    answers: "A: BEGIN 0\nA: REFUSED 23 - READ ONLY\nA: COMMIT 1\n",
    grouped: "A: BEGIN 0\nA: REFUSED 23 - READ ONLY\nA: COMMIT 1\n",
    closing: "COMMITS 1\n1 A SNAPSHOT 0 ROWS 0\nSERIAL 1\nREFUSED 0\nASSERTIONS 0\n",
};

/// The second to commit meets the first at the key that both put in.
pub const SAME_KEY_INSERTED_TWICE: History = History {
    more: &[],
    script: "A: BEGIN; B: BEGIN; B: SELECT * FROM ACCT WHERE ID = 9;
        A: INSERT INTO ACCT VALUES (9, 'KIM', 1); B: INSERT INTO ACCT VALUES (9, 'KIM', 1);
        A: COMMIT; B: COMMIT;",
    turns: &[0, 1, 1, 0, 1, 0, 1],
    answers: "A: BEGIN 0\nB: BEGIN 0\nB: SELECT 0\nA: INSERT 1\nB: INSERT 1\nA: COMMIT 1\n\
        B: REFUSED 12 40001 ACCT 9 BY 1\n",
    grouped: "A: BEGIN 0\nA: INSERT 1\nA: COMMIT 1\n\
        B: BEGIN 0\nB: SELECT 0\nB: INSERT 1\nB: REFUSED 12 40001 ACCT 9 BY 1\n",
    closing: "COMMITS 1\n1 A SNAPSHOT 0 ROWS 1\nSERIAL 1\n\
        REFUSED 1\nB 12 40001 ACCT 9 BY 1\nASSERTIONS 0\n",
};
