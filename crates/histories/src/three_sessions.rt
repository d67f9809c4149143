//! Histories of three sessions: X reads what P writes, and P reads what Y writes.

use crate::History;
use crate::texts::{COVER, KIM, SEVEN};

/// X commits before Y, so it may stand before P, and P before Y.
pub const HARMLESS_PIVOT: History = History {
    more: &[COVER, SEVEN, KIM],
    script: "X: BEGIN; P: BEGIN; Y: BEGIN; X: SELECT ONCALL FROM DUTY WHERE ID = 1;
        P: SELECT BAL FROM ACCT WHERE ID = 1; P: UPDATE DUTY SET ONCALL = 0 WHERE ID = 1;
        Y: UPDATE ACCT SET BAL = 0 WHERE ID = 1; X: COMMIT; Y: COMMIT; P: COMMIT;",
    turns: &[0, 1, 2, 0, 1, 1, 2, 0, 2, 1],
    answers: "X: BEGIN 0\nP: BEGIN 0\nY: BEGIN 0\nX: SELECT 1\n  1\nP: SELECT 1\n  100\nP: UPDATE 1\n\
        Y: UPDATE 1\nX: COMMIT 1\nY: COMMIT 2\nP: COMMIT 3\n",
    grouped: "X: BEGIN 0\nX: SELECT 1\n  1\nX: COMMIT 1\n\
        P: BEGIN 0\nP: SELECT 1\n  100\nP: UPDATE 1\nP: COMMIT 3\n\
        Y: BEGIN 0\nY: UPDATE 1\nY: COMMIT 2\n",
    closing: "COMMITS 3\n1 X SNAPSHOT 0 ROWS 0\n2 Y SNAPSHOT 0 ROWS 1\n3 P SNAPSHOT 0 ROWS 1\n\
        SERIAL 1 3 2\nREFUSED 0\nASSERTIONS 1\nCOVER TRUE\n",
};

/// Y commits first, and P last.
pub const PIVOT_REFUSED: History = History {
    more: &[COVER, SEVEN, KIM],
    script: "X: BEGIN; P: BEGIN; Y: BEGIN; X: SELECT ONCALL FROM DUTY WHERE ID = 1;
        P: SELECT BAL FROM ACCT WHERE ID = 1; P: UPDATE DUTY SET ONCALL = 0 WHERE ID = 1;
        Y: UPDATE ACCT SET BAL = 0 WHERE ID = 1; Y: COMMIT; X: COMMIT; P: COMMIT;",
    turns: &[0, 1, 2, 0, 1, 1, 2, 2, 0, 1],
    answers: "X: BEGIN 0\nP: BEGIN 0\nY: BEGIN 0\nX: SELECT 1\n  1\nP: SELECT 1\n  100\nP: UPDATE 1\n\
        Y: UPDATE 1\nY: COMMIT 1\nX: COMMIT 2\nP: REFUSED 13 40001 READER 2 PIVOT THIS WRITER 1\n",
    grouped: "X: BEGIN 0\nX: SELECT 1\n  1\nX: COMMIT 2\n\
        P: BEGIN 0\nP: SELECT 1\n  100\nP: UPDATE 1\nP: REFUSED 13 40001 READER 2 PIVOT THIS WRITER 1\n\
        Y: BEGIN 0\nY: UPDATE 1\nY: COMMIT 1\n",
    closing: "COMMITS 2\n1 Y SNAPSHOT 0 ROWS 1\n2 X SNAPSHOT 0 ROWS 0\nSERIAL 1 2\n\
        REFUSED 1\nP 13 40001 READER 2 PIVOT THIS WRITER 1\nASSERTIONS 1\nCOVER TRUE\n",
};

/// Y commits first, and X last.
pub const READER_REFUSED: History = History {
    more: &[COVER, SEVEN, KIM],
    script: "X: BEGIN; P: BEGIN; Y: BEGIN; X: SELECT ONCALL FROM DUTY WHERE ID = 1;
        P: SELECT BAL FROM ACCT WHERE ID = 1; P: UPDATE DUTY SET ONCALL = 0 WHERE ID = 1;
        Y: UPDATE ACCT SET BAL = 0 WHERE ID = 1; Y: COMMIT; P: COMMIT; X: COMMIT;",
    turns: &[0, 1, 2, 0, 1, 1, 2, 2, 1, 0],
    answers: "X: BEGIN 0\nP: BEGIN 0\nY: BEGIN 0\nX: SELECT 1\n  1\nP: SELECT 1\n  100\nP: UPDATE 1\n\
        Y: UPDATE 1\nY: COMMIT 1\nP: COMMIT 2\nX: REFUSED 13 40001 READER THIS PIVOT 2 WRITER 1\n",
    grouped: "X: BEGIN 0\nX: SELECT 1\n  1\nX: REFUSED 13 40001 READER THIS PIVOT 2 WRITER 1\n\
        P: BEGIN 0\nP: SELECT 1\n  100\nP: UPDATE 1\nP: COMMIT 2\n\
        Y: BEGIN 0\nY: UPDATE 1\nY: COMMIT 1\n",
    closing: "COMMITS 2\n1 Y SNAPSHOT 0 ROWS 1\n2 P SNAPSHOT 0 ROWS 1\nSERIAL 2 1\n\
        REFUSED 1\nX 13 40001 READER THIS PIVOT 2 WRITER 1\nASSERTIONS 1\nCOVER TRUE\n",
};

/// X begins only once Y has committed.
pub const LATE_READER: History = History {
    more: &[COVER, SEVEN, KIM],
    script: "P: BEGIN; Y: BEGIN; P: SELECT BAL FROM ACCT WHERE ID = 1;
        P: UPDATE DUTY SET ONCALL = 0 WHERE ID = 1; Y: UPDATE ACCT SET BAL = 0 WHERE ID = 1;
        Y: COMMIT; X: BEGIN; X: SELECT ONCALL FROM DUTY WHERE ID = 1; X: COMMIT; P: COMMIT;",
    turns: &[0, 1, 0, 0, 1, 1, 2, 2, 2, 0],
    answers: "P: BEGIN 0\nY: BEGIN 0\nP: SELECT 1\n  100\nP: UPDATE 1\nY: UPDATE 1\nY: COMMIT 1\n\
        X: BEGIN 1\nX: SELECT 1\n  1\nX: COMMIT 2\nP: REFUSED 13 40001 READER 2 PIVOT THIS WRITER 1\n",
    grouped: "P: BEGIN 0\nP: SELECT 1\n  100\nP: UPDATE 1\nP: REFUSED 13 40001 READER 2 PIVOT THIS WRITER 1\n\
        Y: BEGIN 0\nY: UPDATE 1\nY: COMMIT 1\nX: BEGIN 1\nX: SELECT 1\n  1\nX: COMMIT 2\n",
    closing: "COMMITS 2\n1 Y SNAPSHOT 0 ROWS 1\n2 X SNAPSHOT 1 ROWS 0\nSERIAL 1 2\n\
        REFUSED 1\nP 13 40001 READER 2 PIVOT THIS WRITER 1\nASSERTIONS 1\nCOVER TRUE\n",
};

/// X may stand before P, since its snapshot does not hold Y.
pub const READ_ONLY_READER_PASSES: History = History {
    more: &[COVER, SEVEN, KIM],
    script: "X: BEGIN READ ONLY; P: BEGIN; Y: BEGIN; X: SELECT ONCALL FROM DUTY WHERE ID = 1;
        P: SELECT BAL FROM ACCT WHERE ID = 1; P: UPDATE DUTY SET ONCALL = 0 WHERE ID = 1;
        Y: UPDATE ACCT SET BAL = 0 WHERE ID = 1; Y: COMMIT; X: COMMIT; P: COMMIT;",
    turns: &[0, 1, 2, 0, 1, 1, 2, 2, 0, 1],
    answers: "X: BEGIN 0\nP: BEGIN 0\nY: BEGIN 0\nX: SELECT 1\n  1\nP: SELECT 1\n  100\nP: UPDATE 1\n\
        Y: UPDATE 1\nY: COMMIT 1\nX: COMMIT 2\nP: COMMIT 3\n",
    grouped: "X: BEGIN 0\nX: SELECT 1\n  1\nX: COMMIT 2\n\
        P: BEGIN 0\nP: SELECT 1\n  100\nP: UPDATE 1\nP: COMMIT 3\n\
        Y: BEGIN 0\nY: UPDATE 1\nY: COMMIT 1\n",
    closing: "COMMITS 3\n1 Y SNAPSHOT 0 ROWS 1\n2 X SNAPSHOT 0 ROWS 0\n3 P SNAPSHOT 0 ROWS 1\n\
        SERIAL 2 3 1\nREFUSED 0\nASSERTIONS 1\nCOVER TRUE\n",
};

/// The snapshot of X holds Y, and not P.
pub const READ_ONLY_READER_REFUSED: History = History {
    more: &[COVER, SEVEN, KIM],
    script: "P: BEGIN; Y: BEGIN; P: SELECT BAL FROM ACCT WHERE ID = 1;
        P: UPDATE DUTY SET ONCALL = 0 WHERE ID = 1; Y: UPDATE ACCT SET BAL = 0 WHERE ID = 1;
        Y: COMMIT; X: BEGIN READ ONLY; P: COMMIT; X: SELECT ONCALL FROM DUTY WHERE ID = 1; X: COMMIT;",
    turns: &[0, 1, 0, 0, 1, 1, 2, 0, 2, 2],
    answers: "P: BEGIN 0\nY: BEGIN 0\nP: SELECT 1\n  100\nP: UPDATE 1\nY: UPDATE 1\nY: COMMIT 1\n\
        X: BEGIN 1\nP: COMMIT 2\nX: SELECT 1\n  1\nX: REFUSED 13 40001 READER THIS PIVOT 2 WRITER 1\n",
    grouped: "P: BEGIN 0\nP: SELECT 1\n  100\nP: UPDATE 1\nP: COMMIT 2\nY: BEGIN 0\nY: UPDATE 1\nY: COMMIT 1\n\
        X: BEGIN 1\nX: SELECT 1\n  1\nX: REFUSED 13 40001 READER THIS PIVOT 2 WRITER 1\n",
    closing: "COMMITS 2\n1 Y SNAPSHOT 0 ROWS 1\n2 P SNAPSHOT 0 ROWS 1\nSERIAL 2 1\n\
        REFUSED 1\nX 13 40001 READER THIS PIVOT 2 WRITER 1\nASSERTIONS 1\nCOVER TRUE\n",
};
