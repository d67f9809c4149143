//! The texts that histories share with one another, and with other tests.

/// Shifts, who is on duty in them, and accounts.
pub const TABLES: &str = "CREATE TABLE SHIFTS (ID INTEGER PRIMARY KEY);
    CREATE TABLE DUTY (ID INTEGER PRIMARY KEY, SHIFT INTEGER, ONCALL INTEGER);
    CREATE TABLE ACCT (ID INTEGER PRIMARY KEY, OWNER VARCHAR(10), BAL INTEGER);";

/// Someone is on call in each shift.
pub const COVER: &str =
    "CREATE ASSERTION COVER CHECK (NOT EXISTS (SELECT * FROM SHIFTS S WHERE NOT EXISTS
    (SELECT * FROM DUTY D WHERE D.SHIFT = S.ID AND D.ONCALL = 1)));";

/// Shift 7, with two on call.
pub const SEVEN: &str =
    "INSERT INTO SHIFTS VALUES (7); INSERT INTO DUTY VALUES (1, 7, 1); INSERT INTO DUTY VALUES (2, 7, 1);";

/// Shift 8, with two on call.
pub const EIGHT: &str =
    "INSERT INTO SHIFTS VALUES (8); INSERT INTO DUTY VALUES (3, 8, 1); INSERT INTO DUTY VALUES (4, 8, 1);";

/// Two accounts of one owner.
pub const KIM: &str =
    "INSERT INTO ACCT VALUES (1, 'KIM', 100); INSERT INTO ACCT VALUES (2, 'KIM', 50);";

/// Each of two reads both accounts, and takes from one what both have together.
pub const LEDGER: &str = "A: BEGIN; B: BEGIN;
    A: SELECT BAL FROM ACCT WHERE ID = 1; A: SELECT BAL FROM ACCT WHERE ID = 2;
    B: SELECT BAL FROM ACCT WHERE ID = 1; B: SELECT BAL FROM ACCT WHERE ID = 2;
    A: UPDATE ACCT SET BAL = BAL - 120 WHERE ID = 1; A: COMMIT;
    B: UPDATE ACCT SET BAL = BAL - 120 WHERE ID = 2; B: COMMIT;";

/// The sessions of its lines.
pub const LEDGER_TURNS: &[u8] = &[0, 1, 0, 0, 1, 1, 0, 0, 1, 1];
