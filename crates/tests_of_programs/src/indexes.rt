//! Indexes, by the bytes that are printed: they change no answer.

use crate::replays::prints_over_tables;
use std::test::Fail;

#[test]
fn indexes_change_nothing(rt: HostRuntime) -> Result<(), Fail> {
    prints_over_tables(
        &rt,
        "CREATE INDEX OWNERS ON ACCT (OWNER); CREATE INDEX ACCT ON ACCT (BAL);
         INSERT INTO ACCT VALUES (2, 'KIM', 1); INSERT INTO ACCT VALUES (1, 'KIM', 1);
         create index INDEX on ACCT (ID);",
        "A: BEGIN; A: SELECT ID FROM ACCT WHERE OWNER = 'KIM';",
        "A: BEGIN 0\nA: SELECT 2\n  1\n  2\nA: ROLLBACK AT END\n\
         COMMITS 0\nSERIAL\nREFUSED 0\nASSERTIONS 0\n",
    )
}

#[test]
fn index_name_taken(rt: HostRuntime) -> Result<(), Fail> {
    prints_over_tables(
        &rt,
        "CREATE INDEX X ON ACCT (BAL); CREATE INDEX X ON NOPE (BAL);",
        "",
        "DEFS: REFUSED 4 - X\n",
    )
}

#[test]
fn index_on_no_table(rt: HostRuntime) -> Result<(), Fail> {
    let defs = "CREATE INDEX X ON NOPE (BAL);";
    prints_over_tables(&rt, defs, "", "DEFS: REFUSED 3 - NOPE\n")
}

#[test]
fn index_on_no_column(rt: HostRuntime) -> Result<(), Fail> {
    prints_over_tables(
        &rt,
        "CREATE INDEX X ON ACCT (ID); CREATE INDEX Y ON ACCT (SHIFT);",
        "",
        "DEFS: REFUSED 3 - SHIFT\n",
    )
}
