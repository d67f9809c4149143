//! Whole texts through the engine, by the bytes that it writes.

use crate::texts::line_of;
use commit::{Engine, admit};
use histories::{COVER, TABLES};
use parse::{parse_schema, parse_script};
use replay::{ProgramFault, replay_into};
use std::alloc::Global;
use std::io;
use std::io::{ErrorKind, Write};
use std::process::Abort;
use std::test::Fail;

/// At most two people are on duty in a shift; two are on duty in shift 7.
const AT_MOST_TWO: &str = "CREATE TABLE DUTY (ID INTEGER PRIMARY KEY, SHIFT INTEGER);
    CREATE ASSERTION ATMOST2 CHECK (NOT EXISTS (SELECT SHIFT FROM DUTY GROUP BY SHIFT HAVING COUNT(*) > 2));
    INSERT INTO DUTY VALUES (1, 7); INSERT INTO DUTY VALUES (2, 7);";

/// What is written for two texts, with at most so many commits: the report, or the line that says why there is none.
fn written(alloc: Global, defs: &str, script: &str, most: u32) -> Result<Vec<u8>, Fail> {
    let limit = most.max(1);
    let mut out = Vec::new(alloc);
    match replay_into(alloc, defs.as_bytes(), script.as_bytes(), limit, &mut out) {
        Ok(()) => Ok(out),
        Err(fault) => line_of(alloc, fault),
    }
}

pub fn prints(
    rt: &(impl Abort + Alloc<A = Global>),
    defs: &str,
    script: &str,
    want: &str,
) -> Result<(), Fail> {
    let got = written(rt.alloc(), defs, script, 1_000_000)?;
    assert_eq!(rt; got.as_slice(), want.as_bytes());
    Ok(())
}

/// How many pairs of a key and a commit that read it are kept after each event of a script, over the tables above.
pub fn locks_kept(alloc: Global, more: &str, script: &str) -> Result<Vec<usize>, Fail> {
    let defs = format!(in alloc; "{TABLES}{more}")?;
    let definitions = parse_schema(alloc, defs.as_bytes())?;
    let lines = parse_script(alloc, script.as_bytes())?;
    let view = admit(alloc, definitions.as_slice())?;
    let mut engine = Engine::new(alloc, 1_000_000, view, lines.as_slice())?;
    let mut kept = Vec::new(alloc);
    for line in lines.as_slice() {
        let _answer = engine.answer(line);
        kept.push(engine.core().locks())?;
    }
    Ok(kept)
}

/// What is printed for these definitions over the tables above.
pub fn prints_over_tables(
    rt: &(impl Abort + Alloc<A = Global>),
    more: &str,
    script: &str,
    want: &str,
) -> Result<(), Fail> {
    let defs = format!(in rt.alloc(); "{TABLES}{more}")?;
    prints(rt, defs.as_str(), script, want)
}

#[test]
fn grouped_count(rt: HostRuntime) -> Result<(), Fail> {
    prints(
        &rt,
        AT_MOST_TWO,
        "A: BEGIN; A: INSERT INTO DUTY VALUES (3, 7); A: DELETE FROM DUTY WHERE ID = 1; A: INSERT INTO DUTY VALUES (3, 7);
         A: INSERT INTO DUTY VALUES (2, 8); A: VERDICT ATMOST2; A: COMMIT;",
        "A: BEGIN 0\nA: REFUSED 10 23000 ATMOST2 7\nA: DELETE 1\nA: INSERT 1\nA: REFUSED 7 23000 DUTY 2\n\
         A: VERDICT ATMOST2 TRUE\nA: COMMIT 1\n\
         COMMITS 1\n1 A SNAPSHOT 0 ROWS 2\nSERIAL 1\nREFUSED 0\nASSERTIONS 1\nATMOST2 TRUE\n",
    )
}

#[test]
fn grouped_count_false_at_creation(rt: HostRuntime) -> Result<(), Fail> {
    prints(
        &rt,
        "CREATE TABLE DUTY (ID INTEGER PRIMARY KEY, SHIFT INTEGER);
         CREATE ASSERTION ATMOST2 CHECK (NOT EXISTS (SELECT SHIFT FROM DUTY GROUP BY SHIFT HAVING COUNT(*) > 1));
         INSERT INTO DUTY VALUES (1, 7); INSERT INTO DUTY VALUES (2, 7);",
        "A: BEGIN;",
        "DEFS: REFUSED 21 - ATMOST2 7\n",
    )
}

#[test]
fn commit_twice(rt: HostRuntime) -> Result<(), Fail> {
    let script = "A: BEGIN; A: COMMIT; A: COMMIT;";
    prints(
        &rt,
        AT_MOST_TWO,
        script,
        "A: BEGIN 0\nA: COMMIT 1\nA: REFUSED 14 - NO TRANSACTION\n\
         COMMITS 1\n1 A SNAPSHOT 0 ROWS 0\nSERIAL 1\nREFUSED 0\nASSERTIONS 1\nATMOST2 TRUE\n",
    )?;
    prints(
        &rt,
        TABLES,
        script,
        "A: BEGIN 0\nA: COMMIT 1\nA: REFUSED 14 - NO TRANSACTION\n\
         COMMITS 1\n1 A SNAPSHOT 0 ROWS 0\nSERIAL 1\nREFUSED 0\nASSERTIONS 0\n",
    )
}

#[test]
fn false_at_creation(rt: HostRuntime) -> Result<(), Fail> {
    let defs = format!(in rt.alloc(); "{TABLES}{COVER}INSERT INTO SHIFTS VALUES (7);")?;
    prints(
        &rt,
        defs.as_str(),
        "A: BEGIN;",
        "DEFS: REFUSED 21 - COVER 7\n",
    )
}

#[test]
fn null_group(rt: HostRuntime) -> Result<(), Fail> {
    prints_over_tables(
        &rt,
        "CREATE ASSERTION FUNDS CHECK (NOT EXISTS (SELECT OWNER FROM ACCT GROUP BY OWNER HAVING SUM(BAL) < 0));",
        "A: BEGIN; A: INSERT INTO ACCT VALUES (1, NULL, 5); A: INSERT INTO ACCT VALUES (2, NULL, -6);",
        "A: BEGIN 0\nA: INSERT 1\nA: REFUSED 10 23000 FUNDS NULL\nA: ROLLBACK AT END\n\
         COMMITS 0\nSERIAL\nREFUSED 0\nASSERTIONS 1\nFUNDS TRUE\n",
    )
}

#[test]
fn least_balance_removed(rt: HostRuntime) -> Result<(), Fail> {
    prints_over_tables(
        &rt,
        "INSERT INTO ACCT VALUES (1, 'KIM', 3); INSERT INTO ACCT VALUES (2, 'KIM', 3); INSERT INTO ACCT VALUES (3, 'KIM', 8);
         CREATE ASSERTION HIGH CHECK (NOT EXISTS (SELECT OWNER FROM ACCT GROUP BY OWNER HAVING MIN(BAL) > 5));",
        "A: BEGIN; A: DELETE FROM ACCT WHERE ID = 1; A: DELETE FROM ACCT WHERE ID = 2;",
        "A: BEGIN 0\nA: DELETE 1\nA: REFUSED 10 23000 HIGH 'KIM'\nA: ROLLBACK AT END\n\
         COMMITS 0\nSERIAL\nREFUSED 0\nASSERTIONS 1\nHIGH TRUE\n",
    )
}

#[test]
fn sum_of_nothing_is_unknown(rt: HostRuntime) -> Result<(), Fail> {
    let cap = "CREATE ASSERTION CAP CHECK ((SELECT SUM(BAL) FROM ACCT) <= 100);";
    prints_over_tables(
        &rt,
        cap,
        "",
        "COMMITS 0\nSERIAL\nREFUSED 0\nASSERTIONS 1\nCAP UNKNOWN\n",
    )?;
    prints_over_tables(
        &rt,
        cap,
        "A: BEGIN; A: VERDICT CAP; A: INSERT INTO ACCT VALUES (1, 'KIM', 100); A: VERDICT CAP; A: INSERT INTO ACCT VALUES (2, 'LEE', 1);",
        "A: BEGIN 0\nA: VERDICT CAP UNKNOWN\nA: INSERT 1\nA: VERDICT CAP TRUE\nA: REFUSED 10 23000 CAP ALL\nA: ROLLBACK AT END\n\
         COMMITS 0\nSERIAL\nREFUSED 0\nASSERTIONS 1\nCAP UNKNOWN\n",
    )
}

#[test]
fn too_wide(rt: HostRuntime) -> Result<(), Fail> {
    prints_over_tables(
        &rt,
        "CREATE ASSERTION W CHECK ((SELECT SUM(BAL) FROM ACCT) * 5000 > 0);",
        "",
        "DEFS: REFUSED 18 - TOO WIDE\n",
    )?;
    prints_over_tables(
        &rt,
        "CREATE ASSERTION W CHECK ((SELECT SUM(BAL) FROM ACCT) * 4000 > 0);",
        "A: BEGIN; A: VERDICT W;",
        "A: BEGIN 0\nA: VERDICT W UNKNOWN\nA: ROLLBACK AT END\n\
         COMMITS 0\nSERIAL\nREFUSED 0\nASSERTIONS 1\nW UNKNOWN\n",
    )
}

#[test]
fn bound_at_the_limit(rt: HostRuntime) -> Result<(), Fail> {
    prints_over_tables(
        &rt,
        "INSERT INTO ACCT VALUES (1, 'KIM', 1); INSERT INTO ACCT VALUES (2, 'KIM', 0);",
        "A: BEGIN; A: DELETE FROM ACCT WHERE BAL * BAL * 67108865 > 0; A: DELETE FROM ACCT WHERE BAL * BAL * 67108864 > 0;",
        "A: BEGIN 0\nA: REFUSED 18 - TOO WIDE\nA: DELETE 1\nA: ROLLBACK AT END\n\
         COMMITS 0\nSERIAL\nREFUSED 0\nASSERTIONS 0\n",
    )
}

#[test]
fn attribute_clash(rt: HostRuntime) -> Result<(), Fail> {
    let funds =
        "CREATE ASSERTION FUNDS CHECK (NOT EXISTS (SELECT OWNER FROM ACCT GROUP BY OWNER HAVING SUM(BAL) < 0))";
    let taken =
        "A: BEGIN 0\nA: ROLLBACK AT END\nCOMMITS 0\nSERIAL\nREFUSED 0\nASSERTIONS 1\nFUNDS TRUE\n";
    for (attributes, want) in [
        (
            "INITIALLY DEFERRED NOT DEFERRABLE",
            "DEFS: REFUSED 22 - FUNDS\n",
        ),
        ("INITIALLY DEFERRED", taken),
        ("NOT DEFERRABLE", taken),
        ("", taken),
    ] {
        let more = format!(in rt.alloc(); "{funds} {attributes};")?;
        prints_over_tables(&rt, more.as_str(), "A: BEGIN;", want)?;
    }
    Ok(())
}

#[test]
fn unfinished_text(rt: HostRuntime) -> Result<(), Fail> {
    prints(
        &rt,
        TABLES,
        "A: BEGIN;\nA: INSERT INTO ACCT VALUES (1, 'KI",
        "SCRIPT: REFUSED 2 - SYNTAX 41\n",
    )
}

#[test]
fn epoch_full(rt: HostRuntime) -> Result<(), Fail> {
    let got = written(
        rt.alloc(),
        TABLES,
        "A: BEGIN; A: INSERT INTO SHIFTS VALUES (1); A: COMMIT; A: BEGIN; A: SELECT * FROM SHIFTS; A: COMMIT;",
        1,
    )?;
    let want =
        "A: BEGIN 0\nA: INSERT 1\nA: COMMIT 1\nA: BEGIN 1\nA: SELECT 1\n  1\nA: REFUSED 17 - EPOCH FULL\n\
         COMMITS 1\n1 A SNAPSHOT 0 ROWS 1\nSERIAL 1\nREFUSED 1\nA 17 - EPOCH FULL\nASSERTIONS 0\n";
    assert_eq!(rt; got.as_slice(), want.as_bytes());
    Ok(())
}

/// A writer that takes so many bytes and then fails.
#[derive(Drop)]
struct Full {
    room: usize,
}

impl Write for Full {
    fn write(&mut self, buf: &[u8]) -> io::Result<usize> {
        let taken = buf.len().min(self.room);
        self.room -= taken;
        if taken == 0 && !buf.is_empty() {
            return Err(io::Error::from(ErrorKind::StorageFull));
        }
        Ok(taken)
    }

    fn flush(&mut self) -> io::Result<()> {
        Ok(())
    }
}

#[test]
fn a_full_disk_is_an_output_fault(rt: HostRuntime) -> Result<(), Fail> {
    for room in [0, 1, 10] {
        let mut out = Full { room };
        let answer = replay_into(
            rt.alloc(),
            AT_MOST_TWO.as_bytes(),
            b"A: BEGIN; A: COMMIT;",
            1,
            &mut out,
        );
        assert!(rt;
            matches!(answer, Err(ProgramFault::Output)),
            "with room for {room}"
        );
    }
    Ok(())
}
