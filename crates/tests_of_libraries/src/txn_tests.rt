//! A transaction that is closed and opened again, and what it tells of itself.

use crate::shared::tables_of;
use alone::Answer;
use parse::parse_script;
use report::write_reply;
use std::alloc::Global;
use std::process::Abort;
use std::test::Fail;
use syntax::{Event, ScriptLine};
use txn::{Access, CloseFailure, ClosedTransaction, Txn};
use value::{Refusal, Text, Truth};

/// There is at most one leader, and no shift has two.
const TABLES: &str = "CREATE TABLE LEADERS (ID INTEGER PRIMARY KEY, SHIFT INTEGER);
    CREATE ASSERTION LEADER CHECK ((SELECT COUNT(*) FROM LEADERS) <= 1) DEFERRABLE;
    CREATE ASSERTION ALONE CHECK (NOT EXISTS (SELECT SHIFT FROM LEADERS GROUP BY SHIFT HAVING COUNT(*) > 1));";

/// Two leaders, where the check is put off.
const TWO_LEADERS: &str = "A: SET CONSTRAINTS LEADER DEFERRED; A: INSERT INTO LEADERS VALUES (1, 1);
    A: INSERT INTO LEADERS VALUES (2, 2); A: VERDICT LEADER;";

/// The answer to an event of an open transaction, which is a statement.
fn answer(txn: &mut Txn, event: &Event) -> Answer {
    match event {
        Event::Run(statement) => match txn.execute(statement) {
            Ok(reply) => Answer::Replied(reply),
            Err(refusal) => Answer::Refused(refusal),
        },
        _ => Answer::RolledBack,
    }
}

/// Runs the lines of a script, and writes the answers.
fn write_answers(txn: &mut Txn, lines: &[ScriptLine], out: &mut Vec<u8>) -> Result<(), Fail> {
    for line in lines {
        let answer = answer(txn, &line.event);
        let written = write_reply(line, &answer, out);
        drop(answer);
        written?;
    }
    Ok(())
}

/// What a script prints.
fn printed(alloc: Global, txn: &mut Txn, script: &str) -> Result<Vec<u8>, Fail> {
    let lines = parse_script(alloc, script.as_bytes())?;
    let mut out = Vec::new(alloc);
    let written = write_answers(txn, lines.as_slice(), &mut out);
    drop(lines);
    written?;
    Ok(out)
}

/// A transaction on the tables that a text defines.
fn begun(alloc: Global, text: &str) -> Result<Txn, Refusal> {
    let tables = tables_of(alloc, text)?;
    let begun = Txn::begin(alloc, 5, 1, Access::ReadWrite, &tables);
    drop(tables);
    Ok(begun?)
}

/// The transaction, closed and opened again.
fn reopened(txn: Txn) -> Txn {
    match txn.close_check() {
        Ok(closed) => closed.reopen(),
        Err(CloseFailure { txn }) => txn,
    }
}

/// Whether this name is the only one.
fn is_only(names: &[Text], name: &Text) -> bool {
    match names {
        [only] => *only == *name,
        _ => false,
    }
}

/// It is open, has noted four statements, and of its assertions LEADER alone is false.
fn tells_of_a_false_one<R: Abort>(rt: &R, txn: &Txn, leader: &Text) {
    assert_eq!(rt; (txn.begin_number(), txn.snapshot()), (5, 1));
    assert!(rt; !txn.is_read_only());
    assert_eq!(rt; txn.trace().len(), 4);
    assert_eq!(rt; txn.verdict(leader), Some(Truth::False));
    match txn.pending() {
        Ok(names) => assert!(rt; is_only(&names, leader)),
        Err(_) => assert!(rt; false, "memory"),
    }
}

/// Two assertions that may wait, of which an INSERT makes one false.
const LEDGER: &str = "CREATE TABLE ACCT (ID INTEGER PRIMARY KEY, OWNER VARCHAR(8), BAL INTEGER);
    CREATE ASSERTION LEAST CHECK ((SELECT COUNT(*) FROM ACCT) >= 1) DEFERRABLE INITIALLY DEFERRED;
    CREATE ASSERTION FUNDS CHECK (NOT EXISTS (SELECT OWNER FROM ACCT GROUP BY OWNER HAVING SUM(BAL) < 0))
    DEFERRABLE INITIALLY DEFERRED;
    INSERT INTO ACCT VALUES (1, 'KIM', 5);";

#[test]
fn pending_is_what_the_deferred_insert_made_false(rt: HostRuntime) -> Result<(), Fail> {
    let funds = Text::from_str(rt.alloc(), "FUNDS")?;
    let mut txn = begun(rt.alloc(), LEDGER)?;
    let told = printed(
        rt.alloc(),
        &mut txn,
        "A: INSERT INTO ACCT VALUES (2, 'KIM', -7);",
    );
    let pending = txn.pending();
    drop(txn.abandon());
    assert_eq!(rt; told?.as_slice(), b"A: INSERT 1\n".as_slice());
    assert!(rt; is_only(&pending?, &funds));
    Ok(())
}

/// Its COMMIT is to be refused, and it has changed two rows.
fn is_refused<R: Abort>(rt: &R, closed: &ClosedTransaction) {
    assert_eq!(rt; closed.changes().len(), 2);
    assert!(rt; closed.refused().is_some());
}

/// Ends the transaction by its COMMIT.
fn end<R: Abort>(rt: &R, txn: Txn) {
    match txn.close_check() {
        Ok(closed) => {
            is_refused(rt, &closed);
            drop(closed.into_parts());
        }
        Err(CloseFailure { txn }) => {
            drop(txn.abandon());
            assert!(rt; false, "memory");
        }
    }
}

#[test]
fn commit_checks_what_is_deferred(rt: HostRuntime) -> Result<(), Fail> {
    let leader = Text::from_str(rt.alloc(), "LEADER")?;
    let mut txn = begun(rt.alloc(), TABLES)?;
    let report = printed(rt.alloc(), &mut txn, TWO_LEADERS);
    tells_of_a_false_one(&rt, &txn, &leader);
    end(&rt, reopened(txn));
    assert_eq!(rt;
        report?.as_slice(),
        b"A: SET CONSTRAINTS\nA: INSERT 1\nA: INSERT 1\nA: VERDICT LEADER FALSE\n".as_slice()
    );
    Ok(())
}
