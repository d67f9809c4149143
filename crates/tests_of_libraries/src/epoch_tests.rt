//! Epochs that follow one another.

use crate::shared::tables_of;
use commit::{Core, Engine, Epoch, Epochs, Outcome, run_epochs};
use definitions::{NewAssertion, new_assertions};
use parse::{parse_schema, parse_script};
use report::write_reply;
use std::alloc::Global;
use std::io;
use std::test::Fail;
use syntax::ScriptLine;
use value::{Refusal, Text};

/// An account of KIM.
const ACCOUNT: &str =
    "CREATE TABLE ACCT (ID INTEGER PRIMARY KEY, OWNER VARCHAR(8) NOT NULL, BAL INTEGER NOT NULL);
    INSERT INTO ACCT VALUES (1, 'KIM', 5);";

/// No owner's accounts sum below zero.
const FUNDS: &str = "CREATE ASSERTION FUNDS CHECK (NOT EXISTS (SELECT OWNER FROM ACCT GROUP BY OWNER
    HAVING SUM(BAL) < 0));";

/// No account is below zero.
const OWN_FUNDS: &str =
    "CREATE ASSERTION FUNDS CHECK (NOT EXISTS (SELECT * FROM ACCT WHERE BAL < 0));";

/// The new assertions that a text writes.
fn read_new(alloc: Global, text: &str) -> Result<Vec<NewAssertion>, Refusal> {
    new_assertions(alloc, parse_schema(alloc, text.as_bytes())?)
}

/// An epoch of these texts: the name that is dropped, if one is, the new assertions, and the events.
fn epoch_of(
    alloc: Global,
    (dropped, created, script): (&str, &str, &str),
) -> Result<Epoch, Refusal> {
    let mut names = Vec::new(alloc);
    if !dropped.is_empty() {
        names.push(Text::from_str(alloc, dropped)?)?;
    }
    Ok(Epoch {
        dropped: names,
        created: read_new(alloc, created)?,
        lines: parse_script(alloc, script.as_bytes())?,
    })
}

/// Writes what the events of an epoch were answered.
fn write_outcome(lines: &[ScriptLine], outcome: &Outcome, out: &mut Vec<u8>) -> io::Result<()> {
    for (line, answer) in lines.iter().zip(outcome.answers.iter()) {
        write_reply(line, answer, out)?;
    }
    Ok(())
}

/// What was printed of epochs over the tables that a text defines, and why they ended early, if they did.
fn printed(
    alloc: Global,
    tables: &str,
    texts: &[(&str, &str, &str)],
) -> Result<(Vec<u8>, Option<Refusal>), Fail> {
    let loaded = tables_of(alloc, tables)?;
    let mut epochs = Vec::new(alloc);
    for text in texts {
        epochs.push(epoch_of(alloc, *text)?)?;
    }
    let Epochs { outcomes, refused } = run_epochs(alloc, 4, &loaded, epochs.as_slice());
    let mut out = Vec::new(alloc);
    for (epoch, outcome) in epochs.iter().zip(outcomes.iter()) {
        write_outcome(epoch.lines.as_slice(), outcome, &mut out)?;
    }
    drop((outcomes, epochs));
    Ok((out, refused))
}

/// KIM's accounts sum below zero for a while.
const MEANWHILE: (&str, &str, &str) = (
    "",
    "",
    "A: BEGIN; A: INSERT INTO ACCT VALUES (2, 'KIM', -7); A: COMMIT;
    B: BEGIN; B: UPDATE ACCT SET BAL = 0 WHERE ID = 2; B: COMMIT;",
);

#[test]
fn checkpoint_with_funds(rt: HostRuntime) -> Result<(), Fail> {
    let next = (
        "",
        FUNDS,
        "C: BEGIN; C: INSERT INTO ACCT VALUES (3, 'KIM', -6);",
    );
    let (report, refused) = printed(rt.alloc(), ACCOUNT, &[MEANWHILE, next])?;
    assert!(rt; refused.is_none());
    assert_eq!(rt;
        report.as_slice(),
        b"A: BEGIN 0\nA: INSERT 1\nA: COMMIT 1\nB: BEGIN 1\nB: UPDATE 1\nB: COMMIT 2\n\
        C: BEGIN 0\nC: REFUSED 10 23000 FUNDS 'KIM'\n"
            .as_slice(),
    );
    Ok(())
}

/// Whether a name was dropped that no assertion has.
fn is_unknown(refused: &Option<Refusal>, dropped: &[u8]) -> bool {
    match refused {
        Some(Refusal::UnknownName { name }) => name.as_bytes() == dropped,
        _ => false,
    }
}

/// An assertion is replaced by another of its name. The sum was above zero, and the account that is put in is not.
#[test]
fn an_assertion_is_replaced(rt: HostRuntime) -> Result<(), Fail> {
    let insert = "A: BEGIN; A: INSERT INTO ACCT VALUES (2, 'KIM', -1); A: ROLLBACK;";
    let (report, refused) = printed(
        rt.alloc(),
        ACCOUNT,
        &[
            ("", FUNDS, insert),
            ("FUNDS", OWN_FUNDS, insert),
            ("FUNDS", "", insert),
            ("FUNDS", "", insert),
        ],
    )?;
    assert!(rt; is_unknown(&refused, b"FUNDS"));
    assert_eq!(rt;
        report.as_slice(),
        b"A: BEGIN 0\nA: INSERT 1\nA: ROLLBACK\nA: BEGIN 0\nA: REFUSED 10 23000 FUNDS 2\nA: ROLLBACK\n\
        A: BEGIN 0\nA: INSERT 1\nA: ROLLBACK\n"
            .as_slice(),
    );
    Ok(())
}

/// An engine over an account, with a transaction open.
fn engine_with_open(alloc: Global, lines: &[ScriptLine]) -> Result<Engine, Refusal> {
    let mut engine = Engine::new(alloc, 4, tables_of(alloc, ACCOUNT)?, lines)?;
    for line in lines {
        drop(engine.answer(line));
    }
    Ok(engine)
}

/// What an engine hands out once no transaction is open.
fn hand_out(
    engine: &mut Engine,
    end: &[ScriptLine],
    created: &[NewAssertion],
) -> Result<Core, Refusal> {
    if !matches!(
        engine.checkpoint(&[], created),
        Err(Refusal::TransactionOpen)
    ) {
        return Err(Refusal::NoTransaction);
    }
    for line in end {
        drop(engine.answer(line));
    }
    engine.checkpoint(&[], created)
}

#[test]
fn an_open_transaction_keeps_its_epoch(rt: HostRuntime) -> Result<(), Fail> {
    let alloc = rt.alloc();
    let lines = parse_script(
        alloc,
        b"A: BEGIN; A: COMMIT; A: BEGIN; A: INSERT INTO ACCT VALUES (2, 'KIM', -7);",
    )?;
    let end = parse_script(alloc, b"A: ROLLBACK;")?;
    let created = read_new(alloc, FUNDS)?;
    let mut engine = engine_with_open(alloc, lines.as_slice())?;
    let before = hand_out(&mut engine, end.as_slice(), created.as_slice())?;
    assert_eq!(rt; before.records().len(), 1);
    assert_eq!(rt; engine.core().records().len(), 0);
    assert_eq!(rt; engine.seats().len(), 1);
    assert_eq!(rt; engine.core().loaded().assertions().len(), 1);
    drop((engine, before, lines, end, created));
    Ok(())
}
