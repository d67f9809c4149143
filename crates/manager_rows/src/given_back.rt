//! A COMMIT that finds no memory gives its transaction back: through a manager, and below it through an engine.

ghost use Rattle.std.specs.Prelude.{◌≡◌, IfOk};
ghost use Rattle.alone.specs.Alone.{IsSound};

use crate::again::{for_ever, is_same, page, show, show_core, show_newest, show_run};
use crate::driver::{Seat, equal, found, unless_memory};
use crate::printed::{Case, Opening, lines_of, make_opening, open, prints, run_script};
use crate::rows::FUNDS_DEFERRABLE;
use alone::Answer;
use commit::{Core, Engine, admit};
use delta::View;
use histories::{COVER, KIM, SEVEN, TABLES};
use parse::parse_schema;
use report::write_reply;
use session::{CommitFault, Manager, Named};
use std::alloc::Global;
use std::marker::Brand;
use std::process::Abort;
use std::sync::Wait;
use std::test::Fail;
use syntax::ScriptLine;

/// Each takes the same one off call; the second is refused, and its COMMIT has an entry to make for that.
const SCRIPT: &str = "A: BEGIN; B: BEGIN; A: UPDATE DUTY SET ONCALL = 0 WHERE ID = 1;
    B: UPDATE DUTY SET ONCALL = 0 WHERE ID = 1; A: COMMIT; B: COMMIT;";

const ANSWERS: &str = "A: BEGIN 0\nB: BEGIN 0\nA: UPDATE 1\nB: UPDATE 1\nA: COMMIT 1\n\
    B: REFUSED 12 40001 DUTY 1 BY 1\n";

#[test]
fn by_a_manager(rt: HostRuntime) -> Result<(), Fail> {
    let more = format!(in rt.alloc(); "{COVER}{SEVEN}")?;
    let want = format!(in rt.alloc();
        "{ANSWERS}COMMITS 1\n1 A SNAPSHOT 0 ROWS 1\nSERIAL 1\nREFUSED 1\nB 12 40001 DUTY 1 BY 1\n\
        ASSERTIONS 1\nCOVER TRUE\n"
    )?;
    let case = Case {
        script: SCRIPT,
        want: want.as_str(),
        receipts: &[1, 1],
        locks: 0,
    };
    prints(&rt, rt.alloc(), more.as_str(), &case)
}

/// A script for an engine, over these definitions, what its events are answered, and how many commits come of it and
/// how many refused ones.
#[derive(Drop)]
struct Row<'a> {
    more: &'a str,
    script: &'a str,
    answers: &'a str,
    commits: usize,
    refused: usize,
}

#[test]
fn by_an_engine(rt: HostRuntime) -> Result<(), Fail> {
    let more = format!(in rt.alloc(); "{COVER}{SEVEN}")?;
    let row = Row {
        more: more.as_str(),
        script: SCRIPT,
        answers: ANSWERS,
        commits: 1,
        refused: 1,
    };
    answers_row(&rt, rt.alloc(), &row)
}

/// The reader's COMMIT joins a commit that wrote what it read.
#[test]
fn reader_before_writer(rt: HostRuntime) -> Result<(), Fail> {
    let row = Row {
        more: KIM,
        script: "A: BEGIN; A: SELECT BAL FROM ACCT WHERE ID = 1;
            B: BEGIN; B: UPDATE ACCT SET BAL = 0 WHERE ID = 1; B: COMMIT; A: COMMIT;",
        answers: "A: BEGIN 0\nA: SELECT 1\n  100\nB: BEGIN 0\nB: UPDATE 1\nB: COMMIT 1\nA: COMMIT 2\n",
        commits: 2,
        refused: 0,
    };
    answers_row(&rt, rt.alloc(), &row)
}

/// A row that a deferred assertion let in is refused by its check at COMMIT.
#[test]
fn deferred_row(rt: HostRuntime) -> Result<(), Fail> {
    let row = Row {
        more: FUNDS_DEFERRABLE,
        script: "A: BEGIN; A: SET CONSTRAINTS ALL DEFERRED; A: INSERT INTO ACCT VALUES (1, 'LEE', -4); A: COMMIT;",
        answers: "A: BEGIN 0\nA: SET CONSTRAINTS\nA: INSERT 1\nA: REFUSED 10 40002 FUNDS 'LEE'\n",
        commits: 0,
        refused: 1,
    };
    answers_row(&rt, rt.alloc(), &row)
}

/// The accounts of no owner are one group, whose sum each of two keeps above zero alone.
#[test]
fn null_group(rt: HostRuntime) -> Result<(), Fail> {
    let more = format!(in rt.alloc();
        "{FUNDS_DEFERRABLE}INSERT INTO ACCT VALUES (1, NULL, 5); INSERT INTO ACCT VALUES (2, NULL, 5);"
    )?;
    let row = Row {
        more: more.as_str(),
        script: "A: BEGIN; B: BEGIN; A: UPDATE ACCT SET BAL = -4 WHERE ID = 1;
            B: UPDATE ACCT SET BAL = -4 WHERE ID = 2; A: COMMIT; B: COMMIT;",
        answers: "A: BEGIN 0\nB: BEGIN 0\nA: UPDATE 1\nB: UPDATE 1\nA: COMMIT 1\n\
            B: REFUSED 13 40001 READER 1 PIVOT THIS WRITER 1\n",
        commits: 1,
        refused: 1,
    };
    answers_row(&rt, rt.alloc(), &row)
}

fn answers_row<R: Abort>(rt: &R, alloc: Global, row: &Row) -> Result<(), Fail> {
    let lines = lines_of(alloc, row.script)?;
    let mut engine = engine(alloc, row.more, lines.as_slice())?;
    let report = answers(alloc, &mut engine, lines.as_slice())?;
    assert_eq!(rt; report.as_slice(), row.answers.as_bytes());
    ended(rt, engine.core(), row);
    Ok(())
}

/// A COMMIT that finds no memory, and then a ROLLBACK: nothing of the transaction is left.
#[test]
fn rolled_back(rt: HostRuntime) -> Result<(), Fail> {
    let more = format!(in rt.alloc(); "{COVER}{SEVEN}")?;
    let on = make_opening(rt.alloc(), more.as_str(), 10, 10)?;
    rolls_back::<Brand, HostRuntime>(&rt, rt.alloc(), on)
}

fn rolls_back<N: Named, R: Wait + Abort>(rt: &R, alloc: Global, on: Opening) -> Result<(), Fail>
    requires shelf { on.shelf ≡ N.shelf 1 }
    requires limits { on.limits ≡ N.limits 1 }
{
    let manager = open::<N, R>(rt, alloc, 1, on)?;
    let mut sessions = run_script(
        rt,
        alloc,
        &manager,
        "A: BEGIN; A: UPDATE DUTY SET ONCALL = 0 WHERE ID = 1;",
    )?;
    let mut seat = sessions.seats.pop().ok_or("no seat")?;
    let commits = usize::from(commits_or_rolls_back(rt, &manager, &mut seat)?);
    let mut newest = page(alloc)?;
    show_newest(rt, &manager, &mut seat.session, &mut newest)?;
    drop(seat);
    let history = manager.close();
    equal(rt, history.core().records().len(), commits);
    equal(rt, history.core().refused().len(), 0);
    equal(rt, history.core().locks(), 0);
    Ok(())
}

/// Whether the open transaction was committed. One whose COMMIT finds no memory is rolled back.
fn commits_or_rolls_back<N: Named, R: Wait>(
    rt: &R,
    manager: &Manager<N>,
    seat: &mut Seat<N>,
) -> Result<bool, Fail> {
    let Some(txn) = seat.txn.take() else {
        return Err(Fail::from("no transaction"));
    };
    match manager.commit(rt, &mut seat.session, txn) {
        Ok(_receipt) => Ok(true),
        Err(fault) => rolls_back_fault(rt, manager, fault),
    }
}

fn rolls_back_fault<N: Named, R: Wait>(
    rt: &R,
    manager: &Manager<N>,
    fault: CommitFault<N>,
) -> Result<bool, Fail> {
    let CommitFault {
        refusal,
        txn,
        shown: _,
    } = fault;
    let Some(txn) = txn else {
        return Err(Fail::from(refusal));
    };
    match manager.rollback(rt, txn) {
        Ok(()) => Ok(false),
        Err((_, txn)) => {
            drop(txn.abandon());
            Err(Fail::from("what COMMIT gave back is no transaction of the manager"))
        }
    }
}

/// The report of what the lines of a script are answered.
fn answers(alloc: Global, engine: &mut Engine, lines: &[ScriptLine]) -> Result<Vec<u8>, Fail> {
    let mut report = Vec::new(alloc);
    for line in lines {
        add_answer(alloc, engine, line, &mut report)?;
    }
    Ok(report)
}

fn add_answer(
    alloc: Global,
    engine: &mut Engine,
    line: &ScriptLine,
    report: &mut Vec<u8>,
) -> Result<(), Fail> {
    let answer = answer_again(alloc, engine, line)?;
    let added = write_reply(line, &answer, report);
    drop(answer);
    added?;
    Ok(())
}

/// The tables that these definitions begin with.
fn load(alloc: Global, more: &str) -> Result<View, Fail>
    ensures { IfOk result (λ view. IsSound view.declared view.state) }
{
    let text = format!(in alloc; "{TABLES}{more}")?;
    let definitions = parse_schema(alloc, text.as_bytes())?;
    let view = admit(alloc, definitions.as_slice())?;
    Ok(view)
}

/// An engine over these definitions. One that finds no memory is made once more.
fn engine(alloc: Global, more: &str, lines: &[ScriptLine]) -> Result<Engine, Fail> {
    match Engine::new(alloc, 10, load(alloc, more)?, lines) {
        Ok(engine) => Ok(engine),
        Err(_) => Engine::new(alloc, 10, load(alloc, more)?, lines).map_err(|_| for_ever()),
    }
}

/// Answers an event. One that finds no memory has changed nothing that can be seen, and is answered once more.
fn answer_again(alloc: Global, engine: &mut Engine, line: &ScriptLine) -> Result<Answer, Fail> {
    let before = shown(alloc, engine)?;
    if let Some(first) = unless_memory(engine.answer(line)) {
        return Ok(first);
    }
    is_same(&before, &shown(alloc, engine)?)?;
    found(engine.answer(line))
}

fn shown(alloc: Global, engine: &Engine) -> Result<String, Fail> {
    let mut text = page(alloc)?;
    show_core(engine.core(), &mut text)?;
    for seat in engine.seats() {
        show_seat(engine.core(), seat, &mut text)?;
    }
    Ok(text)
}

/// The open transaction of a seat, and whether the commits know it.
fn show_seat(core: &Core, seat: &commit::Seat, text: &mut String) -> Result<(), Fail> {
    let Some(txn) = &seat.txn else {
        text.push_str("NONE\n")?;
        return Ok(());
    };
    show(
        &core.holds(txn.begin_number(), txn.snapshot(), txn.is_read_only()),
        text,
    )?;
    show_run(txn.snapshot(), txn.trace(), txn.reads(), txn.own(), text)
}

/// So many were committed and so many refused, and none is open.
fn ended<R: Abort>(rt: &R, core: &Core, row: &Row) {
    equal(rt, core.records().len(), row.commits);
    equal(rt, core.serial_order().len(), row.commits);
    equal(rt, core.refused().len(), row.refused);
    equal(rt, core.locks(), 0);
}
