//! Scripts on threads, by the bytes that they print.

ghost use Rattle.std.specs.Prelude.{◌≡◌};

use crate::files::BrittleWriter;
use crate::gates::{Held, InTurn, Meeting};
use crate::texts::{defs_of, line_of};
use definitions::Definitions;
use histories::{
    DISJOINT_SHIFTS, HARMLESS_PIVOT, History, KIM, LATE_READER, LEDGER, LEDGER_TURNS,
    LEDGER_WRITE_SKEW, PIVOT_REFUSED, READ_ONLY_INSERT, READ_ONLY_READER_PASSES,
    READ_ONLY_READER_REFUSED, READER_BEFORE_WRITER, READER_REFUSED, SAME_KEY_INSERTED_TWICE,
    SHIFT_WRITE_SKEW, TABLES,
};
use parse::{parse_schema, parse_script};
use replay::ProgramFault;
use session::{Limits, Manager, Named, Shelf};
use std::alloc::Global;
use std::marker::Brand;
use std::process::Abort;
use std::sync::Wait;
use std::test::Fail;
use std::thread::Threads;
use threads::{Free, Gate, Script, ScriptAnswers, print_report, run_sessions, threads_into};
use value::Text;

/// What is written for two texts, by the threads that the gate lets pass.
fn written<R, G>(rt: &R, defs: &str, script: &str, gate: &G) -> Result<Vec<u8>, Fail>
where
    R: Threads + Wait + Sync + Alloc<A = Global>,
    G: Gate + Sync,
{
    let alloc = rt.alloc();
    let shelf = Shelf::new(alloc)?;
    let mut out = Vec::new(alloc);
    let run = threads_into::<Brand, R, G, Vec<u8>>(
        rt,
        alloc,
        shelf,
        0,
        defs.as_bytes(),
        script.as_bytes(),
        1_000_000,
        gate,
        &mut out,
    );
    match run {
        Ok(()) => Ok(out),
        Err(fault) => line_of(alloc, fault),
    }
}

/// The history's lines, grouped by session.
fn prints_in_turn(
    rt: &(impl Threads + Wait + Sync + Abort + Alloc<A = Global>),
    history: &History,
) -> Result<(), Fail> {
    let got = written_in_turn(rt, history)?;
    let want = format!(in rt.alloc(); "{}{}", history.grouped, history.closing)?;
    assert_eq!(rt; got.as_slice(), want.as_bytes());
    Ok(())
}

/// What is written for a history whose lines come in their turns.
fn written_in_turn(
    rt: &(impl Threads + Wait + Sync + Abort + Alloc<A = Global>),
    history: &History,
) -> Result<Vec<u8>, Fail> {
    let defs = defs_of(rt.alloc(), history)?;
    let gate = InTurn::new(history.turns);
    let got = written(rt, defs.as_str(), history.script, &gate)?;
    assert!(rt; !gate.gave_up());
    Ok(got)
}

#[test]
fn shift_write_skew(rt: HostRuntime) -> Result<(), Fail> {
    prints_in_turn(&rt, &SHIFT_WRITE_SKEW)
}

#[test]
fn disjoint_shifts(rt: HostRuntime) -> Result<(), Fail> {
    prints_in_turn(&rt, &DISJOINT_SHIFTS)
}

#[test]
fn ledger_write_skew(rt: HostRuntime) -> Result<(), Fail> {
    prints_in_turn(&rt, &LEDGER_WRITE_SKEW)
}

#[test]
fn reader_before_writer(rt: HostRuntime) -> Result<(), Fail> {
    prints_in_turn(&rt, &READER_BEFORE_WRITER)
}

#[test]
fn harmless_pivot(rt: HostRuntime) -> Result<(), Fail> {
    prints_in_turn(&rt, &HARMLESS_PIVOT)
}

#[test]
fn pivot_refused(rt: HostRuntime) -> Result<(), Fail> {
    prints_in_turn(&rt, &PIVOT_REFUSED)
}

#[test]
fn reader_refused(rt: HostRuntime) -> Result<(), Fail> {
    prints_in_turn(&rt, &READER_REFUSED)
}

#[test]
fn late_reader(rt: HostRuntime) -> Result<(), Fail> {
    prints_in_turn(&rt, &LATE_READER)
}

#[test]
fn read_only_reader_passes(rt: HostRuntime) -> Result<(), Fail> {
    prints_in_turn(&rt, &READ_ONLY_READER_PASSES)
}

#[test]
fn read_only_reader_refused(rt: HostRuntime) -> Result<(), Fail> {
    prints_in_turn(&rt, &READ_ONLY_READER_REFUSED)
}

#[test]
fn read_only_insert(rt: HostRuntime) -> Result<(), Fail> {
    prints_in_turn(&rt, &READ_ONLY_INSERT)
}

#[test]
fn same_key_inserted_twice(rt: HostRuntime) -> Result<(), Fail> {
    prints_in_turn(&rt, &SAME_KEY_INSERTED_TWICE)
}

/// Each of two sessions begins only once the other one is there too.
#[test]
fn sessions_overlap(rt: HostRuntime) -> Result<(), Fail> {
    let gate = Meeting::new();
    let got = written(
        &rt,
        TABLES,
        "A: BEGIN; B: BEGIN; A: ROLLBACK; B: INSERT INTO SHIFTS VALUES (1);",
        &gate,
    )?;
    assert!(&rt; !gate.gave_up());
    assert_eq!(&rt;
        got.as_slice(),
        "A: BEGIN 0\nA: ROLLBACK\nB: BEGIN 0\nB: INSERT 1\nB: ROLLBACK AT END\n\
         COMMITS 0\nSERIAL\nREFUSED 0\nASSERTIONS 0\n"
            .as_bytes()
    );
    Ok(())
}

/// A session that waits in its transaction sees the tables of its begin, whatever others commit.
#[test]
fn held_session(rt: HostRuntime) -> Result<(), Fail> {
    let defs = format!(in rt.alloc(); "{TABLES}{KIM}")?;
    let gate = Held::new();
    let got = written(
        &rt,
        defs.as_str(),
        "A: BEGIN; A: SELECT BAL FROM ACCT WHERE ID = 1; A: SELECT BAL FROM ACCT WHERE ID = 2;
         B: BEGIN; B: UPDATE ACCT SET BAL = BAL + 1 WHERE ID = 1; B: COMMIT;
         B: BEGIN; B: UPDATE ACCT SET BAL = BAL + 1 WHERE ID = 1; B: COMMIT;
         B: BEGIN; B: UPDATE ACCT SET BAL = BAL + 1 WHERE ID = 1; B: COMMIT;
         A: SELECT BAL FROM ACCT WHERE ID = 1; A: COMMIT;",
        &gate,
    )?;
    assert!(&rt; !gate.gave_up());
    assert_eq!(&rt;
        got.as_slice(),
        "A: BEGIN 0\nA: SELECT 1\n  100\nA: SELECT 1\n  50\nA: SELECT 1\n  100\nA: COMMIT 4\n\
         B: BEGIN 0\nB: UPDATE 1\nB: COMMIT 1\nB: BEGIN 1\nB: UPDATE 1\nB: COMMIT 2\n\
         B: BEGIN 2\nB: UPDATE 1\nB: COMMIT 3\n\
         COMMITS 4\n1 B SNAPSHOT 0 ROWS 1\n2 B SNAPSHOT 1 ROWS 1\n3 B SNAPSHOT 2 ROWS 1\n\
         4 A SNAPSHOT 0 ROWS 0\nSERIAL 4 1 2 3\nREFUSED 0\nASSERTIONS 0\n"
            .as_bytes()
    );
    Ok(())
}

/// What comes of the ledger's row on threads, for a writer that fails at one of its calls.
fn written_to<R>(rt: &R, fails_at: usize) -> Result<(Result<(), ProgramFault>, usize), Fail>
where
    R: Threads + Wait + Sync + Alloc<A = Global>,
{
    let alloc = rt.alloc();
    let defs = format!(in alloc; "{TABLES}{KIM}")?;
    let gate = InTurn::new(LEDGER_TURNS);
    let mut out = BrittleWriter::new(fails_at);
    let shelf = Shelf::new(alloc)?;
    let run = threads_into::<Brand, R, InTurn, BrittleWriter>(
        rt,
        alloc,
        shelf,
        0,
        defs.as_bytes(),
        LEDGER.as_bytes(),
        1_000_000,
        &gate,
        &mut out,
    );
    Ok((run, out.calls()))
}

/// The writer fails at each of its calls in turn: nothing more is then asked of it.
#[test]
fn writers_that_fail(rt: HostRuntime) -> Result<(), Fail> {
    for fails_at in 0..1000 {
        let (run, calls) = written_to(&rt, fails_at)?;
        if calls <= fails_at {
            assert!(rt; run.is_ok());
            return Ok(());
        }
        assert!(rt; matches!(run, Err(ProgramFault::Output)));
        assert_eq!(rt; calls, fails_at.saturating_add(1));
    }
    Err(Fail::from("each run met a fault of the writer"))
}

/// A manager that hands out one session: one script is run, and the other one gets one answer.
#[test]
fn session_without_a_place(rt: HostRuntime) -> Result<(), Fail> {
    let shelf = Shelf::new(rt.alloc())?;
    runs_one_of_two::<Brand, _>(&rt, rt.alloc(), shelf)
}

fn runs_one_of_two<N: Named + Send + Sync, R: Threads + Wait + Abort + Sync>(
    rt: &R,
    alloc: Global,
    shelf: Shelf,
) -> Result<(), Fail>
    requires shelf { shelf ≡ N.shelf 0 }
    requires limits { N.limits 0 ≡ record { commits = 3; sessions = 1 } }
{
    let manager = manager_of_one::<N, R>(rt, alloc, shelf)?;
    let scripts = vec![in alloc; script_of(alloc, "A")?, script_of(alloc, "B")?]?;
    let answered = run_sessions(rt, alloc, &manager, scripts.as_slice(), &Free)?;
    one_ran(rt, alloc, answered.as_slice())
}

/// One has two answers and ran, the other has its refusal alone.
fn one_ran<R: Abort>(rt: &R, alloc: Global, answered: &[ScriptAnswers]) -> Result<(), Fail> {
    let lengths: Vec<usize> = answered
        .iter()
        .map(|script| script.answers.len())
        .collect(alloc)?;
    assert!(rt; matches!(lengths.as_slice(), [2, 1] | [1, 2]));
    assert_eq!(rt; answered.iter().filter(|script| script.ran).count(), 1);
    Ok(())
}

/// A script that is not run is told so after the whole report, of which its one line says why.
#[test]
fn report_without_a_session(rt: HostRuntime) -> Result<(), Fail> {
    let shelf = Shelf::new(rt.alloc())?;
    prints_unrun::<Brand, _>(&rt, rt.alloc(), shelf)
}

fn prints_unrun<N: Named + Send + Sync, R: Threads + Wait + Abort + Sync>(
    rt: &R,
    alloc: Global,
    shelf: Shelf,
) -> Result<(), Fail>
    requires shelf { shelf ≡ N.shelf 0 }
    requires limits { N.limits 0 ≡ record { commits = 3; sessions = 1 } }
{
    let manager = manager_of_one::<N, R>(rt, alloc, shelf)?;
    let _first = manager.session(rt, &Text::from_str(alloc, "B")?)?;
    let scripts = vec![in alloc; script_of(alloc, "A")?]?;
    let answered = run_sessions(rt, alloc, &manager, scripts.as_slice(), &Free)?;
    let mut out = Vec::new(alloc);
    let history = manager.close();
    let printed = print_report(
        &history,
        None,
        scripts.as_slice(),
        answered.as_slice(),
        &mut out,
    );
    assert!(rt; matches!(printed, Err(ProgramFault::NoThread)));
    assert_eq!(rt;
        out.as_slice(),
        b"A: REFUSED 24 - TOO MANY SESSIONS\nCOMMITS 0\nSERIAL\nREFUSED 0\nASSERTIONS 0\n".as_slice()
    );
    Ok(())
}

/// A manager of three commits and one session.
fn manager_of_one<N: Named, R: Wait>(
    rt: &R,
    alloc: Global,
    shelf: Shelf,
) -> Result<Manager<N>, Fail>
    requires shelf { shelf ≡ N.shelf 0 }
    requires limits { N.limits 0 ≡ record { commits = 3; sessions = 1 } }
{
    let definitions = parse_schema(alloc, TABLES.as_bytes())?;
    let definitions = Definitions::take(alloc, definitions.as_slice())?;
    let limits = Limits::new(3, 1).ok_or("these are limits")?;
    Ok(Manager::open(rt, alloc, shelf, 0, definitions, limits)?)
}

/// A script of two lines, which are those of A.
fn script_of(alloc: Global, name: &str) -> Result<Script, Fail> {
    Ok(Script {
        name: Text::from_str(alloc, name)?,
        lines: parse_script(alloc, b"A: BEGIN; A: COMMIT;")?,
    })
}
