//! Transactions that read alone, and when they are safe.

ghost use Rattle.std.specs.Prelude.{IfOk};
ghost use Rattle.alone.specs.Alone.{IsSound};
ghost use Rattle.commit.specs.Events.{AreLive};

use crate::shared::tables_of;
use commit::{Core, Engine, Outcome, run, safe_readers_are_never_refused};
use delta::View;
use parse::parse_script;
use std::alloc::{AllocError, Global};
use std::test::Fail;
use syntax::ScriptLine;
use txn::copy_record;
use value::{Refusal, Truth};

/// The outcome of events over tables.
fn outcome_over(alloc: Global, tables: View, lines: &[ScriptLine]) -> Result<Outcome, Refusal>
    requires { IsSound tables.declared tables.state }
    ensures { IfOk result (λ outcome. AreLive outcome.engine.core outcome.engine.seats) }
{
    let outcome = run(alloc, 4, tables, lines)?;
    Ok(outcome)
}

/// The outcome of a script over the tables that a text defines.
fn outcome_of(alloc: Global, text: &str, script: &str) -> Result<Outcome, Refusal>
    ensures { IfOk result (λ outcome. AreLive outcome.engine.core outcome.engine.seats) }
{
    let tables = tables_of(alloc, text)?;
    let lines = parse_script(alloc, script.as_bytes())?;
    let outcome = outcome_over(alloc, tables, lines.as_slice());
    drop(lines);
    outcome
}

/// Whether the transaction of the session that came last is open and safe.
fn is_last_safe(engine: &Engine) -> bool
    requires { AreLive engine.now.core engine.now.seats }
{
    match engine.seats().last() {
        Some(seat) => match &seat.txn {
            Some(txn) => engine.core().is_safe(txn),
            None => false,
        },
        None => false,
    }
}

/// Two rows that nobody has changed yet.
const ROWS: &str = "CREATE TABLE DUTY (ID INTEGER PRIMARY KEY, ONCALL INTEGER);
    INSERT INTO DUTY VALUES (1, 0); INSERT INTO DUTY VALUES (2, 0);";

/// Whether that transaction is safe after these events.
fn safety(alloc: Global, script: &str) -> Result<bool, Refusal> {
    let outcome = outcome_of(alloc, ROWS, script)?;
    let safe = is_last_safe(&outcome.engine);
    drop(outcome);
    Ok(safe)
}

/// A writer matters where its snapshot doesn't hold what the reader's holds.
#[test]
fn readers_become_safe(rt: HostRuntime) -> Result<(), Fail> {
    safe_readers_are_never_refused();
    for (script, want) in [
        ("R: BEGIN READ ONLY;", true),
        ("R: BEGIN;", false),
        ("R: BEGIN READ ONLY; R: COMMIT;", false),
        ("W: BEGIN; R: BEGIN READ ONLY;", true),
        ("W: BEGIN; X: BEGIN; X: COMMIT; R: BEGIN READ ONLY;", false),
        (
            "W: BEGIN; X: BEGIN; X: COMMIT; R: BEGIN READ ONLY; W: COMMIT;",
            true,
        ),
        (
            "W: BEGIN; X: BEGIN; X: COMMIT; R: BEGIN READ ONLY; W: ROLLBACK;",
            true,
        ),
    ] {
        assert_eq!(rt; safety(rt.alloc(), script)?, want, "{script}");
    }
    Ok(())
}

/// There is at most one leader, which COMMIT checks.
const LEADERS: &str = "CREATE TABLE LEADERS (ID INTEGER PRIMARY KEY);
    CREATE ASSERTION LEADER CHECK ((SELECT COUNT(*) FROM LEADERS) <= 1) DEFERRABLE INITIALLY DEFERRED;";

/// One is committed, and an open transaction has put in another.
const ONE_AND_ANOTHER: &str = "A: BEGIN; A: INSERT INTO LEADERS VALUES (1); A: COMMIT;
    B: BEGIN; B: INSERT INTO LEADERS VALUES (2);";

/// Whether of two sessions the second has a transaction open, on whose tables the one assertion is false.
fn is_false_where_open(live: &[Option<Vec<Truth>>]) -> bool {
    match live {
        [None, Some(verdicts)] => matches!(verdicts.as_slice(), [Truth::False]),
        _ => false,
    }
}

#[test]
fn verdicts_of_an_outcome(rt: HostRuntime) -> Result<(), Fail> {
    let outcome = outcome_of(rt.alloc(), LEADERS, ONE_AND_ANOTHER)?;
    assert!(rt; matches!(outcome.committed.as_slice(), [Truth::True]));
    assert!(rt; is_false_where_open(outcome.live.as_slice()));
    drop(outcome);
    Ok(())
}

/// Whether the only commit stands in its own place, also as a copy.
fn is_in_its_place(alloc: Global, core: &Core) -> Result<bool, AllocError> {
    let [commit] = core.records() else {
        return Ok(false);
    };
    let copy = copy_record(alloc, commit)?;
    let number = copy.number;
    drop(copy);
    Ok(matches!(core.places(), [place] if *place == number))
}

#[test]
fn places_of_commits(rt: HostRuntime) -> Result<(), Fail> {
    let outcome = outcome_of(rt.alloc(), LEADERS, ONE_AND_ANOTHER)?;
    let stands = is_in_its_place(rt.alloc(), outcome.engine.core());
    drop(outcome);
    assert!(rt; stands?);
    Ok(())
}
