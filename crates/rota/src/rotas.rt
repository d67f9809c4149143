//! The rota: what is defined, the doctors' threads, and what they leave.

ghost use Rattle.std.specs.Prelude.{◌≡◌};
ghost use denote.Param.Send.{IsSend, IsSync};

use crate::doctors::{Ending, go_off_call, run_once, sum_of};
use definitions::{Definitions, new_assertions};
use parse::{parse_schema, parse_statement};
use session::{History, Limits, Manager, Named, Session, Shelf};
use std::alloc::Global;
use std::marker::Brand;
use std::sync::Wait;
use std::thread;
use std::thread::Threads;
use syntax::{Event, Statement};
use value::{Refusal, Text, Truth};

const DEFS: &str = "CREATE TABLE SHIFTS (ID INTEGER PRIMARY KEY);
CREATE TABLE DUTY (ID INTEGER PRIMARY KEY, SHIFT INTEGER, ONCALL INTEGER);
CREATE ASSERTION COVERED CHECK (NOT EXISTS (
    SELECT * FROM SHIFTS S WHERE NOT EXISTS (SELECT * FROM DUTY D WHERE D.SHIFT = S.ID AND D.ONCALL = 1)));
INSERT INTO SHIFTS VALUES (7);
INSERT INTO DUTY VALUES (1, 7, 1);
INSERT INTO DUTY VALUES (2, 7, 1);
INSERT INTO DUTY VALUES (3, 7, 1);
INSERT INTO DUTY VALUES (4, 7, 1);";

/// A rule for later, which the rows to begin with would break: no more than two are on call in a shift.
const RESTED: &str = "CREATE ASSERTION RESTED CHECK (NOT EXISTS (
    SELECT SHIFT FROM DUTY WHERE ONCALL = 1 GROUP BY SHIFT HAVING COUNT(*) > 2));";

/// The doctors, and what each wishes.
const WISHES: [(&str, &str); 4] = [
    ("ANN", "UPDATE DUTY SET ONCALL = 0 WHERE ID = 1"),
    ("BOB", "UPDATE DUTY SET ONCALL = 0 WHERE ID = 2"),
    ("KIM", "UPDATE DUTY SET ONCALL = 0 WHERE ID = 3"),
    ("LEE", "UPDATE DUTY SET ONCALL = 0 WHERE ID = 4"),
];

/// A doctor's session and wish, and what came of it.
#[derive(Drop)]
struct Doctor<N: Named> {
    session: Session<N>,
    wish: &'static str,
    ending: anyhow::Result<Ending<N>>,
}

/// Runs the rota on a new manager, and prints what became of it.
pub fn run<R: Threads + Wait + Sync + Print + AllocGlobal>(rt: &R) -> anyhow::Result<()> {
    let Some(limits) = Limits::new(100, 5) else {
        anyhow::bail!("no limits");
    };
    let shelf = Shelf::new(rt.alloc())?;
    run_on::<Brand, R>(rt, shelf, limits)
}

/// The same, on this shelf. Which shelf and limits are those of the manager 1 is said by `N`, once for all its calls.
fn run_on<N: Named + Send + Sync, R: Threads + Wait + Sync + Print + AllocGlobal>(
    rt: &R,
    shelf: Shelf,
    limits: Limits,
) -> anyhow::Result<()>
    requires shelf { shelf ≡ N.shelf 1 }
    requires limits { limits ≡ N.limits 1 }
{
    let alloc = rt.alloc();
    let schema = parse_schema(alloc, DEFS.as_bytes())?;
    let definitions = Definitions::take(alloc, schema.as_slice())?;
    let mut manager = Manager::<N>::open(rt, alloc, shelf, 1, definitions, limits)?;
    let mut doctors = doctors_of(rt, alloc, &manager)?;
    ask_all(rt, &manager, &mut doctors);
    let history = create_rules(rt, alloc, &mut manager, RESTED)?;
    tell(rt, doctors.as_slice(), &history)?;
    tell_rules(rt, alloc, &manager)
}

/// From now on the rules of a text hold too. What was committed until now is handed out.
fn create_rules<N: Named, R: Wait>(
    rt: &R,
    alloc: Global,
    manager: &mut Manager<N>,
    text: &str,
) -> anyhow::Result<History<N>> {
    let created = new_assertions(alloc, parse_schema(alloc, text.as_bytes())?)?;
    let history = manager.checkpoint(rt, &[], &created)?;
    Ok(history)
}

/// How many are on call by the newest tables, which a clerk reads.
fn count_on_call<N: Named, R: Wait>(
    rt: &R,
    alloc: Global,
    manager: &Manager<N>,
) -> anyhow::Result<i128> {
    let mut clerk = manager.session(rt, &Text::from_str(alloc, "CLERK")?)?;
    let select = statement_of(alloc, "SELECT ONCALL FROM DUTY WHERE SHIFT = 7")?;
    let reply = run_once(rt, manager, &mut clerk, &select)?;
    Ok(sum_of(&reply))
}

/// The statement of a text.
fn statement_of(alloc: Global, text: &str) -> anyhow::Result<Statement> {
    match parse_statement(alloc, text.as_bytes())? {
        Event::Run(statement) => Ok(statement),
        _ => anyhow::bail!("no statement"),
    }
}

/// A session for each doctor.
fn doctors_of<N: Named, R: Wait>(
    rt: &R,
    alloc: Global,
    manager: &Manager<N>,
) -> Result<Vec<Doctor<N>>, Refusal> {
    let mut doctors = Vec::new(alloc);
    for (name, wish) in &WISHES {
        doctors.push(Doctor {
            session: manager.session(rt, &Text::from_str(alloc, name)?)?,
            wish,
            ending: Ok(Ending::Open),
        })?;
    }
    Ok(doctors)
}

/// Asks each doctor on a thread of its own. The scope ends when all threads have.
fn ask_all<N: Named + Send + Sync, R: Threads + Wait + Sync + AllocGlobal>(
    rt: &R,
    manager: &Manager<N>,
    doctors: &mut [Doctor<N>],
) {
    thread::scope(
        thread::scope_env(),
        rt,
        |scope|
            requires sends { IsSend N.row }
            requires shares { IsSync N.row }
            requires runtime { IsSync R.row }
        {
            // (the iterator has a name, since what it lends goes on beyond its turn of the loop, to a thread)
            let each = doctors.iter_mut();
            for doctor in each {
                let _ = scope.spawn(move || ask(rt, manager, doctor));
            }
        },
    );
}

fn ask<N: Named, R: Wait + AllocGlobal>(rt: &R, manager: &Manager<N>, doctor: &mut Doctor<N>) {
    doctor.ending = fulfil(rt, manager, &mut doctor.session, doctor.wish);
}

fn fulfil<N: Named, R: Wait + AllocGlobal>(
    rt: &R,
    manager: &Manager<N>,
    session: &mut Session<N>,
    wish: &str,
) -> anyhow::Result<Ending<N>> {
    let wish = statement_of(rt.alloc(), wish)?;
    let ending = go_off_call(rt, manager, session, &wish)?;
    Ok(ending)
}

/// Prints how many went off call, each by a commit that the history has.
fn tell<N: Named, R: Print>(
    rt: &R,
    doctors: &[Doctor<N>],
    history: &History<N>,
) -> anyhow::Result<()> {
    for doctor in doctors {
        match &doctor.ending {
            Ok(Ending::OffCall(receipt)) => {
                history.record(receipt)?;
            }
            Ok(Ending::OnCall | Ending::Open) => {}
            Err(error) => println!(rt; "refused: {error}")?,
        }
    }
    println!(rt;
        "{} went off call, {} is on call",
        off_call(doctors),
        on_call(doctors)
    )?;
    println!(rt; "{} commits", history.core().records().len())?;
    Ok(())
}

/// Prints how many are on call by the table, and how the rules stand.
fn tell_rules<N: Named, R: Wait + Print>(
    rt: &R,
    alloc: Global,
    manager: &Manager<N>,
) -> anyhow::Result<()> {
    println!(rt;
        "the table has {} on call",
        count_on_call(rt, alloc, manager)?
    )?;
    for name in ["COVERED", "RESTED"] {
        let verdict = manager.verdict(rt, &Text::from_str(alloc, name)?);
        println!(rt; "{name} {}", matches!(verdict, Some(Truth::True)))?;
    }
    Ok(())
}

fn off_call<N: Named>(doctors: &[Doctor<N>]) -> usize {
    doctors
        .iter()
        .filter(|doctor| matches!(&doctor.ending, Ok(Ending::OffCall(_))))
        .count()
}

fn on_call<N: Named>(doctors: &[Doctor<N>]) -> usize {
    doctors
        .iter()
        .filter(|doctor| matches!(&doctor.ending, Ok(Ending::OnCall)))
        .count()
}
