//! What a script prints through a manager, and whether its history has what it gave and showed.

ghost use Rattle.std.specs.Prelude.{◌≡◌};

use crate::again::for_ever;
use crate::driver::{Sessions, equal};
use commit::Core;
use definitions::Definitions;
use histories::TABLES;
use parse::{parse_schema, parse_script};
use replay::write_closing_part;
use session::{History, Limits, Manager, Named, Receipt, Shelf};
use sqlite_items::Items;
use std::alloc::Global;
use std::marker::Brand;
use std::process::Abort;
use std::sync::Wait;
use std::test::Fail;
use syntax::ScriptLine;
use value::{Refusal, Text, Truth};

/// A script, and what is to come of it.
#[derive(Drop)]
pub struct Case<'a> {
    pub script: &'a str,
    /// The bytes that it prints.
    pub want: &'a str,
    /// The numbers of the receipts that it gives and shows.
    pub receipts: &'a [u64],
    /// How many pairs of a key and a commit that read it are kept at the end.
    pub locks: usize,
}

/// What these definitions over the tables above define.
pub fn defined(alloc: Global, more: &str) -> Result<Definitions, Fail> {
    let text = format!(in alloc; "{TABLES}{more}")?;
    let definitions = parse_schema(alloc, text.as_bytes())?;
    let taken = Definitions::take(alloc, definitions.as_slice())?;
    Ok(taken)
}

pub fn lines_of(alloc: Global, script: &str) -> Result<Items<ScriptLine>, Fail> {
    let lines = parse_script(alloc, script.as_bytes())?;
    Ok(lines)
}

/// What a manager is opened on.
#[derive(Drop)]
pub struct Opening {
    pub shelf: Shelf,
    pub definitions: Definitions,
    pub limits: Limits,
}

/// A shelf of its own, what these definitions define, and limits of so many commits and sessions.
pub fn make_opening(
    alloc: Global,
    more: &str,
    commits: u32,
    sessions: u64,
) -> Result<Opening, Fail> {
    let definitions = defined(alloc, more)?;
    let limits = Limits::new(commits, sessions).ok_or("limits")?;
    let shelf = Shelf::new(alloc)?;
    Ok(Opening {
        shelf,
        definitions,
        limits,
    })
}

/// Opens the manager of this id.
pub fn open<N: Named, R: Wait>(
    rt: &R,
    alloc: Global,
    id: u64,
    on: Opening,
) -> Result<Manager<N>, Refusal>
    requires shelf { on.shelf ≡ N.shelf id }
    requires limits { on.limits ≡ N.limits id }
{
    let Opening {
        shelf,
        definitions,
        limits,
    } = on;
    Manager::<N>::open(rt, alloc, shelf, id, definitions, limits)
}

/// The case comes of its script, over these definitions, with limits of a million commits and of a hundred sessions.
pub fn prints<R: Wait + Abort>(rt: &R, alloc: Global, more: &str, case: &Case) -> Result<(), Fail> {
    let one = make_opening(alloc, more, 1_000_000, 100)?;
    let two = make_opening(alloc, more, 1_000_000, 100)?;
    prints_on(rt, alloc, one, two, case)
}

/// The same on the first of these openings, or on the second where the first finds no memory.
pub fn prints_on<R: Wait + Abort>(
    rt: &R,
    alloc: Global,
    one: Opening,
    two: Opening,
    case: &Case,
) -> Result<(), Fail> {
    serve::<Brand, R>(rt, alloc, one, two, case)
}

/// A manager that finds no memory keeps what it was handed, so the second has an opening of its own.
fn serve<N: Named, R: Wait + Abort>(
    rt: &R,
    alloc: Global,
    one: Opening,
    two: Opening,
    case: &Case,
) -> Result<(), Fail>
    requires shelf_of_one { one.shelf ≡ N.shelf 1 }
    requires limits_of_one { one.limits ≡ N.limits 1 }
    requires shelf_of_two { two.shelf ≡ N.shelf 2 }
    requires limits_of_two { two.limits ≡ N.limits 2 }
{
    match open::<N, R>(rt, alloc, 1, one) {
        Ok(manager) => prints_through(rt, alloc, manager, case),
        Err(Refusal::NoMemory) => match open::<N, R>(rt, alloc, 2, two) {
            Ok(manager) => prints_through(rt, alloc, manager, case),
            Err(_) => Err(for_ever()),
        },
        Err(refusal) => Err(Fail::from(refusal)),
    }
}

fn prints_through<N: Named, R: Wait + Abort>(
    rt: &R,
    alloc: Global,
    manager: Manager<N>,
    case: &Case,
) -> Result<(), Fail> {
    drop(serves(rt, alloc, manager, case)?);
    Ok(())
}

/// What a manager left, and each receipt that it gave or showed.
#[derive(Drop)]
pub struct Left<N: Named> {
    pub history: History<N>,
    pub receipts: Vec<Receipt<N>>,
}

/// The case comes of its script through this manager, which is then closed.
pub fn serves<N: Named, R: Wait + Abort>(
    rt: &R,
    alloc: Global,
    manager: Manager<N>,
    case: &Case,
) -> Result<Left<N>, Fail> {
    let mut sessions = run_script(rt, alloc, &manager, case.script)?;
    sessions.leave_open()?;
    let verdicts = verdicts(rt, alloc, &manager)?;
    let history = manager.close();
    finds(rt, &history, sessions.receipts.as_slice(), case.receipts)?;
    stands(rt, alloc, history.core(), verdicts.as_slice())?;
    ends(rt, history.core(), &mut sessions.report, case)?;
    let Sessions {
        seats: _,
        report: _,
        receipts,
    } = sessions;
    Ok(Left { history, receipts })
}

/// The sessions of a script that is run.
pub fn run_script<N: Named, R: Wait>(
    rt: &R,
    alloc: Global,
    manager: &Manager<N>,
    script: &str,
) -> Result<Sessions<N>, Fail> {
    let lines = lines_of(alloc, script)?;
    let mut sessions = Sessions::new(alloc);
    sessions.run(rt, manager, lines.as_slice())?;
    Ok(sessions)
}

/// The case's bytes and locks are what is left.
fn ends<R: Abort>(rt: &R, core: &Core, report: &mut Vec<u8>, case: &Case) -> Result<(), Fail> {
    write_closing_part(core, report)?;
    assert_eq!(rt; report.as_slice(), case.want.as_bytes());
    assert_eq!(rt; core.locks(), case.locks);
    Ok(())
}

/// What a manager says of the names of assertions.
fn verdicts<N: Named, R: Wait>(
    rt: &R,
    alloc: Global,
    manager: &Manager<N>,
) -> Result<Vec<Option<Truth>>, Fail> {
    let mut found = Vec::new(alloc);
    for name in ["COVER", "FUNDS", "CAP"] {
        let name = Text::from_str(alloc, name)?;
        found.push(manager.verdict(rt, &name))?;
    }
    Ok(found)
}

/// The commits say the same.
fn stands<R: Abort>(
    rt: &R,
    alloc: Global,
    core: &Core,
    verdicts: &[Option<Truth>],
) -> Result<(), Fail> {
    for (name, verdict) in ["COVER", "FUNDS", "CAP"].iter().zip(verdicts) {
        let text = Text::from_str(alloc, name)?;
        assert_eq!(rt; core.verdict(&text), *verdict, "{name}");
    }
    Ok(())
}

/// The history has the record of each receipt, and they have these numbers.
fn finds<N: Named, R: Abort>(
    rt: &R,
    history: &History<N>,
    receipts: &[Receipt<N>],
    numbers: &[u64],
) -> Result<(), Fail> {
    equal(rt, receipts.len(), numbers.len());
    for (receipt, number) in receipts.iter().zip(numbers) {
        let record = history.record(receipt)?;
        equal(rt, receipt.number(), *number);
        equal(rt, record.number, *number);
    }
    Ok(())
}
