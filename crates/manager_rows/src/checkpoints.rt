//! Rules that change while a manager goes on.

ghost use Rattle.std.specs.Prelude.{◌≡◌};

use crate::again::{for_ever, is_same, shown};
use crate::driver::{Seat, Sessions, equal};
use crate::printed::{Opening, lines_of, make_opening, open};
use crate::rows::FUNDS_DEFERRABLE;
use crate::strangers::{is_stranger, refused, unrolled};
use definitions::{Definitions, NewAssertion, new_assertions};
use parse::parse_schema;
use report::write_refusal;
use session::{History, Manager, Named, Receipt};
use std::alloc::Global;
use std::marker::Brand;
use std::process::Abort;
use std::sync::Wait;
use std::test::Fail;
use txn::Access;
use value::{Refusal, Text, Truth};

/// One account.
const FIVE: &str = "INSERT INTO ACCT VALUES (1, 'KIM', 5);";

/// The same rule under the same name, but that an owner's accounts may sum to one below zero.
const FUNDS_BY_ONE: &str =
    "CREATE ASSERTION FUNDS CHECK (NOT EXISTS (SELECT OWNER FROM ACCT GROUP BY OWNER
    HAVING SUM(BAL) < -1));";

/// A commit that breaks the rule, which there is not yet, and two transactions that are left open.
const BEFORE: &str = "A: BEGIN; A: INSERT INTO ACCT VALUES (2, 'KIM', -7); A: COMMIT;
    B: BEGIN; B: UPDATE ACCT SET BAL = 0 WHERE ID = 2; D: BEGIN;";

/// One of the two mends that, and the epoch has room for no commit more.
const MENDED: &str = "B: COMMIT; A: BEGIN; A: COMMIT;";

const UNDER_FUNDS: &str = "C: BEGIN; C: INSERT INTO ACCT VALUES (3, 'KIM', -6);
    C: INSERT INTO ACCT VALUES (3, 'KIM', -5); C: COMMIT;";

const UNDER_FUNDS_BY_ONE: &str = "E: BEGIN; E: UPDATE ACCT SET BAL = -7 WHERE ID = 3;
    E: UPDATE ACCT SET BAL = -6 WHERE ID = 3; E: COMMIT;";

const OPENED_ANEW: &str =
    "F: BEGIN; F: SELECT BAL FROM ACCT; F: UPDATE ACCT SET BAL = -7 WHERE ID = 3;
    F: COMMIT;";

const REPORT: &str = "A: BEGIN 0\nA: INSERT 1\nA: COMMIT 1\nB: BEGIN 1\nB: UPDATE 1\nD: BEGIN 1\n\
    CHECKPOINT: REFUSED 21 - FUNDS 'KIM'\nB: COMMIT 2\nA: BEGIN 2\nA: REFUSED 17 - EPOCH FULL\n\
    C: BEGIN 0\nC: REFUSED 10 23000 FUNDS 'KIM'\nC: INSERT 1\nC: COMMIT 1\n\
    E: BEGIN 0\nE: REFUSED 10 23000 FUNDS 'KIM'\nE: UPDATE 1\nE: COMMIT 1\n\
    F: BEGIN 0\nF: SELECT 3\n  5\n  0\n  -6\nF: REFUSED 10 23000 FUNDS 'KIM'\nF: COMMIT 1\n";

/// A rule is refused while the tables break it, and is taken in where they do not; then another takes its name. Each
/// epoch has room for two commits and three sessions. At last another manager goes on with what is left.
#[test]
fn checkpoint_with_funds(rt: HostRuntime) -> Result<(), Fail> {
    let first = make_opening(rt.alloc(), FIVE, 2, 3)?;
    let second = make_opening(rt.alloc(), "", 1, 1)?;
    goes_on::<Brand, HostRuntime>(&rt, rt.alloc(), first, second)
}

/// The second manager has the shelf and the limits of the second opening alone.
fn goes_on<N: Named, R: Wait + Abort>(
    rt: &R,
    alloc: Global,
    first: Opening,
    second: Opening,
) -> Result<(), Fail>
    requires shelf_of_first { first.shelf ≡ N.shelf 1 }
    requires limits_of_first { first.limits ≡ N.limits 1 }
    requires shelf_of_second { second.shelf ≡ N.shelf 2 }
    requires limits_of_second { second.limits ≡ N.limits 2 }
{
    let mut manager = open::<N, R>(rt, alloc, 1, first)?;
    let mut sessions = Sessions::new(alloc);
    let before = begins(rt, alloc, &mut manager, &mut sessions)?;
    let funds = under_funds(rt, alloc, &mut manager, &mut sessions)?;
    runs(rt, alloc, &manager, &mut sessions, UNDER_FUNDS_BY_ONE)?;
    let last = manager.close();
    has(rt, &before, sessions.receipts.as_slice(), 0, 3);
    has(rt, &funds, sessions.receipts.as_slice(), 3, 4);
    has(rt, &last, sessions.receipts.as_slice(), 4, 5);
    let anew = opens_anew::<N, R>(rt, alloc, &last, second)?;
    runs(rt, alloc, &anew, &mut sessions, OPENED_ANEW)?;
    assert_eq!(rt; sessions.report.as_slice(), REPORT.as_bytes());
    Ok(())
}

/// The first epoch has no rule, and ends when there is one.
fn begins<N: Named, R: Wait + Abort>(
    rt: &R,
    alloc: Global,
    manager: &mut Manager<N>,
    sessions: &mut Sessions<N>,
) -> Result<History<N>, Fail> {
    let funds = Text::from_str(alloc, "FUNDS")?;
    let created = rules_of(alloc, FUNDS_DEFERRABLE)?;
    runs(rt, alloc, manager, sessions, BEFORE)?;
    match checkpoint(rt, alloc, manager, &mut sessions.seats, &[], &created)? {
        Ok(_history) => assert!(rt; false, "a rule that is broken"),
        Err(refusal) => write_refusal("CHECKPOINT", &refusal, &mut sessions.report)?,
    }
    equal(rt, manager.verdict(rt, &funds), None);
    runs(rt, alloc, manager, sessions, MENDED)?;
    let history = checkpoint(rt, alloc, manager, &mut sessions.seats, &[], &created)??;
    equal(rt, history.core().records().len(), 2);
    equal(rt, history.core().verdict(&funds), None);
    equal(rt, manager.verdict(rt, &funds), Some(Truth::True));
    Ok(history)
}

/// The second epoch has the rule, and ends when another takes its name.
fn under_funds<N: Named, R: Wait + Abort>(
    rt: &R,
    alloc: Global,
    manager: &mut Manager<N>,
    sessions: &mut Sessions<N>,
) -> Result<History<N>, Fail> {
    let seat = sessions.seats.pop().ok_or("no seat")?;
    are_strangers(rt, manager, seat)?;
    runs(rt, alloc, manager, sessions, UNDER_FUNDS)?;
    let dropped = vec![in alloc; Text::from_str(alloc, "FUNDS")?]?;
    let created = rules_of(alloc, FUNDS_BY_ONE)?;
    let history = checkpoint(rt, alloc, manager, &mut sessions.seats, &dropped, &created)??;
    Ok(history)
}

/// A session and an open transaction of the epoch before. No session of either epoch commits the transaction.
fn are_strangers<N: Named, R: Wait + Abort>(
    rt: &R,
    manager: &Manager<N>,
    mut seat: Seat<N>,
) -> Result<(), Fail> {
    let mut session = manager.session(rt, seat.session.name())?;
    assert!(rt; is_stranger(manager.begin(rt, &mut seat.session, Access::ReadWrite)));
    let Some(txn) = seat.txn.take() else {
        return Err(Fail::from("no transaction"));
    };
    let txn = refused(manager.commit(rt, &mut seat.session, txn))?;
    let txn = refused(manager.commit(rt, &mut session, txn))?;
    let txn = unrolled(manager.rollback(rt, txn))?;
    drop(txn.abandon());
    Ok(())
}

/// The history has the records of the receipts from one place up to another, and no other receipt is of its epoch.
fn has<N: Named, R: Abort>(
    rt: &R,
    history: &History<N>,
    receipts: &[Receipt<N>],
    from: usize,
    to: usize,
) {
    for place in 0..receipts.len() {
        let receipt = &receipts[place];
        let is_of = receipt.epoch() == history.epoch();
        equal(rt, is_of, from <= place && place < to);
        match history.record(receipt) {
            Ok(record) => equal(rt, record.number, receipt.number()),
            Err(_) => equal(rt, from <= place && place < to, false),
        }
    }
}

/// A manager on what a history leaves, with its newest tables and its rules.
fn opens_anew<N: Named, R: Wait>(
    rt: &R,
    alloc: Global,
    history: &History<N>,
    on: Opening,
) -> Result<Manager<N>, Fail>
    requires shelf { on.shelf ≡ N.shelf 2 }
    requires limits { on.limits ≡ N.limits 2 }
{
    let Opening {
        shelf,
        definitions: _,
        limits,
    } = on;
    let definitions = Definitions::of(alloc, history.core().newest())?;
    let manager = Manager::<N>::open(rt, alloc, shelf, 2, definitions, limits)?;
    Ok(manager)
}

/// Runs a script, and notes what it is answered.
fn runs<N: Named, R: Wait>(
    rt: &R,
    alloc: Global,
    manager: &Manager<N>,
    sessions: &mut Sessions<N>,
    script: &str,
) -> Result<(), Fail> {
    let lines = lines_of(alloc, script)?;
    sessions.run(rt, manager, lines.as_slice())
}

/// The assertions that a text creates.
fn rules_of(alloc: Global, text: &str) -> Result<Vec<NewAssertion>, Refusal> {
    new_assertions(alloc, parse_schema(alloc, text.as_bytes())?)
}

/// A checkpoint. One that finds no memory has changed nothing that can be seen, and is made once more.
fn checkpoint<N: Named, R: Wait>(
    rt: &R,
    alloc: Global,
    manager: &mut Manager<N>,
    seats: &mut Vec<Seat<N>>,
    dropped: &[Text],
    created: &[NewAssertion],
) -> Result<Result<History<N>, Refusal>, Fail> {
    let seat = seats.last_mut().ok_or("no seat")?;
    let before = shown(rt, alloc, manager, seat)?;
    match manager.checkpoint(rt, dropped, created) {
        Err(Refusal::NoMemory) => {}
        made => return Ok(made),
    }
    is_same(&before, &shown(rt, alloc, manager, seat)?)?;
    match manager.checkpoint(rt, dropped, created) {
        Err(Refusal::NoMemory) => Err(for_ever()),
        made => Ok(made),
    }
}
