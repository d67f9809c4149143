//! The calls below the manager that take no memory, where every allocation is refused.

ghost use Rattle.std.specs.Prelude.{◌≡◌, [], IfOk, OnOk, None};
ghost use Rattle.table.specs.Bounds.{IsSmallRow};
ghost use Rattle.table.specs.Slots.{kinds_of};
ghost use Rattle.siread.specs.Locks.{no_reads, readers_at};
ghost use Rattle.commit.specs.Cores.{IsLive};

use crate::driver::equal;
use crate::printed::{defined, lines_of};
use crate::without_memory::{ask_in_vain, end_memory};
use alone::Modes;
use commit::{CommitFailure, Core, admit};
use conflict::{Candidate, Judgment, Live, is_safe, judge, share_row, touch_any};
use delta::View;
use groups::{Member, Totals};
use histories::{COVER, SEVEN, TABLES};
use mvrows::Rows;
use pages::Pages;
use parse::parse_schema;
use session::Limits;
use siread::{LockKey, LockTable, Place, touches};
use std::alloc::{AllocError, Global};
use std::cmp::Ordering;
use std::process::Abort;
use std::test::Fail;
use syntax::{Event, Mode, ScriptLine};
use table::{Aggregate, Change, Cond, Expr, Row, Slots, bound, eval, is_bounded};
use txn::{Access, CloseFailure, ClosedTransaction, Txn, find_first_false};
use value::{Comparison, Root, Text, Truth, Value, compare, order};

#[test]
fn values(rt: HostRuntime) -> Result<(), Fail> {
    let row = small_row(rt.alloc())?;
    let name = Value::Text(Text::from_str(rt.alloc(), "KIM")?);
    let slots = no_slots(rt.alloc());
    let condition = Cond::Compare(
        Comparison::AtMost,
        Expr::Column(0),
        Expr::Literal(Value::Int(7)),
    );
    assert!(rt; end_memory(rt.alloc()));
    compares(&rt, &name);
    assert_eq!(rt; truth_of(&condition, &row, &slots), Some(Truth::True));
    assert!(rt; bound(&Expr::Column(0), &[]).is_ok());
    assert!(rt; Limits::new(1, 1).is_some());
    ask_in_vain(rt.alloc());
    Ok(())
}

fn small_row(alloc: Global) -> Result<Row, AllocError>
    ensures { IfOk result (λ row. IsSmallRow row) }
{
    Row::new(vec![in alloc; Value::Int(7), Value::Null]?)
}

fn no_slots(alloc: Global) -> Slots
    ensures { kinds_of result ≡ [] }
{
    Slots::new(alloc)
}

fn compares<R: Abort>(rt: &R, name: &Value) {
    equal(
        rt,
        compare(&Value::Int(1), &Value::Int(2)),
        Some(Ordering::Less),
    );
    equal(rt, compare(name, &Value::Null), None);
    equal(rt, order(name, name), Ordering::Equal);
    equal(rt, Truth::Unknown.and(Truth::False), Truth::False);
    equal(rt, Truth::Unknown.or(Truth::False).not(), Truth::Unknown);
    assert!(rt; Truth::Unknown.is(Truth::Unknown));
}

fn truth_of(condition: &Cond, row: &Row, slots: &Slots) -> Option<Truth>
    requires row { IsSmallRow row.now }
    requires slots { kinds_of slots.now ≡ [] }
{
    if is_bounded(condition, &[]) {
        Some(eval(condition, row, slots))
    } else {
        None
    }
}

/// No one covers shift 8.
#[test]
fn tables(rt: HostRuntime) -> Result<(), Fail> {
    let more = format!(in rt.alloc(); "{COVER}{SEVEN}INSERT INTO SHIFTS VALUES (8);")?;
    let definitions = defined(rt.alloc(), more.as_str())?;
    let view = definitions.load(rt.alloc())?;
    let modes = Modes::initial(rt.alloc(), view.assertions())?;
    assert!(rt; end_memory(rt.alloc()));
    stands(&rt, &view);
    for place in 0..modes.len() {
        assert!(rt; matches!(modes.of(place), Mode::Immediate));
    }
    ask_in_vain(rt.alloc());
    Ok(())
}

fn stands<R: Abort>(rt: &R, view: &View) {
    let bad = Root::Of(Value::Int(8));
    for table in 0..view.catalog().len() {
        assert!(rt; finds_each(view.rows(table)));
    }
    for place in 0..view.assertions().len() {
        assert_eq!(rt; view.verdict(place), Truth::False);
        assert!(rt; view.least_bad(place) == Some(&bad));
    }
    assert!(rt; matches!(find_first_false(view), Some((_, root)) if *root == bad));
}

/// Whether each row is found by its key, which is its first value.
fn finds_each(rows: &Rows) -> bool {
    for row in rows.iter() {
        match row.values().first() {
            Some(key) if rows.get(0, key).is_some() => {}
            _ => return false,
        }
    }
    true
}

/// One row of the group 7.
fn totals(alloc: Global) -> Result<Totals, AllocError> {
    let member = Some(Member {
        group: Value::Int(7),
        value: Value::Int(1),
    });
    Totals::new(alloc).with(Aggregate::Min(0), &member, &None)
}

#[test]
fn pages(rt: HostRuntime) -> Result<(), Fail> {
    let key = Value::Int(7);
    let totals = totals(rt.alloc())?;
    let pages = Pages::new(rt.alloc()).with(&key, Some(5u64))?;
    assert!(rt; end_memory(rt.alloc()));
    assert!(rt; totals.get(&key).is_some());
    hold_one(&rt, &pages, &key);
    ask_in_vain(rt.alloc());
    Ok(())
}

fn hold_one<R: Abort>(rt: &R, pages: &Pages<u64>, key: &Value) {
    equal(rt, pages.get(key), Some(&5));
    equal(rt, pages.page_from(0).len(), 1);
    equal(rt, pages.len(), 1);
}

/// The row of a key is put into the first table.
fn insertion(alloc: Global, key: i64) -> Result<Change, AllocError> {
    Ok(Change {
        table: 0,
        key: Value::Int(key),
        old: None,
        new: Some(Row::new(vec![in alloc; Value::Int(key)]?)?),
    })
}

fn row_key(key: i64) -> LockKey {
    LockKey::Row(Place {
        table: 0,
        key: Value::Int(key),
    })
}

/// The greatest reader of what changes touch that reaches the first commit.
fn greatest(locks: &LockTable, changes: &[Change]) -> u64 {
    locks.greatest_reader(changes, 1, &[1, 2])
}

#[test]
fn locks(rt: HostRuntime) -> Result<(), Fail> {
    let change = insertion(rt.alloc(), 7)?;
    let keys = [row_key(7), LockKey::Table(1)];
    let mut locks = LockTable::new(rt.alloc());
    locks.put(1, &keys)?;
    locks.put(2, &keys)?;
    assert!(rt; end_memory(rt.alloc()));
    assert!(rt; locks.readers(&row_key(7)) == [1, 2].as_slice());
    equal(&rt, greatest(&locks, &[change]), 2);
    locks.take_back(2, &keys);
    equal(&rt, locks.len(), 2);
    locks.trim(1, &[1, 2]);
    equal(&rt, locks.len(), 0);
    ask_in_vain(rt.alloc());
    Ok(())
}

#[test]
fn snapshots(rt: HostRuntime) -> Result<(), Fail> {
    let mut live = Live::new(rt.alloc());
    live.begin(1, true)?;
    live.begin(3, false)?;
    assert!(rt; end_memory(rt.alloc()));
    equal(&rt, live.next_begin_number(), 2);
    assert!(rt; live.holds(0, 1, true) && !live.holds(1, 1, false));
    assert!(rt; live.writers_hold(3) && live.may_another_ask(0, 4));
    equal(&rt, live.least_writing(4), 3);
    live.end(1);
    equal(&rt, live.least_writing(4), 4);
    ask_in_vain(rt.alloc());
    Ok(())
}

/// Nothing was committed yet.
#[test]
fn judgment(rt: HostRuntime) -> Result<(), Fail> {
    let (reads, changes) = ([row_key(7)], [insertion(rt.alloc(), 7)?]);
    let locks = no_locks(rt.alloc());
    assert!(rt; end_memory(rt.alloc()));
    assert_eq!(rt;
        judged(&locks, &reads, &changes),
        Judgment::Fine { place: 1 }
    );
    assert!(rt; is_safe(&[], &[], 0));
    assert!(rt; touch_any(&changes, &reads) && share_row(&changes, &changes));
    assert!(rt; touches(&changes[0], &LockKey::Table(0)));
    ask_in_vain(rt.alloc());
    Ok(())
}

fn no_locks(alloc: Global) -> LockTable
    ensures { readers_at result ≡ no_reads }
{
    LockTable::new(alloc)
}

/// The verdict on the first that is to be committed.
fn judged(locks: &LockTable, reads: &[LockKey], changes: &[Change]) -> Judgment
    requires { readers_at locks.now ≡ no_reads }
{
    let candidate = Candidate {
        number: 1,
        snapshot: 0,
        read_only: false,
        reads,
        changes,
    };
    judge(&[], &[], &[], locks, &candidate)
}

/// Takes one of two off call.
const LINE: &str = "A: UPDATE DUTY SET ONCALL = 0 WHERE ID = 1;";

fn core(alloc: Global) -> Result<Core, Fail>
    ensures { IfOk result (λ core. core.prepared ≡ None) }
{
    let text = format!(in alloc; "{TABLES}{COVER}{SEVEN}")?;
    let definitions = parse_schema(alloc, text.as_bytes())?;
    let loaded = admit(alloc, definitions.as_slice())?;
    let core = Core::new(alloc, 10, loaded)?;
    Ok(core)
}

/// A transaction that has run this event.
fn run(core: &mut Core, event: &Event) -> Result<Txn, Fail>
    requires { core.old.prepared ≡ None }
    ensures live { IfOk result (λ txn. IsLive core.new txn) }
    ensures idle { OnOk result (core.new.prepared ≡ None) }
{
    let Event::Run(statement) = event else {
        return Err(Fail::from("no statement"));
    };
    let mut txn = core.begin(Access::ReadWrite)?;
    match txn.execute(statement) {
        Ok(reply) => {
            drop(reply);
            Ok(txn)
        }
        Err(refusal) => {
            drop(txn.abandon());
            Err(Fail::from(refusal))
        }
    }
}

fn close(txn: Txn) -> Result<ClosedTransaction, Fail>
    ensures { IfOk result (λ closed. closed ≡ txn) }
{
    match txn.close_check() {
        Ok(closed) => Ok(closed),
        Err(CloseFailure { txn }) => {
            drop(txn.abandon());
            Err(Fail::from(AllocError))
        }
    }
}

/// Prepares the commit of a transaction that runs these lines.
fn prepare(core: &mut Core, lines: &[ScriptLine]) -> Result<(), Fail>
    requires { core.old.prepared ≡ None }
{
    let line = lines.first().ok_or("no line")?;
    let closed = close(run(core, &line.event)?)?;
    match core.prepare(&line.session, closed) {
        Ok(_number) => Ok(()),
        Err(fault) => Err(unprepared(fault)),
    }
}

fn unprepared(fault: CommitFailure) -> Fail {
    let CommitFailure { refusal, txn } = fault;
    if let Some(txn) = txn {
        drop(txn.abandon());
    }
    Fail::from(refusal)
}

#[test]
fn a_commit_is_made(rt: HostRuntime) -> Result<(), Fail> {
    let cover = Text::from_str(rt.alloc(), "COVER")?;
    let lines = lines_of(rt.alloc(), LINE)?;
    let mut core = core(rt.alloc())?;
    prepare(&mut core, lines.as_slice())?;
    assert!(rt; end_memory(rt.alloc()));
    assert!(rt; core.prepared().is_some());
    core.finish();
    has_one(&rt, &core, &cover);
    ask_in_vain(rt.alloc());
    Ok(())
}

fn has_one<R: Abort>(rt: &R, core: &Core, cover: &Text) {
    equal(rt, core.records().len(), 1);
    assert!(rt; core.serial_order() == [1].as_slice());
    equal(rt, core.verdict(cover), Some(Truth::True));
    equal(rt, core.locks(), 0);
}

#[test]
fn a_commit_is_given_up(rt: HostRuntime) -> Result<(), Fail> {
    let cover = Text::from_str(rt.alloc(), "COVER")?;
    let lines = lines_of(rt.alloc(), LINE)?;
    let mut core = core(rt.alloc())?;
    prepare(&mut core, lines.as_slice())?;
    assert!(rt; end_memory(rt.alloc()));
    match core.cancel() {
        Some(closed) => reopens(&rt, closed, &cover),
        None => assert!(rt; false, "nothing was prepared"),
    }
    assert!(rt; core.records().is_empty() && core.refused().is_empty());
    assert_eq!(rt; core.locks(), 0);
    ask_in_vain(rt.alloc());
    Ok(())
}

fn reopens<R: Abort>(rt: &R, closed: ClosedTransaction, cover: &Text) {
    equal(rt, closed.changes().len(), 1);
    assert!(rt; closed.refused().is_none() && !closed.reads().is_empty());
    let txn = closed.reopen();
    equal(rt, txn.verdict(cover), Some(Truth::True));
    equal(rt, (txn.begin_number(), txn.snapshot()), (0, 0));
    equal(rt, txn.trace().len(), 1);
    assert!(rt; !txn.reads().is_empty());
    drop(txn.abandon());
}

/// Rolled back before it was closed.
#[test]
fn a_transaction_ends(rt: HostRuntime) -> Result<(), Fail> {
    let lines = lines_of(rt.alloc(), LINE)?;
    let line = lines.as_slice().first().ok_or("no line")?;
    let mut core = core(rt.alloc())?;
    let txn = run(&mut core, &line.event)?;
    assert!(rt; end_memory(rt.alloc()));
    assert!(rt; core.holds(txn.begin_number(), txn.snapshot(), false));
    assert!(rt; !txn.is_read_only() && !core.is_safe(&txn));
    core.end(&txn);
    drop(txn.abandon());
    assert!(rt; !core.holds(0, 0, false));
    ask_in_vain(rt.alloc());
    Ok(())
}
