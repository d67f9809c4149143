//! The calls that take no memory, where every allocation is refused.

ghost use Rattle.std.specs.Prelude.{◌≡◌};

use crate::driver::{Seat, equal};
use crate::printed::{Opening, make_opening, open, run_script};
use crate::strangers::is_ended;
use histories::{COVER, SEVEN};
use session::{CloseFailure, ClosedTransaction, History, Manager, Named, Receipt, Txn};
use std::alloc::Global;
use std::marker::Brand;
use std::process::Abort;
use std::sync::Wait;
use std::test::Fail;
use txn::find_first_false;
use value::{Text, Truth};

/// So many bytes are asked for where memory ends: `tools/refuse_malloc.c` refuses all that is asked for behind it.
const MARK: usize = 7_654_321;

/// A commit, and then three transactions that are left open: each takes the same one of two off call.
const SCRIPT: &str = "A: BEGIN; A: UPDATE ACCT SET BAL = 0; A: COMMIT;
    A: BEGIN; A: UPDATE DUTY SET ONCALL = 0 WHERE ID = 1; B: BEGIN; B: UPDATE DUTY SET ONCALL = 0 WHERE ID = 1;
    C: BEGIN; C: UPDATE DUTY SET ONCALL = 0 WHERE ID = 1;";

#[test]
fn without_memory(rt: HostRuntime) -> Result<(), Fail> {
    let more = format!(in rt.alloc(); "{COVER}{SEVEN}")?;
    let on = make_opening(rt.alloc(), more.as_str(), 10, 10)?;
    answers::<Brand, HostRuntime>(&rt, rt.alloc(), on)
}

/// A commit, and three transactions that are open when memory ends.
fn answers<N: Named, R: Wait + Abort>(rt: &R, alloc: Global, on: Opening) -> Result<(), Fail>
    requires shelf { on.shelf ≡ N.shelf 1 }
    requires limits { on.limits ≡ N.limits 1 }
{
    let manager = open::<N, R>(rt, alloc, 1, on)?;
    let cover = Text::from_str(alloc, "COVER")?;
    let mut sessions = run_script(rt, alloc, &manager, SCRIPT)?;
    let closed = last_closed(&mut sessions.seats)?;
    assert!(rt; end_memory(alloc));
    reopens(rt, closed);
    end_all(rt, &manager, sessions.seats.as_mut_slice(), &cover);
    let history = manager.close();
    for receipt in sessions.receipts.as_slice() {
        leaves(rt, &history, receipt, &cover);
    }
    ask_in_vain(alloc);
    Ok(())
}

fn end_all<N: Named, R: Wait + Abort>(
    rt: &R,
    manager: &Manager<N>,
    seats: &mut [Seat<N>],
    cover: &Text,
) {
    for seat in seats {
        ends(rt, manager, seat.txn.take(), cover);
    }
    equal(rt, manager.verdict(rt, cover), Some(Truth::True));
}

/// The transaction of the last seat, taken to COMMIT.
fn last_closed<N: Named>(seats: &mut Vec<Seat<N>>) -> Result<ClosedTransaction<N>, Fail> {
    let mut seat = seats.pop().ok_or("no seat")?;
    let Some(txn) = seat.txn.take() else {
        return Err(Fail::from("no transaction"));
    };
    match txn.close_check() {
        Ok(closed) => Ok(closed),
        Err(CloseFailure { refusal, txn }) => {
            drop(txn.abandon());
            Err(Fail::from(refusal))
        }
    }
}

/// Asks for the bytes behind which memory ends.
pub fn end_memory(alloc: Global) -> bool {
    Vec::<u8>::with_capacity(alloc, MARK).is_ok()
}

/// Asks for a byte. Where memory has ended this is refused, and nothing before it is to have asked for any.
pub fn ask_in_vain(alloc: Global) {
    drop(Vec::<u8>::with_capacity(alloc, 1).is_ok());
}

fn ends<N: Named, R: Wait + Abort>(
    rt: &R,
    manager: &Manager<N>,
    txn: Option<Txn<N>>,
    cover: &Text,
) {
    if let Some(txn) = txn {
        tells(rt, &txn, cover);
        assert!(rt; is_ended(manager.rollback(rt, txn)));
    }
}

fn tells<N: Named, R: Abort>(rt: &R, txn: &Txn<N>, cover: &Text) {
    equal(rt, txn.snapshot(), 1);
    equal(rt, txn.trace().len(), 1);
    assert!(rt; !txn.reads().is_empty());
    equal(rt, txn.own().assertions().len(), 1);
    equal(rt, txn.verdict(cover), Some(Truth::True));
}

/// What an open transaction's close_check made, as it stands and open again.
fn reopens<N: Named, R: Abort>(rt: &R, closed: ClosedTransaction<N>) {
    equal(rt, closed.snapshot(), 1);
    equal(rt, closed.is_read_only(), false);
    equal(rt, closed.changes().len(), 1);
    assert!(rt; closed.refused().is_none());
    equal(rt, closed.own().assertions().len(), 1);
    let txn = closed.reopen();
    equal(rt, txn.snapshot(), 1);
    drop(txn.abandon());
}

fn leaves<N: Named, R: Abort>(rt: &R, history: &History<N>, receipt: &Receipt<N>, cover: &Text) {
    let again = receipt.copy();
    equal(rt, again.number(), 1);
    assert!(rt; matches!(history.record(&again), Ok(record) if record.number == 1));
    let core = history.core();
    equal(rt, core.records().len(), 1);
    equal(rt, core.serial_order().len(), 1);
    equal(rt, core.refused().len(), 0);
    equal(rt, core.locks(), 0);
    equal(rt, core.verdict(cover), Some(Truth::True));
    assert!(rt; find_first_false(core.newest()).is_none());
}
