//! A commit that has to be kept counts only once it was.

ghost use Rattle.std.specs.Prelude.{◌≡◌};

use crate::driver::equal;
use crate::printed::{Opening, make_opening, open};
use crate::strangers::{given_back, wanted_back};
use commit::Keeper;
use histories::KIM;
use session::{CloseFailure, ClosedTransaction, Manager, Named, Session, Txn};
use std::alloc::Global;
use std::marker::Brand;
use std::process::Abort;
use std::sync::Wait;
use std::test::Fail;
use table::Change;
use txn::Access;
use value::{Refusal, Text};

/// Keeps every commit, or none; and the number that it was asked for last.
#[derive(Drop)]
struct Disk {
    works: bool,
    asked: u64,
}

impl Keeper for Disk {
    ghost use Rattle.std.specs.Prelude.{⊤};

    ghost expects = { λ _ _. ⊤ };

    ghost did_keep = { λ _ _ _ _ _. ⊤ };

    ghost goes_on = { λ _ _ _ _ _ _ _. tt };

    fn keep(&mut self, number: u64, _changes: &[Change]) -> bool {
        self.asked = number;
        self.works
    }
}

#[test]
fn a_commit_that_has_to_be_kept(rt: HostRuntime) -> Result<(), Fail> {
    let opening = make_opening(rt.alloc(), KIM, 10, 10)?;
    keep_or_not::<Brand, HostRuntime>(&rt, rt.alloc(), opening)
}

/// What could not be kept is given back and may commit again, and the next transaction begins on what was kept.
fn keep_or_not<N: Named, R: Wait + Abort>(
    rt: &R,
    alloc: Global,
    opening: Opening,
) -> Result<(), Fail>
    requires shelf { opening.shelf ≡ N.shelf 1 }
    requires limits { opening.limits ≡ N.limits 1 }
{
    let manager = open::<N, R>(rt, alloc, 1, opening)?;
    let name = Text::from_str(alloc, "S")?;
    let mut session = manager.session(rt, &name)?;
    let txn = manager.begin(rt, &mut session, Access::ReadWrite)?;
    let txn = commit_to(rt, &manager, &mut session, txn, false)?;
    let txn = txn.ok_or("a commit that was not kept was made")?;
    let back = commit_to(rt, &manager, &mut session, txn, true)?;
    assert!(rt; is_none(back));
    let next = manager.begin(rt, &mut session, Access::ReadOnly)?;
    let snapshot = next.snapshot();
    drop(next.abandon());
    equal(rt, snapshot, 1);
    Ok(())
}

/// A transaction whose own tables were checked.
fn checked<N: Named>(txn: Txn<N>) -> Result<ClosedTransaction<N>, Fail> {
    match txn.close_check() {
        Ok(closed) => Ok(closed),
        Err(CloseFailure { refusal, txn }) => {
            drop(txn.abandon());
            Err(Fail::from(refusal))
        }
    }
}

/// COMMIT on a disk that works, or does not, and is asked for commit 1. The transaction, if it was given back.
fn commit_to<N: Named, R: Wait + Abort>(
    rt: &R,
    manager: &Manager<N>,
    session: &mut Session<N>,
    txn: Txn<N>,
    works: bool,
) -> Result<Option<Txn<N>>, Fail> {
    let mut disk = Disk { works, asked: 0 };
    let outcome = manager.commit_kept(rt, session, checked(txn)?, &mut disk);
    equal(rt, disk.asked, 1);
    match outcome {
        Ok(receipt) => {
            equal(rt, receipt.number(), 1);
            Ok(None)
        }
        Err(fault) => {
            let (refusal, txn) = given_back(fault)?;
            let is_wanted = matches!(refusal, Refusal::NoMemory);
            Ok(Some(wanted_back(txn, refusal, is_wanted)?))
        }
    }
}

fn is_none<N: Named>(txn: Option<Txn<N>>) -> bool {
    match txn {
        Some(txn) => {
            drop(txn.abandon());
            false
        }
        None => true,
    }
}
