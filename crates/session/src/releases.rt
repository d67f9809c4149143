//! How a transaction that is given up or refused is ended.

ghost use Rattle.std.specs.Prelude.{◌≡◌};

use crate::manager::Manager;
use crate::named::Named;
use crate::tickets::{CommitFault, Txn};
use std::sync::Wait;
use value::Refusal;

/// Ends a transaction: it is rolled back, or, where it is not of this manager, abandoned.
pub fn release<N: Named, R: Wait>(rt: &R, manager: &Manager<N>, txn: Txn<N>) {
    if let Err((_, txn)) = manager.rollback(rt, txn) {
        drop(txn.abandon());
    }
}

/// The refusal of a COMMIT. Its transaction is ended where it was given back.
pub fn release_refused<N: Named, R: Wait>(
    rt: &R,
    manager: &Manager<N>,
    fault: CommitFault<N>,
) -> Refusal
    ensures { result ≡ fault.refusal }
{
    let CommitFault {
        refusal,
        txn,
        shown: _,
    } = fault;
    if let Some(txn) = txn {
        release(rt, manager, txn);
    }
    refusal
}
