//! Transactions that go to COMMIT.

ghost use Rattle.std.specs.Prelude.{◌≡◌, All, unwrap_or, IfOk};
ghost use Rattle.std.specs.Option.{option_copied};
ghost use Rattle.assertion.specs.Declarations.{layouts_in};
ghost use Rattle.delta.specs.Views.{IsFitting};
ghost use Rattle.txn.specs.Committed.{AreParts};
ghost use Rattle.txn.specs.Transactions.{keys_of, outcome_of};

use crate::copies::{copy_changes, copy_reads};
use crate::traces::copy_trace;
use crate::txns::Txn;
use alone::ResolvedStatement;
use siread::LockKey;
use sqlite_items::Items;
use std::alloc::AllocError;
use std::marker::Model;
use table::Change;
use value::Refusal;

/// A transaction that goes to COMMIT: its net change, the refusal by the first assertion that is false on its own
/// view, if one is, and what it has read, this check included. It must be spent: as the [`Txn`] that it was, or in
/// its [`Parts`].
pub struct ClosedTransaction {
    pub(crate) txn: Txn,
    pub(crate) changes: Vec<Change>,
    pub(crate) refused: Option<Refusal>,
    /// What its statements read, and behind that what the check of COMMIT read; none where this read nothing.
    pub(crate) keys: Option<Items<LockKey>>,
}

/// What stays of a transaction that is committed: its statements, what it has read, and its net change.
#[derive(Drop)]
pub struct Parts {
    pub trace: Items<ResolvedStatement>,
    pub reads: Items<LockKey>,
    pub changes: Items<Change>,
}

impl Model for ClosedTransaction {
    ghost use Rattle.table.specs.contracts.conds.Cond as cond_type;
    ghost use Rattle.table.specs.contracts.exprs.Expr as expr_type;
    ghost use Rattle.std.specs.Coded.{codes};
    ghost use Rattle.txn.specs.Held.{IsClosed};
    ghost use Rattle.std.specs.Prelude.{unwrap_or};
    ghost use Rattle.txn.specs.Transactions.{OpenTransaction, run_of};

    ghost Value = { OpenTransaction };

    ghost coded = { Prim.hlevel (codes, cond_type.the_row.coded, expr_type.the_row.coded) };

    ghost view = { λ c. c.txn };

    ghost invariant = { λ c. IsClosed c.txn c.changes.items c.refused (unwrap_or c.keys (run_of c.txn).reads) };
}

/// A transaction that could not be closed, since memory ran out.
pub struct CloseFailure {
    pub txn: Txn,
}

impl ClosedTransaction {
    /// The transaction as it was when it was closed. It takes no memory.
    pub fn txn(&self) -> &Txn
        ensures { result.now ≡ self.now }
    {
        &self.txn
    }

    /// The net change: each row in which its own view and the tables of its begin differ, by table and key, with
    /// what stood there and what is to stand there. Each new row fits its table. It takes no memory.
    pub fn changes(&self) -> &[Change]
        ensures net { result.now ≡ (outcome_of self.now).changes }
        ensures fit { All (IsFitting (layouts_in self.now.declared)) result.now }
    {
        // (that the rows of a view fit its tables is a clause of its catalog)
        let _ = self.txn.own().catalog();
        self.changes.as_slice()
    }

    /// What it has read, the check of COMMIT included. It takes no memory.
    pub fn reads(&self) -> &[LockKey]
        ensures { result.now ≡ keys_of self.now }
    {
        match &self.keys {
            Some(keys) => keys.as_slice(),
            None => self.txn.reads(),
        }
    }

    /// The refusal by the first assertion, in the order of creation, that is false on its own view. It takes no memory.
    pub fn refused(&self) -> Option<&Refusal>
        ensures { option_copied result ≡ (outcome_of self.now).refused }
    {
        self.refused.as_ref()
    }

    /// The transaction that was closed, open again. It takes no memory.
    pub fn reopen(self) -> Txn
        ensures { result ≡ self }
    {
        let ClosedTransaction {
            txn,
            changes: _,
            refused: _,
            keys: _,
        } = self;
        txn
    }

    /// What stays of it when it is committed. It takes no memory.
    pub fn into_parts(self) -> Parts
        ensures { AreParts self result }
    {
        let ClosedTransaction {
            txn,
            changes,
            refused: _,
            keys,
        } = self;
        let (trace, reads) = txn.into_trace_and_reads();
        Parts {
            trace: Items::from_vec(trace),
            reads: all_or(keys, reads),
            changes: Items::from_vec(changes),
        }
    }

    /// A copy of what stays of it when it is committed.
    pub fn copy_parts(&self) -> Result<Parts, AllocError>
        ensures { IfOk result (AreParts self.now) }
    {
        let alloc = *self.changes.allocator();
        Ok(Parts {
            trace: copy_trace(alloc, self.txn.trace())?,
            reads: copy_reads(alloc, self.reads())?,
            changes: copy_changes(alloc, self.changes())?,
        })
    }
}

/// All keys, where there are such, else these.
fn all_or(all: Option<Items<LockKey>>, keys: Vec<LockKey>) -> Items<LockKey>
    ensures { result ≡ unwrap_or all keys.items }
{
    match all {
        Some(all) => all,
        None => Items::from_vec(keys),
    }
}
