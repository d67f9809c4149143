//! Transactions of a manager.

ghost use Rattle.std.specs.Prelude.{◌≡◌, ◌≢◌, IfOk, IfErr, IsOkUnless, Ok, Err};
ghost use Rattle.std.specs.Option.{option_copied};
ghost use Rattle.value.specs.declared.refusals.Refusal.TheVariants.{NoMemory};
ghost use Rattle.boxcar.specs.Table.{Shows};
ghost use Rattle.alone.specs.Modes.{assertion_of};
ghost use Rattle.alone.specs.Resolve.{resolution_of};
ghost use Rattle.txn.specs.Committed.{AreParts};
ghost use Rattle.txn.specs.Transactions.{false_names, keys_of, outcome_of, own_view, run_of, step_of, truth_of, with_statement};
ghost use Rattle.session.specs.Books.{IsTicketed};
ghost use Rattle.session.specs.Answers.{is_retryable};

use crate::named::Named;
use crate::receipts::Receipt;
use crate::shelf::Token;
use alone::{Reply, ResolvedStatement};
use delta::View;
use siread::LockKey;
use std::marker::{Model, PhantomData};
use syntax::Statement;
use table::Change;
use value::{Refusal, Text, Truth};

/// What shows a manager that a transaction is its own: whose it is, and the token of its snapshot.
#[derive(Drop)]
pub(crate) struct Ticket<N: Named> {
    pub(crate) id: u64,
    pub(crate) epoch: u64,
    pub(crate) token: Token,
    of: PhantomData<N>,
}

impl<N: Named> Model for Ticket<N> {
    ghost use Rattle.table.specs.contracts.conds.Cond as cond_type;
    ghost use Rattle.table.specs.contracts.exprs.Expr as expr_type;
    ghost use Rattle.std.specs.Coded.{codes};
    ghost use Rattle.boxcar.specs.Table.{Shows};
    ghost use Rattle.session.specs.Books.{TicketState};

    ghost Value = { TicketState };

    ghost coded = { Prim.hlevel (codes, cond_type.the_row.coded, expr_type.the_row.coded) };

    ghost view = { λ t. record { id = t.id; epoch = t.epoch; token = t.token } };

    ghost invariant = { λ t. Shows (N.shelf t.id) t.token };
}

impl<N: Named> Ticket<N> {
    pub(crate) fn new(id: u64, epoch: u64, token: Token) -> Ticket<N>
        requires { Shows (N.shelf id) token }
        ensures { result ≡ record { id = id; epoch = epoch; token = token } }
    {
        Ticket {
            id,
            epoch,
            token,
            of: PhantomData,
        }
    }
}

/// An open transaction of a manager. It must be spent: by [`crate::Manager::commit`], [`crate::Manager::rollback`] or
/// [`Txn::abandon`]. None of its calls takes a lock.
pub struct Txn<N: Named> {
    pub(crate) inner: txn::Txn,
    pub(crate) ticket: Ticket<N>,
}

impl<N: Named> Model for Txn<N> {
    ghost use Rattle.table.specs.contracts.conds.Cond as cond_type;
    ghost use Rattle.table.specs.contracts.exprs.Expr as expr_type;
    ghost use Rattle.std.specs.Coded.{codes};
    ghost use Rattle.session.specs.Books.{IsTicketed, TicketedTransaction};

    ghost Value = { TicketedTransaction };

    ghost coded = { Prim.hlevel (codes, cond_type.the_row.coded, expr_type.the_row.coded) };

    ghost view = { λ t. record { inner = t.inner; ticket = t.ticket } };

    ghost invariant = { λ t. IsTicketed (record { inner = t.inner; ticket = t.ticket }) };
}

/// A transaction that goes to COMMIT. It must be spent.
pub struct ClosedTransaction<N: Named> {
    pub(crate) inner: txn::ClosedTransaction,
    pub(crate) ticket: Ticket<N>,
    /// What the shelf is to hold of it, made before the lock is taken.
    pub(crate) copy: txn::Parts,
}

impl<N: Named> Model for ClosedTransaction<N> {
    ghost use Rattle.table.specs.contracts.conds.Cond as cond_type;
    ghost use Rattle.table.specs.contracts.exprs.Expr as expr_type;
    ghost use Rattle.std.specs.Coded.{codes};
    ghost use Rattle.txn.specs.Committed.{AreParts};
    ghost use Rattle.session.specs.Books.{IsTicketed, TicketedTransaction};

    ghost Value = { TicketedTransaction };

    ghost coded = { Prim.hlevel (codes, cond_type.the_row.coded, expr_type.the_row.coded) };

    ghost view = { λ t. record { inner = t.inner; ticket = t.ticket } };

    ghost invariant = { λ t. IsTicketed (record { inner = t.inner; ticket = t.ticket }) × AreParts t.inner t.copy };
}

/// Why a transaction could not be closed, and the transaction.
pub struct CloseFailure<N: Named> {
    pub refusal: Refusal,
    pub txn: Txn<N>,
}

/// Why a transaction was not committed. After [`Refusal::NoMemory`] and [`Refusal::Stranger`] it is given back; any
/// other refusal has ended it. Receipts are shown of the commit of a write conflict, of the reader, the pivot and the
/// writer of a dangerous triple, none for the transaction itself, and of the last commit of a full epoch.
pub struct CommitFault<N: Named> {
    pub refusal: Refusal,
    pub txn: Option<Txn<N>>,
    pub shown: [Option<Receipt<N>>; 3],
}

impl<N: Named> CommitFault<N> {
    /// Whether the transaction was refused for what others did. It has ended then; run again from its BEGIN, it sees
    /// what was in its way. It takes no memory.
    pub fn is_retryable(&self) -> bool
        ensures { result ≡ is_retryable self.now.refusal }
    {
        matches!(
            &self.refusal,
            Refusal::WriteConflict { .. } | Refusal::Dangerous { .. }
        )
    }
}

impl<N: Named> Txn<N> {
    pub(crate) fn new(inner: txn::Txn, ticket: Ticket<N>) -> Txn<N>
        requires { IsTicketed (record { inner = inner; ticket = ticket }) }
        ensures { result ≡ record { inner = inner; ticket = ticket } }
    {
        Txn { inner, ticket }
    }

    /// How many commits its snapshot holds. It takes no memory.
    pub fn snapshot(&self) -> u64
        ensures { result ≡ self.now.inner.snapshot }
    {
        self.inner.snapshot()
    }

    /// Whether it began READ ONLY. It takes no memory.
    pub fn is_read_only(&self) -> bool
        ensures { result ≡ self.now.inner.read_only }
    {
        self.inner.is_read_only()
    }

    /// The tables as it sees them: those that it began on, with its own changes. It takes no memory.
    pub fn own(&self) -> &View
        ensures { result.now ≡ own_view self.now.inner }
    {
        self.inner.own()
    }

    /// Its statements so far, with their names found, refused ones too. It takes no memory.
    pub fn trace(&self) -> &[ResolvedStatement]
        ensures { result.now ≡ self.now.inner.trace }
    {
        self.inner.trace()
    }

    /// What its statements have read so far, in their order. It takes no memory.
    pub fn reads(&self) -> &[LockKey]
        ensures { result.now ≡ (run_of self.now.inner).reads }
    {
        self.inner.reads()
    }

    /// Runs a statement.
    ///
    /// # Errors
    ///
    /// Those of `txn::Txn::execute`. A statement that is refused stands in the trace, and the transaction goes on;
    /// after [`Refusal::NoMemory`] nothing has changed.
    pub fn execute(&mut self, statement: &Statement) -> Result<Reply, Refusal>
        ensures replied { IfOk result (λ reply.
            (step_of self.old.inner
            (resolution_of self.old.inner.declared self.old.inner.read_only statement.now)).reply ≡ Ok reply) }
        ensures run { IfOk result (λ _.
            self.new ≡ record self.old {
              inner = with_statement self.old.inner
                  (resolution_of self.old.inner.declared self.old.inner.read_only statement.now);
            }) }
        ensures refused { IfErr result (λ refusal.
            refusal ≢ NoMemory
            → (step_of self.old.inner
            (resolution_of self.old.inner.declared self.old.inner.read_only statement.now)).reply ≡ Err refusal) }
        ensures noted { IfErr result (λ refusal.
            refusal ≢ NoMemory
            → self.new ≡ record self.old {
              inner = with_statement self.old.inner
                  (resolution_of self.old.inner.declared self.old.inner.read_only statement.now);
            }) }
        ensures same { IfErr result (λ refusal. refusal ≡ NoMemory → self.new ≡ self.old) }
    {
        self.inner.execute(statement)
    }

    /// The truth of the assertion of a name on the own view; none where no assertion has it. It enters no trace, and
    /// takes no memory.
    pub fn verdict(&self, name: &Text) -> Option<Truth>
        ensures { result
            ≡ truth_of (own_view self.now.inner) (assertion_of name.now self.now.inner.declared.assertions) }
    {
        self.inner.verdict(name)
    }

    /// The names of the assertions that are false on the own view, in the order of their creation. NoMemory is the
    /// only error.
    pub fn pending(&self) -> Result<Vec<Text>, Refusal>
        ensures only_memory { IsOkUnless result NoMemory }
        ensures names { IfOk result (λ names. names.items ≡ false_names (own_view self.now.inner)) }
    {
        Ok(self.inner.pending()?)
    }

    /// Takes the transaction to COMMIT: its net change, and the check of all assertions on its own view. NoMemory is
    /// the only error, and gives the transaction back as it was.
    pub fn close_check(self) -> Result<ClosedTransaction<N>, CloseFailure<N>>
        ensures closed { IfOk result (λ closed. closed ≡ self) }
        ensures only_memory { IfErr result (λ fault. fault.refusal ≡ NoMemory) }
        ensures back { IfErr result (λ fault. fault.txn ≡ self) }
    {
        let Txn { inner, ticket } = self;
        match close(inner) {
            Ok((inner, copy)) => Ok(ClosedTransaction {
                inner,
                ticket,
                copy,
            }),
            Err(txn::CloseFailure { txn: inner }) => Err(CloseFailure {
                refusal: Refusal::NoMemory,
                txn: Txn { inner, ticket },
            }),
        }
    }

    /// Ends the transaction without its manager, for which it stays open. Its own view is left. It takes no memory.
    pub fn abandon(self) -> View
        ensures { result ≡ own_view self.inner }
    {
        let Txn { inner, ticket: _ } = self;
        inner.abandon()
    }
}

/// A transaction that goes to COMMIT, and a copy of what stays of it then.
fn close(txn: txn::Txn) -> Result<(txn::ClosedTransaction, txn::Parts), txn::CloseFailure>
    ensures closed { IfOk result (λ made. made.0 ≡ txn) }
    ensures copy { IfOk result (λ made. AreParts txn made.1) }
    ensures back { IfErr result (λ fault. fault.txn ≡ txn) }
{
    let closed = txn.close_check()?;
    match closed.copy_parts() {
        Ok(copy) => Ok((closed, copy)),
        Err(_) => Err(txn::CloseFailure {
            txn: closed.reopen(),
        }),
    }
}

impl<N: Named> ClosedTransaction<N> {
    /// How many commits its snapshot holds. It takes no memory.
    pub fn snapshot(&self) -> u64
        ensures { result ≡ self.now.inner.snapshot }
    {
        self.inner.txn().snapshot()
    }

    /// Whether it began READ ONLY. It takes no memory.
    pub fn is_read_only(&self) -> bool
        ensures { result ≡ self.now.inner.read_only }
    {
        self.inner.txn().is_read_only()
    }

    /// The net change. It takes no memory.
    pub fn changes(&self) -> &[Change]
        ensures { result.now ≡ (outcome_of self.now.inner).changes }
    {
        self.inner.changes()
    }

    /// What it has read, the check of COMMIT included. It takes no memory.
    pub fn reads(&self) -> &[LockKey]
        ensures { result.now ≡ keys_of self.now.inner }
    {
        self.inner.reads()
    }

    /// The refusal by the first assertion, in the order of creation, that is false on its own view. It takes no memory.
    pub fn refused(&self) -> Option<&Refusal>
        ensures { option_copied result ≡ (outcome_of self.now.inner).refused }
    {
        self.inner.refused()
    }

    /// The tables as it sees them. It takes no memory.
    pub fn own(&self) -> &View
        ensures { result.now ≡ own_view self.now.inner }
    {
        self.inner.txn().own()
    }

    /// The transaction that was closed, open again. It takes no memory.
    pub fn reopen(self) -> Txn<N>
        ensures { result ≡ self }
    {
        let ClosedTransaction {
            inner,
            ticket,
            copy: _,
        } = self;
        Txn {
            inner: inner.reopen(),
            ticket,
        }
    }
}
