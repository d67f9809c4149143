//! Open transactions.

ghost use Rattle.std.specs.Prelude.{◌≡◌, ◌≢◌, ◌<◌, ◌++◌, true, List, [], unwrap_or, vec_capacity, vec_len, IfOk, IfErr, OnErr, OnOk, Ok, Err};
ghost use Rattle.value.specs.declared.refusals.Refusal.TheVariants.{NoMemory};
ghost use Rattle.siread.specs.declared.keys.Place.{Place as AnyPlace};
ghost use Rattle.changes.specs.Nets.{AreChangesBetween, AreNoted, noted_at};
ghost use Rattle.assertion.specs.Meaning.{State};
ghost use Rattle.table.specs.Rows.{Layout};
ghost use Rattle.alone.specs.Modes.{assertion_of};
ghost use Rattle.alone.specs.Resolve.{is_read_only, resolution_of};
ghost use Rattle.txn.specs.Held.{IsClosed};
ghost use Rattle.txn.specs.Runnable.{IsRunnable};
ghost use Rattle.txn.specs.Transactions.{transaction_at_begin, false_names, outcome_of, own_view, reads_only, run_of, step_of, truth_of, with_statement};

use crate::accesses::Access;
use crate::checks::{find_violation, list_false, verdict_on};
use crate::closed::{CloseFailure, ClosedTransaction};
use crate::effects::recall_order;
use crate::resolutions::resolve;
use crate::steps::{StepResult, append, copy_unless_none, step};
use alone::{
    Modes, Reply, ResolvedStatement, read_only_statements_change_nothing, runs_are_joined,
};
use changes::{TouchedRows, checks_read};
use delta::View;
use siread::LockKey;
use sqlite_items::Items;
use std::alloc::{AllocError, Global};
use std::marker::Model;
use syntax::Statement;
use table::Change;
use value::{Refusal, Text, Truth};

/// An open transaction: the tables that it began on, its own view of them, its modes, its trace, and what it has
/// read. It must be spent: by [`Txn::close_check`], or by [`Txn::abandon`].
pub struct Txn {
    pub(crate) begin_number: u64,
    pub(crate) snapshot: u64,
    pub(crate) read_only: bool,
    pub(crate) start: View,
    pub(crate) own: View,
    pub(crate) modes: Modes,
    pub(crate) trace: Vec<ResolvedStatement>,
    pub(crate) touched: TouchedRows,
    pub(crate) reads: Vec<LockKey>,
}

/// What a transaction needs for COMMIT: its net change, the refusal by a false assertion, and what it and the check
/// read.
#[derive(Drop)]
struct CloseCheck {
    changes: Vec<Change>,
    refused: Option<Refusal>,
    /// None where that is what its statements read.
    keys: Option<Items<LockKey>>,
}

impl Model for Txn {
    ghost use Rattle.table.specs.contracts.conds.Cond as cond_type;
    ghost use Rattle.table.specs.contracts.exprs.Expr as expr_type;
    ghost use Rattle.std.specs.Coded.{codes};
    ghost use Rattle.txn.specs.Held.{IsHeld};
    ghost use Rattle.txn.specs.Transactions.{OpenTransaction, transaction_after};

    ghost Value = { OpenTransaction };

    ghost coded = { Prim.hlevel (codes, cond_type.the_row.coded, expr_type.the_row.coded) };

    ghost view = { λ t. transaction_after t.begin_number t.snapshot t.read_only t.start t.trace.items };

    ghost invariant = { λ t. IsHeld
        (transaction_after t.begin_number t.snapshot t.read_only t.start t.trace.items) t.own t.modes
        t.touched t.reads.items };
}

impl Txn {
    /// A transaction that begins on these tables, which so many commits left. The begin number is its name with the
    /// caller; one that is read only runs no INSERT, UPDATE or DELETE.
    pub fn begin(
        alloc: Global,
        begin_number: u64,
        snapshot: u64,
        access: Access,
        tables: &View,
    ) -> Result<Txn, AllocError>
        ensures { IfOk result (λ txn. txn ≡ transaction_at_begin begin_number snapshot (reads_only access) tables.now) }
    {
        Ok(Txn {
            begin_number,
            snapshot,
            read_only: access.is_read_only(),
            start: tables.copy()?,
            own: tables.copy()?,
            modes: Modes::initial(alloc, tables.assertions())?,
            trace: Vec::new(alloc),
            touched: TouchedRows::new(alloc),
            reads: Vec::new(alloc),
        })
    }

    /// The name of the transaction with whom it was begun. It takes no memory.
    pub fn begin_number(&self) -> u64
        ensures { result ≡ self.now.begin_number }
    {
        self.begin_number
    }

    /// How many commits its snapshot holds. It takes no memory.
    pub fn snapshot(&self) -> u64
        ensures { result ≡ self.now.snapshot }
    {
        self.snapshot
    }

    /// Whether it is read only. It takes no memory.
    pub fn is_read_only(&self) -> bool
        ensures { result ≡ self.now.read_only }
    {
        self.read_only
    }

    /// A read-only transaction has no net change: its invariant, brought to where it is needed.
    pub fn recall_read_only(&self)
        ensures { self.now.read_only ≡ true → (outcome_of self.now).changes ≡ [] }
    {
        // (what holds of every value of a type is known where a field of it is read)
        let _ = &self.trace;
        read_only_statements_change_nothing();
    }

    /// The tables as it sees them: those that it began on, with its own changes. It takes no memory.
    pub fn own(&self) -> &View
        ensures { result.now ≡ own_view self.now }
    {
        &self.own
    }

    /// Its statements so far, with their names found, refused ones too. It takes no memory.
    pub fn trace(&self) -> &[ResolvedStatement]
        ensures { result.now ≡ self.now.trace }
    {
        self.trace.as_slice()
    }

    /// What its statements have read so far, in their order. It takes no memory.
    pub fn reads(&self) -> &[LockKey]
        ensures { result.now ≡ (run_of self.now).reads }
    {
        self.reads.as_slice()
    }

    /// Runs a statement, and notes it in the trace. Its reply is that of the statement alone on the own view
    /// (ISO/IEC 9075:1992, data manipulation, and checking of constraints), and a refused one leaves view and modes
    /// as they were.
    ///
    /// # Errors
    ///
    /// In a read-only transaction [`Refusal::ReadOnlyTransaction`] for INSERT, UPDATE and DELETE. Then the statement's
    /// first fault, in the order of names, shape, types and width; then INSERT and UPDATE [`Refusal::NullNotAllowed`]
    /// and [`Refusal::OutOfRange`], INSERT last [`Refusal::DuplicateKey`]; then [`Refusal::Violated`] by the first
    /// immediate assertion that would be false, and for SET CONSTRAINTS .. IMMEDIATE by the first of those named;
    /// [`Refusal::NotDeferrable`] for a mode that may not be set. Such a statement stands in the trace. Or
    /// [`Refusal::NoMemory`]: then nothing has changed, and the statement is in no trace.
    pub fn execute(&mut self, statement: &Statement) -> Result<Reply, Refusal>
        ensures replied { IfOk result (λ reply.
            (step_of self.old (resolution_of self.old.declared self.old.read_only statement.now)).reply ≡ Ok reply) }
        ensures run { IfOk result (λ _.
            self.new ≡ with_statement self.old (resolution_of self.old.declared self.old.read_only statement.now)) }
        ensures refused { IfErr result (λ refusal.
            refusal ≢ NoMemory
            → (step_of self.old (resolution_of self.old.declared self.old.read_only statement.now)).reply
            ≡ Err refusal) }
        ensures noted { IfErr result (λ refusal.
            refusal ≢ NoMemory
            → self.new ≡ with_statement self.old (resolution_of self.old.declared self.old.read_only statement.now)) }
        ensures same { IfErr result (λ refusal. refusal ≡ NoMemory → self.new ≡ self.old) }
    {
        let alloc = *self.trace.allocator();
        let statement = resolve(alloc, &self.start, self.read_only, statement)?;
        self.run(alloc, statement)
    }

    /// Runs a statement with its names found.
    fn run(&mut self, alloc: Global, statement: ResolvedStatement) -> Result<Reply, Refusal>
        requires runnable { IsRunnable self.old.declared statement }
        requires may_run { self.old.read_only ≡ true → is_read_only statement ≡ true }
        ensures replied { IfOk result (λ reply. (step_of self.old statement).reply ≡ Ok reply) }
        ensures run { IfOk result (λ _. self.new ≡ with_statement self.old statement) }
        ensures refused { IfErr result (λ refusal.
            refusal ≢ NoMemory → (step_of self.old statement).reply ≡ Err refusal) }
        ensures noted { IfErr result (λ refusal. refusal ≢ NoMemory → self.new ≡ with_statement self.old statement) }
        ensures same { IfErr result (λ refusal. refusal ≡ NoMemory → self.new ≡ self.old) }
    {
        runs_are_joined();
        recall_order(&self.start);
        let done = match step(alloc, &self.own, &self.modes, &self.touched, &statement) {
            Ok(done) => done,
            Err(_) => return drop_and_refuse(statement),
        };
        let StepResult {
            reply,
            view,
            modes,
            changes,
            reads,
        } = done;
        if let Err(_) = note(
            &mut self.touched,
            &mut self.trace,
            &mut self.reads,
            changes,
            reads,
        ) {
            return drop_and_refuse((statement, reply, view, modes));
        }
        settle(&mut self.own, view);
        settle_modes(&mut self.modes, modes);
        self.trace.push_reserved(statement);
        reply
    }

    /// The truth of the assertion of a name on the own view; none where no assertion has it. It enters no trace,
    /// and takes no memory.
    pub fn verdict(&self, name: &Text) -> Option<Truth>
        ensures { result ≡ truth_of (own_view self.now) (assertion_of name.now self.now.declared.assertions) }
    {
        verdict_on(&self.own, name)
    }

    /// The names of the assertions that are false on the own view, in the order of their creation. It enters no
    /// trace.
    pub fn pending(&self) -> Result<Vec<Text>, AllocError>
        ensures { IfOk result (λ names. names.items ≡ false_names (own_view self.now)) }
    {
        let names = list_false(*self.trace.allocator(), &self.own)?;
        Ok(names)
    }

    /// Takes the transaction to COMMIT: its net change, and the check of all assertions on its own view, whatever
    /// their modes (ISO/IEC 9075:1992, commit statement). Where memory runs out, the transaction is given back as it
    /// was.
    pub fn close_check(self) -> Result<ClosedTransaction, CloseFailure>
        ensures closed { IfOk result (λ closed. closed ≡ self) }
        ensures back { IfErr result (λ fault. fault.txn ≡ self) }
    {
        let mut txn = self;
        match txn.prepare_close() {
            Ok(
                CloseCheck {
                    changes,
                    refused,
                    keys,
                },
            ) => {
                txn.trim();
                Ok(ClosedTransaction {
                    txn,
                    changes,
                    refused,
                    keys,
                })
            }
            Err(_) => Err(CloseFailure { txn }),
        }
    }

    /// Gives back the room that is left behind what it has read, since a commit keeps that.
    fn trim(&mut self)
        ensures { self.new ≡ self.old }
    {
        self.reads.shrink_to_fit();
    }

    /// What COMMIT is answered by.
    fn prepare_close(&self) -> Result<CloseCheck, AllocError>
        ensures { IfOk result (λ closing.
            IsClosed self.now closing.changes.items closing.refused
            (unwrap_or closing.keys (run_of self.now).reads)) }
    {
        let alloc = *self.trace.allocator();
        recall_order(&self.start);
        recall_order(&self.own);
        let changes = self.touched.net_change(alloc)?;
        let meant = Modes::all_immediate(self.own.assertions());
        let refused = find_violation(&self.own, &meant)?;
        // Of the others the statements have read what their checks read.
        let deferred = self.modes.opposite(alloc)?;
        let checked = checks_read(alloc, &self.own, &deferred, changes.as_slice())?;
        let keys = copy_unless_none(alloc, self.reads.as_slice(), checked)?;
        Ok(CloseCheck {
            changes,
            refused,
            keys,
        })
    }

    /// Its statements and what they have read, of a transaction that is committed. It takes no memory.
    pub(crate) fn into_trace_and_reads(self) -> (Vec<ResolvedStatement>, Vec<LockKey>)
        ensures trace { result.0.items ≡ self.trace }
        ensures reads { result.1.items ≡ (run_of self).reads }
    {
        let Txn {
            begin_number: _,
            snapshot: _,
            read_only: _,
            start: _,
            own: _,
            modes: _,
            trace,
            touched: _,
            reads,
        } = self;
        (trace, reads)
    }

    /// Ends the transaction, and nothing of it is kept but its own view of the tables. It takes no memory.
    pub fn abandon(self) -> View
        ensures { result ≡ own_view self }
    {
        let Txn {
            begin_number: _,
            snapshot: _,
            read_only: _,
            start: _,
            own,
            modes: _,
            trace: _,
            touched: _,
            reads: _,
        } = self;
        own
    }
}

/// Stopped for want of memory, with what had been made.
fn drop_and_refuse<T: Drop>(_made: T) -> Result<Reply, Refusal>
    ensures { result ≡ Err NoMemory }
{
    Err(Refusal::NoMemory)
}

/// Notes what was read and what was changed, and makes room for one more statement. After an error nothing is noted,
/// and there may be room.
fn note(
    touched: &mut TouchedRows,
    trace: &mut Vec<ResolvedStatement>,
    reads: &mut Vec<LockKey>,
    changes: Vec<Change>,
    more: Vec<LockKey>,
) -> Result<(), AllocError>
    ensures noted { OnOk result ((layouts : List Layout) (start before after : State)
        → AreNoted layouts start before touched.old → AreChangesBetween layouts before after changes.items
        → AreNoted layouts start after touched.new) }
    ensures unnoted { OnErr result ((place : AnyPlace) → noted_at touched.new place ≡ noted_at touched.old place) }
    ensures trace { trace.new.items ≡ trace.old.items }
    ensures room { OnOk result (vec_len trace.new < vec_capacity trace.new) }
    ensures read { OnOk result (reads.new.items ≡ reads.old.items ++ more.items) }
    ensures unread { OnErr result (reads.new.items ≡ reads.old.items) }
{
    // A commit keeps the trace, and most transactions have few statements.
    if trace.is_empty() {
        trace.reserve_exact(1)?;
    } else {
        trace.reserve(1)?;
    }
    let before = reads.len();
    append(reads, more)?;
    if let Err(error) = touched.note(changes) {
        reads.truncate(before);
        return Err(error);
    }
    Ok(())
}

/// The view is the one after, if there is one.
fn settle(view: &mut View, after: Option<View>)
    ensures { view.new ≡ unwrap_or after view.old }
{
    if let Some(after) = after {
        *view = after;
        view.settle();
    }
}

/// The modes are those after, if there are any.
fn settle_modes(modes: &mut Modes, after: Option<Modes>)
    ensures { modes.new ≡ unwrap_or after modes.old }
{
    if let Some(after) = after {
        *modes = after;
    }
}
