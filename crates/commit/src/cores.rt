//! The committed transactions.

ghost use Rattle.std.specs.Prelude.{◌≡◌, ◌↔◌, ◌≢◌, ◌≤◌, ◌<◌, ◌+◌, ◌++◌, ◌∷◌, [], ℕ, List, length, map, true, false, vec_capacity, vec_len, Contains, IfOk, IfErr, IfSome, IfNone, OnErr, OnOk, Ok, Err, None, Some};
ghost use Rattle.value.specs.declared.refusals.Refusal.TheVariants.{EpochFull, NoMemory};
ghost use Rattle.alone.specs.Modes.{assertion_of};
ghost use Rattle.siread.specs.Locks.{AreBelow, IsCount, Reads, reads_above, readers_at};
ghost use Rattle.conflict.specs.Held.{is_held};
ghost use Rattle.conflict.specs.Live.{has_begin_number, least_writing, may_another_ask, without};
ghost use Rattle.alone.specs.Alone.{IsSound};
ghost use Rattle.alone.specs.Commits.{HasNoWriteConflict, IsLog};
ghost use Rattle.alone.specs.Epoch.{IsEpoch};
ghost use Rattle.alone.specs.Order.{least_out};
ghost use Rattle.txn.specs.Transactions.{outcome_of, reads_only, transaction_at_begin, truth_of};
ghost use Rattle.commit.specs.Cores.{IsCommitAnswer, IsLive, IsSerializable, IsUncommitted, core_after_commit, core_after_end, core_after_finish, locks_of, log_of, newest_tables, order_of, pending_txn, reach_with, reads_asked, record_of, record_with, without_prepared, with_begun, with_commit, with_prepared};
ghost use Rattle.commit.specs.Decisions.{IsDecision, IsJudgment};
ghost use Rattle.commit.specs.Keepers.{IsMade, was_kept};
ghost use Rattle.commit.specs.Runs.{empty_core};
ghost use Rattle.commit.specs.Safe.{IsSafeReader};

use crate::decisions::{Decision, refuse_for_triple, refuse_for_writer};
use crate::keepers::{Keeper, Kept};
use crate::prepared::{Prepared, give_up};
use alone::{Record, RefusedCommit, commits_have_an_order, reach_of, replay_answers_again};
use conflict::{Candidate, Judgment, Live, is_safe, judge, put_in_order};
use delta::View;
use siread::LockTable;
use std::alloc::{AllocError, Global};
use std::marker::Model;
use std::mem;
use txn::{Access, CloseFailure, ClosedTransaction, Parts, Txn, verdict_on};
use value::{Refusal, Text, Truth};

/// The committed transactions: the tables before the first and after the last, a record of each, their serial
/// order, and the commits that were refused; and what is needed of the open ones. Between a [`Core::prepare`] that
/// was accepted and the [`Core::finish`] or [`Core::cancel`] that ends it, a commit is prepared.
pub struct Core {
    limit: u32,
    loaded: View,
    newest: View,
    records: Vec<Record>,
    /// For each commit the least one to which it conflicts, or its own number.
    places: Vec<u64>,
    /// For each commit the last number that may stand before it.
    reaches: Vec<u64>,
    /// The numbers in serial order.
    order: Vec<u64>,
    refused: Vec<RefusedCommit>,
    live: Live,
    /// Who read what, of the commits that reach past the snapshot of some open transaction that may write, and of the
    /// one that is prepared, where another one may ask for it.
    locks: LockTable,
    prepared: Option<Prepared>,
}

impl Model for Core {
    ghost use Rattle.table.specs.contracts.conds.Cond as cond_type;
    ghost use Rattle.table.specs.contracts.exprs.Expr as expr_type;
    ghost use Rattle.std.specs.Coded.{codes};
    ghost use Rattle.std.specs.Prelude.{◌<◌, vec_capacity, vec_len};
    ghost use Rattle.siread.specs.Locks.{readers_at};
    ghost use Rattle.commit.specs.Cores.{CoreState};
    ghost use Rattle.commit.specs.Kept.{IsKept, idle_core, pending_of};

    ghost Value = { CoreState };

    ghost coded = { Prim.hlevel (codes, cond_type.the_row.coded, expr_type.the_row.coded) };

    ghost view = { λ c. record (idle_core c.limit c.loaded c.records.items c.refused.items c.live)
        { prepared = pending_of c.prepared } };

    ghost invariant = { λ c.
        IsKept (idle_core c.limit c.loaded c.records.items c.refused.items c.live) c.newest c.places.items
        c.reaches.items c.order.items (readers_at c.locks) c.prepared
        ((vec_len c.records < vec_capacity c.records) × (vec_len c.places < vec_capacity c.places)
        × (vec_len c.reaches < vec_capacity c.reaches) × (vec_len c.order < vec_capacity c.order)) };
}

impl Drop for Core {
    fn drop(self) {
        let Core {
            limit: _,
            loaded: _,
            newest: _,
            records: _,
            places: _,
            reaches: _,
            order: _,
            refused: _,
            live: _,
            locks: _,
            prepared,
        } = self;
        if let Some(prepared) = prepared {
            drop(give_up(prepared).into_parts());
        }
    }
}

/// Why a transaction was not committed. After [`Refusal::NoMemory`] it is given back; any other refusal has ended it.
pub struct CommitFailure {
    pub refusal: Refusal,
    pub txn: Option<Txn>,
}

impl Core {
    /// No commit yet, over tables on which no assertion is false, and at most so many commits.
    pub fn new(alloc: Global, limit: u32, loaded: View) -> Result<Core, AllocError>
        requires sound { IsSound loaded.declared loaded.state }
        ensures { IfOk result (λ core. core ≡ empty_core limit loaded) }
    {
        Ok(Core {
            limit,
            newest: loaded.copy()?,
            loaded,
            records: Vec::new(alloc),
            places: Vec::new(alloc),
            reaches: Vec::new(alloc),
            order: Vec::new(alloc),
            refused: Vec::new(alloc),
            live: Live::new(alloc),
            locks: LockTable::new(alloc),
            prepared: None,
        })
    }

    /// A transaction begins on the newest tables. The transactions that have committed hold nothing of these any more,
    /// so that they can settle.
    ///
    /// # Errors
    ///
    /// [`Refusal::EpochFull`] exactly where 2^64 - 1 transactions have begun in the epoch, since each has a number of
    /// its own; or [`Refusal::NoMemory`]. Nothing has changed then.
    pub fn begin(&mut self, access: Access) -> Result<Txn, Refusal>
        requires idle { self.old.prepared ≡ None }
        ensures begun { IfOk result (λ txn.
            txn ≡ transaction_at_begin self.old.live.begun (length self.old.records) (reads_only access)
            (newest_tables self.old)) }
        ensures live { IfOk result (λ txn. IsLive self.new txn) }
        ensures after { OnOk result (self.new ≡ with_begun (reads_only access) self.old) }
        ensures room { OnOk result (has_begin_number self.old.live ≡ true) }
        ensures refused { IfErr result (λ refusal. refusal ≢ NoMemory
            → (refusal ≡ EpochFull) × (has_begin_number self.old.live ≡ false)) }
        ensures same { OnErr result (self.new ≡ self.old) }
    {
        self.settle();
        let alloc = *self.records.allocator();
        let snapshot = self.records.len() as u64;
        let number = self.live.next_begin_number();
        let txn = Txn::begin(alloc, number, snapshot, access, &self.newest)?;
        if let Err(refusal) = self.live.begin(snapshot, access.is_read_only()) {
            drop(txn.abandon());
            return Err(refusal);
        }
        Ok(txn)
    }

    /// COMMIT (ISO/IEC 9075:1992, commit statement). The transaction is the next commit, unless an assertion is
    /// false on its own view, or the epoch is full, or a commit after its snapshot has changed a row that it
    /// changed, or it would complete a dangerous triple. Its number is answered; its net change is put into the
    /// newest tables.
    ///
    /// # Errors
    ///
    /// The first of these that holds: [`Refusal::Violated`] by the first false assertion, with its least bad root;
    /// [`Refusal::EpochFull`]; [`Refusal::WriteConflict`]; [`Refusal::Dangerous`]. Each is noted in the list of
    /// refused commits, and has ended the transaction. Or [`Refusal::NoMemory`]: then nothing has changed, and the
    /// transaction is given back.
    pub fn commit(&mut self, session: &Text, txn: Txn) -> Result<u64, CommitFailure>
        requires live { IsLive self.old txn }
        requires idle { self.old.prepared ≡ None }
        ensures number { IfOk result (λ number. IsCommitAnswer self.old session.now txn (Ok number)) }
        ensures after { IfOk result (λ _. self.new ≡ core_after_commit self.old session.now txn) }
        ensures refused { IfErr result (λ fault.
            IsUncommitted self.old session.now txn fault.refusal fault.txn self.new) }
    {
        let closed = close(txn)?;
        let number = self.prepare(session, closed)?;
        self.finish();
        Ok(number)
    }

    /// COMMIT as [`Core::commit`] answers it, but a commit that is accepted counts only once it is kept. Where it could
    /// not be kept nothing has changed, and the transaction is given back.
    ///
    /// # Errors
    ///
    /// Those of [`Core::commit`]. Nobody was asked to keep anything then.
    pub fn commit_kept<K: Keeper>(
        &mut self,
        session: &Text,
        txn: Txn,
        keeper: &mut K,
    ) -> Result<Kept, CommitFailure>
        requires live { IsLive self.old txn }
        requires idle { self.old.prepared ≡ None }
        requires expected { K.expects keeper.old (length self.old.records + 1) }
        ensures made { IfOk result (λ kept. IsMade self.old session.now txn kept self.new) }
        ensures kept { IfOk result (λ kept.
            K.did_keep keeper.old keeper.new (length self.old.records + 1) (outcome_of txn).changes (was_kept kept)) }
        ensures refused { IfErr result (λ fault.
            IsUncommitted self.old session.now txn fault.refusal fault.txn self.new) }
        ensures unasked { OnErr result (keeper.new ≡ keeper.old) }
    {
        let closed = close(txn)?;
        let number = self.prepare(session, closed)?;
        let was_kept = match &self.prepared {
            Some(prepared) => keeper.keep(number, prepared.closed.changes()),
            None => unreachable!(),
        };
        if was_kept {
            self.finish();
            return Ok(Kept::Committed(number));
        }
        match self.cancel() {
            Some(closed) => Ok(Kept::NotKept(closed.reopen())),
            None => unreachable!(),
        }
    }

    /// Prepares a commit: decides what the COMMIT of the transaction is answered, as [`Core::commit`] does, and
    /// makes all that takes memory. The number that it will have is answered. It is no commit yet.
    ///
    /// # Errors
    ///
    /// Those of [`Core::commit`].
    pub fn prepare(
        &mut self,
        session: &Text,
        closed: ClosedTransaction,
    ) -> Result<u64, CommitFailure>
        requires live { IsLive self.old closed }
        requires idle { self.old.prepared ≡ None }
        ensures number { IfOk result (λ number. IsCommitAnswer self.old session.now closed (Ok number)) }
        ensures after { IfOk result (λ _. self.new ≡ with_prepared self.old session.now closed) }
        ensures refused { IfErr result (λ fault.
            IsUncommitted self.old session.now closed fault.refusal fault.txn self.new) }
    {
        match self.decide(&closed) {
            Ok(Decision::Accepted(place)) => self.make_ready(session, closed, place),
            Ok(Decision::Refused(refusal)) => Err(self.refuse(session, closed, refusal)),
            Err(_) => Err(give_back(closed)),
        }
    }

    /// Makes the prepared commit the next, if one is prepared. It takes no memory.
    pub fn finish(&mut self)
        ensures { self.new ≡ core_after_finish self.old }
    {
        let Some(prepared) = self.prepared.take() else {
            return;
        };
        let Prepared {
            closed,
            session,
            tables,
            place,
        } = prepared;
        let before = self.records.len() as u64;
        let number = before + 1;
        let begin_number = closed.txn().begin_number();
        let record = into_record(number, session, closed);
        let committed = self.records.as_slice();
        let places = self.places.as_slice();
        put_in_order(&mut self.order, committed, places, &record, place);
        self.places.push_reserved(place);
        self.reaches.push_reserved(record.reach());
        self.records.push_reserved(record);
        self.newest = tables;
        forget(
            &mut self.live,
            &mut self.locks,
            self.reaches.as_slice(),
            begin_number,
            before,
            number,
        );
    }

    /// Gives the prepared commit up, if one is prepared, and its transaction back. All is then as it was before it
    /// was prepared. It takes no memory.
    pub fn cancel(&mut self) -> Option<ClosedTransaction>
        ensures back { result ≡ pending_txn self.old.prepared }
        ensures after { self.new ≡ without_prepared self.old }
    {
        let Some(prepared) = self.prepared.take() else {
            return None;
        };
        let closed = give_up(prepared);
        let number = self.records.len() as u64 + 1;
        take_back_reads(&self.live, &mut self.locks, number, &closed);
        Some(closed)
    }

    /// ROLLBACK (ISO/IEC 9075:1992, rollback statement): the transaction has ended, and nothing of it is kept. Who
    /// holds it abandons it. It takes no memory.
    pub fn end(&mut self, txn: &Txn)
        requires live { IsLive self.old txn.now }
        requires idle { self.old.prepared ≡ None }
        ensures { self.new ≡ core_after_end self.old txn.now }
    {
        self.end_open(txn.begin_number());
    }

    /// The truth of the assertion of a name on the newest tables; none where no assertion has it. It takes no memory.
    pub fn verdict(&self, name: &Text) -> Option<Truth>
        ensures { result ≡ truth_of (newest_tables self.now) (assertion_of name.now self.now.declared.assertions) }
    {
        verdict_on(&self.newest, name)
    }

    /// How many pairs there are of a key and a commit that read it, of the commits that reach past the snapshot of some
    /// open transaction that may write, and of the one that is prepared, where another one may ask for it. It
    /// takes no memory.
    pub fn locks(&self) -> usize
        ensures { IsCount (locks_of self.now) result }
    {
        self.locks.len()
    }

    /// The most commits that there may be.
    pub fn limit(&self) -> u32
        ensures { result ≡ self.now.limit }
    {
        self.limit
    }

    pub(crate) fn allocator(&self) -> Global {
        *self.records.allocator()
    }

    /// The tables before the first commit.
    pub fn loaded(&self) -> &View
        ensures { result.now ≡ record { declared = self.now.declared; state = self.now.start } }
    {
        &self.loaded
    }

    /// The tables after the last commit.
    pub fn newest(&self) -> &View
        ensures { result.now ≡ newest_tables self.now }
    {
        &self.newest
    }

    /// The commits, in the order of their numbers.
    pub fn records(&self) -> &[Record]
        ensures { result.now ≡ self.now.records }
    {
        self.records.as_slice()
    }

    /// The commits that were refused, in the order in which they were answered.
    pub fn refused(&self) -> &[RefusedCommit]
        ensures { result.now ≡ self.now.refused }
    {
        self.refused.as_slice()
    }

    /// Before which number each commit stands in the serial order, unless it is read only: that of the least commit to
    /// which it conflicts, or its own. It never changes, whatever is committed later.
    pub fn places(&self) -> &[u64]
        ensures { result.now ≡ map (least_out (log_of self.now)) self.now.records }
    {
        self.places.as_slice()
    }

    /// The numbers of the commits in their serial order.
    pub fn serial_order(&self) -> &[u64]
        ensures { result.now ≡ order_of self.now }
    {
        self.order.as_slice()
    }

    /// Whether a transaction with this begin number and this snapshot, read only or not as is said, has begun and has
    /// not ended. It takes no memory.
    pub fn holds(&self, begin_number: u64, snapshot: u64, read_only: bool) -> bool
        ensures test { result ≡ is_held begin_number snapshot read_only self.now.live.snapshots }
        ensures held { result ≡ true → Contains self.now.live.snapshots
            (record { begin_number = begin_number; snapshot = snapshot; read_only = read_only }) }
    {
        self.live.holds(begin_number, snapshot, read_only)
    }

    /// Whether an open transaction is safe: it is read only, and is never refused any more for what others read and
    /// wrote (`safe_readers_are_never_refused`). It takes no memory.
    pub fn is_safe(&self, txn: &Txn) -> bool
        requires live { IsLive self.now txn.now }
        requires idle { self.now.prepared ≡ None }
        ensures { (result ≡ true) ↔ IsSafeReader self.now txn.now }
    {
        let snapshot = txn.snapshot();
        txn.is_read_only()
            && (self.live.writers_hold(snapshot)
                && is_safe(self.records.as_slice(), self.places.as_slice(), snapshot))
    }

    /// The commit that is prepared, with the tables after it.
    pub fn prepared(&self) -> Option<&Prepared>
        ensures some { IfSome result (λ p.
            self.now.prepared ≡ Some (record { session = p.now.session; txn = p.now.closed })) }
        ensures tables { IfSome result (λ p.
            p.now.tables ≡ newest_tables (with_commit self.now (record_of self.now p.now.session p.now.closed))) }
        ensures none { IfNone result (self.now.prepared ≡ None) }
    {
        self.prepared.as_ref()
    }

    /// Each commit was accepted over those before it, and recorded as it ran on the tables of its snapshot.
    pub fn recall_epoch(&self)
        ensures { IsEpoch self.now.declared self.now.start (log_of self.now) }
    {
        let _ = &self.loaded;
    }

    /// Each commit was accepted over those before it.
    pub fn recall_log(&self)
        ensures { IsLog (log_of self.now) }
    {
        // (what holds of every core is known where a field of it is read)
        let _ = &self.loaded;
    }

    /// There are at most as many commits as the limit says.
    pub fn recall_limit(&self)
        ensures { length self.now.records ≤ self.now.limit }
    {
        let _ = &self.loaded;
    }

    /// The committed transactions have a serial order, and no committed tables make an assertion false.
    pub fn recall_serializability(&self)
        ensures { IsSerializable self.now }
    {
        commits_have_an_order();
        replay_answers_again();
        let _ = &self.loaded;
    }
}

impl Core {
    /// The newest tables have less for the next version to copy then, and all is as it was.
    fn settle(&mut self)
        ensures { self.new ≡ self.old }
    {
        self.newest.settle();
    }

    /// What the COMMIT of a transaction is answered.
    fn decide(&self, closed: &ClosedTransaction) -> Result<Decision, AllocError>
        requires live { IsLive self.now closed.now }
        requires idle { self.now.prepared ≡ None }
        ensures { IfOk result (λ decision.
            (session : List ℕ) → IsDecision self.now session closed.now decision) }
    {
        if let Some(refusal) = closed.refused() {
            let refusal = refusal.copy()?;
            return Ok(Decision::Refused(refusal));
        }
        if self.records.as_slice().len() as u64 == u64::from(self.limit) {
            return Ok(Decision::Refused(Refusal::EpochFull));
        }
        let decision = self.judge(closed)?;
        Ok(decision)
    }

    /// What the commits before it make of a transaction.
    fn judge(&self, closed: &ClosedTransaction) -> Result<Decision, AllocError>
        requires live { IsLive self.now closed.now }
        requires idle { self.now.prepared ≡ None }
        ensures { IfOk result (λ decision.
            (session : List ℕ) → IsJudgment self.now (record_of self.now session closed.now) decision) }
    {
        let records = self.records.as_slice();
        let changes = closed.changes();
        let txn = closed.txn();
        // (that a read-only transaction has changed nothing is a clause of this call)
        txn.recall_read_only();
        let candidate = Candidate {
            number: records.len() as u64 + 1,
            snapshot: txn.snapshot(),
            read_only: txn.is_read_only(),
            reads: closed.reads(),
            changes,
        };
        match judge(
            records,
            self.places.as_slice(),
            self.reaches.as_slice(),
            &self.locks,
            &candidate,
        ) {
            Judgment::Fine { place } => Ok(Decision::Accepted(place)),
            Judgment::WriteConflict { row, by } => {
                let refusal = refuse_for_writer(self.loaded.catalog(), changes, row, by)?;
                Ok(Decision::Refused(refusal))
            }
            Judgment::Dangerous(danger) => Ok(Decision::Refused(refuse_for_triple(danger))),
        }
    }

    /// The tables after the commit of a transaction that is accepted. Where its snapshot is of the newest tables,
    /// that is its own view.
    fn make_tables(&self, closed: &ClosedTransaction) -> Result<View, AllocError>
        requires live { IsLive self.now closed.now }
        requires idle { self.now.prepared ≡ None }
        requires free { (session : List ℕ)
            → HasNoWriteConflict (log_of self.now) (record_of self.now session closed.now) }
        ensures { IfOk result (λ view. (session : List ℕ)
            → view ≡ newest_tables (with_commit self.now (record_of self.now session closed.now))) }
    {
        let txn = closed.txn();
        let own = txn.own();
        // (that a view's tables are as its declarations say is a clause of its catalog)
        let _ = own.catalog();
        if txn.snapshot() == self.records.len() as u64 {
            let view = own.copy()?;
            Ok(view)
        } else {
            let view = self.newest.after(closed.changes())?;
            Ok(view)
        }
    }

    /// The tables after the commit of a transaction that is accepted, and its session's name.
    fn make_for(
        &self,
        session: &Text,
        closed: &ClosedTransaction,
    ) -> Result<(View, Text), AllocError>
        requires live { IsLive self.now closed.now }
        requires idle { self.now.prepared ≡ None }
        requires answered { IsCommitAnswer self.now session.now closed.now (Ok (length self.now.records + 1)) }
        ensures tables { IfOk result (λ made.
            made.0 ≡ newest_tables (with_commit self.now (record_of self.now session.now closed.now))) }
        ensures session { IfOk result (λ made. made.1 ≡ session.now) }
    {
        let tables = self.make_tables(closed)?;
        let session = session.copy()?;
        Ok((tables, session))
    }

    /// Prepares the commit of a transaction that is accepted.
    fn make_ready(
        &mut self,
        session: &Text,
        closed: ClosedTransaction,
        place: u64,
    ) -> Result<u64, CommitFailure>
        requires live { IsLive self.old closed }
        requires idle { self.old.prepared ≡ None }
        requires answered { IsCommitAnswer self.old session.now closed (Ok (length self.old.records + 1)) }
        requires place { place ≡ least_out (log_of self.old) (record_of self.old session.now closed) }
        ensures number { IfOk result (λ number. number ≡ length self.old.records + 1) }
        ensures after { IfOk result (λ _. self.new ≡ with_prepared self.old session.now closed) }
        ensures only_memory { IfErr result (λ fault. fault.refusal ≡ NoMemory) }
        ensures back { IfErr result (λ fault. fault.txn ≡ Some closed) }
        ensures same { IfErr result (λ _. self.new ≡ self.old) }
    {
        let number = self.records.len() as u64 + 1;
        let (tables, session) = match self.make_for(session, &closed) {
            Ok(made) => made,
            Err(_) => return Err(give_back(closed)),
        };
        // (that a read-only transaction has changed nothing is a clause of this call)
        closed.txn().recall_read_only();
        if let Err(_) = make_room(
            &mut self.records,
            &mut self.places,
            &mut self.reaches,
            &mut self.order,
        ) {
            return Err(give_back(closed));
        }
        if let Err(_) = note_reads(&self.live, &mut self.locks, number, &closed) {
            return Err(give_back(closed));
        }
        let prepared = Prepared {
            closed,
            session,
            tables,
            place,
        };
        // (an assignment would let go of what stood there, and a prepared commit must be spent)
        match mem::replace(&mut self.prepared, Some(prepared)) {
            None => Ok(number),
            Some(_) => unreachable!(),
        }
    }

    /// Notes a refused commit, which ends the transaction.
    fn refuse(
        &mut self,
        session: &Text,
        closed: ClosedTransaction,
        refusal: Refusal,
    ) -> CommitFailure
        requires live { IsLive self.old closed }
        requires idle { self.old.prepared ≡ None }
        requires known { refusal ≢ NoMemory }
        requires answered { IsCommitAnswer self.old session.now closed (Err refusal) }
        ensures { IsUncommitted self.old session.now closed result.refusal result.txn self.new }
    {
        if let Err(_) = note_refused(&mut self.refused, session, &refusal) {
            return give_back(closed);
        }
        self.end_open(closed.txn().begin_number());
        drop(closed.into_parts());
        CommitFailure { refusal, txn: None }
    }

    /// The open transaction with a begin number has ended, and is no commit.
    fn end_open(&mut self, begin_number: u64)
        requires idle { self.old.prepared ≡ None }
        ensures { self.new ≡ record self.old { live = without begin_number self.old.live } }
    {
        let newest = self.records.len() as u64;
        forget(
            &mut self.live,
            &mut self.locks,
            self.reaches.as_slice(),
            begin_number,
            newest,
            newest,
        );
    }
}

/// A transaction has ended: its snapshot is held no more, and readers go that reach no further than the snapshots of
/// all that may write. There were `before` commits when it was open, and now there are `newest`. Where the least of
/// those snapshots is what it was, as behind one that stays open for long, nobody goes, and nobody is looked through.
fn forget(
    live: &mut Live,
    locks: &mut LockTable,
    reaches: &[u64],
    begin_number: u64,
    before: u64,
    newest: u64,
)
    requires later { before ≤ newest }
    requires kept { reads_above (least_writing before live.old.snapshots) reaches.now (readers_at locks.old)
        ≡ readers_at locks.old }
    ensures live { live.new ≡ without begin_number live.old }
    ensures locks { readers_at locks.new
        ≡ reads_above (least_writing newest live.new.snapshots) reaches.now (readers_at locks.old) }
{
    let low = live.least_writing(before);
    live.end(begin_number);
    let high = live.least_writing(newest);
    if low < high {
        locks.trim(high, reaches);
    }
}

/// Notes what the next commit has read, where another open transaction may ask for it. Nobody else will: who begins
/// later begins on a snapshot that holds this commit.
fn note_reads(
    live: &Live,
    locks: &mut LockTable,
    number: u64,
    closed: &ClosedTransaction,
) -> Result<(), AllocError>
    requires { AreBelow number (readers_at locks.old) }
    ensures noted { OnOk result (readers_at locks.new
        ≡ reads_asked live.now.snapshots closed.now number (readers_at locks.old)) }
    ensures unchanged { OnErr result (readers_at locks.new ≡ readers_at locks.old) }
{
    if !may_another_ask(live, number, closed) {
        return Ok(());
    }
    locks.put(number, closed.reads())
}

/// Undoes [`note_reads`], while the same transactions are open. It takes no memory.
fn take_back_reads(live: &Live, locks: &mut LockTable, number: u64, closed: &ClosedTransaction)
    ensures { (before : Reads) → AreBelow number before
        → readers_at locks.old ≡ reads_asked live.now.snapshots closed.now number before
        → readers_at locks.new ≡ before }
{
    if may_another_ask(live, number, closed) {
        locks.take_back(number, closed.reads());
    }
}

/// Whether another open transaction may ask for what this one has read, as the commit with a number.
fn may_another_ask(live: &Live, number: u64, closed: &ClosedTransaction) -> bool
    ensures { result
        ≡ may_another_ask closed.now.begin_number (reach_with number closed.now) live.now.snapshots }
{
    let txn = closed.txn();
    let reach = reach_of(number, txn.snapshot(), txn.is_read_only());
    live.may_another_ask(txn.begin_number(), reach)
}

/// The record of a transaction that is committed with this number, in a session of this name.
fn into_record(number: u64, session: Text, closed: ClosedTransaction) -> Record
    ensures { result ≡ record_with number session closed }
{
    let snapshot = closed.txn().snapshot();
    let read_only = closed.txn().is_read_only();
    let Parts {
        trace,
        reads,
        changes,
    } = closed.into_parts();
    Record {
        number,
        snapshot,
        read_only,
        session,
        trace,
        reads,
        changes,
    }
}

/// Makes room for a commit more.
fn make_room(
    records: &mut Vec<Record>,
    places: &mut Vec<u64>,
    reaches: &mut Vec<u64>,
    order: &mut Vec<u64>,
) -> Result<(), AllocError>
    ensures records { records.new.items ≡ records.old.items }
    ensures places { places.new.items ≡ places.old.items }
    ensures reaches { reaches.new.items ≡ reaches.old.items }
    ensures order { order.new.items ≡ order.old.items }
    ensures room { OnOk result ((vec_len records.new < vec_capacity records.new)
        × (vec_len places.new < vec_capacity places.new) × (vec_len reaches.new < vec_capacity reaches.new)
        × (vec_len order.new < vec_capacity order.new)) }
{
    records.reserve(1)?;
    places.reserve(1)?;
    reaches.reserve(1)?;
    order.reserve(1)?;
    Ok(())
}

/// Notes a refused commit behind the others.
fn note_refused(
    refused: &mut Vec<RefusedCommit>,
    session: &Text,
    refusal: &Refusal,
) -> Result<(), AllocError>
    ensures noted { OnOk result (refused.new.items
        ≡ refused.old.items ++ record { session = session.now; refusal = refusal.now } ∷ []) }
    ensures same { OnErr result (refused.new.items ≡ refused.old.items) }
{
    let entry = RefusedCommit {
        session: session.copy()?,
        refusal: refusal.copy()?,
    };
    refused.push(entry)?;
    Ok(())
}

/// Closes a transaction, or gives it back for want of memory.
fn close(txn: Txn) -> Result<ClosedTransaction, CommitFailure>
    ensures closed { IfOk result (λ closed. closed ≡ txn) }
    ensures refusal { IfErr result (λ fault. fault.refusal ≡ NoMemory) }
    ensures back { IfErr result (λ fault. fault.txn ≡ Some txn) }
{
    match txn.close_check() {
        Ok(closed) => Ok(closed),
        Err(CloseFailure { txn }) => Err(CommitFailure {
            refusal: Refusal::NoMemory,
            txn: Some(txn),
        }),
    }
}

/// The transaction is given back for want of memory, as it was before its COMMIT.
fn give_back(closed: ClosedTransaction) -> CommitFailure
    ensures refusal { result.refusal ≡ NoMemory }
    ensures txn { result.txn ≡ Some closed }
{
    CommitFailure {
        refusal: Refusal::NoMemory,
        txn: Some(closed.reopen()),
    }
}
