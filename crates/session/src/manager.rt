//! The manager.

ghost use Rattle.std.specs.Prelude.{◌≡◌, ◌≢◌, ◌≤◌, ◌<◌, ◌+◌, ℕ, true, false, Ok, Err, Some, IfOk, IfErr, OnErr, OnOk};
ghost use Rattle.std.specs.Arc.{arc_value};
ghost use Rattle.value.specs.declared.refusals.Refusal.TheVariants.{EpochFull, NoMemory, Stranger, TooManySessions};
ghost use Rattle.boxcar.specs.Table.{Shows};
ghost use Rattle.alone.specs.Modes.{assertion_of};
ghost use Rattle.txn.specs.Transactions.{outcome_of, reads_only};
ghost use Rattle.commit.specs.Admission.{tables_if_satisfied};
ghost use Rattle.commit.specs.Cores.{record_with};
ghost use Rattle.commit.specs.Epochs.{next_start};
ghost use Rattle.session.specs.Books.{IsFresh, IsTicketed, tables_left};
ghost use Rattle.session.specs.Answers.{AreShownBy, IsNotBegun, IsReason, IsRefused, IsRefusedOver, IsSatisfied, IsStanding, IsUnkept};

use crate::book::Book;
use crate::history::History;
use crate::limits::Limits;
use crate::making::Asker;
use crate::named::Named;
use crate::receipts::Receipt;
use crate::sessions::Session;
use crate::shelf::{Shelf, Token};
use crate::tickets::{CloseFailure, ClosedTransaction, CommitFault, Txn};
use commit::{Keeper, readmit, require_satisfied};
use definitions::{Definitions, NewAssertion};
use std::alloc::Global;
use std::mem;
use std::sync::{Arc, Mutex, Wait};
use txn::Access;
use value::{Refusal, Text, Truth};

/// The manager: the Book of its epoch under its lock, and the shelf beside it. Threads share it.
#[derive(Drop)]
pub struct Manager<N: Named> {
    shelf: Arc<Shelf>,
    id: u64,
    limits: Limits,
    epoch: u64,
    /// The token of the tables before the first commit of the epoch.
    loaded: Token,
    book: Mutex<Book<N>>,
    ghost shelf_is: { arc_value shelf ≡ N.shelf id },
    ghost limits_are: { limits ≡ N.limits id },
    ghost loaded_is: { Shows (N.shelf id) loaded },
    ghost good: { IsSatisfied loaded.value.view },
}

impl<N: Named> Manager<N> {
    /// A manager of what these definitions define, on the shelf and with the limits that `N` gives for its id. A
    /// refused call gives neither shelf nor definitions back.
    ///
    /// # Errors
    ///
    /// [`Refusal::FalseAtCreation`] by the first assertion that is false on the loaded rows, with its least bad root;
    /// or [`Refusal::NoMemory`].
    pub fn open<R: Wait>(
        rt: &R,
        alloc: Global,
        shelf: Shelf,
        id: u64,
        definitions: Definitions,
        limits: Limits,
    ) -> Result<Manager<N>, Refusal>
        requires shelf { shelf ≡ N.shelf id }
        requires limits { limits ≡ N.limits id }
        ensures admitted { IfOk result (λ _. tables_if_satisfied definitions ≡ Ok definitions) }
        ensures opened { IfOk result (λ manager.
            (manager.id ≡ id) × (manager.epoch ≡ 0) × (manager.loaded.value.view ≡ definitions)) }
        ensures refused { IfErr result (λ refusal. refusal ≢ NoMemory → tables_if_satisfied definitions ≡ Err refusal) }
    {
        let view = definitions.load(alloc)?;
        let view = require_satisfied(view)?;
        let shared = match Arc::new(alloc, shelf) {
            Ok(shared) => shared,
            Err(_) => return Err(Refusal::NoMemory),
        };
        let (commits, sessions) = (limits.commits(), limits.sessions());
        let (book, loaded) = Book::open(rt, alloc, &shared, id, 0, view, commits, sessions)?;
        Ok(Manager {
            shelf: shared,
            id,
            limits,
            epoch: 0,
            loaded,
            book: Mutex::new(book),
        })
    }

    /// A session of this name, which stands in its records and refused commits, and may repeat.
    ///
    /// # Errors
    ///
    /// [`Refusal::TooManySessions`] where as many were handed out as the limit says; or [`Refusal::NoMemory`]. None is
    /// handed out then.
    pub fn session<R: Wait>(&self, rt: &R, name: &Text) -> Result<Session<N>, Refusal>
        ensures session { IfOk result (λ session.
            session ≡ record { id = self.now.id; epoch = self.now.epoch; name = name.now; seen = 0 }) }
        ensures refused { IfErr result (λ refusal. refusal ≢ NoMemory → refusal ≡ TooManySessions) }
    {
        let name = name.copy()?;
        self.book.lock(rt).session(self.id, self.epoch, name)
    }

    /// A transaction begins, on tables that are no older than all that the session has seen. It has run no statement,
    /// and sees what stands on the shelf under its snapshot's number. Where it is read only, its INSERT, UPDATE and
    /// DELETE are refused [`Refusal::ReadOnlyTransaction`].
    ///
    /// # Errors
    ///
    /// [`Refusal::Stranger`] for a session of another manager or epoch; [`Refusal::EpochFull`] where 2^64 - 1
    /// transactions have begun in the epoch; or [`Refusal::NoMemory`]. The session is then as it was.
    pub fn begin<R: Wait>(
        &self,
        rt: &R,
        session: &mut Session<N>,
        access: Access,
    ) -> Result<Txn<N>, Refusal>
        ensures fresh { IfOk result (λ txn. session.old.seen ≤ txn.inner.snapshot) }
        ensures seen { IfOk result (λ txn. session.new ≡ record session.old { seen = txn.inner.snapshot }) }
        ensures view { IfOk result (λ txn. (txn.ticket.token.value.number ≡ txn.inner.snapshot) × IsTicketed txn) }
        ensures empty { IfOk result
            (IsFresh (N.shelf self.now.id) self.now.id self.now.epoch (reads_only access)) }
        ensures own { IfOk result (λ _. (session.old.id ≡ self.now.id) × (session.old.epoch ≡ self.now.epoch)) }
        ensures refused { IfErr result IsNotBegun }
        ensures same { OnErr result (session.new ≡ session.old) }
    {
        let mut book = self.book.lock(rt);
        book.begin(self.id, self.epoch, session, access)
    }

    /// COMMIT. The check of the transaction's own tables takes no lock.
    ///
    /// # Errors
    ///
    /// [`Refusal::NoMemory`], and [`Refusal::Stranger`] for a session or a transaction of another manager or epoch: the
    /// transaction is then given back. Any other refusal has ended it, and receipts show why. The session is then as it
    /// was.
    pub fn commit<R: Wait>(
        &self,
        rt: &R,
        session: &mut Session<N>,
        txn: Txn<N>,
    ) -> Result<Receipt<N>, CommitFault<N>>
        ensures newer { IfOk result (λ receipt. session.old.seen < receipt.number) }
        ensures seen { IfOk result (λ receipt. session.new ≡ record session.old { seen = receipt.number }) }
        ensures commit { IfOk result (λ receipt.
            receipt.token.value.commit ≡ Some (record_with receipt.number session.old.name txn.inner)) }
        ensures whose { IfOk result (λ receipt. (receipt.id ≡ self.now.id) × (receipt.epoch ≡ self.now.epoch)) }
        ensures own { IfOk result (λ _. (session.old.id ≡ self.now.id) × (session.old.epoch ≡ self.now.epoch)) }
        ensures own_txn { IfOk result (λ _. (txn.ticket.id ≡ self.now.id) × (txn.ticket.epoch ≡ self.now.epoch)) }
        ensures refused { IfErr result (λ fault. IsRefused txn fault.refusal fault.txn) }
        ensures reason { IfErr result (λ fault.
            IsReason (N.limits self.now.id).commits session.old.name txn.inner fault.refusal fault.shown) }
        ensures shown { IfErr result (λ fault. AreShownBy self.now.id self.now.epoch fault.shown) }
        ensures same { OnErr result (session.new ≡ session.old) }
    {
        match txn.close_check() {
            Ok(closed) => {
                // What the transaction alone has of its tables ends behind the lock, since a copy of them lives longer.
                let kept = closed.own().copy();
                let answered = self
                    .book
                    .lock(rt)
                    .commit(rt, &self.shelf, self.id, self.epoch, session, closed);
                drop(kept);
                answered
            }
            Err(CloseFailure { refusal, txn }) => Err(CommitFault {
                refusal,
                txn: Some(txn),
                shown: [None, None, None],
            }),
        }
    }

    /// COMMIT of a transaction whose own tables were checked (`Txn::close_check`), which counts only once it is kept:
    /// while it is, the manager is locked, so that each transaction begins on commits that were kept.
    ///
    /// # Errors
    ///
    /// Those of [`Manager::commit`], of which nobody was asked to keep anything; and [`Refusal::NoMemory`] where it is
    /// accepted and could not be kept, as who keeps the commits can tell: the transaction is then given back.
    pub fn commit_kept<R: Wait, K: Keeper>(
        &self,
        rt: &R,
        session: &mut Session<N>,
        closed: ClosedTransaction<N>,
        keeper: &mut K,
    ) -> Result<Receipt<N>, CommitFault<N>>
        requires expected { (number : ℕ) → K.expects keeper.old number }
        ensures newer { IfOk result (λ receipt. session.old.seen < receipt.number) }
        ensures seen { IfOk result (λ receipt. session.new ≡ record session.old { seen = receipt.number }) }
        ensures commit { IfOk result (λ receipt.
            receipt.token.value.commit ≡ Some (record_with receipt.number session.old.name closed.inner)) }
        ensures whose { IfOk result (λ receipt. (receipt.id ≡ self.now.id) × (receipt.epoch ≡ self.now.epoch)) }
        ensures own { IfOk result (λ _. (session.old.id ≡ self.now.id) × (session.old.epoch ≡ self.now.epoch)) }
        ensures own_txn { IfOk result (λ _.
            (closed.ticket.id ≡ self.now.id) × (closed.ticket.epoch ≡ self.now.epoch)) }
        ensures refused { IfErr result (λ fault. IsRefused closed fault.refusal fault.txn) }
        ensures reason { IfErr result (λ fault.
            IsReason (N.limits self.now.id).commits session.old.name closed.inner fault.refusal fault.shown) }
        ensures shown { IfErr result (λ fault. AreShownBy self.now.id self.now.epoch fault.shown) }
        ensures same { OnErr result (session.new ≡ session.old) }
        ensures kept { IfOk result (λ receipt.
            K.did_keep keeper.old keeper.new receipt.number (outcome_of closed.inner).changes true) }
        ensures unkept { IfErr result (λ fault.
            IsUnkept K.did_keep keeper.old keeper.new (outcome_of closed.inner).changes fault.refusal) }
    {
        // What the transaction alone has of its tables ends behind the lock, since a copy of them lives longer.
        let own = closed.own().copy();
        let asker = Asker {
            rt,
            shelf: &self.shelf,
            id: self.id,
            epoch: self.epoch,
        };
        let answered = self
            .book
            .lock(rt)
            .commit_kept(&asker, session, closed, keeper);
        drop(own);
        answered
    }

    /// ROLLBACK. It takes no memory.
    ///
    /// # Errors
    ///
    /// [`Refusal::Stranger`] for a transaction of another manager or epoch, which is given back.
    pub fn rollback<R: Wait>(&self, rt: &R, txn: Txn<N>) -> Result<(), (Refusal, Txn<N>)>
        ensures own { OnOk result ((txn.ticket.id ≡ self.now.id) × (txn.ticket.epoch ≡ self.now.epoch)) }
        ensures refused { IfErr result (λ fault. (fault.0 ≡ Stranger) × (fault.1 ≡ txn)) }
    {
        let ended = self
            .book
            .lock(rt)
            .rollback(&self.shelf, self.id, self.epoch, &txn);
        match ended {
            Ok(()) => {
                drop(txn.abandon());
                Ok(())
            }
            Err(refusal) => Err((refusal, txn)),
        }
    }

    /// The truth of the assertion of a name on the newest committed tables; none where no assertion has it. It is
    /// never false. It takes no memory.
    pub fn verdict<R: Wait>(&self, rt: &R, name: &Text) -> Option<Truth>
        ensures { IsStanding (assertion_of name.now self.now.loaded.value.view.declared.assertions) result }
    {
        self.book
            .lock(rt)
            .standing(&self.shelf, self.id, self.epoch, &self.loaded, name)
    }

    /// Begins a new epoch on the newest tables: the assertions of some names are dropped, new ones are created behind
    /// those that are left, and every assertion has to be satisfied. A name that is dropped may be given anew. As many
    /// commits and sessions may come as the limits say.
    ///
    /// The commits so far are handed out, over the tables that their epoch began on. Who drops them gives their memory
    /// back, but for what stands on the shelf. The sessions, receipts and open transactions of their epoch are
    /// strangers from now on; such a transaction is spent by [`Txn::abandon`]. No thread shares the manager here, so a
    /// scope whose threads do has to end first.
    ///
    /// # Errors
    ///
    /// [`Refusal::EpochFull`] at the epoch 18,446,744,073,709,551,615, behind which there is none. Then, on the newest
    /// tables: [`Refusal::UnknownName`] of the first name to drop that no assertion has, or has any more; of the first
    /// new assertion that is refused, what CREATE ASSERTION answers; and [`Refusal::FalseAtCreation`] with the first
    /// assertion that is false, and its least bad root. Or [`Refusal::NoMemory`]. Nothing has changed then: the epoch
    /// goes on.
    pub fn checkpoint<R: Wait>(
        &mut self,
        rt: &R,
        dropped: &[Text],
        created: &[NewAssertion],
    ) -> Result<History<N>, Refusal>
        ensures id { self.new.id ≡ self.old.id }
        ensures epoch { IfOk result (λ _. self.new.epoch ≡ self.old.epoch + 1) }
        ensures whose { IfOk result (λ history. (history.id ≡ self.old.id) × (history.epoch ≡ self.old.epoch)) }
        ensures loaded { IfOk result (λ history. history.loaded ≡ self.old.loaded) }
        ensures start { IfOk result (λ history.
            next_start dropped.now created.now
            (tables_left history.book history.id history.epoch history.loaded) ≡ Ok self.new.loaded.value.view) }
        ensures room { IfOk result (λ _. self.old.epoch < 18446744073709551615) }
        ensures full { self.old.epoch ≡ 18446744073709551615 → IfErr result (λ refusal. refusal ≡ EpochFull) }
        ensures refused { self.old.epoch < 18446744073709551615 → IfErr result (λ refusal. refusal ≢ NoMemory
            → IsRefusedOver self.old.loaded.value.view dropped.now created.now refusal) }
        ensures same { OnErr result ((self.new.epoch ≡ self.old.epoch) × (self.new.loaded ≡ self.old.loaded)) }
    {
        if self.epoch == u64::MAX {
            return Err(Refusal::EpochFull);
        }
        self.begin_epoch(rt, dropped, created)
    }

    /// Ends the manager. The commits of its epoch are left, over the tables that the epoch began on. It takes no
    /// memory.
    pub fn close(self) -> History<N>
        ensures whose { (result.id ≡ self.id) × (result.epoch ≡ self.epoch) }
        ensures loaded { result.loaded ≡ self.loaded }
    {
        let Manager {
            shelf,
            id,
            limits: _,
            epoch,
            loaded,
            book,
        } = self;
        History::new(shelf, id, epoch, loaded, book.into_inner())
    }
}

impl<N: Named> Manager<N> {
    /// Begins the next epoch, for which there is a number.
    fn begin_epoch<R: Wait>(
        &mut self,
        rt: &R,
        dropped: &[Text],
        created: &[NewAssertion],
    ) -> Result<History<N>, Refusal>
        requires room { self.old.epoch < 18446744073709551615 }
        ensures id { self.new.id ≡ self.old.id }
        ensures epoch { IfOk result (λ _. self.new.epoch ≡ self.old.epoch + 1) }
        ensures whose { IfOk result (λ history. (history.id ≡ self.old.id) × (history.epoch ≡ self.old.epoch)) }
        ensures loaded { IfOk result (λ history. history.loaded ≡ self.old.loaded) }
        ensures start { IfOk result (λ history.
            next_start dropped.now created.now
            (tables_left history.book history.id history.epoch history.loaded) ≡ Ok self.new.loaded.value.view) }
        ensures refused { IfErr result (λ refusal. refusal ≢ NoMemory
            → IsRefusedOver self.old.loaded.value.view dropped.now created.now refusal) }
        ensures same { OnErr result ((self.new.epoch ≡ self.old.epoch) × (self.new.loaded ≡ self.old.loaded)) }
    {
        let shelf = match Arc::try_clone(&self.shelf) {
            Ok(shelf) => shelf,
            Err(_) => return Err(Refusal::NoMemory),
        };
        let (id, epoch) = (self.id, self.epoch);
        let book = self.book.get_mut();
        // What is under a lock is known by its type alone, and so it is looked at whose Book this is. No call brings it
        // about that it is another's; the next epoch then begins on the tables that this one began on.
        let made = if book.is_from(id, epoch, &self.loaded) {
            book.checkpoint(rt, &shelf, id, epoch, &self.loaded, dropped, created)
        } else {
            let begun = &shelf.item(&self.loaded).view;
            match readmit(book.allocator(), begun, dropped, created) {
                Ok(start) => book.replace(rt, &shelf, id, epoch + 1, start, &self.limits),
                Err(refusal) => Err(refusal),
            }
        };
        // (a `match` in place of `?`, whose conversion of the refusal a clause would have to see through)
        let (before, start) = match made {
            Ok(made) => made,
            Err(refusal) => return Err(refusal),
        };
        // (what is known of the manager speaks of its epoch and tables together: no call stands between the two)
        self.epoch = epoch + 1;
        let loaded = mem::replace(&mut self.loaded, start);
        Ok(History::new(shelf, id, epoch, loaded, before))
    }
}
