//! What lies under the lock.

ghost use Rattle.std.specs.Prelude.{◌≡◌, ◌≢◌, ◌≤◌, ◌<◌, ◌+◌, ◌-◌, ◌∷◌, [], ℕ, length, true, false, Ok, Err, Some, None, Contains, IfOk, IfErr, OnErr, OnOk, slice_get};
ghost use Rattle.value.specs.declared.refusals.Refusal.TheVariants.{NoMemory, Stranger, TooManySessions};
ghost use Rattle.value.specs.Ordered.{HoldsOf};
ghost use Rattle.value.specs.Results.{if_holds};
ghost use Rattle.boxcar.specs.Table.{Shows};
ghost use Rattle.alone.specs.Alone.{IsSound};
ghost use Rattle.alone.specs.Modes.{assertion_of};
ghost use Rattle.alone.specs.Commits.{IsLog};
ghost use Rattle.alone.specs.Epoch.{state_of};
ghost use Rattle.conflict.specs.Live.{has_begin_number};
ghost use Rattle.txn.specs.Transactions.{outcome_of, reads_only, transaction_at_begin, truth_of};
ghost use Rattle.commit.specs.Cores.{IsCommitAnswer, IsLive, IsSerializable, log_of, newest_tables, record_of};
ghost use Rattle.commit.specs.Epochs.{IsNextEpoch, next_start, start_of};
ghost use Rattle.commit.specs.Runs.{empty_core};
ghost use Rattle.session.specs.Books.{AreReceipts, IsBook, IsFresh, IsFrom, IsKept, IsKnown, IsOf, IsOver, IsOwned, IsTicketed, IsToken, after_begin, after_commit, is_from, is_index, is_kept, is_of, is_own, knows, owns, owns_txn};
ghost use Rattle.session.specs.Answers.{AreShownBy, IsNotCommitted, IsReason, IsRefusedOver, IsSatisfied, IsStanding, IsUnbegun, IsUnkept, after_rollback, only, party_receipt, receipt_at, shown_among, shown_unless, with_ticket};

use crate::items::Item;
use crate::limits::Limits;
use crate::making::{Asker, CopiedTransaction, Unjournaled, append};
use crate::named::Named;
use crate::receipts::Receipt;
use crate::sessions::Session;
use crate::shelf::{Shelf, Token};
use crate::tickets::{ClosedTransaction, CommitFault, Ticket, Txn};
use alone::Record;
use commit::{CommitFailure, Core, Keeper, readmit};
use conflict::LiveSnapshot;
use definitions::NewAssertion;
use delta::View;
use std::alloc::{AllocError, Global};
use std::marker::{Model, PhantomData};
use std::mem;
use std::sync::Wait;
use txn::{Access, verdict_on};
use value::{Party, Refusal, Text, Truth};

/// What lies under a manager's lock: the commits, whose they are, a token of the shelf for each number, and how many
/// sessions were handed out.
#[derive(Drop)]
pub struct Book<N: Named> {
    core: Core,
    id: u64,
    epoch: u64,
    tokens: Vec<Token>,
    handed: u64,
    most: u64,
    of: PhantomData<N>,
}

impl<N: Named> Model for Book<N> {
    ghost use Rattle.table.specs.contracts.conds.Cond as cond_type;
    ghost use Rattle.table.specs.contracts.exprs.Expr as expr_type;
    ghost use Rattle.std.specs.Coded.{codes};
    ghost use Rattle.session.specs.Books.{BookState, IsBook};

    ghost Value = { BookState };

    ghost coded = { Prim.hlevel (codes, cond_type.the_row.coded, expr_type.the_row.coded) };

    ghost view = { λ b. record {
      core = b.core;
      id = b.id;
      epoch = b.epoch;
      tokens = b.tokens.items;
      handed = b.handed;
      most = b.most;
    } };

    ghost invariant = { λ b. IsBook (N.shelf b.id) (N.limits b.id) (record {
      core = b.core;
      id = b.id;
      epoch = b.epoch;
      tokens = b.tokens.items;
      handed = b.handed;
      most = b.most;
    }) };
}

impl<N: Named> Book<N> {
    /// No commit yet, over tables on which no assertion is false, with the token of these tables; at most so many
    /// commits and sessions.
    pub(crate) fn open<R: Wait>(
        rt: &R,
        alloc: Global,
        shelf: &Shelf,
        id: u64,
        epoch: u64,
        loaded: View,
        commits: u32,
        most: u64,
    ) -> Result<(Book<N>, Token), AllocError>
        requires shelf { shelf.now ≡ N.shelf id }
        requires limits { record { commits = commits; sessions = most } ≡ N.limits id }
        requires sound { IsSound loaded.declared loaded.state }
        ensures whose { IfOk result (λ opened. (opened.0.id ≡ id) × (opened.0.epoch ≡ epoch)) }
        ensures core { IfOk result (λ opened. opened.0.core ≡ empty_core commits loaded) }
        ensures handed { IfOk result (λ opened. (opened.0.handed ≡ 0) × (opened.0.most ≡ most)) }
        ensures token { IfOk result (λ opened. opened.0.tokens ≡ opened.1 ∷ []) }
        ensures shown { IfOk result (λ opened. Shows shelf.now opened.1) }
        ensures loaded { IfOk result (λ opened. opened.1.value.view ≡ loaded) }
    {
        let view = loaded.copy()?;
        let core = Core::new(alloc, commits, loaded)?;
        let mut tokens = Vec::with_capacity(alloc, 1)?;
        let token = shelf.put(rt, first_item(epoch, view))?;
        tokens.push_reserved(token.again());
        let book = Book {
            core,
            id,
            epoch,
            tokens,
            handed: 0,
            most,
            of: PhantomData,
        };
        Ok((book, token))
    }

    /// Hands out one more session.
    ///
    /// # Errors
    ///
    /// [`Refusal::TooManySessions`] where as many were handed out as the limit says. All is then as it was.
    pub fn session(&mut self, id: u64, epoch: u64, name: Text) -> Result<Session<N>, Refusal>
        ensures session { IfOk result (λ session. session ≡ record { id = id; epoch = epoch; name = name; seen = 0 }) }
        ensures handed { IfOk result (λ _. self.old.handed < self.old.most) }
        ensures after { IfOk result (λ _. self.new ≡ record self.old { handed = self.old.handed + 1 }) }
        ensures full { IfErr result (λ refusal. (refusal ≡ TooManySessions) × (self.old.handed ≡ self.old.most)) }
        ensures same { IfErr result (λ _. self.new ≡ self.old) }
    {
        if self.handed >= self.most {
            return Err(Refusal::TooManySessions);
        }
        self.handed += 1;
        Ok(Session::new(id, epoch, name))
    }

    /// A transaction begins on the newest tables.
    ///
    /// # Errors
    ///
    /// [`Refusal::Stranger`] exactly where the Book or the session is not of the manager that asks, or the session
    /// has seen a number above the Book's; [`Refusal::EpochFull`] where 2^64 - 1 transactions have begun in the epoch;
    /// or [`Refusal::NoMemory`]. All is then as it was.
    #[tactic(auto, using(crate::proofs::Tokens::begun_fresh))]
    pub fn begin(
        &mut self,
        id: u64,
        epoch: u64,
        session: &mut Session<N>,
        access: Access,
    ) -> Result<Txn<N>, Refusal>
        ensures known { IfOk result (λ _. knows self.old session.old id epoch ≡ true) }
        ensures begun { IfOk result (λ txn.
            txn.inner
            ≡ transaction_at_begin self.old.core.live.begun (length self.old.core.records) (reads_only access)
            (newest_tables self.old.core)) }
        ensures whose { IfOk result (λ txn. (txn.ticket.id ≡ id) × (txn.ticket.epoch ≡ epoch)) }
        ensures token { IfOk result (λ txn. slice_get self.old.tokens txn.inner.snapshot ≡ Some txn.ticket.token) }
        ensures item { IfOk result (λ txn. txn.ticket.token.value.number ≡ txn.inner.snapshot) }
        ensures empty { IfOk result (IsFresh (N.shelf id) id epoch (reads_only access)) }
        ensures fresh { IfOk result (λ txn. session.old.seen ≤ txn.inner.snapshot) }
        ensures after { IfOk result (λ _. self.new ≡ after_begin (reads_only access) self.old) }
        ensures seen { IfOk result (λ txn. session.new ≡ record session.old { seen = txn.inner.snapshot }) }
        ensures unbegun { IfErr result (IsUnbegun (knows self.old session.old id epoch)
            (has_begin_number self.old.core.live)) }
        ensures same { IfErr result (λ _. (self.new ≡ self.old) × (session.new ≡ session.old)) }
    {
        if !self.knows(session, id, epoch) {
            return Err(Refusal::Stranger);
        }
        let token = self.newest_token();
        let inner = self.core.begin(access)?;
        session.note_seen(inner.snapshot());
        Ok(Txn::new(inner, Ticket::new(id, epoch, token)))
    }

    /// COMMIT of a transaction of the session. It is the next commit, with a record on the shelf, or is answered as
    /// the commits before it decide.
    ///
    /// # Errors
    ///
    /// [`Refusal::Stranger`] exactly where the Book, the session or the transaction is not of the manager that asks,
    /// or the session has seen a number above the Book's; or [`Refusal::NoMemory`]: then all is as it was, and the
    /// transaction is given back. Else those of `commit::Core::commit`, which end the transaction, with receipts that
    /// show why.
    pub fn commit<R: Wait>(
        &mut self,
        rt: &R,
        shelf: &Shelf,
        id: u64,
        epoch: u64,
        session: &mut Session<N>,
        closed: ClosedTransaction<N>,
    ) -> Result<Receipt<N>, CommitFault<N>>
        requires shelf { shelf.now ≡ N.shelf id }
        ensures own { IfOk result (λ _. is_own self.old session.old closed id epoch ≡ true) }
        ensures answer { IfOk result (λ receipt.
            IsCommitAnswer self.old.core session.old.name closed.inner (Ok receipt.number)) }
        ensures whose { IfOk result (λ receipt. (receipt.id ≡ id) × (receipt.epoch ≡ epoch)) }
        ensures commit { IfOk result (λ receipt.
            receipt.token.value.commit ≡ Some (record_of self.old.core session.old.name closed.inner)) }
        ensures newer { IfOk result (λ receipt. session.old.seen < receipt.number) }
        ensures after { IfOk result (λ receipt.
            self.new ≡ after_commit self.old session.old.name closed.inner receipt.token) }
        ensures seen { IfOk result (λ receipt. session.new ≡ record session.old { seen = receipt.number }) }
        ensures refused { IfErr result (λ fault.
            IsNotCommitted self.old (is_own self.old session.old closed id epoch) session.old.name closed
            fault.refusal fault.txn fault.shown self.new) }
        ensures reason { IfErr result (λ fault.
            IsReason (N.limits id).commits session.old.name closed.inner fault.refusal fault.shown) }
        ensures shown { IfErr result (λ fault. AreShownBy id epoch fault.shown) }
        ensures same { IfErr result (λ _. session.new ≡ session.old) }
    {
        let asker = Asker {
            rt,
            shelf,
            id,
            epoch,
        };
        self.commit_kept(&asker, session, closed, &mut Unjournaled)
    }

    /// COMMIT as [`Book::commit`] answers it, but a commit that is accepted counts only once it is kept. Its tables can
    /// be begun on from then on, and not before.
    ///
    /// # Errors
    ///
    /// Those of [`Book::commit`], of which nobody was asked to keep anything; and [`Refusal::NoMemory`] where it is
    /// accepted and could not be kept, as who keeps the commits can tell: then all is as it was, and the transaction is
    /// given back.
    pub fn commit_kept<R: Wait, K: Keeper>(
        &mut self,
        asker: &Asker<'_, R>,
        session: &mut Session<N>,
        closed: ClosedTransaction<N>,
        keeper: &mut K,
    ) -> Result<Receipt<N>, CommitFault<N>>
        requires shelf { asker.now.shelf.now ≡ N.shelf asker.now.id }
        requires expected { K.expects keeper.old (length self.old.core.records + 1) }
        ensures own { IfOk result (λ _. is_own self.old session.old closed asker.now.id asker.now.epoch ≡ true) }
        ensures answer { IfOk result (λ receipt.
            IsCommitAnswer self.old.core session.old.name closed.inner (Ok receipt.number)) }
        ensures whose { IfOk result (λ receipt. (receipt.id ≡ asker.now.id) × (receipt.epoch ≡ asker.now.epoch)) }
        ensures commit { IfOk result (λ receipt.
            receipt.token.value.commit ≡ Some (record_of self.old.core session.old.name closed.inner)) }
        ensures newer { IfOk result (λ receipt. session.old.seen < receipt.number) }
        ensures after { IfOk result (λ receipt.
            self.new ≡ after_commit self.old session.old.name closed.inner receipt.token) }
        ensures seen { IfOk result (λ receipt. session.new ≡ record session.old { seen = receipt.number }) }
        ensures refused { IfErr result (λ fault.
            IsNotCommitted self.old (is_own self.old session.old closed asker.now.id asker.now.epoch)
            session.old.name closed fault.refusal fault.txn fault.shown self.new) }
        ensures reason { IfErr result (λ fault.
            IsReason (N.limits asker.now.id).commits session.old.name closed.inner fault.refusal fault.shown) }
        ensures shown { IfErr result (λ fault. AreShownBy asker.now.id asker.now.epoch fault.shown) }
        ensures same { IfErr result (λ _. session.new ≡ session.old) }
        ensures kept { IfOk result (λ receipt.
            K.did_keep keeper.old keeper.new receipt.number (outcome_of closed.inner).changes true) }
        ensures unkept { IfErr result (λ fault.
            IsUnkept K.did_keep keeper.old keeper.new (outcome_of closed.inner).changes fault.refusal) }
    {
        let Asker {
            shelf,
            id,
            epoch,
            ..
        } = *asker;
        let one = live_snapshot(closed.inner.txn());
        if !self.knows(session, id, epoch) || !self.owns(&closed.ticket, one, id, epoch) {
            return Err(give_back(Refusal::Stranger, closed.reopen()));
        }
        self.settle(shelf, &closed.ticket, one, id, epoch);
        self.commit_own(asker, session, closed, keeper)
    }

    /// ROLLBACK: the transaction has ended, and nothing of it is kept. Who holds it abandons it, behind the lock. It
    /// takes no memory.
    ///
    /// # Errors
    ///
    /// [`Refusal::Stranger`] exactly where the Book or the transaction is not of the manager that asks. All is then
    /// as it was.
    pub fn rollback(
        &mut self,
        shelf: &Shelf,
        id: u64,
        epoch: u64,
        txn: &Txn<N>,
    ) -> Result<(), Refusal>
        requires shelf { shelf.now ≡ N.shelf id }
        ensures own { OnOk result (owns_txn self.old txn.now id epoch ≡ true) }
        ensures after { OnOk result (self.new ≡ after_rollback self.old txn.now.inner) }
        ensures stranger { IfErr result (λ refusal.
            (refusal ≡ Stranger) × (owns_txn self.old txn.now id epoch ≡ false)) }
        ensures same { IfErr result (λ _. self.new ≡ self.old) }
    {
        let one = live_snapshot(&txn.inner);
        if !self.owns(&txn.ticket, one, id, epoch) {
            return Err(Refusal::Stranger);
        }
        self.settle(shelf, &txn.ticket, one, id, epoch);
        self.core.end(&txn.inner);
        Ok(())
    }

    /// The truth of the assertion of a name on the newest tables; none where no assertion has it. It takes no memory.
    pub fn verdict(&self, name: &Text) -> Option<Truth>
        ensures { result
            ≡ truth_of (newest_tables self.now.core) (assertion_of name.now self.now.core.declared.assertions) }
    {
        self.core.verdict(name)
    }

    /// The same of a Book that began on the tables of a token of this shelf; of any other the truth on those tables.
    pub(crate) fn standing(
        &self,
        shelf: &Shelf,
        id: u64,
        epoch: u64,
        loaded: &Token,
        name: &Text,
    ) -> Option<Truth>
        requires shelf { shelf.now ≡ N.shelf id }
        requires shown { Shows (N.shelf id) loaded.now }
        requires good { IsSatisfied loaded.now.value.view }
        ensures { IsStanding (assertion_of name.now loaded.now.value.view.declared.assertions) result }
    {
        if !self.is_from(id, epoch, loaded) {
            return verdict_on(&shelf.item(loaded).view, name);
        }
        self.recall_loaded(shelf, id, epoch, loaded);
        self.core.recall_log();
        self.core.recall_serializability();
        self.core.verdict(name)
    }

    /// Begins the next epoch of a Book that is of this id and epoch, and was opened with this token: on its newest
    /// tables, without the assertions of some names and with new ones, and with no commit and no session yet. The Book
    /// as it was is handed out, with the token of the tables that the new epoch begins on. What it gave out is a
    /// stranger's from now on.
    ///
    /// # Errors
    ///
    /// [`Refusal::Stranger`] exactly where it is another Book; then those of `commit::readmit`. All is then as it was.
    pub fn checkpoint<R: Wait>(
        &mut self,
        rt: &R,
        shelf: &Shelf,
        id: u64,
        epoch: u64,
        loaded: &Token,
        dropped: &[Text],
        created: &[NewAssertion],
    ) -> Result<(Book<N>, Token), Refusal>
        requires shelf { shelf.now ≡ N.shelf id }
        requires shown { Shows (N.shelf id) loaded.now }
        requires room { epoch < 18446744073709551615 }
        ensures before { IfOk result (λ made. made.0 ≡ self.old) }
        ensures from { IfOk result (λ _. is_from self.old id epoch loaded.now ≡ true) }
        ensures core { IfOk result (λ _. IsNextEpoch dropped.now created.now self.old.core self.new.core) }
        ensures whose { IfOk result (λ _. (self.new.id ≡ id) × (self.new.epoch ≡ epoch + 1)) }
        ensures handed { IfOk result (λ _. (self.new.handed ≡ 0) × (self.new.most ≡ self.old.most)) }
        ensures token { IfOk result (λ made. self.new.tokens ≡ made.1 ∷ []) }
        ensures shown { IfOk result (λ made. Shows (N.shelf id) made.1) }
        ensures start { IfOk result (λ made. made.1.value.view ≡ start_of self.new.core) }
        ensures good { IfOk result (λ made. IsSatisfied made.1.value.view) }
        ensures refused { IfErr result (λ refusal. refusal ≢ NoMemory
            → if_holds (is_from self.old id epoch loaded.now) Stranger
            (next_start dropped.now created.now (newest_tables self.old.core)) ≡ Err refusal) }
        ensures over { IfErr result (λ refusal. refusal ≢ NoMemory
            → is_from self.old id epoch loaded.now ≡ true
            → IsRefusedOver loaded.now.value.view dropped.now created.now refusal) }
        ensures same { OnErr result (self.new ≡ self.old) }
    {
        match self.next(rt, shelf, id, epoch, loaded, dropped, created) {
            Ok((next, token)) => Ok((mem::replace(self, next), token)),
            Err(refusal) => Err(refusal),
        }
    }

    /// Opens the Book of an epoch over tables on which no assertion is false, in the place of this one, which is handed
    /// out with the token of the tables. What this one gave out is a stranger's from now on.
    ///
    /// # Errors
    ///
    /// [`Refusal::NoMemory`]. All is then as it was.
    pub(crate) fn replace<R: Wait>(
        &mut self,
        rt: &R,
        shelf: &Shelf,
        id: u64,
        epoch: u64,
        start: View,
        limits: &Limits,
    ) -> Result<(Book<N>, Token), Refusal>
        requires shelf { shelf.now ≡ N.shelf id }
        requires limits { limits.now ≡ N.limits id }
        requires sound { IsSound start.declared start.state }
        ensures before { IfOk result (λ made. made.0 ≡ self.old) }
        ensures shown { IfOk result (λ made. Shows (N.shelf id) made.1) }
        ensures start { IfOk result (λ made. made.1.value.view ≡ start) }
        ensures refused { IfErr result (λ refusal. refusal ≡ NoMemory) }
        ensures same { OnErr result (self.new ≡ self.old) }
    {
        let alloc = self.allocator();
        let (commits, sessions) = (limits.commits(), limits.sessions());
        let (book, token) = Book::open(rt, alloc, shelf, id, epoch, start, commits, sessions)?;
        Ok((mem::replace(self, book), token))
    }

    /// The commits, of which there are at most as many as the limit says.
    pub fn core(&self) -> &Core
        ensures core { result.now ≡ self.now.core }
        ensures book { IsBook (N.shelf self.now.id) (N.limits self.now.id) self.now }
        ensures within { length self.now.core.records ≤ (N.limits self.now.id).commits }
    {
        self.core.recall_limit();
        &self.core
    }

    /// The committed transactions have a serial order, and no committed tables make an assertion false.
    pub fn recall_serializability(&self)
        ensures { IsSerializable self.now.core }
    {
        self.core.recall_serializability();
    }
}

impl<N: Named> Book<N> {
    /// The Book, and what was handed out by this id and epoch, are of the manager that asks.
    #[tactic(auto, using(crate::proofs::Known::of_facts))]
    fn is_of(&self, own_id: u64, own_epoch: u64, id: u64, epoch: u64) -> bool
        ensures test { result ≡ is_of self.now own_id own_epoch id epoch }
        ensures facts { result ≡ true → IsOf self.now own_id own_epoch id epoch }
    {
        // (nested to the right, as the definition is)
        self.id == id && (self.epoch == epoch && (own_id == id && own_epoch == epoch))
    }

    /// The session is of the manager that asks, and has seen no number above the Book's.
    #[tactic(auto, using(crate::proofs::Known::known_facts))]
    fn knows(&self, session: &Session<N>, id: u64, epoch: u64) -> bool
        ensures test { result ≡ knows self.now session.now id epoch }
        ensures facts { result ≡ true → IsKnown self.now session.now id epoch }
    {
        self.is_of(session.id, session.epoch, id, epoch)
            && session.seen <= self.core.records().len() as u64
    }

    /// The ticket is of the manager that asks, the transaction has not ended, and its token is the one that the Book
    /// has for its snapshot.
    #[tactic(auto, using(crate::proofs::Known::owned_facts))]
    fn owns(&self, ticket: &Ticket<N>, one: LiveSnapshot, id: u64, epoch: u64) -> bool
        ensures test { result ≡ owns self.now ticket.now one id epoch }
        ensures facts { result ≡ true → IsOwned self.now ticket.now one id epoch }
    {
        self.is_of(ticket.id, ticket.epoch, id, epoch)
            && (self
                .core
                .holds(one.begin_number, one.snapshot, one.read_only)
                && is_at(
                    self.tokens.as_slice(),
                    one.snapshot as usize,
                    ticket.token.index(),
                ))
    }

    /// The receipt is of the manager that asks, and its token is the one that the Book has for its number.
    #[tactic(auto, using(crate::proofs::Known::kept_facts))]
    pub(crate) fn keeps(&self, receipt: &Receipt<N>, id: u64, epoch: u64) -> bool
        ensures test { result ≡ is_kept self.now receipt.now id epoch }
        ensures facts { result ≡ true → IsKept self.now receipt.now id epoch }
    {
        self.is_of(receipt.id, receipt.epoch, id, epoch)
            && (0 < receipt.number
                && is_at(
                    self.tokens.as_slice(),
                    receipt.number as usize,
                    receipt.token.index(),
                ))
    }

    /// The Book is of this id and epoch, and was opened with this token.
    #[tactic(auto, using(crate::proofs::Known::from_facts))]
    pub(crate) fn is_from(&self, id: u64, epoch: u64, loaded: &Token) -> bool
        ensures test { result ≡ is_from self.now id epoch loaded.now }
        ensures facts { result ≡ true → IsFrom self.now id epoch loaded.now.index }
    {
        self.id == id && (self.epoch == epoch && is_at(self.tokens.as_slice(), 0, loaded.index()))
    }

    /// The Book with which the next epoch begins, and the token of its tables.
    fn next<R: Wait>(
        &self,
        rt: &R,
        shelf: &Shelf,
        id: u64,
        epoch: u64,
        loaded: &Token,
        dropped: &[Text],
        created: &[NewAssertion],
    ) -> Result<(Book<N>, Token), Refusal>
        requires shelf { shelf.now ≡ N.shelf id }
        requires shown { Shows (N.shelf id) loaded.now }
        requires room { epoch < 18446744073709551615 }
        ensures from { IfOk result (λ _. is_from self.now id epoch loaded.now ≡ true) }
        ensures core { IfOk result (λ made. IsNextEpoch dropped.now created.now self.now.core made.0.core) }
        ensures whose { IfOk result (λ made. (made.0.id ≡ id) × (made.0.epoch ≡ epoch + 1)) }
        ensures handed { IfOk result (λ made. (made.0.handed ≡ 0) × (made.0.most ≡ self.now.most)) }
        ensures token { IfOk result (λ made. made.0.tokens ≡ made.1 ∷ []) }
        ensures shown { IfOk result (λ made. Shows (N.shelf id) made.1) }
        ensures start { IfOk result (λ made. made.1.value.view ≡ start_of made.0.core) }
        ensures good { IfOk result (λ made. IsSatisfied made.1.value.view) }
        ensures refused { IfErr result (λ refusal. refusal ≢ NoMemory
            → if_holds (is_from self.now id epoch loaded.now) Stranger
            (next_start dropped.now created.now (newest_tables self.now.core)) ≡ Err refusal) }
        ensures over { IfErr result (λ refusal. refusal ≢ NoMemory
            → is_from self.now id epoch loaded.now ≡ true
            → IsRefusedOver loaded.now.value.view dropped.now created.now refusal) }
    {
        // (a `match` in place of `?`, whose conversion of the refusal a clause would have to see through)
        let start = match self.next_start(shelf, id, epoch, loaded, dropped, created) {
            Ok(start) => start,
            Err(refusal) => return Err(refusal),
        };
        let alloc = self.allocator();
        let (commits, most) = self.limits();
        Ok(Book::open(rt, alloc, shelf, id, epoch + 1, start, commits, most)?)
    }

    /// The tables with which the next epoch begins.
    fn next_start(
        &self,
        shelf: &Shelf,
        id: u64,
        epoch: u64,
        loaded: &Token,
        dropped: &[Text],
        created: &[NewAssertion],
    ) -> Result<View, Refusal>
        requires shelf { shelf.now ≡ N.shelf id }
        requires shown { Shows (N.shelf id) loaded.now }
        ensures from { IfOk result (λ _. is_from self.now id epoch loaded.now ≡ true) }
        ensures id { IfOk result (λ _. self.now.id ≡ id) }
        ensures start { IfOk result (λ start.
            next_start dropped.now created.now (newest_tables self.now.core) ≡ Ok start) }
        ensures sound { IfOk result (λ start. IsSound start.declared start.state) }
        ensures refused { IfErr result (λ refusal. refusal ≢ NoMemory
            → if_holds (is_from self.now id epoch loaded.now) Stranger
            (next_start dropped.now created.now (newest_tables self.now.core)) ≡ Err refusal) }
        ensures over { IfErr result (λ refusal. refusal ≢ NoMemory
            → is_from self.now id epoch loaded.now ≡ true
            → IsRefusedOver loaded.now.value.view dropped.now created.now refusal) }
    {
        if !self.is_from(id, epoch, loaded) {
            return Err(Refusal::Stranger);
        }
        self.recall_loaded(shelf, id, epoch, loaded);
        let alloc = self.allocator();
        readmit(alloc, self.core.newest(), dropped, created)
    }

    pub(crate) fn allocator(&self) -> Global {
        *self.tokens.allocator()
    }

    /// The most commits and the most sessions that there may be.
    fn limits(&self) -> (u32, u64)
        ensures commits { result.0 ≡ self.now.core.limit }
        ensures most { result.1 ≡ self.now.most }
        ensures of { record { commits = result.0; sessions = result.1 } ≡ N.limits self.now.id }
    {
        (self.core.limit(), self.most)
    }

    /// How many commits there are.
    fn count(&self) -> u64
        ensures count { result ≡ length self.now.core.records }
        ensures log { IsLog (log_of self.now.core) }
        ensures within { length self.now.core.records ≤ self.now.core.limit }
        ensures book { IsBook (N.shelf self.now.id) (N.limits self.now.id) self.now }
    {
        self.core.recall_log();
        self.core.recall_limit();
        self.core.records().len() as u64
    }

    /// The token of a number.
    fn token_of(&self, number: u64) -> Token
        requires { number < length self.now.tokens }
        ensures at { slice_get self.now.tokens number ≡ Some result }
        ensures is { let core = self.now.core in
            IsToken (N.shelf self.now.id) self.now.epoch core.declared core.start core.records number result }
        ensures count { length self.now.tokens ≡ length self.now.core.records + 1 }
    {
        token_at(self.tokens.as_slice(), number as usize)
    }

    /// The token of the newest number, which shows the newest tables.
    fn newest_token(&self) -> Token
        ensures at { slice_get self.now.tokens (length self.now.core.records) ≡ Some result }
        ensures shown { Shows (N.shelf self.now.id) result }
        ensures number { result.value.number ≡ length self.now.core.records }
        ensures epoch { result.value.epoch ≡ self.now.epoch }
        ensures view { result.value.view ≡ newest_tables self.now.core }
        ensures idle { self.now.core.prepared ≡ None }
    {
        self.core.recall_log();
        token_at(self.tokens.as_slice(), self.core.records().len())
    }

    /// COMMIT of a transaction that is known, which counts only once it is kept.
    fn commit_own<R: Wait, K: Keeper>(
        &mut self,
        asker: &Asker<'_, R>,
        session: &mut Session<N>,
        closed: ClosedTransaction<N>,
        keeper: &mut K,
    ) -> Result<Receipt<N>, CommitFault<N>>
        requires shelf { asker.now.shelf.now ≡ N.shelf asker.now.id }
        requires id { self.old.id ≡ asker.now.id }
        requires epoch { self.old.epoch ≡ asker.now.epoch }
        requires seen { session.old.seen ≤ length self.old.core.records }
        requires live { IsLive self.old.core closed.inner }
        requires expected { K.expects keeper.old (length self.old.core.records + 1) }
        ensures answer { IfOk result (λ receipt.
            IsCommitAnswer self.old.core session.old.name closed.inner (Ok receipt.number)) }
        ensures whose { IfOk result (λ receipt. (receipt.id ≡ asker.now.id) × (receipt.epoch ≡ asker.now.epoch)) }
        ensures commit { IfOk result (λ receipt.
            receipt.token.value.commit ≡ Some (record_of self.old.core session.old.name closed.inner)) }
        ensures newer { IfOk result (λ receipt. session.old.seen < receipt.number) }
        ensures after { IfOk result (λ receipt.
            self.new ≡ after_commit self.old session.old.name closed.inner receipt.token) }
        ensures seen { IfOk result (λ receipt. session.new ≡ record session.old { seen = receipt.number }) }
        ensures refused { IfErr result (λ fault.
            IsNotCommitted self.old true session.old.name closed fault.refusal fault.txn fault.shown self.new) }
        ensures reason { IfErr result (λ fault.
            IsReason (N.limits asker.now.id).commits session.old.name closed.inner fault.refusal fault.shown) }
        ensures shown { IfErr result (λ fault. AreShownBy asker.now.id asker.now.epoch fault.shown) }
        ensures same { IfErr result (λ _. session.new ≡ session.old) }
        ensures kept { IfOk result (λ receipt.
            K.did_keep keeper.old keeper.new receipt.number (outcome_of closed.inner).changes true) }
        ensures unkept { IfErr result (λ fault.
            IsUnkept K.did_keep keeper.old keeper.new (outcome_of closed.inner).changes fault.refusal) }
    {
        let Asker { id, epoch, .. } = *asker;
        let count = self.count();
        let ClosedTransaction {
            inner,
            ticket,
            copy,
        } = closed;
        let own = CopiedTransaction {
            closed: inner,
            copy,
        };
        let made = match append(
            asker,
            &mut self.core,
            &mut self.tokens,
            session,
            own,
            keeper,
        ) {
            Ok(made) => made,
            Err(fault) => {
                return Err(refuse_commit(
                    self.tokens.as_slice(),
                    self.id,
                    self.epoch,
                    count,
                    ticket,
                    fault,
                ));
            }
        };
        session.note_seen(made.number);
        Ok(Receipt::new(id, epoch, made.number, made.token))
    }

    /// A ticket whose index is that of the Book's own token shows the tables of its snapshot.
    fn settle(&self, shelf: &Shelf, ticket: &Ticket<N>, one: LiveSnapshot, id: u64, epoch: u64)
        requires shelf { shelf.now ≡ N.shelf id }
        requires owned { IsOwned self.now ticket.now one id epoch }
        ensures id { self.now.id ≡ id }
        ensures epoch { self.now.epoch ≡ epoch }
        ensures idle { self.now.core.prepared ≡ None }
        ensures held { Contains self.now.core.live.snapshots one }
        ensures within { one.snapshot ≤ length self.now.core.records }
        ensures view { ticket.now.token.value.view
            ≡ record {
              declared = self.now.core.declared;
              state = state_of self.now.core.declared self.now.core.start (log_of self.now.core) one.snapshot;
            } }
    {
        // (what holds of every book is known where a field of it is read)
        let _ = &self.core;
        let mine = self.token_of(one.snapshot);
        shelf.recall_agreement(&mine, &ticket.token);
    }

    /// A token whose index is that of the Book's first shows the tables before the first commit.
    pub(crate) fn recall_loaded(&self, shelf: &Shelf, id: u64, epoch: u64, loaded: &Token)
        requires shelf { shelf.now ≡ N.shelf id }
        requires shown { Shows (N.shelf id) loaded.now }
        requires from { IsFrom self.now id epoch loaded.now.index }
        ensures { IsOver self.now.core loaded.now.value.view (N.limits id).commits }
    {
        let _count = self.count();
        let mine = self.token_of(0);
        shelf.recall_agreement(&mine, loaded);
    }

    /// The record of a receipt, which the Book keeps.
    pub(crate) fn find_record(
        &self,
        shelf: &Shelf,
        receipt: &Receipt<N>,
        id: u64,
        epoch: u64,
    ) -> &Record
        requires shelf { shelf.now ≡ N.shelf id }
        requires kept { IsKept self.now receipt.now id epoch }
        ensures very { receipt.now.token.value.commit ≡ Some result.now }
        ensures at { slice_get self.now.core.records (receipt.now.number - 1) ≡ Some result.now }
    {
        let mine = self.token_of(receipt.number);
        shelf.recall_agreement(&mine, &receipt.token);
        record_at(self.core.records(), receipt.number)
    }
}

/// By what the core knows an open transaction.
fn live_snapshot(txn: &txn::Txn) -> LiveSnapshot
    ensures { result ≡ record {
      begin_number = txn.now.begin_number;
      snapshot = txn.now.snapshot;
      read_only = txn.now.read_only;
    } }
{
    LiveSnapshot {
        begin_number: txn.begin_number(),
        snapshot: txn.snapshot(),
        read_only: txn.is_read_only(),
    }
}

/// What stands on the shelf before the first commit.
fn first_item(epoch: u64, view: View) -> Item
    ensures { result ≡ record { epoch = epoch; number = 0; commit = None; view = view } }
{
    Item {
        epoch,
        number: 0,
        commit: None,
        view,
    }
}

fn record_at(records: &[Record], number: u64) -> &Record
    requires { (0 < number) × (number < length records.now + 1) }
    ensures { slice_get records.now (number - 1) ≡ Some result.now }
{
    &records[(number - 1) as usize]
}

fn is_at(tokens: &[Token], number: usize, index: usize) -> bool
    ensures { result ≡ is_index index (slice_get tokens.now number) }
{
    match tokens.get(number) {
        Some(token) => token.index() == index,
        None => false,
    }
}

fn token_at(tokens: &[Token], number: usize) -> Token
    requires { number < length tokens.now }
    ensures { slice_get tokens.now number ≡ Some result }
{
    tokens[number].again()
}

fn find_token(tokens: &[Token], number: usize) -> Option<Token>
    ensures { result ≡ slice_get tokens.now number }
{
    match tokens.get(number) {
        Some(token) => Some(token.again()),
        None => None,
    }
}

/// A transaction that was not committed, given back.
#[tactic(auto, using(crate::proofs::Known::none_by))]
fn give_back<N: Named>(refusal: Refusal, txn: Txn<N>) -> CommitFault<N>
    ensures refusal { result.refusal ≡ refusal }
    ensures txn { result.txn ≡ Some txn }
    ensures shown { result.shown ≡ only None }
    ensures none { (id epoch : ℕ) → AreShownBy id epoch result.shown }
{
    CommitFault {
        refusal,
        txn: Some(txn),
        shown: [None, None, None],
    }
}

/// A commit that was not made, with the ticket of its transaction, or the receipts that show why.
#[tactic(auto, using(crate::proofs::Known::shown_by))]
fn refuse_commit<N: Named>(
    tokens: &[Token],
    id: u64,
    epoch: u64,
    count: u64,
    ticket: Ticket<N>,
    fault: CommitFailure,
) -> CommitFault<N>
    requires receipts { AreReceipts (N.shelf id) epoch tokens.now }
    requires ticketed { HoldsOf (λ t. IsTicketed (record { inner = t; ticket = ticket })) fault.txn }
    ensures refusal { result.refusal ≡ fault.refusal }
    ensures txn { result.txn ≡ with_ticket ticket fault.txn }
    ensures shown { result.shown ≡ shown_unless fault.txn (shown_among tokens.now id epoch count fault.refusal) }
    ensures by { AreShownBy id epoch result.shown }
{
    let CommitFailure { refusal, txn } = fault;
    match txn {
        Some(inner) => give_back(refusal, Txn::new(inner, ticket)),
        None => refuse_and_end(tokens, id, epoch, count, refusal),
    }
}

/// A transaction that was not committed, and has ended.
fn refuse_and_end<N: Named>(
    tokens: &[Token],
    id: u64,
    epoch: u64,
    count: u64,
    refusal: Refusal,
) -> CommitFault<N>
    requires { AreReceipts (N.shelf id) epoch tokens.now }
    ensures refusal { result.refusal ≡ refusal }
    ensures txn { result.txn ≡ None }
    ensures shown { result.shown ≡ shown_among tokens.now id epoch count refusal }
{
    let shown = show_receipts(tokens, id, epoch, count, &refusal);
    CommitFault {
        refusal,
        txn: None,
        shown,
    }
}

/// The receipts that a refusal shows.
fn show_receipts<N: Named>(
    tokens: &[Token],
    id: u64,
    epoch: u64,
    count: u64,
    refusal: &Refusal,
) -> [Option<Receipt<N>>; 3]
    requires { AreReceipts (N.shelf id) epoch tokens.now }
    ensures { result ≡ shown_among tokens.now id epoch count refusal.now }
{
    match refusal {
        Refusal::WriteConflict {
            table: _,
            key: _,
            by,
        } => [receipt_at(tokens, id, epoch, *by), None, None],
        Refusal::Dangerous {
            reader,
            pivot,
            writer,
        } => [
            show_party(tokens, id, epoch, *reader),
            show_party(tokens, id, epoch, *pivot),
            show_party(tokens, id, epoch, *writer),
        ],
        Refusal::EpochFull => [receipt_at(tokens, id, epoch, count), None, None],
        _ => [None, None, None],
    }
}

/// The receipt of a party of a dangerous triple; none of the transaction that is refused.
fn show_party<N: Named>(tokens: &[Token], id: u64, epoch: u64, party: Party) -> Option<Receipt<N>>
    requires { AreReceipts (N.shelf id) epoch tokens.now }
    ensures { result ≡ party_receipt tokens.now id epoch party }
{
    match party {
        Party::This => None,
        Party::Number(number) => receipt_at(tokens, id, epoch, number),
    }
}

/// The receipt of a number, if there is a token for it.
fn receipt_at<N: Named>(tokens: &[Token], id: u64, epoch: u64, number: u64) -> Option<Receipt<N>>
    requires { AreReceipts (N.shelf id) epoch tokens.now }
    ensures { result ≡ receipt_at tokens.now id epoch number }
{
    match find_token(tokens, number as usize) {
        Some(token) => Some(Receipt::new(id, epoch, number, token)),
        None => None,
    }
}
