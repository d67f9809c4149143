//! What an epoch of a manager leaves.

ghost use Rattle.std.specs.Prelude.{◌≡◌, ◌<◌, ◌-◌, true, false, is_some, Some, IfOk, IfErr, IfSome, slice_get};
ghost use Rattle.std.specs.Arc.{arc_value};
ghost use Rattle.value.specs.declared.refusals.Refusal.TheVariants.{Stranger};
ghost use Rattle.boxcar.specs.Table.{Shows};
ghost use Rattle.commit.specs.Cores.{IsSerializable};
ghost use Rattle.session.specs.Books.{IsOver, is_from, is_kept};

use crate::book::Book;
use crate::named::Named;
use crate::receipts::Receipt;
use crate::shelf::{Shelf, Token};
use alone::Record;
use commit::Core;
use delta::View;
use std::sync::Arc;
use value::Refusal;

/// The commits of an epoch that has ended, with the tokens that were given for them.
#[derive(Drop)]
pub struct History<N: Named> {
    shelf: Arc<Shelf>,
    id: u64,
    epoch: u64,
    /// The token of the tables before the first commit.
    loaded: Token,
    book: Book<N>,
    ghost shelf_is: { arc_value shelf ≡ N.shelf id },
    ghost loaded_is: { Shows (N.shelf id) loaded },
}

impl<N: Named> History<N> {
    /// What an epoch leaves that began on the tables of this token, with what lay under the lock.
    pub(crate) fn new(
        shelf: Arc<Shelf>,
        id: u64,
        epoch: u64,
        loaded: Token,
        book: Book<N>,
    ) -> History<N>
        requires shelf { arc_value shelf ≡ N.shelf id }
        requires loaded { Shows (N.shelf id) loaded }
        ensures whose { (result.id ≡ id) × (result.epoch ≡ epoch) }
        ensures loaded { result.loaded ≡ loaded }
        ensures book { result.book ≡ book }
    {
        History {
            shelf,
            id,
            epoch,
            loaded,
            book,
        }
    }

    /// The epoch of the manager that the commits are of.
    pub fn epoch(&self) -> u64
        ensures { result ≡ self.now.epoch }
    {
        self.epoch
    }

    /// The commits: their records, the tables before and after them, their serial order, and the commits that were
    /// refused. A manager of another shelf goes on where they end: `Manager::open` with
    /// `Definitions::of(alloc, history.core().newest())`.
    pub fn core(&self) -> &Core
        ensures { result.now ≡ self.now.book.core }
    {
        self.book.core()
    }

    /// The tables that the epoch began on: the commits are over them, and no more than the manager's limit. None where
    /// what the manager had under its lock is another's, which no call brings about: what is under a lock is known by
    /// its type alone, and so it is looked at.
    #[tactic(auto, using(crate::proofs::Known::from_facts))]
    pub fn loaded(&self) -> Option<&View>
        ensures own { is_some result ≡ is_from self.now.book self.now.id self.now.epoch self.now.loaded }
        ensures tables { IfSome result (λ view. view.now ≡ self.now.loaded.value.view) }
        ensures over { IfSome result (λ view. IsOver self.now.book.core view.now (N.limits self.now.id).commits) }
    {
        if !self.book.is_from(self.id, self.epoch, &self.loaded) {
            return None;
        }
        self.book
            .recall_loaded(&self.shelf, self.id, self.epoch, &self.loaded);
        Some(&self.shelf.item(&self.loaded).view)
    }

    /// The committed transactions have a serial order, and no committed tables make an assertion false.
    pub fn recall_serializability(&self)
        ensures { IsSerializable self.now.book.core }
    {
        self.book.recall_serializability();
    }

    /// The very record that a receipt was given for, which stands at its number. It takes no memory.
    ///
    /// # Errors
    ///
    /// [`Refusal::Stranger`] exactly where the receipt is not of this manager and epoch, or its token is not the one
    /// of its number here.
    pub fn record(&self, receipt: &Receipt<N>) -> Result<&Record, Refusal>
        ensures very { IfOk result (λ found. receipt.now.token.value.commit ≡ Some found.now) }
        ensures at { IfOk result (λ found.
            (0 < receipt.now.number)
            × (slice_get self.now.book.core.records (receipt.now.number - 1) ≡ Some found.now)) }
        ensures kept { IfOk result (λ _. is_kept self.now.book receipt.now self.now.id self.now.epoch ≡ true) }
        ensures stranger { IfErr result (λ refusal.
            (refusal ≡ Stranger) × (is_kept self.now.book receipt.now self.now.id self.now.epoch ≡ false)) }
    {
        if !self.book.keeps(receipt, self.id, self.epoch) {
            return Err(Refusal::Stranger);
        }
        Ok(
            self.book
                .find_record(&self.shelf, receipt, self.id, self.epoch),
        )
    }
}
