//! Commits that are made.

ghost use Rattle.std.specs.Prelude.{◌≡◌, ◌≢◌, ◌+◌, ◌++◌, ◌∷◌, [], ℕ, true, length, Ok, Some, None, IfOk, IfErr, IfSome};
ghost use Rattle.value.specs.declared.refusals.Refusal.TheVariants.{NoMemory};
ghost use Rattle.boxcar.specs.Table.{Shows};
ghost use Rattle.commit.specs.Cores.{IsCommitAnswer, IsLive, IsUncommitted, core_after_commit, log_of, pending_txn, record_with, without_prepared};
ghost use Rattle.alone.specs.Commits.{IsLog};
ghost use Rattle.session.specs.Answers.{IsUnkept};
ghost use Rattle.session.specs.Books.{item_after};
ghost use Rattle.txn.specs.Committed.{AreParts};
ghost use Rattle.txn.specs.Transactions.{outcome_of};

use crate::items::Item;
use crate::named::Named;
use crate::sessions::Session;
use crate::shelf::{Shelf, Token};
use alone::Record;
use commit::{CommitFailure, Core, Keeper, Prepared};
use std::alloc::AllocError;
use std::sync::Wait;
use table::Change;
use txn::{ClosedTransaction, Parts};
use value::{Refusal, Text};

/// A commit that was made: its number, and the token of its item.
#[derive(Drop)]
pub struct MadeCommit {
    pub number: u64,
    pub token: Token,
}

/// Who keeps the commits of a manager that has no journal: each counts as soon as it is made.
#[derive(Clone, Copy)]
pub struct Unjournaled;

impl Keeper for Unjournaled {
    ghost use Rattle.std.specs.Prelude.{◌≡◌, true, ⊤};

    ghost expects = { λ _ _. ⊤ };

    ghost did_keep = { λ _ _ _ _ kept. kept ≡ true };

    ghost goes_on = { λ _ _ _ _ _ _ _. tt };

    fn keep(&mut self, _number: u64, _changes: &[Change]) -> bool {
        true
    }
}

/// The manager that asks a book: its shelf, its id and its epoch, and the runtime by which it waits.
#[derive(Drop)]
pub struct Asker<'a, R> {
    pub rt: &'a R,
    pub shelf: &'a Shelf,
    pub id: u64,
    pub epoch: u64,
}

/// A transaction that asks to be committed, and a copy of what stays of it, for the item of its commit.
pub struct CopiedTransaction {
    pub closed: ClosedTransaction,
    pub copy: Parts,
}

/// Makes a commit of a session, with its item on the shelf, and notes its token behind the others. The item takes the
/// copy of what stays of the transaction. The commit counts only once it is kept. Where it is refused, the tokens are
/// as they were.
///
/// # Errors
///
/// Those of `commit::Core::commit`; and [`Refusal::NoMemory`] where it could not be kept.
pub fn append<N: Named, R: Wait, K: Keeper>(
    asker: &Asker<'_, R>,
    core: &mut Core,
    tokens: &mut Vec<Token>,
    session: &Session<N>,
    own: CopiedTransaction,
    keeper: &mut K,
) -> Result<MadeCommit, CommitFailure>
    requires copy { AreParts own.closed own.copy }
    requires live { IsLive core.old own.closed }
    requires idle { core.old.prepared ≡ None }
    requires expected { K.expects keeper.old (length core.old.records + 1) }
    ensures number { IfOk result (λ made.
        IsCommitAnswer core.old session.now.name own.closed (Ok made.number)) }
    ensures shown { IfOk result (λ made. Shows asker.now.shelf.now made.token) }
    ensures item { IfOk result (λ made.
        made.token.value ≡ item_after asker.now.epoch core.old session.now.name own.closed) }
    ensures log { IfOk result (λ _. IsLog (log_of core.new)) }
    ensures after { IfOk result (λ _. core.new ≡ core_after_commit core.old session.now.name own.closed) }
    ensures tokens { IfOk result (λ made. tokens.new.items ≡ tokens.old.items ++ made.token ∷ []) }
    ensures refused { IfErr result (λ fault.
        IsUncommitted core.old session.now.name own.closed fault.refusal fault.txn core.new) }
    ensures same { IfErr result (λ _. tokens.new.items ≡ tokens.old.items) }
    ensures kept { IfOk result (λ made.
        K.did_keep keeper.old keeper.new made.number (outcome_of own.closed).changes true) }
    ensures unkept { IfErr result (λ fault.
        IsUnkept K.did_keep keeper.old keeper.new (outcome_of own.closed).changes fault.refusal) }
{
    let CopiedTransaction { closed, copy } = own;
    if tokens.reserve(1).is_err() {
        return Err(CommitFailure {
            refusal: Refusal::NoMemory,
            txn: Some(closed.reopen()),
        });
    }
    let own = CopiedTransaction { closed, copy };
    let made = make(asker, core, session.name(), own, keeper)?;
    tokens.push_reserved(made.token.again());
    Ok(made)
}

/// Makes a commit, with its item on the shelf: it is prepared, the item is pushed, it is kept, and it is finished; or,
/// where the item finds no memory or the commit could not be kept, it is given up. The number and the item's token are
/// answered. (An item that was pushed and has no commit is one that no token shows.)
///
/// # Errors
///
/// Those of `commit::Core::commit`; and [`Refusal::NoMemory`] where it could not be kept.
fn make<R: Wait, K: Keeper>(
    asker: &Asker<'_, R>,
    core: &mut Core,
    session: &Text,
    own: CopiedTransaction,
    keeper: &mut K,
) -> Result<MadeCommit, CommitFailure>
    requires copy { AreParts own.closed own.copy }
    requires live { IsLive core.old own.closed }
    requires idle { core.old.prepared ≡ None }
    requires expected { K.expects keeper.old (length core.old.records + 1) }
    ensures number { IfOk result (λ made. IsCommitAnswer core.old session.now own.closed (Ok made.number)) }
    ensures shown { IfOk result (λ made. Shows asker.now.shelf.now made.token) }
    ensures item { IfOk result (λ made.
        made.token.value ≡ item_after asker.now.epoch core.old session.now own.closed) }
    ensures log { IfOk result (λ _. IsLog (log_of core.new)) }
    ensures after { IfOk result (λ _. core.new ≡ core_after_commit core.old session.now own.closed) }
    ensures refused { IfErr result (λ fault.
        IsUncommitted core.old session.now own.closed fault.refusal fault.txn core.new) }
    ensures kept { IfOk result (λ made.
        K.did_keep keeper.old keeper.new made.number (outcome_of own.closed).changes true) }
    ensures unkept { IfErr result (λ fault.
        IsUnkept K.did_keep keeper.old keeper.new (outcome_of own.closed).changes fault.refusal) }
{
    let CopiedTransaction { closed, copy } = own;
    let number = core.prepare(session, closed)?;
    let Ok(token) = put_on(asker.rt, asker.shelf, core, asker.epoch, copy) else {
        return Err(cancel(core));
    };
    if !keep_prepared(core, number, keeper) {
        return Err(cancel(core));
    }
    core.finish();
    core.recall_log();
    Ok(MadeCommit { number, token })
}

/// Keeps the prepared commit, which will have this number. False: it could not be kept.
fn keep_prepared<K: Keeper>(core: &Core, number: u64, keeper: &mut K) -> bool
    requires prepared { core.now.prepared ≢ None }
    requires expected { K.expects keeper.old number }
    ensures { IfSome core.now.prepared (λ p.
        K.did_keep keeper.old keeper.new number (outcome_of p.txn).changes result) }
{
    match core.prepared() {
        Some(prepared) => keeper.keep(number, prepared.closed.changes()),
        None => unreachable!(),
    }
}

/// Gives the prepared commit up, for which there was no memory or which could not be kept, and its transaction back.
fn cancel(core: &mut Core) -> CommitFailure
    ensures refusal { result.refusal ≡ NoMemory }
    ensures txn { result.txn ≡ pending_txn core.old.prepared }
    ensures after { core.new ≡ without_prepared core.old }
{
    match core.cancel() {
        Some(closed) => CommitFailure {
            refusal: Refusal::NoMemory,
            txn: Some(closed.reopen()),
        },
        None => CommitFailure {
            refusal: Refusal::NoMemory,
            txn: None,
        },
    }
}

/// Puts the item of the prepared commit on the shelf.
fn put_on<R: Wait>(
    rt: &R,
    shelf: &Shelf,
    core: &Core,
    epoch: u64,
    copy: Parts,
) -> Result<Token, AllocError>
    requires prepared { core.now.prepared ≢ None }
    requires copy { IfSome core.now.prepared (λ p. AreParts p.txn copy) }
    ensures shown { IfOk result (λ token. Shows shelf.now token) }
    ensures item { IfOk result (λ token.
        IfSome core.now.prepared (λ p. token.value ≡ item_after epoch core.now p.session p.txn)) }
{
    let item = next_item(core, epoch, copy)?;
    shelf.put(rt, item)
}

/// The item of the prepared commit.
fn next_item(core: &Core, epoch: u64, copy: Parts) -> Result<Item, AllocError>
    requires prepared { core.now.prepared ≢ None }
    requires copy { IfSome core.now.prepared (λ p. AreParts p.txn copy) }
    ensures { IfOk result (λ item.
        IfSome core.now.prepared (λ p. item ≡ item_after epoch core.now p.session p.txn)) }
{
    let number = core.records().len() as u64 + 1;
    match core.prepared() {
        Some(prepared) => item_of(prepared, epoch, number, copy),
        None => unreachable!(),
    }
}

/// The item of a commit that has this number.
fn item_of(prepared: &Prepared, epoch: u64, number: u64, copy: Parts) -> Result<Item, AllocError>
    requires { AreParts prepared.now.closed copy }
    ensures { IfOk result (λ item.
        item ≡ record {
          epoch = epoch;
          number = number;
          commit = Some (record_with number prepared.now.session prepared.now.closed);
          view = prepared.now.tables;
        }) }
{
    let commit = copied_record(prepared, number, copy)?;
    let view = prepared.tables.copy()?;
    Ok(Item {
        epoch,
        number,
        commit: Some(commit),
        view,
    })
}

/// The record of a commit that has this number.
fn copied_record(prepared: &Prepared, number: u64, copy: Parts) -> Result<Record, AllocError>
    requires { AreParts prepared.now.closed copy }
    ensures { IfOk result (λ commit. commit ≡ record_with number prepared.now.session prepared.now.closed) }
{
    let txn = prepared.closed.txn();
    let Parts {
        trace,
        reads,
        changes,
    } = copy;
    Ok(Record {
        number,
        snapshot: txn.snapshot(),
        read_only: txn.is_read_only(),
        session: prepared.session.copy()?,
        trace,
        reads,
        changes,
    })
}
