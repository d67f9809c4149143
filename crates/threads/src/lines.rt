//! One line of a session.

ghost use Rattle.std.specs.Prelude.{◌≡◌, ℕ, None, false, is_some};
ghost use Rattle.alone.specs.declared.answers.Answer.TheVariants.{Committed, Refused};
ghost use Rattle.syntax.specs.declared.statements.Event.TheVariants.{Commit, Rollback};
ghost use Rattle.txn.specs.Transactions.{outcome_of, reads_only};
ghost use Rattle.session.specs.Books.{IsFresh};
ghost use Rattle.threads.specs.Keeping.{IsKeptAs};
ghost use Rattle.threads.specs.Lines.{IsBegun, IsBegunIn, IsCommitted, IsMarked, IsRunIn, IsTold, seen_after};

use crate::keeping::{Commits, Keeping};
use alone::Answer;
use journal::Device;
use session::{
    CloseFailure, ClosedTransaction, CommitFault, Manager, Named, Session, Txn, release,
};
use std::sync::{Mutex, Wait};
use syntax::{Event, Statement};
use txn::Access;
use value::Refusal;

/// What a line was answered, and the transaction that is open then, if one is.
pub struct LineOutcome<N: Named> {
    pub answer: Answer,
    pub txn: Option<Txn<N>>,
    /// Whether it is a COMMIT that is accepted and could not be kept. Its answer is then as for want of memory: all is
    /// as it was.
    pub is_unkept: bool,
}

fn answer_refused<N: Named>(refusal: Refusal, txn: Option<Txn<N>>) -> LineOutcome<N>
    ensures told { (result.answer ≡ Refused refusal) × (result.txn ≡ txn) }
    ensures unmarked { result.is_unkept ≡ false }
{
    LineOutcome {
        answer: Answer::Refused(refusal),
        txn,
        is_unkept: false,
    }
}

/// Runs an event of a session, whose open transaction is handed on. A commit counts only once it is kept, where
/// commits are kept.
pub fn run_event<N: Named, R: Wait, D: Device>(
    rt: &R,
    manager: &Manager<N>,
    commits: &Commits<D>,
    session: &mut Session<N>,
    txn: Option<Txn<N>>,
    event: &Event,
) -> LineOutcome<N>
    ensures told { IsTold (IsFresh (N.shelf manager.now.id) manager.now.id manager.now.epoch)
        event.now session.old.seen txn result.answer result.txn }
    ensures seen { session.new ≡ record session.old { seen = seen_after result.answer session.old.seen } }
    ensures marked { IsMarked event.now result.answer result.is_unkept }
{
    match event {
        Event::Begin => begin(rt, manager, session, txn, Access::ReadWrite),
        Event::BeginReadOnly => begin(rt, manager, session, txn, Access::ReadOnly),
        Event::Run(statement) => run(txn, statement),
        Event::Commit => commit(rt, manager, commits, session, txn),
        Event::Rollback => roll_back(rt, manager, txn),
    }
}

/// BEGIN, or BEGIN READ ONLY.
fn begin<N: Named, R: Wait>(
    rt: &R,
    manager: &Manager<N>,
    session: &mut Session<N>,
    txn: Option<Txn<N>>,
    access: Access,
) -> LineOutcome<N>
    ensures told { IsBegunIn (IsFresh (N.shelf manager.now.id) manager.now.id manager.now.epoch (reads_only access))
        session.old.seen txn result.answer result.txn }
    ensures seen { session.new ≡ record session.old { seen = seen_after result.answer session.old.seen } }
    ensures unmarked { result.is_unkept ≡ false }
{
    match txn {
        Some(txn) => answer_refused(Refusal::TransactionOpen, Some(txn)),
        None => begin_new(rt, manager, session, access),
    }
}

fn begin_new<N: Named, R: Wait>(
    rt: &R,
    manager: &Manager<N>,
    session: &mut Session<N>,
    access: Access,
) -> LineOutcome<N>
    ensures told { IsBegun (IsFresh (N.shelf manager.now.id) manager.now.id manager.now.epoch (reads_only access))
        session.old.seen result.answer result.txn }
    ensures seen { session.new ≡ record session.old { seen = seen_after result.answer session.old.seen } }
    ensures unmarked { result.is_unkept ≡ false }
{
    match manager.begin(rt, session, access) {
        Ok(txn) => LineOutcome {
            answer: Answer::Begun(txn.snapshot()),
            txn: Some(txn),
            is_unkept: false,
        },
        Err(refusal) => answer_refused(refusal, None),
    }
}

/// A statement, in the open transaction. It takes no lock.
fn run<N: Named>(txn: Option<Txn<N>>, statement: &Statement) -> LineOutcome<N>
    ensures told { IsRunIn statement.now txn result.answer result.txn }
    ensures seen { (seen : ℕ) → seen_after result.answer seen ≡ seen }
    ensures unmarked { result.is_unkept ≡ false }
{
    let Some(mut txn) = txn else {
        return answer_refused(Refusal::NoTransaction, None);
    };
    match txn.execute(statement) {
        Ok(reply) => LineOutcome {
            answer: Answer::Replied(reply),
            txn: Some(txn),
            is_unkept: false,
        },
        // (an arm of its own, since the transaction is then as it was, and otherwise has noted the statement)
        Err(Refusal::NoMemory) => answer_refused(Refusal::NoMemory, Some(txn)),
        Err(refusal) => answer_refused(refusal, Some(txn)),
    }
}

/// COMMIT.
fn commit<N: Named, R: Wait, D: Device>(
    rt: &R,
    manager: &Manager<N>,
    commits: &Commits<D>,
    session: &mut Session<N>,
    txn: Option<Txn<N>>,
) -> LineOutcome<N>
    ensures told { IsTold (IsFresh (N.shelf manager.now.id) manager.now.id manager.now.epoch)
        Commit session.old.seen txn result.answer result.txn }
    ensures seen { session.new ≡ record session.old { seen = seen_after result.answer session.old.seen } }
    ensures marked { IsMarked Commit result.answer result.is_unkept }
{
    let Some(txn) = txn else {
        return answer_refused(Refusal::NoTransaction, None);
    };
    match commits {
        Commits::AtOnce => commit_now(rt, manager, session, txn),
        Commits::Kept(keeping) => commit_kept(rt, manager, keeping, session, txn),
    }
}

/// COMMIT, which counts at once.
fn commit_now<N: Named, R: Wait>(
    rt: &R,
    manager: &Manager<N>,
    session: &mut Session<N>,
    txn: Txn<N>,
) -> LineOutcome<N>
    ensures told { IsCommitted session.old.seen txn result.answer result.txn }
    ensures seen { session.new ≡ record session.old { seen = seen_after result.answer session.old.seen } }
    ensures unmarked { result.is_unkept ≡ false }
{
    match manager.commit(rt, session, txn) {
        Ok(receipt) => answer_committed(receipt.number()),
        Err(fault) => answer_uncommitted(fault, false),
    }
}

/// COMMIT, which counts only once it is kept. The check of the transaction's own tables takes no lock.
fn commit_kept<N: Named, R: Wait, D: Device>(
    rt: &R,
    manager: &Manager<N>,
    keeping: &Mutex<Keeping<D>>,
    session: &mut Session<N>,
    txn: Txn<N>,
) -> LineOutcome<N>
    ensures told { IsCommitted session.old.seen txn result.answer result.txn }
    ensures seen { session.new ≡ record session.old { seen = seen_after result.answer session.old.seen } }
    ensures marked { IsMarked Commit result.answer result.is_unkept }
{
    let closed = match txn.close_check() {
        Ok(closed) => closed,
        Err(CloseFailure { refusal, txn }) => return answer_refused(refusal, Some(txn)),
    };
    let mut keeping = keeping.lock(rt);
    commit_closed(rt, manager, &mut *keeping, session, closed)
}

/// COMMIT of a transaction whose own tables were checked. The commit is on the disk, or is none; and one that is marked
/// was accepted.
#[tactic(auto, using(crate::proofs::Answered::kept_as, crate::proofs::Answered::unkept_as, crate::proofs::Answered::marked))]
fn commit_closed<N: Named, R: Wait, D: Device>(
    rt: &R,
    manager: &Manager<N>,
    keeping: &mut Keeping<D>,
    session: &mut Session<N>,
    closed: ClosedTransaction<N>,
) -> LineOutcome<N>
    ensures told { IsCommitted session.old.seen closed result.answer result.txn }
    ensures seen { session.new ≡ record session.old { seen = seen_after result.answer session.old.seen } }
    ensures kept { IsKeptAs D.seen D.may_leave D.moment D.left_since keeping.old keeping.new
        (outcome_of closed.inner).changes result.answer result.is_unkept }
    ensures marked { IsMarked Commit result.answer result.is_unkept }
{
    keeping.forget_failure();
    match manager.commit_kept(rt, session, closed, &mut *keeping) {
        Ok(receipt) => answer_committed(receipt.number()),
        Err(fault) => answer_uncommitted(fault, keeping.has_failed()),
    }
}

/// A COMMIT that is the commit of this number.
fn answer_committed<N: Named>(number: u64) -> LineOutcome<N>
    ensures told { (result.answer ≡ Committed number) × (result.txn ≡ None) }
    ensures unmarked { result.is_unkept ≡ false }
{
    LineOutcome {
        answer: Answer::Committed(number),
        txn: None,
        is_unkept: false,
    }
}

/// The refusal of a COMMIT, with the transaction where it was given back.
fn answer_uncommitted<N: Named>(fault: CommitFault<N>, is_unkept: bool) -> LineOutcome<N>
    ensures told { (result.answer ≡ Refused fault.refusal) × (result.txn ≡ fault.txn) }
    ensures marked { result.is_unkept ≡ is_unkept }
{
    let CommitFault {
        refusal,
        txn,
        shown: _,
    } = fault;
    LineOutcome {
        answer: Answer::Refused(refusal),
        txn,
        is_unkept,
    }
}

/// ROLLBACK.
fn roll_back<N: Named, R: Wait>(rt: &R, manager: &Manager<N>, txn: Option<Txn<N>>) -> LineOutcome<N>
    ensures told { (seen : ℕ) → IsTold (IsFresh (N.shelf manager.now.id) manager.now.id manager.now.epoch)
        Rollback seen txn result.answer result.txn }
    ensures seen { (seen : ℕ) → seen_after result.answer seen ≡ seen }
    ensures unmarked { result.is_unkept ≡ false }
{
    let Some(txn) = txn else {
        return answer_refused(Refusal::NoTransaction, None);
    };
    match manager.rollback(rt, txn) {
        Ok(()) => LineOutcome {
            answer: Answer::RolledBack,
            txn: None,
            is_unkept: false,
        },
        Err((refusal, txn)) => answer_refused(refusal, Some(txn)),
    }
}

/// Rolls the open transaction back, if one is open, and says whether one was.
pub fn end<N: Named, R: Wait>(rt: &R, manager: &Manager<N>, txn: Option<Txn<N>>) -> bool
    ensures { result ≡ is_some txn }
{
    let Some(txn) = txn else {
        return false;
    };
    release(rt, manager, txn);
    true
}
