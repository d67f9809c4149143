//! The sessions' seats, and what an event does in one.

ghost use Rattle.std.specs.Prelude.{◌≡◌, ◌<◌, ◌+◌, [], false, true, length, nat_le, is_none, is_some, IfSome, IfOk, OnErr, OnOk, Some, None};
ghost use Rattle.value.specs.Ordered.{HoldsOf};
ghost use Rattle.txn.specs.Transactions.{reads_only};
ghost use Rattle.commit.specs.Cores.{IsLive};
ghost use Rattle.syntax.specs.declared.statements.Event.TheVariants.{Commit, Rollback, Run};
ghost use Rattle.commit.specs.Events.{IsReply, begin_answer, core_after, core_after_begin, found_no_memory, rollback_answer, run_answer, seat_of, takes_memory, txn_after, txn_after_begin, txn_with};
ghost use Rattle.commit.specs.Keepers.{IsAskedFor};
ghost use Rattle.commit.specs.Runs.{seats_with_all, seats_with};

use crate::cores::{CommitFailure, Core};
use crate::keepers::{Keeper, Kept, Unanswered};
use alone::Answer;
use std::alloc::{AllocError, Global};
use std::mem;
use syntax::{Event, ScriptLine, Statement};
use txn::{Access, Txn};
use value::{Refusal, Text};

/// A session, with its open transaction, if one is open. One that is let go is rolled back.
pub struct Seat {
    pub session: Text,
    pub txn: Option<Txn>,
}

impl Drop for Seat {
    fn drop(self) {
        let Seat { session: _, txn } = self;
        match txn {
            Some(txn) => drop(txn.abandon()),
            None => {}
        }
    }
}

/// Seats a transaction, or none. One that was open is rolled back.
fn set_txn(seat: &mut Seat, txn: Option<Txn>)
    ensures { seat.new ≡ record seat.old { txn = txn } }
{
    match mem::replace(&mut seat.txn, txn) {
        None => {}
        Some(old) => drop(old.abandon()),
    }
}

/// A seat for each session of some events, in the order of their first events, or none where they are of more than so
/// many sessions. It goes no further than the first session that is one too many, so its time does not grow with the
/// square of a long script.
#[tactic(auto, using(crate::proofs::Seating::too_many))]
pub fn seat_few(
    alloc: Global,
    lines: &[ScriptLine],
    most: usize,
) -> Result<Option<Vec<Seat>>, AllocError>
    ensures seats { IfOk result (λ found. IfSome found (λ seats. seats.items ≡ seats_with_all [] lines.now)) }
    ensures few { IfOk result (λ found. is_some found ≡ nat_le (length (seats_with_all [] lines.now)) most) }
{
    let mut seats = Vec::new(alloc);
    for line in lines {
        if seats.len() > most {
            return Ok(None);
        }
        seat_session(&mut seats, &line.session)?;
    }
    if seats.len() > most {
        return Ok(None);
    }
    Ok(Some(seats))
}

/// Whether events are of so many sessions or fewer.
pub fn has_few_sessions(
    alloc: Global,
    lines: &[ScriptLine],
    most: usize,
) -> Result<bool, AllocError>
    ensures { IfOk result (λ few. few ≡ nat_le (length (seats_with_all [] lines.now)) most) }
{
    Ok(seat_few(alloc, lines, most)?.is_some())
}

/// A seat for a session, if it has none.
pub fn seat_session(seats: &mut Vec<Seat>, session: &Text) -> Result<(), AllocError>
    ensures seated { OnOk result (seats.new.items ≡ seats_with seats.old.items session.now) }
    ensures same { OnErr result (seats.new.items ≡ seats.old.items) }
{
    if find_seat(seats, session).is_none() {
        let session = session.copy()?;
        seats.reserve(1)?;
        seats.push_reserved(Seat { session, txn: None });
    }
    Ok(())
}

/// The place of a session's seat. It takes no memory.
pub fn find_seat(seats: &[Seat], session: &Text) -> Option<usize>
    ensures found { result ≡ seat_of seats.now session.now }
    ensures within { IfSome result (λ place. place < length seats.now) }
{
    seats.iter().position(|seat| seat.session == *session)
}

/// Answers an event of the session in a seat.
pub fn answer_event(
    core: &mut Core,
    seat: &mut Seat,
    line: &ScriptLine,
) -> Result<Answer, AllocError>
    requires live { HoldsOf (IsLive core.old) seat.old.txn }
    requires idle { core.old.prepared ≡ None }
    ensures answered { IfOk result (IsReply core.old line.now.session line.now.event seat.old.txn) }
    ensures known { IfOk result (λ answer. found_no_memory answer ≡ false) }
    ensures takes { OnErr result (takes_memory line.now.event seat.old.txn ≡ true) }
    ensures commits { IfOk result (λ answer.
        core.new ≡ core_after core.old line.now.session line.now.event seat.old.txn answer) }
    ensures seat { OnOk result (seat.new ≡ record seat.old { txn = txn_after core.old line.now.event seat.old.txn }) }
    ensures same { OnErr result ((core.new ≡ core.old) × (seat.new ≡ seat.old)) }
    ensures live { HoldsOf (IsLive core.new) seat.new.txn }
{
    match &line.event {
        Event::Begin => begin(core, seat, Access::ReadWrite),
        Event::BeginReadOnly => begin(core, seat, Access::ReadOnly),
        Event::Run(statement) => run(seat, statement),
        Event::Commit => commit(core, seat, &line.session),
        Event::Rollback => Ok(roll_back(core, seat)),
    }
}

/// Answers an event of the session in a seat, as [`answer_event`] does, but a commit counts only once it is kept.
pub fn answer_event_kept<K: Keeper>(
    core: &mut Core,
    seat: &mut Seat,
    line: &ScriptLine,
    keeper: &mut K,
) -> Result<Answer, Unanswered>
    requires live { HoldsOf (IsLive core.old) seat.old.txn }
    requires idle { core.old.prepared ≡ None }
    requires expected { K.expects keeper.old (length core.old.records + 1) }
    ensures answered { IfOk result (IsReply core.old line.now.session line.now.event seat.old.txn) }
    ensures known { IfOk result (λ answer. found_no_memory answer ≡ false) }
    ensures takes { OnErr result (takes_memory line.now.event seat.old.txn ≡ true) }
    ensures commits { IfOk result (λ answer.
        core.new ≡ core_after core.old line.now.session line.now.event seat.old.txn answer) }
    ensures seat { OnOk result (seat.new ≡ record seat.old { txn = txn_after core.old line.now.event seat.old.txn }) }
    ensures same { OnErr result ((core.new ≡ core.old) × (seat.new ≡ seat.old)) }
    ensures live { HoldsOf (IsLive core.new) seat.new.txn }
    ensures asked { IsAskedFor K.did_keep keeper.old keeper.new core.old.records core.new.records result }
{
    match &line.event {
        Event::Commit => commit_kept(core, seat, &line.session, keeper),
        _ => Ok(answer_event(core, seat, line)?),
    }
}

/// BEGIN, or BEGIN READ ONLY: a transaction begins on the newest tables.
fn begin(core: &mut Core, seat: &mut Seat, access: Access) -> Result<Answer, AllocError>
    requires live { HoldsOf (IsLive core.old) seat.old.txn }
    requires idle { core.old.prepared ≡ None }
    ensures answered { IfOk result (λ answer. answer ≡ begin_answer core.old seat.old.txn) }
    ensures known { IfOk result (λ answer. found_no_memory answer ≡ false) }
    ensures takes { OnErr result (is_none seat.old.txn ≡ true) }
    ensures commits { OnOk result (core.new ≡ core_after_begin core.old (reads_only access) seat.old.txn) }
    ensures seat { OnOk result (seat.new
        ≡ record seat.old { txn = txn_after_begin core.old (reads_only access) seat.old.txn }) }
    ensures same { OnErr result ((core.new ≡ core.old) × (seat.new ≡ seat.old)) }
    ensures live { HoldsOf (IsLive core.new) seat.new.txn }
{
    if seat.txn.is_some() {
        return Ok(Answer::Refused(Refusal::TransactionOpen));
    }
    let snapshot = core.records().len() as u64;
    match core.begin(access) {
        Ok(txn) => {
            set_txn(seat, Some(txn));
            Ok(Answer::Begun(snapshot))
        }
        Err(Refusal::NoMemory) => Err(AllocError),
        Err(refusal) => Ok(Answer::Refused(refusal)),
    }
}

/// A statement, in the open transaction.
fn run(seat: &mut Seat, statement: &Statement) -> Result<Answer, AllocError>
    ensures answered { IfOk result (λ answer. answer ≡ run_answer statement.now seat.old.txn) }
    ensures known { IfOk result (λ answer. found_no_memory answer ≡ false) }
    ensures takes { OnErr result (takes_memory (Run statement.now) seat.old.txn ≡ true) }
    ensures seat { OnOk result (seat.new ≡ record seat.old { txn = txn_with statement.now seat.old.txn }) }
    ensures same { OnErr result (seat.new ≡ seat.old) }
{
    match &mut seat.txn {
        None => Ok(Answer::Refused(Refusal::NoTransaction)),
        Some(txn) => match txn.execute(statement) {
            Ok(reply) => Ok(Answer::Replied(reply)),
            Err(Refusal::NoMemory) => Err(AllocError),
            Err(refusal) => Ok(Answer::Refused(refusal)),
        },
    }
}

/// COMMIT of the open transaction.
fn commit(core: &mut Core, seat: &mut Seat, session: &Text) -> Result<Answer, AllocError>
    requires live { HoldsOf (IsLive core.old) seat.old.txn }
    requires idle { core.old.prepared ≡ None }
    ensures answered { IfOk result (IsReply core.old session.now Commit seat.old.txn) }
    ensures known { IfOk result (λ answer. found_no_memory answer ≡ false) }
    ensures takes { OnErr result (takes_memory Commit seat.old.txn ≡ true) }
    ensures commits { IfOk result (λ answer. core.new ≡ core_after core.old session.now Commit seat.old.txn answer) }
    ensures seat { OnOk result (seat.new ≡ record seat.old { txn = None }) }
    ensures same { OnErr result ((core.new ≡ core.old) × (seat.new ≡ seat.old)) }
{
    let Some(txn) = seat.txn.take() else {
        return Ok(Answer::Refused(Refusal::NoTransaction));
    };
    match core.commit(session, txn) {
        Ok(number) => Ok(Answer::Committed(number)),
        Err(CommitFailure { refusal, txn: None }) => Ok(Answer::Refused(refusal)),
        Err(CommitFailure { refusal: _, txn }) => {
            set_txn(seat, txn);
            Err(AllocError)
        }
    }
}

/// COMMIT of the open transaction, which counts only once it is kept.
fn commit_kept<K: Keeper>(
    core: &mut Core,
    seat: &mut Seat,
    session: &Text,
    keeper: &mut K,
) -> Result<Answer, Unanswered>
    requires live { HoldsOf (IsLive core.old) seat.old.txn }
    requires idle { core.old.prepared ≡ None }
    requires expected { K.expects keeper.old (length core.old.records + 1) }
    ensures answered { IfOk result (IsReply core.old session.now Commit seat.old.txn) }
    ensures known { IfOk result (λ answer. found_no_memory answer ≡ false) }
    ensures takes { OnErr result (takes_memory Commit seat.old.txn ≡ true) }
    ensures commits { IfOk result (λ answer. core.new ≡ core_after core.old session.now Commit seat.old.txn answer) }
    ensures seat { OnOk result (seat.new ≡ record seat.old { txn = None }) }
    ensures same { OnErr result ((core.new ≡ core.old) × (seat.new ≡ seat.old)) }
    ensures asked { IsAskedFor K.did_keep keeper.old keeper.new core.old.records core.new.records result }
{
    let Some(txn) = seat.txn.take() else {
        return Ok(Answer::Refused(Refusal::NoTransaction));
    };
    match core.commit_kept(session, txn, keeper) {
        Ok(Kept::Committed(number)) => Ok(Answer::Committed(number)),
        Ok(Kept::NotKept(txn)) => {
            set_txn(seat, Some(txn));
            Err(Unanswered::NotKept)
        }
        Err(CommitFailure { refusal, txn: None }) => Ok(Answer::Refused(refusal)),
        Err(CommitFailure { refusal: _, txn }) => {
            set_txn(seat, txn);
            Err(Unanswered::NoMemory)
        }
    }
}

/// ROLLBACK: the open transaction is ended, and nothing of it kept.
pub(crate) fn roll_back(core: &mut Core, seat: &mut Seat) -> Answer
    requires live { HoldsOf (IsLive core.old) seat.old.txn }
    requires idle { core.old.prepared ≡ None }
    ensures answered { result ≡ rollback_answer seat.old.txn }
    ensures commits { core.new ≡ core_after core.old seat.old.session Rollback seat.old.txn result }
    ensures seat { seat.new ≡ record seat.old { txn = None } }
{
    match seat.txn.take() {
        None => Answer::Refused(Refusal::NoTransaction),
        Some(txn) => {
            core.end(&txn);
            drop(txn.abandon());
            Answer::RolledBack
        }
    }
}
