//! Runs the lines of a script on a manager, one after the other.

ghost use Rattle.std.specs.Prelude.{◌<◌, length, IfOk, IfSome};

use crate::again::{for_ever, is_same, shown};
use alone::Answer;
use report::{write_left_open, write_reply};
use session::{CommitFault, Manager, Named, Receipt, Session, Txn};
use std::alloc::Global;
use std::fmt::Debug;
use std::mem;
use std::process::Abort;
use std::sync::Wait;
use std::test::Fail;
use syntax::{Event, ScriptLine, Statement};
use txn::Access;
use value::{Refusal, Text};

/// A session with its open transaction, if one is open. One that is let go is abandoned.
pub struct Seat<N: Named> {
    pub session: Session<N>,
    pub txn: Option<Txn<N>>,
}

impl<N: Named> Drop for Seat<N> {
    fn drop(self) {
        let Seat { session: _, txn } = self;
        match txn {
            Some(txn) => drop(txn.abandon()),
            None => {}
        }
    }
}

/// Ends the test where another value is found than the wanted one.
pub fn equal<T: Copy + PartialEq + Debug>(rt: &impl Abort, found: T, wanted: T) {
    assert_eq!(rt; found, wanted);
}

/// The sessions of a manager, what they were answered, and each receipt that was given or shown.
#[derive(Drop)]
pub struct Sessions<N: Named> {
    pub seats: Vec<Seat<N>>,
    pub report: Vec<u8>,
    pub receipts: Vec<Receipt<N>>,
}

impl<N: Named> Sessions<N> {
    pub fn new(alloc: Global) -> Sessions<N> {
        Sessions {
            seats: Vec::new(alloc),
            report: Vec::new(alloc),
            receipts: Vec::new(alloc),
        }
    }

    /// Runs the lines of a script, and notes the answers.
    pub fn run<R: Wait>(
        &mut self,
        rt: &R,
        manager: &Manager<N>,
        lines: &[ScriptLine],
    ) -> Result<(), Fail> {
        for line in lines {
            self.run_line(rt, manager, line)?;
        }
        Ok(())
    }

    /// Runs a line of a script, and notes the answer.
    fn run_line<R: Wait>(
        &mut self,
        rt: &R,
        manager: &Manager<N>,
        line: &ScriptLine,
    ) -> Result<(), Fail> {
        let answer = match seat_again(rt, manager, &mut self.seats, &line.session) {
            Ok(place) => {
                let seat = &mut self.seats[place];
                answer_again(rt, manager, seat, &line.event, &mut self.receipts)?
            }
            Err(refusal) => Answer::Refused(refusal),
        };
        let noted = write_reply(line, &answer, &mut self.report);
        drop(answer);
        noted?;
        Ok(())
    }

    /// Notes the transactions that are open.
    pub fn leave_open(&mut self) -> Result<(), Fail> {
        for seat in self.seats.as_slice() {
            if seat.txn.is_some() {
                write_left_open(seat.session.name(), &mut self.report)?;
            }
        }
        Ok(())
    }
}

/// The place of a session's seat. A session that finds no memory is asked for once more.
fn seat_again<N: Named, R: Wait>(
    rt: &R,
    manager: &Manager<N>,
    seats: &mut Vec<Seat<N>>,
    name: &Text,
) -> Result<usize, Refusal>
    ensures { IfOk result (λ place. place < length seats.new.items) }
{
    match seat_for(rt, manager, seats, name) {
        Err(Refusal::NoMemory) => seat_for(rt, manager, seats, name),
        found => found,
    }
}

/// The place of a session's seat. One that has none gets a session of the manager.
fn seat_for<N: Named, R: Wait>(
    rt: &R,
    manager: &Manager<N>,
    seats: &mut Vec<Seat<N>>,
    name: &Text,
) -> Result<usize, Refusal>
    ensures { IfOk result (λ place. place < length seats.new.items) }
{
    if let Some(place) = place_of(seats.as_slice(), name) {
        return Ok(place);
    }
    // A session that finds no seat would be handed out in vain, and counts.
    seats.reserve(1)?;
    let session = manager.session(rt, name)?;
    let place = seats.len();
    seats.push(Seat { session, txn: None })?;
    Ok(place)
}

fn place_of<N: Named>(seats: &[Seat<N>], name: &Text) -> Option<usize>
    ensures { IfSome result (λ place. place < length seats.now) }
{
    seats.iter().position(|seat| seat.session.name() == name)
}

/// Answers an event. One that finds no memory has changed nothing that can be seen, and is answered once more.
fn answer_again<N: Named, R: Wait>(
    rt: &R,
    manager: &Manager<N>,
    seat: &mut Seat<N>,
    event: &Event,
    receipts: &mut Vec<Receipt<N>>,
) -> Result<Answer, Fail> {
    let alloc = *receipts.allocator();
    let before = shown(rt, alloc, manager, seat)?;
    if let Some(first) = unless_memory(answer(rt, manager, seat, event, receipts)?) {
        return Ok(first);
    }
    is_same(&before, &shown(rt, alloc, manager, seat)?)?;
    found(answer(rt, manager, seat, event, receipts)?)
}

/// The answer of a call that was made once more.
pub fn found(answer: Answer) -> Result<Answer, Fail> {
    unless_memory(answer).ok_or_else(for_ever)
}

/// The answer, unless it is that no memory was found.
pub fn unless_memory(answer: Answer) -> Option<Answer> {
    match answer {
        Answer::Refused(Refusal::NoMemory) => None,
        answer => Some(answer),
    }
}

fn answer<N: Named, R: Wait>(
    rt: &R,
    manager: &Manager<N>,
    seat: &mut Seat<N>,
    event: &Event,
    receipts: &mut Vec<Receipt<N>>,
) -> Result<Answer, Fail> {
    match event {
        Event::Begin => begin(rt, manager, seat, Access::ReadWrite),
        Event::BeginReadOnly => begin(rt, manager, seat, Access::ReadOnly),
        Event::Run(statement) => Ok(run(seat, statement)),
        Event::Commit => commit(rt, manager, seat, receipts),
        Event::Rollback => Ok(roll_back(rt, manager, seat)),
    }
}

/// BEGIN, or BEGIN READ ONLY. The transaction says that it is of the kind that was asked for.
fn begin<N: Named, R: Wait>(
    rt: &R,
    manager: &Manager<N>,
    seat: &mut Seat<N>,
    access: Access,
) -> Result<Answer, Fail> {
    if seat.txn.is_some() {
        return Ok(Answer::Refused(Refusal::TransactionOpen));
    }
    match manager.begin(rt, &mut seat.session, access) {
        Ok(txn) => {
            let (snapshot, is_read_only) = (txn.snapshot(), txn.is_read_only());
            set_txn(seat, Some(txn));
            if is_read_only == access.is_read_only() {
                Ok(Answer::Begun(snapshot))
            } else {
                Err(Fail::from("a transaction of the other kind"))
            }
        }
        Err(refusal) => Ok(Answer::Refused(refusal)),
    }
}

fn run<N: Named>(seat: &mut Seat<N>, statement: &Statement) -> Answer {
    match &mut seat.txn {
        None => Answer::Refused(Refusal::NoTransaction),
        Some(txn) => match txn.execute(statement) {
            Ok(reply) => Answer::Replied(reply),
            Err(refusal) => Answer::Refused(refusal),
        },
    }
}

fn commit<N: Named, R: Wait>(
    rt: &R,
    manager: &Manager<N>,
    seat: &mut Seat<N>,
    receipts: &mut Vec<Receipt<N>>,
) -> Result<Answer, Fail> {
    let Some(txn) = seat.txn.take() else {
        return Ok(Answer::Refused(Refusal::NoTransaction));
    };
    match manager.commit(rt, &mut seat.session, txn) {
        Ok(receipt) => {
            let number = receipt.number();
            receipts.push(receipt)?;
            Ok(Answer::Committed(number))
        }
        Err(fault) => refused(seat, fault, receipts),
    }
}

/// What a refused COMMIT is answered. Its transaction is seated again, if it was given back.
fn refused<N: Named>(
    seat: &mut Seat<N>,
    fault: CommitFault<N>,
    receipts: &mut Vec<Receipt<N>>,
) -> Result<Answer, Fail> {
    let CommitFault {
        refusal,
        txn,
        shown,
    } = fault;
    set_txn(seat, txn);
    keep_shown(&shown, receipts)?;
    Ok(Answer::Refused(refusal))
}

fn keep_shown<N: Named>(
    shown: &[Option<Receipt<N>>],
    receipts: &mut Vec<Receipt<N>>,
) -> Result<(), Fail> {
    for shown in shown {
        if let Some(receipt) = shown {
            receipts.push(receipt.copy())?;
        }
    }
    Ok(())
}

fn roll_back<N: Named, R: Wait>(rt: &R, manager: &Manager<N>, seat: &mut Seat<N>) -> Answer {
    match seat.txn.take() {
        None => Answer::Refused(Refusal::NoTransaction),
        Some(txn) => match manager.rollback(rt, txn) {
            Ok(()) => Answer::RolledBack,
            Err((refusal, txn)) => {
                set_txn(seat, Some(txn));
                Answer::Refused(refusal)
            }
        },
    }
}

fn set_txn<N: Named>(seat: &mut Seat<N>, txn: Option<Txn<N>>) {
    match mem::replace(&mut seat.txn, txn) {
        None => {}
        Some(old) => drop(old.abandon()),
    }
}
