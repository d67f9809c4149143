//! Events of many sessions, one after the other.

ghost use Rattle.std.specs.Prelude.{◌≡◌, ◌≤◌, ◌≢◌, ◌+◌, [], true, false, is_some, length, map, nat_le, take, IfOk, IfErr, IfSome, OnErr, OnOk, Err};
ghost use Rattle.value.specs.declared.refusals.Refusal.TheVariants.{NoMemory};
ghost use Rattle.alone.specs.Alone.{IsSound};
ghost use Rattle.commit.specs.Cores.{IsSerializable, newest_tables};
ghost use Rattle.commit.specs.Epochs.{IsNextEpoch, is_any_open, next_start_of};
ghost use Rattle.commit.specs.Events.{IsAnswered, after, as_answer, without_session};
ghost use Rattle.commit.specs.Fitting.{AllFit};
ghost use Rattle.commit.specs.Keepers.{IsAskedFor};
ghost use Rattle.commit.specs.Runs.{AreAnswers, IsNext, beginning, led_to, seats_with, seats_with_all};
ghost use Rattle.commit.specs.Told.{WereToldAlone};
ghost use Rattle.commit.specs.Verdicts.{live_truths};
ghost use Rattle.std.specs.Option.{option_map};
ghost use Rattle.txn.specs.Transactions.{truths_on};

use crate::cores::Core;
use crate::keepers::{Keeper, Unanswered};
use crate::laws::answers_lead_to_a_serial_order;
use crate::seats::{
    Seat, answer_event, answer_event_kept, find_seat, roll_back, seat_few, seat_session,
};
use crate::verdicts::list_live_truths;
use alone::Answer;
use definitions::NewAssertion;
use delta::View;
use std::alloc::{AllocError, Global};
use std::marker::Model;
use syntax::ScriptLine;
use txn::list_truths;
use value::{Refusal, Text, Truth};

/// What stands between two events: the committed transactions, and the sessions with the open ones.
#[derive(Drop)]
pub struct Engine {
    core: Core,
    seats: Vec<Seat>,
}

impl Model for Engine {
    ghost use Rattle.table.specs.contracts.conds.Cond as cond_type;
    ghost use Rattle.table.specs.contracts.exprs.Expr as expr_type;
    ghost use Rattle.std.specs.Coded.{codes};
    ghost use Rattle.commit.specs.Events.{AreLive, EngineState};

    ghost Value = { EngineState };

    ghost coded = { Prim.hlevel (codes, cond_type.the_row.coded, expr_type.the_row.coded) };

    ghost view = { λ e. record { core = e.core; seats = e.seats.items } };

    ghost invariant = { λ e. AreLive e.core e.seats.items };
}

/// The answers to events, what they leave, and the truths that are maintained on the tables that there are then, each
/// of an assertion, in the order of their creation.
#[derive(Drop)]
pub struct Outcome {
    pub answers: Vec<Answer>,
    pub engine: Engine,
    /// On the committed tables.
    pub committed: Vec<Truth>,
    /// On the own view of each seat's open transaction; none where no transaction is open.
    pub live: Vec<Option<Vec<Truth>>>,
}

impl Engine {
    /// Before the first of these events, whose sessions get a seat each, over tables on which no assertion is
    /// false, with at most so many commits.
    #[tactic(auto, using(crate::proofs::Seating::enough))]
    pub fn new(
        alloc: Global,
        limit: u32,
        loaded: View,
        lines: &[ScriptLine],
    ) -> Result<Engine, AllocError>
        requires sound { IsSound loaded.declared loaded.state }
        ensures { IfOk result (λ engine. engine ≡ beginning limit loaded lines.now) }
    {
        // (a script has no more sessions than lines)
        match Engine::with_few_sessions(alloc, limit, loaded, lines, lines.len())? {
            Some(engine) => Ok(engine),
            None => unreachable!(),
        }
    }

    /// As [`Engine::new`]; or none where the events are of more than so many sessions, and the tables are let go then.
    pub fn with_few_sessions(
        alloc: Global,
        limit: u32,
        loaded: View,
        lines: &[ScriptLine],
        most: usize,
    ) -> Result<Option<Engine>, AllocError>
        requires sound { IsSound loaded.declared loaded.state }
        ensures engine { IfOk result (λ made. IfSome made (λ engine. engine ≡ beginning limit loaded lines.now)) }
        ensures few { IfOk result (λ made. is_some made ≡ nat_le (length (seats_with_all [] lines.now)) most) }
    {
        match seat_few(alloc, lines, most)? {
            Some(seats) => {
                let core = Core::new(alloc, limit, loaded)?;
                Ok(Some(Engine { core, seats }))
            }
            None => {
                drop(loaded);
                Ok(None)
            }
        }
    }

    /// A seat for a session that comes later, if it has none. An event of a session without a seat is refused. Where
    /// memory runs out, nothing has changed.
    pub fn seat(&mut self, session: &Text) -> Result<(), AllocError>
        ensures seated { OnOk result (self.new ≡ record self.old { seats = seats_with self.old.seats session.now }) }
        ensures same { OnErr result (self.new ≡ self.old) }
    {
        seat_session(&mut self.seats, session)
    }

    /// Takes the seat of a session away, if it has one, and rolls its open transaction back. The seat is free for
    /// another session then. It takes no memory.
    pub fn unseat(&mut self, session: &Text)
        ensures { self.new ≡ without_session self.old session.now }
    {
        let Some(place) = find_seat(self.seats.as_slice(), session) else {
            return;
        };
        drop(roll_back(&mut self.core, &mut self.seats[place]));
        drop(self.seats.remove(place));
    }

    /// Answers an event. Where no memory is found, that is the answer, and nothing has changed. That can come only to
    /// BEGIN outside a transaction, and to a statement or COMMIT inside one: everything else takes none.
    pub fn answer(&mut self, line: &ScriptLine) -> Answer
        ensures answered { IsAnswered self.old line.now result }
        ensures after { self.new ≡ after self.old line.now result }
    {
        let Some(place) = find_seat(self.seats.as_slice(), &line.session) else {
            return Answer::Refused(Refusal::TooManySessions);
        };
        let answered = answer_event(&mut self.core, &mut self.seats[place], line);
        as_answer(answered)
    }

    /// Answers an event as [`Engine::answer`] does, but a commit counts only once it is kept. An event that is not
    /// answered has changed nothing: there was no memory, or its commit could not be kept.
    pub fn answer_kept<K: Keeper>(
        &mut self,
        line: &ScriptLine,
        keeper: &mut K,
    ) -> Result<Answer, Unanswered>
        requires expected { K.expects keeper.old (length self.old.core.records + 1) }
        ensures answered { IfOk result (IsAnswered self.old line.now) }
        ensures after { IfOk result (λ answer. self.new ≡ after self.old line.now answer) }
        ensures same { OnErr result (self.new ≡ self.old) }
        ensures asked { IsAskedFor K.did_keep keeper.old keeper.new self.old.core.records self.new.core.records
            result }
    {
        let Some(place) = find_seat(self.seats.as_slice(), &line.session) else {
            return Ok(Answer::Refused(Refusal::TooManySessions));
        };
        answer_event_kept(&mut self.core, &mut self.seats[place], line, keeper)
    }

    /// Begins a new epoch, as [`Core::checkpoint`] does, and hands out what the epoch before left. The sessions keep
    /// their seats.
    ///
    /// # Errors
    ///
    /// [`Refusal::TransactionOpen`] while a transaction is open; else those of [`Core::checkpoint`]. Nothing has
    /// changed then.
    pub fn checkpoint(
        &mut self,
        dropped: &[Text],
        created: &[NewAssertion],
    ) -> Result<Core, Refusal>
        ensures before { IfOk result (λ before. before ≡ self.old.core) }
        ensures closed { IfOk result (λ _. is_any_open self.old.seats ≡ false) }
        ensures after { IfOk result (λ _. IsNextEpoch dropped.now created.now self.old.core self.new.core) }
        ensures seats { IfOk result (λ _. self.new.seats ≡ self.old.seats) }
        ensures refused { IfErr result (λ refusal. refusal ≢ NoMemory
            → next_start_of dropped.now created.now self.old ≡ Err refusal) }
        ensures same { OnErr result (self.new ≡ self.old) }
    {
        if is_any_open(self.seats.as_slice()) {
            return Err(Refusal::TransactionOpen);
        }
        self.core.checkpoint(dropped, created)
    }

    /// The committed transactions.
    pub fn core(&self) -> &Core
        ensures { result.now ≡ self.now.core }
    {
        &self.core
    }

    /// The sessions, in the order of their first events, each with its open transaction, if one is open.
    pub fn seats(&self) -> &[Seat]
        ensures { result.now ≡ self.now.seats }
    {
        self.seats.as_slice()
    }
}

/// Answers events of any sessions, one after the other, from tables on which no assertion is false, with at most so
/// many commits. Should the answers themselves find no memory, the run ends there, and what
/// is answered is the beginning of the list. An error is that memory ran out before the first event, or behind the last
/// for the truths.
pub fn run(
    alloc: Global,
    limit: u32,
    loaded: View,
    lines: &[ScriptLine],
) -> Result<Outcome, AllocError>
    requires sound { IsSound loaded.declared loaded.state }
    ensures within { IfOk result (λ outcome. length outcome.answers.items ≤ length lines.now) }
    ensures answers { IfOk result (λ outcome.
        AreAnswers (beginning limit loaded lines.now) (take (length outcome.answers.items) lines.now)
        outcome.answers.items) }
    ensures left { IfOk result (λ outcome.
        outcome.engine
        ≡ led_to (beginning limit loaded lines.now) (take (length outcome.answers.items) lines.now)
        outcome.answers.items) }
    ensures verdicts { IfOk result (λ outcome.
        outcome.committed.items ≡ truths_on (newest_tables outcome.engine.core)) }
    ensures live { IfOk result (λ outcome.
        map (option_map (λ truths. truths.items)) outcome.live.items ≡ map live_truths outcome.engine.seats) }
    ensures serializable { IfOk result (λ outcome. IsSerializable outcome.engine.core) }
    ensures told { IfOk result (λ outcome.
        WereToldAlone outcome.engine.core (take (length outcome.answers.items) lines.now) outcome.answers.items) }
    ensures fit { IfOk result (λ outcome. AllFit outcome.engine) }
{
    // (that the loaded rows fit is known of a view where its catalog is lent)
    let _ = loaded.catalog();
    let mut engine = Engine::new(alloc, limit, loaded, lines)?;
    let mut answers = Vec::new(alloc);
    answer_all(&mut engine, lines, &mut answers);
    answers_lead_to_a_serial_order();
    let committed = list_truths(alloc, engine.core.newest())?;
    let live = list_live_truths(alloc, engine.seats.as_slice())?;
    Ok(Outcome {
        answers,
        engine,
        committed,
        live,
    })
}

/// Answers events up to the first for whose answer there is no room.
fn answer_all(engine: &mut Engine, lines: &[ScriptLine], answers: &mut Vec<Answer>)
    requires { answers.old.items ≡ [] }
    ensures within { length answers.new.items ≤ length lines.now }
    ensures answers { AreAnswers engine.old (take (length answers.new.items) lines.now) answers.new.items }
    ensures left { engine.new ≡ led_to engine.old (take (length answers.new.items) lines.now) answers.new.items }
{
    for line in lines {
        if !answer_next(engine, line, answers) {
            return;
        }
    }
}

/// Answers an event, if there is room for the answer.
fn answer_next(engine: &mut Engine, line: &ScriptLine, answers: &mut Vec<Answer>) -> bool
    ensures answered { result ≡ true → IsNext engine.old line.now answers.old.items engine.new answers.new.items }
    ensures same { result ≡ false → (engine.new ≡ engine.old) × (answers.new.items ≡ answers.old.items) }
{
    if answers.reserve(1).is_err() {
        return false;
    }
    let answer = engine.answer(line);
    answers.push_reserved(answer);
    true
}

/// Whether a transaction is open.
fn is_any_open(seats: &[Seat]) -> bool
    ensures { result ≡ is_any_open seats.now }
{
    seats.iter().any(|seat| seat.txn.is_some())
}

/// An answer, or that no memory was found.
fn as_answer(answered: Result<Answer, AllocError>) -> Answer
    ensures { result ≡ as_answer answered }
{
    match answered {
        Ok(answer) => answer,
        Err(_) => Answer::Refused(Refusal::NoMemory),
    }
}
