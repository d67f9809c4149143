//! A thread for each script.

ghost use Rattle.std.specs.Prelude.{◌≡◌, ◌≤◌, [], length, map, vec_capacity, IfOk};
ghost use denote.Param.Send.{IsSend, IsSync};
ghost use Rattle.session.specs.Books.{IsFresh};
ghost use Rattle.threads.specs.Scripts.{AreAnswered, IsAnswered, answers_without_thread};
ghost use Rattle.threads.specs.Lines.{AreTold, IsScriptRun};

use crate::gates::Gate;
use crate::keeping::Commits;
use crate::lines::{LineOutcome, end, run_event};
use crate::scripts::{Script, ScriptAnswers};
use alone::Answer;
use journal::{Device, Memory};
use session::{Manager, Named, Session, Txn};
use sqlite_items::Items;
use std::alloc::{AllocError, Global};
use std::sync::Wait;
use std::thread;
use std::thread::Threads;
use syntax::ScriptLine;
use value::Refusal;

/// Where a thread leaves what its script was answered. Until it has run, it says that it got no session.
#[derive(Drop)]
struct Room {
    answers: Vec<Answer>,
    refusal: Option<Refusal>,
    rolled_back: bool,
    /// For each line, whether it is a COMMIT that could not be kept.
    unkept: Vec<bool>,
}

/// What the threads of all scripts share.
#[derive(Drop)]
struct Stage<'a, N: Named, R, G, D: Device> {
    rt: &'a R,
    manager: &'a Manager<N>,
    commits: &'a Commits<D>,
    gate: &'a G,
}

/// Runs each script on a thread of its own, with a session of its name, and gives what each was answered in the
/// scripts' order. A transaction that is open at a script's end is rolled back. A script that gets no thread, or no
/// session, is not run; the others are. Gates may hold threads, for which nothing of this call returning is
/// claimed. An error is that there is no room for all lists of answers. Nothing was then run.
pub fn run_sessions<N: Named + Send + Sync, R: Threads + Wait + Sync, G: Gate + Sync>(
    rt: &R,
    alloc: Global,
    manager: &Manager<N>,
    scripts: &[Script],
    gate: &G,
) -> Result<Vec<ScriptAnswers>, AllocError>
    ensures { IfOk result (λ answered. AreAnswered scripts.now answered.items) }
{
    run_sessions_kept::<N, R, G, Memory>(rt, alloc, manager, &Commits::AtOnce, scripts, gate)
}

/// Runs each script as [`run_sessions`] does, but a commit counts only once it is kept, where commits are kept.
#[tactic(auto, using(crate::proofs::Lists::all_unrun))]
pub fn run_sessions_kept<N, R, G, D>(
    rt: &R,
    alloc: Global,
    manager: &Manager<N>,
    commits: &Commits<D>,
    scripts: &[Script],
    gate: &G,
) -> Result<Vec<ScriptAnswers>, AllocError>
where
    N: Named + Send + Sync,
    R: Threads + Wait + Sync,
    G: Gate + Sync,
    D: Device + Send,
    ensures { IfOk result (λ answered. AreAnswered scripts.now answered.items) }
{
    let mut answered = answer_all_unrun(alloc, scripts)?;
    let mut rooms = make_rooms(alloc, scripts)?;
    // (the bounds again, since the answer to whether a thread may take the manager can't name them from inside)
    thread::scope(
        thread::scope_env(),
        rt,
        |scope|
            requires sends { IsSend N.row }
            requires shares { IsSync N.row }
            requires runtime { IsSync R.row }
            requires gate { IsSync G.row }
            requires device { IsSend D.row }
        {
            for ((at, script), room) in scripts.iter().enumerate().zip(rooms.iter_mut()) {
                let _ = scope.spawn(move || {
                    let stage = Stage {
                        rt,
                        manager,
                        commits,
                        gate,
                    };
                    run_script(&stage, script, at, room)
                });
            }
        },
    );
    settle_all(scripts, &mut answered, rooms);
    Ok(answered)
}

/// The answers of scripts that got no thread.
fn answer_all_unrun(alloc: Global, scripts: &[Script]) -> Result<Vec<ScriptAnswers>, AllocError>
    ensures { IfOk result (λ answered. answered.items ≡ map answers_without_thread scripts.now) }
{
    let mut answered = Vec::with_capacity(alloc, scripts.len())?;
    for script in scripts {
        answered.push(answer_unrun(alloc, script)?)?;
    }
    Ok(answered)
}

fn answer_unrun(alloc: Global, script: &Script) -> Result<ScriptAnswers, AllocError>
    ensures { IfOk result (λ answered. answered ≡ answers_without_thread script.now) }
{
    let mut answers = Items::new(alloc);
    answers.push(Answer::Refused(Refusal::TooManySessions))?;
    Ok(ScriptAnswers {
        name: script.name.copy()?,
        answers,
        ran: false,
        rolled_back: false,
        unkept: Items::new(alloc),
    })
}

/// Room for an answer to each line of each script.
fn make_rooms(alloc: Global, scripts: &[Script]) -> Result<Vec<Room>, AllocError> {
    let mut rooms = Vec::with_capacity(alloc, scripts.len())?;
    for script in scripts {
        rooms.push(make_room(alloc, script.lines.len())?)?;
    }
    Ok(rooms)
}

fn make_room(alloc: Global, lines: usize) -> Result<Room, AllocError> {
    Ok(Room {
        answers: Vec::with_capacity(alloc, lines)?,
        refusal: Some(Refusal::TooManySessions),
        rolled_back: false,
        unkept: Vec::with_capacity(alloc, lines)?,
    })
}

/// Runs a script in a session of its name. Where it leaves no refusal, its answers chain from outside a transaction.
fn run_script<N: Named, R: Wait, G: Gate, D: Device>(
    stage: &Stage<'_, N, R, G, D>,
    script: &Script,
    at: usize,
    room: &mut Room,
)
    ensures { room.new.refusal ≡ None
        → IsScriptRun
        (IsFresh (N.shelf stage.now.manager.now.id) stage.now.manager.now.id stage.now.manager.now.epoch)
        script.now.lines room.new.answers.items room.new.rolled_back }
{
    let lines = script.lines.as_slice();
    room.answers.clear();
    room.unkept.clear();
    // (there is room already, which is not known here of what another thread has made)
    if room.answers.reserve(lines.len()).is_err() || room.unkept.reserve(lines.len()).is_err() {
        room.refusal = Some(Refusal::NoMemory);
        return;
    }
    let mut session = match stage.manager.session(stage.rt, &script.name) {
        Ok(session) => session,
        Err(refusal) => {
            room.refusal = Some(refusal);
            return;
        }
    };
    room.refusal = None;
    let open = run_lines(stage, &mut session, lines, at, room);
    room.rolled_back = end(stage.rt, stage.manager, open);
}

/// Runs the lines of a script in a session that has seen nothing, and notes what each was answered. The transaction
/// that is open behind the last is handed on.
fn run_lines<N: Named, R: Wait, G: Gate, D: Device>(
    stage: &Stage<'_, N, R, G, D>,
    session: &mut Session<N>,
    lines: &[ScriptLine],
    at: usize,
    room: &mut Room,
) -> Option<Txn<N>>
    requires new { session.old.seen ≡ 0 }
    requires none { room.old.answers.items ≡ [] }
    requires unmarked { room.old.unkept.items ≡ [] }
    requires room { length lines.now ≤ vec_capacity room.old.answers }
    requires marks { length lines.now ≤ vec_capacity room.old.unkept }
    ensures { AreTold (IsFresh (N.shelf stage.now.manager.now.id) stage.now.manager.now.id stage.now.manager.now.epoch)
        lines.now 0 None room.new.answers.items result }
{
    let mut open: Option<Txn<N>> = None;
    for line in lines {
        let place = room.answers.len();
        stage.gate.before(at, place);
        let outcome = run_event(
            stage.rt,
            stage.manager,
            stage.commits,
            session,
            open,
            &line.event,
        );
        let LineOutcome {
            answer,
            txn: next,
            is_unkept,
        } = outcome;
        open = next;
        room.answers.push_reserved(answer);
        room.unkept.push_reserved(is_unkept);
        stage.gate.after(at, place);
    }
    open
}

/// Takes over what the threads left. What is taken over is looked at again, since nothing is known of what threads
/// wrote.
fn settle_all(scripts: &[Script], answered: &mut [ScriptAnswers], rooms: Vec<Room>)
    requires { AreAnswered scripts.now answered.old }
    ensures { AreAnswered scripts.now answered.new }
{
    for (at, room) in rooms.into_iter().enumerate() {
        settle_at(scripts, answered, at, room);
    }
}

#[tactic(auto, using(crate::proofs::Lists::answered_at, crate::proofs::Lists::answered_set))]
fn settle_at(scripts: &[Script], answered: &mut [ScriptAnswers], at: usize, room: Room)
    requires { AreAnswered scripts.now answered.old }
    ensures { AreAnswered scripts.now answered.new }
{
    if at >= scripts.len() || at >= answered.len() {
        return;
    }
    settle(&scripts[at], &mut answered[at], room);
}

/// Takes over what a thread left: an answer for each line, or the refusal of the session.
fn settle(script: &Script, answered: &mut ScriptAnswers, room: Room)
    requires { IsAnswered script.now answered.old }
    ensures { IsAnswered script.now answered.new }
{
    let Room {
        answers,
        refusal,
        rolled_back,
        unkept,
    } = room;
    match refusal {
        None => {
            answered.unkept = Items::from_vec(unkept);
            take_over(script, answered, answers, rolled_back);
        }
        Some(Refusal::NoMemory) => say_no_memory(script, answered),
        Some(_) => {}
    }
}

fn take_over(script: &Script, answered: &mut ScriptAnswers, answers: Vec<Answer>, rolled_back: bool)
    requires { IsAnswered script.now answered.old }
    ensures { IsAnswered script.now answered.new }
{
    if answers.len() != script.lines.len() {
        return;
    }
    answered.answers = Items::from_vec(answers);
    answered.ran = true;
    answered.rolled_back = rolled_back;
}

/// Says of a script that was not run that its session found no memory.
fn say_no_memory(script: &Script, answered: &mut ScriptAnswers)
    requires { IsAnswered script.now answered.old }
    ensures { IsAnswered script.now answered.new }
{
    if answered.ran || answered.answers.is_empty() {
        return;
    }
    answered.answers.set(0, Answer::Refused(Refusal::NoMemory));
}
