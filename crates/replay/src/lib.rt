//! The engine: two texts, of definitions and of a script, are replayed into a writer.
//!
//! [`replay_into`] is the engine, and its contract is the promise of a whole replay, from bytes to bytes: where both
//! texts are read, the definitions are admitted and the script has 256 sessions or fewer, the writer gains exactly the
//! lines that `specs/` says, of answers that the sessions may be given, each after those before it; otherwise it gains
//! nothing, and the answer is the first fault. Once it has begun, only the writer may end the run. What that promise
//! stands on, from the bottom up:
//!
//! * `parse`: a text has the tree that the grammar relates to its tokens, or the stated first fault;
//! * `definitions` and `commit::admit_taken`: what definitions define, and that no assertion is false on the rows they
//!   begin with;
//! * `txn`: a statement alone. After a change each immediate assertion is evaluated on the rows as they then are;
//!   where one is false, the statement is refused with that assertion and its least bad root, and leaves the tables
//!   as they were;
//! * `commit::Engine`: the sessions' transactions, each on the tables that the commits before its begin left, and
//!   what COMMIT answers;
//! * `report`: the bytes of each line.
//!
//! All of these definitions evaluate whole lists of rows from scratch. None of them knows a total or a bad root
//! that is kept: that evaluating afresh and keeping give the same is the promise of the crate `delta`.
//!
//! # Two texts, and the closing part
//!
//! On this rests each way to run a script. The definitions say what there is, and the script what sessions do. Both are
//! read whole before anything runs ([`read_all`], [`read_texts`]). Each definition is taken in as soon as it is read,
//! and its tree is let go then, so that no list of trees stands beside the rows; but a definition that is refused is
//! answered only once both texts are read to their ends. A [`ProgramFault`] is the first fault in the order
//! of the work, which `specs/Texts` says of the two texts alone: the definitions' grammar, the script's, the
//! definitions themselves, too many sessions; and then memory or the writer. Behind the replies stands the closing part
//! of the committed transactions ([`write_closing_part`], `specs/Reports`), however they came to be. What is written
//! takes no memory, so a run that has begun ends at a fault of the writer alone.
#![tactic(auto, using(report::proofs::Chains::appends_more))]

mod closing;
mod faults;
mod files;
mod intakes;
mod texts;

ghost use Rattle.std.specs.Prelude.{◌≡◌, ◌≢◌, ◌≤◌, true, IfOk, IfErr, OnOk};
ghost use Rattle.std.specs.Io.KnownBytes.{Appends};
ghost use Rattle.value.specs.declared.refusals.Refusal.TheVariants.{NoMemory, TooManySessions};
ghost use Rattle.alone.specs.Alone.{IsSound};
ghost use Rattle.commit.specs.Runs.{beginning};
ghost use Rattle.replay.specs.Texts.{HasFewSessions, HasManySessions, IsFirstFault, is_before_the_run};
ghost use Rattle.replay.specs.Lines.{ending, left_line, left_lines, report};
ghost use Rattle.replay.specs.Reports.{answer_lines};
ghost use Rattle.replay.specs.declared.faults.ProgramFault.TheVariants.{Output, Stopped};
ghost use Rattle.replay.specs.Replay.{IsBeginning, WritesReport};
ghost use Rattle.replay.specs.Writing.{PrintsAnswer, PrintsAnswers, PrintsRun};

use alone::Answer;
pub use closing::write_closing_part;
use commit::{Engine, Seat, admit_taken, answers_lead_to_a_serial_order};
use delta::View;
pub use faults::ProgramFault;
pub use files::{ReadFault, fault_of, read_all};
pub use intakes::admit_text;
use report::{write_left_open, write_reply};
use sqlite_items::Items;
use std::alloc::Global;
use std::io;
use std::io::Write;
use syntax::ScriptLine;
pub use texts::{MOST_SESSIONS, read_texts};
use value::Refusal;

/// Replays a script of any sessions on definitions, with at most so many commits, and writes the lines of each
/// answer as soon as it is answered; then a line for each transaction that is left open, and the closing part.
///
/// Where both texts are read, the definitions are taken in and the script has 256 sessions or fewer, its events are
/// run. The writer then gains the report of their answers and of what they leave, and nothing else. The commits that it
/// tells of are serializable in the order that it names, and each committed transaction was told what it answers alone.
/// An event that finds no memory is answered so, and changes nothing; what is written takes none.
///
/// # Errors
///
/// The first fault in the order of the work: [`ProgramFault::Defs`] where the definitions are no text of their
/// grammar; [`ProgramFault::Script`] where the script is none of its own; `Defs` again where the definitions are
/// refused; `Script` of [`Refusal::TooManySessions`] where the script has more than 256 sessions. After each of
/// these the writer is as it was. Then [`ProgramFault::Output`] at the first fault of the writer, after which nothing
/// is known of the bytes that went out.
#[tactic(auto, using(crate::proofs::Reporting::first_fault, crate::proofs::Late::nothing_before, crate::proofs::Late::runs_on))]
pub fn replay_into<W: Write>(
    alloc: Global,
    defs: &[u8],
    script: &[u8],
    max_commits: u32,
    out: &mut W,
) -> Result<(), ProgramFault>
    requires some { 1 ≤ max_commits }
    ensures written { OnOk result
        (WritesReport defs.now script.now max_commits (W.contents out.old) (W.contents out.new)) }
    ensures refused { IfErr result (IsFirstFault defs.now script.now) }
    ensures nothing { IfErr result (λ fault. is_before_the_run fault ≡ true → out.new ≡ out.old) }
    ensures runs { IfErr result (λ fault. fault ≢ Stopped) }
{
    let (mut engine, lines) = begin_run(alloc, defs, script, max_commits)?;
    answers_lead_to_a_serial_order();
    let printed = print_run(&mut engine, lines.as_slice(), out);
    drop(engine);
    drop(lines);
    printed
}

/// The engine before the first event, and the events.
///
/// # Errors
///
/// The faults of [`replay_into`] before the run.
#[tactic(auto, using(crate::proofs::Taking::admitted, crate::proofs::Taking::not_admitted))]
pub fn begin_run(
    alloc: Global,
    defs: &[u8],
    script: &[u8],
    limit: u32,
) -> Result<(Engine, Items<ScriptLine>), ProgramFault>
    ensures begun { IfOk result (λ made. IsBeginning defs.now script.now limit made.0 made.1) }
    ensures refused { IfErr result (IsFirstFault defs.now script.now) }
    ensures before { IfErr result (λ fault. is_before_the_run fault ≡ true) }
{
    let (taken, lines) = read_texts(alloc, defs, script)?;
    let view = match admit_taken(alloc, taken) {
        Ok(view) => view,
        Err(refusal) => return Err(ProgramFault::Defs(refusal)),
    };
    match seat_sessions(alloc, limit, view, lines.as_slice()) {
        Ok(engine) => Ok((engine, lines)),
        Err(refusal) => Err(ProgramFault::Script(refusal)),
    }
}

/// The engine before the first of some events, if they are of 256 sessions or fewer.
fn seat_sessions(
    alloc: Global,
    limit: u32,
    view: View,
    lines: &[ScriptLine],
) -> Result<Engine, Refusal>
    requires sound { IsSound view.declared view.state }
    ensures begun { IfOk result (λ engine. engine ≡ beginning limit view lines.now) }
    ensures few { IfOk result (λ _. HasFewSessions lines.now) }
    ensures refused { IfErr result (λ refusal.
        refusal ≢ NoMemory → HasManySessions lines.now × (refusal ≡ TooManySessions)) }
{
    match Engine::with_few_sessions(alloc, limit, view, lines, MOST_SESSIONS)? {
        Some(engine) => Ok(engine),
        None => Err(Refusal::TooManySessions),
    }
}

/// Runs the events one after the other, and writes what each is answered, and then what they leave.
#[tactic(auto, using(crate::proofs::Printing::closes))]
fn print_run<W: Write>(
    engine: &mut Engine,
    lines: &[ScriptLine],
    out: &mut W,
) -> Result<(), ProgramFault>
    ensures written { OnOk result (PrintsRun engine.old lines.now (W.contents out.old) (W.contents out.new)) }
    ensures output { IfErr result (λ fault. fault ≡ Output) }
{
    print_answers(engine, lines, out)?;
    print_ending(engine, out)
}

/// Runs the events one after the other, and writes what each is answered.
#[tactic(auto, using(crate::proofs::Printing::begins, crate::proofs::Printing::goes_on, crate::proofs::Printing::ends))]
fn print_answers<W: Write>(
    engine: &mut Engine,
    lines: &[ScriptLine],
    out: &mut W,
) -> Result<(), ProgramFault>
    ensures written { OnOk result
        (PrintsAnswers engine.old lines.now engine.new (W.contents out.old) (W.contents out.new)) }
    ensures output { IfErr result (λ fault. fault ≡ Output) }
{
    for line in lines {
        print_answer(engine, line, out)?;
    }
    Ok(())
}

/// Runs an event, and writes what it is answered.
fn print_answer<W: Write>(
    engine: &mut Engine,
    line: &ScriptLine,
    out: &mut W,
) -> Result<(), ProgramFault>
    ensures written { OnOk result
        (PrintsAnswer engine.old line.now engine.new (W.contents out.old) (W.contents out.new)) }
    ensures output { IfErr result (λ fault. fault ≡ Output) }
{
    let answer = engine.answer(line);
    let written = write_reply(line, &answer, out);
    drop(answer);
    written?;
    Ok(())
}

/// Writes a line for each transaction that is open in the end, and the closing part, and flushes the writer.
#[tactic(auto, using(report::proofs::Chains::appends_kept))]
fn print_ending<W: Write>(engine: &Engine, out: &mut W) -> Result<(), ProgramFault>
    ensures written { OnOk result (Appends (W.contents out.old) (W.contents out.new) (ending engine.now)) }
    ensures output { IfErr result (λ fault. fault ≡ Output) }
{
    write_ending(engine, out)?;
    out.flush()?;
    Ok(())
}

/// Writes the report of events and their answers, of which the engine is what they left: the lines of the answers, a
/// line for each transaction that is open in the end, and the closing part.
pub fn write_report<W: Write>(
    lines: &[ScriptLine],
    answers: &[Answer],
    engine: &Engine,
    out: &mut W,
) -> io::Result<()>
    ensures { OnOk result
        (Appends (W.contents out.old) (W.contents out.new) (report lines.now answers.now engine.now)) }
{
    write_replies(lines, answers, out)?;
    write_ending(engine, out)
}

/// Writes the lines of the answers to events, as far as there are both.
pub fn write_replies<W: Write>(
    lines: &[ScriptLine],
    answers: &[Answer],
    out: &mut W,
) -> io::Result<()>
    ensures { OnOk result (Appends (W.contents out.old) (W.contents out.new) (answer_lines lines.now answers.now)) }
{
    let mut left = answers;
    for line in lines {
        let Some((answer, others)) = left.split_first() else {
            return Ok(());
        };
        write_reply(line, answer, out)?;
        left = others;
    }
    Ok(())
}

/// Writes what stands behind the answers: a line for each transaction that is open in the end, and the closing part.
pub fn write_ending<W: Write>(engine: &Engine, out: &mut W) -> io::Result<()>
    ensures { OnOk result (Appends (W.contents out.old) (W.contents out.new) (ending engine.now)) }
{
    write_left_seats(engine.seats(), out)?;
    write_closing_part(engine.core(), out)
}

/// Writes a line for each transaction that is open.
fn write_left_seats<W: Write>(seats: &[Seat], out: &mut W) -> io::Result<()>
    ensures { OnOk result (Appends (W.contents out.old) (W.contents out.new) (left_lines seats.now)) }
{
    for seat in seats {
        write_left_seat(seat, out)?;
    }
    Ok(())
}

fn write_left_seat<W: Write>(seat: &Seat, out: &mut W) -> io::Result<()>
    ensures { OnOk result
        (Appends (W.contents out.old) (W.contents out.new) (left_line seat.now.session seat.now.txn)) }
{
    if seat.txn.is_some() {
        write_left_open(&seat.session, out)?;
    }
    Ok(())
}
