//! A piece is answered.

ghost use Rattle.std.specs.Prelude.{◌≡◌, false, IfErr, IfOk, OnErr, OnOk};
ghost use Rattle.shell.specs.Cuts as cut;
ghost use Rattle.shell.specs.Headings as heading;
ghost use Rattle.shell.specs.Outcomes as spec;
ghost use Rattle.shell.specs.Outcomes.{IsBreak, IsFaultOf, IsLineOf};
ghost use Rattle.shell.specs.Seats.{engine_with_seat};
ghost use Rattle.shell.specs.Writing.{Answers, Breaks, IsAnsweredNow};

use crate::headings::{is_blank, read_address};
use alone::Answer;
use commit::Engine;
use parse::parse_statement;
use replay::MOST_SESSIONS;
use report::{write_refusal, write_reply};
use std::alloc::{AllocError, Global};
use std::io;
use std::io::Write;
use syntax::ScriptLine;
use value::{Refusal, Text};

/// The name of the input in the line of a piece that is no event.
pub const NAME: &str = "SCRIPT";

/// So many bytes further on. It stops at the largest place that there is.
fn forward(at: usize, count: usize) -> usize
    ensures { result ≡ cut.forward at count }
{
    at.saturating_add(count)
}

/// A refusal that names a place of the event, by the place in the input.
fn refusal_in_input(at: usize, refusal: Refusal) -> Refusal
    ensures { result ≡ spec.refusal_in_input at refusal }
{
    match refusal {
        Refusal::Syntax { at: place } => Refusal::Syntax {
            at: forward(at, place),
        },
        Refusal::TooDeep { at: place } => Refusal::TooDeep {
            at: forward(at, place),
        },
        other => other,
    }
}

/// The event of a piece that has a token.
#[tactic(auto, using(crate::proofs::Refusals::fault_of_memory, crate::proofs::Refusals::fault_of_text, crate::proofs::Refusals::line_of_text))]
pub fn read_line(alloc: Global, at: usize, bytes: &[u8]) -> Result<ScriptLine, Refusal>
    requires some { heading.is_blank bytes.now ≡ false }
    ensures read { IfOk result (IsLineOf bytes.now) }
    ensures refused { IfErr result (IsFaultOf (record { at = at; bytes = bytes.now })) }
{
    let address = read_address(alloc, bytes)?;
    match parse_statement(alloc, &bytes[address.from..]) {
        Ok(event) => Ok(ScriptLine {
            session: address.session,
            event,
        }),
        Err(refusal) => Err(refusal_in_input(forward(at, address.from), refusal)),
    }
}

/// A seat for a session, if it has none and there is one.
pub fn welcome(engine: &mut Engine, session: &Text) -> Result<(), AllocError>
    ensures seated { OnOk result (engine.new ≡ engine_with_seat engine.old session.now) }
    ensures same { OnErr result (engine.new ≡ engine.old) }
{
    if engine.seats().len() < MOST_SESSIONS {
        engine.seat(session)
    } else {
        Ok(())
    }
}

/// Answers the event of a piece that has a token.
#[tactic(auto, using(crate::proofs::Refusals::fault_of_memory))]
fn run_piece(
    alloc: Global,
    engine: &mut Engine,
    at: usize,
    bytes: &[u8],
) -> Result<(ScriptLine, Answer), Refusal>
    requires some { heading.is_blank bytes.now ≡ false }
    ensures read { IfOk result (λ told. IsLineOf bytes.now told.0) }
    ensures answered { IfOk result (λ told. IsAnsweredNow engine.old told.0 told.1 engine.new) }
    ensures refused { IfErr result (IsFaultOf (record { at = at; bytes = bytes.now })) }
    ensures same { OnErr result (engine.new ≡ engine.old) }
{
    let line = read_line(alloc, at, bytes)?;
    if let Err(_) = welcome(engine, &line.session) {
        drop(line);
        return Err(Refusal::NoMemory);
    }
    let answer = engine.answer(&line);
    Ok((line, answer))
}

/// Answers a piece, and writes its line.
#[tactic(auto, using(crate::proofs::Refusals::answers_blank, crate::proofs::Refusals::answers_fault))]
pub fn answer_piece<W: Write>(
    alloc: Global,
    engine: &mut Engine,
    at: usize,
    bytes: &[u8],
    out: &mut W,
) -> io::Result<()>
    ensures { OnOk result
        (Answers engine.old (record { at = at; bytes = bytes.now }) engine.new (W.contents out.old)
        (W.contents out.new)) }
{
    if is_blank(bytes) {
        return Ok(());
    }
    match run_piece(alloc, engine, at, bytes) {
        Ok((line, answer)) => {
            let written = write_reply(&line, &answer, out);
            drop(answer);
            drop(line);
            written
        }
        Err(refusal) => write_refusal(NAME, &refusal, out),
    }
}

/// Why what is left at the end of the input is no event, of a rest that has a token.
#[tactic(auto, using(crate::proofs::Refusals::break_of_memory, crate::proofs::Refusals::break_of_text))]
fn refuse_rest(alloc: Global, at: usize, bytes: &[u8]) -> Refusal
    requires some { heading.is_blank bytes.now ≡ false }
    ensures { IsBreak (record { at = at; bytes = bytes.now }) result }
{
    match read_address(alloc, bytes) {
        Err(_) => Refusal::NoMemory,
        Ok(address) => {
            let text = &bytes[address.from..];
            let place = forward(at, address.from);
            match parse_statement(alloc, text) {
                Ok(event) => {
                    drop(event);
                    // (its semicolon is missing)
                    refusal_in_input(place, Refusal::Syntax { at: text.len() })
                }
                Err(refusal) => refusal_in_input(place, refusal),
            }
        }
    }
}

/// Writes the line of what is left at the end of the input.
#[tactic(auto, using(crate::proofs::Refusals::breaks_blank))]
pub fn answer_rest<W: Write>(alloc: Global, at: usize, bytes: &[u8], out: &mut W) -> io::Result<()>
    ensures { OnOk result
        (Breaks (record { at = at; bytes = bytes.now }) (W.contents out.old) (W.contents out.new)) }
{
    if is_blank(bytes) {
        return Ok(());
    }
    let refusal = refuse_rest(alloc, at, bytes);
    write_refusal(NAME, &refusal, out)
}
