//! The scripts of the sessions.

ghost use Rattle.std.specs.Prelude.{◌≡◌, ◌<◌, ◌∷◌, ◌++◌, [], length, reverse, IfOk, IfSome, OnOk};
ghost use Rattle.threads.specs.Adding.{scripts_with_line, first_line, script_of, with_line};
ghost use Rattle.threads.specs.Grouping.{scripts_of};

use crate::scripts::Script;
use sqlite_items::Items;
use std::alloc::{AllocError, Global};
use syntax::ScriptLine;
use value::Text;

/// A script for each session of some lines, in the order of their first lines, with the lines of that session in
/// their order.
#[tactic(auto, using(crate::proofs::Collecting::group_step, crate::proofs::Collecting::group_start))]
pub fn group_by_session(alloc: Global, lines: Items<ScriptLine>) -> Result<Vec<Script>, AllocError>
    ensures { IfOk result (λ scripts. scripts.items ≡ scripts_of lines) }
{
    let mut left = reverse(alloc, lines)?;
    let mut scripts = Vec::new(alloc);
    'group: while let Some(line) = left.pop() {
        add_line(alloc, &mut scripts, line)?;
    }
    Ok(scripts)
}

/// The lines from the last to the first.
#[tactic(auto, using(value::proofs::Lists::turn_step))]
fn reverse(alloc: Global, mut lines: Items<ScriptLine>) -> Result<Items<ScriptLine>, AllocError>
    ensures { IfOk result (λ turned. turned ≡ reverse lines) }
{
    let mut turned = Items::new(alloc);
    'turn: while let Some(line) = lines.pop() {
        turned.push(line)?;
    }
    Ok(turned)
}

/// Adds a line to the script of its session, which comes last where it is new.
fn add_line(alloc: Global, scripts: &mut Vec<Script>, line: ScriptLine) -> Result<(), AllocError>
    ensures { OnOk result (scripts.new.items ≡ scripts_with_line scripts.old.items line) }
{
    match place_of(scripts.as_slice(), &line.session) {
        Some(place) => add_to(&mut scripts[place], line),
        None => add_script(alloc, scripts, line),
    }
}

fn add_to(script: &mut Script, line: ScriptLine) -> Result<(), AllocError>
    ensures { OnOk result (script.new ≡ with_line line script.old) }
{
    script.lines.push(line)?;
    Ok(())
}

fn add_script(alloc: Global, scripts: &mut Vec<Script>, line: ScriptLine) -> Result<(), AllocError>
    ensures { OnOk result (scripts.new.items ≡ scripts.old.items ++ first_line line ∷ []) }
{
    let script = first_line(alloc, line)?;
    scripts.push(script)?;
    Ok(())
}

/// The script of a session with its first line.
fn first_line(alloc: Global, line: ScriptLine) -> Result<Script, AllocError>
    ensures { IfOk result (λ script. script ≡ first_line line) }
{
    let name = match line.session.copy() {
        Ok(name) => name,
        Err(_) => return Err(drop_for_no_memory(line)),
    };
    let mut lines = Items::new(alloc);
    match lines.push(line) {
        Ok(()) => Ok(Script { name, lines }),
        Err(failed) => Err(drop_for_no_memory(failed)),
    }
}

/// Lets go of what there was no memory for. (A function of its own, since its type hides how large that is.)
fn drop_for_no_memory<T: Drop>(_left: T) -> AllocError {
    AllocError
}

/// The place of a session's script. It takes no memory.
fn place_of(scripts: &[Script], session: &Text) -> Option<usize>
    ensures found { result ≡ script_of scripts.now session.now }
    ensures within { IfSome result (λ place. place < length scripts.now) }
{
    scripts.iter().position(|script| script.name == *session)
}
