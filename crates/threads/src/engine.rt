//! From two texts to a report.

ghost use Rattle.std.specs.Prelude.{◌≡◌, ◌≢◌, ◌≤◌, ◌⊎◌, true, false, IfOk, IfErr, OnOk};
ghost use Rattle.value.specs.declared.refusals.Refusal.TheVariants.{NoMemory, TooManySessions};
ghost use Rattle.replay.specs.declared.faults.ProgramFault.TheVariants.{NoThread, Stopped};
ghost use Rattle.replay.specs.Texts.{HasFewSessions, HasManySessions, IsFirstFault, is_before_the_run, most_sessions};
ghost use Rattle.threads.specs.Grouping.{scripts_of};
ghost use Rattle.threads.specs.Grouped.{AreOpened, WritesGrouped};

use crate::gates::Gate;
use crate::grouping::group_by_session;
use crate::printing::print_report;
use crate::runs::run_sessions;
use crate::scripts::Script;
use commit::has_few_sessions;
use replay::{MOST_SESSIONS, ProgramFault, read_texts};
use session::{Limits, Manager, Named, Shelf};
use sqlite_items::Items;
use std::alloc::Global;
use std::io::Write;
use std::mem::forget;
use std::sync::Wait;
use std::thread::Threads;
use syntax::ScriptLine;
use value::Refusal;

/// Runs a script of any sessions on definitions, with a thread for each session, on a shelf that is the manager's
/// of this id, with at most so many commits. It writes all lines of a session together, sessions by their first
/// events, and then the closing part, of what the definitions define.
///
/// Where both texts are read, the definitions are taken in and the script has 256 sessions or fewer, its events are
/// run. The writer then gains the report of what the threads were answered and of the commits that they made, and
/// nothing else. An event that finds no memory is answered so, and changes nothing. Of what was run the memory is not
/// given back: this is a program's last work.
///
/// # Errors
///
/// The first fault in the order of the work: [`ProgramFault::Defs`] where the definitions are no text of their
/// grammar; [`ProgramFault::Script`] where the script is none of its own; `Defs` again where the definitions are
/// refused; `Script` of [`Refusal::TooManySessions`] where the script has more than 256 sessions. After each of
/// these the writer is as it was, and nothing was run. Then [`ProgramFault::Output`] at the first fault of the writer,
/// which may have taken a part of the report; and [`ProgramFault::NoThread`] where a session got no thread or no place,
/// of which its one line says why: the whole report was then written. [`ProgramFault::Stopped`] would be answered if
/// what lies under the manager's lock were another's, which no call brings about: nothing was then written.
#[tactic(auto, using(crate::proofs::Reporting::first_fault, crate::proofs::Reporting::nothing_before, crate::proofs::Reporting::no_room))]
pub fn threads_into<N, R, G, W>(
    rt: &R,
    alloc: Global,
    shelf: Shelf,
    id: u64,
    defs: &[u8],
    script: &[u8],
    max_commits: u32,
    gate: &G,
    out: &mut W,
) -> Result<(), ProgramFault>
where
    N: Named + Send + Sync,
    R: Threads + Wait + Sync,
    G: Gate + Sync,
    W: Write,
    requires some { 1 ≤ max_commits }
    requires shelf { shelf ≡ N.shelf id }
    requires limits { N.limits id ≡ record { commits = max_commits; sessions = most_sessions } }
    ensures written { OnOk result
        (WritesGrouped defs.now script.now max_commits true (W.contents out.old) (W.contents out.new)) }
    ensures no_thread { IfErr result (λ fault. fault ≡ NoThread
        → WritesGrouped defs.now script.now max_commits false (W.contents out.old) (W.contents out.new)) }
    ensures refused { IfErr result (λ fault. fault ≢ NoThread → IsFirstFault defs.now script.now fault) }
    ensures nothing { IfErr result (λ fault. is_before_the_run fault ≡ true → out.new ≡ out.old) }
    ensures stopped { IfErr result (λ fault. fault ≡ Stopped → out.new ≡ out.old) }
{
    let (manager, scripts) = open_manager::<N, R>(rt, alloc, shelf, id, defs, script, max_commits)?;
    let answered = match run_sessions(rt, alloc, &manager, scripts.as_slice(), gate) {
        Ok(answered) => answered,
        Err(_) => return Err(ProgramFault::Script(Refusal::NoMemory)),
    };
    let history = manager.close();
    let printed = print_report(&history, None, scripts.as_slice(), answered.as_slice(), out);
    // (to let 100,000 versions of tables go one by one takes a third of a run, and the process ends behind it)
    forget(history);
    forget(answered);
    forget(scripts);
    printed
}

/// The manager of what the definitions define, and the scripts of the sessions.
#[tactic(auto, using(crate::proofs::Reporting::are_opened, replay::proofs::Taking::not_admitted))]
fn open_manager<N: Named, R: Wait>(
    rt: &R,
    alloc: Global,
    shelf: Shelf,
    id: u64,
    defs: &[u8],
    script: &[u8],
    max_commits: u32,
) -> Result<(Manager<N>, Vec<Script>), ProgramFault>
    requires some { 1 ≤ max_commits }
    requires shelf { shelf ≡ N.shelf id }
    requires limits { N.limits id ≡ record { commits = max_commits; sessions = most_sessions } }
    ensures opened { IfOk result (λ made. AreOpened defs.now script.now made.0.loaded.value.view made.1.items) }
    ensures id { IfOk result (λ made. made.0.id ≡ id) }
    ensures refused { IfErr result (IsFirstFault defs.now script.now) }
    ensures before { IfErr result (λ fault. is_before_the_run fault ≡ true) }
{
    let (taken, lines) = read_texts(alloc, defs, script)?;
    let manager = match Manager::open(rt, alloc, shelf, id, taken, limits_of(max_commits)) {
        Ok(manager) => manager,
        Err(refusal) => return Err(ProgramFault::Defs(refusal)),
    };
    match require_few_scripts(alloc, lines) {
        Ok(scripts) => Ok((manager, scripts)),
        Err(refusal) => Err(ProgramFault::Script(refusal)),
    }
}

/// So many commits, and as many sessions as a script may have.
pub(crate) fn limits_of(max_commits: u32) -> Limits
    requires some { 1 ≤ max_commits }
    ensures { result ≡ record { commits = max_commits; sessions = most_sessions } }
{
    match Limits::new(max_commits, MOST_SESSIONS as u64) {
        Some(limits) => limits,
        None => unreachable!(),
    }
}

/// The scripts of the sessions, if they are 256 or fewer.
#[tactic(auto, using(crate::proofs::Collecting::few, crate::proofs::Collecting::many))]
pub(crate) fn require_few_scripts(
    alloc: Global,
    lines: Items<ScriptLine>,
) -> Result<Vec<Script>, Refusal>
    ensures grouped { IfOk result (λ scripts. scripts.items ≡ scripts_of lines) }
    ensures few { IfOk result (λ _. HasFewSessions lines) }
    ensures refused { IfErr result (λ refusal.
        (refusal ≡ NoMemory) ⊎ (HasManySessions lines × (refusal ≡ TooManySessions))) }
{
    if !has_few_sessions(alloc, lines.as_slice(), MOST_SESSIONS)? {
        drop(lines);
        return Err(Refusal::TooManySessions);
    }
    let scripts = group_by_session(alloc, lines)?;
    Ok(scripts)
}
