//! Scripts on a journal: each commit is on the disk before it counts.

ghost use Rattle.std.specs.Prelude.{◌≡◌, ◌≤◌, true, false, Ok, IfErr, IfOk, OnOk};
ghost use Rattle.replay.specs.declared.faults.ProgramFault.TheVariants.{NoThread, Stopped};
ghost use Rattle.replay.specs.Texts.{is_before_the_run, most_sessions};
ghost use Rattle.commit.specs.Cores.{newest_tables};
ghost use Rattle.durable.specs.Promise.{IsReadyFor};
ghost use Rattle.threads.specs.Kept.{AreScripts, WritesKept};

use crate::engine::{limits_of, require_few_scripts};
use crate::gates::Free;
use crate::keeping::{Commits, Keeping};
use crate::printing::print_report;
use crate::runs::run_sessions_kept;
use crate::scripts::Script;
use commit::Engine;
use definitions::Definitions;
use durable::Ledger;
use journal::Device;
use parse::parse_script;
use replay::ProgramFault;
use session::{Manager, Named, Shelf};
use std::alloc::{AllocError, Global};
use std::io::Write;
use std::mem::forget;
use std::sync::{Mutex, Wait};
use std::thread::Threads;
use value::Refusal;

/// The scripts of the sessions of a text, if it is one of events of 256 sessions or fewer.
///
/// # Errors
///
/// [`ProgramFault::Script`], by why the text is none, of `TooManySessions`, or of `NoMemory`.
pub fn read_scripts(alloc: Global, script: &[u8]) -> Result<Vec<Script>, ProgramFault>
    ensures read { IfOk result (λ scripts. AreScripts script.now scripts.items) }
    ensures before { IfErr result (λ fault. is_before_the_run fault ≡ true) }
{
    let lines = match parse_script(alloc, script) {
        Ok(lines) => lines,
        Err(refusal) => return Err(ProgramFault::Script(refusal)),
    };
    match require_few_scripts(alloc, lines) {
        Ok(scripts) => Ok(scripts),
        Err(refusal) => Err(ProgramFault::Script(refusal)),
    }
}

/// Runs scripts with a thread for each, as [`threads_into`](crate::threads_into) does, on the tables of a ledger that
/// has made no commit since it was opened, with at most so many commits. Each commit is on the disk before it counts,
/// and so each transaction begins on tables that are on the disk. A COMMIT that could not be kept is refused with
/// SQLSTATE 58030, and its transaction is still open.
///
/// # Errors
///
/// [`ProgramFault::Script`] of `NoMemory`: nothing was run, and nothing written. [`ProgramFault::Output`] at the first
/// fault of the writer. [`ProgramFault::NoThread`] where a session got no thread or no place: the whole report was then
/// written. [`ProgramFault::Stopped`] would be answered if what lies under the locks were another's, which no call
/// brings about: nothing was then written.
#[tactic(auto, using(crate::proofs::Reporting::nothing_before))]
pub fn threads_on_journal<N, R, D, W>(
    rt: &R,
    shelf: Shelf,
    ledger: Ledger<D>,
    scripts: &[Script],
    max_commits: u32,
    out: &mut W,
) -> Result<(), ProgramFault>
where
    N: Named + Send + Sync,
    R: AllocGlobal + Threads + Wait + Sync,
    D: Device + Send + Drop,
    W: Write,
    requires some { 1 ≤ max_commits }
    requires shelf { shelf ≡ N.shelf 0 }
    requires limits { N.limits 0 ≡ record { commits = max_commits; sessions = most_sessions } }
    requires ready { IsReadyFor D.seen D.may_leave 1 ledger.writer }
    ensures written { OnOk result
        (WritesKept scripts.now (newest_tables ledger.engine.core) max_commits true
        (W.contents out.old) (W.contents out.new)) }
    ensures no_thread { IfErr result (λ fault. fault ≡ NoThread
        → WritesKept scripts.now (newest_tables ledger.engine.core) max_commits false
        (W.contents out.old) (W.contents out.new)) }
    ensures nothing { IfErr result (λ fault. is_before_the_run fault ≡ true → out.new ≡ out.old) }
    ensures stopped { IfErr result (λ fault. fault ≡ Stopped → out.new ≡ out.old) }
{
    let alloc = rt.alloc();
    let Ledger { engine, writer } = ledger;
    let manager = match open_manager::<N, R>(rt, alloc, shelf, engine, max_commits) {
        Ok(manager) => manager,
        Err(refusal) => return Err(ProgramFault::Script(refusal)),
    };
    let commits = Commits::Kept(Mutex::new(Keeping::new(writer)));
    let answered = match run_sessions_kept(rt, alloc, &manager, &commits, scripts, &Free) {
        Ok(answered) => answered,
        Err(_) => return Err(ProgramFault::Script(Refusal::NoMemory)),
    };
    let history = manager.close();
    let Commits::Kept(keeping) = commits else {
        return Err(ProgramFault::Stopped);
    };
    let next = keeping.into_inner().next();
    let printed = print_report(&history, Some(next), scripts, answered.as_slice(), out);
    // (as in `threads_into`, the process ends behind it)
    forget(history);
    forget(answered);
    printed
}

/// The tables that an engine has.
fn tables_of(alloc: Global, engine: Engine) -> Result<Definitions, AllocError>
    ensures { IfOk result (λ tables. tables ≡ newest_tables engine.core) }
{
    Definitions::of(alloc, engine.core().newest())
}

/// The manager of the tables that an engine has, with at most so many commits.
fn open_manager<N: Named, R: Wait>(
    rt: &R,
    alloc: Global,
    shelf: Shelf,
    engine: Engine,
    max_commits: u32,
) -> Result<Manager<N>, Refusal>
    requires some { 1 ≤ max_commits }
    requires shelf { shelf ≡ N.shelf 0 }
    requires limits { N.limits 0 ≡ record { commits = max_commits; sessions = most_sessions } }
    ensures id { IfOk result (λ manager. manager.id ≡ 0) }
    ensures opened { IfOk result (λ manager. manager.loaded.value.view ≡ newest_tables engine.core) }
{
    let tables = tables_of(alloc, engine)?;
    Manager::open(rt, alloc, shelf, 0, tables, limits_of(max_commits))
}
