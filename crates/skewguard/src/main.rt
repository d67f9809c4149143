//! skewguard replays transactions on tables that SQL-92 assertions guard.
//!
//! An assertion (ISO/IEC 9075:1992, assertion definition) is a rule over whole tables, as "some doctor is on call
//! in every shift" or "no owner's accounts sum below zero". It is satisfied where its condition is not false. The
//! program is given two texts. The definitions say what there is: tables, assertions over them, and the rows to
//! begin with. The script says what sessions do, one event after the other: each begins transactions, changes and
//! reads rows, asks for an assertion's truth, commits and rolls back. The program prints the reply to each event,
//! and in the end the commits, their serial order, the COMMITs that were refused and the truth of each assertion.
//!
//! `skewguard replay` runs the events in their order. What it promises, from bytes to bytes, is the contract of
//! `replay::replay_into`; what that stands on is told there.
//!
//! `skewguard threads` runs each session of a script on a thread of its own, over one manager (`session`), and
//! prints the same lines by session; what it promises stands at `threads::threads_into`. The texts, the faults and
//! the closing part are the same for both (`replay`). With a journal each COMMIT is on the disk before it counts
//! (`runs_on_journal`, over `threads::threads_on_journal`).
//!
//! `skewguard shell` answers events from standard input, each at once; what it promises of a pipe, from bytes to bytes,
//! stands at `shell::shell_into`. On a terminal it talks (`shell::converse_into`). With a journal it answers each
//! COMMIT once it is on the disk (`ledgers`, over `durable` and `journal_file`).
//!
//! `skewguard check` runs nothing. It shows what the definitions define and what their assertions cost, and of each
//! text its first fault, with its line and what may stand there (`checkup`).
//!
//! `skewguard explain` says why events of a script are answered so, `skewguard picture` draws its transactions and
//! their conflicts (`history`, `explain`, `picture`), `skewguard postgresql` prints the definitions as SQL for another
//! engine (`postgresql`), and `skewguard sqlite` the rows, of a journal too, for one that only asks (`sqlite_text`).
//!
//! The module `program` is the command line: which subcommand is meant, and the status to end with. `commands` has the
//! words that are taken; `runs`, `runs_on_journal`, `shells`, `checks`, `explanations`, `translations` and `dumps` what
//! they do; `files` and `texts` what is read, `signs` the line that shows on a terminal that long work goes on, and
//! `endings` what is said of a run that failed. A further subcommand is a function in `commands` and a line in
//! `program::run_named`.
#![tactic(auto)]

mod checks;
mod commands;
mod dumps;
mod endings;
mod explanations;
mod files;
mod follows;
mod held;
mod journals;
mod ledgers;
mod program;
mod runs;
mod runs_on_journal;
mod shells;
mod signs;
mod texts;
mod translations;

use files::Streams;
use signs::Sign;
use std::io::IsTerminal;
use std::process::ExitCode;

fn main(rt: HostRuntime) -> ExitCode {
    let in_is_terminal = rt.stdin().is_terminal();
    let sign = Sign::new();
    let mut out = sign.beside(&rt, rt.stdout());
    let mut err = sign.beside(&rt, rt.stderr());
    let (out_is_terminal, err_is_terminal) = (out.is_terminal, err.is_terminal);
    let mut streams = Streams {
        out: &mut out,
        err: &mut err,
        in_is_terminal,
        out_is_terminal,
        err_is_terminal,
        sign: &sign,
    };
    ExitCode::from(program::command_line(&rt, &mut streams))
}
