//! The command line: which subcommand is meant, and the status to end with.

ghost use Rattle.std.specs.Prelude.{◌≤◌};
ghost use denote.Param.Send.{IsSync};

use crate::checks::check;
use crate::commands::make_command;
use crate::dumps::dump;
use crate::explanations::{draw, explain};
use crate::files::{OUTSIDE, Streams, USAGE, WELL, report_no_memory, report_unread_words};
use crate::journals::show;
use crate::ledgers::checkpoint;
use crate::runs::{Way, run};
use crate::shells::serve;
use crate::signs::Task;
use crate::translations::translate;
use clap::ArgMatches;
use std::fs::File;
use std::io::{Input, Write};
use std::rt::{Env, Files};
use std::sync::Wait;
use std::thread::Threads;
use std::time::Clock;
use std::{env, thread};

/// Does what the words of the command line ask for, and gives the status to end with.
pub fn command_line<R, W, E>(rt: &R, streams: &mut Streams<'_, W, E>) -> u8
where
    R: Env
        + Files<File = File>
        + Input
        + Print
        + Eprint
        + AllocGlobal
        + Clock
        + Threads
        + Wait
        + Sync,
    W: Write,
    E: Write,
    ensures { result ≤ 4 }
{
    let alloc = rt.alloc();
    let words: Vec<String> = match env::args(rt) {
        Ok(args) => match args.collect(alloc) {
            Ok(words) => words,
            Err(_) => return report_no_memory(streams.err),
        },
        Err(error) => return report_unread_words(&error, streams.err),
    };
    let command = match make_command(alloc) {
        Ok(command) => command,
        Err(_) => return report_no_memory(streams.err),
    };
    match command.try_get_matches_from(words.as_slice()) {
        Ok(matches) => run_matches(rt, &matches, streams),
        Err(error) => {
            if error.print(rt).is_err() {
                return OUTSIDE;
            }
            if error.use_stderr() { USAGE } else { WELL }
        }
    }
}

/// Runs the subcommand that the words name, beside a sign of life where the second stream is a terminal.
fn run_matches<R, W, E>(rt: &R, matches: &ArgMatches<'_>, streams: &mut Streams<'_, W, E>) -> u8
where
    R: Files<File = File> + Input + Eprint + AllocGlobal + Clock + Threads + Wait + Sync,
    W: Write,
    E: Write,
    ensures { result ≤ 4 }
{
    let Some((name, words)) = matches.subcommand() else {
        return USAGE;
    };
    if streams.err_is_terminal {
        run_in_sight(rt, name, words, streams)
    } else {
        run_named(rt, name, words, streams)
    }
}

/// Runs the subcommand of this name, while a thread shows that it goes on. Without a thread there is no such line.
fn run_in_sight<R, W, E>(
    rt: &R,
    name: &str,
    words: &ArgMatches<'_>,
    streams: &mut Streams<'_, W, E>,
) -> u8
where
    R: Files<File = File> + Input + Eprint + AllocGlobal + Clock + Threads + Wait + Sync,
    W: Write,
    E: Write,
    ensures { result ≤ 4 }
{
    let (sign, task) = (streams.sign, task_of(name));
    thread::scope(
        thread::scope_env(),
        rt,
        |scope| -> u8
            requires runtime { IsSync R.row }
            ensures { result ≤ 4 }
        {
            let _ = scope.spawn(move || sign.show(rt, task));
            let status = run_named(rt, name, words, streams);
            sign.end(rt);
            status
        },
    )
}

/// What the subcommand of this name does, in words for the sign of life.
fn task_of(name: &str) -> Task {
    match name {
        "replay" => Task {
            before: "loading",
            after: "running",
        },
        "shell" => Task {
            before: "loading",
            after: "answering",
        },
        "check" | "checkpoint" | "postgresql" | "sqlite" => Task {
            before: "loading",
            after: "printing",
        },
        _ => Task {
            before: "loading and running",
            after: "printing",
        },
    }
}

/// Runs the subcommand of this name.
fn run_named<R, W, E>(
    rt: &R,
    name: &str,
    words: &ArgMatches<'_>,
    streams: &mut Streams<'_, W, E>,
) -> u8
where
    R: Files<File = File> + Input + AllocGlobal + Clock + Threads + Wait + Sync,
    W: Write,
    E: Write,
    ensures { result ≤ 4 }
{
    match name {
        "replay" => run(rt, Way::InOrder, words, streams),
        "threads" => run(rt, Way::OnThreads, words, streams),
        "shell" => serve(rt, words, streams),
        "checkpoint" => checkpoint(rt, words, streams),
        "journal" => show(rt, words, streams),
        "check" => check(rt, words, streams),
        "explain" => explain(rt, words, streams),
        "picture" => draw(rt, words, streams),
        "postgresql" => translate(rt, words, streams),
        "sqlite" => dump(rt, words, streams),
        _ => USAGE,
    }
}
