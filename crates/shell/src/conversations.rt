//! The shell at a terminal.

ghost use Rattle.std.specs.Prelude.{◌≡◌, ◌≤◌, true, IfErr};
ghost use Rattle.shell.specs.Shell.{IsFirstFault, IsInTheTalk, is_before_the_talk};

use crate::commands::{Command, command_of, tell};
use crate::faults::ShellFault;
use crate::headings::is_blank;
use crate::shells::{Shell, begin_shell, fault_of_reader, write_out};
use std::alloc::Global;
use std::io::{BufRead, Write};

/// Before an event, and inside one.
const PROMPT: &str = "skewguard> ";

const PROMPT_INSIDE: &str = "      ...> ";

/// Talks to a person: as [`shell_into`](crate::shell_into), with a prompt before each line, and with the commands that
/// `.help` lists, each on a line of its own between two events.
///
/// # Errors
///
/// Those of [`shell_into`](crate::shell_into). At a fault of the definitions nothing was read or written.
#[tactic(auto, using(crate::proofs::Talking::late_faults, crate::proofs::Talking::late_fault, crate::proofs::Talking::were_begun, crate::proofs::Talking::was_begun, crate::proofs::Talking::taken_of))]
pub fn converse_into<R: BufRead, W: Write>(
    alloc: Global,
    defs: &[u8],
    max_commits: u32,
    with_report: bool,
    input: &mut R,
    out: &mut W,
) -> Result<(), ShellFault>
    ensures refused { IfErr result (IsFirstFault defs.now) }
    ensures nothing { IfErr result (λ fault. is_before_the_talk fault ≡ true
        → (input.new ≡ input.old) × (out.new ≡ out.old)) }
{
    let mut shell = match begin_shell(alloc, defs, max_commits) {
        Ok(shell) => shell,
        Err(fault) => return Err(ShellFault::Run(fault)),
    };
    talk(&mut shell, input, out)?;
    shell.finish(with_report, out)
}

/// Takes lines up to the end of the input, or to `.quit`.
#[tactic(auto, using(crate::proofs::Refusals::late_output))]
fn talk<R: BufRead, W: Write>(
    shell: &mut Shell,
    input: &mut R,
    out: &mut W,
) -> Result<(), ShellFault>
    ensures { IfErr result IsInTheTalk }
{
    let mut line = Vec::new(shell.alloc);
    for _ in 0..u64::MAX {
        ask(shell, out)?;
        line.clear();
        match input.read_until(b'\n', &mut line) {
            Err(error) => return Err(fault_of_reader(&error)),
            Ok(0) => return write_out(b"\n", out),
            Ok(_) => {}
        }
        if !take_line(shell, line.as_slice(), out)? {
            return Ok(());
        }
    }
    Ok(())
}

/// Writes the prompt.
#[tactic(auto, using(crate::proofs::Refusals::late_output))]
fn ask<W: Write>(shell: &Shell, out: &mut W) -> Result<(), ShellFault>
    ensures { IfErr result IsInTheTalk }
{
    let prompt = if is_blank(shell.cutter.bytes()) {
        PROMPT
    } else {
        PROMPT_INSIDE
    };
    write_out(prompt.as_bytes(), out)
}

/// Does what a line says. False: it says that the talk is over.
fn take_line<W: Write>(shell: &mut Shell, line: &[u8], out: &mut W) -> Result<bool, ShellFault>
    ensures { IfErr result IsInTheTalk }
{
    let words = line.trim_ascii();
    if words.starts_with(b".") && is_blank(shell.cutter.bytes()) {
        shell.cutter.skip(line.len());
        let command = command_of(words);
        tell(shell, command, out)?;
        return Ok(command != Command::Quit);
    }
    let mut text = line;
    shell.feed(&mut text, out)?;
    Ok(true)
}
