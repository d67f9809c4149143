//! The pieces of the closing part.

ghost use Rattle.std.specs.Prelude.{◌≡◌, OnOk};
ghost use Rattle.std.specs.Io.KnownBytes.{Appends};
ghost use Rattle.report.specs.Closing.{commit_line, commit_lines, commits_part, count_line, refused_line};
ghost use Rattle.report.specs.Closing.{refused_lines, refused_part, serial_line, numbers_behind_spaces, verdict_line};

use crate::lines::{
    write_fault, write_named, write_number, write_numbered, write_text, write_word,
};
use alone::{Record, RefusedCommit};
use std::io;
use std::io::Write;
use value::{Text, Truth};

/// How many commits, and a line for each.
pub fn write_commits<W: Write>(commits: &[Record], out: &mut W) -> io::Result<()>
    ensures { OnOk result (Appends (W.contents out.old) (W.contents out.new) (commits_part commits.now)) }
{
    write_count("COMMITS ", commits.len(), out)?;
    write_commit_lines(commits, out)
}

fn write_commit_lines<W: Write>(commits: &[Record], out: &mut W) -> io::Result<()>
    ensures { OnOk result (Appends (W.contents out.old) (W.contents out.new) (commit_lines commits.now)) }
{
    for commit in commits {
        write_commit(commit, out)?;
    }
    Ok(())
}

/// The line of a commit.
#[tactic(auto, using(crate::proofs::Chains::appends_more), unfolding(crate::specs::Closing::commit_line))]
pub fn write_commit<W: Write>(commit: &Record, out: &mut W) -> io::Result<()>
    ensures { OnOk result (Appends (W.contents out.old) (W.contents out.new) (commit_line commit.now)) }
{
    write_number(commit.number, out)?;
    write_named(" ", &commit.session, out)?;
    write_numbered(" SNAPSHOT ", commit.snapshot, out)?;
    write_count(" ROWS ", commit.changes.len(), out)
}

/// The line of the serial order.
pub fn write_serial_order<W: Write>(order: &[u64], out: &mut W) -> io::Result<()>
    ensures { OnOk result (Appends (W.contents out.old) (W.contents out.new) (serial_line order.now)) }
{
    write_word("SERIAL", out)?;
    write_spaced(order, out)?;
    write_word("\n", out)
}

/// Numbers, each behind a space.
fn write_spaced<W: Write>(numbers: &[u64], out: &mut W) -> io::Result<()>
    ensures { OnOk result (Appends (W.contents out.old) (W.contents out.new) (numbers_behind_spaces numbers.now)) }
{
    for number in numbers {
        write_numbered(" ", *number, out)?;
    }
    Ok(())
}

/// How many COMMITs were refused, and a line for each.
pub fn write_refused<W: Write>(refused: &[RefusedCommit], out: &mut W) -> io::Result<()>
    ensures { OnOk result (Appends (W.contents out.old) (W.contents out.new) (refused_part refused.now)) }
{
    write_count("REFUSED ", refused.len(), out)?;
    write_refused_lines(refused, out)
}

fn write_refused_lines<W: Write>(refused: &[RefusedCommit], out: &mut W) -> io::Result<()>
    ensures { OnOk result (Appends (W.contents out.old) (W.contents out.new) (refused_lines refused.now)) }
{
    for commit in refused {
        write_refused_commit(commit, out)?;
    }
    Ok(())
}

/// The line of a refused COMMIT: its session, and why.
pub fn write_refused_commit<W: Write>(refused: &RefusedCommit, out: &mut W) -> io::Result<()>
    ensures { OnOk result (Appends (W.contents out.old) (W.contents out.new) (refused_line refused.now)) }
{
    write_text(&refused.session, out)?;
    write_word(" ", out)?;
    write_fault(true, &refused.refusal, out)?;
    write_word("\n", out)
}

/// The line of an assertion.
pub fn write_verdict<W: Write>(name: &Text, verdict: Truth, out: &mut W) -> io::Result<()>
    ensures { OnOk result (Appends (W.contents out.old) (W.contents out.new) (verdict_line name.now verdict)) }
{
    write_text(name, out)?;
    write_word(" ", out)?;
    write_word(verdict.name(), out)?;
    write_word("\n", out)
}

/// A word, how many there are, and the end of the line.
#[tactic(auto, using(crate::proofs::Chains::appends_more), unfolding(crate::specs::Closing::count_line))]
pub fn write_count<W: Write>(word: &str, count: usize, out: &mut W) -> io::Result<()>
    ensures { OnOk result (Appends (W.contents out.old) (W.contents out.new) (count_line word.now count)) }
{
    write_numbered(word, count as u64, out)?;
    write_word("\n", out)
}
