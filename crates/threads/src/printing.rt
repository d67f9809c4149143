//! The report of threads.

ghost use Rattle.std.specs.Prelude.{◌≡◌, ◌≢◌, true, false, length, is_some, IfErr, OnOk};
ghost use Rattle.std.specs.Io.KnownBytes.{Appends};
ghost use Rattle.replay.specs.declared.faults.ProgramFault.TheVariants.{NoThread, Stopped};
ghost use Rattle.replay.specs.Texts.{IsInTheRun};
ghost use Rattle.threads.specs.Grouped.{AreAsMany, PrintsGrouped, all_ran, all_script_reports, ended_line, grouped_report, script_report};
ghost use Rattle.threads.specs.Marked.{first_mark, lines_of, marked_line, marked_lines, marks_behind};

use crate::scripts::{Script, ScriptAnswers};
use alone::Answer;
use commit::Core;
use replay::{ProgramFault, write_closing_part, write_replies};
use report::{write_left_open, write_not_kept, write_reply};
use session::{History, Named};
use std::io;
use std::io::Write;
use syntax::ScriptLine;
use value::Text;

/// Writes what is reported of each script, and then the closing part of the commits that are left, and flushes the
/// writer. Where commits were kept, `next` is the number of the next one, and a COMMIT that could not be kept has a
/// line of its own.
///
/// # Errors
///
/// [`ProgramFault::NoThread`] where a script was not run: the whole report was then written.
/// [`ProgramFault::Stopped`] where the history is not over the tables that the manager loaded, or other commits are
/// left than were kept, which no call brings about: nothing was then written. Or [`ProgramFault::Output`].
#[tactic(auto, using(crate::proofs::Reporting::prints))]
pub fn print_report<N: Named, W: Write>(
    history: &History<N>,
    next: Option<u64>,
    scripts: &[Script],
    answered: &[ScriptAnswers],
    out: &mut W,
) -> Result<(), ProgramFault>
    ensures written { OnOk result
        (PrintsGrouped scripts.now answered.now history.now.loaded.value.view (N.limits history.now.id).commits next
        true (W.contents out.old) (W.contents out.new)) }
    ensures no_thread { IfErr result (λ fault. fault ≡ NoThread
        → PrintsGrouped scripts.now answered.now history.now.loaded.value.view (N.limits history.now.id).commits next
        false (W.contents out.old) (W.contents out.new)) }
    ensures late { IfErr result (λ fault. fault ≢ NoThread → IsInTheRun fault) }
    ensures stopped { IfErr result (λ fault. fault ≡ Stopped → out.new ≡ out.old) }
{
    if history.loaded().is_none() {
        return Err(ProgramFault::Stopped);
    }
    history.recall_serializability();
    let core = history.core();
    if !are_as_many(core, next) {
        return Err(ProgramFault::Stopped);
    }
    write_report(core, next.is_some(), scripts, answered, out)?;
    if have_all_run(answered) {
        Ok(())
    } else {
        Err(ProgramFault::NoThread)
    }
}

/// Whether there are as many commits as were kept, if they were kept: those before this number.
fn are_as_many(core: &Core, next: Option<u64>) -> bool
    ensures holds { result ≡ true → AreAsMany (length core.now.records) next }
    ensures fails { result ≡ false → AreAsMany (length core.now.records) next → ⊥ }
{
    match next {
        Some(next) => core.records().len() as u64 + 1 == next,
        None => true,
    }
}

/// Whether each script was run.
fn have_all_run(answered: &[ScriptAnswers]) -> bool
    ensures { result ≡ all_ran answered.now }
{
    answered.iter().all(|script| script.ran)
}

/// Writes the report whole, and flushes the writer.
#[tactic(auto, using(report::proofs::Chains::appends_more, report::proofs::Chains::appends_kept))]
fn write_report<W: Write>(
    core: &Core,
    are_kept: bool,
    scripts: &[Script],
    answered: &[ScriptAnswers],
    out: &mut W,
) -> io::Result<()>
    ensures { OnOk result
        (Appends (W.contents out.old) (W.contents out.new)
        (grouped_report are_kept scripts.now answered.now core.now)) }
{
    write_scripts(are_kept, scripts, answered, out)?;
    write_closing_part(core, out)?;
    out.flush()
}

/// Writes what is reported of each script.
fn write_scripts<W: Write>(
    are_kept: bool,
    scripts: &[Script],
    answered: &[ScriptAnswers],
    out: &mut W,
) -> io::Result<()>
    ensures { OnOk result
        (Appends (W.contents out.old) (W.contents out.new) (all_script_reports are_kept scripts.now answered.now)) }
{
    let mut left = answered;
    for script in scripts {
        let Some((found, others)) = left.split_first() else {
            return Ok(());
        };
        write_script(are_kept, script, found, out)?;
        left = others;
    }
    Ok(())
}

/// Writes the lines of a script's answers, and of a transaction that was rolled back at its end.
#[tactic(auto, using(report::proofs::Chains::appends_more))]
fn write_script<W: Write>(
    are_kept: bool,
    script: &Script,
    found: &ScriptAnswers,
    out: &mut W,
) -> io::Result<()>
    ensures { OnOk result
        (Appends (W.contents out.old) (W.contents out.new) (script_report are_kept script.now found.now)) }
{
    write_lines(are_kept, script.lines.as_slice(), found, out)?;
    write_end(&script.name, found.rolled_back, out)
}

/// Writes the lines of a script's answers. Where commits are kept, those of COMMITs that could not be have lines of
/// their own.
fn write_lines<W: Write>(
    are_kept: bool,
    lines: &[ScriptLine],
    found: &ScriptAnswers,
    out: &mut W,
) -> io::Result<()>
    ensures { OnOk result
        (Appends (W.contents out.old) (W.contents out.new) (lines_of are_kept lines.now found.now)) }
{
    let answers = found.answers.as_slice();
    if are_kept {
        write_marked_lines(lines, answers, found.unkept.as_slice(), out)
    } else {
        write_replies(lines, answers, out)
    }
}

fn write_end<W: Write>(session: &Text, rolled_back: bool, out: &mut W) -> io::Result<()>
    ensures { OnOk result (Appends (W.contents out.old) (W.contents out.new) (ended_line rolled_back session.now)) }
{
    if rolled_back {
        write_left_open(session, out)?;
    }
    Ok(())
}

/// Writes the line of each answer, or, where it is marked, of a COMMIT that could not be kept.
fn write_marked_lines<W: Write>(
    lines: &[ScriptLine],
    answers: &[Answer],
    unkept: &[bool],
    out: &mut W,
) -> io::Result<()>
    ensures { OnOk result
        (Appends (W.contents out.old) (W.contents out.new) (marked_lines lines.now answers.now unkept.now)) }
{
    let mut left = answers;
    let mut marks = unkept;
    for line in lines {
        let Some((answer, others)) = left.split_first() else {
            return Ok(());
        };
        write_marked_line(line, answer, first_mark(marks), out)?;
        left = others;
        marks = marks_behind(marks);
    }
    Ok(())
}

fn write_marked_line<W: Write>(
    line: &ScriptLine,
    answer: &Answer,
    is_unkept: bool,
    out: &mut W,
) -> io::Result<()>
    ensures { OnOk result
        (Appends (W.contents out.old) (W.contents out.new) (marked_line is_unkept line.now answer.now)) }
{
    if is_unkept {
        write_not_kept(&line.session, out)
    } else {
        write_reply(line, answer, out)
    }
}

/// The mark of the next line.
fn first_mark(marks: &[bool]) -> bool
    ensures { result ≡ first_mark marks.now }
{
    match marks.split_first() {
        Some((mark, _)) => *mark,
        None => false,
    }
}

/// The marks of the lines behind the next.
fn marks_behind(marks: &[bool]) -> &[bool]
    ensures { result.now ≡ marks_behind marks.now }
{
    match marks.split_first() {
        Some((_, behind)) => behind,
        None => marks,
    }
}
