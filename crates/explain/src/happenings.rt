//! One event: its text, its answer, and what that rests on.

use crate::conflicts::add_reader;
use crate::faults::add_refusal;
use crate::stories::{
    MOST_LINES, Moment, Story, add_count, add_left_out, add_number, add_snapshot,
};
use alone::Answer;
use history::{End, Read, Transaction, add_bytes};
use printout::Printout;
use report::write_reply;
use std::alloc::{AllocError, Global};
use syntax::ScriptLine;
use table::Change;

/// Adds an event: its number, its line, its text, its answer as `replay` prints it, and what that rests on.
pub fn add_event(
    alloc: Global,
    story: Story<'_>,
    event: usize,
    out: &mut Printout,
) -> Result<(), AllocError> {
    let Some(script_line) = story.history.lines.as_slice().get(event) else {
        return Ok(());
    };
    let Some(moment) = Moment::of(story, event) else {
        return Ok(());
    };
    let answer = &moment.happening.answer;
    add_heading(story, event, out);
    add_answer(alloc, script_line, answer, out)?;
    match answer {
        Answer::Refused(refusal) => add_refusal(alloc, moment, refusal, out)?,
        _ => add_done(alloc, moment, out)?,
    }
    out.add("\n");
    Ok(())
}

/// Adds an event's number, line and text.
fn add_heading(story: Story<'_>, event: usize, out: &mut Printout) {
    add_number("event ", event, out);
    out.add(", line ");
    out.show(story.texts.events.line(event));
    out.add(": ");
    story.texts.events.add_piece(event, out);
    out.add("\n");
}

/// Adds an event's answer.
fn add_answer(
    alloc: Global,
    script_line: &ScriptLine,
    answer: &Answer,
    out: &mut Printout,
) -> Result<(), AllocError> {
    let mut line = Vec::new(alloc);
    // (a list of bytes takes all bytes for which there is memory)
    if write_reply(script_line, answer, &mut line).is_err() {
        return Err(AllocError);
    }
    add_bytes(line.as_slice(), out);
    Ok(())
}

/// Adds what an event that was not refused rests on.
fn add_done(alloc: Global, moment: Moment<'_>, out: &mut Printout) -> Result<(), AllocError> {
    let Some(it) = moment.transaction() else {
        return Ok(());
    };
    let (story, changes) = (moment.story, moment.happening.changes.as_slice());
    let is_commit = moment.event == it.ended && it.end == End::Committed;
    add_standing(story, it, is_commit, out);
    add_reads(alloc, moment, it, out)?;
    if is_commit {
        add_changes(story, "  its net change: ", it.changes.as_slice(), out);
    } else {
        add_changes(story, "  changed rows: ", changes, out);
    }
    Ok(())
}

/// Adds in which transaction an event stands; of a COMMIT its place in the serial order too.
fn add_standing(story: Story<'_>, it: &Transaction, is_commit: bool, out: &mut Printout) {
    add_number("  in the transaction of event ", it.begun, out);
    out.add(", ");
    add_snapshot(it, out);
    out.add("\n");
    if !is_commit {
        return;
    }
    if let Some(place) = story.history.place(it.number) {
        add_count("  place in the serial order: ", place, out);
    }
}

/// Adds what an event read, and by whom.
fn add_reads(
    alloc: Global,
    moment: Moment<'_>,
    it: &Transaction,
    out: &mut Printout,
) -> Result<(), AllocError> {
    let story = moment.story;
    let mut reads = Vec::new(alloc);
    push_reads(moment.event, it, &mut reads)?;
    add_count("  read: ", reads.len(), out);
    for read in reads.as_slice().iter().take(MOST_LINES) {
        out.add("    ");
        story.history.add_key(&read.key, out);
        add_reader(story, read.reader, out);
        out.add("\n");
    }
    add_left_out("    ", reads.len(), out);
    Ok(())
}

/// Lists what an event read, each key once for each that read it.
fn push_reads<'a>(
    event: usize,
    it: &'a Transaction,
    reads: &mut Vec<&'a Read>,
) -> Result<(), AllocError> {
    for read in &it.reads {
        if read.event == event && !reads.iter().any(|other| read.is_again(other)) {
            reads.push(read)?;
        }
    }
    Ok(())
}

/// Adds changes of rows, ten at most.
fn add_changes(story: Story<'_>, front: &str, changes: &[Change], out: &mut Printout) {
    add_count(front, changes.len(), out);
    for change in changes.iter().take(MOST_LINES) {
        out.add("    ");
        story.history.add_change(change, out);
        out.add("\n");
    }
    add_left_out("    ", changes.len(), out);
}
