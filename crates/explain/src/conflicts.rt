//! Commits in the way of one that was refused.

use crate::stories::{MOST_LINES, Story, add_count, add_left_out, add_number, add_snapshot};
use history::{Conflict, End, Happening, Reader, Transaction, push_conflicts};
use printout::Printout;
use siread::is_same;
use std::alloc::{AllocError, Global};
use table::Change;
use value::{Party, Value};

/// Adds the name of a transaction: a commit by its number, or the one that was refused.
fn add_name(it: &Transaction, out: &mut Printout) {
    match it.end {
        End::Committed => {
            out.add("commit ");
            out.show(it.number);
        }
        _ => out.add("this transaction"),
    }
}

/// Adds who a transaction is: its name, its session, its events and its snapshot.
fn add_who(story: Story<'_>, it: &Transaction, out: &mut Printout) {
    add_name(it, out);
    if let Some(name) = story.history.session(it.session) {
        out.add(" (session ");
        out.show(name);
        add_number(", events ", it.begun, out);
        add_number(" to ", it.ended, out);
        out.add(", ");
    }
    add_snapshot(it, out);
    out.add(")");
}

/// Adds the row that both a refused transaction and a commit after its snapshot changed.
pub fn add_write_conflict(
    story: Story<'_>,
    this: &Transaction,
    key: &Value,
    by: u64,
    out: &mut Printout,
) {
    let Some(other) = story.history.commit(by) else {
        return;
    };
    out.add("  in the way: ");
    add_who(story, other, out);
    out.add("\n  both changed one row, and the first to commit wins:\n");
    let shared = this.changes.as_slice().iter().find(|it| is_same(&it.key, key)
        && change_of_row(other, it).is_some());
    let Some(shared) = shared else {
        return;
    };
    add_change_of(story, this, shared, out);
    if let Some(change) = change_of_row(other, shared) {
        add_change_of(story, other, change, out);
    }
}

/// What a transaction did to the row of a change, if it changed it.
fn change_of_row<'a>(other: &'a Transaction, change: &Change) -> Option<&'a Change> {
    other
        .changes
        .as_slice()
        .iter()
        .find(|it| is_of_row(it, change))
}

/// Whether two changes are of one row.
fn is_of_row(one: &Change, other: &Change) -> bool {
    one.table == other.table && is_same(&one.key, &other.key)
}

/// Adds what a transaction did to a row, and the statements that did.
fn add_change_of(story: Story<'_>, it: &Transaction, change: &Change, out: &mut Printout) {
    out.add("    ");
    add_name(it, out);
    out.add(": ");
    story.history.add_change(change, out);
    add_changers(story, it, change, out);
    out.add("\n");
}

/// Adds the events of a transaction that changed a row.
fn add_changers(story: Story<'_>, it: &Transaction, change: &Change, out: &mut Printout) {
    let mut front = ", by event ";
    for (event, happening) in story.history.events.as_slice().iter().enumerate() {
        if it.begun <= event && event <= it.ended && is_changer(it, happening, change) {
            add_number(front, event, out);
            front = " and ";
        }
    }
}

/// Whether an event of a transaction changed a row and was not refused.
fn is_changer(it: &Transaction, happening: &Happening, change: &Change) -> bool {
    happening.session == it.session
        && happening.view.is_none()
        && happening
            .changes
            .as_slice()
            .iter()
            .any(|made| is_of_row(made, change))
}

/// A transaction of a dangerous triple, by the part that it has there.
#[derive(Clone, Copy)]
struct Role<'a> {
    name: &'static str,
    transaction: &'a Transaction,
}

/// Adds the two conflicts of a dangerous triple of a reader, a pivot and a writer.
pub fn add_triple(
    alloc: Global,
    story: Story<'_>,
    this: &Transaction,
    parties: [Party; 3],
    out: &mut Printout,
) -> Result<(), AllocError> {
    let [reader, pivot, writer] = parties;
    let (Some(reader), Some(pivot), Some(writer)) = (
        role_of(story, this, "reader", reader),
        role_of(story, this, "pivot", pivot),
        role_of(story, this, "writer", writer),
    ) else {
        return Ok(());
    };
    out.add("  a dangerous triple: reader, pivot and writer may have no serial order\n");
    for role in &[reader, pivot, writer] {
        add_role(story, *role, out);
    }
    add_reach(reader, writer, out);
    add_edge(alloc, story, reader, pivot, out)?;
    add_edge(alloc, story, pivot, writer, out)
}

/// Adds who has a part of a triple.
fn add_role(story: Story<'_>, role: Role<'_>, out: &mut Printout) {
    out.add_all(&["  ", role.name, ": "]);
    add_who(story, role.transaction, out);
    out.add("\n");
}

/// Adds why a reader that is read only is in danger: its snapshot holds the writer.
fn add_reach(reader: Role<'_>, writer: Role<'_>, out: &mut Printout) {
    if reader.transaction.read_only {
        out.add("  the reader is read only, and its snapshot ");
        out.show(reader.transaction.snapshot);
        out.add(" holds the writer, commit ");
        out.show(writer.transaction.number);
        out.add("\n");
    }
}

/// The transaction that a refusal names, with this part.
fn role_of<'a>(
    story: Story<'a>,
    this: &'a Transaction,
    name: &'static str,
    party: Party,
) -> Option<Role<'a>> {
    let transaction = match party {
        Party::This => this,
        Party::Number(number) => story.history.commit(number)?,
    };
    Some(Role { name, transaction })
}

/// Adds what one transaction read that another changed.
fn add_edge(
    alloc: Global,
    story: Story<'_>,
    from: Role<'_>,
    to: Role<'_>,
    out: &mut Printout,
) -> Result<(), AllocError> {
    let mut conflicts = Vec::new(alloc);
    let mut firsts = Vec::new(alloc);
    push_conflicts(from.transaction, to.transaction, &mut conflicts)?;
    push_firsts(conflicts.as_slice(), &mut firsts)?;
    out.add_all(&[
        "  the ",
        from.name,
        " read what the ",
        to.name,
        " changed and neither saw the other",
    ]);
    add_count(", by keys: ", firsts.len(), out);
    for conflict in firsts.as_slice().iter().take(MOST_LINES) {
        add_conflict(story, *conflict, conflicts.as_slice(), out);
    }
    add_left_out("    ", firsts.len(), out);
    Ok(())
}

/// Lists of some conflicts the first of each key and reader.
fn push_firsts<'a>(
    conflicts: &[Conflict<'a>],
    firsts: &mut Vec<Conflict<'a>>,
) -> Result<(), AllocError> {
    for conflict in conflicts {
        if !firsts.iter().any(|it| it.read.is_again(conflict.read)) {
            firsts.push(*conflict)?;
        }
    }
    Ok(())
}

/// Adds a key with who read it and when, and the change that touches it.
fn add_conflict(
    story: Story<'_>,
    conflict: Conflict<'_>,
    conflicts: &[Conflict<'_>],
    out: &mut Printout,
) {
    out.add("    ");
    story.history.add_key(&conflict.read.key, out);
    add_reader(story, conflict.read.reader, out);
    add_events_of(conflict, conflicts, out);
    out.add("; changed was ");
    story.history.add_change(conflict.change, out);
    out.add("\n");
}

/// Adds the events at which the key of a conflict was read by the same reader.
fn add_events_of(conflict: Conflict<'_>, conflicts: &[Conflict<'_>], out: &mut Printout) {
    let mut front = " at event ";
    let mut last = None;
    for other in conflicts {
        let event = other.read.event;
        if conflict.read.is_again(other.read) && last != Some(event) {
            add_number(front, event, out);
            front = " and ";
            last = Some(event);
        }
    }
}

/// Adds who read a key.
pub fn add_reader(story: Story<'_>, reader: Reader, out: &mut Printout) {
    match reader {
        Reader::Statement => out.add(", read by the statement"),
        Reader::Check(place) => {
            if let Some(name) = story.history.assertion(place) {
                out.add(", read by the check of ");
                out.show(name);
            }
        }
    }
}
