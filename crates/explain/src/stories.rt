//! What is explained, and the lines of an explanation as they grow.

use history::{Happening, History, Source, Transaction};
use printout::Printout;
use std::alloc::{AllocError, Global};

/// Lists are cut after so many lines.
pub const MOST_LINES: usize = 10;

/// The two texts of a run.
#[derive(Drop)]
pub struct Texts<'a> {
    pub definitions: Source<'a>,
    pub events: Source<'a>,
}

impl<'a> Texts<'a> {
    /// Of definitions and a script, which were not read yet.
    pub fn new(alloc: Global, defs: &'a [u8], script: &'a [u8]) -> Texts<'a> {
        Texts {
            definitions: Source::new(alloc, defs),
            events: Source::new(alloc, script),
        }
    }

    /// Finds the definitions and the events in their texts.
    pub fn read(&mut self, alloc: Global) -> Result<(), AllocError> {
        self.definitions.read(alloc)?;
        self.events.read(alloc)
    }
}

/// A run of a script, with the texts that it is of.
#[derive(Clone, Copy)]
pub struct Story<'a> {
    pub history: &'a History,
    pub texts: &'a Texts<'a>,
}

/// An event of a story, by its place in the script.
#[derive(Clone, Copy)]
pub struct Moment<'a> {
    pub story: Story<'a>,
    pub event: usize,
    pub happening: &'a Happening,
}

impl<'a> Moment<'a> {
    /// The event at a place.
    pub fn of(story: Story<'a>, event: usize) -> Option<Moment<'a>> {
        let happening = story.history.events.as_slice().get(event)?;
        Some(Moment {
            story,
            event,
            happening,
        })
    }

    /// The transaction in which it stands.
    pub fn transaction(self) -> Option<&'a Transaction> {
        let transactions = self.story.history.transactions.as_slice();
        transactions.get(self.happening.transaction?)
    }
}

/// Adds what a transaction sees, and whether it is read only.
pub fn add_snapshot(it: &Transaction, out: &mut Printout) {
    out.add("snapshot ");
    out.show(it.snapshot);
    if it.read_only {
        out.add(", read only");
    }
}

/// Adds an event by its number, which is counted from 1, behind a text.
pub fn add_number(front: &str, event: usize, out: &mut Printout) {
    out.add(front);
    out.show(event.saturating_add(1));
}

/// Adds how many items a list has, behind a text, and ends the line.
pub fn add_count(front: &str, count: usize, out: &mut Printout) {
    out.add(front);
    out.show(count);
    out.add("\n");
}

/// Adds how many lines of a list are left out, if some are.
pub fn add_left_out(front: &str, count: usize, out: &mut Printout) {
    let left = count.saturating_sub(MOST_LINES);
    if left > 0 {
        out.add(front);
        out.add("and ");
        out.show(left);
        out.add(" more\n");
    }
}
